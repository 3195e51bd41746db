// A lent buffer that bytes are written to after those that it holds. What does not fit is left out, and what stands past
// the count stays. Buffer and count stand side by side, since the buffer and its length are the caller's.
ghost use Rattle.std.specs.Prelude.{◌≡◌};
ghost use Rattle.text.specs.Lent.{buffer_of, filled};

use crate::buffer::Writable;

// The buffer, and how many of its bytes are written.
#[derive(Drop)]
pub struct LentText<'a> {
    pub buffer: &'a mut [u8],
    pub count: usize,
}

impl<'a> Writable for LentText<'a> {
    ghost use Rattle.text.specs.LentText.{lent_after, lent_none, lent_both};

    ghost after = { lent_after };

    ghost after_none = { lent_none };

    ghost after_both = { lent_both };

    fn push(&mut self, byte: u8) {
        if self.count < self.buffer.len() {
            self.buffer[self.count] = byte;
            self.count += 1;
        }
    }

    // The count is kept apart meanwhile, as in a text of its own.
    fn push_all(&mut self, bytes: &[u8]) {
        let mut count = self.count;
        for byte in bytes {
            if count < self.buffer.len() {
                self.buffer[count] = *byte;
                count += 1;
            }
        }
        self.count = count;
    }
}

// Writes bytes to a lent buffer after those that it holds, and answers how many it holds then.
pub fn write_lent(buffer: &mut [u8], count: usize, bytes: &[u8]) -> usize
    ensures { buffer_of buffer.new result ≡ filled bytes.now (buffer_of buffer.old count) }
{
    let mut lent = LentText { buffer, count };
    lent.push_all(bytes);
    lent.count
}
