// A text that is written byte after byte, of at most so many bytes; what does not fit is left out. In clauses it is
// the list of the bytes written so far.
ghost use Rattle.std.specs.Prelude.{◌≡◌, ◌≤◌, ℕ, List, [], ◌∷◌, ◌++◌, length};
ghost use Rattle.text.specs.Buffer.{written, written_none, written_after};

use std::marker::Model;

// What bytes are written to one after another, as long as there is room: a text of its own, or a lent buffer.
pub trait Writable {
    // What it is after a text.
    ghost after: { List ℕ → Self → Self };

    // Writes a byte.
    fn push(&mut self, byte: u8)
        ensures { self.new ≡ after (byte ∷ []) self.old };

    // Writes bytes.
    fn push_all(&mut self, bytes: &[u8])
        ensures { self.new ≡ after bytes.now self.old };

    // No text changes nothing, and two texts one after another are one.
    ghost after_none: { (held : Self) → after [] held ≡ held };

    ghost after_both: { (a b : List ℕ) (held next last : Self) → next ≡ after a held → last ≡ after b next →
        last ≡ after (a ++ b) held };
}

#[derive(Drop)]
pub struct Text<const SIZE: usize> {
    bytes: [u8; SIZE],
    count: usize,
}

impl<const SIZE: usize> Model for Text<SIZE> {
    ghost use Rattle.std.specs.Prelude.{ℕ, List, ◌≤◌, take};

    ghost Value = { List ℕ };

    ghost view = { λ text. take text.count text.bytes };

    ghost invariant = { λ text. text.count ≤ SIZE };
}

impl<const SIZE: usize> Text<SIZE> {
    pub fn new() -> Self
        ensures { result ≡ [] }
    {
        Text {
            bytes: [0; SIZE],
            count: 0,
        }
    }

    // The bytes written so far.
    pub fn as_bytes(&self) -> &[u8]
        ensures value { result.now ≡ self.now }
        ensures fits { length result.now ≤ SIZE }
    {
        &self.bytes[..self.count]
    }

    pub fn clear(&mut self)
        ensures { self.new ≡ [] }
    {
        self.count = 0;
    }

    // Writes a byte. A full text stays as it is.
    pub fn push(&mut self, byte: u8)
        ensures { self.new ≡ written SIZE (byte ∷ []) self.old }
    {
        if self.count < SIZE {
            self.bytes[self.count] = byte;
            self.count += 1;
        }
    }

    // Writes bytes, as many as fit. The count is kept apart meanwhile, so that no byte waits for it.
    pub fn push_all(&mut self, bytes: &[u8])
        ensures { self.new ≡ written SIZE bytes.now self.old }
    {
        let mut count = self.count;
        for byte in bytes {
            if count < SIZE {
                self.bytes[count] = *byte;
                count += 1;
            }
        }
        self.count = count;
    }
}

impl<const SIZE: usize> Writable for Text<SIZE> {
    ghost after = { written SIZE };

    ghost after_none = { written_none SIZE };

    ghost after_both = { written_after SIZE };

    fn push(&mut self, byte: u8) {
        Text::push(self, byte);
    }

    fn push_all(&mut self, bytes: &[u8]) {
        Text::push_all(self, bytes);
    }
}
