// Numbers as text.
ghost use Rattle.std.specs.Prelude.{◌≡◌, ℕ, List, ◌∷◌, ◌++◌};
ghost use Rattle.text.specs.Text.{blank, decimal, integer, words_text};

use crate::buffer::{Text, Writable};
use numbers::units::Pesos;

// The most bytes of a number of 64 bits.
pub const DIGITS: usize = 20;

// A number that is shown in decimal, with a minus sign in front where it is below zero.
pub trait Decimal: Copy {
    ghost shown: { Self → List ℕ };

    // As a text of its own.
    fn decimal(self) -> Text<DIGITS>
        ensures { result ≡ shown self };

    // Written to a text. A type whose digits are at hand writes them straight to it, so that they are copied once.
    fn write_to<T: Writable>(self, text: &mut T)
        ensures { text.new ≡ T.after (shown self) text.old }
    {
        text.push_all(self.decimal().as_bytes());
    }
}

impl Decimal for u64 {
    ghost shown = { decimal };

    fn decimal(self) -> Text<DIGITS> {
        let mut text = Text::new();
        self.write_to(&mut text);
        text
    }

    fn write_to<T: Writable>(self, text: &mut T) {
        let mut digits = [0u8; DIGITS];
        let size = io::decimal(self, &mut digits);
        text.push_all(&digits[..size]);
    }
}

impl Decimal for u8 {
    ghost shown = { decimal };

    fn decimal(self) -> Text<DIGITS> {
        u64::from(self).decimal()
    }

    fn write_to<T: Writable>(self, text: &mut T) {
        u64::from(self).write_to(text);
    }
}

impl Decimal for i64 {
    ghost shown = { integer };

    fn decimal(self) -> Text<DIGITS> {
        let mut text = Text::new();
        self.write_to(&mut text);
        text
    }

    fn write_to<T: Writable>(self, text: &mut T) {
        if self >= 0 {
            return self.unsigned_abs().write_to(text);
        }
        text.push(b'-');
        self.unsigned_abs().write_to(text);
    }
}

impl Decimal for Pesos {
    ghost shown = { λ money. integer money.0 };

    fn decimal(self) -> Text<DIGITS> {
        self.0.decimal()
    }

    fn write_to<T: Writable>(self, text: &mut T) {
        self.0.write_to(text);
    }
}

// Writes a number.
pub(crate) fn write_decimal<T: Writable, N: Decimal>(text: &mut T, x: N)
    ensures { text.new ≡ T.after (N.shown x) text.old }
{
    x.write_to(text);
}

// Writes a blank and a number.
pub fn write_word<T: Writable, N: Decimal>(text: &mut T, x: N)
    ensures { text.new ≡ T.after (blank ∷ N.shown x) text.old }
{
    text.push(b' ');
    write_decimal(text, x);
}

// Writes a name, and a number after a blank.
pub fn write_item<T: Writable, N: Decimal>(text: &mut T, name: &[u8], x: N)
    ensures { text.new ≡ T.after (name.now ++ blank ∷ N.shown x) text.old }
{
    text.push_all(name);
    write_word(text, x);
}

// Writes numbers, each after a blank.
pub fn write_words<T: Writable, N: Decimal>(text: &mut T, numbers: &[N])
    ensures { text.new ≡ T.after (words_text N.shown numbers.now) text.old }
{
    for number in numbers {
        write_word(text, *number);
    }
}

#[cfg(test)]
mod tests {
    use super::*;

    // A number of which only its text is at hand.
    #[derive(Clone, Copy)]
    struct Sector(u64);

    impl Decimal for Sector {
        ghost shown = { λ sector. decimal sector.0 };

        fn decimal(self) -> Text<DIGITS> {
            self.0.decimal()
        }
    }

    #[test]
    fn written_by_its_text(rt: HostRuntime) {
        let mut text: Text<8> = Text::new();
        write_words(&mut text, &[Sector(7), Sector(40)]);
        assert_eq!(rt; text.as_bytes(), b" 7 40".as_slice());
    }
}
