// Reading on from a place in a journal: the next word or number. What cannot be read is told by the byte where its
// token starts.
ghost use Rattle.std.specs.Prelude.{◌≡◌};
ghost use Rattle.text.specs.Text.{name_text};
ghost use Rattle.journal.specs.Cursor.{and_then, token_read, at_most, word_after, number_after};

use crate::number::read_digits;
use crate::token::{Token, next_token};
use text::name::{NAME, name_bytes};

// The byte where the token starts that cannot be read.
#[derive(Clone, Copy, PartialEq, Eq)]
pub struct Unreadable(pub usize);

// What was read, and how far the text is read with it. A text and a place in it stay two parameters of what reads: each
// reading answers a new place, and the definitions take both.
#[derive(Clone, Copy)]
pub struct Read<T> {
    pub value: T,
    pub next: usize,
}

impl Token {
    // What the token is read as.
    pub(crate) fn read<T>(self, value: Option<T>) -> Result<Read<T>, Unreadable>
        ensures { result ≡ token_read self value }
    {
        match value {
            Some(value) => Ok(Read {
                value,
                next: self.end,
            }),
            None => Err(Unreadable(self.start)),
        }
    }
}

// Reads the given name: how far the text is read with it.
pub(crate) fn next_name(text: &[u8], at: usize, name: [u8; NAME]) -> Result<usize, Unreadable>
    ensures { result ≡ word_after text.now at (name_text name) }
{
    let token = next_token(text, at);
    if token.bytes(text) == name_bytes(&name) {
        return Ok(token.end);
    }
    Err(Unreadable(token.start))
}

// A number that is not above the most.
fn at_most(number: Option<u64>, most: u64) -> Option<u64>
    ensures { result ≡ at_most number most }
{
    match number {
        Some(value) if value <= most => Some(value),
        _ => None,
    }
}

// Reads a number of at most `most` from a place on, signed or not: a flag, as at `read_digits`, which the definition
// takes.
pub(crate) fn number_after(
    text: &[u8],
    at: usize,
    signed: bool,
    most: u64,
) -> Result<Read<u64>, Unreadable>
    ensures { result ≡ number_after text.now at signed most }
{
    let token = next_token(text, at);
    let number = read_digits(token.bytes(text), signed);
    token.read(at_most(number, most))
}

// The same from where a reading ended; where that could not be read, nothing is read after it.
pub fn next_number(
    text: &[u8],
    from: Result<usize, Unreadable>,
    signed: bool,
    most: u64,
) -> Result<Read<u64>, Unreadable>
    ensures { result ≡ and_then from (λ at. number_after text.now at signed most) }
{
    number_after(text, from?, signed, most)
}
