// Lists of a journal: "its name, its count K and K numbers".
ghost use Rattle.std.specs.Prelude.{◌≡◌, length, MatchResult, Ok, Err};
ghost use Rattle.text.specs.Text.{name_text};
ghost use Rattle.journal.specs.Cursor.{read_of};
ghost use Rattle.journal.specs.List.{numbers_after, numbers_or_zeros, count_after, ListFollows, ListBroken};

use crate::cursor::{Read, Unreadable, next_name, number_after};
use text::name::NAME;

// Reads as many numbers as the lent list has places, each of at most `most`: how far the text is read with them. Zeros
// stand from one on that cannot be read. `signed` is a flag, as at `read_digits`, which `numbers_after` takes.
fn fill_numbers(
    text: &[u8],
    at: usize,
    signed: bool,
    most: u64,
    into: &mut [u64],
) -> Result<usize, Unreadable>
    ensures { let numbers = numbers_after (length into.old) text.now at signed most in
        MatchResult result (λ next. numbers ≡ Ok (read_of into.new next))
        (λ broken. (numbers ≡ Err broken) × (into.new ≡ numbers_or_zeros (length into.old) text.now at signed most)) }
{
    into.fill(0);
    let mut next = at;
    for place in into.iter_mut() {
        let number = number_after(text, next, signed, most)?;
        *place = number.value;
        next = number.next;
    }
    Ok(next)
}

// A part that cannot be read: the byte where its token starts, and of a list its count where that could be read.
#[derive(Clone, Copy)]
pub(crate) struct BrokenPart {
    pub broken: Unreadable,
    pub number: u64,
}

// Reads a list's name and its count, or the length of a lent list.
pub(crate) fn read_count(
    text: &[u8],
    at: usize,
    name: [u8; NAME],
    longest: u64,
) -> Result<Read<u64>, Unreadable>
    ensures { result ≡ count_after text.now at (name_text name) longest }
{
    let named = next_name(text, at, name)?;
    number_after(text, named, false, longest)
}

// Reads a list by its name, of at most as many numbers as the lent list has places, into its first places: its count.
// `signed` is a flag, as at `read_digits`, which `list_after` takes.
pub(crate) fn read_list(
    text: &[u8],
    at: usize,
    name: [u8; NAME],
    signed: bool,
    most: u64,
    into: &mut [u64],
) -> Result<Read<u64>, BrokenPart>
    ensures { let longest = length into.old in
        MatchResult result
        (λ read. ListFollows text.now at (name_text name) longest signed most read into.old into.new)
        (λ broken. ListBroken text.now at (name_text name) longest signed most broken into.old into.new) }
{
    match read_count(text, at, name, into.len() as u64) {
        Ok(counted) => {
            let value = counted.value;
            match fill_numbers(
                text,
                counted.next,
                signed,
                most,
                &mut into[..value as usize],
            ) {
                Ok(next) => Ok(Read { value, next }),
                Err(broken) => Err(BrokenPart {
                    broken,
                    number: value,
                }),
            }
        }
        Err(broken) => Err(BrokenPart { broken, number: 0 }),
    }
}
