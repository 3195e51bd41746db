// A form: the parts of a command's text in their order, as data. One reader and one writer serve every form.
ghost use Rattle.std.specs.Prelude.{◌≡◌, ◌+◌, ◌^◌, ◌<◌, ◌≤◌, length, MatchResult};
ghost use Rattle.text.specs.Text.{words_by};
ghost use Rattle.journal.specs.Form.{part_count, held_of, room_of, count_of, place_of, placed};
ghost use Rattle.journal.specs.Form.{number_of, start_of, end_of, words_in};
ghost use Rattle.journal.specs.Form.{numberless, PartFollows, PartBroken, FormFollows, FormBroken, FormRead, FormHeld};
ghost use Rattle.journal.specs.Form.{parts_in, list_text, part_text, form_text};

use crate::cursor::{Read, Unreadable, number_after};
use crate::list::{BrokenPart, read_count, read_list};
use numbers::signed::signed_of;
use text::buffer::Writable;
use text::name::{NAME, write_name};
use text::number::{write_word, write_words};

// The most parts of a form.
pub const PARTS: usize = 12;

// The largest number of 64 bits.
pub const MOST_WORD: u64 = u64::MAX;

// What a part of a form is, with the bounds of what it takes.
#[derive(Clone, Copy)]
pub enum Kind {
    // A hole: the parts after it keep their places, as `fixing_call` counts them.
    Nothing,
    // A number, and its greatest value.
    Number(u64),
    // A list of numbers, its longest count and its greatest word.
    List(u64, u64),
    // A list of signed numbers and its longest count.
    Signed(u64),
    // The length of a list that is lent, and its greatest value.
    Length(u64),
}

// A part of a form: its name, which a number does not show, and what it is. The name is an array of one size, since
// clauses compare forms, and a borrowed one has an address too.
#[derive(Clone, Copy)]
pub struct Part(pub [u8; NAME], pub Kind);

// What a part holds: a number, of a list its count, and where a list's words start and end in lent words.
#[derive(Clone, Copy)]
pub struct Placed {
    pub number: u64,
    pub start: usize,
    pub end: usize,
}

impl Placed {
    // A number alone.
    pub fn of_number(number: u64) -> Self
        ensures { result ≡ placed number 0 0 }
    {
        Placed {
            number,
            start: 0,
            end: 0,
        }
    }

    // A list of so many words from a place on.
    pub fn of_list(start: usize, count: usize) -> Self
        requires { start + count < 2 ^ 64 }
        ensures { result ≡ placed count start (start + count) }
    {
        Placed {
            number: count as u64,
            start,
            end: start + count,
        }
    }
}

// What the parts of a form hold.
#[derive(Clone, Copy)]
pub struct Parts(pub [Placed; PARTS]);

// A form that cannot be read: the byte where the token starts, and what was read of the parts.
#[derive(Clone, Copy)]
pub struct BrokenForm {
    pub broken: Unreadable,
    pub parts: Parts,
}

impl Parts {
    // The number of part k; a part is known by its place, as the form counts its parts.
    pub fn number_of(&self, k: usize) -> u64
        requires { k < part_count }
        ensures { result ≡ number_of self.now k }
    {
        self.0[k].number
    }

    // The words of part k.
    pub fn words_of<'a>(&self, words: &'a [u64], k: usize) -> &'a [u64]
        requires part { k < part_count }
        requires ordered { start_of self.now k ≤ end_of self.now k }
        requires within { end_of self.now k ≤ length words.now }
        ensures { result.now ≡ words_in self.now words.now k }
    {
        let placed = self.0[k];
        &words[placed.start..placed.end]
    }
}

// A reading of a number alone, as that of a part: where it is broken there is no number.
fn of_number(reading: Result<Read<u64>, Unreadable>) -> Result<Read<u64>, BrokenPart>
    ensures { result ≡ numberless reading }
{
    match reading {
        Ok(read) => Ok(read),
        Err(broken) => Err(BrokenPart { broken, number: 0 }),
    }
}

impl Part {
    // How many words the part may have.
    fn room(self) -> usize
        ensures { result ≡ room_of self }
    {
        match self.1 {
            Kind::List(longest, _) | Kind::Signed(longest) => longest as usize,
            _ => 0,
        }
    }

    // How many words the part of this number has.
    fn count(self, number: u64) -> usize
        ensures { result ≡ count_of self number }
    {
        match self.1 {
            Kind::List(_, _) | Kind::Signed(_) => number as usize,
            _ => 0,
        }
    }

    // Reads the part: its number, and a list's words into the first places of the lent words.
    fn read(self, text: &[u8], at: usize, into: &mut [u64]) -> Result<Read<u64>, BrokenPart>
        requires { length into.old ≡ room_of self }
        ensures { MatchResult result (λ read. PartFollows self text.now at read into.old into.new)
            (λ broken. PartBroken self text.now at broken into.old into.new) }
    {
        let name = self.0;
        match self.1 {
            Kind::Nothing => Ok(Read { value: 0, next: at }),
            Kind::Number(most) => of_number(number_after(text, at, false, most)),
            Kind::List(_, most) => read_list(text, at, name, false, most, into),
            Kind::Signed(_) => read_list(text, at, name, true, MOST_WORD, into),
            Kind::Length(longest) => of_number(read_count(text, at, name, longest)),
        }
    }
}

// Reads the parts of a form from a place on; the words of a list stand where the longest lists before it would end.
fn form_after(
    text: &[u8],
    at: usize,
    form: &[Part],
    words: &mut [u64],
) -> Result<Read<Parts>, BrokenForm>
    requires few { length form.now ≤ part_count }
    requires room { place_of form.now part_count ≤ length words.old }
    ensures { MatchResult result (λ read. FormFollows form.now text.now at read words.new)
        (λ broken. FormBroken form.now text.now at broken words.old words.new) }
{
    let mut parts = [Placed::of_number(0); PARTS];
    let mut next = at;
    let mut start: usize = 0;
    for (k, part) in form.iter().enumerate() {
        let room = start + part.room();
        match part.read(text, next, &mut words[start..room]) {
            Ok(read) => {
                let number = read.value;
                let end = start + part.count(number);
                parts[k] = Placed { number, start, end };
                next = read.next;
                start = room;
            }
            Err(broken) => {
                let number = broken.number;
                let end = start + part.count(number);
                parts[k] = Placed { number, start, end };
                return Err(BrokenForm {
                    broken: broken.broken,
                    parts: Parts(parts),
                });
            }
        }
    }
    Ok(Read {
        value: Parts(parts),
        next,
    })
}

// Reads the parts of a form from where a reading ended; where that could not be read, nothing is read after it.
pub fn read_form(
    text: &[u8],
    from: Result<usize, Unreadable>,
    form: &[Part],
    words: &mut [u64],
) -> Result<Read<Parts>, BrokenForm>
    requires few { length form.now ≤ part_count }
    requires room { place_of form.now part_count ≤ length words.old }
    ensures { FormRead form.now text.now from result words.old words.new }
{
    match from {
        Ok(at) => form_after(text, at, form, words),
        Err(broken) => Err(BrokenForm {
            broken,
            parts: Parts([Placed::of_number(0); PARTS]),
        }),
    }
}

// Writes words, each after a blank, as numbers of either sign where they are signed.
// `signed` is a flag, since the kind of a part says it when the text is written, and `words_by` takes it.
pub fn write_words_by<T: Writable>(text: &mut T, signed: bool, words: &[u64])
    ensures { text.new ≡ T.after (words_by signed words.now) text.old }
{
    if !signed {
        return write_words(text, words);
    }
    for word in words {
        write_word(text, signed_of(*word));
    }
}

// Writes a list, or a length, as a line of its own: its name, its number and its words.
// `signed` is a flag, as at `write_words_by`, which `list_text` takes.
fn write_list<T: Writable>(text: &mut T, name: [u8; NAME], signed: bool, number: u64, words: &[u64])
    ensures { text.new ≡ T.after (list_text name signed number words.now) text.old }
{
    text.push(b'\n');
    write_name(text, name);
    write_word(text, number);
    write_words_by(text, signed, words);
}

impl Part {
    // Writes the part of its number and words.
    fn write<T: Writable>(self, text: &mut T, number: u64, words: &[u64])
        ensures { text.new ≡ T.after (part_text self (held_of number words.now)) text.old }
    {
        match self.1 {
            Kind::Nothing => (),
            Kind::Number(_) => write_word(text, number),
            Kind::Signed(_) => write_list(text, self.0, true, number, words),
            Kind::List(_, _) | Kind::Length(_) => write_list(text, self.0, false, number, words),
        }
    }
}

// Writes a command of these parts: its name and numbers on the first line, then a line for each list.
pub fn write_form<T: Writable>(
    text: &mut T,
    name: [u8; NAME],
    form: &[Part],
    parts: &Parts,
    words: &[u64],
)
    requires few { length form.now ≤ part_count }
    requires held { FormHeld form.now parts.now (length words.now) }
    ensures { text.new ≡ T.after (form_text name form.now (parts_in parts.now words.now)) text.old }
{
    write_name(text, name);
    for (k, part) in form.iter().enumerate() {
        part.write(text, parts.number_of(k), parts.words_of(words, k));
    }
    text.push(b'\n');
}
