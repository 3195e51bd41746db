// The two loads, word by word as bench/plain.rs makes them: 40 distributors and 256 lines. The even one has words alike
// and no charges; the mixed one has words of every size, absent sectors, two rounds and transfers.
ghost use Rattle.std.specs.Prelude.{◌*◌, ◌<◌};
ghost use Rattle.supply.specs.Line.{line_words, most_lines};

use numbers::sizes::{MOST_DISTRIBUTORS, PLACES};
use series::table::{MONTHS, WORDS};
use std::array::from_fn;
use supply::line::{LINE_WORDS, MOST_LINES, POWER_START, TERM_WORDS, TERMS_START};
use supply::market::FixingNumbers;

// The lengths of the lists that have no name elsewhere: four readings a sector, two loss factors a distributor.
pub(crate) const LINES: usize = MOST_LINES * LINE_WORDS;

pub(crate) const READINGS: usize = PLACES * 4;

pub(crate) const LOSSES: usize = MOST_DISTRIBUTORS * 2;

// Sizes as words are worked with.
const DISTRIBUTORS: u64 = MOST_DISTRIBUTORS as u64;

const WORDS_OF_LINE: u64 = LINE_WORDS as u64;

const SERIES_MONTHS: u64 = MONTHS as u64;

const OWN_WORDS: u64 = TERMS_START as u64;

const WORDS_OF_TERM: u64 = TERM_WORDS as u64;

const POWER_PLACE: u64 = POWER_START as u64;

// The lists that the calls are lent, and the fixing's numbers.
#[derive(Clone, Copy)]
pub(crate) struct Load {
    pub numbers: FixingNumbers,
    pub series: [u64; WORDS],
    pub lines: [u64; LINES],
    pub sectors: [u64; PLACES],
    pub readings: [u64; READINGS],
    pub losses: [u64; LOSSES],
}

// What a word of a line is of: the line's own, a term or power; and its place there.
enum Part {
    Own(u64),
    Term { term: u64, word: u64 },
    Power(u64),
}

// Six words of the line's own, five for each of four terms, then four for power.
fn part_of(word: u64) -> Part {
    if word < OWN_WORDS {
        return Part::Own(word);
    }
    if POWER_PLACE <= word {
        return Part::Power(word - POWER_PLACE);
    }
    Part::Term {
        term: (word - OWN_WORDS) / WORDS_OF_TERM,
        word: (word - OWN_WORDS) % WORDS_OF_TERM,
    }
}

// A word of an even line's own: base price and energy rise from line to line.
fn even_head(line: u64, word: u64) -> u64
    requires { line < most_lines }
{
    match word {
        0 => line % DISTRIBUTORS,
        1 => 50000 + 390 * line,
        4 => 1000 + line,
        5 => 4,
        _ => 10000,
    }
}

// A word of a term of an even line.
fn even_term(term: u64, word: u64) -> u64 {
    match word {
        0 => term,
        1 => 2500,
        2 => 1,
        3 => 9,
        _ => 10000,
    }
}

// A word of an even line's power: base price, then lag, window and base value of its CPI term.
fn even_power(word: u64) -> u64 {
    match word {
        1 => 1,
        2 => 9,
        _ => 10000,
    }
}

// A word of a mixed line's own.
fn mixed_head(line: u64, word: u64) -> u64
    requires { line < most_lines }
{
    match word {
        0 => 7 * line % DISTRIBUTORS,
        1 => 40000 + 977 * line % 60001,
        2 => 9000 + 131 * line % 2001,
        3 => 9500 + 57 * line % 1001,
        4 => 1 + 7919 * line % 500000,
        _ => line % 5,
    }
}

// A term's share of 10,000; the first has what the others leave.
fn weight(term: u64, terms: u64) -> u64
    requires { 0 < terms }
{
    if term == 0 {
        10000 / terms + 10000 % terms
    } else {
        10000 / terms
    }
}

fn window(place: u64) -> u64 {
    match place % 3 {
        0 => 1,
        1 => 6,
        _ => 9,
    }
}

// A word of a term of a mixed line, 0 past the line's last term.
fn mixed_term(line: u64, term: u64, word: u64) -> u64
    requires { line < most_lines }
{
    let terms = line % 5;
    if terms <= term {
        return 0;
    }
    match word {
        0 => (line + term) % 5,
        1 => weight(term, terms),
        2 => 1 + (5 * line + 3 * term) % 12,
        3 => window(line + term),
        _ => 9000 + (37 * line + 101 * term) % 2001,
    }
}

// A word of a mixed line's power.
fn mixed_power(line: u64, word: u64) -> u64
    requires { line < most_lines }
{
    match word {
        0 => 5000 + 811 * line % 20001,
        1 => 1 + line % 12,
        2 => window(line),
        _ => 9500 + 37 * line % 1001,
    }
}

// A word of the lines of a load, by its place. One function over the parts of either load would be no plainer: each
// closure would carry the line's bound as a `requires` of its own.
fn even_line(place: usize) -> u64
    requires { place < most_lines * line_words }
{
    let line = place as u64 / WORDS_OF_LINE;
    match part_of(place as u64 % WORDS_OF_LINE) {
        Part::Own(word) => even_head(line, word),
        Part::Term { term, word } => even_term(term, word),
        Part::Power(word) => even_power(word),
    }
}

fn mixed_line(place: usize) -> u64
    requires { place < most_lines * line_words }
{
    let line = place as u64 / WORDS_OF_LINE;
    match part_of(place as u64 % WORDS_OF_LINE) {
        Part::Own(word) => mixed_head(line, word),
        Part::Term { term, word } => mixed_term(line, term, word),
        Part::Power(word) => mixed_power(line, word),
    }
}

fn mixed_series(place: u64) -> u64
    requires { place < most_lines * line_words }
{
    let series = place / SERIES_MONTHS;
    let column = place % SERIES_MONTHS;
    9500 + (1000 * series + 13 * column * column) % 1001
}

fn mixed_sector(place: u64) -> u64
    requires { place < most_lines * line_words }
{
    if place % 4 == 3 {
        0
    } else {
        5000 + 613 * place % 10001
    }
}

// An absent sector has no readings.
fn mixed_reading(place: u64) -> u64
    requires { place < most_lines * line_words }
{
    if mixed_sector(place / 4) == 0 {
        0
    } else {
        104729 * place % 1000001
    }
}

fn mixed_loss(place: u64) -> u64
    requires { place < most_lines * line_words }
{
    10000 + 97 * place % 1501
}

// Words alike, but for the lines.
fn even_load() -> Load {
    Load {
        numbers: FixingNumbers {
            month: 20,
            day: 1,
            dollar: 100000,
            reference_factor: 10000,
            first_month: 0,
        },
        series: [10000; WORDS],
        lines: from_fn(even_line),
        sectors: [10000; PLACES],
        readings: [1000; READINGS],
        losses: [10500; LOSSES],
    }
}

fn mixed_load() -> Load {
    Load {
        numbers: FixingNumbers {
            month: 30,
            day: 1,
            dollar: 85000,
            reference_factor: 10000,
            first_month: 0,
        },
        series: from_fn(|place| mixed_series(place as u64)),
        lines: from_fn(mixed_line),
        sectors: from_fn(|place| mixed_sector(place as u64)),
        readings: from_fn(|place| mixed_reading(place as u64)),
        losses: from_fn(|place| mixed_loss(place as u64)),
    }
}

pub(crate) fn build_load(mixed: bool) -> Load {
    if mixed { mixed_load() } else { even_load() }
}
