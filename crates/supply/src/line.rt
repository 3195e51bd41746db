// A supply line and its terms by value. The lent words are read here and nowhere else: 30 words a line, six of its own,
// five for each of four terms, then the power base price and the three of the power term.
ghost use Rattle.std.specs.Prelude.{◌≡◌, ◌<◌, ◌+◌, ◌≤◌, length};
ghost use Rattle.supply.specs.Line.{line_count, line_of, term_from, power_term_from, term_words};
ghost use Rattle.supply.specs.Required.{LineFacts, CheckedLines};

use series::table::CPI;

pub const MOST_LINES: usize = 256;

pub const MOST_TERMS: usize = 4;

// The power term stands after a line's own, whatever their count.
pub(crate) const POWER_TERM: usize = MOST_TERMS;

pub(crate) const TERM_PLACES: usize = POWER_TERM + 1;

// Where a line's terms start, how long each is, and where its power words start.
pub const TERMS_START: usize = 6;

pub const TERM_WORDS: usize = 5;

pub const POWER_START: usize = TERMS_START + MOST_TERMS * TERM_WORDS;

pub const LINE_WORDS: usize = POWER_START + 4;

// The whole of a line's weights, in ten-thousandths.
pub(crate) const WHOLE_WEIGHT: u64 = 10000;

// The greatest power price in US$, of every step.
pub(crate) const MOST_POWER_PRICE: u64 = 100000000;

#[derive(Clone, Copy, PartialEq, Eq, Default)]
pub struct Term {
    pub series: u64,
    pub weight: u64,
    pub lag: u64,
    pub window: u64,
    pub base_value: u64,
}

#[derive(Clone, Copy)]
pub struct Line {
    pub distributor: u64,
    pub base_price: u64,
    pub offer_factor: u64,
    pub purchase_factor: u64,
    pub energy: u64,
    pub term_count: u64,
    // In 0.001 US$/kW/month.
    pub power_base_price: u64,
    pub terms: [Term; TERM_PLACES],
}

// A line in its ranges.
#[derive(Clone, Copy)]
pub(crate) struct CheckedLine {
    pub line: Line,
    ghost facts: { LineFacts line },
}

// The term whose five words begin at a place.
fn term_from(words: &[u64], at: usize) -> Term
    requires { at + term_words ≤ length words.now }
    ensures { result ≡ term_from words.now at }
{
    Term {
        series: words[at],
        weight: words[at + 1],
        lag: words[at + 2],
        window: words[at + 3],
        base_value: words[at + 4],
    }
}

// The power term whose three words begin at a place: CPI alone.
fn power_term_from(words: &[u64], at: usize) -> Term
    requires { at + 3 ≤ length words.now }
    ensures { result ≡ power_term_from words.now at }
{
    Term {
        series: CPI,
        weight: WHOLE_WEIGHT,
        lag: words[at],
        window: words[at + 1],
        base_value: words[at + 2],
    }
}

// How many whole lines the lent words hold.
pub fn line_count(lines: &[u64]) -> usize
    ensures { result ≡ line_count lines.now }
{
    lines.len() / LINE_WORDS
}

// Line j of the lent words.
pub fn line_at(lines: &[u64], j: usize) -> Line
    requires { j < line_count lines.now }
    ensures { result ≡ line_of lines.now j }
{
    let at = j * LINE_WORDS;
    let terms = at + TERMS_START;
    let power = at + POWER_START;
    Line {
        distributor: lines[at],
        base_price: lines[at + 1],
        offer_factor: lines[at + 2],
        purchase_factor: lines[at + 3],
        energy: lines[at + 4],
        term_count: lines[at + 5],
        power_base_price: lines[power],
        terms: [
            term_from(lines, terms),
            term_from(lines, terms + TERM_WORDS),
            term_from(lines, terms + 2 * TERM_WORDS),
            term_from(lines, terms + 3 * TERM_WORDS),
            power_term_from(lines, power + 1),
        ],
    }
}

// Line j of words in their ranges. The words stay a slice with a `requires`: a struct around them is no plainer, since
// clauses then name `lines.now.words.now`.
pub(crate) fn checked_line(lines: &[u64], j: usize) -> CheckedLine
    requires lines_checked { CheckedLines lines.now }
    requires inside { j < line_count lines.now }
    ensures { result.line ≡ line_of lines.now j }
{
    CheckedLine {
        line: line_at(lines, j),
    }
}
