// The steps from a line's base price to its reference and from its power base price to its power price, the first line
// out of bounds (cause 11), and whether any line moved (cause 14).
ghost use Rattle.std.specs.Prelude.{◌≡◌, true, ◌≤◌, IfSome};
ghost use Rattle.numbers.specs.Required.{ValuesWithin};
ghost use Rattle.series.specs.Required.{TableInRange};
ghost use Rattle.supply.specs.Line.{most_power_price};
ghost use Rattle.supply.specs.Price.{peso_of, term_ratio, weighted_ratio, index_factor, line_purchase};
ghost use Rattle.supply.specs.Price.{price_in_force, moved, price_taken, reference_answer};
ghost use Rattle.supply.specs.Price.{bounded_prices, LinePricesPromise};
ghost use Rattle.supply.specs.Listed.{listed_mean, price_within, indexed_by, indexed_answer, power_answer};
ghost use Rattle.supply.specs.Listed.{line_words, price_words};
ghost use Rattle.supply.specs.Required.{TermFacts, CheckedLines, NumbersFacts};

use crate::line::{
    CheckedLine, MOST_LINES, MOST_POWER_PRICE, MOST_TERMS, POWER_TERM, Term, checked_line,
    line_count,
};
use crate::market::FixingNumbers;
use crate::months::Means;
use numbers::refusal::Refusal;
use numbers::rounding::half_up;
use numbers::units::{PesoPrice, PowerPrice, is_between};
use series::table::{MONTHS, SERIES};

// The greatest index factor, and the greatest ratio of power.
const MOST_INDEX_FACTOR: u64 = 100000000;

// The peso step: a purchase price in 0.001 US$/MWh at the dollar, in hundredths of $. It has no bounds of its own.
pub fn peso_price(purchase: u64, dollar: u64) -> PesoPrice
    requires purchase_within { purchase ≤ 1000000 }
    requires dollar_within { dollar ≤ 200000 }
    ensures { result ≡ record { 0 = peso_of purchase dollar } }
{
    PesoPrice(half_up(purchase * dollar, 100000))
}

// The ratio of a term.
fn term_ratio(means: &Means, term: Term) -> u64
    requires { TermFacts term }
    ensures { result ≡ term_ratio (listed_mean means.now.values) term }
{
    half_up(means.term_mean(term) * 1000000, term.base_value * 100)
}

// What a term adds to the index factor: its weight times its ratio, nothing where it is not used.
fn weighted_ratio(means: &Means, term: Term, used: bool) -> u64
    requires { (used ≡ true → TermFacts term) }
    ensures { result ≡ weighted_ratio (listed_mean means.now.values) term used }
{
    if used {
        term.weight * term_ratio(means, term)
    } else {
        0
    }
}

// The index factor of a line.
fn index_factor(means: &Means, checked: CheckedLine) -> u64
    ensures { result ≡ index_factor (listed_mean means.now.values) checked.line }
{
    let line = checked.line;
    let count = line.term_count;
    if count == 0 {
        return 1000000;
    }
    let mut sum: u64 = 0;
    for k in 0..MOST_TERMS {
        sum += weighted_ratio(means, line.terms[k], (k as u64) < count);
    }
    half_up(sum, 10000)
}

// A price, where it lies in 1 to `most`.
fn within(most: u64, price: u64) -> Option<u64>
    ensures { result ≡ price_within most price }
{
    is_between(1, most, price).then_some(price)
}

// A base price indexed by a factor, unless the factor is too large or the price not in 1 to `most`. The factor is
// tested before it is multiplied.
fn indexed_by(most: u64, base: u64, factor: u64) -> Option<u64>
    requires { base ≤ most_power_price }
    ensures { result ≡ indexed_by most base factor }
{
    if factor > MOST_INDEX_FACTOR {
        return None;
    }
    within(most, half_up(base * factor, 1000000))
}

// The new indexed price of a line, in 0.001 US$/MWh, unless the index factor or the price is out of bounds.
fn indexed_price(means: &Means, checked: CheckedLine) -> Option<u64>
    ensures { result ≡ indexed_answer (listed_mean means.now.values) checked.line }
{
    indexed_by(
        1000000,
        checked.line.base_price,
        index_factor(means, checked),
    )
}

// The purchase price of a line from the price taken, where it lies in 1 to `most`.
fn purchase_price(most: u64, checked: CheckedLine, taken: u64) -> Option<u64>
    requires { taken ≤ most_power_price }
    ensures { result ≡ price_within most (line_purchase checked.line taken) }
{
    let line = checked.line;
    within(
        most,
        half_up(taken * line.purchase_factor, line.offer_factor),
    )
}

// The power purchase price of a line, in 0.001 US$/kW/month, unless the ratio or a price is out of bounds.
fn power_purchase(means: &Means, checked: CheckedLine) -> Option<u64>
    ensures { result ≡ power_answer (listed_mean means.now.values) checked.line }
{
    let line = checked.line;
    let ratio = term_ratio(means, line.terms[POWER_TERM]);
    let indexed = indexed_by(MOST_POWER_PRICE, line.power_base_price, ratio)?;
    purchase_price(MOST_POWER_PRICE, checked, indexed)
}

// What a line has from the means: its indexed price and its power purchase price.
#[derive(Clone, Copy)]
struct LineWords {
    indexed: u64,
    purchase: u64,
}

// Those of a line, unless a factor, ratio or price is out of bounds.
fn line_words(means: &Means, checked: CheckedLine) -> Option<LineWords>
    ensures { result ≡ line_words (listed_mean means.now.values) checked.line }
{
    let indexed = indexed_price(means, checked)?;
    let purchase = power_purchase(means, checked)?;
    Some(LineWords { indexed, purchase })
}

// Those of all lines. They have a pass of their own: the divisions of the later steps then need not wait for those of
// the terms.
fn price_words(means: &Means, lines: &[u64]) -> [Option<LineWords>; MOST_LINES]
    requires { CheckedLines lines.now }
    ensures { result ≡ price_words (listed_mean means.now.values) lines.now }
{
    let mut words = [None; MOST_LINES];
    for j in 0..line_count(lines) {
        words[j] = line_words(means, checked_line(lines, j));
    }
    words
}

// The price in force of line j.
fn price_in_force(in_force: &[u64], j: usize) -> Option<u64>
    ensures { result ≡ price_in_force in_force.now j }
{
    in_force.get(j).copied()
}

// Whether a line's indexed price moved by more than 10% from the one in force. With none in force, it did.
fn has_moved(old: Option<u64>, indexed: u64) -> bool
    requires old_within { IfSome old (λ price. price ≤ 1000000) }
    requires indexed_within { indexed ≤ 1000000 }
    ensures { result ≡ moved old indexed }
{
    match old {
        None => true,
        Some(old) => 10 * old.abs_diff(indexed) > old,
    }
}

// The price that a line takes: its new indexed price where it moved, else the one in force.
fn price_taken(old: Option<u64>, indexed: u64) -> u64
    requires old_within { IfSome old (λ price. price ≤ 1000000) }
    requires indexed_within { indexed ≤ 1000000 }
    ensures { result ≡ price_taken old indexed }
{
    match old {
        None => indexed,
        Some(price) => {
            if has_moved(old, indexed) {
                indexed
            } else {
                price
            }
        }
    }
}

// The reference of a line from the price taken: purchase, peso, reference. The bounds of a peso price are put to the
// reference, not to the peso step.
fn reference_price(numbers: FixingNumbers, checked: CheckedLine, taken: u64) -> Option<PesoPrice>
    requires numbers_checked { NumbersFacts numbers }
    requires taken_within { taken ≤ 1000000 }
    ensures { result ≡ reference_answer numbers checked.line taken }
{
    let purchase = purchase_price(1000000, checked, taken)?;
    let peso = peso_price(purchase, numbers.dollar);
    let reference = half_up(
        peso.0 * numbers.reference_factor,
        checked.line.purchase_factor,
    );
    PesoPrice::checked(reference)
}

// The references and the power prices of all lines. Two lists: `averages` and `power_averages` read each by itself.
#[derive(Clone, Copy)]
pub struct LinePrices {
    pub references: [PesoPrice; MOST_LINES],
    pub power: [PowerPrice; MOST_LINES],
}

// The prices of all lines, or the first line that is out of bounds, in energy or in power, or that no line moved. A
// power price is its purchase price at the dollar, in hundredths of $.
fn bounded_prices(
    means: &Means,
    numbers: FixingNumbers,
    lines: &[u64],
    in_force: &[u64],
) -> Result<LinePrices, Refusal>
    requires numbers_checked { NumbersFacts numbers }
    requires lines_checked { CheckedLines lines.now }
    requires in_force_within { ValuesWithin 1000000 in_force.now }
    ensures { result ≡ bounded_prices (listed_mean means.now.values) numbers lines.now
        in_force.now }
{
    let words = price_words(means, lines);
    let mut references = [PesoPrice(0); MOST_LINES];
    let mut power = [PowerPrice(0); MOST_LINES];
    let mut moved = false;
    for j in 0..line_count(lines) {
        let beyond = Refusal::OutOfBounds { line: j };
        let line = words[j].ok_or(beyond)?;
        let old = price_in_force(in_force, j);
        let taken = price_taken(old, line.indexed);
        let reference = reference_price(numbers, checked_line(lines, j), taken).ok_or(beyond)?;
        references[j] = reference;
        power[j] = PowerPrice(half_up(line.purchase * numbers.dollar, 100));
        moved |= has_moved(old, line.indexed);
    }
    if !moved {
        return Err(Refusal::NoLineMoved);
    }
    Ok(LinePrices { references, power })
}

// The prices of all lines from the index table: the first missing month (cause 10), then the first line out of bounds
// (cause 11), then whether any line moved (cause 14), then the prices.
pub fn price_lines(
    table: [[u64; MONTHS]; SERIES],
    numbers: FixingNumbers,
    lines: &[u64],
    in_force: &[u64],
) -> Result<LinePrices, Refusal>
    requires table_in_range { TableInRange table }
    requires numbers_checked { NumbersFacts numbers }
    requires lines_checked { CheckedLines lines.now }
    requires in_force_within { ValuesWithin 1000000 in_force.now }
    ensures { LinePricesPromise table numbers lines.now in_force.now result }
{
    let means = Means::of(table, numbers);
    means.search_months(lines)?;
    bounded_prices(&means, numbers, lines, in_force)
}
