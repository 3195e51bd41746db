// The ranges of D, F, the first month, every word of every line and the prices in force (cause 6).
ghost use Rattle.std.specs.Prelude.{◌≡◌, true};
ghost use Rattle.supply.specs.Range.{head_in_range, term_in_range, term_unused, term_allowed, terms_allowed};
ghost use Rattle.supply.specs.Range.{weight_total, power_in_range};
ghost use Rattle.supply.specs.Range.{line_in_range, lines_in_range, numbers_in_range, input_in_range};

use crate::line::{
    Line, MOST_POWER_PRICE, MOST_TERMS, POWER_TERM, Term, WHOLE_WEIGHT, line_at, line_count,
};
use crate::market::FixingNumbers;
use numbers::units::{all_between, is_between};
use series::mean::window_allowed;
use series::table::{LAST_MONTH, MOST_VALUE, SERIES};

// The six words before the terms, in a ledger of n distributors.
fn head_in_range(n: usize, line: Line) -> bool
    ensures { result ≡ head_in_range n line }
{
    (line.distributor < n as u64)
        & is_between(1, 1000000, line.base_price)
        & is_between(5000, 20000, line.offer_factor)
        & is_between(5000, 20000, line.purchase_factor)
        & is_between(1, 10000000, line.energy)
        & (line.term_count <= MOST_TERMS as u64)
}

// The five words of a used term.
fn term_in_range(term: Term) -> bool
    ensures { result ≡ term_in_range term }
{
    (term.series < SERIES as u64)
        & is_between(1, WHOLE_WEIGHT, term.weight)
        & is_between(1, 12, term.lag)
        & window_allowed(term.window)
        & is_between(1, MOST_VALUE, term.base_value)
}

// The five words of an unused term: all zero.
fn term_unused(term: Term) -> bool
    ensures { result ≡ term_unused term }
{
    term == Term::default()
}

// A term below the line's count is in range, one past it unused.
fn term_allowed(term: Term, used: bool) -> bool
    ensures { result ≡ term_allowed term used }
{
    if used {
        term_in_range(term)
    } else {
        term_unused(term)
    }
}

// The four words of power.
fn power_in_range(line: Line) -> bool
    ensures { result ≡ power_in_range line }
{
    let term = line.terms[POWER_TERM];
    is_between(1, MOST_POWER_PRICE, line.power_base_price) & term_in_range(term)
}

// All four terms of a line's own.
fn terms_allowed(line: Line) -> bool
    ensures { result ≡ terms_allowed line }
{
    let count = line.term_count;
    for k in 0..MOST_TERMS {
        if !term_allowed(line.terms[k], (k as u64) < count) {
            return false;
        }
    }
    true
}

// The sum of the weights, of terms that are all in range or unused.
fn weight_total(line: Line) -> u64
    requires { terms_allowed line ≡ true }
    ensures { result ≡ weight_total line }
{
    let mut total: u64 = 0;
    for k in 0..MOST_TERMS {
        total += line.terms[k].weight;
    }
    total
}

// Every word of a line.
fn line_in_range(n: usize, line: Line) -> bool
    ensures { result ≡ line_in_range n line }
{
    if !(head_in_range(n, line) & power_in_range(line)) {
        return false;
    }
    if !terms_allowed(line) {
        return false;
    }
    line.term_count == 0 || weight_total(line) == WHOLE_WEIGHT
}

// Every word of every line.
fn lines_in_range(n: usize, lines: &[u64]) -> bool
    ensures { result ≡ lines_in_range n lines.now }
{
    for j in 0..line_count(lines) {
        if !line_in_range(n, line_at(lines, j)) {
            return false;
        }
    }
    true
}

// The dollar, the reference factor and the table's first month.
fn numbers_in_range(numbers: FixingNumbers) -> bool
    ensures { result ≡ numbers_in_range numbers }
{
    is_between(1, 200000, numbers.dollar)
        & is_between(5000, 20000, numbers.reference_factor)
        & (numbers.first_month <= LAST_MONTH)
}

// Whether the dollar, the reference factor, the first month, every word of every line and every price in force are in
// their ranges.
pub fn input_in_range(n: usize, numbers: FixingNumbers, lines: &[u64], in_force: &[u64]) -> bool
    ensures { result ≡ input_in_range n numbers lines.now in_force.now }
{
    if !numbers_in_range(numbers) {
        return false;
    }
    if !lines_in_range(n, lines) {
        return false;
    }
    all_between(1, 1000000, in_force)
}
