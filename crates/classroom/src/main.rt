// The program `classroom` of document 01: it reads nothing, fixes averages 100,000, 83,000 and 60,000 with energies 10,
// 10 and 11 through the real calls, and prints the limit, the surcharge, the rounds and the residue, then each
// distributor's number, average, final price and charge.

#![tactic(auto)]

ghost use Rattle.std.specs.Prelude.{◌<◌};

use answers::line::write_values;
use ledger::fix::fix;
use ledger::open::open;
use series::table::{CPI, MONTHS, WORDS};
use supply::line::{LINE_WORDS, POWER_START};
use supply::market::FixingNumbers;
use text::buffer::Text;
use text::row::write_rows;

// The file descriptor of standard output.
const STDOUT_FILENO: i32 = 1;

// What the printed text has room for: a line of four values and three of four numbers.
const TEXT_BYTES: usize = 512;

// Where the CPI of the table's first month stands.
const FIRST_CPI: usize = CPI as usize * MONTHS;

// The words of the three lines.
const LINES: usize = 3 * LINE_WORDS;

// Sets a distributor's line of no terms, whose words are 0: distributor, base price, offer and purchase factor, energy;
// then a power base price, and a power term that takes the CPI of the month before over 10,000.
fn set_line(lines: &mut [u64; LINES], distributor: usize, base: u64, energy: u64)
    requires { distributor < 3 }
{
    let at = distributor * LINE_WORDS;
    lines[at..at + 5].copy_from_slice(&[distributor as u64, base, 10000, 10000, energy]);
    let power = at + POWER_START;
    lines[power..power + 4].copy_from_slice(&[10000, 1, 1, 10000]);
}

fn lines() -> [u64; LINES] {
    let mut lines = [0u64; LINES];
    set_line(&mut lines, 0, 100000, 10);
    set_line(&mut lines, 1, 83000, 10);
    set_line(&mut lines, 2, 60000, 11);
    lines
}

// Sector 0 of each distributor alone, at the factor 1.
fn sectors() -> [u64; 24] {
    let mut sectors = [0u64; 24];
    sectors[0] = 10000;
    sectors[8] = 10000;
    sectors[16] = 10000;
    sectors
}

fn main() {
    let ledger = open(3).ledger;
    let mut series = [0u64; WORDS];
    series[FIRST_CPI] = 10000;
    let lines = lines();
    let sectors = sectors();
    let mut prices = [0i64; 9];
    let mut power = [0u64; 3];
    let numbers = FixingNumbers {
        month: 1,
        day: 1,
        dollar: 100000,
        reference_factor: 10000,
        first_month: 0,
    };
    let outcome = fix(
        ledger,
        numbers,
        &series,
        &lines,
        &sectors,
        &mut prices,
        &mut power,
    );
    if let Ok(values) = outcome.answer {
        let mut text: Text<TEXT_BYTES> = Text::new();
        write_values(&mut text, values);
        let column: [u64; 0] = [];
        write_rows(&mut text, &prices, 3, &column);
        io::write_all(STDOUT_FILENO, text.as_bytes());
    }
}
