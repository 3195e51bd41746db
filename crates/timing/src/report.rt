// What is printed of the calls, as bench/plain.rs prints it.
use crate::calls::{Results, Written};
use crate::sheets::ReadBack;
use answers::line::write_values;
use ledger::fix::FixingValues;
use numbers::sizes::MOST_DISTRIBUTORS;
use numbers::units::Pesos;
use text::buffer::Text;
use text::number::write_item;
use text::row::write_rows;

// The file descriptor of standard output.
const STDOUT_FILENO: i32 = 1;

// Average, final price and charge of each distributor.
pub(crate) const PRICES: usize = MOST_DISTRIBUTORS * 3;

// Room for two numbers with their names.
const LINE: usize = 64;

// Room for a line of values and a row of three numbers for each distributor.
const ROWS: usize = 4096;

fn print_counts(fixings: u64, settlements: u64) {
    let mut text = Text::<LINE>::new();
    write_item(&mut text, b"fixings", fixings);
    write_item(&mut text, b" settlements", settlements);
    text.push(b'\n');
    io::write_all(STDOUT_FILENO, text.as_bytes());
}

// The last sheet: how many bytes it has, and the sum of the readings read back.
pub(crate) fn print_sheet(read_back: ReadBack) {
    let mut text = Text::<LINE>::new();
    write_item(&mut text, b"used", read_back.used as u64);
    write_item(&mut text, b"\nsum", read_back.sum);
    text.push(b'\n');
    io::write_all(STDOUT_FILENO, text.as_bytes());
}

// The last fixing: its values, and average, final price and charge of each distributor.
fn print_fixing(values: FixingValues, prices: &[i64]) {
    let mut text = Text::<ROWS>::new();
    let no_column = [0u64; 0];
    write_values(&mut text, values);
    write_rows(&mut text, prices, 3, &no_column);
    io::write_all(STDOUT_FILENO, text.as_bytes());
}

// The last settlement: transfer and balance of each distributor.
fn print_settlement(transfers: &[i64], balances: &[Pesos]) {
    let mut text = Text::<ROWS>::new();
    write_rows(&mut text, transfers, 1, balances);
    io::write_all(STDOUT_FILENO, text.as_bytes());
}

pub(crate) fn print_results(results: Results, written: Written) {
    print_counts(results.fixings, results.settlements);
    if let Some(values) = results.values {
        print_fixing(values, &written.prices);
    }
    if let Some(ledger) = results.settled {
        print_settlement(&written.transfers, &ledger.balances);
    }
}
