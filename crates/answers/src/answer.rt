// An answer: its line, the rows under an accepted one, and a line where a refused call changed a lent list. What stands
// under a line takes a flag, since any line may stand above it.
ghost use Rattle.std.specs.Prelude.{◌≡◌, ◌≤◌, IfOk, length};
ghost use Rattle.numbers.specs.Bounded.{list_below};
ghost use Rattle.numbers.specs.Signed.{word_of};
ghost use Rattle.numbers.specs.Sizes.{most_distributors};
ghost use Rattle.settlement.specs.Month.{money_at};
ghost use Rattle.answers.specs.Answer.{all_unwritten, changed_text, settled_rows, settled_text, fixed_rows, fixed_text};
ghost use Rattle.answers.specs.Answer.{sheet_read_rows, sheet_read_text, sheet_written_rows, sheet_written_text};

use crate::line::{write_changed_line, write_fixing, write_outcome, write_used};
use ledger::fix::FixingValues;
use numbers::refusal::Refusal;
use numbers::signed::word_of;
use numbers::sizes::{DISTRIBUTOR_READINGS, MOST_DISTRIBUTORS};
use numbers::units::Pesos;
use text::buffer::Writable;
use text::number::Decimal;
use text::row::{write_numbers_line, write_rows};

// The word that stands in every place of a lent list before a call.
pub const UNWRITTEN: i64 = -1;

// The same of a lent list of words without a sign.
pub const UNWRITTEN_WORD: u64 = 18446744073709551615;

// The same of a lent buffer of bytes.
pub const UNWRITTEN_BYTE: u8 = 255;

// The words that hold the balances of the distributors.
pub fn balance_words(balances: [Pesos; MOST_DISTRIBUTORS]) -> [u64; MOST_DISTRIBUTORS]
    ensures { result ≡ list_below most_distributors (λ i. word_of (money_at balances i)) }
{
    let mut words = [0u64; MOST_DISTRIBUTORS];
    for i in 0..MOST_DISTRIBUTORS {
        let balance = balances[i];
        words[i] = word_of(balance.0);
    }
    words
}

// Whether nothing of what was lent was written.
fn is_unwritten<T: Copy + PartialEq>(list: &[T], unwritten: T) -> bool
    ensures { result ≡ all_unwritten T.PartialEq.eq unwritten list.now }
{
    list.iter().all(|x| *x == unwritten)
}

// Writes a line where a refused call wrote to what it was lent.
fn write_changed<T: Writable>(text: &mut T, unwritten: bool)
    ensures { text.new ≡ T.after (changed_text unwritten) text.old }
{
    if !unwritten {
        write_changed_line(text);
    }
}

// Writes what stands under the line of a settlement: a row for each distributor, or a line where a lent transfer was
// written to.
pub fn write_settled_rows<T: Writable>(
    text: &mut T,
    accepted: bool,
    transfers: &[i64],
    balances: &[Pesos],
)
    ensures { text.new ≡ T.after (settled_rows accepted transfers.now balances.now) text.old }
{
    if accepted {
        write_rows(text, transfers, 1, balances);
    } else {
        write_changed(text, is_unwritten(transfers, UNWRITTEN));
    }
}

// Writes the answer of a settlement, with its lent transfers and the balances.
pub fn write_settled<T: Writable>(
    text: &mut T,
    name: &[u8],
    answer: Result<(), Refusal>,
    transfers: &[i64],
    balances: &[Pesos],
)
    ensures { text.new ≡ T.after
        (settled_text name.now answer transfers.now balances.now) text.old }
{
    write_outcome(text, name, answer);
    write_settled_rows(text, answer.is_ok(), transfers, balances);
}

// Writes what stands under the line of a fixing: a row for each distributor, or a line where a lent price was written
// to.
pub fn write_fixed_rows<T: Writable>(text: &mut T, accepted: bool, prices: &[i64], power: &[u64])
    ensures { text.new ≡ T.after (fixed_rows accepted prices.now power.now) text.old }
{
    if accepted {
        write_rows(text, prices, 3, power);
    } else {
        let unwritten = is_unwritten(prices, UNWRITTEN) & is_unwritten(power, UNWRITTEN_WORD);
        write_changed(text, unwritten);
    }
}

// Writes the answer of a fixing, with its lent prices and power prices.
pub fn write_fixed<T: Writable>(
    text: &mut T,
    name: &[u8],
    answer: Result<FixingValues, Refusal>,
    prices: &[i64],
    power: &[u64],
)
    ensures { text.new ≡ T.after (fixed_text name.now answer prices.now power.now) text.old }
{
    write_fixing(text, name, answer);
    write_fixed_rows(text, answer.is_ok(), prices, power);
}

// Writes what stands under the line of a sheet that was read: a row for each distributor, or a line where a lent reading
// was written to.
pub fn write_sheet_read_rows<T: Writable>(text: &mut T, accepted: bool, readings: &[u64])
    ensures { text.new ≡ T.after (sheet_read_rows accepted readings.now) text.old }
{
    if accepted {
        let no_column = [0u64; 0];
        write_rows(text, readings, DISTRIBUTOR_READINGS, &no_column);
    } else {
        write_changed(text, is_unwritten(readings, UNWRITTEN_WORD));
    }
}

// Writes the answer of a sheet that was read, with its lent readings.
pub fn write_sheet_read<T: Writable>(
    text: &mut T,
    name: &[u8],
    answer: Result<(), Refusal>,
    readings: &[u64],
)
    ensures { text.new ≡ T.after (sheet_read_text name.now answer readings.now) text.old }
{
    write_outcome(text, name, answer);
    write_sheet_read_rows(text, answer.is_ok(), readings);
}

// Writes what stands under the line of a sheet that was written: the bytes used, as numbers, where it was accepted, and a
// line where the rest of the lent buffer changed, of which each place was lent with `unwritten`.
pub fn write_sheet_written_rows<T: Writable, N: Decimal + PartialEq>(
    text: &mut T,
    accepted: bool,
    used: usize,
    sheet: &[N],
    unwritten: N,
)
    requires { used ≤ length sheet.now }
    ensures { text.new ≡ T.after
        (sheet_written_rows N.shown (all_unwritten N.PartialEq.eq unwritten) accepted used sheet.now) text.old }
{
    if accepted {
        write_numbers_line(text, &sheet[..used]);
    }
    write_changed(text, is_unwritten(&sheet[used..], unwritten));
}

// Writes the answer of a sheet that was written: its bytes, as numbers, and a line where the rest of the lent buffer
// changed, of which each place was lent with `unwritten`.
pub fn write_sheet_written<T: Writable, N: Decimal + PartialEq>(
    text: &mut T,
    name: &[u8],
    answer: Result<usize, Refusal>,
    sheet: &[N],
    unwritten: N,
)
    requires { IfOk answer (λ used. used ≤ length sheet.now) }
    ensures { text.new ≡ T.after
        (sheet_written_text N.shown (all_unwritten N.PartialEq.eq unwritten) name.now answer sheet.now) text.old }
{
    write_used(text, name, answer);
    match answer {
        Ok(used) => write_sheet_written_rows(text, true, used, sheet, unwritten),
        Err(_) => write_sheet_written_rows(text, false, 0, sheet, unwritten),
    }
}
