// The open call of settlement: no requires. Causes 2, 3, 4, 5, 12 and 13 in their order; the transfers are written only
// when all of them are passed.
ghost use Rattle.std.specs.Prelude.{Ok, true, List, ◌≡◌, ℕ, ◌≤◌, ◌<◌, ℤ, pos, length, get_or};
ghost use Rattle.numbers.specs.Bounded.{list_below};
ghost use Rattle.numbers.specs.Sizes.{most_distributors};
ghost use Rattle.series.specs.Series.{last_month};
ghost use Rattle.settlement.specs.Month.{money_at};
ghost use Rattle.settlement.specs.Settlement.{on_smaller_side, NoSignTurned};
ghost use Rattle.ledger.specs.Ledger.{any_settled, next_month, raised_counts, settled_ledger};
ghost use Rattle.ledger.specs.Turn.{settlement_turn};
ghost use Rattle.ledger.specs.Settle.{SettlementCall, settlement_call_of, settlement_lengths, positions_of};
ghost use Rattle.ledger.specs.Settle.{settled_answer, SettlementPromise, SettledInFull};
ghost use Rattle.ledger.specs.declared.ledger.Ledger.{Ledger};
ghost use Rattle.ledger.specs.Required.{CountsWithin};

use crate::ledger::{Ledger, Outcome, refused};
use crate::sound::is_sound;
use numbers::refusal::Refusal;
use numbers::sizes::MOST_DISTRIBUTORS;
use numbers::units::Pesos;
use series::table::LAST_MONTH;
use settlement::amount::billing_in_range;
use settlement::month::{SettledMonth, positions, positions_in_range, settle_positions};

// The counts of n distributors, each raised by one.
fn raise_counts(n: usize, counts: [u64; MOST_DISTRIBUTORS]) -> [u64; MOST_DISTRIBUTORS]
    requires { CountsWithin n counts }
    ensures { result ≡ raised_counts n counts }
{
    let mut raised = [0u64; MOST_DISTRIBUTORS];
    for i in 0..n {
        raised[i] = counts[i] + 1;
    }
    raised
}

impl Ledger {
    // The ledger with one month more settled.
    fn book_month(mut self, month: u64, balances: [Pesos; MOST_DISTRIBUTORS]) -> Self
        requires { CountsWithin self.n self.counts }
        ensures { result ≡ settled_ledger self month balances }
    {
        self.last = month;
        self.balances = balances;
        self.counts = raise_counts(self.n, self.counts);
        self
    }
}

// Whether every lent list has its length.
fn lengths_right(n: usize, readings: &[u64], losses: &[u64], transfers: &[i64]) -> bool
    requires { n ≤ most_distributors }
    ensures { result ≡ settlement_lengths n readings.now losses.now transfers.now }
{
    (readings.len() == n * 32) & (losses.len() == n * 2) & (transfers.len() == n)
}

// Whether the month is due.
fn in_turn(ledger: Ledger, month: u64) -> bool
    requires { ledger.last ≤ last_month }
    ensures { result ≡ settlement_turn (any_settled ledger) (next_month ledger)
        ledger.fixed ledger.month month }
{
    let due = if ledger.any_settled() {
        month == ledger.next_month()
    } else {
        !ledger.fixed | (month == ledger.month)
    };
    (month <= LAST_MONTH) & due
}

// The transfers, in one loop that cannot fail.
fn write_transfers(amounts: [Pesos; MOST_DISTRIBUTORS], transfers: &mut [i64])
    requires { length transfers.old ≤ most_distributors }
    ensures { transfers.new ≡ list_below (length transfers.old) (money_at amounts) }
{
    for (i, transfer) in transfers.iter_mut().enumerate() {
        *transfer = amounts[i].0;
    }
}

// The month settled: the checks in their order, and nothing written yet.
fn settled(
    ledger: Ledger,
    month: u64,
    readings: &[u64],
    losses: &[u64],
    transfers: &[i64],
) -> Result<SettledMonth, Refusal>
    ensures { result ≡ settled_answer ledger
        (settlement_call_of month readings.now losses.now transfers.now) }
{
    if !is_sound(ledger) {
        return Err(Refusal::Unsound);
    }
    let n = ledger.n;
    if !lengths_right(n, readings, losses, transfers) {
        return Err(Refusal::WrongLength);
    }
    if !in_turn(ledger, month) {
        return Err(Refusal::OutOfTurn);
    }
    if !ledger.fixed {
        return Err(Refusal::NoFixing);
    }
    let force = ledger.billed_under(month);
    if !billing_in_range(n, &force.present, readings, losses) {
        return Err(Refusal::WrongReading);
    }
    let positions = positions(n, ledger.balances, &force.charges, readings, losses);
    if !positions_in_range(n, positions) {
        return Err(Refusal::PositionBeyond);
    }
    Ok(settle_positions(n, positions))
}

// A month's settlement from readings and loss factors. Where it is accepted the transfers are written and the balances
// of the ledger handed back are moved; where it is refused both are as they were.
pub fn settle(
    ledger: Ledger,
    month: u64,
    readings: &[u64],
    losses: &[u64],
    transfers: &mut [i64],
) -> Outcome<()>
    ensures { SettlementPromise ledger
        (settlement_call_of month readings.now losses.now transfers.old) result.answer
        result.ledger transfers.new }
{
    match settled(ledger, month, readings, losses, transfers) {
        Ok(settled) => {
            write_transfers(settled.transfers, transfers);
            Outcome {
                answer: Ok(()),
                ledger: ledger.book_month(month, settled.balances),
            }
        }
        Err(refusal) => refused(refusal, ledger),
    }
}

// "In every settlement the side with the smaller total, both if equal, pays or receives in full" (document 02), of
// whatever `settle` hands back where it accepts. The function does nothing; its ensures is the statement.
pub fn smaller_side_clears()
    ensures { (ledger next : Ledger) (call : SettlementCall) (list : List ℤ) →
        SettlementPromise ledger call (Ok tt) next list → (i : ℕ) → i < ledger.n →
        on_smaller_side ledger.n (money_at (positions_of ledger call)) i ≡ true →
        SettledInFull ledger call next list i }
{}

// "A share is never more than its position's size, so that no sign turns" (document 02), of whatever `settle` hands
// back where it accepts. The function does nothing; its ensures is the statement.
pub fn no_sign_turns()
    ensures { (ledger next : Ledger) (call : SettlementCall) (list : List ℤ) →
        SettlementPromise ledger call (Ok tt) next list → (i : ℕ) → i < ledger.n →
        NoSignTurned (money_at (positions_of ledger call) i) (get_or list i (pos 0)) (money_at next.balances i) }
{}
