// One month: positions and their test (cause 13), transfers and new balances.
// n stays a number, its bound a clause: `settle_positions` takes a number, and `numbers::sizes` has the bound.
ghost use Rattle.std.specs.Prelude.{◌≡◌, ◌≤◌};
ghost use Rattle.numbers.specs.Sizes.{most_distributors};
ghost use Rattle.settlement.specs.Settlement.{positions_in_range, side_size};
ghost use Rattle.settlement.specs.Month.{money_at, sizes_below, position_list, settled_month, moved_month};
ghost use Rattle.settlement.specs.Required.{Billed, MoneyWithin, Side};

use crate::amount::Billing;
use crate::share::{shares, side_total};
use numbers::signed::{difference, is_negative, magnitude, within_size};
use numbers::sizes::{MOST_DISTRIBUTORS, PLACES};
use numbers::units::Pesos;

// Balances and positions lie within 10^15 of zero.
pub const MOST_POSITION: u64 = 1000000000000000;

// A month's outcome: new balances and transfers, paid negative, received positive. Two lists: `settled_ledger` keeps
// the balances alone.
#[derive(Clone, Copy)]
pub struct SettledMonth {
    pub balances: [Pesos; MOST_DISTRIBUTORS],
    pub transfers: [Pesos; MOST_DISTRIBUTORS],
}

// Old balance and collected amount of each distributor, added up.
pub fn positions(
    n: usize,
    balances: [Pesos; MOST_DISTRIBUTORS],
    charges: &[i64; PLACES],
    readings: &[u64],
    losses: &[u64],
) -> [Pesos; MOST_DISTRIBUTORS]
    requires within { MoneyWithin n balances }
    requires billed { Billed n charges.now readings.now losses.now }
    ensures { result ≡ position_list n balances
        charges.now readings.now losses.now }
{
    let billing = Billing {
        n,
        readings,
        losses,
    };
    let mut positions = [Pesos(0); MOST_DISTRIBUTORS];
    for i in 0..n {
        let amount = billing.collected_amount(charges, i);
        positions[i] = Pesos(balances[i].0 + amount.0);
    }
    positions
}

// Whether no position is beyond its limit.
pub fn positions_in_range(n: usize, positions: [Pesos; MOST_DISTRIBUTORS]) -> bool
    requires { n ≤ most_distributors }
    ensures { result ≡ positions_in_range n (money_at positions) }
{
    positions[..n]
        .iter()
        .all(|position| within_size(position.0, MOST_POSITION))
}

// The sizes of one side: of those who are owed, with a position below zero, or of those who owe. The side is a flag,
// as `side_size` takes it: a function for each would be a twin.
fn side_sizes(
    n: usize,
    positions: [Pesos; MOST_DISTRIBUTORS],
    negative: bool,
) -> [u64; MOST_DISTRIBUTORS]
    requires { MoneyWithin n positions }
    ensures { result ≡ sizes_below n (side_size negative (money_at positions)) }
{
    let mut sizes = [0u64; MOST_DISTRIBUTORS];
    for i in 0..n {
        let position = positions[i];
        if is_negative(position.0) == negative {
            sizes[i] = magnitude(position.0);
        }
    }
    sizes
}

// Transfers and new balances from the shares of the two sides.
fn moved(
    n: usize,
    positions: [Pesos; MOST_DISTRIBUTORS],
    paid: &[u64; MOST_DISTRIBUTORS],
    received: &[u64; MOST_DISTRIBUTORS],
) -> SettledMonth
    requires within { MoneyWithin n positions }
    requires paid { Side n paid.now }
    requires received { Side n received.now }
    ensures { result ≡ moved_month n positions paid.now received.now }
{
    let mut balances = [Pesos(0); MOST_DISTRIBUTORS];
    let mut transfers = [Pesos(0); MOST_DISTRIBUTORS];
    for i in 0..n {
        let transfer = difference(received[i], paid[i]);
        balances[i] = Pesos(positions[i].0 + transfer);
        transfers[i] = Pesos(transfer);
    }
    SettledMonth {
        balances,
        transfers,
    }
}

// The month settled from its positions: the smaller total is transferred, so that only the larger side is divided, and
// neither where the totals are equal.
pub fn settle_positions(n: usize, positions: [Pesos; MOST_DISTRIBUTORS]) -> SettledMonth
    requires { MoneyWithin n positions }
    ensures { result ≡ settled_month n positions }
{
    let owing = side_sizes(n, positions, false);
    let owed = side_sizes(n, positions, true);
    let owing_total = side_total(n, &owing);
    let owed_total = side_total(n, &owed);
    let transferred = owing_total.min(owed_total);
    let paid = shares(n, &owing, owing_total, transferred);
    let received = shares(n, &owed, owed_total, transferred);
    moved(n, positions, &paid, &received)
}
