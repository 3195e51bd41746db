// Soundness of a ledger, clause by clause, for every bit pattern. The count of distributors stays a number with a
// `requires`, and each flag stays beside what it tells of: in a forged ledger they may be any.
ghost use Rattle.std.specs.Prelude.{◌≡◌, ◌≤◌};
ghost use Rattle.numbers.specs.Sizes.{most_distributors};
ghost use Rattle.series.specs.Series.{last_month};
ghost use Rattle.settlement.specs.Settlement.{one_sign};
ghost use Rattle.settlement.specs.Month.{money_at};
ghost use Rattle.ledger.specs.Sound.{places_held, place_test, force_sound, older_sound, day_sound, fixings_sound};
ghost use Rattle.ledger.specs.Sound.{unset_zero, months_sound, counts_sound, balance_test, each_balance, sound};

use crate::calendar::day_allowed;
use crate::ledger::Ledger;
use fixing::sector::SectorCharges;
use numbers::signed::within_size;
use numbers::sizes::{MOST_DISTRIBUTORS, PLACES, SECTORS};
use numbers::units::{Pesos, bound_where, is_between};
use series::table::LAST_MONTH;
use settlement::month::MOST_POSITION;

const MOST_CHARGE: u64 = 10500000;

// The places where a sector may be present: those of n distributors, none without a fixing kept.
fn places_held(n: usize, kept: bool) -> usize
    requires { n ≤ most_distributors }
    ensures { result ≡ places_held n kept }
{
    bound_where(kept, (n * SECTORS) as u64) as usize
}

// One sector's place: a sector that is present is at a place held and has a charge within its bounds, an absent one
// has none.
fn place_sound(held: usize, present: bool, charge: i64, k: usize) -> bool
    ensures { result ≡ place_test held present charge k }
{
    if present {
        (k < held) & within_size(charge, MOST_CHARGE)
    } else {
        within_size(charge, 0)
    }
}

// All places of a fixing kept.
fn force_sound(held: usize, force: SectorCharges) -> bool
    ensures { result ≡ force_sound held force }
{
    (0..PLACES).all(|k| place_sound(held, force.present[k], force.charges[k], k))
}

// An older fixing: sound by itself, and beside one in force.
fn older_sound(n: usize, fixed: bool, kept: bool, older: SectorCharges) -> bool
    requires { n ≤ most_distributors }
    ensures { result ≡ older_sound n fixed kept older }
{
    force_sound(places_held(n, kept), older) & (!kept | fixed)
}

// The first day: none without a fixing.
fn day_sound(fixed: bool, month: u64, day: u64, kept: bool) -> bool
    ensures { result ≡ day_sound fixed month day kept }
{
    if fixed {
        return day_allowed(month, day, kept);
    }
    day == 0
}

// The fixing in force, the older one, and the first day.
fn fixings_sound(ledger: Ledger) -> bool
    requires { ledger.n ≤ most_distributors }
    ensures { result ≡ fixings_sound ledger }
{
    let n = ledger.n;
    let fixed = ledger.fixed;
    let kept = ledger.has_older;
    let force = ledger.force;
    let older = ledger.older;
    force_sound(places_held(n, fixed), force)
        & older_sound(n, fixed, kept, older)
        & day_sound(fixed, ledger.month, ledger.day, kept)
}

// What is unset is zero: without a fixing its month, without a settled month the last month.
fn unset_zero(settled: bool, last: u64, fixed: bool, month: u64) -> bool
    ensures { result ≡ unset_zero settled last fixed month }
{
    (fixed | (month == 0)) & (settled | (last == 0))
}

// Month numbers are in their ranges.
fn months_sound(settled: bool, last: u64, month: u64) -> bool
    ensures { result ≡ months_sound settled last month }
{
    if last > LAST_MONTH {
        return false;
    }
    (month <= LAST_MONTH) & (!settled | (month <= last + 1))
}

// Every count: none past n.
fn counts_sound(n: usize, last: u64, counts: [u64; MOST_DISTRIBUTORS]) -> bool
    requires { last ≤ last_month }
    ensures { result ≡ counts_sound n last counts }
{
    (0..MOST_DISTRIBUTORS).all(|i| counts[i] <= bound_where(i < n, last + 1))
}

// One balance: none where no month is counted.
fn balance_sound(count: u64, balance: Pesos) -> bool
    ensures { result ≡ balance_test count balance.0 }
{
    within_size(balance.0, bound_where(count != 0, MOST_POSITION))
}

// Every balance.
fn each_balance_sound(
    counts: [u64; MOST_DISTRIBUTORS],
    balances: [Pesos; MOST_DISTRIBUTORS],
) -> bool
    ensures { result ≡ each_balance counts balances }
{
    (0..MOST_DISTRIBUTORS).all(|i| balance_sound(counts[i], balances[i]))
}

// Whether not both a balance above zero and one below is among them.
fn one_sign(balances: [Pesos; MOST_DISTRIBUTORS]) -> bool
    ensures { result ≡ one_sign most_distributors (money_at balances) }
{
    let above = balances.iter().any(|balance| 0 < balance.0);
    let below = balances.iter().any(|balance| balance.0 < 0);
    !(above & below)
}

// Whether the ledger is sound, for every bit pattern.
pub(crate) fn is_sound(ledger: Ledger) -> bool
    ensures { result ≡ sound ledger }
{
    let n = ledger.n;
    if !is_between(1, MOST_DISTRIBUTORS as u64, n as u64) {
        return false;
    }
    let settled = ledger.any_settled();
    let last = ledger.last;
    let month = ledger.month;
    if !months_sound(settled, last, month) {
        return false;
    }
    let balances = ledger.balances;
    let counts = ledger.counts;
    fixings_sound(ledger)
        & unset_zero(settled, last, ledger.fixed, month)
        & counts_sound(n, last, counts)
        & (each_balance_sound(counts, balances) & one_sign(balances))
}
