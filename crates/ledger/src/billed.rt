// The presences and charges that a month is billed under: in a split month those of the older fixing and of the one in
// force by their days, in any other those in force alone.
ghost use Rattle.std.specs.Prelude.{◌≡◌, true, ◌≤◌, ◌<◌, nat_abs};
ghost use Rattle.settlement.specs.Amount.{most_charge};
ghost use Rattle.ledger.specs.Billed.{split_charge, split_charges, billed_under};
ghost use Rattle.ledger.specs.Sound.{sound};
ghost use Rattle.ledger.specs.Required.{most_days, Divided};

use crate::calendar::days_of;
use crate::ledger::Ledger;
use fixing::sector::{SectorCharges, no_charges};
use numbers::rounding::half_away;
use numbers::signed::difference;
use numbers::sizes::SECTORS;

// The charge of a sector, by the days before and those that remain.
fn split_charge(days: u64, before: u64, old: i64, new: i64) -> i64
    requires short { days ≤ most_days }
    requires some { before < days }
    requires old_within { nat_abs old ≤ most_charge }
    requires new_within { nat_abs new ≤ most_charge }
    ensures { result ≡ split_charge days before old new }
{
    let weighed = old * difference(before, 0) + new * difference(days - before, 0);
    half_away(weighed, days)
}

// Presences and charges of the sectors of n distributors, from those of both fixings.
fn split_charges(
    n: usize,
    days: u64,
    before: u64,
    old: SectorCharges,
    new: SectorCharges,
) -> SectorCharges
    requires { Divided n days before old new }
    ensures { result ≡ split_charges n days before old new }
{
    let mut force = no_charges();
    for k in 0..n * SECTORS {
        force.present[k] = old.present[k] | new.present[k];
        force.charges[k] = split_charge(days, before, old.charges[k], new.charges[k]);
    }
    force
}

impl Ledger {
    // What a month is billed under.
    pub(crate) fn billed_under(self, month: u64) -> SectorCharges
        requires { sound self ≡ true }
        ensures { result ≡ billed_under self month }
    {
        let force = self.force;
        if (month == self.month) & (1 < self.day) {
            let older = self.older;
            return split_charges(self.n, days_of(self.month), self.day - 1, older, force);
        }
        force
    }
}
