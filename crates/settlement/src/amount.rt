// Readings and loss factors, their test (cause 12), and the amount that a distributor collected in a month.
ghost use Rattle.std.specs.Prelude.{◌≡◌, ◌<◌};
ghost use Rattle.numbers.specs.Sizes.{sector_count};
ghost use Rattle.settlement.specs.Amount.{reading_of, high_loss_of, low_loss_of};
ghost use Rattle.settlement.specs.Amount.{sector_allowed, readings_allowed, losses_allowed};
ghost use Rattle.settlement.specs.Amount.{billing_in_range, energy_with_losses, collected_amount};
ghost use Rattle.settlement.specs.Required.{BillingLists, BilledReadings, Billed};

use numbers::rounding::half_away;
use numbers::signed::difference;
use numbers::sizes::{DISTRIBUTOR_READINGS, MOST_READING, PLACES, SECTORS};
use numbers::units::{Pesos, bound_where, is_between};

// Readings of a sector.
const KINDS: usize = 4;

// What is billed in a month: the readings and the loss factors of n distributors.
#[derive(Clone, Copy)]
pub(crate) struct Billing<'a> {
    pub(crate) n: usize,
    pub(crate) readings: &'a [u64],
    pub(crate) losses: &'a [u64],
    ghost lists: { BillingLists n readings.now losses.now },
}

impl<'a> Billing<'a> {
    // The reading of kind k (billed AT, injected AT, billed BT, injected BT) of distributor i in sector s.
    // The kind is a number, as `reading_of` takes it.
    fn reading(&self, i: usize, s: usize, k: usize) -> u64
        requires known { i < self.now.n }
        requires sector { s < sector_count }
        requires kind { k < 4 }
        ensures { result ≡ reading_of self.now.readings.now i s k }
    {
        self.readings[i * DISTRIBUTOR_READINGS + s * KINDS + k]
    }

    // The loss factor at high voltage of distributor i.
    fn high_loss(&self, i: usize) -> u64
        requires { i < self.now.n }
        ensures { result ≡ high_loss_of self.now.losses.now i }
    {
        self.losses[i * 2]
    }

    // The loss factor at low voltage of distributor i.
    fn low_loss(&self, i: usize) -> u64
        requires { i < self.now.n }
        ensures { result ≡ low_loss_of self.now.losses.now i }
    {
        self.losses[i * 2 + 1]
    }

    // The four readings of distributor i in sector s, as one flag.
    fn sector_allowed(&self, present: &[bool; PLACES], i: usize, s: usize) -> bool
        requires known { i < self.now.n }
        requires sector { s < sector_count }
        ensures { result ≡ sector_allowed present.now self.now.readings.now i s }
    {
        let most = bound_where(present[i * SECTORS + s], MOST_READING);
        (self.reading(i, s, 0) <= most)
            & (self.reading(i, s, 1) <= most)
            & (self.reading(i, s, 2) <= most)
            & (self.reading(i, s, 3) <= most)
    }

    // All readings of distributor i.
    fn readings_allowed(&self, present: &[bool; PLACES], i: usize) -> bool
        requires { i < self.now.n }
        ensures { result ≡ readings_allowed present.now self.now.readings.now i }
    {
        for s in 0..SECTORS {
            if !self.sector_allowed(present, i, s) {
                return false;
            }
        }
        true
    }

    // Both loss factors of distributor i.
    fn losses_allowed(&self, i: usize) -> bool
        requires { i < self.now.n }
        ensures { result ≡ losses_allowed self.now.losses.now i }
    {
        is_between(10000, 20000, self.high_loss(i)) & is_between(10000, 20000, self.low_loss(i))
    }

    // The net energy of distributor i in sector s, carried up over the losses, in kWh: rounded by sector.
    fn energy_with_losses(&self, i: usize, s: usize) -> i64
        requires allowed { BilledReadings self.now.n self.now.readings.now self.now.losses.now }
        requires known { i < self.now.n }
        requires sector { s < sector_count }
        ensures { result ≡ energy_with_losses self.now.readings.now self.now.losses.now i s }
    {
        let high = difference(self.reading(i, s, 0), self.reading(i, s, 1));
        let low = difference(self.reading(i, s, 2), self.reading(i, s, 3));
        let high_loss = self.high_loss(i);
        let low_loss = self.low_loss(i);
        let carried = high * difference(high_loss * 10000, 0)
            + low * difference(high_loss * low_loss, 0);
        half_away(carried, 100000000)
    }

    // The amount that distributor i collected: the sum of charge times energy over its sectors, rounded once.
    pub(crate) fn collected_amount(&self, charges: &[i64; PLACES], i: usize) -> Pesos
        requires billed { Billed self.now.n charges.now self.now.readings.now self.now.losses.now }
        requires known { i < self.now.n }
        ensures { result ≡ record
            { 0 = collected_amount charges.now self.now.readings.now self.now.losses.now i } }
    {
        let mut sum: i64 = 0;
        for s in 0..SECTORS {
            let charge = charges[i * SECTORS + s];
            sum += charge * self.energy_with_losses(i, s);
        }
        Pesos(half_away(sum, 1000))
    }
}

// Whether every reading and every loss factor passes, against the presences in force.
pub fn billing_in_range(
    n: usize,
    present: &[bool; PLACES],
    readings: &[u64],
    losses: &[u64],
) -> bool
    requires { BillingLists n readings.now losses.now }
    ensures { result ≡ billing_in_range n present.now readings.now losses.now }
{
    let billing = Billing {
        n,
        readings,
        losses,
    };
    for i in 0..n {
        let allowed = billing.readings_allowed(present, i) & billing.losses_allowed(i);
        if !allowed {
            return false;
        }
    }
    true
}
