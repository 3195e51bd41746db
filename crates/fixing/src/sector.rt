// Sector factors: their test (cause 8), and the presences and charges that a fixing puts in force.
// n stays a number, its bound a clause: `fix_input` takes a number, and `numbers::sizes` has the bound.
ghost use Rattle.std.specs.Prelude.{◌≡◌, false, ◌*◌, ◌≤◌, ◌<◌, length, get_or, pos, nat_abs};
ghost use Rattle.numbers.specs.Bounded.{all_below};
ghost use Rattle.numbers.specs.Sizes.{most_distributors, sector_count};
ghost use Rattle.numbers.specs.Units.{most_price};
ghost use Rattle.fixing.specs.Sector.{most_factor, has_sector, sectors_allowed};
ghost use Rattle.fixing.specs.Sector.{sector_charge, sector_charges, no_charges};
ghost use Rattle.fixing.specs.Required.{ChargedSectors};

use numbers::rounding::half_away;
use numbers::signed::difference;
use numbers::sizes::{MOST_DISTRIBUTORS, PLACES, SECTORS};
use numbers::units::all_between;

// Presence and charge of 8 sectors of 40 distributors: what a fixing puts in force, without its month. Two lists, no
// Option: `sound` judges an absent sector's charge too (`place_test`), and the kept form has each list.
#[derive(Clone, Copy)]
pub struct SectorCharges {
    pub present: [bool; PLACES],
    pub charges: [i64; PLACES],
}

const MOST_FACTOR: u64 = 50000;

// Whether distributor i has a sector.
fn has_sector(n: usize, sectors: &[u64], i: usize) -> bool
    requires few { n ≤ most_distributors }
    requires lent { length sectors.now ≡ n * sector_count }
    requires below { i < n }
    ensures { result ≡ has_sector sectors.now i }
{
    (0..SECTORS).any(|s| sectors[i * SECTORS + s] != 0)
}

// Whether every distributor has a sector.
fn all_have_sectors(n: usize, sectors: &[u64]) -> bool
    requires few { n ≤ most_distributors }
    requires lent { length sectors.now ≡ n * sector_count }
    ensures { result ≡ all_below n (has_sector sectors.now) }
{
    (0..n).all(|i| has_sector(n, sectors, i))
}

// Whether no sector factor is too large and every distributor has a sector.
pub(crate) fn sectors_allowed(n: usize, sectors: &[u64]) -> bool
    requires few { n ≤ most_distributors }
    requires lent { length sectors.now ≡ n * sector_count }
    ensures { result ≡ sectors_allowed n sectors.now }
{
    all_between(0, MOST_FACTOR, sectors) && all_have_sectors(n, sectors)
}

// The charge of a sector: the distributor's charge times the factor, in ten-thousandths.
fn sector_charge(charge: i64, factor: u64) -> i64
    requires charge { nat_abs charge ≤ most_price }
    requires factor { factor ≤ most_factor }
    ensures { result ≡ sector_charge charge factor }
{
    half_away(charge * difference(factor, 0), 10000)
}

// Nothing in force.
pub fn no_charges() -> SectorCharges
    ensures { result ≡ no_charges }
{
    SectorCharges {
        present: [false; PLACES],
        charges: [0i64; PLACES],
    }
}

// Presences and charges of the sectors of n distributors, from their charges.
pub(crate) fn sector_charges(
    n: usize,
    charges: [i64; MOST_DISTRIBUTORS],
    sectors: &[u64],
) -> SectorCharges
    requires { ChargedSectors n charges sectors.now }
    ensures { result ≡ sector_charges n (λ i. get_or charges i (pos 0)) sectors.now }
{
    let mut force = no_charges();
    for k in 0..sectors.len() {
        let factor = sectors[k];
        force.present[k] = factor != 0;
        force.charges[k] = sector_charge(charges[k / SECTORS], factor);
    }
    force
}
