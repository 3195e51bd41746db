// The distributors that a limit is worked from. By themselves, since the definitions of what `prices` answers name them,
// and their ghost field may rest on none of these.
ghost use Rattle.fixing.specs.Limit.{InRange, distributors};

use numbers::sizes::MOST_DISTRIBUTORS;
use numbers::units::{Energy, PesoPrice};

// n distributors in range. Two lists: each comes whole, from a pass of its own over the lines.
#[derive(Clone, Copy)]
pub(crate) struct PricedDistributors {
    pub n: usize,
    pub averages: [PesoPrice; MOST_DISTRIBUTORS],
    pub energies: [Energy; MOST_DISTRIBUTORS],
    ghost range: { InRange (distributors n averages energies) },
}
