// The shares of one side: floors, and one peso each of what they leave, by the largest remainders. A side is a size for
// each distributor, 0 for those who are not on it.
// n stays a number, its bound a clause: `settle_positions` takes a number, and `numbers::sizes` has the bound.
ghost use Rattle.std.specs.Prelude.{◌≡◌, ◌≤◌, ◌<◌, get_or};
ghost use Rattle.numbers.specs.Sizes.{most_distributors};
ghost use Rattle.settlement.specs.Share.{side_total, rank};
ghost use Rattle.settlement.specs.Month.{division_at, share_list, divided_side};
ghost use Rattle.settlement.specs.Required.{Side};

use numbers::division::{Division, multiply_divide};
use numbers::sizes::MOST_DISTRIBUTORS;

// The total of a side.
pub(crate) fn side_total(n: usize, sizes: &[u64; MOST_DISTRIBUTORS]) -> u64
    requires { Side n sizes.now }
    ensures { result ≡ side_total n (λ i. get_or sizes.now i 0) }
{
    sizes[..n].iter().sum()
}

// A side divided: each distributor's division, with its floor for a quotient, and the pesos that the floors leave.
#[derive(Clone, Copy)]
pub(crate) struct DividedSide {
    pub(crate) divisions: [Division; MOST_DISTRIBUTORS],
    pub(crate) left: u64,
}

// One division for each distributor.
fn divide_side(
    n: usize,
    sizes: &[u64; MOST_DISTRIBUTORS],
    total: u64,
    transferred: u64,
) -> DividedSide
    requires side { Side n sizes.now }
    requires whole { total ≡ side_total n (λ i. get_or sizes.now i 0) }
    requires most { transferred < total }
    ensures { result ≡ divided_side n sizes.now transferred }
{
    let none = Division {
        quotient: 0,
        remainder: 0,
    };
    let mut divisions = [none; MOST_DISTRIBUTORS];
    let mut left = transferred;
    for i in 0..n {
        let division = multiply_divide(transferred, sizes[i], total);
        divisions[i] = division;
        left -= division.quotient;
    }
    DividedSide { divisions, left }
}

// How many come before i: those with a larger remainder, and the lower ones with the same.
fn rank_of(n: usize, divisions: &[Division; MOST_DISTRIBUTORS], i: usize) -> u64
    requires few { n ≤ most_distributors }
    requires known { i < n }
    ensures { result ≡ rank n (λ j. (division_at divisions.now j).remainder) i }
{
    let own = divisions[i].remainder;
    let mut rank: u64 = 0;
    for j in 0..n {
        let other = divisions[j].remainder;
        if (own < other) | ((other == own) & (j < i)) {
            rank += 1;
        }
    }
    rank
}

// The shares of a side in the transferred total. A side that is transferred whole has its sizes for shares, with no
// division; in any other each has its floor, and one of the pesos left where fewer than these come before it.
pub(crate) fn shares(
    n: usize,
    sizes: &[u64; MOST_DISTRIBUTORS],
    total: u64,
    transferred: u64,
) -> [u64; MOST_DISTRIBUTORS]
    requires side { Side n sizes.now }
    requires whole { total ≡ side_total n (λ i. get_or sizes.now i 0) }
    requires most { transferred ≤ total }
    ensures { result ≡ share_list n sizes.now transferred }
{
    if transferred == total {
        return *sizes;
    }
    let divided = divide_side(n, sizes, total, transferred);
    let mut shares = [0u64; MOST_DISTRIBUTORS];
    for i in 0..n {
        let mut share = divided.divisions[i].quotient;
        if rank_of(n, &divided.divisions, i) < divided.left {
            share += 1;
        }
        shares[i] = share;
    }
    shares
}
