// The average power price of each distributor, from its lines. What the power of a distributor's lines comes to passes
// 64 bits.
// n stays a number, its bound a clause: `fix_input` takes a number, and `numbers::sizes` has the bound.
ghost use Rattle.std.specs.Prelude.{◌≡◌, true, ◌≤◌};
ghost use Rattle.numbers.specs.Bounded.{list_below};
ghost use Rattle.numbers.specs.Rounding.{half_up};
ghost use Rattle.numbers.specs.Sizes.{most_distributors};
ghost use Rattle.fixing.specs.Average.{everyone_supplied, energy_list, lines_amount};
ghost use Rattle.fixing.specs.Power.{power_of, power_averages};
ghost use Rattle.fixing.specs.Required.{PowerPricedLines, PowerWithin};

use numbers::sizes::MOST_DISTRIBUTORS;
use numbers::units::{Energy, PowerPrice};
use supply::line::{MOST_LINES, line_at, line_count};

// What the lines of each distributor come to at the power price of each line, in one pass.
fn power_amounts(prices: [PowerPrice; MOST_LINES], lines: &[u64]) -> [u128; MOST_DISTRIBUTORS]
    requires { PowerPricedLines prices lines.now }
    ensures { result ≡ list_below most_distributors (lines_amount (power_of prices) lines.now) }
{
    let mut amounts = [0u128; MOST_DISTRIBUTORS];
    for j in 0..line_count(lines) {
        let line = line_at(lines, j);
        let i = line.distributor as usize;
        amounts[i] = amounts[i] + prices[j].0 as u128 * line.energy as u128;
    }
    amounts
}

// The average of an amount, half up. One `half_up` over u64 and u128 would ask `can_mul`, `can_add`, `can_div` of its
// parameter, and a number for each value of it: no plainer than this line.
fn power_average(amount: u128, energy: Energy) -> PowerPrice
    requires { PowerWithin amount energy.0 }
    ensures { result ≡ record { 0 = half_up amount energy.0 } }
{
    let divisor = energy.0 as u128;
    PowerPrice(((2 * amount + divisor) / (2 * divisor)) as u64)
}

// The average power price of each of n distributors, weighted by the energy of its lines.
pub(crate) fn power_averages(
    n: usize,
    prices: [PowerPrice; MOST_LINES],
    lines: &[u64],
    energies: [Energy; MOST_DISTRIBUTORS],
) -> [PowerPrice; MOST_DISTRIBUTORS]
    requires few { n ≤ most_distributors }
    requires priced { PowerPricedLines prices lines.now }
    requires supplied { energies ≡ energy_list lines.now }
    requires everyone { everyone_supplied n lines.now ≡ true }
    ensures { result ≡ power_averages n prices lines.now }
{
    let amounts = power_amounts(prices, lines);
    let mut averages = [PowerPrice(0); MOST_DISTRIBUTORS];
    for i in 0..n {
        averages[i] = power_average(amounts[i], energies[i]);
    }
    averages
}
