// Energy and average price of each distributor, from its lines.
// n stays a number, its bound a clause: `fix_input` takes a number, and `numbers::sizes` has the bound.
ghost use Rattle.std.specs.Prelude.{◌≡◌, true, ◌≤◌, get_or};
ghost use Rattle.numbers.specs.Bounded.{list_below, filled_below};
ghost use Rattle.numbers.specs.Rounding.{half_up};
ghost use Rattle.numbers.specs.Units.{no_price, no_energy, no_total};
ghost use Rattle.numbers.specs.Sizes.{most_distributors};
ghost use Rattle.fixing.specs.Average.{lines_amount, everyone_supplied, every_energy, energy_list, average_list};
ghost use Rattle.fixing.specs.Required.{OwnLines, PricedLines, Divisible};

use numbers::rounding::half_up;
use numbers::sizes::MOST_DISTRIBUTORS;
use numbers::units::{Energy, PesoPrice, UnsignedPesos};
use supply::line::{MOST_LINES, line_at, line_count};

// The energy of each distributor, in one pass over the lines. `amounts` and `power_amounts` pass over them likewise,
// each with sums of its own unit: in one function with a closure the kit takes no answer to what its calls ask.
pub(crate) fn energies(lines: &[u64]) -> [Energy; MOST_DISTRIBUTORS]
    requires { OwnLines lines.now }
    ensures { result ≡ energy_list lines.now }
{
    let mut energies = [Energy(0); MOST_DISTRIBUTORS];
    for j in 0..line_count(lines) {
        let line = line_at(lines, j);
        let i = line.distributor as usize;
        energies[i] = Energy(energies[i].0 + line.energy);
    }
    energies
}

// Whether each of n energies is above 0. A line's is at least 1, so that who has none has no line.
pub(crate) fn every_energy(n: usize, energies: [Energy; MOST_DISTRIBUTORS]) -> bool
    requires { n ≤ most_distributors }
    ensures { result ≡ every_energy n energies }
{
    (0..n).all(|i| energies[i].0 != 0)
}

// What the lines of each distributor come to at a price for each line, in one pass: one price unit times one MWh is $1.
fn amounts(prices: [PesoPrice; MOST_LINES], lines: &[u64]) -> [UnsignedPesos; MOST_DISTRIBUTORS]
    requires { PricedLines prices lines.now }
    ensures { result ≡ list_below most_distributors
        (λ i. record { 0 = lines_amount (λ j. (get_or prices j no_price).0) lines.now i }) }
{
    let mut amounts = [UnsignedPesos(0); MOST_DISTRIBUTORS];
    for j in 0..line_count(lines) {
        let line = line_at(lines, j);
        let i = line.distributor as usize;
        amounts[i] = UnsignedPesos(amounts[i].0 + prices[j].0 * line.energy);
    }
    amounts
}

// Amounts divided by energies, half up.
fn divide_amounts(
    n: usize,
    amounts: [UnsignedPesos; MOST_DISTRIBUTORS],
    energies: [Energy; MOST_DISTRIBUTORS],
) -> [PesoPrice; MOST_DISTRIBUTORS]
    requires { Divisible n amounts energies }
    ensures { result ≡ filled_below most_distributors no_price n
        (λ i. record { 0 = half_up (get_or amounts i no_total).0 (get_or energies i no_energy).0 }) }
{
    let mut averages = [PesoPrice(0); MOST_DISTRIBUTORS];
    for i in 0..n {
        averages[i] = PesoPrice(half_up(amounts[i].0, energies[i].0));
    }
    averages
}

// The average price of each of n distributors, weighted by the energy of its lines.
pub(crate) fn averages(
    n: usize,
    references: [PesoPrice; MOST_LINES],
    lines: &[u64],
    energies: [Energy; MOST_DISTRIBUTORS],
) -> [PesoPrice; MOST_DISTRIBUTORS]
    requires few { n ≤ most_distributors }
    requires priced { PricedLines references lines.now }
    requires supplied { energies ≡ energy_list lines.now }
    requires everyone { everyone_supplied n lines.now ≡ true }
    ensures { result ≡ average_list n references lines.now }
{
    divide_amounts(n, amounts(references, lines), energies)
}
