// The fixing of input of right lengths: causes 6 to 11 and 14 in their order, then averages, average power prices,
// prices and sector charges.
ghost use Rattle.std.specs.Prelude.{◌≡◌, true, ◌*◌, length};
ghost use Rattle.numbers.specs.Sizes.{sector_count};
ghost use Rattle.fixing.specs.Average.{average_list, energy_list};
ghost use Rattle.fixing.specs.Power.{power_averages};
ghost use Rattle.fixing.specs.Sector.{sectors_allowed};
ghost use Rattle.fixing.specs.Input.{input_of};
ghost use Rattle.fixing.specs.Fixing.{accepted_fixing, InputPromise};
ghost use Rattle.fixing.specs.Required.{AcceptedLines, PowerPricedLines, RightLengths};

use crate::average::{averages, energies, every_energy};
use crate::distributors::PricedDistributors;
use crate::power::power_averages;
use crate::prices::FixedPrices;
use crate::sector::{SectorCharges, sector_charges, sectors_allowed};
use numbers::refusal::Refusal;
use numbers::sizes::MOST_DISTRIBUTORS;
use numbers::units::{Energy, PesoPrice, PowerPrice};
use series::table::{fill, values_in_range};
use supply::market::FixingNumbers;
use supply::price::{LinePrices, price_lines};
use supply::range::input_in_range;

// What an accepted fixing comes to. Lists of their own: `price_word` and `average_power_list` read each by itself.
#[derive(Clone, Copy)]
pub struct Fixing {
    pub averages: [PesoPrice; MOST_DISTRIBUTORS],
    pub power: [PowerPrice; MOST_DISTRIBUTORS],
    pub prices: FixedPrices,
    // Final price less average, signed, in 0.001 $/kWh.
    pub charges: [i64; MOST_DISTRIBUTORS],
    pub sectors: SectorCharges,
}

// An accepted fixing: the prices of lines that passed every check.
fn accepted(
    n: usize,
    priced: LinePrices,
    lines: &[u64],
    energies: [Energy; MOST_DISTRIBUTORS],
    sectors: &[u64],
) -> Fixing
    requires checked { AcceptedLines n priced.references lines.now }
    requires power_priced { PowerPricedLines priced.power lines.now }
    requires supplied { energies ≡ energy_list lines.now }
    requires lent { length sectors.now ≡ n * sector_count }
    requires allowed { sectors_allowed n sectors.now ≡ true }
    ensures { result ≡ accepted_fixing n (average_list n priced.references lines.now)
        (power_averages n priced.power lines.now)
        (energy_list lines.now) sectors.now }
{
    let averages = averages(n, priced.references, lines, energies);
    let power = power_averages(n, priced.power, lines, energies);
    let distributors = PricedDistributors {
        n,
        averages,
        energies,
    };
    let prices = distributors.fix_prices();
    let charges = distributors.charges(prices.finals);
    let sectors = sector_charges(n, charges, sectors);
    Fixing {
        averages,
        power,
        prices,
        charges,
        sectors,
    }
}

// The fixing of input of right lengths, each check over the whole input before the next.
pub fn fix_input(
    n: usize,
    numbers: FixingNumbers,
    series: &[u64],
    lines: &[u64],
    sectors: &[u64],
    in_force: &[u64],
) -> Result<Fixing, Refusal>
    requires { RightLengths n (input_of numbers series.now lines.now sectors.now in_force.now) }
    ensures { InputPromise n (input_of numbers series.now lines.now sectors.now
        in_force.now) result }
{
    if !input_in_range(n, numbers, lines, in_force) {
        return Err(Refusal::OutOfRange);
    }
    if !values_in_range(series) {
        return Err(Refusal::ValueTooLarge);
    }
    if !sectors_allowed(n, sectors) {
        return Err(Refusal::WrongSector);
    }
    let energies = energies(lines);
    if !every_energy(n, energies) {
        return Err(Refusal::NoLine);
    }
    let priced = price_lines(fill(series), numbers, lines, in_force)?;
    Ok(accepted(n, priced, lines, energies, sectors))
}
