// The open calls of fixing, regular and interim: no requires. Both make the same fixing, an interim one with a price in
// force for each line. Causes 2, 3, 4 and 16 are the ledger's, the others the fixing's; the prices and the power prices
// are written only when all of them are passed.
ghost use Rattle.std.specs.Prelude.{◌≡◌, true, false, [], ◌*◌, ◌≤◌, ◌<◌, ◌^◌, length, get_or};
ghost use Rattle.std.specs.Prelude.{is_some, unwrap_or, option_copied};
ghost use Rattle.numbers.specs.Bounded.{list_below};
ghost use Rattle.numbers.specs.Units.{no_power};
ghost use Rattle.series.specs.Series.{last_month};
ghost use Rattle.ledger.specs.Ledger.{any_settled, next_month, fixed_ledger};
ghost use Rattle.ledger.specs.Turn.{fixing_turn};
ghost use Rattle.numbers.specs.Sizes.{most_distributors};
ghost use Rattle.ledger.specs.Fix.{fixing_call_of, lent_call, lines_whole, in_force_length, call_lengths};
ghost use Rattle.ledger.specs.Fix.{worked_answer};
ghost use Rattle.ledger.specs.Fix.{price_part, price_word};
ghost use Rattle.ledger.specs.Fix.{accepted_values, FixingPromise};
ghost use Rattle.ledger.specs.Fix.{FixingCall, HandedBack, FixingAccepted, SameButPowerList};
ghost use Rattle.ledger.specs.declared.ledger.Ledger.{Ledger};
ghost use Rattle.fixing.specs.Input.{SameButPower};
ghost use Rattle.ledger.specs.Required.{PricesSmall};

use crate::calendar::day_allowed;
use crate::ledger::{Ledger, Outcome, refused};
use crate::sound::is_sound;
use fixing::fix::{Fixing, fix_input};
use fixing::prices::FixedPrices;
use fixing::sector::SectorCharges;
use numbers::refusal::Refusal;
use numbers::signed::difference;
use numbers::sizes::{MOST_DISTRIBUTORS, SECTORS};
use numbers::units::{PesoPrice, PowerPrice, UnsignedPesos, is_between};
use series::table::{LAST_MONTH, WORDS};
use supply::line::{LINE_WORDS, MOST_LINES, line_count};
use supply::market::FixingNumbers;

// What an accepted fixing returns.
#[derive(Clone, Copy)]
pub struct FixingValues {
    pub limit: PesoPrice,
    pub surcharge: PesoPrice,
    pub rounds: u64,
    pub residue: UnsignedPesos,
}

// What a fixing is worked from: its numbers, the lists lent for it, and for an interim one a price in force for each
// line. The lists have one lifetime, the shortest, as the open calls take them: the borrow checker asks it of a struct.
#[derive(Clone, Copy)]
struct Input<'a> {
    numbers: FixingNumbers,
    series: &'a [u64],
    lines: &'a [u64],
    sectors: &'a [u64],
    in_force: Option<&'a [u64]>,
}

impl Ledger {
    // The ledger with a new fixing in force, and the older one that stands beside it.
    fn book_fixing(mut self, numbers: FixingNumbers, force: SectorCharges) -> Self
        ensures { result ≡ fixed_ledger self numbers force }
    {
        let stands = self.older_stands(numbers.month);
        let older = self.older_beside(numbers.month);
        self.fixed = true;
        self.month = numbers.month;
        self.day = numbers.day;
        self.force = force;
        self.has_older = stands;
        self.older = older;
        self
    }
}

// Whether the words are 1 to 256 whole lines.
fn lines_whole(lines: &[u64]) -> bool
    ensures { result ≡ lines_whole lines.now }
{
    (lines.len() % LINE_WORDS == 0) & is_between(1, MOST_LINES as u64, line_count(lines) as u64)
}

// Whether the prices in force of an interim fixing are one for each line.
fn in_force_right(lines: &[u64], in_force: Option<&[u64]>) -> bool
    ensures { result ≡ in_force_length (is_some (option_copied in_force.entry)) lines.now
        (unwrap_or (option_copied in_force.entry) []) }
{
    match in_force {
        Some(prices) => prices.len() == line_count(lines),
        None => true,
    }
}

// Whether every lent list has its length.
fn lengths_right(n: usize, input: Input, prices: &[i64], power: &[u64]) -> bool
    requires { n ≤ most_distributors }
    ensures { result ≡ call_lengths n (lent_call input.entry.numbers input.entry.series.now input.entry.lines.now
        input.entry.sectors.now (option_copied input.entry.in_force) prices.now power.now) }
{
    (input.series.len() == WORDS)
        & lines_whole(input.lines)
        & (input.sectors.len() == n * SECTORS)
        & (prices.len() == n * 3)
        & (power.len() == n)
        & in_force_right(input.lines, input.in_force)
}

// Whether the fixing's month is due.
fn in_turn(ledger: Ledger, month: u64) -> bool
    requires { ledger.last ≤ last_month }
    ensures { result ≡ fixing_turn (any_settled ledger) (next_month ledger) month }
{
    (month <= LAST_MONTH) & (!ledger.any_settled() | (month == ledger.next_month()))
}

// A distributor's word of the price list: average, final price or charge.
fn price_part(average: PesoPrice, last: PesoPrice, charge: i64, part: usize) -> i64
    requires average_small { average.0 < 2 ^ 62 }
    requires last_small { last.0 < 2 ^ 62 }
    requires part_below { part < 3 }
    ensures { result ≡ price_part average.0 last.0 charge part }
{
    match part {
        0 => difference(average.0, 0),
        1 => difference(last.0, 0),
        _ => charge,
    }
}

// The whole price list, distributor by distributor, in one loop that cannot fail.
fn write_prices(
    averages: [PesoPrice; MOST_DISTRIBUTORS],
    finals: [PesoPrice; MOST_DISTRIBUTORS],
    charges: [i64; MOST_DISTRIBUTORS],
    prices: &mut [i64],
)
    requires few { length prices.old ≤ most_distributors * 3 }
    requires small { PricesSmall averages finals }
    ensures { prices.new ≡ list_below (length prices.old) (price_word averages finals charges) }
{
    for (k, price) in prices.iter_mut().enumerate() {
        let i = k / 3;
        *price = price_part(averages[i], finals[i], charges[i], k % 3);
    }
}

// The whole power list, in a loop that cannot fail either.
fn write_power(averages: [PowerPrice; MOST_DISTRIBUTORS], power: &mut [u64])
    requires { length power.old ≤ most_distributors }
    ensures { power.new ≡ list_below (length power.old)
        (λ i. (get_or averages i no_power).0) }
{
    for (i, price) in power.iter_mut().enumerate() {
        *price = averages[i].0;
    }
}

// What an accepted fixing returns of its prices.
fn accepted(fixed: FixedPrices) -> FixingValues
    ensures { result ≡ accepted_values fixed }
{
    FixingValues {
        limit: fixed.limit,
        surcharge: fixed.surcharge,
        rounds: fixed.rounds,
        residue: fixed.residue,
    }
}

// The fixing: the checks in their order, and nothing written yet.
fn worked_fixing(
    ledger: Ledger,
    input: Input,
    prices: &[i64],
    power: &[u64],
) -> Result<Fixing, Refusal>
    ensures { result ≡ worked_answer ledger (lent_call input.entry.numbers input.entry.series.now
        input.entry.lines.now input.entry.sectors.now (option_copied input.entry.in_force) prices.now power.now) }
{
    if !is_sound(ledger) {
        return Err(Refusal::Unsound);
    }
    let n = ledger.n;
    if !lengths_right(n, input, prices, power) {
        return Err(Refusal::WrongLength);
    }
    let numbers = input.numbers;
    if !in_turn(ledger, numbers.month) {
        return Err(Refusal::OutOfTurn);
    }
    let stands = ledger.older_stands(numbers.month);
    if !day_allowed(numbers.month, numbers.day, stands) {
        return Err(Refusal::WrongDay);
    }
    let in_force = input.in_force.unwrap_or(&[]);
    fix_input(
        n,
        numbers,
        input.series,
        input.lines,
        input.sectors,
        in_force,
    )
}

// A fixing, regular or interim. What is accepted is written, and it is in force in the ledger.
fn make_fixing(
    ledger: Ledger,
    input: Input,
    prices: &mut [i64],
    power: &mut [u64],
) -> Outcome<FixingValues>
    ensures { FixingPromise ledger
        (lent_call input.entry.numbers input.entry.series.now input.entry.lines.now
        input.entry.sectors.now (option_copied input.entry.in_force) prices.old power.old)
        result.answer result.ledger prices.new power.new }
{
    match worked_fixing(ledger, input, prices, power) {
        Ok(fixing) => {
            let fixed = fixing.prices;
            write_prices(fixing.averages, fixed.finals, fixing.charges, prices);
            write_power(fixing.power, power);
            Outcome {
                answer: Ok(accepted(fixed)),
                ledger: ledger.book_fixing(input.numbers, fixing.sectors),
            }
        }
        Err(refusal) => refused(refusal, ledger),
    }
}

// A fixing of the ledger's distributors for a month, or from a later day of it on, from the dollar, the reference
// factor, the index series with its first month, the supply lines and the sector factors. Where it is accepted the
// price list and the power list are written and the fixing is in force in the ledger handed back; where it is refused
// all three are as they were.
pub fn fix<'a>(
    ledger: Ledger,
    numbers: FixingNumbers,
    series: &'a [u64],
    lines: &'a [u64],
    sectors: &'a [u64],
    prices: &mut [i64],
    power: &mut [u64],
) -> Outcome<FixingValues>
    ensures { FixingPromise ledger
        (fixing_call_of false numbers series.now lines.now sectors.now []
        prices.old power.old)
        result.answer result.ledger prices.new power.new }
{
    let input = Input {
        numbers,
        series,
        lines,
        sectors,
        in_force: None,
    };
    make_fixing(ledger, input, prices, power)
}

// An interim fixing: a fixing in which a line takes its new indexed price only if that moved by more than 10% from the
// one in force, which is lent for each line. Power is worked afresh.
pub fn interim<'a>(
    ledger: Ledger,
    numbers: FixingNumbers,
    series: &'a [u64],
    lines: &'a [u64],
    sectors: &'a [u64],
    in_force: &'a [u64],
    prices: &mut [i64],
    power: &mut [u64],
) -> Outcome<FixingValues>
    ensures { FixingPromise ledger
        (fixing_call_of true numbers series.now lines.now sectors.now
        in_force.now prices.old power.old)
        result.answer result.ledger prices.new power.new }
{
    let input = Input {
        numbers,
        series,
        lines,
        sectors,
        in_force: Some(in_force),
    };
    make_fixing(ledger, input, prices, power)
}

// "Prices, charges and ledger are untouched by any power input that passes" (document 02), of whatever `fix` and
// `interim` hand back where they accept: two calls that agree in all but the lines' power words, and the lent lists as
// found, have the same answer, ledger and price list. The function does nothing; its ensures is the statement.
pub fn prices_independent_of_power()
    ensures { (ledger : Ledger) (one other : FixingCall) → SameButPower one.input other.input →
        (first second : HandedBack) → FixingAccepted ledger one first → FixingAccepted ledger other second →
        SameButPowerList first second }
{}
