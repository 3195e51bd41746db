// Reading a month sheet: no requires. Causes 1, 3, 17 and 18; the readings are written only when all of them are
// passed.
ghost use Rattle.std.specs.Prelude.{◌≡◌, ◌+◌, ◌*◌, ◌≤◌, length};
ghost use Rattle.numbers.specs.Bounded.{list_below};
ghost use Rattle.numbers.specs.Checks.{verdict_of};
ghost use Rattle.numbers.specs.Refusal.{answer_by};
ghost use Rattle.numbers.specs.Sizes.{distributor_readings};
ghost use Rattle.sheet.specs.Number.{number_size};
ghost use Rattle.sheet.specs.Sheet.{reading_place, reading_by, reading_at, sheet_readings};
ghost use Rattle.sheet.specs.Sheet.{reading_checks, distributor_checks, sheet_checks};
ghost use Rattle.sheet.specs.Read.{ReadPromise};
ghost use Rattle.sheet.specs.Required.{WholeSheet};

use crate::number::{NUMBER_SIZE, number_at};
use numbers::refusal::Refusal;
use numbers::sizes::{DISTRIBUTOR_READINGS, MOST_DISTRIBUTORS};
use numbers::units::is_between;

// The place after a reading, by its bit and its place. Sheet and place stay two parameters, since the definitions take
// the two and each function has a bound of its own on the place; the bit is a number, as it is in a map.
fn place_after(bit: u64, sheet: &[u8], place: usize) -> Result<usize, Refusal>
    requires bit_below_two { bit ≤ 1 }
    requires within { place ≤ length sheet.now }
    ensures { result ≡ answer_by (verdict_of (reading_checks bit sheet.now place)) (place + bit * number_size) }
{
    if bit == 0 {
        return Ok(place);
    }
    if sheet.len() - place < NUMBER_SIZE {
        return Err(Refusal::WrongSheetLength);
    }
    if number_at(sheet, place) == 0 {
        return Err(Refusal::ZeroReading);
    }
    Ok(place + NUMBER_SIZE)
}

// The place after the readings of the distributor whose map stands at the start.
fn distributor_end(sheet: &[u8], start: usize) -> Result<usize, Refusal>
    requires { start ≤ length sheet.now }
    ensures { result ≡ answer_by (verdict_of (distributor_checks sheet.now start))
        (reading_place sheet.now start distributor_readings) }
{
    if sheet.len() - start < NUMBER_SIZE {
        return Err(Refusal::WrongSheetLength);
    }
    let mut bits = number_at(sheet, start);
    let mut at = start + NUMBER_SIZE;
    for _ in 0..DISTRIBUTOR_READINGS {
        at = place_after(bits % 2, sheet, at)?;
        bits /= 2;
    }
    Ok(at)
}

// Causes 17 and 18, the earlier place first.
fn sheet_verdict(n: usize, sheet: &[u8]) -> Result<(), Refusal>
    ensures { result ≡ verdict_of (sheet_checks n sheet.now) }
{
    let mut at: usize = 0;
    for _ in 0..n {
        at = distributor_end(sheet, at)?;
    }
    if at < sheet.len() {
        return Err(Refusal::WrongSheetLength);
    }
    Ok(())
}

// A reading by its bit and its place.
#[tactic(auto, unfolding(crate::specs::Sheet::reading_by))]
fn reading_by(bit: u64, sheet: &[u8], place: usize) -> u64
    requires bit_below_two { bit ≤ 1 }
    requires within { place + bit * number_size ≤ length sheet.now }
    ensures { result ≡ reading_by bit sheet.now place }
{
    if bit == 0 {
        return 0;
    }
    number_at(sheet, place)
}

// Writes the readings of the distributor whose map stands at a place: the place after them.
fn write_readings(sheet: &[u8], place: usize, readings: &mut [u64]) -> usize
    requires long { length readings.old ≡ distributor_readings }
    requires within { reading_place sheet.now place distributor_readings ≤ length sheet.now }
    ensures value { result ≡ reading_place sheet.now place distributor_readings }
    ensures readings_after { readings.new ≡ list_below distributor_readings (reading_at sheet.now place) }
{
    let mut bits = number_at(sheet, place);
    let mut at = place + NUMBER_SIZE;
    for reading in readings.iter_mut() {
        let bit = bits % 2;
        *reading = reading_by(bit, sheet, at);
        at += bit as usize * NUMBER_SIZE;
        bits /= 2;
    }
    at
}

// The readings of a sheet that passed, in one loop that cannot fail. (No clause of `chunks_exact_mut` says what the
// list holds afterwards.)
fn write_all(n: usize, sheet: &[u8], readings: &mut [u64])
    requires { WholeSheet n sheet.now readings.old }
    ensures { readings.new ≡ sheet_readings n sheet.now }
{
    let mut at: usize = 0;
    for i in 0..n {
        let from = i * DISTRIBUTOR_READINGS;
        at = write_readings(sheet, at, &mut readings[from..from + DISTRIBUTOR_READINGS]);
    }
}

// The readings of n distributors from a sheet, 32 words each. Where it is refused the lent list is as it was.
pub fn read_sheet(n: usize, sheet: &[u8], readings: &mut [u64]) -> Result<(), Refusal>
    ensures { ReadPromise n sheet.now readings.old result readings.new }
{
    if !is_between(1, MOST_DISTRIBUTORS as u64, n as u64) {
        return Err(Refusal::WrongCount);
    }
    if readings.len() != n * DISTRIBUTOR_READINGS {
        return Err(Refusal::WrongLength);
    }
    sheet_verdict(n, sheet)?;
    write_all(n, sheet, readings);
    Ok(())
}
