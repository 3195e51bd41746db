// Writing a month sheet: no requires. Causes 1, 3 and 12; the sheet is written only when all of them are passed.
ghost use Rattle.std.specs.Prelude.{◌≡◌, ◌*◌, ◌/◌, ◌≤◌, length};
ghost use Rattle.numbers.specs.Sizes.{most_distributors, distributor_readings};
ghost use Rattle.sheet.specs.Number.{number_size};
ghost use Rattle.sheet.specs.Sheet.{presence_bit, bit_map, reading_bytes, present_bytes, distributor_bytes};
ghost use Rattle.sheet.specs.Sheet.{sheet_bytes};
ghost use Rattle.sheet.specs.Write.{most_distributor_bytes, write_lengths, WritePromise};
ghost use Rattle.sheet.specs.Required.{Writable, FirstWritten};

use crate::number::{NUMBER_SIZE, write_number};
use numbers::refusal::Refusal;
use numbers::sizes::{DISTRIBUTOR_READINGS, MOST_DISTRIBUTORS, MOST_READING};
use numbers::units::{all_between, is_between};

// The most bytes of a distributor: a map and its readings.
pub const DISTRIBUTOR_BYTES: usize = NUMBER_SIZE * (1 + DISTRIBUTOR_READINGS);

// The bit of a reading.
#[tactic(auto, unfolding(crate::specs::Sheet::presence_bit))]
fn presence_bit(reading: u64) -> u64
    ensures { result ≡ presence_bit reading }
{
    u64::from(reading != 0)
}

// The bit map of a distributor's readings.
fn bit_map(readings: &[u64]) -> u64
    requires { length readings.now ≡ distributor_readings }
    ensures { result ≡ bit_map readings.now }
{
    let mut map: u64 = 0;
    let mut power: u64 = 1;
    for &reading in readings {
        map += presence_bit(reading) * power;
        power *= 2;
    }
    map
}

// Writes a reading, where it is present, as the first bytes of the lent ones: how many they are.
#[tactic(auto, unfolding(crate::specs::Sheet::reading_bytes, crate::specs::Write::written_first))]
fn write_reading(reading: u64, into: &mut [u8]) -> usize
    requires { number_size ≤ length into.old }
    ensures { FirstWritten (reading_bytes reading) into.old result into.new }
{
    if reading == 0 {
        return 0;
    }
    write_number(reading, into);
    NUMBER_SIZE
}

// Writes those of a distributor's readings that are present as the first bytes of the lent ones: how many they are.
fn write_present(readings: &[u64], into: &mut [u8]) -> usize
    requires long { length readings.now ≡ distributor_readings }
    requires room { distributor_readings * number_size ≤ length into.old }
    ensures { FirstWritten (present_bytes readings.now) into.old result into.new }
{
    let mut at: usize = 0;
    for &reading in readings {
        at += write_reading(reading, &mut into[at..]);
    }
    at
}

// Writes a distributor's map and readings as the first bytes of the lent ones: how many they are.
fn write_distributor(readings: &[u64], into: &mut [u8]) -> usize
    requires long { length readings.now ≡ distributor_readings }
    requires room { most_distributor_bytes ≤ length into.old }
    ensures { FirstWritten (distributor_bytes readings.now) into.old result into.new }
{
    write_number(bit_map(readings), into);
    NUMBER_SIZE + write_present(readings, &mut into[NUMBER_SIZE..])
}

// Writes the sheet, in one loop that cannot fail: how many bytes it has.
fn write_distributors(readings: &[u64], buffer: &mut [u8]) -> usize
    requires { Writable (length readings.now / distributor_readings) readings.now buffer.old }
    ensures { FirstWritten (sheet_bytes (length readings.now / distributor_readings) readings.now) buffer.old result
        buffer.new }
{
    let mut at: usize = 0;
    for own in readings.chunks_exact(DISTRIBUTOR_READINGS) {
        at += write_distributor(own, &mut buffer[at..]);
    }
    at
}

// Whether readings and buffer have their lengths.
#[tactic(auto, unfolding(crate::specs::Write::write_lengths))]
fn lengths_right(n: usize, readings: &[u64], buffer: &[u8]) -> bool
    requires { n ≤ most_distributors }
    ensures { result ≡ write_lengths n readings.now buffer.now }
{
    (readings.len() == n * DISTRIBUTOR_READINGS) & (n * DISTRIBUTOR_BYTES <= buffer.len())
}

// The sheet of the readings of n distributors, 32 words each, first in a buffer of at least 132 bytes for each: how
// many bytes it has. Where it is refused the buffer is as it was.
pub fn write_sheet(n: usize, readings: &[u64], buffer: &mut [u8]) -> Result<usize, Refusal>
    ensures { WritePromise n readings.now buffer.old result buffer.new }
{
    if !is_between(1, MOST_DISTRIBUTORS as u64, n as u64) {
        return Err(Refusal::WrongCount);
    }
    if !lengths_right(n, readings, buffer) {
        return Err(Refusal::WrongLength);
    }
    if !all_between(0, MOST_READING, readings) {
        return Err(Refusal::WrongReading);
    }
    Ok(write_distributors(readings, buffer))
}
