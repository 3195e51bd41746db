// A month sheet of the load's readings, written and read as often as asked.
use crate::load::READINGS;
use numbers::refusal::Refusal;
use numbers::sizes::MOST_DISTRIBUTORS;
use sheet::read::read_sheet;
use sheet::write::{DISTRIBUTOR_BYTES, write_sheet};

// The room that the writer asks for.
const SHEET: usize = MOST_DISTRIBUTORS * DISTRIBUTOR_BYTES;

// The sum is shown in 32 bits.
const WORD: u64 = 4294967296;

// How many bytes the last sheet has, and the sum of the readings read back from it.
#[derive(Clone, Copy)]
pub(crate) struct ReadBack {
    pub used: usize,
    pub sum: u64,
}

// The sum of the readings, so that what was read is used and can be compared.
fn sum_of(readings: &[u64]) -> u64 {
    readings
        .iter()
        .fold(0u64, |sum, reading| sum.wrapping_add(*reading))
        % WORD
}

// Writes a sheet and reads it: how many bytes it has.
fn write_then_read(
    readings: &[u64],
    buffer: &mut [u8],
    read_back: &mut [u64],
) -> Result<usize, Refusal> {
    let used = write_sheet(MOST_DISTRIBUTORS, readings, buffer)?;
    read_sheet(MOST_DISTRIBUTORS, &buffer[..used], read_back)?;
    Ok(used)
}

// How many bytes the last sheet has, none where it is refused, and the sum of what is read from it.
pub(crate) fn write_and_read(readings: &[u64; READINGS], count: u64) -> ReadBack {
    let mut buffer = [0u8; SHEET];
    let mut read_back = [0u64; READINGS];
    let mut used = 0;
    for _ in 0..count {
        used = write_then_read(readings, &mut buffer, &mut read_back).unwrap_or(0);
    }
    let sum = sum_of(&read_back);
    ReadBack { used, sum }
}
