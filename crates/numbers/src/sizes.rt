// The sizes that the lists of every crate share, and the limit of a reading.

// The most distributors of a ledger.
pub const MOST_DISTRIBUTORS: usize = 40;

// Sectors of a distributor.
pub const SECTORS: usize = 8;

// Readings of a distributor, four of each sector, and the greatest reading in kWh.
pub const DISTRIBUTOR_READINGS: usize = 32;

pub const MOST_READING: u64 = 2000000000;

// Sectors of the most distributors.
pub const PLACES: usize = MOST_DISTRIBUTORS * SECTORS;
