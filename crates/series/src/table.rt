// The table of 5 series by 48 months, by value, and the test of its 240 words.
ghost use Rattle.std.specs.Prelude.{◌≡◌, length};
ghost use Rattle.series.specs.Series.{word_count, series_table, values_in_range};

use numbers::units::all_between;

// The greatest month number.
pub const LAST_MONTH: u64 = 1199;

pub const SERIES: usize = 5;

pub const MONTHS: usize = 48;

// The series of the power term.
pub const CPI: u64 = 3;

pub const WORDS: usize = SERIES * MONTHS;

pub const MOST_VALUE: u64 = 99999999;

// The table: word 48 * series + k of the lent words stands in row `series` at month k.
pub fn fill(words: &[u64]) -> [[u64; MONTHS]; SERIES]
    requires { length words.now ≡ word_count }
    ensures { result ≡ series_table words.now }
{
    let mut table = [[0; MONTHS]; SERIES];
    for series in 0..SERIES {
        let start = series * MONTHS;
        table[series].copy_from_slice(&words[start..start + MONTHS]);
    }
    table
}

// Whether no value of the 240 is too large, used or not.
pub fn values_in_range(words: &[u64]) -> bool
    requires { length words.now ≡ word_count }
    ensures { result ≡ values_in_range words.now }
{
    all_between(0, MOST_VALUE, words)
}
