// The mean of a window of months, and the means of every series, lag and window in one list: there are 5 * 12 * 3 of
// them, so that each is worked once, however many terms take it.
ghost use Rattle.std.specs.Prelude.{◌≡◌, ◌<◌, ◌≤◌};
ghost use Rattle.numbers.specs.Required.{ValuesWithin};
ghost use Rattle.series.specs.Series.{series_count, most_value, last_month, window_allowed};
ghost use Rattle.series.specs.Means.{mean_place, mean_or_zero, mean_list};
ghost use Rattle.series.specs.Required.{TableInRange, WindowInRange};

use crate::table::{MONTHS, SERIES};
use numbers::rounding::half_up;

// Lags, windows, and the means of a series and of all.
const LAGS: usize = 12;

const WINDOWS: usize = 3;

const SERIES_MEANS: usize = LAGS * WINDOWS;

pub const MEANS: usize = SERIES * SERIES_MEANS;

// Whether a window has 1, 6 or 9 months.
pub fn window_allowed(window: u64) -> bool
    ensures { result ≡ window_allowed window }
{
    (window == 1) | ((window == 6) | (window == 9))
}

// Where the mean of a series, lag and window stands in the list.
pub fn mean_place(series: u64, lag: u64, window: u64) -> usize
    requires known { series < series_count }
    requires lagged { 1 ≤ lag }
    requires few { lag ≤ 12 }
    requires narrow { window ≤ 9 }
    ensures { result ≡ mean_place series lag window }
{
    series as usize * SERIES_MEANS + (lag - 1) as usize * WINDOWS + (window / 4) as usize
}

// The mean of a window of a series' row, in millionths, or 0 where a month of it is missing: the window lies whole in
// the table, and no value of it is zero. The 0 stays: it is the definition's (mean_or_zero), no mean of published
// values is 0 (mean_least), and callers get 180 means in one list of words.
fn mean(row: &[u64; MONTHS], first: u64, month: u64, lag: u64, window: u64) -> u64
    requires small { ValuesWithin most_value row.now }
    requires window { WindowInRange first lag window }
    ensures { result ≡ mean_or_zero row.now first month lag window }
{
    if month < first + lag + window - 1 {
        return 0;
    }
    let newest = (month - lag - first) as usize;
    if newest >= MONTHS {
        return 0;
    }
    let mut sum: u64 = 0;
    for k in 0..window {
        let value = row[newest - k as usize];
        if value == 0 {
            return 0;
        }
        sum += value;
    }
    half_up(sum * 100, window)
}

// The means of every series, lag and window, worked in a month, from the table and its first month. A turn works those
// of a series and lag, each window a constant, so that the compiler divides by none of them.
pub fn means(table: [[u64; MONTHS]; SERIES], first: u64, month: u64) -> [u64; MEANS]
    requires small { TableInRange table }
    requires start { first ≤ last_month }
    ensures { result ≡ mean_list table first month }
{
    let mut means = [0u64; MEANS];
    for turn in 0..SERIES * LAGS {
        let series = turn / LAGS;
        let lag = (turn % LAGS + 1) as u64;
        let place = turn * WINDOWS;
        means[place] = mean(&table[series], first, month, lag, 1);
        means[place + 1] = mean(&table[series], first, month, lag, 6);
        means[place + 2] = mean(&table[series], first, month, lag, 9);
    }
    means
}
