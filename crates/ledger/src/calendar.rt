// Days of a month by the Gregorian calendar, month 0 being January 2000, and the first day of a fixing.
ghost use Rattle.std.specs.Prelude.{◌≡◌};
ghost use Rattle.ledger.specs.Calendar.{is_leap_year, days_of, day_allowed};

use numbers::units::is_between;

// Whether February of a year has 29 days.
fn is_leap_year(year: u64) -> bool
    ensures { result ≡ is_leap_year year }
{
    (year % 4 == 0) & ((year % 100 != 0) | (year % 400 == 0))
}

// How many days a month has.
pub(crate) fn days_of(month: u64) -> u64
    ensures { result ≡ days_of month }
{
    let common = [31u64, 28, 31, 30, 31, 30, 31, 31, 30, 31, 30, 31];
    let of_year = month % 12;
    if (of_year == 1) & is_leap_year(2000 + month / 12) {
        return 29;
    }
    common[of_year as usize]
}

// Whether a fixing may begin on this day of its month: after the first only beside an older fixing.
pub(crate) fn day_allowed(month: u64, day: u64, beside: bool) -> bool
    ensures { result ≡ day_allowed month day beside }
{
    is_between(1, days_of(month), day) & ((day == 1) | beside)
}
