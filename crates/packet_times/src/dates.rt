//! Dates of the Gregorian calendar, converted from numbers of days.

ghost use Rattle.std.specs.Prelude.{◌≡◌, ◌+◌, ◌<◌, ◌≤◌};
ghost use Rattle.packet_times.specs.Calendar.{date_of, days_before_year, days_in_month, is_leap};

/// Date of the Gregorian calendar: year from 0 on, month and day.
#[derive(Clone, Copy, Debug)]
pub struct Date {
    /// Year of the date, from 0 on.
    pub year: u32,
    /// Month of the date, 1 to 12.
    pub month: u32,
    /// Day of the month, from 1 on.
    pub day: u32,
}

/// Number of days in the years 0 to 9999 of the Gregorian calendar.
pub(crate) const MOST_DAYS: u32 = 3_652_425;

impl Date {
    /// Returns the date of a day, given as the number of days since the first day of the year 0. It must be in a year
    /// below 10,000: `days` is at most 3,652,424.
    pub fn of_day(days: u32) -> Date
        requires { days < 3652425 }
        ensures { result ≡ date_of days }
    {
        let year = year_of(days);
        let mut month = 1;
        let mut left = days - days_before_year(year);
        'months: while left >= days_in_month(year, month) {
            left -= days_in_month(year, month);
            month += 1;
        }
        Date {
            year,
            month,
            day: left + 1,
        }
    }
}

/// Returns the year of a day, given as the number of days since the first day of the year 0.
fn year_of(days: u32) -> u32
    requires { days < 3652425 }
    ensures from { days_before_year result ≤ days }
    ensures to { days < days_before_year (result + 1) }
    ensures bound { result < 10000 }
{
    let mut year = days / 366;
    'years: while days_before_year(year + 1) <= days {
        year += 1;
    }
    year
}

/// Returns the number of days from the first day of the year 0 to the first day of `year`.
fn days_before_year(year: u32) -> u32
    requires { year ≤ 10000 }
    ensures { result ≡ days_before_year year }
{
    365 * year + (year + 3) / 4 - (year + 99) / 100 + (year + 399) / 400
}

/// Returns the number of days of a month (1 to 12) in a year of the Gregorian calendar: 28 to 31.
fn days_in_month(year: u32, month: u32) -> u32
    ensures { result ≡ days_in_month year month }
{
    match month {
        2 if is_leap(year) => 29,
        2 => 28,
        4 | 6 | 9 | 11 => 30,
        _ => 31,
    }
}

/// Returns true if a year of the Gregorian calendar is a leap year.
fn is_leap(year: u32) -> bool
    ensures { result ≡ is_leap year }
{
    year % 4 == 0 && (year % 100 != 0 || year % 400 == 0)
}
