//! Laws of the calendar and of instants, each stated as the contract of a function with an empty body.

ghost use Rattle.std.specs.Prelude.{◌≡◌, ℕ, ◌^◌, ◌*◌};
ghost use Rattle.packet_times.specs.Calendar.{IsDate, date_of, days_before};
ghost use Rattle.packet_times.specs.declared.dates.Date.{Date};
ghost use Rattle.packet_times.specs.declared.instants.TheConstants as instants;

/// States that each number of days since the first day of the year 0 converts to a valid date, and that the number of
/// days up to a valid date converts back to that date. 1970 starts with day 719,528, and the year 10,000 with day
/// 3,652,425.
pub fn calendar()
    ensures dates { (days : ℕ) → IsDate (date_of days) }
    ensures counted { (date : Date) → IsDate date → date_of (days_before date) ≡ date }
    ensures epoch { date_of 719528 ≡ record { year = 1970; month = 1; day = 1 } }
    ensures end { date_of 3652425 ≡ record { year = 10000; month = 1; day = 1 } }
{}

/// States that `SECOND` is 1,000,000,000 nanoseconds, and that `EPOCH`, the start of 1970, is 2^63 seconds: instants
/// count from 2^63 seconds before 1970.
pub fn constants()
    ensures epoch { instants.EPOCH ≡ 2 ^ 63 * 1000000000 }
    ensures second { instants.SECOND ≡ 1000000000 }
{}
