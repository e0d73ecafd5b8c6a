//! Texts of timestamps and time spans.

ghost use Rattle.std.specs.Prelude.{◌≡◌, ◌<◌, ◌*◌, ◌/◌, ◌%◌, ◌^◌, ◌∷◌, ◌++◌, IfSome, OnOk, codes};
ghost use Rattle.std.specs.Fmt.{decimal};
ghost use Rattle.packet_times.specs.TimeTexts.{calendar_seconds, clock_text, date_text, digit, epoch_text};
ghost use Rattle.packet_times.specs.TimeTexts.{fraction_text, moment_text, seconds_in, since_text, span_text, utc_text};

use crate::dates::{Date, MOST_DAYS};
use crate::instants::{EPOCH, SECOND, instant_of, is_fine};
use capture_reader::Time;
use line_io::decimals;
use std::alloc::AllocError;

/// 2^64: the least number that a `u64` cannot hold.
const WORD: u128 = 0x1_0000_0000_0000_0000;

/// Seconds per day.
const DAY: u128 = 86_400;

/// Seconds from the start of the year 0 to the start of 1970.
const TO_1970: u128 = 719_528 * DAY;

/// Appends a packet's timestamp as seconds since 1970, such as `1732542399.000123`. The fraction has six digits, or
/// nine if the timestamp's resolution is finer than microseconds. Times before 1970 have a minus sign. Allocates if the
/// capacity of `output` is too small.
pub fn push_epoch(output: &mut Vec<u8>, time: Time) -> Result<(), AllocError>
    ensures { OnOk result (output.new.items ≡ output.old.items ++ epoch_text time) }
{
    push_since(output, is_fine(time), EPOCH, instant_of(time))
}

/// Appends a packet's timestamp as date and time of day in UTC, such as `2026-11-25T14:06:39.000123Z`. The fraction has
/// six digits, or nine if the timestamp's resolution is finer than microseconds. For years other than 0 to 9999, the
/// seconds since 1970 are appended instead. Allocates if the capacity of `output` is too small.
pub fn push_utc(output: &mut Vec<u8>, time: Time) -> Result<(), AllocError>
    ensures { OnOk result (output.new.items ≡ output.old.items ++ utc_text time) }
{
    let fine = is_fine(time);
    let instant = instant_of(time);
    match calendar_seconds(seconds_of(instant)) {
        Some(seconds) => push_moment(output, fine, seconds, subsecond_nanos(instant)),
        None => push_since(output, fine, EPOCH, instant),
    }
}

/// Converts an instant from nanoseconds to whole seconds, both counted from 2^63 seconds before 1970. For times from
/// 1970 until 2554 it uses a 64 bit division, which is faster than a 128 bit division.
pub fn seconds_of(instant: u128) -> u128
    ensures { result ≡ instant / 1000000000 }
{
    if instant >= EPOCH && instant - EPOCH < WORD {
        EPOCH / SECOND + u128::from((instant - EPOCH) as u64 / 1_000_000_000)
    } else {
        instant / SECOND
    }
}

/// Returns the nanoseconds of an instant after its last whole second, below 1,000,000,000. For times from 1970 until
/// 2554 it uses a 64 bit division, which is faster than a 128 bit division.
fn subsecond_nanos(instant: u128) -> u32
    ensures value { result ≡ instant % 1000000000 }
    ensures bound { result < 1000000000 }
{
    if instant >= EPOCH && instant - EPOCH < WORD {
        ((instant - EPOCH) as u64 % 1_000_000_000) as u32
    } else {
        (instant % SECOND) as u32
    }
}

/// Converts the seconds of an instant, counted from 2^63 seconds before 1970, to seconds since the start of the year 0.
/// Returns `None` if they are not in the years 0 to 9999.
fn calendar_seconds(seconds: u128) -> Option<u64>
    requires { seconds < 2 ^ 95 }
    ensures value { result ≡ calendar_seconds seconds }
    ensures bound { IfSome result (λ seconds. seconds < 3652425 * 86400) }
{
    let since_year_0 = seconds + TO_1970;
    let first = EPOCH / SECOND;
    if since_year_0 >= first && since_year_0 < first + u128::from(MOST_DAYS) * DAY {
        Some((since_year_0 - first) as u64)
    } else {
        None
    }
}

/// Appends a time as date and time of day in UTC, such as `2026-11-25T14:06:39.000123Z`. `seconds` counts from the
/// start of the year 0, and must be in the years 0 to 9999. The fraction has nine digits if `fine`, or else six.
fn push_moment(output: &mut Vec<u8>, fine: bool, seconds: u64, nanos: u32) -> Result<(), AllocError>
    requires years { seconds < 3652425 * 86400 }
    requires fraction { nanos < 1000000000 }
    ensures { OnOk result (output.new.items ≡ output.old.items ++ moment_text fine seconds nanos) }
{
    push_date(output, Date::of_day((seconds / 86_400) as u32))?;
    push_clock(output, (seconds % 86_400) as u32)?;
    push_fraction(output, fine, nanos)?;
    output.extend_from_slice(b"Z")
}

/// Appends a date as text, such as `2026-11-25`.
fn push_date(output: &mut Vec<u8>, date: Date) -> Result<(), AllocError>
    ensures { OnOk result (output.new.items ≡ output.old.items ++ date_text date) }
{
    let Date { year, month, day } = date;
    output.extend_from_slice(&[
        digit(year / 1000),
        digit(year / 100),
        digit(year / 10),
        digit(year),
        b'-',
        digit(month / 10),
        digit(month),
        b'-',
        digit(day / 10),
        digit(day),
    ])
}

/// Appends a `T` and a time of day, such as `T14:06:39`; `second` is the second of the day.
fn push_clock(output: &mut Vec<u8>, second: u32) -> Result<(), AllocError>
    ensures { OnOk result (output.new.items ≡ output.old.items ++ (codes "T" ++ clock_text second)) }
{
    let hour = second / 3_600;
    let minute = second / 60 % 60;
    let rest = second % 60;
    output.extend_from_slice(&[
        b'T',
        digit(hour / 10),
        digit(hour),
        b':',
        digit(minute / 10),
        digit(minute),
        b':',
        digit(rest / 10),
        digit(rest),
    ])
}

/// Returns the last decimal digit of a number, as an ASCII byte.
#[inline]
fn digit(number: u32) -> u8
    ensures { result ≡ digit number }
{
    b'0' + (number % 10) as u8
}

/// Appends the time span from instant `first` to instant `this` (in nanoseconds) as seconds. The fraction has six
/// digits, or nine if `fine`. The span has a minus sign if `this` is earlier. Allocates if the capacity of `output` is
/// too small.
pub fn push_since(
    output: &mut Vec<u8>,
    fine: bool,
    first: u128,
    this: u128,
) -> Result<(), AllocError>
    ensures { OnOk result (output.new.items ≡ output.old.items ++ since_text fine first this) }
{
    if this < first {
        output.extend_from_slice(b"-")?;
        push_span(output, fine, first - this)
    } else {
        push_span(output, fine, this - first)
    }
}

/// Appends a time span, given in nanoseconds, as seconds with a fraction of six digits, or nine if `fine`.
fn push_span(output: &mut Vec<u8>, fine: bool, span: u128) -> Result<(), AllocError>
    ensures { OnOk result (output.new.items ≡ output.old.items ++ span_text fine span) }
{
    decimals::push(output, seconds_in(span))?;
    push_fraction(output, fine, nanos_in(span))
}

/// Returns the whole seconds of a time span in nanoseconds, at most 2^64 - 1. The slow 128 bit division is used only
/// for spans that do not fit in 64 bits.
fn seconds_in(span: u128) -> u64
    ensures { result ≡ seconds_in span }
{
    if span < WORD {
        return span as u64 / 1_000_000_000;
    }
    let seconds = span / SECOND;
    if seconds < WORD {
        seconds as u64
    } else {
        u64::MAX
    }
}

/// Returns the nanoseconds of a time span after its last whole second, below 1,000,000,000.
fn nanos_in(span: u128) -> u32
    ensures value { result ≡ span % 1000000000 }
    ensures bound { result < 1000000000 }
{
    if span < WORD {
        (span as u64 % 1_000_000_000) as u32
    } else {
        (span % SECOND) as u32
    }
}

/// Appends a decimal point and the fraction of a second `nanos`: nine digits if `fine`, or else six (truncated to
/// microseconds). The digits are appended after a 1, in whose place the decimal point is then written.
fn push_fraction(output: &mut Vec<u8>, fine: bool, nanos: u32) -> Result<(), AllocError>
    requires { nanos < 1000000000 }
    ensures { OnOk result (output.new.items ≡ output.old.items ++ (codes "." ++ fraction_text fine nanos)) }
{
    let start = output.len();
    decimals::push(output, one_and_fraction(fine, nanos))?;
    output.as_mut_slice()[start] = b'.';
    Ok(())
}

/// Returns the number whose decimal digits are a 1, which keeps leading zeros, and the digits of the fraction of a second
/// `nanos`: nine if `fine`, or else six.
#[inline]
fn one_and_fraction(fine: bool, nanos: u32) -> u64
    requires { nanos < 1000000000 }
    ensures { decimal result ≡ 49 ∷ fraction_text fine nanos }
{
    if fine {
        1_000_000_000 + u64::from(nanos)
    } else {
        1_000_000 + u64::from(nanos / 1_000)
    }
}
