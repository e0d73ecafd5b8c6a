//! Timestamps as instants: nanoseconds since 2^63 seconds before 1970, so that no instant is negative.

ghost use Rattle.std.specs.Prelude.{◌≡◌, ◌<◌, ◌^◌};
ghost use Rattle.packet_times.specs.Instants.{instant_of, is_fine, ticks_to_nanos, seconds_since_origin};

use capture_reader::Time;

/// Nanoseconds per second.
pub const SECOND: u128 = 1_000_000_000;

/// The start of 1970 as an instant. Instants are nanoseconds since 2^63 seconds before 1970.
pub const EPOCH: u128 = 0x8000_0000_0000_0000 * SECOND;

/// Converts a packet's timestamp to an instant: nanoseconds since 2^63 seconds before 1970, so that none is negative.
/// Fractions of a nanosecond are truncated.
pub fn instant_of(time: Time) -> u128
    ensures value { result ≡ instant_of time }
    ensures bound { result < 2 ^ 95 }
{
    seconds_since_origin(time.offset) * SECOND + ticks_to_nanos(time.ticks, time.per_second)
}

/// Converts seconds since the start of 1970 (negative for earlier times) to seconds since 2^63 seconds before 1970.
fn seconds_since_origin(offset: i64) -> u128
    ensures value { result ≡ seconds_since_origin offset }
    ensures bound { result < 2 ^ 64 }
{
    let size = u128::from(offset.unsigned_abs());
    if offset < 0 {
        0x8000_0000_0000_0000_u128.saturating_sub(size)
    } else {
        0x8000_0000_0000_0000 + size
    }
}

/// Converts ticks of a timestamp to nanoseconds, with `per_second` ticks in a second; a `per_second` of 0 is treated as
/// 1. For ticks of a microsecond or a nanosecond, as in most captures, no slow 128 bit division is needed.
fn ticks_to_nanos(ticks: u64, per_second: u64) -> u128
    ensures value { result ≡ ticks_to_nanos ticks per_second }
    ensures bound { result < 2 ^ 94 }
{
    match per_second {
        1_000_000 => 1_000 * u128::from(ticks),
        1_000_000_000 => u128::from(ticks),
        _ => u128::from(ticks) * SECOND / u128::from(per_second.max(1)),
    }
}

/// Returns true if the resolution of a packet's timestamp is finer than microseconds.
pub fn is_fine(time: Time) -> bool
    ensures { result ≡ is_fine time }
{
    time.per_second > 1_000_000
}
