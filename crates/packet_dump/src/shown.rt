//! Timestamps of packets, the first and the last one of a capture.

ghost use Rattle.std.specs.Prelude.{◌≡◌};
ghost use Rattle.capture_reader.specs.Readers.{shown_of};
ghost use Rattle.packet_dump.specs.Shown.{first_after, instant_in, latest_after};

use capture_reader::Shown;
use packet_times::instant_of;

/// Returns the timestamp of a packet in nanoseconds since 2^63 seconds before 1970, or `None` if it has none.
pub fn instant_in(shown: &Shown<'_>) -> Option<u128>
    ensures { result ≡ instant_in (shown_of shown.now) }
{
    match shown.time {
        Some(time) => Some(instant_of(time)),
        None => None,
    }
}

/// Returns the first timestamp of a capture once one more packet is read: `first`, if an earlier packet had a
/// timestamp, or else `this`, the timestamp of the packet.
pub fn first_after(first: Option<u128>, this: Option<u128>) -> Option<u128>
    ensures { result ≡ first_after first this }
{
    match first {
        Some(first) => Some(first),
        None => this,
    }
}

/// Returns the last timestamp of a capture once one more packet is read: `this`, the timestamp of the packet, or
/// `latest`, the last one before, if the packet has none.
pub fn latest_after(latest: u128, this: Option<u128>) -> u128
    ensures { result ≡ latest_after latest this }
{
    match this {
        Some(this) => this,
        None => latest,
    }
}
