//! The packet records of a pcap capture.

ghost use Rattle.std.specs.Prelude.{◌≡◌, ◌+◌, ◌≤◌, ℕ, List, IfErr, IfOk, drop, length, slice_range};
ghost use Rattle.capture_reader.specs.Captures.{record_shown};
ghost use Rattle.capture_reader.specs.Classic.{IsRecord, RefusesRecord, kept_packet};
ghost use Rattle.capture_reader.specs.BlockContents.{known_shown};

use crate::byte_order::ByteOrder;
use crate::heading::{Heading, Resolution};
use crate::refusal::Refusal;
use crate::shown::{Known, Time};

/// A packet of a pcap capture, with its timestamp as the record header has it.
#[derive(Clone, Copy, Debug, PartialEq, Eq)]
pub struct Packet<'a> {
    /// Timestamp of a packet in a pcap capture: seconds since 1970-01-01 00:00 UTC.
    pub seconds: u32,
    /// Fraction of a second in the timestamp of a packet, in microseconds or nanoseconds as the pcap file header
    /// states.
    pub fraction: u32,
    /// Original length of a packet in bytes, before it was truncated to the snap length.
    pub original_len: u32,
    /// Captured bytes of a packet, starting at the header that the link type determines.
    pub bytes: &'a [u8],
}

/// Maximum number of captured bytes of a packet: 262,144 (256 KiB). Captures with longer packets are rejected.
pub const MOST_KEPT: u32 = 262_144;

/// The record header of 16 bytes before each packet of a pcap capture.
#[derive(Clone, Copy, Debug)]
pub struct Record {
    /// Timestamp of a packet in seconds since 1970-01-01 00:00 UTC, bytes 0 to 3 of a pcap record header.
    pub seconds: u32,
    /// Fraction of a second in the timestamp of a packet, bytes 4 to 7 of a pcap record header: microseconds or
    /// nanoseconds, as the file header states.
    pub fraction: u32,
    /// Original length of a packet in bytes, before it was truncated to the snap length; bytes 12 to 15 of a pcap
    /// record header.
    pub original_len: u32,
    /// Number of captured bytes of a packet, which follow its record header; bytes 8 to 11 of a pcap record header.
    pub kept: usize,
}

impl Record {
    /// Length of a pcap record header in bytes: 16.
    pub const LEN: usize = 16;

    /// Record header that a capture reader has stored before it has read a packet; all fields are 0.
    pub const NONE: Record = Record {
        seconds: 0,
        fraction: 0,
        original_len: 0,
        kept: 0,
    };

    /// Parses the pcap record header at the start of `bytes`, which must also contain the captured bytes of the packet.
    /// Returns an error if the header or the packet is incomplete, or the packet has more than 256 KiB.
    #[inline]
    pub fn from_slice(order: ByteOrder, bytes: &[u8]) -> Result<Record, Refusal>
        ensures ok { IfOk result (λ one. IsRecord order bytes.now
            (kept_packet one (slice_range bytes.now 16 (16 + one.kept)), drop (16 + one.kept) bytes.now)) }
        ensures err { IfErr result (RefusesRecord order bytes.now) }
        ensures within { IfOk result (λ one. 16 + one.kept ≤ length bytes.now) }
    {
        if bytes.len() < Record::LEN {
            return Err(Refusal::Cut {
                required_len: Record::LEN,
                len: bytes.len(),
            });
        }
        let kept = order.word32(bytes, 8);
        if kept > MOST_KEPT {
            return Err(Refusal::PacketTooLong { len: kept });
        }
        let end = Record::LEN + kept as usize;
        if bytes.len() < end {
            return Err(Refusal::Cut {
                required_len: end,
                len: bytes.len(),
            });
        }
        Ok(Record {
            seconds: order.word32(bytes, 0),
            fraction: order.word32(bytes, 4),
            original_len: order.word32(bytes, 12),
            kept: kept as usize,
        })
    }

    /// Returns link type, timestamp and original length of the packet with this record header, in a pcap capture with
    /// the file header `heading`.
    #[inline]
    pub(crate) fn known(&self, heading: &Heading) -> Known
        ensures { (bytes : List ℕ) → known_shown result bytes
            ≡ record_shown heading.now (kept_packet self.now bytes) }
    {
        let per_second = match heading.resolution {
            Resolution::Micros => 1_000_000,
            Resolution::Nanos => 1_000_000_000,
        };
        Known {
            link_type: heading.link_type(),
            interface: None,
            time: Some(Time {
                ticks: self.seconds as u64 * per_second + self.fraction as u64,
                per_second,
                offset: 0,
            }),
            original_len: self.original_len,
        }
    }
}
