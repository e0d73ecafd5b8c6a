//! Errors of writing a packet to a capture file.

use std::alloc::AllocError;
use thiserror::Error;

/// Reason why a packet cannot be written to a capture file.
#[derive(Clone, Copy, Debug, PartialEq, Eq, Error)]
pub enum WriteRefusal {
    /// The packet has link type `link_type`, but the capture file has link type `wanted` for all its packets.
    #[error("a packet of link type {link_type} in a capture of link type {wanted}")]
    LinkType { link_type: u16, wanted: u16 },
    /// The packet has more captured bytes (`len`) than a capture file can have per packet: 256 KiB.
    #[error("a packet of {len} bytes is too long")]
    TooLong { len: usize },
    /// The packet to be written has no timestamp, which a pcap record needs.
    #[error("a packet without a time")]
    NoTime,
    /// The timestamp of the packet to be written is before 1970.
    #[error("a packet of a time before 1970")]
    BeforeEpoch,
    /// The timestamp of the packet to be written is 2^32 seconds or more after the start of 1970.
    #[error("a packet of a time beyond 32 bits of seconds")]
    TooLate,
}

/// Error of writing a packet to a capture file.
#[derive(Clone, Copy, Debug, PartialEq, Eq, Error)]
pub enum WriteError {
    /// The packet cannot be written to a capture file, for this reason.
    #[error(transparent)]
    Refused(WriteRefusal),
    /// The allocation for the packet's record (16 bytes and its captured bytes) failed.
    #[error("out of memory")]
    OutOfMemory,
}

impl From<AllocError> for WriteError {
    ghost use Rattle.std.specs.Prelude.{◌≡◌};
    ghost use Rattle.capture_writer.specs.declared.write_error.WriteError.TheVariants.{OutOfMemory};

    ghost from_gives = { λ _ error. error ≡ OutOfMemory };

    fn from(_: AllocError) -> WriteError {
        WriteError::OutOfMemory
    }
}
