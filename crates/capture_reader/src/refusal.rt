//! Errors: why bytes are not a pcap or pcapng capture.

use thiserror::Error;

/// Reason for which bytes are rejected as a pcap or pcapng capture.
#[derive(Clone, Copy, Debug, PartialEq, Eq, Error)]
pub enum Refusal {
    /// A file header, packet record or pcapng block is incomplete: at least `required_len` bytes of it are needed, and
    /// `len` are present. If a block longer than 320 KiB is skipped in parts, both numbers refer to one part.
    #[error("cut: {required_len} bytes are needed, and {len} are there")]
    Cut { required_len: usize, len: usize },
    /// The first four bytes (`magic`, read as a big endian number) start neither a pcap nor a pcapng capture.
    #[error("no capture begins with {magic:08x}")]
    UnknownMagic { magic: u32 },
    /// The version of a pcap capture is not 2.4, or the version of a pcapng section is neither 1.0 nor 1.2.
    #[error("version {major}.{minor} of the format is not known")]
    UnsupportedVersion { major: u16, minor: u16 },
    /// A packet has more than 256 KiB of captured bytes; `len` is their number.
    #[error("a packet of {len} bytes is too long")]
    PacketTooLong { len: u32 },
    /// The byte-order magic of a pcapng section header (`magic`, read as a big endian number) is unknown.
    #[error("no section begins with the byte order {magic:08x}")]
    UnknownByteOrder { magic: u32 },
    /// The length field of a pcapng block is not a multiple of 4, or is too small for the block's content.
    #[error("no such block has {len} bytes")]
    BlockLength { len: u32 },
    /// A pcapng block is longer than 320 KiB. (A capture reader skips such a block without this error, unless it is a
    /// section header, an interface description or a packet.)
    #[error("a block of {len} bytes is too long")]
    BlockTooLong { len: u32 },
    /// The length fields before (`len`) and after (`trailing`) the body of a pcapng block differ.
    #[error("a block of {len} bytes ends with the length {trailing}")]
    TrailingLength { len: u32, trailing: u32 },
    /// An option of a pcapng Interface Description Block extends beyond its block.
    #[error("an option of an interface runs past its block")]
    OptionBeyondBlock,
    /// The option `if_tsresol` (code 9) of a pcapng interface is not 1 byte long, or `if_tsoffset` (code 14) is not 8
    /// bytes long.
    #[error("an option {code} of an interface has {len} bytes")]
    OptionLength { code: u16, len: usize },
    /// The timestamp units of a pcapng interface (option `if_tsresol`) are finer than 10^-19 or 2^-63 of a second.
    #[error("a time resolution {resolution} is not read")]
    UnsupportedResolution { resolution: u8 },
    /// A pcapng section describes more than 65,536 interfaces.
    #[error("more than 65536 interfaces in a section")]
    TooManyInterfaces,
    /// A packet refers to an interface number that its pcapng section has not described.
    #[error("interface {interface} was not described")]
    UndescribedInterface { interface: u32 },
}

/// Error of a capture: the offset at which it is rejected, and the reason.
#[derive(Clone, Copy, Debug, PartialEq, Eq, Error)]
#[error("at byte {offset}: {refusal}")]
pub struct CaptureError {
    /// Offset in the capture, in bytes, of the file header, packet record or pcapng block that is rejected. If a block
    /// longer than 320 KiB is skipped in parts, it is the offset of the rejected part.
    pub offset: u64,
    /// Reason for which the bytes at `offset` are rejected.
    pub refusal: Refusal,
}
