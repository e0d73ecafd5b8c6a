//! Error for an invalid payload length of an IPv6 Hop-by-Hop Options, Destination Options or Routing header (RFC 8200,
//! 4).

use thiserror::Error;

/// Invalid length, in bytes, of the payload for an IPv6 Hop-by-Hop Options, Destination Options or Routing header (RFC
/// 8200, 4.3, 4.6 and 4.4). The payload is all bytes of the header after its first 2 (next header and length field).
#[derive(Clone, Debug, PartialEq, Eq, Hash, Drop, Error)]
pub enum ExtPayloadLenError {
    /// Payload length, in bytes, below 6. The shortest IPv6 options or routing header has 8 bytes: 2 bytes before the
    /// payload and 6 bytes of payload.
    #[error("TooSmall {0}")]
    TooSmall(usize),
    /// Payload length, in bytes, above 2046. The length field of an IPv6 options or routing header cannot express more.
    #[error("TooBig {0}")]
    TooBig(usize),
    /// Payload length, in bytes, that does not make the length of the IPv6 options or routing header a multiple of 8.
    /// The header is 2 bytes longer than its payload.
    #[error("Unaligned {0}")]
    Unaligned(usize),
}
