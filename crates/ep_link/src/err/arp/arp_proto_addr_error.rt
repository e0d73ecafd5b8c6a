//! Errors of the protocol addresses when creating an ARP packet (RFC 826).

use thiserror::Error;

/// Error of the protocol addresses when creating an ARP packet (RFC 826).
#[derive(Clone, Debug, PartialEq, Eq, Hash, Drop, Error)]
pub enum ArpProtoAddrError {
    /// The sender and target protocol addresses have different lengths. The numbers are the lengths in bytes of the
    /// sender's and the target's address.
    #[error("LenNonMatching {0} {1}")]
    LenNonMatching(usize, usize),
    /// Both protocol addresses are longer than 255 bytes. The number is their length in bytes.
    #[error("LenTooBig {0}")]
    LenTooBig(usize),
}
