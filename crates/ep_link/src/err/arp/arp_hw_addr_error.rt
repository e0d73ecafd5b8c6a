//! Errors of the hardware addresses when creating an ARP packet (RFC 826).

use thiserror::Error;

/// Error of the hardware addresses when creating an ARP packet (RFC 826).
#[derive(Clone, Debug, PartialEq, Eq, Hash, Drop, Error)]
pub enum ArpHwAddrError {
    /// The sender and target hardware addresses have different lengths. The numbers are the lengths in bytes of the
    /// sender's and the target's address.
    #[error("LenNonMatching {0} {1}")]
    LenNonMatching(usize, usize),
    /// Both hardware addresses are longer than 255 bytes. The number is their length in bytes.
    #[error("LenTooBig {0}")]
    LenTooBig(usize),
}
