//! Error for an invalid length of the integrity check value in an IP authentication header (RFC 4302, 2.6).

use thiserror::Error;

/// Invalid length, in bytes, of the integrity check value for an IP authentication header (RFC 4302, 2.6).
#[derive(Clone, Debug, PartialEq, Eq, Hash, Drop, Error)]
pub enum IcvLenError {
    /// Length, in bytes, of an integrity check value that is too long: more than 1016 bytes. The length field of an IP
    /// authentication header cannot express more.
    #[error("TooBig {0}")]
    TooBig(usize),
    /// Length, in bytes, of an integrity check value that is not a multiple of 4.
    #[error("Unaligned {0}")]
    Unaligned(usize),
}
