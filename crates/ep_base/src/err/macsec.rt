//! Errors of parsing MACsec tags (IEEE 802.1AE, 9).

use crate::err::len_error::LenError;
use thiserror::Error;

/// Invalid field of a MACsec tag (IEEE 802.1AE, 9).
#[derive(Clone, Debug, PartialEq, Eq, Hash, Drop, Error)]
pub enum HeaderError {
    /// The version bit (V) of the MACsec tag is set.
    #[error("UnexpectedVersion")]
    UnexpectedVersion,
    /// The short length of the MACsec tag is 1, but an unmodified payload begins with an ether type of 2 bytes.
    #[error("InvalidUnmodifiedShortLen")]
    InvalidUnmodifiedShortLen,
}

/// Error when parsing a MACsec tag, alone or with its payload, from a slice.
#[derive(Clone, Debug, PartialEq, Eq, Hash, Drop, Error)]
#[error(transparent)]
pub enum HeaderSliceError {
    /// The slice has too few bytes for the MACsec tag, or for the payload length that its short length states.
    Len(LenError),
    /// The MACsec tag has an invalid field.
    Content(HeaderError),
}
