//! Errors of parsing authentication headers (RFC 4302).

use crate::err::len_error::LenError;
use thiserror::Error;

/// Invalid field of an authentication header (RFC 4302).
#[derive(Clone, Debug, PartialEq, Eq, Hash, Drop, Error)]
pub enum HeaderError {
    /// The payload length field of the authentication header is 0 (RFC 4302, 2.2).
    #[error("ZeroPayloadLen")]
    ZeroPayloadLen,
}

/// Error when parsing an authentication header from a slice.
#[derive(Clone, Debug, PartialEq, Eq, Hash, Drop, Error)]
#[error(transparent)]
pub enum HeaderSliceError {
    /// The slice has too few bytes for the authentication header.
    Len(LenError),
    /// The authentication header has an invalid field.
    Content(HeaderError),
}
