//! Errors of parsing TCP headers (RFC 9293).

use crate::err::len_error::LenError;
use thiserror::Error;

/// Invalid field of a TCP header.
#[derive(Clone, Debug, PartialEq, Eq, Hash, Drop, Error)]
pub enum HeaderError {
    /// The data offset of the TCP header is below 5 words of 4 bytes.
    #[error("DataOffsetTooSmall {data_offset}")]
    DataOffsetTooSmall { data_offset: u8 },
}

/// Error when parsing a TCP header from a slice.
#[derive(Clone, Debug, PartialEq, Eq, Hash, Drop, Error)]
#[error(transparent)]
pub enum HeaderSliceError {
    /// The slice has too few bytes for the TCP header with its options.
    Len(LenError),
    /// The TCP header has an invalid field.
    Content(HeaderError),
}
