//! Errors of parsing IPv4 headers and packets (RFC 791).

use crate::err::ip_auth;
use crate::err::len_error::LenError;
use thiserror::Error;

/// Invalid field of an IPv4 header.
#[derive(Clone, Debug, PartialEq, Eq, Hash, Drop, Error)]
pub enum HeaderError {
    /// The version field of the IPv4 header is not 4.
    #[error("UnexpectedVersion {version_number}")]
    UnexpectedVersion { version_number: u8 },
    /// The internet header length (IHL) of the IPv4 header is below 5 words of 4 bytes.
    #[error("HeaderLengthSmallerThanHeader {ihl}")]
    HeaderLengthSmallerThanHeader { ihl: u8 },
}

/// Error when parsing an IPv4 header from a slice.
#[derive(Clone, Debug, PartialEq, Eq, Hash, Drop, Error)]
#[error(transparent)]
pub enum HeaderSliceError {
    /// The slice has too few bytes for the IPv4 header.
    Len(LenError),
    /// The IPv4 header has an invalid field.
    Content(HeaderError),
}

/// Error when parsing an IPv4 packet (header, authentication header if present, and payload) from a slice.
#[derive(Clone, Debug, PartialEq, Eq, Hash, Drop, Error)]
#[error(transparent)]
pub enum SliceError {
    /// Fewer bytes than the IPv4 header, the authentication header or the total length field requires, or a total
    /// length below the header length.
    Len(LenError),
    /// The IPv4 header has an invalid field.
    Header(HeaderError),
    /// The authentication header after the IPv4 header has an invalid field.
    Exts(ip_auth::HeaderError),
}
