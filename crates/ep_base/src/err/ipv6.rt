//! Errors of parsing IPv6 headers and packets (RFC 8200).

use crate::err::ipv6_exts;
use crate::err::len_error::LenError;
use thiserror::Error;

/// Invalid field of an IPv6 header.
#[derive(Clone, Debug, PartialEq, Eq, Hash, Drop, Error)]
pub enum HeaderError {
    /// The version field of the IPv6 header is not 6.
    #[error("UnexpectedVersion {version_number}")]
    UnexpectedVersion { version_number: u8 },
}

/// Error when parsing an IPv6 header from a slice.
#[derive(Clone, Debug, PartialEq, Eq, Hash, Drop, Error)]
#[error(transparent)]
pub enum HeaderSliceError {
    /// The slice has too few bytes for the IPv6 header.
    Len(LenError),
    /// The IPv6 header has an invalid field.
    Content(HeaderError),
}

/// Error when parsing an IPv6 packet (header, extension headers and payload) from a slice.
#[derive(Clone, Debug, PartialEq, Eq, Hash, Drop, Error)]
#[error(transparent)]
pub enum SliceError {
    /// Fewer bytes than the IPv6 header, an extension header or the payload length field of the IPv6 header requires.
    Len(LenError),
    /// The IPv6 header has an invalid field.
    Header(HeaderError),
    /// An IPv6 extension header is misplaced or has an invalid field.
    Exts(ipv6_exts::HeaderError),
}
