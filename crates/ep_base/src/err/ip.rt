//! Errors of parsing IP headers and packets of either version, which the version field determines.

use crate::err::len_error::LenError;
use crate::err::{ip_auth, ipv6_exts};
use thiserror::Error;

/// Invalid field of an IPv4 or IPv6 header.
#[derive(Clone, Debug, PartialEq, Eq, Hash, Drop, Error)]
pub enum HeaderError {
    /// The version field of the IP header is neither 4 nor 6.
    #[error("UnsupportedIpVersion {version_number}")]
    UnsupportedIpVersion { version_number: u8 },
    /// The internet header length (IHL) of the IPv4 header is below 5 words of 4 bytes.
    #[error("Ipv4HeaderLengthSmallerThanHeader {ihl}")]
    Ipv4HeaderLengthSmallerThanHeader { ihl: u8 },
}

/// Invalid field of an IPv4 or IPv6 header or of its extension headers.
#[derive(Clone, Debug, PartialEq, Eq, Hash, Drop, Error)]
#[error(transparent)]
pub enum HeadersError {
    /// Invalid field of the IPv4 or IPv6 header itself.
    Ip(HeaderError),
    /// Invalid authentication header after an IPv4 header.
    Ipv4Ext(ip_auth::HeaderError),
    /// Invalid IPv6 extension header.
    Ipv6Ext(ipv6_exts::HeaderError),
}

/// Error when parsing an IPv4 or IPv6 header with its extension headers from a slice.
#[derive(Clone, Debug, PartialEq, Eq, Hash, Drop, Error)]
#[error(transparent)]
pub enum HeadersSliceError {
    /// Fewer bytes than the IP header, an extension header or the length field of the IP header requires, or an IPv4
    /// total length below the header length.
    Len(LenError),
    /// The IP header or an extension header has an invalid field.
    Content(HeadersError),
}

/// Error when parsing an IPv4 or IPv6 packet (headers and payload) from a slice.
#[derive(Clone, Debug, PartialEq, Eq, Hash, Drop, Error)]
#[error(transparent)]
pub enum SliceError {
    /// Fewer bytes than the IP header, an extension header or the length field of the IP header requires, or an IPv4
    /// total length below the header length.
    Len(LenError),
    /// The IP header or an extension header has an invalid field.
    IpHeaders(HeadersError),
}

/// Error when parsing a slice laxly as an IP packet: the IP header itself is invalid or truncated. Invalid headers
/// after it do not make lax parsing fail.
#[derive(Clone, Debug, PartialEq, Eq, Hash, Drop, Error)]
#[error(transparent)]
pub enum LaxHeaderSliceError {
    /// The slice has too few bytes for the IP header.
    Len(LenError),
    /// The IP header has an invalid field.
    Content(HeaderError),
}
