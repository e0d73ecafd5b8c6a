//! Errors of IP extension headers of either version: of parsing them, and of a set whose next header fields do not link
//! all of them into a chain.

use crate::err::len_error::LenError;
use crate::err::{ip_auth, ipv4_exts, ipv6_exts};
use thiserror::Error;

/// Error of a set of IPv4 or IPv6 extension headers: following the next header fields does not reach all of them.
#[derive(Clone, Debug, PartialEq, Eq, Hash, Drop, Error)]
#[error(transparent)]
pub enum ExtsWalkError {
    /// The next header fields do not reach the authentication header of an IPv4 packet.
    Ipv4Exts(ipv4_exts::ExtsWalkError),
    /// The next header fields do not reach all extension headers of an IPv6 packet.
    Ipv6Exts(ipv6_exts::ExtsWalkError),
}

/// Invalid field of an IPv4 or IPv6 extension header.
#[derive(Clone, Debug, PartialEq, Eq, Hash, Drop, Error)]
#[error(transparent)]
pub enum HeaderError {
    /// Invalid authentication header after an IPv4 header.
    Ipv4Ext(ip_auth::HeaderError),
    /// Invalid IPv6 extension header.
    Ipv6Ext(ipv6_exts::HeaderError),
}

/// Error when parsing IPv4 or IPv6 extension headers from a slice.
#[derive(Clone, Debug, PartialEq, Eq, Hash, Drop, Error)]
#[error(transparent)]
pub enum HeadersSliceError {
    /// Fewer bytes than an extension header requires.
    Len(LenError),
    /// An extension header has an invalid field.
    Content(HeaderError),
}
