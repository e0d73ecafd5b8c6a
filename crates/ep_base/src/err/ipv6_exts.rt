//! Errors of parsing and writing IPv6 extension headers (RFC 8200, 4).

use crate::err::ip_auth;
use crate::err::len_error::LenError;
use crate::ip_number::IpNumber;
use thiserror::Error;

/// Misplaced IPv6 extension header, or an IPv6 extension header with an invalid field.
#[derive(Clone, Debug, PartialEq, Eq, Hash, Drop, Error)]
pub enum HeaderError {
    /// An IPv6 hop-by-hop options header is present, but is not the first extension header.
    #[error("HopByHopNotAtStart")]
    HopByHopNotAtStart,
    /// An authentication header in the chain of IPv6 extension headers has an invalid field.
    #[error(transparent)]
    IpAuth(ip_auth::HeaderError),
}

/// Error when parsing a chain of IPv6 extension headers from a slice.
#[derive(Clone, Debug, PartialEq, Eq, Hash, Drop, Error)]
#[error(transparent)]
pub enum HeaderSliceError {
    /// The slice has too few bytes for one of the IPv6 extension headers.
    Len(LenError),
    /// An IPv6 extension header is misplaced or has an invalid field.
    Content(HeaderError),
}

/// Error of a set of IPv6 extension headers: following the next header fields does not reach all of them in a valid
/// order.
#[derive(Clone, Debug, PartialEq, Eq, Hash, Drop, Error)]
pub enum ExtsWalkError {
    /// The number of the IPv6 hop-by-hop options header is referenced by an extension header, not by the IPv6 header.
    #[error("HopByHopNotAtStart")]
    HopByHopNotAtStart,
    /// Following the next header fields does not reach the IPv6 extension header with the protocol number
    /// `missing_ext`.
    #[error("ExtNotReferenced {}", .missing_ext.0)]
    ExtNotReferenced { missing_ext: IpNumber },
}

/// Error when writing IPv6 extension headers.
#[derive(Clone, Debug, PartialEq, Eq, Hash, Drop, Error)]
pub enum HeaderWriteError {
    /// Following the next header fields does not reach all IPv6 extension headers in a valid order.
    #[error(transparent)]
    Content(ExtsWalkError),
    /// The allocation for the written IPv6 extension headers failed.
    #[error("out of memory")]
    OutOfMemory,
}

impl HeaderWriteError {
    ghost use Rattle.std.specs.Prelude.{◌≡◌, ◌↔◌, IsTrue};

    /// Returns true if writing the IPv6 extension headers failed because an allocation failed.
    #[inline]
    pub fn is_out_of_memory(&self) -> bool
        ensures { IsTrue result ↔ (self.now ≡ HeaderWriteError.OutOfMemory) }
    {
        matches!(self, HeaderWriteError::OutOfMemory)
    }
}
