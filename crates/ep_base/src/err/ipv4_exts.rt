//! Errors of writing the only extension header of IPv4, the authentication header.

use crate::ip_number::IpNumber;
use thiserror::Error;

/// The IPv4 packet has an authentication header, but the protocol field of its IPv4 header is not 51 (authentication
/// header).
#[derive(Clone, Debug, PartialEq, Eq, Hash, Drop, Error)]
pub enum ExtsWalkError {
    /// The IPv4 protocol number does not reference the extension header with the number `missing_ext` (51:
    /// authentication header).
    #[error("ExtNotReferenced {}", .missing_ext.0)]
    ExtNotReferenced { missing_ext: IpNumber },
}

/// Error when writing the extension header of an IPv4 packet, the authentication header.
#[derive(Clone, Debug, PartialEq, Eq, Hash, Drop, Error)]
pub enum HeaderWriteError {
    /// The protocol field of the IPv4 header is not 51 (authentication header).
    #[error(transparent)]
    Content(ExtsWalkError),
    /// The allocation for the written extension header failed.
    #[error("out of memory")]
    OutOfMemory,
}

impl HeaderWriteError {
    ghost use Rattle.std.specs.Prelude.{◌≡◌, ◌↔◌, IsTrue};

    /// Returns true if writing the extension header failed because an allocation failed.
    #[inline]
    pub fn is_out_of_memory(&self) -> bool
        ensures { IsTrue result ↔ (self.now ≡ HeaderWriteError.OutOfMemory) }
    {
        matches!(self, HeaderWriteError::OutOfMemory)
    }
}
