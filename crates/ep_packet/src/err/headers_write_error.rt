//! Error of writing an IP header and its extension headers.

use ep_base::err::{ipv4_exts, ipv6_exts};
use thiserror::Error;

/// Reason why an IP header and its extension headers were not written.
#[derive(Clone, Debug, PartialEq, Eq, Drop, Error)]
pub enum HeadersWriteError {
    /// Out of memory: the buffer that the IP headers are appended to could not grow.
    #[error("out of memory")]
    OutOfMemory,
    /// The IPv4 headers include an authentication header, but the protocol field of the IPv4 header is not 51
    /// (authentication header).
    #[error(transparent)]
    Ipv4Exts(ipv4_exts::ExtsWalkError),
    /// The IPv6 headers have an extension header that the chain of next header values does not lead to, or hop-by-hop
    /// options that are not the first header of the chain.
    #[error(transparent)]
    Ipv6Exts(ipv6_exts::ExtsWalkError),
}

impl HeadersWriteError {
    ghost use Rattle.std.specs.Prelude.{◌≡◌, ◌↔◌, IsTrue};
    ghost use Rattle.std.specs.Option.{option_copied};
    ghost use Rattle.ep_packet.specs.IpHeaders.{ipv4_walk_error_in, ipv6_walk_error_in};

    /// Returns true if writing the IP headers failed because the buffer could not grow.
    #[inline]
    pub fn is_out_of_memory(&self) -> bool
        ensures { IsTrue result ↔ (self.now ≡ HeadersWriteError.OutOfMemory) }
    {
        matches!(self, HeadersWriteError::OutOfMemory)
    }

    /// Returns the error that the variant `Ipv4Exts` contains (authentication header not reached); `None` for another
    /// variant.
    #[inline]
    pub fn ipv4_exts(&self) -> Option<&ipv4_exts::ExtsWalkError>
        ensures { option_copied result ≡ ipv4_walk_error_in self.now }
    {
        match self {
            HeadersWriteError::Ipv4Exts(error) => Some(error),
            HeadersWriteError::OutOfMemory | HeadersWriteError::Ipv6Exts(_) => None,
        }
    }

    /// Returns the error that the variant `Ipv6Exts` contains (wrong chain of extension headers); `None` for another
    /// variant.
    #[inline]
    pub fn ipv6_exts(&self) -> Option<&ipv6_exts::ExtsWalkError>
        ensures { option_copied result ≡ ipv6_walk_error_in self.now }
    {
        match self {
            HeadersWriteError::Ipv6Exts(error) => Some(error),
            HeadersWriteError::OutOfMemory | HeadersWriteError::Ipv4Exts(_) => None,
        }
    }
}
