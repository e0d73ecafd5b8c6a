//! Error of building a frame and writing it.

use ep_base::err::{ValueTooBigError, ipv4_exts, ipv6_exts};
use thiserror::Error;

/// Reason why a built frame was not written. The `write` functions of the packet builder check in the order
/// `PayloadLen`, `Icmpv6InIpv4`, `OutOfMemory`. They never return the other three: they set the next header values
/// themselves, and an `ArpPacket` has addresses of the lengths that it states.
#[derive(Clone, Debug, PartialEq, Eq, Drop, Error)]
pub enum BuildWriteError {
    /// The IP packet is too long for its length field, which can count 65535 bytes: extension headers, transport header
    /// and payload, and in IPv4 also the IPv4 header.
    #[error(transparent)]
    PayloadLen(ValueTooBigError<usize>),
    /// An ICMPv6 header follows an IPv4 header. Its checksum needs the addresses of an IPv6 header (RFC 4443, 2.3).
    #[error("Error: ICMPv6 can not be combined with an IPv4 headers (checksum can not be calculated).")]
    Icmpv6InIpv4,
    /// Out of memory: the buffer that the frame is appended to could not grow.
    #[error("out of memory")]
    OutOfMemory,
    /// The frame has an IPv4 authentication header, but the protocol field of the IPv4 header is not 51 (authentication
    /// header). The packet builder never returns this.
    #[error(transparent)]
    Ipv4Exts(ipv4_exts::ExtsWalkError),
    /// The frame has an IPv6 extension header that the chain of next header values does not lead to, or hop-by-hop
    /// options that are not the first header of the chain. The packet builder never returns this.
    #[error(transparent)]
    Ipv6Exts(ipv6_exts::ExtsWalkError),
    /// The addresses of the ARP packet have other lengths than its length fields state. The packet builder never
    /// returns this.
    #[error("address size defined in the ARP header does not match the actual size")]
    ArpHeaderNotMatch,
}

impl BuildWriteError {
    ghost use Rattle.std.specs.Prelude.{◌≡◌, ◌↔◌, IsTrue};
    ghost use Rattle.std.specs.Option.{option_copied};
    ghost use Rattle.ep_build.specs.BuildErrors.{payload_len_in, ipv4_exts_in, ipv6_exts_in};

    /// Returns true if writing the frame failed because the buffer could not grow.
    #[inline]
    pub fn is_out_of_memory(&self) -> bool
        ensures { IsTrue result ↔ (self.now ≡ BuildWriteError.OutOfMemory) }
    {
        matches!(self, BuildWriteError::OutOfMemory)
    }

    /// Returns the length that is too big, and its maximum, if the frame is too long for the length field of IP; `None`
    /// for another error.
    #[inline]
    pub fn payload_len(&self) -> Option<&ValueTooBigError<usize>>
        ensures { option_copied result ≡ payload_len_in self.now }
    {
        match self {
            BuildWriteError::PayloadLen(error) => Some(error),
            _ => None,
        }
    }

    /// Returns the error that the variant `Ipv4Exts` contains (authentication header not reached); `None` for another
    /// variant.
    #[inline]
    pub fn ipv4_exts(&self) -> Option<&ipv4_exts::ExtsWalkError>
        ensures { option_copied result ≡ ipv4_exts_in self.now }
    {
        match self {
            BuildWriteError::Ipv4Exts(error) => Some(error),
            _ => None,
        }
    }

    /// Returns the error that the variant `Ipv6Exts` contains (wrong chain of extension headers); `None` for another
    /// variant.
    #[inline]
    pub fn ipv6_exts(&self) -> Option<&ipv6_exts::ExtsWalkError>
        ensures { option_copied result ≡ ipv6_exts_in self.now }
    {
        match self {
            BuildWriteError::Ipv6Exts(error) => Some(error),
            _ => None,
        }
    }

    /// Returns true if the frame was not built because an ICMPv6 header follows an IPv4 header.
    #[inline]
    pub fn is_icmpv6_in_ipv4(&self) -> bool
        ensures { IsTrue result ↔ (self.now ≡ BuildWriteError.Icmpv6InIpv4) }
    {
        matches!(self, BuildWriteError::Icmpv6InIpv4)
    }
}
