//! Owned headers of the network layer: IP headers with extension headers, or an ARP packet.

use crate::err::NetSetNextHeaderError;
use crate::ip_headers::IpHeaders;
use crate::ip_headers_read::no_extensions;
use ep_base::{EtherType, IpNumber};
use ep_ext::{Ipv4Extensions, Ipv6Extensions};
use ep_ip::{Ipv4Header, Ipv6Header};
use ep_link::ArpPacket;
use std::alloc::AllocError;

/// Owned headers of the network layer: an IP header with its extension headers, or an ARP packet.
#[derive(Debug, PartialEq, Eq, Drop)]
pub enum NetHeaders {
    /// IPv4 header (RFC 791), and the authentication header after it, if present.
    Ipv4(Ipv4Header, Ipv4Extensions),
    /// IPv6 header (RFC 8200) and its extension headers, at most one of each kind. Destination options before and after
    /// a routing header are two kinds.
    Ipv6(Ipv6Header, Ipv6Extensions),
    /// ARP packet (RFC 826), which has no payload.
    Arp(ArpPacket),
}

/// Older name of [`NetHeaders`], which the Rust crate etherparse has.
pub type IpHeader = NetHeaders;

impl Clone for NetHeaders {
    ghost use Rattle.std.specs.Prelude.{◌≡◌, ⊤};

    ghost is_clone = { λ source copy. copy ≡ source };

    ghost is_infallible = { λ _. ⊤ };

    // Created first and filled in place, as in the clone of [`IpHeaders`].
    #[inline(never)]
    fn clone(&self) -> Result<NetHeaders, AllocError> {
        let mut result = Ok(NetHeaders::blank());
        if let Ok(stored) = &mut result {
            stored.copy_from(self);
        }
        result
    }
}

impl NetHeaders {
    ghost use Rattle.std.specs.Prelude.{◌≡◌, ◌≤◌, Some, None, MatchResult};
    ghost use Rattle.std.specs.Option.{option_copied, option_map};
    ghost use Rattle.ep_packet.specs.declared.ip_headers.IpHeaders.{IpHeaders};
    ghost use Rattle.ep_packet.specs.declared.err.net_set_next_header_error.NetSetNextHeaderError.TheVariants as refusal;
    ghost use Rattle.ep_packet.specs.IpHeaders.{blank_headers, ip_headers_type, linked_headers};
    ghost use Rattle.ep_packet.specs.NetHeaders.{are_ip, are_ipv4, are_ipv6, are_arp, ip_in, ipv4_in_net, ipv6_in_net};
    ghost use Rattle.ep_packet.specs.NetHeaders.{arp_in_net, net_headers_len, net_headers_of};

    /// Returns a default IPv4 header without extension headers, which the caller overwrites.
    #[inline(always)]
    fn blank() -> NetHeaders
        ensures { result ≡ net_headers_of blank_headers }
    {
        NetHeaders::Ipv4(Ipv4Header::default(), Ipv4Extensions { auth: None })
    }

    /// Copies the network layer headers of `source` into `self`, which must be the default IPv4 header of
    /// [`NetHeaders::blank`] before the call. Only extension headers that are present are copied, not the unused space
    /// of absent ones.
    #[inline(never)]
    fn copy_from(&mut self, source: &NetHeaders)
        requires { self.old ≡ net_headers_of blank_headers }
        ensures { self.new ≡ source.now }
    {
        match source {
            NetHeaders::Ipv4(header, extensions) => {
                if let NetHeaders::Ipv4(stored, stored_extensions) = self {
                    *stored = header.clone().unwrap();
                    if extensions.auth.is_some() {
                        *stored_extensions = extensions.clone().unwrap();
                    }
                }
            }
            NetHeaders::Ipv6(header, extensions) => {
                *self = NetHeaders::Ipv6(header.clone().unwrap(), no_extensions());
                if let NetHeaders::Ipv6(_, stored_extensions) = self {
                    stored_extensions.copy_from(extensions);
                }
            }
            NetHeaders::Arp(packet) => *self = NetHeaders::Arp(packet.clone().unwrap()),
        }
    }

    /// Returns true if the network layer is IPv4 or IPv6, false if it is ARP.
    #[inline]
    pub fn is_ip(&self) -> bool
        ensures { result ≡ are_ip self.now }
    {
        self.is_ipv4() || self.is_ipv6()
    }

    /// Returns true if the network layer is IPv4.
    #[inline]
    pub fn is_ipv4(&self) -> bool
        ensures { result ≡ are_ipv4 self.now }
    {
        matches!(self, NetHeaders::Ipv4(_, _))
    }

    /// Returns true if the network layer is IPv6.
    #[inline]
    pub fn is_ipv6(&self) -> bool
        ensures { result ≡ are_ipv6 self.now }
    {
        matches!(self, NetHeaders::Ipv6(_, _))
    }

    /// Returns true if the network layer is an ARP packet.
    #[inline]
    pub fn is_arp(&self) -> bool
        ensures { result ≡ are_arp self.now }
    {
        matches!(self, NetHeaders::Arp(_))
    }

    /// Returns the IPv4 header and its extension headers (the optional authentication header); `None` for IPv6 and ARP.
    #[inline]
    pub fn ipv4_ref(&self) -> Option<(&Ipv4Header, &Ipv4Extensions)>
        ensures { option_map (λ parts. (parts.0.now, parts.1.now)) result ≡ ipv4_in_net self.now }
    {
        match self {
            NetHeaders::Ipv4(header, extensions) => Some((header, extensions)),
            NetHeaders::Ipv6(_, _) | NetHeaders::Arp(_) => None,
        }
    }

    /// Returns the IPv6 header and its extension headers; `None` for IPv4 and ARP.
    #[inline]
    pub fn ipv6_ref(&self) -> Option<(&Ipv6Header, &Ipv6Extensions)>
        ensures { option_map (λ parts. (parts.0.now, parts.1.now)) result ≡ ipv6_in_net self.now }
    {
        match self {
            NetHeaders::Ipv6(header, extensions) => Some((header, extensions)),
            NetHeaders::Ipv4(_, _) | NetHeaders::Arp(_) => None,
        }
    }

    /// Returns the ARP packet; `None` if the network layer is IPv4 or IPv6.
    #[inline]
    pub fn arp_ref(&self) -> Option<&ArpPacket>
        ensures { option_copied result ≡ arp_in_net self.now }
    {
        match self {
            NetHeaders::Arp(packet) => Some(packet),
            NetHeaders::Ipv4(_, _) | NetHeaders::Ipv6(_, _) => None,
        }
    }

    /// Length in bytes of the IP header and its extension headers, or of the ARP packet, at most 9268.
    #[inline]
    pub fn header_len(&self) -> usize
        ensures value { result ≡ net_headers_len self.now }
        ensures bound { result ≤ 9268 }
    {
        match self {
            NetHeaders::Ipv4(header, extensions) => header.header_len() + extensions.header_len(),
            NetHeaders::Ipv6(header, extensions) => header.header_len() + extensions.header_len(),
            NetHeaders::Arp(packet) => packet.packet_len(),
        }
    }

    /// Sets the next header values so that they lead from the IP header through all its extension headers to `last`,
    /// the protocol number of the payload. Returns the ether type of the IP version. For an ARP packet it is an error,
    /// and nothing is changed.
    pub fn try_set_next_headers(
        &mut self,
        last: IpNumber,
    ) -> Result<EtherType, NetSetNextHeaderError>
        ensures { MatchResult result
            (λ ether_type. (headers : IpHeaders) × (ip_in self.old ≡ Some headers)
            × (self.new ≡ net_headers_of (linked_headers headers last)) × (ether_type.0 ≡ ip_headers_type headers))
            (λ error. (ip_in self.old ≡ None) × (self.new ≡ self.old) × (error ≡ refusal.ArpHeader)) }
    {
        match self {
            NetHeaders::Ipv4(header, extensions) => {
                header.protocol = extensions.set_next_headers(last);
                Ok(EtherType::IPV4)
            }
            NetHeaders::Ipv6(header, extensions) => {
                header.next_header = extensions.set_next_headers(last);
                Ok(EtherType::IPV6)
            }
            NetHeaders::Arp(_) => Err(NetSetNextHeaderError::ArpHeader),
        }
    }
}

impl From<IpHeaders> for NetHeaders {
    ghost use Rattle.std.specs.Prelude.{◌≡◌};
    ghost use Rattle.ep_packet.specs.NetHeaders.{net_headers_of};

    ghost from_gives = { λ headers net. net ≡ net_headers_of headers };

    #[inline]
    fn from(headers: IpHeaders) -> NetHeaders {
        match headers {
            IpHeaders::Ipv4(header, extensions) => NetHeaders::Ipv4(header, extensions),
            IpHeaders::Ipv6(header, extensions) => NetHeaders::Ipv6(header, extensions),
        }
    }
}

impl From<ArpPacket> for NetHeaders {
    ghost use Rattle.std.specs.Prelude.{◌≡◌};
    ghost use Rattle.ep_packet.specs.declared.net_headers.NetHeaders.TheVariants as variant;

    ghost from_gives = { λ packet net. net ≡ variant.Arp packet };

    #[inline]
    fn from(packet: ArpPacket) -> NetHeaders {
        NetHeaders::Arp(packet)
    }
}
