//! The network layer of a sliced packet: IPv4, IPv6 or ARP.

ghost use Rattle.std.specs.Prelude.{◌≡◌, ◌<◌, ◌+◌, ◌^◌, length};
ghost use Rattle.ep_ip.specs.Ipv4.{ipv4_header_len};
ghost use Rattle.ep_ip.specs.Ipv4Slices.{ipv4_slice_extensions, ipv4_slice_header};
ghost use Rattle.ep_packet.specs.Layers.{net_layer_of};
ghost use Rattle.ep_packet.specs.Offsets.{net_layer_len, parts_len};

use crate::header_lens::{arp_len, extensions_len};
use ep_base::IpPayloadSlice;
use ep_ip::{IpSlice, Ipv4Slice, Ipv6Header, Ipv6Slice};
use ep_link::ArpPacketSlice;

/// Network layer of a sliced packet: an IP packet with its headers and payload, or an ARP packet.
#[derive(Clone, Debug, PartialEq, Eq, Drop)]
pub enum NetSlice<'a> {
    /// IPv4 packet (RFC 791): header, authentication header, if present, and payload.
    Ipv4(Ipv4Slice<'a>),
    /// IPv6 packet (RFC 8200): header, extension headers and payload.
    Ipv6(Ipv6Slice<'a>),
    /// ARP packet (RFC 826), which has no payload.
    Arp(ArpPacketSlice<'a>),
}

/// Older name of [`NetSlice`], which the Rust crate etherparse has.
pub type InternetSlice<'a> = NetSlice<'a>;

impl<'a> NetSlice<'a> {
    ghost use Rattle.std.specs.Prelude.{◌≡◌, ◌<◌, ◌+◌, ◌^◌, ℕ, List, Some, length};
    ghost use Rattle.std.specs.Option.{option_copied, option_map};
    ghost use Rattle.ep_base.specs.IpPayload.{ip_payload_of};
    ghost use Rattle.ep_packet.specs.FrameBytes.{EncodesNet};
    ghost use Rattle.ep_packet.specs.Layers.{net_layer_of, net_payload};
    ghost use Rattle.ep_packet.specs.Offsets.{net_layer_len};
    ghost use Rattle.ep_packet.specs.NetSlices.{is_ip_layer, is_ipv4_layer, is_ipv6_layer, is_arp_layer, ipv4_in, ipv6_in, arp_in};

    /// Returns true if the network layer is IPv4 or IPv6, false if it is ARP.
    #[inline]
    pub fn is_ip(&self) -> bool
        ensures { result ≡ is_ip_layer self.now }
    {
        self.is_ipv4() || self.is_ipv6()
    }

    /// Returns true if the network layer is IPv4.
    #[inline]
    pub fn is_ipv4(&self) -> bool
        ensures { result ≡ is_ipv4_layer self.now }
    {
        matches!(self, NetSlice::Ipv4(_))
    }

    /// Returns true if the network layer is IPv6.
    #[inline]
    pub fn is_ipv6(&self) -> bool
        ensures { result ≡ is_ipv6_layer self.now }
    {
        matches!(self, NetSlice::Ipv6(_))
    }

    /// Returns true if the network layer is ARP.
    #[inline]
    pub fn is_arp(&self) -> bool
        ensures { result ≡ is_arp_layer self.now }
    {
        matches!(self, NetSlice::Arp(_))
    }

    /// Returns the IPv4 packet; `None` if the network layer is IPv6 or ARP.
    #[inline]
    pub fn ipv4_ref(&self) -> Option<&Ipv4Slice<'a>>
        ensures { option_copied result ≡ ipv4_in self.now }
    {
        match self {
            NetSlice::Ipv4(packet) => Some(packet),
            NetSlice::Ipv6(_) | NetSlice::Arp(_) => None,
        }
    }

    /// Returns the IPv6 packet; `None` if the network layer is IPv4 or ARP.
    #[inline]
    pub fn ipv6_ref(&self) -> Option<&Ipv6Slice<'a>>
        ensures { option_copied result ≡ ipv6_in self.now }
    {
        match self {
            NetSlice::Ipv6(packet) => Some(packet),
            NetSlice::Ipv4(_) | NetSlice::Arp(_) => None,
        }
    }

    /// Returns the ARP packet; `None` if the network layer is IPv4 or IPv6.
    #[inline]
    pub fn arp_ref(&self) -> Option<&ArpPacketSlice<'a>>
        ensures { option_copied result ≡ arp_in self.now }
    {
        match self {
            NetSlice::Ipv4(_) | NetSlice::Ipv6(_) => None,
            NetSlice::Arp(packet) => Some(packet),
        }
    }

    /// Returns the payload of the IPv4 or IPv6 packet; `None` for ARP.
    #[inline]
    pub fn ip_payload_ref(&self) -> Option<&IpPayloadSlice<'a>>
        ensures { option_map ip_payload_of (option_copied result) ≡ net_payload (net_layer_of self.now) }
    {
        match self {
            NetSlice::Ipv4(packet) => Some(packet.payload()),
            NetSlice::Ipv6(packet) => Some(packet.payload()),
            NetSlice::Arp(_) => None,
        }
    }

    /// Length in bytes of the IP header and its extension headers, after which the IP payload starts, or of the ARP
    /// packet.
    pub fn header_len(&self) -> usize
        ensures value { result ≡ net_layer_len (net_layer_of self.now) }
        ensures bytes { (bytes : List ℕ) → EncodesNet (Some (net_layer_of self.now)) bytes → length bytes ≡ result }
        ensures bound { result < 2 ^ 63 + 64 }
    {
        headers_len(self)
    }
}

/// Returns the length in bytes of the IP header and its extension headers, or of the ARP packet.
fn headers_len(net: &NetSlice<'_>) -> usize
    ensures value { result ≡ net_layer_len (net_layer_of net.now) }
    ensures bound { result < 2 ^ 63 + 64 }
{
    match net {
        NetSlice::Ipv4(packet) => ipv4_len(packet),
        NetSlice::Ipv6(packet) => Ipv6Header::LEN + extensions_len(packet.extensions()),
        NetSlice::Arp(packet) => arp_len(packet),
    }
}

/// Returns the length in bytes of an IPv4 header and the authentication header after it, if present.
fn ipv4_len(packet: &Ipv4Slice<'_>) -> usize
    ensures value { result
        ≡ ipv4_header_len (ipv4_slice_header packet.now) + parts_len (ipv4_slice_extensions packet.now) }
    ensures bound { result < 2 ^ 63 + 64 }
{
    let header_len = packet.header().header_len();
    match &packet.extensions().auth {
        Some(header) => header_len + header.slice().len(),
        None => header_len,
    }
}

impl<'a> From<Ipv4Slice<'a>> for NetSlice<'a> {
    ghost use Rattle.std.specs.Prelude.{◌≡◌};
    ghost use Rattle.ep_packet.specs.declared.net_slice.NetSlice.TheVariants as variant;

    ghost from_gives = { λ packet layer. layer ≡ variant.Ipv4 packet };

    fn from(packet: Ipv4Slice<'a>) -> NetSlice<'a> {
        NetSlice::Ipv4(packet)
    }
}

impl<'a> From<Ipv6Slice<'a>> for NetSlice<'a> {
    ghost use Rattle.std.specs.Prelude.{◌≡◌};
    ghost use Rattle.ep_packet.specs.declared.net_slice.NetSlice.TheVariants as variant;

    ghost from_gives = { λ packet layer. layer ≡ variant.Ipv6 packet };

    fn from(packet: Ipv6Slice<'a>) -> NetSlice<'a> {
        NetSlice::Ipv6(packet)
    }
}

impl<'a> From<IpSlice<'a>> for NetSlice<'a> {
    ghost use Rattle.std.specs.Prelude.{◌≡◌};
    ghost use Rattle.ep_packet.specs.NetSlices.{net_slice_of};

    ghost from_gives = { λ packet layer. layer ≡ net_slice_of packet };

    fn from(packet: IpSlice<'a>) -> NetSlice<'a> {
        match packet {
            IpSlice::Ipv4(packet) => NetSlice::Ipv4(packet),
            IpSlice::Ipv6(packet) => NetSlice::Ipv6(packet),
        }
    }
}
