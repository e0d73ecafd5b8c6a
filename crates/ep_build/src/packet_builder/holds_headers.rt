//! The types of the headers that a frame builder contains, by the innermost one.

ghost use Rattle.std.specs.Prelude.{◌≡◌, ◌≤◌, length};
ghost use Rattle.ep_transport.specs.TransportHeaders.{transport_bytes, transport_header_len};
ghost use Rattle.ep_transport.specs.declared.transport_header.TransportHeader.TheVariants as transport;
ghost use Rattle.ep_build.specs.Steps.{ethernet2_link, linux_sll_link, vlan_link};

use super::PacketBuilderStep;
use crate::facts::{icmpv4_fits, icmpv6_fits};
use crate::ip_part::IpPart;
use crate::link_part::LinkPart;
use ep_link::{ArpPacket, Ethernet2Header, LinuxSllHeader, VlanHeader};
use ep_packet::IpHeaders;
use ep_transport::{Icmpv4Header, Icmpv6Header, TcpHeader, TransportHeader, UdpHeader};

/// Header that can be the innermost one of a frame being built, with the type of the headers before it: implemented by
/// link, VLAN, ARP, IP and transport headers. No other crate can name this trait, so no other combinations exist.
pub trait HoldsHeaders: Drop {
    /// Type of the headers of the frame before the innermost one.
    type Before: Drop;

    /// Type of the innermost header, in the form in which the caller passed it.
    type Last: Drop;
}

impl HoldsHeaders for Ethernet2Header {
    type Before = ();

    type Last = Ethernet2Header;
}

impl HoldsHeaders for LinuxSllHeader {
    type Before = ();

    type Last = LinuxSllHeader;
}

impl HoldsHeaders for VlanHeader {
    type Before = Ethernet2Header;

    type Last = VlanHeader;
}

impl HoldsHeaders for ArpPacket {
    type Before = LinkPart;

    type Last = ArpPacket;
}

impl HoldsHeaders for IpHeaders {
    type Before = LinkPart;

    type Last = IpPart;
}

impl HoldsHeaders for UdpHeader {
    type Before = (LinkPart, IpPart);

    type Last = UdpHeader;
}

impl HoldsHeaders for TcpHeader {
    type Before = (LinkPart, IpPart);

    type Last = TcpHeader;
}

impl HoldsHeaders for Icmpv4Header {
    type Before = (LinkPart, IpPart);

    type Last = Icmpv4Header;
}

impl HoldsHeaders for Icmpv6Header {
    type Before = (LinkPart, IpPart);

    type Last = Icmpv6Header;
}

/// Header that a network layer can follow: implemented by Ethernet II, Linux cooked capture and VLAN headers. No other
/// crate can name this trait.
pub trait CarriesNet: HoldsHeaders {
    ghost use Rattle.ep_build.specs.declared.link_part.LinkPart.{LinkPart};
    ghost use Rattle.ep_build.specs.declared.packet_builder.PacketBuilderStep.{PacketBuilderStep};

    /// The link header and VLAN tags of the frame, before its network layer, for contracts.
    ghost link: { PacketBuilderStep Self Self.Before Self.Last → LinkPart };

    /// Returns the link header and VLAN tags of a frame whose innermost header so far is of this type.
    fn link_part(step: PacketBuilderStep<Self>) -> LinkPart
        ensures { result ≡ link step };
}

impl CarriesNet for Ethernet2Header {
    ghost link = { ethernet2_link };

    #[inline(always)]
    fn link_part(step: PacketBuilderStep<Ethernet2Header>) -> LinkPart
        ensures { result ≡ ethernet2_link step }
    {
        LinkPart::Ethernet2(step.last)
    }
}

impl CarriesNet for LinuxSllHeader {
    ghost link = { linux_sll_link };

    #[inline(always)]
    fn link_part(step: PacketBuilderStep<LinuxSllHeader>) -> LinkPart
        ensures { result ≡ linux_sll_link step }
    {
        LinkPart::LinuxSll(step.last)
    }
}

impl CarriesNet for VlanHeader {
    ghost link = { vlan_link };

    #[inline(always)]
    fn link_part(step: PacketBuilderStep<VlanHeader>) -> LinkPart
        ensures { result ≡ vlan_link step }
    {
        LinkPart::Tagged(step.before, step.last)
    }
}

/// Transport header that ends the headers of a frame: implemented by UDP, TCP, ICMPv4 and ICMPv6 headers. No other
/// crate can name this trait.
pub trait IsTransport: HoldsHeaders {
    ghost use Rattle.ep_transport.specs.declared.transport_header.TransportHeader.{TransportHeader};

    /// The UDP, TCP, ICMPv4 or ICMPv6 header as a `TransportHeader`, for contracts.
    ghost kind: { Self → TransportHeader };

    /// Converts the UDP, TCP, ICMPv4 or ICMPv6 header into a `TransportHeader`.
    fn into_transport(self) -> TransportHeader
        ensures { result ≡ kind self };

    /// Length of the UDP, TCP, ICMPv4 or ICMPv6 header in bytes, at most 60.
    fn transport_len(&self) -> usize
        ensures value { result ≡ transport_header_len (kind self.now) }
        ensures bytes { length (transport_bytes (kind self.now)) ≡ transport_header_len (kind self.now) }
        ensures bound { result ≤ 60 };
}

impl IsTransport for UdpHeader {
    ghost kind = { transport.Udp };

    #[inline(always)]
    fn into_transport(self) -> TransportHeader
        ensures { result ≡ transport.Udp self }
    {
        TransportHeader::Udp(self)
    }

    #[inline(always)]
    fn transport_len(&self) -> usize
        ensures value { result ≡ transport_header_len (transport.Udp self.now) }
        ensures bytes { length (transport_bytes (transport.Udp self.now))
            ≡ transport_header_len (transport.Udp self.now) }
        ensures bound { result ≤ 60 }
    {
        self.header_len()
    }
}

impl IsTransport for TcpHeader {
    ghost kind = { transport.Tcp };

    #[inline(always)]
    fn into_transport(self) -> TransportHeader
        ensures { result ≡ transport.Tcp self }
    {
        TransportHeader::Tcp(self)
    }

    #[inline(always)]
    fn transport_len(&self) -> usize
        ensures value { result ≡ transport_header_len (transport.Tcp self.now) }
        ensures bytes { length (transport_bytes (transport.Tcp self.now))
            ≡ transport_header_len (transport.Tcp self.now) }
        ensures bound { result ≤ 60 }
    {
        self.header_len()
    }
}

impl IsTransport for Icmpv4Header {
    ghost kind = { transport.Icmpv4 };

    #[inline(always)]
    fn into_transport(self) -> TransportHeader
        ensures { result ≡ transport.Icmpv4 self }
    {
        TransportHeader::Icmpv4(self)
    }

    #[inline(always)]
    fn transport_len(&self) -> usize
        ensures value { result ≡ transport_header_len (transport.Icmpv4 self.now) }
        ensures bytes { length (transport_bytes (transport.Icmpv4 self.now))
            ≡ transport_header_len (transport.Icmpv4 self.now) }
        ensures bound { result ≤ 60 }
    {
        icmpv4_fits(self);
        self.header_len()
    }
}

impl IsTransport for Icmpv6Header {
    ghost kind = { transport.Icmpv6 };

    #[inline(always)]
    fn into_transport(self) -> TransportHeader
        ensures { result ≡ transport.Icmpv6 self }
    {
        TransportHeader::Icmpv6(self)
    }

    #[inline(always)]
    fn transport_len(&self) -> usize
        ensures value { result ≡ transport_header_len (transport.Icmpv6 self.now) }
        ensures bytes { length (transport_bytes (transport.Icmpv6 self.now))
            ≡ transport_header_len (transport.Icmpv6 self.now) }
        ensures bound { result ≤ 60 }
    {
        icmpv6_fits(self);
        self.header_len()
    }
}
