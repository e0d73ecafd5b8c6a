//! The builders of frames that a network layer can follow next: those whose innermost header is a link header or a VLAN
//! tag.

ghost use Rattle.std.specs.Prelude.{◌≡◌};
ghost use Rattle.ep_link.specs.ArpSlices.{arp_of};
ghost use Rattle.ep_build.specs.BuiltFrames.{arp_frame_headers};
ghost use Rattle.ep_build.specs.Steps.{arp_step_frame, ip_link, ip_step_headers, vlan_link};
ghost use Rattle.ep_build.specs.Steps.{ipv4_headers_between, ipv6_headers_between, tag_of};

use super::holds_headers::CarriesNet;
use super::{PacketBuilderStep, ip_step_after, ipv4_between, ipv6_between};
use crate::ip_part::IpPart;
use crate::link_part::LinkPart;
use ep_base::{EtherType, VlanId, VlanPcp};
use ep_link::{ArpPacket, DoubleVlanHeader, Ethernet2Header, SingleVlanHeader, VlanHeader};
use ep_packet::IpHeaders;

impl<Link: CarriesNet> PacketBuilderStep<Link> {
    /// Appends an IPv4 header (RFC 791, 3.1) with these addresses and this time to live to the headers of the frame.
    /// "Don't fragment" is set, DSCP, ECN, identification and fragment offset are 0, and there are no options.
    #[inline(always)]
    pub fn ipv4(
        self,
        source: [u8; 4],
        destination: [u8; 4],
        time_to_live: u8,
    ) -> PacketBuilderStep<IpHeaders>
        ensures link { ip_link result ≡ Link.link self }
        ensures headers { ip_step_headers result ≡ ipv4_headers_between source destination time_to_live }
    {
        ip_step_after(
            Link::link_part(self),
            ipv4_between(source, destination, time_to_live),
        )
    }

    /// Appends an IPv6 header (RFC 8200, 3) with these addresses and this hop limit to the headers of the frame.
    /// Traffic class and flow label are 0.
    #[inline(always)]
    pub fn ipv6(
        self,
        source: [u8; 16],
        destination: [u8; 16],
        hop_limit: u8,
    ) -> PacketBuilderStep<IpHeaders>
        ensures link { ip_link result ≡ Link.link self }
        ensures headers { ip_step_headers result ≡ ipv6_headers_between source destination hop_limit }
    {
        ip_step_after(
            Link::link_part(self),
            ipv6_between(source, destination, hop_limit),
        )
    }

    /// Appends the given IP header and its extension headers to the headers of the frame.
    #[inline(always)]
    pub fn ip(self, ip_headers: IpHeaders) -> PacketBuilderStep<IpHeaders>
        ensures link { ip_link result ≡ Link.link self }
        ensures headers { ip_step_headers result ≡ ip_headers }
    {
        ip_step_after(Link::link_part(self), IpPart::Any(ip_headers))
    }

    /// Appends the given ARP packet (RFC 826), which ends the frame.
    #[inline(always)]
    pub fn arp(self, packet: ArpPacket) -> PacketBuilderStep<ArpPacket>
        ensures { arp_step_frame result ≡ arp_frame_headers (Link.link self) (arp_of packet) }
    {
        PacketBuilderStep {
            before: Link::link_part(self),
            last: packet,
        }
    }
}

impl PacketBuilderStep<Ethernet2Header> {
    /// Appends one or two VLAN tags (IEEE 802.1Q, 9.6) to the Ethernet II header of the frame.
    #[inline(always)]
    pub fn vlan(self, vlan: VlanHeader) -> PacketBuilderStep<VlanHeader>
        ensures { vlan_link result ≡ LinkPart.Tagged self.last vlan }
    {
        PacketBuilderStep {
            before: self.last,
            last: vlan,
        }
    }

    /// Appends a VLAN tag with this identifier to the Ethernet II header of the frame. Priority and drop eligible
    /// indicator are 0.
    #[inline(always)]
    pub fn single_vlan(self, vlan_identifier: VlanId) -> PacketBuilderStep<VlanHeader>
        ensures { vlan_link result ≡ LinkPart.Tagged self.last (VlanHeader.Single (tag_of vlan_identifier)) }
    {
        self.vlan(VlanHeader::Single(tag_of(vlan_identifier)))
    }

    /// Appends two VLAN tags with the given outer and inner identifier to the Ethernet II header of the frame.
    /// Priorities and drop eligible indicators are 0.
    #[inline(always)]
    pub fn double_vlan(
        self,
        outer_vlan_identifier: VlanId,
        inner_vlan_identifier: VlanId,
    ) -> PacketBuilderStep<VlanHeader>
        ensures { vlan_link result ≡ LinkPart.Tagged self.last (VlanHeader.Double (record {
          outer = tag_of outer_vlan_identifier;
          inner = tag_of inner_vlan_identifier;
        })) }
    {
        self.vlan(VlanHeader::Double(DoubleVlanHeader {
            outer: tag_of(outer_vlan_identifier),
            inner: tag_of(inner_vlan_identifier),
        }))
    }
}

/// Returns a VLAN tag with this identifier, whose other fields are 0.
#[inline(always)]
fn tag_of(identifier: VlanId) -> SingleVlanHeader
    ensures { result ≡ tag_of identifier }
{
    SingleVlanHeader {
        pcp: VlanPcp::ZERO,
        drop_eligible_indicator: false,
        vlan_id: identifier,
        ether_type: EtherType(0),
    }
}
