//! Building frames header by header, from the link header to the payload.

ghost use Rattle.std.specs.Prelude.{◌≡◌};
ghost use Rattle.ep_build.specs.Steps.{ipv4_headers_between, ipv6_headers_between, part_headers};

use crate::ip_part::IpPart;
use crate::link_part::LinkPart;
use ep_base::EtherType;
use ep_ip::{Ipv4Header, Ipv6Header};
use ep_link::{
    ArpHardwareId, Ethernet2Header, LinuxSllHeader, LinuxSllPacketType, LinuxSllProtocolType,
};
use ep_packet::IpHeaders;

mod arp_step;
mod holds_headers;
mod ip_step;
mod link_steps;
mod tcp_step;
mod transport_steps;

use holds_headers::HoldsHeaders;

/// Starts building a frame: its functions return a builder that contains the frame's outermost header.
pub struct PacketBuilder {}

/// Builder of a frame that contains its headers so far; `LastStep` is the innermost one. Ether types, protocol numbers,
/// lengths and checksums are filled in when the frame is written, whatever the headers contain.
#[derive(Drop)]
pub struct PacketBuilderStep<LastStep: HoldsHeaders> {
    /// Headers of the frame before the innermost one.
    before: LastStep::Before,
    /// Innermost header of the frame so far.
    last: LastStep::Last,
}

impl PacketBuilder {
    ghost use Rattle.ep_build.specs.Steps.{ethernet2_link, linux_sll_link, ip_link, ip_step_headers, no_type};
    ghost use Rattle.ep_link.specs.LinuxSll.{ethernet_hardware};
    ghost use Rattle.ep_link.specs.declared.link.linux_sll_protocol_type.LinuxSllProtocolType.TheVariants as protocol;

    /// Begins a frame with an Ethernet II header (IEEE 802.3, clause 3) with these MAC addresses.
    #[inline(always)]
    pub fn ethernet2(source: [u8; 6], destination: [u8; 6]) -> PacketBuilderStep<Ethernet2Header>
        ensures { ethernet2_link result ≡ LinkPart.Ethernet2 (record {
          source = source;
          destination = destination;
          ether_type = no_type;
        }) }
    {
        PacketBuilderStep {
            before: (),
            last: Ethernet2Header {
                source,
                destination,
                ether_type: EtherType(0),
            },
        }
    }

    /// Begins a frame with a Linux cooked capture header (SLL v1) of an Ethernet device, with the given packet type
    /// (direction), and sender address with its length in bytes.
    #[inline(always)]
    pub fn linux_sll(
        packet_type: LinuxSllPacketType,
        sender_address_valid_length: u16,
        sender_address: [u8; 8],
    ) -> PacketBuilderStep<LinuxSllHeader>
        ensures { linux_sll_link result ≡ LinkPart.LinuxSll (record {
          packet_type = packet_type;
          arp_hrd_type = record { 0 = ethernet_hardware };
          sender_address_valid_length = sender_address_valid_length;
          sender_address = sender_address;
          protocol_type = protocol.EtherType no_type;
        }) }
    {
        PacketBuilderStep {
            before: (),
            last: LinuxSllHeader {
                packet_type,
                arp_hrd_type: ArpHardwareId::ETHERNET,
                sender_address_valid_length,
                sender_address,
                protocol_type: LinuxSllProtocolType::EtherType(EtherType(0)),
            },
        }
    }

    /// Begins a frame with an IPv4 header (RFC 791, 3.1) with these addresses and this time to live. "Don't fragment"
    /// is set, DSCP, ECN, identification and fragment offset are 0, and there are no options.
    #[inline(always)]
    pub fn ipv4(
        source: [u8; 4],
        destination: [u8; 4],
        time_to_live: u8,
    ) -> PacketBuilderStep<IpHeaders>
        ensures link { ip_link result ≡ LinkPart.Absent }
        ensures headers { ip_step_headers result ≡ ipv4_headers_between source destination time_to_live }
    {
        ip_step_after(
            LinkPart::Absent,
            ipv4_between(source, destination, time_to_live),
        )
    }

    /// Begins a frame with an IPv6 header (RFC 8200, 3) with these addresses and this hop limit. Traffic class and flow
    /// label are 0.
    #[inline(always)]
    pub fn ipv6(
        source: [u8; 16],
        destination: [u8; 16],
        hop_limit: u8,
    ) -> PacketBuilderStep<IpHeaders>
        ensures link { ip_link result ≡ LinkPart.Absent }
        ensures headers { ip_step_headers result ≡ ipv6_headers_between source destination hop_limit }
    {
        ip_step_after(
            LinkPart::Absent,
            ipv6_between(source, destination, hop_limit),
        )
    }

    /// Begins a frame with the given IP header and its extension headers, without a link header.
    #[inline(always)]
    pub fn ip(ip_headers: IpHeaders) -> PacketBuilderStep<IpHeaders>
        ensures link { ip_link result ≡ LinkPart.Absent }
        ensures headers { ip_step_headers result ≡ ip_headers }
    {
        ip_step_after(LinkPart::Absent, IpPart::Any(ip_headers))
    }
}

/// Returns the builder of a frame with the given link header and IP headers.
#[inline(always)]
fn ip_step_after(link: LinkPart, headers: IpPart) -> PacketBuilderStep<IpHeaders>
    ensures { result ≡ record { before = link; last = headers } }
{
    PacketBuilderStep {
        before: link,
        last: headers,
    }
}

/// Returns an IPv4 header with these addresses and this time to live. "Don't fragment" is set, and the other fields
/// have their default values.
#[inline(always)]
fn ipv4_between(source: [u8; 4], destination: [u8; 4], time_to_live: u8) -> IpPart
    ensures { part_headers result ≡ ipv4_headers_between source destination time_to_live }
{
    let header = Ipv4Header {
        time_to_live,
        source,
        destination,
        ..Default::default()
    };
    IpPart::Plain4(header)
}

/// Returns an IPv6 header with these addresses and this hop limit. The other fields have their default values.
#[inline(always)]
fn ipv6_between(source: [u8; 16], destination: [u8; 16], hop_limit: u8) -> IpPart
    ensures { part_headers result ≡ ipv6_headers_between source destination hop_limit }
{
    let header = Ipv6Header {
        hop_limit,
        source,
        destination,
        ..Default::default()
    };
    IpPart::Plain6(header)
}
