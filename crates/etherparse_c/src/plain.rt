//! Faster description of plain frames, the common case: IP or ARP after Ethernet II and at most two VLAN tags, or IP
//! without a link header. UDP and TCP after an IP header without extension headers are described while they are parsed,
//! without building a `SlicedPacket`. Other layers are first sliced, and then described from their slices.
//!
//! A function that parses or describes bytes returns false or `None` if they are invalid or not of the kind that the
//! function handles. Fields of the description that it wrote before are then meaningless.

ghost use Rattle.std.specs.Prelude.{◌≡◌, ◌≤◌, ◌⊎◌, IfSome, Option, Some, true};
ghost use Rattle.etherparse.specs.EtherTypes.{ipv4_type, ipv6_type};
ghost use Rattle.etherparse.specs.IpNumbers.{icmpv6_number, tcp_number, udp_number};
ghost use Rattle.etherparse.specs.Readings.{slices};
ghost use Rattle.etherparse.specs.Types.Entry.TheVariants.{Ethernet as ethernet, Ip as ip_entry};
ghost use Rattle.etherparse.specs.Frame.{IsFrame, IsTransportIn, net_kind};
ghost use Rattle.etherparse.specs.Frame.{only_ipv4, only_ipv6};
ghost use Rattle.etherparse.specs.Layers.{Layers};
ghost use Rattle.etherparse.specs.TransportParts.{TransportLayer};
ghost use Rattle.etherparse.specs.UdpSlices.{udp_slice_header};
ghost use Rattle.etherparse.specs.Types.TransportHeader.TheVariants as transport;
ghost use Rattle.etherparse_c.specs.Description.{description, header_end};
ghost use Rattle.etherparse_c.specs.Plain.{HasPlainIp, DescribesNet, plain_payload, plain_description};

use crate::describing::{no_refusal, source_number};
use crate::numbers;
use crate::packet::{Packet, Part, Payload};
use crate::sliced_net::{describe_sliced, describe_unfragmented};
use crate::tags::no_tag;
use crate::vlans::describe_vlans;
use etherparse::{
    EtherType, Ethernet2Header, Ethernet2Slice, IpNumber, Ipv4HeaderSlice, Ipv6Header,
    Ipv6HeaderSlice, LenSource, TcpHeader, TcpSlice, UdpHeader, UdpSlice, ether_type, ip_number,
};

/// Fields and payload of an unfragmented IP packet without extension headers. The payload is limited by the IP header's
/// length field, or by the end of the frame if the IPv6 payload length is 0.
#[derive(Drop)]
pub(crate) struct PlainIp<'a> {
    pub(crate) version: u8,
    /// Length of the IPv4 or IPv6 header in bytes.
    pub(crate) len: usize,
    pub(crate) identification: u32,
    pub(crate) number: IpNumber,
    /// Length field of the IP header that limits the payload, or `Slice` if the end of the frame does.
    pub(crate) end: LenSource,
    pub(crate) payload: &'a [u8],
}

/// Describes a frame in the struct that C reads, if it is plain: Ethernet II, at most two VLAN tags, then IP or ARP.
/// Returns false for any other or invalid frame; the struct's fields are then meaningless.
#[inline(always)]
pub(crate) fn describe_plain(described: &mut Packet, bytes: &[u8]) -> bool
    ensures { result ≡ true → ((layers : Layers) × IsFrame ethernet bytes.now layers
        × (described.new ≡ description layers)) }
{
    let Ok(frame) = Ethernet2Slice::from_slice_without_fcs(bytes) else {
        return false;
    };
    let Some(untagged) = describe_vlans(
        &mut described.link_exts,
        &mut described.link_ext_count,
        frame.ether_type(),
        frame.payload_slice(),
    ) else {
        return false;
    };
    described.link = Part {
        kind: numbers::LINK_ETHERNET2,
        offset: 0,
        len: Ethernet2Header::LEN,
    };
    described.refusal = no_refusal();
    describe_net(
        described,
        untagged.offset,
        untagged.ether_type,
        untagged.slice,
    )
}

/// Describes a packet that starts with an IP header in the struct that C reads. Returns false if it is invalid; the
/// struct's fields are then meaningless.
#[inline(always)]
pub(crate) fn describe_plain_ip(described: &mut Packet, bytes: &[u8]) -> bool
    ensures { result ≡ true → ((layers : Layers) × IsFrame ip_entry bytes.now layers
        × (described.new ≡ description layers)) }
{
    let Some(ether_type) = type_of_version(bytes) else {
        return false;
    };
    described.link = Part {
        kind: 0,
        offset: 0,
        len: 0,
    };
    described.link_exts = [no_tag(), no_tag(), no_tag()];
    described.link_ext_count = 0;
    described.refusal = no_refusal();
    describe_net(described, 0, ether_type, bytes)
}

/// Returns the ether type of a packet that starts with an IP header: IPv4 if its version is 4, else IPv6; `None` if
/// there are no bytes.
#[inline(always)]
fn type_of_version(slice: &[u8]) -> Option<EtherType>
    ensures { IfSome result (λ type. (type.0 ≡ ipv4_type) ⊎ (type.0 ≡ ipv6_type)) }
{
    if slice.is_empty() {
        return None;
    }
    if slice[0] >> 4 == 4 {
        return Some(ether_type::IPV4);
    }
    Some(ether_type::IPV6)
}

/// Describes the IPv4, IPv6 or ARP layer of an Ethernet payload with this ether type, and the layers in it, in the
/// struct that C reads; the layer is at `offset` in the frame. Returns false for another ether type or invalid bytes;
/// the struct's fields are then meaningless.
#[inline(always)]
fn describe_net(described: &mut Packet, offset: usize, ether_type: EtherType, slice: &[u8]) -> bool
    requires { offset ≤ 64 }
    ensures { result ≡ true → DescribesNet (net_kind ether_type) slice.now offset described.old described.new }
{
    let Some(ip) = ip(ether_type, slice) else {
        return describe_sliced(described, offset, ether_type, slice);
    };
    describe_ip(described, offset, &ip)
}

/// Parses an unfragmented IP packet without extension headers; the ether type states whether it is IPv4 or IPv6. An
/// IPv6 packet is parsed only if its next header is UDP, TCP or ICMPv6. Returns `None` for any other ether type, other
/// packets and invalid bytes.
#[inline(always)]
fn ip<'a>(ether_type: EtherType, slice: &'a [u8]) -> Option<PlainIp<'a>>
    ensures { IfSome result (HasPlainIp (net_kind ether_type) slice.now) }
{
    match ether_type {
        ether_type::IPV4 => ipv4(slice),
        ether_type::IPV6 => ipv6(slice),
        _ => None,
    }
}

/// Parses an unfragmented IPv4 packet without an authentication header. Returns `None` for other packets and invalid
/// bytes.
#[inline(always)]
fn ipv4<'a>(slice: &'a [u8]) -> Option<PlainIp<'a>>
    ensures { IfSome result (HasPlainIp (Some only_ipv4) slice.now) }
{
    let Ok(header) = Ipv4HeaderSlice::from_slice(slice) else {
        return None;
    };
    let len = header.header_len();
    let total_len = header.total_len() as usize;
    if total_len < len || slice.len() < total_len {
        return None;
    }
    let number = header.protocol();
    if header.is_fragmenting_payload() || number == ip_number::AUTHENTICATION_HEADER {
        return None;
    }
    Some(PlainIp {
        version: 4,
        len,
        identification: u32::from(header.identification()),
        number,
        end: LenSource::Ipv4HeaderTotalLen,
        payload: &slice[len..total_len],
    })
}

/// Parses an IPv6 packet whose next header is UDP, TCP or ICMPv6. Returns `None` for other packets and invalid bytes.
#[inline(always)]
fn ipv6<'a>(slice: &'a [u8]) -> Option<PlainIp<'a>>
    ensures { IfSome result (HasPlainIp (Some only_ipv6) slice.now) }
{
    let Ok((header, payload, end)) = Ipv6HeaderSlice::from_packet_slice(slice) else {
        return None;
    };
    let number = header.next_header();
    if !ends_chain(number) {
        return None;
    }
    Some(PlainIp {
        version: 6,
        len: Ipv6Header::LEN,
        identification: 0,
        number,
        end,
        payload,
    })
}

/// Returns whether the next header of IPv6 is UDP, TCP or ICMPv6, and so no extension header.
#[inline(always)]
fn ends_chain(number: IpNumber) -> bool
    ensures { result ≡ true
        → (number.0 ≡ udp_number) ⊎ (number.0 ≡ tcp_number) ⊎ (number.0 ≡ icmpv6_number) }
{
    number == IpNumber::UDP || number == IpNumber::TCP || number == IpNumber::IPV6_ICMP
}

/// Returns `UdpHeaderLen` if the length field of UDP limits the datagram's payload, or `Slice` if that field is 0.
#[inline(always)]
fn datagram_end(datagram: &UdpSlice<'_>) -> LenSource
    ensures { result ≡ header_end (transport.Udp (udp_slice_header datagram.now)) }
{
    if datagram.length() == 0 {
        LenSource::Slice
    } else {
        LenSource::UdpHeaderLen
    }
}

/// Describes an unfragmented IP packet without extension headers, and the transport layer in it, in the struct that C
/// reads; the packet is at `offset` in the frame. Returns false if the transport layer is invalid; the struct's fields
/// are then meaningless.
#[inline(always)]
fn describe_ip(described: &mut Packet, offset: usize, ip: &PlainIp<'_>) -> bool
    requires offset { offset ≤ 64 }
    requires len { ip.now.len ≤ 64 }
    ensures { result ≡ true → ((transport : Option TransportLayer)
        × IsTransportIn slices (plain_payload ip.now) transport
        × (described.new ≡ plain_description offset ip.now transport described.old)) }
{
    let transport_offset = offset + ip.len;
    // Field by field, so that nothing is written between the fields.
    described.net.kind = u32::from(ip.version);
    described.net.offset = offset;
    described.net.len = ip.len;
    described.ip.version = ip.version;
    described.ip.number = ip.number.0;
    described.ip.fragmented = 0;
    described.ip.more_fragments = 0;
    described.ip.fragment_offset = 0;
    described.ip.identification = ip.identification;
    described.ip.header_len = ip.len;
    if ip.number == IpNumber::UDP {
        let Ok(datagram) = UdpSlice::from_slice(ip.payload) else {
            return false;
        };
        described.source_port = datagram.source_port();
        described.destination_port = datagram.destination_port();
        described.transport = Part {
            kind: numbers::TRANSPORT_UDP,
            offset: transport_offset,
            len: UdpHeader::LEN,
        };
        described.payload = Payload {
            len_source: source_number(datagram_end(&datagram).limited_by(ip.end)),
            incomplete: 0,
            offset: transport_offset + UdpHeader::LEN,
            len: datagram.payload().len(),
        };
        return true;
    }
    if ip.number == IpNumber::TCP {
        let Ok(segment) = TcpSlice::from_slice(ip.payload) else {
            return false;
        };
        let len = TcpHeader::MIN_LEN + segment.options().len();
        described.source_port = segment.source_port();
        described.destination_port = segment.destination_port();
        described.transport = Part {
            kind: numbers::TRANSPORT_TCP,
            offset: transport_offset,
            len,
        };
        described.payload = Payload {
            len_source: source_number(ip.end),
            incomplete: 0,
            offset: transport_offset + len,
            len: segment.payload().len(),
        };
        return true;
    }
    describe_unfragmented(described, transport_offset, ip.number, ip.end, ip.payload)
}
