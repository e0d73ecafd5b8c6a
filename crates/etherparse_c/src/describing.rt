//! Describes the layers of a strictly sliced frame as numbers (kinds, offsets, lengths) in the struct `Packet` that C
//! reads.

ghost use Rattle.std.specs.Prelude.{◌≡◌, ◌+◌, ◌<◌, ◌≤◌, ◌^◌};
ghost use Rattle.std.specs.Option.{option_map};
ghost use Rattle.etherparse.specs.LinkSlices.{link_layer_of};
ghost use Rattle.etherparse.specs.Layers.{layers_of, net_layer_of};
ghost use Rattle.etherparse.specs.TransportParts.{transport_layer_of};
ghost use Rattle.etherparse_c.specs.Description.{description, destination_port_in, link_part, net_end, no_refusal, part};
ghost use Rattle.etherparse_c.specs.Description.{payload_end, payload_offset, source_number, source_port_in};
ghost use Rattle.etherparse_c.specs.Description.{transport_end, transport_kind, transport_len, with_headers};

use crate::net_part::{ip_part, net_part};
use crate::numbers;
use crate::packet::{Ip, LinkExt, Packet, Part, Payload, Refusal};
use crate::tags::describe_tags;
use etherparse::{LenSource, LinkSlice, NetSlice, SlicedPacket, TransportSlice};

/// Writes the description of a strictly sliced packet (kind, offset and length of each header) to the struct that C
/// reads. Each field is written in place, so that no second struct is built and copied.
#[inline(always)]
pub(crate) fn describe(described: &mut Packet, packet: &SlicedPacket<'_>)
    requires { payload_offset (layers_of packet.now) < 2 ^ 64 }
    ensures { described.new ≡ description (layers_of packet.now) }
{
    let link = link_part(&packet.link);
    let tags = describe_tags(packet.link_exts.as_slice(), link.len);
    let count = packet.link_exts.len() as u32;
    let net = net_part(&packet.net, tags.end);
    let ip = ip_part(&packet.net);
    let transport = &packet.transport;
    let offset = describe_headers(described, link, tags.slots, count, net, ip, transport);
    described.payload = Payload {
        len_source: source_number(payload_end(packet)),
        incomplete: 0,
        offset,
        len: packet.payload().len(),
    };
    described.refusal = no_refusal();
}

/// Writes the headers of a packet (link header, tags, network and transport header) to the struct that C reads, and
/// returns the offset of the payload in the frame. The caller passes finished descriptions of the link header, the tags
/// and the network header, and the slice of the transport header, which is described here.
#[inline(always)]
pub(crate) fn describe_headers(
    described: &mut Packet,
    link: Part,
    link_exts: [LinkExt; 3],
    link_ext_count: u32,
    net: Part,
    ip: Ip,
    transport: &Option<TransportSlice<'_>>,
) -> usize
    requires { net.offset + net.len + transport_len (option_map transport_layer_of transport.now) < 2 ^ 64 }
    ensures described { described.new ≡ with_headers link link_exts link_ext_count net ip
        (option_map transport_layer_of transport.now) described.old }
    ensures offset { result ≡ net.offset + net.len + transport_len (option_map transport_layer_of transport.now) }
{
    let transport_offset = net.offset + net.len;
    let part = transport_part(transport, transport_offset);
    described.link = link;
    described.link_exts = link_exts;
    described.link_ext_count = link_ext_count;
    described.source_port = source_port(transport);
    described.destination_port = destination_port(transport);
    described.net = net;
    described.ip = ip;
    described.transport = part;
    transport_offset + part.len
}

/// Returns the error struct that C reads for "no error": all fields are 0.
#[inline(always)]
pub(crate) fn no_refusal() -> Refusal
    ensures { result ≡ no_refusal }
{
    Refusal {
        kind: 0,
        layer: 0,
        len_source: 0,
        number: 0,
        required_len: 0,
        len: 0,
        layer_start_offset: 0,
    }
}

/// Returns kind, offset 0 and length of the link header (Ethernet II or Linux cooked capture); kind and length are 0 if
/// there is none.
#[inline(always)]
pub(crate) fn link_part(link: &Option<LinkSlice<'_>>) -> Part
    ensures { result ≡ link_part (option_map link_layer_of link.now) }
{
    match link {
        Some(LinkSlice::Ethernet2(frame)) => Part {
            kind: numbers::LINK_ETHERNET2,
            offset: 0,
            len: frame.header_len(),
        },
        Some(LinkSlice::LinuxSll(frame)) => Part {
            kind: numbers::LINK_LINUX_SLL,
            offset: 0,
            len: frame.header_len(),
        },
        Some(LinkSlice::EtherPayload(_) | LinkSlice::LinuxSllPayload(_)) | None => Part {
            kind: 0,
            offset: 0,
            len: 0,
        },
    }
}

/// Returns kind and length of the transport header at `offset` in the frame; both are 0 if there is none.
#[inline(always)]
pub(crate) fn transport_part(transport: &Option<TransportSlice<'_>>, offset: usize) -> Part
    ensures part { let layer = option_map transport_layer_of transport.now in
        result ≡ part (transport_kind layer) offset (transport_len layer) }
    ensures bound { result.len ≤ 60 }
{
    let Some(layer) = transport else {
        return Part {
            kind: 0,
            offset,
            len: 0,
        };
    };
    Part {
        kind: match layer {
            TransportSlice::Udp(_) => numbers::TRANSPORT_UDP,
            TransportSlice::Tcp(_) => numbers::TRANSPORT_TCP,
            TransportSlice::Icmpv4(_) => numbers::TRANSPORT_ICMPV4,
            TransportSlice::Icmpv6(_) => numbers::TRANSPORT_ICMPV6,
        },
        offset,
        len: layer.header_len(),
    }
}

/// Returns the source port of UDP or TCP, or 0 if there is no transport header or it is ICMP.
#[inline(always)]
pub(crate) fn source_port(transport: &Option<TransportSlice<'_>>) -> u16
    ensures { result ≡ source_port_in (option_map transport_layer_of transport.now) }
{
    match transport {
        Some(TransportSlice::Udp(datagram)) => datagram.source_port(),
        Some(TransportSlice::Tcp(segment)) => segment.source_port(),
        Some(TransportSlice::Icmpv4(_) | TransportSlice::Icmpv6(_)) | None => 0,
    }
}

/// Returns the destination port of UDP or TCP, or 0 if there is no transport header or it is ICMP.
#[inline(always)]
pub(crate) fn destination_port(transport: &Option<TransportSlice<'_>>) -> u16
    ensures { result ≡ destination_port_in (option_map transport_layer_of transport.now) }
{
    match transport {
        Some(TransportSlice::Udp(datagram)) => datagram.destination_port(),
        Some(TransportSlice::Tcp(segment)) => segment.destination_port(),
        Some(TransportSlice::Icmpv4(_) | TransportSlice::Icmpv6(_)) | None => 0,
    }
}

/// Returns the length field (of UDP, IP, ARP or MACsec) that limits the payload of the last layer, or `Slice` if only
/// the end of the frame does.
#[inline(always)]
fn payload_end(packet: &SlicedPacket<'_>) -> LenSource
    ensures { result ≡ payload_end (layers_of packet.now) }
{
    let outer = packet.extensions_len_source();
    transport_end(&packet.transport).limited_by(net_end(&packet.net).limited_by(outer))
}

/// Returns the length field of the IP header or ARP packet that limits its payload, or `Slice` if none does.
#[inline(always)]
fn net_end(net: &Option<NetSlice<'_>>) -> LenSource
    ensures { result ≡ net_end (option_map net_layer_of net.now) }
{
    match net {
        Some(NetSlice::Ipv4(packet)) => packet.payload().len_source,
        Some(NetSlice::Ipv6(packet)) => packet.payload().len_source,
        Some(NetSlice::Arp(_)) => LenSource::ArpAddrLengths,
        None => LenSource::Slice,
    }
}

/// Returns `UdpHeaderLen` if the transport layer is UDP and its length field limits the payload (it is not 0), or else
/// `Slice`.
#[inline(always)]
pub(crate) fn transport_end(transport: &Option<TransportSlice<'_>>) -> LenSource
    ensures { result ≡ transport_end (option_map transport_layer_of transport.now) }
{
    match transport {
        Some(TransportSlice::Udp(datagram)) => {
            if datagram.length() == 0 {
                LenSource::Slice
            } else {
                LenSource::UdpHeaderLen
            }
        }
        Some(TransportSlice::Tcp(_) | TransportSlice::Icmpv4(_) | TransportSlice::Icmpv6(_))
        | None => LenSource::Slice,
    }
}

/// Returns C's number of a length source: the length field that limits bytes (`enum etherparse_len_source` in
/// `etherparse.h`).
#[inline(always)]
pub(crate) fn source_number(source: LenSource) -> u32
    ensures { result ≡ source_number source }
{
    match source {
        LenSource::Slice => 0,
        LenSource::MacsecShortLength => 1,
        LenSource::Ipv4HeaderTotalLen => 2,
        LenSource::Ipv6HeaderPayloadLen => 3,
        LenSource::UdpHeaderLen => 4,
        LenSource::ArpAddrLengths => 5,
    }
}
