//! Describes less frequent layers of plain frames (IP or ARP after Ethernet II and at most two VLAN tags, or IP without
//! a link header) from their slices: ARP, IP with extension headers or fragmented, and IP payloads other than UDP and
//! TCP.
//!
//! Each function that returns a `bool` returns false if the bytes are no valid layer of the kind that the function
//! describes. Fields of the description that the function wrote before are then meaningless.

ghost use Rattle.std.specs.Prelude.{◌≡◌, ◌≤◌, ◌<◌, ◌^◌, ◌+◌, Option, Some, false, true};
ghost use Rattle.std.specs.Option.{option_map};
ghost use Rattle.etherparse.specs.Frame.{IsTransportAfterNet, IsTransportIn, net_kind};
ghost use Rattle.etherparse.specs.Frame.{only_arp, only_ipv4, only_ipv6};
ghost use Rattle.etherparse.specs.IpPayload.{ip_payload_of};
ghost use Rattle.etherparse.specs.Layers.{net_layer_of, net_payload};
ghost use Rattle.etherparse.specs.Readings.{slices};
ghost use Rattle.etherparse.specs.TransportParts.{IsTransportPart, TransportLayer, payload_in, transport_layer_of};
ghost use Rattle.etherparse_c.specs.Plain.{DescribesNet, net_description, transport_description};

use crate::describing::{
    destination_port, source_number, source_port, transport_end, transport_part,
};
use crate::net_part::{ip_layer_part, net_layer_part};
use crate::packet::{Packet, Payload};
use etherparse::{
    ArpPacketSlice, EtherType, IpNumber, IpPayloadSlice, Ipv4Slice, Ipv6Slice, LenSource, NetSlice,
    TransportSlice, ether_type,
};

/// Describes the IPv4, IPv6 or ARP layer of an Ethernet payload, and the layers in it, in the struct that C reads.
/// Returns false for another ether type or invalid bytes. Not inlined, since unfragmented IP packets without extension
/// headers, which are more frequent, do not need it.
#[inline(never)]
pub(crate) fn describe_sliced(
    described: &mut Packet,
    offset: usize,
    ether_type: EtherType,
    slice: &[u8],
) -> bool
    requires { offset ≤ 64 }
    ensures { result ≡ true → DescribesNet (net_kind ether_type) slice.now offset described.old described.new }
{
    match ether_type {
        ether_type::IPV4 => describe_ipv4(described, offset, slice),
        ether_type::IPV6 => describe_ipv6(described, offset, slice),
        ether_type::ARP => describe_arp(described, offset, slice),
        _ => false,
    }
}

/// Describes an IPv4 packet in the struct that C reads; the packet is at `offset` in the frame. Returns false if it is
/// invalid; the struct's fields are then meaningless.
#[inline(always)]
fn describe_ipv4(described: &mut Packet, offset: usize, slice: &[u8]) -> bool
    requires { offset ≤ 64 }
    ensures { result ≡ true → DescribesNet (Some only_ipv4) slice.now offset described.old described.new }
{
    let Ok(packet) = Ipv4Slice::from_slice(slice) else {
        return false;
    };
    describe_layer(described, offset, &NetSlice::Ipv4(packet))
}

/// Describes an IPv6 packet in the struct that C reads; the packet is at `offset` in the frame. Returns false if it is
/// invalid; the struct's fields are then meaningless.
#[inline(always)]
fn describe_ipv6(described: &mut Packet, offset: usize, slice: &[u8]) -> bool
    requires { offset ≤ 64 }
    ensures { result ≡ true → DescribesNet (Some only_ipv6) slice.now offset described.old described.new }
{
    let Ok(packet) = Ipv6Slice::from_slice(slice) else {
        return false;
    };
    describe_layer(described, offset, &NetSlice::Ipv6(packet))
}

/// Describes an ARP packet in the struct that C reads; the packet is at `offset` in the frame. Returns false if it is
/// invalid; the struct's fields are then meaningless.
#[inline(always)]
fn describe_arp(described: &mut Packet, offset: usize, slice: &[u8]) -> bool
    requires { offset ≤ 64 }
    ensures { result ≡ true → DescribesNet (Some only_arp) slice.now offset described.old described.new }
{
    let Ok(packet) = ArpPacketSlice::from_slice(slice) else {
        return false;
    };
    describe_layer(described, offset, &NetSlice::Arp(packet))
}

/// Describes a sliced network layer (IPv4, IPv6 or ARP), and the transport layer in it, in the struct that C reads; the
/// layer is at `offset` in the frame. Returns false if the transport layer is invalid; the struct's fields are then
/// meaningless.
#[inline(always)]
fn describe_layer(described: &mut Packet, offset: usize, net: &NetSlice<'_>) -> bool
    requires { offset ≤ 64 }
    ensures { result ≡ true → ((transport : Option TransportLayer)
        × IsTransportAfterNet slices (net_payload (net_layer_of net.now)) transport
        × (described.new ≡ net_description offset (net_layer_of net.now) transport described.old)) }
{
    let header = net_layer_part(net, offset);
    let transport_offset = offset + header.len;
    described.net = header;
    described.ip = ip_layer_part(net);
    match net.ip_payload_ref() {
        Some(payload) => describe_transport(described, transport_offset, payload),
        None => {
            describe_transport_layer(
                described,
                transport_offset,
                &None,
                LenSource::ArpAddrLengths,
                &[],
            );
            true
        }
    }
}

/// Fills the transport and payload fields of the struct for C from an unfragmented IP payload. Returns false if the
/// transport layer is invalid. Not inlined, since the caller handles UDP and TCP, which are more frequent, without this
/// call.
#[inline(never)]
pub(crate) fn describe_unfragmented(
    described: &mut Packet,
    offset: usize,
    number: IpNumber,
    end: LenSource,
    bytes: &[u8],
) -> bool
    requires { offset < 2 ^ 63 + 256 }
    ensures { result ≡ true → ((transport : Option TransportLayer)
        × IsTransportPart slices number.0 false bytes.now transport
        × (described.new ≡ transport_description offset end bytes.now transport described.old)) }
{
    let payload = IpPayloadSlice {
        ip_number: number,
        fragmented: false,
        len_source: end,
        payload: bytes,
    };
    describe_transport(described, offset, &payload)
}

/// Describes the transport layer, if any, in an IP payload, and the payload after it, in the struct that C reads; the
/// IP payload is at `offset` in the frame. Returns false if the transport layer is invalid; the struct's fields are
/// then meaningless.
#[inline(always)]
fn describe_transport(described: &mut Packet, offset: usize, payload: &IpPayloadSlice<'_>) -> bool
    requires { offset < 2 ^ 63 + 256 }
    ensures { result ≡ true → ((transport : Option TransportLayer)
        × IsTransportIn slices (ip_payload_of payload.now) transport
        × (described.new ≡ transport_description offset payload.now.len_source payload.now.payload.now transport described.old)) }
{
    let Ok(transport) = TransportSlice::from_ip_number(
        payload.ip_number,
        payload.fragmented,
        payload.payload,
    ) else {
        return false;
    };
    describe_transport_layer(
        described,
        offset,
        &transport,
        payload.len_source,
        payload.payload,
    );
    true
}

/// Describes a sliced transport layer, if any, and the payload after it in the struct that C reads. Without a transport
/// layer, the payload is the IP payload.
#[inline(always)]
fn describe_transport_layer(
    described: &mut Packet,
    offset: usize,
    transport: &Option<TransportSlice<'_>>,
    end: LenSource,
    bytes: &[u8],
)
    requires { offset < 2 ^ 63 + 256 }
    ensures { described.new ≡ transport_description offset end bytes.now (option_map transport_layer_of transport.now) described.old }
{
    let header = transport_part(transport, offset);
    described.source_port = source_port(transport);
    described.destination_port = destination_port(transport);
    described.payload = Payload {
        len_source: source_number(transport_end(transport).limited_by(end)),
        incomplete: 0,
        offset: offset + header.len,
        len: payload_in(transport, bytes).len(),
    };
    described.transport = header;
}

/// Returns the payload of the transport layer, or `bytes`, the IP payload, if there is no transport layer.
#[inline(always)]
fn payload_in<'a>(transport: &Option<TransportSlice<'a>>, bytes: &'a [u8]) -> &'a [u8]
    ensures { result.now ≡ payload_in bytes.now (option_map transport_layer_of transport.now) }
{
    match transport {
        Some(layer) => layer.payload(),
        None => bytes,
    }
}
