//! Slicing of a packet from the outside in, layer by layer.
//!
//! On `Ok` a function has set each layer that is passed to it as a mutable reference. `net` and `transport` may have
//! any value before the call, but `link_exts` must be empty. On `Err` the content of these layers is unspecified. All
//! functions but `clear_layers` are inlined into the caller, so that no layer is moved when it is returned.

ghost use Rattle.std.specs.Prelude.{◌≡◌, ◌+◌, ◌<◌, ◌^◌, [], length, IfOk, IfErr, None, Some};
ghost use Rattle.std.specs.Option.{option_map};
ghost use Rattle.ep_base.specs.Readings.{slices};
ghost use Rattle.ep_base.specs.IpPayload.{ip_payload_of};
ghost use Rattle.ep_ext.specs.Ipv4Chains.{ipv4_slice_bytes};
ghost use Rattle.ep_transport.specs.TransportParts.{transport_layer_of};
ghost use Rattle.ep_packet.specs.Frame.{IsTransportAfterNet, IsTransportIn, most_link_exts};
ghost use Rattle.ep_packet.specs.Frame.{only_ipv4, only_ipv6, only_arp, any_ip};
ghost use Rattle.ep_packet.specs.Layers.{net_layer_of, net_payload};
ghost use Rattle.ep_packet.specs.FrameRefusals.{RefusesInside, RefusesNetPart, RefusesTransportAfterNet, RefusesTransportIn};
ghost use Rattle.ep_packet.specs.FrameRefusals.{net_payload_offset};
ghost use Rattle.ep_packet.specs.ShownBytes.{ShowsTransport, net_slice_bytes, net_slice_payload};
ghost use Rattle.ep_packet.specs.Walk.{HasExtensions, HasHeaders, HoldsInside, HoldsNet, net_kind_in};

use crate::err::SliceError;
use crate::net_slice::NetSlice;
use arrayvec::ArrayVec;
use ep_base::err::{ip, ipv4, ipv6, macsec, tcp};
use ep_base::{EtherType, IpPayloadSlice, ether_type};
use ep_ext::Ipv4ExtensionsSlice;
use ep_ip::{IpSlice, Ipv4Slice, Ipv6Header, Ipv6Slice};
use ep_link::{ArpPacketSlice, LinkExtSlice};
use ep_transport::TransportSlice;

/// Payload of the link layer, or of the last link extension (VLAN or MACsec tag) that was sliced.
#[derive(Drop)]
struct Inside<'a> {
    /// Offset of the payload from the start of the packet, in bytes.
    offset: usize,
    /// Ether type of the payload; `None` if it is unknown, as that of an encrypted MACsec payload.
    ether_type: Option<EtherType>,
    /// Bytes of the payload.
    slice: &'a [u8],
}

/// Slices the payload of a link layer, if its ether type is known: up to three link extensions, the network layer and
/// the transport layer. `offset` is the offset of the payload from the start of the packet. `in_place` is true if the
/// layers belong to a packet in memory, and false if they are local variables that should stay in registers.
#[inline(always)]
pub(crate) fn fill_inside<'a>(
    link_exts: &mut ArrayVec<LinkExtSlice<'a>, 3>,
    net: &mut Option<NetSlice<'a>>,
    transport: &mut Option<TransportSlice<'a>>,
    offset: usize,
    ether_type: Option<EtherType>,
    slice: &'a [u8],
    in_place: bool,
) -> Result<(), SliceError>
    requires place { offset + length slice.now < 2 ^ 64 }
    requires empty { link_exts.old.items ≡ [] }
    ensures ok { IfOk result (λ _. HoldsInside ether_type slice.now link_exts.new.items net.new transport.new) }
    ensures err { IfErr result (RefusesInside slices most_link_exts offset ether_type slice.now) }
{
    let inside = match fill_extensions(link_exts, offset, ether_type, slice) {
        Ok(inside) => inside,
        Err(error) => return Err(error),
    };
    fill_net(
        net,
        transport,
        inside.offset,
        inside.ether_type,
        inside.slice,
        in_place,
    )
}

/// Slices the link extensions (VLAN and MACsec tags) at the start of a link layer's payload, up to three, and returns
/// the payload after them. `offset` is the offset of the payload from the start of the packet, in bytes.
#[inline(always)]
fn fill_extensions<'a>(
    link_exts: &mut ArrayVec<LinkExtSlice<'a>, 3>,
    offset: usize,
    ether_type: Option<EtherType>,
    slice: &'a [u8],
) -> Result<Inside<'a>, SliceError>
    requires place { offset + length slice.now < 2 ^ 64 }
    requires empty { link_exts.old.items ≡ [] }
    ensures ok { IfOk result (λ inside. HasExtensions offset ether_type slice.now link_exts.new.items
        inside.offset inside.ether_type inside.slice.now) }
    ensures err { IfErr result (RefusesInside slices most_link_exts offset ether_type slice.now) }
{
    let mut inside = Inside {
        offset,
        ether_type,
        slice,
    };
    while !link_exts.is_full() {
        let Some(known) = inside.ether_type else {
            return Ok(inside);
        };
        let extension = match LinkExtSlice::from_ether_type(known, inside.slice) {
            Ok(Some(extension)) => extension,
            Ok(None) => return Ok(inside),
            Err(macsec::HeaderSliceError::Len(error)) => {
                return Err(SliceError::Len(error.add_offset(inside.offset)));
            }
            Err(macsec::HeaderSliceError::Content(error)) => return Err(SliceError::Macsec(error)),
        };
        inside = Inside {
            offset: inside.offset + extension.header_len(),
            ether_type: extension.next_ether_type(),
            slice: extension.payload_slice(),
        };
        link_exts.push(extension);
    }
    Ok(inside)
}

/// Slices the network layer (IPv4, IPv6 or ARP) that the ether type names, and the transport layer in it. Both are set
/// to `None` for other ether types. `offset` is the offset of the slice from the start of the packet; `in_place` is
/// false if the layers are local variables that should stay in registers.
#[inline(always)]
fn fill_net<'a>(
    net: &mut Option<NetSlice<'a>>,
    transport: &mut Option<TransportSlice<'a>>,
    offset: usize,
    ether_type: Option<EtherType>,
    slice: &'a [u8],
    in_place: bool,
) -> Result<(), SliceError>
    requires { offset + length slice.now < 2 ^ 64 }
    ensures ok { IfOk result (λ _. HoldsNet (net_kind_in ether_type) slice.now net.new transport.new) }
    ensures err { IfErr result (RefusesNetPart slices offset (net_kind_in ether_type) slice.now) }
{
    match ether_type {
        Some(ether_type::IPV4) => fill_ipv4(net, transport, offset, slice),
        Some(ether_type::IPV6) => fill_ipv6(net, transport, offset, slice),
        Some(ether_type::ARP) => fill_arp(net, transport, offset, slice),
        _ => {
            if in_place {
                clear_layers(net, transport);
            } else {
                *net = None;
                *transport = None;
            }
            Ok(())
        }
    }
}

/// Sets the network and the transport layer to `None`. It is not inlined: otherwise the space of the new values would
/// be zeroed for each packet. Local variables that a caller passes to it are kept in memory.
#[inline(never)]
fn clear_layers(net: &mut Option<NetSlice<'_>>, transport: &mut Option<TransportSlice<'_>>)
    ensures net { net.new ≡ None }
    ensures transport { transport.new ≡ None }
{
    *net = None;
    *transport = None;
}

/// Slices an IPv4 packet and the transport layer in it. `offset` is its offset from the start of the whole packet, in
/// bytes.
#[inline(always)]
fn fill_ipv4<'a>(
    net: &mut Option<NetSlice<'a>>,
    transport: &mut Option<TransportSlice<'a>>,
    offset: usize,
    slice: &'a [u8],
) -> Result<(), SliceError>
    requires { offset + length slice.now < 2 ^ 64 }
    ensures ok { IfOk result (λ _. HoldsNet (Some only_ipv4) slice.now net.new transport.new) }
    ensures err { IfErr result (RefusesNetPart slices offset (Some only_ipv4) slice.now) }
{
    let packet = match Ipv4Slice::from_slice(slice) {
        Ok(packet) => packet,
        Err(ipv4::SliceError::Len(error)) => return Err(SliceError::Len(error.add_offset(offset))),
        Err(ipv4::SliceError::Header(error)) => return Err(SliceError::Ipv4(error)),
        Err(ipv4::SliceError::Exts(error)) => return Err(SliceError::Ipv4Exts(error)),
    };
    let layer = NetSlice::Ipv4(packet);
    fill_transport(transport, offset, &layer)?;
    *net = Some(layer);
    Ok(())
}

/// Slices an IPv6 packet and the transport layer in it. `offset` is its offset from the start of the whole packet, in
/// bytes.
#[inline(always)]
fn fill_ipv6<'a>(
    net: &mut Option<NetSlice<'a>>,
    transport: &mut Option<TransportSlice<'a>>,
    offset: usize,
    slice: &'a [u8],
) -> Result<(), SliceError>
    requires { offset + length slice.now < 2 ^ 64 }
    ensures ok { IfOk result (λ _. HoldsNet (Some only_ipv6) slice.now net.new transport.new) }
    ensures err { IfErr result (RefusesNetPart slices offset (Some only_ipv6) slice.now) }
{
    let packet = match Ipv6Slice::from_slice(slice) {
        Ok(packet) => packet,
        Err(ipv6::SliceError::Len(error)) => return Err(SliceError::Len(error.add_offset(offset))),
        Err(ipv6::SliceError::Header(error)) => return Err(SliceError::Ipv6(error)),
        Err(ipv6::SliceError::Exts(error)) => return Err(SliceError::Ipv6Exts(error)),
    };
    let layer = NetSlice::Ipv6(packet);
    fill_transport(transport, offset, &layer)?;
    *net = Some(layer);
    Ok(())
}

/// Slices an IP packet without a link layer, version 4 or 6, and the transport layer in it.
#[inline(always)]
pub(crate) fn fill_ip<'a>(
    net: &mut Option<NetSlice<'a>>,
    transport: &mut Option<TransportSlice<'a>>,
    slice: &'a [u8],
) -> Result<(), SliceError>
    ensures ok { IfOk result (λ _. HoldsNet (Some any_ip) slice.now net.new transport.new) }
    ensures err { IfErr result (RefusesNetPart slices 0 (Some any_ip) slice.now) }
{
    let packet = match IpSlice::from_slice(slice) {
        Ok(packet) => packet,
        Err(ip::SliceError::Len(error)) => return Err(SliceError::Len(error)),
        Err(ip::SliceError::IpHeaders(error)) => return Err(match error {
            ip::HeadersError::Ip(error) => SliceError::Ip(error),
            ip::HeadersError::Ipv4Ext(error) => SliceError::Ipv4Exts(error),
            ip::HeadersError::Ipv6Ext(error) => SliceError::Ipv6Exts(error),
        }),
    };
    let layer = NetSlice::from(packet);
    fill_transport(transport, 0, &layer)?;
    *net = Some(layer);
    Ok(())
}

/// Slices an ARP packet, which has no transport layer. `offset` is its offset from the start of the whole packet, in
/// bytes.
#[inline(always)]
fn fill_arp<'a>(
    net: &mut Option<NetSlice<'a>>,
    transport: &mut Option<TransportSlice<'a>>,
    offset: usize,
    slice: &'a [u8],
) -> Result<(), SliceError>
    requires { offset + length slice.now < 2 ^ 64 }
    ensures ok { IfOk result (λ _. HoldsNet (Some only_arp) slice.now net.new transport.new) }
    ensures err { IfErr result (RefusesNetPart slices offset (Some only_arp) slice.now) }
{
    match ArpPacketSlice::from_slice(slice) {
        Ok(packet) => {
            *net = Some(NetSlice::Arp(packet));
            *transport = None;
            Ok(())
        }
        Err(error) => Err(SliceError::Len(error.add_offset(offset))),
    }
}

/// Slices the transport layer in the payload of an IP packet; sets it to `None` if its protocol is not supported, or
/// for a fragment or ARP. `offset` is the offset of the network layer from the start of the packet, in bytes.
#[inline(always)]
fn fill_transport<'a>(
    transport: &mut Option<TransportSlice<'a>>,
    offset: usize,
    net: &NetSlice<'a>,
) -> Result<(), SliceError>
    requires place { offset + length (net_slice_bytes net.now) < 2 ^ 64 }
    requires headers { HasHeaders net.now }
    ensures ok { IfOk result (λ _. IsTransportAfterNet slices (net_payload (net_layer_of net.now))
        (option_map transport_layer_of transport.new)) }
    ensures bytes { IfOk result (λ _. ShowsTransport (net_slice_payload net.now) transport.new) }
    ensures err { IfErr result (RefusesTransportAfterNet slices (offset + net_payload_offset (net_layer_of net.now))
        (net_payload (net_layer_of net.now))) }
{
    match net {
        NetSlice::Ipv4(packet) => {
            let extensions_len = ipv4_extensions_len(&packet.extensions());
            let headers_len = packet.header().header_len() + extensions_len;
            fill_transport_in(transport, offset + headers_len, packet.payload())
        }
        NetSlice::Ipv6(packet) => {
            let headers_len = Ipv6Header::LEN + packet.extensions().slice().len();
            fill_transport_in(transport, offset + headers_len, packet.payload())
        }
        NetSlice::Arp(_) => {
            *transport = None;
            Ok(())
        }
    }
}

/// Returns the length in bytes of the authentication header of an IPv4 packet; 0 without one.
#[inline(always)]
fn ipv4_extensions_len(extensions: &Ipv4ExtensionsSlice<'_>) -> usize
    ensures { result ≡ length (ipv4_slice_bytes extensions.now) }
{
    match &extensions.auth {
        Some(header) => header.slice().len(),
        None => 0,
    }
}

/// Slices the transport layer of an IP payload; sets it to `None` if its protocol is not supported, or for a fragment.
/// `offset` is the offset of the IP payload from the start of the packet, in bytes.
#[inline(always)]
fn fill_transport_in<'a>(
    transport: &mut Option<TransportSlice<'a>>,
    offset: usize,
    payload: &IpPayloadSlice<'a>,
) -> Result<(), SliceError>
    requires { offset < 2 ^ 64 }
    ensures ok { IfOk result (λ _.
        IsTransportIn slices (ip_payload_of payload.now) (option_map transport_layer_of transport.new)) }
    ensures bytes { IfOk result (λ _. ShowsTransport payload.now.payload.now transport.new) }
    ensures err { IfErr result (RefusesTransportIn slices offset (ip_payload_of payload.now)) }
{
    match TransportSlice::from_ip_number(payload.ip_number, payload.fragmented, payload.payload) {
        Ok(found) => {
            *transport = found;
            Ok(())
        }
        Err(tcp::HeaderSliceError::Len(error)) => {
            Err(SliceError::Len(error.after_header(offset, payload.len_source)))
        }
        Err(tcp::HeaderSliceError::Content(error)) => Err(SliceError::Tcp(error)),
    }
}
