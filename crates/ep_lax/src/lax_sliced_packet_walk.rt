//! Lax slicing of a packet, layer by layer from the outside in, directly into the fields of the packet value.
//!
//! Each `fill_` function overwrites the fields of the layers that it is named for. It is inlined into the caller, so
//! that no layer is moved when it returns.

ghost use Rattle.std.specs.Prelude.{◌≡◌, ◌+◌, ◌++◌, ◌<◌, ◌^◌, [], length, false, Bool, List, ℕ, IfOk, IfErr, Option, Some};
ghost use Rattle.std.specs.Option.{ForSome, option_map};
ghost use Rattle.ep_base.specs.declared.err.ipv6_exts.HeaderSliceError.{HeaderSliceError};
ghost use Rattle.ep_ext.specs.Chains.{offset_of};
ghost use Rattle.ep_ext.specs.ExtensionParts.{auth_refusal};
ghost use Rattle.ep_ext.specs.ChainPrefixes.{chain_stop};
ghost use Rattle.ep_packet.specs.Frame.{only_ipv4, only_ipv6, only_arp, any_ip};
ghost use Rattle.ep_packet.specs.Walk.{net_kind_in};
ghost use Rattle.ep_lax.specs.Lax.{IsIpv4Net, IsIpv6Net};
ghost use Rattle.ep_ip.specs.LaxIp.{IsLaxIpv4, IsLaxIpv6};
ghost use Rattle.ep_lax.specs.LaxPackets.{ShowsLaxNet, lax_net_of};
ghost use Rattle.ep_ip.specs.LaxIp.{RefusesIpHeader};
ghost use Rattle.ep_lax.specs.LaxSlices.{lax_ipv4_of, lax_ipv4_slice_bytes, lax_ipv6_of, lax_ipv6_slice_bytes};
ghost use Rattle.ep_lax.specs.LaxWalk.{HasLaxExtensions, HoldsLaxInside, HoldsLaxNet, StopsAfterExtensions};

use crate::lax_ipv4_slice::LaxIpv4Slice;
use crate::lax_ipv6_slice::LaxIpv6Slice;
use crate::lax_link_ext_slice::LaxLinkExtSlice;
use crate::lax_net_slice::LaxNetSlice;
use crate::lax_stop::{auth_stop, chain_stop, clear_stop, error_with_layer, extension_stop};
use crate::lax_transport::fill_ip_payload;
use arrayvec::ArrayVec;
use ep_base::err::{Layer, LenError, ip, ip_auth, ipv4, ipv6, ipv6_exts};
use ep_base::{EtherType, LenSource, ether_type};
use ep_ip::lax::{of_ipv4_header, of_ipv6_header, unsupported};
use ep_link::ArpPacketSlice;
use ep_packet::err::SliceError;
use ep_transport::TransportSlice;

/// Bytes of a packet after its VLAN and MACsec tags, in which the network layer is sliced next.
#[derive(Drop)]
struct Inside<'a> {
    /// Offset in bytes of the network layer from the start of the packet.
    offset: usize,
    /// Ether type of the network layer; `None` if it is unknown.
    ether_type: Option<EtherType>,
    /// All bytes of the packet after its VLAN and MACsec tags.
    slice: &'a [u8],
    /// True if bytes are missing: the short length of a MACsec tag counts more bytes than are available.
    incomplete: bool,
}

/// Slices the bytes after a link header, with this ether type and at `offset` in the packet. Appends at most three VLAN
/// and MACsec tags to `link_exts`, which must be empty. Overwrites the network layer, the transport layer, and the
/// error at which slicing stopped. If the ether type is unknown, no layers are found.
#[inline(always)]
pub(crate) fn fill_inside<'a>(
    link_exts: &mut ArrayVec<LaxLinkExtSlice<'a>, 3>,
    net: &mut Option<LaxNetSlice<'a>>,
    transport: &mut Option<TransportSlice<'a>>,
    stop_err: &mut Option<(SliceError, Layer)>,
    offset: usize,
    ether_type: Option<EtherType>,
    slice: &'a [u8],
)
    requires place { offset + length slice.now < 2 ^ 64 }
    requires empty { link_exts.old.items ≡ [] }
    ensures { HoldsLaxInside offset ether_type slice.now link_exts.new.items net.new transport.new stop_err.new }
{
    match fill_extensions(link_exts, offset, ether_type, slice) {
        Ok(inside) => fill_net(net, transport, stop_err, inside),
        Err(error) => {
            *net = None;
            *transport = None;
            *stop_err = Some(error_with_layer(error));
        }
    }
}

/// Parses the VLAN and MACsec tags at the start of bytes with this ether type, which start at `offset` in the packet,
/// and appends them to `link_exts`. Parsing ends after three tags. Returns the bytes after the tags, or the error of
/// the first invalid tag.
#[inline(always)]
fn fill_extensions<'a>(
    link_exts: &mut ArrayVec<LaxLinkExtSlice<'a>, 3>,
    offset: usize,
    ether_type: Option<EtherType>,
    slice: &'a [u8],
) -> Result<Inside<'a>, SliceError>
    requires place { offset + length slice.now < 2 ^ 64 }
    requires empty { link_exts.old.items ≡ [] }
    ensures ok { IfOk result (λ inside. HasLaxExtensions offset ether_type slice.now link_exts.new.items
        inside.offset inside.ether_type inside.slice.now inside.incomplete) }
    ensures err { IfErr result (StopsAfterExtensions offset ether_type slice.now link_exts.new.items) }
{
    let mut inside = Inside {
        offset,
        ether_type,
        slice,
        incomplete: false,
    };
    while !link_exts.is_full() {
        let Some(known) = inside.ether_type else {
            return Ok(inside);
        };
        let extension = match LaxLinkExtSlice::read(known, inside.slice, inside.incomplete) {
            Ok(Some(extension)) => extension,
            Ok(None) => return Ok(inside),
            Err(error) => return Err(extension_stop(error, inside.offset)),
        };
        inside = Inside {
            offset: inside.offset + extension.header_len(),
            ether_type: extension.next_ether_type(),
            slice: extension.payload_slice(),
            incomplete: extension.incomplete_in(inside.incomplete),
        };
        link_exts.push(extension);
    }
    Ok(inside)
}

/// Slices the network layer by its ether type (IPv4, IPv6 or ARP), and the transport layer in it. Overwrites the
/// network layer, the transport layer, and the error at which slicing stopped. For any other ether type, all three
/// become `None`.
#[inline(always)]
fn fill_net<'a>(
    net: &mut Option<LaxNetSlice<'a>>,
    transport: &mut Option<TransportSlice<'a>>,
    stop_err: &mut Option<(SliceError, Layer)>,
    inside: Inside<'a>,
)
    requires { inside.offset + length inside.slice.now < 2 ^ 64 }
    ensures { HoldsLaxNet inside.entry.offset inside.entry.incomplete (net_kind_in inside.entry.ether_type)
        inside.entry.slice.now net.new transport.new stop_err.new }
{
    match inside.ether_type {
        Some(ether_type::IPV4) => fill_ipv4(net, transport, stop_err, inside),
        Some(ether_type::IPV6) => fill_ipv6(net, transport, stop_err, inside),
        Some(ether_type::ARP) => fill_arp(net, transport, stop_err, inside),
        _ => clear_layers(net, transport, stop_err),
    }
}

/// Sets the network layer, the transport layer and the error of a packet value to `None`. Not inlined, because
/// otherwise these fields would be zeroed for each packet.
#[inline(never)]
fn clear_layers<'a>(
    net: &mut Option<LaxNetSlice<'a>>,
    transport: &mut Option<TransportSlice<'a>>,
    stop_err: &mut Option<(SliceError, Layer)>,
)
    ensures net { net.new ≡ None }
    ensures transport { transport.new ≡ None }
    ensures stop { stop_err.new ≡ None }
{
    *net = None;
    *transport = None;
    *stop_err = None;
}

/// Slices an IPv4 packet and the transport layer in it. Overwrites the network layer, the transport layer, and the
/// error at which slicing stopped.
#[inline(always)]
fn fill_ipv4<'a>(
    net: &mut Option<LaxNetSlice<'a>>,
    transport: &mut Option<TransportSlice<'a>>,
    stop_err: &mut Option<(SliceError, Layer)>,
    inside: Inside<'a>,
)
    requires { inside.offset + length inside.slice.now < 2 ^ 64 }
    ensures { HoldsLaxNet inside.entry.offset inside.entry.incomplete (Some only_ipv4) inside.entry.slice.now
        net.new transport.new stop_err.new }
{
    let offset = inside.offset;
    let error = match LaxIpv4Slice::read(inside.slice, inside.incomplete) {
        Ok(read) => return fill_ipv4_packet(net, transport, stop_err, offset, read.0, read.1),
        Err(ipv4::HeaderSliceError::Len(error)) => SliceError::Len(error.add_offset(offset)),
        Err(ipv4::HeaderSliceError::Content(error)) => SliceError::Ipv4(error),
    };
    *net = None;
    *transport = None;
    *stop_err = Some(error_with_layer(error));
}

/// Slices an IPv6 packet and the transport layer in it. Overwrites the network layer, the transport layer, and the
/// error at which slicing stopped.
#[inline(always)]
fn fill_ipv6<'a>(
    net: &mut Option<LaxNetSlice<'a>>,
    transport: &mut Option<TransportSlice<'a>>,
    stop_err: &mut Option<(SliceError, Layer)>,
    inside: Inside<'a>,
)
    requires { inside.offset + length inside.slice.now < 2 ^ 64 }
    ensures { HoldsLaxNet inside.entry.offset inside.entry.incomplete (Some only_ipv6) inside.entry.slice.now
        net.new transport.new stop_err.new }
{
    let offset = inside.offset;
    let error = match LaxIpv6Slice::read(inside.slice, inside.incomplete) {
        Ok(read) => return fill_ipv6_packet(net, transport, stop_err, offset, read.0, read.1),
        Err(ipv6::HeaderSliceError::Len(error)) => SliceError::Len(error.add_offset(offset)),
        Err(ipv6::HeaderSliceError::Content(error)) => SliceError::Ipv6(error),
    };
    *net = None;
    *transport = None;
    *stop_err = Some(error_with_layer(error));
}

/// Slices an ARP packet. Overwrites the network layer and the error at which slicing stopped, and clears the transport
/// layer.
#[inline(always)]
fn fill_arp<'a>(
    net: &mut Option<LaxNetSlice<'a>>,
    transport: &mut Option<TransportSlice<'a>>,
    stop_err: &mut Option<(SliceError, Layer)>,
    inside: Inside<'a>,
)
    requires { inside.offset + length inside.slice.now < 2 ^ 64 }
    ensures { HoldsLaxNet inside.entry.offset inside.entry.incomplete (Some only_arp) inside.entry.slice.now
        net.new transport.new stop_err.new }
{
    *transport = None;
    match ArpPacketSlice::from_slice(inside.slice) {
        Ok(packet) => {
            *net = Some(LaxNetSlice::Arp(packet));
            clear_stop(stop_err);
        }
        Err(error) => {
            *net = None;
            *stop_err = Some(error_with_layer(SliceError::Len(error.add_offset(inside.offset))));
        }
    }
}

/// Slices an IPv4 or IPv6 packet without a link layer, and the transport layer in it. Overwrites the network layer, the
/// transport layer, and the error at which slicing stopped. An invalid IP header is returned as an error.
#[inline(always)]
pub(crate) fn fill_ip<'a>(
    net: &mut Option<LaxNetSlice<'a>>,
    transport: &mut Option<TransportSlice<'a>>,
    stop_err: &mut Option<(SliceError, Layer)>,
    slice: &'a [u8],
) -> Result<(), ip::LaxHeaderSliceError>
    ensures ok { IfOk result (λ _. HoldsLaxNet 0 false (Some any_ip) slice.now net.new transport.new stop_err.new) }
    ensures err { IfErr result (RefusesIpHeader slice.now) }
{
    if slice.len() == 0 {
        return Err(ip::LaxHeaderSliceError::Len(LenError::at_start(
            1,
            0,
            LenSource::Slice,
            Layer::IpHeader,
        )));
    }
    let version_number = slice[0] >> 4;
    if version_number == 4 {
        return match LaxIpv4Slice::read(slice, false) {
            Ok(read) => {
                fill_ipv4_packet(net, transport, stop_err, 0, read.0, read.1);
                Ok(())
            }
            Err(error) => Err(of_ipv4_header(error)),
        };
    }
    if version_number == 6 {
        return match LaxIpv6Slice::read(slice, false) {
            Ok(read) => {
                fill_ipv6_packet(net, transport, stop_err, 0, read.0, read.1);
                Ok(())
            }
            Err(error) => Err(of_ipv6_header(error)),
        };
    }
    Err(unsupported(version_number))
}

/// Stores a sliced IPv4 packet as the network layer, and slices the transport layer in it. The packet starts at
/// `offset`. If `refused` is the error of an invalid authentication header, slicing stops with it.
#[inline(always)]
fn fill_ipv4_packet<'a>(
    net: &mut Option<LaxNetSlice<'a>>,
    transport: &mut Option<TransportSlice<'a>>,
    stop_err: &mut Option<(SliceError, Layer)>,
    offset: usize,
    packet: LaxIpv4Slice<'a>,
    refused: Option<ip_auth::HeaderSliceError>,
)
    requires place { offset + length (lax_ipv4_slice_bytes packet) < 2 ^ 64 }
    requires stop { ForSome refused (λ error. offset_of (auth_refusal error) + offset < 2 ^ 64) }
    ensures { (outer : Bool) (bytes left : List ℕ) → bytes ≡ lax_ipv4_slice_bytes packet.entry ++ left
        → IsLaxIpv4 outer bytes (lax_ipv4_of packet.entry left refused)
        → IsIpv4Net offset outer bytes (lax_net_of outer net.new transport.new stop_err.new)
        × ShowsLaxNet bytes net.new transport.new }
{
    let stop = auth_stop(refused, offset);
    let inside = offset + packet.headers_len();
    fill_ip_payload(transport, stop_err, inside, packet.payload(), stop);
    *net = Some(LaxNetSlice::Ipv4(packet));
}

/// Stores a sliced IPv6 packet as the network layer, and slices the transport layer in it. The packet starts at
/// `offset`. If `refused` is the error of an invalid extension header (with its layer), slicing stops with it.
#[inline(always)]
fn fill_ipv6_packet<'a>(
    net: &mut Option<LaxNetSlice<'a>>,
    transport: &mut Option<TransportSlice<'a>>,
    stop_err: &mut Option<(SliceError, Layer)>,
    offset: usize,
    packet: LaxIpv6Slice<'a>,
    refused: Option<(ipv6_exts::HeaderSliceError, Layer)>,
)
    requires place { offset + length (lax_ipv6_slice_bytes packet) < 2 ^ 64 }
    requires stop { ForSome refused (λ read. offset_of read.0 + offset < 2 ^ 64) }
    ensures { (outer : Bool) (bytes left : List ℕ) (stop : Option HeaderSliceError)
        → bytes ≡ lax_ipv6_slice_bytes packet.entry ++ left → refused ≡ option_map chain_stop stop
        → IsLaxIpv6 outer bytes (lax_ipv6_of packet.entry left stop)
        → IsIpv6Net offset outer bytes (lax_net_of outer net.new transport.new stop_err.new)
        × ShowsLaxNet bytes net.new transport.new }
{
    let stop = chain_stop(refused, offset);
    let inside = offset + packet.headers_len();
    fill_ip_payload(transport, stop_err, inside, packet.payload(), stop);
    *net = Some(LaxNetSlice::Ipv6(packet));
}
