//! Describes the network layer (IPv4, IPv6 or ARP) of a sliced packet for C.

ghost use Rattle.std.specs.Prelude.{◌≡◌, ◌+◌, ◌<◌, ◌^◌, Some};
ghost use Rattle.std.specs.Option.{option_map};
ghost use Rattle.etherparse.specs.Bytes.{bit};
ghost use Rattle.etherparse.specs.IpPayload.{IpPayload};
ghost use Rattle.etherparse.specs.Ipv6ExtensionSlices.{ipv6_slice_parts};
ghost use Rattle.etherparse.specs.Ipv4Slices.{ipv4_header_slice_header, ipv4_slice_header, ipv4_slice_payload};
ghost use Rattle.etherparse.specs.FrameFragments.{first_fragment};
ghost use Rattle.etherparse.specs.LaxSlices.{lax_ipv4_slice_header, lax_ipv4_slice_payload};
ghost use Rattle.etherparse.specs.LaxViews.{lax_net_layer_of};
ghost use Rattle.etherparse.specs.Layers.{net_layer_of};
ghost use Rattle.etherparse_c.specs.Description.{ip_in, ipv4_part, ipv6_part, net_kind, net_len, no_ip, part};

use crate::numbers;
use crate::packet::{Ip, Part};
use etherparse::{
    IpNumber, Ipv4HeaderSlice, Ipv4Slice, Ipv6ExtensionSlice, Ipv6ExtensionsSlice, Ipv6Header,
    LaxIpv4Slice, LaxNetSlice, NetSlice,
};

/// Returns kind, offset and length of the network layer for C: the IP header with its extension headers, or the ARP
/// packet. Kind and length are 0 without a network layer. `offset` is the layer's offset in the frame.
#[inline(always)]
pub(crate) fn net_part(net: &Option<NetSlice<'_>>, offset: usize) -> Part
    ensures { let layer = option_map net_layer_of net.now in
        result ≡ part (net_kind layer) offset (net_len layer) }
{
    match net {
        Some(net) => net_layer_part(net, offset),
        None => no_net_part(offset),
    }
}

/// Returns kind, offset and length of a network layer for C: the IP header with its extension headers, or the ARP
/// packet. It is at `offset` in the frame.
#[inline(always)]
pub(crate) fn net_layer_part(net: &NetSlice<'_>, offset: usize) -> Part
    ensures part { let layer = Some (net_layer_of net.now) in
        result ≡ part (net_kind layer) offset (net_len layer) }
    ensures bound { result.len < 2 ^ 63 + 64 }
{
    Part {
        kind: match net {
            NetSlice::Ipv4(_) => numbers::NET_IPV4,
            NetSlice::Ipv6(_) => numbers::NET_IPV6,
            NetSlice::Arp(_) => numbers::NET_ARP,
        },
        offset,
        len: net.header_len(),
    }
}

/// Returns kind, offset and length of the network layer of a laxly sliced packet for C. Kind and length are 0 without a
/// network layer. `offset` is the layer's offset in the packet.
#[inline(always)]
pub(crate) fn lax_net_part(net: &Option<LaxNetSlice<'_>>, offset: usize) -> Part
    ensures { let layer = option_map lax_net_layer_of net.now in
        result ≡ part (net_kind layer) offset (net_len layer) }
{
    let Some(net) = net else {
        return no_net_part(offset);
    };
    Part {
        kind: match net {
            LaxNetSlice::Ipv4(_) => numbers::NET_IPV4,
            LaxNetSlice::Ipv6(_) => numbers::NET_IPV6,
            LaxNetSlice::Arp(_) => numbers::NET_ARP,
        },
        offset,
        len: net.header_len(),
    }
}

/// Returns the description for C of an absent network layer: kind and length 0, at the offset where it would be.
#[inline(always)]
fn no_net_part(offset: usize) -> Part
    ensures { result ≡ part 0 offset 0 }
{
    Part {
        kind: 0,
        offset,
        len: 0,
    }
}

/// Returns the fields of IPv4 or IPv6 that C gets (version, protocol, fragment fields, header length), all 0 if the
/// network layer is absent or ARP.
#[inline(always)]
pub(crate) fn ip_part(net: &Option<NetSlice<'_>>) -> Ip
    ensures { result ≡ ip_in (option_map net_layer_of net.now) }
{
    match net {
        Some(net) => ip_layer_part(net),
        None => no_ip(),
    }
}

/// Returns the fields of IPv4 or IPv6 that C gets (version, protocol, fragment fields, header length), all 0 for ARP.
#[inline(always)]
pub(crate) fn ip_layer_part(net: &NetSlice<'_>) -> Ip
    ensures { result ≡ ip_in (Some (net_layer_of net.now)) }
{
    match net {
        NetSlice::Ipv4(packet) => ipv4_part(packet),
        NetSlice::Ipv6(packet) => {
            let payload = packet.payload();
            ipv6_part(packet.extensions(), payload.ip_number, payload.fragmented)
        }
        NetSlice::Arp(_) => no_ip(),
    }
}

/// Returns the fields of IPv4 or IPv6 that C gets from a laxly sliced packet (version, protocol, fragment fields,
/// header length), all 0 if its network layer is absent or ARP.
#[inline(always)]
pub(crate) fn lax_ip_part(net: &Option<LaxNetSlice<'_>>) -> Ip
    ensures { result ≡ ip_in (option_map lax_net_layer_of net.now) }
{
    match net {
        Some(LaxNetSlice::Ipv4(packet)) => lax_ipv4_part(packet),
        Some(LaxNetSlice::Ipv6(packet)) => {
            let payload = packet.payload();
            ipv6_part(packet.extensions(), payload.ip_number, payload.fragmented)
        }
        Some(LaxNetSlice::Arp(_)) | None => no_ip(),
    }
}

/// Returns the IP fields that C gets of a packet without an IP header: all 0.
#[inline(always)]
fn no_ip() -> Ip
    ensures { result ≡ no_ip }
{
    Ip {
        version: 0,
        number: 0,
        fragmented: 0,
        more_fragments: 0,
        fragment_offset: 0,
        identification: 0,
        header_len: 0,
    }
}

/// Returns the IP fields that C gets of a strictly sliced IPv4 packet (version, protocol, fragment fields, header
/// length).
#[inline(always)]
fn ipv4_part(packet: &Ipv4Slice<'_>) -> Ip
    ensures { result ≡ ipv4_part (ipv4_slice_header packet.now) (ipv4_slice_payload packet.now) }
{
    let payload = packet.payload();
    ipv4_header_part(&packet.header(), payload.ip_number, payload.fragmented)
}

/// Returns the IP fields that C gets of a laxly sliced IPv4 packet (version, protocol, fragment fields, header length).
#[inline(always)]
fn lax_ipv4_part(packet: &LaxIpv4Slice<'_>) -> Ip
    ensures { result ≡ ipv4_part (lax_ipv4_slice_header packet.now) (lax_ipv4_slice_payload packet.now) }
{
    let payload = packet.payload();
    ipv4_header_part(&packet.header(), payload.ip_number, payload.fragmented)
}

/// Returns the IP fields that C gets of an IPv4 packet, from its header, the IP protocol number of its payload, and
/// whether the packet is a fragment.
#[inline(always)]
fn ipv4_header_part(header: &Ipv4HeaderSlice<'_>, number: IpNumber, fragmented: bool) -> Ip
    ensures { (payload : IpPayload) → payload.number ≡ number.0 → payload.fragmented ≡ fragmented
        → result ≡ ipv4_part (ipv4_header_slice_header header.now) payload }
{
    Ip {
        version: 4,
        number: number.0,
        fragmented: flag(fragmented),
        more_fragments: flag(header.more_fragments()),
        fragment_offset: header.fragment_offset().byte_offset(),
        identification: u32::from(header.identification()),
        header_len: header.header_len(),
    }
}

/// Returns the IP fields that C gets of an IPv6 packet. The fragment fields are those of its first fragment header, or
/// 0 if it has none.
#[inline(always)]
fn ipv6_part(extensions: Ipv6ExtensionsSlice<'_>, number: IpNumber, fragmented: bool) -> Ip
    ensures { (payload : IpPayload) → payload.number ≡ number.0 → payload.fragmented ≡ fragmented
        → result ≡ ipv6_part (first_fragment (ipv6_slice_parts extensions.entry)) payload }
{
    let base = Ip {
        version: 6,
        number: number.0,
        fragmented: flag(fragmented),
        more_fragments: 0,
        fragment_offset: 0,
        identification: 0,
        header_len: Ipv6Header::LEN,
    };
    for extension in extensions {
        if let Ipv6ExtensionSlice::Fragment(header) = extension {
            return Ip {
                more_fragments: flag(header.more_fragments()),
                fragment_offset: header.fragment_offset().byte_offset(),
                identification: header.identification(),
                ..base
            };
        }
    }
    base
}

/// Converts a flag to the number that C gets: 1 for true, 0 for false.
#[inline(always)]
pub(crate) fn flag(is_set: bool) -> u8
    ensures { result ≡ bit is_set }
{
    if is_set { 1 } else { 0 }
}
