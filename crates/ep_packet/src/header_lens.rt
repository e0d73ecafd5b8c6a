//! Lengths of the headers of a sliced packet, in strict and in lax slicing, and the payload of its link layer.

ghost use Rattle.std.specs.Prelude.{◌≡◌, ◌≤◌, ◌<◌, ◌+◌, ◌^◌, length};
ghost use Rattle.std.specs.Option.{option_map};
ghost use Rattle.ep_ext.specs.ExtensionParts.{part_len};
ghost use Rattle.ep_ext.specs.Ipv6ExtensionSlices.{extension_slice_bytes, extension_slice_part, ipv6_slice_parts};
ghost use Rattle.ep_link.specs.Arp.{arp_len};
ghost use Rattle.ep_link.specs.ArpSlices.{arp_slice_packet};
ghost use Rattle.ep_link.specs.LinkSlices.{link_layer_of};
ghost use Rattle.ep_transport.specs.TransportParts.{transport_layer_of};
ghost use Rattle.ep_packet.specs.FrameBytes.{link_payload};
ghost use Rattle.ep_packet.specs.Offsets.{link_len, parts_len, transport_len};

use ep_ext::{Ipv6ExtensionSlice, Ipv6ExtensionsSlice};
use ep_link::{ArpPacketSlice, LinkSlice};
use ep_transport::TransportSlice;

/// Returns the length of the link header in bytes, or 0 without one (Ethernet II: 14, Linux cooked capture: 16).
#[inline]
pub fn link_len(link: &Option<LinkSlice<'_>>) -> usize
    ensures value { result ≡ link_len (option_map link_layer_of link.now) }
    ensures bound { result ≤ 16 }
{
    match link {
        Some(link) => link.header_len(),
        None => 0,
    }
}

/// Returns the bytes after the link header; none without one.
#[inline(always)]
pub fn link_payload<'a>(link: &Option<LinkSlice<'a>>) -> &'a [u8]
    ensures { result.now ≡ link_payload (option_map link_layer_of link.now) }
{
    match link {
        Some(link) => link.payload_slice(),
        None => &[],
    }
}

/// Returns the length of an ARP packet in bytes.
pub fn arp_len(packet: &ArpPacketSlice<'_>) -> usize
    ensures value { result ≡ arp_len (arp_slice_packet packet.now) }
    ensures bound { result < 2 ^ 63 }
{
    let bytes = packet.slice();
    let len = packet.packet_len();
    prove!(len == bytes.len());
    len
}

/// Returns the summed length in bytes of the extension headers of an IPv6 packet, without the IPv6 header.
pub fn extensions_len(extensions: Ipv6ExtensionsSlice<'_>) -> usize
    ensures value { result ≡ parts_len (ipv6_slice_parts extensions.entry) }
    ensures bound { result < 2 ^ 63 }
{
    let all = extensions.slice();
    let mut len = 0;
    for extension in extensions {
        len += extension_len(&extension);
    }
    prove!(len <= all.len());
    len
}

/// Returns the length of one IPv6 extension header in bytes.
#[inline]
fn extension_len(extension: &Ipv6ExtensionSlice<'_>) -> usize
    ensures value { result ≡ part_len (extension_slice_part extension.now) }
    ensures bytes { result ≡ length (extension_slice_bytes extension.now) }
{
    match extension {
        Ipv6ExtensionSlice::HopByHop(header) => header.header_len(),
        Ipv6ExtensionSlice::Routing(header) => header.header_len(),
        Ipv6ExtensionSlice::Fragment(header) => header.header_len(),
        Ipv6ExtensionSlice::DestinationOptions(header) => header.header_len(),
        Ipv6ExtensionSlice::Authentication(header) => header.header_len(),
    }
}

/// Returns the length of the transport header in bytes; 0 without a transport layer.
#[inline]
pub fn transport_len(transport: &Option<TransportSlice<'_>>) -> usize
    ensures value { result ≡ transport_len (option_map transport_layer_of transport.now) }
    ensures bound { result ≤ 60 }
{
    match transport {
        Some(layer) => layer.header_len(),
        None => 0,
    }
}
