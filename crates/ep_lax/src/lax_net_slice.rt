//! Network layer (IPv4, IPv6 or ARP) in a slice, as lax slicing reads it.

ghost use Rattle.std.specs.Prelude.{◌≡◌, ◌<◌, ◌+◌, ◌^◌, ◌==◌, length};
ghost use Rattle.ep_ext.specs.Ipv6ExtensionSlices.{extension_slice_part, ipv6_slice_parts};
ghost use Rattle.ep_ip.specs.Ipv4.{ipv4_header_len};
ghost use Rattle.ep_packet.specs.Offsets.{net_layer_len, parts_len};
ghost use Rattle.ep_packet.specs.PayloadStarts.{are_first, is_first};
ghost use Rattle.ep_lax.specs.LaxSlices.{lax_ipv4_slice_extensions, lax_ipv4_slice_header};
ghost use Rattle.ep_lax.specs.LaxViews.{lax_net_layer_of};

use crate::lax_ipv4_slice::LaxIpv4Slice;
use crate::lax_ipv6_slice::LaxIpv6Slice;
use ep_base::LaxIpPayloadSlice;
use ep_ext::{Ipv6ExtensionSlice, Ipv6ExtensionsSlice};
use ep_ip::Ipv6Header;
use ep_link::ArpPacketSlice;
use ep_packet::header_lens::{arp_len, extensions_len};

/// Network layer of a packet (IPv4, IPv6 or ARP) read by lax slicing: its header is valid, bytes of an IP payload may
/// be missing.
#[derive(Clone, Debug, PartialEq, Eq, Drop)]
pub enum LaxNetSlice<'a> {
    /// IPv4 packet with a valid header; bytes of its payload may be missing.
    Ipv4(LaxIpv4Slice<'a>),
    /// IPv6 packet with a valid header; bytes of its payload may be missing.
    Ipv6(LaxIpv6Slice<'a>),
    /// Complete ARP packet.
    Arp(ArpPacketSlice<'a>),
}

impl<'a> LaxNetSlice<'a> {
    ghost use Rattle.std.specs.Prelude.{◌≡◌, ◌<◌, ◌+◌, ◌^◌, ℕ, IfSome, List, Some, length};
    ghost use Rattle.std.specs.Option.{option_copied, option_map};
    ghost use Rattle.ep_packet.specs.FrameBytes.{EncodesNet};
    ghost use Rattle.ep_packet.specs.Layers.{net_payload};
    ghost use Rattle.ep_packet.specs.Offsets.{net_layer_len};
    ghost use Rattle.ep_packet.specs.PayloadStarts.{begins_payload};
    ghost use Rattle.ep_base.specs.IpPayload.{lax_ip_payload_of};
    ghost use Rattle.ep_lax.specs.LaxViews.{lax_net_incomplete, lax_net_layer_of};

    /// Payload of the IPv4 or IPv6 packet; `None` for an ARP packet.
    #[inline]
    pub fn ip_payload_ref(&self) -> Option<&LaxIpPayloadSlice<'a>>
        ensures payload { option_map lax_ip_payload_of (option_copied result) ≡ net_payload (lax_net_layer_of self.now) }
        ensures incomplete { IfSome result (λ payload. payload.now.incomplete ≡ lax_net_incomplete self.now) }
    {
        match self {
            LaxNetSlice::Ipv4(packet) => Some(packet.payload()),
            LaxNetSlice::Ipv6(packet) => Some(packet.payload()),
            LaxNetSlice::Arp(_) => None,
        }
    }

    /// Returns true if an IP packet has the start of its payload: it is no fragment, or the first one (offset 0). False
    /// for ARP.
    #[inline]
    pub fn begins_payload(&self) -> bool
        ensures { result ≡ begins_payload (lax_net_layer_of self.now) }
    {
        match self {
            LaxNetSlice::Ipv4(packet) => packet.header().fragment_offset().value() == 0,
            LaxNetSlice::Ipv6(packet) => begin_payload(packet.extensions()),
            LaxNetSlice::Arp(_) => false,
        }
    }

    /// Length in bytes of the IP header together with its valid extension headers, or of the whole ARP packet.
    pub fn header_len(&self) -> usize
        ensures value { result ≡ net_layer_len (lax_net_layer_of self.now) }
        ensures bytes { (bytes : List ℕ) → EncodesNet (Some (lax_net_layer_of self.now)) bytes → length bytes ≡ result }
        ensures bound { result < 2 ^ 63 + 64 }
    {
        headers_len(self)
    }
}

/// Returns true if the payload after these extension headers of IPv6 has its start. The headers are read only if the
/// packet is a fragment.
#[tactic(auto, using(crate::proofs::PayloadStartLemmas::complete_begins))]
#[inline]
fn begin_payload(extensions: Ipv6ExtensionsSlice<'_>) -> bool
    ensures { result ≡ are_first (ipv6_slice_parts extensions.entry) }
{
    !extensions.is_fragmenting_payload() || are_first(extensions)
}

/// Returns true if the fragment offset of every IPv6 fragment header is 0.
#[inline(never)]
fn are_first(extensions: Ipv6ExtensionsSlice<'_>) -> bool
    ensures { result ≡ are_first (ipv6_slice_parts extensions.entry) }
{
    for extension in extensions {
        if !is_first(&extension) {
            return false;
        }
    }
    true
}

/// Returns true if an IPv6 extension header is no fragment header, or one with fragment offset 0.
fn is_first(extension: &Ipv6ExtensionSlice<'_>) -> bool
    ensures { result ≡ is_first (extension_slice_part extension.now) }
{
    match extension {
        Ipv6ExtensionSlice::Fragment(header) => header.fragment_offset().value() == 0,
        _ => true,
    }
}

/// Returns the length in bytes of the IP header together with its valid extension headers, or of the whole ARP packet.
fn headers_len(net: &LaxNetSlice<'_>) -> usize
    ensures value { result ≡ net_layer_len (lax_net_layer_of net.now) }
    ensures bound { result < 2 ^ 63 + 64 }
{
    match net {
        LaxNetSlice::Ipv4(packet) => ipv4_len(packet),
        LaxNetSlice::Ipv6(packet) => Ipv6Header::LEN + extensions_len(packet.extensions()),
        LaxNetSlice::Arp(packet) => arp_len(packet),
    }
}

/// Returns the length in bytes of an IPv4 header with its options and the authentication header, if present.
fn ipv4_len(packet: &LaxIpv4Slice<'_>) -> usize
    ensures value { result
        ≡ ipv4_header_len (lax_ipv4_slice_header packet.now) + parts_len (lax_ipv4_slice_extensions packet.now) }
    ensures bound { result < 2 ^ 63 + 64 }
{
    let header_len = packet.header_len();
    match &packet.extensions().auth {
        Some(header) => header_len + header.slice().len(),
        None => header_len,
    }
}
