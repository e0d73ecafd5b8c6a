//! Payloads, VLAN tags and offsets of a packet read by lax slicing.

ghost use Rattle.std.specs.Prelude.{◌≡◌, ◌≤◌, ◌<◌, ◌+◌, ◌^◌, ℕ, false, IfSome, List, drop, length, map};
ghost use Rattle.std.specs.Option.{option_copied, option_map};
ghost use Rattle.ep_base.specs.LaxCut.{is_missing};
ghost use Rattle.ep_base.specs.declared.len_source.LenSource.TheVariants as source;
ghost use Rattle.ep_transport.specs.TransportParts.{transport_layer_of};
ghost use Rattle.ep_packet.specs.FrameBytes.{AreInOrder, last_payload, link_payload, payload_after_exts};
ghost use Rattle.ep_packet.specs.Layers.{carries_fragment, ip_payload_in};
ghost use Rattle.ep_packet.specs.Offsets.{net_len, payload_offset, tag_len, tags_len};
ghost use Rattle.ep_packet.specs.ShownBytes.{BeginsWith};
ghost use Rattle.ep_packet.specs.VlanTags.{outer_tags, vlan_ids_in};
ghost use Rattle.ep_lax.specs.LaxPackets.{extensions_incomplete, lax_layers_of, transport_incomplete};
ghost use Rattle.ep_lax.specs.LaxPayloads.{lax_ether_payload_in, lax_ether_payload_of, lax_vlan_slices, source_after};
ghost use Rattle.ep_base.specs.IpPayload.{lax_ip_payload_of};
ghost use Rattle.ep_lax.specs.LaxViews.{lax_extension_of, lax_net_layer_of};
ghost use Rattle.ep_lax.specs.StrictFrames.{layers_in};

use crate::lax_ether_payload_slice::LaxEtherPayloadSlice;
use crate::lax_link_ext_slice::LaxLinkExtSlice;
use crate::lax_net_slice::LaxNetSlice;
use crate::lax_sliced_packet::LaxSlicedPacket;
use arrayvec::ArrayVec;
use ep_base::{LaxIpPayloadSlice, LenSource, VlanId};
use ep_link::VlanSlice;
use ep_packet::header_lens::{link_len, link_payload, transport_len};
use ep_packet::vlan_tags::double_vlan;
use ep_transport::TransportSlice;

impl<'a> LaxSlicedPacket<'a> {
    /// Returns the bytes after the link header and all VLAN and MACsec tags, with their ether type, and whether some of
    /// them are missing. Returns `None` if the packet has neither a link layer nor a tag, or if the ether type is
    /// unknown. After tags, the source of the length is the MACsec short length, if it limits the bytes, else the end
    /// of the slice. The bytes are returned even if no network layer was read from them.
    pub fn ether_payload(&self) -> Option<LaxEtherPayloadSlice<'a>>
        ensures { option_map lax_ether_payload_of result ≡ lax_ether_payload_in (lax_layers_of self.now) }
    {
        let Some(last) = self.link_exts.last() else {
            let payload = self.link.as_ref()?.ether_payload()?;
            return Some(LaxEtherPayloadSlice {
                incomplete: false,
                ether_type: payload.ether_type,
                len_source: payload.len_source,
                payload: payload.payload,
            });
        };
        let ether_type = last.next_ether_type()?;
        Some(LaxEtherPayloadSlice {
            incomplete: self.extensions_incomplete(),
            ether_type,
            len_source: self.extensions_len_source(),
            payload: last.payload_slice(),
        })
    }

    /// Returns true if bytes of the payload after the last VLAN or MACsec tag are missing; false without tags.
    fn extensions_incomplete(&self) -> bool
        ensures { result ≡ extensions_incomplete false self.now.link_exts.items }
    {
        let mut incomplete = false;
        for extension in self.link_exts.iter() {
            incomplete = extension.incomplete_in(incomplete);
        }
        incomplete
    }

    /// Returns the source of the length of the bytes after all VLAN and MACsec tags: the MACsec short length, if it
    /// limits them, else the end of the slice.
    fn extensions_len_source(&self) -> LenSource
        ensures { result ≡ source_after source.Slice (map lax_extension_of self.now.link_exts.items) }
    {
        let mut len_source = LenSource::Slice;
        for extension in self.link_exts.iter() {
            len_source = extension.len_source_in(len_source);
        }
        len_source
    }

    /// Payload of the packet's IPv4 or IPv6 layer; `None` if the network layer is ARP or absent.
    #[inline]
    pub fn ip_payload(&self) -> Option<&LaxIpPayloadSlice<'a>>
        ensures payload { option_map lax_ip_payload_of (option_copied result)
            ≡ ip_payload_in (layers_in (lax_layers_of self.now)) }
        ensures incomplete { IfSome result
            (λ payload. payload.now.incomplete ≡ (lax_layers_of self.now).net.incomplete) }
    {
        match &self.net {
            Some(net) => net.ip_payload_ref(),
            None => None,
        }
    }

    /// Returns true if the payload of the packet's IPv4 or IPv6 layer is a fragment; false without an IP layer.
    #[inline]
    pub fn is_ip_payload_fragmented(&self) -> bool
        ensures { result ≡ carries_fragment (layers_in (lax_layers_of self.now)) }
    {
        match self.ip_payload() {
            Some(payload) => payload.fragmented,
            None => false,
        }
    }

    /// Returns the outermost VLAN tag of the packet, or the outermost two, if there are two or more; `None` without
    /// VLAN tags.
    pub fn vlan(&self) -> Option<VlanSlice<'a>>
        ensures { result ≡ outer_tags (lax_vlan_slices self.now.link_exts.items) }
    {
        let mut outer = None;
        for extension in self.link_exts.iter() {
            if let LaxLinkExtSlice::Vlan(tag) = extension {
                match outer {
                    None => outer = Some(tag.clone().unwrap()),
                    Some(outer) => return Some(double_vlan(outer, tag)),
                }
            }
        }
        Some(VlanSlice::SingleVlan(outer?))
    }

    /// Returns the VLAN identifiers of all VLAN tags of the packet, from the outside in.
    pub fn vlan_ids(&self) -> ArrayVec<VlanId, 3>
        ensures { result.items ≡ vlan_ids_in (layers_in (lax_layers_of self.now)).link_exts }
    {
        self.ids_of_tags()
    }

    /// Collects the VLAN identifiers of all VLAN tags among the packet's link extensions, from the outside in; MACsec
    /// tags are skipped.
    fn ids_of_tags(&self) -> ArrayVec<VlanId, 3>
        ensures { result.items ≡ vlan_ids_in (map lax_extension_of self.now.link_exts.items) }
    {
        let mut ids = ArrayVec::new();
        for extension in self.link_exts.iter() {
            if let LaxLinkExtSlice::Vlan(tag) = extension {
                ids.push(tag.vlan_identifier());
            }
        }
        ids
    }

    /// Returns the payload of the packet's last layer, limited to the available bytes; empty after an ARP packet. If
    /// lax slicing stopped at an error, the payload begins with the rejected layer.
    #[inline]
    pub fn payload(&self) -> &'a [u8]
        ensures { result.now ≡ last_payload (layers_in (lax_layers_of self.now)) }
    {
        if let Some(transport) = &self.transport {
            return transport.payload();
        }
        match &self.net {
            Some(LaxNetSlice::Ipv4(packet)) => packet.payload().payload,
            Some(LaxNetSlice::Ipv6(packet)) => packet.payload().payload,
            Some(LaxNetSlice::Arp(_)) => &[],
            None => self.payload_after_link_exts(),
        }
    }

    /// Returns the offset in bytes of the last layer's payload from the start of the packet: the total length of all
    /// valid headers and tags.
    pub fn payload_offset(&self) -> usize
        ensures value { result ≡ payload_offset (layers_in (lax_layers_of self.now)) }
        ensures place { let layers = layers_in (lax_layers_of self.now) in
            (bytes : List ℕ) → AreInOrder bytes layers → BeginsWith (drop result bytes) (last_payload layers) }
    {
        link_len(&self.link)
            + tags_len(self.link_exts.as_slice())
            + net_len(&self.net)
            + transport_len(&self.transport)
    }

    /// Returns true if bytes of the last layer's payload are missing: a length field of the packet counts more bytes
    /// than are available.
    #[inline]
    pub fn is_incomplete(&self) -> bool
        ensures { result ≡ (lax_layers_of self.now).net.inside.incomplete }
    {
        let outer = match &self.net {
            Some(LaxNetSlice::Ipv4(packet)) => packet.payload().incomplete,
            Some(LaxNetSlice::Ipv6(packet)) => packet.payload().incomplete,
            Some(LaxNetSlice::Arp(_)) => false,
            None => self.extensions_incomplete(),
        };
        transport_incomplete(outer, &self.transport)
    }

    /// Returns the payload after the last VLAN or MACsec tag. If there are no tags, it is the payload after the link
    /// header, or empty if there is no link layer.
    fn payload_after_link_exts(&self) -> &'a [u8]
        ensures { let layers = layers_in (lax_layers_of self.now) in
            result.now ≡ payload_after_exts (link_payload layers.link) layers.link_exts }
    {
        if let Some(extension) = self.link_exts.last() {
            return extension.payload_slice();
        }
        link_payload(&self.link)
    }
}

/// Returns the length of all VLAN and MACsec tags together in bytes.
fn tags_len(extensions: &[LaxLinkExtSlice<'_>]) -> usize
    requires { length extensions.now ≤ 3 }
    ensures value { result ≡ tags_len (map lax_extension_of extensions.now) }
    ensures bound { result ≤ 48 }
{
    let mut len = 0;
    for extension in extensions {
        len += tag_len(extension);
    }
    len
}

/// Returns the length of a VLAN or MACsec tag in bytes.
fn tag_len(extension: &LaxLinkExtSlice<'_>) -> usize
    ensures value { result ≡ tag_len (lax_extension_of extension.now) }
    ensures bound { result ≤ 16 }
{
    extension.header_len()
}

/// Returns the length in bytes of an IP header together with its valid extension headers, or of a whole ARP packet; 0
/// for `None`.
fn net_len(net: &Option<LaxNetSlice<'_>>) -> usize
    ensures value { result ≡ net_len (option_map lax_net_layer_of net.now) }
    ensures bound { result < 2 ^ 63 + 64 }
{
    match net {
        Some(net) => net.header_len(),
        None => 0,
    }
}

/// Returns true if bytes of the transport layer's payload are missing. `outer` is true if bytes of the IP payload are
/// missing.
#[inline]
pub(crate) fn transport_incomplete(outer: bool, transport: &Option<TransportSlice<'_>>) -> bool
    ensures { result ≡ transport_incomplete outer (option_map transport_layer_of transport.now) }
{
    match transport {
        Some(TransportSlice::Udp(datagram)) => {
            let stated = datagram.length() as usize;
            let available = datagram.header_len() + datagram.payload().len();
            stated != available && is_missing(stated, available, outer)
        }
        _ => outer,
    }
}

/// Returns true if bytes of a UDP payload are missing. `stated` is the UDP length field, and `available` the number of
/// available bytes, both including the UDP header. `outer` is true if bytes of the IP payload are missing.
fn is_missing(stated: usize, available: usize, outer: bool) -> bool
    ensures { result ≡ is_missing 8 stated outer available }
{
    if 8 <= stated && stated <= available {
        return false;
    }
    outer || available < stated
}
