//! The payload of the last layer of a sliced packet, and its offset.

ghost use Rattle.std.specs.Prelude.{◌≡◌, ◌≤◌, ◌<◌, ◌+◌, ◌^◌, ℕ, List, length, map, drop};
ghost use Rattle.std.specs.Option.{option_map};
ghost use Rattle.ep_link.specs.LinkExtensions.{link_extension_of};
ghost use Rattle.ep_packet.specs.FrameBytes.{AreInOrder, last_payload, link_payload, payload_after_exts};
ghost use Rattle.ep_packet.specs.Offsets.{net_len, payload_offset, tag_len, tags_len};
ghost use Rattle.ep_packet.specs.ShownBytes.{BeginsWith};
ghost use Rattle.ep_packet.specs.Layers.{layers_of, net_layer_of};

use crate::header_lens::{link_len, link_payload, transport_len};
use crate::net_slice::NetSlice;
use crate::sliced_packet::SlicedPacket;
use ep_link::LinkExtSlice;

impl<'a> SlicedPacket<'a> {
    /// Bytes of the payload of the packet's last (innermost) layer; empty if that is ARP.
    #[inline]
    pub fn payload(&self) -> &'a [u8]
        ensures { result.now ≡ last_payload (layers_of self.now) }
    {
        if let Some(transport) = &self.transport {
            return transport.payload();
        }
        match &self.net {
            Some(NetSlice::Ipv4(packet)) => packet.payload().payload,
            Some(NetSlice::Ipv6(packet)) => packet.payload().payload,
            Some(NetSlice::Arp(_)) => &[],
            None => self.payload_after_link_exts(),
        }
    }

    /// Offset of the last layer's payload from the start of the packet, in bytes: the summed length of all headers.
    pub fn payload_offset(&self) -> usize
        ensures value { result ≡ payload_offset (layers_of self.now) }
        ensures place { let layers = layers_of self.now in
            (bytes : List ℕ) → AreInOrder bytes layers → BeginsWith (drop result bytes) (last_payload layers) }
    {
        link_len(&self.link)
            + tags_len(self.link_exts.as_slice())
            + net_len(&self.net)
            + transport_len(&self.transport)
    }

    /// Returns the bytes after the last link extension (VLAN or MACsec tag), or after the link header, if there is
    /// none.
    fn payload_after_link_exts(&self) -> &'a [u8]
        ensures { let layers = layers_of self.now in
            result.now ≡ payload_after_exts (link_payload layers.link) layers.link_exts }
    {
        if let Some(extension) = self.link_exts.last() {
            return extension.payload_slice();
        }
        link_payload(&self.link)
    }
}

/// Returns the summed length of link extensions in bytes, each without its payload (VLAN: 4, MACsec: 6 to 16).
fn tags_len(extensions: &[LinkExtSlice<'_>]) -> usize
    requires { length extensions.now ≤ 3 }
    ensures value { result ≡ tags_len (map link_extension_of extensions.now) }
    ensures bound { result ≤ 48 }
{
    let mut len = 0;
    for extension in extensions {
        len += tag_len(extension);
    }
    len
}

/// Returns the length of a link extension in bytes, without its payload (VLAN: 4, MACsec: 6 to 16).
fn tag_len(extension: &LinkExtSlice<'_>) -> usize
    ensures value { result ≡ tag_len (link_extension_of extension.now) }
    ensures bound { result ≤ 16 }
{
    extension.header_len()
}

/// Returns the length in bytes of the IP header and its extension headers, or of the ARP packet; 0 without a network
/// layer.
fn net_len(net: &Option<NetSlice<'_>>) -> usize
    ensures value { result ≡ net_len (option_map net_layer_of net.now) }
    ensures bound { result < 2 ^ 63 + 64 }
{
    match net {
        Some(net) => net.header_len(),
        None => 0,
    }
}
