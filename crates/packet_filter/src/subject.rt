//! Packets that filters are matched against, and the fields of their layers.

ghost use Rattle.std.specs.Prelude.{◌≡◌, ◌==◌, ◌≤◌, length, map, option_map};
ghost use Rattle.std.specs.List.{list_any};
ghost use Rattle.std.specs.Option.{option_copied};
ghost use Rattle.ep_base.specs.IpPayload.{lax_ip_payload_of};
ghost use Rattle.ep_ext.specs.ExtensionParts.{part_next};
ghost use Rattle.ep_ext.specs.Ipv4Chains.{ipv4_slice_parts};
ghost use Rattle.ep_ext.specs.Ipv6ExtensionSlices.{extension_slice_part, ipv6_slice_parts};
ghost use Rattle.ep_lax.specs.LaxPackets.{lax_layers_of};
ghost use Rattle.ep_lax.specs.LaxViews.{lax_extension_of, lax_net_layer_of};
ghost use Rattle.ep_link.specs.LinkSlices.{link_layer_of};
ghost use Rattle.ep_packet.specs.Offsets.{link_len, tag_len, tags_len};
ghost use Rattle.packet_filter.specs.Packets.{bytes_of, bytes_of_number, bytes_of_type, bytes_of_version, has_type};
ghost use Rattle.packet_filter.specs.Packets.{ip_numbers, is_type, is_version, link_type, packet_of, reassembled_packet};
ghost use Rattle.packet_filter.specs.Packets.{tag_type, tags_in, type_after, type_number};
ghost use Rattle.packet_filter.specs.Shown.{shown_begins, shown_packet, shown_payload};

use ep_base::{EtherType, IpNumber, LaxIpPayloadSlice};
use ep_ext::{Ipv4ExtensionsSlice, Ipv6ExtensionSlice, Ipv6ExtensionsSlice};
use ep_lax::{LaxLinkExtSlice, LaxNetSlice, LaxSlicedPacket};
use ep_link::LinkSlice;
use filter_tokens::primitive::{FieldLayer, IpVersion};

/// IP number of SCTP (RFC 9260).
pub(crate) const SCTP: IpNumber = IpNumber(132);

/// Packet that a filter is matched against.
#[derive(Drop)]
pub(crate) struct Subject<'s, 'a> {
    /// Layers of the packet.
    pub packet: &'s LaxSlicedPacket<'a>,
    /// Bytes that the layers were read from.
    pub bytes: &'s [u8],
    /// Original length of the packet in bytes.
    pub wire_len: u32,
    /// Reassembled payload of IP; `None` for a packet as it was read.
    pub reassembled: Option<&'s LaxIpPayloadSlice<'s>>,
}

impl<'s, 'a> Subject<'s, 'a> {
    /// Creates the subject of a packet as it was read.
    pub fn of_packet(
        packet: &'s LaxSlicedPacket<'a>,
        bytes: &'s [u8],
        wire_len: u32,
    ) -> Subject<'s, 'a>
        ensures { shown_packet result ≡ packet_of (lax_layers_of packet.now) bytes.now wire_len }
    {
        Subject {
            packet,
            bytes,
            wire_len,
            reassembled: None,
        }
    }

    /// Creates the subject of a packet whose IP payload was reassembled from fragments.
    pub fn of_reassembled(
        packet: &'s LaxSlicedPacket<'a>,
        bytes: &'s [u8],
        wire_len: u32,
        payload: &'s LaxIpPayloadSlice<'s>,
    ) -> Subject<'s, 'a>
        ensures { shown_packet result ≡ reassembled_packet (lax_layers_of packet.now) bytes.now wire_len
            payload.now.ip_number.0 payload.now.payload.now }
    {
        Subject {
            packet,
            bytes,
            wire_len,
            reassembled: Some(payload),
        }
    }

    /// Returns the payload of IP: the reassembled one, or that of the packet, which can be a later fragment; `None`
    /// without IP layer.
    #[inline(always)]
    pub fn payload(&self) -> Option<&'s LaxIpPayloadSlice<'s>>
        ensures { option_map lax_ip_payload_of (option_copied result)
            ≡ shown_payload (option_copied self.now.reassembled) (lax_layers_of self.now.packet.now).net.layer }
    {
        match self.reassembled {
            Some(payload) => Some(payload),
            None => match &self.packet.net {
                Some(net) => net.ip_payload_ref(),
                None => None,
            },
        }
    }

    /// Returns the bytes after the link layer and all tags, if they have this ether type.
    #[tactic(auto, using(crate::proofs::TagLemmas::shown_tags))]
    pub fn bytes_of_type(&self, ether_type: EtherType) -> Option<&'s [u8]>
        ensures { option_copied result ≡ bytes_of_type ether_type.0 (shown_packet self.now) }
    {
        if !is_type(ether_type, type_after_tags(self.packet)) {
            return None;
        }
        let offset = link_len(&self.packet.link) + tags_len(self.packet.link_exts.as_slice());
        if offset < self.bytes.len() {
            Some(&self.bytes[offset..])
        } else {
            Some(&[])
        }
    }
}

/// Returns true if the payload of IP begins with a transport header: the packet is no later fragment.
#[inline(always)]
pub(crate) fn begins_payload(subject: &Subject<'_, '_>) -> bool
    ensures { result
        ≡ shown_begins (option_copied subject.now.reassembled) (lax_layers_of subject.now.packet.now).net.layer }
{
    match (subject.reassembled, &subject.packet.net) {
        (Some(_), _) => true,
        (None, Some(net)) => net.begins_payload(),
        (None, None) => false,
    }
}

/// Returns the bytes of a layer, if the packet has it.
pub(crate) fn bytes_of<'s>(subject: &Subject<'s, '_>, layer: FieldLayer) -> Option<&'s [u8]>
    ensures { option_copied result ≡ bytes_of layer (shown_packet subject.now) }
{
    match layer {
        FieldLayer::Ethernet => match &subject.packet.link {
            Some(LinkSlice::Ethernet2(_)) => Some(subject.bytes),
            _ => None,
        },
        FieldLayer::Ipv4 => subject.bytes_of_type(EtherType::IPV4),
        FieldLayer::Ipv6 => subject.bytes_of_type(EtherType::IPV6),
        FieldLayer::Arp => subject.bytes_of_type(EtherType::ARP),
        FieldLayer::Tcp => bytes_of_number(subject, IpNumber::TCP),
        FieldLayer::Udp => bytes_of_number(subject, IpNumber::UDP),
        FieldLayer::Sctp => bytes_of_number(subject, SCTP),
        FieldLayer::Icmpv4 => bytes_of_version(subject, IpVersion::V4, IpNumber::ICMP),
        FieldLayer::Icmpv6 => bytes_of_version(subject, IpVersion::V6, IpNumber::IPV6_ICMP),
    }
}

/// Returns the bytes of the transport header and after it, if it has this IP number.
#[inline(always)]
fn bytes_of_number<'s>(subject: &Subject<'s, '_>, number: IpNumber) -> Option<&'s [u8]>
    ensures { option_copied result ≡ bytes_of_number number.0 (shown_packet subject.now).transport }
{
    match subject.payload() {
        Some(payload) if payload.ip_number.0 == number.0 && begins_payload(subject) => {
            Some(payload.payload)
        }
        _ => None,
    }
}

/// Returns the bytes of the transport header and after it, if it has this IP number and is the payload of this IP
/// version.
fn bytes_of_version<'s>(
    subject: &Subject<'s, '_>,
    version: IpVersion,
    number: IpNumber,
) -> Option<&'s [u8]>
    ensures { option_copied result ≡ bytes_of_version version number.0 (shown_packet subject.now) }
{
    match &subject.packet.net {
        Some(net) if is_version(version, net) => bytes_of_number(subject, number),
        _ => None,
    }
}

/// Returns true if a network layer is IP of this version.
pub(crate) fn is_version(version: IpVersion, net: &LaxNetSlice<'_>) -> bool
    ensures { result ≡ is_version version (lax_net_layer_of net.now) }
{
    match (version, net) {
        (IpVersion::Any | IpVersion::V4, LaxNetSlice::Ipv4(_)) => true,
        (IpVersion::Any | IpVersion::V6, LaxNetSlice::Ipv6(_)) => true,
        _ => false,
    }
}

/// Returns the ether type of the link layer, if it has one; without a link layer, that of the IP version.
fn link_type(packet: &LaxSlicedPacket<'_>) -> Option<EtherType>
    ensures { let layers = lax_layers_of packet.now in type_number result ≡ link_type layers.link layers.net.layer }
{
    match &packet.link {
        Some(link) => Some(link.ether_payload()?.ether_type),
        None => match &packet.net {
            Some(LaxNetSlice::Ipv4(_)) => Some(EtherType::IPV4),
            Some(LaxNetSlice::Ipv6(_)) => Some(EtherType::IPV6),
            Some(LaxNetSlice::Arp(_)) | None => None,
        },
    }
}

/// Returns the ether type of the bytes after all VLAN and MACsec tags, if it is known.
#[tactic(auto, using(crate::proofs::TagLemmas::shown_tags))]
fn type_after_tags(packet: &LaxSlicedPacket<'_>) -> Option<EtherType>
    ensures { let layers = lax_layers_of packet.now in
        type_number result ≡ type_after (link_type layers.link layers.net.layer) (tags_in layers) }
{
    type_after(link_type(packet), packet.link_exts.as_slice())
}

/// Returns the ether type of the bytes after all tags. `ether_type` is the ether type before them.
fn type_after(
    ether_type: Option<EtherType>,
    extensions: &[LaxLinkExtSlice<'_>],
) -> Option<EtherType>
    ensures { type_number result ≡ type_after (type_number ether_type) (map lax_extension_of extensions.now) }
{
    let mut ether_type = ether_type;
    for extension in extensions {
        ether_type = extension.next_ether_type();
    }
    ether_type
}

/// Returns true if this is the ether type of the link layer or of the payload of a tag.
#[tactic(auto, using(crate::proofs::TagLemmas::any_of_tags))]
pub(crate) fn has_ether_type(ether_type: EtherType, packet: &LaxSlicedPacket<'_>) -> bool
    ensures { result ≡ has_type ether_type.0 (lax_layers_of packet.now) }
{
    is_type(ether_type, link_type(packet)) || has_tag_type(ether_type, packet.link_exts.as_slice())
}

/// Returns true if an ether type is known and equals this one.
fn is_type(ether_type: EtherType, other: Option<EtherType>) -> bool
    ensures { result ≡ is_type ether_type.0 (type_number other) }
{
    match other {
        Some(other) => other.0 == ether_type.0,
        None => false,
    }
}

/// Returns true if this is the ether type of the payload of a tag.
fn has_tag_type(ether_type: EtherType, extensions: &[LaxLinkExtSlice<'_>]) -> bool
    ensures { result ≡ list_any
        (λ extension. is_type ether_type.0 (tag_type (lax_extension_of extension))) extensions.now }
{
    extensions.iter().any(|extension| is_type(ether_type, extension.next_ether_type()))
}

/// Returns the length of the link header in bytes, or 0 for `None`.
fn link_len(link: &Option<LinkSlice<'_>>) -> usize
    ensures value { result ≡ link_len (option_map link_layer_of link.now) }
    ensures bound { result ≤ 16 }
{
    match link {
        Some(link) => link.header_len(),
        None => 0,
    }
}

/// Returns the length of all VLAN and MACsec tags together in bytes.
fn tags_len(extensions: &[LaxLinkExtSlice<'_>]) -> usize
    requires { length extensions.now ≤ 3 }
    ensures value { result ≡ tags_len (map lax_extension_of extensions.now) }
    ensures bound { result ≤ 48 }
{
    let mut len = 0;
    for extension in extensions {
        len += tag_len(extension);
    }
    len
}

/// Returns the length of a VLAN or MACsec tag in bytes.
fn tag_len(extension: &LaxLinkExtSlice<'_>) -> usize
    ensures value { result ≡ tag_len (lax_extension_of extension.now) }
    ensures bound { result ≤ 16 }
{
    extension.header_len()
}

/// Returns true if the IP header or one of its extension headers has this protocol or next header number.
pub(crate) fn has_ip_number(number: IpNumber, net: &LaxNetSlice<'_>) -> bool
    ensures { result ≡ list_any (λ other. other == number.0) (ip_numbers (lax_net_layer_of net.now)) }
{
    match net {
        LaxNetSlice::Ipv4(packet) => {
            packet.header().protocol().0 == number.0 || has_ipv4_next(number, &packet.extensions())
        }
        LaxNetSlice::Ipv6(packet) => {
            packet.header().next_header().0 == number.0
                || has_ipv6_next(number, packet.extensions())
        }
        LaxNetSlice::Arp(_) => false,
    }
}

/// Returns true if the authentication header of an IPv4 packet has this next header number.
fn has_ipv4_next(number: IpNumber, extensions: &Ipv4ExtensionsSlice<'_>) -> bool
    ensures { result ≡ list_any (λ other. other == number.0) (map part_next (ipv4_slice_parts extensions.now)) }
{
    match &extensions.auth {
        Some(header) => header.next_header().0 == number.0,
        None => false,
    }
}

/// Returns true if an extension header of an IPv6 packet has this next header number.
fn has_ipv6_next(number: IpNumber, extensions: Ipv6ExtensionsSlice<'_>) -> bool
    ensures { result ≡ list_any (λ other. other == number.0) (map part_next (ipv6_slice_parts extensions.entry)) }
{
    for extension in extensions {
        if next_header(&extension).0 == number.0 {
            return true;
        }
    }
    false
}

/// Returns the next header number of an IPv6 extension header.
fn next_header(extension: &Ipv6ExtensionSlice<'_>) -> IpNumber
    ensures { result.0 ≡ part_next (extension_slice_part extension.now) }
{
    match extension {
        Ipv6ExtensionSlice::HopByHop(header) => header.next_header(),
        Ipv6ExtensionSlice::Routing(header) => header.next_header(),
        Ipv6ExtensionSlice::Fragment(header) => header.next_header(),
        Ipv6ExtensionSlice::DestinationOptions(header) => header.next_header(),
        Ipv6ExtensionSlice::Authentication(header) => header.next_header(),
    }
}
