//! A packet sliced into its layers, without copying.

ghost use Rattle.std.specs.Prelude.{◌≡◌, ◌+◌, ◌<◌, ◌^◌, length, IfOk, IfErr};
ghost use Rattle.ep_base.specs.Readings.{slices};
ghost use Rattle.ep_packet.specs.Frame.{most_link_exts};
ghost use Rattle.ep_packet.specs.FrameRefusals.{RefusesInside};
ghost use Rattle.ep_packet.specs.Walk.{HoldsAfterLink};

use crate::entry::Entry;
use crate::err::SliceError;
use crate::link_part::LinkPart;
use crate::net_slice::NetSlice;
use crate::sliced_packet_walk::{fill_inside, fill_ip};
use crate::vlan_tags::double_vlan;
use arrayvec::ArrayVec;
use ep_base::{EtherPayloadSlice, EtherType, IpPayloadSlice, LenSource, VlanId};
use ep_link::{LinkExtSlice, LinkSlice, VlanSlice};
use ep_transport::TransportSlice;

/// Packet sliced into its layers, from the outside in. `net` and `transport` are `None` if the packet doesn't have that
/// layer or its protocol isn't supported; without `net`, `transport` is `None` too.
#[derive(Clone, Debug, PartialEq, Eq, Drop)]
pub struct SlicedPacket<'a> {
    /// Link layer (Ethernet II, Linux cooked capture, or the payload of a given ether type); `None` if slicing started
    /// at IP.
    pub link: Option<LinkSlice<'a>>,
    /// Link extensions (VLAN and MACsec tags), from the outside in, at most three.
    pub link_exts: ArrayVec<LinkExtSlice<'a>, 3>,
    /// Network layer (IPv4, IPv6 or ARP); `None` if the packet has none that is supported.
    pub net: Option<NetSlice<'a>>,
    /// Transport layer (UDP, TCP, ICMPv4 or ICMPv6); `None` for another protocol, and for a fragment.
    pub transport: Option<TransportSlice<'a>>,
}

impl<'a> SlicedPacket<'a> {
    ghost use Rattle.std.specs.Prelude.{◌≡◌, ◌+◌, ◌<◌, ◌^◌, [], length, IfOk, IfErr, IsOkAnd};
    ghost use Rattle.std.specs.Option.{option_copied, option_map};
    ghost use Rattle.ep_base.specs.IpPayload.{ip_payload_of};
    ghost use Rattle.ep_packet.specs.declared.entry.Entry.TheVariants.{Ethernet as ethernet, LinuxSll as linux_sll, EtherType as of_type, Ip as ip};
    ghost use Rattle.ep_base.specs.Readings.{slices};
    ghost use Rattle.ep_packet.specs.Layers.{Layers, layers_of, no_layers, ip_payload_in, carries_fragment};
    ghost use Rattle.ep_link.specs.EtherPayloads.{ether_payload_of};
    ghost use Rattle.ep_packet.specs.Frame.{IsFrame, most_link_exts};
    ghost use Rattle.ep_packet.specs.Payloads.{ether_payload_in, extensions_len_source, payload_ether_type_in};
    ghost use Rattle.ep_packet.specs.VlanTags.{outer_tags, vlan_ids_in, vlan_slices};
    ghost use Rattle.ep_packet.specs.FrameRefusals.{RefusesFrame, RefusesInside};
    ghost use Rattle.ep_packet.specs.ShownBytes.{ShowsBytes};
    ghost use Rattle.ep_packet.specs.Walk.{HoldsAfterLink};

    /// Greatest number of link extensions (VLAN and MACsec tags) that are sliced: 3. A fourth one is left in the
    /// payload.
    pub const LINK_EXTS_CAP: usize = 3;

    /// Returns a packet without any layer, into which [`SlicedPacket::slice_into`] can slice.
    #[inline]
    pub fn new() -> SlicedPacket<'a>
        ensures { layers_of result ≡ no_layers }
    {
        SlicedPacket {
            link: None,
            link_exts: ArrayVec::new(),
            net: None,
            transport: None,
        }
    }

    /// Slices a packet that begins with an Ethernet II header into its layers.
    #[inline(always)]
    pub fn from_ethernet(slice: &'a [u8]) -> Result<SlicedPacket<'a>, SliceError>
        ensures ok { IfOk result (λ packet. IsFrame ethernet slice.now (layers_of packet)) }
        ensures only { (layers : Layers) → IsFrame ethernet slice.now layers
            → IsOkAnd result (λ packet. layers_of packet ≡ layers) }
        ensures bytes { IfOk result (ShowsBytes slice.now) }
        ensures err { IfErr result (RefusesFrame ethernet slice.now) }
    {
        match LinkPart::ethernet(slice) {
            Ok(part) => slice_from_link(part),
            Err(error) => Err(SliceError::Len(error)),
        }
    }

    /// Slices a packet that begins with a Linux cooked capture header (SLL v1) into its layers.
    #[inline(always)]
    pub fn from_linux_sll(slice: &'a [u8]) -> Result<SlicedPacket<'a>, SliceError>
        ensures ok { IfOk result (λ packet. IsFrame linux_sll slice.now (layers_of packet)) }
        ensures only { (layers : Layers) → IsFrame linux_sll slice.now layers
            → IsOkAnd result (λ packet. layers_of packet ≡ layers) }
        ensures bytes { IfOk result (ShowsBytes slice.now) }
        ensures err { IfErr result (RefusesFrame linux_sll slice.now) }
    {
        match LinkPart::linux_sll(slice) {
            Ok(part) => slice_from_link(part),
            Err(error) => Err(SliceError::from(error)),
        }
    }

    /// Slices a packet without a link header, which begins with the protocol of the given ether type, into its layers.
    #[inline(always)]
    pub fn from_ether_type(
        ether_type: EtherType,
        slice: &'a [u8],
    ) -> Result<SlicedPacket<'a>, SliceError>
        ensures ok { IfOk result (λ packet. IsFrame (of_type ether_type) slice.now (layers_of packet)) }
        ensures only { (layers : Layers) → IsFrame (of_type ether_type) slice.now layers
            → IsOkAnd result (λ packet. layers_of packet ≡ layers) }
        ensures bytes { IfOk result (ShowsBytes slice.now) }
        ensures err { IfErr result (RefusesFrame (of_type ether_type) slice.now) }
    {
        slice_from_link(LinkPart::ether_type(ether_type, slice))
    }

    /// Slices an IP packet, version 4 or 6, without a link layer, into its layers.
    #[inline(always)]
    pub fn from_ip(slice: &'a [u8]) -> Result<SlicedPacket<'a>, SliceError>
        ensures ok { IfOk result (λ packet. IsFrame ip slice.now (layers_of packet)) }
        ensures only { (layers : Layers) → IsFrame ip slice.now layers
            → IsOkAnd result (λ packet. layers_of packet ≡ layers) }
        ensures bytes { IfOk result (ShowsBytes slice.now) }
        ensures err { IfErr result (RefusesFrame ip slice.now) }
    {
        let mut net = None;
        let mut transport = None;
        match fill_ip(&mut net, &mut transport, slice) {
            Ok(()) => Ok(SlicedPacket {
                link: None,
                link_exts: ArrayVec::new(),
                net,
                transport,
            }),
            Err(error) => Err(error),
        }
    }

    /// Slices a packet whose first protocol is `entry` (Ethernet II, Linux cooked capture, an ether type, or IP) into
    /// its layers.
    #[inline]
    pub fn from_entry(entry: Entry, slice: &'a [u8]) -> Result<SlicedPacket<'a>, SliceError>
        ensures ok { IfOk result (λ packet. IsFrame entry slice.now (layers_of packet)) }
        ensures only { (layers : Layers) → IsFrame entry slice.now layers
            → IsOkAnd result (λ packet. layers_of packet ≡ layers) }
        ensures bytes { IfOk result (ShowsBytes slice.now) }
        ensures err { IfErr result (RefusesFrame entry slice.now) }
    {
        match entry {
            Entry::Ethernet => SlicedPacket::from_ethernet(slice),
            Entry::LinuxSll => SlicedPacket::from_linux_sll(slice),
            Entry::EtherType(ether_type) => SlicedPacket::from_ether_type(ether_type, slice),
            Entry::Ip => SlicedPacket::from_ip(slice),
        }
    }

    /// Slices a packet whose first protocol is `entry` into `self`, replacing the layers it had. Made for repeated
    /// calls: one value is reused, and none is moved. After an error `self` has no layers.
    #[inline(always)]
    pub fn slice_into(&mut self, entry: Entry, bytes: &'a [u8]) -> Result<(), SliceError>
        ensures ok { IfOk result (λ _. IsFrame entry bytes.now (layers_of self.new)) }
        ensures only { (layers : Layers) → IsFrame entry bytes.now layers
            → IsOkAnd result (λ _. layers_of self.new ≡ layers) }
        ensures bytes { IfOk result (λ _. ShowsBytes bytes.now self.new) }
        ensures err { IfErr result (RefusesFrame entry bytes.now) }
        ensures none { IfErr result (λ _. layers_of self.new ≡ no_layers) }
    {
        self.remove_link_exts();
        match self.fill(entry, bytes) {
            Ok(()) => Ok(()),
            Err(error) => {
                self.clear();
                Err(error)
            }
        }
    }

    /// Removes the link extensions of the packet. Without link extensions, as most packets are, nothing is written.
    #[inline(always)]
    fn remove_link_exts(&mut self)
        ensures { self.new.link_exts.items ≡ [] }
    {
        if !self.link_exts.is_empty() {
            self.link_exts.clear();
        }
    }

    /// Removes all layers from the packet. It is not inlined: otherwise the space of the new values would be zeroed for
    /// each packet.
    #[inline(never)]
    fn clear(&mut self)
        ensures { layers_of self.new ≡ no_layers }
    {
        self.link = None;
        self.link_exts.clear();
        self.net = None;
        self.transport = None;
    }

    /// Slices a packet whose first protocol is `entry` into `self`, replacing its link, network and transport layer;
    /// `link_exts` must be empty before the call. After an error the layers of `self` are unspecified. Only the code
    /// for Ethernet is inlined: with the code for all first protocols the function would be too large.
    #[inline(always)]
    fn fill(&mut self, entry: Entry, slice: &'a [u8]) -> Result<(), SliceError>
        requires { self.old.link_exts.items ≡ [] }
        ensures ok { IfOk result (λ _. IsFrame entry slice.now (layers_of self.new)) }
        ensures bytes { IfOk result (λ _. ShowsBytes slice.now self.new) }
        ensures err { IfErr result (RefusesFrame entry slice.now) }
    {
        match entry {
            Entry::Ethernet => self.fill_ethernet(slice),
            Entry::LinuxSll => self.fill_linux_sll(slice),
            Entry::EtherType(ether_type) => self.fill_ether_type(ether_type, slice),
            Entry::Ip => self.fill_ip(slice),
        }
    }

    /// Slices a packet that begins with an Ethernet II header into `self`, which must have no link extensions.
    #[inline(always)]
    fn fill_ethernet(&mut self, slice: &'a [u8]) -> Result<(), SliceError>
        requires { self.old.link_exts.items ≡ [] }
        ensures ok { IfOk result (λ _. IsFrame ethernet slice.now (layers_of self.new)) }
        ensures bytes { IfOk result (λ _. ShowsBytes slice.now self.new) }
        ensures err { IfErr result (RefusesFrame ethernet slice.now) }
    {
        match LinkPart::ethernet(slice) {
            Ok(part) => self.fill_from_link(part),
            Err(error) => Err(SliceError::Len(error)),
        }
    }

    /// Slices a packet that begins with a Linux cooked capture header into `self`, which must have no link extensions.
    fn fill_linux_sll(&mut self, slice: &'a [u8]) -> Result<(), SliceError>
        requires { self.old.link_exts.items ≡ [] }
        ensures ok { IfOk result (λ _. IsFrame linux_sll slice.now (layers_of self.new)) }
        ensures bytes { IfOk result (λ _. ShowsBytes slice.now self.new) }
        ensures err { IfErr result (RefusesFrame linux_sll slice.now) }
    {
        match LinkPart::linux_sll(slice) {
            Ok(part) => self.fill_from_link(part),
            Err(error) => Err(SliceError::from(error)),
        }
    }

    /// Slices a packet without a link header, which begins with the protocol of `ether_type`, into `self`, which must
    /// have no link extensions.
    fn fill_ether_type(&mut self, ether_type: EtherType, slice: &'a [u8]) -> Result<(), SliceError>
        requires { self.old.link_exts.items ≡ [] }
        ensures ok { IfOk result (λ _. IsFrame (of_type ether_type) slice.now (layers_of self.new)) }
        ensures bytes { IfOk result (λ _. ShowsBytes slice.now self.new) }
        ensures err { IfErr result (RefusesFrame (of_type ether_type) slice.now) }
    {
        self.fill_from_link(LinkPart::ether_type(ether_type, slice))
    }

    /// Slices an IP packet, version 4 or 6, without a link layer, into `self`, which must have no link extensions.
    fn fill_ip(&mut self, slice: &'a [u8]) -> Result<(), SliceError>
        requires { self.old.link_exts.items ≡ [] }
        ensures ok { IfOk result (λ _. IsFrame ip slice.now (layers_of self.new)) }
        ensures bytes { IfOk result (λ _. ShowsBytes slice.now self.new) }
        ensures err { IfErr result (RefusesFrame ip slice.now) }
    {
        self.link = None;
        fill_ip(&mut self.net, &mut self.transport, slice)
    }

    /// Sets the link layer of the packet, and slices the payload of that layer into link extensions, network and
    /// transport layer.
    #[inline(always)]
    fn fill_from_link(&mut self, part: LinkPart<'a>) -> Result<(), SliceError>
        requires place { part.offset + length part.slice.now < 2 ^ 64 }
        requires empty { self.old.link_exts.items ≡ [] }
        ensures ok { IfOk result (λ _.
            HoldsAfterLink part.entry.link part.entry.ether_type part.entry.slice.now self.new) }
        ensures err { IfErr result
            (RefusesInside slices most_link_exts part.entry.offset part.entry.ether_type part.entry.slice.now) }
    {
        self.link = Some(part.link);
        fill_inside(
            &mut self.link_exts,
            &mut self.net,
            &mut self.transport,
            part.offset,
            part.ether_type,
            part.slice,
            true,
        )
    }

    /// Returns the ether type of the payload after the link layer and link extensions, if no network layer was sliced
    /// in it, and `None` otherwise. It is also `None` if the type is unknown: after a MACsec tag with a modified
    /// payload, and in a Linux cooked capture whose protocol is no ether type.
    pub fn payload_ether_type(&self) -> Option<EtherType>
        ensures { result ≡ payload_ether_type_in (layers_of self.now) }
    {
        if self.net.is_some() || self.transport.is_some() {
            return None;
        }
        Some(self.ether_payload()?.ether_type)
    }

    /// Returns the payload after the link layer and link extensions, with its ether type, whether or not a network
    /// layer was sliced in it; `None` if the type is unknown, or without a link layer. The payload is limited by the
    /// short length of a MACsec tag before it (if above 0), or else by the end of the slice.
    pub fn ether_payload(&self) -> Option<EtherPayloadSlice<'a>>
        ensures { option_map ether_payload_of result ≡ ether_payload_in (layers_of self.now) }
    {
        let Some(last) = self.link_exts.last() else {
            return self.link.as_ref()?.ether_payload();
        };
        let payload = last.ether_payload()?;
        Some(EtherPayloadSlice {
            len_source: self.extensions_len_source(),
            ..payload
        })
    }

    /// Returns which field limits the payload after the link extensions: `MacsecShortLength` if a MACsec tag has a
    /// short length above 0, or else `Slice`.
    #[inline]
    pub fn extensions_len_source(&self) -> LenSource
        ensures { result ≡ extensions_len_source (layers_of self.now).link_exts }
    {
        for extension in self.link_exts.iter() {
            if let LinkExtSlice::Macsec(packet) = extension {
                if packet.header.short_len().value() > 0 {
                    return LenSource::MacsecShortLength;
                }
            }
        }
        LenSource::Slice
    }

    /// Returns the outermost VLAN tag of the packet, or the two outermost as one double tag, if there are at least two;
    /// `None` without a VLAN tag.
    pub fn vlan(&self) -> Option<VlanSlice<'a>>
        ensures { result ≡ outer_tags (vlan_slices self.now.link_exts.items) }
    {
        let mut outer = None;
        for extension in self.link_exts.iter() {
            if let LinkExtSlice::Vlan(tag) = extension {
                match outer {
                    None => outer = Some(tag.clone().unwrap()),
                    Some(outer) => return Some(double_vlan(outer, tag)),
                }
            }
        }
        Some(VlanSlice::SingleVlan(outer?))
    }

    /// Returns the VLAN identifiers of all VLAN tags of the packet, from the outside in.
    pub fn vlan_ids(&self) -> ArrayVec<VlanId, 3>
        ensures { result.items ≡ vlan_ids_in (layers_of self.now).link_exts }
    {
        let mut ids = ArrayVec::new();
        for extension in self.link_exts.iter() {
            if let LinkExtSlice::Vlan(tag) = extension {
                ids.push(tag.vlan_identifier());
            }
        }
        ids
    }

    /// Returns the payload of the IPv4 or IPv6 packet; `None` if the network layer is ARP or absent.
    #[inline]
    pub fn ip_payload(&self) -> Option<&IpPayloadSlice<'a>>
        ensures { option_map ip_payload_of (option_copied result) ≡ ip_payload_in (layers_of self.now) }
    {
        match &self.net {
            Some(net) => net.ip_payload_ref(),
            None => None,
        }
    }

    /// Returns true if the IP payload is one fragment of a larger payload; false if it is not fragmented, or if the
    /// packet has no IP layer.
    #[inline]
    pub fn is_ip_payload_fragmented(&self) -> bool
        ensures { result ≡ carries_fragment (layers_of self.now) }
    {
        match self.ip_payload() {
            Some(payload) => payload.fragmented,
            None => false,
        }
    }
}

/// Slices the payload of a link layer, and returns the packet of all layers. Each layer has a local variable of its
/// own: a packet that is filled in place would be moved as a whole when it is returned.
#[inline(always)]
fn slice_from_link(part: LinkPart<'_>) -> Result<SlicedPacket<'_>, SliceError>
    requires { part.offset + length part.slice.now < 2 ^ 64 }
    ensures ok { IfOk result (HoldsAfterLink part.entry.link part.entry.ether_type part.entry.slice.now) }
    ensures err { IfErr result
        (RefusesInside slices most_link_exts part.entry.offset part.entry.ether_type part.entry.slice.now) }
{
    let mut link_exts = ArrayVec::new();
    let mut net = None;
    let mut transport = None;
    match fill_inside(
        &mut link_exts,
        &mut net,
        &mut transport,
        part.offset,
        part.ether_type,
        part.slice,
        false,
    ) {
        Ok(()) => Ok(SlicedPacket {
            link: Some(part.link),
            link_exts,
            net,
            transport,
        }),
        Err(error) => Err(error),
    }
}
