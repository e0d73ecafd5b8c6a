//! The headers of a frame being built that are before its network layer.

ghost use Rattle.std.specs.Prelude.{◌≡◌, ◌+◌, ◌≤◌, ◌++◌, length, vec_len, vec_capacity};
ghost use Rattle.ep_build.specs.Placing.{AreAt};
ghost use Rattle.ep_build.specs.BuiltFrames.{link_with_type, link_part_bytes, link_part_len, tag_with_type, tags_with_type};
ghost use Rattle.ep_build.specs.BuiltFrames.{tags_len, tags_type};

use crate::placing::put;
use ep_base::EtherType;
use ep_link::{
    ArpHardwareId, DoubleVlanHeader, Ethernet2Header, LinuxSllHeader, LinuxSllPacketType,
    LinuxSllProtocolType, SingleVlanHeader, VlanHeader,
};

/// Link header and VLAN tags, if any, of a frame being built. Their ether types are set when the frame is written.
#[derive(Drop)]
pub enum LinkPart {
    /// No link header: the frame begins with the network layer.
    Absent,
    /// Ethernet II header, without VLAN tags.
    Ethernet2(Ethernet2Header),
    /// Ethernet II header and the one or two VLAN tags after it.
    Tagged(Ethernet2Header, VlanHeader),
    /// Linux cooked capture header (SLL v1).
    LinuxSll(LinuxSllHeader),
}

impl LinkPart {
    /// Length of the link header and its VLAN tags in bytes, at most 22.
    #[inline]
    pub(crate) fn header_len(&self) -> usize
        ensures value { result ≡ link_part_len self.now }
        ensures bound { result ≤ 22 }
    {
        match self {
            LinkPart::Absent => 0,
            LinkPart::Ethernet2(_) => Ethernet2Header::LEN,
            LinkPart::Tagged(_, tags) => Ethernet2Header::LEN + tags_len(tags),
            LinkPart::LinuxSll(_) => LinuxSllHeader::LEN,
        }
    }

    /// Appends the link header and its VLAN tags, with `ether_type` as the ether type of the network layer after them.
    /// The buffer must have the capacity for these headers.
    #[inline]
    pub(crate) fn append_with_type(&self, ether_type: EtherType, buf: &mut Vec<u8>)
        requires capacity { vec_len buf.old + length (link_part_bytes (link_with_type self.now ether_type))
            ≤ vec_capacity buf.old }
        ensures items { buf.new.items ≡ buf.old.items ++ link_part_bytes (link_with_type self.now ether_type) }
        ensures capacity { vec_capacity buf.old ≤ vec_capacity buf.new }
    {
        match self {
            LinkPart::Absent => {}
            LinkPart::Ethernet2(header) => ethernet2_with_type(header, ether_type)
                .write(buf)
                .unwrap(),
            LinkPart::Tagged(header, tags) => write_tagged(header, tags, ether_type, buf),
            LinkPart::LinuxSll(header) => linux_sll_with_type(header, ether_type)
                .write(buf)
                .unwrap(),
        }
    }

    /// Writes the link header and its VLAN tags to the start of the slice, with `ether_type` as the ether type of the
    /// network layer after them. Returns the offset after them. The slice must be long enough.
    #[inline]
    pub(crate) fn place_with_type(&self, ether_type: EtherType, slice: &mut [u8]) -> usize
        requires { length (link_part_bytes (link_with_type self.now ether_type)) ≤ length slice.old }
        ensures { AreAt (link_part_bytes (link_with_type self.now ether_type)) slice.old slice.new 0 result }
    {
        match self {
            LinkPart::Absent => 0,
            LinkPart::Ethernet2(header) => {
                put(
                    &ethernet2_with_type(header, ether_type).to_bytes(),
                    0,
                    slice,
                )
            }
            LinkPart::Tagged(header, tags) => place_tagged(header, tags, ether_type, slice),
            LinkPart::LinuxSll(header) => {
                put(
                    &linux_sll_with_type(header, ether_type).to_bytes(),
                    0,
                    slice,
                )
            }
        }
    }
}

/// Appends an Ethernet II header and its one or two VLAN tags, with the given ether type of the network layer after
/// them. The buffer must have the capacity for these headers.
fn write_tagged(
    header: &Ethernet2Header,
    tags: &VlanHeader,
    ether_type: EtherType,
    buf: &mut Vec<u8>,
)
    requires capacity { vec_len buf.old + length (link_part_bytes (link_with_type (LinkPart.Tagged header.now tags.now)
        ether_type)) ≤ vec_capacity buf.old }
    ensures items { buf.new.items ≡ buf.old.items
        ++ link_part_bytes (link_with_type (LinkPart.Tagged header.now tags.now) ether_type) }
    ensures capacity { vec_capacity buf.old ≤ vec_capacity buf.new }
{
    ethernet2_with_type(header, tags_ether_type(tags))
        .write(buf)
        .unwrap();
    tags_with_type(tags, ether_type).write(buf).unwrap();
}

/// Writes an Ethernet II header and its one or two VLAN tags to the start of the slice, and returns the offset after
/// them. The slice must be long enough.
fn place_tagged(
    header: &Ethernet2Header,
    tags: &VlanHeader,
    ether_type: EtherType,
    slice: &mut [u8],
) -> usize
    requires { length (link_part_bytes (link_with_type (LinkPart.Tagged header.now tags.now) ether_type))
        ≤ length slice.old }
    ensures { AreAt (link_part_bytes (link_with_type (LinkPart.Tagged header.now tags.now) ether_type))
        slice.old slice.new 0 result }
{
    let at = put(
        &ethernet2_with_type(header, tags_ether_type(tags)).to_bytes(),
        0,
        slice,
    );
    put(
        tags_with_type(tags, ether_type).to_bytes().as_slice(),
        at,
        slice,
    )
}

/// Returns the Ethernet II header with its ether type replaced by the given one.
#[inline]
fn ethernet2_with_type(header: &Ethernet2Header, ether_type: EtherType) -> Ethernet2Header
    ensures { result ≡ record header.now { ether_type = ether_type } }
{
    Ethernet2Header {
        source: header.source,
        destination: header.destination,
        ether_type,
    }
}

/// Returns the Linux cooked capture header with its protocol replaced by the given ether type, and its hardware type by
/// Ethernet.
#[inline]
fn linux_sll_with_type(header: &LinuxSllHeader, ether_type: EtherType) -> LinuxSllHeader
    ensures { LinkPart.LinuxSll result ≡ link_with_type (LinkPart.LinuxSll header.now) ether_type }
{
    LinuxSllHeader {
        packet_type: LinuxSllPacketType(header.packet_type.0),
        arp_hrd_type: ArpHardwareId::ETHERNET,
        sender_address_valid_length: header.sender_address_valid_length,
        sender_address: header.sender_address,
        protocol_type: LinuxSllProtocolType::EtherType(ether_type),
    }
}

/// Returns the length of one or two VLAN tags in bytes: 4 or 8.
#[inline]
fn tags_len(tags: &VlanHeader) -> usize
    ensures value { result ≡ tags_len tags.now }
    ensures bound { result ≤ 8 }
{
    match tags {
        VlanHeader::Single(_) => SingleVlanHeader::LEN,
        VlanHeader::Double(_) => DoubleVlanHeader::LEN,
    }
}

/// Returns the ether type in the Ethernet header before VLAN tags (IEEE 802.1Q, 9.5): 0x8100 (customer tag) before one
/// tag, 0x88A8 (service tag) before two.
#[inline]
fn tags_ether_type(tags: &VlanHeader) -> EtherType
    ensures { result.0 ≡ tags_type tags.now }
{
    match tags {
        VlanHeader::Single(_) => EtherType::VLAN_TAGGED_FRAME,
        VlanHeader::Double(_) => EtherType::PROVIDER_BRIDGING,
    }
}

/// Returns the VLAN tags with their ether types replaced: the innermost tag gets the given one, an outer tag 0x8100.
#[inline]
fn tags_with_type(tags: &VlanHeader, ether_type: EtherType) -> VlanHeader
    ensures { result ≡ tags_with_type tags.now ether_type }
{
    match tags {
        VlanHeader::Single(tag) => VlanHeader::Single(tag_with_type(tag, ether_type)),
        VlanHeader::Double(tags) => VlanHeader::Double(DoubleVlanHeader {
            outer: tag_with_type(&tags.outer, EtherType::VLAN_TAGGED_FRAME),
            inner: tag_with_type(&tags.inner, ether_type),
        }),
    }
}

/// Returns the VLAN tag with its ether type replaced by the given one.
#[inline]
fn tag_with_type(tag: &SingleVlanHeader, ether_type: EtherType) -> SingleVlanHeader
    ensures { result ≡ tag_with_type tag.now ether_type }
{
    SingleVlanHeader {
        pcp: tag.pcp,
        drop_eligible_indicator: tag.drop_eligible_indicator,
        vlan_id: tag.vlan_id,
        ether_type,
    }
}
