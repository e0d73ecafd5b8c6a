//! VLAN tags of frames with an Ethernet II header and at most two such tags.

ghost use Rattle.std.specs.Prelude.{◌≡◌, IfSome, List, length, true};
ghost use Rattle.etherparse.specs.LinkExtensions.{IsVlanType, LinkExtension};
ghost use Rattle.etherparse_c.specs.Description.{tag_slots};
ghost use Rattle.etherparse_c.specs.Plain.{HasVlans};

use crate::packet::LinkExt;
use crate::tags::{no_tag, vlan_part};
use etherparse::{EtherType, Ethernet2Header, SingleVlanHeader, SingleVlanSlice, ether_type};

/// Bytes after the Ethernet II header and VLAN tags of a frame, with their ether type.
#[derive(Drop)]
pub(crate) struct PayloadAfterVlans<'a> {
    /// Number of bytes from the start of the frame to the first byte after the Ethernet II header and the VLAN tags.
    pub(crate) offset: usize,
    /// Ether type of the bytes after the VLAN tags, such as IPv4.
    pub(crate) ether_type: EtherType,
    /// Bytes after the VLAN tags of a frame.
    pub(crate) slice: &'a [u8],
}

/// Describes the VLAN tags (at most two) at the start of an Ethernet II payload for C, and stores their number. Returns
/// the bytes after them, or `None` if a tag is truncated.
#[inline(always)]
pub(crate) fn describe_vlans<'a>(
    slots: &mut [LinkExt; 3],
    count: &mut u32,
    ether_type: EtherType,
    slice: &'a [u8],
) -> Option<PayloadAfterVlans<'a>>
    ensures { IfSome result (λ untagged. (tags : List LinkExtension) × HasVlans ether_type slice.now tags untagged
        × (slots.new ≡ tag_slots 14 tags) × (count.new ≡ length tags)) }
{
    if !is_vlan(ether_type) {
        *slots = [no_tag(), no_tag(), no_tag()];
        *count = 0;
        return Some(PayloadAfterVlans {
            offset: Ethernet2Header::LEN,
            ether_type,
            slice,
        });
    }
    let Ok(outer) = SingleVlanSlice::from_slice(slice) else {
        return None;
    };
    let first = vlan_part(&outer, Ethernet2Header::LEN);
    if !is_vlan(outer.ether_type()) {
        *slots = [first, no_tag(), no_tag()];
        *count = 1;
        return Some(PayloadAfterVlans {
            offset: Ethernet2Header::LEN + SingleVlanHeader::LEN,
            ether_type: outer.ether_type(),
            slice: outer.payload_slice(),
        });
    }
    let Ok(inner) = SingleVlanSlice::from_slice(outer.payload_slice()) else {
        return None;
    };
    let second = vlan_part(&inner, Ethernet2Header::LEN + SingleVlanHeader::LEN);
    *slots = [first, second, no_tag()];
    *count = 2;
    Some(PayloadAfterVlans {
        offset: Ethernet2Header::LEN + 2 * SingleVlanHeader::LEN,
        ether_type: inner.ether_type(),
        slice: inner.payload_slice(),
    })
}

/// Returns whether the ether type is that of a VLAN tag: 0x8100, 0x88A8 or 0x9100.
#[inline(always)]
fn is_vlan(ether_type: EtherType) -> bool
    ensures { result ≡ true → IsVlanType ether_type }
{
    matches!(
        ether_type,
        ether_type::VLAN_TAGGED_FRAME
            | ether_type::PROVIDER_BRIDGING
            | ether_type::VLAN_DOUBLE_TAGGED_FRAME
    )
}
