//! Describes the VLAN and MACsec tags of a frame for C.

ghost use Rattle.std.specs.Prelude.{◌≡◌, ◌+◌, ◌<◌, ◌≤◌, ◌^◌, length, map};
ghost use Rattle.etherparse.specs.LinkExtensions.{LinkExtension, link_extension_of, macsec, vlan};
ghost use Rattle.etherparse.specs.LaxViews.{lax_extension_of};
ghost use Rattle.etherparse.specs.Macsec.{MacsecPayload};
ghost use Rattle.etherparse.specs.MacsecSlices.{macsec_header_slice_header};
ghost use Rattle.etherparse.specs.VlanSlices.{vlan_slice_header, vlan_slice_payload};
ghost use Rattle.etherparse_c.specs.Description.{no_tag, tag_part, tag_slots, tags_len};

use crate::numbers;
use crate::packet::LinkExt;
use etherparse::{
    LaxLinkExtSlice, LinkExtSlice, MacsecHeaderSlice, SingleVlanHeader, SingleVlanSlice,
};

/// Slice of a VLAN or MACsec tag with its payload. Implemented for the slices of the strict and of the lax parser.
pub(crate) trait TagSlice {
    /// Decoded VLAN or MACsec tag of a slice, for contracts.
    ghost extension: { Self → LinkExtension };

    /// Returns the description of a VLAN or MACsec tag for C: its kind, VLAN identifier, offset and length. `offset` is
    /// the tag's offset in the frame, in bytes.
    fn tag_part(&self, offset: usize) -> LinkExt
        ensures { result ≡ tag_part offset (extension self.now) };
}

impl TagSlice for LinkExtSlice<'_> {
    ghost extension = { link_extension_of };

    #[inline(always)]
    fn tag_part(&self, offset: usize) -> LinkExt {
        match self {
            LinkExtSlice::Vlan(tag) => vlan_part(tag, offset),
            LinkExtSlice::Macsec(packet) => macsec_part(&packet.header, offset),
        }
    }
}

impl TagSlice for LaxLinkExtSlice<'_> {
    ghost extension = { lax_extension_of };

    #[inline(always)]
    fn tag_part(&self, offset: usize) -> LinkExt {
        match self {
            LaxLinkExtSlice::Vlan(tag) => vlan_part(tag, offset),
            LaxLinkExtSlice::Macsec(packet) => macsec_part(&packet.header, offset),
        }
    }
}

/// Descriptions of a frame's VLAN and MACsec tags, at most three, and the offset in the frame at which the tags end.
#[derive(Drop)]
pub(crate) struct Tags {
    pub(crate) slots: [LinkExt; 3],
    pub(crate) end: usize,
}

/// Returns the descriptions of up to three consecutive VLAN or MACsec tags for C, and the offset after them; the first
/// tag is at `offset` in the frame.
#[inline(always)]
pub(crate) fn describe_tags<Slice: TagSlice>(extensions: &[Slice], offset: usize) -> Tags
    requires most { length extensions.now ≤ 3 }
    requires place { offset + tags_len (map Slice.extension extensions.now) < 2 ^ 64 }
    ensures slots { result.slots ≡ tag_slots offset (map Slice.extension extensions.now) }
    ensures end { result.end ≡ offset + tags_len (map Slice.extension extensions.now) }
{
    let Some((first, others)) = extensions.split_first() else {
        return Tags {
            slots: [no_tag(), no_tag(), no_tag()],
            end: offset,
        };
    };
    let outer = first.tag_part(offset);
    let outer_end = offset + outer.len;
    let Some((second, others)) = others.split_first() else {
        return Tags {
            slots: [outer, no_tag(), no_tag()],
            end: outer_end,
        };
    };
    let middle = second.tag_part(outer_end);
    let middle_end = outer_end + middle.len;
    let Some((third, _)) = others.split_first() else {
        return Tags {
            slots: [outer, middle, no_tag()],
            end: middle_end,
        };
    };
    let inner = third.tag_part(middle_end);
    let end = middle_end + inner.len;
    Tags {
        slots: [outer, middle, inner],
        end,
    }
}

/// Returns the description of an absent VLAN or MACsec tag for C: all fields are 0.
#[inline(always)]
pub(crate) fn no_tag() -> LinkExt
    ensures { result ≡ no_tag }
{
    LinkExt {
        kind: 0,
        vlan_id: 0,
        offset: 0,
        len: 0,
    }
}

/// Returns the description of a VLAN tag at `offset` in the frame for C.
#[inline(always)]
pub(crate) fn vlan_part(tag: &SingleVlanSlice<'_>, offset: usize) -> LinkExt
    ensures { result ≡ tag_part offset (vlan (vlan_slice_header tag.now) (vlan_slice_payload tag.now)) }
{
    LinkExt {
        kind: numbers::EXT_VLAN,
        vlan_id: tag.vlan_identifier().value(),
        offset,
        len: SingleVlanHeader::LEN,
    }
}

/// Returns the description of a MACsec tag at `offset` in the frame for C, from its header alone.
#[inline(always)]
fn macsec_part(header: &MacsecHeaderSlice<'_>, offset: usize) -> LinkExt
    ensures { (payload : MacsecPayload) → result ≡ tag_part offset (macsec (macsec_header_slice_header header.now) payload) }
{
    LinkExt {
        kind: numbers::EXT_MACSEC,
        vlan_id: 0,
        offset,
        len: header.header_len(),
    }
}
