//! VLAN tags among the link extensions of a packet, in strict and in lax decoding.

ghost use Rattle.std.specs.Prelude.{◌≡◌};
ghost use Rattle.ep_link.specs.declared.link_ext.vlan_slice.VlanSlice.TheVariants as vlan_slice;
ghost use Rattle.ep_packet.specs.PacketHeaders.{header_vlan_ids, outer_headers, vlan_headers};

use arrayvec::ArrayVec;
use ep_base::VlanId;
use ep_link::{
    DoubleVlanHeader, DoubleVlanSlice, LinkExtHeader, SingleVlanSlice, VlanHeader, VlanSlice,
};

/// Returns the outermost VLAN tag, or the two outermost as one double tag, if there are at least two; `None` without a
/// VLAN tag.
#[inline]
pub fn outer_vlan_headers(link_exts: &ArrayVec<LinkExtHeader, 3>) -> Option<VlanHeader>
    ensures { result ≡ outer_headers (vlan_headers link_exts.now.items) }
{
    let mut outer = None;
    for extension in link_exts.iter() {
        if let LinkExtHeader::Vlan(tag) = extension {
            match outer {
                None => outer = Some(tag.clone().unwrap()),
                Some(outer) => {
                    let inner = tag.clone().unwrap();
                    return Some(VlanHeader::Double(DoubleVlanHeader { outer, inner }));
                }
            }
        }
    }
    Some(VlanHeader::Single(outer?))
}

/// Returns the VLAN identifiers of all VLAN tags, from the outside in.
#[inline]
pub fn vlan_ids_of_headers(link_exts: &ArrayVec<LinkExtHeader, 3>) -> ArrayVec<VlanId, 3>
    ensures { result.items ≡ header_vlan_ids link_exts.now.items }
{
    let mut ids = ArrayVec::new();
    for extension in link_exts.iter() {
        if let LinkExtHeader::Vlan(tag) = extension {
            ids.push(tag.vlan_id);
        }
    }
    ids
}

/// Returns an outer and an inner VLAN tag as one double tag.
#[inline(always)]
pub fn double_vlan<'a>(outer: SingleVlanSlice<'a>, inner: &SingleVlanSlice<'a>) -> VlanSlice<'a>
    ensures { result ≡ vlan_slice.DoubleVlan (record { outer = outer.entry; inner = inner.now }) }
{
    let inner = inner.clone().unwrap();
    VlanSlice::DoubleVlan(DoubleVlanSlice { outer, inner })
}
