//! One or two VLAN tags with their payloads (IEEE 802.1Q, 9.6) in slices.

use crate::link_ext::{DoubleVlanSlice, SingleVlanSlice, VlanHeader};
use ep_base::EtherPayloadSlice;

/// Slices of one VLAN tag or of two VLAN tags (IEEE 802.1Q, 9.6), with their payloads.
#[derive(Clone, Debug, PartialEq, Eq, Drop)]
pub enum VlanSlice<'a> {
    /// Single VLAN tag and its payload.
    SingleVlan(SingleVlanSlice<'a>),
    /// Two VLAN tags, the outer and the inner one, with their payloads. A MACsec tag may be between them.
    DoubleVlan(DoubleVlanSlice<'a>),
}

impl<'a> VlanSlice<'a> {
    ghost use Rattle.std.specs.Prelude.{◌≡◌};
    ghost use Rattle.ep_base.specs.declared.len_source.LenSource.TheVariants as source;
    ghost use Rattle.ep_link.specs.VlanSlices.{vlan_tags_of, innermost_tag, vlan_slice_header, vlan_slice_payload};

    /// Returns the VLAN tags (one or two) as owned values.
    #[inline]
    pub fn to_header(&self) -> VlanHeader
        ensures { result ≡ vlan_tags_of self.now }
    {
        match self {
            VlanSlice::SingleVlan(tag) => VlanHeader::Single(tag.to_header()),
            VlanSlice::DoubleVlan(tags) => VlanHeader::Double(tags.to_header()),
        }
    }

    /// Payload after the last VLAN tag (the inner one of two), with its ether type: all bytes to the end of that tag's
    /// slice. Its `len_source` is always `Slice`, even if the short length of a preceding MACsec tag limits that slice.
    #[inline]
    pub fn payload(&self) -> EtherPayloadSlice<'a>
        ensures ether_type { result.ether_type ≡ (vlan_slice_header (innermost_tag self.now)).ether_type }
        ensures len_source { result.len_source ≡ source.Slice }
        ensures payload { result.payload.now ≡ vlan_slice_payload (innermost_tag self.now) }
    {
        match self {
            VlanSlice::SingleVlan(tag) => tag.payload(),
            VlanSlice::DoubleVlan(tags) => tags.payload(),
        }
    }
}
