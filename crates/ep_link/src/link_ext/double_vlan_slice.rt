//! Two VLAN tags (IEEE 802.1Q, 9.6) whose fields are read from a slice without copying it.

use crate::link_ext::{DoubleVlanHeader, SingleVlanSlice};
use ep_base::EtherPayloadSlice;

/// Slices of two VLAN tags (IEEE 802.1Q, 9.6) with their payloads. A MACsec tag may be between them.
#[derive(Clone, Debug, PartialEq, Eq, Drop)]
pub struct DoubleVlanSlice<'a> {
    /// Outer VLAN tag with its payload, which starts with the inner VLAN tag, or with a MACsec tag between the two.
    pub outer: SingleVlanSlice<'a>,
    /// Inner VLAN tag with its payload.
    pub inner: SingleVlanSlice<'a>,
}

impl<'a> DoubleVlanSlice<'a> {
    ghost use Rattle.std.specs.Prelude.{◌≡◌};
    ghost use Rattle.ep_base.specs.declared.len_source.LenSource.TheVariants as source;
    ghost use Rattle.ep_link.specs.VlanSlices.{double_vlan_slice_header, double_vlan_slice_payload};

    /// Returns both VLAN tags as owned values.
    #[inline]
    pub fn to_header(&self) -> DoubleVlanHeader
        ensures { result ≡ double_vlan_slice_header self.now }
    {
        DoubleVlanHeader {
            outer: self.outer.to_header(),
            inner: self.inner.to_header(),
        }
    }

    /// Payload after the inner VLAN tag, with its ether type: all bytes to the end of the inner tag's slice. Its
    /// `len_source` is always `Slice`, even if the short length of a preceding MACsec tag limits that slice.
    #[inline]
    pub fn payload(&self) -> EtherPayloadSlice<'a>
        ensures ether_type { result.ether_type ≡ (double_vlan_slice_header self.now).inner.ether_type }
        ensures len_source { result.len_source ≡ source.Slice }
        ensures payload { result.payload.now ≡ double_vlan_slice_payload self.now }
    {
        self.inner.payload()
    }
}
