//! One or two VLAN tags (IEEE 802.1Q, 9.6) as owned values.

ghost use Rattle.std.specs.Prelude.{◌≡◌, ◌++◌, ◌+◌, ◌<◌, ◌≤◌, OnOk, OnErr, length, vec_len, vec_capacity};
ghost use Rattle.ep_link.specs.Vlan.{vlan_tags_bytes};

use crate::link_ext::{DoubleVlanHeader, SingleVlanHeader};
use arrayvec::ArrayVec;
use std::alloc::AllocError;

/// One VLAN tag or two VLAN tags (IEEE 802.1Q, 9.6).
#[derive(Clone, Debug, PartialEq, Eq, Drop)]
pub enum VlanHeader {
    /// Single VLAN tag.
    Single(SingleVlanHeader),
    /// Two VLAN tags, the outer and the inner one.
    Double(DoubleVlanHeader),
}

impl VlanHeader {
    /// Length of the VLAN tags in bytes: 4 for one tag, 8 for two.
    #[inline]
    pub fn header_len(&self) -> usize
        ensures { result ≡ length (vlan_tags_bytes self.now) }
    {
        match self {
            VlanHeader::Single(tag) => tag.header_len(),
            VlanHeader::Double(tags) => tags.header_len(),
        }
    }

    /// Returns the wire bytes of the VLAN tags: 4 for one tag, 8 for two, the outer one first.
    #[inline]
    pub fn to_bytes(&self) -> ArrayVec<u8, 8>
        ensures { result.items ≡ vlan_tags_bytes self.now }
    {
        let mut bytes = ArrayVec::new();
        match self {
            VlanHeader::Single(tag) => bytes.try_extend_from_slice(&tag.to_bytes()).unwrap(),
            VlanHeader::Double(tags) => bytes.try_extend_from_slice(&tags.to_bytes()).unwrap(),
        }
        bytes
    }

    /// Appends the wire bytes of the VLAN tags (one or two) to `buf`. Allocates only if the capacity of `buf` is too
    /// small; if the allocation fails, `buf` is unchanged.
    pub fn write(&self, buf: &mut Vec<u8>) -> Result<(), AllocError>
        ensures ok { OnOk result (buf.new.items ≡ buf.old.items ++ vlan_tags_bytes self.now) }
        ensures err { OnErr result (buf.new.items ≡ buf.old.items) }
        ensures full { OnErr result (vec_capacity buf.old < vec_len buf.old + length (vlan_tags_bytes self.now)) }
        ensures capacity { vec_capacity buf.old ≤ vec_capacity buf.new }
    {
        match self {
            VlanHeader::Single(tag) => tag.write(buf),
            VlanHeader::Double(tags) => tags.write(buf),
        }
    }
}
