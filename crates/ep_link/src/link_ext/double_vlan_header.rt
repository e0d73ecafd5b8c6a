//! Two successive VLAN tags (IEEE 802.1Q, 9.6) as owned values.

ghost use Rattle.std.specs.Prelude.{◌≡◌, ◌++◌, ◌+◌, ◌<◌, ◌≤◌, [], IfOk, IfErr, OnOk, OnErr, IsOkAnd, length, vec_len, vec_capacity};
ghost use Rattle.ep_base.specs.Tables.{Parts, parts_of};
ghost use Rattle.ep_link.specs.Vlan.{double_vlan_bytes, IsDoubleVlan, RefusesDoubleVlan};

use crate::link_ext::{SingleVlanHeader, SingleVlanSlice};
use ep_base::err::LenError;
use std::alloc::AllocError;

/// Two VLAN tags (IEEE 802.1Q, 9.6), 8 bytes.
#[derive(Clone, Debug, PartialEq, Eq, Drop)]
pub struct DoubleVlanHeader {
    /// Outer VLAN tag of two, bytes 0 to 3.
    pub outer: SingleVlanHeader,
    /// Inner VLAN tag of two, bytes 4 to 7.
    pub inner: SingleVlanHeader,
}

impl DoubleVlanHeader {
    /// Length of two successive VLAN tags in bytes.
    pub const LEN: usize = 8;

    /// Parses two VLAN tags at the start of `slice`, and returns them with the bytes after them. The ether type in the
    /// outer tag is not checked, so it need not be that of a VLAN tag. If only the inner tag is truncated, the layer
    /// start offset of the length error is 4 bytes.
    pub fn from_slice(slice: &[u8]) -> Result<(DoubleVlanHeader, &[u8]), LenError>
        ensures ok { IfOk result (λ read. IsDoubleVlan slice.now (parts_of read.0 read.1.now [])) }
        ensures only { (tagged : Parts DoubleVlanHeader) → IsDoubleVlan slice.now tagged
            → IsOkAnd result (λ read. parts_of read.0 read.1.now [] ≡ tagged) }
        ensures err { IfErr result (RefusesDoubleVlan slice.now) }
    {
        let outer = SingleVlanSlice::from_slice(slice)?;
        match SingleVlanSlice::from_slice(outer.payload_slice()) {
            Ok(inner) => Ok((
                DoubleVlanHeader {
                    outer: outer.to_header(),
                    inner: inner.to_header(),
                },
                inner.payload_slice(),
            )),
            Err(error) => Err(error.add_offset(SingleVlanHeader::LEN)),
        }
    }

    /// Length of two successive VLAN tags in bytes: 8.
    #[inline]
    pub fn header_len(&self) -> usize
        ensures { result ≡ 8 }
    {
        DoubleVlanHeader::LEN
    }

    /// Returns the wire bytes of both VLAN tags, the outer one first.
    #[inline]
    pub fn to_bytes(&self) -> [u8; 8]
        ensures { result ≡ double_vlan_bytes self.now }
    {
        let [o0, o1, o2, o3] = self.outer.to_bytes();
        let [i0, i1, i2, i3] = self.inner.to_bytes();
        [o0, o1, o2, o3, i0, i1, i2, i3]
    }

    /// Appends the wire bytes of both VLAN tags to `buf`. Allocates only if the capacity of `buf` is too small; if the
    /// allocation fails, `buf` is unchanged.
    pub fn write(&self, buf: &mut Vec<u8>) -> Result<(), AllocError>
        ensures ok { OnOk result (buf.new.items ≡ buf.old.items ++ double_vlan_bytes self.now) }
        ensures err { OnErr result (buf.new.items ≡ buf.old.items) }
        ensures full { OnErr result (vec_capacity buf.old < vec_len buf.old + length (double_vlan_bytes self.now)) }
        ensures capacity { vec_capacity buf.old ≤ vec_capacity buf.new }
    {
        buf.extend_from_slice(&self.to_bytes())
    }
}
