//! VLAN tags (IEEE 802.1Q, 9.6) as owned values.

ghost use Rattle.std.specs.Prelude.{◌≡◌, ◌++◌, ◌+◌, ◌<◌, ◌≤◌, [], IfOk, IfErr, OnOk, OnErr, IsOkAnd, length, vec_len, vec_capacity};
ghost use Rattle.ep_base.specs.Tables.{Parts, parts_of};
ghost use Rattle.ep_link.specs.Vlan.{vlan_bytes, IsVlan, RefusesVlan};

use crate::link_ext::SingleVlanSlice;
use ep_base::err::LenError;
use ep_base::{EtherType, VlanId, VlanPcp};
use std::alloc::AllocError;

/// VLAN tag (IEEE 802.1Q, 9.6), 4 bytes: the tag control information and the ether type of the payload. The tag's own
/// ether type is in the header before it.
#[derive(Clone, Debug, PartialEq, Eq, Drop)]
pub struct SingleVlanHeader {
    /// Priority code point (PCP) of the VLAN tag, the upper 3 bits of byte 0.
    pub pcp: VlanPcp,
    /// Drop eligible indicator (DEI) of the VLAN tag: the frame may be dropped first in congestion (byte 0, bit 0x10).
    pub drop_eligible_indicator: bool,
    /// VLAN identifier (VID) of the VLAN tag, the lower 12 bits of bytes 0 and 1.
    pub vlan_id: VlanId,
    /// Ether type of the payload after the VLAN tag, bytes 2 and 3.
    pub ether_type: EtherType,
}

impl SingleVlanHeader {
    /// Length of a VLAN tag in bytes.
    pub const LEN: usize = 4;

    /// Parses the VLAN tag at the start of `slice`, and returns it with the bytes after it.
    #[inline]
    pub fn from_slice(slice: &[u8]) -> Result<(SingleVlanHeader, &[u8]), LenError>
        ensures ok { IfOk result (λ read. IsVlan slice.now (parts_of read.0 read.1.now [])) }
        ensures only { (tagged : Parts SingleVlanHeader) → IsVlan slice.now tagged
            → IsOkAnd result (λ read. parts_of read.0 read.1.now [] ≡ tagged) }
        ensures err { IfErr result (RefusesVlan slice.now) }
    {
        let slice = SingleVlanSlice::from_slice(slice)?;
        Ok((slice.to_header(), slice.payload_slice()))
    }

    /// Length of a VLAN tag in bytes: 4.
    #[inline]
    pub fn header_len(&self) -> usize
        ensures { result ≡ 4 }
    {
        SingleVlanHeader::LEN
    }

    /// Returns the wire bytes of the VLAN tag: tag control information and ether type of the payload.
    #[inline]
    pub fn to_bytes(&self) -> [u8; 4]
        ensures { result ≡ vlan_bytes self.now }
    {
        let drop_eligible = if self.drop_eligible_indicator {
            0x10
        } else {
            0
        };
        let [i0, i1] = self.vlan_id.value().to_be_bytes();
        let [t0, t1] = self.ether_type.0.to_be_bytes();
        [self.pcp.value() * 32 + drop_eligible + i0, i1, t0, t1]
    }

    /// Appends the wire bytes of the VLAN tag to `buf`. Allocates only if the capacity of `buf` is too small; if the
    /// allocation fails, `buf` is unchanged.
    pub fn write(&self, buf: &mut Vec<u8>) -> Result<(), AllocError>
        ensures ok { OnOk result (buf.new.items ≡ buf.old.items ++ vlan_bytes self.now) }
        ensures err { OnErr result (buf.new.items ≡ buf.old.items) }
        ensures full { OnErr result (vec_capacity buf.old < vec_len buf.old + length (vlan_bytes self.now)) }
        ensures capacity { vec_capacity buf.old ≤ vec_capacity buf.new }
    {
        buf.extend_from_slice(&self.to_bytes())
    }
}
