//! VLAN tags with their payloads (IEEE 802.1Q, 9.6) whose fields are read from a slice without copying it.

use crate::link_ext::SingleVlanHeader;
use ep_base::err::{Layer, LenError};
use ep_base::{AtLeast, EtherPayloadSlice, EtherType, LenSource, VlanId, VlanPcp};

/// Slice of a VLAN tag (IEEE 802.1Q, 9.6) and its payload.
#[derive(Clone, Debug, PartialEq, Eq, Drop)]
pub struct SingleVlanSlice<'a> {
    bytes: AtLeast<'a, 4>,
}

impl<'a> SingleVlanSlice<'a> {
    ghost use Rattle.std.specs.Prelude.{◌≡◌, ◌++◌, ◌∷◌, [], IfOk, IfErr, IsOkAnd, List, ℕ};
    ghost use Rattle.ep_base.specs.Tables.{Parts};
    ghost use Rattle.ep_link.specs.declared.link_ext.single_vlan_header.SingleVlanHeader.{SingleVlanHeader};
    ghost use Rattle.ep_base.specs.declared.len_source.LenSource.TheVariants as source;
    ghost use Rattle.ep_link.specs.Vlan.{IsVlan, RefusesVlan};
    ghost use Rattle.ep_link.specs.VlanSlices.{vlan_slice_bytes, vlan_slice_header};
    ghost use Rattle.ep_link.specs.VlanSlices.{vlan_slice_payload, vlan_slice_parts};

    /// Parses `slice` as a VLAN tag: 4 bytes of tag control information and ether type, and all other bytes as its
    /// payload.
    pub fn from_slice(slice: &'a [u8]) -> Result<SingleVlanSlice<'a>, LenError>
        ensures ok { IfOk result (λ shown. (left : List ℕ) × (slice.now ≡ vlan_slice_bytes shown ++ left)
            × IsVlan slice.now (vlan_slice_parts shown left)) }
        ensures only { (tagged : Parts SingleVlanHeader) → IsVlan slice.now tagged
            → IsOkAnd result (λ shown. vlan_slice_parts shown tagged.left ≡ tagged) }
        ensures err { IfErr result (RefusesVlan slice.now) }
    {
        if slice.len() < SingleVlanHeader::LEN {
            return Err(LenError::at_start(
                SingleVlanHeader::LEN,
                slice.len(),
                LenSource::Slice,
                Layer::VlanHeader,
            ));
        }
        Ok(SingleVlanSlice {
            bytes: AtLeast { slice },
        })
    }

    /// Returns a VLAN tag of four zero bytes with an empty payload.
    pub(crate) fn zeros() -> SingleVlanSlice<'a>
        ensures { vlan_slice_bytes result ≡ 0 ∷ 0 ∷ 0 ∷ 0 ∷ [] }
    {
        SingleVlanSlice {
            bytes: AtLeast { slice: &[0; 4] },
        }
    }

    /// All bytes of the VLAN tag and its payload.
    #[inline]
    pub fn slice(&self) -> &'a [u8]
        ensures { result.now ≡ vlan_slice_bytes self.now }
    {
        self.bytes.slice
    }

    /// Length of a VLAN tag in bytes: 4.
    #[inline]
    pub fn header_len(&self) -> usize
        ensures { result ≡ 4 }
    {
        SingleVlanHeader::LEN
    }

    /// Priority code point (PCP) of the VLAN tag, the upper 3 bits of byte 0.
    #[inline]
    pub fn pcp(&self) -> VlanPcp
        ensures { result ≡ (vlan_slice_header self.now).pcp }
    {
        VlanPcp::try_new(self.bytes.slice[0] >> 5).unwrap()
    }

    /// Drop eligible indicator (DEI) of the VLAN tag: the frame may be dropped first in congestion (byte 0, bit 0x10).
    #[inline]
    pub fn drop_eligible_indicator(&self) -> bool
        ensures { result ≡ (vlan_slice_header self.now).drop_eligible_indicator }
    {
        (self.bytes.slice[0] >> 4) & 1 == 1
    }

    /// VLAN identifier (VID) of the VLAN tag, the lower 12 bits of bytes 0 and 1.
    #[inline]
    pub fn vlan_identifier(&self) -> VlanId
        ensures { result ≡ (vlan_slice_header self.now).vlan_id }
    {
        let priority_and_id = u16::from_be_bytes([self.bytes.slice[0], self.bytes.slice[1]]);
        VlanId::try_new(priority_and_id & 0xfff).unwrap()
    }

    /// Ether type of the payload after the VLAN tag, bytes 2 and 3.
    #[inline]
    pub fn ether_type(&self) -> EtherType
        ensures { result ≡ (vlan_slice_header self.now).ether_type }
    {
        EtherType(u16::from_be_bytes([self.bytes.slice[2], self.bytes.slice[3]]))
    }

    /// Returns the VLAN tag as an owned value.
    #[inline]
    pub fn to_header(&self) -> SingleVlanHeader
        ensures { result ≡ vlan_slice_header self.now }
    {
        SingleVlanHeader {
            pcp: self.pcp(),
            drop_eligible_indicator: self.drop_eligible_indicator(),
            vlan_id: self.vlan_identifier(),
            ether_type: self.ether_type(),
        }
    }

    /// Payload of the VLAN tag: the bytes after it.
    #[inline]
    pub fn payload_slice(&self) -> &'a [u8]
        ensures { result.now ≡ vlan_slice_payload self.now }
    {
        &self.bytes.slice[SingleVlanHeader::LEN..]
    }

    /// Payload after the VLAN tag, with its ether type: all bytes to the end of the slice, since the tag has no length
    /// field. Its `len_source` is `Slice`.
    #[inline]
    pub fn payload(&self) -> EtherPayloadSlice<'a>
        ensures ether_type { result.ether_type ≡ (vlan_slice_header self.now).ether_type }
        ensures len_source { result.len_source ≡ source.Slice }
        ensures payload { result.payload.now ≡ vlan_slice_payload self.now }
    {
        EtherPayloadSlice {
            ether_type: self.ether_type(),
            len_source: LenSource::Slice,
            payload: self.payload_slice(),
        }
    }
}
