//! Owned tags between the link header and the network layer: VLAN or MACsec.

ghost use Rattle.std.specs.Prelude.{◌≡◌, ◌≤◌, ◌++◌, ◌+◌, ◌<◌, length, OnOk, OnErr, vec_len, vec_capacity};
ghost use Rattle.ep_link.specs.LinkExtensions.{link_ext_bytes, link_ext_header_len, link_ext_next_type};

use crate::link_ext::{MacsecHeader, SingleVlanHeader};
use arrayvec::ArrayVec;
use ep_base::{EtherType, VlanId, VlanPcp};
use std::alloc::AllocError;

/// VLAN or MACsec tag between the link header and the network layer, owned.
#[derive(Clone, Debug, PartialEq, Eq, Drop)]
pub enum LinkExtHeader {
    /// VLAN tag (IEEE 802.1Q), 4 bytes.
    Vlan(SingleVlanHeader),
    /// MACsec tag (IEEE 802.1AE), 6 to 16 bytes.
    Macsec(MacsecHeader),
}

impl Default for LinkExtHeader {
    ghost use Rattle.std.specs.Prelude.{◌≡◌, ◌∷◌, []};
    ghost use Rattle.ep_link.specs.Vlan.{vlan_header_of};
    ghost use Rattle.ep_link.specs.declared.link_ext.link_ext_header.LinkExtHeader.TheVariants as header;

    ghost is_default = { λ tag. tag ≡ header.Vlan (vlan_header_of (0 ∷ 0 ∷ 0 ∷ 0 ∷ [])) };

    /// Returns a VLAN tag of four zero bytes.
    fn default() -> LinkExtHeader {
        LinkExtHeader::Vlan(SingleVlanHeader {
            pcp: VlanPcp::ZERO,
            drop_eligible_indicator: false,
            vlan_id: VlanId::ZERO,
            ether_type: EtherType(0),
        })
    }
}

impl LinkExtHeader {
    /// Length of the VLAN or MACsec tag in bytes: 4 for VLAN, 6 to 16 for MACsec.
    #[inline]
    pub fn header_len(&self) -> usize
        ensures value { result ≡ link_ext_header_len self.now }
        ensures bytes { result ≡ length (link_ext_bytes self.now) }
        ensures bound { result ≤ 16 }
    {
        match self {
            LinkExtHeader::Vlan(header) => header.header_len(),
            LinkExtHeader::Macsec(header) => header.header_len(),
        }
    }

    /// Ether type of the payload after the VLAN or MACsec tag, or `None` if a MACsec payload is modified or encrypted.
    #[inline]
    pub fn next_ether_type(&self) -> Option<EtherType>
        ensures { result ≡ link_ext_next_type self.now }
    {
        match self {
            LinkExtHeader::Vlan(header) => Some(header.ether_type),
            LinkExtHeader::Macsec(header) => header.next_ether_type(),
        }
    }

    /// Returns the wire bytes of the VLAN or MACsec tag, 4 to 16.
    pub fn to_bytes(&self) -> ArrayVec<u8, 16>
        ensures { result.items ≡ link_ext_bytes self.now }
    {
        match self {
            LinkExtHeader::Vlan(header) => {
                let mut bytes = ArrayVec::new();
                bytes.try_extend_from_slice(&header.to_bytes()).unwrap();
                bytes
            }
            LinkExtHeader::Macsec(header) => header.to_bytes(),
        }
    }

    /// Appends the wire bytes of the VLAN or MACsec tag to `buf`. Allocates only if the capacity of `buf` is too small;
    /// if the allocation fails, `buf` is unchanged.
    pub fn write(&self, buf: &mut Vec<u8>) -> Result<(), AllocError>
        ensures ok { OnOk result (buf.new.items ≡ buf.old.items ++ link_ext_bytes self.now) }
        ensures err { OnErr result (buf.new.items ≡ buf.old.items) }
        ensures full { OnErr result (vec_capacity buf.old < vec_len buf.old + length (link_ext_bytes self.now)) }
        ensures capacity { vec_capacity buf.old ≤ vec_capacity buf.new }
    {
        match self {
            LinkExtHeader::Vlan(header) => header.write(buf),
            LinkExtHeader::Macsec(header) => header.write(buf),
        }
    }
}
