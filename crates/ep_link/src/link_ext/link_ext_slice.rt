//! Link extensions (VLAN or MACsec tags with their payloads) of sliced frames.

ghost use Rattle.std.specs.Prelude.{◌≡◌};
ghost use Rattle.std.specs.Option.{option_map};
ghost use Rattle.ep_link.specs.EtherPayloads.{ether_payload_of};
ghost use Rattle.ep_link.specs.LinkExtensions.{extension_ether_payload, extension_header, extension_payload};
ghost use Rattle.ep_link.specs.LinkExtensions.{extension_type, link_ext_header_len, link_extension_of};

use crate::link_ext::{LinkExtHeader, MacsecSlice, SingleVlanSlice};
use ep_base::err::macsec::HeaderSliceError;
use ep_base::{EtherPayloadSlice, EtherType, ether_type};

/// Link extension of a sliced frame: a VLAN or MACsec tag after the link header, with its payload.
#[derive(Clone, Debug, PartialEq, Eq, Drop)]
pub enum LinkExtSlice<'a> {
    /// VLAN tag (IEEE 802.1Q) and its payload.
    Vlan(SingleVlanSlice<'a>),
    /// MACsec tag (IEEE 802.1AE) and its payload.
    Macsec(MacsecSlice<'a>),
}

impl Default for LinkExtSlice<'_> {
    ghost use Rattle.std.specs.Prelude.{◌≡◌, ◌∷◌, []};
    ghost use Rattle.ep_link.specs.Vlan.{vlan_header_of};
    ghost use Rattle.ep_link.specs.LinkExtensions.{link_extension_of, vlan};

    ghost is_default = { λ extension. link_extension_of extension ≡ vlan (vlan_header_of (0 ∷ 0 ∷ 0 ∷ 0 ∷ [])) [] };

    /// Returns a VLAN tag of four zero bytes with an empty payload.
    fn default() -> Self {
        LinkExtSlice::Vlan(SingleVlanSlice::zeros())
    }
}

impl<'a> LinkExtSlice<'a> {
    ghost use Rattle.std.specs.Prelude.{◌++◌, IfOk, IfErr, IfSome, IfNone, IsOkAnd, List, ℕ, Some};
    ghost use Rattle.ep_link.specs.LinkExtensions.{BeginsLinkExtension, IsLinkExtension, LinkExtension};
    ghost use Rattle.ep_link.specs.LinkExtensions.{RefusesLinkExtension, link_ext_slice_bytes};

    /// Parses `slice` as a VLAN or MACsec tag with its payload, if `ether_type` announces one. Returns `Ok(None)` for
    /// any other ether type.
    pub fn from_ether_type(
        ether_type: EtherType,
        slice: &'a [u8],
    ) -> Result<Option<LinkExtSlice<'a>>, HeaderSliceError>
        ensures none { IfOk result (λ found. IfNone found (¬ BeginsLinkExtension ether_type)) }
        ensures ok { IfOk result (λ found. IfSome found (λ shown. (left : List ℕ)
            × (slice.now ≡ link_ext_slice_bytes shown ++ left)
            × IsLinkExtension ether_type slice.now (link_extension_of shown, left))) }
        ensures only { (part : LinkExtension × List ℕ) → IsLinkExtension ether_type slice.now part
            → IsOkAnd result (λ found. option_map link_extension_of found ≡ Some part.0) }
        ensures err { IfErr result (RefusesLinkExtension ether_type slice.now) }
    {
        match ether_type {
            ether_type::VLAN_TAGGED_FRAME
            | ether_type::PROVIDER_BRIDGING
            | ether_type::VLAN_DOUBLE_TAGGED_FRAME => match SingleVlanSlice::from_slice(slice) {
                Ok(tag) => Ok(Some(LinkExtSlice::Vlan(tag))),
                Err(error) => Err(HeaderSliceError::Len(error)),
            },
            ether_type::MACSEC => match MacsecSlice::from_slice(slice) {
                Ok(packet) => Ok(Some(LinkExtSlice::Macsec(packet))),
                Err(error) => Err(error),
            },
            _ => Ok(None),
        }
    }

    /// Length of the VLAN or MACsec tag in bytes: 4 for VLAN, 6 to 16 for MACsec.
    #[inline]
    pub fn header_len(&self) -> usize
        ensures { result ≡ link_ext_header_len (extension_header (link_extension_of self.now)) }
    {
        match self {
            LinkExtSlice::Vlan(tag) => tag.header_len(),
            LinkExtSlice::Macsec(packet) => packet.header_len(),
        }
    }

    /// Returns the VLAN or MACsec tag as an owned value.
    pub fn to_header(&self) -> LinkExtHeader
        ensures { result ≡ extension_header (link_extension_of self.now) }
    {
        match self {
            LinkExtSlice::Vlan(tag) => LinkExtHeader::Vlan(tag.to_header()),
            LinkExtSlice::Macsec(packet) => LinkExtHeader::Macsec(packet.to_header()),
        }
    }

    /// Ether type of the payload after the VLAN or MACsec tag, or `None` if a MACsec payload is modified or encrypted.
    #[inline]
    pub fn next_ether_type(&self) -> Option<EtherType>
        ensures { result ≡ extension_type (link_extension_of self.now) }
    {
        match self {
            LinkExtSlice::Vlan(tag) => Some(tag.ether_type()),
            LinkExtSlice::Macsec(packet) => packet.next_ether_type(),
        }
    }

    /// Bytes of the payload after the VLAN or MACsec tag.
    #[inline]
    pub fn payload_slice(&self) -> &'a [u8]
        ensures { result.now ≡ extension_payload (link_extension_of self.now) }
    {
        match self {
            LinkExtSlice::Vlan(tag) => tag.payload_slice(),
            LinkExtSlice::Macsec(packet) => packet.payload.slice(),
        }
    }

    /// Payload after the VLAN or MACsec tag with its ether type, or `None` if a MACsec payload is modified or
    /// encrypted.
    #[inline]
    pub fn ether_payload(&self) -> Option<EtherPayloadSlice<'a>>
        ensures { option_map ether_payload_of result ≡ extension_ether_payload (link_extension_of self.now) }
    {
        match self {
            LinkExtSlice::Vlan(tag) => Some(tag.payload()),
            LinkExtSlice::Macsec(packet) => packet.ether_payload(),
        }
    }
}
