//! Link extension (VLAN or MACsec tag) in a slice, as lax slicing reads it.

use crate::lax_macsec_payload_slice::LaxMacsecPayloadSlice;
use crate::lax_macsec_slice::LaxMacsecSlice;
use ep_base::err::macsec;
use ep_base::{EtherType, LenSource, ether_type};
use ep_link::{LinkExtHeader, LinkExtSlice, SingleVlanSlice};

/// Link extension read by lax slicing: a valid VLAN or MACsec tag between link header and network layer, with its
/// payload.
#[derive(Clone, Debug, PartialEq, Eq, Drop)]
pub enum LaxLinkExtSlice<'a> {
    /// VLAN tag with its payload, all bytes after the tag.
    Vlan(SingleVlanSlice<'a>),
    /// MACsec tag with its payload; bytes of the payload may be missing.
    Macsec(LaxMacsecSlice<'a>),
}

impl Default for LaxLinkExtSlice<'_> {
    ghost use Rattle.std.specs.Prelude.{◌≡◌, ◌∷◌, []};
    ghost use Rattle.ep_link.specs.Vlan.{vlan_header_of};
    ghost use Rattle.ep_link.specs.LinkExtensions.{vlan};
    ghost use Rattle.ep_lax.specs.LaxViews.{lax_extension_of};

    ghost is_default = { λ extension. lax_extension_of extension ≡ vlan (vlan_header_of (0 ∷ 0 ∷ 0 ∷ 0 ∷ [])) [] };

    /// Returns a VLAN tag of four zero bytes, with an empty payload.
    fn default() -> Self {
        match LinkExtSlice::default() {
            LinkExtSlice::Vlan(tag) => LaxLinkExtSlice::Vlan(tag),
            LinkExtSlice::Macsec(_) => unreachable!(),
        }
    }
}

impl<'a> LaxLinkExtSlice<'a> {
    ghost use Rattle.std.specs.Prelude.{◌≡◌, IfOk, IfErr, IfSome, IfNone};
    ghost use Rattle.ep_link.specs.LinkExtensions.{BeginsLinkExtension};
    ghost use Rattle.ep_lax.specs.LaxViews.{extension_incomplete};
    ghost use Rattle.ep_lax.specs.LaxPayloads.{extension_source};
    ghost use Rattle.ep_lax.specs.LaxWalk.{IsShownExtension, RefusesTag};
    ghost use Rattle.ep_link.specs.LinkExtensions.{extension_header, extension_payload, extension_type, link_ext_header_len};
    ghost use Rattle.ep_lax.specs.LaxViews.{lax_extension_of};

    /// Parses the link extension (VLAN or MACsec tag) at the start of bytes with this ether type. Returns `None` if the
    /// ether type is that of neither. `outer` is true if bytes of the enclosing layer are missing.
    #[inline(always)]
    pub(crate) fn read(
        ether_type: EtherType,
        slice: &'a [u8],
        outer: bool,
    ) -> Result<Option<LaxLinkExtSlice<'a>>, macsec::HeaderSliceError>
        ensures none { IfOk result (λ found. IfNone found (¬ BeginsLinkExtension ether_type)) }
        ensures ok { IfOk result (λ found. IfSome found (IsShownExtension outer ether_type slice.now)) }
        ensures err { IfErr result (RefusesTag ether_type slice.now) }
    {
        match ether_type {
            ether_type::VLAN_TAGGED_FRAME
            | ether_type::PROVIDER_BRIDGING
            | ether_type::VLAN_DOUBLE_TAGGED_FRAME => match SingleVlanSlice::from_slice(slice) {
                Ok(tag) => Ok(Some(LaxLinkExtSlice::Vlan(tag))),
                Err(error) => Err(macsec::HeaderSliceError::Len(error)),
            },
            ether_type::MACSEC => match LaxMacsecSlice::read(slice, outer) {
                Ok(packet) => Ok(Some(LaxLinkExtSlice::Macsec(packet))),
                Err(error) => Err(error),
            },
            _ => Ok(None),
        }
    }

    /// Returns true if bytes of the payload after this VLAN or MACsec tag are missing. `outer` is true if bytes of the
    /// enclosing layer are missing; a VLAN tag has no length field and returns `outer`.
    #[inline]
    pub(crate) fn incomplete_in(&self, outer: bool) -> bool
        ensures { result ≡ extension_incomplete outer self.now }
    {
        match self {
            LaxLinkExtSlice::Vlan(_) => outer,
            LaxLinkExtSlice::Macsec(packet) => packet.payload.incomplete(),
        }
    }

    /// Returns the source of the length of the payload after this VLAN or MACsec tag: the MACsec short length, if it
    /// limits an unmodified payload, else `outer`, the source of the enclosing layer's length.
    #[inline]
    pub(crate) fn len_source_in(&self, outer: LenSource) -> LenSource
        ensures { result ≡ extension_source outer (lax_extension_of self.now) }
    {
        let LaxLinkExtSlice::Macsec(packet) = self else {
            return outer;
        };
        match &packet.payload {
            LaxMacsecPayloadSlice::Unmodified(payload) => payload.len_source.limited_by(outer),
            LaxMacsecPayloadSlice::Modified { .. } => outer,
        }
    }

    /// Returns an owned copy of the VLAN or MACsec tag, without its payload.
    pub fn to_header(&self) -> LinkExtHeader
        ensures { result ≡ extension_header (lax_extension_of self.now) }
    {
        match self {
            LaxLinkExtSlice::Vlan(tag) => LinkExtHeader::Vlan(tag.to_header()),
            LaxLinkExtSlice::Macsec(packet) => LinkExtHeader::Macsec(packet.to_header()),
        }
    }

    /// Length of the VLAN or MACsec tag in bytes, including the ether type of the payload (absent after a MACsec tag
    /// with a modified payload).
    #[inline]
    pub fn header_len(&self) -> usize
        ensures { result ≡ link_ext_header_len (extension_header (lax_extension_of self.now)) }
    {
        match self {
            LaxLinkExtSlice::Vlan(tag) => tag.header_len(),
            LaxLinkExtSlice::Macsec(packet) => packet.header_len(),
        }
    }

    /// Ether type of the payload after the VLAN or MACsec tag; `None` for a MACsec payload that is encrypted or
    /// modified.
    #[inline]
    pub fn next_ether_type(&self) -> Option<EtherType>
        ensures { result ≡ extension_type (lax_extension_of self.now) }
    {
        match self {
            LaxLinkExtSlice::Vlan(tag) => Some(tag.ether_type()),
            LaxLinkExtSlice::Macsec(packet) => packet.next_ether_type(),
        }
    }

    /// Payload after the VLAN or MACsec tag, limited to the available bytes.
    #[inline]
    pub fn payload_slice(&self) -> &'a [u8]
        ensures { result.now ≡ extension_payload (lax_extension_of self.now) }
    {
        match self {
            LaxLinkExtSlice::Vlan(tag) => tag.payload_slice(),
            LaxLinkExtSlice::Macsec(packet) => packet.payload.slice(),
        }
    }
}
