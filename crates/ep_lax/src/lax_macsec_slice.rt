//! MACsec packet in a slice, as lax slicing reads it: bytes of the payload may be missing (IEEE 802.1AE, 9).

ghost use Rattle.std.specs.Prelude.{◌≡◌};
ghost use Rattle.ep_link.specs.MacsecSlices.{macsec_header_slice_header};
ghost use Rattle.ep_lax.specs.LaxMacsec.{macsec_stated_len};

use crate::lax_ether_payload_slice::LaxEtherPayloadSlice;
use crate::lax_macsec_payload_slice::LaxMacsecPayloadSlice;
use ep_base::err::macsec::HeaderSliceError;
use ep_base::lax_cut::{LengthField, limit_by_length_field};
use ep_base::{EtherType, LenSource};
use ep_link::{MacsecHeader, MacsecHeaderSlice, MacsecPType};

/// MACsec tag (IEEE 802.1AE, 9) with the payload after it, read by lax slicing. The short length limits the payload,
/// unless it is 0 or above the available bytes.
#[derive(Clone, Debug, PartialEq, Eq, Drop)]
pub struct LaxMacsecSlice<'a> {
    /// MACsec tag (SecTAG) of the packet, with the ether type after it, if the payload is unmodified.
    pub header: MacsecHeaderSlice<'a>,
    /// Payload after the MACsec tag; bytes of it may be missing.
    pub payload: LaxMacsecPayloadSlice<'a>,
}

impl<'a> LaxMacsecSlice<'a> {
    ghost use Rattle.std.specs.Prelude.{◌≡◌, ◌++◌, IfOk, IfErr, IsOkAnd, false};
    ghost use Rattle.ep_base.specs.LaxCut.{LaxCut};
    ghost use Rattle.ep_link.specs.declared.link_ext.macsec_header.MacsecHeader.{MacsecHeader};
    ghost use Rattle.ep_link.specs.Macsec.{RefusesMacsecHeader, macsec_header_len, macsec_payload_type};
    ghost use Rattle.ep_link.specs.MacsecSlices.{macsec_header_slice_header};
    ghost use Rattle.ep_lax.specs.LaxMacsec.{IsLaxMacsec, lax_macsec_payload, macsec_stated_len};
    ghost use Rattle.ep_lax.specs.LaxSlices.{ShowsLaxMacsec, lax_macsec_slice_bytes, lax_macsec_slice_header, lax_macsec_slice_incomplete, lax_macsec_slice_payload};

    /// Slices the MACsec packet at the start of the slice. A short length that is 0 or above the available bytes is
    /// ignored; if it is above, the payload is incomplete. A short length of 1, too small for the ether type of an
    /// unmodified payload, is an error of the tag.
    pub fn from_slice(slice: &'a [u8]) -> Result<LaxMacsecSlice<'a>, HeaderSliceError>
        ensures ok { IfOk result (λ shown. (cut : LaxCut) × ShowsLaxMacsec false slice.now shown cut) }
        ensures only { (read : MacsecHeader × LaxCut) → IsLaxMacsec false slice.now read
            → IsOkAnd result (λ shown. (lax_macsec_slice_header shown ≡ read.0)
            × (lax_macsec_slice_payload shown ≡ lax_macsec_payload read.0 read.1)
            × (lax_macsec_slice_incomplete shown ≡ read.1.incomplete)) }
        ensures err { IfErr result (RefusesMacsecHeader slice.now) }
    {
        LaxMacsecSlice::read(slice, false)
    }

    /// Slices the MACsec packet at the start of the slice, as lax slicing does. `outer` is true if bytes of the
    /// enclosing layer are missing.
    #[inline(always)]
    pub(crate) fn read(slice: &'a [u8], outer: bool) -> Result<LaxMacsecSlice<'a>, HeaderSliceError>
        ensures ok { IfOk result (λ shown. (cut : LaxCut) × ShowsLaxMacsec outer slice.now shown cut) }
        ensures err { IfErr result (RefusesMacsecHeader slice.now) }
    {
        let header = match MacsecHeaderSlice::from_slice(slice) {
            Ok(header) => header,
            Err(error) => return Err(error),
        };
        let header_len = header.header_len();
        let field = LengthField {
            least: header_len,
            stated: macsec_stated_len(&header),
            source: LenSource::MacsecShortLength,
        };
        let content = limit_by_length_field(slice, header_len, field, outer);
        let payload = LaxMacsecPayloadSlice::of_tag(&header, content);
        Ok(LaxMacsecSlice { header, payload })
    }

    /// Length of the MACsec tag in bytes, including the ether type if the payload is unmodified.
    #[inline]
    pub fn header_len(&self) -> usize
        ensures { result ≡ macsec_header_len (lax_macsec_slice_header self.now) }
    {
        self.header.header_len()
    }

    /// Returns an owned copy of the MACsec tag.
    #[inline]
    pub fn to_header(&self) -> MacsecHeader
        ensures { result ≡ lax_macsec_slice_header self.now }
    {
        self.header.to_header()
    }

    /// Ether type of the MACsec payload; `None` if the payload is encrypted or otherwise modified.
    #[inline]
    pub fn next_ether_type(&self) -> Option<EtherType>
        ensures { result ≡ macsec_payload_type (lax_macsec_slice_payload self.now) }
    {
        match &self.payload {
            LaxMacsecPayloadSlice::Unmodified(payload) => Some(payload.ether_type),
            LaxMacsecPayloadSlice::Modified { .. } => None,
        }
    }
}

/// Returns the length in bytes of MACsec tag and payload together, as the short length of the tag states it, or 0 if
/// the short length is 0 (no length stated).
#[inline]
fn macsec_stated_len(header: &MacsecHeaderSlice<'_>) -> usize
    ensures { result ≡ macsec_stated_len (macsec_header_slice_header header.now) }
{
    let short_len = header.short_len().value() as usize;
    if short_len == 0 {
        return 0;
    }
    let type_len = match header.ptype() {
        MacsecPType::Unmodified(_) => 2,
        _ => 0,
    };
    header.header_len() - type_len + short_len
}
