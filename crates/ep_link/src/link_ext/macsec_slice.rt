//! MACsec tags with their payloads (IEEE 802.1AE, 9) in slices.

use crate::link_ext::{MacsecHeader, MacsecHeaderSlice, MacsecPayloadSlice};
use ep_base::err::macsec::HeaderSliceError;
use ep_base::err::{Layer, LenError};
use ep_base::{EtherPayloadSlice, EtherType, LenSource};

/// Slices of a MACsec tag (IEEE 802.1AE, 9) and its payload. If the short length of the tag is 0, the payload extends
/// to the end of the slice, and its last bytes are the integrity check value. Otherwise the short length limits the
/// payload, and the integrity check value is after the payload.
#[derive(Clone, Debug, PartialEq, Eq, Drop)]
pub struct MacsecSlice<'a> {
    /// MACsec tag, including the ether type of an unmodified payload.
    pub header: MacsecHeaderSlice<'a>,
    /// Payload after the MACsec tag.
    pub payload: MacsecPayloadSlice<'a>,
}

impl<'a> MacsecSlice<'a> {
    ghost use Rattle.std.specs.Prelude.{◌≡◌, ◌++◌, IfOk, IfErr, IsOkAnd, List, ℕ, length};
    ghost use Rattle.ep_base.specs.Tables.{Parts};
    ghost use Rattle.ep_link.specs.declared.link_ext.macsec_header.MacsecHeader.{MacsecHeader};
    ghost use Rattle.ep_link.specs.Macsec.{IsMacsec, RefusesMacsec, macsec_header_len};
    ghost use Rattle.ep_link.specs.Macsec.{macsec_payload, macsec_payload_bytes, macsec_payload_type};
    ghost use Rattle.std.specs.Option.{option_map};
    ghost use Rattle.ep_link.specs.EtherPayloads.{ether_payload_of, macsec_ether_payload};
    ghost use Rattle.ep_link.specs.MacsecSlices.{macsec_header_slice_bytes, macsec_slice_bytes};
    ghost use Rattle.ep_link.specs.MacsecSlices.{macsec_slice_header, macsec_slice_parts, macsec_slice_payload};

    /// Parses the MACsec tag and its payload at the start of `slice`. The short length of the tag limits the payload;
    /// if the short length is 0, the payload extends to the end of `slice`.
    pub fn from_slice(slice: &'a [u8]) -> Result<MacsecSlice<'a>, HeaderSliceError>
        ensures ok { IfOk result (λ shown. (left : List ℕ) × (slice.now ≡ macsec_slice_bytes shown ++ left)
            × IsMacsec slice.now (macsec_slice_parts shown left)) }
        ensures payload { IfOk result (λ shown. let payload = macsec_slice_payload shown in
            payload ≡ macsec_payload (macsec_slice_header shown) (macsec_payload_bytes payload)) }
        ensures only { (packet : Parts MacsecHeader) → IsMacsec slice.now packet
            → IsOkAnd result (λ shown. macsec_slice_parts shown packet.left ≡ packet) }
        ensures err { IfErr result (RefusesMacsec slice.now) }
    {
        let header = MacsecHeaderSlice::from_slice(slice)?;
        let header_len = header.header_len();
        let end = match header.payload_len() {
            Some(payload_len) => header_len + payload_len,
            None => slice.len(),
        };
        if slice.len() < end {
            return Err(HeaderSliceError::Len(LenError::at_start(
                end,
                slice.len(),
                LenSource::Slice,
                Layer::MacsecPacket,
            )));
        }
        let payload = MacsecPayloadSlice::of_tag(&header, &slice[header_len..end]);
        Ok(MacsecSlice { header, payload })
    }

    /// Length of the MACsec tag in bytes, including the ether type of an unmodified payload: 6 to 16.
    #[inline]
    pub fn header_len(&self) -> usize
        ensures bytes { result ≡ length (macsec_header_slice_bytes self.now.header) }
        ensures value { result ≡ macsec_header_len (macsec_slice_header self.now) }
    {
        self.header.header_len()
    }

    /// Returns the MACsec tag as an owned value.
    #[inline]
    pub fn to_header(&self) -> MacsecHeader
        ensures { result ≡ macsec_slice_header self.now }
    {
        self.header.to_header()
    }

    /// Ether type of the MACsec payload, or `None` if the payload is modified or encrypted.
    #[inline]
    pub fn next_ether_type(&self) -> Option<EtherType>
        ensures { result ≡ macsec_payload_type (macsec_slice_payload self.now) }
    {
        match &self.payload {
            MacsecPayloadSlice::Unmodified(payload) => Some(payload.ether_type),
            MacsecPayloadSlice::Modified(_) => None,
        }
    }

    /// MACsec payload with its ether type, or `None` if the payload is modified or encrypted.
    #[inline]
    pub fn ether_payload(&self) -> Option<EtherPayloadSlice<'a>>
        ensures { option_map ether_payload_of result ≡ macsec_ether_payload (macsec_slice_payload self.now) }
    {
        match &self.payload {
            MacsecPayloadSlice::Unmodified(payload) => Some(EtherPayloadSlice {
                ether_type: payload.ether_type,
                len_source: payload.len_source,
                payload: payload.payload,
            }),
            MacsecPayloadSlice::Modified(_) => None,
        }
    }
}
