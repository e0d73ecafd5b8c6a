//! Payloads after MACsec tags (IEEE 802.1AE, 9) in a slice.

use crate::link_ext::MacsecHeaderSlice;
use ep_base::{EtherPayloadSlice, LenSource};

/// Payload after a MACsec tag (IEEE 802.1AE, 9): unmodified with its ether type, or modified.
#[derive(Clone, Debug, PartialEq, Eq, Drop)]
pub enum MacsecPayloadSlice<'a> {
    /// Unmodified MACsec payload, with its ether type.
    Unmodified(EtherPayloadSlice<'a>),
    /// Bytes of a modified or encrypted MACsec payload, whose ether type is unknown.
    Modified(&'a [u8]),
}

impl<'a> MacsecPayloadSlice<'a> {
    ghost use Rattle.std.specs.Prelude.{◌≡◌};
    ghost use Rattle.ep_link.specs.Macsec.{macsec_payload, macsec_payload_bytes};
    ghost use Rattle.ep_link.specs.MacsecSlices.{macsec_header_slice_header, macsec_payload_of};

    /// Bytes of the MACsec payload.
    #[inline]
    pub fn slice(&self) -> &'a [u8]
        ensures { result.now ≡ macsec_payload_bytes (macsec_payload_of self.now) }
    {
        match self {
            MacsecPayloadSlice::Unmodified(payload) => payload.payload,
            MacsecPayloadSlice::Modified(payload) => payload,
        }
    }

    /// Returns the payload `payload` of the MACsec tag `header` as `Unmodified` with its ether type if the tag contains
    /// one, otherwise as `Modified`.
    pub(crate) fn of_tag(
        header: &MacsecHeaderSlice<'a>,
        payload: &'a [u8],
    ) -> MacsecPayloadSlice<'a>
        ensures { macsec_payload_of result ≡ macsec_payload (macsec_header_slice_header header.now) payload.now }
    {
        let Some(ether_type) = header.next_ether_type() else {
            return MacsecPayloadSlice::Modified(payload);
        };
        let len_source = if header.short_len().value() == 0 {
            LenSource::Slice
        } else {
            LenSource::MacsecShortLength
        };
        MacsecPayloadSlice::Unmodified(EtherPayloadSlice {
            ether_type,
            len_source,
            payload,
        })
    }
}
