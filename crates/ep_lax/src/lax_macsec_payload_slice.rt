//! Payload of a MACsec packet in a slice, as lax slicing returns it; bytes may be missing (IEEE 802.1AE, 9).

use crate::lax_ether_payload_slice::LaxEtherPayloadSlice;
use ep_base::lax_cut::LimitedSlice;
use ep_link::MacsecHeaderSlice;

/// Payload after a MACsec tag (IEEE 802.1AE, 9), as lax slicing returns it; bytes may be missing.
#[derive(Clone, Debug, PartialEq, Eq, Drop)]
pub enum LaxMacsecPayloadSlice<'a> {
    /// MACsec payload that is not encrypted or otherwise modified, with its ether type.
    Unmodified(LaxEtherPayloadSlice<'a>),
    /// MACsec payload that is encrypted or otherwise modified, so that its ether type is unknown.
    Modified {
        /// True if bytes of the MACsec payload are missing: a MACsec short length counts more bytes than are available.
        incomplete: bool,
        /// Available bytes of the modified MACsec payload.
        payload: &'a [u8],
    },
}

impl<'a> LaxMacsecPayloadSlice<'a> {
    ghost use Rattle.std.specs.Prelude.{◌≡◌};
    ghost use Rattle.ep_link.specs.Macsec.{macsec_payload_bytes, payload_by};
    ghost use Rattle.ep_link.specs.MacsecSlices.{macsec_header_slice_header};
    ghost use Rattle.ep_lax.specs.LaxSlices.{lax_macsec_incomplete, lax_macsec_payload_of};

    /// Available bytes of the MACsec payload, modified or not.
    #[inline]
    pub fn slice(&self) -> &'a [u8]
        ensures { result.now ≡ macsec_payload_bytes (lax_macsec_payload_of self.now) }
    {
        match self {
            LaxMacsecPayloadSlice::Unmodified(payload) => payload.payload,
            LaxMacsecPayloadSlice::Modified { payload, .. } => payload,
        }
    }

    /// Returns true if bytes of the MACsec payload are missing: a MACsec short length counts more bytes than are
    /// available.
    #[inline]
    pub fn incomplete(&self) -> bool
        ensures { result ≡ lax_macsec_incomplete self.now }
    {
        match self {
            LaxMacsecPayloadSlice::Unmodified(payload) => payload.incomplete,
            LaxMacsecPayloadSlice::Modified { incomplete, .. } => *incomplete,
        }
    }

    /// Creates the payload of a MACsec tag from `cut`, the bytes after the tag limited by its short length. The payload
    /// is unmodified if the tag contains an ether type.
    #[inline(always)]
    pub(crate) fn of_tag(
        header: &MacsecHeaderSlice<'a>,
        cut: LimitedSlice<'a>,
    ) -> LaxMacsecPayloadSlice<'a>
        ensures payload { lax_macsec_payload_of result
            ≡ payload_by (macsec_header_slice_header header.now).ptype cut.entry.len_source cut.entry.payload.now }
        ensures incomplete { lax_macsec_incomplete result ≡ cut.entry.incomplete }
    {
        let Some(ether_type) = header.next_ether_type() else {
            return LaxMacsecPayloadSlice::Modified {
                incomplete: cut.incomplete,
                payload: cut.payload,
            };
        };
        LaxMacsecPayloadSlice::Unmodified(LaxEtherPayloadSlice {
            incomplete: cut.incomplete,
            ether_type,
            len_source: cut.len_source,
            payload: cut.payload,
        })
    }
}
