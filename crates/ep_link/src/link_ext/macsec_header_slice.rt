//! MACsec tags (IEEE 802.1AE, 9) whose fields are read from a slice without copying it.

ghost use Rattle.std.specs.Prelude.{◌≡◌, ◌<◌, ◌≤◌, length, slice_index};
ghost use Rattle.ep_base.specs.Readings.{len_error};
ghost use Rattle.ep_base.specs.declared.err.layer.Layer.TheVariants as layer;
ghost use Rattle.ep_base.specs.declared.err.macsec.HeaderSliceError.TheVariants as header_error;
ghost use Rattle.ep_base.specs.declared.len_source.LenSource.TheVariants as source;
ghost use Rattle.ep_link.specs.Macsec.{IsTooShortForType, tag_len_of};

use crate::link_ext::{MacsecHeader, MacsecPType};
use ep_base::err::macsec::{HeaderError, HeaderSliceError};
use ep_base::err::{Layer, LenError};
use ep_base::{EtherType, LenSource, MacsecAn, MacsecShortLen};

/// Slice of a MACsec tag (IEEE 802.1AE, 9), including the ether type of an unmodified payload: 6 to 16 bytes.
#[derive(Clone, Debug, PartialEq, Eq, Drop)]
pub struct MacsecHeaderSlice<'a> {
    tag: TagBytes<'a>,
}

/// Bytes of exactly one complete MACsec tag.
#[derive(Clone, Copy, Debug, PartialEq, Eq)]
struct TagBytes<'a> {
    slice: &'a [u8],
    ghost fixed: { 6 ≤ length slice.now },
    ghost version: { slice_index slice.now 0 < 128 },
    ghost holds_type: { ¬ IsTooShortForType slice.now },
    ghost whole: { length slice.now ≡ tag_len_of slice.now },
}

impl<'a> MacsecHeaderSlice<'a> {
    ghost use Rattle.std.specs.Prelude.{◌≡◌, ◌<◌, ◌++◌, IfOk, IfErr, IsOkAnd, MatchOption, List, ℕ, length};
    ghost use Rattle.ep_link.specs.declared.link_ext.macsec_header.MacsecHeader.{MacsecHeader};
    ghost use Rattle.ep_link.specs.Macsec.{IsMacsecHeader, RefusesMacsecHeader, macsec_header_len};
    ghost use Rattle.ep_link.specs.Macsec.{ptype_type, modification_of, short_len_of, payload_len_of};
    ghost use Rattle.ep_link.specs.MacsecSlices.{macsec_header_slice_bytes, macsec_header_slice_header};

    /// Parses the MACsec tag at the start of `slice`. The short length is not compared with the number of bytes after
    /// the tag.
    pub fn from_slice(slice: &'a [u8]) -> Result<MacsecHeaderSlice<'a>, HeaderSliceError>
        ensures ok { IfOk result (λ header. (rest : List ℕ) × (slice.now ≡ macsec_header_slice_bytes header ++ rest)
            × IsMacsecHeader slice.now (macsec_header_slice_header header, rest)) }
        ensures only { (read : MacsecHeader × List ℕ) → IsMacsecHeader slice.now read
            → IsOkAnd result (λ header. macsec_header_slice_header header ≡ read.0) }
        ensures err { IfErr result (RefusesMacsecHeader slice.now) }
    {
        if slice.len() < MacsecHeader::MIN_LEN {
            return Err(tag_len_error(MacsecHeader::MIN_LEN, slice.len()));
        }
        if slice[0] >> 7 != 0 {
            return Err(HeaderSliceError::Content(HeaderError::UnexpectedVersion));
        }
        let modification = (slice[0] >> 2) & 3;
        if modification == 0 && slice[1] & 0x3f == 1 {
            return Err(HeaderSliceError::Content(HeaderError::InvalidUnmodifiedShortLen));
        }
        let sci_len = ((slice[0] >> 5) & 1) as usize * 8;
        let type_len = if modification == 0 { 2 } else { 0 };
        let header_len = MacsecHeader::MIN_LEN + sci_len + type_len;
        if slice.len() < header_len {
            return Err(tag_len_error(header_len, slice.len()));
        }
        Ok(MacsecHeaderSlice {
            tag: TagBytes {
                slice: &slice[..header_len],
            },
        })
    }

    /// Bytes of the MACsec tag, including the ether type of an unmodified payload.
    #[inline]
    pub fn slice(&self) -> &'a [u8]
        ensures { result.now ≡ macsec_header_slice_bytes self.now }
    {
        self.tag.slice
    }

    /// Length of the MACsec tag in bytes, including the ether type of an unmodified payload: 6 to 16.
    #[inline]
    pub fn header_len(&self) -> usize
        ensures bytes { result ≡ length (macsec_header_slice_bytes self.now) }
        ensures value { result ≡ macsec_header_len (macsec_header_slice_header self.now) }
    {
        self.tag.slice.len()
    }

    /// Modification of the MACsec payload (none, modified or encrypted): flags E (0x08) and C (0x04) of byte 0. For an
    /// unmodified payload, the last two bytes of the tag are its ether type.
    #[inline]
    pub fn ptype(&self) -> MacsecPType
        ensures { result ≡ (macsec_header_slice_header self.now).ptype }
    {
        match self.modification() {
            0 => {
                let at = self.header_len() - 2;
                let ether_type = u16::from_be_bytes([self.tag.slice[at], self.tag.slice[at + 1]]);
                MacsecPType::Unmodified(EtherType(ether_type))
            }
            1 => MacsecPType::Modified,
            2 => MacsecPType::EncryptedUnmodified,
            _ => MacsecPType::Encrypted,
        }
    }

    /// End station flag (ES) of the MACsec tag: the source MAC address identifies the secure channel (byte 0, bit
    /// 0x40).
    #[inline]
    pub fn endstation_id(&self) -> bool
        ensures { result ≡ (macsec_header_slice_header self.now).endstation_id }
    {
        (self.tag.slice[0] >> 6) & 1 == 1
    }

    /// Single copy broadcast flag (SCB) of the MACsec tag: the secure channel supports the single copy broadcast of a
    /// passive optical network (byte 0, bit 0x10).
    #[inline]
    pub fn scb(&self) -> bool
        ensures { result ≡ (macsec_header_slice_header self.now).scb }
    {
        (self.tag.slice[0] >> 4) & 1 == 1
    }

    /// Association number (AN) of the MACsec tag, the lower 2 bits of byte 0.
    #[inline]
    pub fn an(&self) -> MacsecAn
        ensures { result ≡ (macsec_header_slice_header self.now).an }
    {
        MacsecAn::try_new(self.tag.slice[0] & 3).unwrap()
    }

    /// Short length (SL) of the MACsec tag, the lower 6 bits of byte 1.
    #[inline]
    pub fn short_len(&self) -> MacsecShortLen
        ensures { result ≡ (macsec_header_slice_header self.now).short_len }
    {
        MacsecShortLen::try_new(self.tag.slice[1] & 0x3f).unwrap()
    }

    /// Packet number (PN) of the MACsec tag, bytes 2 to 5.
    #[inline]
    pub fn packet_nr(&self) -> u32
        ensures { result ≡ (macsec_header_slice_header self.now).packet_nr }
    {
        let bytes = self.tag.slice;
        u32::from_be_bytes([bytes[2], bytes[3], bytes[4], bytes[5]])
    }

    /// Secure channel identifier (SCI) of the MACsec tag, bytes 6 to 13, or `None` if the SC flag (0x20) of byte 0 is
    /// not set.
    #[inline]
    pub fn sci(&self) -> Option<u64>
        ensures { result ≡ (macsec_header_slice_header self.now).sci }
    {
        let bytes = self.tag.slice;
        if (bytes[0] >> 5) & 1 == 0 {
            return None;
        }
        Some(u64::from_be_bytes([
            bytes[6], bytes[7], bytes[8], bytes[9], bytes[10], bytes[11], bytes[12], bytes[13],
        ]))
    }

    /// Ether type of the MACsec payload, or `None` if the payload is modified or encrypted.
    #[inline]
    pub fn next_ether_type(&self) -> Option<EtherType>
        ensures { result ≡ ptype_type (macsec_header_slice_header self.now).ptype }
    {
        match self.ptype() {
            MacsecPType::Unmodified(ether_type) => Some(ether_type),
            _ => None,
        }
    }

    /// Length in bytes of the payload after the MACsec tag according to its short length, or `None` if the short length
    /// is 0.
    #[inline]
    pub(crate) fn payload_len(&self) -> Option<usize>
        ensures { MatchOption result (short_len_of (macsec_header_slice_bytes self.now) ≡ 0)
            (λ len. (0 < short_len_of (macsec_header_slice_bytes self.now))
            × (len ≡ payload_len_of (macsec_header_slice_bytes self.now))) }
    {
        let short_len = (self.tag.slice[1] & 0x3f) as usize;
        if short_len == 0 {
            return None;
        }
        let type_len = if self.modification() == 0 { 2 } else { 0 };
        Some(short_len - type_len)
    }

    /// Flags E and C of the MACsec tag as a 2 bit number, with E as the upper bit: 0 if the payload is unmodified.
    #[inline]
    fn modification(&self) -> u8
        ensures value { result ≡ modification_of (macsec_header_slice_bytes self.now) }
        ensures bound { result < 4 }
    {
        (self.tag.slice[0] >> 2) & 3
    }

    /// Returns the MACsec tag as an owned value.
    pub fn to_header(&self) -> MacsecHeader
        ensures { result ≡ macsec_header_slice_header self.now }
    {
        MacsecHeader {
            ptype: self.ptype(),
            endstation_id: self.endstation_id(),
            scb: self.scb(),
            an: self.an(),
            short_len: self.short_len(),
            packet_nr: self.packet_nr(),
            sci: self.sci(),
        }
    }
}

/// Returns the length error of a MACsec tag that needs `required_len` bytes in a slice of `len` bytes.
fn tag_len_error(required_len: usize, len: usize) -> HeaderSliceError
    ensures { result ≡ header_error.Len (len_error required_len len source.Slice layer.MacsecHeader) }
{
    HeaderSliceError::Len(LenError::at_start(
        required_len,
        len,
        LenSource::Slice,
        Layer::MacsecHeader,
    ))
}
