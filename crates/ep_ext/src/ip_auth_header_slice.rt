//! IP authentication header in a slice, without a copy (RFC 4302, 2).

ghost use Rattle.std.specs.Prelude.{◌≡◌, ◌≤◌, length};
ghost use Rattle.ep_ext.specs.IpAuth.{ip_auth_len_of};

use crate::err::ip_auth::{HeaderError, HeaderSliceError};
use crate::ip_auth_header::IpAuthHeader;
use ep_base::err::{Layer, LenError};
use ep_base::{IpNumber, LenSource};

/// Bytes of exactly one IP authentication header: the slice is as long as the length field of the header states.
#[derive(Clone, Copy, Debug, PartialEq, Eq)]
pub(crate) struct IpAuthBytes<'a> {
    slice: &'a [u8],
    ghost fixed: { 12 ≤ length slice.now },
    ghost bound: { length slice.now ≤ 1028 },
    ghost whole: { length slice.now ≡ ip_auth_len_of slice.now },
}

/// IP authentication header in a slice (RFC 4302, 2): 12 fixed bytes and an integrity check value of at most 1016
/// bytes.
#[derive(Clone, Debug, PartialEq, Eq, Drop)]
pub struct IpAuthHeaderSlice<'a> {
    bytes: IpAuthBytes<'a>,
}

impl<'a> IpAuthHeaderSlice<'a> {
    ghost use Rattle.std.specs.Prelude.{◌≡◌, ◌≤◌, ◌%◌, ◌++◌, List, ℕ, length, Some, IfOk, IfErr, IsOkAnd};
    ghost use Rattle.ep_ext.specs.declared.ip_auth_header.IpAuthHeader.{IpAuthHeader};
    ghost use Rattle.ep_ext.specs.IpAuth.{IsIpAuth, RefusesIpAuth, ip_auth_icv, ip_auth_len};
    ghost use Rattle.ep_ext.specs.IpAuthSlices.{ip_auth_slice_bytes, ip_auth_slice_header};

    /// Parses the IP authentication header at the start of the slice, without a copy. Bytes after the header are
    /// ignored.
    pub fn from_slice(slice: &'a [u8]) -> Result<IpAuthHeaderSlice<'a>, HeaderSliceError>
        ensures ok { IfOk result (λ header. (rest : List ℕ) × (slice.now ≡ ip_auth_slice_bytes header ++ rest)
            × IsIpAuth slice.now (ip_auth_slice_header header, rest)) }
        ensures only { (header : IpAuthHeader) (rest : List ℕ) → IsIpAuth slice.now (header, rest)
            → IsOkAnd result (λ shown. ip_auth_slice_header shown ≡ header) }
        ensures err { IfErr result (RefusesIpAuth slice.now) }
    {
        if slice.len() < IpAuthHeader::MIN_LEN {
            return Err(HeaderSliceError::Len(LenError::at_start(
                IpAuthHeader::MIN_LEN,
                slice.len(),
                LenSource::Slice,
                Layer::IpAuthHeader,
            )));
        }
        if slice[1] == 0 {
            return Err(HeaderSliceError::Content(HeaderError::ZeroPayloadLen));
        }
        let header_len = 4 * (slice[1] as usize + 2);
        if slice.len() < header_len {
            return Err(HeaderSliceError::Len(LenError::at_start(
                header_len,
                slice.len(),
                LenSource::Slice,
                Layer::IpAuthHeader,
            )));
        }
        Ok(IpAuthHeaderSlice {
            bytes: IpAuthBytes {
                slice: &slice[..header_len],
            },
        })
    }

    /// All bytes of the IP authentication header, with its integrity check value.
    #[inline]
    pub fn slice(&self) -> &'a [u8]
        ensures { result.now ≡ ip_auth_slice_bytes self.now }
    {
        self.bytes.slice
    }

    /// Length in bytes of the IP authentication header with its integrity check value: 12 to 1028.
    #[inline]
    pub fn header_len(&self) -> usize
        ensures bytes { result ≡ length (ip_auth_slice_bytes self.now) }
        ensures value { result ≡ ip_auth_len (ip_auth_slice_header self.now) }
    {
        self.bytes.slice.len()
    }

    /// Next header field of the IP authentication header, byte 0: the IP number of the header or payload after it.
    #[inline]
    pub fn next_header(&self) -> IpNumber
        ensures { result ≡ (ip_auth_slice_header self.now).next_header }
    {
        IpNumber(self.bytes.slice[0])
    }

    /// Security Parameters Index (SPI) of the IP authentication header, bytes 4 to 7.
    #[inline]
    pub fn spi(&self) -> u32
        ensures { result ≡ (ip_auth_slice_header self.now).spi }
    {
        let bytes = self.bytes.slice;
        u32::from_be_bytes([bytes[4], bytes[5], bytes[6], bytes[7]])
    }

    /// Sequence number of the packet in its security association, bytes 8 to 11 of the IP authentication header.
    #[inline]
    pub fn sequence_number(&self) -> u32
        ensures { result ≡ (ip_auth_slice_header self.now).sequence_number }
    {
        let bytes = self.bytes.slice;
        u32::from_be_bytes([bytes[8], bytes[9], bytes[10], bytes[11]])
    }

    /// Integrity Check Value (ICV) of the IP authentication header, from byte 12 on: at most 1016 bytes, a multiple of
    /// 4.
    #[inline]
    pub fn raw_icv(&self) -> &'a [u8]
        ensures value { result.now ≡ ip_auth_icv (ip_auth_slice_header self.now) }
        ensures bound { length result.now ≤ 1016 }
        ensures words { length result.now % 4 ≡ 0 }
    {
        &self.bytes.slice[IpAuthHeader::MIN_LEN..]
    }

    /// Returns an owned copy of the IP authentication header.
    #[inline]
    pub fn to_header(&self) -> IpAuthHeader
        ensures { result ≡ ip_auth_slice_header self.now }
    {
        IpAuthHeader::copy_of(
            self.next_header(),
            self.spi(),
            self.sequence_number(),
            self.raw_icv(),
        )
    }

    /// Writes an owned copy of the IP authentication header to `place`, which becomes `Some`; a header that was there
    /// is overwritten. The copy is filled in place, so that its 1016-byte buffer is not moved.
    pub fn header_into(&self, place: &mut Option<IpAuthHeader>)
        ensures { place.new ≡ Some (ip_auth_slice_header self.now) }
    {
        *place = Some(IpAuthHeader::blank());
        if let Some(stored) = place {
            stored.fill(self);
        }
    }
}
