//! Owned IP authentication header (RFC 4302, 2).

ghost use Rattle.std.specs.Prelude.{◌≡◌, ◌<◌, ◌≤◌, ◌+◌, ◌%◌, ◌^◌, [], ◌∷◌, ◌++◌, List, ℕ, length, vec_len, vec_capacity, IfOk, IfErr, OnOk, OnErr, IsOkAnd, MatchResult};
ghost use Rattle.std.specs.Int.{w32, to_be_bytes};
ghost use Rattle.ep_ext.specs.IpAuthSlices.{ip_auth_slice_header};
ghost use Rattle.ep_ext.specs.IpAuth.{FitsIpAuth, IsIpAuth, RefusesIcv, RefusesIpAuth, ip_auth_bytes, ip_auth_icv, ip_auth_len, ip_auth_with};

use crate::err::ip_auth::{HeaderSliceError, IcvLenError};
use crate::ip_auth_header_slice::IpAuthHeaderSlice;
use crate::ip_auth_icv::IpAuthIcv;
use arrayvec::ArrayVec;
use ep_base::IpNumber;
use std::alloc::AllocError;

/// IP authentication header (RFC 4302, 2): 12 fixed bytes and an integrity check value of at most 1016 bytes.
#[derive(Clone, Debug, PartialEq, Eq, Drop)]
pub struct IpAuthHeader {
    /// Next header field of an IP authentication header, byte 0: the IP number of the header or payload after it.
    pub next_header: IpNumber,
    /// Security Parameters Index (SPI) of an IP authentication header, bytes 4 to 7.
    pub spi: u32,
    /// Sequence number of the packet in its security association, bytes 8 to 11 of an IP authentication header.
    pub sequence_number: u32,
    /// Integrity Check Value (ICV) of an IP authentication header, from byte 12 on.
    icv: IpAuthIcv,
}

impl IpAuthHeader {
    /// Length in bytes of an IP authentication header without integrity check value: 12.
    pub const MIN_LEN: usize = 12;

    /// Maximum length in bytes of the integrity check value of an IP authentication header: 1016.
    pub const MAX_ICV_LEN: usize = 1016;

    /// Length in bytes of an IP authentication header with the longest integrity check value: 1028.
    pub const MAX_LEN: usize = 1028;

    /// Creates an IP authentication header from its next header, SPI, sequence number and a copy of the integrity check
    /// value `raw_icv`.
    ///
    /// # Errors
    ///
    /// Returns an error if `raw_icv` has more than 1016 bytes, or else if its length is not a multiple of 4.
    #[inline]
    pub fn new(
        next_header: IpNumber,
        spi: u32,
        sequence_number: u32,
        raw_icv: &[u8],
    ) -> Result<IpAuthHeader, IcvLenError>
        ensures { MatchResult result
            (λ header. (length raw_icv.now ≤ 1016)
            × (length raw_icv.now % 4 ≡ 0)
            × (header ≡ ip_auth_with next_header spi sequence_number raw_icv.now))
            (RefusesIcv raw_icv.now) }
    {
        if raw_icv.len() > IpAuthHeader::MAX_ICV_LEN {
            return Err(IcvLenError::TooBig(raw_icv.len()));
        }
        if raw_icv.len() % 4 != 0 {
            return Err(IcvLenError::Unaligned(raw_icv.len()));
        }
        Ok(IpAuthHeader::copy_of(next_header, spi, sequence_number, raw_icv))
    }

    /// Creates an IP authentication header from its next header, SPI, sequence number and a copy of the integrity check
    /// value `raw_icv`. The value must have a valid length: a multiple of 4, at most 1016 bytes.
    #[inline]
    pub(crate) fn copy_of(
        next_header: IpNumber,
        spi: u32,
        sequence_number: u32,
        raw_icv: &[u8],
    ) -> IpAuthHeader
        requires bound { length raw_icv.now ≤ 1016 }
        requires words { length raw_icv.now % 4 ≡ 0 }
        ensures { result ≡ ip_auth_with next_header spi sequence_number raw_icv.now }
    {
        IpAuthHeader {
            next_header,
            spi,
            sequence_number,
            icv: IpAuthIcv::copy_of(raw_icv),
        }
    }

    /// Creates a zeroed IP authentication header without integrity check value. The caller stores it and then
    /// overwrites it in place, so that the 1016-byte buffer of the header is never moved.
    #[inline(always)]
    pub(crate) fn blank() -> IpAuthHeader {
        IpAuthHeader {
            next_header: IpNumber(0),
            spi: 0,
            sequence_number: 0,
            icv: IpAuthIcv::shortest(),
        }
    }

    /// Overwrites this owned IP authentication header in place with a copy of the sliced header `header`.
    #[inline]
    pub(crate) fn fill(&mut self, header: &IpAuthHeaderSlice<'_>)
        ensures { self.new ≡ ip_auth_slice_header header.now }
    {
        self.next_header = header.next_header();
        self.spi = header.spi();
        self.sequence_number = header.sequence_number();
        self.icv.fill(header.raw_icv());
    }

    /// Overwrites this IP authentication header in place with a copy of `header`.
    #[inline]
    pub(crate) fn copy_from(&mut self, header: &IpAuthHeader)
        ensures { self.new ≡ header.now }
    {
        self.next_header = header.next_header;
        self.spi = header.spi;
        self.sequence_number = header.sequence_number;
        self.icv.fill(header.raw_icv());
    }

    /// Parses the IP authentication header at the start of the slice. Returns an owned copy of it, and the bytes after
    /// it.
    #[inline]
    pub fn from_slice(slice: &[u8]) -> Result<(IpAuthHeader, &[u8]), HeaderSliceError>
        ensures ok { IfOk result (λ read. IsIpAuth slice.now (read.0, read.1.now)) }
        ensures only { (header : IpAuthHeader) (rest : List ℕ) → IsIpAuth slice.now (header, rest)
            → IsOkAnd result (λ read. (read.0 ≡ header) × (read.1.now ≡ rest)) }
        ensures err { IfErr result (RefusesIpAuth slice.now) }
    {
        let header = IpAuthHeaderSlice::from_slice(slice)?;
        Ok((header.to_header(), &slice[header.header_len()..]))
    }

    /// Integrity Check Value (ICV) of the IP authentication header, from byte 12 on: at most 1016 bytes, a multiple of
    /// 4.
    #[inline]
    pub fn raw_icv(&self) -> &[u8]
        ensures value { result.now ≡ ip_auth_icv self.now }
        ensures bound { length result.now ≤ 1016 }
        ensures words { length result.now % 4 ≡ 0 }
    {
        self.icv.as_slice()
    }

    /// Length in bytes of the IP authentication header with its integrity check value: 12 to 1028.
    #[inline]
    pub fn header_len(&self) -> usize
        ensures value { result ≡ ip_auth_len self.now }
        ensures bytes { result ≡ length (ip_auth_bytes self.now) }
        ensures bound { result ≤ 1028 }
    {
        IpAuthHeader::MIN_LEN + self.raw_icv().len()
    }

    /// Returns the wire format of the IP authentication header, with its reserved bytes (2 and 3) set to 0.
    pub fn to_bytes(&self) -> ArrayVec<u8, 1028>
        ensures bytes { result.items ≡ ip_auth_bytes self.now }
        ensures fits { FitsIpAuth self.now }
    {
        let raw_icv = self.raw_icv();
        let fixed = IpAuthHeader::fixed_bytes(
            self.next_header.0,
            self.icv.words() + 1,
            self.spi,
            self.sequence_number,
        );
        let mut bytes = ArrayVec::new();
        bytes.try_extend_from_slice(&fixed).unwrap();
        bytes.try_extend_from_slice(raw_icv).unwrap();
        bytes
    }

    /// Appends the wire format of the IP authentication header to the buffer. The only error is a failed allocation, if
    /// the buffer has to grow; it leaves the buffer unchanged.
    pub fn write(&self, buf: &mut Vec<u8>) -> Result<(), AllocError>
        ensures ok { OnOk result (buf.new.items ≡ buf.old.items ++ ip_auth_bytes self.now) }
        ensures err { OnErr result (buf.new.items ≡ buf.old.items) }
        ensures fits { FitsIpAuth self.now }
        ensures full { OnErr result (vec_capacity buf.old < vec_len buf.old + length (ip_auth_bytes self.now)) }
        ensures capacity { vec_capacity buf.old ≤ vec_capacity buf.new }
    {
        buf.extend_from_slice(self.to_bytes().as_slice())
    }

    /// Returns the first 12 bytes of an IP authentication header with the given fields, and reserved bytes of 0.
    /// `words_less_2` is the value of its length field: the length of the header in 4-byte words, minus 2.
    #[inline]
    fn fixed_bytes(next_header: u8, words_less_2: u8, spi: u32, sequence_number: u32) -> [u8; 12]
        ensures bytes { result ≡ next_header ∷ words_less_2 ∷ 0 ∷ 0 ∷ []
            ++ to_be_bytes w32 spi ++ to_be_bytes w32 sequence_number }
        ensures fits { (next_header < 2 ^ 8) × (spi < 2 ^ 32) × (sequence_number < 2 ^ 32) }
    {
        let spi = spi.to_be_bytes();
        let sequence_number = sequence_number.to_be_bytes();
        [
            next_header,
            words_less_2,
            0,
            0,
            spi[0],
            spi[1],
            spi[2],
            spi[3],
            sequence_number[0],
            sequence_number[1],
            sequence_number[2],
            sequence_number[3],
        ]
    }
}
