//! Owned IPv6 Hop-by-Hop Options, Destination Options or Routing header, with an uninterpreted payload (RFC 8200, 4).

ghost use Rattle.std.specs.Prelude.{◌≡◌, ◌<◌, ◌≤◌, ◌+◌, ◌%◌, ◌++◌, List, ℕ, length, vec_len, vec_capacity, IfOk, IfErr, OnOk, OnErr, IsOkAnd, MatchResult};
ghost use Rattle.ep_ext.specs.RawExtensionSlices.{raw_extension_slice_header};
ghost use Rattle.ep_ext.specs.RawExtension.{FitsRawExtension, IsRawExtension, RefusesRawPayload, RefusesRawExtension, raw_extension_bytes, raw_extension_len, raw_extension_payload, raw_extension_with};

use crate::err::LenError;
use crate::err::ipv6_exts::ExtPayloadLenError;
use crate::ipv6_raw_ext_header_slice::Ipv6RawExtHeaderSlice;
use crate::ipv6_raw_ext_payload::Ipv6RawExtPayload;
use arrayvec::ArrayVec;
use ep_base::IpNumber;
use std::alloc::AllocError;

/// Owned IPv6 Hop-by-Hop Options, Destination Options or Routing header (RFC 8200, 4): 8 to 2048 bytes. The bytes after
/// the first 2 are an uninterpreted payload.
#[derive(Clone, Debug, PartialEq, Eq, Drop)]
pub struct Ipv6RawExtHeader {
    /// Next header field of an IPv6 options or routing header, byte 0: the IP number of the header or payload after it.
    pub next_header: IpNumber,
    /// Payload of an IPv6 options or routing header, from byte 2 on: its options or its routing data.
    payload: Ipv6RawExtPayload,
}

impl Ipv6RawExtHeader {
    /// Minimum length in bytes of the payload of an IPv6 options or routing header, which starts at byte 2: 6.
    pub const MIN_PAYLOAD_LEN: usize = 6;

    /// Maximum length in bytes of the payload of an IPv6 options or routing header, which starts at byte 2: 2046.
    pub const MAX_PAYLOAD_LEN: usize = 2046;

    /// Length in bytes of an IPv6 options or routing header with the shortest payload: 8.
    pub const MIN_LEN: usize = 8;

    /// Length in bytes of an IPv6 options or routing header with the longest payload: 2048.
    pub const MAX_LEN: usize = 2048;

    /// Creates an IPv6 options or routing header from its next header and a copy of `payload`, which starts at byte 2
    /// of the header. Returns an error if `payload` has fewer than 6 or more than 2046 bytes, or if its length plus 2
    /// is not a multiple of 8.
    #[inline]
    pub fn new_raw(
        next_header: IpNumber,
        payload: &[u8],
    ) -> Result<Ipv6RawExtHeader, ExtPayloadLenError>
        ensures { MatchResult result
            (λ header. (6 ≤ length payload.now)
            × (length payload.now ≤ 2046)
            × ((length payload.now + 2) % 8 ≡ 0)
            × (header ≡ raw_extension_with next_header payload.now))
            (RefusesRawPayload payload.now) }
    {
        if payload.len() < Ipv6RawExtHeader::MIN_PAYLOAD_LEN {
            return Err(ExtPayloadLenError::TooSmall(payload.len()));
        }
        if payload.len() > Ipv6RawExtHeader::MAX_PAYLOAD_LEN {
            return Err(ExtPayloadLenError::TooBig(payload.len()));
        }
        if (payload.len() + 2) % 8 != 0 {
            return Err(ExtPayloadLenError::Unaligned(payload.len()));
        }
        Ok(Ipv6RawExtHeader::copy_of(next_header, payload))
    }

    /// Creates an IPv6 options or routing header from its next header and a copy of the payload. The payload must have
    /// a valid length: 6 to 2046 bytes, and 2 less than a multiple of 8.
    #[inline]
    pub(crate) fn copy_of(next_header: IpNumber, payload: &[u8]) -> Ipv6RawExtHeader
        requires least { 6 ≤ length payload.now }
        requires bound { length payload.now ≤ 2046 }
        requires units { (length payload.now + 2) % 8 ≡ 0 }
        ensures { result ≡ raw_extension_with next_header payload.now }
    {
        Ipv6RawExtHeader {
            next_header,
            payload: Ipv6RawExtPayload::copy_of(payload),
        }
    }

    /// Creates an IPv6 options or routing header of 8 zero bytes. The caller stores it and then overwrites it in place,
    /// so that the 2046-byte buffer of the header is never moved.
    #[inline(always)]
    pub(crate) fn blank() -> Ipv6RawExtHeader {
        Ipv6RawExtHeader {
            next_header: IpNumber(0),
            payload: Ipv6RawExtPayload::shortest(),
        }
    }

    /// Overwrites this owned IPv6 options or routing header in place with a copy of the sliced header `header`.
    #[inline]
    pub(crate) fn fill(&mut self, header: &Ipv6RawExtHeaderSlice<'_>)
        ensures { self.new ≡ raw_extension_slice_header header.now }
    {
        self.next_header = header.next_header();
        self.payload.fill(header.payload());
    }

    /// Overwrites this IPv6 options or routing header in place with a copy of `header`.
    #[inline]
    pub(crate) fn copy_from(&mut self, header: &Ipv6RawExtHeader)
        ensures { self.new ≡ header.now }
    {
        self.next_header = header.next_header;
        self.payload.fill(header.payload());
    }

    /// Parses the IPv6 options or routing header at the start of the slice. Returns an owned copy of it, and the bytes
    /// after it.
    #[inline]
    pub fn from_slice(slice: &[u8]) -> Result<(Ipv6RawExtHeader, &[u8]), LenError>
        ensures ok { IfOk result (λ read. IsRawExtension slice.now (read.0, read.1.now)) }
        ensures only { (header : Ipv6RawExtHeader) (rest : List ℕ) → IsRawExtension slice.now (header, rest)
            → IsOkAnd result (λ read. (read.0 ≡ header) × (read.1.now ≡ rest)) }
        ensures err { IfErr result (RefusesRawExtension slice.now) }
    {
        let header = Ipv6RawExtHeaderSlice::from_slice(slice)?;
        Ok((header.to_header(), &slice[header.header_len()..]))
    }

    /// Payload of the IPv6 options or routing header, from byte 2 on: its options or its routing data, 6 to 2046 bytes.
    #[inline]
    pub fn payload(&self) -> &[u8]
        ensures value { result.now ≡ raw_extension_payload self.now }
        ensures least { 6 ≤ length result.now }
        ensures bound { length result.now ≤ 2046 }
        ensures units { (length result.now + 2) % 8 ≡ 0 }
    {
        self.payload.as_slice()
    }

    /// Length in bytes of the IPv6 options or routing header with its payload: 8 to 2048.
    #[inline]
    pub fn header_len(&self) -> usize
        ensures value { result ≡ raw_extension_len self.now }
        ensures bytes { result ≡ length (raw_extension_bytes self.now) }
        ensures bound { result ≤ 2048 }
    {
        2 + self.payload().len()
    }

    /// Returns the wire format of the IPv6 options or routing header: next header, length field and payload.
    pub fn to_bytes(&self) -> ArrayVec<u8, 2048>
        ensures bytes { result.items ≡ raw_extension_bytes self.now }
        ensures fits { FitsRawExtension self.now }
    {
        let [next_header] = self.next_header.0.to_be_bytes();
        let payload = self.payload();
        let mut bytes = ArrayVec::new();
        bytes
            .try_extend_from_slice(&[next_header, self.payload.units()])
            .unwrap();
        bytes.try_extend_from_slice(payload).unwrap();
        bytes
    }

    /// Appends the wire format of the IPv6 options or routing header to the buffer. The only error is a failed
    /// allocation, if the buffer has to grow; it leaves the buffer unchanged.
    pub fn write(&self, buf: &mut Vec<u8>) -> Result<(), AllocError>
        ensures ok { OnOk result (buf.new.items ≡ buf.old.items ++ raw_extension_bytes self.now) }
        ensures err { OnErr result (buf.new.items ≡ buf.old.items) }
        ensures fits { FitsRawExtension self.now }
        ensures full { OnErr result (vec_capacity buf.old < vec_len buf.old + length (raw_extension_bytes self.now)) }
        ensures capacity { vec_capacity buf.old ≤ vec_capacity buf.new }
    {
        buf.extend_from_slice(self.to_bytes().as_slice())
    }
}
