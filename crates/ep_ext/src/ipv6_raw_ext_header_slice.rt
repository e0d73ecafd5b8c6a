//! IPv6 Hop-by-Hop Options, Destination Options or Routing header in a slice, with an uninterpreted payload (RFC 8200,
//! 4).

ghost use Rattle.std.specs.Prelude.{◌≡◌, ◌≤◌, length};
ghost use Rattle.ep_ext.specs.RawExtension.{raw_extension_len_of};

use crate::ipv6_raw_ext_header::Ipv6RawExtHeader;
use ep_base::err::{Layer, LenError};
use ep_base::{IpNumber, LenSource};

/// Bytes of exactly one IPv6 options or routing header: the slice is as long as the length field of the header states.
#[derive(Clone, Copy, Debug, PartialEq, Eq)]
pub(crate) struct RawExtensionBytes<'a> {
    slice: &'a [u8],
    ghost bound: { length slice.now ≤ 2048 },
    ghost whole: { length slice.now ≡ raw_extension_len_of slice.now },
}

/// IPv6 Hop-by-Hop Options, Destination Options or Routing header in a slice (RFC 8200, 4): 8 to 2048 bytes.
#[derive(Clone, Debug, PartialEq, Eq, Drop)]
pub struct Ipv6RawExtHeaderSlice<'a> {
    bytes: RawExtensionBytes<'a>,
}

impl<'a> Ipv6RawExtHeaderSlice<'a> {
    ghost use Rattle.std.specs.Prelude.{◌≡◌, ◌≤◌, ◌+◌, ◌%◌, ◌++◌, List, ℕ, length, IfOk, IfErr, IsOkAnd};
    ghost use Rattle.ep_ext.specs.declared.ipv6_raw_ext_header.Ipv6RawExtHeader.{Ipv6RawExtHeader};
    ghost use Rattle.ep_ext.specs.RawExtension.{IsRawExtension, RefusesRawExtension, raw_extension_payload, raw_extension_len};
    ghost use Rattle.ep_ext.specs.RawExtensionSlices.{raw_extension_slice_bytes, raw_extension_slice_header};

    /// Parses the IPv6 options or routing header at the start of the slice, without a copy. Bytes after the header are
    /// ignored.
    pub fn from_slice(slice: &'a [u8]) -> Result<Ipv6RawExtHeaderSlice<'a>, LenError>
        ensures ok { IfOk result (λ header. (rest : List ℕ) × (slice.now ≡ raw_extension_slice_bytes header ++ rest)
            × IsRawExtension slice.now (raw_extension_slice_header header, rest)) }
        ensures only { (header : Ipv6RawExtHeader) (rest : List ℕ) → IsRawExtension slice.now (header, rest)
            → IsOkAnd result (λ shown. raw_extension_slice_header shown ≡ header) }
        ensures err { IfErr result (RefusesRawExtension slice.now) }
    {
        if slice.len() < Ipv6RawExtHeader::MIN_LEN {
            return Err(LenError::at_start(
                Ipv6RawExtHeader::MIN_LEN,
                slice.len(),
                LenSource::Slice,
                Layer::Ipv6ExtHeader,
            ));
        }
        let header_len = 8 * (slice[1] as usize + 1);
        if slice.len() < header_len {
            return Err(LenError::at_start(
                header_len,
                slice.len(),
                LenSource::Slice,
                Layer::Ipv6ExtHeader,
            ));
        }
        Ok(Ipv6RawExtHeaderSlice {
            bytes: RawExtensionBytes {
                slice: &slice[..header_len],
            },
        })
    }

    /// All bytes of the IPv6 options or routing header, with its payload.
    #[inline]
    pub fn slice(&self) -> &'a [u8]
        ensures { result.now ≡ raw_extension_slice_bytes self.now }
    {
        self.bytes.slice
    }

    /// Length in bytes of the IPv6 options or routing header with its payload: 8 to 2048.
    #[inline]
    pub fn header_len(&self) -> usize
        ensures bytes { result ≡ length (raw_extension_slice_bytes self.now) }
        ensures value { result ≡ raw_extension_len (raw_extension_slice_header self.now) }
    {
        self.bytes.slice.len()
    }

    /// Next header field of the IPv6 options or routing header, byte 0: the IP number of the header or payload after
    /// it.
    #[inline]
    pub fn next_header(&self) -> IpNumber
        ensures { result ≡ (raw_extension_slice_header self.now).next_header }
    {
        IpNumber(self.bytes.slice[0])
    }

    /// Payload of the IPv6 options or routing header, from byte 2 on: its options or its routing data, 6 to 2046 bytes.
    #[inline]
    pub fn payload(&self) -> &'a [u8]
        ensures value { result.now ≡ raw_extension_payload (raw_extension_slice_header self.now) }
        ensures least { 6 ≤ length result.now }
        ensures bound { length result.now ≤ 2046 }
        ensures units { (length result.now + 2) % 8 ≡ 0 }
    {
        &self.bytes.slice[2..]
    }

    /// Returns an owned copy of the IPv6 options or routing header.
    #[inline]
    pub fn to_header(&self) -> Ipv6RawExtHeader
        ensures { result ≡ raw_extension_slice_header self.now }
    {
        Ipv6RawExtHeader::copy_of(self.next_header(), self.payload())
    }
}
