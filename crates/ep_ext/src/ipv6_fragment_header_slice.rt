//! IPv6 fragment header in a slice, without a copy (RFC 8200, 4.5).

ghost use Rattle.std.specs.Prelude.{◌≡◌, length};

use crate::ipv6_fragment_header::Ipv6FragmentHeader;
use ep_base::err::{Layer, LenError};
use ep_base::{IpFragOffset, IpNumber, LenSource};

/// The 8 bytes of exactly one IPv6 fragment header.
#[derive(Clone, Copy, Debug, PartialEq, Eq)]
pub(crate) struct FragmentHeaderBytes<'a> {
    slice: &'a [u8],
    ghost whole: { length slice.now ≡ 8 },
}

/// IPv6 fragment header in a slice (RFC 8200, 4.5): 8 bytes.
#[derive(Clone, Debug, PartialEq, Eq, Drop)]
pub struct Ipv6FragmentHeaderSlice<'a> {
    bytes: FragmentHeaderBytes<'a>,
}

impl<'a> Ipv6FragmentHeaderSlice<'a> {
    ghost use Rattle.std.specs.Prelude.{◌≡◌, ◌++◌, List, ℕ, length, IfOk, IfErr, IsOkAnd};
    ghost use Rattle.ep_ext.specs.declared.ipv6_fragment_header.Ipv6FragmentHeader.{Ipv6FragmentHeader};
    ghost use Rattle.ep_ext.specs.FragmentHeader.{IsFragmentHeader, RefusesFragmentHeader, is_ipv6_fragment};
    ghost use Rattle.ep_ext.specs.FragmentHeaderSlices.{fragment_slice_bytes, fragment_slice_header};

    /// Parses the IPv6 fragment header at the start of the slice, without a copy. Bytes after its 8 bytes are ignored.
    #[inline]
    pub fn from_slice(slice: &'a [u8]) -> Result<Ipv6FragmentHeaderSlice<'a>, LenError>
        ensures ok { IfOk result (λ header. (rest : List ℕ) × (slice.now ≡ fragment_slice_bytes header ++ rest)
            × IsFragmentHeader slice.now (fragment_slice_header header, rest)) }
        ensures only { (header : Ipv6FragmentHeader) (rest : List ℕ) → IsFragmentHeader slice.now (header, rest)
            → IsOkAnd result (λ shown. fragment_slice_header shown ≡ header) }
        ensures err { IfErr result (RefusesFragmentHeader slice.now) }
    {
        if slice.len() < Ipv6FragmentHeader::LEN {
            return Err(LenError::at_start(
                Ipv6FragmentHeader::LEN,
                slice.len(),
                LenSource::Slice,
                Layer::Ipv6FragHeader,
            ));
        }
        Ok(Ipv6FragmentHeaderSlice {
            bytes: FragmentHeaderBytes {
                slice: &slice[..Ipv6FragmentHeader::LEN],
            },
        })
    }

    /// The 8 bytes of the IPv6 fragment header.
    #[inline]
    pub fn slice(&self) -> &'a [u8]
        ensures { result.now ≡ fragment_slice_bytes self.now }
    {
        self.bytes.slice
    }

    /// Length of the IPv6 fragment header in bytes: 8.
    #[inline]
    pub fn header_len(&self) -> usize
        ensures value { result ≡ 8 }
        ensures bytes { result ≡ length (fragment_slice_bytes self.now) }
    {
        Ipv6FragmentHeader::LEN
    }

    /// Next header field of the IPv6 fragment header, byte 0: the IP number of the header or payload after it.
    #[inline]
    pub fn next_header(&self) -> IpNumber
        ensures { result ≡ (fragment_slice_header self.now).next_header }
    {
        IpNumber(self.bytes.slice[0])
    }

    /// Fragment offset of the IPv6 fragment header, in units of 8 bytes: the upper 13 bits of bytes 2 and 3.
    #[inline]
    pub fn fragment_offset(&self) -> IpFragOffset
        ensures { result ≡ (fragment_slice_header self.now).fragment_offset }
    {
        let offset_and_flag = u16::from_be_bytes([self.bytes.slice[2], self.bytes.slice[3]]);
        IpFragOffset::try_new(offset_and_flag >> 3).unwrap()
    }

    /// M flag of the IPv6 fragment header, the lowest bit of byte 3: true if more fragments follow.
    #[inline]
    pub fn more_fragments(&self) -> bool
        ensures { result ≡ (fragment_slice_header self.now).more_fragments }
    {
        self.bytes.slice[3] & 1 == 1
    }

    /// Identification of the IPv6 fragment header, bytes 4 to 7: common to all fragments of one packet.
    #[inline]
    pub fn identification(&self) -> u32
        ensures { result ≡ (fragment_slice_header self.now).identification }
    {
        let bytes = self.bytes.slice;
        u32::from_be_bytes([bytes[4], bytes[5], bytes[6], bytes[7]])
    }

    /// Returns true if the packet with this IPv6 fragment header carries a fragment: the M flag (more fragments) is
    /// set, or the fragment offset is above 0.
    #[inline]
    pub fn is_fragmenting_payload(&self) -> bool
        ensures { result ≡ is_ipv6_fragment (fragment_slice_header self.now) }
    {
        self.more_fragments() || self.fragment_offset().value() > 0
    }

    /// Returns an owned copy of the IPv6 fragment header.
    #[inline]
    pub fn to_header(&self) -> Ipv6FragmentHeader
        ensures { result ≡ fragment_slice_header self.now }
    {
        Ipv6FragmentHeader {
            next_header: self.next_header(),
            fragment_offset: self.fragment_offset(),
            more_fragments: self.more_fragments(),
            identification: self.identification(),
        }
    }
}
