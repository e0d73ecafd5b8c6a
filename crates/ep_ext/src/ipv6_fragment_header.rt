//! Owned IPv6 fragment header (RFC 8200, 4.5).

ghost use Rattle.std.specs.Prelude.{◌≡◌, ◌<◌, ◌≤◌, ◌+◌, ◌++◌, List, ℕ, length, vec_len, vec_capacity, IfOk, IfErr, OnOk, OnErr, IsOkAnd};
ghost use Rattle.ep_ext.specs.FragmentHeader.{FitsFragmentHeader, IsFragmentHeader, RefusesFragmentHeader, fragment_header_bytes, is_ipv6_fragment};

use crate::err::LenError;
use crate::ipv6_fragment_header_slice::Ipv6FragmentHeaderSlice;
use ep_base::{IpFragOffset, IpNumber};
use std::alloc::AllocError;

/// Owned IPv6 fragment header (RFC 8200, 4.5): 8 bytes.
#[derive(Clone, Debug, PartialEq, Eq, Drop)]
pub struct Ipv6FragmentHeader {
    /// Next header field of an IPv6 fragment header, byte 0: the IP number of the header or payload after it.
    pub next_header: IpNumber,
    /// Fragment offset of an IPv6 fragment header, in units of 8 bytes: the upper 13 bits of bytes 2 and 3.
    pub fragment_offset: IpFragOffset,
    /// M flag of an IPv6 fragment header, the lowest bit of byte 3: true if more fragments follow.
    pub more_fragments: bool,
    /// Identification of an IPv6 fragment header, bytes 4 to 7: common to all fragments of one packet.
    pub identification: u32,
}

impl Ipv6FragmentHeader {
    /// Length of an IPv6 fragment header in bytes: 8.
    pub const LEN: usize = 8;

    /// Parses the IPv6 fragment header at the start of the slice. Returns an owned copy of it, and the bytes after it.
    #[inline]
    pub fn from_slice(slice: &[u8]) -> Result<(Ipv6FragmentHeader, &[u8]), LenError>
        ensures ok { IfOk result (λ read. IsFragmentHeader slice.now (read.0, read.1.now)) }
        ensures only { (header : Ipv6FragmentHeader) (rest : List ℕ) → IsFragmentHeader slice.now (header, rest)
            → IsOkAnd result (λ read. (read.0 ≡ header) × (read.1.now ≡ rest)) }
        ensures err { IfErr result (RefusesFragmentHeader slice.now) }
    {
        let header = Ipv6FragmentHeaderSlice::from_slice(slice)?;
        Ok((header.to_header(), &slice[Ipv6FragmentHeader::LEN..]))
    }

    /// Length of the IPv6 fragment header in bytes: 8.
    #[inline]
    pub fn header_len(&self) -> usize
        ensures value { result ≡ 8 }
        ensures bytes { result ≡ length (fragment_header_bytes self.now) }
    {
        Ipv6FragmentHeader::LEN
    }

    /// Returns true if the packet with this IPv6 fragment header carries a fragment: the M flag (more fragments) is
    /// set, or the fragment offset is above 0.
    #[inline]
    pub fn is_fragmenting_payload(&self) -> bool
        ensures { result ≡ is_ipv6_fragment self.now }
    {
        self.more_fragments || self.fragment_offset.value() > 0
    }

    /// Returns the wire format of the IPv6 fragment header, with its reserved bits (byte 1 and bits 1 and 2 of byte 3)
    /// set to 0.
    #[inline]
    pub fn to_bytes(&self) -> [u8; 8]
        ensures bytes { result ≡ fragment_header_bytes self.now }
        ensures fits { FitsFragmentHeader self.now }
    {
        let [next_header] = self.next_header.0.to_be_bytes();
        let more_fragments = if self.more_fragments { 1 } else { 0 };
        let offset_and_flag = (8 * self.fragment_offset.value() + more_fragments).to_be_bytes();
        let identification = self.identification.to_be_bytes();
        [
            next_header,
            0,
            offset_and_flag[0],
            offset_and_flag[1],
            identification[0],
            identification[1],
            identification[2],
            identification[3],
        ]
    }

    /// Appends the wire format of the IPv6 fragment header to the buffer. The only error is a failed allocation, if the
    /// buffer has to grow; it leaves the buffer unchanged.
    pub fn write(&self, buf: &mut Vec<u8>) -> Result<(), AllocError>
        ensures ok { OnOk result (buf.new.items ≡ buf.old.items ++ fragment_header_bytes self.now) }
        ensures err { OnErr result (buf.new.items ≡ buf.old.items) }
        ensures fits { FitsFragmentHeader self.now }
        ensures full { OnErr result (vec_capacity buf.old < vec_len buf.old + length (fragment_header_bytes self.now)) }
        ensures capacity { vec_capacity buf.old ≤ vec_capacity buf.new }
    {
        buf.extend_from_slice(&self.to_bytes())
    }
}
