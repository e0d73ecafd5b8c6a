//! IPv6 header (RFC 8200, 3) as a slice of its bytes.

ghost use Rattle.std.specs.Prelude.{◌≡◌, length};
ghost use Rattle.ep_ip.specs.Ip.{version_of};

use crate::ipv6_header::Ipv6Header;
use ep_base::err::ipv6::{HeaderError, HeaderSliceError, SliceError};
use ep_base::err::{Layer, LenError};
use ep_base::{IpNumber, Ipv6FlowLabel, LenSource};

/// The 40 bytes of an IPv6 header, with the version 6 in byte 0.
#[derive(Clone, Copy, Debug, PartialEq, Eq)]
struct HeaderBytes<'a> {
    slice: &'a [u8],
    ghost version: { version_of slice.now ≡ 6 },
    ghost whole: { length slice.now ≡ 40 },
}

/// IPv6 header (RFC 8200, 3) as a slice of its 40 bytes. Fields are read from the slice on access.
#[derive(Clone, Debug, PartialEq, Eq, Drop)]
pub struct Ipv6HeaderSlice<'a> {
    bytes: HeaderBytes<'a>,
}

impl<'a> Ipv6HeaderSlice<'a> {
    ghost use Rattle.std.specs.Prelude.{◌≡◌, ◌++◌, IfOk, IfErr, IsOkAnd, List, ℕ};
    ghost use Rattle.ep_ip.specs.declared.ipv6_header.Ipv6Header.{Ipv6Header};
    ghost use Rattle.ep_base.specs.Tables.{Parts, parts_of};
    ghost use Rattle.ep_ip.specs.Ipv6.{IsIpv6Header, IsIpv6Packet, RefusesIpv6Header, RefusesIpv6Packet};
    ghost use Rattle.ep_ip.specs.Ipv6.{ipv6_payload_source};
    ghost use Rattle.ep_ip.specs.Ipv6Slices.{ipv6_header_slice_bytes, ipv6_header_slice_header};

    /// Parses the 40 byte IPv6 header at the start of the slice; bytes after it are ignored. The payload length is not
    /// checked.
    pub fn from_slice(slice: &'a [u8]) -> Result<Ipv6HeaderSlice<'a>, HeaderSliceError>
        ensures ok { IfOk result (λ header. (rest : List ℕ) × (slice.now ≡ ipv6_header_slice_bytes header ++ rest)
            × IsIpv6Header slice.now (ipv6_header_slice_header header, rest)) }
        ensures only { (header : Ipv6Header) (rest : List ℕ) → IsIpv6Header slice.now (header, rest)
            → IsOkAnd result (λ shown. ipv6_header_slice_header shown ≡ header) }
        ensures err { IfErr result (RefusesIpv6Header slice.now) }
    {
        if slice.len() < Ipv6Header::LEN {
            return Err(HeaderSliceError::Len(LenError::at_start(
                Ipv6Header::LEN,
                slice.len(),
                LenSource::Slice,
                Layer::Ipv6Header,
            )));
        }
        let version_number = slice[0] >> 4;
        if version_number != 6 {
            return Err(HeaderSliceError::Content(HeaderError::UnexpectedVersion {
                version_number,
            }));
        }
        Ok(Ipv6HeaderSlice {
            bytes: HeaderBytes {
                slice: &slice[..Ipv6Header::LEN],
            },
        })
    }

    /// Parses the IPv6 header at the start of the slice. Returns the header, the other bytes of the packet (extension
    /// headers included), and what limits these bytes: the payload length (RFC 8200, 3), or the end of the slice if the
    /// payload length is 0 and bytes follow the header.
    pub fn from_packet_slice(
        slice: &'a [u8],
    ) -> Result<(Ipv6HeaderSlice<'a>, &'a [u8], LenSource), SliceError>
        ensures ok { IfOk result (λ read. (left : List ℕ)
            × (slice.now ≡ (ipv6_header_slice_bytes read.0 ++ read.1.now) ++ left)
            × IsIpv6Packet slice.now (parts_of (ipv6_header_slice_header read.0) read.1.now left)) }
        ensures only { (packet : Parts Ipv6Header) → IsIpv6Packet slice.now packet
            → IsOkAnd result (λ read. (ipv6_header_slice_header read.0 ≡ packet.header)
            × (read.1.now ≡ packet.payload)) }
        ensures err { IfErr result (RefusesIpv6Packet slice.now) }
        ensures source { IfOk result (λ read.
            read.2 ≡ ipv6_payload_source (ipv6_header_slice_header read.0) read.1.now) }
    {
        let (header, content) = Ipv6HeaderSlice::parse_limited(slice)?;
        let len_source = header.payload_source(content);
        Ok((header, content, len_source))
    }

    /// Parses the IPv6 header at the start of the slice. Returns the header and the bytes after it, up to the end that
    /// the payload length sets, or to the end of the slice if the payload length is 0.
    fn parse_limited(slice: &'a [u8]) -> Result<(Ipv6HeaderSlice<'a>, &'a [u8]), SliceError>
        ensures ok { IfOk result (λ read. (left : List ℕ)
            × (slice.now ≡ (ipv6_header_slice_bytes read.0 ++ read.1.now) ++ left)
            × IsIpv6Packet slice.now (parts_of (ipv6_header_slice_header read.0) read.1.now left)) }
        ensures err { IfErr result (RefusesIpv6Packet slice.now) }
    {
        let header = match Ipv6HeaderSlice::from_slice(slice) {
            Ok(header) => header,
            Err(HeaderSliceError::Len(error)) => return Err(SliceError::Len(error)),
            Err(HeaderSliceError::Content(error)) => return Err(SliceError::Header(error)),
        };
        let payload_length = header.payload_length() as usize;
        if payload_length == 0 {
            return Ok((header, &slice[Ipv6Header::LEN..]));
        }
        let packet_len = Ipv6Header::LEN + payload_length;
        if slice.len() < packet_len {
            return Err(SliceError::Len(LenError::at_start(
                packet_len,
                slice.len(),
                LenSource::Slice,
                Layer::Ipv6Packet,
            )));
        }
        Ok((header, &slice[Ipv6Header::LEN..packet_len]))
    }

    /// Returns what limits the bytes of the packet after the IPv6 header (`content`): the end of the slice if the
    /// payload length is 0 and `content` is not empty, else the payload length.
    fn payload_source(&self, content: &[u8]) -> LenSource
        ensures { result ≡ ipv6_payload_source (ipv6_header_slice_header self.now) content.now }
    {
        if self.payload_length() == 0 && content.len() > 0 {
            LenSource::Slice
        } else {
            LenSource::Ipv6HeaderPayloadLen
        }
    }

    /// Returns a second view of the bytes of the IPv6 header; no byte is copied.
    #[inline]
    pub(crate) fn copied(&self) -> Ipv6HeaderSlice<'a>
        ensures { result ≡ self.now }
    {
        Ipv6HeaderSlice { bytes: self.bytes }
    }

    /// The 40 wire bytes of the IPv6 header.
    #[inline]
    pub fn slice(&self) -> &'a [u8]
        ensures { result.now ≡ ipv6_header_slice_bytes self.now }
    {
        self.bytes.slice
    }

    /// Length of the IPv6 header without extension headers in bytes; always 40.
    #[inline]
    pub fn header_len(&self) -> usize
        ensures value { result ≡ 40 }
        ensures bytes { result ≡ length (ipv6_header_slice_bytes self.now) }
    {
        self.bytes.slice.len()
    }

    /// Version of the IPv6 header, upper 4 bits of byte 0; always 6.
    #[inline]
    pub fn version(&self) -> u8
        ensures { result ≡ 6 }
    {
        self.bytes.slice[0] >> 4
    }

    /// Traffic class of the IPv6 header, lower 4 bits of byte 0 and upper 4 bits of byte 1.
    #[inline]
    pub fn traffic_class(&self) -> u8
        ensures { result ≡ (ipv6_header_slice_header self.now).traffic_class }
    {
        (self.bytes.slice[0] & 0xf) * 16 + (self.bytes.slice[1] >> 4)
    }

    /// Flow label of the IPv6 header: 20 bits, the lower 4 bits of byte 1 and bytes 2 and 3.
    #[inline]
    pub fn flow_label(&self) -> Ipv6FlowLabel
        ensures { result ≡ (ipv6_header_slice_header self.now).flow_label }
    {
        let class_and_label = u32::from_be_bytes([
            0,
            self.bytes.slice[1],
            self.bytes.slice[2],
            self.bytes.slice[3],
        ]);
        Ipv6FlowLabel::try_new(class_and_label & 0xf_ffff).unwrap()
    }

    /// Payload length of the IPv6 header, bytes 4 and 5: length in bytes of everything after this header, extension
    /// headers included.
    #[inline]
    pub fn payload_length(&self) -> u16
        ensures { result ≡ (ipv6_header_slice_header self.now).payload_length }
    {
        u16::from_be_bytes([self.bytes.slice[4], self.bytes.slice[5]])
    }

    /// Next header of the IPv6 header: protocol number of the extension header or payload directly after it, byte 6.
    #[inline]
    pub fn next_header(&self) -> IpNumber
        ensures { result ≡ (ipv6_header_slice_header self.now).next_header }
    {
        IpNumber(self.bytes.slice[6])
    }

    /// Hop limit of the IPv6 header: number of remaining hops, byte 7.
    #[inline]
    pub fn hop_limit(&self) -> u8
        ensures { result ≡ (ipv6_header_slice_header self.now).hop_limit }
    {
        self.bytes.slice[7]
    }

    /// IPv6 source address, bytes 8 to 23 of the header.
    #[inline]
    pub fn source(&self) -> [u8; 16]
        ensures { result ≡ (ipv6_header_slice_header self.now).source }
    {
        let mut source = [0; 16];
        source.copy_from_slice(&self.bytes.slice[8..24]);
        source
    }

    /// IPv6 destination address, bytes 24 to 39 of the header.
    #[inline]
    pub fn destination(&self) -> [u8; 16]
        ensures { result ≡ (ipv6_header_slice_header self.now).destination }
    {
        let mut destination = [0; 16];
        destination.copy_from_slice(&self.bytes.slice[24..40]);
        destination
    }

    /// Decodes all fields into an owned IPv6 header.
    pub fn to_header(&self) -> Ipv6Header
        ensures { result ≡ ipv6_header_slice_header self.now }
    {
        Ipv6Header {
            traffic_class: self.traffic_class(),
            flow_label: self.flow_label(),
            payload_length: self.payload_length(),
            next_header: self.next_header(),
            hop_limit: self.hop_limit(),
            source: self.source(),
            destination: self.destination(),
        }
    }
}
