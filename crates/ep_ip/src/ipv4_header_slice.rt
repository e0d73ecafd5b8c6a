//! IPv4 header (RFC 791, 3.1) as a slice of its bytes.

ghost use Rattle.std.specs.Prelude.{◌≡◌, ◌*◌, ◌≤◌, length};
ghost use Rattle.ep_ip.specs.Ip.{version_of};
ghost use Rattle.ep_ip.specs.Ipv4.{ihl_of};

use crate::ipv4_header::Ipv4Header;
use crate::ipv4_options::Ipv4Options;
use ep_base::err::ipv4::{HeaderError, HeaderSliceError};
use ep_base::err::{Layer, LenError};
use ep_base::{IpFragOffset, IpNumber, Ipv4Dscp, Ipv4Ecn, LenSource};

/// Bytes of an IPv4 header with its options: the version is 4, and the length is 4 times the IHL in byte 0.
#[derive(Clone, Copy, Debug, PartialEq, Eq)]
struct HeaderBytes<'a> {
    slice: &'a [u8],
    ghost version: { version_of slice.now ≡ 4 },
    ghost words: { 5 ≤ ihl_of slice.now },
    ghost whole: { length slice.now ≡ 4 * ihl_of slice.now },
}

/// IPv4 header with its options (RFC 791, 3.1) as a slice of its 20 to 60 bytes. Fields are read from the slice on
/// access.
#[derive(Clone, Debug, PartialEq, Eq, Drop)]
pub struct Ipv4HeaderSlice<'a> {
    bytes: HeaderBytes<'a>,
}

impl<'a> Ipv4HeaderSlice<'a> {
    ghost use Rattle.std.specs.Prelude.{◌≡◌, ◌*◌, ◌++◌, IfOk, IfErr, IsOkAnd, List, ℕ};
    ghost use Rattle.ep_ip.specs.declared.ipv4_header.Ipv4Header.{Ipv4Header};
    ghost use Rattle.ep_ip.specs.Ipv4.{IsIpv4Header, RefusesIpv4Header, ipv4_header_len, is_ipv4_fragment, ihl_of};
    ghost use Rattle.ep_ip.specs.Ipv4Slices.{ipv4_header_slice_bytes, ipv4_header_slice_header};

    /// Parses the IPv4 header with its options at the start of the slice; bytes after the header are ignored. The total
    /// length is not checked.
    pub fn from_slice(slice: &'a [u8]) -> Result<Ipv4HeaderSlice<'a>, HeaderSliceError>
        ensures ok { IfOk result (λ header. (rest : List ℕ) × (slice.now ≡ ipv4_header_slice_bytes header ++ rest)
            × IsIpv4Header slice.now (ipv4_header_slice_header header, rest)) }
        ensures only { (header : Ipv4Header) (rest : List ℕ) → IsIpv4Header slice.now (header, rest)
            → IsOkAnd result (λ shown. ipv4_header_slice_header shown ≡ header) }
        ensures err { IfErr result (RefusesIpv4Header slice.now) }
    {
        if slice.len() < Ipv4Header::MIN_LEN {
            return Err(HeaderSliceError::Len(LenError::at_start(
                Ipv4Header::MIN_LEN,
                slice.len(),
                LenSource::Slice,
                Layer::Ipv4Header,
            )));
        }
        let version_number = slice[0] >> 4;
        if version_number != 4 {
            return Err(HeaderSliceError::Content(HeaderError::UnexpectedVersion {
                version_number,
            }));
        }
        let ihl = slice[0] & 0xf;
        if ihl < 5 {
            return Err(HeaderSliceError::Content(HeaderError::HeaderLengthSmallerThanHeader {
                ihl,
            }));
        }
        let header_len = ihl as usize * 4;
        if slice.len() < header_len {
            return Err(HeaderSliceError::Len(LenError::at_start(
                header_len,
                slice.len(),
                LenSource::Slice,
                Layer::Ipv4Header,
            )));
        }
        Ok(Ipv4HeaderSlice {
            bytes: HeaderBytes {
                slice: &slice[..header_len],
            },
        })
    }

    /// Returns a second view of the bytes of the IPv4 header; no byte is copied.
    #[inline]
    pub(crate) fn copied(&self) -> Ipv4HeaderSlice<'a>
        ensures { result ≡ self.now }
    {
        Ipv4HeaderSlice { bytes: self.bytes }
    }

    /// Wire bytes of the IPv4 header with its options, 20 to 60 bytes.
    #[inline]
    pub fn slice(&self) -> &'a [u8]
        ensures { result.now ≡ ipv4_header_slice_bytes self.now }
    {
        self.bytes.slice
    }

    /// Version of the IPv4 header, upper 4 bits of byte 0; always 4.
    #[inline]
    pub fn version(&self) -> u8
        ensures { result ≡ 4 }
    {
        self.bytes.slice[0] >> 4
    }

    /// Internet header length (IHL) of the IPv4 header in units of 4 bytes, lower 4 bits of byte 0; 5 to 15.
    #[inline]
    pub fn ihl(&self) -> u8
        ensures { result ≡ ihl_of (ipv4_header_slice_bytes self.now) }
    {
        self.bytes.slice[0] & 0xf
    }

    /// Length of the IPv4 header with its options in bytes, 20 to 60.
    #[inline]
    pub fn header_len(&self) -> usize
        ensures bytes { result ≡ length (ipv4_header_slice_bytes self.now) }
        ensures value { result ≡ ipv4_header_len (ipv4_header_slice_header self.now) }
    {
        self.bytes.slice.len()
    }

    /// Differentiated services code point (DSCP) of the IPv4 header, upper 6 bits of byte 1.
    #[inline]
    pub fn dscp(&self) -> Ipv4Dscp
        ensures { result ≡ (ipv4_header_slice_header self.now).dscp }
    {
        Ipv4Dscp::try_new(self.bytes.slice[1] >> 2).unwrap()
    }

    /// Explicit congestion notification (ECN) of the IPv4 header, lower 2 bits of byte 1.
    #[inline]
    pub fn ecn(&self) -> Ipv4Ecn
        ensures { result ≡ (ipv4_header_slice_header self.now).ecn }
    {
        Ipv4Ecn::try_new(self.bytes.slice[1] & 3).unwrap()
    }

    /// Total length of the IPv4 packet: length of header and payload in bytes, bytes 2 and 3 of the header.
    #[inline]
    pub fn total_len(&self) -> u16
        ensures { result ≡ (ipv4_header_slice_header self.now).total_len }
    {
        u16::from_be_bytes([self.bytes.slice[2], self.bytes.slice[3]])
    }

    /// Identification of the IPv4 header, equal in all fragments of a datagram, bytes 4 and 5.
    #[inline]
    pub fn identification(&self) -> u16
        ensures { result ≡ (ipv4_header_slice_header self.now).identification }
    {
        u16::from_be_bytes([self.bytes.slice[4], self.bytes.slice[5]])
    }

    /// Don't Fragment flag (DF) of the IPv4 header: the packet must not be fragmented. Byte 6, bit 6 (0x40).
    #[inline]
    pub fn dont_fragment(&self) -> bool
        ensures { result ≡ (ipv4_header_slice_header self.now).dont_fragment }
    {
        (self.bytes.slice[6] >> 6) & 1 == 1
    }

    /// More Fragments flag (MF) of the IPv4 header: the datagram continues in further fragments. Byte 6, bit 5 (0x20).
    #[inline]
    pub fn more_fragments(&self) -> bool
        ensures { result ≡ (ipv4_header_slice_header self.now).more_fragments }
    {
        (self.bytes.slice[6] >> 5) & 1 == 1
    }

    /// Fragment offset of the IPv4 header in units of 8 bytes, lower 13 bits of bytes 6 and 7.
    #[inline]
    pub fn fragment_offset(&self) -> IpFragOffset
        ensures { result ≡ (ipv4_header_slice_header self.now).fragment_offset }
    {
        let flags_and_offset = u16::from_be_bytes([self.bytes.slice[6], self.bytes.slice[7]]);
        IpFragOffset::try_new(flags_and_offset & 0x1fff).unwrap()
    }

    /// Fragment offset of the IPv4 header in units of 8 bytes. Equal to [`Ipv4HeaderSlice::fragment_offset`], under the
    /// name that the Rust crate etherparse uses.
    #[inline]
    pub fn fragments_offset(&self) -> IpFragOffset
        ensures { result ≡ (ipv4_header_slice_header self.now).fragment_offset }
    {
        self.fragment_offset()
    }

    /// Time to live (TTL) of the IPv4 header: number of remaining hops, byte 8.
    #[inline]
    pub fn time_to_live(&self) -> u8
        ensures { result ≡ (ipv4_header_slice_header self.now).time_to_live }
    {
        self.bytes.slice[8]
    }

    /// Protocol number of the payload of the IPv4 packet, byte 9 of the header.
    #[inline]
    pub fn protocol(&self) -> IpNumber
        ensures { result ≡ (ipv4_header_slice_header self.now).protocol }
    {
        IpNumber(self.bytes.slice[9])
    }

    /// Checksum of the IPv4 header, bytes 10 and 11. It is not verified.
    #[inline]
    pub fn header_checksum(&self) -> u16
        ensures { result ≡ (ipv4_header_slice_header self.now).header_checksum }
    {
        u16::from_be_bytes([self.bytes.slice[10], self.bytes.slice[11]])
    }

    /// IPv4 source address, bytes 12 to 15 of the header.
    #[inline]
    pub fn source(&self) -> [u8; 4]
        ensures { result ≡ (ipv4_header_slice_header self.now).source }
    {
        [
            self.bytes.slice[12],
            self.bytes.slice[13],
            self.bytes.slice[14],
            self.bytes.slice[15],
        ]
    }

    /// IPv4 destination address, bytes 16 to 19 of the header.
    #[inline]
    pub fn destination(&self) -> [u8; 4]
        ensures { result ≡ (ipv4_header_slice_header self.now).destination }
    {
        [
            self.bytes.slice[16],
            self.bytes.slice[17],
            self.bytes.slice[18],
            self.bytes.slice[19],
        ]
    }

    /// Options of the IPv4 header as bytes, from byte 20 to the end of the header; empty if there are none.
    #[inline]
    pub fn options(&self) -> &'a [u8]
        ensures { result.now ≡ (ipv4_header_slice_header self.now).options }
    {
        &self.bytes.slice[Ipv4Header::MIN_LEN..]
    }

    /// Returns true if the IPv4 packet is a fragment: the More Fragments flag is set, or the fragment offset is not 0.
    #[inline]
    pub fn is_fragmenting_payload(&self) -> bool
        ensures { result ≡ is_ipv4_fragment (ipv4_header_slice_header self.now) }
    {
        self.more_fragments() || self.fragment_offset().value() > 0
    }

    /// Decodes all fields and options into an owned IPv4 header.
    pub fn to_header(&self) -> Ipv4Header
        ensures { result ≡ ipv4_header_slice_header self.now }
    {
        Ipv4Header {
            dscp: self.dscp(),
            ecn: self.ecn(),
            total_len: self.total_len(),
            identification: self.identification(),
            dont_fragment: self.dont_fragment(),
            more_fragments: self.more_fragments(),
            fragment_offset: self.fragment_offset(),
            time_to_live: self.time_to_live(),
            protocol: self.protocol(),
            header_checksum: self.header_checksum(),
            source: self.source(),
            destination: self.destination(),
            options: Ipv4Options::from_valid_slice(self.options()),
        }
    }

    /// Decodes all fields and options, and overwrites the fields of the IPv4 header `place` one by one. Unlike
    /// assigning the result of `to_header`, this copies no complete header.
    #[inline]
    pub fn header_into(&self, place: &mut Ipv4Header)
        ensures { place.new ≡ ipv4_header_slice_header self.now }
    {
        place.dscp = self.dscp();
        place.ecn = self.ecn();
        place.total_len = self.total_len();
        place.identification = self.identification();
        place.dont_fragment = self.dont_fragment();
        place.more_fragments = self.more_fragments();
        place.fragment_offset = self.fragment_offset();
        place.time_to_live = self.time_to_live();
        place.protocol = self.protocol();
        place.header_checksum = self.header_checksum();
        place.source = self.source();
        place.destination = self.destination();
        place.options.fill(self.options());
    }
}
