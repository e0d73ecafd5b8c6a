//! IPv4 header (RFC 791, 3.1) as an owned value.

ghost use Rattle.std.specs.Prelude.{◌≡◌, ◌+◌, ◌-◌, ◌%◌, ◌<◌, ◌≤◌, ◌++◌, List, ℕ, length};
ghost use Rattle.std.specs.Prelude.{IfOk, IfErr, OnOk, OnErr, IsOkAnd, MatchResult, vec_len, vec_capacity};
ghost use Rattle.ep_base.specs.declared.err.value_type.ValueType.TheVariants as value_type;
ghost use Rattle.ep_ip.specs.Ipv4.{FitsIpv4, IsIpv4Header, RefusesIpv4Header, ipv4_bytes, ipv4_checksum};
ghost use Rattle.ep_ip.specs.Ipv4.{ipv4_header_len, is_ipv4_fragment, default_ipv4_header, new_ipv4_header};

use crate::ipv4_header_slice::Ipv4HeaderSlice;
use crate::ipv4_options::Ipv4Options;
use crate::widths::{has_8_bits, has_16_bits, holds_bytes};
use arrayvec::ArrayVec;
use ep_base::checksum::Sum16BitWords;
use ep_base::err::ipv4::HeaderSliceError;
use ep_base::err::{ValueTooBigError, ValueType};
use ep_base::{IpFragOffset, IpNumber, Ipv4Dscp, Ipv4Ecn};
use std::alloc::AllocError;

/// IPv4 header with its options (RFC 791, 3.1) as an owned value; 20 to 60 bytes on the wire.
#[derive(Clone, Debug, PartialEq, Eq, Drop)]
pub struct Ipv4Header {
    /// Differentiated services code point (DSCP) of an IPv4 header, upper 6 bits of byte 1.
    pub dscp: Ipv4Dscp,
    /// Explicit congestion notification (ECN) of an IPv4 header, lower 2 bits of byte 1.
    pub ecn: Ipv4Ecn,
    /// Total length of an IPv4 packet: length of header and payload in bytes, bytes 2 and 3 of the header.
    pub total_len: u16,
    /// Identification of an IPv4 header, equal in all fragments of a datagram, bytes 4 and 5.
    pub identification: u16,
    /// Don't Fragment flag (DF) of an IPv4 header: the packet must not be fragmented. Byte 6, bit 6 (0x40).
    pub dont_fragment: bool,
    /// More Fragments flag (MF) of an IPv4 header: the datagram continues in further fragments. Byte 6, bit 5 (0x20).
    pub more_fragments: bool,
    /// Fragment offset of an IPv4 header in units of 8 bytes, lower 13 bits of bytes 6 and 7.
    pub fragment_offset: IpFragOffset,
    /// Time to live (TTL) of an IPv4 header: number of remaining hops, byte 8.
    pub time_to_live: u8,
    /// Protocol number of the payload of an IPv4 packet, byte 9 of the header.
    pub protocol: IpNumber,
    /// Checksum of an IPv4 header, bytes 10 and 11.
    pub header_checksum: u16,
    /// IPv4 source address, bytes 12 to 15 of the header.
    pub source: [u8; 4],
    /// IPv4 destination address, bytes 16 to 19 of the header.
    pub destination: [u8; 4],
    /// Options of an IPv4 header, from byte 20 to the end of the header.
    pub options: Ipv4Options,
}

impl Default for Ipv4Header {
    ghost is_default = { λ header. header ≡ default_ipv4_header };

    fn default() -> Ipv4Header {
        Ipv4Header {
            dscp: Ipv4Dscp::ZERO,
            ecn: Ipv4Ecn::ZERO,
            total_len: 0,
            identification: 0,
            dont_fragment: true,
            more_fragments: false,
            fragment_offset: IpFragOffset::ZERO,
            time_to_live: 0,
            protocol: IpNumber(255),
            header_checksum: 0,
            source: [0; 4],
            destination: [0; 4],
            options: Ipv4Options::new(),
        }
    }
}

impl Ipv4Header {
    /// Length of an IPv4 header without options in bytes: 20.
    pub const MIN_LEN: usize = 20;

    /// Maximum length of an IPv4 header with options in bytes: 60.
    pub const MAX_LEN: usize = 60;

    /// Creates an IPv4 header without options for a payload of `payload_len` bytes, with the Don't Fragment flag set.
    /// Identification, checksum and the other fields without an argument are 0. Fails if `payload_len` is above 65515.
    pub fn new(
        payload_len: u16,
        time_to_live: u8,
        protocol: IpNumber,
        source: [u8; 4],
        destination: [u8; 4],
    ) -> Result<Ipv4Header, ValueTooBigError<u16>>
        ensures { MatchResult result
            (λ header. (payload_len ≤ 65515)
            × (header ≡ new_ipv4_header payload_len time_to_live protocol source destination))
            (λ error. (65515 < payload_len) × (error ≡ record {
              actual = payload_len;
              max_allowed = 65515;
              value_type = value_type.Ipv4PayloadLength;
            })) }
    {
        const MAX_PAYLOAD_LEN: u16 = 65515;
        if payload_len > MAX_PAYLOAD_LEN {
            return Err(ValueTooBigError {
                actual: payload_len,
                max_allowed: MAX_PAYLOAD_LEN,
                value_type: ValueType::Ipv4PayloadLength,
            });
        }
        Ok(Ipv4Header {
            total_len: 20 + payload_len,
            time_to_live,
            protocol,
            source,
            destination,
            ..Default::default()
        })
    }

    /// Parses the IPv4 header with its options at the start of the slice, and returns it with all bytes after the
    /// header. The total length is not checked.
    pub fn from_slice(slice: &[u8]) -> Result<(Ipv4Header, &[u8]), HeaderSliceError>
        ensures ok { IfOk result (λ read. IsIpv4Header slice.now (read.0, read.1.now)) }
        ensures only { (header : Ipv4Header) (rest : List ℕ) → IsIpv4Header slice.now (header, rest)
            → IsOkAnd result (λ read. (read.0 ≡ header) × (read.1.now ≡ rest)) }
        ensures err { IfErr result (RefusesIpv4Header slice.now) }
    {
        let header = Ipv4HeaderSlice::from_slice(slice)?;
        Ok((header.to_header(), &slice[header.header_len()..]))
    }

    /// Length of the IPv4 header with its options in bytes, 20 to 60.
    #[inline]
    pub fn header_len(&self) -> usize
        ensures value { result ≡ ipv4_header_len self.now }
        ensures bound { result ≤ 60 }
        ensures words { result % 4 ≡ 0 }
    {
        Ipv4Header::MIN_LEN + self.options.len()
    }

    /// Sets the total length of the IPv4 header for a payload of `len` bytes. Fails if header and payload together
    /// exceed 65535 bytes; the header is then unchanged.
    pub fn set_payload_len(&mut self, len: usize) -> Result<(), ValueTooBigError<usize>>
        ensures { MatchResult result
            (λ _. (ipv4_header_len self.old + len ≤ 65535)
            × (self.new ≡ record self.old { total_len = ipv4_header_len self.old + len }))
            (λ error. (65535 < ipv4_header_len self.old + len) × (self.new ≡ self.old) × (error ≡ record {
              actual = len;
              max_allowed = 65535 - ipv4_header_len self.old;
              value_type = value_type.Ipv4PayloadLength;
            })) }
    {
        let max_allowed = u16::MAX as usize - self.header_len();
        if len > max_allowed {
            return Err(ValueTooBigError {
                actual: len,
                max_allowed,
                value_type: ValueType::Ipv4PayloadLength,
            });
        }
        self.total_len = (self.header_len() + len) as u16;
        Ok(())
    }

    /// Returns true if the IPv4 packet is a fragment: the More Fragments flag is set, or the fragment offset is not 0.
    #[inline]
    pub fn is_fragmenting_payload(&self) -> bool
        ensures { result ≡ is_ipv4_fragment self.now }
    {
        self.more_fragments || self.fragment_offset.value() > 0
    }

    /// Returns the wire bytes of the IPv4 header. The checksum is written as `header_checksum` contains it; it is not
    /// computed.
    #[inline]
    pub fn to_bytes(&self) -> ArrayVec<u8, 60>
        ensures bytes { result.items ≡ ipv4_bytes self.now }
        ensures fits { FitsIpv4 self.now }
    {
        self.fits();
        let mut bytes = ArrayVec::new();
        bytes
            .try_extend_from_slice(&self.fixed_bytes(self.header_checksum))
            .unwrap();
        bytes
            .try_extend_from_slice(self.options.as_slice())
            .unwrap();
        bytes
    }

    /// Computes the checksum of the IPv4 header with its options (RFC 791, 3.1). The content of `header_checksum` is
    /// ignored.
    pub fn calc_header_checksum(&self) -> u16
        ensures { result ≡ ipv4_checksum self.now }
    {
        Sum16BitWords::new()
            .add_slice(&self.fixed_bytes(0))
            .add_slice(self.options.as_slice())
            .ones_complement()
    }

    /// Appends the wire bytes of the IPv4 header with its computed checksum to the buffer; the content of
    /// `header_checksum` is ignored. Fails only if the buffer has to grow and the allocation fails; the buffer's
    /// content is then unchanged.
    pub fn write(&self, buf: &mut Vec<u8>) -> Result<(), AllocError>
        ensures ok { OnOk result (buf.new.items ≡ buf.old.items
            ++ ipv4_bytes (record self.now { header_checksum = ipv4_checksum self.now })) }
        ensures err { OnErr result (buf.new.items ≡ buf.old.items) }
        ensures fits { FitsIpv4 self.now }
        ensures full { OnErr result (vec_capacity buf.old < vec_len buf.old
            + length (ipv4_bytes (record self.now { header_checksum = ipv4_checksum self.now }))) }
        ensures capacity { vec_capacity buf.old ≤ vec_capacity buf.new }
    {
        self.fits();
        let fixed = self.fixed_bytes(self.calc_header_checksum());
        let options = self.options.as_slice();
        buf.reserve(fixed.len() + options.len())?;
        buf.extend_from_slice(&fixed).unwrap();
        // Most headers have no options; skipping the copy saves a call.
        if !options.is_empty() {
            buf.extend_from_slice(options).unwrap();
        }
        Ok(())
    }

    /// Does nothing at run time: its contract states that each field of the IPv4 header fits its width on the wire.
    #[inline]
    fn fits(&self)
        ensures { FitsIpv4 self.now }
    {
        let _ = self.dscp.value();
        let _ = self.ecn.value();
        has_16_bits(self.total_len);
        has_16_bits(self.identification);
        let _ = self.fragment_offset.value();
        has_8_bits(self.time_to_live);
        has_8_bits(self.protocol.0);
        has_16_bits(self.header_checksum);
        holds_bytes(&self.source);
        holds_bytes(&self.destination);
        holds_bytes(self.options.as_slice());
    }

    /// Returns the first 20 wire bytes of the IPv4 header (all but the options), with the argument as the checksum.
    fn fixed_bytes(&self, header_checksum: u16) -> [u8; 20]
        ensures bytes { result ++ self.now.options
            ≡ ipv4_bytes (record self.now { header_checksum = header_checksum }) }
        ensures len { length result ≡ 20 }
    {
        let words = (self.header_len() / 4) as u8;
        let total_len = self.total_len.to_be_bytes();
        let identification = self.identification.to_be_bytes();
        let dont_fragment = if self.dont_fragment { 0x40 } else { 0 };
        let more_fragments = if self.more_fragments { 0x20 } else { 0 };
        let fragment_offset = self.fragment_offset.value().to_be_bytes();
        let header_checksum = header_checksum.to_be_bytes();
        [
            0x40 + words,
            self.dscp.value() * 4 + self.ecn.value(),
            total_len[0],
            total_len[1],
            identification[0],
            identification[1],
            dont_fragment + more_fragments + fragment_offset[0],
            fragment_offset[1],
            self.time_to_live,
            self.protocol.0,
            header_checksum[0],
            header_checksum[1],
            self.source[0],
            self.source[1],
            self.source[2],
            self.source[3],
            self.destination[0],
            self.destination[1],
            self.destination[2],
            self.destination[3],
        ]
    }
}
