//! IPv6 header (RFC 8200, 3) as an owned value.

ghost use Rattle.std.specs.Prelude.{◌≡◌, ◌<◌, ◌≤◌, ◌+◌, ◌++◌, List, ℕ, length};
ghost use Rattle.std.specs.Prelude.{IfOk, IfErr, OnOk, OnErr, IsOkAnd, MatchResult, vec_len, vec_capacity};
ghost use Rattle.ep_base.specs.declared.err.value_type.ValueType.TheVariants as value_type;
ghost use Rattle.ep_ip.specs.Ipv6.{FitsIpv6, IsIpv6Header, RefusesIpv6Header, ipv6_bytes, default_ipv6_header};

use crate::ipv6_header_slice::Ipv6HeaderSlice;
use crate::widths::{has_8_bits, has_16_bits, holds_bytes};
use ep_base::err::ipv6::HeaderSliceError;
use ep_base::err::{ValueTooBigError, ValueType};
use ep_base::{IpNumber, Ipv6FlowLabel};
use std::alloc::AllocError;

/// IPv6 header (RFC 8200, 3) as an owned value; 40 bytes on the wire.
#[derive(Clone, Debug, PartialEq, Eq, Drop)]
pub struct Ipv6Header {
    /// Traffic class of an IPv6 header, lower 4 bits of byte 0 and upper 4 bits of byte 1.
    pub traffic_class: u8,
    /// Flow label of an IPv6 header: 20 bits, the lower 4 bits of byte 1 and bytes 2 and 3.
    pub flow_label: Ipv6FlowLabel,
    /// Payload length of an IPv6 header, bytes 4 and 5: length in bytes of everything after this header, extension
    /// headers included. If it is 0, packet parsers such as `Ipv6Slice::from_slice` extend the packet to the end of the
    /// slice.
    pub payload_length: u16,
    /// Next header of an IPv6 header: protocol number of the extension header or payload directly after it, byte 6.
    pub next_header: IpNumber,
    /// Hop limit of an IPv6 header: number of remaining hops, byte 7.
    pub hop_limit: u8,
    /// IPv6 source address, bytes 8 to 23 of the header.
    pub source: [u8; 16],
    /// IPv6 destination address, bytes 24 to 39 of the header.
    pub destination: [u8; 16],
}

impl Default for Ipv6Header {
    ghost is_default = { λ header. header ≡ default_ipv6_header };

    fn default() -> Ipv6Header {
        Ipv6Header {
            traffic_class: 0,
            flow_label: Ipv6FlowLabel::ZERO,
            payload_length: 0,
            next_header: IpNumber(255),
            hop_limit: 0,
            source: [0; 16],
            destination: [0; 16],
        }
    }
}

impl Ipv6Header {
    /// Length of an IPv6 header without extension headers in bytes: 40.
    pub const LEN: usize = 40;

    /// Parses the 40 byte IPv6 header at the start of the slice, and returns it with all bytes after it. The payload
    /// length is not checked, and extension headers are not parsed.
    pub fn from_slice(slice: &[u8]) -> Result<(Ipv6Header, &[u8]), HeaderSliceError>
        ensures ok { IfOk result (λ read. IsIpv6Header slice.now (read.0, read.1.now)) }
        ensures only { (header : Ipv6Header) (rest : List ℕ) → IsIpv6Header slice.now (header, rest)
            → IsOkAnd result (λ read. (read.0 ≡ header) × (read.1.now ≡ rest)) }
        ensures err { IfErr result (RefusesIpv6Header slice.now) }
    {
        let header = Ipv6HeaderSlice::from_slice(slice)?;
        Ok((header.to_header(), &slice[Ipv6Header::LEN..]))
    }

    /// Length of the IPv6 header without extension headers in bytes; always 40.
    #[inline]
    pub fn header_len(&self) -> usize
        ensures { result ≡ 40 }
    {
        Ipv6Header::LEN
    }

    /// Sets the payload length of the IPv6 header to `size`, the number of bytes after the header. Fails if `size` is
    /// above 65535; the header is then unchanged.
    pub fn set_payload_length(&mut self, size: usize) -> Result<(), ValueTooBigError<usize>>
        ensures { MatchResult result
            (λ _. (size ≤ 65535) × (self.new ≡ record self.old { payload_length = size }))
            (λ error. (65535 < size) × (self.new ≡ self.old) × (error ≡ record {
              actual = size;
              max_allowed = 65535;
              value_type = value_type.Ipv6PayloadLength;
            })) }
    {
        const MAX_PAYLOAD_LENGTH: usize = 65535;
        if size > MAX_PAYLOAD_LENGTH {
            return Err(ValueTooBigError {
                actual: size,
                max_allowed: MAX_PAYLOAD_LENGTH,
                value_type: ValueType::Ipv6PayloadLength,
            });
        }
        self.payload_length = size as u16;
        Ok(())
    }

    /// Returns the 40 wire bytes of the IPv6 header.
    #[inline]
    pub fn to_bytes(&self) -> [u8; 40]
        ensures bytes { result ≡ ipv6_bytes self.now }
        ensures fits { FitsIpv6 self.now }
    {
        self.fits();
        let version_class_and_label = 0x6000_0000
            + 0x10_0000 * self.traffic_class as u32
            + self.flow_label.value();
        let first = version_class_and_label.to_be_bytes();
        let payload_length = self.payload_length.to_be_bytes();
        [
            first[0],
            first[1],
            first[2],
            first[3],
            payload_length[0],
            payload_length[1],
            self.next_header.0,
            self.hop_limit,
            self.source[0],
            self.source[1],
            self.source[2],
            self.source[3],
            self.source[4],
            self.source[5],
            self.source[6],
            self.source[7],
            self.source[8],
            self.source[9],
            self.source[10],
            self.source[11],
            self.source[12],
            self.source[13],
            self.source[14],
            self.source[15],
            self.destination[0],
            self.destination[1],
            self.destination[2],
            self.destination[3],
            self.destination[4],
            self.destination[5],
            self.destination[6],
            self.destination[7],
            self.destination[8],
            self.destination[9],
            self.destination[10],
            self.destination[11],
            self.destination[12],
            self.destination[13],
            self.destination[14],
            self.destination[15],
        ]
    }

    /// Does nothing at run time: its contract states that each field of the IPv6 header fits its width on the wire.
    #[inline]
    fn fits(&self)
        ensures { FitsIpv6 self.now }
    {
        has_8_bits(self.traffic_class);
        let _ = self.flow_label.value();
        has_16_bits(self.payload_length);
        has_8_bits(self.next_header.0);
        has_8_bits(self.hop_limit);
        holds_bytes(&self.source);
        holds_bytes(&self.destination);
    }

    /// Appends the 40 wire bytes of the IPv6 header to the buffer. Fails only if the buffer has to grow and the
    /// allocation fails; the buffer's content is then unchanged.
    pub fn write(&self, buf: &mut Vec<u8>) -> Result<(), AllocError>
        ensures ok { OnOk result (buf.new.items ≡ buf.old.items ++ ipv6_bytes self.now) }
        ensures err { OnErr result (buf.new.items ≡ buf.old.items) }
        ensures fits { FitsIpv6 self.now }
        ensures full { OnErr result (vec_capacity buf.old < vec_len buf.old + length (ipv6_bytes self.now)) }
        ensures capacity { vec_capacity buf.old ≤ vec_capacity buf.new }
    {
        buf.extend_from_slice(&self.to_bytes())
    }
}
