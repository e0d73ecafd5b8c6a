//! ICMPv6 header (RFC 4443) as an owned value.

ghost use Rattle.std.specs.Prelude.{◌≡◌, ◌+◌, ◌<◌, ◌≤◌, ◌++◌, length, IfOk, IfErr, OnOk, OnErr, IsOkAnd, MatchResult, None, [], vec_len, vec_capacity};
ghost use Rattle.ep_base.specs.Tables.{Parts, parts_of, Refuses, first_row};
ghost use Rattle.ep_transport.specs.Icmpv6.{IsIcmpv6, RefusesIcmpv6, icmpv6_bytes, icmpv6_checksum};
ghost use Rattle.ep_transport.specs.PseudoHeaders.{icmpv6_length_rows};

use crate::icmpv6_slice::Icmpv6Slice;
use crate::icmpv6_type::Icmpv6Type;
use crate::pseudo_header;
use ep_base::IpNumber;
use ep_base::err::{LenError, ValueTooBigError, ValueType};
use std::alloc::AllocError;

/// ICMPv6 header (RFC 4443) as an owned value; 8 bytes on the wire.
#[derive(Clone, Debug, PartialEq, Eq, Drop)]
pub struct Icmpv6Header {
    /// Type, code and type-specific fields of an ICMPv6 header: byte 0, byte 1, and bytes 4 to 7.
    pub icmp_type: Icmpv6Type,
    /// Checksum of an ICMPv6 message, bytes 2 and 3.
    pub checksum: u16,
}

impl Icmpv6Header {
    /// Minimum length of an ICMPv6 header in bytes: 8, for all types.
    pub const MIN_LEN: usize = 8;

    /// Maximum length of an ICMPv6 header in bytes: 8, for all types.
    pub const MAX_LEN: usize = 8;

    /// Creates an ICMPv6 header with this type and the checksum 0.
    #[inline]
    pub fn new(icmp_type: Icmpv6Type) -> Icmpv6Header
        ensures { result ≡ record { icmp_type = icmp_type; checksum = 0 } }
    {
        Icmpv6Header {
            icmp_type,
            checksum: 0,
        }
    }

    /// Parses the 8 byte ICMPv6 header at the start of the slice, and returns it with the bytes after it.
    pub fn from_slice(slice: &[u8]) -> Result<(Icmpv6Header, &[u8]), LenError>
        ensures ok { IfOk result (λ read. IsIcmpv6 slice.now (parts_of read.0 read.1.now [])) }
        ensures only { (message : Parts Icmpv6Header) → IsIcmpv6 slice.now message
            → IsOkAnd result (λ read. parts_of read.0 read.1.now [] ≡ message) }
        ensures err { IfErr result (RefusesIcmpv6 slice.now) }
    {
        let message = Icmpv6Slice::from_slice(slice)?;
        Ok((message.to_header(), message.payload()))
    }

    /// Length of the ICMPv6 header in bytes; always 8.
    #[inline]
    pub fn header_len(&self) -> usize
        ensures { result ≡ 8 }
    {
        self.icmp_type.header_len()
    }

    /// Returns the 8 wire bytes of the ICMPv6 header. The checksum is written as `checksum` contains it, and bytes that
    /// the type does not use are 0.
    #[inline]
    pub fn to_bytes(&self) -> [u8; 8]
        ensures { result ≡ icmpv6_bytes self.now }
    {
        let [c0, c1] = self.checksum.to_be_bytes();
        let [r0, r1, r2, r3] = self.icmp_type.rest_bytes();
        [
            self.icmp_type.type_u8(),
            self.icmp_type.code_u8(),
            c0,
            c1,
            r0,
            r1,
            r2,
            r3,
        ]
    }

    /// Appends the 8 wire bytes of the ICMPv6 header to the buffer; the checksum is written as `checksum` contains it.
    /// Fails only if the buffer has to grow and the allocation fails; the buffer's content is then unchanged.
    pub fn write(&self, buf: &mut Vec<u8>) -> Result<(), AllocError>
        ensures ok { OnOk result (buf.new.items ≡ buf.old.items ++ icmpv6_bytes self.now) }
        ensures err { OnErr result (buf.new.items ≡ buf.old.items) }
        ensures full { OnErr result (vec_capacity buf.old < vec_len buf.old + length (icmpv6_bytes self.now)) }
        ensures capacity { vec_capacity buf.old ≤ vec_capacity buf.new }
    {
        buf.extend_from_slice(&self.to_bytes())
    }

    /// Computes the checksum of the ICMPv6 message (this header and `payload`) sent from the IPv6 address `source` to
    /// `destination`, and stores it in `checksum`. Fails if the payload is above 4294967287 bytes; the header is then
    /// unchanged.
    pub fn update_checksum(
        &mut self,
        source: [u8; 16],
        destination: [u8; 16],
        payload: &[u8],
    ) -> Result<(), ValueTooBigError<usize>>
        ensures { MatchResult result
            (λ _. (first_row (icmpv6_length_rows payload.now) ≡ None)
            × (self.new ≡ record self.old { checksum = icmpv6_checksum source destination self.old payload.now }))
            (λ error. Refuses (icmpv6_length_rows payload.now) error × (self.new ≡ self.old)) }
    {
        pseudo_header::check_len(payload, 4294967287, ValueType::Icmpv6PayloadLength)?;
        self.checksum = 0;
        let len = (Icmpv6Header::MIN_LEN + payload.len()) as u32;
        self.checksum = pseudo_header::sum_ipv6(source, destination, IpNumber::IPV6_ICMP, len)
            .add_slice(&self.to_bytes())
            .add_slice(payload)
            .ones_complement();
        Ok(())
    }
}
