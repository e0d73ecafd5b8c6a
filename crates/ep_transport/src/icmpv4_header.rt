//! ICMPv4 header (RFC 792) as an owned value.

ghost use Rattle.std.specs.Prelude.{◌≡◌, ◌+◌, ◌≤◌, ◌<◌, ◌++◌, length, IfOk, IfErr, OnOk, OnErr, IsOkAnd, [], vec_len, vec_capacity};
ghost use Rattle.ep_base.specs.Checksum.{checksum_of};
ghost use Rattle.ep_base.specs.Tables.{Parts, parts_of};
ghost use Rattle.ep_transport.specs.Icmpv4.{IsIcmpv4, RefusesIcmpv4, icmpv4_bytes, icmpv4_kind, icmpv4_len, icmpv4_message};

use crate::icmpv4_slice::Icmpv4Slice;
use crate::icmpv4_type::Icmpv4Type;
use arrayvec::ArrayVec;
use ep_base::checksum::Sum16BitWords;
use ep_base::err::LenError;
use std::alloc::AllocError;

/// ICMPv4 header (RFC 792) as an owned value; on the wire 20 bytes for timestamp messages, 8 bytes for all others.
#[derive(Clone, Debug, PartialEq, Eq, Drop)]
pub struct Icmpv4Header {
    /// Type, code and type-specific fields of an ICMPv4 header: byte 0, byte 1, and the header from byte 4 on.
    pub icmp_type: Icmpv4Type,
    /// Checksum of an ICMPv4 message, bytes 2 and 3.
    pub checksum: u16,
}

impl Icmpv4Header {
    /// Minimum length of an ICMPv4 header in bytes: 8.
    pub const MIN_LEN: usize = 8;

    /// Maximum length of an ICMPv4 header in bytes: 20, for timestamp messages.
    pub const MAX_LEN: usize = 20;

    /// Creates an ICMPv4 header with this type and the checksum 0.
    #[inline]
    pub fn new(icmp_type: Icmpv4Type) -> Icmpv4Header
        ensures { result ≡ record { icmp_type = icmp_type; checksum = 0 } }
    {
        Icmpv4Header {
            icmp_type,
            checksum: 0,
        }
    }

    /// Parses the ICMPv4 header at the start of the slice, and returns it with the bytes after it. A timestamp message
    /// must have exactly 20 bytes, so no bytes follow its header.
    pub fn from_slice(slice: &[u8]) -> Result<(Icmpv4Header, &[u8]), LenError>
        ensures ok { IfOk result (λ read. IsIcmpv4 slice.now (parts_of read.0 read.1.now [])) }
        ensures only { (message : Parts Icmpv4Header) → IsIcmpv4 slice.now message
            → IsOkAnd result (λ read. parts_of read.0 read.1.now [] ≡ message) }
        ensures err { IfErr result (RefusesIcmpv4 slice.now) }
    {
        let message = Icmpv4Slice::from_slice(slice)?;
        Ok((message.to_header(), message.payload()))
    }

    /// Length of the ICMPv4 header in bytes: 20 for timestamp messages, 8 for all others.
    #[inline]
    pub fn header_len(&self) -> usize
        ensures { result ≡ icmpv4_len (icmpv4_kind self.now.icmp_type) }
    {
        self.icmp_type.header_len()
    }

    /// Returns the wire bytes of the ICMPv4 header. The checksum is written as `checksum` contains it, and bytes that
    /// the type does not use are 0.
    pub fn to_bytes(&self) -> ArrayVec<u8, 20>
        ensures bytes { result.items ≡ icmpv4_bytes self.now }
        ensures len { length result.items ≡ icmpv4_len (icmpv4_kind self.now.icmp_type) }
    {
        let [c0, c1] = self.checksum.to_be_bytes();
        let front = [self.icmp_type.type_u8(), self.icmp_type.code_u8(), c0, c1];
        let rest = self.icmp_type.rest_bytes();
        let mut bytes = ArrayVec::new();
        bytes.try_extend_from_slice(&front).unwrap();
        bytes.try_extend_from_slice(rest.as_slice()).unwrap();
        bytes
    }

    /// Appends the wire bytes of the ICMPv4 header to the buffer; the checksum is written as `checksum` contains it.
    /// Fails only if the buffer has to grow and the allocation fails; the buffer's content is then unchanged.
    pub fn write(&self, buf: &mut Vec<u8>) -> Result<(), AllocError>
        ensures ok { OnOk result (buf.new.items ≡ buf.old.items ++ icmpv4_bytes self.now) }
        ensures err { OnErr result (buf.new.items ≡ buf.old.items) }
        ensures full { OnErr result (vec_capacity buf.old < vec_len buf.old + length (icmpv4_bytes self.now)) }
        ensures capacity { vec_capacity buf.old ≤ vec_capacity buf.new }
    {
        let bytes = self.to_bytes();
        buf.extend_from_slice(bytes.as_slice())
    }

    /// Computes the checksum of the ICMPv4 message (this header and `payload`), and stores it in `checksum`.
    pub fn update_checksum(&mut self, payload: &[u8])
        ensures { self.new ≡ record self.old { checksum = checksum_of (icmpv4_message self.old payload.now) } }
    {
        self.checksum = 0;
        let bytes = self.to_bytes();
        self.checksum = Sum16BitWords::new()
            .add_slice(bytes.as_slice())
            .add_slice(payload)
            .ones_complement();
    }
}
