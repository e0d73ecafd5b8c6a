//! ICMPv6 messages (RFC 4443) as slices of their bytes, parsed without copying.

use crate::icmp_echo_header::IcmpEchoHeader;
use crate::icmpv6::kind::Icmpv6Kind;
use crate::icmpv6::{TimeExceededCode, kind};
use crate::icmpv6_header::Icmpv6Header;
use crate::icmpv6_type::Icmpv6Type;
use ep_base::err::{Layer, LenError};
use ep_base::{AtLeast, LenSource};

/// ICMPv6 message (RFC 4443), header and payload, as a slice of its bytes. Fields are read from the slice on access.
#[derive(Clone, Debug, PartialEq, Eq, Drop)]
pub struct Icmpv6Slice<'a> {
    bytes: AtLeast<'a, 8>,
}

impl<'a> Icmpv6Slice<'a> {
    ghost use Rattle.std.specs.Prelude.{◌≡◌, ◌++◌, IfOk, IfErr, IsOkAnd, List, ℕ, slice_index, slice_range};
    ghost use Rattle.ep_base.specs.Tables.{Parts};
    ghost use Rattle.ep_transport.specs.declared.icmpv6_header.Icmpv6Header.{Icmpv6Header};
    ghost use Rattle.ep_transport.specs.Icmp.{echo_of};
    ghost use Rattle.ep_base.specs.Bytes.{long_at};
    ghost use Rattle.ep_transport.specs.Icmpv6.{IsIcmpv6, RefusesIcmpv6, icmpv6_code_u8, icmpv6_type_u8};
    ghost use Rattle.ep_transport.specs.Icmpv6Slices.{icmpv6_slice_bytes, icmpv6_slice_header, icmpv6_slice_payload, icmpv6_slice_parts};

    /// Parses the slice as an ICMPv6 message, header and payload. Fails below 8 bytes.
    pub fn from_slice(slice: &'a [u8]) -> Result<Icmpv6Slice<'a>, LenError>
        ensures ok { IfOk result (λ message. (left : List ℕ) × (slice.now ≡ icmpv6_slice_bytes message ++ left)
            × IsIcmpv6 slice.now (icmpv6_slice_parts message)) }
        ensures only { (message : Parts Icmpv6Header) → IsIcmpv6 slice.now message
            → IsOkAnd result (λ shown. icmpv6_slice_parts shown ≡ message) }
        ensures err { IfErr result (RefusesIcmpv6 slice.now) }
    {
        if slice.len() < Icmpv6Header::MIN_LEN {
            return Err(LenError::at_start(
                Icmpv6Header::MIN_LEN,
                slice.len(),
                LenSource::Slice,
                Layer::Icmpv6,
            ));
        }
        Ok(Icmpv6Slice {
            bytes: AtLeast { slice },
        })
    }

    /// Bytes of the ICMPv6 message, header and payload.
    #[inline]
    pub fn slice(&self) -> &'a [u8]
        ensures { result.now ≡ icmpv6_slice_bytes self.now }
    {
        self.bytes.slice
    }

    /// Bytes after the 8 byte ICMPv6 header.
    #[inline]
    pub fn payload(&self) -> &'a [u8]
        ensures { result.now ≡ icmpv6_slice_payload self.now }
    {
        &self.bytes.slice[Icmpv6Header::MIN_LEN..]
    }

    /// Length of the ICMPv6 header in bytes; always 8.
    #[inline]
    pub fn header_len(&self) -> usize
        ensures { result ≡ 8 }
    {
        Icmpv6Header::MIN_LEN
    }

    /// Type of the ICMPv6 message as a number, byte 0.
    #[inline]
    pub fn type_u8(&self) -> u8
        ensures byte { result ≡ slice_index (icmpv6_slice_bytes self.now) 0 }
        ensures value { result ≡ icmpv6_type_u8 (icmpv6_slice_header self.now).icmp_type }
    {
        self.bytes.slice[0]
    }

    /// Code of the ICMPv6 message as a number, byte 1.
    #[inline]
    pub fn code_u8(&self) -> u8
        ensures byte { result ≡ slice_index (icmpv6_slice_bytes self.now) 1 }
        ensures value { result ≡ icmpv6_code_u8 (icmpv6_slice_header self.now).icmp_type }
    {
        self.bytes.slice[1]
    }

    /// Checksum of the ICMPv6 message, bytes 2 and 3. It is not verified.
    #[inline]
    pub fn checksum(&self) -> u16
        ensures { result ≡ (icmpv6_slice_header self.now).checksum }
    {
        u16::from_be_bytes([self.bytes.slice[2], self.bytes.slice[3]])
    }

    /// Bytes 4 to 7 of the ICMPv6 message, counted from 0. They are not interpreted; their meaning depends on the type.
    #[inline]
    pub fn bytes5to8(&self) -> [u8; 4]
        ensures { result ≡ slice_range (icmpv6_slice_bytes self.now) 4 8 }
    {
        let slice = self.bytes.slice;
        [slice[4], slice[5], slice[6], slice[7]]
    }

    /// Decodes type, code and type-specific header fields of the ICMPv6 message. A message with an unknown type or code
    /// is returned as `Unknown`.
    pub fn icmp_type(&self) -> Icmpv6Type
        ensures { result ≡ (icmpv6_slice_header self.now).icmp_type }
    {
        let code = self.bytes.slice[1];
        match kind::kind_of(self.bytes.slice[0], code) {
            Some(Icmpv6Kind::DestinationUnreachable) => Icmpv6Type::DestinationUnreachable(code),
            Some(Icmpv6Kind::PacketTooBig) => Icmpv6Type::PacketTooBig { mtu: self.number() },
            Some(Icmpv6Kind::TimeExceeded) => Icmpv6Type::TimeExceeded(TimeExceededCode::of(code)),
            Some(Icmpv6Kind::ParameterProblem) => Icmpv6Type::ParameterProblem {
                code,
                pointer: self.number(),
            },
            Some(Icmpv6Kind::EchoRequest) => Icmpv6Type::EchoRequest(self.echo()),
            Some(Icmpv6Kind::EchoReply) => Icmpv6Type::EchoReply(self.echo()),
            None => Icmpv6Type::Unknown {
                type_u8: self.bytes.slice[0],
                code_u8: code,
                bytes5to8: self.bytes5to8(),
            },
        }
    }

    /// Decodes the header of the ICMPv6 message into an owned header.
    #[inline]
    pub fn to_header(&self) -> Icmpv6Header
        ensures { result ≡ icmpv6_slice_header self.now }
    {
        Icmpv6Header {
            icmp_type: self.icmp_type(),
            checksum: self.checksum(),
        }
    }

    /// Decodes the header of the ICMPv6 message into an owned header. Equal to `to_header`, under the name that the
    /// Rust crate etherparse uses.
    #[inline]
    pub fn header(&self) -> Icmpv6Header
        ensures { result ≡ icmpv6_slice_header self.now }
    {
        self.to_header()
    }

    /// Bytes 4 to 7 of the ICMPv6 message as a big-endian number: the MTU of a packet too big message, or the pointer
    /// of a parameter problem.
    #[inline]
    fn number(&self) -> u32
        ensures { result ≡ long_at (icmpv6_slice_bytes self.now) 4 }
    {
        u32::from_be_bytes(self.bytes5to8())
    }

    /// Identifier and sequence number of an ICMPv6 echo message, bytes 4 to 7.
    #[inline]
    fn echo(&self) -> IcmpEchoHeader
        ensures { result ≡ echo_of (icmpv6_slice_bytes self.now) }
    {
        let slice = self.bytes.slice;
        IcmpEchoHeader {
            id: u16::from_be_bytes([slice[4], slice[5]]),
            seq: u16::from_be_bytes([slice[6], slice[7]]),
        }
    }
}
