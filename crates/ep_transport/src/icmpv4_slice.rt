//! ICMPv4 messages (RFC 792) as slices of their bytes, parsed without copying.

ghost use Rattle.std.specs.Prelude.{◌≡◌, ◌≤◌, length, None, MatchResult};
ghost use Rattle.ep_base.specs.Tables.{Refuses, first_row};
ghost use Rattle.ep_transport.specs.Icmpv4.{icmpv4_kind_at, icmpv4_len, icmpv4_timestamp_rows};

use crate::icmp_echo_header::IcmpEchoHeader;
use crate::icmpv4::kind::Icmpv4Kind;
use crate::icmpv4::{TimeExceededCode, TimestampMessage, kind};
use crate::icmpv4_header::Icmpv4Header;
use crate::icmpv4_type::Icmpv4Type;
use ep_base::LenSource;
use ep_base::err::{Layer, LenError};

/// Bytes of an ICMPv4 message with a complete header, which has 20 bytes in a timestamp message, else 8.
#[derive(Clone, Copy, Debug, PartialEq, Eq)]
struct MessageBytes<'a> {
    slice: &'a [u8],
    ghost long: { 8 ≤ length slice.now },
    ghost whole: { icmpv4_len (icmpv4_kind_at slice.now) ≤ length slice.now },
}

/// Returns an error if an ICMPv4 message of `len` bytes is a timestamp request or reply and `len` is not 20.
fn check_timestamp(kind: Option<Icmpv4Kind>, len: usize) -> Result<(), LenError>
    ensures { MatchResult result (λ _. first_row (icmpv4_timestamp_rows kind len) ≡ None)
        (Refuses (icmpv4_timestamp_rows kind len)) }
{
    let layer = match kind {
        Some(Icmpv4Kind::TimestampRequest) => Layer::Icmpv4Timestamp,
        Some(Icmpv4Kind::TimestampReply) => Layer::Icmpv4TimestampReply,
        _ => return Ok(()),
    };
    if len == Icmpv4Header::MAX_LEN {
        return Ok(());
    }
    Err(LenError::at_start(Icmpv4Header::MAX_LEN, len, LenSource::Slice, layer))
}

/// ICMPv4 message (RFC 792), header and payload, as a slice of its bytes. Fields are read from the slice on access.
#[derive(Clone, Debug, PartialEq, Eq, Drop)]
pub struct Icmpv4Slice<'a> {
    bytes: MessageBytes<'a>,
}

impl<'a> Icmpv4Slice<'a> {
    ghost use Rattle.std.specs.Prelude.{◌≡◌, ◌≤◌, ◌++◌, IfOk, IfErr, IsOkAnd, List, ℕ, Option, [], length, slice_index, slice_range};
    ghost use Rattle.ep_base.specs.Tables.{Parts};
    ghost use Rattle.ep_transport.specs.declared.icmpv4_header.Icmpv4Header.{Icmpv4Header};
    ghost use Rattle.ep_transport.specs.Icmp.{echo_of};
    ghost use Rattle.ep_transport.specs.Icmpv4.{IsIcmpv4, RefusesIcmpv4, icmpv4_code_u8, icmpv4_kind_at, icmpv4_type_u8, timestamp_of};
    ghost use Rattle.ep_transport.specs.Icmpv4Slices.{icmpv4_slice_bytes, icmpv4_slice_header, icmpv4_slice_header_len, icmpv4_slice_payload, icmpv4_slice_parts};

    /// Parses the slice as an ICMPv4 message, header and payload. Fails below 8 bytes, and for a timestamp request or
    /// reply that does not have exactly 20 bytes.
    pub fn from_slice(slice: &'a [u8]) -> Result<Icmpv4Slice<'a>, LenError>
        ensures ok { IfOk result (λ message. (left : List ℕ) × (slice.now ≡ icmpv4_slice_bytes message ++ left)
            × IsIcmpv4 slice.now (icmpv4_slice_parts message)) }
        ensures only { (message : Parts Icmpv4Header) → IsIcmpv4 slice.now message
            → IsOkAnd result (λ shown. icmpv4_slice_parts shown ≡ message) }
        ensures err { IfErr result (RefusesIcmpv4 slice.now) }
    {
        if slice.len() < Icmpv4Header::MIN_LEN {
            return Err(LenError::at_start(
                Icmpv4Header::MIN_LEN,
                slice.len(),
                LenSource::Slice,
                Layer::Icmpv4,
            ));
        }
        check_timestamp(kind::kind_of(slice[0], slice[1]), slice.len())?;
        Ok(Icmpv4Slice {
            bytes: MessageBytes { slice },
        })
    }

    /// Bytes of the ICMPv4 message, header and payload.
    #[inline]
    pub fn slice(&self) -> &'a [u8]
        ensures { result.now ≡ icmpv4_slice_bytes self.now }
    {
        self.bytes.slice
    }

    /// Bytes after the ICMPv4 header; empty for a timestamp message.
    #[inline]
    pub fn payload(&self) -> &'a [u8]
        ensures { result.now ≡ icmpv4_slice_payload self.now }
    {
        &self.bytes.slice[self.header_len()..]
    }

    /// Length of the ICMPv4 header in bytes: 20 for timestamp messages, 8 for all others.
    #[inline]
    pub fn header_len(&self) -> usize
        ensures { result ≡ icmpv4_slice_header_len self.now }
    {
        match self.kind() {
            Some(Icmpv4Kind::TimestampRequest | Icmpv4Kind::TimestampReply) => {
                Icmpv4Header::MAX_LEN
            }
            _ => Icmpv4Header::MIN_LEN,
        }
    }

    /// Type of the ICMPv4 message as a number, byte 0.
    #[inline]
    pub fn type_u8(&self) -> u8
        ensures byte { result ≡ slice_index (icmpv4_slice_bytes self.now) 0 }
        ensures value { result ≡ icmpv4_type_u8 (icmpv4_slice_header self.now).icmp_type }
    {
        self.bytes.slice[0]
    }

    /// Code of the ICMPv4 message as a number, byte 1.
    #[inline]
    pub fn code_u8(&self) -> u8
        ensures byte { result ≡ slice_index (icmpv4_slice_bytes self.now) 1 }
        ensures value { result ≡ icmpv4_code_u8 (icmpv4_slice_header self.now).icmp_type }
    {
        self.bytes.slice[1]
    }

    /// Checksum of the ICMPv4 message, bytes 2 and 3. It is not verified.
    #[inline]
    pub fn checksum(&self) -> u16
        ensures { result ≡ (icmpv4_slice_header self.now).checksum }
    {
        u16::from_be_bytes([self.bytes.slice[2], self.bytes.slice[3]])
    }

    /// Bytes 4 to 7 of the ICMPv4 message, counted from 0. They are not interpreted; their meaning depends on the type.
    #[inline]
    pub fn bytes5to8(&self) -> [u8; 4]
        ensures { result ≡ slice_range (icmpv4_slice_bytes self.now) 4 8 }
    {
        let slice = self.bytes.slice;
        [slice[4], slice[5], slice[6], slice[7]]
    }

    /// Decodes type, code and type-specific header fields of the ICMPv4 message. A message with an unknown type or code
    /// is returned as `Unknown`.
    pub fn icmp_type(&self) -> Icmpv4Type
        ensures { result ≡ (icmpv4_slice_header self.now).icmp_type }
    {
        let slice = self.bytes.slice;
        let code = slice[1];
        match self.kind() {
            Some(Icmpv4Kind::EchoReply) => Icmpv4Type::EchoReply(self.echo()),
            Some(Icmpv4Kind::DestinationUnreachable) => Icmpv4Type::DestinationUnreachable {
                code,
                next_hop_mtu: if code == 4 {
                    u16::from_be_bytes([slice[6], slice[7]])
                } else {
                    0
                },
            },
            Some(Icmpv4Kind::Redirect) => Icmpv4Type::Redirect {
                code,
                gateway: self.bytes5to8(),
            },
            Some(Icmpv4Kind::EchoRequest) => Icmpv4Type::EchoRequest(self.echo()),
            Some(Icmpv4Kind::TimeExceeded) => Icmpv4Type::TimeExceeded(TimeExceededCode::of(code)),
            Some(Icmpv4Kind::ParameterProblem) => Icmpv4Type::ParameterProblem {
                code,
                pointer: if code == 0 { slice[4] } else { 0 },
            },
            Some(Icmpv4Kind::TimestampRequest) => Icmpv4Type::TimestampRequest(self.times()),
            Some(Icmpv4Kind::TimestampReply) => Icmpv4Type::TimestampReply(self.times()),
            None => Icmpv4Type::Unknown {
                type_u8: slice[0],
                code_u8: code,
                bytes5to8: self.bytes5to8(),
            },
        }
    }

    /// Decodes the header of the ICMPv4 message into an owned header.
    #[inline]
    pub fn to_header(&self) -> Icmpv4Header
        ensures { result ≡ icmpv4_slice_header self.now }
    {
        Icmpv4Header {
            icmp_type: self.icmp_type(),
            checksum: self.checksum(),
        }
    }

    /// Decodes the header of the ICMPv4 message into an owned header. Equal to `to_header`, under the name that the
    /// Rust crate etherparse uses.
    #[inline]
    pub fn header(&self) -> Icmpv4Header
        ensures { result ≡ icmpv4_slice_header self.now }
    {
        self.to_header()
    }

    /// Known ICMPv4 message with the type and code in the slice, or `None` if the type or code is unknown.
    #[inline]
    fn kind(&self) -> Option<Icmpv4Kind>
        ensures { result ≡ icmpv4_kind_at (icmpv4_slice_bytes self.now) }
    {
        kind::kind_of(self.bytes.slice[0], self.bytes.slice[1])
    }

    /// Identifier and sequence number of an ICMPv4 echo message, bytes 4 to 7.
    #[inline]
    fn echo(&self) -> IcmpEchoHeader
        ensures { result ≡ echo_of (icmpv4_slice_bytes self.now) }
    {
        let slice = self.bytes.slice;
        IcmpEchoHeader {
            id: u16::from_be_bytes([slice[4], slice[5]]),
            seq: u16::from_be_bytes([slice[6], slice[7]]),
        }
    }

    /// Identifier, sequence number and timestamps of an ICMPv4 timestamp message, bytes 4 to 19.
    fn times(&self) -> TimestampMessage
        requires { 20 ≤ length (icmpv4_slice_bytes self.now) }
        ensures { result ≡ timestamp_of (icmpv4_slice_bytes self.now) }
    {
        let slice = self.bytes.slice;
        TimestampMessage {
            id: u16::from_be_bytes([slice[4], slice[5]]),
            seq: u16::from_be_bytes([slice[6], slice[7]]),
            originate_timestamp: u32::from_be_bytes([slice[8], slice[9], slice[10], slice[11]]),
            receive_timestamp: u32::from_be_bytes([slice[12], slice[13], slice[14], slice[15]]),
            transmit_timestamp: u32::from_be_bytes([slice[16], slice[17], slice[18], slice[19]]),
        }
    }
}
