//! ICMPv4 messages by type and code, with their type-specific header fields (RFC 792).

ghost use Rattle.std.specs.Prelude.{◌≡◌, ◌==◌, ◌+◌, ◌≤◌, if◌then◌else◌, [], ◌∷◌, ◌++◌, length};
ghost use Rattle.std.specs.Int.{w16, to_be_bytes};
ghost use Rattle.ep_transport.specs.Icmpv4.{icmpv4_type_u8, icmpv4_code_u8, icmpv4_kind, icmpv4_len, icmpv4_rest_with};

use crate::icmp_echo_header::IcmpEchoHeader;
use crate::icmpv4;
use crate::icmpv4::{TimeExceededCode, TimestampMessage};
use arrayvec::ArrayVec;

/// Type, code and type-specific header fields of an ICMPv4 message (RFC 792).
#[derive(Clone, Debug, PartialEq, Eq, Drop)]
pub enum Icmpv4Type {
    /// ICMPv4 message with an unknown type, or with an unknown code of a known type.
    Unknown {
        /// Type of an unknown ICMPv4 message, byte 0.
        type_u8: u8,
        /// Code of an unknown ICMPv4 message, byte 1.
        code_u8: u8,
        /// Bytes 4 to 7 of an unknown ICMPv4 message, counted from 0 and not interpreted.
        bytes5to8: [u8; 4],
    },
    /// ICMPv4 echo reply (type 0).
    EchoReply(IcmpEchoHeader),
    /// ICMPv4 destination unreachable (type 3).
    DestinationUnreachable {
        /// Code of an ICMPv4 destination unreachable message, 0 to 15: the reason why the destination is unreachable.
        code: u8,
        /// Next-hop MTU in bytes of an ICMPv4 destination unreachable message with code 4, fragmentation needed (RFC
        /// 1191), bytes 6 and 7. With other codes it is read as 0 and not written.
        next_hop_mtu: u16,
    },
    /// ICMPv4 redirect (type 5).
    Redirect {
        /// Code of an ICMPv4 redirect, 0 to 3: the datagrams to redirect (0: for the network, 1: for the host, 2: for
        /// the type of service and network, 3: for the type of service and host).
        code: u8,
        /// IPv4 address of the gateway in an ICMPv4 redirect, bytes 4 to 7.
        gateway: [u8; 4],
    },
    /// ICMPv4 echo request (type 8).
    EchoRequest(IcmpEchoHeader),
    /// ICMPv4 time exceeded (type 11), with its code.
    TimeExceeded(TimeExceededCode),
    /// ICMPv4 parameter problem (type 12).
    ParameterProblem {
        /// Code of an ICMPv4 parameter problem, 0 to 2 (0: the pointer shows the error, 1: a required option is
        /// missing, 2: bad length).
        code: u8,
        /// Pointer of an ICMPv4 parameter problem with code 0, byte 4: offset of the erroneous byte in the original
        /// datagram. With other codes it is read as 0 and not written.
        pointer: u8,
    },
    /// ICMPv4 timestamp request (type 13).
    TimestampRequest(TimestampMessage),
    /// ICMPv4 timestamp reply (type 14).
    TimestampReply(TimestampMessage),
}

impl Icmpv4Type {
    /// Type of the ICMPv4 message as a number, byte 0.
    #[inline]
    pub fn type_u8(&self) -> u8
        ensures { result ≡ icmpv4_type_u8 self.now }
    {
        match self {
            Icmpv4Type::Unknown { type_u8, .. } => *type_u8,
            Icmpv4Type::EchoReply(_) => icmpv4::TYPE_ECHO_REPLY,
            Icmpv4Type::DestinationUnreachable { .. } => icmpv4::TYPE_DEST_UNREACH,
            Icmpv4Type::Redirect { .. } => icmpv4::TYPE_REDIRECT,
            Icmpv4Type::EchoRequest(_) => icmpv4::TYPE_ECHO_REQUEST,
            Icmpv4Type::TimeExceeded(_) => icmpv4::TYPE_TIME_EXCEEDED,
            Icmpv4Type::ParameterProblem { .. } => icmpv4::TYPE_PARAMETER_PROBLEM,
            Icmpv4Type::TimestampRequest(_) => icmpv4::TYPE_TIMESTAMP_REQUEST,
            Icmpv4Type::TimestampReply(_) => icmpv4::TYPE_TIMESTAMP_REPLY,
        }
    }

    /// Code of the ICMPv4 message as a number, byte 1.
    #[inline]
    pub fn code_u8(&self) -> u8
        ensures { result ≡ icmpv4_code_u8 self.now }
    {
        match self {
            Icmpv4Type::Unknown { code_u8, .. } => *code_u8,
            Icmpv4Type::DestinationUnreachable { code, .. } => *code,
            Icmpv4Type::Redirect { code, .. } => *code,
            Icmpv4Type::TimeExceeded(code) => code.code_u8(),
            Icmpv4Type::ParameterProblem { code, .. } => *code,
            Icmpv4Type::EchoReply(_)
            | Icmpv4Type::EchoRequest(_)
            | Icmpv4Type::TimestampRequest(_)
            | Icmpv4Type::TimestampReply(_) => 0,
        }
    }

    /// Length of the ICMPv4 header in bytes: 20 for timestamp messages, 8 for all others.
    #[inline]
    pub fn header_len(&self) -> usize
        ensures { result ≡ icmpv4_len (icmpv4_kind self.now) }
    {
        match self {
            Icmpv4Type::TimestampRequest(_) | Icmpv4Type::TimestampReply(_) => 20,
            Icmpv4Type::Unknown { .. }
            | Icmpv4Type::EchoReply(_)
            | Icmpv4Type::DestinationUnreachable { .. }
            | Icmpv4Type::Redirect { .. }
            | Icmpv4Type::EchoRequest(_)
            | Icmpv4Type::TimeExceeded(_)
            | Icmpv4Type::ParameterProblem { .. } => 8,
        }
    }

    /// Returns the bytes of the ICMPv4 header after its checksum, from byte 4 on. Bytes that the type does not use are
    /// 0.
    pub(crate) fn rest_bytes(&self) -> ArrayVec<u8, 16>
        ensures bytes { result.items ≡ icmpv4_rest_with (0 ∷ 0 ∷ 0 ∷ 0 ∷ []) self.now }
        ensures len { 4 + length result.items ≡ icmpv4_len (icmpv4_kind self.now) }
    {
        match self {
            Icmpv4Type::Unknown { bytes5to8, .. } => bytes_of(bytes5to8),
            Icmpv4Type::EchoReply(echo) | Icmpv4Type::EchoRequest(echo) => {
                bytes_of(&echo.to_bytes())
            }
            Icmpv4Type::DestinationUnreachable { code, next_hop_mtu } => {
                bytes_of(&mtu_bytes(*code, *next_hop_mtu))
            }
            Icmpv4Type::Redirect { gateway, .. } => bytes_of(gateway),
            Icmpv4Type::TimeExceeded(_) => bytes_of(&[0, 0, 0, 0]),
            Icmpv4Type::ParameterProblem { code, pointer } => {
                bytes_of(&pointer_bytes(*code, *pointer))
            }
            Icmpv4Type::TimestampRequest(times) | Icmpv4Type::TimestampReply(times) => {
                bytes_of(&times.to_bytes())
            }
        }
    }
}

/// Returns bytes 4 to 7 of an ICMPv4 destination unreachable message: for code 4 two zero bytes and the next-hop MTU,
/// else 0.
#[inline]
fn mtu_bytes(code: u8, next_hop_mtu: u16) -> [u8; 4]
    ensures { result ≡ (if code == 4 then 0 ∷ 0 ∷ to_be_bytes w16 next_hop_mtu else 0 ∷ 0 ∷ 0 ∷ 0 ∷ []) }
{
    if code == 4 {
        let [m0, m1] = next_hop_mtu.to_be_bytes();
        [0, 0, m0, m1]
    } else {
        [0; 4]
    }
}

/// Returns bytes 4 to 7 of an ICMPv4 parameter problem: for code 0 the pointer and three zero bytes, else 0.
#[inline]
fn pointer_bytes(code: u8, pointer: u8) -> [u8; 4]
    ensures { result ≡ (if code == 0 then pointer ∷ 0 ∷ 0 ∷ 0 ∷ [] else 0 ∷ 0 ∷ 0 ∷ 0 ∷ []) }
{
    if code == 0 {
        [pointer, 0, 0, 0]
    } else {
        [0; 4]
    }
}

/// Copies at most 16 bytes of an ICMPv4 header into an array vector.
#[inline]
fn bytes_of(slice: &[u8]) -> ArrayVec<u8, 16>
    requires { length slice.now ≤ 16 }
    ensures { result.items ≡ slice.now }
{
    let mut bytes = ArrayVec::new();
    bytes.try_extend_from_slice(slice).unwrap();
    bytes
}
