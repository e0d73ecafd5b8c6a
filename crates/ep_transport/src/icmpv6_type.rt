//! ICMPv6 messages by type and code, with their type-specific header fields (RFC 4443).

ghost use Rattle.std.specs.Prelude.{◌≡◌, [], ◌∷◌};
ghost use Rattle.ep_transport.specs.Icmpv6.{icmpv6_type_u8, icmpv6_code_u8, icmpv6_rest_with};

use crate::icmp_echo_header::IcmpEchoHeader;
use crate::icmpv6;
use crate::icmpv6::TimeExceededCode;

/// Type, code and type-specific header fields of an ICMPv6 message (RFC 4443).
#[derive(Clone, Debug, PartialEq, Eq, Drop)]
pub enum Icmpv6Type {
    /// ICMPv6 message with an unknown type, or with an unknown code of a known type.
    Unknown {
        /// Type of an unknown ICMPv6 message, byte 0.
        type_u8: u8,
        /// Code of an unknown ICMPv6 message, byte 1.
        code_u8: u8,
        /// Bytes 4 to 7 of an unknown ICMPv6 message, counted from 0 and not interpreted.
        bytes5to8: [u8; 4],
    },
    /// ICMPv6 destination unreachable (type 1), with its code, 0 to 6: the reason why the destination is unreachable.
    DestinationUnreachable(u8),
    /// ICMPv6 packet too big (type 2).
    PacketTooBig {
        /// MTU of the next-hop link in bytes in an ICMPv6 packet too big message, bytes 4 to 7.
        mtu: u32,
    },
    /// ICMPv6 time exceeded (type 3), with its code.
    TimeExceeded(TimeExceededCode),
    /// ICMPv6 parameter problem (type 4).
    ParameterProblem {
        /// Code of an ICMPv6 parameter problem, 0 to 2 (0: erroneous header field, 1: unrecognized next header, 2:
        /// unrecognized IPv6 option).
        code: u8,
        /// Pointer of an ICMPv6 parameter problem, bytes 4 to 7: offset of the erroneous byte in the packet that caused
        /// the message.
        pointer: u32,
    },
    /// ICMPv6 echo request (type 128).
    EchoRequest(IcmpEchoHeader),
    /// ICMPv6 echo reply (type 129).
    EchoReply(IcmpEchoHeader),
}

impl Icmpv6Type {
    /// Type of the ICMPv6 message as a number, byte 0.
    #[inline]
    pub fn type_u8(&self) -> u8
        ensures { result ≡ icmpv6_type_u8 self.now }
    {
        match self {
            Icmpv6Type::Unknown { type_u8, .. } => *type_u8,
            Icmpv6Type::DestinationUnreachable(_) => icmpv6::TYPE_DEST_UNREACH,
            Icmpv6Type::PacketTooBig { .. } => icmpv6::TYPE_PACKET_TOO_BIG,
            Icmpv6Type::TimeExceeded(_) => icmpv6::TYPE_TIME_EXCEEDED,
            Icmpv6Type::ParameterProblem { .. } => icmpv6::TYPE_PARAMETER_PROBLEM,
            Icmpv6Type::EchoRequest(_) => icmpv6::TYPE_ECHO_REQUEST,
            Icmpv6Type::EchoReply(_) => icmpv6::TYPE_ECHO_REPLY,
        }
    }

    /// Code of the ICMPv6 message as a number, byte 1.
    #[inline]
    pub fn code_u8(&self) -> u8
        ensures { result ≡ icmpv6_code_u8 self.now }
    {
        match self {
            Icmpv6Type::Unknown { code_u8, .. } => *code_u8,
            Icmpv6Type::DestinationUnreachable(code) => *code,
            Icmpv6Type::TimeExceeded(code) => code.code_u8(),
            Icmpv6Type::ParameterProblem { code, .. } => *code,
            Icmpv6Type::PacketTooBig { .. }
            | Icmpv6Type::EchoRequest(_)
            | Icmpv6Type::EchoReply(_) => 0,
        }
    }

    /// Length of the ICMPv6 header in bytes; always 8.
    #[inline]
    pub fn header_len(&self) -> usize
        ensures { result ≡ 8 }
    {
        8
    }

    /// Returns bytes 4 to 7 of the ICMPv6 header. Bytes that the type does not use are 0.
    pub(crate) fn rest_bytes(&self) -> [u8; 4]
        ensures { result ≡ icmpv6_rest_with (0 ∷ 0 ∷ 0 ∷ 0 ∷ []) self.now }
    {
        match self {
            Icmpv6Type::Unknown { bytes5to8, .. } => *bytes5to8,
            Icmpv6Type::DestinationUnreachable(_) | Icmpv6Type::TimeExceeded(_) => [0; 4],
            Icmpv6Type::PacketTooBig { mtu } => mtu.to_be_bytes(),
            Icmpv6Type::ParameterProblem { pointer, .. } => pointer.to_be_bytes(),
            Icmpv6Type::EchoRequest(echo) | Icmpv6Type::EchoReply(echo) => echo.to_bytes(),
        }
    }
}
