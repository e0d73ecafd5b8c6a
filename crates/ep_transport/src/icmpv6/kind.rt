//! ICMPv6 messages whose type-specific header fields are decoded (RFC 4443), by type and code.

ghost use Rattle.std.specs.Prelude.{◌≡◌};
ghost use Rattle.ep_transport.specs.Icmpv6.{icmpv6_kind_of};

use crate::icmpv6;

/// ICMPv6 messages with a known type and code; each has its own variant of `Icmpv6Type`.
#[derive(Clone, Copy, Debug, PartialEq, Eq)]
pub(crate) enum Icmpv6Kind {
    DestinationUnreachable,
    PacketTooBig,
    TimeExceeded,
    ParameterProblem,
    EchoRequest,
    EchoReply,
}

/// Returns the known ICMPv6 message with this type and code, or `None` if the type or code is unknown
/// (`Icmpv6Type::Unknown`).
#[inline]
pub(crate) fn kind_of(type_u8: u8, code_u8: u8) -> Option<Icmpv6Kind>
    ensures { result ≡ icmpv6_kind_of type_u8 code_u8 }
{
    match type_u8 {
        icmpv6::TYPE_DEST_UNREACH if code_u8 <= 6 => Some(Icmpv6Kind::DestinationUnreachable),
        icmpv6::TYPE_PACKET_TOO_BIG if code_u8 == 0 => Some(Icmpv6Kind::PacketTooBig),
        icmpv6::TYPE_TIME_EXCEEDED if code_u8 <= 1 => Some(Icmpv6Kind::TimeExceeded),
        icmpv6::TYPE_PARAMETER_PROBLEM if code_u8 <= 2 => Some(Icmpv6Kind::ParameterProblem),
        icmpv6::TYPE_ECHO_REQUEST if code_u8 == 0 => Some(Icmpv6Kind::EchoRequest),
        icmpv6::TYPE_ECHO_REPLY if code_u8 == 0 => Some(Icmpv6Kind::EchoReply),
        _ => None,
    }
}
