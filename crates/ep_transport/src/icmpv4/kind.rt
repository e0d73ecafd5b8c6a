//! ICMPv4 messages whose type-specific header fields are decoded (RFC 792), by type and code.

ghost use Rattle.std.specs.Prelude.{◌≡◌};
ghost use Rattle.ep_transport.specs.Icmpv4.{icmpv4_kind_of};

use crate::icmpv4;

/// ICMPv4 messages with a known type and code; each has its own variant of `Icmpv4Type`.
#[derive(Clone, Copy, Debug, PartialEq, Eq)]
pub(crate) enum Icmpv4Kind {
    EchoReply,
    DestinationUnreachable,
    Redirect,
    EchoRequest,
    TimeExceeded,
    ParameterProblem,
    TimestampRequest,
    TimestampReply,
}

/// Returns the known ICMPv4 message with this type and code, or `None` if the type or code is unknown
/// (`Icmpv4Type::Unknown`).
#[inline]
pub(crate) fn kind_of(type_u8: u8, code_u8: u8) -> Option<Icmpv4Kind>
    ensures { result ≡ icmpv4_kind_of type_u8 code_u8 }
{
    match type_u8 {
        icmpv4::TYPE_ECHO_REPLY if code_u8 == 0 => Some(Icmpv4Kind::EchoReply),
        icmpv4::TYPE_DEST_UNREACH if code_u8 <= 15 => Some(Icmpv4Kind::DestinationUnreachable),
        icmpv4::TYPE_REDIRECT if code_u8 <= 3 => Some(Icmpv4Kind::Redirect),
        icmpv4::TYPE_ECHO_REQUEST if code_u8 == 0 => Some(Icmpv4Kind::EchoRequest),
        icmpv4::TYPE_TIME_EXCEEDED if code_u8 <= 1 => Some(Icmpv4Kind::TimeExceeded),
        icmpv4::TYPE_PARAMETER_PROBLEM if code_u8 <= 2 => Some(Icmpv4Kind::ParameterProblem),
        icmpv4::TYPE_TIMESTAMP_REQUEST if code_u8 == 0 => Some(Icmpv4Kind::TimestampRequest),
        icmpv4::TYPE_TIMESTAMP_REPLY if code_u8 == 0 => Some(Icmpv4Kind::TimestampReply),
        _ => None,
    }
}
