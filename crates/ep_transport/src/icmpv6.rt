//! Type numbers and codes of ICMPv6 messages (RFC 4443).

pub(crate) mod kind;
mod time_exceeded_code;

pub use time_exceeded_code::TimeExceededCode;

/// ICMPv6 type 1: destination unreachable.
pub const TYPE_DEST_UNREACH: u8 = 1;
/// ICMPv6 type 2: packet too big.
pub const TYPE_PACKET_TOO_BIG: u8 = 2;
/// ICMPv6 type 3: time exceeded.
pub const TYPE_TIME_EXCEEDED: u8 = 3;
/// ICMPv6 type 4: parameter problem.
pub const TYPE_PARAMETER_PROBLEM: u8 = 4;
/// ICMPv6 type 128: echo request.
pub const TYPE_ECHO_REQUEST: u8 = 128;
/// ICMPv6 type 129: echo reply.
pub const TYPE_ECHO_REPLY: u8 = 129;
