//! Type numbers, codes and message contents of ICMPv4 (RFC 792).

pub(crate) mod kind;
mod time_exceeded_code;
mod timestamp_message;

pub use time_exceeded_code::TimeExceededCode;
pub use timestamp_message::TimestampMessage;

/// ICMPv4 type 0: echo reply.
pub const TYPE_ECHO_REPLY: u8 = 0;
/// ICMPv4 type 3: destination unreachable.
pub const TYPE_DEST_UNREACH: u8 = 3;
/// ICMPv4 type 5: redirect.
pub const TYPE_REDIRECT: u8 = 5;
/// ICMPv4 type 8: echo request.
pub const TYPE_ECHO_REQUEST: u8 = 8;
/// ICMPv4 type 11: time exceeded.
pub const TYPE_TIME_EXCEEDED: u8 = 11;
/// ICMPv4 type 12: parameter problem.
pub const TYPE_PARAMETER_PROBLEM: u8 = 12;
/// ICMPv4 type 13: timestamp request.
pub const TYPE_TIMESTAMP_REQUEST: u8 = 13;
/// ICMPv4 type 14: timestamp reply.
pub const TYPE_TIMESTAMP_REPLY: u8 = 14;
