//! Errors of computing the checksum of a transport header.

use ep_base::err::ValueTooBigError;
use thiserror::Error;

/// Error of computing the checksum of a UDP, TCP, ICMPv4 or ICMPv6 header in an IPv4 packet.
#[derive(Clone, Debug, PartialEq, Eq, Hash, Drop, Error)]
pub enum TransportChecksumError {
    /// The payload of UDP or TCP is too long for the length in the IPv4 pseudo header.
    #[error(transparent)]
    PayloadLen(ValueTooBigError<usize>),
    /// An ICMPv6 header in an IPv4 packet has no checksum, because the checksum of ICMPv6 includes IPv6 addresses (RFC
    /// 4443, 2.3).
    #[error("Error: ICMPv6 can not be combined with an IPv4 headers (checksum can not be calculated).")]
    Icmpv6InIpv4,
}
