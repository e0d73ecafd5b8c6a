//! Numbers of the C interface: statuses of calls and kinds of headers, as `etherparse.h` names them.

/// Status 0 of a C call: success.
pub const OK: u32 = 0;
/// Status 1 of a C call: the bytes are not a valid frame; the error is in the field `refusal` of the result.
pub const REFUSED: u32 = 1;
/// Status 2 of a C call: an argument is invalid, such as an IP version that is neither 4 nor 6.
pub const UNKNOWN_CHOICE: u32 = 2;
/// Status 3 of a C call: the caller's buffer is too small; the needed length is stored, except by the call that slices
/// many frames.
pub const TOO_SMALL: u32 = 3;
/// Status 4 of a C call that builds a frame: the payload is too long for the length fields of the headers, or the TCP
/// options have more than 40 bytes.
pub const TOO_LONG: u32 = 4;
/// Status 5 of a C call: out of memory, an allocation failed.
pub const OUT_OF_MEMORY: u32 = 5;
/// Status 6 of a C call to a reassembly pool: a reassembled payload is complete, and is in the caller's buffer.
pub const COMPLETE: u32 = 6;
/// Status 7 of a C call to a reassembly pool: the frame is valid, but the IP fragment in it is rejected.
pub const FRAGMENT_REFUSED: u32 = 7;
/// Status 8 of a C call to a reassembly pool: the frame is not processed, since the pool still keeps a complete payload
/// that did not fit into an earlier buffer.
pub const PAYLOAD_WAITS: u32 = 8;
/// Status 9 of a C call to a bounded reassembly pool: the stream of the frame's fragment is discarded, since two
/// versions of its payload arrived.
pub const DISCARDED: u32 = 9;
/// Status 10 of a C call to a bounded reassembly pool: the stream of the frame's fragment alone needs more memory than
/// the limits allow, and is evicted.
pub const OVER_BUDGET: u32 = 10;

/// Kind of a link header in the C interface: Ethernet II.
pub const LINK_ETHERNET2: u32 = 1;
/// Kind of a link header in the C interface: Linux cooked capture (SLL v1).
pub const LINK_LINUX_SLL: u32 = 2;

/// Kind of a tag after the link header in the C interface: VLAN tag (IEEE 802.1Q).
pub const EXT_VLAN: u32 = 1;
/// Kind of a tag after the link header in the C interface: MACsec tag (IEEE 802.1AE).
pub const EXT_MACSEC: u32 = 2;

/// Kind of a network layer in the C interface: ARP packet.
pub const NET_ARP: u32 = 1;
/// Kind of a network layer in the C interface: IPv4 header.
pub const NET_IPV4: u32 = 4;
/// Kind of a network layer in the C interface: IPv6 header.
pub const NET_IPV6: u32 = 6;

/// Kind of a transport header in the C interface, equal to its IP protocol number: ICMP (IPv4).
pub const TRANSPORT_ICMPV4: u32 = 1;
/// Kind of a transport header in the C interface, equal to its IP protocol number: TCP.
pub const TRANSPORT_TCP: u32 = 6;
/// Kind of a transport header in the C interface, equal to its IP protocol number: UDP.
pub const TRANSPORT_UDP: u32 = 17;
/// Kind of a transport header in the C interface, equal to its IP protocol number: ICMPv6.
pub const TRANSPORT_ICMPV6: u32 = 58;

/// Verdict on a checksum in the C interface: there is no such header, and no fragment.
pub const CHECKSUM_NONE: u32 = 0;
/// Verdict on a checksum in the C interface: it is valid.
pub const CHECKSUM_VALID: u32 = 1;
/// Verdict on a checksum in the C interface: it is invalid.
pub const CHECKSUM_INVALID: u32 = 2;
/// Verdict on a checksum in the C interface: the sender computed none, in UDP over IPv4.
pub const CHECKSUM_ABSENT: u32 = 3;
/// Verdict on a checksum in the C interface: it cannot be decided.
pub const CHECKSUM_UNKNOWN: u32 = 4;

/// Reason for an error of a filter expression in the C interface: the text is not UTF-8.
pub const FILTER_NOT_UTF8: u32 = 25;
