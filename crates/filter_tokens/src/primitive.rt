//! Primitives of filter expressions: conditions on one layer or field of a packet.

use crate::network::Network;
use ep_base::{EtherType, IpNumber, VlanId};

/// Primitive of a filter expression: a condition on one layer or field of a packet. It does not match a packet without
/// that layer or field.
#[derive(Clone, Copy, Debug, PartialEq, Eq)]
pub enum Primitive {
    /// The link layer, a VLAN tag or a MACsec tag has this ether type; of a packet without link layer, the IP version.
    EtherType(EtherType),
    /// The IP header or one of its extension headers has this protocol or next header number.
    Protocol(IpVersion, IpNumber),
    /// An address of IP, or of ARP for IPv4, is in this network. A host is a network of one address.
    Address(AddressLayer, Side, Network),
    /// An address of the Ethernet II header equals this address.
    Station(Side, [u8; 6]),
    /// A port of the transport header is in this range: from the first to the second number.
    Port(PortProtocol, Side, u16, u16),
    /// A VLAN tag has this identifier, or there is a VLAN tag.
    Vlan(Option<VlanId>),
    /// A number in the packet, with only the bits of a mask kept, has this relation to a number.
    Number(Operand, u32, Relation, u32),
}

/// Which of two addresses or ports a primitive is about.
#[derive(Clone, Copy, Debug, PartialEq, Eq)]
pub enum Side {
    /// Source.
    Source,
    /// Destination.
    Destination,
    /// Source or destination.
    Either,
    /// Source and destination.
    Both,
}

/// IP version that a primitive is limited to.
#[derive(Clone, Copy, Debug, PartialEq, Eq)]
pub enum IpVersion {
    /// IPv4 or IPv6.
    Any,
    /// IPv4.
    V4,
    /// IPv6.
    V6,
}

/// Network layer whose addresses a primitive is about.
#[derive(Clone, Copy, Debug, PartialEq, Eq)]
pub enum AddressLayer {
    /// IPv4, IPv6 or ARP.
    Any,
    /// IPv4.
    Ipv4,
    /// IPv6.
    Ipv6,
    /// ARP for IPv4.
    Arp,
}

/// Transport protocol whose ports a primitive is about.
#[derive(Clone, Copy, Debug, PartialEq, Eq)]
pub enum PortProtocol {
    /// TCP, UDP or SCTP.
    Any,
    /// TCP.
    Tcp,
    /// UDP.
    Udp,
    /// SCTP (RFC 9260).
    Sctp,
}

/// Number in a packet that a primitive compares.
#[derive(Clone, Copy, Debug, PartialEq, Eq)]
pub enum Operand {
    /// Original length of the packet in bytes.
    Length,
    /// Big-endian number at an offset of a layer's bytes.
    Bytes(FieldLayer, u32, Width),
}

/// Layer whose bytes a primitive reads.
#[derive(Clone, Copy, Debug, PartialEq, Eq)]
pub enum FieldLayer {
    /// Ethernet II: all bytes of the frame.
    Ethernet,
    /// ARP: the bytes after the link layer and its tags.
    Arp,
    /// IPv4: the bytes after the link layer and its tags.
    Ipv4,
    /// IPv6: the bytes after the link layer and its tags.
    Ipv6,
    /// TCP: the payload of IP.
    Tcp,
    /// UDP: the payload of IP.
    Udp,
    /// SCTP: the payload of IP.
    Sctp,
    /// ICMP for IPv4: the payload of IPv4.
    Icmpv4,
    /// ICMPv6: the payload of IPv6.
    Icmpv6,
}

/// Size of a number in a packet.
#[derive(Clone, Copy, Debug, PartialEq, Eq)]
pub enum Width {
    /// 1 byte.
    One,
    /// 2 bytes.
    Two,
    /// 4 bytes.
    Four,
}

/// Comparison of two numbers.
#[derive(Clone, Copy, Debug, PartialEq, Eq)]
pub enum Relation {
    /// `=`
    Equal,
    /// `!=`
    NotEqual,
    /// `<`
    Less,
    /// `<=`
    LessOrEqual,
    /// `>`
    Greater,
    /// `>=`
    GreaterOrEqual,
}
