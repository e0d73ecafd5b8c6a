//! Building frames header by header, from the link header to the payload.
#![tactic(auto)]

pub mod err;
mod facts;
mod ip_part;
pub mod laws;
mod link_part;
mod packet_builder;
mod placing;
mod writing;

pub use ep_base::err::{ValueTooBigError, ValueType, ipv4_exts, ipv6_exts};
pub use ep_base::{
    EtherType, IpFragOffset, IpNumber, Ipv4Dscp, Ipv4Ecn, Ipv6FlowLabel, VlanId, VlanPcp,
};
pub use ep_ext::{
    IpAuthHeader, Ipv4Extensions, Ipv6Extensions, Ipv6FragmentHeader, Ipv6RawExtHeader,
    Ipv6RoutingExtensions,
};
pub use ep_ip::{Ipv4Header, Ipv4Options, Ipv6Header};
pub use ep_link::{
    ArpHardwareId, ArpOperation, ArpPacket, DoubleVlanHeader, Ethernet2Header, LinuxSllHeader,
    LinuxSllPacketType, SingleVlanHeader, VlanHeader,
};
pub use ep_packet::IpHeaders;
pub use ep_transport::{
    IcmpEchoHeader, Icmpv4Header, Icmpv4Type, Icmpv6Header, Icmpv6Type, TcpHeader,
    TcpOptionElement, TcpOptionWriteError, TcpOptions, UdpHeader, icmpv4, icmpv6,
};
pub use packet_builder::{PacketBuilder, PacketBuilderStep};
