//! Transport layers UDP, TCP, ICMPv4 and ICMPv6: headers as owned values, and messages as slices.
#![tactic(auto)]

mod icmp_echo_header;
pub mod icmpv4;
mod icmpv4_header;
mod icmpv4_slice;
mod icmpv4_type;
pub mod icmpv6;
mod icmpv6_header;
mod icmpv6_slice;
mod icmpv6_type;
pub mod laws;
pub mod pseudo_header;
mod tcp_header;
mod tcp_option_element;
mod tcp_options;
mod tcp_options_iterator;
mod tcp_slice;
mod transport_checksum_error;
mod transport_header;
mod transport_slice;
mod udp_header;
mod udp_slice;

pub use arrayvec::ArrayVec;
pub use ep_base::err::{Layer, LenError, ValueTooBigError, ValueType, tcp};
pub use ep_base::{IpFragOffset, IpNumber, Ipv4Dscp, Ipv4Ecn, Ipv6FlowLabel, LenSource};
pub use ep_ip::{Ipv4Header, Ipv4Options, Ipv6Header};
pub use icmp_echo_header::IcmpEchoHeader;
pub use icmpv4_header::Icmpv4Header;
pub use icmpv4_slice::Icmpv4Slice;
pub use icmpv4_type::Icmpv4Type;
pub use icmpv6_header::Icmpv6Header;
pub use icmpv6_slice::Icmpv6Slice;
pub use icmpv6_type::Icmpv6Type;
pub use tcp_header::TcpHeader;
pub use tcp_option_element::{TcpOptionElement, TcpOptionReadError};
pub use tcp_options::{TcpOptionWriteError, TcpOptions};
pub use tcp_options_iterator::TcpOptionsIterator;
pub use tcp_slice::TcpSlice;
pub use transport_checksum_error::TransportChecksumError;
pub use transport_header::TransportHeader;
pub use transport_slice::TransportSlice;
pub use udp_header::UdpHeader;
pub use udp_slice::UdpSlice;
