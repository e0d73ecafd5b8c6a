//! Whole packets: slicing them into layers, and decoding their headers.
#![tactic(auto)]

mod checksum_verdict;
mod entry;
pub mod err;
pub mod header_lens;
mod ip_headers;
mod ip_headers_read;
mod ip_headers_read_lax;
pub mod laws;
pub mod lax_ip_content;
mod link_part;
mod little_endian_sum;
mod net_headers;
mod net_headers_fill;
mod net_headers_fill_lax;
mod net_slice;
mod packet_headers;
mod payload_slice;
mod sliced_packet;
mod sliced_packet_checksums;
mod sliced_packet_payload;
mod sliced_packet_walk;
pub mod vlan_tags;

pub use arrayvec::ArrayVec;
pub use checksum_verdict::{ChecksumVerdict, ChecksumVerdicts};
pub use entry::Entry;
pub use ep_base::err::{Layer, LenError, ValueTooBigError, ValueType};
pub use ep_base::{
    EtherPayloadSlice, EtherType, IpFragOffset, IpNumber, IpPayloadSlice, Ipv4Dscp, Ipv4Ecn,
    Ipv6FlowLabel, LaxIpPayloadSlice, LenSource, MacsecAn, MacsecShortLen, VlanId, VlanPcp,
};
pub use ep_ext::{
    IpAuthHeader, Ipv4Extensions, Ipv4ExtensionsSlice, Ipv6Extensions, Ipv6ExtensionsSlice,
    Ipv6FragmentHeader, Ipv6RawExtHeader, Ipv6RoutingExtensions,
};
pub use ep_ip::{
    IpSlice, Ipv4Header, Ipv4HeaderSlice, Ipv4Options, Ipv4Slice, Ipv6Header, Ipv6HeaderSlice,
    Ipv6Slice,
};
pub use ep_link::{
    ArpHardwareId, ArpOperation, ArpPacket, ArpPacketSlice, DoubleVlanHeader, DoubleVlanSlice,
    Ethernet2Header, Ethernet2Slice, LinkExtHeader, LinkExtSlice, LinkHeader, LinkSlice,
    LinuxSllHeader, LinuxSllPacketType, LinuxSllPayloadSlice, LinuxSllProtocolType, LinuxSllSlice,
    MacsecHeader, MacsecHeaderSlice, MacsecPType, MacsecPayloadSlice, MacsecSlice,
    SingleVlanHeader, SingleVlanSlice, VlanHeader, VlanSlice,
};
pub use ep_transport::{
    IcmpEchoHeader, Icmpv4Header, Icmpv4Slice, Icmpv4Type, Icmpv6Header, Icmpv6Slice, Icmpv6Type,
    TcpHeader, TcpOptions, TcpSlice, TransportHeader, TransportSlice, UdpHeader, UdpSlice, icmpv4,
    icmpv6,
};
pub use ip_headers::IpHeaders;
pub use ip_headers_read_lax::{IpHeadersIpv6LaxFromSliceResult, IpHeadersLaxFromSliceResult};
pub use link_part::LinkPart;
pub use net_headers::{IpHeader, NetHeaders};
pub use net_slice::{InternetSlice, NetSlice};
pub use packet_headers::PacketHeaders;
pub use payload_slice::PayloadSlice;
pub use sliced_packet::SlicedPacket;
