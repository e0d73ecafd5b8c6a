//! Parses, builds and reassembles network packets: the whole library in one crate.
//!
//! # Parsing a packet
//!
//! [`SlicedPacket`] parses the bytes of a packet, starting at its Ethernet II or Linux cooked header, after a known
//! ether type, or at the IP header. It has a slice for each layer: [`LinkSlice`], up to three [`LinkExtSlice`] (VLAN
//! tags and MACsec), [`NetSlice`] (IPv4, IPv6 or ARP) and [`TransportSlice`] (UDP, TCP, ICMP). A slice copies nothing;
//! its methods read single fields, and `to_header` of a header's slice reads all of them.
//!
//! ```text
//! let packet = SlicedPacket::from_ethernet(frame)?;
//! if let Some(TransportSlice::Udp(udp)) = &packet.transport {
//!     if udp.destination_port() == 53 { .. udp.payload() .. }
//! }
//! ```
//!
//! The length fields of a packet limit its payloads; [`LenSource`] names the field that set a limit. Bytes that are not
//! a packet are rejected with an [`err::packet::SliceError`]. It states the reason, and if bytes are missing, the
//! layer, the offset at which that layer starts, and the number of bytes that it needs and has. Slicing verifies no
//! checksum: [`SlicedPacket::checksums`] returns which are valid, and the `calc_checksum_*` methods, as
//! `calc_checksum_ipv4`, compute the expected value.
//!
//! To parse many packets, [`SlicedPacket::slice_into`] reuses an existing packet; [`Entry`] selects the header that the
//! bytes start with. [`PacketHeaders`] parses the same packets into owned headers ([`LinkHeader`], [`LinkExtHeader`],
//! [`NetHeaders`], [`TransportHeader`]) and returns the rest as a [`PayloadSlice`].
//!
//! # Truncated packets
//!
//! [`LaxSlicedPacket`] parses a packet that was truncated by the capture, or whose length fields do not match its
//! bytes. It has the layers up to the first invalid one, the error of that layer (`stop_err`), and for each payload
//! whether bytes of it are missing. A packet that [`SlicedPacket`] accepts is parsed into equal layers.
//! [`LaxPacketHeaders`] parses such packets into owned headers, and returns the rest as a [`LaxPayloadSlice`].
//! [`quoted_packet`] returns the packet that an ICMP error quotes, which is usually truncated.
//!
//! # Single layers
//!
//! Each header has a struct and a slice, as [`UdpHeader`] and [`UdpSlice`], and can be read and written separately:
//! `from_slice`, `to_bytes`, `write`. [`IpSlice`] and [`IpHeaders`] are IP with its extension headers. Fields whose
//! width is not a whole number of bytes have their own types, as [`VlanId`] and [`IpFragOffset`]. The numbers that the
//! standards assign are in [`ether_type`], [`ip_number`], [`icmpv4`] and [`icmpv6`]. [`checksum`] computes the Internet
//! checksum of any bytes. The errors of each layer are in its module of [`err`].
//!
//! # Building a packet
//!
//! [`PacketBuilder`] takes the headers from the outermost to the innermost; each step offers the headers that may come
//! next. `write` appends the packet to a vector, with its types, lengths and checksums. On an error the vector is
//! unchanged.
//!
//! ```text
//! PacketBuilder::ethernet2(source, destination)
//!     .ipv4([192, 0, 2, 1], [192, 0, 2, 2], 64)
//!     .udp(4000, 53)
//!     .write(&mut frame, payload)?;
//! ```
//!
//! # Reassembling fragments
//!
//! [`defrag::BoundedDefragPool`] takes sliced packets and returns each payload when it is complete. A stream is the
//! fragments of one datagram. [`defrag::DefragLimits`] limit the number of streams, their memory and their age, and
//! decide what happens if fragments overlap; `evicted` and `statistics` report each stream that is not completed. So
//! hostile traffic cannot exhaust the memory.
//!
//! [`defrag::IpDefragPool`] has no limits of its own: `retain` drops the streams whose last timestamp fails the
//! caller's test, `with_limit` limits the bytes of each stream, and `return_buf` reuses the memory of a returned
//! payload for the next one. [`defrag::IpDefragBuf`] reassembles a single payload, for callers who separate the streams
//! themselves. [`defrag::run_calls`] runs a list of calls with sliced packets, and [`defrag::run_frames`] a list of
//! calls with frames as bytes.
//!
//! # Contracts that cite the library
//!
//! All definitions that the contracts here name are under `Rattle.etherparse.specs`: the types in `Types`
//! (`Types.Entry`, `Types.UdpHeader`), and every other file under its own name. `Frame.IsFrame entry bytes layers`
//! holds if the bytes are a frame with these layers, and `FrameRefusals.RefusesFrame` if they are rejected with this
//! error; `Layers.layers_of` is the layers of a sliced packet; `BuiltFrames.built_frame` is the frame that the builder
//! writes; `Pools` and `Calls` define the state and the answers of a pool, `BoundedPools` and `BoundedSteps` those of a
//! bounded pool. Facts about the definitions themselves, as that bytes are either one frame or rejected with one error,
//! are the contracts of the functions in [`laws`]. So a crate needs to list `etherparse` only. The crates
//! `example_filter`, `example_flows`, `example_generators` and `example_reader` are small programs with such contracts.
#![tactic(auto)]

#[cfg(test)]
mod tests;

pub use arrayvec::ArrayVec;
pub use ep_base::AtLeast;
pub use ep_base::EtherPayloadSlice;
pub use ep_base::EtherType;
pub use ep_base::IpFragOffset;
pub use ep_base::IpNumber;
pub use ep_base::IpPayloadSlice;
pub use ep_base::Ipv4Dscp;
pub use ep_base::Ipv4Ecn;
pub use ep_base::Ipv6FlowLabel;
pub use ep_base::LenSource;
pub use ep_base::MacsecAn;
pub use ep_base::MacsecShortLen;
pub use ep_base::VlanId;
pub use ep_base::VlanPcp;
pub use ep_base::checksum;
pub use ep_base::ether_type;
pub use ep_base::ip_number;
pub use ep_build::PacketBuilder;
pub use ep_build::PacketBuilderStep;
pub use ep_ext::IpAuthHeader;
pub use ep_ext::IpAuthHeaderSlice;
pub use ep_ext::Ipv4Extensions;
pub use ep_ext::Ipv4ExtensionsSlice;
pub use ep_ext::Ipv6ExtensionSlice;
pub use ep_ext::Ipv6ExtensionSliceIter;
pub use ep_ext::Ipv6Extensions;
pub use ep_ext::Ipv6ExtensionsSlice;
pub use ep_ext::Ipv6FragmentHeader;
pub use ep_ext::Ipv6FragmentHeaderSlice;
pub use ep_ext::Ipv6RawExtHeader;
pub use ep_ext::Ipv6RawExtHeaderSlice;
pub use ep_ext::Ipv6RoutingExtensions;
pub use ep_ip::IpSlice;
pub use ep_ip::Ipv4Header;
pub use ep_ip::Ipv4HeaderSlice;
pub use ep_ip::Ipv4Options;
pub use ep_ip::Ipv4Slice;
pub use ep_ip::Ipv6Header;
pub use ep_ip::Ipv6HeaderSlice;
pub use ep_ip::Ipv6Slice;
pub use ep_lax::LaxEtherPayloadSlice;
pub use ep_lax::LaxIpPayloadSlice;
pub use ep_lax::LaxIpv4Slice;
pub use ep_lax::LaxIpv6Slice;
pub use ep_lax::LaxLinkExtSlice;
pub use ep_lax::LaxMacsecPayloadSlice;
pub use ep_lax::LaxMacsecSlice;
pub use ep_lax::LaxNetSlice;
pub use ep_lax::LaxPacketHeaders;
pub use ep_lax::LaxPayloadSlice;
pub use ep_lax::LaxSlicedPacket;
pub use ep_lax::quoted_packet;
pub use ep_link::ArpHardwareId;
pub use ep_link::ArpOperation;
pub use ep_link::ArpPacket;
pub use ep_link::ArpPacketSlice;
pub use ep_link::DoubleVlanHeader;
pub use ep_link::DoubleVlanSlice;
pub use ep_link::Ethernet2Header;
pub use ep_link::Ethernet2Slice;
pub use ep_link::LinkExtHeader;
pub use ep_link::LinkExtSlice;
pub use ep_link::LinkHeader;
pub use ep_link::LinkSlice;
pub use ep_link::LinuxSllHeader;
pub use ep_link::LinuxSllPacketType;
pub use ep_link::LinuxSllPayloadSlice;
pub use ep_link::LinuxSllProtocolType;
pub use ep_link::LinuxSllSlice;
pub use ep_link::MacsecHeader;
pub use ep_link::MacsecHeaderSlice;
pub use ep_link::MacsecPType;
pub use ep_link::MacsecPayloadSlice;
pub use ep_link::MacsecSlice;
pub use ep_link::SingleVlanHeader;
pub use ep_link::SingleVlanSlice;
pub use ep_link::VlanHeader;
pub use ep_link::VlanSlice;
pub use ep_packet::ChecksumVerdict;
pub use ep_packet::ChecksumVerdicts;
pub use ep_packet::Entry;
pub use ep_packet::InternetSlice;
pub use ep_packet::IpHeader;
pub use ep_packet::IpHeaders;
pub use ep_packet::IpHeadersIpv6LaxFromSliceResult;
pub use ep_packet::IpHeadersLaxFromSliceResult;
pub use ep_packet::NetHeaders;
pub use ep_packet::NetSlice;
pub use ep_packet::PacketHeaders;
pub use ep_packet::PayloadSlice;
pub use ep_packet::SlicedPacket;
pub use ep_transport::IcmpEchoHeader;
pub use ep_transport::Icmpv4Header;
pub use ep_transport::Icmpv4Slice;
pub use ep_transport::Icmpv4Type;
pub use ep_transport::Icmpv6Header;
pub use ep_transport::Icmpv6Slice;
pub use ep_transport::Icmpv6Type;
pub use ep_transport::TcpHeader;
pub use ep_transport::TcpOptionElement;
pub use ep_transport::TcpOptionReadError;
pub use ep_transport::TcpOptionWriteError;
pub use ep_transport::TcpOptions;
pub use ep_transport::TcpOptionsIterator;
pub use ep_transport::TcpSlice;
pub use ep_transport::TransportHeader;
pub use ep_transport::TransportSlice;
pub use ep_transport::UdpHeader;
pub use ep_transport::UdpSlice;
pub use ep_transport::icmpv4;
pub use ep_transport::icmpv6;

/// Reassembly of fragmented IP payloads.
pub mod defrag {
    pub use ep_defrag::{
        BOUNDED_NAME_MEMORY, BoundedDefragError, BoundedDefragPool, DefragLimits, DefragStatistics,
        EvictedStream, EvictionCause, Fragment, FrameAnswer, FrameCall, IpDefragBuf, IpDefragError,
        IpDefragPayloadVec, IpDefragPool, IpFragId, IpFragRange, IpFragVersionSpecId,
        MAX_IP_DEFRAG_LEN, MAX_IP_DEFRAG_LEN_U16, OverlapPolicy, PoolAnswer, PoolCall, RunStop,
        add_all, run_calls, run_calls_with_limit, run_frames,
    };
}

/// Error types, each in the module of its layer or header; types that several layers share are here, and the errors of
/// whole packets are in `packet`.
pub mod err {
    pub use ep_base::err::{
        Layer, LenError, ValueTooBigError, ValueType, ip_exts, ipv4_exts, ipv6, linux_sll, macsec,
        tcp,
    };
    pub use ep_ext::err::{ip_auth, ipv6_exts};
    pub use ep_link::err::arp;

    /// Error types of an IP header with its extension headers.
    pub mod ip {
        pub use ep_base::err::ip::{
            HeaderError, HeadersError, HeadersSliceError, LaxHeaderSliceError, SliceError,
        };
        pub use ep_packet::err::HeadersWriteError;
    }

    /// Error types of IPv4 headers.
    pub mod ipv4 {
        pub use ep_base::err::ipv4::{HeaderError, HeaderSliceError, SliceError};
        pub use ep_ip::BadOptionsLen;
    }

    /// Error types of the network layer (IP or ARP).
    pub mod net {
        pub use ep_packet::err::NetSetNextHeaderError;
    }

    /// Error types of parsing and building whole packets, and of transport checksums.
    pub mod packet {
        pub use ep_build::err::{BuildSliceWriteError, BuildWriteError};
        pub use ep_packet::err::SliceError;
        pub use ep_transport::TransportChecksumError;
    }
}

/// Laws: public functions without effect whose contracts state theorems about this library, for example about the
/// parsing of any bytes, or about comparisons and clones of its types. A proof obtains a theorem by calling the law.
/// Each module has the laws of one part of the library.
pub mod laws {
    pub use ep_base::laws as base;
    pub use ep_build::laws as build;
    pub use ep_defrag::laws as defrag;
    pub use ep_ext::laws as ext;
    pub use ep_ip::laws as ip;
    pub use ep_lax::laws as lax;
    pub use ep_link::laws as link;
    pub use ep_packet::laws as packet;
    pub use ep_transport::laws as transport;
}
