//! Calls that a benchmark measures on each frame or IP packet. Each computes a number from the result, which is added
//! to a sum, so that no call is optimized away.

use etherparse::err::packet::SliceError;
use etherparse::{
    Entry, IpHeaders, Ipv4Slice, LaxNetSlice, LaxSlicedPacket, LinkHeader, LinkSlice, NetHeaders,
    NetSlice, PacketHeaders, SlicedPacket, TransportHeader, TransportSlice,
};

/// Call that a benchmark measures on each frame or IP packet, implemented by one type for each measured function of the
/// library (such as `Slicing`).
pub trait Column<'a> {
    /// Creates the state of the measured call, such as an empty packet value that is reused for all frames.
    fn new() -> Self;

    /// Makes the measured call on one frame or IP packet, and returns a number computed from its result, or 0 if the
    /// call rejects the bytes.
    fn number(&mut self, bytes: &'a [u8]) -> u64;
}

/// Makes the measured call `C` on all frames (or IP packets), and returns the sum of the numbers computed from the
/// results.
pub fn total<'a, C: Column<'a> + Drop>(frames: &[&'a [u8]]) -> u64 {
    let mut column = C::new();
    let mut total: u64 = 0;
    for frame in frames {
        total = total.wrapping_add(column.number(frame));
    }
    total
}

/// Measures `SlicedPacket::from_ethernet`: slices an Ethernet frame into a new value.
#[derive(Drop)]
pub struct Slicing;

impl<'a> Column<'a> for Slicing {
    fn new() -> Slicing {
        Slicing
    }

    fn number(&mut self, bytes: &'a [u8]) -> u64 {
        match SlicedPacket::from_ethernet(bytes) {
            Ok(packet) => layers_number(&packet),
            Err(_) => 0,
        }
    }
}

/// Measures `SlicedPacket::from_ethernet`, called through a function that is not inlined into the measured loop.
#[derive(Drop)]
pub struct SlicingNotInlined;

impl<'a> Column<'a> for SlicingNotInlined {
    fn new() -> SlicingNotInlined {
        SlicingNotInlined
    }

    fn number(&mut self, bytes: &'a [u8]) -> u64 {
        match slice_not_inlined(bytes) {
            Ok(packet) => layers_number(&packet),
            Err(_) => 0,
        }
    }
}

/// Slices an Ethernet frame, in a function that is not inlined into the measured loop.
#[inline(never)]
fn slice_not_inlined(bytes: &[u8]) -> Result<SlicedPacket<'_>, SliceError> {
    SlicedPacket::from_ethernet(bytes)
}

/// Measures `SlicedPacket::slice_into`: slices each Ethernet frame into one reused value.
#[derive(Drop)]
pub struct Filling<'a> {
    packet: SlicedPacket<'a>,
}

impl<'a> Column<'a> for Filling<'a> {
    fn new() -> Filling<'a> {
        Filling {
            packet: SlicedPacket::new(),
        }
    }

    fn number(&mut self, bytes: &'a [u8]) -> u64 {
        match self.packet.slice_into(Entry::Ethernet, bytes) {
            Ok(()) => layers_number(&self.packet),
            Err(_) => 0,
        }
    }
}

/// Measures `LaxSlicedPacket::slice_into`: slices each Ethernet frame laxly into one reused value.
#[derive(Drop)]
pub struct LaxFilling<'a> {
    packet: LaxSlicedPacket<'a>,
}

impl<'a> Column<'a> for LaxFilling<'a> {
    fn new() -> LaxFilling<'a> {
        LaxFilling {
            packet: LaxSlicedPacket::new(),
        }
    }

    fn number(&mut self, bytes: &'a [u8]) -> u64 {
        match self.packet.slice_into(Entry::Ethernet, bytes) {
            Ok(()) => lax_layers_number(&self.packet),
            Err(_) => 0,
        }
    }
}

/// Measures `PacketHeaders::from_ethernet_slice`: decodes the headers of an Ethernet frame into a new value.
#[derive(Drop)]
pub struct Decoding;

impl<'a> Column<'a> for Decoding {
    fn new() -> Decoding {
        Decoding
    }

    fn number(&mut self, bytes: &'a [u8]) -> u64 {
        match PacketHeaders::from_ethernet_slice(bytes) {
            Ok(packet) => headers_number(&packet),
            Err(_) => 0,
        }
    }
}

/// Measures `PacketHeaders::read_into`: decodes the headers of each Ethernet frame into one reused value.
#[derive(Drop)]
pub struct Rereading<'a> {
    packet: PacketHeaders<'a>,
}

impl<'a> Column<'a> for Rereading<'a> {
    fn new() -> Rereading<'a> {
        Rereading {
            packet: PacketHeaders::new(),
        }
    }

    fn number(&mut self, bytes: &'a [u8]) -> u64 {
        match self.packet.read_into(Entry::Ethernet, bytes) {
            Ok(()) => headers_number(&self.packet),
            Err(_) => 0,
        }
    }
}

/// Measures `Ipv4Slice::from_slice` on each IP packet; an IPv6 packet is rejected.
#[derive(Drop)]
pub struct SlicingIpv4;

impl<'a> Column<'a> for SlicingIpv4 {
    fn new() -> SlicingIpv4 {
        SlicingIpv4
    }

    fn number(&mut self, bytes: &'a [u8]) -> u64 {
        match Ipv4Slice::from_slice(bytes) {
            Ok(packet) => {
                let protocol = packet.header().protocol();
                u64::from(protocol.0).wrapping_add(packet.payload().payload.len() as u64)
            }
            Err(_) => 0,
        }
    }
}

/// Measures `IpHeaders::from_slice`: decodes the IP and extension headers of an IPv4 or IPv6 packet.
#[derive(Drop)]
pub struct ReadingIpHeaders;

impl<'a> Column<'a> for ReadingIpHeaders {
    fn new() -> ReadingIpHeaders {
        ReadingIpHeaders
    }

    fn number(&mut self, bytes: &'a [u8]) -> u64 {
        match IpHeaders::from_slice(bytes) {
            Ok((headers, payload)) => {
                let protocol = match &headers {
                    IpHeaders::Ipv4(header, _) => header.protocol,
                    IpHeaders::Ipv6(header, _) => header.next_header,
                };
                u64::from(protocol.0).wrapping_add(payload.payload.len() as u64)
            }
            Err(_) => 0,
        }
    }
}

/// Returns the sum of some header fields of a sliced packet (ether type, IP protocol and length, UDP or TCP ports) and
/// the payload length. A benchmark adds it to a total, so that slicing is not optimized away.
#[inline]
fn layers_number(packet: &SlicedPacket<'_>) -> u64 {
    let link = link_number(&packet.link);
    let net = net_number(&packet.net);
    let transport = transport_number(&packet.transport);
    let headers = u64::from(link) + u64::from(net) + u64::from(transport);
    headers.wrapping_add(packet.payload().len() as u64)
}

/// Returns the sum of some header fields of a laxly sliced packet (ether type, IP protocol and length, UDP or TCP
/// ports) and the payload length. A benchmark adds it to a total, so that slicing is not optimized away.
#[inline]
fn lax_layers_number(packet: &LaxSlicedPacket<'_>) -> u64 {
    let link = link_number(&packet.link);
    let net = lax_net_number(&packet.net);
    let transport = transport_number(&packet.transport);
    let headers = u64::from(link) + u64::from(net) + u64::from(transport);
    headers.wrapping_add(packet.payload().len() as u64)
}

/// Returns the ether type of a sliced Ethernet II header, or 0 for another or no link layer. A benchmark adds it to a
/// total, so that slicing is not optimized away.
#[inline]
fn link_number(link: &Option<LinkSlice<'_>>) -> u16 {
    match link {
        Some(LinkSlice::Ethernet2(frame)) => frame.ether_type().0,
        Some(LinkSlice::LinuxSll(_) | LinkSlice::EtherPayload(_) | LinkSlice::LinuxSllPayload(_))
        | None => 0,
    }
}

/// Returns protocol plus total length of a sliced IPv4 header, or next header plus payload length of an IPv6 header; 0
/// for ARP or no network layer. A benchmark adds it to a total, so that slicing is not optimized away.
#[inline]
fn net_number(net: &Option<NetSlice<'_>>) -> u32 {
    match net {
        Some(NetSlice::Ipv4(packet)) => {
            let header = packet.header();
            u32::from(header.protocol().0) + u32::from(header.total_len())
        }
        Some(NetSlice::Ipv6(packet)) => {
            let header = packet.header();
            u32::from(header.next_header().0) + u32::from(header.payload_length())
        }
        Some(NetSlice::Arp(_)) | None => 0,
    }
}

/// Returns protocol plus total length of a laxly sliced IPv4 header, or next header plus payload length of an IPv6
/// header; 0 for ARP or no network layer. A benchmark adds it to a total, so that slicing is not optimized away.
#[inline]
fn lax_net_number(net: &Option<LaxNetSlice<'_>>) -> u32 {
    match net {
        Some(LaxNetSlice::Ipv4(packet)) => {
            let header = packet.header();
            u32::from(header.protocol().0) + u32::from(header.total_len())
        }
        Some(LaxNetSlice::Ipv6(packet)) => {
            let header = packet.header();
            u32::from(header.next_header().0) + u32::from(header.payload_length())
        }
        Some(LaxNetSlice::Arp(_)) | None => 0,
    }
}

/// Returns source port plus destination port of a sliced UDP or TCP header; 0 for ICMP or no transport layer. A
/// benchmark adds it to a total, so that slicing is not optimized away.
#[inline]
fn transport_number(transport: &Option<TransportSlice<'_>>) -> u32 {
    match transport {
        Some(TransportSlice::Udp(datagram)) => {
            u32::from(datagram.source_port()) + u32::from(datagram.destination_port())
        }
        Some(TransportSlice::Tcp(segment)) => {
            u32::from(segment.source_port()) + u32::from(segment.destination_port())
        }
        Some(TransportSlice::Icmpv4(_) | TransportSlice::Icmpv6(_)) | None => 0,
    }
}

/// Returns the sum of some decoded header fields of a packet (ether type, IP protocol and length, UDP or TCP ports) and
/// the payload length. A benchmark adds it to a total, so that decoding is not optimized away.
#[inline]
fn headers_number(packet: &PacketHeaders<'_>) -> u64 {
    let link = link_header_number(&packet.link);
    let net = net_header_number(&packet.net);
    let transport = transport_header_number(&packet.transport);
    let headers = u64::from(link) + u64::from(net) + u64::from(transport);
    headers.wrapping_add(packet.payload.slice().len() as u64)
}

/// Returns the ether type of a decoded Ethernet II header, or 0 for another or no link header. A benchmark adds it to a
/// total, so that decoding is not optimized away.
#[inline]
fn link_header_number(link: &Option<LinkHeader>) -> u16 {
    match link {
        Some(LinkHeader::Ethernet2(header)) => header.ether_type.0,
        Some(LinkHeader::LinuxSll(_)) | None => 0,
    }
}

/// Returns protocol plus total length of a decoded IPv4 header, or next header plus payload length of an IPv6 header; 0
/// for ARP or no network layer. A benchmark adds it to a total, so that decoding is not optimized away.
#[inline]
fn net_header_number(net: &Option<NetHeaders>) -> u32 {
    match net {
        Some(NetHeaders::Ipv4(header, _)) => {
            u32::from(header.protocol.0) + u32::from(header.total_len)
        }
        Some(NetHeaders::Ipv6(header, _)) => {
            u32::from(header.next_header.0) + u32::from(header.payload_length)
        }
        Some(NetHeaders::Arp(_)) | None => 0,
    }
}

/// Returns source port plus destination port of a decoded UDP or TCP header; 0 for ICMP or no transport header. A
/// benchmark adds it to a total, so that decoding is not optimized away.
#[inline]
fn transport_header_number(transport: &Option<TransportHeader>) -> u32 {
    match transport {
        Some(TransportHeader::Udp(header)) => {
            u32::from(header.source_port) + u32::from(header.destination_port)
        }
        Some(TransportHeader::Tcp(header)) => {
            u32::from(header.source_port) + u32::from(header.destination_port)
        }
        Some(TransportHeader::Icmpv4(_) | TransportHeader::Icmpv6(_)) | None => 0,
    }
}
