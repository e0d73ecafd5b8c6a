//! Measured calls that build Ethernet frames from the headers and payloads decoded from other frames.

ghost use Rattle.std.specs.Prelude.{◌≡◌, IfErr};

use crate::bench_error::BenchError;
use ep_base::bytes::word_at;
use etherparse::err::packet::BuildWriteError;
use etherparse::{
    ArpPacket, DoubleVlanHeader, Ethernet2Header, IpHeaders, IpNumber, Ipv4Extensions, Ipv4Header,
    Ipv6Extensions, Ipv6Header, LinkExtHeader, LinkHeader, NetHeaders, PacketBuilder,
    PacketBuilderStep, PacketHeaders, PayloadSlice, TransportHeader, VlanHeader,
};
use std::alloc::Global;

/// Headers and payload decoded from an Ethernet frame, as the input of the benchmarks that build frames.
#[derive(Drop)]
pub struct FrameParts<'a> {
    /// Ethernet II header of the decoded frame. Only its addresses are used for building.
    pub link: Ethernet2Header,
    /// VLAN tags (one or two) after the Ethernet II header; `None` if the frame has no tag.
    pub tags: Option<VlanHeader>,
    /// Layers of the frame after the Ethernet II header and its VLAN tags: IPv4, IPv6 or ARP.
    pub inside: EtherPayloadParts<'a>,
}

/// Decoded network layer of a frame, with the payload of an IP packet.
#[derive(Drop)]
pub enum EtherPayloadParts<'a> {
    /// IPv4 header, IPv4 extension headers, and the transport header and payload after them.
    Ipv4(Ipv4Header, Ipv4Extensions, IpPayloadParts<'a>),
    /// IPv6 header, IPv6 extension headers, and the transport header and payload after them.
    Ipv6(Ipv6Header, Ipv6Extensions, IpPayloadParts<'a>),
    /// ARP packet, the whole content of the frame after the Ethernet II header and its tags.
    Arp(ArpPacket),
}

/// Decoded payload of an IP packet: a transport header and its payload, or bytes of any IP number.
#[derive(Drop)]
pub enum IpPayloadParts<'a> {
    /// IP number and payload of an IP packet without a decoded transport header, such as a fragment.
    Payload(IpNumber, &'a [u8]),
    /// Transport header (UDP, TCP, ICMPv4 or ICMPv6) and the payload after it.
    Transport(TransportHeader, &'a [u8]),
}

/// Decodes each Ethernet frame into the headers and payload that benchmarks build frames from, in the order of the
/// frames. Frames that the decoder rejects, and frames with headers that the builder does not support, are omitted.
pub fn frame_parts_of<'a>(
    alloc: Global,
    frames: &[&'a [u8]],
) -> Result<Vec<FrameParts<'a>>, BenchError>
    ensures err { IfErr result (λ error. error ≡ BenchError.OutOfMemory) }
{
    let mut all = Vec::new(alloc);
    for frame in frames {
        if let Some(parts) = parts_of_frame(frame) {
            let Ok(()) = all.push(parts) else {
                return Err(BenchError::OutOfMemory);
            };
        }
    }
    Ok(all)
}

/// Decodes an Ethernet frame into its headers and payload. Returns `None` if the decoder rejects the frame, or if the
/// builder does not support all of its headers.
fn parts_of_frame(frame: &[u8]) -> Option<FrameParts<'_>> {
    match PacketHeaders::from_ethernet_slice(frame) {
        Ok(packet) => parts_in(packet),
        Err(_) => None,
    }
}

/// Converts the decoded headers of a frame into the parts that benchmarks build frames from, or returns `None` if the
/// builder does not support all headers.
fn parts_in(packet: PacketHeaders<'_>) -> Option<FrameParts<'_>> {
    let link = ethernet2_in(packet.link)?;
    let tags = tags_in(packet.link_exts.as_slice())?;
    let inside = ether_payload_parts(packet.net, packet.transport, packet.payload)?;
    Some(FrameParts { link, tags, inside })
}

/// Returns the link header if it is an Ethernet II header, otherwise `None`.
fn ethernet2_in(link: Option<LinkHeader>) -> Option<Ethernet2Header> {
    match link {
        Some(LinkHeader::Ethernet2(header)) => Some(header),
        Some(LinkHeader::LinuxSll(_)) | None => None,
    }
}

/// Returns the VLAN tags (none, one or two) of a frame's link extensions; `Some(None)` means no tags. Returns `None`
/// for a MACsec tag or more than two tags, which the builder does not support.
fn tags_in(link_exts: &[LinkExtHeader]) -> Option<Option<VlanHeader>> {
    match link_exts {
        [] => Some(None),
        [LinkExtHeader::Vlan(tag)] => Some(Some(VlanHeader::Single(tag.clone().unwrap()))),
        [LinkExtHeader::Vlan(outer), LinkExtHeader::Vlan(inner)] => {
            let outer = outer.clone().unwrap();
            let inner = inner.clone().unwrap();
            Some(Some(VlanHeader::Double(DoubleVlanHeader { outer, inner })))
        }
        _ => None,
    }
}

/// Combines the decoded network layer, transport header and payload of a frame. Returns `None` if there is no network
/// layer, or an IP packet without a transport header or IP payload.
fn ether_payload_parts<'a>(
    net: Option<NetHeaders>,
    transport: Option<TransportHeader>,
    payload: PayloadSlice<'a>,
) -> Option<EtherPayloadParts<'a>> {
    match net? {
        NetHeaders::Ipv4(header, extensions) => {
            let ip_payload = ip_payload_parts(transport, payload)?;
            Some(EtherPayloadParts::Ipv4(header, extensions, ip_payload))
        }
        NetHeaders::Ipv6(header, extensions) => {
            let ip_payload = ip_payload_parts(transport, payload)?;
            Some(EtherPayloadParts::Ipv6(header, extensions, ip_payload))
        }
        NetHeaders::Arp(packet) => Some(EtherPayloadParts::Arp(packet)),
    }
}

/// Returns the transport header with its payload or, without a transport header, the IP payload with its IP number.
/// Returns `None` if there is neither.
fn ip_payload_parts<'a>(
    transport: Option<TransportHeader>,
    payload: PayloadSlice<'a>,
) -> Option<IpPayloadParts<'a>> {
    if let Some(transport) = transport {
        return Some(IpPayloadParts::Transport(transport, payload.slice()));
    }
    match payload {
        PayloadSlice::Ip(payload) => Some(IpPayloadParts::Payload(
            payload.ip_number,
            payload.payload,
        )),
        PayloadSlice::Empty
        | PayloadSlice::Ether(_)
        | PayloadSlice::MacsecMod(_)
        | PayloadSlice::Udp(_)
        | PayloadSlice::Tcp(_)
        | PayloadSlice::Icmpv4(_)
        | PayloadSlice::Icmpv6(_) => None,
    }
}

/// Way in which a benchmark builds a frame; implemented by `FromHeaders` and `FromAddresses`.
pub trait Builds {
    /// Builds a frame from these decoded headers and payload, and appends it to the buffer. An error leaves the buffer
    /// unchanged.
    fn build(parts: &FrameParts<'_>, buffer: &mut Vec<u8>) -> Result<(), BuildWriteError>;
}

/// Builds a frame from decoded headers, with all their fields except those that the builder computes (types, lengths
/// and checksums).
pub struct FromHeaders;

/// Builds a frame from the addresses, VLAN identifiers, ports and payload of a decoded frame. Most other header fields
/// have the builder's default values.
pub struct FromAddresses;

impl Builds for FromHeaders {
    fn build(parts: &FrameParts<'_>, buffer: &mut Vec<u8>) -> Result<(), BuildWriteError> {
        build(parts, buffer)
    }
}

impl Builds for FromAddresses {
    fn build(parts: &FrameParts<'_>, buffer: &mut Vec<u8>) -> Result<(), BuildWriteError> {
        build_from_addresses(parts, buffer)
    }
}

/// Builds all frames in the way of `Way`, one after the other in one reused buffer. Returns the sum of a number
/// computed from each built frame; a benchmark checks that each round has the same sum.
pub fn built<Way: Builds>(alloc: Global, all: &[FrameParts<'_>]) -> Result<u64, BenchError>
    ensures err { IfErr result (λ error. error ≡ BenchError.OutOfMemory) }
{
    let mut buffer = Vec::new(alloc);
    let mut total: u64 = 0;
    for parts in all {
        buffer.clear();
        let built = Way::build(parts, &mut buffer);
        total = total.wrapping_add(number_of(built, buffer.as_slice())?);
    }
    Ok(total)
}

/// Builds each untagged UDP over IPv4 frame in a new buffer, which first reserves the size that the builder computes.
/// Returns the sum of a number computed from each built frame; a benchmark checks that each round has the same sum.
pub fn built_with_size(alloc: Global, all: &[FrameParts<'_>]) -> Result<u64, BenchError>
    ensures err { IfErr result (λ error. error ≡ BenchError.OutOfMemory) }
{
    let mut total: u64 = 0;
    for parts in all {
        let mut buffer = Vec::new(alloc);
        let built = build_with_size(parts, &mut buffer);
        total = total.wrapping_add(number_of(built, buffer.as_slice())?);
    }
    Ok(total)
}

/// Returns the number that a benchmark adds to its sum for a built frame, computed from its bytes; 0 if the builder
/// rejected the frame. Only a failed allocation is an error.
fn number_of(built: Result<(), BuildWriteError>, frame: &[u8]) -> Result<u64, BenchError>
    ensures err { IfErr result (λ error. error ≡ BenchError.OutOfMemory) }
{
    match built {
        Ok(()) => Ok(frame_number(frame)),
        Err(BuildWriteError::OutOfMemory) => Err(BenchError::OutOfMemory),
        Err(_) => Ok(0),
    }
}

/// Builds a frame from decoded headers and payload, with all fields that the builder does not compute, and appends it
/// to the buffer. An error leaves the buffer unchanged.
pub fn build(parts: &FrameParts<'_>, buffer: &mut Vec<u8>) -> Result<(), BuildWriteError> {
    match &parts.inside {
        EtherPayloadParts::Ipv4(header, extensions, ip_payload) => {
            let header = header.clone().unwrap();
            let extensions = extensions.clone().unwrap();
            build_ip(
                parts,
                IpHeaders::Ipv4(header, extensions),
                ip_payload,
                buffer,
            )
        }
        EtherPayloadParts::Ipv6(header, extensions, ip_payload) => {
            let header = header.clone().unwrap();
            let extensions = copy_of(extensions);
            build_ip(
                parts,
                IpHeaders::Ipv6(header, extensions),
                ip_payload,
                buffer,
            )
        }
        EtherPayloadParts::Arp(packet) => {
            let packet = packet.clone().unwrap();
            let link = PacketBuilder::ethernet2(parts.link.source, parts.link.destination);
            match &parts.tags {
                Some(tags) => link.vlan(tags.clone().unwrap()).arp(packet).write(buffer),
                None => link.arp(packet).write(buffer),
            }
        }
    }
}

/// Builds a frame from the addresses, VLAN identifiers, ports and payload of a decoded frame, and appends it to the
/// buffer. IP headers have no options or extension headers; TCP has no options, and ACK as its only flag. An ARP packet
/// is copied without VLAN tags. An error leaves the buffer unchanged.
pub fn build_from_addresses(
    parts: &FrameParts<'_>,
    buffer: &mut Vec<u8>,
) -> Result<(), BuildWriteError> {
    let link = PacketBuilder::ethernet2(parts.link.source, parts.link.destination);
    match &parts.inside {
        EtherPayloadParts::Ipv4(header, _, ip_payload) => {
            let (source, destination) = (header.source, header.destination);
            let hops = header.time_to_live;
            match &parts.tags {
                None => append_ip_payload(
                    link.ipv4(source, destination, hops),
                    ip_payload,
                    false,
                    buffer,
                ),
                Some(VlanHeader::Single(tag)) => {
                    let link = link.single_vlan(tag.vlan_id);
                    append_ip_payload(
                        link.ipv4(source, destination, hops),
                        ip_payload,
                        false,
                        buffer,
                    )
                }
                Some(VlanHeader::Double(tags)) => {
                    let link = link.double_vlan(tags.outer.vlan_id, tags.inner.vlan_id);
                    append_ip_payload(
                        link.ipv4(source, destination, hops),
                        ip_payload,
                        false,
                        buffer,
                    )
                }
            }
        }
        EtherPayloadParts::Ipv6(header, _, ip_payload) => {
            let (source, destination) = (header.source, header.destination);
            let hops = header.hop_limit;
            match &parts.tags {
                None => append_ip_payload(
                    link.ipv6(source, destination, hops),
                    ip_payload,
                    false,
                    buffer,
                ),
                Some(VlanHeader::Single(tag)) => {
                    let link = link.single_vlan(tag.vlan_id);
                    append_ip_payload(
                        link.ipv6(source, destination, hops),
                        ip_payload,
                        false,
                        buffer,
                    )
                }
                Some(VlanHeader::Double(tags)) => {
                    let link = link.double_vlan(tags.outer.vlan_id, tags.inner.vlan_id);
                    append_ip_payload(
                        link.ipv6(source, destination, hops),
                        ip_payload,
                        false,
                        buffer,
                    )
                }
            }
        }
        EtherPayloadParts::Arp(packet) => link.arp(packet.clone().unwrap()).write(buffer),
    }
}

/// Reserves the size that the builder computes for an untagged UDP over IPv4 frame with these addresses, ports and
/// payload, and appends the frame to the buffer. Appends nothing if the decoded frame is of another type.
fn build_with_size(parts: &FrameParts<'_>, buffer: &mut Vec<u8>) -> Result<(), BuildWriteError> {
    if let None = &parts.tags {
        if let EtherPayloadParts::Ipv4(
            header,
            _,
            IpPayloadParts::Transport(TransportHeader::Udp(ports), payload),
        ) = &parts.inside
        {
            let step = PacketBuilder::ethernet2(parts.link.source, parts.link.destination)
                .ipv4(header.source, header.destination, header.time_to_live)
                .udp(ports.source_port, ports.destination_port);
            if buffer.reserve(step.size(payload.len())).is_err() {
                return Err(BuildWriteError::OutOfMemory);
            }
            return step.write(buffer, payload);
        }
    }
    Ok(())
}

/// Returns a copy of the IPv6 extension headers, which does not allocate and cannot fail.
#[inline(always)]
fn copy_of(extensions: &Ipv6Extensions) -> Ipv6Extensions {
    extensions.clone().unwrap()
}

/// Builds a frame from the addresses and VLAN tags of `parts`, the IP headers in `headers` and a decoded IP payload,
/// and appends it to the buffer. Inlined once for each IP version, so that the large IP headers are not moved.
#[inline(always)]
fn build_ip(
    parts: &FrameParts<'_>,
    headers: IpHeaders,
    ip_payload: &IpPayloadParts<'_>,
    buffer: &mut Vec<u8>,
) -> Result<(), BuildWriteError> {
    let link = PacketBuilder::ethernet2(parts.link.source, parts.link.destination);
    match &parts.tags {
        Some(tags) => append_ip_payload(
            link.vlan(tags.clone().unwrap()).ip(headers),
            ip_payload,
            true,
            buffer,
        ),
        None => append_ip_payload(link.ip(headers), ip_payload, true, buffer),
    }
}

/// Adds a decoded IP payload to a builder step that has IP headers, and appends the frame to the buffer. If
/// `full_tcp_header` is true, a TCP header is copied completely, else only its ports, numbers and window size. Inlined,
/// so that the step is not moved.
#[inline(always)]
fn append_ip_payload(
    step: PacketBuilderStep<IpHeaders>,
    ip_payload: &IpPayloadParts<'_>,
    full_tcp_header: bool,
    buffer: &mut Vec<u8>,
) -> Result<(), BuildWriteError> {
    match ip_payload {
        IpPayloadParts::Payload(number, payload) => step.write(buffer, *number, payload),
        IpPayloadParts::Transport(transport, payload) => match transport {
            TransportHeader::Udp(header) => {
                step.udp(header.source_port, header.destination_port)
                    .write(buffer, payload)
            }
            TransportHeader::Tcp(header) if full_tcp_header => {
                step.tcp_header(header.clone().unwrap())
                    .write(buffer, payload)
            }
            TransportHeader::Tcp(header) => {
                step.tcp(
                    header.source_port,
                    header.destination_port,
                    header.sequence_number,
                    header.window_size,
                )
                .ack(header.acknowledgment_number)
                .write(buffer, payload)
            }
            TransportHeader::Icmpv4(header) => {
                step.icmpv4(header.icmp_type.clone().unwrap())
                    .write(buffer, payload)
            }
            TransportHeader::Icmpv6(header) => {
                step.icmpv6(header.icmp_type.clone().unwrap())
                    .write(buffer, payload)
            }
        },
    }
}

/// Returns a number that depends on the content of a built frame: its length plus the 16-bit words at bytes 24 and 40.
/// A benchmark checks that the sum of these numbers is the same in each round.
fn frame_number(frame: &[u8]) -> u64 {
    let words = u64::from(word_at(frame, 24)) + u64::from(word_at(frame, 40));
    words.wrapping_add(frame.len() as u64)
}
