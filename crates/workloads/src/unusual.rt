//! The benchmark job that parses frames with rare headers laxly, half of them truncated, and verifies their checksums.

use crate::bench_error::BenchError;
use crate::digest::Digest;
use crate::fields::Numbers;
use crate::frames::first_number;
use crate::slicing::low_word;
use crate::unusual_frames::UnusualFrames;
use etherparse::err::ValueTooBigError;
use etherparse::{
    Entry, IpAuthHeaderSlice, Ipv6ExtensionSlice, LaxIpv4Slice, LaxIpv6Slice, LaxLinkExtSlice,
    LaxMacsecPayloadSlice, LaxNetSlice, LaxSlicedPacket, TcpOptionElement, TcpSlice,
    TransportSlice,
};
use std::alloc::Global;

/// Parses 2,000 frames with rare headers laxly in each round, in even rounds into one reused packet and in odd ones
/// into new packets, and verifies the checksums of the captured bytes. Returns the digest of all results.
pub fn slice_unusual(alloc: Global, rounds: u32, seed: u64) -> Result<Digest, BenchError> {
    let mut numbers = Numbers::new(seed);
    let mut frames = UnusualFrames::drawn(alloc, &mut numbers)?;
    let mut digest = Digest::new();
    for round in 0..rounds {
        let number = first_number(seed, round);
        frames.renew(number);
        slice_round(&frames, number, &mut digest, round % 2 == 0);
    }
    Ok(digest)
}

/// Parses each frame laxly, into one reused packet (`in_place`) or into new ones, and adds the results to the digest.
fn slice_round(frames: &UnusualFrames, first: u64, digest: &mut Digest, in_place: bool) {
    let bytes = frames.bytes.as_slice();
    let mut packet = LaxSlicedPacket::new();
    let mut number = first;
    for sample in frames.samples.as_slice() {
        let frame = sample.captured_in(bytes, number);
        number = number.wrapping_add(1);
        digest.count_call();
        if in_place {
            match packet.slice_into(Entry::Ethernet, frame) {
                Ok(()) => add_packet(digest, &packet),
                Err(error) => digest.add_refusal(&error),
            }
        } else {
            match LaxSlicedPacket::from_ethernet(frame) {
                Ok(packet) => add_packet(digest, &packet),
                Err(error) => digest.add(error.required_len as u64),
            }
        }
    }
}

/// Adds fields of all layers after the Ethernet header of a laxly parsed packet to the digest, and whether its
/// checksums are valid.
fn add_packet(digest: &mut Digest, packet: &LaxSlicedPacket<'_>) {
    for extension in packet.link_exts.as_slice() {
        add_link_extension(digest, extension);
    }
    match &packet.net {
        Some(LaxNetSlice::Ipv4(packet)) => add_ipv4(digest, packet),
        Some(LaxNetSlice::Ipv6(packet)) => add_ipv6(digest, packet),
        Some(LaxNetSlice::Arp(_)) | None => digest.add(3),
    }
    if let Some(transport) = &packet.transport {
        add_transport(digest, transport);
        add_checksum(digest, &packet.net, transport);
    }
    if let Some(stop) = &packet.stop_err {
        digest.add_refusal(&stop.0);
    }
    digest.add(packet.payload().len() as u64 ^ u64::from(packet.is_incomplete()) << 32);
}

/// Adds fields of a VLAN tag or a MACsec tag (SecTAG) to the digest.
fn add_link_extension(digest: &mut Digest, extension: &LaxLinkExtSlice<'_>) {
    match extension {
        LaxLinkExtSlice::Vlan(tag) => {
            let id = u64::from(tag.vlan_identifier().value());
            digest.add(id ^ u64::from(tag.ether_type().0) << 16);
        }
        LaxLinkExtSlice::Macsec(packet) => {
            let type_of_payload = match &packet.payload {
                LaxMacsecPayloadSlice::Unmodified(payload) => u64::from(payload.ether_type.0),
                LaxMacsecPayloadSlice::Modified { .. } => 0,
            };
            digest.add(u64::from(packet.header.packet_nr()) ^ type_of_payload << 32);
            digest.add(packet.header.sci().unwrap_or(0));
        }
    }
}

/// Adds fields of an IPv4 packet to the digest: its options, its authentication header, and whether its header checksum
/// is valid.
fn add_ipv4(digest: &mut Digest, packet: &LaxIpv4Slice<'_>) {
    let header = packet.header();
    let source = u64::from(u32::from_be_bytes(header.source()));
    digest.add(source ^ u64::from(header.total_len()) << 32);
    digest.add_bytes(header.options());
    if let Some(auth) = &packet.extensions().auth {
        add_auth(digest, auth);
    }
    let sum = header.to_header().calc_header_checksum();
    add_verdict(digest, header.header_checksum(), sum);
}

/// Adds fields of an IPv6 packet and its extension headers to the digest.
fn add_ipv6(digest: &mut Digest, packet: &LaxIpv6Slice<'_>) {
    let header = packet.header();
    digest.add(low_word(&header.source()) ^ u64::from(header.payload_length()) << 32);
    for extension in packet.extensions() {
        match &extension {
            Ipv6ExtensionSlice::Authentication(auth) => add_auth(digest, auth),
            Ipv6ExtensionSlice::HopByHop(header)
            | Ipv6ExtensionSlice::Routing(header)
            | Ipv6ExtensionSlice::DestinationOptions(header) => digest.add_bytes(header.payload()),
            Ipv6ExtensionSlice::Fragment(header) => {
                digest.add(u64::from(header.identification()));
            }
        }
    }
}

/// Adds SPI, sequence number and integrity check value of an IP authentication header to the digest.
fn add_auth(digest: &mut Digest, auth: &IpAuthHeaderSlice<'_>) {
    digest.add(u64::from(auth.sequence_number()) ^ u64::from(auth.spi()) << 32);
    digest.add_bytes(auth.raw_icv());
}

/// Adds fields of a UDP, TCP or ICMP header to the digest, for TCP with its options.
fn add_transport(digest: &mut Digest, transport: &TransportSlice<'_>) {
    match transport {
        TransportSlice::Udp(datagram) => {
            digest.add(u64::from(datagram.source_port()) ^ u64::from(datagram.length()) << 16);
        }
        TransportSlice::Tcp(segment) => {
            digest.add(
                u64::from(segment.source_port()) ^ u64::from(segment.sequence_number()) << 16,
            );
            add_options(digest, segment);
        }
        TransportSlice::Icmpv4(message) => {
            digest.add(u64::from(u32::from_be_bytes(message.bytes5to8())));
        }
        TransportSlice::Icmpv6(message) => {
            digest.add(u64::from(u32::from_be_bytes(message.bytes5to8())));
        }
    }
}

/// Adds the options of a TCP segment to the digest; an invalid option counts as 5.
fn add_options(digest: &mut Digest, segment: &TcpSlice<'_>) {
    for option in segment.options_iterator() {
        match option {
            Ok(option) => digest.add(option_value(&option)),
            Err(_) => digest.add(5),
        }
    }
}

/// Returns a number for the digest that depends on the value of a TCP option.
fn option_value(option: &TcpOptionElement) -> u64 {
    match option {
        TcpOptionElement::Noop => 1,
        TcpOptionElement::MaximumSegmentSize(size) => u64::from(*size),
        TcpOptionElement::WindowScale(shift) => u64::from(*shift),
        TcpOptionElement::SelectiveAcknowledgementPermitted => 4,
        TcpOptionElement::SelectiveAcknowledgement((start, end), _) => {
            u64::from(*start) ^ u64::from(*end) << 32
        }
        TcpOptionElement::Timestamp(time, echo) => u64::from(*time) ^ u64::from(*echo) << 32,
    }
}

/// Adds to the digest whether the checksum of a UDP, TCP or ICMP layer is valid for the captured bytes.
fn add_checksum(
    digest: &mut Digest,
    net: &Option<LaxNetSlice<'_>>,
    transport: &TransportSlice<'_>,
) {
    match net {
        Some(LaxNetSlice::Ipv4(packet)) => {
            let (source, destination) = (packet.header().source(), packet.header().destination());
            add_checksum_ipv4(digest, source, destination, transport);
        }
        Some(LaxNetSlice::Ipv6(packet)) => {
            let (source, destination) = (packet.header().source(), packet.header().destination());
            add_checksum_ipv6(digest, source, destination, transport);
        }
        Some(LaxNetSlice::Arp(_)) | None => {}
    }
}

/// Adds to the digest whether the checksum of a UDP, TCP or ICMPv4 layer is valid between these IPv4 addresses.
fn add_checksum_ipv4(
    digest: &mut Digest,
    source: [u8; 4],
    destination: [u8; 4],
    transport: &TransportSlice<'_>,
) {
    match transport {
        TransportSlice::Udp(datagram) => {
            let header = datagram.to_header();
            let sum = header.calc_checksum_ipv4_raw(source, destination, datagram.payload());
            add_sum(digest, datagram.checksum(), sum);
        }
        TransportSlice::Tcp(segment) => {
            let sum = segment.calc_checksum_ipv4(source, destination);
            add_sum(digest, segment.checksum(), sum);
        }
        TransportSlice::Icmpv4(message) => {
            let mut header = message.to_header();
            header.update_checksum(message.payload());
            add_verdict(digest, message.checksum(), header.checksum);
        }
        TransportSlice::Icmpv6(_) => {}
    }
}

/// Adds to the digest whether the checksum of a UDP, TCP or ICMPv6 layer is valid between these IPv6 addresses.
fn add_checksum_ipv6(
    digest: &mut Digest,
    source: [u8; 16],
    destination: [u8; 16],
    transport: &TransportSlice<'_>,
) {
    match transport {
        TransportSlice::Udp(datagram) => {
            let header = datagram.to_header();
            let sum = header.calc_checksum_ipv6_raw(source, destination, datagram.payload());
            add_sum(digest, datagram.checksum(), sum);
        }
        TransportSlice::Tcp(segment) => {
            let sum = segment.calc_checksum_ipv6(source, destination);
            add_sum(digest, segment.checksum(), sum);
        }
        TransportSlice::Icmpv6(message) => {
            let mut header = message.to_header();
            match header.update_checksum(source, destination, message.payload()) {
                Ok(()) => add_verdict(digest, message.checksum(), header.checksum),
                Err(error) => digest.add(error.actual as u64),
            }
        }
        TransportSlice::Icmpv4(_) => {}
    }
}

/// Adds a computed checksum to the digest, and whether it equals the checksum `field` of the packet. If the UDP payload
/// or TCP segment is too long for a checksum, adds the length from the error instead.
fn add_sum(digest: &mut Digest, field: u16, sum: Result<u16, ValueTooBigError<usize>>) {
    match sum {
        Ok(sum) => add_verdict(digest, field, sum),
        Err(error) => digest.add(error.actual as u64),
    }
}

/// Adds the computed checksum `sum` to the digest, and whether it equals the checksum `field` of the packet.
fn add_verdict(digest: &mut Digest, field: u16, sum: u16) {
    digest.add(u64::from(sum) ^ u64::from(field == sum) << 16);
}
