//! The benchmark job that decodes headers into owned values.

use crate::bench_error::BenchError;
use crate::digest::Digest;
use crate::fields::Numbers;
use crate::frames::{Frames, first_number};
use crate::slicing::low_word;
use etherparse::{Entry, IpHeaders, LinkHeader, NetHeaders, PacketHeaders, TransportHeader};
use std::alloc::Global;

/// Decodes the headers of 2,000 frames in each round, and returns the digest of all results. Three kinds of rounds
/// alternate: into new values, into one reused value, and the IP headers only.
pub fn read_headers(alloc: Global, rounds: u32, seed: u64) -> Result<Digest, BenchError> {
    let mut numbers = Numbers::new(seed);
    let mut frames = Frames::drawn(alloc, &mut numbers)?;
    let mut digest = Digest::new();
    for round in 0..rounds {
        frames.renew(first_number(seed, round));
        match round % 3 {
            0 => read_by_value(&frames, &mut digest),
            1 => read_into_reused(&frames, &mut digest),
            _ => read_ip(&frames, &mut digest),
        }
    }
    Ok(digest)
}

/// Decodes the headers of each frame into a new value, and adds fields of them to the digest.
fn read_by_value(frames: &Frames, digest: &mut Digest) {
    for place in frames.places.as_slice() {
        digest.count_call();
        match PacketHeaders::from_ethernet_slice(place.frame_in(frames.bytes.as_slice())) {
            Ok(packet) => add_headers(digest, &packet),
            Err(error) => digest.add_refusal(&error),
        }
    }
}

/// Decodes the headers of each frame into one reused value, and adds fields of them to the digest.
fn read_into_reused(frames: &Frames, digest: &mut Digest) {
    let mut packet = PacketHeaders::new();
    for place in frames.places.as_slice() {
        digest.count_call();
        match packet.read_into(Entry::Ethernet, place.frame_in(frames.bytes.as_slice())) {
            Ok(()) => add_headers(digest, &packet),
            Err(error) => digest.add_refusal(&error),
        }
    }
}

/// Decodes the IP headers of each frame, and adds fields of them to the digest. Frames that are truncated before their
/// ports are skipped, because without their Ethernet header many of them would be equal.
fn read_ip(frames: &Frames, digest: &mut Digest) {
    for place in frames.places.as_slice() {
        if !place.ports.is_there() {
            continue;
        }
        digest.count_call();
        match IpHeaders::from_slice(place.packet_in(frames.bytes.as_slice())) {
            Ok((headers, payload)) => {
                let protocol = match &headers {
                    IpHeaders::Ipv4(header, _) => {
                        u64::from(header.protocol.0) ^ u64::from(header.total_len) << 8
                    }
                    IpHeaders::Ipv6(header, extensions) => {
                        u64::from(header.next_header.0) ^ (extensions.header_len() as u64) << 8
                    }
                };
                digest.add(protocol ^ (payload.payload.len() as u64) << 32);
            }
            Err(_) => digest.add(3),
        }
    }
}

/// Adds to the digest: ether type, source address, fields of the transport header (such as source port or checksum) and
/// payload length from the decoded headers of a packet.
fn add_headers(digest: &mut Digest, packet: &PacketHeaders<'_>) {
    let link = match &packet.link {
        Some(LinkHeader::Ethernet2(header)) => u64::from(header.ether_type.0),
        Some(LinkHeader::LinuxSll(_)) | None => 0,
    };
    let net = match &packet.net {
        Some(NetHeaders::Ipv4(header, _)) => u64::from(u32::from_be_bytes(header.source)),
        Some(NetHeaders::Ipv6(header, extensions)) => {
            low_word(&header.source) ^ (extensions.header_len() as u64) << 32
        }
        Some(NetHeaders::Arp(_)) => 3,
        None => 0,
    };
    let transport = match &packet.transport {
        Some(TransportHeader::Udp(header)) => {
            u64::from(header.source_port) ^ u64::from(header.checksum) << 16
        }
        Some(TransportHeader::Tcp(header)) => {
            u64::from(header.source_port) ^ u64::from(header.sequence_number) << 16
        }
        Some(TransportHeader::Icmpv4(header)) => u64::from(header.checksum),
        Some(TransportHeader::Icmpv6(header)) => u64::from(header.checksum),
        None => 0,
    };
    digest.add(link ^ net << 16);
    digest.add(transport ^ (packet.payload.slice().len() as u64) << 48);
}
