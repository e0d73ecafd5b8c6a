//! The benchmark job that parses frames into slices and reads a few of their fields.

use crate::bench_error::BenchError;
use crate::digest::Digest;
use crate::fields::Numbers;
use crate::frames::{Frames, first_number};
use etherparse::{Entry, LinkSlice, NetSlice, SlicedPacket, TransportSlice};
use std::alloc::Global;

/// Parses 2,000 frames into slices in each round, in even rounds into one reused packet and in odd ones into new
/// packets. Returns the digest of all results.
pub fn slice_frames(alloc: Global, rounds: u32, seed: u64) -> Result<Digest, BenchError> {
    let mut numbers = Numbers::new(seed);
    let mut frames = Frames::drawn(alloc, &mut numbers)?;
    let mut digest = Digest::new();
    for round in 0..rounds {
        frames.renew(first_number(seed, round));
        slice_round(&frames, &mut digest, round % 2 == 0);
    }
    Ok(digest)
}

/// Parses each frame into slices, into one reused packet (`in_place`) or into new ones, and adds the results to the
/// digest.
fn slice_round(frames: &Frames, digest: &mut Digest, in_place: bool) {
    let bytes = frames.bytes.as_slice();
    let mut packet = SlicedPacket::new();
    for place in frames.places.as_slice() {
        let frame = place.frame_in(bytes);
        digest.count_call();
        if in_place {
            match packet.slice_into(Entry::Ethernet, frame) {
                Ok(()) => add_packet(digest, &packet),
                Err(error) => digest.add_refusal(&error),
            }
        } else {
            match SlicedPacket::from_ethernet(frame) {
                Ok(packet) => add_packet(digest, &packet),
                Err(error) => digest.add_refusal(&error),
            }
        }
    }
}

/// Adds to the digest: ether type, source address, fields of the transport header (such as ports) and payload length of
/// a sliced packet.
#[inline]
fn add_packet(digest: &mut Digest, packet: &SlicedPacket<'_>) {
    let link = match &packet.link {
        Some(LinkSlice::Ethernet2(frame)) => u64::from(frame.ether_type().0),
        Some(_) | None => 0,
    };
    let net = match &packet.net {
        Some(NetSlice::Ipv4(packet)) => u64::from(u32::from_be_bytes(packet.header().source())),
        Some(NetSlice::Ipv6(packet)) => {
            u64::from(packet.header().hop_limit()) ^ low_word(&packet.header().source())
        }
        Some(NetSlice::Arp(_)) => 3,
        None => 0,
    };
    let transport = match &packet.transport {
        Some(TransportSlice::Udp(datagram)) => {
            u64::from(datagram.source_port()) ^ u64::from(datagram.destination_port()) << 16
        }
        Some(TransportSlice::Tcp(segment)) => {
            u64::from(segment.source_port()) ^ u64::from(segment.sequence_number()) << 16
        }
        Some(TransportSlice::Icmpv4(message)) => u64::from(message.type_u8()),
        Some(TransportSlice::Icmpv6(message)) => u64::from(message.type_u8()),
        None => 0,
    };
    digest.add(link ^ net << 16);
    digest.add(transport ^ (packet.payload().len() as u64) << 48);
}

/// Returns the last four bytes of an IPv6 address as a big endian number.
#[inline]
pub fn low_word(address: &[u8; 16]) -> u64 {
    let [.., a, b, c, d] = *address;
    u64::from(u32::from_be_bytes([a, b, c, d]))
}
