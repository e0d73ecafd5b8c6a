//! Selection of the IP packets in Ethernet frames, for benchmarks that start at the IP header.

ghost use Rattle.std.specs.Prelude.{◌≡◌, IfErr};

use crate::bench_error::BenchError;
use etherparse::{EtherPayloadSlice, NetSlice, SlicedPacket};
use std::alloc::Global;

/// Returns the IP packet of each Ethernet frame that slicing accepts and that contains one. Bytes after the end of the
/// packet (according to its IP length field), such as Ethernet padding, are included.
pub fn ip_packets_of<'a>(alloc: Global, frames: &[&'a [u8]]) -> Result<Vec<&'a [u8]>, BenchError>
    ensures err { IfErr result (λ error. error ≡ BenchError.OutOfMemory) }
{
    let mut packets = Vec::new(alloc);
    for frame in frames {
        if let Some(packet) = ip_packet(frame) {
            let Ok(()) = packets.push(packet) else {
                return Err(BenchError::OutOfMemory);
            };
        }
    }
    Ok(packets)
}

/// Returns the bytes of the IP packet in an Ethernet frame, or `None` if the frame is rejected or contains no IP
/// packet.
fn ip_packet(frame: &[u8]) -> Option<&[u8]> {
    match SlicedPacket::from_ethernet(frame) {
        Ok(packet) => ip_bytes(&packet),
        Err(_) => None,
    }
}

/// Returns the bytes after the link header and all VLAN or MACsec tags of a sliced packet if they are an IP packet,
/// otherwise `None`.
fn ip_bytes<'a>(packet: &SlicedPacket<'a>) -> Option<&'a [u8]> {
    let inside = payload_bytes(packet.ether_payload());
    match &packet.net {
        Some(NetSlice::Ipv4(_)) => inside,
        Some(NetSlice::Ipv6(_)) => inside,
        Some(NetSlice::Arp(_)) | None => None,
    }
}

/// Returns the bytes of an `EtherPayloadSlice`, without its ether type, or `None` if there is no payload.
fn payload_bytes(payload: Option<EtherPayloadSlice<'_>>) -> Option<&[u8]> {
    match payload {
        Some(payload) => Some(payload.payload),
        None => None,
    }
}
