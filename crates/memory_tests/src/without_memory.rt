//! Tests of calls that never allocate: parsing, accessors, setters and sizes.

use crate::checks::*;
use crate::samples::*;
use etherparse::defrag::*;
use etherparse::*;
use std::process::Abort;

/// Asserts that both parsers (slices and owned headers), starting with the header `entry`, accept the bytes if
/// `is_frame` is true, and reject them otherwise.
fn reads(rt: &impl Abort, entry: Entry, bytes: &[u8], is_frame: bool) {
    let sliced = SlicedPacket::from_entry(entry, bytes);
    same(rt, &sliced.is_ok(), &is_frame);
    let read = PacketHeaders::new().read_into(entry, bytes);
    same(rt, &read.is_ok(), &is_frame);
}

#[test]
fn parsing(rt: HostRuntime) {
    let packet = UNFRAGMENTED_PACKET
        .get(14..)
        .expect(&rt, "an Ethernet II header");
    for (entry, bytes, is_frame) in [
        (Entry::Ethernet, UNFRAGMENTED_PACKET, true),
        (Entry::Ethernet, VLAN_1_FIRST, true),
        (Entry::LinuxSll, UNFRAGMENTED_PACKET, false),
        (Entry::EtherType(EtherType::IPV4), packet, true),
        (Entry::Ip, packet, true),
        (Entry::Ip, b"\x50".as_slice(), false),
    ] {
        reads(&rt, entry, bytes, is_frame);
    }
    asks_once(&rt, rt.alloc());
}

#[test]
fn headers(rt: HostRuntime) {
    let mut header = Ipv4Header::default();
    same(&rt, &header.set_payload_len(16), &Ok(()));
    same(&rt, &header.to_bytes().len(), &20);
    let mut transport = TransportHeader::Udp(UdpHeader::default());
    let set = transport.update_checksum_ipv4(&header, b"abcdefgh");
    same(&rt, &set.is_ok(), &true);
    let (mut extensions, first) = longest_extensions(&rt);
    same(&rt, &extensions.set_next_headers(IpNumber::UDP), &first);
    asks_once(&rt, rt.alloc());
}

#[test]
fn sizes_and_ranges(rt: HostRuntime) {
    let step = PacketBuilder::ethernet2([1; 6], [2; 6]).ipv4([1; 4], [2; 4], 1);
    same(&rt, &step.udp(1, 2).size(8), &50);
    let (first, last) = (
        IpFragRange { start: 0, end: 8 },
        IpFragRange { start: 8, end: 16 },
    );
    let union = IpFragRange { start: 0, end: 16 };
    same(&rt, &first.merge(last), &Some(union));
    asks_once(&rt, rt.alloc());
}
