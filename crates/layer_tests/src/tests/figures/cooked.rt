//! The header of Linux cooked captures (SLL v1): packet type, ARPHRD type, address length, address, protocol.

use crate::tests::checks::same;
use ep_link::{
    ArpHardwareId, EtherType, LinuxSllHeader, LinuxSllPacketType, LinuxSllProtocolType,
    LinuxSllSlice,
};
use std::process::Abort;

/// Asserts that a Linux cooked capture header with this packet type, sender address length and protocol (an ether type
/// over Ethernet) is written with the given bytes 0 and 1, 4 and 5, 14 and 15, and parsed from them.
fn cooked(rt: &impl Abort, (packet_type, address_len, protocol): (u16, u16, u16), bytes: [u8; 6]) {
    let header = LinuxSllHeader {
        packet_type: LinuxSllPacketType(packet_type),
        arp_hrd_type: ArpHardwareId::ETHERNET,
        sender_address_valid_length: address_len,
        sender_address: [1, 2, 3, 4, 5, 6, 7, 8],
        protocol_type: LinuxSllProtocolType::EtherType(EtherType(protocol)),
    };
    let [t0, t1, l0, l1, p0, p1] = bytes;
    let bytes = [t0, t1, 0, 1, l0, l1, 1, 2, 3, 4, 5, 6, 7, 8, p0, p1];
    same(rt, &header.to_bytes(), &bytes);
    let slice = LinuxSllSlice::from_slice(&bytes).expect(rt, "refused");
    same(rt, &slice.to_header(), &header);
    let expected = Ok((header, b"".as_slice()));
    same(rt, &LinuxSllHeader::from_slice(&bytes), &expected);
}

#[test]
fn packet_types_lengths_and_protocols(rt: HostRuntime) {
    for (fields, bytes) in [
        ((0, 0, 0x0600), [0, 0, 0, 0, 6, 0]),
        ((1, 0, 0x0600), [0, 1, 0, 0, 6, 0]),
        ((2, 0, 0x0600), [0, 2, 0, 0, 6, 0]),
        ((4, 0, 0x0600), [0, 4, 0, 0, 6, 0]),
        ((7, 0, 0x0600), [0, 7, 0, 0, 6, 0]),
        ((0, 0x0102, 0x0600), [0, 0, 1, 2, 6, 0]),
        ((0, 0, 0x8035), [0, 0, 0, 0, 0x80, 0x35]),
    ] {
        cooked(&rt, fields, bytes);
    }
}
