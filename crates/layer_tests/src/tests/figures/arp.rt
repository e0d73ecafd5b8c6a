//! The ARP packet of RFC 826: hardware type, protocol type, both address lengths, operation.

use crate::tests::checks::same;
use ep_link::{ArpHardwareId, ArpOperation, ArpPacket, ArpPacketSlice, EtherType};
use std::process::Abort;

/// Asserts that an ARP packet with the hardware type 0x0102, the protocol type 0x0304, a hardware address of one byte
/// and no protocol addresses is written with the given bytes 6 and 7, and parsed from them.
fn operation(rt: &impl Abort, operation: u16, [upper, lower]: [u8; 2]) {
    let bytes = [1, 2, 3, 4, 1, 0, upper, lower, 5, 6];
    let packet = ArpPacket::new(
        ArpHardwareId(0x0102),
        EtherType(0x0304),
        ArpOperation(operation),
        &[5],
        &[],
        &[6],
        &[],
    )
    .expect(rt, "refused");
    same(rt, &packet.to_bytes().as_slice(), &bytes.as_slice());
    let slice = ArpPacketSlice::from_slice(&bytes).expect(rt, "refused");
    same(rt, &slice.to_header(), &packet);
    same(rt, &slice.operation(), &ArpOperation(operation));
    same(rt, &ArpPacket::from_slice(&bytes), &Ok(packet));
}

#[test]
fn operations(rt: HostRuntime) {
    for (value, bytes) in [
        (0x8000, [0x80, 0]),
        (0x4000, [0x40, 0]),
        (0x2000, [0x20, 0]),
        (0x1000, [0x10, 0]),
        (0x0800, [0x08, 0]),
        (0x0400, [0x04, 0]),
        (0x0200, [0x02, 0]),
        (0x0100, [0x01, 0]),
        (0x0080, [0, 0x80]),
        (0x0040, [0, 0x40]),
        (0x0020, [0, 0x20]),
        (0x0010, [0, 0x10]),
        (0x0008, [0, 0x08]),
        (0x0004, [0, 0x04]),
        (0x0002, [0, 0x02]),
        (0x0001, [0, 0x01]),
    ] {
        operation(&rt, value, bytes);
    }
}
