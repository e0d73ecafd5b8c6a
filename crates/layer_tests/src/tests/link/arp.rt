//! Tests of ARP packets (RFC 826).

use crate::tests::checks::{full, is_written, same, shows};
use ep_link::err::arp::{ArpHwAddrError, ArpNewError, ArpProtoAddrError};
use ep_link::{
    ArpHardwareId, ArpOperation, ArpPacket, ArpPacketSlice, EtherType, Layer, LenError, LenSource,
};
use std::alloc::Global;
use std::process::Abort;

/// An ARP request over Ethernet for an IPv4 address (28 bytes), and 2 trailing bytes.
const REQUEST: &[u8] = b"\x00\x01\x08\x00\x06\x04\x00\x01\x01\x02\x03\x04\x05\x06\x07\
    \x06\x08\x09\x0a\x0b\x0c\x0e\x0f\x10\x11\x12\x13\x14\xfe\xff";

/// Returns an ARP request over Ethernet for an IPv4 address, with the fields of the constant `REQUEST`.
fn request(rt: &impl Abort) -> ArpPacket {
    ArpPacket::new(
        ArpHardwareId::ETHERNET,
        EtherType::IPV4,
        ArpOperation::REQUEST,
        &[1, 2, 3, 4, 5, 6],
        &[7, 6, 8, 9],
        &[10, 11, 12, 14, 15, 16],
        &[17, 18, 19, 20],
    )
    .expect(rt, "refused")
}

#[test]
fn reads_and_writes_a_request(rt: HostRuntime) {
    let packet = request(&rt);
    let slice = ArpPacketSlice::from_slice(REQUEST).expect(&rt, "refused");
    same(&rt, &slice.to_header(), &packet);
    let read = ArpPacket::from_slice(REQUEST).expect(&rt, "refused");
    same(&rt, &read, &packet);
    let mut buf = full(&rt, rt.alloc());
    let written = packet.write(&mut buf).is_ok();
    is_written(&rt, written, &buf, &REQUEST[..28]);
}

/// Returns an ARP packet with four addresses of `len` bytes each: bytes 1 (sender hardware), 2 (sender protocol), 3
/// (target hardware) and 4 (target protocol).
fn packet(rt: &impl Abort, len: u8) -> ArpPacket {
    let len = len as usize;
    ArpPacket::new(
        ArpHardwareId(0x0304),
        EtherType(0xabcd),
        ArpOperation(0x1234),
        &[1; 255][..len],
        &[2; 255][..len],
        &[3; 255][..len],
        &[4; 255][..len],
    )
    .expect(rt, "refused")
}

/// Asserts that an ARP packet with four addresses of `len` bytes each is written as the expected bytes.
fn writes_len(rt: &impl Abort, alloc: Global, len: u8) {
    let fixed_fields = [3, 4, 0xab, 0xcd, len, len, 0x12, 0x34];
    let mut bytes = Vec::from_array(alloc, fixed_fields).expect(rt, "no memory");
    for byte in 1..5 {
        bytes
            .extend_from_slice(&[byte; 255][..len as usize])
            .expect(rt, "no memory");
    }
    let mut buf = full(rt, alloc);
    let written = packet(rt, len).write(&mut buf).is_ok();
    is_written(rt, written, &buf, &bytes);
}

#[test]
fn writes_each_length(rt: HostRuntime) {
    writes_len(&rt, rt.alloc(), 255);
    writes_len(&rt, rt.alloc(), 1);
    writes_len(&rt, rt.alloc(), 0);
}

#[test]
fn refuses_missing_bytes(rt: HostRuntime) {
    for (len, required_len, len_source) in [
        (0, 8, LenSource::Slice),
        (7, 8, LenSource::Slice),
        (8, 28, LenSource::ArpAddrLengths),
        (27, 28, LenSource::ArpAddrLengths),
    ] {
        let refusal = Some(LenError::at_start(required_len, len, len_source, Layer::Arp));
        let bytes = &REQUEST[..len];
        same(&rt, &ArpPacket::from_slice(bytes).err(), &refusal);
        same(&rt, &ArpPacketSlice::from_slice(bytes).err(), &refusal);
    }
}

/// Creates an ARP packet whose addresses have invalid lengths, at most 257 bytes each, and returns the error. The
/// lengths are given in the order sender hardware, target hardware, sender protocol and target protocol.
fn refusal(rt: &impl Abort, lens: [usize; 4]) -> ArpNewError {
    const ZEROS: &[u8] = &[0; 257];
    let [sender_hw, target_hw, sender_protocol, target_protocol] = lens;
    let made = ArpPacket::new(
        ArpHardwareId::ETHERNET,
        EtherType::IPV4,
        ArpOperation::REQUEST,
        ZEROS.get(..sender_hw).expect(rt, "too long"),
        ZEROS.get(..sender_protocol).expect(rt, "too long"),
        ZEROS.get(..target_hw).expect(rt, "too long"),
        ZEROS.get(..target_protocol).expect(rt, "too long"),
    );
    made.err().expect(rt, "accepted")
}

#[test]
fn refuses_addresses_in_order(rt: HostRuntime) {
    for (lens, error, text) in [
        (
            [6, 5, 4, 4],
            ArpNewError::HwAddr(ArpHwAddrError::LenNonMatching(6, 5)),
            "LenNonMatching 6 5",
        ),
        (
            [257, 256, 257, 256],
            ArpNewError::HwAddr(ArpHwAddrError::LenNonMatching(257, 256)),
            "LenNonMatching 257 256",
        ),
        (
            [256, 256, 257, 256],
            ArpNewError::HwAddr(ArpHwAddrError::LenTooBig(256)),
            "LenTooBig 256",
        ),
        (
            [255, 255, 257, 256],
            ArpNewError::ProtoAddr(ArpProtoAddrError::LenNonMatching(257, 256)),
            "LenNonMatching 257 256",
        ),
        (
            [255, 255, 256, 256],
            ArpNewError::ProtoAddr(ArpProtoAddrError::LenTooBig(256)),
            "LenTooBig 256",
        ),
    ] {
        shows(&rt, rt.alloc(), &error, text);
        same(&rt, &refusal(&rt, lens), &error);
    }
}
