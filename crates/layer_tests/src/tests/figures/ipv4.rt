//! The internet header of RFC 791, 3.1, with the DS field of RFC 2474 and the ECN field of RFC 3168 in byte 1.

use crate::tests::checks::same;
use ep_ip::{IpFragOffset, IpNumber, Ipv4Dscp, Ipv4Ecn, Ipv4Header, Ipv4HeaderSlice, Ipv4Options};
use std::process::Abort;

/// An IPv4 header whose flags and narrow fields are zero, and all other bytes distinct.
const PLAIN: [u8; 20] = [
    0x45, 0, 1, 2, 3, 4, 0, 0, 5, 6, 7, 8, 9, 10, 11, 12, 13, 14, 15, 16,
];

/// Returns the IPv4 header of the constant `PLAIN`.
fn plain() -> Ipv4Header {
    Ipv4Header {
        dscp: Ipv4Dscp::ZERO,
        ecn: Ipv4Ecn::ZERO,
        total_len: 0x0102,
        identification: 0x0304,
        dont_fragment: false,
        more_fragments: false,
        fragment_offset: IpFragOffset::ZERO,
        time_to_live: 5,
        protocol: IpNumber(6),
        header_checksum: 0x0708,
        source: [9, 10, 11, 12],
        destination: [13, 14, 15, 16],
        options: Ipv4Options::new(),
    }
}

/// Asserts that the IPv4 header is written as the bytes, and parsed from them.
fn encodes(rt: &impl Abort, header: Ipv4Header, bytes: &[u8]) {
    same(rt, &header.to_bytes().as_slice(), &bytes);
    let slice = Ipv4HeaderSlice::from_slice(bytes).expect(rt, "refused");
    same(rt, &slice.to_header(), &header);
    let expected = Ok((header, b"".as_slice()));
    same(rt, &Ipv4Header::from_slice(bytes), &expected);
}

/// Asserts that an IPv4 header with these code points has the given byte 1.
fn service(rt: &impl Abort, dscp: u8, ecn: u8, byte: u8) {
    let header = Ipv4Header {
        dscp: Ipv4Dscp::try_new(dscp).expect(rt, "refused"),
        ecn: Ipv4Ecn::try_new(ecn).expect(rt, "refused"),
        ..plain()
    };
    let mut bytes = PLAIN;
    bytes[1] = byte;
    encodes(rt, header, &bytes);
}

#[test]
fn service_bits(rt: HostRuntime) {
    for (dscp, ecn, byte) in [
        (0x20, 0, 0x80),
        (0x10, 0, 0x40),
        (0x08, 0, 0x20),
        (0x04, 0, 0x10),
        (0x02, 0, 0x08),
        (0x01, 0, 0x04),
        (0, 2, 0x02),
        (0, 1, 0x01),
    ] {
        service(&rt, dscp, ecn, byte);
    }
}

/// Asserts that an IPv4 header with these flags (DF and MF) and this fragment offset has the given bytes 6 and 7.
fn fragment(rt: &impl Abort, flags: (bool, bool), offset: u16, [upper, lower]: [u8; 2]) {
    let header = Ipv4Header {
        dont_fragment: flags.0,
        more_fragments: flags.1,
        fragment_offset: IpFragOffset::try_new(offset).expect(rt, "refused"),
        ..plain()
    };
    let mut bytes = PLAIN;
    bytes[6] = upper;
    bytes[7] = lower;
    encodes(rt, header, &bytes);
}

#[test]
fn flags_and_offsets(rt: HostRuntime) {
    for (flags, offset, bytes) in [
        ((true, false), 0, [0x40, 0]),
        ((false, true), 0, [0x20, 0]),
        ((false, false), 0x1000, [0x10, 0]),
        ((false, false), 0x0800, [0x08, 0]),
        ((false, false), 0x0400, [0x04, 0]),
        ((false, false), 0x0200, [0x02, 0]),
        ((false, false), 0x0100, [0x01, 0]),
        ((false, false), 0x0080, [0, 0x80]),
        ((false, false), 0x0040, [0, 0x40]),
        ((false, false), 0x0020, [0, 0x20]),
        ((false, false), 0x0010, [0, 0x10]),
        ((false, false), 0x0008, [0, 0x08]),
        ((false, false), 0x0004, [0, 0x04]),
        ((false, false), 0x0002, [0, 0x02]),
        ((false, false), 0x0001, [0, 0x01]),
    ] {
        fragment(&rt, flags, offset, bytes);
    }
}

/// Tests that the reserved flag, the upper bit of byte 6, is in no field.
#[test]
fn reserved_flag(rt: HostRuntime) {
    let mut bytes = PLAIN;
    bytes[6] = 0x80;
    let expected = Ok((plain(), b"".as_slice()));
    same(&rt, &Ipv4Header::from_slice(&bytes), &expected);
}

/// Asserts that an IPv4 header with `options_len` bytes of options, at most 40, has the given byte 0: version 4 and the
/// header length in words of 4 bytes.
fn header_length(rt: &impl Abort, options_len: usize, byte: u8) {
    let mut bytes = [0xab; 60];
    bytes[..20].copy_from_slice(&PLAIN);
    bytes[0] = byte;
    let options = bytes[20..].get(..options_len).expect(rt, "too long");
    let header = Ipv4Header {
        options: Ipv4Options::try_new(options).expect(rt, "refused"),
        ..plain()
    };
    // known since the slice of `options` was found; stated for the proof that the next range is within `bytes`
    assert!(rt; options_len <= 40);
    encodes(rt, header, &bytes[..20 + options_len]);
}

#[test]
fn header_lengths(rt: HostRuntime) {
    for (options_len, byte) in [(0, 0x45), (4, 0x46), (8, 0x47), (12, 0x48), (40, 0x4f)] {
        header_length(&rt, options_len, byte);
    }
}

/// Tests the bytes of a new IPv4 header with the greatest payload: the flag DF, and zero in each field without an
/// argument.
#[test]
fn new_headers(rt: HostRuntime) {
    let header = Ipv4Header::new(65515, 64, IpNumber::UDP, [1, 2, 3, 4], [5, 6, 7, 8]).expect(
        &rt, "refused",
    );
    let bytes = [
        0x45, 0, 0xff, 0xff, 0, 0, 0x40, 0, 64, 17, 0, 0, 1, 2, 3, 4, 5, 6, 7, 8,
    ];
    encodes(&rt, header, &bytes);
}
