//! The fragment header of RFC 8200, 4.5: next header, reserved byte, fragment offset, 2 reserved bits, M flag,
//! identification.

use crate::tests::checks::same;
use ep_ext::{IpFragOffset, IpNumber, Ipv6FragmentHeader, Ipv6FragmentHeaderSlice};
use std::process::Abort;

fn header(rt: &impl Abort, offset: u16, more_fragments: bool) -> Ipv6FragmentHeader {
    Ipv6FragmentHeader {
        next_header: IpNumber(1),
        fragment_offset: IpFragOffset::try_new(offset).expect(rt, "refused"),
        more_fragments,
        identification: 0x0203_0405,
    }
}

/// Asserts that an IPv6 fragment header with this offset (in units of 8 bytes) and M flag is written with the given
/// bytes 2 and 3, and parsed from them.
fn fragment(rt: &impl Abort, offset: u16, more_fragments: bool, [upper, lower]: [u8; 2]) {
    let header = header(rt, offset, more_fragments);
    let bytes = [1, 0, upper, lower, 2, 3, 4, 5];
    same(rt, &header.to_bytes(), &bytes);
    let slice = Ipv6FragmentHeaderSlice::from_slice(&bytes).expect(rt, "refused");
    same(rt, &slice.to_header(), &header);
    let expected = Ok((header, b"".as_slice()));
    same(rt, &Ipv6FragmentHeader::from_slice(&bytes), &expected);
}

#[test]
fn offsets_and_flag(rt: HostRuntime) {
    for (offset, more_fragments, bytes) in [
        (0x1000, false, [0x80, 0]),
        (0x0800, false, [0x40, 0]),
        (0x0400, false, [0x20, 0]),
        (0x0200, false, [0x10, 0]),
        (0x0100, false, [0x08, 0]),
        (0x0080, false, [0x04, 0]),
        (0x0040, false, [0x02, 0]),
        (0x0020, false, [0x01, 0]),
        (0x0010, false, [0, 0x80]),
        (0x0008, false, [0, 0x40]),
        (0x0004, false, [0, 0x20]),
        (0x0002, false, [0, 0x10]),
        (0x0001, false, [0, 0x08]),
        (0, true, [0, 0x01]),
    ] {
        fragment(&rt, offset, more_fragments, bytes);
    }
}

/// Asserts that a reserved bit of an IPv6 fragment header (bytes 1 and 3) is in no field.
fn reserved(rt: &impl Abort, [reserved, lower]: [u8; 2]) {
    let bytes = [1, reserved, 0, lower, 2, 3, 4, 5];
    let expected = Ok((header(rt, 0, false), b"".as_slice()));
    same(rt, &Ipv6FragmentHeader::from_slice(&bytes), &expected);
}

#[test]
fn reserved_bits(rt: HostRuntime) {
    for bytes in [[0x80, 0], [0x01, 0], [0, 0x04], [0, 0x02]] {
        reserved(&rt, bytes);
    }
}
