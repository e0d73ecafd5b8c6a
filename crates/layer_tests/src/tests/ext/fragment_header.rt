//! Tests of the IPv6 fragment header (RFC 8200, 4.5).

use crate::tests::checks::{full, is_written, same};
use ep_ext::{
    IpFragOffset, IpNumber, Ipv6FragmentHeader, Ipv6FragmentHeaderSlice, Layer, LenError, LenSource,
};
use std::process::Abort;

/// An IPv6 fragment header before UDP, with the M flag (more fragments) and the fragment offset of byte 1448, and then
/// 2 more bytes.
const FRAGMENT: &[u8] = b"\x11\x00\x05\xa9\xf8\x8e\xb4\x66\xfe\xff";

fn header(rt: &impl Abort) -> Ipv6FragmentHeader {
    Ipv6FragmentHeader {
        next_header: IpNumber::UDP,
        fragment_offset: IpFragOffset::try_new(181).expect(rt, "refused"),
        more_fragments: true,
        identification: 0xf88e_b466,
    }
}

#[test]
fn reads_and_writes(rt: HostRuntime) {
    let header = header(&rt);
    let slice = Ipv6FragmentHeaderSlice::from_slice(FRAGMENT).expect(&rt, "refused");
    same(&rt, &slice.to_header(), &header);
    same(&rt, &slice.fragment_offset().byte_offset(), &1448);
    let mut buf = full(&rt, rt.alloc());
    let written = header.write(&mut buf).is_ok();
    is_written(&rt, written, &buf, &FRAGMENT[..8]);
    let expected = Ok((header, b"\xfe\xff".as_slice()));
    same(&rt, &Ipv6FragmentHeader::from_slice(FRAGMENT), &expected);
}

/// Parses an IPv6 fragment header of 8 bytes. Asserts its fields (offset in units of 8 bytes, M flag, and whether the
/// payload is fragmented), and the bytes that are written again, in which reserved bits are 0.
fn reads(rt: &impl Abort, bytes: [u8; 8], fields: (u16, bool, bool), written: [u8; 8]) {
    let slice = Ipv6FragmentHeaderSlice::from_slice(&bytes).expect(rt, "refused");
    let header = slice.to_header();
    let shown = (
        header.fragment_offset.value(),
        header.more_fragments,
        slice.is_fragmenting_payload(),
    );
    same(rt, &shown, &fields);
    same(rt, &header.to_bytes(), &written);
}

#[test]
fn offset_reserved_bits_and_flag(rt: HostRuntime) {
    for (reserved, upper, lower, fields, written_lower) in [
        (0, 0x00, 0x00, (0, false, false), 0x00),
        (0xff, 0x00, 0x06, (0, false, false), 0x00),
        (0, 0x00, 0x01, (0, true, true), 0x01),
        (0, 0x00, 0x08, (1, false, true), 0x08),
        (0, 0x01, 0x00, (32, false, true), 0x00),
        (0x80, 0xff, 0xff, (8191, true, true), 0xf9),
    ] {
        reads(
            &rt,
            [58, reserved, upper, lower, 0, 0, 0, 1],
            fields,
            [58, 0, upper, written_lower, 0, 0, 0, 1],
        );
    }
}

/// Returns the error for an IPv6 fragment header of 7 bytes instead of 8.
fn too_short() -> LenError {
    LenError::at_start(8, 7, LenSource::Slice, Layer::Ipv6FragHeader)
}

#[test]
fn refuses_missing_bytes(rt: HostRuntime) {
    let bytes = &FRAGMENT[..7];
    same(
        &rt,
        &Ipv6FragmentHeaderSlice::from_slice(bytes),
        &Err(too_short()),
    );
    same(
        &rt,
        &Ipv6FragmentHeader::from_slice(bytes),
        &Err(too_short()),
    );
}
