//! Tests of generic IPv6 extension headers, whose payload is not interpreted: hop-by-hop options, destination options
//! and routing (RFC 8200).

use crate::tests::checks::{full, is_written, same, shows};
use ep_ext::err::ipv6_exts::ExtPayloadLenError;
use ep_ext::{IpNumber, Ipv6RawExtHeader, Ipv6RawExtHeaderSlice, Layer, LenError, LenSource};
use std::alloc::Global;
use std::process::Abort;

/// An IPv6 hop-by-hop options header of 16 bytes before TCP, with a router alert and padding, and then 2 more bytes.
const OPTIONS: &[u8] = b"\x06\x01\x05\x02\x00\x00\x01\x0a\x00\x00\x00\x00\x00\x00\x00\x00\xfe\xff";

fn header(rt: &impl Abort) -> Ipv6RawExtHeader {
    Ipv6RawExtHeader::new_raw(IpNumber::TCP, &OPTIONS[2..16]).expect(rt, "refused")
}

/// Asserts that a generic IPv6 extension header is written as the given bytes.
fn writes(rt: &impl Abort, alloc: Global, header: &Ipv6RawExtHeader, bytes: &[u8]) {
    let mut buf = full(rt, alloc);
    let written = header.write(&mut buf).is_ok();
    is_written(rt, written, &buf, bytes);
}

#[test]
fn reads_and_writes(rt: HostRuntime) {
    let header = header(&rt);
    let slice = Ipv6RawExtHeaderSlice::from_slice(OPTIONS).expect(&rt, "refused");
    same(&rt, &slice.to_header(), &header);
    writes(&rt, rt.alloc(), &header, &OPTIONS[..16]);
    let expected = Ok((header, b"\xfe\xff".as_slice()));
    same(&rt, &Ipv6RawExtHeader::from_slice(OPTIONS), &expected);
}

/// Parses a generic IPv6 extension header with both parsers (slice and owned header). Asserts that both return a header
/// of `header_len` bytes, or, if `required_len` is given, the error that this number of bytes is required.
fn reads(rt: &impl Abort, bytes: &[u8], header_len: usize, required_len: Option<usize>) {
    let shown = match required_len {
        None => Ok(header_len),
        Some(required_len) => Err(LenError {
            required_len,
            len: bytes.len(),
            len_source: LenSource::Slice,
            layer: Layer::Ipv6ExtHeader,
            layer_start_offset: 0,
        }),
    };
    let slice = Ipv6RawExtHeaderSlice::from_slice(bytes).map(|slice| slice.header_len());
    same(rt, &slice, &shown);
    let header = Ipv6RawExtHeader::from_slice(bytes).map(|(header, _)| header.header_len());
    same(rt, &header, &shown);
}

#[test]
fn length_counts_units_of_8_bytes(rt: HostRuntime) {
    let mut bytes = [0; 2049];
    for (field, header_len) in [(0, 8), (1, 16), (2, 24), (254, 2040), (255, 2048)] {
        bytes[1] = field;
        reads(&rt, &bytes, header_len, None);
        assert!(rt; 8 <= header_len && header_len <= 2048);
        reads(&rt, &bytes[..header_len - 1], 0, Some(header_len));
    }
}

/// Asserts that a generic IPv6 extension header with a payload of `len` bytes can't be created: the call returns the
/// given error, which is printed as the given text.
fn refuses_len(rt: &impl Abort, alloc: Global, len: usize, error: ExtPayloadLenError, text: &str) {
    const ZEROS: &[u8] = &[0; 2054];
    shows(rt, alloc, &error, text);
    let payload = ZEROS.get(..len).expect(rt, "too long");
    let refused = Ipv6RawExtHeader::new_raw(IpNumber::UDP, payload).err();
    same(rt, &refused, &Some(error));
}

#[test]
fn lengths_of_payloads(rt: HostRuntime) {
    refuses_len(
        &rt,
        rt.alloc(),
        0,
        ExtPayloadLenError::TooSmall(0),
        "TooSmall 0",
    );
    refuses_len(
        &rt,
        rt.alloc(),
        5,
        ExtPayloadLenError::TooSmall(5),
        "TooSmall 5",
    );
    refuses_len(
        &rt,
        rt.alloc(),
        7,
        ExtPayloadLenError::Unaligned(7),
        "Unaligned 7",
    );
    refuses_len(
        &rt,
        rt.alloc(),
        8,
        ExtPayloadLenError::Unaligned(8),
        "Unaligned 8",
    );
    refuses_len(
        &rt,
        rt.alloc(),
        2045,
        ExtPayloadLenError::Unaligned(2045),
        "Unaligned 2045",
    );
    refuses_len(
        &rt,
        rt.alloc(),
        2047,
        ExtPayloadLenError::TooBig(2047),
        "TooBig 2047",
    );
    refuses_len(
        &rt,
        rt.alloc(),
        2054,
        ExtPayloadLenError::TooBig(2054),
        "TooBig 2054",
    );
}

/// Asserts that a generic IPv6 extension header with a payload of `len` bytes is written with the length field `field`
/// (in units of 8 bytes, without the first 8).
fn writes_len(rt: &impl Abort, alloc: Global, len: usize, field: u8) {
    const PAYLOAD: &[u8] = &[0xab; 2046];
    let payload = PAYLOAD.get(..len).expect(rt, "too long");
    let mut bytes = Vec::from_array(alloc, [17, field]).expect(rt, "no memory");
    bytes.extend_from_slice(payload).expect(rt, "no memory");
    let header = Ipv6RawExtHeader::new_raw(IpNumber::UDP, payload).expect(rt, "refused");
    writes(rt, alloc, &header, &bytes);
}

#[test]
fn writes_each_length(rt: HostRuntime) {
    writes_len(&rt, rt.alloc(), 6, 0);
    writes_len(&rt, rt.alloc(), 14, 1);
    writes_len(&rt, rt.alloc(), 2038, 254);
    writes_len(&rt, rt.alloc(), 2046, 255);
}

#[test]
fn equality_sees_the_used_bytes_alone(rt: HostRuntime) {
    let made = Ipv6RawExtHeader::new_raw(IpNumber::UDP, &[1, 2, 3, 4, 5, 6]).expect(&rt, "refused");
    let zeros = Ipv6RawExtHeader::new_raw(
        IpNumber::UDP,
        &[1, 2, 3, 4, 5, 6, 0, 0, 0, 0, 0, 0, 0, 0],
    ).expect(&rt, "refused");
    assert!(rt; made != zeros);
    let (read, _) = Ipv6RawExtHeader::from_slice(
        b"\x11\x00\x01\x02\x03\x04\x05\x06\x07\x07\x07\x07",
    ).expect(&rt, "refused");
    same(&rt, &read, &made);
}
