//! Tests of the IP authentication header (RFC 4302).

use crate::tests::checks::{full, is_written, same, shows};
use ep_ext::err::ip_auth::{HeaderError, HeaderSliceError, IcvLenError};
use ep_ext::{IpAuthHeader, IpAuthHeaderSlice, IpNumber, Layer, LenError, LenSource};
use std::alloc::Global;
use std::process::Abort;

/// An IP authentication header before ICMP, with an integrity check value of 12 bytes, and then 2 more bytes.
const AUTHENTICATED: &[u8] =
    b"\x01\x04\x00\x00\x00\x00\x01\x00\x00\x00\x00\x02\x17\xa9\x4c\x2f\x83\x51\x60\xee\xd1\x3a\x04\x9b\xfe\xff";

fn header(rt: &impl Abort) -> IpAuthHeader {
    IpAuthHeader::new(IpNumber::ICMP, 256, 2, &AUTHENTICATED[12..24]).expect(rt, "refused")
}

/// Returns the error for an IP authentication header with too few bytes: `required_len` are required, and `len` are
/// present.
fn too_short(required_len: usize, len: usize) -> HeaderSliceError {
    HeaderSliceError::Len(LenError {
        required_len,
        len,
        len_source: LenSource::Slice,
        layer: Layer::IpAuthHeader,
        layer_start_offset: 0,
    })
}

/// Asserts that an IP authentication header is written as the given bytes.
fn writes(rt: &impl Abort, alloc: Global, header: &IpAuthHeader, bytes: &[u8]) {
    let mut buf = full(rt, alloc);
    let written = header.write(&mut buf).is_ok();
    is_written(rt, written, &buf, bytes);
}

/// Parses an IP authentication header with both parsers (slice and owned header). Asserts that both return the given
/// header, and the second one the bytes after it, and that the header is written as the bytes `written`.
fn reads_and_writes(
    rt: &impl Abort,
    alloc: Global,
    bytes: &[u8],
    header: &IpAuthHeader,
    written: &[u8],
) {
    let slice = IpAuthHeaderSlice::from_slice(bytes).expect(rt, "refused");
    same(rt, &slice.to_header(), header);
    let (read, rest) = IpAuthHeader::from_slice(bytes).expect(rt, "refused");
    same(rt, &read, header);
    same(rt, &Some(rest), &bytes.get(written.len()..));
    writes(rt, alloc, &read, written);
    writes(rt, alloc, header, written);
}

/// Tests a header with a check value, and one whose reserved bytes are set, which are in no field.
#[test]
fn headers(rt: HostRuntime) {
    let with_value = header(&rt);
    reads_and_writes(
        &rt,
        rt.alloc(),
        AUTHENTICATED,
        &with_value,
        &AUTHENTICATED[..24],
    );
    let plain = IpAuthHeader::new(IpNumber::TCP, 0x0102_0304, 0xfedc_ba98, b"").expect(
        &rt, "refused",
    );
    reads_and_writes(
        &rt,
        rt.alloc(),
        b"\x06\x01\xab\xcd\x01\x02\x03\x04\xfe\xdc\xba\x98",
        &plain,
        b"\x06\x01\x00\x00\x01\x02\x03\x04\xfe\xdc\xba\x98",
    );
}

/// Parses an IP authentication header with both parsers (slice and owned header), and asserts that both return a header
/// of the given length in bytes, or both the given error.
fn reads(rt: &impl Abort, bytes: &[u8], shown: &Result<usize, HeaderSliceError>) {
    let slice = IpAuthHeaderSlice::from_slice(bytes).map(|slice| slice.header_len());
    same(rt, &slice, shown);
    let header = IpAuthHeader::from_slice(bytes).map(|(header, _)| header.header_len());
    same(rt, &header, shown);
}

#[test]
fn lengths_in_the_length_field(rt: HostRuntime) {
    let mut bytes = [0; 16];
    for (field, len, shown) in [
        (0, 11, Err(too_short(12, 11))),
        (
            0,
            12,
            Err(HeaderSliceError::Content(HeaderError::ZeroPayloadLen)),
        ),
        (
            0,
            16,
            Err(HeaderSliceError::Content(HeaderError::ZeroPayloadLen)),
        ),
        (1, 16, Ok(12)),
        (2, 16, Ok(16)),
        (3, 16, Err(too_short(20, 16))),
        (255, 16, Err(too_short(1028, 16))),
    ] {
        bytes[1] = field;
        assert!(rt; len <= 16);
        reads(&rt, &bytes[..len], &shown);
    }
}

#[test]
fn lengths_of_check_values(rt: HostRuntime) {
    let bytes = [0xab; 1021];
    for (len, error, text) in [
        (3, IcvLenError::Unaligned(3), "Unaligned 3"),
        (1015, IcvLenError::Unaligned(1015), "Unaligned 1015"),
        (1017, IcvLenError::TooBig(1017), "TooBig 1017"),
        (1020, IcvLenError::TooBig(1020), "TooBig 1020"),
    ] {
        assert!(rt; len <= 1021);
        shows(&rt, rt.alloc(), &error, text);
        let refused = IpAuthHeader::new(IpNumber::UDP, 1, 2, &bytes[..len]).err();
        same(&rt, &refused, &Some(error));
    }
}

/// Asserts that an IP authentication header with an integrity check value of `len` bytes is written with the payload
/// length field `field`.
fn writes_len(rt: &impl Abort, alloc: Global, len: usize, field: u8) {
    const ICV: &[u8] = &[0xab; 1016];
    let icv = ICV.get(..len).expect(rt, "too long");
    let fixed_fields = [17, field, 0, 0, 0, 0, 0, 1, 0, 0, 0, 2];
    let mut bytes = Vec::from_array(alloc, fixed_fields).expect(rt, "no memory");
    bytes.extend_from_slice(icv).expect(rt, "no memory");
    let header = IpAuthHeader::new(IpNumber::UDP, 1, 2, icv).expect(rt, "refused");
    writes(rt, alloc, &header, &bytes);
}

#[test]
fn writes_each_length(rt: HostRuntime) {
    writes_len(&rt, rt.alloc(), 0, 1);
    writes_len(&rt, rt.alloc(), 4, 2);
    writes_len(&rt, rt.alloc(), 1012, 254);
    writes_len(&rt, rt.alloc(), 1016, 255);
}

#[test]
fn equality_sees_the_used_bytes_alone(rt: HostRuntime) {
    let short = IpAuthHeader::new(IpNumber::TCP, 1, 2, &[9; 4]).expect(&rt, "refused");
    let zeros = IpAuthHeader::new(IpNumber::TCP, 1, 2, &[9, 9, 9, 9, 0, 0, 0, 0]).expect(
        &rt, "refused",
    );
    assert!(rt; zeros != short);
    let (read, _) = IpAuthHeader::from_slice(
        b"\x06\x02\0\0\0\0\0\x01\0\0\0\x02\x09\x09\x09\x09\x08\x08\x08\x08",
    ).expect(&rt, "refused");
    same(&rt, &read, &short);
}
