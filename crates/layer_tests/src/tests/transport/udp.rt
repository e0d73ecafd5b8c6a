//! Tests of UDP headers and datagrams, and of their checksums.

use crate::tests::checks::{full, is_written, same};
use ep_transport::{Layer, LenError, LenSource, UdpHeader, UdpSlice, ValueTooBigError, ValueType};

/// A UDP datagram from port 21 to port 1234 with the payload bytes 1 to 8, and the checksum for 192.168.1.1 to
/// 192.168.1.2.
const DATAGRAM: &[u8] = b"\x00\x15\x04\xd2\x00\x10\x67\x7f\x01\x02\x03\x04\x05\x06\x07\x08";

/// Returns the UDP header of the constant `DATAGRAM`: ports 21 and 1234, length 16.
fn header() -> UdpHeader {
    UdpHeader {
        source_port: 21,
        destination_port: 1234,
        length: 16,
        checksum: 0x677f,
    }
}

#[test]
fn reads_and_writes(rt: HostRuntime) {
    let expected = Ok((header(), &DATAGRAM[8..]));
    same(&rt, &UdpHeader::from_slice(DATAGRAM), &expected);
    let datagram = UdpSlice::from_slice(DATAGRAM).expect(&rt, "refused");
    same(&rt, &datagram.to_header(), &header());
    same(&rt, &datagram.payload(), &&DATAGRAM[8..]);
    let mut buf = full(&rt, rt.alloc());
    let written = header().write(&mut buf).is_ok();
    is_written(&rt, written, &buf, &DATAGRAM[..8]);
}

/// Returns the length in bytes of the UDP datagram that is parsed from `len` bytes with the length field `length`, or
/// the error.
fn shown_len(length: u16, len: usize) -> Result<usize, LenError> {
    let [l0, l1] = u16::to_be_bytes(length);
    let bytes = [
        0, 21, 4, 210, l0, l1, 0x67, 0x7f, 1, 2, 3, 4, 5, 6, 7, 8, 0, 0,
    ];
    UdpSlice::from_slice(bytes.get(..len).unwrap_or(b"")).map(|datagram| datagram.slice().len())
}

#[test]
fn lengths(rt: HostRuntime) {
    let header = |required_len, len, source| {
        Err(LenError::at_start(required_len, len, source, Layer::UdpHeader))
    };
    let payload = |required_len, len| {
        Err(LenError::at_start(required_len, len, LenSource::Slice, Layer::UdpPayload))
    };
    for (length, len, shown) in [
        (0, 18, Ok(18)),
        (0, 8, Ok(8)),
        (0, 7, header(8, 7, LenSource::Slice)),
        (7, 18, header(8, 7, LenSource::UdpHeaderLen)),
        (8, 8, Ok(8)),
        (8, 18, Ok(8)),
        (12, 8, payload(12, 8)),
        (16, 16, Ok(16)),
        (16, 18, Ok(16)),
        (19, 18, payload(19, 18)),
        (0x1000, 18, payload(4096, 18)),
    ] {
        same(&rt, &shown_len(length, len), &shown);
    }
}

#[test]
fn checksums(rt: HostRuntime) {
    // the second checksum is computed as 0, and written as 65535
    for (length, payload, checksum) in [
        (16, &DATAGRAM[8..], 0x677f),
        (10, b"\x77\x9f".as_slice(), 0xffff),
    ] {
        let header = UdpHeader { length, ..header() };
        let sum = header.calc_checksum_ipv4_raw([192, 168, 1, 1], [192, 168, 1, 2], payload);
        same(&rt, &sum, &Ok(checksum));
    }
}

#[test]
fn too_long_to_sum(rt: HostRuntime) {
    let long = [0; 65528];
    let refused = header().calc_checksum_ipv4_raw([192, 168, 1, 1], [192, 168, 1, 2], &long);
    let too_long = ValueTooBigError {
        actual: 65528,
        max_allowed: 65527,
        value_type: ValueType::UdpPayloadLengthIpv4,
    };
    same(&rt, &refused, &Err(too_long));
    let sum = header().calc_checksum_ipv4_raw([192, 168, 1, 1], [192, 168, 1, 2], &long[1..]);
    same(&rt, &sum.is_ok(), &true);
    let sum = header().calc_checksum_ipv6_raw([1; 16], [2; 16], &long);
    same(&rt, &sum.is_ok(), &true);
}
