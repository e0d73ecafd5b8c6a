//! Tests of TCP headers and segments, and of their checksums.

use crate::tests::checks::{full, is_written, same};
use ep_ip::{Ipv4Header, Ipv6Header};
use ep_transport::tcp::{HeaderError, HeaderSliceError};
use ep_transport::{
    Layer, LenError, LenSource, TcpHeader, TcpSlice, TransportHeader, ValueTooBigError, ValueType,
};
use std::alloc::Global;
use std::process::Abort;

/// A TCP segment with all flags set and the payload bytes 1 to 9. Its options are four no-operations, timestamps and
/// the end of options.
const SEGMENT: &[u8] =
    b"\x00\x45\x00\x2a\x24\x90\x04\x48\x00\x00\x00\x00\x91\xff\x36\x53\x00\x00\xe2\x6e\x01\x01\x01\x01\x08\x0a\x04\x16\x10\x08\x84\x16\x17\x08\x00\x00\x01\x02\x03\x04\x05\x06\x07\x08\x09";

/// A TCP header without options: ports 21 and 12, sequence number 12345, window 4000. Its checksum is for the payload
/// bytes 1 to 8, sent from 192.168.1.1 to 192.168.1.2.
const PLAIN: &[u8] =
    b"\x00\x15\x00\x0c\x00\x00\x30\x39\x00\x00\x00\x00\x50\x00\x0f\xa0\xdc\x7a\x00\x00";

fn plain_header() -> TcpHeader {
    TcpHeader {
        checksum: 0xdc7a,
        ..TcpHeader::new(21, 12, 12345, 4000)
    }
}

/// Returns the TCP header of the constant `SEGMENT`, with all flags set, 16 bytes of options and checksum 0.
fn segment_header(rt: &impl Abort) -> TcpHeader {
    let mut header = TcpHeader {
        source_port: 69,
        destination_port: 42,
        sequence_number: 0x2490_0448,
        ns: true,
        fin: true,
        syn: true,
        rst: true,
        psh: true,
        ack: true,
        urg: true,
        ece: true,
        cwr: true,
        window_size: 0x3653,
        urgent_pointer: 0xe26e,
        ..Default::default()
    };
    header
        .set_options_raw(b"\x01\x01\x01\x01\x08\x0a\x04\x16\x10\x08\x84\x16\x17\x08\x00\x00")
        .expect(rt, "refused");
    header
}

/// Parses a TCP segment with both parsers (slice and owned header). Asserts that both return the given header and the
/// payload, and the first one the options, and that the header is written as the bytes `written`.
fn reads_and_writes(
    rt: &impl Abort,
    alloc: Global,
    bytes: &[u8],
    header: &TcpHeader,
    (written, options, payload): (&[u8], &[u8], &[u8]),
) {
    let (read, rest) = TcpHeader::from_slice(bytes).expect(rt, "refused");
    same(rt, &(&read, rest), &(header, payload));
    let segment = TcpSlice::from_slice(bytes).expect(rt, "refused");
    same(rt, &segment.to_header(), header);
    let parts = (segment.options_iterator().rest(), segment.payload());
    same(rt, &parts, &(options, payload));
    let mut buf = full(rt, alloc);
    let is_ok = header.write(&mut buf).is_ok();
    is_written(rt, is_ok, &buf, written);
}

#[test]
fn segments(rt: HostRuntime) {
    let plain = plain_header();
    reads_and_writes(&rt, rt.alloc(), PLAIN, &plain, (PLAIN, b"", b""));
    let parts = (&SEGMENT[..36], &SEGMENT[20..36], &SEGMENT[36..]);
    let with_options = segment_header(&rt);
    reads_and_writes(&rt, rt.alloc(), SEGMENT, &with_options, parts);
}

/// Returns the longest TCP header, 60 bytes, with 40 bytes of options.
fn greatest_header(rt: &impl Abort) -> TcpHeader {
    let mut header = plain_header();
    header.set_options_raw(&[1; 40]).expect(rt, "refused");
    header
}

#[test]
fn writes_the_greatest(rt: HostRuntime) {
    let mut bytes = [1; 60];
    bytes[..20].copy_from_slice(PLAIN);
    bytes[12] = 0xf0;
    let header = greatest_header(&rt);
    let mut buf = full(&rt, rt.alloc());
    let written = header.write(&mut buf).is_ok();
    is_written(&rt, written, &buf, &bytes);
    let mut buf = full(&rt, rt.alloc());
    let written = TransportHeader::Tcp(header).write(&mut buf).is_ok();
    is_written(&rt, written, &buf, &bytes);
}

/// Returns the length of the TCP header that is parsed from `len` bytes, all zero but for the data offset (byte 12,
/// which is `byte`), or the error.
fn header_len(byte: u8, len: usize) -> Result<usize, HeaderSliceError> {
    let mut bytes = [0; 28];
    bytes[12] = byte;
    let read = TcpSlice::from_slice(bytes.get(..len).unwrap_or(b""));
    read.map(|segment| segment.header_len())
}

#[test]
fn refusals(rt: HostRuntime) {
    let short = |required_len, len| {
        let error = LenError::at_start(required_len, len, LenSource::Slice, Layer::TcpHeader);
        Err(HeaderSliceError::Len(error))
    };
    let too_small = HeaderError::DataOffsetTooSmall { data_offset: 4 };
    for (byte, len, shown) in [
        (0x50, 19, short(20, 19)),
        (0x50, 20, Ok(20)),
        (0x70, 28, Ok(28)),
        (0x4f, 28, Err(HeaderSliceError::Content(too_small))),
        (0xf0, 28, short(60, 28)),
        (0x60, 23, short(24, 23)),
    ] {
        same(&rt, &header_len(byte, len), &shown);
    }
}

/// Asserts the checksum of a TCP segment between two IPv4 addresses, computed both by its slice and by its owned
/// header.
fn sums_ipv4(rt: &impl Abort, bytes: &[u8], source: [u8; 4], destination: [u8; 4], checksum: u16) {
    let segment = TcpSlice::from_slice(bytes).expect(rt, "refused");
    same(
        rt,
        &segment.calc_checksum_ipv4(source, destination),
        &Ok(checksum),
    );
    let ip_header = Ipv4Header {
        source,
        destination,
        ..Default::default()
    };
    let header = segment.to_header();
    same(
        rt,
        &header.calc_checksum_ipv4(&ip_header, segment.payload()),
        &Ok(checksum),
    );
}

#[test]
fn checksums_over_ipv4(rt: HostRuntime) {
    // a checksum of 0 stays 0, unlike in UDP
    let zero =
        b"\x00\x00\x00\x00\x00\x00\x9f\xc9\x00\x00\x00\x00\x50\x00\x00\x00\x00\x00\x00\x00\x01\x02\x03\x04\x05\x06\x07\x08";
    sums_ipv4(&rt, zero, [0; 4], [0; 4], 0);
    sums_ipv4(
        &rt,
        &SEGMENT[..44],
        [192, 168, 1, 42],
        [192, 168, 1, 1],
        0xdeeb,
    );
    sums_ipv4(&rt, SEGMENT, [192, 168, 1, 42], [192, 168, 1, 1], 0xd5ea);
}

#[test]
fn checksums_over_ipv6(rt: HostRuntime) {
    let mut bytes = [0; 44];
    bytes[..36].copy_from_slice(&SEGMENT[..36]);
    bytes[36..].copy_from_slice(&[51, 52, 53, 54, 55, 56, 57, 58]);
    let ip_header = Ipv6Header {
        source: [1, 2, 3, 4, 5, 6, 7, 8, 9, 10, 11, 12, 13, 14, 15, 16],
        destination: [
            21, 22, 23, 24, 25, 26, 27, 28, 29, 30, 31, 32, 33, 34, 35, 36,
        ],
        ..Default::default()
    };
    let segment = TcpSlice::from_slice(&bytes).expect(&rt, "refused");
    let sum = segment.calc_checksum_ipv6(ip_header.source, ip_header.destination);
    same(&rt, &sum, &Ok(0x786e));
    let sum = segment
        .to_header()
        .calc_checksum_ipv6(&ip_header, segment.payload());
    same(&rt, &sum, &Ok(0x786e));
}

/// Returns the error of a TCP checksum over IPv4 that is computed for too many bytes: `actual`, above the maximum
/// `max_allowed`.
fn too_long(actual: usize, max_allowed: usize) -> ValueTooBigError<usize> {
    ValueTooBigError {
        actual,
        max_allowed,
        value_type: ValueType::TcpPayloadLengthIpv4,
    }
}

#[test]
fn segment_too_long_to_sum(rt: HostRuntime) {
    let long = [0x50; 65536];
    let segment = TcpSlice::from_slice(&long).expect(&rt, "refused");
    let refused = segment.calc_checksum_ipv4([0; 4], [0; 4]);
    same(&rt, &refused, &Err(too_long(65536, 65535)));
    same(
        &rt,
        &segment.calc_checksum_ipv6([0; 16], [0; 16]).is_ok(),
        &true,
    );
    let segment = TcpSlice::from_slice(&long[1..]).expect(&rt, "refused");
    same(
        &rt,
        &segment.calc_checksum_ipv4([0; 4], [0; 4]).is_ok(),
        &true,
    );
}

/// Tests the checksum of a header and a payload, and a payload that is too long.
#[test]
fn checksums_of_parts(rt: HostRuntime) {
    let payload = b"\x01\x02\x03\x04\x05\x06\x07\x08";
    let sum = plain_header().calc_checksum_ipv4_raw([192, 168, 1, 1], [192, 168, 1, 2], payload);
    same(&rt, &sum, &Ok(0xdc7a));
    let long = [0x50; 65516];
    let refused = plain_header().calc_checksum_ipv4_raw([0; 4], [0; 4], &long);
    same(&rt, &refused, &Err(too_long(65516, 65515)));
}
