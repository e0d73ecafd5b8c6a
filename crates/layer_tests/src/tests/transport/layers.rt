//! Tests of the types for any transport layer: `TransportHeader` and `TransportSlice` (UDP, TCP, ICMPv4 or ICMPv6).

use crate::tests::checks::{full, is_written, same, shows};
use ep_ip::{Ipv4Header, Ipv6Header};
use ep_transport::{
    IcmpEchoHeader, Icmpv4Header, Icmpv4Type, Icmpv6Header, Icmpv6Type, IpNumber, Layer, LenError,
    LenSource, TcpHeader, TransportChecksumError, TransportHeader, TransportSlice, UdpHeader,
    ValueTooBigError, ValueType, tcp,
};
use std::alloc::Global;
use std::process::Abort;

const PAYLOAD: &[u8] = b"\x01\x02\x03\x04\x05\x06\x07\x08";

/// A UDP datagram from port 21 to port 1234 with the payload bytes 1 to 8. The constants `SEGMENT` (TCP), `ECHO`
/// (ICMPv4 echo request) and `ECHO_IPV6` (ICMPv6 echo request) have the same payload.
const DATAGRAM: &[u8] = b"\x00\x15\x04\xd2\x00\x10\x67\x7f\x01\x02\x03\x04\x05\x06\x07\x08";

const SEGMENT: &[u8] =
    b"\x00\x15\x00\x0c\x00\x00\x30\x39\x00\x00\x00\x00\x50\x00\x0f\xa0\xdc\x7a\x00\x00\x01\x02\x03\x04\x05\x06\x07\x08";

const ECHO: &[u8] = b"\x08\x00\xe7\xe8\x00\x01\x00\x02\x01\x02\x03\x04\x05\x06\x07\x08";

const ECHO_IPV6: &[u8] = b"\x80\x00\x4e\x6d\x00\x01\x00\x02\x01\x02\x03\x04\x05\x06\x07\x08";

fn udp() -> TransportHeader {
    TransportHeader::Udp(UdpHeader {
        source_port: 21,
        destination_port: 1234,
        length: 16,
        checksum: 0,
    })
}

fn tcp() -> TransportHeader {
    TransportHeader::Tcp(TcpHeader::new(21, 12, 12345, 4000))
}

fn icmpv4() -> TransportHeader {
    let echo = IcmpEchoHeader { id: 1, seq: 2 };
    TransportHeader::Icmpv4(Icmpv4Header::new(Icmpv4Type::EchoRequest(echo)))
}

fn icmpv6() -> TransportHeader {
    let echo = IcmpEchoHeader { id: 1, seq: 2 };
    TransportHeader::Icmpv6(Icmpv6Header::new(Icmpv6Type::EchoRequest(echo)))
}

/// Returns the checksum field of a transport header (UDP, TCP, ICMPv4 or ICMPv6).
fn checksum_of(header: TransportHeader) -> u16 {
    match header {
        TransportHeader::Udp(header) => header.checksum,
        TransportHeader::Tcp(header) => header.checksum,
        TransportHeader::Icmpv4(header) => header.checksum,
        TransportHeader::Icmpv6(header) => header.checksum,
    }
}

/// Returns an IPv4 header from 192.168.1.1 to 192.168.1.2, whose addresses the checksums include.
fn ipv4() -> Ipv4Header {
    Ipv4Header {
        source: [192, 168, 1, 1],
        destination: [192, 168, 1, 2],
        ..Default::default()
    }
}

/// Returns an IPv6 header from the address of the bytes 1 to 16 to the address of the bytes 21 to 36, which the
/// checksums include.
fn ipv6() -> Ipv6Header {
    Ipv6Header {
        source: [1, 2, 3, 4, 5, 6, 7, 8, 9, 10, 11, 12, 13, 14, 15, 16],
        destination: [
            21, 22, 23, 24, 25, 26, 27, 28, 29, 30, 31, 32, 33, 34, 35, 36,
        ],
        ..Default::default()
    }
}

/// Parses a transport layer by its IP protocol number, with both parsers (slice and owned header). Asserts that both
/// return the payload bytes 1 to 8, and that the header is written as `header_bytes`.
fn reads(rt: &impl Abort, alloc: Global, number: u8, bytes: &[u8], header_bytes: &[u8]) {
    let shown = TransportSlice::from_ip_number(IpNumber(number), false, bytes);
    let layer = shown.expect(rt, "refused").expect(rt, "no layer");
    same(rt, &(layer.slice(), layer.payload()), &(bytes, PAYLOAD));
    let read = TransportHeader::from_ip_number(IpNumber(number), false, bytes);
    let (header, payload) = read.expect(rt, "refused").expect(rt, "no layer");
    same(rt, &payload, &PAYLOAD);
    let mut buf = full(rt, alloc);
    let written = header.write(&mut buf).is_ok();
    is_written(rt, written, &buf, header_bytes);
}

#[test]
fn by_protocol_number(rt: HostRuntime) {
    reads(&rt, rt.alloc(), 1, ECHO, &ECHO[..8]);
    reads(&rt, rt.alloc(), 6, SEGMENT, &SEGMENT[..20]);
    reads(&rt, rt.alloc(), 17, DATAGRAM, &DATAGRAM[..8]);
    reads(&rt, rt.alloc(), 58, ECHO_IPV6, &ECHO_IPV6[..8]);
}

#[test]
fn no_layer(rt: HostRuntime) {
    for (number, fragmented, bytes) in [
        (1, true, ECHO),
        (6, true, SEGMENT),
        (17, true, DATAGRAM),
        (58, true, ECHO_IPV6),
        (0, false, DATAGRAM),
        (59, false, DATAGRAM),
        (255, true, b"".as_slice()),
    ] {
        let shown = TransportSlice::from_ip_number(IpNumber(number), fragmented, bytes);
        same(&rt, &shown, &Ok(None));
        let read = TransportHeader::from_ip_number(IpNumber(number), fragmented, bytes);
        same(&rt, &read, &Ok(None));
    }
}

/// Asserts that `TransportSlice` rejects the bytes after this IP protocol number with the given error.
/// `TransportHeader` has to accept them if `header_reads` is true, and to return the same error otherwise.
fn refuses(rt: &impl Abort, number: u8, bytes: &[u8], error: LenError, header_reads: bool) {
    let error = Some(tcp::HeaderSliceError::Len(error));
    let shown = TransportSlice::from_ip_number(IpNumber(number), false, bytes);
    same(rt, &shown.err(), &error);
    let read = TransportHeader::from_ip_number(IpNumber(number), false, bytes);
    let error = if header_reads { None } else { error };
    same(rt, &read.err(), &error);
}

#[test]
fn refusals(rt: HostRuntime) {
    let short = |required_len, len, layer| {
        LenError::at_start(required_len, len, LenSource::Slice, layer)
    };
    refuses(&rt, 1, &DATAGRAM[..7], short(8, 7, Layer::Icmpv4), false);
    refuses(&rt, 6, DATAGRAM, short(20, 16, Layer::TcpHeader), false);
    refuses(
        &rt,
        17,
        &DATAGRAM[..7],
        short(8, 7, Layer::UdpHeader),
        false,
    );
    refuses(&rt, 58, &DATAGRAM[..7], short(8, 7, Layer::Icmpv6), false);
    // `TransportHeader` does not limit the payload by the UDP length field
    let long = b"\x00\x15\x04\xd2\x00\x11\x67\x7f\x01\x02\x03\x04\x05\x06\x07\x08";
    refuses(&rt, 17, long, short(17, 16, Layer::UdpPayload), true);
}

#[test]
fn lent_headers(rt: HostRuntime) {
    let mut header = udp();
    header.mut_udp().expect(&rt, "none").source_port = 22;
    same(&rt, &header.mut_tcp().is_none(), &true);
    same(&rt, &header.mut_icmpv4().is_none(), &true);
    same(&rt, &header.mut_icmpv6().is_none(), &true);
    same(&rt, &header.udp().map(|udp| udp.source_port), &Some(22));
    let mut header = tcp();
    header.mut_tcp().expect(&rt, "none").window_size = 1;
    same(&rt, &header.mut_udp().is_none(), &true);
    same(&rt, &header.tcp().map(|tcp| tcp.window_size), &Some(1));
    let mut header = icmpv4();
    header.mut_icmpv4().expect(&rt, "none").checksum = 2;
    same(
        &rt,
        &header.icmpv4().map(|icmpv4| icmpv4.checksum),
        &Some(2),
    );
    let mut header = icmpv6();
    header.mut_icmpv6().expect(&rt, "none").checksum = 3;
    same(
        &rt,
        &header.icmpv6().map(|icmpv6| icmpv6.checksum),
        &Some(3),
    );
}

/// Asserts the checksum that is computed for a transport header after an IPv4 header from 192.168.1.1 to 192.168.1.2,
/// with the payload bytes 1 to 8.
fn sums_ipv4(rt: &impl Abort, mut header: TransportHeader, checksum: u16) {
    same(rt, &header.update_checksum_ipv4(&ipv4(), PAYLOAD), &Ok(()));
    same(rt, &checksum_of(header), &checksum);
}

fn sums_ipv6(rt: &impl Abort, mut header: TransportHeader, checksum: u16) {
    same(rt, &header.update_checksum_ipv6(&ipv6(), PAYLOAD), &Ok(()));
    same(rt, &checksum_of(header), &checksum);
}

#[test]
fn checksums(rt: HostRuntime) {
    sums_ipv4(&rt, udp(), 0x677f);
    sums_ipv6(&rt, udp(), 0xc9a2);
    sums_ipv4(&rt, tcp(), 0xdc7a);
    sums_ipv4(&rt, icmpv4(), 0xe7e8);
    sums_ipv6(&rt, icmpv4(), 0xe7e8);
    sums_ipv6(&rt, icmpv6(), 0x4e6d);
}

#[test]
fn too_long_to_sum(rt: HostRuntime) {
    let long = [0; 65528];
    let mut header = udp();
    let too_long = TransportChecksumError::PayloadLen(ValueTooBigError {
        actual: 65528,
        max_allowed: 65527,
        value_type: ValueType::UdpPayloadLengthIpv4,
    });
    let text = "UdpPayloadLengthIpv4: 65528 is above 65527";
    shows(&rt, rt.alloc(), &too_long, text);
    same(
        &rt,
        &header.update_checksum_ipv4(&ipv4(), &long),
        &Err(too_long),
    );
    same(&rt, &header, &udp());
    same(&rt, &header.update_checksum_ipv6(&ipv6(), &long), &Ok(()));
}

#[test]
fn icmpv6_over_ipv4(rt: HostRuntime) {
    let error = TransportChecksumError::Icmpv6InIpv4;
    let text =
        "Error: ICMPv6 can not be combined with an IPv4 headers (checksum can not be calculated).";
    shows(&rt, rt.alloc(), &error, text);
    let mut header = icmpv6();
    same(
        &rt,
        &header.update_checksum_ipv4(&ipv4(), PAYLOAD),
        &Err(error),
    );
    same(&rt, &header, &icmpv6());
}
