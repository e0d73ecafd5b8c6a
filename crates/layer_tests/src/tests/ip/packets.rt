//! Tests of IPv4 and IPv6 packets as slices, with their extension headers and error texts.

use crate::tests::checks::{refuses, same};
use ep_ip::{
    IpNumber, IpPayloadSlice, IpSlice, Ipv4Slice, Ipv6ExtensionsSlice, Ipv6Slice, LenSource,
};
use std::alloc::Global;
use std::process::Abort;

/// An IPv6 packet with payload length 0, no next header (59), and 4 bytes (RFC 8200, 4.7).
const OPEN_LENGTH: &[u8] =
    b"\x60\x00\x00\x00\x00\x00\x3b\x40\x00\x00\x00\x00\x00\x00\x00\x00\x00\x00\x00\x00\x00\x00\x00\x00\x00\x00\x00\x00\x00\x00\x00\x00\x00\x00\x00\x00\x00\x00\x00\x00\x01\x02\x03\x04";

/// An IPv6 packet with two fragment headers (RFC 8200, 4.5), the second one with the M flag, and 8 bytes.
const FRAGMENTED: &[u8] =
    b"\x60\x00\x00\x00\x00\x18\x2c\x40\x00\x00\x00\x00\x00\x00\x00\x00\x00\x00\x00\x00\x00\x00\x00\x00\x00\x00\x00\x00\x00\x00\x00\x00\x00\x00\x00\x00\x00\x00\x00\x00\x2c\x00\x00\x00\x00\x00\x00\x01\x11\x00\x00\x01\x00\x00\x00\x02\x00\x01\x02\x03\x04\x05\x06\x07";

/// Asserts the texts of the errors that the slices `IpSlice` (either version), `Ipv4Slice` and `Ipv6Slice` return for
/// bytes that are no IP packet.
fn refuses_all(rt: &impl Abort, alloc: Global, bytes: &[u8], open: &str, ipv4: &str, ipv6: &str) {
    refuses(rt, alloc, IpSlice::from_slice(bytes).err(), open);
    refuses(rt, alloc, Ipv4Slice::from_slice(bytes).err(), ipv4);
    refuses(rt, alloc, Ipv6Slice::from_slice(bytes).err(), ipv6);
}

fn refuses_ipv4(rt: &impl Abort, alloc: Global, bytes: &[u8], open: &str, single: &str) {
    refuses(rt, alloc, IpSlice::from_slice(bytes).err(), open);
    refuses(rt, alloc, Ipv4Slice::from_slice(bytes).err(), single);
}

fn refuses_ipv6(rt: &impl Abort, alloc: Global, bytes: &[u8], text: &str) {
    refuses(rt, alloc, IpSlice::from_slice(bytes).err(), text);
    refuses(rt, alloc, Ipv6Slice::from_slice(bytes).err(), text);
}

/// Tests that bytes which are neither IPv4 nor IPv6 are rejected: no bytes, and version 5.
#[test]
fn refusals_of_neither_version(rt: HostRuntime) {
    refuses_all(
        &rt,
        rt.alloc(),
        b"",
        "IpHeader: 1 bytes needed, 0 there (limit Slice, offset 0)",
        "Ipv4Header: 20 bytes needed, 0 there (limit Slice, offset 0)",
        "Ipv6Header: 40 bytes needed, 0 there (limit Slice, offset 0)",
    );
    refuses_all(
        &rt,
        rt.alloc(),
        b"\x50",
        "UnsupportedIpVersion 5",
        "Ipv4Header: 20 bytes needed, 1 there (limit Slice, offset 0)",
        "Ipv6Header: 40 bytes needed, 1 there (limit Slice, offset 0)",
    );
    refuses_all(
        &rt,
        rt.alloc(),
        b"\x50\x00\x00\x00\x00\x00\x00\x00\x00\x00\x00\x00\x00\x00\x00\x00\x00\x00\x00\x00\x00\x00\x00\x00\x00\x00\x00\x00\x00\x00\x00\x00\x00\x00\x00\x00\x00\x00\x00\x00",
        "UnsupportedIpVersion 5",
        "UnexpectedVersion 5",
        "UnexpectedVersion 5",
    );
}

/// Tests that IPv4 headers which are truncated or have an IHL below 5 are rejected.
#[test]
fn ipv4_header_refusals(rt: HostRuntime) {
    refuses_ipv4(
        &rt,
        rt.alloc(),
        b"\x45",
        "Ipv4Header: 20 bytes needed, 1 there (limit Slice, offset 0)",
        "Ipv4Header: 20 bytes needed, 1 there (limit Slice, offset 0)",
    );
    refuses_ipv4(
        &rt,
        rt.alloc(),
        b"\x41\x00\x00\x00\x00\x00\x00\x00\x00\x00\x00\x00\x00\x00\x00\x00\x00\x00\x00",
        "Ipv4Header: 20 bytes needed, 19 there (limit Slice, offset 0)",
        "Ipv4Header: 20 bytes needed, 19 there (limit Slice, offset 0)",
    );
    refuses_ipv4(
        &rt,
        rt.alloc(),
        b"\x44\x00\x00\x00\x00\x00\x00\x00\x00\x00\x00\x00\x00\x00\x00\x00\x00\x00\x00\x00",
        "Ipv4HeaderLengthSmallerThanHeader 4",
        "HeaderLengthSmallerThanHeader 4",
    );
    refuses_ipv4(
        &rt,
        rt.alloc(),
        b"\x46\x00\x00\x14\x00\x00\x00\x00\x00\x00\x00\x00\x00\x00\x00\x00\x00\x00\x00\x00",
        "Ipv4Header: 24 bytes needed, 20 there (limit Slice, offset 0)",
        "Ipv4Header: 24 bytes needed, 20 there (limit Slice, offset 0)",
    );
}

/// Tests that IPv4 packets with an invalid total length, or with an invalid or truncated authentication header, are
/// rejected.
#[test]
fn ipv4_packet_refusals(rt: HostRuntime) {
    refuses_ipv4(
        &rt,
        rt.alloc(),
        b"\x45\x00\x00\x13\x00\x00\x00\x00\x00\x00\x00\x00\x00\x00\x00\x00\x00\x00\x00\x00",
        "Ipv4Packet: 20 bytes needed, 19 there (limit Ipv4HeaderTotalLen, offset 0)",
        "Ipv4Packet: 20 bytes needed, 19 there (limit Ipv4HeaderTotalLen, offset 0)",
    );
    refuses_ipv4(
        &rt,
        rt.alloc(),
        b"\x45\x00\x00\x15\x00\x00\x00\x00\x00\x00\x00\x00\x00\x00\x00\x00\x00\x00\x00\x00",
        "Ipv4Packet: 21 bytes needed, 20 there (limit Slice, offset 0)",
        "Ipv4Packet: 21 bytes needed, 20 there (limit Slice, offset 0)",
    );
    refuses_ipv4(
        &rt,
        rt.alloc(),
        b"\x45\x00\x00\x1c\x00\x00\x00\x01\x40\x33\x00\x00\xc0\xa8\x01\x01\xc0\xa8\x01\x02\x01\x02\x03\x04\x05\x06\x07\x08",
        "IpAuthHeader: 12 bytes needed, 8 there (limit Ipv4HeaderTotalLen, offset 20)",
        "IpAuthHeader: 12 bytes needed, 8 there (limit Ipv4HeaderTotalLen, offset 20)",
    );
    refuses_ipv4(
        &rt,
        rt.alloc(),
        b"\x45\x00\x00\x20\x00\x00\x00\x00\x40\x33\x00\x00\xc0\xa8\x01\x01\xc0\xa8\x01\x02\x11\x00\x00\x00\x00\x00\x00\x00\x00\x00\x00\x00",
        "ZeroPayloadLen",
        "ZeroPayloadLen",
    );
    refuses_ipv4(
        &rt,
        rt.alloc(),
        b"\x46\x00\x00\x24\x00\x00\x00\x00\x40\x33\x00\x00\xc0\xa8\x01\x01\xc0\xa8\x01\x02\x94\x04\x00\x00\x11\x02\x00\x00\x00\x00\x00\x00\x00\x00\x00\x00",
        "IpAuthHeader: 16 bytes needed, 12 there (limit Ipv4HeaderTotalLen, offset 24)",
        "IpAuthHeader: 16 bytes needed, 12 there (limit Ipv4HeaderTotalLen, offset 24)",
    );
}

/// Tests that truncated IPv6 packets are rejected: fewer than 40 bytes, or fewer than the payload length requires.
#[test]
fn ipv6_packet_refusals(rt: HostRuntime) {
    refuses_ipv6(
        &rt,
        rt.alloc(),
        b"\x60",
        "Ipv6Header: 40 bytes needed, 1 there (limit Slice, offset 0)",
    );
    refuses_ipv6(
        &rt,
        rt.alloc(),
        b"\x60\x00\x00\x00\x00\x18\x2c\x40\x00\x00\x00\x00\x00\x00\x00\x00\x00\x00\x00\x00\x00\x00\x00\x00\x00\x00\x00\x00\x00\x00\x00\x00\x00\x00\x00\x00\x00\x00\x00",
        "Ipv6Header: 40 bytes needed, 39 there (limit Slice, offset 0)",
    );
    refuses_ipv6(
        &rt,
        rt.alloc(),
        b"\x60\x00\x00\x00\x00\x18\x2c\x40\x00\x00\x00\x00\x00\x00\x00\x00\x00\x00\x00\x00\x00\x00\x00\x00\x00\x00\x00\x00\x00\x00\x00\x00\x00\x00\x00\x00\x00\x00\x00\x00",
        "Ipv6Packet: 64 bytes needed, 40 there (limit Slice, offset 0)",
    );
    refuses_ipv6(
        &rt,
        rt.alloc(),
        b"\x60\x00\x00\x00\x00\x18\x2c\x40\x00\x00\x00\x00\x00\x00\x00\x00\x00\x00\x00\x00\x00\x00\x00\x00\x00\x00\x00\x00\x00\x00\x00\x00\x00\x00\x00\x00\x00\x00\x00\x00\x2c\x00\x00\x00\x00\x00\x00\x01\x11\x00\x00\x01\x00\x00\x00\x02\x00\x01\x02\x03\x04\x05\x06",
        "Ipv6Packet: 64 bytes needed, 63 there (limit Slice, offset 0)",
    );
}

/// Tests that IPv6 packets with truncated or invalid extension headers are rejected.
#[test]
fn ipv6_extension_refusals(rt: HostRuntime) {
    refuses_ipv6(
        &rt,
        rt.alloc(),
        b"\x60\x00\x00\x00\x00\x00\x2c\x40\x00\x00\x00\x00\x00\x00\x00\x00\x00\x00\x00\x00\x00\x00\x00\x00\x00\x00\x00\x00\x00\x00\x00\x00\x00\x00\x00\x00\x00\x00\x00\x00",
        "Ipv6FragHeader: 8 bytes needed, 0 there (limit Ipv6HeaderPayloadLen, offset 40)",
    );
    refuses_ipv6(
        &rt,
        rt.alloc(),
        b"\x60\x00\x00\x00\x00\x00\x2c\x40\x00\x00\x00\x00\x00\x00\x00\x00\x00\x00\x00\x00\x00\x00\x00\x00\x00\x00\x00\x00\x00\x00\x00\x00\x00\x00\x00\x00\x00\x00\x00\x00\x11\x00\x00\x00",
        "Ipv6FragHeader: 8 bytes needed, 4 there (limit Slice, offset 40)",
    );
    refuses_ipv6(
        &rt,
        rt.alloc(),
        b"\x60\x00\x00\x00\x00\x04\x2c\x40\x00\x00\x00\x00\x00\x00\x00\x00\x00\x00\x00\x00\x00\x00\x00\x00\x00\x00\x00\x00\x00\x00\x00\x00\x00\x00\x00\x00\x00\x00\x00\x00\x11\x00\x00\x00",
        "Ipv6FragHeader: 8 bytes needed, 4 there (limit Ipv6HeaderPayloadLen, offset 40)",
    );
    refuses_ipv6(
        &rt,
        rt.alloc(),
        b"\x60\x00\x00\x00\x00\x0c\x3c\x40\x00\x00\x00\x00\x00\x00\x00\x00\x00\x00\x00\x00\x00\x00\x00\x00\x00\x00\x00\x00\x00\x00\x00\x00\x00\x00\x00\x00\x00\x00\x00\x00\x2c\x00\x00\x00\x00\x00\x00\x00\x11\x00\x00\x00",
        "Ipv6FragHeader: 8 bytes needed, 4 there (limit Ipv6HeaderPayloadLen, offset 48)",
    );
    refuses_ipv6(
        &rt,
        rt.alloc(),
        b"\x60\x00\x00\x00\x00\x10\x3c\x40\x00\x00\x00\x00\x00\x00\x00\x00\x00\x00\x00\x00\x00\x00\x00\x00\x00\x00\x00\x00\x00\x00\x00\x00\x00\x00\x00\x00\x00\x00\x00\x00\x00\x00\x00\x00\x00\x00\x00\x00\x11\x00\x00\x00\x00\x00\x00\x00",
        "HopByHopNotAtStart",
    );
    refuses_ipv6(
        &rt,
        rt.alloc(),
        b"\x60\x00\x00\x00\x00\x0c\x33\x40\x00\x00\x00\x00\x00\x00\x00\x00\x00\x00\x00\x00\x00\x00\x00\x00\x00\x00\x00\x00\x00\x00\x00\x00\x00\x00\x00\x00\x00\x00\x00\x00\x11\x00\x00\x00\x00\x00\x00\x00\x00\x00\x00\x00",
        "ZeroPayloadLen",
    );
}

/// Parses an IPv4 packet and asserts that it has a header of 20 bytes, the payload bytes 10 and 11 with this protocol
/// number, and an authentication header if `authenticated` is true. `IpSlice` and `Ipv4Slice` have to agree.
fn reads_ipv4(
    rt: &impl Abort,
    bytes: &[u8],
    ip_number: IpNumber,
    fragmented: bool,
    authenticated: bool,
) {
    let packet = Ipv4Slice::from_slice(bytes).expect(rt, "refused");
    let shown = (
        packet.header().slice().len(),
        packet.extensions().auth.is_some(),
    );
    same(rt, &shown, &(20, authenticated));
    let expected = IpPayloadSlice {
        ip_number,
        fragmented,
        len_source: LenSource::Ipv4HeaderTotalLen,
        payload: b"\x0a\x0b",
    };
    same(rt, packet.payload(), &expected);
    same(
        rt,
        &IpSlice::from_slice(bytes).expect(rt, "refused"),
        &IpSlice::Ipv4(packet),
    );
}

/// Tests IPv4 packets with the expected protocol number of their payload, whether the payload is a fragment, and
/// whether there is an authentication header.
#[test]
fn ipv4_packets(rt: HostRuntime) {
    for (bytes, number, fragmented, authenticated) in [
        (
            b"\x45\x00\x00\x16\x00\x00\x00\x00\x40\x11\x00\x00\xc0\xa8\x01\x01\xc0\xa8\x01\x02\x0a\x0b\x00\x00".as_slice(),
            IpNumber::UDP,
            false,
            false,
        ),
        (
            b"\x45\x00\x00\x22\x23\x45\x20\x00\x40\x33\x00\x00\xc0\xa8\x01\x01\xc0\xa8\x01\x02\x11\x01\x00\x00\x00\x00\x00\x05\x00\x00\x00\x06\x0a\x0b".as_slice(),
            IpNumber::UDP,
            true,
            true,
        ),
        (
            b"\x45\x00\x00\x22\x23\x45\x00\x01\x40\x33\x00\x00\xc0\xa8\x01\x01\xc0\xa8\x01\x02\x33\x01\x00\x00\x00\x00\x00\x05\x00\x00\x00\x06\x0a\x0b".as_slice(),
            IpNumber::AUTHENTICATION_HEADER,
            true,
            true,
        ),
    ] {
        reads_ipv4(&rt, bytes, number, fragmented, authenticated);
    }
}

/// Parses an IPv6 packet and asserts its payload and the length of its extension headers in bytes. `IpSlice` and
/// `Ipv6Slice` have to agree.
fn reads_ipv6(rt: &impl Abort, bytes: &[u8], expected: IpPayloadSlice, extensions_len: usize) {
    let packet = Ipv6Slice::from_slice(bytes).expect(rt, "refused");
    same(rt, &packet.extensions().slice().len(), &extensions_len);
    same(rt, packet.payload(), &expected);
    same(
        rt,
        &IpSlice::from_slice(bytes).expect(rt, "refused"),
        &IpSlice::Ipv6(packet),
    );
}

/// Tests IPv6 packets with the expected payload and length of the extension headers. For a payload, the protocol
/// number, whether it is a fragment, the source of its length, and its bytes are compared.
#[test]
fn ipv6_packets(rt: HostRuntime) {
    for (bytes, number, fragmented, source, payload, extensions_len) in [
        (
            b"\x60\x00\x00\x00\x00\x00\x3b\x40\x00\x00\x00\x00\x00\x00\x00\x00\x00\x00\x00\x00\x00\x00\x00\x00\x00\x00\x00\x00\x00\x00\x00\x00\x00\x00\x00\x00\x00\x00\x00\x00\x01\x02\x03\x04".as_slice(),
            IpNumber(59),
            false,
            LenSource::Slice,
            b"\x01\x02\x03\x04".as_slice(),
            0,
        ),
        (
            b"\x60\x00\x00\x00\x00\x00\x3b\x40\x00\x00\x00\x00\x00\x00\x00\x00\x00\x00\x00\x00\x00\x00\x00\x00\x00\x00\x00\x00\x00\x00\x00\x00\x00\x00\x00\x00\x00\x00\x00\x00".as_slice(),
            IpNumber(59),
            false,
            LenSource::Ipv6HeaderPayloadLen,
            b"".as_slice(),
            0,
        ),
        (
            b"\x60\x00\x00\x00\x00\x02\x3b\x40\x00\x00\x00\x00\x00\x00\x00\x00\x00\x00\x00\x00\x00\x00\x00\x00\x00\x00\x00\x00\x00\x00\x00\x00\x00\x00\x00\x00\x00\x00\x00\x00\x01\x02\x03\x04".as_slice(),
            IpNumber(59),
            false,
            LenSource::Ipv6HeaderPayloadLen,
            b"\x01\x02".as_slice(),
            0,
        ),
        (
            FRAGMENTED,
            IpNumber::UDP,
            true,
            LenSource::Ipv6HeaderPayloadLen,
            b"\x00\x01\x02\x03\x04\x05\x06\x07".as_slice(),
            16,
        ),
        (
            b"\x60\x00\x00\x00\x00\x10\x2c\x40\x00\x00\x00\x00\x00\x00\x00\x00\x00\x00\x00\x00\x00\x00\x00\x00\x00\x00\x00\x00\x00\x00\x00\x00\x00\x00\x00\x00\x00\x00\x00\x00\x2c\x00\x00\x00\x00\x00\x00\x01\x11\x00\x00\x00\x00\x00\x00\x02".as_slice(),
            IpNumber::UDP,
            false,
            LenSource::Ipv6HeaderPayloadLen,
            b"".as_slice(),
            16,
        ),
        (
            b"\x60\x00\x00\x00\x00\x00\x00\x40\x00\x00\x00\x00\x00\x00\x00\x00\x00\x00\x00\x00\x00\x00\x00\x00\x00\x00\x00\x00\x00\x00\x00\x00\x00\x00\x00\x00\x00\x00\x00\x00\x3c\x00\x00\x00\x00\x00\x00\x00\x11\x00\x00\x00\x00\x00\x00\x00\x05".as_slice(),
            IpNumber::UDP,
            false,
            LenSource::Slice,
            b"\x05".as_slice(),
            16,
        ),
    ] {
        let expected = IpPayloadSlice {
            ip_number: number,
            fragmented,
            len_source: source,
            payload,
        };
        reads_ipv6(&rt, bytes, expected, extensions_len);
    }
}

/// Tests the extension headers of an IPv6 packet that has none. They keep the next header of the IPv6 header, and are
/// equal only to empty extension headers with this next header.
#[test]
fn no_extension_headers_begin_with_next_header(rt: HostRuntime) {
    let packet = Ipv6Slice::from_slice(OPEN_LENGTH).expect(&rt, "refused");
    let of_59 = Ipv6ExtensionsSlice::from_slice(IpNumber(59), b"").expect(&rt, "refused");
    let of_udp = Ipv6ExtensionsSlice::from_slice(IpNumber::UDP, b"").expect(&rt, "refused");
    same(&rt, &packet.extensions(), &of_59.0);
    same(&rt, &(packet.extensions() == of_udp.0), &false);
}
