//! Tests of verdicts about checksums. The packets and their checksums were made by a script, not by this library.

use crate::ChecksumVerdict::{Absent, Invalid, Unknown, Valid};
use crate::tests::checks::same;
use crate::*;
use std::process::Abort;

/// Asserts the verdicts about an IP packet, by strict and by lax slicing.
fn has_verdicts(
    rt: &impl Abort,
    packet: &[u8],
    ipv4_header: Option<ChecksumVerdict>,
    transport: Option<ChecksumVerdict>,
) {
    let verdicts = ChecksumVerdicts {
        ipv4_header,
        transport,
    };
    let strict = SlicedPacket::from_ip(packet).expect(rt, "refused");
    same(rt, &strict.checksums(), &verdicts);
    let lax = LaxSlicedPacket::from_ip(packet).expect(rt, "refused");
    same(rt, &lax.checksums(), &verdicts);
}

#[test]
fn checksums_over_ipv4(rt: HostRuntime) {
    for (packet, ipv4_header, transport) in [
        // UDP over IPv4.
        (
            b"\x45\x00\x00\x1f\x00\x07\x00\x00\x40\x11\xf6\xc3\xc0\x00\x02\x01\xc0\x00\x02\x02\x0f\xa0\x00\x35\x00\x0b\x67\xfd\x01\x02\x03".as_slice(),
            Some(Valid),
            Some(Valid),
        ),
        // An IPv4 header with another time to live.
        (
            b"\x45\x00\x00\x1f\x00\x07\x00\x00\x3f\x11\xf6\xc3\xc0\x00\x02\x01\xc0\x00\x02\x02\x0f\xa0\x00\x35\x00\x0b\x67\xfd\x01\x02\x03".as_slice(),
            Some(Invalid),
            Some(Valid),
        ),
        // UDP over IPv4, with another checksum.
        (
            b"\x45\x00\x00\x1f\x00\x07\x00\x00\x40\x11\xf6\xc3\xc0\x00\x02\x01\xc0\x00\x02\x02\x0f\xa0\x00\x35\x00\x0b\x67\xfe\x01\x02\x03".as_slice(),
            Some(Valid),
            Some(Invalid),
        ),
        // UDP over IPv4 without a checksum.
        (
            b"\x45\x00\x00\x1c\x00\x07\x00\x00\x40\x11\xf6\xc6\xc0\x00\x02\x01\xc0\x00\x02\x02\x0f\xa0\x00\x35\x00\x08\x00\x00".as_slice(),
            Some(Valid),
            Some(Absent),
        ),
        // UDP over IPv4 with length 0 and bytes after the header.
        (
            b"\x45\x00\x00\x1f\x00\x07\x00\x00\x40\x11\xf6\xc3\xc0\x00\x02\x01\xc0\x00\x02\x02\x0f\xa0\x00\x35\x00\x00\x68\x08\x01\x02\x03".as_slice(),
            Some(Valid),
            Some(Unknown),
        ),
        // TCP over IPv4.
        (
            b"\x45\x00\x00\x29\x00\x07\x00\x00\x40\x06\xf6\xc4\xc0\x00\x02\x01\xc0\x00\x02\x02\x0f\xa0\x00\x50\x00\x00\x00\x01\x00\x00\x00\x02\x50\x10\x04\x00\x16\xdd\x00\x00\x01".as_slice(),
            Some(Valid),
            Some(Valid),
        ),
        // ICMPv4.
        (
            b"\x45\x00\x00\x1c\x00\x07\x00\x00\x40\x01\xf6\xd6\xc0\x00\x02\x01\xc0\x00\x02\x02\x08\x00\xf7\xfc\x00\x01\x00\x02".as_slice(),
            Some(Valid),
            Some(Valid),
        ),
        // ICMPv6 over IPv4.
        (
            b"\x45\x00\x00\x1c\x00\x07\x00\x00\x40\x3a\xf6\x9d\xc0\x00\x02\x01\xc0\x00\x02\x02\x80\x00\xfb\xb5\x00\x01\x00\x02".as_slice(),
            Some(Valid),
            Some(Unknown),
        ),
        // A fragment.
        (
            b"\x45\x00\x00\x1c\x00\x07\x20\x00\x40\x11\xd6\xc6\xc0\x00\x02\x01\xc0\x00\x02\x02\x0f\xa0\x00\x35\x00\x08\x6c\x05".as_slice(),
            Some(Valid),
            Some(Unknown),
        ),
        // Another protocol.
        (
            b"\x45\x00\x00\x14\x00\x07\x00\x00\x40\x3b\xf6\xa4\xc0\x00\x02\x01\xc0\x00\x02\x02".as_slice(),
            Some(Valid),
            None,
        ),
    ] {
        has_verdicts(&rt, packet, ipv4_header, transport);
    }
}

#[test]
fn source_routes(rt: HostRuntime) {
    for (packet, ipv4_header, transport) in [
        // A loose source route after an option of one byte.
        (
            b"\x47\x00\x00\x24\x00\x07\x00\x00\x40\x01\x2a\x3e\xc0\x00\x02\x01\xc0\x00\x02\x02\x01\x83\x07\x04\xc0\x00\x02\x09\x08\x00\xf7\xfc\x00\x01\x00\x02".as_slice(),
            Some(Valid),
            Some(Unknown),
        ),
        // A strict source route.
        (
            b"\x46\x00\x00\x20\x00\x07\x00\x00\x40\x01\x6b\xcf\xc0\x00\x02\x01\xc0\x00\x02\x02\x01\x01\x89\x02\x08\x00\xf7\xfc\x00\x01\x00\x02".as_slice(),
            Some(Valid),
            Some(Unknown),
        ),
        // Bytes of a source route after the end of the options.
        (
            b"\x46\x00\x00\x20\x00\x07\x00\x00\x40\x01\xf2\x4b\xc0\x00\x02\x01\xc0\x00\x02\x02\x00\x83\x03\x04\x08\x00\xf7\xfc\x00\x01\x00\x02".as_slice(),
            Some(Valid),
            Some(Valid),
        ),
        // Bytes of a source route after an option with an invalid length.
        (
            b"\x46\x00\x00\x20\x00\x07\x00\x00\x40\x01\x65\xcf\xc0\x00\x02\x01\xc0\x00\x02\x02\x07\x01\x89\x02\x08\x00\xf7\xfc\x00\x01\x00\x02".as_slice(),
            Some(Valid),
            Some(Valid),
        ),
        // An option longer than the options.
        (
            b"\x46\x00\x00\x20\x00\x07\x00\x00\x40\x01\x6e\xcd\xc0\x00\x02\x01\xc0\x00\x02\x02\x83\x05\x04\x00\x08\x00\xf7\xfc\x00\x01\x00\x02".as_slice(),
            Some(Valid),
            Some(Valid),
        ),
    ] {
        has_verdicts(&rt, packet, ipv4_header, transport);
    }
}

#[test]
fn checksums_over_ipv6(rt: HostRuntime) {
    for (packet, ipv4_header, transport) in [
        // UDP over IPv6.
        (
            b"\x60\x00\x00\x00\x00\x09\x11\x40\x20\x01\x0d\xb8\x00\x00\x00\x00\x00\x00\x00\x00\x00\x00\x00\x01\x20\x01\x0d\xb8\x00\x00\x00\x00\x00\x00\x00\x00\x00\x00\x00\x02\x0f\xa0\x00\x35\x00\x09\x93\x92\x01".as_slice(),
            None,
            Some(Valid),
        ),
        // UDP over IPv6 without a checksum.
        (
            b"\x60\x00\x00\x00\x00\x08\x11\x40\x20\x01\x0d\xb8\x00\x00\x00\x00\x00\x00\x00\x00\x00\x00\x00\x01\x20\x01\x0d\xb8\x00\x00\x00\x00\x00\x00\x00\x00\x00\x00\x00\x02\x0f\xa0\x00\x35\x00\x08\x00\x00".as_slice(),
            None,
            Some(Invalid),
        ),
        // UDP over IPv6 with checksum 0, whose sum is 65535.
        (
            b"\x60\x00\x00\x00\x00\x0a\x11\x40\x20\x01\x0d\xb8\x00\x00\x00\x00\x00\x00\x00\x00\x00\x00\x00\x01\x20\x01\x0d\xb8\x00\x00\x00\x00\x00\x00\x00\x00\x00\x00\x00\x02\x0f\xa0\x00\x35\x00\x0a\x00\x00\x94\x90".as_slice(),
            None,
            Some(Invalid),
        ),
        // UDP over IPv6 with length 0 and bytes after the header.
        (
            b"\x60\x00\x00\x00\x00\x0b\x11\x40\x20\x01\x0d\xb8\x00\x00\x00\x00\x00\x00\x00\x00\x00\x00\x00\x01\x20\x01\x0d\xb8\x00\x00\x00\x00\x00\x00\x00\x00\x00\x00\x00\x02\x0f\xa0\x00\x35\x00\x00\x90\x97\x01\x02\x03".as_slice(),
            None,
            Some(Unknown),
        ),
        // TCP over IPv6.
        (
            b"\x60\x00\x00\x00\x00\x14\x06\x40\x20\x01\x0d\xb8\x00\x00\x00\x00\x00\x00\x00\x00\x00\x00\x00\x01\x20\x01\x0d\xb8\x00\x00\x00\x00\x00\x00\x00\x00\x00\x00\x00\x02\x0f\xa0\x00\x50\x00\x00\x00\x01\x00\x00\x00\x02\x50\x10\x04\x00\x40\x6d\x00\x00".as_slice(),
            None,
            Some(Valid),
        ),
        // ICMPv6 after destination options.
        (
            b"\x60\x00\x00\x00\x00\x10\x3c\x40\x20\x01\x0d\xb8\x00\x00\x00\x00\x00\x00\x00\x00\x00\x00\x00\x01\x20\x01\x0d\xb8\x00\x00\x00\x00\x00\x00\x00\x00\x00\x00\x00\x02\x3a\x00\x01\x04\x00\x00\x00\x00\x80\x00\x24\x45\x00\x01\x00\x02".as_slice(),
            None,
            Some(Valid),
        ),
        // A routing header.
        (
            b"\x60\x00\x00\x00\x00\x10\x2b\x40\x20\x01\x0d\xb8\x00\x00\x00\x00\x00\x00\x00\x00\x00\x00\x00\x01\x20\x01\x0d\xb8\x00\x00\x00\x00\x00\x00\x00\x00\x00\x00\x00\x02\x3a\x00\x00\x00\x00\x00\x00\x00\x80\x00\x24\x45\x00\x01\x00\x02".as_slice(),
            None,
            Some(Unknown),
        ),
        // A payload length of 0.
        (
            b"\x60\x00\x00\x00\x00\x00\x3a\x40\x20\x01\x0d\xb8\x00\x00\x00\x00\x00\x00\x00\x00\x00\x00\x00\x01\x20\x01\x0d\xb8\x00\x00\x00\x00\x00\x00\x00\x00\x00\x00\x00\x02\x80\x00\x24\x45\x00\x01\x00\x02".as_slice(),
            None,
            Some(Unknown),
        ),
    ] {
        has_verdicts(&rt, packet, ipv4_header, transport);
    }
}

/// Asserts the verdict of lax slicing about the transport layer of an IP packet that strict slicing rejects.
fn has_lax_verdict(rt: &impl Abort, packet: &[u8], transport: Option<ChecksumVerdict>) {
    let lax = LaxSlicedPacket::from_ip(packet).expect(rt, "refused");
    same(rt, &lax.checksums().transport, &transport);
}

#[test]
fn checksums_of_truncated_packets(rt: HostRuntime) {
    for (packet, transport) in [
        // The last byte of the payload is missing.
        (
            b"\x45\x00\x00\x1f\x00\x07\x00\x00\x40\x11\xf6\xc3\xc0\x00\x02\x01\xc0\x00\x02\x02\x0f\xa0\x00\x35\x00\x0b\x67\xfd\x01\x02".as_slice(),
            Some(Unknown),
        ),
        // The last byte of the UDP header is missing.
        (
            b"\x45\x00\x00\x1f\x00\x07\x00\x00\x40\x11\xf6\xc3\xc0\x00\x02\x01\xc0\x00\x02\x02\x0f\xa0\x00\x35\x00\x0b\x67".as_slice(),
            None,
        ),
        // The total length is 0.
        (
            b"\x45\x00\x00\x00\x00\x07\x00\x00\x40\x11\xf6\xe2\xc0\x00\x02\x01\xc0\x00\x02\x02\x0f\xa0\x00\x35\x00\x0b\x67\xfd\x01\x02\x03".as_slice(),
            Some(Unknown),
        ),
        // The UDP length exceeds the payload of IPv4.
        (
            b"\x45\x00\x00\x1f\x00\x07\x00\x00\x40\x11\xf6\xc3\xc0\x00\x02\x01\xc0\x00\x02\x02\x0f\xa0\x00\x35\x00\x0c\x67\xfd\x01\x02\x03".as_slice(),
            Some(Unknown),
        ),
    ] {
        has_lax_verdict(&rt, packet, transport);
    }
}

/// Verdicts about an IPv4 header and about messages between two addresses, without a packet.
#[test]
fn checksums_without_a_packet(rt: HostRuntime) {
    let header =
        b"\x45\x00\x00\x1f\x00\x07\x00\x00\x40\x11\xf6\xc3\xc0\x00\x02\x01\xc0\x00\x02\x02";
    let header = Ipv4HeaderSlice::from_slice(header).expect(&rt, "refused");
    same(&rt, &ChecksumVerdict::of_ipv4_header(&header), &Valid);

    let datagram = UdpSlice::from_slice(b"\x0f\xa0\x00\x35\x00\x0b\x67\xfd\x01\x02\x03");
    let over_ipv4 = TransportSlice::Udp(datagram.expect(&rt, "refused"));
    let verdict = ChecksumVerdict::between_ipv4([192, 0, 2, 1], [192, 0, 2, 2], &over_ipv4);
    same(&rt, &verdict, &Valid);

    let source = [0x20, 1, 13, 0xb8, 0, 0, 0, 0, 0, 0, 0, 0, 0, 0, 0, 1];
    let destination = [0x20, 1, 13, 0xb8, 0, 0, 0, 0, 0, 0, 0, 0, 0, 0, 0, 2];
    let datagram = UdpSlice::from_slice(b"\x0f\xa0\x00\x35\x00\x0b\x90\x8c\x01\x02\x03");
    let over_ipv6 = TransportSlice::Udp(datagram.expect(&rt, "refused"));
    let verdict = ChecksumVerdict::between_ipv6(source, destination, &over_ipv6);
    same(&rt, &verdict, &Valid);

    // The length in an IPv4 pseudo header has 16 bits.
    let bytes = vec![in rt.alloc(); 0x50; 65536].expect(&rt, "no memory");
    let segment = TcpSlice::from_slice(bytes.as_slice()).expect(&rt, "refused");
    let too_long = TransportSlice::Tcp(segment);
    let verdict = ChecksumVerdict::between_ipv4([192, 0, 2, 1], [192, 0, 2, 2], &too_long);
    same(&rt, &verdict, &Unknown);
}
