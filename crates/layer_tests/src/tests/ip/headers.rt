//! Tests of IPv4 and IPv6 headers: examples, error texts, and calls that have to succeed.

use crate::tests::checks::{full, is_written, refuses, same};
use ep_ip::{
    IpFragOffset, IpNumber, Ipv4Dscp, Ipv4Ecn, Ipv4Header, Ipv4HeaderSlice, Ipv4Options,
    Ipv6FlowLabel, Ipv6Header, Ipv6HeaderSlice, Layer, LenError, LenSource, ipv6,
};
use std::alloc::Global;
use std::process::Abort;

/// An IPv4 header of 20 bytes without options, for 16 bytes of UDP from 192.168.1.1 to 192.168.1.2.
const PLAIN: &[u8] =
    b"\x45\x00\x00\x24\x00\x00\x40\x00\x14\x11\xe3\x75\xc0\xa8\x01\x01\xc0\xa8\x01\x02";

/// An IPv4 header of 60 bytes, with 40 bytes of options: router alert (RFC 2113) and record route (RFC 791, 3.1).
const LONGEST: &[u8] =
    b"\x4f\xb9\xff\xff\x12\x34\x3f\xff\x40\x33\x5d\xa3\x01\x02\x03\x04\x05\x06\x07\x08\x94\x04\x00\x00\x07\x23\x04\x01\x02\x03\x04\x05\x06\x07\x08\x09\x0a\x0b\x0c\x0d\x0e\x0f\x10\x11\x12\x13\x14\x15\x16\x17\x18\x19\x1a\x1b\x1c\x1d\x1e\x1f\x20\x00";

/// An IPv4 packet with the reserved flag, the more-fragments flag, the maximum fragment offset, the router alert option
/// (RFC 2113), 4 bytes of payload, and 2 trailing bytes.
const FRAGMENT: &[u8] =
    b"\x46\xb9\x00\x1c\x12\x34\xbf\xff\x40\x33\xab\xcd\x01\x02\x03\x04\x05\x06\x07\x08\x94\x04\x00\x00\x0a\x0b\x0c\x0d\x00\x00";

/// Parses an IPv4 header, clears its checksum field, and asserts that it is written as the bytes it was parsed from:
/// the checksum is computed anew.
fn writes(rt: &impl Abort, alloc: Global, bytes: &[u8]) {
    let (mut header, _) = Ipv4Header::from_slice(bytes).expect(rt, "refused");
    header.header_checksum = 0;
    let mut buf = full(rt, alloc);
    let written = header.write(&mut buf).is_ok();
    is_written(rt, written, &buf, bytes);
}

#[test]
fn writes_with_checksum(rt: HostRuntime) {
    writes(&rt, rt.alloc(), PLAIN);
    writes(&rt, rt.alloc(), LONGEST);
}

fn fragment(rt: &impl Abort) -> Ipv4Header {
    Ipv4Header {
        dscp: Ipv4Dscp::try_new(46).expect(rt, "refused"),
        ecn: Ipv4Ecn::try_new(1).expect(rt, "refused"),
        total_len: 28,
        identification: 0x1234,
        dont_fragment: false,
        more_fragments: true,
        fragment_offset: IpFragOffset::try_new(8191).expect(rt, "refused"),
        time_to_live: 64,
        protocol: IpNumber::AUTHENTICATION_HEADER,
        header_checksum: 0xabcd,
        source: [1, 2, 3, 4],
        destination: [5, 6, 7, 8],
        options: Ipv4Options::try_new(b"\x94\x04\x00\x00").expect(rt, "refused"),
    }
}

#[test]
fn reads_each_field(rt: HostRuntime) {
    let shown = Ipv4HeaderSlice::from_slice(FRAGMENT).expect(&rt, "refused");
    same(&rt, &shown.to_header(), &fragment(&rt));
}

/// An IPv6 header: traffic class 0xb9, flow label 0x12345, payload length 24, next header 44 (fragment), hop limit 64.
const IPV6: &[u8] =
    b"\x6b\x91\x23\x45\x00\x18\x2c\x40\x20\x01\x0d\xb8\x00\x00\x00\x00\x00\x00\x00\x00\x00\x00\x00\x01\xfe\x80\x00\x00\x00\x00\x00\x00\x02\x03\x04\x05\x06\x07\x08\x09";

fn ipv6_header(rt: &impl Abort) -> Ipv6Header {
    Ipv6Header {
        traffic_class: 0xb9,
        flow_label: Ipv6FlowLabel::try_new(0x12345).expect(rt, "refused"),
        payload_length: 24,
        next_header: IpNumber::IPV6_FRAGMENTATION_HEADER,
        hop_limit: 64,
        source: [0x20, 1, 0x0d, 0xb8, 0, 0, 0, 0, 0, 0, 0, 0, 0, 0, 0, 1],
        destination: [0xfe, 0x80, 0, 0, 0, 0, 0, 0, 2, 3, 4, 5, 6, 7, 8, 9],
    }
}

#[test]
fn reads_and_writes_ipv6(rt: HostRuntime) {
    let header = ipv6_header(&rt);
    let shown = Ipv6HeaderSlice::from_slice(IPV6).expect(&rt, "refused");
    same(&rt, &shown.to_header(), &header);
    let mut buf = full(&rt, rt.alloc());
    let written = header.write(&mut buf).is_ok();
    is_written(&rt, written, &buf, IPV6);
}

#[test]
fn ipv6_refusals(rt: HostRuntime) {
    let short = |len| {
        let error = LenError::at_start(40, len, LenSource::Slice, Layer::Ipv6Header);
        ipv6::HeaderSliceError::Len(error)
    };
    let version = ipv6::HeaderError::UnexpectedVersion { version_number: 4 };
    for (bytes, error) in [
        (b"".as_slice(), short(0)),
        (&IPV6[..1], short(1)),
        (&IPV6[..39], short(39)),
        (&[0x45; 40], ipv6::HeaderSliceError::Content(version)),
    ] {
        same(&rt, &Ipv6Header::from_slice(bytes), &Err(error));
    }
}

#[test]
fn lengths_of_options(rt: HostRuntime) {
    let bytes = [7u8; 44];
    for (len, text) in [
        (3, "BadOptionsLen 3"),
        (41, "BadOptionsLen 41"),
        (44, "BadOptionsLen 44"),
    ] {
        refuses(
            &rt,
            rt.alloc(),
            Ipv4Options::try_new(&bytes[..len]).err(),
            text,
        );
    }
}
