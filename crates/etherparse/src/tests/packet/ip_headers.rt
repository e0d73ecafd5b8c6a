//! Tests of owned headers of the network layer: parsing, linking by next header numbers, lengths and writing.

use crate::err::net::NetSetNextHeaderError;
use crate::err::{Layer, LenError, ValueTooBigError, ValueType, ip};
use crate::tests::checks::same;
use crate::tests::samples::*;
use crate::*;
use std::alloc::Global;
use std::process::Abort;

/// An IPv4 header from 192.168.1.1 to 192.168.1.2, an authentication header, and the bytes 1 to 8 with next header UDP.
const AUTHENTICATED_UDP: &[u8] =
    b"\x45\x00\x00\x28\x00\x00\x40\x00\x14\x33\xe3\x4f\xc0\xa8\x01\x01\xc0\xa8\x01\x02\x11\x01\x00\x00\x00\x00\x00\x02\x00\x00\x00\x03\x01\x02\x03\x04\x05\x06\x07\x08";

/// An IPv6 header, hop-by-hop options, a fragment header (offset 0, more fragments), and the bytes 1 to 8 with next
/// header UDP.
const FRAGMENTED_UDP: &[u8] =
    b"\x60\x00\x00\x00\x00\x18\x00\x40\0\0\0\0\0\0\0\0\0\0\0\0\0\0\0\0\0\0\0\0\0\0\0\0\0\0\0\0\0\0\0\0\x2c\x00\x01\x04\x00\x00\x00\x00\x11\x00\x00\x01\x00\x00\x00\x07\x01\x02\x03\x04\x05\x06\x07\x08";

/// Returns an IPv4 header with an authentication header, whose protocol and next header fields are not set yet.
fn ipv4_headers() -> IpHeaders {
    let header = Ipv4Header {
        time_to_live: 20,
        source: [192, 168, 1, 1],
        destination: [192, 168, 1, 2],
        ..Default::default()
    };
    let auth = IpAuthHeader::new(IpNumber(255), 2, 3, &[]).ok();
    IpHeaders::Ipv4(header, Ipv4Extensions { auth })
}

/// Returns IPv6 hop-by-hop options whose next header field is not set yet.
fn hop_by_hop() -> Option<Ipv6RawExtHeader> {
    Ipv6RawExtHeader::new_raw(IpNumber(255), &[1, 4, 0, 0, 0, 0]).ok()
}

/// Returns an IPv6 header with hop-by-hop options and a fragment header, whose next header fields are not set yet.
fn ipv6_headers() -> IpHeaders {
    let header = Ipv6Header {
        hop_limit: 64,
        ..Default::default()
    };
    let fragment = Ipv6FragmentHeader {
        next_header: IpNumber(255),
        fragment_offset: IpFragOffset::ZERO,
        more_fragments: true,
        identification: 7,
    };
    let extensions = Ipv6Extensions {
        hop_by_hop_options: hop_by_hop(),
        fragment: Some(fragment),
        ..Default::default()
    };
    IpHeaders::Ipv6(header, extensions)
}

#[test]
fn refused(rt: HostRuntime) {
    let empty = LenError {
        required_len: 1,
        len: 0,
        len_source: LenSource::Slice,
        layer: Layer::IpHeader,
        layer_start_offset: 0,
    };
    let refusal = ip::HeadersSliceError::Len(empty);
    same(&rt, &IpHeaders::from_slice(b"").err(), &Some(refusal));
    let version = ip::HeaderError::UnsupportedIpVersion { version_number: 5 };
    let refusal = ip::HeadersSliceError::Content(ip::HeadersError::Ip(version));
    same(&rt, &IpHeaders::from_slice(b"\x50").err(), &Some(refusal));
}

/// Owned IPv6 headers have at most one fragment header: a second one is left in the payload.
#[test]
fn second_of_a_kind(rt: HostRuntime) {
    let (headers, payload) = IpHeaders::from_slice(FRAGMENT_TWICE).expect(&rt, "refused");
    let fragment = Ipv6FragmentHeader {
        next_header: IpNumber(44),
        fragment_offset: IpFragOffset::ZERO,
        more_fragments: false,
        identification: 1,
    };
    let (_, extensions) = headers.ipv6().expect(&rt, "IPv6");
    same(&rt, &extensions.fragment.as_ref(), &Some(&fragment));
    same(&rt, &headers.header_len(), &48);
    let expected = IpPayloadSlice {
        ip_number: IpNumber(44),
        fragmented: false,
        len_source: LenSource::Ipv6HeaderPayloadLen,
        payload: &FRAGMENT_TWICE[48..],
    };
    same(&rt, &payload, &expected);
}

/// Sets the payload length of IP headers to 8 and writes them. Asserts that the written headers, followed by the
/// payload bytes 1 to 8, are the bytes `expected`.
fn writes(rt: &impl Abort, alloc: Global, mut headers: IpHeaders, expected: &[u8]) {
    same(rt, &headers.set_payload_len(8), &Ok(()));
    same(rt, &headers.next_header(), &Ok(IpNumber::UDP));
    let mut bytes = Vec::new(alloc);
    same(rt, &headers.write(&mut bytes), &Ok(()));
    same(rt, &headers.header_len(), &bytes.len());
    bytes.extend_from_slice(PAYLOAD).expect(rt, "no memory");
    same(rt, &bytes.as_slice(), &expected);
}

/// Parses the IP headers in `expected`, which are followed by the payload bytes 1 to 8 with next header UDP. Asserts
/// that the headers are written as the bytes that they were parsed from.
fn reads_back(rt: &impl Abort, alloc: Global, expected: &[u8]) {
    let (read, number, payload) = IpHeaders::read_from_slice(expected).expect(rt, "refused");
    same(rt, &(number, payload), &(IpNumber::UDP, PAYLOAD));
    let mut bytes = Vec::new(alloc);
    same(rt, &read.write(&mut bytes), &Ok(()));
    bytes.extend_from_slice(payload).expect(rt, "no memory");
    same(rt, &bytes.as_slice(), &expected);
}

#[test]
fn ipv4(rt: HostRuntime) {
    let mut headers = ipv4_headers();
    same(
        &rt,
        &headers.set_next_headers(IpNumber::UDP),
        &EtherType::IPV4,
    );
    same(&rt, &headers.is_fragmenting_payload(), &false);
    writes(&rt, rt.alloc(), headers, AUTHENTICATED_UDP);
    reads_back(&rt, rt.alloc(), AUTHENTICATED_UDP);
}

#[test]
fn ipv6(rt: HostRuntime) {
    let mut headers = ipv6_headers();
    same(
        &rt,
        &headers.set_next_headers(IpNumber::UDP),
        &EtherType::IPV6,
    );
    same(&rt, &headers.is_fragmenting_payload(), &true);
    writes(&rt, rt.alloc(), headers, FRAGMENTED_UDP);
    reads_back(&rt, rt.alloc(), FRAGMENTED_UDP);
}

/// Asserts that IP headers reject a payload of `len` bytes with an error that has the length `actual` and the maximum
/// `max_allowed`. Both include the extension headers, unless the length would then be above `usize::MAX`; in this case
/// neither does.
fn too_long(
    rt: &impl Abort,
    mut headers: IpHeaders,
    len: usize,
    (actual, max_allowed): (usize, usize),
    value_type: ValueType,
) {
    let error = ValueTooBigError {
        actual,
        max_allowed,
        value_type,
    };
    same(rt, &headers.set_payload_len(len), &Err(error));
}

#[test]
fn lengths_of_ipv4(rt: HostRuntime) {
    let length = ValueType::Ipv4PayloadLength;
    let plain = IpHeaders::Ipv4(Ipv4Header::default(), Ipv4Extensions::default());
    too_long(&rt, plain, 65516, (65516, 65515), length);
    let (most, length) = (usize::MAX, ValueType::Ipv4PayloadLength);
    too_long(&rt, ipv4_headers(), most, (most, 65503), length);
}

/// Returns an IPv6 header with hop-by-hop options.
fn with_options() -> IpHeaders {
    let extensions = Ipv6Extensions {
        hop_by_hop_options: hop_by_hop(),
        ..Default::default()
    };
    IpHeaders::Ipv6(Ipv6Header::default(), extensions)
}

#[test]
fn lengths_of_ipv6(rt: HostRuntime) {
    let length = ValueType::Ipv6PayloadLength;
    too_long(&rt, with_options(), 65528, (65536, 65535), length);
    let (most, length) = (usize::MAX, ValueType::Ipv6PayloadLength);
    too_long(&rt, with_options(), most, (most, 65527), length);
}

#[test]
fn net_headers_of_ip(rt: HostRuntime) {
    let mut net = NetHeaders::from(ipv6_headers());
    let set = net.try_set_next_headers(IpNumber::UDP);
    same(&rt, &(set, net.header_len()), &(Ok(EtherType::IPV6), 56));
    let mut net = NetHeaders::from(ipv4_headers());
    let set = net.try_set_next_headers(IpNumber::UDP);
    same(&rt, &(set, net.header_len()), &(Ok(EtherType::IPV4), 32));
}

#[test]
fn net_headers_of_arp(rt: HostRuntime) {
    let mut net = NetHeaders::from(arp_request(&rt));
    let refusal = Err(NetSetNextHeaderError::ArpHeader);
    same(&rt, &net.try_set_next_headers(IpNumber::UDP), &refusal);
    same(&rt, &net.header_len(), &28);
}
