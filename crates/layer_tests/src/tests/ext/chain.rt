//! Tests of chains of IP extension headers (RFC 8200, 4; RFC 4302): examples, and calls that have to succeed.

use crate::tests::checks::{full, is_written, same};
use ep_base::err::ipv4_exts;
use ep_base::err::ipv6_exts::{ExtsWalkError, HeaderError, HeaderSliceError, HeaderWriteError};
use ep_ext::err::ip_auth;
use ep_ext::{
    IpAuthHeader, IpFragOffset, IpNumber, Ipv4Extensions, Ipv4ExtensionsSlice, Ipv6ExtensionSlice,
    Ipv6Extensions, Ipv6ExtensionsSlice, Ipv6FragmentHeader, Ipv6RawExtHeader,
    Ipv6RoutingExtensions,
};
use std::alloc::Global;
use std::process::Abort;

/// IPv6 extension headers of the least length before UDP: hop-by-hop (0), destination options (60), routing (43),
/// destination options (60), fragment (44, with the M flag) and authentication (51). There are 2 more bytes after them.
const EVERY_KIND: &[u8] =
    b"\x3c\x00\x01\x04\x00\x00\x00\x00\x2b\x00\x01\x04\x00\x00\x00\x01\x3c\x00\x00\x00\x00\x00\x00\x02\x2c\x00\x01\x04\x00\x00\x00\x03\x33\x00\x00\x01\x00\x00\x00\x07\x11\x01\x00\x00\x00\x00\x00\x05\x00\x00\x00\x06\xfe\xff";

/// IPv6 extension headers of the least length, in the order of RFC 8200, 4.1, before TCP: hop-by-hop options,
/// destination options, routing, fragment, authentication and final destination options.
const LINKED: &[u8] =
    b"\x3c\x00\x01\x04\x00\x00\x00\x00\x2b\x00\x01\x04\x00\x00\x00\x01\x2c\x00\x00\x00\x00\x00\x00\x02\x33\x00\x00\x01\x00\x00\x00\x07\x3c\x01\x00\x00\x00\x00\x00\x05\x00\x00\x00\x06\x06\x00\x01\x04\x00\x00\x00\x03";

/// Two IPv6 destination options headers in a row before UDP, and one more byte. The constants `ROUTING`, `FRAGMENT` and
/// `AUTHENTICATIONS` have two routing, two fragment and two authentication headers instead.
const OPTIONS: &[u8] = b"\x3c\x00\x01\x04\x00\x00\x00\x00\x11\x00\x01\x04\x00\x00\x00\x00\xab";

const ROUTING: &[u8] = b"\x2b\x00\x00\x00\x00\x00\x00\x00\x11\x00\x00\x00\x00\x00\x00\x00\xab";

const FRAGMENT: &[u8] = b"\x2c\x00\x00\x00\x00\x00\x00\x00\x11\x00\x00\x08\x00\x00\x00\x00\xab";

const AUTHENTICATIONS: &[u8] =
    b"\x33\x01\x00\x00\x00\x00\x00\x05\x00\x00\x00\x06\x11\x02\x00\x00\x00\x00\x00\x07\x00\x00\x00\x08\x01\x02\x03\x04\xab";

/// An IPv6 routing header and two destination options headers before UDP, and one more byte.
const FINAL_OPTIONS: &[u8] =
    b"\x3c\x00\x00\x00\x00\x00\x00\x00\x3c\x00\x01\x04\x00\x00\x00\x00\x11\x00\x01\x04\x00\x00\x00\x00\xab";

/// An IPv6 destination options header, a routing header and two more destination options headers before UDP, and one
/// more byte.
const BOTH_OPTIONS: &[u8] =
    b"\x2b\x00\x01\x04\x00\x00\x00\x00\x3c\x00\x00\x00\x00\x00\x00\x00\x3c\x00\x01\x04\x00\x00\x00\x00\x11\x00\x01\x04\x00\x00\x00\x00\xab";

/// Returns the IP protocol number of an IPv6 extension header, which the header before it has as its next header.
fn number_of(header: &Ipv6ExtensionSlice) -> u8 {
    match header {
        Ipv6ExtensionSlice::HopByHop(_) => 0,
        Ipv6ExtensionSlice::Routing(_) => 43,
        Ipv6ExtensionSlice::Fragment(_) => 44,
        Ipv6ExtensionSlice::DestinationOptions(_) => 60,
        Ipv6ExtensionSlice::Authentication(_) => 51,
    }
}

/// Parses IPv6 extension headers as slices, starting with the IP protocol number `number`. Asserts the protocol number
/// of each header (`kinds`), whether the payload is fragmented, the next header after the chain, and the number of
/// bytes left.
fn reads_slices(
    rt: &impl Abort,
    alloc: Global,
    (number, bytes): (u8, &[u8]),
    (kinds, fragments, last, left): (&[u8], bool, u8, usize),
) {
    let (slices, shown_last, rest) = Ipv6ExtensionsSlice::from_slice(
        IpNumber(number),
        bytes,
    ).expect(rt, "refused");
    same(
        rt,
        &(shown_last.0, rest.len(), slices.is_fragmenting_payload()),
        &(last, left, fragments),
    );
    let mut shown = Vec::new(alloc);
    for header in slices {
        shown.push(number_of(&header)).expect(rt, "refused");
    }
    same(rt, &shown.as_slice(), &kinds);
}

/// Parses IPv6 extension headers as owned headers, starting with the IP protocol number `number`. Asserts their length
/// in bytes, whether the payload is fragmented, and the next header after the chain.
fn reads_headers(
    rt: &impl Abort,
    (number, bytes): (u8, &[u8]),
    (header_len, fragments, last): (usize, bool, u8),
) {
    let (headers, shown_last, rest) = Ipv6Extensions::from_slice(IpNumber(number), bytes).expect(
        rt, "refused",
    );
    same(
        rt,
        &(
            shown_last.0,
            headers.header_len(),
            headers.is_fragmenting_payload(),
        ),
        &(last, header_len, fragments),
    );
    same(rt, &rest.len(), &bytes.len().wrapping_sub(header_len));
}

/// Tests chains with both parsers (slices and owned headers). Owned IPv6 extension headers have space for one header of
/// each type, and for second destination options after a routing header. Parsing them ends before a header for which
/// there is no space; the protocol number of this header is the next header after the chain.
#[test]
fn chains(rt: HostRuntime) {
    let rows: [(u8, &[u8], (&[u8], bool, u8, usize), (usize, bool, u8)); 8] = [
        (
            0,
            EVERY_KIND,
            (&[0, 60, 43, 60, 44, 51], true, 17, 2),
            (52, true, 17),
        ),
        (
            0,
            LINKED,
            (&[0, 60, 43, 44, 51, 60], true, 6, 0),
            (52, true, 6),
        ),
        (60, OPTIONS, (&[60, 60], false, 17, 1), (8, false, 60)),
        (43, ROUTING, (&[43, 43], false, 17, 1), (8, false, 43)),
        (44, FRAGMENT, (&[44, 44], true, 17, 1), (8, false, 44)),
        (
            51,
            AUTHENTICATIONS,
            (&[51, 51], false, 17, 1),
            (12, false, 51),
        ),
        (
            43,
            FINAL_OPTIONS,
            (&[43, 60, 60], false, 17, 1),
            (16, false, 60),
        ),
        (
            60,
            BOTH_OPTIONS,
            (&[60, 43, 60, 60], false, 17, 1),
            (24, false, 60),
        ),
    ];
    for (number, bytes, slices, headers) in rows {
        reads_slices(&rt, rt.alloc(), (number, bytes), slices);
        reads_headers(&rt, (number, bytes), headers);
    }
}

/// Asserts that both parsers (slices and owned headers) reject IPv6 extension headers that start with the IP protocol
/// number `number`, with the given error.
fn refuses(rt: &impl Abort, number: u8, bytes: &[u8], expected: HeaderSliceError) {
    let expected = Some(expected);
    same(
        rt,
        &Ipv6ExtensionsSlice::from_slice(IpNumber(number), bytes).err(),
        &expected,
    );
    same(
        rt,
        &Ipv6Extensions::from_slice(IpNumber(number), bytes).err(),
        &expected,
    );
}

/// An authentication header of 12 bytes whose payload length field is 0, which is invalid.
const NO_AUTHENTICATION: &[u8] = b"\x11\x00\x00\x00\x00\x00\x00\x05\x00\x00\x00\x06";

#[test]
fn invalid_chains(rt: HostRuntime) {
    const HOP_BY_HOP_AFTER_OPTIONS: &[u8] =
        b"\x00\x00\x01\x04\x00\x00\x00\x00\x11\x00\x01\x04\x00\x00\x00\x00";
    for (number, bytes, expected) in [
        (
            60,
            HOP_BY_HOP_AFTER_OPTIONS,
            HeaderError::HopByHopNotAtStart,
        ),
        (0, HOP_BY_HOP_AFTER_OPTIONS, HeaderError::HopByHopNotAtStart),
        (
            51,
            NO_AUTHENTICATION,
            HeaderError::IpAuth(ip_auth::HeaderError::ZeroPayloadLen),
        ),
    ] {
        refuses(&rt, number, bytes, HeaderSliceError::Content(expected));
    }
}

#[test]
fn what_is_no_chain_of_ipv4(rt: HostRuntime) {
    let zero = Some(ip_auth::HeaderSliceError::Content(ip_auth::HeaderError::ZeroPayloadLen));
    let number = IpNumber::AUTHENTICATION_HEADER;
    same(
        &rt,
        &Ipv4ExtensionsSlice::from_slice(number, NO_AUTHENTICATION).err(),
        &zero,
    );
    same(
        &rt,
        &Ipv4Extensions::from_slice(number, NO_AUTHENTICATION).err(),
        &zero,
    );
}

/// Returns owned IPv6 extension headers of the least length, one of each type (destination options twice), as the
/// constant `EVERY_KIND` has them.
fn every_kind(rt: &impl Abort) -> Ipv6Extensions {
    let (read, _, _) = Ipv6Extensions::from_slice(
        IpNumber::IPV6_HEADER_HOP_BY_HOP,
        EVERY_KIND,
    ).expect(rt, "refused");
    read
}

/// Asserts that IPv6 extension headers that start with the IP protocol number `first` are written as the given bytes.
fn writes(rt: &impl Abort, alloc: Global, headers: &Ipv6Extensions, first: IpNumber, bytes: &[u8]) {
    let mut buf = full(rt, alloc);
    let written = headers.write(&mut buf, first).is_ok();
    is_written(rt, written, &buf, bytes);
}

#[test]
fn writes_headers(rt: HostRuntime) {
    let first = IpNumber::IPV6_HEADER_HOP_BY_HOP;
    let mut headers = every_kind(&rt);
    writes(&rt, rt.alloc(), &headers, first, &EVERY_KIND[..52]);
    same(&rt, &headers.set_next_headers(IpNumber::TCP), &first);
    writes(&rt, rt.alloc(), &headers, first, LINKED);
    let none = Ipv6Extensions::default();
    writes(&rt, rt.alloc(), &none, IpNumber::UDP, b"");
}

/// Payload of a generic IPv6 extension header of the maximum length, and ICV of an authentication header of the maximum
/// length.
const GREATEST_PAYLOAD: &[u8] = &[0xab; 2046];

const GREATEST_ICV: &[u8] = &[0xcd; 1016];

/// Returns a generic IPv6 extension header of the maximum length, 2048 bytes, with the given next header.
fn greatest(rt: &impl Abort, next_header: u8) -> Ipv6RawExtHeader {
    Ipv6RawExtHeader::new_raw(IpNumber(next_header), GREATEST_PAYLOAD).expect(rt, "refused")
}

fn greatest_authentication(rt: &impl Abort, next_header: u8) -> IpAuthHeader {
    IpAuthHeader::new(IpNumber(next_header), 5, 6, GREATEST_ICV).expect(rt, "refused")
}

fn fragment(rt: &impl Abort, next_header: u8) -> Ipv6FragmentHeader {
    Ipv6FragmentHeader {
        next_header: IpNumber(next_header),
        fragment_offset: IpFragOffset::try_new(8191).expect(rt, "refused"),
        more_fragments: true,
        identification: 1,
    }
}

/// Returns all IPv6 extension headers, each of the maximum length, linked in order before TCP: 9228 bytes.
fn greatest_chain(rt: &impl Abort) -> Ipv6Extensions {
    Ipv6Extensions {
        hop_by_hop_options: Some(greatest(rt, 60)),
        destination_options: Some(greatest(rt, 43)),
        routing: Some(Ipv6RoutingExtensions {
            routing: greatest(rt, 44),
            final_destination_options: Some(greatest(rt, 6)),
        }),
        fragment: Some(fragment(rt, 51)),
        auth: Some(greatest_authentication(rt, 60)),
    }
}

/// Returns the 9228 bytes of a chain of all IPv6 extension headers, each of the maximum length, before TCP.
fn greatest_bytes(rt: &impl Abort, alloc: Global) -> Vec<u8> {
    let parts: [&[u8]; 10] = [
        b"\x3c\xff",
        GREATEST_PAYLOAD,
        b"\x2b\xff",
        GREATEST_PAYLOAD,
        b"\x2c\xff",
        GREATEST_PAYLOAD,
        b"\x33\x00\xff\xf9\x00\x00\x00\x01\x3c\xff\x00\x00\x00\x00\x00\x05\x00\x00\x00\x06",
        GREATEST_ICV,
        b"\x06\xff",
        GREATEST_PAYLOAD,
    ];
    parts.concat(alloc).expect(rt, "no memory")
}

#[test]
fn greatest_headers(rt: HostRuntime) {
    let (headers, bytes) = (greatest_chain(&rt), greatest_bytes(&rt, rt.alloc()));
    same(&rt, &bytes.len(), &9228);
    let first = IpNumber::IPV6_HEADER_HOP_BY_HOP;
    writes(&rt, rt.alloc(), &headers, first, &bytes);
    let (read, _, _) = Ipv6Extensions::from_slice(first, &bytes).expect(&rt, "refused");
    same(&rt, &read, &headers);
}

/// Returns an IPv6 extension header of 8 bytes that contains one padding option (PadN), with the given next header.
fn options(rt: &impl Abort, next_header: u8) -> Ipv6RawExtHeader {
    Ipv6RawExtHeader::new_raw(IpNumber(next_header), &[1, 4, 0, 0, 0, 0]).expect(rt, "refused")
}

/// Returns all IPv6 extension headers with the given next headers, in the order hop-by-hop options, destination
/// options, routing, fragment, authentication and final destination options.
fn chain(rt: &impl Abort, numbers: [u8; 6]) -> Ipv6Extensions {
    Ipv6Extensions {
        hop_by_hop_options: Some(options(rt, numbers[0])),
        destination_options: Some(options(rt, numbers[1])),
        routing: Some(Ipv6RoutingExtensions {
            routing: options(rt, numbers[2]),
            final_destination_options: Some(options(rt, numbers[5])),
        }),
        fragment: Some(fragment(rt, numbers[3])),
        auth: Some(IpAuthHeader::new(IpNumber(numbers[4]), 5, 6, &[]).expect(rt, "refused")),
    }
}

/// Asserts that `next_header` and `write` of IPv6 extension headers both return the given error, because the next
/// header fields do not link all of the headers in a valid order.
fn refuses_links(
    rt: &impl Abort,
    alloc: Global,
    headers: &Ipv6Extensions,
    first: u8,
    error: ExtsWalkError,
) {
    let refused = headers.next_header(IpNumber(first)).err();
    same(rt, &refused.as_ref(), &Some(&error));
    let mut written = Vec::new(alloc);
    let refused = headers.write(&mut written, IpNumber(first)).err();
    same(rt, &refused, &Some(HeaderWriteError::Content(error)));
}

/// Returns the error that no next header field refers to the IPv6 extension header with this IP protocol number.
fn unreferenced(number: u8) -> ExtsWalkError {
    ExtsWalkError::ExtNotReferenced {
        missing_ext: IpNumber(number),
    }
}

#[test]
fn headers_that_are_not_referenced(rt: HostRuntime) {
    for (numbers, first, error) in [
        ([43, 43, 44, 51, 60, 17], 0, unreferenced(60)),
        ([60, 44, 44, 51, 60, 17], 0, unreferenced(43)),
        ([60, 43, 51, 51, 60, 17], 0, unreferenced(44)),
        ([60, 43, 44, 60, 60, 17], 0, unreferenced(51)),
        ([60, 43, 44, 51, 17, 17], 0, unreferenced(60)),
        ([60, 43, 44, 51, 60, 17], 60, unreferenced(0)),
        ([60, 43, 44, 51, 60, 17], 17, unreferenced(0)),
        (
            [60, 43, 44, 51, 60, 0],
            60,
            ExtsWalkError::HopByHopNotAtStart,
        ),
    ] {
        refuses_links(&rt, rt.alloc(), &chain(&rt, numbers), first, error);
    }
}

#[test]
fn final_options_only_after_routing(rt: HostRuntime) {
    let extensions = Ipv6Extensions {
        routing: Some(Ipv6RoutingExtensions {
            routing: options(&rt, 17),
            final_destination_options: Some(options(&rt, 17)),
        }),
        ..Default::default()
    };
    for (first, missing) in [(60, 43), (43, 60), (17, 43)] {
        refuses_links(&rt, rt.alloc(), &extensions, first, unreferenced(missing));
    }
}

/// The start of an IP payload with two authentication headers in a row: the first one, and 2 bytes of the second.
const AUTHENTICATED: &[u8] = b"\x33\x01\x00\x00\x00\x00\x00\x05\x00\x00\x00\x06\x11\x01";

/// Returns IPv4 extensions with an authentication header of 12 bytes before UDP.
fn authentication(rt: &impl Abort) -> Ipv4Extensions {
    Ipv4Extensions {
        auth: Some(IpAuthHeader::new(IpNumber::UDP, 5, 6, &[]).expect(rt, "refused")),
    }
}

#[test]
fn slices_of_ipv4(rt: HostRuntime) {
    for (number, left) in [(51, 2), (17, 14)] {
        let number = IpNumber(number);
        let (slices, last, rest) = Ipv4ExtensionsSlice::from_slice(number, AUTHENTICATED).expect(
            &rt, "refused",
        );
        same(
            &rt,
            &(last, rest.len(), slices.auth.is_some()),
            &(number, left, left == 2),
        );
    }
}

#[test]
fn headers_of_ipv4(rt: HostRuntime) {
    let number = IpNumber::AUTHENTICATION_HEADER;
    let (mut headers, last, rest) = Ipv4Extensions::from_slice(number, AUTHENTICATED).expect(
        &rt, "refused",
    );
    same(
        &rt,
        &(last, rest, headers.set_next_headers(IpNumber::UDP)),
        &(number, b"\x11\x01".as_slice(), number),
    );
    same(&rt, &headers, &authentication(&rt));
}

/// Asserts that IPv4 extension headers that start with the IP protocol number `first` are written as the given bytes.
fn writes_ipv4(
    rt: &impl Abort,
    alloc: Global,
    headers: &Ipv4Extensions,
    first: IpNumber,
    bytes: &[u8],
) {
    let mut buf = full(rt, alloc);
    let written = headers.write(&mut buf, first).is_ok();
    is_written(rt, written, &buf, bytes);
}

#[test]
fn writes_headers_of_ipv4(rt: HostRuntime) {
    let number = IpNumber::AUTHENTICATION_HEADER;
    let headers = authentication(&rt);
    let bytes = b"\x11\x01\x00\x00\x00\x00\x00\x05\x00\x00\x00\x06";
    writes_ipv4(&rt, rt.alloc(), &headers, number, bytes);
    let headers = Ipv4Extensions {
        auth: Some(greatest_authentication(&rt, 17)),
    };
    let parts: [&[u8]; 2] = [
        b"\x11\xff\x00\x00\x00\x00\x00\x05\x00\x00\x00\x06",
        GREATEST_ICV,
    ];
    let bytes = parts.concat(rt.alloc()).expect(&rt, "no memory");
    writes_ipv4(&rt, rt.alloc(), &headers, number, &bytes);
    let none = Ipv4Extensions::default();
    writes_ipv4(&rt, rt.alloc(), &none, IpNumber::UDP, b"");
}

#[test]
fn refuses_links_of_ipv4(rt: HostRuntime) {
    let error = || ipv4_exts::ExtsWalkError::ExtNotReferenced {
        missing_ext: IpNumber::AUTHENTICATION_HEADER,
    };
    let headers = authentication(&rt);
    same(
        &rt,
        &headers.next_header(IpNumber::UDP).err(),
        &Some(error()),
    );
    let mut written = Vec::new(rt.alloc());
    same(
        &rt,
        &headers.write(&mut written, IpNumber::UDP).err(),
        &Some(ipv4_exts::HeaderWriteError::Content(error())),
    );
}
