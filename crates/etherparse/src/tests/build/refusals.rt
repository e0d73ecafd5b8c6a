//! Tests of frames that the builder rejects, and of the texts of its errors.

use super::*;
use crate::err::{ValueTooBigError, ValueType, ipv4_exts, ipv6_exts};

/// Asserts that the builder rejected a frame with `error`, and that `buf` still has only the bytes from before the
/// call.
fn is_refused(
    rt: &impl Abort,
    answer: &Result<(), BuildWriteError>,
    buf: &[u8],
    error: BuildWriteError,
) {
    same(rt, answer, &Err(error));
    same(rt, &buf, &BEGUN.as_slice());
}

/// Bytes that are in the output buffer before the builder is called with values that it rejects.
const BEGUN: [u8; 5] = *b"begun";

fn begun(rt: &impl Abort, alloc: Global) -> Vec<u8> {
    Vec::from_array(alloc, BEGUN).expect(rt, "no memory")
}

fn zeros(rt: &impl Abort, alloc: Global, len: usize) -> Vec<u8> {
    vec![in alloc; 0; len].expect(rt, "no memory")
}

fn too_long(actual: usize, max_allowed: usize, value_type: ValueType) -> BuildWriteError {
    BuildWriteError::PayloadLen(ValueTooBigError {
        actual,
        max_allowed,
        value_type,
    })
}

#[test]
fn too_long_for_ipv4(rt: HostRuntime) {
    let payload = zeros(&rt, rt.alloc(), 65516);
    let mut buf = begun(&rt, rt.alloc());
    let answer = ethernet_ipv4().write(&mut buf, IpNumber(253), &payload);
    let error = too_long(65516, 65515, ValueType::Ipv4PayloadLength);
    is_refused(&rt, &answer, &buf, error);
}

#[test]
fn too_long_for_ipv6(rt: HostRuntime) {
    let payload = zeros(&rt, rt.alloc(), 65536);
    let mut buf = begun(&rt, rt.alloc());
    let answer = ipv6().write(&mut buf, IpNumber(253), &payload);
    let error = too_long(65536, 65535, ValueType::Ipv6PayloadLength);
    is_refused(&rt, &answer, &buf, error);
}

#[test]
fn too_long_icmpv6_in_ipv4(rt: HostRuntime) {
    let payload = zeros(&rt, rt.alloc(), 65508);
    let mut buf = begun(&rt, rt.alloc());
    let answer = ipv4()
        .icmpv6_echo_request(123, 456)
        .write(&mut buf, &payload);
    let error = too_long(65516, 65515, ValueType::Ipv4PayloadLength);
    is_refused(&rt, &answer, &buf, error);
}

#[test]
fn icmpv6_in_ipv4(rt: HostRuntime) {
    let mut buf = begun(&rt, rt.alloc());
    let answer = ipv4()
        .icmpv6_echo_request(123, 456)
        .write(&mut buf, PAYLOAD);
    is_refused(&rt, &answer, &buf, BuildWriteError::Icmpv6InIpv4);
}

#[test]
fn too_many_raw_options(rt: HostRuntime) {
    let refused = ipv4().tcp(1, 2, 3, 4).options_raw(&[1; 41]).err();
    same(
        &rt,
        &refused,
        &Some(TcpOptionWriteError::NotEnoughSpace(41)),
    );
}

#[test]
fn texts_of_errors(rt: HostRuntime) {
    let missing_ext = ip_number::AUTHENTICATION_HEADER;
    let missing = ipv4_exts::ExtsWalkError::ExtNotReferenced { missing_ext };
    let not_first = ipv6_exts::ExtsWalkError::HopByHopNotAtStart;
    for (error, text) in [
        (
            too_long(65516, 65515, ValueType::Ipv4PayloadLength),
            "Ipv4PayloadLength: 65516 is above 65515",
        ),
        (BuildWriteError::OutOfMemory, "out of memory"),
        (
            BuildWriteError::ArpHeaderNotMatch,
            "address size defined in the ARP header does not match the actual size",
        ),
        (
            BuildWriteError::Icmpv6InIpv4,
            "Error: ICMPv6 can not be combined with an IPv4 headers (checksum can not be calculated).",
        ),
        (BuildWriteError::Ipv4Exts(missing), "ExtNotReferenced 51"),
        (BuildWriteError::Ipv6Exts(not_first), "HopByHopNotAtStart"),
    ] {
        shows(&rt, rt.alloc(), &error, text);
    }
    let text = "slice is too small: the frame has 50 bytes";
    shows(&rt, rt.alloc(), &BuildSliceWriteError::Space(50), text);
    let error = BuildSliceWriteError::Build(BuildWriteError::OutOfMemory);
    shows(&rt, rt.alloc(), &error, "out of memory");
}
