//! Tests that the types and codes of ICMPv4 and ICMPv6 messages are parsed and written.

use crate::tests::checks::same;
use ep_transport::{
    IcmpEchoHeader, Icmpv4Slice, Icmpv4Type, Icmpv6Slice, Icmpv6Type, icmpv4, icmpv6,
};
use std::process::Abort;

fn echo() -> IcmpEchoHeader {
    IcmpEchoHeader { id: 123, seq: 456 }
}

/// Parses an ICMPv4 message of 8 bytes, and asserts its type and the bytes that its header is written as.
fn reads_v4(rt: &impl Abort, bytes: [u8; 8], icmp_type: Icmpv4Type, written: [u8; 8]) {
    let message = Icmpv4Slice::from_slice(&bytes).expect(rt, "refused");
    same(rt, &message.icmp_type(), &icmp_type);
    same(
        rt,
        &message.header().to_bytes().as_slice(),
        &written.as_slice(),
    );
}

fn reads_v6(rt: &impl Abort, bytes: [u8; 8], icmp_type: Icmpv6Type, written: [u8; 8]) {
    let message = Icmpv6Slice::from_slice(&bytes).expect(rt, "refused");
    same(rt, &message.icmp_type(), &icmp_type);
    same(rt, &message.header().to_bytes(), &written);
}

#[test]
fn echoes(rt: HostRuntime) {
    let bytes = [0, 0, 1, 2, 0, 123, 1, 200];
    reads_v4(&rt, bytes, Icmpv4Type::EchoReply(echo()), bytes);
    let bytes = [8, 0, 1, 2, 0, 123, 1, 200];
    reads_v4(&rt, bytes, Icmpv4Type::EchoRequest(echo()), bytes);
    let bytes = [128, 0, 1, 2, 0, 123, 1, 200];
    reads_v6(&rt, bytes, Icmpv6Type::EchoRequest(echo()), bytes);
    let bytes = [129, 0, 1, 2, 0, 123, 1, 200];
    reads_v6(&rt, bytes, Icmpv6Type::EchoReply(echo()), bytes);
}

#[test]
fn unreachable_v4(rt: HostRuntime) {
    for code in 0..16 {
        // the next-hop MTU is read with code 4 only
        let [m0, m1] = if code == 4 { [5, 6] } else { [0, 0] };
        let next_hop_mtu = u16::from_be_bytes([m0, m1]);
        let unreachable = Icmpv4Type::DestinationUnreachable { code, next_hop_mtu };
        let bytes = [3, code, 1, 2, 3, 4, 5, 6];
        reads_v4(&rt, bytes, unreachable, [3, code, 1, 2, 0, 0, m0, m1]);
    }
}

#[test]
fn redirects(rt: HostRuntime) {
    for code in 0..4 {
        let gateway = [3, 4, 5, 6];
        let bytes = [5, code, 1, 2, 3, 4, 5, 6];
        reads_v4(&rt, bytes, Icmpv4Type::Redirect { code, gateway }, bytes);
    }
}

#[test]
fn exceeded_times(rt: HostRuntime) {
    let transit = Icmpv4Type::TimeExceeded(icmpv4::TimeExceededCode::TtlExceededInTransit);
    reads_v4(
        &rt,
        [11, 0, 1, 2, 3, 4, 5, 6],
        transit,
        [11, 0, 1, 2, 0, 0, 0, 0],
    );
    let reassembly = icmpv4::TimeExceededCode::FragmentReassemblyTimeExceeded;
    let reassembly = Icmpv4Type::TimeExceeded(reassembly);
    reads_v4(
        &rt,
        [11, 1, 1, 2, 3, 4, 5, 6],
        reassembly,
        [11, 1, 1, 2, 0, 0, 0, 0],
    );
    let transit = Icmpv6Type::TimeExceeded(icmpv6::TimeExceededCode::HopLimitExceeded);
    reads_v6(
        &rt,
        [3, 0, 1, 2, 3, 4, 5, 6],
        transit,
        [3, 0, 1, 2, 0, 0, 0, 0],
    );
    let reassembly = icmpv6::TimeExceededCode::FragmentReassemblyTimeExceeded;
    let reassembly = Icmpv6Type::TimeExceeded(reassembly);
    reads_v6(
        &rt,
        [3, 1, 1, 2, 3, 4, 5, 6],
        reassembly,
        [3, 1, 1, 2, 0, 0, 0, 0],
    );
}

#[test]
fn problems_v4(rt: HostRuntime) {
    for (code, pointer) in [(0, 3), (1, 0), (2, 0)] {
        let problem = Icmpv4Type::ParameterProblem { code, pointer };
        let bytes = [12, code, 1, 2, 3, 4, 5, 6];
        reads_v4(&rt, bytes, problem, [12, code, 1, 2, pointer, 0, 0, 0]);
    }
}

#[test]
fn unknown_types_v4(rt: HostRuntime) {
    for (type_u8, code_u8) in [
        (0, 1),
        (1, 0),
        (3, 16),
        (5, 4),
        (8, 1),
        (11, 2),
        (12, 3),
        (13, 1),
        (14, 255),
        (15, 0),
        (255, 255),
    ] {
        let unknown = Icmpv4Type::Unknown {
            type_u8,
            code_u8,
            bytes5to8: [3, 4, 5, 6],
        };
        let bytes = [type_u8, code_u8, 1, 2, 3, 4, 5, 6];
        reads_v4(&rt, bytes, unknown, bytes);
    }
}

#[test]
fn unreachable_v6(rt: HostRuntime) {
    for code in 0..7 {
        let unreachable = Icmpv6Type::DestinationUnreachable(code);
        let bytes = [1, code, 1, 2, 3, 4, 5, 6];
        reads_v6(&rt, bytes, unreachable, [1, code, 1, 2, 0, 0, 0, 0]);
    }
}

#[test]
fn too_big_v6(rt: HostRuntime) {
    let bytes = [2, 0, 1, 2, 3, 4, 5, 6];
    let too_big = Icmpv6Type::PacketTooBig { mtu: 0x03040506 };
    reads_v6(&rt, bytes, too_big, bytes);
}

#[test]
fn problems_v6(rt: HostRuntime) {
    for code in 0..3 {
        let problem = Icmpv6Type::ParameterProblem {
            code,
            pointer: 0x03040506,
        };
        let bytes = [4, code, 1, 2, 3, 4, 5, 6];
        reads_v6(&rt, bytes, problem, bytes);
    }
}

#[test]
fn unknown_types_v6(rt: HostRuntime) {
    for (type_u8, code_u8) in [
        (0, 0),
        (1, 7),
        (2, 1),
        (3, 2),
        (4, 3),
        (128, 1),
        (129, 1),
        (135, 0),
        (255, 255),
    ] {
        let unknown = Icmpv6Type::Unknown {
            type_u8,
            code_u8,
            bytes5to8: [3, 4, 5, 6],
        };
        let bytes = [type_u8, code_u8, 1, 2, 3, 4, 5, 6];
        reads_v6(&rt, bytes, unknown, bytes);
    }
}
