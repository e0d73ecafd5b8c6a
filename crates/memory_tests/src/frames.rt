//! Tests that the packet builder writes a frame with one allocation. If it fails, the call returns an error and the
//! vector is unchanged. The frames have builder steps of each kind: link headers, tags, ARP, IP headers and transport
//! headers.

use crate::checks::*;
use crate::samples::*;
use etherparse::err::packet::BuildWriteError;
use etherparse::*;
use std::process::Abort;

/// Last header of a frame that a test builds. It chooses among eight test frames.
#[derive(Clone, Copy)]
enum Last {
    Arp,
    Ipv4,
    Udp,
    Tcp,
    Icmpv4,
    Icmpv6,
    Extensions,
    Cooked,
}

/// Returns a packet builder that has an Ethernet II header and no further header yet.
fn ethernet() -> PacketBuilderStep<Ethernet2Header> {
    PacketBuilder::ethernet2([1; 6], [2; 6])
}

/// Appends the test frame that ends with the header `last`, with a payload of 8 bytes (except for ARP), to a vector.
fn append(rt: &impl Abort, last: Last, buf: &mut Vec<u8>) -> Result<(), BuildWriteError> {
    let payload = b"abcdefgh";
    match last {
        Last::Arp => ethernet()
            .single_vlan(VlanId::ZERO)
            .arp(longest_arp(rt))
            .write(buf),
        Last::Ipv4 => ethernet()
            .ipv4([1; 4], [2; 4], 1)
            .write(buf, IpNumber(253), payload),
        Last::Udp => ethernet()
            .ipv4([192, 168, 1, 1], [192, 168, 1, 2], 20)
            .udp(21, 1234)
            .write(buf, payload),
        Last::Tcp => PacketBuilder::ipv4([1; 4], [2; 4], 1)
            .tcp(1, 2, 3, 4)
            .write(buf, payload),
        Last::Icmpv4 => {
            let ip = ethernet()
                .double_vlan(VlanId::ZERO, VlanId::ZERO)
                .ipv4([1; 4], [2; 4], 1);
            ip.icmpv4_echo_request(1, 2).write(buf, payload)
        }
        Last::Icmpv6 => {
            let ip = PacketBuilder::ipv6([1; 16], [2; 16], 1);
            ip.icmpv6_echo_reply(1, 2).write(buf, payload)
        }
        Last::Extensions => ethernet()
            .ip(longest_ipv6(rt))
            .udp(1, 2)
            .write(buf, payload),
        Last::Cooked => {
            let link = PacketBuilder::linux_sll(LinuxSllPacketType::HOST, 6, [1; 8]);
            link.ip(longest_ipv4(rt)).udp(1, 2).write(buf, payload)
        }
    }
}

/// Asserts that the builder appends a frame of `len` bytes to a vector. If the allocation fails, it prints `name`, and
/// asserts that the vector's length is unchanged and a second try succeeds.
fn builds(rt: &(impl Abort + Print), buf: &mut Vec<u8>, name: &str, last: Last, len: usize) {
    let before = buf.len();
    let mut answer = append(rt, last, buf);
    if answer == Err(BuildWriteError::OutOfMemory) {
        refused(rt, name);
        same(rt, &buf.len(), &before);
        answer = append(rt, last, buf);
    }
    same(rt, &answer, &Ok(()));
    same(rt, &buf.len().saturating_sub(before), &len);
}

/// Tests that the builder writes each frame to an empty vector, at the second try if an allocation fails.
#[test]
fn of_each_kind(rt: HostRuntime) {
    for (name, last, len) in [
        ("write of the builder, ARP", Last::Arp, 14 + 4 + 1028),
        ("write of the builder, IPv4", Last::Ipv4, 14 + 20 + 8),
        ("write of the builder, UDP", Last::Udp, 14 + 20 + 8 + 8),
        ("write of the builder, TCP", Last::Tcp, 20 + 20 + 8),
        (
            "write of the builder, ICMPv4",
            Last::Icmpv4,
            14 + 8 + 20 + 8 + 8,
        ),
        ("write of the builder, ICMPv6", Last::Icmpv6, 40 + 8 + 8),
        (
            "write of the builder, extension headers",
            Last::Extensions,
            14 + 9268 + 8 + 8,
        ),
        (
            "write of the builder, Linux cooked capture",
            Last::Cooked,
            16 + 1088 + 8 + 8,
        ),
    ] {
        builds(&rt, &mut Vec::new(rt.alloc()), name, last, len);
    }
}

/// Tests that the builder appends a frame to a vector of 3 bytes without spare capacity, and that these bytes stay.
#[test]
fn after_existing_bytes(rt: HostRuntime) {
    let mut buf = full(&rt, rt.alloc(), b"abc");
    builds(
        &rt,
        &mut buf,
        "write of the builder",
        Last::Udp,
        14 + 20 + 8 + 8,
    );
    same(&rt, &buf.get(..3), &Some(b"abc".as_slice()));
}
