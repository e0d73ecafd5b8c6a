//! Builder tests that write the largest frames into an empty vector without capacity, and into a full vector of 100,000
//! bytes. (`layer_tests` tests each header this way, and `memory_tests` the longest headers.)

use super::*;

/// Returns a vector of `len` bytes of value 7, without spare capacity.
fn full(rt: &impl Abort, alloc: Global, len: usize) -> Vec<u8> {
    let buf = vec![in alloc; 7; len].expect(rt, "no memory");
    same(rt, &buf.capacity(), &len);
    buf
}

/// Last header of a frame that a test builds, before the payload.
#[derive(Clone, Copy)]
enum Last {
    Ipv4,
    Ipv6,
    Udp,
    Tcp,
    Icmpv4,
    Icmpv6,
}

/// Starts a frame with an Ethernet II header, two VLAN tags and an IPv4 header.
fn tagged_ipv4() -> PacketBuilderStep<IpHeaders> {
    let ethernet = PacketBuilder::ethernet2([1; 6], [2; 6]);
    ethernet
        .double_vlan(VlanId::ZERO, VlanId::ZERO)
        .ipv4([1; 4], [2; 4], 1)
}

/// Starts a frame with an Ethernet II header, two VLAN tags and an IPv6 header.
fn tagged_ipv6() -> PacketBuilderStep<IpHeaders> {
    let ethernet = PacketBuilder::ethernet2([1; 6], [2; 6]);
    ethernet
        .double_vlan(VlanId::ZERO, VlanId::ZERO)
        .ipv6([1; 16], [2; 16], 1)
}

/// Appends a frame to `buf`: Ethernet II, two VLAN tags, IPv4 or IPv6 as `last` needs it, the header `last` and the
/// payload.
fn append(last: Last, payload: &[u8], buf: &mut Vec<u8>) -> Result<(), BuildWriteError> {
    let number = IpNumber(253);
    match last {
        Last::Ipv4 => tagged_ipv4().write(buf, number, payload),
        Last::Icmpv4 => tagged_ipv4().icmpv4_echo_request(1, 2).write(buf, payload),
        Last::Tcp => tagged_ipv4().tcp(1, 2, 3, 4).write(buf, payload),
        Last::Ipv6 => tagged_ipv6().write(buf, number, payload),
        Last::Udp => tagged_ipv6().udp(1, 2).write(buf, payload),
        Last::Icmpv6 => tagged_ipv6().icmpv6_echo_reply(1, 2).write(buf, payload),
    }
}

/// Asserts that a frame whose last header is `last`, with `payload_len` zeros as payload, is written as `len` bytes,
/// into an empty vector and after 100,000 bytes.
fn builds(rt: &impl Abort, alloc: Global, last: Last, payload_len: usize, len: usize) {
    let payload = vec![in alloc; 0; payload_len].expect(rt, "no memory");
    let mut buf = Vec::new(alloc);
    same(rt, &append(last, &payload, &mut buf), &Ok(()));
    same(rt, &buf.len(), &len);
    let mut buf = full(rt, alloc, 100_000);
    same(rt, &append(last, &payload, &mut buf), &Ok(()));
    same(rt, &buf.len().saturating_sub(100_000), &len);
}

/// The longest IPv4 packets (65,535 bytes), and IPv6 packets with the longest payload (65,535 bytes), are built after an
/// Ethernet II header and two VLAN tags.
#[test]
fn longest_frames(rt: HostRuntime) {
    for (last, payload_len, len) in [
        (Last::Ipv4, 65515, 22 + 65535),
        (Last::Icmpv4, 65507, 22 + 65535),
        (Last::Tcp, 65495, 22 + 65535),
        (Last::Ipv6, 65535, 65597),
        (Last::Udp, 65527, 65597),
        (Last::Icmpv6, 65527, 65597),
    ] {
        builds(&rt, rt.alloc(), last, payload_len, len);
    }
}
