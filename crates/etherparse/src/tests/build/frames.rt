//! Builder tests with external test vectors. Most tests append their frames to one vector and compare it once.

use super::*;

/// Ethernet II header before an IPv4 packet, without a VLAN tag. `TAG` and `TAGS` have one and two tags; names that end
/// in `_6` are for IPv6.
const ETHERNET: &[u8] = b"\x07\x08\x09\x0a\x0b\x0c\x01\x02\x03\x04\x05\x06\x08\x00";

const ETHERNET_6: &[u8] = b"\x07\x08\x09\x0a\x0b\x0c\x01\x02\x03\x04\x05\x06\x86\xdd";

const TAG: &[u8] = b"\x07\x08\x09\x0a\x0b\x0c\x01\x02\x03\x04\x05\x06\x81\x00\x01\x23\x08\x00";

const TAG_6: &[u8] = b"\x07\x08\x09\x0a\x0b\x0c\x01\x02\x03\x04\x05\x06\x81\x00\x01\x23\x86\xdd";

const TAGS: &[u8] = b"\x07\x08\x09\x0a\x0b\x0c\x01\x02\x03\x04\x05\x06\
      \x88\xa8\x01\x23\x81\x00\x02\x34\x08\x00";

const TAGS_6: &[u8] = b"\x07\x08\x09\x0a\x0b\x0c\x01\x02\x03\x04\x05\x06\
      \x88\xa8\x01\x23\x81\x00\x02\x34\x86\xdd";

/// Linux cooked capture header (SLL) before an IPv4 packet, with packet type 3 (to another host); `SLL_6` is for IPv6.
const SLL: &[u8] = b"\x00\x03\x00\x01\x00\x06\x01\x02\x03\x04\x05\x06\x00\x00\x08\x00";

const SLL_6: &[u8] = b"\x00\x03\x00\x01\x00\x06\x01\x02\x03\x04\x05\x06\x00\x00\x86\xdd";

/// IPv4 header before the UDP datagram `UDP`, from 192.168.1.1 to 192.168.1.2; `IP_6` and `UDP_6` are their IPv6
/// counterparts.
const IP: &[u8] =
    b"\x45\x00\x00\x24\x00\x00\x40\x00\x14\x11\xe3\x75\xc0\xa8\x01\x01\xc0\xa8\x01\x02";

const UDP: &[u8] = b"\x00\x15\x04\xd2\x00\x10\x67\x7f\x01\x02\x03\x04\x05\x06\x07\x08";

const IP_6: &[u8] = b"\x60\x00\x00\x00\x00\x10\x11\x2f\
      \x0b\x0c\x0d\x0e\x0f\x10\x11\x12\x13\x0a\x15\x16\x17\x18\x19\x1a\
      \x1f\x20\x21\x22\x23\x24\x25\x26\x27\x28\x29\x2a\x2b\x2c\x2d\x2e";

const UDP_6: &[u8] = b"\x00\x15\x04\xd2\x00\x10\x29\x0c\x01\x02\x03\x04\x05\x06\x07\x08";

/// IPv4 header before an ICMPv4 message (`ICMP_REQUEST` or `ICMP_REPLY`); `ICMP_IP_6` is the IPv6 header before ICMPv6
/// messages.
const ICMP_IP: &[u8] =
    b"\x45\x00\x00\x24\x00\x00\x40\x00\x14\x01\xe3\x85\xc0\xa8\x01\x01\xc0\xa8\x01\x02";

const ICMP_REQUEST: &[u8] = b"\x08\x00\xe5\xa8\x00\x7b\x01\xc8\x01\x02\x03\x04\x05\x06\x07\x08";

const ICMP_REPLY: &[u8] = b"\x00\x00\xef\xe8\x00\x01\x00\x02\x01\x02\x03\x04\x05\x06\x07\x08";

/// ICMPv4 message of type 200 and code 1, with the payload bytes 1 to 8.
const ICMP_RAW: &[u8] = b"\xc8\x01\x23\xe4\x01\x02\x03\x04\x01\x02\x03\x04\x05\x06\x07\x08";

const ICMP_IP_6: &[u8] = b"\x60\x00\x00\x00\x00\x10\x3a\x2f\
      \x0b\x0c\x0d\x0e\x0f\x10\x11\x12\x13\x0a\x15\x16\x17\x18\x19\x1a\
      \x1f\x20\x21\x22\x23\x24\x25\x26\x27\x28\x29\x2a\x2b\x2c\x2d\x2e";

const ICMPV6_REQUEST: &[u8] = b"\x80\x00\xad\xd6\x00\x01\x00\x02\x01\x02\x03\x04\x05\x06\x07\x08";

/// Ethernet II header before an ARP packet. `TAGS_ARP` also has two VLAN tags, and `SLL_ARP` is a Linux cooked capture
/// header.
const ETHERNET_ARP: &[u8] = b"\x07\x08\x09\x0a\x0b\x0c\x01\x02\x03\x04\x05\x06\x08\x06";

const TAGS_ARP: &[u8] = b"\x07\x08\x09\x0a\x0b\x0c\x01\x02\x03\x04\x05\x06\
      \x88\xa8\x01\x23\x81\x00\x02\x34\x08\x06";

const SLL_ARP: &[u8] = b"\x00\x03\x00\x01\x00\x06\x01\x02\x03\x04\x05\x06\x00\x00\x08\x06";

/// IPv4 header before the TCP segment `TCP`, which has no options. The segment `FLAGS` has every flag, the
/// acknowledgment number, the urgent pointer and an option; `OPTIONS`, over IPv6, has raw options that end in padding.
const TCP_IP: &[u8] =
    b"\x45\x00\x00\x30\x00\x00\x40\x00\x14\x06\xe3\x74\xc0\xa8\x01\x01\xc0\xa8\x01\x02";

const TCP: &[u8] =
    b"\x00\x15\x00\x0c\x00\x00\x30\x39\x00\x00\x00\x00\x50\x00\x0f\xa0\xdc\x7a\x00\x00\
      \x01\x02\x03\x04\x05\x06\x07\x08";

const FLAGS_IP: &[u8] =
    b"\x45\x00\x00\x34\x00\x00\x40\x00\x14\x06\xe3\x70\xc0\xa8\x01\x01\xc0\xa8\x01\x02";

const FLAGS: &[u8] =
    b"\x00\x01\x00\x02\x00\x00\x00\x03\x00\x00\x00\x05\x61\xff\x00\x04\x00\x5a\x00\x06\
      \x03\x03\x07\x00\x01\x02\x03\x04\x05\x06\x07\x08";

const TCP_IP_6: &[u8] = b"\x60\x00\x00\x00\x00\x1c\x06\x2f\
      \x0b\x0c\x0d\x0e\x0f\x10\x11\x12\x13\x0a\x15\x16\x17\x18\x19\x1a\
      \x1f\x20\x21\x22\x23\x24\x25\x26\x27\x28\x29\x2a\x2b\x2c\x2d\x2e";

const TCP_6: &[u8] =
    b"\x00\x15\x00\x0c\x00\x00\x30\x39\x00\x00\x00\x00\x50\x00\x0f\xa0\x9e\x07\x00\x00\
      \x01\x02\x03\x04\x05\x06\x07\x08";

const OPTIONS_IP_6: &[u8] = b"\x60\x00\x00\x00\x00\x20\x06\x2f\
      \x0b\x0c\x0d\x0e\x0f\x10\x11\x12\x13\x0a\x15\x16\x17\x18\x19\x1a\
      \x1f\x20\x21\x22\x23\x24\x25\x26\x27\x28\x29\x2a\x2b\x2c\x2d\x2e";

const OPTIONS: &[u8] =
    b"\x00\x01\x00\x02\x00\x00\x00\x03\x00\x00\x00\x00\x60\x00\x00\x04\xcb\xf2\x00\x00\
      \x01\x01\x01\x00\x01\x02\x03\x04\x05\x06\x07\x08";

/// ICMPv6 echo reply (type 129) with identifier 123, sequence number 456 and the payload bytes 1 to 8; `ICMPV6_RAW` is
/// a message of type 200.
const ICMPV6_REPLY: &[u8] = b"\x81\x00\xaa\x96\x00\x7b\x01\xc8\x01\x02\x03\x04\x05\x06\x07\x08";

const ICMPV6_RAW: &[u8] = b"\xc8\x00\x61\xd3\x01\x02\x03\x04\x01\x02\x03\x04\x05\x06\x07\x08";

/// IPv6 header from and to the unspecified address, then hop-by-hop options and an authentication header;
/// `EXTENSIONS_UDP` is the UDP datagram after them.
const EXTENSIONS_IP_6: &[u8] = b"\x60\x00\x00\x00\x00\x24\x00\x00\
      \x00\x00\x00\x00\x00\x00\x00\x00\x00\x00\x00\x00\x00\x00\x00\x00\
      \x00\x00\x00\x00\x00\x00\x00\x00\x00\x00\x00\x00\x00\x00\x00\x00\
      \x33\x00\x01\x04\x00\x00\x00\x00\x11\x01\x00\x00\x00\x00\x00\x02\x00\x00\x00\x03";

const EXTENSIONS_UDP: &[u8] = b"\x00\x15\x04\xd2\x00\x10\xea\xd3\x01\x02\x03\x04\x05\x06\x07\x08";

/// Returns an IPv6 header (hop limit 47) without extension headers, to be passed to the packet builder.
fn ipv6_headers() -> IpHeaders {
    let header = Ipv6Header {
        hop_limit: 47,
        source: SOURCE,
        destination: DESTINATION,
        ..Default::default()
    };
    IpHeaders::Ipv6(header, Ipv6Extensions::default())
}

/// Returns a VLAN identifier. Aborts the test if `id` is above 4095.
fn vlan_id(rt: &impl Abort, id: u16) -> VlanId {
    VlanId::try_new(id).expect(rt, "above 4095")
}

fn one_tag(rt: &impl Abort) -> PacketBuilderStep<VlanHeader> {
    ethernet().single_vlan(vlan_id(rt, 0x123))
}

fn two_tags(rt: &impl Abort) -> PacketBuilderStep<VlanHeader> {
    ethernet().double_vlan(vlan_id(rt, 0x123), vlan_id(rt, 0x234))
}

fn cooked() -> PacketBuilderStep<LinuxSllHeader> {
    PacketBuilder::linux_sll(LinuxSllPacketType::OTHERHOST, 6, [1, 2, 3, 4, 5, 6, 0, 0])
}

/// Returns a VLAN tag with ether type 0, which the builder replaces by the type of the next header.
fn tag_header(rt: &impl Abort, id: u16) -> SingleVlanHeader {
    SingleVlanHeader {
        pcp: VlanPcp::ZERO,
        drop_eligible_indicator: false,
        vlan_id: vlan_id(rt, id),
        ether_type: EtherType(0),
    }
}

/// Returns two VLAN tags, the outer one with identifier 0x123 and the inner one with 0x234.
fn tag_headers(rt: &impl Abort) -> VlanHeader {
    let outer = tag_header(rt, 0x123);
    let inner = tag_header(rt, 0x234);
    VlanHeader::Double(DoubleVlanHeader { outer, inner })
}

/// Builds an IPv4 header and a TCP header with every flag set, acknowledgment number 5, urgent pointer 6 and a window
/// scale option.
fn with_flags(rt: &impl Abort) -> PacketBuilderStep<TcpHeader> {
    let step = ipv4().tcp_header(TcpHeader::new(1, 2, 3, 4));
    let step = step.ns().fin().syn().rst().psh();
    let step = step.ack(5).urg(6).ece().cwr();
    let options = [TcpOptionElement::WindowScale(7)];
    step.options(&options).expect(rt, "of 3 bytes")
}

/// Returns an IPv6 header with hop-by-hop options and an authentication header.
fn with_extensions(rt: &impl Abort) -> IpHeaders {
    let options = Ipv6RawExtHeader::new_raw(IpNumber(255), &[1, 4, 0, 0, 0, 0]);
    let auth = IpAuthHeader::new(IpNumber(255), 2, 3, &[]);
    let extensions = Ipv6Extensions {
        hop_by_hop_options: Some(options.expect(rt, "of 6 bytes")),
        auth: Some(auth.expect(rt, "of no bytes")),
        ..Default::default()
    };
    IpHeaders::Ipv6(Ipv6Header::default(), extensions)
}

/// Asserts that the bytes of all built frames are the concatenation of the expected parts.
fn are_built(rt: &impl Abort, alloc: Global, frames: &Vec<u8>, parts: &[&[u8]]) {
    let parts = parts.concat(alloc).expect(rt, "no memory");
    same(rt, frames, &parts);
}

/// Appends a frame to `frames`: the headers begun in `ip`, a UDP header (port 21 to 1234) and the payload bytes 1 to 8.
fn push_udp(rt: &impl Abort, frames: &mut Vec<u8>, ip: PacketBuilderStep<IpHeaders>) {
    let written = ip.udp(21, 1234).write(frames, PAYLOAD);
    same(rt, &written, &Ok(()));
}

#[test]
fn after_ethernet(rt: HostRuntime) {
    let mut frames = Vec::new(rt.alloc());
    push_udp(&rt, &mut frames, ethernet_ipv4());
    push_udp(&rt, &mut frames, ethernet().ipv6(SOURCE, DESTINATION, 47));
    push_udp(&rt, &mut frames, ethernet().ip(ipv6_headers()));
    let written = ethernet().arp(arp_request(&rt)).write(&mut frames);
    same(&rt, &written, &Ok(()));
    let parts = [
        ETHERNET,
        IP,
        UDP,
        ETHERNET_6,
        IP_6,
        UDP_6,
        ETHERNET_6,
        IP_6,
        UDP_6,
        ETHERNET_ARP,
        ARP,
    ];
    are_built(&rt, rt.alloc(), &frames, &parts);
}

#[test]
fn after_a_cooked_header(rt: HostRuntime) {
    let mut frames = Vec::new(rt.alloc());
    push_udp(&rt, &mut frames, cooked().ipv4(SOURCE_4, DESTINATION_4, 20));
    push_udp(&rt, &mut frames, cooked().ipv6(SOURCE, DESTINATION, 47));
    push_udp(&rt, &mut frames, cooked().ip(ipv6_headers()));
    let written = cooked().arp(arp_request(&rt)).write(&mut frames);
    same(&rt, &written, &Ok(()));
    let parts = [
        SLL, IP, UDP, SLL_6, IP_6, UDP_6, SLL_6, IP_6, UDP_6, SLL_ARP, ARP,
    ];
    are_built(&rt, rt.alloc(), &frames, &parts);
}

#[test]
fn after_one_tag(rt: HostRuntime) {
    let mut frames = Vec::new(rt.alloc());
    push_udp(
        &rt,
        &mut frames,
        one_tag(&rt).ipv4(SOURCE_4, DESTINATION_4, 20),
    );
    push_udp(&rt, &mut frames, one_tag(&rt).ipv6(SOURCE, DESTINATION, 47));
    let tag = VlanHeader::Single(tag_header(&rt, 0x123));
    push_udp(&rt, &mut frames, ethernet().vlan(tag).ip(ipv6_headers()));
    let parts = [TAG, IP, UDP, TAG_6, IP_6, UDP_6, TAG_6, IP_6, UDP_6];
    are_built(&rt, rt.alloc(), &frames, &parts);
}

/// Returns a VLAN tag with these fields: priority code point (PCP), drop eligible indicator (DEI) and identifier.
fn tag(rt: &impl Abort, (pcp, eligible, id): (u8, bool, u16)) -> SingleVlanHeader {
    SingleVlanHeader {
        pcp: VlanPcp::try_new(pcp).expect(rt, "above 7"),
        drop_eligible_indicator: eligible,
        vlan_id: vlan_id(rt, id),
        ether_type: EtherType(0),
    }
}

/// Asserts the bytes from 12 on of a frame with an Ethernet II header, these VLAN tags and an ARP packet: the ether
/// types and the tags.
fn has_tags(rt: &impl Abort, alloc: Global, tags: VlanHeader, bytes: &[u8]) {
    let mut frame = Vec::new(alloc);
    let written = ethernet().vlan(tags).arp(arp_request(rt)).write(&mut frame);
    same(rt, &written, &Ok(()));
    let end = bytes.len().saturating_add(12);
    same(rt, &frame.get(12..end), &Some(bytes));
}

/// Tests tags with each bit of PCP and with DEI (IEEE 802.1Q, 9.6): alone, and as the outer and the inner of two tags.
#[test]
fn priorities_of_tags(rt: HostRuntime) {
    for (fields, bytes) in [
        ((4, false, 0x123), [0x81, 0, 0x81, 0x23, 8, 6]),
        ((2, false, 0x123), [0x81, 0, 0x41, 0x23, 8, 6]),
        ((1, false, 0x123), [0x81, 0, 0x21, 0x23, 8, 6]),
        ((0, true, 0x123), [0x81, 0, 0x11, 0x23, 8, 6]),
    ] {
        let tags = VlanHeader::Single(tag(&rt, fields));
        has_tags(&rt, rt.alloc(), tags, &bytes);
    }
    for (outer, inner, bytes) in [
        (
            (5, false, 0x123),
            (2, true, 0x234),
            b"\x88\xa8\xa1\x23\x81\x00\x52\x34\x08\x06",
        ),
        (
            (2, true, 0x123),
            (5, false, 0x234),
            b"\x88\xa8\x51\x23\x81\x00\xa2\x34\x08\x06",
        ),
    ] {
        let (outer, inner) = (tag(&rt, outer), tag(&rt, inner));
        let tags = VlanHeader::Double(DoubleVlanHeader { outer, inner });
        has_tags(&rt, rt.alloc(), tags, bytes);
    }
}

#[test]
fn after_two_tags(rt: HostRuntime) {
    let mut frames = Vec::new(rt.alloc());
    push_udp(
        &rt,
        &mut frames,
        two_tags(&rt).ipv4(SOURCE_4, DESTINATION_4, 20),
    );
    push_udp(
        &rt,
        &mut frames,
        ethernet().vlan(tag_headers(&rt)).ip(ipv6_headers()),
    );
    let written = two_tags(&rt).arp(arp_request(&rt)).write(&mut frames);
    same(&rt, &written, &Ok(()));
    let parts = [TAGS, IP, UDP, TAGS_6, IP_6, UDP_6, TAGS_ARP, ARP];
    are_built(&rt, rt.alloc(), &frames, &parts);
}

/// UDP datagrams without a link header, over IPv4, IPv6 and IPv6 with extension headers. The checksum of the first one
/// is computed as 0 and written as 0xffff.
#[test]
fn udp(rt: HostRuntime) {
    let mut frames = Vec::new(rt.alloc());
    let written = ipv4().udp(21, 1234).write(&mut frames, &[0x77, 0x9f]);
    same(&rt, &written, &Ok(()));
    push_udp(&rt, &mut frames, ipv6());
    push_udp(&rt, &mut frames, PacketBuilder::ip(with_extensions(&rt)));
    let net = b"\x45\x00\x00\x1e\x00\x00\x40\x00\x14\x11\xe3\x7b\xc0\xa8\x01\x01\xc0\xa8\x01\x02";
    let of_ones = b"\x00\x15\x04\xd2\x00\x0a\xff\xff\x77\x9f";
    let parts = [
        net.as_slice(),
        of_ones,
        IP_6,
        UDP_6,
        EXTENSIONS_IP_6,
        EXTENSIONS_UDP,
    ];
    are_built(&rt, rt.alloc(), &frames, &parts);
}

/// Appends a packet to `frames`: the headers begun in `tcp`, which end in a TCP header, and the payload bytes 1 to 8.
fn push_tcp(rt: &impl Abort, frames: &mut Vec<u8>, tcp: PacketBuilderStep<TcpHeader>) {
    let written = tcp.write(frames, PAYLOAD);
    same(rt, &written, &Ok(()));
}

#[test]
fn tcp(rt: HostRuntime) {
    let mut frames = Vec::new(rt.alloc());
    push_tcp(&rt, &mut frames, ipv4().tcp(21, 12, 12345, 4000));
    push_tcp(&rt, &mut frames, with_flags(&rt));
    push_tcp(&rt, &mut frames, ipv6().tcp(21, 12, 12345, 4000));
    let raw = ipv6().tcp(1, 2, 3, 4).options_raw(&[1, 1, 1]);
    push_tcp(&rt, &mut frames, raw.expect(&rt, "of 3 bytes"));
    let parts = [
        TCP_IP,
        TCP,
        FLAGS_IP,
        FLAGS,
        TCP_IP_6,
        TCP_6,
        OPTIONS_IP_6,
        OPTIONS,
    ];
    are_built(&rt, rt.alloc(), &frames, &parts);
}

/// Builds an IPv4 header and a TCP header without flags, acknowledgment number, urgent pointer and options.
fn without_flags() -> PacketBuilderStep<TcpHeader> {
    ipv4().tcp(1, 2, 3, 4)
}

/// Asserts that the TCP header begun in `tcp`, after an IPv4 header of 20 bytes, is written with the given bytes 8 to 11
/// (acknowledgment number), 12 and 13 (data offset and flags), and 18 and 19 (urgent pointer).
fn has_flag(
    rt: &impl Abort,
    alloc: Global,
    tcp: PacketBuilderStep<TcpHeader>,
    (number, flags, pointer): ([u8; 4], [u8; 2], [u8; 2]),
) {
    let mut frame = Vec::new(alloc);
    push_tcp(rt, &mut frame, tcp);
    let shown = (frame.get(28..32), frame.get(32..34), frame.get(38..40));
    let expected = (number.as_slice(), flags.as_slice(), pointer.as_slice());
    let (number, flags, pointer) = expected;
    same(rt, &shown, &(Some(number), Some(flags), Some(pointer)));
}

/// Tests each flag alone: its bit in the figure of RFC 9293, 3.1, and that of NS in RFC 3540.
#[test]
fn tcp_flags(rt: HostRuntime) {
    for (tcp, bytes) in [
        (without_flags(), ([0; 4], [0x50, 0x00], [0; 2])),
        (without_flags().ns(), ([0; 4], [0x51, 0x00], [0; 2])),
        (without_flags().cwr(), ([0; 4], [0x50, 0x80], [0; 2])),
        (without_flags().ece(), ([0; 4], [0x50, 0x40], [0; 2])),
        (without_flags().urg(0x0102), ([0; 4], [0x50, 0x20], [1, 2])),
        (
            without_flags().ack(0x0102_0304),
            ([1, 2, 3, 4], [0x50, 0x10], [0; 2]),
        ),
        (without_flags().psh(), ([0; 4], [0x50, 0x08], [0; 2])),
        (without_flags().rst(), ([0; 4], [0x50, 0x04], [0; 2])),
        (without_flags().syn(), ([0; 4], [0x50, 0x02], [0; 2])),
        (without_flags().fin(), ([0; 4], [0x50, 0x01], [0; 2])),
    ] {
        has_flag(&rt, rt.alloc(), tcp, bytes);
    }
}

/// Appends a packet to `frames`: the headers begun in `icmp`, which end in an ICMPv4 header, and the payload bytes 1 to
/// 8.
fn push_icmpv4(rt: &impl Abort, frames: &mut Vec<u8>, icmp: PacketBuilderStep<Icmpv4Header>) {
    let written = icmp.write(frames, PAYLOAD);
    same(rt, &written, &Ok(()));
}

#[test]
fn icmpv4(rt: HostRuntime) {
    let reply = Icmpv4Type::EchoReply(IcmpEchoHeader { id: 1, seq: 2 });
    let mut frames = Vec::new(rt.alloc());
    push_icmpv4(&rt, &mut frames, ipv4().icmpv4_echo_request(123, 456));
    push_icmpv4(&rt, &mut frames, ipv4().icmpv4_echo_reply(1, 2));
    push_icmpv4(&rt, &mut frames, ipv4().icmpv4_raw(0, 0, [0, 1, 0, 2]));
    push_icmpv4(&rt, &mut frames, ipv4().icmpv4(reply));
    push_icmpv4(&rt, &mut frames, ipv4().icmpv4_raw(200, 1, [1, 2, 3, 4]));
    let parts = [
        ICMP_IP,
        ICMP_REQUEST,
        ICMP_IP,
        ICMP_REPLY,
        ICMP_IP,
        ICMP_REPLY,
        ICMP_IP,
        ICMP_REPLY,
        ICMP_IP,
        ICMP_RAW,
    ];
    are_built(&rt, rt.alloc(), &frames, &parts);
}

/// Appends a packet to `frames`: the headers begun in `icmp`, which end in an ICMPv6 header, and the payload bytes 1 to
/// 8.
fn push_icmpv6(rt: &impl Abort, frames: &mut Vec<u8>, icmp: PacketBuilderStep<Icmpv6Header>) {
    let written = icmp.write(frames, PAYLOAD);
    same(rt, &written, &Ok(()));
}

#[test]
fn icmpv6(rt: HostRuntime) {
    let request = Icmpv6Type::EchoRequest(IcmpEchoHeader { id: 1, seq: 2 });
    let mut frames = Vec::new(rt.alloc());
    push_icmpv6(&rt, &mut frames, ipv6().icmpv6_echo_request(1, 2));
    push_icmpv6(&rt, &mut frames, ipv6().icmpv6(request));
    push_icmpv6(&rt, &mut frames, ipv6().icmpv6_echo_reply(123, 456));
    push_icmpv6(&rt, &mut frames, ipv6().icmpv6_raw(200, 0, [1, 2, 3, 4]));
    let parts = [
        ICMP_IP_6,
        ICMPV6_REQUEST,
        ICMP_IP_6,
        ICMPV6_REQUEST,
        ICMP_IP_6,
        ICMPV6_REPLY,
        ICMP_IP_6,
        ICMPV6_RAW,
    ];
    are_built(&rt, rt.alloc(), &frames, &parts);
}

/// Asserts that the builder writes the bytes `fragment` from the given IP headers and a payload with IP protocol
/// `number`. The payload is `fragment` without its first `header_len` bytes.
fn is_fragment(
    rt: &impl Abort,
    alloc: Global,
    headers: IpHeaders,
    number: IpNumber,
    fragment: &[u8],
    header_len: usize,
) {
    let payload = fragment.get(header_len..).expect(rt, "a payload");
    let mut frame = Vec::new(alloc);
    let written = PacketBuilder::ip(headers).write(&mut frame, number, payload);
    same(rt, &written, &Ok(()));
    same(rt, &frame.as_slice(), &fragment);
}

#[test]
fn fragments(rt: HostRuntime) {
    let (first, last) = (ipv4_fragment(&rt, 0, true), ipv4_fragment(&rt, 2, false));
    is_fragment(&rt, rt.alloc(), first, IpNumber(253), FIRST_IPV4, 20);
    is_fragment(&rt, rt.alloc(), last, IpNumber(253), LAST_IPV4, 20);
    let (first, last) = (ipv6_fragment(&rt, 0, true), ipv6_fragment(&rt, 1, false));
    is_fragment(&rt, rt.alloc(), first, IpNumber::UDP, FIRST_IPV6, 48);
    is_fragment(&rt, rt.alloc(), last, IpNumber::UDP, LAST_IPV6, 48);
}

/// The checksums computed for a TCP segment over IPv4 and one over IPv6 are equal to the checksums in their headers.
#[test]
fn tcp_checksums(rt: HostRuntime) {
    let tcp = TcpSlice::from_slice(TCP).expect(&rt, "refused");
    let sum = tcp.calc_checksum_ipv4(SOURCE_4, DESTINATION_4);
    same(&rt, &sum, &Ok(tcp.checksum()));
    let tcp = TcpSlice::from_slice(TCP_6).expect(&rt, "refused");
    let sum = tcp.calc_checksum_ipv6(SOURCE, DESTINATION);
    same(&rt, &sum, &Ok(tcp.checksum()));
}
