//! Builder tests at the bounds of what is read back: frames whose fields have their greatest values, with external test
//! vectors. (The longest payloads are in `writers`, and those that are too long in `refusals`.)

use super::*;

/// Asserts that a frame was written as the concatenation of the expected parts, and that both parsers (slices and owned
/// headers), starting with the header `entry`, accept it.
fn is_read_back(
    rt: &impl Abort,
    alloc: Global,
    entry: Entry,
    (written, frame): (Result<(), BuildWriteError>, Vec<u8>),
    parts: &[&[u8]],
) {
    let bytes = parts.concat(alloc).expect(rt, "no memory");
    same(rt, &(written, &frame), &(Ok(()), &bytes));
    same(rt, &SlicedPacket::from_entry(entry, &frame).is_ok(), &true);
    let read = PacketHeaders::new().read_into(entry, &frame);
    same(rt, &read.is_ok(), &true);
}

/// Asserts that a frame with a Linux cooked capture header with this packet type and a sender address of 8 bytes, and an
/// ARP packet, is read back.
fn cooked(rt: &impl Abort, alloc: Global, packet_type: u16, header: &[u8]) {
    let packet_type = LinuxSllPacketType(packet_type);
    let link = PacketBuilder::linux_sll(packet_type, 8, [1, 2, 3, 4, 5, 6, 7, 8]);
    let mut frame = Vec::new(alloc);
    let written = link.arp(arp_request(rt)).write(&mut frame);
    let parts = [header, ARP];
    is_read_back(rt, alloc, Entry::LinuxSll, (written, frame), &parts);
}

#[test]
fn packet_types(rt: HostRuntime) {
    for (packet_type, header) in [
        (
            0,
            b"\x00\x00\x00\x01\x00\x08\x01\x02\x03\x04\x05\x06\x07\x08\x08\x06",
        ),
        (
            4,
            b"\x00\x04\x00\x01\x00\x08\x01\x02\x03\x04\x05\x06\x07\x08\x08\x06",
        ),
        (
            7,
            b"\x00\x07\x00\x01\x00\x08\x01\x02\x03\x04\x05\x06\x07\x08\x08\x06",
        ),
    ] {
        cooked(&rt, rt.alloc(), packet_type, header);
    }
}

/// Returns two VLAN tags in which each bit is set.
fn greatest_tags(rt: &impl Abort) -> VlanHeader {
    let tag = || SingleVlanHeader {
        pcp: VlanPcp::try_new(7).expect(rt, "above 7"),
        drop_eligible_indicator: true,
        vlan_id: VlanId::try_new(4095).expect(rt, "above 4095"),
        ether_type: EtherType(0),
    };
    VlanHeader::Double(DoubleVlanHeader {
        outer: tag(),
        inner: tag(),
    })
}

/// Returns an IPv4 header with 40 bytes of options, and the greatest code points, identification and time to live.
fn greatest_ipv4(rt: &impl Abort) -> IpHeaders {
    let header = Ipv4Header {
        dscp: Ipv4Dscp::try_new(63).expect(rt, "above 63"),
        ecn: Ipv4Ecn::try_new(3).expect(rt, "above 3"),
        identification: 0xffff,
        time_to_live: 255,
        source: SOURCE_4,
        destination: DESTINATION_4,
        options: Ipv4Options::try_new(&[1; 40]).expect(rt, "of 40 bytes"),
        ..Default::default()
    };
    IpHeaders::Ipv4(header, Ipv4Extensions::default())
}

/// Tests a UDP datagram with the greatest ports after these VLAN tags and this IPv4 header.
#[test]
fn udp_after_ipv4(rt: HostRuntime) {
    let ip = ethernet().vlan(greatest_tags(&rt)).ip(greatest_ipv4(&rt));
    let mut frame = Vec::new(rt.alloc());
    let written = ip.udp(0xffff, 0xffff).write(&mut frame, PAYLOAD);
    let link =
        b"\x07\x08\x09\x0a\x0b\x0c\x01\x02\x03\x04\x05\x06\x88\xa8\xff\xff\x81\x00\xff\xff\x08\x00";
    let net = b"\x4f\xff\x00\x4c\xff\xff\x40\x00\xff\x11\xd9\x39\xc0\xa8\x01\x01\xc0\xa8\x01\x02";
    let datagram = b"\xff\xff\xff\xff\x00\x10\x6c\x66\x01\x02\x03\x04\x05\x06\x07\x08";
    let parts = [link.as_slice(), net, &[1; 40], datagram];
    is_read_back(&rt, rt.alloc(), Entry::Ethernet, (written, frame), &parts);
}

/// Returns an IPv6 header with the greatest traffic class, flow label and hop limit.
fn greatest_ipv6(rt: &impl Abort) -> IpHeaders {
    let header = Ipv6Header {
        traffic_class: 255,
        flow_label: Ipv6FlowLabel::try_new(0xf_ffff).expect(rt, "of 20 bits"),
        hop_limit: 255,
        source: SOURCE,
        destination: DESTINATION,
        ..Default::default()
    };
    IpHeaders::Ipv6(header, Ipv6Extensions::default())
}

/// Returns a TCP header with 40 bytes of options and the greatest value of each other field.
fn greatest_tcp(rt: &impl Abort) -> TcpHeader {
    let mut header = TcpHeader {
        acknowledgment_number: 0xffff_ffff,
        urgent_pointer: 0xffff,
        ns: true,
        cwr: true,
        ece: true,
        urg: true,
        ack: true,
        psh: true,
        rst: true,
        syn: true,
        fin: true,
        ..TcpHeader::new(0xffff, 0xffff, 0xffff_ffff, 0xffff)
    };
    header.set_options_raw(&[1; 40]).expect(rt, "of 40 bytes");
    header
}

/// Tests this TCP header after this IPv6 header.
#[test]
fn tcp_after_ipv6(rt: HostRuntime) {
    let ip = PacketBuilder::ip(greatest_ipv6(&rt));
    let mut frame = Vec::new(rt.alloc());
    let written = ip.tcp_header(greatest_tcp(&rt)).write(&mut frame, PAYLOAD);
    let net = b"\x6f\xff\xff\xff\x00\x44\x06\xff\
        \x0b\x0c\x0d\x0e\x0f\x10\x11\x12\x13\x0a\x15\x16\x17\x18\x19\x1a\
        \x1f\x20\x21\x22\x23\x24\x25\x26\x27\x28\x29\x2a\x2b\x2c\x2d\x2e";
    let segment =
        b"\xff\xff\xff\xff\xff\xff\xff\xff\xff\xff\xff\xff\xf1\xff\xff\xff\x27\xc6\xff\xff";
    let parts = [net.as_slice(), segment, &[1; 40], PAYLOAD];
    is_read_back(&rt, rt.alloc(), Entry::Ip, (written, frame), &parts);
}

/// Tests an ICMPv4 timestamp message, which has 20 bytes and no payload.
#[test]
fn timestamp(rt: HostRuntime) {
    let message = icmpv4::TimestampMessage {
        id: 0x0102,
        seq: 0x0304,
        originate_timestamp: 0x0506_0708,
        receive_timestamp: 0x090a_0b0c,
        transmit_timestamp: 0x0d0e_0f10,
    };
    let mut frame = Vec::new(rt.alloc());
    let icmp = ipv4().icmpv4(Icmpv4Type::TimestampRequest(message));
    let written = icmp.write(&mut frame, b"");
    let net = b"\x45\x00\x00\x28\x00\x00\x40\x00\x14\x01\xe3\x81\xc0\xa8\x01\x01\xc0\xa8\x01\x02";
    let bytes = b"\x0d\x00\xb2\xb7\x01\x02\x03\x04\x05\x06\x07\x08\x09\x0a\x0b\x0c\x0d\x0e\x0f\x10";
    let parts = [net.as_slice(), bytes];
    is_read_back(&rt, rt.alloc(), Entry::Ip, (written, frame), &parts);
}

/// Returns an IPv4 header with the greatest fragment offset and the more-fragments flag.
fn last_place_ipv4(rt: &impl Abort) -> IpHeaders {
    let header = Ipv4Header {
        identification: 0xffff,
        dont_fragment: false,
        more_fragments: true,
        fragment_offset: IpFragOffset::try_new(8191).expect(rt, "above 8191"),
        time_to_live: 255,
        source: SOURCE_4,
        destination: DESTINATION_4,
        ..Default::default()
    };
    IpHeaders::Ipv4(header, Ipv4Extensions::default())
}

/// Returns an IPv6 header and a fragment header with the greatest fragment offset and the more-fragments flag, from and
/// to the unspecified address.
fn last_place_ipv6(rt: &impl Abort) -> IpHeaders {
    let header = Ipv6Header {
        hop_limit: 255,
        ..Default::default()
    };
    let fragment = Ipv6FragmentHeader {
        next_header: IpNumber(0),
        fragment_offset: IpFragOffset::try_new(8191).expect(rt, "above 8191"),
        more_fragments: true,
        identification: 0xffff_ffff,
    };
    let extensions = Ipv6Extensions {
        fragment: Some(fragment),
        ..Default::default()
    };
    IpHeaders::Ipv6(header, extensions)
}

/// Tests fragments with the greatest offset and the protocol number 255.
#[test]
fn fragments(rt: HostRuntime) {
    let mut frame = Vec::new(rt.alloc());
    let ip = PacketBuilder::ip(last_place_ipv4(&rt));
    let written = ip.write(&mut frame, IpNumber(255), PAYLOAD);
    let net = b"\x45\x00\x00\x1c\xff\xff\x3f\xff\xff\xff\xf7\x8f\xc0\xa8\x01\x01\xc0\xa8\x01\x02";
    let parts = [net.as_slice(), PAYLOAD];
    is_read_back(&rt, rt.alloc(), Entry::Ip, (written, frame), &parts);
    let mut frame = Vec::new(rt.alloc());
    let ip = PacketBuilder::ip(last_place_ipv6(&rt));
    let written = ip.write(&mut frame, IpNumber(255), PAYLOAD);
    let net = b"\x60\x00\x00\x00\x00\x10\x2c\xff";
    let fragment = b"\xff\x00\xff\xf9\xff\xff\xff\xff";
    let parts = [net.as_slice(), &[0; 32], fragment, PAYLOAD];
    is_read_back(&rt, rt.alloc(), Entry::Ip, (written, frame), &parts);
}
