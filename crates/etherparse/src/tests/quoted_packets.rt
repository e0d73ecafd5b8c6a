//! Tests of the packets that ICMP errors quote. The first two functions are the example in the README of `ep_lax`.

use crate::tests::checks::{same, shows};
use crate::*;
use std::process::Abort;

/// An Ethernet II frame with an ICMPv4 error, port unreachable. Its ICMP header starts at byte 34; at byte 42 it quotes
/// a UDP datagram to port 1234 with the payload `abcd`.
const PORT_UNREACHABLE: [u8; 74] = [
    255, 255, 255, 255, 255, 255, 2, 0, 0, 0, 0, 1, 8, 0, 69, 0, 0, 60, 0, 8, 0, 0, 64, 1, 247,
    101, 192, 168, 1, 2, 192, 168, 1, 1, 3, 3, 128, 110, 0, 0, 0, 0, 69, 0, 0, 32, 0, 1, 0, 0, 64,
    17, 247, 120, 192, 168, 1, 1, 192, 168, 1, 2, 0, 21, 4, 210, 0, 12, 178, 212, 97, 98, 99, 100,
];

/// Returns the destination port of the UDP datagram that an ICMP error quotes, as far as the frame has it.
fn quoted_port(frame: &[u8]) -> Option<u16> {
    let packet = LaxSlicedPacket::from_ethernet(frame).ok()?;
    let bytes = quoted_packet(packet.transport.as_ref()?)?;
    let quoted = LaxSlicedPacket::from_ip(bytes).ok()?;
    match &quoted.transport {
        Some(TransportSlice::Udp(udp)) => Some(udp.destination_port()),
        _ => None,
    }
}

#[test]
fn truncated_icmp_error(rt: HostRuntime) {
    // truncated to 38 bytes: Ethernet, IPv4, and 4 bytes of ICMP
    let packet = LaxSlicedPacket::from_ethernet(&PORT_UNREACHABLE[..38]).expect(&rt, "a header");
    let (error, _) = packet.stop_err.as_ref().expect(&rt, "a truncated layer");
    let text = "Icmpv4: 8 bytes needed, 4 there (limit Slice, offset 34)";
    shows(&rt, rt.alloc(), error, text);
    same(&rt, &packet.payload_offset(), &34);
    // truncated to 70 bytes: all but the payload of the quoted datagram
    same(&rt, &quoted_port(&PORT_UNREACHABLE[..70]), &Some(1234));
}

/// Asserts whether an ICMP message of this type quotes a packet: its bytes after the first 8.
fn quotes_packet(rt: &impl Abort, number: IpNumber, message_type: u8, quotes: bool) {
    let mut bytes = [0; 20];
    bytes[0] = message_type;
    bytes[12] = 0x50;
    let read = TransportSlice::from_ip_number(number, false, &bytes).expect(rt, "a header");
    let message = read.as_ref().expect(rt, "a transport layer");
    let quoted = if quotes { Some(&bytes[8..]) } else { None };
    same(rt, &quoted_packet(message), &quoted);
}

/// Types of ICMP messages, and whether they quote a packet (RFC 792; RFC 4443, 2.1).
#[test]
fn messages_that_quote(rt: HostRuntime) {
    for (number, message_type, quotes) in [
        (IpNumber::ICMP, 0, false),
        (IpNumber::ICMP, 3, true),
        (IpNumber::ICMP, 4, true),
        (IpNumber::ICMP, 5, true),
        (IpNumber::ICMP, 8, false),
        (IpNumber::ICMP, 11, true),
        (IpNumber::ICMP, 12, true),
        (IpNumber::ICMP, 13, false),
        (IpNumber::IPV6_ICMP, 1, true),
        (IpNumber::IPV6_ICMP, 4, true),
        (IpNumber::IPV6_ICMP, 127, true),
        (IpNumber::IPV6_ICMP, 128, false),
        (IpNumber::UDP, 3, false),
        (IpNumber::TCP, 3, false),
    ] {
        quotes_packet(&rt, number, message_type, quotes);
    }
}
