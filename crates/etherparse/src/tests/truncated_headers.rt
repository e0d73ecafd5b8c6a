//! Test of lax parsing of each header, truncated at each byte, in each kind of tag. Rows and results are those of
//! `bindings/python/tests/test_lax_rows.py`, written by hand from the header diagrams of the standards.

use crate::err::Layer;
use crate::tests::checks::same;
use crate::tests::lax::{misses, read};
use crate::*;
use std::alloc::Global;
use std::process::Abort;

const VLAN: EtherType = EtherType::VLAN_TAGGED_FRAME;

const MACSEC: EtherType = EtherType::MACSEC;

const ARP: EtherType = EtherType::ARP;

const IPV4: EtherType = EtherType::IPV4;

const IPV6: EtherType = EtherType::IPV6;

/// A MACsec tag (SecTAG) with a secure channel identifier, and the ether type of its payload.
const SECTAG: &[u8] = &[32, 0, 0, 0, 0, 9, 0, 0, 0, 0, 0, 0, 0, 0, 18, 52];

/// A MACsec tag of an encrypted payload.
const ENCRYPTED: &[u8] = &[12, 0, 0, 0, 0, 9];

const ARP_PACKET: &[u8] = &[
    0, 1, 8, 0, 6, 4, 0, 1, 0, 0, 0, 0, 0, 0, 0, 0, 0, 0, 0, 0, 0, 0, 0, 0, 0, 0, 0, 0,
];

/// An IPv4 header with a total length of 99, above the bytes of each row. Byte 9 is the protocol.
const IPV4_HEADER: [u8; 20] = [
    69, 0, 0, 99, 0, 7, 0, 0, 64, 253, 0, 0, 10, 0, 0, 1, 10, 0, 0, 2,
];

/// An IPv6 header with a payload length of 99, above the bytes of each row. Byte 6 is the next header.
const IPV6_HEADER: [u8; 40] = [
    96, 0, 0, 0, 0, 99, 59, 64, 0, 0, 0, 0, 0, 0, 0, 0, 0, 0, 0, 0, 0, 0, 0, 1, 0, 0, 0, 0, 0, 0,
    0, 0, 0, 0, 0, 0, 0, 0, 0, 2,
];

/// Hop-by-hop options, a routing header, or destination options.
const EXTENSION: &[u8] = &[59, 1, 0, 0, 0, 0, 0, 0, 0, 0, 0, 0, 0, 0, 0, 0];

const FRAGMENT: &[u8] = &[59, 0, 0, 0, 0, 0, 0, 5];

const AUTH: &[u8] = &[59, 3, 0, 0, 0, 0, 0, 0, 0, 0, 0, 0, 0, 0, 0, 0, 0, 0, 0, 0];

const TCP: &[u8] = &[
    0, 80, 0, 81, 0, 0, 0, 0, 0, 0, 0, 0, 96, 18, 0, 0, 0, 0, 0, 0, 1, 1, 1, 1,
];

/// An ICMP message with an 8-byte header.
const ICMP: &[u8] = &[0; 8];

/// An ICMPv4 timestamp message.
const TIMESTAMP: &[u8] = &[13, 0, 0, 0, 0, 0, 0, 0, 0, 0, 0, 0, 0, 0, 0, 0, 0, 0, 0, 0];

/// An ICMPv4 timestamp reply message.
const REPLY: &[u8] = &[14, 0, 0, 0, 0, 0, 0, 0, 0, 0, 0, 0, 0, 0, 0, 0, 0, 0, 0, 0];

/// A row is an ether type, the protocol of an IP header that comes next, if any, and a header. Truncated to at least
/// `from` and fewer than `to` bytes, the header is rejected by the layer, which needs `to` bytes.
#[test]
fn truncated_headers(rt: HostRuntime) {
    for (ether_type, protocol, header, from, to, layer) in [
        (VLAN, None, &[0, 7, 18, 52][..], 0, 4, Layer::VlanHeader),
        (MACSEC, None, SECTAG, 0, 6, Layer::MacsecHeader),
        (MACSEC, None, SECTAG, 6, 16, Layer::MacsecHeader),
        (MACSEC, None, ENCRYPTED, 0, 6, Layer::MacsecHeader),
        (ARP, None, ARP_PACKET, 0, 8, Layer::Arp),
        (ARP, None, ARP_PACKET, 8, 28, Layer::Arp),
        (IPV6, None, &IPV6_HEADER[..], 0, 40, Layer::Ipv6Header),
        (IPV6, Some(0), EXTENSION, 0, 8, Layer::Ipv6ExtHeader),
        (IPV6, Some(0), EXTENSION, 8, 16, Layer::Ipv6ExtHeader),
        (IPV6, Some(43), EXTENSION, 0, 8, Layer::Ipv6ExtHeader),
        (IPV6, Some(43), EXTENSION, 8, 16, Layer::Ipv6ExtHeader),
        (IPV6, Some(44), FRAGMENT, 0, 8, Layer::Ipv6FragHeader),
        (IPV6, Some(51), AUTH, 0, 12, Layer::IpAuthHeader),
        (IPV6, Some(51), AUTH, 12, 20, Layer::IpAuthHeader),
        (IPV6, Some(60), EXTENSION, 0, 8, Layer::Ipv6ExtHeader),
        (IPV6, Some(60), EXTENSION, 8, 16, Layer::Ipv6ExtHeader),
        (IPV4, Some(6), TCP, 0, 20, Layer::TcpHeader),
        (IPV4, Some(6), TCP, 20, 24, Layer::TcpHeader),
        (IPV4, Some(1), ICMP, 0, 8, Layer::Icmpv4),
        (IPV4, Some(1), TIMESTAMP, 0, 8, Layer::Icmpv4),
        (IPV4, Some(1), TIMESTAMP, 8, 20, Layer::Icmpv4Timestamp),
        (IPV4, Some(1), REPLY, 8, 20, Layer::Icmpv4TimestampReply),
        (IPV6, Some(58), ICMP, 0, 8, Layer::Icmpv6),
    ] {
        for there in from..to {
            let bytes = header.get(..there).expect(&rt, "its first bytes");
            stops_in_tags(&rt, rt.alloc(), (ether_type, protocol), bytes, to, &layer);
        }
        accepts(&rt, rt.alloc(), (ether_type, protocol), header);
    }
}

/// Asserts that slicing stops at these bytes, in each kind of tag, and that `layer` needs `needed` bytes. Bytes are
/// missing after an IP header, and in a MACsec tag with short length 63.
fn stops_in_tags(
    rt: &impl Abort,
    alloc: Global,
    before: (EtherType, Option<u8>),
    header: &[u8],
    needed: usize,
    layer: &Layer,
) {
    let (ether_type, protocol) = before;
    let mut inside = Vec::new(alloc);
    push_ip(rt, &mut inside, before);
    push(rt, &mut inside, header);
    let counted = u8::try_from(inside.len()).unwrap_or(0).saturating_add(2);
    let [high, low] = ether_type.0.to_be_bytes();
    let vlan = [0, 7, high, low];
    let uncounted = [0, 0, 0, 0, 0, 9, high, low];
    let exact = [0, counted, 0, 0, 0, 9, high, low];
    let above = [0, 63, 0, 0, 0, 9, high, low];
    let source = match layer {
        Layer::Arp if needed > 8 => LenSource::ArpAddrLengths,
        _ => LenSource::Slice,
    };
    for (outer, tag, trailing, missing) in [
        (ether_type, &[][..], &[][..], false),
        (VLAN, &vlan[..], &[][..], false),
        (MACSEC, &uncounted[..], &[][..], false),
        (MACSEC, &exact[..], &[1, 2, 3][..], false),
        (MACSEC, &above[..], &[][..], true),
    ] {
        let mut frame = Vec::new(alloc);
        push(rt, &mut frame, tag);
        push_ip(rt, &mut frame, before);
        let start = frame.len();
        push(rt, &mut frame, header);
        push(rt, &mut frame, trailing);
        let packet = read(rt, Entry::EtherType(outer), &frame);
        misses(rt, &packet, layer, (start, needed, header.len()), source);
        same(rt, &packet.payload_offset(), &start);
        same(rt, &packet.payload(), &header);
        let incomplete = protocol.is_some() || missing;
        same(rt, &packet.is_incomplete(), &incomplete);
    }
}

/// Asserts that slicing does not stop at the complete header.
fn accepts(rt: &impl Abort, alloc: Global, before: (EtherType, Option<u8>), header: &[u8]) {
    let mut frame = Vec::new(alloc);
    push_ip(rt, &mut frame, before);
    push(rt, &mut frame, header);
    let packet = read(rt, Entry::EtherType(before.0), &frame);
    same(rt, &packet.stop_err.is_none(), &true);
}

/// Appends an IP header with this protocol number, if there is one.
fn push_ip(rt: &impl Abort, frame: &mut Vec<u8>, (ether_type, protocol): (EtherType, Option<u8>)) {
    let Some(protocol) = protocol else {
        return;
    };
    if ether_type == IPV4 {
        let mut header = IPV4_HEADER;
        header[9] = protocol;
        push(rt, frame, &header);
    } else {
        let mut header = IPV6_HEADER;
        header[6] = protocol;
        push(rt, frame, &header);
    }
}

fn push(rt: &impl Abort, frame: &mut Vec<u8>, bytes: &[u8]) {
    frame.extend_from_slice(bytes).expect(rt, "no memory");
}
