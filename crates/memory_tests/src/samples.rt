//! Packets and headers that the tests whose allocations fail share.

use etherparse::defrag::*;
use etherparse::*;
use std::process::Abort;

/// Ethernet II frame with VLAN identifier 1 and an IPv4 fragment: the first 8 bytes of a payload of 16 bytes.
/// `VLAN_1_LAST` has its last 8 bytes; `VLAN_2_FIRST` and `VLAN_2_LAST` are the fragments of another payload, with VLAN
/// identifier 2.
pub const VLAN_1_FIRST: &[u8] =
    b"\x07\x08\x09\x0a\x0b\x0c\x01\x02\x03\x04\x05\x06\x81\x00\x00\x01\x08\x00\
      \x45\x00\x00\x1c\x00\x01\x20\x00\x14\x11\x03\x7d\xc0\xa8\x01\x01\xc0\xa8\x01\x02\
      \x00\x01\x02\x03\x04\x05\x06\x07";

pub const VLAN_1_LAST: &[u8] =
    b"\x07\x08\x09\x0a\x0b\x0c\x01\x02\x03\x04\x05\x06\x81\x00\x00\x01\x08\x00\
      \x45\x00\x00\x1c\x00\x01\x00\x01\x14\x11\x23\x7c\xc0\xa8\x01\x01\xc0\xa8\x01\x02\
      \x08\x09\x0a\x0b\x0c\x0d\x0e\x0f";

pub const VLAN_2_FIRST: &[u8] =
    b"\x07\x08\x09\x0a\x0b\x0c\x01\x02\x03\x04\x05\x06\x81\x00\x00\x02\x08\x00\
      \x45\x00\x00\x1c\x00\x01\x20\x00\x14\x11\x03\x7d\xc0\xa8\x01\x01\xc0\xa8\x01\x02\
      \x10\x11\x12\x13\x14\x15\x16\x17";

pub const VLAN_2_LAST: &[u8] =
    b"\x07\x08\x09\x0a\x0b\x0c\x01\x02\x03\x04\x05\x06\x81\x00\x00\x02\x08\x00\
      \x45\x00\x00\x1c\x00\x01\x00\x01\x14\x11\x23\x7c\xc0\xa8\x01\x01\xc0\xa8\x01\x02\
      \x18\x19\x1a\x1b\x1c\x1d\x1e\x1f";

/// Ethernet II frame with VLAN identifier 1 and a final IPv4 fragment: the bytes 16 to 23 of a payload of 24 bytes.
pub const VLAN_1_ENDS_AT_24: &[u8] =
    b"\x07\x08\x09\x0a\x0b\x0c\x01\x02\x03\x04\x05\x06\x81\x00\x00\x01\x08\x00\
      \x45\x00\x00\x1c\x00\x01\x00\x02\x14\x11\x23\x7b\xc0\xa8\x01\x01\xc0\xa8\x01\x02\
      \x10\x11\x12\x13\x14\x15\x16\x17";

/// Ethernet II frame with VLAN identifier 1 and an invalid IPv4 fragment: 7 bytes, although its more-fragments flag is
/// set.
pub const VLAN_1_UNALIGNED: &[u8] =
    b"\x07\x08\x09\x0a\x0b\x0c\x01\x02\x03\x04\x05\x06\x81\x00\x00\x01\x08\x00\
      \x45\x00\x00\x1b\x00\x01\x20\x01\x14\x11\x03\x7d\xc0\xa8\x01\x01\xc0\xa8\x01\x02\
      \x08\x09\x0a\x0b\x0c\x0d\x0e";

/// Ethernet II and IPv4 header of a frame that carries the first 2,000 bytes of a payload as a fragment; the bytes are
/// not included.
pub const LARGE_HEADERS: [u8; 34] = *b"\x07\x08\x09\x0a\x0b\x0c\x01\x02\x03\x04\x05\x06\x08\x00\
      \x45\x00\x07\xe4\x00\x02\x20\x00\x14\x11\x00\x00\xc0\xa8\x01\x01\xc0\xa8\x01\x02";

/// Ethernet II frame with an empty IPv4 fragment, the first one of its payload.
pub const EMPTY_FIRST: &[u8] = b"\x07\x08\x09\x0a\x0b\x0c\x01\x02\x03\x04\x05\x06\x08\x00\
      \x45\x00\x00\x14\x00\x03\x20\x00\x14\x11\x00\x00\xc0\xa8\x01\x01\xc0\xa8\x01\x02";

/// Ethernet II frame with an IPv4 packet that is not fragmented: UDP with 8 bytes.
pub const UNFRAGMENTED_PACKET: &[u8] =
    b"\x07\x08\x09\x0a\x0b\x0c\x01\x02\x03\x04\x05\x06\x08\x00\x45\x00\x00\x24\x00\x00\x40\x00\x14\x11\xe3\x75\xc0\xa8\x01\x01\xc0\xa8\x01\x02\x00\x15\x04\xd2\x00\x10\x67\x7f\x01\x02\x03\x04\x05\x06\x07\x08";

/// Reassembled payload, 16 bytes, of the fragments with VLAN identifier 1. The next constant, `VLAN_2_PAYLOAD`, is the
/// payload of those with VLAN identifier 2.
pub const VLAN_1_PAYLOAD: &[u8] =
    b"\x00\x01\x02\x03\x04\x05\x06\x07\x08\x09\x0a\x0b\x0c\x0d\x0e\x0f";

pub const VLAN_2_PAYLOAD: &[u8] =
    b"\x10\x11\x12\x13\x14\x15\x16\x17\x18\x19\x1a\x1b\x1c\x1d\x1e\x1f";

/// Returns the key under which a reassembly pool stores the fragments of an IPv4 datagram: UDP from 192.168.1.1 to
/// 192.168.1.2, with the given identification field.
pub fn name(identification: u16) -> IpFragId<u8> {
    IpFragId {
        vlan_ids: ArrayVec::new(),
        ip: IpFragVersionSpecId::Ipv4 {
            source: [192, 168, 1, 1],
            destination: [192, 168, 1, 2],
            identification,
        },
        payload_ip_number: IpNumber::UDP,
        channel_id: 0,
    }
}

/// Returns a fragment offset of the given number of 8-byte units, at most 8191.
pub fn offset(rt: &impl Abort, units: u16) -> IpFragOffset {
    IpFragOffset::try_new(units).expect(rt, "above 8191")
}

/// Returns the longest generic IPv6 extension header (hop-by-hop, destination options or routing), 2048 bytes, with the
/// given next header.
pub fn longest_header(rt: &impl Abort, next_header: IpNumber) -> Ipv6RawExtHeader {
    Ipv6RawExtHeader::new_raw(next_header, &[8; 2046]).expect(rt, "of 2048 bytes")
}

/// Returns the longest IP authentication header, 1028 bytes, with UDP as next header.
pub fn longest_auth(rt: &impl Abort) -> IpAuthHeader {
    IpAuthHeader::new(IpNumber::UDP, 2, 3, &[7; 1016]).expect(rt, "of 1028 bytes")
}

/// Returns an IPv6 fragment header of a first fragment, with UDP as next header.
pub fn fragment_header() -> Ipv6FragmentHeader {
    Ipv6FragmentHeader {
        next_header: IpNumber::UDP,
        fragment_offset: IpFragOffset::ZERO,
        more_fragments: true,
        identification: 9,
    }
}

/// Returns a chain of all IPv6 extension headers before UDP, each as long as possible (9228 bytes in all), and the IP
/// protocol number of its first header.
pub fn longest_extensions(rt: &impl Abort) -> (Ipv6Extensions, IpNumber) {
    let routing = Ipv6RoutingExtensions {
        routing: longest_header(rt, IpNumber::UDP),
        final_destination_options: Some(longest_header(rt, IpNumber::UDP)),
    };
    let mut extensions = Ipv6Extensions {
        hop_by_hop_options: Some(longest_header(rt, IpNumber::UDP)),
        destination_options: Some(longest_header(rt, IpNumber::UDP)),
        routing: Some(routing),
        fragment: Some(fragment_header()),
        auth: Some(longest_auth(rt)),
    };
    let first = extensions.set_next_headers(IpNumber::UDP);
    (extensions, first)
}

/// Returns the longest IPv4 headers, 1088 bytes: an IPv4 header with 40 bytes of options and the longest authentication
/// header.
pub fn longest_ipv4(rt: &impl Abort) -> IpHeaders {
    let header = Ipv4Header {
        options: Ipv4Options::try_new(&[1; 40]).expect(rt, "of 40 bytes"),
        ..Default::default()
    };
    let auth = Some(longest_auth(rt));
    let mut headers = IpHeaders::Ipv4(header, Ipv4Extensions { auth });
    headers.set_next_headers(IpNumber::UDP);
    headers
}

/// Returns the longest IPv6 headers, 9268 bytes: an IPv6 header and each extension header as long as possible.
pub fn longest_ipv6(rt: &impl Abort) -> IpHeaders {
    let mut headers = IpHeaders::Ipv6(Ipv6Header::default(), longest_extensions(rt).0);
    headers.set_next_headers(IpNumber::UDP);
    headers
}

/// Returns the longest ARP packet, 1028 bytes: four addresses of 255 bytes each.
pub fn longest_arp(rt: &impl Abort) -> ArpPacket {
    let packet = ArpPacket::new(
        ArpHardwareId::ETHERNET,
        EtherType::IPV4,
        ArpOperation::REPLY,
        &[3; 255],
        &[4; 255],
        &[5; 255],
        &[6; 255],
    );
    packet.expect(rt, "the lengths fit")
}
