//! Packets and headers that many tests use.

use crate::*;
use std::process::Abort;

/// Payload of most packets in the tests.
pub const PAYLOAD: &[u8] = &[1, 2, 3, 4, 5, 6, 7, 8];

/// An Ethernet II frame with an IPv4 header (192.168.1.1 to 192.168.1.2), a UDP header (port 21 to 1234) and the
/// payload bytes 1 to 8.
pub const FRAME: &[u8] =
    b"\x07\x08\x09\x0a\x0b\x0c\x01\x02\x03\x04\x05\x06\x08\x00\x45\x00\x00\x24\x00\x00\x40\x00\x14\x11\xe3\x75\xc0\xa8\x01\x01\xc0\xa8\x01\x02\x00\x15\x04\xd2\x00\x10\x67\x7f\x01\x02\x03\x04\x05\x06\x07\x08";

/// An ARP request for an IPv4 address over Ethernet, without a link header.
pub const ARP: &[u8] =
    b"\x00\x01\x08\x00\x06\x04\x00\x01\x01\x02\x03\x04\x05\x06\x07\x06\x08\x09\x0a\x0b\x0c\x0e\x0f\x10\x11\x12\x13\x14";

/// Four VLAN tags with identifiers 1 to 4, without the ether type that announces the first one.
pub const FOUR_TAGS: &[u8] = b"\x00\x01\x81\x00\x00\x02\x81\x00\x00\x03\x81\x00\x00\x04\x08\x00";

/// A MACsec tag (SecTAG) and its payload, a VLAN tag and two bytes of ether type 0x1234. The last two bytes are after
/// the end that the short length sets.
pub const TAG_IN_MACSEC: &[u8] =
    b"\x00\x08\x00\x00\x00\x01\x81\x00\x00\x07\x12\x34\x01\x02\xff\xff";

/// A MACsec tag (SecTAG) and a modified (encrypted) payload of three bytes. The last byte is after the end that the
/// short length sets.
pub const MODIFIED: &[u8] = b"\x0c\x03\x00\x00\x00\x00\xaa\xbb\xcc\xdd";

/// An IPv4 packet with an authentication header, then four bytes of payload with IP protocol number 59.
pub const AUTHENTICATED: &[u8] =
    b"\x45\x00\x00\x24\x00\x00\x00\x00\x40\x33\x00\x00\xc0\xa8\x01\x01\xc0\xa8\x01\x02\x3b\x01\x00\x00\x00\x00\x00\x02\x00\x00\x00\x03\x01\x02\x03\x04";

/// An IPv6 packet whose payload length field is 0, so that its payload (next header 59) is all bytes after the header.
pub const OPEN_LENGTH: &[u8] =
    b"\x60\x00\x00\x00\x00\x00\x3b\x40\0\0\0\0\0\0\0\0\0\0\0\0\0\0\0\0\0\0\0\0\0\0\0\0\0\0\0\0\0\0\0\0\x01\x02\x03\x04";

/// An IPv6 packet with two fragment headers. The first one has offset 0 and no more-fragments flag; only the second one
/// has the flag set.
pub const FRAGMENT_TWICE: &[u8] =
    b"\x60\x00\x00\x00\x00\x18\x2c\x40\0\0\0\0\0\0\0\0\0\0\0\0\0\0\0\0\0\0\0\0\0\0\0\0\0\0\0\0\0\0\0\0\x2c\x00\x00\x00\x00\x00\x00\x01\x11\x00\x00\x01\x00\x00\x00\x02\x00\x01\x02\x03\x04\x05\x06\x07";

/// A Linux cooked capture header (SLL) and two bytes of a Netlink message; its protocol field is not an ether type.
pub const NETLINK: &[u8] =
    b"\x00\x00\x03\x38\x00\x00\x00\x00\x00\x00\x00\x00\x00\x00\x00\x10\x01\x02";

/// An IPv4 fragment with the first 16 bytes of the payload 0 to 23, of IP protocol number 253 (for experiments);
/// `LAST_IPV4` has the last 8 bytes.
pub const FIRST_IPV4: &[u8] =
    b"\x45\x00\x00\x24\x00\x07\x20\x00\x40\xfd\xd6\x82\xc0\xa8\x01\x01\xc0\xa8\x01\x02\x00\x01\x02\x03\x04\x05\x06\x07\x08\x09\x0a\x0b\x0c\x0d\x0e\x0f";

pub const LAST_IPV4: &[u8] =
    b"\x45\x00\x00\x1c\x00\x07\x00\x02\x40\xfd\xf6\x88\xc0\xa8\x01\x01\xc0\xa8\x01\x02\x10\x11\x12\x13\x14\x15\x16\x17";

/// An IPv6 fragment with the first 8 bytes of the payload 0 to 15, whose next header is UDP; `LAST_IPV6` has the last 8
/// bytes.
pub const FIRST_IPV6: &[u8] =
    b"\x60\x00\x00\x00\x00\x10\x2c\x40\0\0\0\0\0\0\0\0\0\0\0\0\0\0\0\0\0\0\0\0\0\0\0\0\0\0\0\0\0\0\0\0\x11\x00\x00\x01\x00\x00\x00\x07\x00\x01\x02\x03\x04\x05\x06\x07";

pub const LAST_IPV6: &[u8] =
    b"\x60\x00\x00\x00\x00\x10\x2c\x40\0\0\0\0\0\0\0\0\0\0\0\0\0\0\0\0\0\0\0\0\0\0\0\0\0\0\0\0\0\0\0\0\x11\x00\x00\x08\x00\x00\x00\x07\x08\x09\x0a\x0b\x0c\x0d\x0e\x0f";

/// Returns an ARP request for an IPv4 address over Ethernet as an owned packet, equal to the bytes `ARP`.
pub fn arp_request(rt: &impl Abort) -> ArpPacket {
    let packet = ArpPacket::new(
        ArpHardwareId::ETHERNET,
        EtherType::IPV4,
        ArpOperation::REQUEST,
        &[1, 2, 3, 4, 5, 6],
        &[7, 6, 8, 9],
        &[10, 11, 12, 14, 15, 16],
        &[17, 18, 19, 20],
    );
    packet.expect(rt, "the lengths fit")
}

/// Returns the header of an IPv4 fragment with identification 7. The offset is in units of 8 bytes.
pub fn ipv4_fragment(rt: &impl Abort, offset: u16, more_fragments: bool) -> IpHeaders {
    let header = Ipv4Header {
        identification: 7,
        dont_fragment: false,
        more_fragments,
        fragment_offset: IpFragOffset::try_new(offset).expect(rt, "above 8191"),
        time_to_live: 64,
        source: [192, 168, 1, 1],
        destination: [192, 168, 1, 2],
        ..Default::default()
    };
    IpHeaders::Ipv4(header, Ipv4Extensions::default())
}

/// Returns an IPv6 header and a fragment header with identification 7, from and to the unspecified address. The offset
/// is in units of 8 bytes.
pub fn ipv6_fragment(rt: &impl Abort, offset: u16, more_fragments: bool) -> IpHeaders {
    let header = Ipv6Header {
        hop_limit: 64,
        ..Default::default()
    };
    let fragment = Ipv6FragmentHeader {
        next_header: IpNumber(255),
        fragment_offset: IpFragOffset::try_new(offset).expect(rt, "above 8191"),
        more_fragments,
        identification: 7,
    };
    let extensions = Ipv6Extensions {
        fragment: Some(fragment),
        ..Default::default()
    };
    IpHeaders::Ipv6(header, extensions)
}
