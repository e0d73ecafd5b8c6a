//! Tests of whole packets: the layers that both parsers (slices and owned headers) find, and the errors of rejected
//! packets.

use crate::err::packet::SliceError;
use crate::err::{Layer, LenError, ip, ip_auth, ipv6, ipv6_exts};
use crate::tests::checks::same;
use crate::tests::samples::*;
use crate::*;
use std::process::Abort;

/// A MACsec tag (SecTAG) and three VLAN tags after it, without the ether type that announces the MACsec tag.
const TAGS_IN_MACSEC: &[u8] =
    b"\x00\x00\x00\x00\x00\x00\x81\x00\x00\x01\x81\x00\x00\x02\x81\x00\x00\x03\x08\x00";

/// A MACsec tag (SecTAG) with a payload of the unknown ether type 0x1234. The last two bytes are after the end that the
/// short length sets.
const SHORT_MACSEC: &[u8] = b"\x00\x05\x00\x00\x00\x01\x12\x34\x01\x02\x03\xff\xff";

/// A VLAN tag with identifier 1, and an IPv4 packet with an empty UDP datagram.
const TAGGED: &[u8] =
    b"\x00\x01\x08\x00\x45\0\0\x1c\0\0\x40\0\x40\x11\0\0\x0a\0\0\x01\x0a\0\0\x02\0\x15\x04\xd2\0\x08\0\0";

/// An IPv4 packet with a TCP segment with two bytes of payload, and two bytes of padding after the packet.
const SEGMENT: &[u8] =
    b"\x45\x00\x00\x2a\x00\x00\x40\x00\x14\x06\x00\x00\xc0\xa8\x01\x01\xc0\xa8\x01\x02\x00\x15\x00\x0c\x00\x00\x30\x39\x00\x00\x00\x00\x50\x02\x0f\xa0\x00\x00\x00\x00\x01\x02\x00\x00";

/// An IPv4 packet with an ICMPv4 echo request.
const ECHO_IPV4: &[u8] =
    b"\x45\x00\x00\x1e\x00\x00\x40\x00\x14\x01\x00\x00\xc0\xa8\x01\x01\xc0\xa8\x01\x02\x08\x00\x00\x00\x00\x01\x00\x02\xaa\xbb";

/// An IPv6 packet with an ICMPv6 echo request.
const ECHO_IPV6: &[u8] =
    b"\x60\x00\x00\x00\x00\x0a\x3a\x40\0\0\0\0\0\0\0\0\0\0\0\0\0\0\0\0\0\0\0\0\0\0\0\0\0\0\0\0\0\0\0\0\x80\x00\x00\x00\x00\x01\x00\x02\xaa\xbb";

/// An IPv6 packet with an extension header of each kind (hop-by-hop and destination options, routing, fragment,
/// authentication) and a UDP datagram after them.
const EVERY_KIND: &[u8] =
    b"\x60\x00\x00\x00\x00\x3e\x00\x40\0\0\0\0\0\0\0\0\0\0\0\0\0\0\0\0\0\0\0\0\0\0\0\0\0\0\0\0\0\0\0\0\x3c\0\0\0\0\0\0\0\x2b\0\0\0\0\0\0\0\x2c\0\0\0\0\0\0\0\x33\0\0\0\0\0\0\x01\x3c\x01\0\0\0\0\0\x02\0\0\0\x03\x11\0\0\0\0\0\0\0\x00\x15\x04\xd2\x00\x0a\x00\x00\x01\x02";

/// A Linux cooked capture header (SLL) of an Ethernet device, and an IPv4 packet with an authentication header.
const COOKED: &[u8] =
    b"\x00\x00\x00\x01\x00\x06\x01\x02\x03\x04\x05\x06\x00\x00\x08\x00\x45\x00\x00\x24\x00\x00\x00\x00\x40\x33\x00\x00\xc0\xa8\x01\x01\xc0\xa8\x01\x02\x3b\x01\x00\x00\x00\x00\x00\x02\x00\x00\x00\x03\x01\x02\x03\x04";

const TAG: Entry = Entry::EtherType(EtherType::VLAN_TAGGED_FRAME);

const MACSEC: Entry = Entry::EtherType(EtherType::MACSEC);

const IPV4: Entry = Entry::EtherType(EtherType::IPV4);

const IPV6: Entry = Entry::EtherType(EtherType::IPV6);

/// Returns a `SlicedPacket` that already has a VLAN tag, an IPv4 and a UDP layer, to be filled with another packet.
fn used_slices(rt: &impl Abort) -> SlicedPacket<'static> {
    SlicedPacket::from_entry(TAG, TAGGED).expect(rt, "refused")
}

/// Returns `PacketHeaders` that already have a VLAN, an IPv4 and a UDP header, to be filled with another packet.
fn used_headers(rt: &impl Abort) -> PacketHeaders<'static> {
    PacketHeaders::from_ether_type(EtherType::VLAN_TAGGED_FRAME, TAGGED).expect(rt, "refused")
}

/// Asserts what both parsers (slices and owned headers) find in a packet: the numbers of link extensions and of VLAN
/// tags, the length of the network headers (0: none), and the payload. Both fill values that already held another
/// packet.
fn reads(
    rt: &impl Abort,
    entry: Entry,
    bytes: &'static [u8],
    (link_exts, vlan_ids, net_len): (usize, usize, usize),
    payload: PayloadSlice<'static>,
) {
    let mut sliced = used_slices(rt);
    same(rt, &sliced.slice_into(entry, bytes), &Ok(()));
    same(
        rt,
        &(sliced.link_exts.len(), sliced.vlan_ids().len()),
        &(link_exts, vlan_ids),
    );
    same(rt, &sliced.net.is_some(), &(net_len > 0));
    same(rt, &sliced.payload(), &payload.slice());
    let mut headers = used_headers(rt);
    same(rt, &headers.read_into(entry, bytes), &Ok(()));
    same(
        rt,
        &(headers.link_exts.len(), headers.vlan_ids().len()),
        &(link_exts, vlan_ids),
    );
    let len = headers.net.as_ref().map_or(0, |net| net.header_len());
    same(rt, &len, &net_len);
    same(rt, &headers.payload, &payload);
}

/// Asserts that both parsers (slices and owned headers) end in a payload with an ether type, and find these numbers of
/// link extensions, VLAN tags and network header bytes.
fn reads_type(
    rt: &impl Abort,
    entry: Entry,
    bytes: &'static [u8],
    counts: (usize, usize, usize),
    payload: EtherPayloadSlice<'static>,
) {
    let sliced = SlicedPacket::from_entry(entry, bytes).expect(rt, "refused");
    same(rt, &sliced.payload_ether_type(), &Some(payload.ether_type));
    same(rt, &sliced.ether_payload().as_ref(), &Some(&payload));
    reads(rt, entry, bytes, counts, PayloadSlice::Ether(payload));
}

/// Asserts that both parsers (slices and owned headers) read an IP packet with the payload bytes 1, 2, 3, 4 and IP
/// protocol number 59, after `net_len` bytes of IP headers.
fn reads_ip(
    rt: &impl Abort,
    entry: Entry,
    bytes: &'static [u8],
    net_len: usize,
    len_source: LenSource,
) {
    let payload = IpPayloadSlice {
        ip_number: IpNumber(59),
        fragmented: false,
        len_source,
        payload: &[1, 2, 3, 4],
    };
    let sliced = SlicedPacket::from_entry(entry, bytes).expect(rt, "refused");
    same(rt, &sliced.ip_payload(), &Some(&payload));
    reads(rt, entry, bytes, (0, 0, net_len), PayloadSlice::Ip(payload));
}

/// Returns a payload of these bytes with this ether type, limited by `len_source`.
fn of_type(
    ether_type: u16,
    len_source: LenSource,
    payload: &'static [u8],
) -> EtherPayloadSlice<'static> {
    EtherPayloadSlice {
        ether_type: EtherType(ether_type),
        len_source,
        payload,
    }
}

#[test]
fn payloads_of_a_type(rt: HostRuntime) {
    let slice = LenSource::Slice;
    let macsec = LenSource::MacsecShortLength;
    let fourth = of_type(0x8100, slice, b"\x00\x04\x08\x00");
    reads_type(&rt, TAG, FOUR_TAGS, (3, 3, 0), fourth);
    let third = of_type(0x8100, slice, b"\x00\x03\x08\x00");
    reads_type(&rt, MACSEC, TAGS_IN_MACSEC, (3, 2, 0), third);
    let limited = of_type(0x1234, macsec, b"\x01\x02\x03");
    reads_type(&rt, MACSEC, SHORT_MACSEC, (1, 0, 0), limited);
    let after_tag = of_type(0x1234, macsec, b"\x01\x02");
    reads_type(&rt, MACSEC, TAG_IN_MACSEC, (2, 1, 0), after_tag);
    let unknown = Entry::EtherType(EtherType(0x1234));
    let alone = of_type(0x1234, slice, b"\x01\x02");
    reads_type(&rt, unknown, b"\x01\x02", (0, 0, 0), alone);
}

#[test]
fn payloads_without_a_type(rt: HostRuntime) {
    let modified = PayloadSlice::MacsecMod(b"\xaa\xbb\xcc");
    reads(&rt, MACSEC, MODIFIED, (1, 0, 0), modified);
    let netlink = PayloadSlice::MacsecMod(b"\x01\x02");
    reads(&rt, Entry::LinuxSll, NETLINK, (0, 0, 0), netlink);
    reads(
        &rt,
        Entry::EtherType(EtherType::ARP),
        ARP,
        (0, 0, 28),
        PayloadSlice::Empty,
    );
}

#[test]
fn payloads_of_ip(rt: HostRuntime) {
    reads_ip(&rt, IPV4, AUTHENTICATED, 32, LenSource::Ipv4HeaderTotalLen);
    reads_ip(
        &rt,
        Entry::LinuxSll,
        COOKED,
        32,
        LenSource::Ipv4HeaderTotalLen,
    );
    reads_ip(&rt, Entry::Ip, OPEN_LENGTH, 40, LenSource::Slice);
}

#[test]
fn payloads_of_udp(rt: HostRuntime) {
    let packet = &FRAME[14..];
    let udp = (0, 0, 20);
    reads(&rt, Entry::Ethernet, FRAME, udp, PayloadSlice::Udp(PAYLOAD));
    reads(&rt, IPV4, packet, udp, PayloadSlice::Udp(PAYLOAD));
    reads(&rt, Entry::Ip, packet, udp, PayloadSlice::Udp(PAYLOAD));
    let udp_payload = PayloadSlice::Udp(b"\x01\x02");
    reads(&rt, Entry::Ip, EVERY_KIND, (0, 0, 92), udp_payload);
    reads(&rt, TAG, TAGGED, (1, 1, 20), PayloadSlice::Udp(b""));
}

#[test]
fn payloads_of_tcp_and_icmp(rt: HostRuntime) {
    reads(
        &rt,
        IPV4,
        SEGMENT,
        (0, 0, 20),
        PayloadSlice::Tcp(b"\x01\x02"),
    );
    reads(
        &rt,
        IPV4,
        ECHO_IPV4,
        (0, 0, 20),
        PayloadSlice::Icmpv4(b"\xaa\xbb"),
    );
    reads(
        &rt,
        Entry::Ip,
        ECHO_IPV6,
        (0, 0, 40),
        PayloadSlice::Icmpv6(b"\xaa\xbb"),
    );
}

/// `PacketHeaders::from_ip_slice` parses from the IP header on, and finds no link header.
#[test]
fn from_ip_slice(rt: HostRuntime) {
    let headers = PacketHeaders::from_ip_slice(EVERY_KIND).expect(&rt, "refused");
    same(&rt, &headers.link, &None);
    same(&rt, &headers.payload, &PayloadSlice::Udp(b"\x01\x02"));
}

/// Asserts that both parsers (slices and owned headers) reject the bytes with this error.
fn refuses(rt: &impl Abort, entry: Entry, bytes: &'static [u8], error: SliceError) {
    let refused = Err(error);
    let mut sliced = SlicedPacket::new();
    same(rt, &sliced.slice_into(entry, bytes), &refused);
    let mut headers = PacketHeaders::new();
    same(rt, &headers.read_into(entry, bytes), &refused);
}

fn too_short(
    required_len: usize,
    len: usize,
    len_source: LenSource,
    layer: Layer,
    layer_start_offset: usize,
) -> SliceError {
    SliceError::Len(LenError {
        required_len,
        len,
        len_source,
        layer,
        layer_start_offset,
    })
}

/// If the short length of a MACsec tag ends within a VLAN tag in its payload, the error names `Slice` as the length
/// source.
#[test]
fn short_tag_in_macsec(rt: HostRuntime) {
    let tag = too_short(4, 3, LenSource::Slice, Layer::VlanHeader, 8);
    let in_macsec = b"\x00\x05\x00\x00\x00\x01\x81\x00\x00\x01\x81\xaa\xbb\xcc\xdd\xee";
    refuses(&rt, MACSEC, in_macsec, tag);
}

#[test]
fn refused_versions(rt: HostRuntime) {
    let version_5 = ip::HeaderError::UnsupportedIpVersion { version_number: 5 };
    refuses(&rt, Entry::Ip, b"\x50", SliceError::Ip(version_5));
    let version_4 = ipv6::HeaderError::UnexpectedVersion { version_number: 4 };
    refuses(&rt, IPV6, &[0x40; 40], SliceError::Ipv6(version_4));
    let in_tag = ipv6::HeaderError::UnexpectedVersion { version_number: 4 };
    refuses(
        &rt,
        Entry::EtherType(EtherType::PROVIDER_BRIDGING),
        b"\x00\x01\x86\xdd\x40\0\0\0\0\0\x3b\x40\0\0\0\0\0\0\0\0\0\0\0\0\0\0\0\0\0\0\0\0\0\0\0\0\0\0\0\0\0\0\0\0",
        SliceError::Ipv6(in_tag),
    );
}

#[test]
fn refused_extension_headers(rt: HostRuntime) {
    // hop-by-hop options after hop-by-hop options
    refuses(
        &rt,
        Entry::Ip,
        b"\x60\x00\x00\x00\x00\x10\x00\x40\0\0\0\0\0\0\0\0\0\0\0\0\0\0\0\0\0\0\0\0\0\0\0\0\0\0\0\0\0\0\0\0\0\0\0\0\0\0\0\0\x11\0\0\0\0\0\0\0",
        SliceError::Ipv6Exts(ipv6_exts::HeaderError::HopByHopNotAtStart),
    );
    // hop-by-hop options after destination options
    refuses(
        &rt,
        IPV6,
        b"\x60\0\0\0\0\0\x3c\x40\0\0\0\0\0\0\0\0\0\0\0\0\0\0\0\0\0\0\0\0\0\0\0\0\0\0\0\0\0\0\0\0\0\0\0\0\0\0\0\0\0\0\0\0\0\0\0\0",
        SliceError::Ipv6Exts(ipv6_exts::HeaderError::HopByHopNotAtStart),
    );
    // authentication headers with payload length 0
    let zero = ipv6_exts::HeaderError::IpAuth(ip_auth::HeaderError::ZeroPayloadLen);
    refuses(
        &rt,
        IPV6,
        b"\x60\0\0\0\0\0\x33\x40\0\0\0\0\0\0\0\0\0\0\0\0\0\0\0\0\0\0\0\0\0\0\0\0\0\0\0\0\0\0\0\0\0\0\0\0\0\0\0\0\0\0\0\0",
        SliceError::Ipv6Exts(zero),
    );
    refuses(
        &rt,
        IPV4,
        b"\x45\x00\x00\x24\x00\x00\x00\x00\x40\x33\x00\x00\xc0\xa8\x01\x01\xc0\xa8\x01\x02\x3b\x00\x00\x00\x00\x00\x00\x02\x00\x00\x00\x03\x01\x02\x03\x04",
        SliceError::Ipv4Exts(ip_auth::HeaderError::ZeroPayloadLen),
    );
}

#[test]
fn shorter_length_of_udp(rt: HostRuntime) {
    let mut frame = [0; 50];
    frame.copy_from_slice(FRAME);
    frame[39] = 12;
    let sliced = SlicedPacket::from_ethernet(&frame).expect(&rt, "refused");
    same(&rt, &sliced.payload(), &b"\x01\x02\x03\x04".as_slice());
    let headers = PacketHeaders::from_ethernet_slice(&frame).expect(&rt, "refused");
    same(&rt, &headers.payload, &PayloadSlice::Udp(PAYLOAD));
}
