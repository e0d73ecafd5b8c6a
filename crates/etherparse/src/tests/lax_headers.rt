//! Tests of lax parsing into owned headers: truncated packets, length fields above the available bytes, transport
//! headers, repeated extension headers, and fragments. The expected values come from the header diagrams of the
//! standards.

use crate::err::packet::SliceError;
use crate::err::{Layer, LenError, ip_auth, ip_exts, ipv6_exts, tcp};
use crate::tests::checks::same;
use crate::tests::samples::*;
use crate::*;
use std::ops::Range;
use std::process::Abort;

/// An IPv6 packet with two Destination Options headers, of 8 bytes each, and four bytes of payload (next header 59).
const OPTIONS_TWICE: &[u8] =
    b"\x60\x00\x00\x00\x00\x14\x3c\x40\0\0\0\0\0\0\0\0\0\0\0\0\0\0\0\0\0\0\0\0\0\0\0\0\0\0\0\0\0\0\0\0\x3c\x00\x01\x04\0\0\0\0\x3b\x00\x01\x04\0\0\0\0\x01\x02\x03\x04";

/// A MACsec tag (SecTAG) with an unmodified payload: a VLAN tag, and an IPv4 packet with four bytes of payload.
const IPV4_IN_MACSEC: &[u8] =
    b"\x00\x1e\x00\x00\x00\x01\x81\x00\x00\x07\x08\x00\x45\x00\x00\x18\x00\x00\x00\x00\x40\xfd\x00\x00\x0a\x00\x00\x01\x0a\x00\x00\x02\x01\x02\x03\x04";

/// An IPv4 packet with a UDP datagram of 16 bytes, whose length field is 17.
const LONG_UDP: &[u8] =
    b"\x45\x00\x00\x24\x00\x00\x40\x00\x14\x11\xe3\x75\xc0\xa8\x01\x01\xc0\xa8\x01\x02\x00\x15\x04\xd2\x00\x11\x67\x7f\x01\x02\x03\x04\x05\x06\x07\x08";

/// An IPv4 packet with a TCP segment: a header of 24 bytes, with the option maximum segment size, and four bytes of
/// payload.
const SEGMENT: &[u8] =
    b"\x45\x00\x00\x30\x00\x00\x40\x00\x40\x06\x00\x00\xc0\xa8\x01\x01\xc0\xa8\x01\x02\x00\x50\x04\xd2\x00\x00\x30\x39\x00\x00\x00\x07\x60\x12\x10\x00\x12\x34\x00\x00\x02\x04\x05\xb4\xaa\xbb\xcc\xdd";

/// An IPv6 packet with the TCP segment of `SEGMENT`.
const SEGMENT_IPV6: &[u8] =
    b"\x60\x00\x00\x00\x00\x1c\x06\x40\0\0\0\0\0\0\0\0\0\0\0\0\0\0\0\0\0\0\0\0\0\0\0\0\0\0\0\0\0\0\0\0\x00\x50\x04\xd2\x00\x00\x30\x39\x00\x00\x00\x07\x60\x12\x10\x00\x12\x34\x00\x00\x02\x04\x05\xb4\xaa\xbb\xcc\xdd";

/// An IPv4 packet with a TCP segment: a header of 20 bytes, without options, and two bytes of payload.
const NO_OPTIONS: &[u8] =
    b"\x45\x00\x00\x2a\x00\x00\x40\x00\x40\x06\x00\x00\xc0\xa8\x01\x01\xc0\xa8\x01\x02\x00\x50\x04\xd2\x00\x00\x30\x39\x00\x00\x00\x07\x50\x12\x10\x00\x12\x34\x00\x00\xaa\xbb";

/// An IPv4 packet with 20 bytes of TCP, whose data offset is 4 words, below the minimum of 5.
const SMALL_OFFSET: &[u8] =
    b"\x45\x00\x00\x28\x00\x00\x40\x00\x40\x06\x00\x00\xc0\xa8\x01\x01\xc0\xa8\x01\x02\x00\x50\x04\xd2\x00\x00\x30\x39\x00\x00\x00\x07\x40\x12\x10\x00\x12\x34\x00\x00";

/// An IPv4 packet with an ICMPv4 echo request and its four bytes of data.
const ECHO: &[u8] =
    b"\x45\x00\x00\x20\x00\x00\x40\x00\x40\x01\x00\x00\xc0\xa8\x01\x01\xc0\xa8\x01\x02\x08\x00\x12\x34\x00\x07\x00\x09\xaa\xbb\xcc\xdd";

/// An IPv6 packet with an ICMPv6 echo request and its four bytes of data.
const ECHO_IPV6: &[u8] =
    b"\x60\x00\x00\x00\x00\x0c\x3a\x40\0\0\0\0\0\0\0\0\0\0\0\0\0\0\0\0\0\0\0\0\0\0\0\0\0\0\0\0\0\0\0\0\x80\x00\x12\x34\x00\x07\x00\x09\xaa\xbb\xcc\xdd";

/// An IPv6 packet with the ICMPv4 echo request of `ECHO` (next header 1).
const ICMPV4_IN_IPV6: &[u8] =
    b"\x60\x00\x00\x00\x00\x0c\x01\x40\0\0\0\0\0\0\0\0\0\0\0\0\0\0\0\0\0\0\0\0\0\0\0\0\0\0\0\0\0\0\0\0\x08\x00\x12\x34\x00\x07\x00\x09\xaa\xbb\xcc\xdd";

/// An IPv4 packet with the ICMPv6 echo request of `ECHO_IPV6` (protocol 58).
const ICMPV6_IN_IPV4: &[u8] =
    b"\x45\x00\x00\x20\x00\x00\x40\x00\x40\x3a\x00\x00\xc0\xa8\x01\x01\xc0\xa8\x01\x02\x80\x00\x12\x34\x00\x07\x00\x09\xaa\xbb\xcc\xdd";

/// An IPv4 packet with an ICMPv4 timestamp message of 20 bytes.
const TIMESTAMP: &[u8] =
    b"\x45\x00\x00\x28\x00\x00\x40\x00\x40\x01\x00\x00\xc0\xa8\x01\x01\xc0\xa8\x01\x02\x0d\x00\x12\x34\x00\x07\x00\x09\x00\x00\x00\x01\x00\x00\x00\x02\x00\x00\x00\x03";

/// An IPv4 packet with an ICMPv4 timestamp message and four bytes after it, which the total length includes.
const LONG_TIMESTAMP: &[u8] =
    b"\x45\x00\x00\x2c\x00\x00\x40\x00\x40\x01\x00\x00\xc0\xa8\x01\x01\xc0\xa8\x01\x02\x0d\x00\x12\x34\x00\x07\x00\x09\x00\x00\x00\x01\x00\x00\x00\x02\x00\x00\x00\x03\xaa\xbb\xcc\xdd";

/// An IPv4 packet with an ICMPv4 timestamp reply and four bytes after it, which the total length includes.
const LONG_REPLY: &[u8] =
    b"\x45\x00\x00\x2c\x00\x00\x40\x00\x40\x01\x00\x00\xc0\xa8\x01\x01\xc0\xa8\x01\x02\x0e\x00\x12\x34\x00\x07\x00\x09\x00\x00\x00\x01\x00\x00\x00\x02\x00\x00\x00\x03\xaa\xbb\xcc\xdd";

/// TCP option maximum segment size, of 1460 bytes (RFC 9293, 3.2).
const MSS: &[u8] = b"\x02\x04\x05\xb4";

/// Layer that a payload belongs to.
#[derive(Clone, Copy, Debug, PartialEq, Eq)]
enum Kind {
    Empty,
    Ether,
    MacsecModified,
    LinuxSll,
    Ip,
    Udp,
    Tcp,
    Icmpv4,
    Icmpv6,
}

/// Returns the layer that the payload belongs to, and whether bytes of it are missing.
fn kind_of(payload: &LaxPayloadSlice<'_>) -> (Kind, bool) {
    match payload {
        LaxPayloadSlice::Empty => (Kind::Empty, false),
        LaxPayloadSlice::Ether(payload) => (Kind::Ether, payload.incomplete),
        LaxPayloadSlice::MacsecModified { incomplete, .. } => (Kind::MacsecModified, *incomplete),
        LaxPayloadSlice::LinuxSll(_) => (Kind::LinuxSll, false),
        LaxPayloadSlice::Ip(payload) => (Kind::Ip, payload.incomplete),
        LaxPayloadSlice::Udp { incomplete, .. } => (Kind::Udp, *incomplete),
        LaxPayloadSlice::Tcp { incomplete, .. } => (Kind::Tcp, *incomplete),
        LaxPayloadSlice::Icmpv4 { incomplete, .. } => (Kind::Icmpv4, *incomplete),
        LaxPayloadSlice::Icmpv6 { incomplete, .. } => (Kind::Icmpv6, *incomplete),
    }
}

/// Returns the length error at which lax parsing stops: `layer` starts at byte `layer_start_offset`, needs
/// `required_len` bytes and has `len`, limited by `len_source`.
fn length_error(
    layer: Layer,
    (layer_start_offset, required_len, len): (usize, usize, usize),
    len_source: LenSource,
) -> Option<(SliceError, Layer)> {
    let error = LenError {
        required_len,
        len,
        len_source,
        layer: layer.clone().unwrap(),
        layer_start_offset,
    };
    Some((SliceError::Len(error), layer))
}

/// Returns a UDP header from port 21 to port 1234 with this length field.
fn udp(length: u16) -> Option<TransportHeader> {
    Some(TransportHeader::Udp(UdpHeader {
        source_port: 21,
        destination_port: 1234,
        length,
        checksum: 0x677f,
    }))
}

/// Returns a TCP header from port 80 to port 1234, with the flags SYN and ACK and these options.
fn tcp(rt: &impl Abort, options: &[u8]) -> Option<TransportHeader> {
    Some(TransportHeader::Tcp(TcpHeader {
        source_port: 80,
        destination_port: 1234,
        sequence_number: 12345,
        acknowledgment_number: 7,
        syn: true,
        ack: true,
        window_size: 4096,
        checksum: 0x1234,
        options: TcpOptions::try_from_slice(options).expect(rt, "at most 40 bytes"),
        ..Default::default()
    }))
}

/// Returns the header of an ICMPv4 echo request with identifier 7 and sequence number 9.
fn echo() -> Option<TransportHeader> {
    Some(TransportHeader::Icmpv4(Icmpv4Header {
        icmp_type: Icmpv4Type::EchoRequest(IcmpEchoHeader { id: 7, seq: 9 }),
        checksum: 0x1234,
    }))
}

/// Returns the header of an ICMPv6 echo request with identifier 7 and sequence number 9.
fn echo_ipv6() -> Option<TransportHeader> {
    Some(TransportHeader::Icmpv6(Icmpv6Header {
        icmp_type: Icmpv6Type::EchoRequest(IcmpEchoHeader { id: 7, seq: 9 }),
        checksum: 0x1234,
    }))
}

/// Returns the header of an ICMPv4 timestamp message with the timestamps 1, 2 and 3.
fn timestamp() -> Option<TransportHeader> {
    let times = icmpv4::TimestampMessage {
        id: 7,
        seq: 9,
        originate_timestamp: 1,
        receive_timestamp: 2,
        transmit_timestamp: 3,
    };
    Some(TransportHeader::Icmpv4(Icmpv4Header {
        icmp_type: Icmpv4Type::TimestampRequest(times),
        checksum: 0x1234,
    }))
}

const IPV4: Entry = Entry::EtherType(EtherType::IPV4);

const IPV6: Entry = Entry::EtherType(EtherType::IPV6);

const ARP_TYPE: Entry = Entry::EtherType(EtherType::ARP);

const MACSEC: Entry = Entry::EtherType(EtherType::MACSEC);

/// Parses the first `len` bytes of a packet laxly into a value, and asserts the number of link extensions, the length of
/// the network headers, the transport header, the kind, place and incompleteness of the payload, and the error at which
/// parsing stopped.
fn reads<'a>(
    rt: &impl Abort,
    packet: &mut LaxPacketHeaders<'a>,
    (entry, bytes, len): (Entry, &'a [u8], usize),
    (exts, net, transport): (usize, usize, Option<TransportHeader>),
    (kind, place, incomplete): (Kind, Range<usize>, bool),
    stop: Option<(SliceError, Layer)>,
) {
    let shown = bytes.get(..len).expect(rt, "the first bytes");
    packet
        .read_into(entry, shown)
        .expect(rt, "the first header is valid");
    let net_len = match &packet.net {
        Some(headers) => headers.header_len(),
        None => 0,
    };
    same(rt, &(packet.link_exts.len(), net_len), &(exts, net));
    same(rt, &packet.transport, &transport);
    let payload = shown.get(place).expect(rt, "its payload");
    same(rt, &packet.payload.slice(), &payload);
    same(rt, &kind_of(&packet.payload), &(kind, incomplete));
    same(rt, &packet.stop_err, &stop);
}

/// Lax parsing of Ethernet II frames, and of a UDP datagram whose length field is above its bytes.
#[test]
fn frames(rt: HostRuntime) {
    let mut packet = LaxPacketHeaders::new();
    reads(
        &rt,
        &mut packet,
        (Entry::Ethernet, FRAME, 50),
        (0, 20, udp(16)),
        (Kind::Udp, 42..50, false),
        None,
    );
    reads(
        &rt,
        &mut packet,
        (Entry::Ethernet, FRAME, 45),
        (0, 20, udp(16)),
        (Kind::Udp, 42..45, true),
        None,
    );
    reads(
        &rt,
        &mut packet,
        (Entry::Ethernet, FRAME, 40),
        (0, 20, None),
        (Kind::Ip, 34..40, true),
        length_error(Layer::UdpHeader, (34, 8, 6), LenSource::Slice),
    );
    reads(
        &rt,
        &mut packet,
        (Entry::Ethernet, FRAME, 30),
        (0, 0, None),
        (Kind::Ether, 14..30, false),
        length_error(Layer::Ipv4Header, (14, 20, 16), LenSource::Slice),
    );
    reads(
        &rt,
        &mut packet,
        (IPV4, LONG_UDP, 36),
        (0, 20, udp(17)),
        (Kind::Udp, 28..36, true),
        None,
    );
}

/// Lax parsing of MACsec tags, with a VLAN tag and an IPv4 packet inside, or with a modified payload.
#[test]
fn macsec_tags(rt: HostRuntime) {
    let mut packet = LaxPacketHeaders::new();
    reads(
        &rt,
        &mut packet,
        (MACSEC, IPV4_IN_MACSEC, 36),
        (2, 20, None),
        (Kind::Ip, 32..36, false),
        None,
    );
    reads(
        &rt,
        &mut packet,
        (MACSEC, IPV4_IN_MACSEC, 34),
        (2, 20, None),
        (Kind::Ip, 32..34, true),
        None,
    );
    reads(
        &rt,
        &mut packet,
        (MACSEC, IPV4_IN_MACSEC, 9),
        (1, 0, None),
        (Kind::Ether, 8..9, true),
        length_error(Layer::VlanHeader, (8, 4, 1), LenSource::Slice),
    );
    reads(
        &rt,
        &mut packet,
        (MACSEC, MODIFIED, 10),
        (1, 0, None),
        (Kind::MacsecModified, 6..9, false),
        None,
    );
    reads(
        &rt,
        &mut packet,
        (MACSEC, MODIFIED, 8),
        (1, 0, None),
        (Kind::MacsecModified, 6..8, true),
        None,
    );
}

/// Lax parsing of repeated and truncated extension headers, and of first fragments.
#[test]
fn extension_headers(rt: HostRuntime) {
    let mut packet = LaxPacketHeaders::new();
    reads(
        &rt,
        &mut packet,
        (IPV6, OPTIONS_TWICE, 60),
        (0, 48, None),
        (Kind::Ip, 48..60, false),
        None,
    );
    reads(
        &rt,
        &mut packet,
        (IPV6, OPTIONS_TWICE, 52),
        (0, 48, None),
        (Kind::Ip, 48..52, true),
        None,
    );
    reads(
        &rt,
        &mut packet,
        (IPV6, OPTIONS_TWICE, 44),
        (0, 40, None),
        (Kind::Ip, 40..44, true),
        length_error(Layer::Ipv6ExtHeader, (40, 8, 4), LenSource::Slice),
    );
    reads(
        &rt,
        &mut packet,
        (Entry::Ip, AUTHENTICATED, 36),
        (0, 32, None),
        (Kind::Ip, 32..36, false),
        None,
    );
    reads(
        &rt,
        &mut packet,
        (Entry::Ip, AUTHENTICATED, 25),
        (0, 20, None),
        (Kind::Ip, 20..25, true),
        length_error(Layer::IpAuthHeader, (20, 12, 5), LenSource::Slice),
    );
    reads(
        &rt,
        &mut packet,
        (Entry::Ip, FIRST_IPV4, 36),
        (0, 20, None),
        (Kind::Ip, 20..36, false),
        None,
    );
    reads(
        &rt,
        &mut packet,
        (Entry::Ip, FIRST_IPV6, 56),
        (0, 48, None),
        (Kind::Ip, 48..56, false),
        None,
    );
}

/// Lax parsing of ARP packets, and of a cooked capture with a Netlink message.
#[test]
fn other_layers(rt: HostRuntime) {
    let mut packet = LaxPacketHeaders::new();
    reads(
        &rt,
        &mut packet,
        (ARP_TYPE, ARP, 28),
        (0, 28, None),
        (Kind::Empty, 28..28, false),
        None,
    );
    reads(
        &rt,
        &mut packet,
        (ARP_TYPE, ARP, 20),
        (0, 0, None),
        (Kind::Ether, 0..20, false),
        length_error(Layer::Arp, (0, 28, 20), LenSource::ArpAddrLengths),
    );
    reads(
        &rt,
        &mut packet,
        (Entry::LinuxSll, NETLINK, 18),
        (0, 0, None),
        (Kind::LinuxSll, 16..18, false),
        None,
    );
}

/// Lax parsing of TCP headers in IPv4 and IPv6 packets.
#[test]
fn tcp_headers(rt: HostRuntime) {
    let mut packet = LaxPacketHeaders::new();
    let small_offset = SliceError::Tcp(tcp::HeaderError::DataOffsetTooSmall { data_offset: 4 });
    reads(
        &rt,
        &mut packet,
        (Entry::Ip, SEGMENT, 48),
        (0, 20, tcp(&rt, MSS)),
        (Kind::Tcp, 44..48, false),
        None,
    );
    reads(
        &rt,
        &mut packet,
        (Entry::Ip, NO_OPTIONS, 42),
        (0, 20, tcp(&rt, b"")),
        (Kind::Tcp, 40..42, false),
        None,
    );
    reads(
        &rt,
        &mut packet,
        (Entry::Ip, SEGMENT, 46),
        (0, 20, tcp(&rt, MSS)),
        (Kind::Tcp, 44..46, true),
        None,
    );
    reads(
        &rt,
        &mut packet,
        (Entry::Ip, SEGMENT, 42),
        (0, 20, None),
        (Kind::Ip, 20..42, true),
        length_error(Layer::TcpHeader, (20, 24, 22), LenSource::Slice),
    );
    reads(
        &rt,
        &mut packet,
        (Entry::Ip, SEGMENT, 33),
        (0, 20, None),
        (Kind::Ip, 20..33, true),
        length_error(Layer::TcpHeader, (20, 20, 13), LenSource::Slice),
    );
    reads(
        &rt,
        &mut packet,
        (Entry::Ip, SMALL_OFFSET, 40),
        (0, 20, None),
        (Kind::Ip, 20..40, false),
        Some((small_offset, Layer::TcpHeader)),
    );
    reads(
        &rt,
        &mut packet,
        (Entry::Ip, SEGMENT_IPV6, 68),
        (0, 40, tcp(&rt, MSS)),
        (Kind::Tcp, 64..68, false),
        None,
    );
    reads(
        &rt,
        &mut packet,
        (Entry::Ip, SEGMENT_IPV6, 64),
        (0, 40, tcp(&rt, MSS)),
        (Kind::Tcp, 64..64, true),
        None,
    );
    reads(
        &rt,
        &mut packet,
        (Entry::Ip, SEGMENT_IPV6, 63),
        (0, 40, None),
        (Kind::Ip, 40..63, true),
        length_error(Layer::TcpHeader, (40, 24, 23), LenSource::Slice),
    );
    reads(
        &rt,
        &mut packet,
        (Entry::Ip, SEGMENT_IPV6, 50),
        (0, 40, None),
        (Kind::Ip, 40..50, true),
        length_error(Layer::TcpHeader, (40, 20, 10), LenSource::Slice),
    );
}

/// Lax parsing of ICMPv4 messages in IPv4 and IPv6 packets.
#[test]
fn icmpv4_messages(rt: HostRuntime) {
    let mut packet = LaxPacketHeaders::new();
    reads(
        &rt,
        &mut packet,
        (Entry::Ip, ECHO, 32),
        (0, 20, echo()),
        (Kind::Icmpv4, 28..32, false),
        None,
    );
    reads(
        &rt,
        &mut packet,
        (Entry::Ip, ECHO, 30),
        (0, 20, echo()),
        (Kind::Icmpv4, 28..30, true),
        None,
    );
    reads(
        &rt,
        &mut packet,
        (Entry::Ip, ECHO, 27),
        (0, 20, None),
        (Kind::Ip, 20..27, true),
        length_error(Layer::Icmpv4, (20, 8, 7), LenSource::Slice),
    );
    reads(
        &rt,
        &mut packet,
        (Entry::Ip, ICMPV4_IN_IPV6, 52),
        (0, 40, echo()),
        (Kind::Icmpv4, 48..52, false),
        None,
    );
    reads(
        &rt,
        &mut packet,
        (Entry::Ip, ICMPV4_IN_IPV6, 44),
        (0, 40, None),
        (Kind::Ip, 40..44, true),
        length_error(Layer::Icmpv4, (40, 8, 4), LenSource::Slice),
    );
    reads(
        &rt,
        &mut packet,
        (Entry::Ip, TIMESTAMP, 40),
        (0, 20, timestamp()),
        (Kind::Icmpv4, 40..40, false),
        None,
    );
    reads(
        &rt,
        &mut packet,
        (Entry::Ip, TIMESTAMP, 36),
        (0, 20, None),
        (Kind::Ip, 20..36, true),
        length_error(Layer::Icmpv4Timestamp, (20, 20, 16), LenSource::Slice),
    );
    reads(
        &rt,
        &mut packet,
        (Entry::Ip, TIMESTAMP, 26),
        (0, 20, None),
        (Kind::Ip, 20..26, true),
        length_error(Layer::Icmpv4, (20, 8, 6), LenSource::Slice),
    );
    reads(
        &rt,
        &mut packet,
        (Entry::Ip, LONG_TIMESTAMP, 44),
        (0, 20, None),
        (Kind::Ip, 20..44, false),
        length_error(
            Layer::Icmpv4Timestamp,
            (20, 20, 24),
            LenSource::Ipv4HeaderTotalLen,
        ),
    );
    reads(
        &rt,
        &mut packet,
        (Entry::Ip, LONG_TIMESTAMP, 42),
        (0, 20, None),
        (Kind::Ip, 20..42, true),
        length_error(Layer::Icmpv4Timestamp, (20, 20, 22), LenSource::Slice),
    );
    reads(
        &rt,
        &mut packet,
        (Entry::Ip, LONG_TIMESTAMP, 40),
        (0, 20, timestamp()),
        (Kind::Icmpv4, 40..40, true),
        None,
    );
    reads(
        &rt,
        &mut packet,
        (Entry::Ip, LONG_REPLY, 44),
        (0, 20, None),
        (Kind::Ip, 20..44, false),
        length_error(
            Layer::Icmpv4TimestampReply,
            (20, 20, 24),
            LenSource::Ipv4HeaderTotalLen,
        ),
    );
}

/// Lax parsing of ICMPv6 messages in IPv6 and IPv4 packets.
#[test]
fn icmpv6_messages(rt: HostRuntime) {
    let mut packet = LaxPacketHeaders::new();
    reads(
        &rt,
        &mut packet,
        (Entry::Ip, ECHO_IPV6, 52),
        (0, 40, echo_ipv6()),
        (Kind::Icmpv6, 48..52, false),
        None,
    );
    reads(
        &rt,
        &mut packet,
        (Entry::Ip, ECHO_IPV6, 49),
        (0, 40, echo_ipv6()),
        (Kind::Icmpv6, 48..49, true),
        None,
    );
    reads(
        &rt,
        &mut packet,
        (Entry::Ip, ECHO_IPV6, 45),
        (0, 40, None),
        (Kind::Ip, 40..45, true),
        length_error(Layer::Icmpv6, (40, 8, 5), LenSource::Slice),
    );
    reads(
        &rt,
        &mut packet,
        (Entry::Ip, ICMPV6_IN_IPV4, 32),
        (0, 20, echo_ipv6()),
        (Kind::Icmpv6, 28..32, false),
        None,
    );
    reads(
        &rt,
        &mut packet,
        (Entry::Ip, ICMPV6_IN_IPV4, 22),
        (0, 20, None),
        (Kind::Ip, 20..22, true),
        length_error(Layer::Icmpv6, (20, 8, 2), LenSource::Slice),
    );
}

/// Each entry parses a packet, and rejects one whose first header is truncated.
#[test]
fn entries(rt: HostRuntime) {
    let frame = LaxPacketHeaders::from_ethernet(FRAME).expect(&rt, "an Ethernet header");
    same(&rt, &frame.transport.is_some(), &true);
    same(&rt, &frame.vlan().is_none(), &true);
    let capture = LaxPacketHeaders::from_linux_sll(NETLINK).expect(&rt, "an SLL header");
    same(&rt, &capture.link.is_some(), &true);
    let packet = LaxPacketHeaders::from_ip(FIRST_IPV6).expect(&rt, "an IPv6 header");
    same(&rt, &packet.net.is_some(), &true);
    let tags = LaxPacketHeaders::from_ether_type(EtherType::VLAN_TAGGED_FRAME, FOUR_TAGS);
    same(&rt, &tags.vlan_ids().len(), &3);
    same(
        &rt,
        &LaxPacketHeaders::from_ethernet(&[0; 13]).is_err(),
        &true,
    );
    same(
        &rt,
        &LaxPacketHeaders::from_linux_sll(&[0; 15]).is_err(),
        &true,
    );
    same(&rt, &LaxPacketHeaders::from_ip(&[0x45; 19]).is_err(), &true);
    same(&rt, &LaxPacketHeaders::from_ip(&[0x50]).is_err(), &true);
}

/// Lax parsing of IP headers and of extension headers alone.
#[test]
fn ip_headers(rt: HostRuntime) {
    let cut = AUTHENTICATED.get(..25).expect(&rt, "the first bytes");
    let (headers, payload, stop) = IpHeaders::from_slice_lax(cut).expect(&rt, "an IPv4 header");
    same(&rt, &headers.header_len(), &20);
    same(
        &rt,
        &(
            payload.ip_number.0,
            payload.payload.len(),
            payload.incomplete,
        ),
        &(51, 5, true),
    );
    let Some((ip_exts::HeadersSliceError::Len(error), layer)) = stop else {
        panic!(rt; "no header is truncated");
    };
    same(
        &rt,
        &(error.layer_start_offset, error.required_len, error.len),
        &(20, 12, 5),
    );
    same(&rt, &layer, &Layer::IpAuthHeader);
    let (headers, _, stop) = IpHeaders::from_ipv4_slice_lax(AUTHENTICATED).expect(
        &rt,
        "an IPv4 header",
    );
    same(&rt, &(headers.header_len(), stop.is_none()), &(32, true));
    let (headers, payload, stop) = IpHeaders::from_ipv6_slice_lax(OPTIONS_TWICE).expect(
        &rt,
        "an IPv6 header",
    );
    same(&rt, &(headers.header_len(), stop.is_none()), &(48, true));
    same(
        &rt,
        &(payload.ip_number.0, payload.payload.len()),
        &(60, 12),
    );
    same(&rt, &IpHeaders::from_slice_lax(&[]).is_err(), &true);
    let bytes = [0; 12]; // byte 1, the payload length, is 0
    let (extensions, number, rest, stop) = Ipv4Extensions::from_slice_lax(
        IpNumber::AUTHENTICATION_HEADER,
        &bytes,
    );
    same(
        &rt,
        &(extensions.auth.is_none(), number.0, rest.len()),
        &(true, 51, 12),
    );
    same(
        &rt,
        &stop,
        &Some(ip_auth::HeaderSliceError::Content(ip_auth::HeaderError::ZeroPayloadLen)),
    );
    let options = OPTIONS_TWICE
        .get(40..52)
        .expect(&rt, "the first options header");
    let (extensions, number, rest, stop) = Ipv6Extensions::from_slice_lax(
        IpNumber::IPV6_DESTINATION_OPTIONS,
        options,
    );
    same(
        &rt,
        &(extensions.header_len(), number.0, rest.len()),
        &(8, 60, 4),
    );
    same(&rt, &stop.is_none(), &true);
    let (_, _, _, stop) = Ipv6Extensions::from_slice_lax(
        IpNumber::IPV6_DESTINATION_OPTIONS,
        b"\0\0\0\0\0\0\0\0\0",
    );
    same(
        &rt,
        &stop,
        &Some((
            ipv6_exts::HeaderSliceError::Content(ipv6_exts::HeaderError::HopByHopNotAtStart),
            Layer::Ipv6ExtHeader,
        )),
    );
}
