//! Tests of lax parsing of truncated packets: IP, UDP and MACsec length fields with several values, packets truncated
//! at each byte, chains of extension headers, and fragments. The expected values come from the header diagrams of the
//! standards.

use crate::err::packet::SliceError;
use crate::err::{Layer, ipv4, macsec};
use crate::tests::checks::same;
use crate::tests::samples::*;
use crate::*;
use std::process::Abort;

/// An Ethernet II frame with a UDP datagram and the payload bytes 1 to 8. Its IPv4 header starts at byte 14, its UDP
/// header at byte 34.
const UDP: [u8; 50] = [
    7, 8, 9, 10, 11, 12, 1, 2, 3, 4, 5, 6, 8, 0, 0x45, 0, 0, 36, 0, 0, 0x40, 0, 20, 17, 0xe3, 0x75,
    192, 168, 1, 1, 192, 168, 1, 2, 0, 21, 4, 0xd2, 0, 16, 0x67, 0x7f, 1, 2, 3, 4, 5, 6, 7, 8,
];

/// An IPv6 packet with four bytes of payload and next header 59 (no next header), so that no transport header is
/// parsed.
const IPV6_PACKET: [u8; 44] = [
    0x60, 0, 0, 0, 0, 4, 59, 64, 0, 0, 0, 0, 0, 0, 0, 0, 0, 0, 0, 0, 0, 0, 0, 1, 0, 0, 0, 0, 0, 0,
    0, 0, 0, 0, 0, 0, 0, 0, 0, 2, 1, 2, 3, 4,
];

/// A MACsec tag (SecTAG) with an unmodified payload: a VLAN tag, and an IPv4 packet with four bytes of payload.
const MACSEC_PACKET: [u8; 36] = [
    0, 30, 0, 0, 0, 1, 0x81, 0, 0, 7, 8, 0, 0x45, 0, 0, 24, 0, 0, 0, 0, 64, 253, 0, 0, 10, 0, 0, 1,
    10, 0, 0, 2, 1, 2, 3, 4,
];

const IPV4: Entry = Entry::EtherType(EtherType::IPV4);

const IPV6: Entry = Entry::EtherType(EtherType::IPV6);

const MACSEC: Entry = Entry::EtherType(EtherType::MACSEC);

/// Parses the bytes laxly, starting at the header that `entry` names. Aborts the test if that first header is invalid.
pub(crate) fn read<'a>(rt: &impl Abort, entry: Entry, bytes: &'a [u8]) -> LaxSlicedPacket<'a> {
    let mut packet = LaxSlicedPacket::new();
    packet
        .slice_into(entry, bytes)
        .expect(rt, "the first header stands");
    packet
}

/// Asserts that lax parsing found no error, that the innermost payload has `len` bytes, and whether bytes of it are
/// missing (`incomplete`).
fn ends_in(rt: &impl Abort, packet: &LaxSlicedPacket<'_>, len: usize, incomplete: bool) {
    same(rt, &packet.payload().len(), &len);
    same(rt, &packet.is_incomplete(), &incomplete);
    same(rt, &packet.stop_err.is_none(), &true);
}

/// Asserts the number of bytes that are missing from the last layer's payload, and whether strict slicing accepts the
/// packet.
fn lacks(rt: &impl Abort, packet: &LaxSlicedPacket<'_>, missing: usize, is_frame: bool) {
    same(rt, &packet.missing_bytes(), &missing);
    same(rt, &packet.is_frame(), &is_frame);
}

/// Asserts the number of bytes of the IP payload, whether bytes of it are missing (`incomplete`), and the length field
/// that limits it (`source`).
fn has_ip(
    rt: &impl Abort,
    packet: &LaxSlicedPacket<'_>,
    len: usize,
    incomplete: bool,
    source: LenSource,
) {
    let payload = packet.ip_payload().expect(rt, "an IP packet");
    same(rt, &payload.payload.len(), &len);
    same(rt, &payload.incomplete, &incomplete);
    same(rt, &payload.len_source, &source);
}

/// Asserts that lax parsing stopped because bytes are missing: `layer` starts at byte `start`, needs `required_len`
/// bytes and has `len`, limited by `source`.
pub(crate) fn misses(
    rt: &impl Abort,
    packet: &LaxSlicedPacket<'_>,
    layer: &Layer,
    (start, required_len, len): (usize, usize, usize),
    source: LenSource,
) {
    let Some((SliceError::Len(error), at)) = &packet.stop_err else {
        panic!(rt; "no layer misses bytes");
    };
    same(rt, &error.layer_start_offset, &start);
    same(rt, &(error.required_len, error.len), &(required_len, len));
    same(rt, &error.len_source, &source);
    same(rt, &error.layer, layer);
    same(rt, at, layer);
}

/// Asserts that lax parsing of a packet stopped at this layer with this error.
fn stops(rt: &impl Abort, packet: &LaxSlicedPacket<'_>, error: SliceError, layer: Layer) {
    same(rt, &packet.stop_err, &Some((error, layer)));
}

/// Sets the total length field of the frame `UDP`, and asserts the number of bytes of the IP payload, whether bytes of it
/// are missing (`incomplete`), and the length field that limits it (`source`).
fn reads_total_length(
    rt: &impl Abort,
    total_len: u16,
    len: usize,
    incomplete: bool,
    source: LenSource,
) {
    let mut frame = UDP;
    let [high, low] = total_len.to_be_bytes();
    frame[16] = high;
    frame[17] = low;
    let packet = read(rt, Entry::Ethernet, &frame);
    has_ip(rt, &packet, len, incomplete, source);
    same(rt, &packet.transport.is_some(), &true);
}

/// Lax parsing of an IPv4 packet for several values of its total length field: 0, below 20, and up to and above the
/// bytes that are present.
#[test]
fn total_lengths(rt: HostRuntime) {
    let limited = LenSource::Ipv4HeaderTotalLen;
    for (total_len, len, incomplete, source) in [
        (0, 16, false, LenSource::Slice),
        (19, 16, false, LenSource::Slice),
        (28, 8, false, limited),
        (36, 16, false, limited),
        (37, 16, true, LenSource::Slice),
        (65535, 16, true, LenSource::Slice),
    ] {
        reads_total_length(&rt, total_len, len, incomplete, source);
    }
}

/// Lax parsing of an IPv4 packet whose total length field leaves no bytes for the UDP header.
#[test]
fn total_length_of_a_header(rt: HostRuntime) {
    let mut frame = UDP;
    frame[17] = 20;
    let packet = read(&rt, Entry::Ethernet, &frame);
    has_ip(&rt, &packet, 0, false, LenSource::Ipv4HeaderTotalLen);
    misses(
        &rt,
        &packet,
        &Layer::UdpHeader,
        (34, 8, 0),
        LenSource::Ipv4HeaderTotalLen,
    );
}

/// Sets the lower bytes of the total length field and of the UDP length field of the frame `UDP`. Asserts the length of
/// the payload, whether bytes of it are missing (`incomplete`) and how many, and whether strict slicing accepts the
/// packet.
fn reads_datagram_length(
    rt: &impl Abort,
    (total_len, udp_len): (u8, u8),
    (len, incomplete, missing): (usize, bool, usize),
    is_frame: bool,
) {
    let mut frame = UDP;
    frame[17] = total_len;
    frame[39] = udp_len;
    let packet = read(rt, Entry::Ethernet, &frame);
    ends_in(rt, &packet, len, incomplete);
    lacks(rt, &packet, missing, is_frame);
}

/// Lax parsing of a UDP datagram for several values of its length field, in a complete and in an incomplete IPv4
/// payload.
#[test]
fn datagram_lengths(rt: HostRuntime) {
    for (total_len, udp_len, len, incomplete, missing, is_frame) in [
        (36, 0, 8, false, 0, true),
        (36, 7, 8, false, 0, false),
        (36, 8, 0, false, 0, true),
        (36, 15, 7, false, 0, true),
        (36, 16, 8, false, 0, true),
        (36, 17, 8, true, 1, false),
        (37, 0, 8, true, 1, false),
        (37, 7, 8, true, 1, false),
        (37, 8, 0, false, 0, false),
        (37, 16, 8, false, 0, false),
        (37, 17, 8, true, 1, false),
        (0, 0, 8, false, 0, false),
        (0, 17, 8, true, 1, false),
    ] {
        let payload = (len, incomplete, missing);
        reads_datagram_length(&rt, (total_len, udp_len), payload, is_frame);
    }
}

/// Sets the payload length field of the packet `IPV6_PACKET`, and asserts the length of the payload, the number of bytes
/// that are missing, and the length field that limits the payload (`source`).
fn reads_payload_length(
    rt: &impl Abort,
    payload_len: u16,
    len: usize,
    missing: usize,
    source: LenSource,
) {
    let mut bytes = IPV6_PACKET;
    let [high, low] = payload_len.to_be_bytes();
    bytes[4] = high;
    bytes[5] = low;
    let packet = read(rt, IPV6, &bytes);
    has_ip(rt, &packet, len, missing > 0, source);
    ends_in(rt, &packet, len, missing > 0);
    lacks(rt, &packet, missing, missing == 0);
}

/// Lax parsing of an IPv6 packet whose payload length field is 0, smaller than the payload, correct or too large.
#[test]
fn payload_lengths(rt: HostRuntime) {
    let limited = LenSource::Ipv6HeaderPayloadLen;
    for (payload_len, len, missing, source) in [
        (0, 4, 0, LenSource::Slice),
        (1, 1, 0, limited),
        (4, 4, 0, limited),
        (5, 4, 1, LenSource::Slice),
        (65535, 4, 65531, LenSource::Slice),
    ] {
        reads_payload_length(&rt, payload_len, len, missing, source);
    }
    let mut header = IPV6_PACKET;
    header[5] = 0;
    let packet = read(&rt, IPV6, &header[..40]);
    has_ip(&rt, &packet, 0, false, limited);
}

/// Sets the MACsec short length and the lower byte of the total length of the packet `MACSEC_PACKET`. Asserts the length
/// of the IP payload, whether bytes of it are missing (`incomplete`), the length field that limits it (`source`), and
/// whether strict slicing accepts the packet.
fn reads_short_length(
    rt: &impl Abort,
    (short_len, total_len): (u8, u8),
    (len, incomplete, source): (usize, bool, LenSource),
    is_frame: bool,
) {
    let mut bytes = MACSEC_PACKET;
    bytes[1] = short_len;
    bytes[15] = total_len;
    let packet = read(rt, MACSEC, &bytes);
    same(rt, &packet.link_exts.len(), &2);
    same(rt, &packet.vlan_ids().len(), &1);
    has_ip(rt, &packet, len, incomplete, source);
    ends_in(rt, &packet, len, incomplete);
    same(rt, &packet.is_frame(), &is_frame);
}

/// Lax parsing of a MACsec tag with a VLAN tag and an IPv4 packet as payload, for several values of the MACsec short
/// length and of the IPv4 total length.
#[test]
fn short_lengths(rt: HostRuntime) {
    let total = LenSource::Ipv4HeaderTotalLen;
    for (short_len, total_len, len, incomplete, source, is_frame) in [
        (0, 24, 4, false, total, true),
        (30, 24, 4, false, total, true),
        (28, 22, 2, false, total, true),
        (28, 24, 2, true, LenSource::Slice, false),
        (47, 24, 4, false, total, false),
        (47, 0, 4, true, LenSource::Slice, false),
        (63, 23, 3, false, total, false),
        (63, 25, 4, true, LenSource::Slice, false),
        (63, 19, 4, true, LenSource::Slice, false),
        (30, 0, 4, false, LenSource::Slice, false),
    ] {
        let payload = (len, incomplete, source);
        reads_short_length(&rt, (short_len, total_len), payload, is_frame);
    }
}

/// Sets the MACsec short length of the packet `MACSEC_PACKET`, and asserts the length of the payload after the tags,
/// whether bytes of it are missing (`incomplete`), and the length field that limits it (`source`).
fn reads_ether_payload(
    rt: &impl Abort,
    short_len: u8,
    len: usize,
    incomplete: bool,
    source: LenSource,
) {
    let mut bytes = MACSEC_PACKET;
    bytes[1] = short_len;
    let packet = read(rt, MACSEC, &bytes);
    let payload = packet.ether_payload().expect(rt, "its type is known");
    same(rt, &payload.ether_type, &EtherType::IPV4);
    same(rt, &payload.payload.len(), &len);
    same(rt, &payload.incomplete, &incomplete);
    same(rt, &payload.len_source, &source);
}

/// Lax parsing of a MACsec tag, a VLAN tag and the payload after both, for several values of the MACsec short length,
/// which may limit the payload.
#[test]
fn ether_payloads(rt: HostRuntime) {
    for (short_len, len, incomplete, source) in [
        (0, 24, false, LenSource::Slice),
        (28, 22, false, LenSource::MacsecShortLength),
        (30, 24, false, LenSource::MacsecShortLength),
        (31, 24, true, LenSource::Slice),
    ] {
        reads_ether_payload(&rt, short_len, len, incomplete, source);
    }
}

/// Lax parsing stops at a MACsec short length that ends before the VLAN tag in the payload, and at the forbidden short
/// length 1.
#[test]
fn short_lengths_that_stop(rt: HostRuntime) {
    let mut bytes = MACSEC_PACKET;
    bytes[1] = 2;
    let packet = read(&rt, MACSEC, &bytes);
    misses(
        &rt,
        &packet,
        &Layer::VlanHeader,
        (8, 4, 0),
        LenSource::Slice,
    );
    same(&rt, &packet.link_exts.len(), &1);
    bytes[1] = 1;
    let refused = macsec::HeaderError::InvalidUnmodifiedShortLen;
    let packet = read(&rt, MACSEC, &bytes);
    stops(
        &rt,
        &packet,
        SliceError::Macsec(refused),
        Layer::MacsecHeader,
    );
    same(&rt, &packet.payload().len(), &36);
}

/// Asserts the length of the encrypted payload after a MACsec tag with this short length, and whether bytes of it are
/// missing (`incomplete`).
fn reads_modified_payload(rt: &impl Abort, short_len: u8, len: usize, incomplete: bool) {
    let mut bytes = [0; 55];
    bytes[0] = 0x0c;
    bytes[1] = short_len;
    let packet = read(rt, MACSEC, &bytes);
    ends_in(rt, &packet, len, incomplete);
    lacks(rt, &packet, 0, !incomplete);
    same(rt, &packet.ether_payload().is_none(), &true);
}

/// Tests lax slicing of a MACsec packet whose tag has both E and C set (encrypted payload), for several values of the
/// short length.
#[test]
fn modified_payloads(rt: HostRuntime) {
    for (short_len, len, incomplete) in [
        (0, 49, false),
        (1, 1, false),
        (2, 2, false),
        (47, 47, false),
        (49, 49, false),
        (50, 49, true),
        (63, 49, true),
    ] {
        reads_modified_payload(&rt, short_len, len, incomplete);
    }
}

/// Asserts how lax parsing ends in the first `n` bytes of the frame `UDP`, fewer than its 50.
fn reads_truncated_datagram(rt: &impl Abort, n: usize) {
    let slice = LenSource::Slice;
    let bytes = UDP.get(..n).expect(rt, "its first bytes");
    let mut packet = LaxSlicedPacket::new();
    let done = packet.slice_into(Entry::Ethernet, bytes);
    same(rt, &done.is_ok(), &(n >= 14));
    if n >= 34 {
        lacks(rt, &packet, 50usize.saturating_sub(n), false);
    }
    if n >= 42 {
        ends_in(rt, &packet, n - 42, true);
    } else if n >= 34 {
        misses(rt, &packet, &Layer::UdpHeader, (34, 8, n - 34), slice);
        has_ip(rt, &packet, n - 34, true, slice);
    } else if n >= 14 {
        misses(rt, &packet, &Layer::Ipv4Header, (14, 20, n - 14), slice);
        same(rt, &packet.net.is_none(), &true);
    }
}

/// Lax parsing of an Ethernet II frame with a UDP datagram, truncated to each length from 0 to 49 of its 50 bytes.
#[test]
fn truncated_datagrams(rt: HostRuntime) {
    for n in 0..50 {
        reads_truncated_datagram(&rt, n);
    }
}

/// Asserts that lax parsing of the first bytes of `FRAGMENT_TWICE`, `start` and `len` more, stops in the fragment header
/// that starts at byte `start`.
fn stops_in_fragment_header(rt: &impl Abort, start: usize, len: usize) {
    let n = start.saturating_add(len);
    let bytes = FRAGMENT_TWICE.get(..n).expect(rt, "its first bytes");
    let packet = read(rt, IPV6, bytes);
    same(rt, &packet.transport.is_none(), &true);
    lacks(rt, &packet, 64usize.saturating_sub(n), false);
    let (slice, layer) = (LenSource::Slice, Layer::Ipv6FragHeader);
    misses(rt, &packet, &layer, (start, 8, len), slice);
    has_ip(rt, &packet, len, true, slice);
    same(rt, &packet.is_ip_payload_fragmented(), &false);
}

/// Asserts that lax parsing of the first bytes of `FRAGMENT_TWICE`, 56 and `len` more, finds both fragment headers.
fn ends_after_fragment_headers(rt: &impl Abort, len: usize) {
    let n = len.saturating_add(56);
    let bytes = FRAGMENT_TWICE.get(..n).expect(rt, "its first bytes");
    let packet = read(rt, IPV6, bytes);
    same(rt, &packet.transport.is_none(), &true);
    lacks(rt, &packet, 64usize.saturating_sub(n), false);
    ends_in(rt, &packet, len, true);
    same(rt, &packet.is_ip_payload_fragmented(), &true);
}

/// Lax parsing of an IPv6 packet with two fragment headers, truncated to each length from 40 (the IPv6 header alone) to
/// 63 of its 64 bytes.
#[test]
fn truncated_chains(rt: HostRuntime) {
    for len in 0..8 {
        stops_in_fragment_header(&rt, 40, len);
        stops_in_fragment_header(&rt, 48, len);
        ends_after_fragment_headers(&rt, len);
    }
}

/// Asserts how lax parsing ends in the first `n` bytes of the packet `AUTHENTICATED`, from 20 on and fewer than its 36.
fn reads_truncated_authentication(rt: &impl Abort, n: usize) {
    let bytes = AUTHENTICATED.get(..n).expect(rt, "its first bytes");
    let packet = read(rt, Entry::Ip, bytes);
    if n >= 32 {
        ends_in(rt, &packet, n - 32, true);
    } else {
        let (slice, len) = (LenSource::Slice, n.saturating_sub(20));
        misses(rt, &packet, &Layer::IpAuthHeader, (20, 12, len), slice);
        has_ip(rt, &packet, len, true, slice);
    }
}

/// Lax parsing of an IPv4 packet with an authentication header, truncated to each length from 20 (the IPv4 header
/// alone) to 35 of its 36 bytes.
#[test]
fn truncated_authentication_headers(rt: HostRuntime) {
    for n in 20..36 {
        reads_truncated_authentication(&rt, n);
    }
}

/// Lax parsing stops at an IPv4 header with IHL 4, and at a TCP and an authentication header without enough bytes.
#[test]
fn errors_in_headers(rt: HostRuntime) {
    let mut frame = UDP;
    frame[14] = 0x44;
    let short = ipv4::HeaderError::HeaderLengthSmallerThanHeader { ihl: 4 };
    let packet = read(&rt, Entry::Ethernet, &frame);
    stops(&rt, &packet, SliceError::Ipv4(short), Layer::Ipv4Header);
    frame[14] = 0x45;
    frame[23] = 6;
    let packet = read(&rt, Entry::Ethernet, &frame);
    misses(
        &rt,
        &packet,
        &Layer::TcpHeader,
        (34, 20, 16),
        LenSource::Ipv4HeaderTotalLen,
    );
    let mut bytes = IPV6_PACKET;
    bytes[6] = 51;
    let packet = read(&rt, IPV6, &bytes);
    misses(
        &rt,
        &packet,
        &Layer::IpAuthHeader,
        (40, 12, 4),
        LenSource::Ipv6HeaderPayloadLen,
    );
}

/// Lax parsing returns an error if the first header is too short or has an unknown IP version. If it starts after a
/// link header, by an ether type, it never fails: an error in the first header is in `stop_err` of the returned packet.
#[test]
fn refused_first_headers(rt: HostRuntime) {
    same(
        &rt,
        &LaxSlicedPacket::from_ethernet(&[0; 13]).is_err(),
        &true,
    );
    same(
        &rt,
        &LaxSlicedPacket::from_linux_sll(&[0; 15]).is_err(),
        &true,
    );
    same(&rt, &LaxSlicedPacket::from_ip(&[]).is_err(), &true);
    same(&rt, &LaxSlicedPacket::from_ip(&[0x50]).is_err(), &true);
    same(&rt, &LaxSlicedPacket::from_ip(&[0x45; 19]).is_err(), &true);
    same(&rt, &LaxSlicedPacket::from_ip(&[0x60; 39]).is_err(), &true);
    let none = LaxSlicedPacket::from_ether_type(EtherType::IPV4, &[]);
    misses(&rt, &none, &Layer::Ipv4Header, (0, 20, 0), LenSource::Slice);
}

/// Lax parsing of fragments finds no transport layer, and of four VLAN tags it leaves the fourth one as payload. An ARP
/// packet has no payload.
#[test]
fn fragments_and_tags(rt: HostRuntime) {
    let first = read(&rt, Entry::Ip, FIRST_IPV4);
    same(&rt, &first.is_ip_payload_fragmented(), &true);
    ends_in(&rt, &first, 16, false);
    let tags = read(
        &rt,
        Entry::EtherType(EtherType::VLAN_TAGGED_FRAME),
        FOUR_TAGS,
    );
    same(&rt, &tags.link_exts.len(), &3);
    ends_in(&rt, &tags, 4, false);
    let arp = read(&rt, Entry::EtherType(EtherType::ARP), ARP);
    ends_in(&rt, &arp, 0, false);
}
