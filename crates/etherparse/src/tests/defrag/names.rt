//! Tests of streams (fragments of one datagram) whose keys (`IpFragId`) differ in a single part.

use super::pool::Answer;
use super::*;

/// The fragments of one datagram in a test: IP version, bytes of the VLAN tags, last byte of the source address, and IP
/// protocol number of the payload.
pub(crate) type Stream = (u8, &'static [u8], u8, u8);

/// A VLAN tag with identifier 12, its ether type 0x8100 first; `TAGS` are two such tags, with identifiers 12 and 13.
pub(crate) const TAG: &[u8] = b"\x81\x00\x00\x0c";

pub(crate) const TAGS: &[u8] = b"\x81\x00\x00\x0c\x81\x00\x00\x0d";

/// Returns the ether type and the header of an IPv4 fragment with `len` bytes of payload of IP protocol `number`. Its
/// offset is in units of 8 bytes; `more_fragments` is 1 or 0.
fn ipv4(source: u8, number: u8, (units, more_fragments): (u8, u8), len: u8) -> [u8; 22] {
    let flags = more_fragments.wrapping_mul(0x20);
    let total_len = len.wrapping_add(20);
    [
        8, 0, 0x45, 0, 0, total_len, 0, 9, flags, units, 64, number, 0, 0, 192, 168, 1, source,
        192, 168, 1, 2,
    ]
}

/// Returns ether type, IPv6 header, fragment header and routing header of a fragment with `len` bytes of payload of IP
/// protocol `number`. Its offset is in units of 8 bytes; `more_fragments` is 1 or 0.
fn ipv6(source: u8, number: u8, (units, more_fragments): (u8, u8), len: u8) -> [u8; 58] {
    let offset = units.wrapping_mul(8) | more_fragments;
    let payload_len = len.wrapping_add(16);
    [
        0x86,
        0xdd,
        0x60,
        0,
        0,
        0,
        0,
        payload_len,
        44,
        64,
        0,
        0,
        0,
        0,
        0,
        0,
        0,
        0,
        0,
        0,
        0,
        0,
        0,
        0,
        0,
        source,
        0,
        0,
        0,
        0,
        0,
        0,
        0,
        0,
        0,
        0,
        0,
        0,
        0,
        0,
        0,
        0,
        43,
        0,
        0,
        offset,
        0,
        0,
        0,
        9,
        number,
        0,
        0,
        0,
        0,
        0,
        0,
        0,
    ]
}

fn push(rt: &impl Abort, frame: &mut Vec<u8>, bytes: &[u8]) {
    frame.extend_from_slice(bytes).expect(rt, "no memory");
}

/// Returns an Ethernet II frame with a fragment of at most 100 payload bytes. `part` is a pair: the offset in units of
/// 8 bytes, and 1 if more fragments follow, else 0.
pub(crate) fn frame_of(
    rt: &impl Abort,
    alloc: Global,
    (version, tags, source, number): Stream,
    part: (u8, u8),
    payload: &[u8],
) -> Vec<u8> {
    let len = u8::try_from(payload.len()).unwrap_or(0);
    let mut frame = Vec::new(alloc);
    push(
        rt,
        &mut frame,
        b"\x07\x08\x09\x0a\x0b\x0c\x01\x02\x03\x04\x05\x06",
    );
    push(rt, &mut frame, tags);
    if version == 4 {
        push(rt, &mut frame, &ipv4(source, number, part, len));
    } else {
        push(rt, &mut frame, &ipv6(source, number, part, len));
    }
    push(rt, &mut frame, payload);
    frame
}

/// Passes a fragment of at most 100 payload bytes to a reassembly pool and returns its answer. `part` is a pair: the
/// offset in units of 8 bytes, and 1 if more fragments follow, else 0.
pub(crate) fn answer_to(
    rt: &impl Abort,
    alloc: Global,
    pool: &mut IpDefragPool<u64, u8>,
    stream: Stream,
    part: (u8, u8),
    payload: &[u8],
) -> Answer {
    let frame = frame_of(rt, alloc, stream, part, payload);
    let packet = SlicedPacket::from_ethernet(&frame).expect(rt, "refused");
    pool.process_sliced_packet(&packet, 1, 0)
}

/// Returns the reassembled bytes in an answer of a reassembly pool. An answer without a payload gives no bytes, and an
/// error gives the text `refused`.
pub(crate) fn completed_payload(answer: &Answer) -> &[u8] {
    match answer {
        Ok(Some(payload)) => payload.payload.as_slice(),
        Ok(None) => b"",
        Err(_) => b"refused",
    }
}

/// Asserts that two payloads, whose fragments reach one reassembly pool alternately, are not mixed up.
fn assert_streams_are_separate(rt: &impl Abort, alloc: Global, a: Stream, b: Stream) {
    let mut pool = IpDefragPool::new(alloc);
    let first = answer_to(rt, alloc, &mut pool, a, (0, 1), b"abcdefgh");
    let second = answer_to(rt, alloc, &mut pool, b, (0, 1), b"ABCDEFGH");
    same(rt, &(first, second), &(Ok(None), Ok(None)));
    let answer = answer_to(rt, alloc, &mut pool, a, (1, 0), b"ijklmnop");
    same(
        rt,
        &completed_payload(&answer),
        &b"abcdefghijklmnop".as_slice(),
    );
    let answer = answer_to(rt, alloc, &mut pool, b, (1, 0), b"IJKLMNOP");
    same(
        rt,
        &completed_payload(&answer),
        &b"ABCDEFGHIJKLMNOP".as_slice(),
    );
}

#[test]
fn streams_differing_in_ip_header(rt: HostRuntime) {
    let (stream, alloc) = ((4, b"".as_slice(), 1, 17), rt.alloc());
    // differing in source address, IP protocol number of the payload, and IP version
    assert_streams_are_separate(&rt, alloc, stream, (4, b"", 3, 17));
    assert_streams_are_separate(&rt, alloc, stream, (4, b"", 1, 253));
    assert_streams_are_separate(&rt, alloc, stream, (6, b"", 1, 17));
}

#[test]
fn streams_differing_in_vlan_tags(rt: HostRuntime) {
    let alloc = rt.alloc();
    let one_two = b"\x81\x00\x00\x01\x81\x00\x00\x02";
    let two_one = b"\x81\x00\x00\x02\x81\x00\x00\x01";
    assert_streams_are_separate(&rt, alloc, (4, one_two, 1, 17), (4, two_one, 1, 17));
    assert_streams_are_separate(&rt, alloc, (6, one_two, 1, 17), (6, two_one, 1, 17));
    let with_three = b"\x81\x00\x00\x01\x81\x00\x00\x02\x81\x00\x00\x03";
    let with_four = b"\x81\x00\x00\x01\x81\x00\x00\x02\x81\x00\x00\x04";
    assert_streams_are_separate(&rt, alloc, (4, with_three, 1, 17), (4, with_four, 1, 17));
    assert_streams_are_separate(&rt, alloc, (4, one_two, 1, 17), (4, with_three, 1, 17));
}
