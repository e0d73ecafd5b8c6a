//! Tests of a bounded pool that gets sliced packets: IPv4 and IPv6 fragments with VLAN tags, packets without a
//! fragment, and channels (a caller's identifiers that keep fragments apart) whose hashes are equal.

use super::*;
use crate::tests::defrag::names::{Stream, TAG, TAGS, frame_of};
use crate::tests::defrag::pool::{VLAN_1_FIRST, VLAN_2_FIRST};
use crate::tests::hostile::Halved;

/// Passes a frame with a fragment to a bounded pool. Asserts that it completes `payload`, or nothing if `payload` is
/// empty.
fn completes(
    rt: &impl Abort,
    alloc: Global,
    pool: &mut BoundedDefragPool<u8>,
    stream: Stream,
    (part, bytes): ((u8, u8), &[u8]),
    payload: &[u8],
) {
    let frame = frame_of(rt, alloc, stream, part, bytes);
    let packet = SlicedPacket::from_ethernet(&frame).expect(rt, "refused");
    let answer = pool.process_sliced_packet(&packet, 1, 0);
    let complete = IpDefragPayloadVec {
        ip_number: IpNumber(stream.3),
        len_source: if stream.0 == 4 {
            LenSource::Ipv4HeaderTotalLen
        } else {
            LenSource::Ipv6HeaderPayloadLen
        },
        payload: payload.to_vec(alloc).expect(rt, "no memory"),
    };
    same(rt, &answer, &Ok((!payload.is_empty()).then_some(complete)));
}

/// Asserts that two payloads, whose fragments reach one bounded pool alternately, are not mixed up.
fn assert_streams_are_separate(rt: &impl Abort, alloc: Global, a: Stream, b: Stream) {
    for seed in SEEDS {
        let mut pool = new_pool(rt, alloc, DefragLimits::default(), seed);
        completes(rt, alloc, &mut pool, a, ((0, 1), b"abcdefgh"), b"");
        completes(rt, alloc, &mut pool, b, ((1, 0), b"IJKLMNO"), b"");
        completes(rt, alloc, &mut pool, a, ((1, 0), b"ijk"), b"abcdefghijk");
        completes(
            rt,
            alloc,
            &mut pool,
            b,
            ((0, 1), b"ABCDEFGH"),
            b"ABCDEFGHIJKLMNO",
        );
    }
}

#[test]
fn streams_by_identifier(rt: HostRuntime) {
    let alloc = rt.alloc();
    let other_tags = b"\x81\x00\x00\x0d\x81\x00\x00\x0c";
    assert_streams_are_separate(&rt, alloc, (4, b"", 1, 17), (4, b"", 3, 17));
    assert_streams_are_separate(&rt, alloc, (4, b"", 1, 17), (4, b"", 1, 253));
    assert_streams_are_separate(&rt, alloc, (4, TAGS, 1, 17), (4, other_tags, 1, 17));
    assert_streams_are_separate(&rt, alloc, (6, TAG, 1, 17), (6, TAGS, 1, 17));
    assert_streams_are_separate(&rt, alloc, (6, TAGS, 1, 17), (4, TAGS, 1, 17));
    assert_streams_are_separate(&rt, alloc, (6, b"", 1, 17), (6, b"", 2, 17));
}

/// A packet without a fragment changes neither streams nor counters, and nothing is reported after it, also if the call
/// before it evicted a stream.
#[test]
fn without_fragments(rt: HostRuntime) {
    let mut pool: BoundedDefragPool<u8> = new_pool(&rt, rt.alloc(), narrow(1, 1000), 1);
    let first = SlicedPacket::from_ethernet(VLAN_1_FIRST).expect(&rt, "refused");
    same(&rt, &pool.process_sliced_packet(&first, 1, 7), &Ok(None));
    let second = SlicedPacket::from_ethernet(VLAN_2_FIRST).expect(&rt, "refused");
    same(&rt, &pool.process_sliced_packet(&second, 2, 7), &Ok(None));
    let evicted = pool.evicted().first().expect(&rt, "none evicted");
    same(
        &rt,
        &Some(&evicted.id),
        &IpFragId::of_packet(&first, 7).as_ref(),
    );
    same(
        &rt,
        &(evicted.cause, evicted.first),
        &(EvictionCause::Streams, 1),
    );
    let counters = pool.statistics();
    for packet in [
        SlicedPacket::from_ethernet(FRAME).expect(&rt, "refused"),
        SlicedPacket::from_ip(FRAGMENT_TWICE).expect(&rt, "refused"),
    ] {
        same(
            &rt,
            &pool.process_sliced_packet(&packet, 100_000, 7),
            &Ok(None),
        );
        reports(&rt, &pool, &[]);
        holds(&rt, &pool, (1, 0, 24));
        same(&rt, &pool.statistics(), &counters);
    }
}

/// Passes a fragment of 8 bytes on each of the channels 0, 2, .. 198, plus `odd`, to a bounded pool. Asserts that each
/// completes a payload of `len` bytes, or none if it is 0.
fn process_on_channels(
    rt: &impl Abort,
    pool: &mut BoundedDefragPool<Halved>,
    odd: u8,
    (units, more_fragments): (u16, bool),
    len: usize,
) {
    for number in 0..100u8 {
        let id = IpFragId {
            vlan_ids: ArrayVec::new(),
            ip: name(1).ip,
            payload_ip_number: IpNumber::UDP,
            channel_id: Halved(number * 2 + odd % 2),
        };
        let fragment = Fragment {
            offset: offset(rt, units),
            more_fragments,
            payload: &[number; 8],
        };
        let answer = pool.process_fragment(id, &fragment, 1);
        let payload = answer.expect(rt, "refused");
        let is_wanted = match &payload {
            Some(whole) => {
                whole.payload.len() == len && whole.payload.iter().all(|byte| *byte == number)
            }
            None => len == 0,
        };
        same(rt, &is_wanted, &true);
    }
}

/// A bounded pool keeps the streams of 100 channels with equal hashes apart. Fragments on channels that compare equal
/// are of one stream.
#[test]
fn colliding_channels(rt: HostRuntime) {
    let mut pool = new_pool(&rt, rt.alloc(), DefragLimits::default(), 1);
    process_on_channels(&rt, &mut pool, 0, (0, MORE), 0);
    same(&rt, &pool.stream_count(), &100);
    process_on_channels(&rt, &mut pool, 1, (1, FINAL), 16);
    same(&rt, &pool.stream_count(), &0);
}
