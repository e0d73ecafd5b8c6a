//! Tests of many streams (each the fragments of one datagram) in a reassembly pool: external test vectors, and many
//! streams with ample memory.

ghost use Rattle.std.specs.Prelude.{◌≡◌, ◌<◌, ℕ, nat_le, List, map, take, slice_get, Some, IfOk, IfErr};
ghost use Rattle.std.specs.List.{All, HoldsAt};
ghost use Rattle.etherparse.specs.Types.PoolAnswer.{PoolAnswer};
ghost use Rattle.etherparse.specs.Types.PoolCall.{PoolCall};
ghost use Rattle.etherparse.specs.Calls.{answers_to, table_after, accepted_at, IfPayloadReturned, CallMayNeedMemory};
ghost use Rattle.etherparse.specs.PayloadCuts.{IsCut};
ghost use Rattle.etherparse.specs.Pools.{plain_call, plain_answer, HoldsTable};

use super::*;
use crate::tests::hostile::Halved;
use crate::tests::sizes::STREAMS;
use std::cell::Cell;
use std::ops::Range;

/// Ethernet II frame with VLAN identifier 1 and an IPv4 fragment: the first 8 bytes of the payload 0 to 15.
/// `VLAN_1_LAST` has the last 8; the frames with VLAN identifier 2 have the payload 16 to 31.
pub(crate) const VLAN_1_FIRST: &[u8] =
    b"\x07\x08\x09\x0a\x0b\x0c\x01\x02\x03\x04\x05\x06\x81\x00\x00\x01\x08\x00\
      \x45\x00\x00\x1c\x00\x01\x20\x00\x14\x11\x03\x7d\xc0\xa8\x01\x01\xc0\xa8\x01\x02\
      \x00\x01\x02\x03\x04\x05\x06\x07";

pub(crate) const VLAN_1_LAST: &[u8] =
    b"\x07\x08\x09\x0a\x0b\x0c\x01\x02\x03\x04\x05\x06\x81\x00\x00\x01\x08\x00\
      \x45\x00\x00\x1c\x00\x01\x00\x01\x14\x11\x23\x7c\xc0\xa8\x01\x01\xc0\xa8\x01\x02\
      \x08\x09\x0a\x0b\x0c\x0d\x0e\x0f";

pub(crate) const VLAN_2_FIRST: &[u8] =
    b"\x07\x08\x09\x0a\x0b\x0c\x01\x02\x03\x04\x05\x06\x81\x00\x00\x02\x08\x00\
      \x45\x00\x00\x1c\x00\x01\x20\x00\x14\x11\x03\x7d\xc0\xa8\x01\x01\xc0\xa8\x01\x02\
      \x10\x11\x12\x13\x14\x15\x16\x17";

pub(crate) const VLAN_2_LAST: &[u8] =
    b"\x07\x08\x09\x0a\x0b\x0c\x01\x02\x03\x04\x05\x06\x81\x00\x00\x02\x08\x00\
      \x45\x00\x00\x1c\x00\x01\x00\x01\x14\x11\x23\x7c\xc0\xa8\x01\x01\xc0\xa8\x01\x02\
      \x18\x19\x1a\x1b\x1c\x1d\x1e\x1f";

/// Ethernet II frame with VLAN identifier 1 and an IPv4 fragment of 7 bytes with more fragments to follow, which is an
/// error.
const VLAN_1_UNALIGNED: &[u8] =
    b"\x07\x08\x09\x0a\x0b\x0c\x01\x02\x03\x04\x05\x06\x81\x00\x00\x01\x08\x00\
      \x45\x00\x00\x1b\x00\x01\x20\x01\x14\x11\x03\x7d\xc0\xa8\x01\x01\xc0\xa8\x01\x02\
      \x08\x09\x0a\x0b\x0c\x0d\x0e";

/// Payload of 16 bytes, 0 to 15, that is reassembled from the fragments with VLAN identifier 1; `OTHER` is that of VLAN
/// identifier 2.
pub(crate) const WHOLE: &[u8] = b"\x00\x01\x02\x03\x04\x05\x06\x07\x08\x09\x0a\x0b\x0c\x0d\x0e\x0f";

pub(crate) const OTHER: &[u8] = b"\x10\x11\x12\x13\x14\x15\x16\x17\x18\x19\x1a\x1b\x1c\x1d\x1e\x1f";

pub(crate) type Answer = Result<Option<IpDefragPayloadVec>, IpDefragError>;

/// Returns whether the answer of a reassembly pool is a UDP payload of these bytes with this length source, or no
/// payload if `bytes` is empty.
pub(crate) fn is_payload(answer: &Answer, len_source: LenSource, bytes: &[u8]) -> bool {
    match answer {
        Ok(Some(payload)) => {
            payload.ip_number == IpNumber::UDP
                && payload.len_source == len_source
                && payload.payload.as_slice() == bytes
        }
        Ok(None) => bytes.is_empty(),
        Err(_) => false,
    }
}

/// Passes an Ethernet II frame with an IPv4 fragment to a reassembly pool. Asserts that the fragment completes
/// `payload`, or no payload if `payload` is empty, and gives a completed payload back to the pool.
fn completes_payload(
    rt: &impl Abort,
    pool: &mut IpDefragPool<u64, u8>,
    frame: &[u8],
    timestamp: u64,
    payload: &[u8],
) {
    let packet = SlicedPacket::from_ethernet(frame).expect(rt, "refused");
    let answer = pool.process_sliced_packet(&packet, timestamp, 0);
    let is_wanted = is_payload(&answer, LenSource::Ipv4HeaderTotalLen, payload);
    same(rt, &is_wanted, &true);
    if let Ok(Some(payload)) = answer {
        pool.return_buf(payload);
    }
}

/// Fragments whose keys differ only in the VLAN identifier are reassembled separately. After the payload of VLAN 1 is
/// complete, a repeated fragment starts a new payload.
#[test]
fn streams_by_vlan(rt: HostRuntime) {
    let mut pool = IpDefragPool::new(rt.alloc());
    completes_payload(&rt, &mut pool, VLAN_1_FIRST, 1, b"");
    completes_payload(&rt, &mut pool, VLAN_2_FIRST, 1, b"");
    completes_payload(&rt, &mut pool, VLAN_1_LAST, 1, WHOLE);
    completes_payload(&rt, &mut pool, VLAN_1_LAST, 1, b"");
    completes_payload(&rt, &mut pool, VLAN_2_LAST, 1, OTHER);
}

/// Drops the incomplete datagrams with a timestamp below `limit` from a reassembly pool. Asserts that `retain` calls
/// its closure `streams` times, once for each incomplete datagram that the pool holds.
fn drops(rt: &impl Abort, pool: &mut IpDefragPool<u64, u8>, limit: u64, streams: u32) {
    let asked = Cell::new(0u32);
    pool.retain(|timestamp| {
        asked.set(asked.get().wrapping_add(1));
        *timestamp >= limit
    });
    same(rt, &asked.get(), &streams);
}

/// Tests that a fragment that the reassembly pool rejects does not update the timestamp of its datagram: although the
/// fragment has the timestamp 5, dropping all datagrams with a timestamp below 3 removes this datagram, the only one in
/// the pool.
#[test]
fn refused_keeps_time(rt: HostRuntime) {
    let mut pool = IpDefragPool::new(rt.alloc());
    completes_payload(&rt, &mut pool, VLAN_1_FIRST, 1, b"");
    let unaligned = SlicedPacket::from_ethernet(VLAN_1_UNALIGNED).expect(&rt, "refused");
    let refusal = IpDefragError::UnalignedFragmentPayloadLen {
        offset: offset(&rt, 1),
        payload_len: 7,
    };
    same(
        &rt,
        &pool.process_sliced_packet(&unaligned, 5u64, 0u8),
        &Err(refusal),
    );
    drops(&rt, &mut pool, 3, 1);
    completes_payload(&rt, &mut pool, VLAN_1_LAST, 6, b"");
}

/// An Ethernet II header and four VLAN tags; at most three tags are parsed.
const FOUR_TAGS_AFTER_ETHERNET: &[u8] = b"\x07\x08\x09\x0a\x0b\x0c\x01\x02\x03\x04\x05\x06\
      \x81\x00\x00\x01\x81\x00\x00\x02\x81\x00\x00\x03\x81\x00\x00\x04\x08\x00";

/// A reassembly pool stores nothing for packets that are not fragments: an unfragmented packet, one with too many VLAN
/// tags, and an IPv6 packet whose first fragment header has offset 0 and no more fragments.
#[test]
fn skipped(rt: HostRuntime) {
    let mut pool = IpDefragPool::new(rt.alloc());
    completes_payload(&rt, &mut pool, FRAME, 1, b"");
    completes_payload(&rt, &mut pool, FOUR_TAGS_AFTER_ETHERNET, 1, b"");
    let twice = SlicedPacket::from_ip(FRAGMENT_TWICE).expect(&rt, "refused");
    same(
        &rt,
        &pool.process_sliced_packet(&twice, 1u64, 0u8),
        &Ok(None),
    );
    drops(&rt, &mut pool, 0, 0);
}

/// Parses the IPv4 packet in an Ethernet II frame with one VLAN tag; it starts at byte 18.
fn half(rt: &impl Abort, frame: &'static [u8]) -> SlicedPacket<'static> {
    let packet = frame.get(18..).expect(rt, "a tag");
    SlicedPacket::from_ip(packet).expect(rt, "refused")
}

/// Passes a fragment to a reassembly pool once for each of these channels (caller's identifiers that keep fragments
/// apart). Asserts that each answer is `payload`, or no payload if it is empty.
fn process_on_channels(
    rt: &impl Abort,
    pool: &mut IpDefragPool<u64, u64>,
    packet: &SlicedPacket<'_>,
    channels: Range<u64>,
    payload: &[u8],
) {
    for channel in channels {
        let answer = pool.process_sliced_packet(packet, channel, channel);
        let is_wanted = is_payload(&answer, LenSource::Ipv4HeaderTotalLen, payload);
        same(rt, &is_wanted, &true);
    }
}

/// Passes the first fragments of many datagrams to one reassembly pool, drops the oldest 100 datagrams, and completes
/// the others. The drop tests the timestamp of each datagram once.
#[test]
fn many_streams(rt: HostRuntime) {
    let (first, last) = (half(&rt, VLAN_1_FIRST), half(&rt, VLAN_1_LAST));
    let mut pool = IpDefragPool::new(rt.alloc());
    process_on_channels(&rt, &mut pool, &first, 0..STREAMS, b"");
    let asked = Cell::new(0u64);
    pool.retain(|timestamp| {
        asked.set(asked.get().wrapping_add(1));
        *timestamp >= 100
    });
    same(&rt, &asked.get(), &STREAMS);
    process_on_channels(&rt, &mut pool, &last, 100..STREAMS, WHOLE);
    process_on_channels(&rt, &mut pool, &last, 0..100, b"");
}

/// Performs a list of calls on a new reassembly pool by `run_calls`. A call `Drop(limit)` drops the incomplete
/// datagrams with a timestamp below `limit`.
pub(super) fn run_with_limits(
    alloc: Global,
    calls: Vec<PoolCall<u64, Halved, u64>>,
) -> Result<(Vec<PoolAnswer>, IpDefragPool<u64, Halved>), RunStop>
    ensures answers { IfOk result (λ run. map plain_answer run.0.items
        ≡ answers_to 65535 ⟦<Halved as PartialEq>⟧.eq nat_le (map plain_call calls.entry.items)) }
    ensures holds { IfOk result (λ run. HoldsTable ⟦<Halved as PartialEq>⟧.eq run.1
        (table_after 65535 ⟦<Halved as PartialEq>⟧.eq nat_le (map plain_call calls.entry.items))) }
    ensures cuts { IfOk result (λ run. (at : ℕ) (call : PoolCall _ _ _) (answer : PoolAnswer) →
        slice_get calls.entry.items at ≡ Some call → slice_get run.0.items at ≡ Some answer →
        (payload : List ℕ) → All (IsCut payload) (accepted_at
        (table_after 65535 ⟦<Halved as PartialEq>⟧.eq nat_le (map plain_call (take at calls.entry.items)))
        (plain_call call)) → IfPayloadReturned (plain_answer answer) (λ returned. returned.bytes ≡ payload)) }
    ensures stopped { IfErr result (λ stop. 0 < stop.at → HoldsAt (λ call. CallMayNeedMemory 65535
        (table_after 65535 ⟦<Halved as PartialEq>⟧.eq nat_le (map plain_call (take stop.at calls.entry.items)))
        (plain_call call)) calls.entry.items stop.at) }
{
    run_calls(
        alloc,
        calls,
        |limit: &u64, timestamp: &u64| -> bool
            ensures { result ≡ nat_le limit.now timestamp.now }
        { *timestamp >= *limit },
    )
}

/// 1,000 calls of a reassembly pool: the first fragments of 100 payloads, then their last fragments, five times.
#[test]
fn many_calls(rt: HostRuntime) {
    let mut calls = Vec::new(rt.alloc());
    for number in 0..1_000u64 {
        let first = number / 100 % 2 == 0;
        let call = PoolCall::Frame {
            packet: half(&rt, if first { VLAN_1_FIRST } else { VLAN_1_LAST }),
            timestamp: number,
            channel_id: Halved(u8::try_from(number % 100 * 2).unwrap_or(0)),
        };
        calls.push(call).expect(&rt, "no memory");
    }
    let (answers, _pool) = run_with_limits(rt.alloc(), calls).expect(&rt, "no memory");
    same(&rt, &answers.len(), &1_000);
    for (number, answer) in answers.iter().enumerate() {
        let payload = if number / 100 % 2 == 0 { b"" } else { WHOLE };
        same(&rt, &is_pool_payload(answer, payload), &true);
    }
}

/// Returns whether the answer of a reassembly pool to an IPv4 frame is this payload, or no payload if `payload` is
/// empty.
fn is_pool_payload(answer: &PoolAnswer, payload: &[u8]) -> bool {
    match answer {
        PoolAnswer::Frame(answer) => is_payload(answer, LenSource::Ipv4HeaderTotalLen, payload),
        PoolAnswer::Dropped | PoolAnswer::Returned => false,
    }
}

/// Returns the key under which a reassembly pool stores the fragments of a UDP datagram from 192.168.1.1 to
/// 192.168.1.2.
fn name() -> IpFragId<u8> {
    IpFragId {
        vlan_ids: ArrayVec::new(),
        ip: IpFragVersionSpecId::Ipv4 {
            source: [192, 168, 1, 1],
            destination: [192, 168, 1, 2],
            identification: 1,
        },
        payload_ip_number: IpNumber::UDP,
        channel_id: 0,
    }
}

/// Passes a fragment of one UDP datagram to a reassembly pool. Asserts that the fragment completes the payload
/// `completed_payload`, or no payload if `completed_payload` is empty.
fn completes(
    rt: &impl Abort,
    pool: &mut IpDefragPool<u64, u8>,
    (units, more_fragments): (u16, bool),
    payload: &[u8],
    completed_payload: &[u8],
) {
    let fragment = Fragment {
        offset: offset(rt, units),
        more_fragments,
        payload,
    };
    let answer = pool.process_fragment(name(), &fragment, 1);
    let is_wanted = is_payload(&answer, LenSource::Ipv4HeaderTotalLen, completed_payload);
    same(rt, &is_wanted, &true);
}

/// A reassembly pool accepts fragments with the key of their datagram, without a parsed packet. A fragment that is a
/// complete payload is returned at once.
#[test]
fn named_fragments(rt: HostRuntime) {
    let mut pool = IpDefragPool::new(rt.alloc());
    completes(&rt, &mut pool, (0, false), b"abc", b"abc");
    completes(&rt, &mut pool, (1, false), b"ijk", b"");
    completes(&rt, &mut pool, (0, true), b"abcdefgh", b"abcdefghijk");
}
