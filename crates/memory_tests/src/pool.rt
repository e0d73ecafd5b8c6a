//! Tests of a reassembly pool whose allocations fail. A frame whose allocation fails changes nothing, and frames, drops
//! and returned payloads do not allocate if nothing has to grow.

use crate::checks::*;
use crate::samples::*;
use etherparse::defrag::*;
use etherparse::*;
use std::alloc::Global;
use std::cell::Cell;
use std::process::Abort;

type Pool = IpDefragPool<u64, u8>;

/// Returns the number of incomplete datagrams in a reassembly pool: `retain` calls its closure once for each datagram.
fn streams(pool: &mut Pool) -> u32 {
    let asked = Cell::new(0u32);
    pool.retain(|_timestamp| {
        asked.set(asked.get().wrapping_add(1));
        true
    });
    asked.get()
}

/// Passes a frame, whose fragment ends at byte `len`, to a reassembly pool. Asserts that it completes the given
/// payload, or none if `payload` is empty, and gives the payload back. If an allocation fails, it prints `name`,
/// asserts that the number of streams is unchanged, and tries a second time.
fn answers(
    rt: &(impl Abort + Print),
    pool: &mut Pool,
    name: &str,
    (frame, timestamp): (&[u8], u64),
    len: usize,
    payload: &[u8],
) {
    let packet = SlicedPacket::from_ethernet(frame).expect(rt, "no frame");
    let before = streams(pool);
    let mut answer = pool.process_sliced_packet(&packet, timestamp, 0);
    if answer == Err(IpDefragError::AllocationFailure { len }) {
        refused(rt, name);
        same(rt, &streams(pool), &before);
        answer = pool.process_sliced_packet(&packet, timestamp, 0);
    }
    match answer.expect(rt, "refused") {
        None => same(rt, &payload, &b"".as_slice()),
        Some(reassembled) => {
            same(rt, &reassembled.payload.as_slice(), &payload);
            pool.return_buf(reassembled);
        }
    }
}

const FIRST: &str = "process_sliced_packet, a stream's first frame";

const LATER: &str = "process_sliced_packet, a later frame";

/// A frame in a test: the call that is named if an allocation fails, its bytes, the end of its fragment, and the payload
/// that it completes, or no bytes.
type Step<'a> = (&'static str, &'a [u8], usize, &'static [u8]);

/// Passes the given frames in order to a new reassembly pool, and asserts the number of incomplete datagrams after them.
fn leaves(rt: &(impl Abort + Print), alloc: Global, steps: &[Step], count: u32) {
    let mut pool = IpDefragPool::new(alloc);
    for (name, frame, len, payload) in steps {
        answers(rt, &mut pool, *name, (*frame, 1), *len, *payload);
    }
    same(rt, &streams(&mut pool), &count);
}

/// Tests the first frame of a datagram. Then two datagrams whose keys differ only in the VLAN identifier: both are
/// completed, and one begins a second time. Then a frame with the first 2,000 bytes of a payload, before a frame with an
/// empty first fragment of another payload.
#[test]
fn datagrams(rt: HostRuntime) {
    let mut large = [7; 2034];
    large[..34].copy_from_slice(&LARGE_HEADERS);
    let rows: [(&[Step], u32); 3] = [
        (&[(FIRST, VLAN_1_FIRST, 8, b"")], 1),
        (
            &[
                (FIRST, VLAN_1_FIRST, 8, b""),
                (FIRST, VLAN_2_FIRST, 8, b""),
                (LATER, VLAN_1_LAST, 16, VLAN_1_PAYLOAD),
                (FIRST, VLAN_1_LAST, 16, b""),
                (LATER, VLAN_2_LAST, 16, VLAN_2_PAYLOAD),
            ],
            1,
        ),
        (
            &[(FIRST, &large, 2000, b""), (FIRST, EMPTY_FIRST, 0, b"")],
            2,
        ),
    ];
    for (steps, count) in rows {
        leaves(&rt, rt.alloc(), steps, count);
    }
}

/// Asserts that a reassembly pool rejects the fragment in a frame with the given error.
fn refuses(
    rt: &impl Abort,
    pool: &mut Pool,
    (frame, timestamp): (&[u8], u64),
    error: IpDefragError,
) {
    let packet = SlicedPacket::from_ethernet(frame).expect(rt, "no frame");
    let answer = pool.process_sliced_packet(&packet, timestamp, 0);
    same(rt, &answer, &Err(error));
}

/// Asserts that a reassembly pool rejects a fragment of 7 bytes whose more-fragments flag is set.
fn refuses_unaligned(rt: &impl Abort, pool: &mut Pool, timestamp: u64) {
    let error = IpDefragError::UnalignedFragmentPayloadLen {
        offset: offset(rt, 1),
        payload_len: 7,
    };
    refuses(rt, pool, (VLAN_1_UNALIGNED, timestamp), error);
}

/// Asserts that a reassembly pool with the limit `max` rejects a fragment of the bytes 16 to 23 of a payload, since it
/// ends at 24, above the limit.
fn refuses_above_limit(rt: &impl Abort, pool: &mut Pool, max: u16) {
    let error = IpDefragError::SegmentTooBig {
        offset: offset(rt, 2),
        payload_len: 8,
        max,
    };
    refuses(rt, pool, (VLAN_1_ENDS_AT_24, 1), error);
}

/// Tests that a rejected fragment does not change the timestamp of its datagram: a drop by timestamp still removes the
/// datagram.
#[test]
fn refused_keeps_time(rt: HostRuntime) {
    let mut pool = IpDefragPool::new(rt.alloc());
    answers(&rt, &mut pool, FIRST, (VLAN_1_FIRST, 1), 8, b"");
    refuses_unaligned(&rt, &mut pool, 5);
    pool.retain(|timestamp| *timestamp >= 3);
    same(&rt, &streams(&mut pool), &0);
    answers(&rt, &mut pool, FIRST, (VLAN_1_LAST, 6), 16, b"");
}

/// Passes a frame to a reassembly pool, and asserts that it completes no payload and that no allocation fails.
fn skips(rt: &impl Abort, pool: &mut Pool, frame: &[u8]) {
    let packet = SlicedPacket::from_ethernet(frame).expect(rt, "no frame");
    same(rt, &pool.process_sliced_packet(&packet, 1, 0), &Ok(None));
}

/// Tests that a reassembly pool does not allocate for a frame without a fragment, for a rejected fragment, for a
/// fragment that only overwrites bytes it holds, or for a drop.
#[test]
fn without_memory(rt: HostRuntime) {
    let mut pool = IpDefragPool::new(rt.alloc());
    skips(&rt, &mut pool, UNFRAGMENTED_PACKET);
    refuses_unaligned(&rt, &mut pool, 1);
    same(&rt, &streams(&mut pool), &0);
    answers(&rt, &mut pool, "setup", (VLAN_1_FIRST, 1), 8, b"");
    skips(&rt, &mut pool, VLAN_1_FIRST);
    refuses_unaligned(&rt, &mut pool, 1);
    pool.retain(|timestamp| *timestamp >= 3);
    same(&rt, &streams(&mut pool), &0);
    asks_once(&rt, rt.alloc());
}

/// Tests that a reassembly pool does not allocate for a fragment that ends above its limit, whether its datagram has
/// begun or not. Creating a pool with another limit does not allocate either.
#[test]
fn limits_without_memory(rt: HostRuntime) {
    let mut pool = IpDefragPool::with_limit(rt.alloc(), 8);
    refuses_above_limit(&rt, &mut pool, 8);
    answers(&rt, &mut pool, "setup", (VLAN_1_FIRST, 1), 8, b"");
    refuses_above_limit(&rt, &mut pool, 8);
    pool = IpDefragPool::with_limit(rt.alloc(), 23);
    same(&rt, &streams(&mut pool), &0);
    refuses_above_limit(&rt, &mut pool, 23);
    asks_once(&rt, rt.alloc());
}
