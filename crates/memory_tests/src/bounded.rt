//! Tests of a bounded pool whose allocations fail. A fragment whose allocation fails changes nothing, except that its
//! own stream is evicted if it expired. Evicting, discarding and removing do not allocate.

use crate::checks::*;
use crate::runs::fragment;
use crate::samples::*;
use etherparse::defrag::*;
use etherparse::*;
use std::alloc::{AllocError, Global};
use std::hash::RandomState;
use std::io;
use std::process::Abort;
use std::random::RandomSource;

type Bounded = BoundedDefragPool<u8>;

/// Source of the keys of a pool: bytes that are all 7.
#[derive(Drop)]
struct Sevens;

impl RandomSource for Sevens {
    fn fill_bytes(&self, bytes: &mut [u8]) -> io::Result<()> {
        bytes.fill(7);
        Ok(())
    }
}

/// The default limits, but with an age of 10, this number of streams and this policy for overlaps.
fn limits(streams: usize, overlap: OverlapPolicy) -> DefragLimits {
    DefragLimits {
        streams,
        age: 10,
        overlap,
        ..DefragLimits::default()
    }
}

/// Creates a bounded pool. If an allocation fails, it prints so and tries a second time.
fn new_pool(rt: &(impl Abort + Print), alloc: Global, limits: DefragLimits) -> Bounded {
    let keys = RandomState::new(&Sevens).expect(rt, "no keys");
    match BoundedDefragPool::new(alloc, limits, keys) {
        Ok(pool) => pool,
        Err(AllocError) => {
            refused(rt, "BoundedDefragPool::new");
            let keys = RandomState::new(&Sevens).expect(rt, "no keys");
            BoundedDefragPool::new(alloc, limits, keys).expect(rt, "refused twice")
        }
    }
}

/// Number of open streams, of discarded streams, and of bytes that a pool holds.
fn held(pool: &Bounded) -> (usize, usize, usize) {
    (
        pool.stream_count(),
        pool.discarded_count(),
        pool.held_bytes(),
    )
}

/// Passes a fragment of the datagram `identification` to a bounded pool, and returns the payload that it completes, if
/// any. If an allocation fails, it prints `call`, asserts that the pool holds what it held and reports nothing, and
/// tries a second time.
fn answer(
    rt: &(impl Abort + Print),
    pool: &mut Bounded,
    call: &str,
    identification: u16,
    fragment: &Fragment,
) -> Option<IpDefragPayloadVec> {
    let before = held(pool);
    match pool.process_fragment(name(identification), fragment, 1) {
        Ok(answer) => answer,
        Err(_) => {
            refused(rt, call);
            same(rt, &held(pool), &before);
            same(rt, &pool.evicted().len(), &0);
            same(rt, &pool.statistics().rejected_out_of_memory, &1);
            let again = pool.process_fragment(name(identification), fragment, 1);
            again.expect(rt, "refused twice")
        }
    }
}

const FIRST: &str = "process_fragment of a bounded pool, a stream's first";

const LATER: &str = "process_fragment of a bounded pool, a later one";

/// Passes the first 8 bytes of a datagram to a bounded pool.
fn begins(rt: &(impl Abort + Print), pool: &mut Bounded, identification: u16) {
    let first = fragment(rt, 0, true, b"abcdefgh");
    same(rt, &answer(rt, pool, FIRST, identification, &first), &None);
}

/// Passes the final 4 bytes of a datagram to a bounded pool, after `begins`, and asserts that it is complete.
fn ends(rt: &(impl Abort + Print), pool: &mut Bounded, call: &str, identification: u16) {
    let last = fragment(rt, 1, false, b"ijkl");
    let whole = answer(rt, pool, call, identification, &last).expect(rt, "whole");
    same(rt, &whole.payload.as_slice(), &b"abcdefghijkl".as_slice());
}

/// A fragment in a test: the call that is named if an allocation fails, the offset in units of 8 bytes, the
/// more-fragments flag and the bytes.
type Step = (&'static str, u16, bool, &'static [u8]);

/// Asserts that the given fragments, passed in order to a new bounded pool, complete the payload `bytes` with the last
/// one.
fn completes(
    rt: &(impl Abort + Print),
    alloc: Global,
    limits: DefragLimits,
    (steps, (call, units, more_fragments, payload)): (&[Step], Step),
    bytes: &[u8],
) {
    let mut pool = new_pool(rt, alloc, limits);
    for (call, units, more_fragments, payload) in steps {
        let fragment = fragment(rt, *units, *more_fragments, *payload);
        same(rt, &answer(rt, &mut pool, *call, 1, &fragment), &None);
    }
    let last = fragment(rt, units, more_fragments, payload);
    let whole = answer(rt, &mut pool, call, 1, &last).expect(rt, "incomplete");
    same(rt, &whole.payload.as_slice(), &bytes);
}

/// Tests a datagram in three fragments, the one in the middle last; fragments under `FirstWins` that overlap earlier
/// ones and fill gaps; and a datagram in one fragment, which allocates only its payload and its list of ranges.
#[test]
fn one_stream(rt: HostRuntime) {
    let rows: [(DefragLimits, &[Step], Step, &[u8]); 3] = [
        (
            limits(2, OverlapPolicy::LastWins),
            &[(FIRST, 0, true, b"abcdefgh"), (LATER, 2, false, b"qrst")],
            ("setup", 1, true, b"ijklmnop"),
            b"abcdefghijklmnopqrst",
        ),
        (
            limits(2, OverlapPolicy::FirstWins),
            &[(FIRST, 0, true, b"abcdefgh"), (LATER, 2, true, b"qrstuvwx")],
            (LATER, 0, false, b"________ijklmnop________yz"),
            b"abcdefghijklmnopqrstuvwxyz",
        ),
        (
            DefragLimits::default(),
            &[],
            (FIRST, 0, false, b"abc"),
            b"abc",
        ),
    ];
    for (limits, steps, last, bytes) in rows {
        completes(&rt, rt.alloc(), limits, (steps, last), bytes);
    }
    asks_once(&rt, rt.alloc());
}

/// Tests five streams in a pool for two: each later one evicts the oldest. The last two are completed.
#[test]
fn evicted_streams(rt: HostRuntime) {
    let mut pool = new_pool(&rt, rt.alloc(), limits(2, OverlapPolicy::Discard));
    for identification in 1..6u16 {
        begins(&rt, &mut pool, identification);
        same(&rt, &pool.evicted().len(), &usize::from(identification > 2));
    }
    ends(&rt, &mut pool, LATER, 4);
    ends(&rt, &mut pool, LATER, 5);
    same(&rt, &held(&pool), &(0, 0, 0));
}

/// Tests a stream that expires at a fragment whose allocation fails: it is evicted and reported all the same, and the
/// fragment begins it anew when it is passed again.
#[test]
fn expired_stream(rt: HostRuntime) {
    let mut pool = new_pool(&rt, rt.alloc(), limits(2, OverlapPolicy::Discard));
    begins(&rt, &mut pool, 1);
    let first = fragment(&rt, 0, true, b"abcdefgh");
    let answered = pool.process_fragment(name(1), &first, 12);
    same(&rt, &pool.evicted().len(), &1);
    if answered.is_err() {
        refused(
            &rt,
            "process_fragment of a bounded pool, an expired stream's",
        );
        same(&rt, &held(&pool), &(0, 0, 0));
        same(&rt, &pool.process_fragment(name(1), &first, 12), &Ok(None));
    }
    same(&rt, &held(&pool), &(1, 0, 24));
    same(&rt, &pool.statistics().expired, &1);
}

/// Asserts that a bounded pool answers a fragment of the datagram `identification` with an error.
fn refuses(
    rt: &impl Abort,
    pool: &mut Bounded,
    identification: u16,
    fragment: &Fragment,
    error: BoundedDefragError,
) {
    let answer = pool.process_fragment(name(identification), fragment, 1);
    same(rt, &answer, &Err(error));
}

/// Tests that a bounded pool does not allocate for a repeat, for a fragment that discards its stream or meets a
/// discarded one, for packets without a fragment, or for `expire`, `remove` and `clear`.
#[test]
fn without_memory(rt: HostRuntime) {
    let mut pool = new_pool(&rt, rt.alloc(), limits(9, OverlapPolicy::Discard));
    for identification in 1..5u16 {
        begins(&rt, &mut pool, identification);
    }
    let first = fragment(&rt, 0, true, b"abcdefgh");
    same(&rt, &answer(&rt, &mut pool, "setup", 1, &first), &None);
    let other = fragment(&rt, 0, true, b"________");
    refuses(&rt, &mut pool, 1, &other, BoundedDefragError::Discarded);
    refuses(&rt, &mut pool, 1, &first, BoundedDefragError::Discarded);
    let packet = SlicedPacket::from_ethernet(UNFRAGMENTED_PACKET).expect(&rt, "no frame");
    same(&rt, &pool.process_sliced_packet(&packet, 1, 0), &Ok(None));
    same(&rt, &pool.remove(&name(2)), &true);
    same(&rt, &pool.expire(1, 0), &0);
    same(&rt, &pool.expire(12, 100), &3);
    pool.clear();
    same(&rt, &held(&pool), &(0, 0, 0));
    asks_once(&rt, rt.alloc());
}
