//! Tests that a reassembly pool uses the memory of dropped datagrams, and of payloads that are given back, for later
//! datagrams.

use crate::checks::*;
use crate::samples::*;
use etherparse::defrag::*;
use etherparse::*;
use std::alloc::Global;
use std::process::Abort;

pub type Pool = IpDefragPool<u64, u8>;

/// Two fragments of one payload: the bytes from the start, and the final bytes that follow them directly.
type Halves = (&'static [u8], &'static [u8]);

/// Passes a fragment of the datagram `identification` to a reassembly pool, and returns the payload that it completes,
/// if any. If an allocation fails, it prints so and tries a second time.
pub fn answer(
    rt: &(impl Abort + Print),
    pool: &mut Pool,
    identification: u16,
    fragment: &Fragment,
) -> Option<IpDefragPayloadVec> {
    match pool.process_fragment(name(identification), fragment, 1) {
        Ok(answer) => answer,
        Err(_) => {
            refused(rt, "process_fragment");
            let again = pool.process_fragment(name(identification), fragment, 1);
            again.expect(rt, "refused twice")
        }
    }
}

/// Passes the first fragment of a datagram, with the bytes `payload`, to a reassembly pool, and asserts that it
/// completes no payload.
pub fn begins(rt: &(impl Abort + Print), pool: &mut Pool, identification: u16, payload: &[u8]) {
    let fragment = Fragment {
        offset: offset(rt, 0),
        more_fragments: true,
        payload,
    };
    same(rt, &answer(rt, pool, identification, &fragment), &None);
}

/// Passes both fragments of a datagram to a reassembly pool, and returns the payload that they complete.
fn completed(
    rt: &(impl Abort + Print),
    pool: &mut Pool,
    identification: u16,
    (first, last): Halves,
) -> IpDefragPayloadVec {
    begins(rt, pool, identification, first);
    let units = u16::try_from(first.len() / 8).unwrap_or(0);
    let fragment = Fragment {
        offset: offset(rt, units),
        more_fragments: false,
        payload: last,
    };
    answer(rt, pool, identification, &fragment).expect(rt, "whole")
}

/// Both fragments of a payload of 64 bytes: 56 and 8 bytes.
const LONG: Halves = (
    b"abcdefghijklmnopqrstuvwxyzabcdefghijklmnopqrstuvwxyzabcd",
    b"efghijkl",
);

/// Completes a payload of 64 bytes in a reassembly pool, and gives it back to the pool if `is_returned` is true. Then
/// completes a payload of 16 bytes, and asserts that it has no bytes of the payload of 64 bytes.
fn long_then_short(rt: &(impl Abort + Print), alloc: Global, is_returned: bool) {
    let mut pool = IpDefragPool::new(alloc);
    let long = completed(rt, &mut pool, 1, LONG);
    same(rt, &long.payload.len(), &64);
    if is_returned {
        pool.return_buf(long);
    }
    let short = completed(rt, &mut pool, 2, (b"01234567", b"89ABCDEF"));
    same(
        rt,
        &short.payload.as_slice(),
        &b"0123456789ABCDEF".as_slice(),
    );
    asks_once(rt, alloc);
}

/// Tests a payload that is given back to the reassembly pool, and one that is not: then the reassembly of the second
/// datagram allocates again.
#[test]
fn long_and_short(rt: HostRuntime) {
    for is_returned in [true, false] {
        long_then_short(&rt, rt.alloc(), is_returned);
    }
}

/// Tests that a payload given back to a reassembly pool that never had a stream is freed, which does not allocate.
#[test]
fn given_back_without_place(rt: HostRuntime) {
    let mut pool = IpDefragPool::new(rt.alloc());
    let reassembled = completed(&rt, &mut pool, 1, (b"abcdefgh", b"ijkl"));
    let mut other: Pool = IpDefragPool::new(rt.alloc());
    other.return_buf(reassembled);
    asks_once(&rt, rt.alloc());
}

/// Tests 100 datagrams one after the other, of two fragments each, whose payloads are given back to the reassembly
/// pool: only the first one allocates.
#[test]
fn steady(rt: HostRuntime) {
    let mut pool = IpDefragPool::new(rt.alloc());
    for identification in 0..100 {
        let reassembled = completed(&rt, &mut pool, identification, (b"abcdefgh", b"ijkl"));
        pool.return_buf(reassembled);
    }
    asks_once(&rt, rt.alloc());
}

/// Tests three datagrams that begin and are dropped, one after the other: only the first one allocates.
#[test]
fn dropped(rt: HostRuntime) {
    let mut pool = IpDefragPool::new(rt.alloc());
    for identification in 0..3 {
        begins(&rt, &mut pool, identification, b"abcdefgh");
        pool.retain(|_timestamp| false);
    }
    asks_once(&rt, rt.alloc());
}

/// Tests that the memory meant for a rejected first fragment stays in the reassembly pool, and that the next datagram
/// uses it.
#[test]
fn refused_first(rt: HostRuntime) {
    let mut pool = IpDefragPool::new(rt.alloc());
    begins(&rt, &mut pool, 1, b"abcdefgh");
    pool.retain(|_timestamp| false);
    let unaligned = Fragment {
        offset: offset(&rt, 1),
        more_fragments: true,
        payload: b"1234567",
    };
    let refusal = IpDefragError::UnalignedFragmentPayloadLen {
        offset: offset(&rt, 1),
        payload_len: 7,
    };
    let answer = pool.process_fragment(name(2), &unaligned, 1);
    same(&rt, &answer, &Err(refusal));
    begins(&rt, &mut pool, 3, b"abcdefgh");
    asks_once(&rt, rt.alloc());
}

/// Gives a reassembly pool a payload of 8 bytes that it did not reassemble itself.
fn return_foreign_payload(rt: &(impl Abort + Print), alloc: Global, pool: &mut Pool) {
    pool.return_buf(IpDefragPayloadVec {
        ip_number: IpNumber::UDP,
        len_source: LenSource::Slice,
        payload: full(rt, alloc, b"abcdefgh"),
    });
}

/// Tests a reassembly pool that had four datagrams open at once, and to which payloads are then given back until its
/// list of spare vectors is full. While one datagram is open, a second one begins without an allocation.
#[test]
fn full_of_vectors(rt: HostRuntime) {
    let mut pool = IpDefragPool::new(rt.alloc());
    for identification in 1..5 {
        begins(&rt, &mut pool, identification, b"abcdefgh");
    }
    pool.retain(|_timestamp| false);
    begins(&rt, &mut pool, 5, b"abcdefgh");
    for _ in 0..8 {
        return_foreign_payload(&rt, rt.alloc(), &mut pool);
    }
    begins(&rt, &mut pool, 6, b"abcdefgh");
    asks_once(&rt, rt.alloc());
}

/// Tests the longest payload, 65535 bytes in two fragments that frames can carry, then a payload whose final fragment
/// is empty, and a payload whose first fragment is empty.
#[test]
fn large_and_empty(rt: HostRuntime) {
    let mut pool = IpDefragPool::new(rt.alloc());
    let longest = completed(&rt, &mut pool, 1, (&[7; 32768], &[7; 32767]));
    same(&rt, &longest.payload.len(), &65535);
    let large = completed(&rt, &mut pool, 1, (&[7; 2000], b""));
    same(&rt, &large.payload.len(), &2000);
    let short = completed(&rt, &mut pool, 2, (b"", b"abc"));
    same(&rt, &short.payload.as_slice(), &b"abc".as_slice());
}

/// Tests a final fragment whose bytes only replace bytes that the reassembly pool already holds. The pool returns the
/// complete payload and does not allocate.
#[test]
fn completes_in_place(rt: HostRuntime) {
    let mut pool = IpDefragPool::new(rt.alloc());
    let first = Fragment {
        offset: offset(&rt, 0),
        more_fragments: true,
        payload: b"abcdefghijklmnop",
    };
    same(&rt, &answer(&rt, &mut pool, 1, &first), &None);
    let last = Fragment {
        offset: offset(&rt, 1),
        more_fragments: false,
        payload: b"IJKLMNOP",
    };
    let completion = pool.process_fragment(name(1), &last, 1);
    let reassembled = completion.expect(&rt, "refused").expect(&rt, "whole");
    same(
        &rt,
        &reassembled.payload.as_slice(),
        &b"abcdefghIJKLMNOP".as_slice(),
    );
    pool.return_buf(reassembled);
    asks_once(&rt, rt.alloc());
}
