//! Tests of the bounded reassembly pool: fragments in frames, channels whose hashes are equal, a flood of large offsets,
//! and the texts of its errors. Tables of calls by hand are the stored runs of `bounded_bench`.

use super::*;
use crate::tests::checks::shows;
use std::hash::{Hash, RandomState};
use std::io;
use std::random::RandomSource;

mod frames;

/// Source of the keys of a pool: 16 bytes that are all equal.
#[derive(Drop)]
struct EqualBytes(u8);

impl RandomSource for EqualBytes {
    fn fill_bytes(&self, bytes: &mut [u8]) -> io::Result<()> {
        bytes.fill(self.0);
        Ok(())
    }
}

/// Keys of two pools that have to answer alike.
const SEEDS: [u8; 2] = [1, 200];

/// Flags of a fragment: more fragments follow, or it is the final one.
const MORE: bool = true;

const FINAL: bool = false;

/// Limits of `streams` and `bytes`, with the other ones as by default.
fn narrow(streams: usize, bytes: usize) -> DefragLimits {
    DefragLimits {
        streams,
        bytes,
        ..DefragLimits::default()
    }
}

/// Returns a new bounded pool whose keys are 16 bytes `seed`.
fn new_pool<Channel: Eq + Hash + Drop>(
    rt: &impl Abort,
    alloc: Global,
    limits: DefragLimits,
    seed: u8,
) -> BoundedDefragPool<Channel> {
    let keys = RandomState::new(&EqualBytes(seed)).expect(rt, "no keys");
    BoundedDefragPool::new(alloc, limits, keys).expect(rt, "no memory")
}

/// Returns the identifier of a UDP datagram from 192.168.1.1 to 192.168.1.2 whose identification is `stream`.
fn name(stream: u8) -> IpFragId<u8> {
    IpFragId {
        vlan_ids: ArrayVec::new(),
        ip: IpFragVersionSpecId::Ipv4 {
            source: [192, 168, 1, 1],
            destination: [192, 168, 1, 2],
            identification: u16::from(stream),
        },
        payload_ip_number: IpNumber::UDP,
        channel_id: 0,
    }
}

/// Asserts which streams the last call evicted or discarded.
fn reports(rt: &impl Abort, pool: &BoundedDefragPool<u8>, evicted: &[(u8, EvictionCause, u128)]) {
    same(rt, &pool.evicted().len(), &evicted.len());
    for (shown, (stream, cause, first)) in pool.evicted().iter().zip(evicted) {
        same(rt, &shown.id, &name(*stream));
        same(rt, &(shown.cause, shown.first), &(*cause, *first));
    }
}

/// Asserts the number of open streams, of discarded streams, and of bytes that a pool holds.
fn holds(rt: &impl Abort, pool: &BoundedDefragPool<u8>, held: (usize, usize, usize)) {
    let shown = (
        pool.stream_count(),
        pool.discarded_count(),
        pool.held_bytes(),
    );
    same(rt, &shown, &held);
}

/// Returns the number of streams with an empty fragment at the greatest offset that evict a stream which began before
/// them.
fn streams_until_eviction(rt: &impl Abort, alloc: Global, bytes: usize) -> u32 {
    let mut pool = new_pool(rt, alloc, narrow(4096, bytes), 1);
    let mut count = 0;
    for channel_id in 0..4000u32 {
        let (units, payload) = if channel_id == 0 {
            (0, PAYLOAD)
        } else {
            (8191, b"".as_slice())
        };
        let fragment = Fragment {
            offset: offset(rt, units),
            more_fragments: true,
            payload,
        };
        let answer = pool.process_fragment(
            IpFragId {
                vlan_ids: ArrayVec::new(),
                ip: name(1).ip,
                payload_ip_number: IpNumber::UDP,
                channel_id,
            },
            &fragment,
            1,
        );
        same(rt, &answer, &Ok(None));
        if !pool.evicted().is_empty() {
            return count;
        }
        count = channel_id + 1;
    }
    count
}

/// 64 packets empty a pool of 4 MiB, and 512 one of 32 MiB.
#[test]
fn flood_at_great_offset(rt: HostRuntime) {
    same(
        &rt,
        &streams_until_eviction(&rt, rt.alloc(), 4 * 1024 * 1024),
        &64,
    );
    same(
        &rt,
        &streams_until_eviction(&rt, rt.alloc(), 32 * 1024 * 1024),
        &512,
    );
}

#[test]
fn texts_of_bounded_errors(rt: HostRuntime) {
    let alloc = rt.alloc();
    let inner = IpDefragError::AllocationFailure { len: 24 };
    let text = "Failed to allocate 24 bytes of memory to reconstruct the fragmented IP packets.";
    shows(&rt, alloc, &BoundedDefragError::Rejected(inner), text);
    let text =
        "The stream of the IP fragment is discarded, since its fragments contradict each other.";
    shows(&rt, alloc, &BoundedDefragError::Discarded, text);
    let text = "The stream of the IP fragment needs more memory than all streams may use.";
    shows(&rt, alloc, &BoundedDefragError::OverBudget, text);
}
