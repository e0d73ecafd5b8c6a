//! Tests of a reassembly pool with hostile channel types (a channel is a caller's identifier that keeps fragments
//! apart): with a constant hash, and with an equality that ignores part of the value.

ghost use Rattle.std.specs.Prelude.{◌≡◌, ◌/◌, nat_eq, []};
ghost use Rattle.std.proofs.Common.{rules, refl};
ghost use Rattle.std.specs.Cmp.Rules.{comparing};
ghost use Rattle.std.specs.Ordering.{on};

use crate::defrag::IpDefragPool;
use crate::tests::checks::same;
use crate::tests::defrag::pool::*;
use crate::tests::sizes::COLLIDING_STREAMS;
use crate::{LenSource, SlicedPacket};
use std::alloc::Global;
use std::hash::{Hash, Hasher};
use std::ops::Range;
use std::process::Abort;

/// Channel type (a caller's identifier that keeps fragments of different sources apart) whose values all have the same
/// hash.
#[derive(Clone, Copy, Debug, PartialEq, Eq)]
struct ConstantHash(u32);

impl Hash for ConstantHash {
    ghost hash_input = { λ channel. [] };

    ghost respects_eq = { λ a b same. refl };

    fn hash<H: Hasher>(&self, _state: &mut H) {}
}

/// Channel type (a caller's identifier that keeps fragments of different sources apart) whose equality ignores the
/// lowest bit and whose values all have the same hash.
#[derive(Clone, Copy, Debug)]
pub(crate) struct Halved(pub(crate) u8);

impl PartialEq for Halved {
    ghost eq = { on (λ channel. channel.0 / 2) nat_eq };

    ghost laws = { Prim.search (comparing, rules) };

    fn eq(&self, other: &Halved) -> bool {
        self.0 / 2 == other.0 / 2
    }
}

impl Eq for Halved {
    ghost laws = { Prim.search (comparing, rules) };
}

impl Hash for Halved {
    ghost hash_input = { λ channel. [] };

    ghost respects_eq = { λ a b same. refl };

    fn hash<H: Hasher>(&self, _state: &mut H) {}
}

/// Frames with fragments of two datagrams whose keys differ only in the VLAN, each with the payload that it completes
/// in a reassembly pool, or with no bytes if it completes none.
const FRAMES: [(&[u8], &[u8]); 5] = [
    (VLAN_1_FIRST, b""),
    (VLAN_2_FIRST, b""),
    (VLAN_1_LAST, WHOLE),
    (VLAN_1_LAST, b""),
    (VLAN_2_LAST, OTHER),
];

/// Passes a frame with a fragment to a reassembly pool on this channel (caller's identifier that keeps fragments
/// apart). Asserts that it completes `payload`, or nothing if `payload` is empty.
fn completes_payload<Channel: Eq + Hash + Drop>(
    rt: &impl Abort,
    pool: &mut IpDefragPool<u64, Channel>,
    channel: Channel,
    (frame, payload): (&[u8], &[u8]),
) {
    let packet = SlicedPacket::from_ethernet(frame).expect(rt, "refused");
    let answer = pool.process_sliced_packet(&packet, 1, channel);
    let is_wanted = is_payload(&answer, LenSource::Ipv4HeaderTotalLen, payload);
    same(rt, &is_wanted, &true);
}

/// Passes five fragments on each of two channels (caller's identifiers that keep fragments apart) to one reassembly
/// pool, and asserts that each channel is answered as if it were alone. Each bit of `order`, from the lowest on, is the
/// channel of the next fragment.
fn assert_channels_are_separate(rt: &impl Abort, alloc: Global, order: u32) {
    let mut pool = IpDefragPool::new(alloc);
    let (mut even, mut odd) = (FRAMES.iter(), FRAMES.iter());
    let mut rest = order;
    for _ in 0..10 {
        let channel = rest % 2;
        rest /= 2;
        let next = if channel == 0 {
            even.next()
        } else {
            odd.next()
        };
        let frame = *next.expect(rt, "five of each");
        completes_payload(rt, &mut pool, ConstantHash(channel), frame);
    }
}

/// A reassembly pool keeps the fragments of two channels (caller's identifiers) with equal hashes apart, in every
/// interleaving of five fragments of one with five of the other; those of each channel arrive in a fixed order.
#[test]
fn channels_with_colliding_keys(rt: HostRuntime) {
    for order in 0..1024u32 {
        if order.count_ones() == 5 {
            assert_channels_are_separate(&rt, rt.alloc(), order);
        }
    }
}

/// Fragments that alternate between two channels (caller's identifiers) that compare equal are reassembled together.
/// Fragments on two other channels, which are equal to each other but not to the first two, are kept apart from them.
#[test]
fn channels_that_are_equal(rt: HostRuntime) {
    let mut pool = IpDefragPool::new(rt.alloc());
    for (place, frame) in FRAMES.iter().enumerate() {
        let channel = u8::from(place % 2 == 1);
        completes_payload(&rt, &mut pool, Halved(channel), *frame);
        completes_payload(&rt, &mut pool, Halved(channel + 2), *frame);
    }
}

/// Passes a frame with a fragment to a reassembly pool once for each of these channels (caller's identifiers that keep
/// fragments apart), and asserts the payload that it completes, if any.
fn process_on_channels(
    rt: &impl Abort,
    pool: &mut IpDefragPool<u64, ConstantHash>,
    channels: Range<u32>,
    frame: (&[u8], &[u8]),
) {
    for channel in channels {
        completes_payload(rt, pool, ConstantHash(channel), frame);
    }
}

/// A reassembly pool holds the fragments of many datagrams whose keys all have the same hash: all datagrams are
/// started, and then each one is completed.
#[test]
fn many_colliding_keys(rt: HostRuntime) {
    let mut pool = IpDefragPool::new(rt.alloc());
    process_on_channels(&rt, &mut pool, 0..COLLIDING_STREAMS, (VLAN_1_FIRST, b""));
    process_on_channels(&rt, &mut pool, 0..COLLIDING_STREAMS, (VLAN_1_LAST, WHOLE));
}
