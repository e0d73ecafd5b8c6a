//! Calls for C that reassemble IP fragments of hostile traffic in a bounded pool whose address C holds.

ghost use Rattle.std.specs.Prelude.{◌≡◌, IfSome, None, Some, is_some, nat_eq, slice_get, true};
ghost use Rattle.etherparse.specs.BoundedLimits.{default_limits};
ghost use Rattle.etherparse.specs.BoundedPools.{IsBounded, TakesBoundedFrame, evicted_in, limits_in, open_in, statistics_in};
ghost use Rattle.etherparse.specs.Pools.{fragment_in};
ghost use Rattle.etherparse.specs.BoundedCounts.{AddUp};
ghost use Rattle.etherparse_c.specs.SliceAnswers.{entry_of};
ghost use Rattle.etherparse_c.specs.PoolAnswers.{ReturnsNumber, empty_answer};
ghost use Rattle.etherparse_c.specs.BoundedPoolAnswers.{ChangesBounded, ClearsBounded, DiscardsWaiting, ExpiresBounded, IsBoundedPush};
ghost use Rattle.etherparse_c.specs.BoundedPoolAnswers.{IsBoundedPushed, IsBoundedTake, IsEmptyBounded, IsNewBounded, IsStoredBounded, ProcessesNoFrame};
ghost use Rattle.etherparse_c.specs.BoundedPoolAnswers.{RemovesBounded, ReturnsEvicted, ReturnsLimits, ReturnsStatistics};
ghost use Rattle.etherparse_c.specs.BoundedPoolAnswers.{IsEvictedStored, bounded_bytes, bounded_error_answer, bounded_status};
ghost use Rattle.etherparse_c.specs.BoundedPoolAnswers.{discarded_streams, evicted_count, limits_of, limits_part};
ghost use Rattle.etherparse_c.specs.BoundedPoolAnswers.{open_streams, statistics_part};

use crate::bounded_handle::BoundedHandle;
use crate::bounded_pool::BoundedPool;
use crate::bounded_state::BoundedState;
use crate::bounded_state_pointer::BoundedStatePointer;
use crate::defrag_describing::{
    counters_fit, default_limits, evicted_part, limits_of, limits_part, statistics_part,
    stream_id_of,
};
use crate::defrag_values::{DefragLimits, DefragStatistics, EvictedStream, StreamId};
use crate::hash_seed::HashSeed;
use crate::numbers;
use crate::owned_bounded_pool::OwnedBoundedPool;
use crate::pool_answer::PoolAnswer;
use crate::pooling::{
    TimedFrame, copy_payload, copy_waiting_payload, empty_answer, payload_answer,
    store_fragment_refusal,
};
use crate::raw_box::RawBox;
use crate::refusing::refusal_part;
use crate::slicing::entry_of;
use etherparse::defrag::{self, BoundedDefragError, BoundedDefragPool, IpDefragPayloadVec};
use etherparse::{Entry, SlicedPacket};
use std::alloc::Global;
use std::hash::RandomState;
use std::mem::replace;

/// Stores the default limits of a bounded reassembly pool: 4096 streams, 32 MiB, payloads of at most 65535 bytes, an
/// age of 60000, and streams with contradicting fragments are discarded.
#[unsafe(no_mangle)]
pub extern "C" fn etherparse_2_defrag_limits_default(limits: &mut DefragLimits)
    ensures { limits_of limits.new ≡ Some default_limits }
{
    *limits = default_limits();
}

/// Creates an empty bounded reassembly pool and stores its address in `pool`. `seed` is the secret seed of the hash by
/// which the pool finds its streams. Returns status 0, 2 if the limits' rule for overlaps is unknown, or 5 if an
/// allocation fails; with 2 and 5 `pool` is unchanged.
#[unsafe(no_mangle)]
pub extern "C" fn etherparse_2_bounded_pool_new(
    alloc: Global,
    limits: &DefragLimits,
    seed: &[u8; 16],
    pool: &mut BoundedHandle,
) -> u32
    ensures { IsNewBounded (limits_of limits.now) pool.old pool.new result }
{
    let Some(limits) = limits_of(limits) else {
        return numbers::UNKNOWN_CHOICE;
    };
    new_pool(alloc, limits, HashSeed { bytes: seed }, pool)
}

/// Frees a bounded reassembly pool with all fragments and payloads in it.
#[unsafe(no_mangle)]
pub extern "C" fn etherparse_2_bounded_pool_free(pool: OwnedBoundedPool) {
    let OwnedBoundedPool { handle } = pool;
    let BoundedPool { pointer } = Box::into_inner(handle.into_raw_box().into_box());
    let _ = pointer.into_raw_box().into_box();
}

/// Passes a frame, which may carry an IP fragment, to a bounded reassembly pool. The caller chooses the numbers
/// `timestamp` and `channel`: streams expire by timestamp, and fragments of different channels are never reassembled
/// together. `entry` is the number of the frame's first header: 0 Ethernet II, 1 Linux cooked capture, 2 the header
/// that `ether_type` identifies, 3 IP of either version.
///
/// Returns the status: 6 if the frame completes a payload, which is copied to the start of `buffer`; 3 if it completes
/// a payload that is longer than the buffer, and the pool keeps the payload until it is taken or discarded; 0 if it
/// completes none; 7 if the fragment is rejected; 9 if its stream is discarded, by this fragment or an earlier one; 10
/// if its stream alone needs more memory than the limits allow, and is evicted; 5 if an allocation fails. No frame is
/// processed, and the streams are unchanged, with 2 if `entry` is above 3; otherwise with 8 if the pool still keeps an
/// earlier complete payload; otherwise with 1 if the bytes are not a valid frame. With any status but 6 the buffer is
/// unchanged.
#[unsafe(no_mangle)]
pub extern "C" fn etherparse_2_bounded_pool_push(
    alloc: Global,
    pool: &mut BoundedPool,
    entry: u32,
    ether_type: u16,
    bytes: &[u8],
    timestamp: u64,
    channel: u64,
    buffer: &mut [u8],
    answer: &mut PoolAnswer,
) -> u32
    ensures { ChangesBounded pool.old pool.new (IsBoundedPush (entry_of entry ether_type) bytes.now timestamp
        channel buffer.old buffer.new answer.new result) }
{
    let mut state = take_state(alloc, &mut pool.pointer);
    let frame = TimedFrame {
        bytes,
        timestamp,
        channel,
    };
    let status = push(&mut state, entry, ether_type, frame, buffer, answer);
    pool.pointer = pointer_to(state);
    status
}

/// Copies a complete payload from a bounded reassembly pool to the start of `buffer`; the pool keeps a payload for
/// which an earlier buffer was too small. Returns status 6 if the payload is copied; 3 if it is longer than `buffer`,
/// and the pool still keeps it; 0 if the pool keeps no complete payload. With any status but 6 the buffer is unchanged.
#[unsafe(no_mangle)]
pub extern "C" fn etherparse_2_bounded_pool_take(
    alloc: Global,
    pool: &mut BoundedPool,
    buffer: &mut [u8],
    answer: &mut PoolAnswer,
) -> u32
    ensures { ChangesBounded pool.old pool.new (IsBoundedTake buffer.old buffer.new answer.new result) }
{
    let mut state = take_state(alloc, &mut pool.pointer);
    let status = copy_waiting_payload(&mut state.waiting, buffer, answer);
    pool.pointer = pointer_to(state);
    status
}

/// Discards the complete payload that a bounded reassembly pool keeps because the caller's buffer was too small, if
/// any. The streams are unchanged.
#[unsafe(no_mangle)]
pub extern "C" fn etherparse_2_bounded_pool_discard(alloc: Global, pool: &mut BoundedPool)
    ensures { ChangesBounded pool.old pool.new DiscardsWaiting }
{
    let mut state = take_state(alloc, &mut pool.pointer);
    state.waiting = None;
    pool.pointer = pointer_to(state);
}

/// Evicts from a bounded reassembly pool each stream that is older than the age of the limits, or whose last accepted
/// fragment came more than `idle` before `now`. Returns their number. Takes time linear in the number of streams.
#[unsafe(no_mangle)]
pub extern "C" fn etherparse_2_bounded_pool_expire(
    alloc: Global,
    pool: &mut BoundedPool,
    now: u64,
    idle: u64,
) -> usize
    ensures { ChangesBounded pool.old pool.new (ExpiresBounded now idle result) }
{
    let mut state = take_state(alloc, &mut pool.pointer);
    let count = expire(&mut state, now, idle);
    pool.pointer = pointer_to(state);
    count
}

/// Removes the stream with this identifier, open or discarded, from a bounded reassembly pool. Returns the number of
/// removed streams: 1, or 0 if no stream has the identifier.
#[unsafe(no_mangle)]
pub extern "C" fn etherparse_2_bounded_pool_remove(
    alloc: Global,
    pool: &mut BoundedPool,
    id: &StreamId,
) -> usize
    ensures { ChangesBounded pool.old pool.new (RemovesBounded id.now result) }
{
    let mut state = take_state(alloc, &mut pool.pointer);
    let count = remove(&mut state, id);
    pool.pointer = pointer_to(state);
    count
}

/// Removes all streams from a bounded reassembly pool. The counters and a complete payload that the pool keeps stay.
#[unsafe(no_mangle)]
pub extern "C" fn etherparse_2_bounded_pool_clear(alloc: Global, pool: &mut BoundedPool)
    ensures { ChangesBounded pool.old pool.new ClearsBounded }
{
    let mut state = take_state(alloc, &mut pool.pointer);
    clear(&mut state);
    pool.pointer = pointer_to(state);
}

/// Returns the number of open streams in a bounded reassembly pool: IP datagrams with accepted fragments that are still
/// incomplete, and not discarded.
#[unsafe(no_mangle)]
pub extern "C" fn etherparse_2_bounded_pool_streams(alloc: Global, pool: &mut BoundedPool) -> usize
    ensures { ChangesBounded pool.old pool.new (λ old new. ReturnsNumber open_streams result old new
        × IsBounded new.pool) }
{
    let state = take_state(alloc, &mut pool.pointer);
    let count = stream_count(&state);
    pool.pointer = pointer_to(state);
    count
}

/// Returns the number of discarded streams in a bounded reassembly pool whose identifiers still count as streams of the
/// limits.
#[unsafe(no_mangle)]
pub extern "C" fn etherparse_2_bounded_pool_discarded_streams(
    alloc: Global,
    pool: &mut BoundedPool,
) -> usize
    ensures { ChangesBounded pool.old pool.new (ReturnsNumber discarded_streams result) }
{
    let state = take_state(alloc, &mut pool.pointer);
    let count = discarded_count(&state);
    pool.pointer = pointer_to(state);
    count
}

/// Returns the memory of all streams in a bounded reassembly pool in bytes: the capacities of their data and section
/// lists. A complete payload that is not yet taken does not count.
#[unsafe(no_mangle)]
pub extern "C" fn etherparse_2_bounded_pool_held_bytes(
    alloc: Global,
    pool: &mut BoundedPool,
) -> usize
    ensures { ChangesBounded pool.old pool.new (λ old new. ReturnsNumber bounded_bytes result old new
        × IsBounded new.pool) }
{
    let state = take_state(alloc, &mut pool.pointer);
    let count = held_bytes(&state);
    pool.pointer = pointer_to(state);
    count
}

/// Stores the limits of a bounded reassembly pool, as they were passed to `etherparse_2_bounded_pool_new`.
#[unsafe(no_mangle)]
pub extern "C" fn etherparse_2_bounded_pool_limits(
    alloc: Global,
    pool: &mut BoundedPool,
    limits: &mut DefragLimits,
)
    ensures { ChangesBounded pool.old pool.new (ReturnsLimits limits.new) }
{
    let state = take_state(alloc, &mut pool.pointer);
    *limits = limits_in(&state);
    pool.pointer = pointer_to(state);
}

/// Stores the counters of a bounded reassembly pool since it was created.
#[unsafe(no_mangle)]
pub extern "C" fn etherparse_2_bounded_pool_statistics(
    alloc: Global,
    pool: &mut BoundedPool,
    statistics: &mut DefragStatistics,
)
    ensures { ChangesBounded pool.old pool.new (ReturnsStatistics statistics.new) }
{
    let state = take_state(alloc, &mut pool.pointer);
    *statistics = statistics_of(&state);
    pool.pointer = pointer_to(state);
}

/// Returns the number of streams that the last push, expiry, removal or clearing of a bounded reassembly pool evicted or
/// discarded.
#[unsafe(no_mangle)]
pub extern "C" fn etherparse_2_bounded_pool_evicted_count(
    alloc: Global,
    pool: &mut BoundedPool,
) -> usize
    ensures { ChangesBounded pool.old pool.new (ReturnsNumber evicted_count result) }
{
    let state = take_state(alloc, &mut pool.pointer);
    let count = evicted_count(&state);
    pool.pointer = pointer_to(state);
    count
}

/// Stores one of the streams that the last push, expiry, removal or clearing of a bounded reassembly pool evicted or discarded.
/// `index` counts from 0: first the stream of the pushed fragment if it had expired, then those evicted for the limits,
/// the one whose last accepted fragment was oldest first. Returns status 0, or 2 if there are fewer; then `evicted` is
/// unchanged.
#[unsafe(no_mangle)]
pub extern "C" fn etherparse_2_bounded_pool_evicted(
    alloc: Global,
    pool: &mut BoundedPool,
    index: usize,
    evicted: &mut EvictedStream,
) -> u32
    ensures { ChangesBounded pool.old pool.new (ReturnsEvicted index evicted.old evicted.new result) }
{
    let state = take_state(alloc, &mut pool.pointer);
    let status = store_evicted(&state, index, evicted);
    pool.pointer = pointer_to(state);
    status
}

/// Creates a bounded reassembly pool and stores its address in `pool`. Returns status 0, or 5 if an allocation fails;
/// then `pool` is unchanged.
fn new_pool(
    alloc: Global,
    limits: defrag::DefragLimits,
    seed: HashSeed<'_>,
    pool: &mut BoundedHandle,
) -> u32
    ensures { IsNewBounded (Some limits) pool.old pool.new result }
{
    // The seed has as many bytes as the hash takes, so there are always keys.
    let Ok(keys) = RandomState::new(&seed) else {
        return numbers::OUT_OF_MEMORY;
    };
    let Some(state) = empty_state(alloc, limits, keys) else {
        return numbers::OUT_OF_MEMORY;
    };
    store_pool(alloc, state, pool)
}

/// Returns the state of an empty bounded reassembly pool, or `None` if an allocation fails.
fn empty_state(
    alloc: Global,
    limits: defrag::DefragLimits,
    keys: RandomState,
) -> Option<BoundedState>
    ensures { IfSome result (IsEmptyBounded limits) }
{
    let Ok(pool) = BoundedDefragPool::new(alloc, limits, keys) else {
        return None;
    };
    Some(BoundedState {
        pool,
        waiting: None,
    })
}

/// Allocates a bounded reassembly pool with this state and stores its address in `pool`. Returns status 0, or 5 if an
/// allocation fails; then `pool` is unchanged.
fn store_pool(alloc: Global, state: BoundedState, pool: &mut BoundedHandle) -> u32
    ensures { IsStoredBounded state pool.old pool.new result }
{
    let Ok(state) = Box::new(alloc, state) else {
        return numbers::OUT_OF_MEMORY;
    };
    let fresh = BoundedPool {
        pointer: pointer_to(state),
    };
    let made = match Box::new(alloc, fresh) {
        Ok(made) => made,
        Err(failed) => {
            let BoundedPool { pointer } = failed.value;
            let _ = pointer.into_raw_box().into_box();
            return numbers::OUT_OF_MEMORY;
        }
    };
    *pool = BoundedHandle::of(RawBox::of(made));
    numbers::OK
}

/// Returns the boxed state of a bounded reassembly pool and leaves a null pointer in the pool.
fn take_state(alloc: Global, pointer: &mut BoundedStatePointer) -> Box<BoundedState>
    requires { is_some pointer.old.state ≡ true }
    ensures { Some result.value ≡ pointer.old.state }
{
    replace(pointer, BoundedStatePointer::none(alloc))
        .into_raw_box()
        .into_box()
}

/// Converts the boxed state of a bounded reassembly pool to the pointer that the pool stores.
fn pointer_to(state: Box<BoundedState>) -> BoundedStatePointer
    ensures { result.state ≡ Some state.value }
{
    BoundedStatePointer::of(RawBox::of(state))
}

/// Passes a frame to a bounded reassembly pool and returns the status for C: 2 if `entry`, the number of the frame's
/// first header, is above 3; else 8 if the pool still keeps a complete payload, and the frame is not processed; else
/// the status of the processed frame (0, 1, 3, 5, 6, 7, 9 or 10).
fn push(
    state: &mut BoundedState,
    entry: u32,
    ether_type: u16,
    frame: TimedFrame<'_>,
    buffer: &mut [u8],
    answer: &mut PoolAnswer,
) -> u32
    ensures { let given = frame.entry in IsBoundedPush (entry_of entry ether_type) given.bytes.now
        given.timestamp given.channel buffer.old buffer.new answer.new result state.old state.new }
{
    *answer = empty_answer();
    let Some(entry) = entry_of(entry, ether_type) else {
        process_no_frame(state);
        return numbers::UNKNOWN_CHOICE;
    };
    if let Some(payload) = &state.waiting {
        *answer = payload_answer(payload);
        process_no_frame(state);
        return numbers::PAYLOAD_WAITS;
    }
    push_frame(state, entry, frame, buffer, answer)
}

/// Empties the list of evicted streams of a bounded reassembly pool, since the last call processed no frame. The
/// streams are unchanged.
fn process_no_frame(state: &mut BoundedState)
    ensures processed { ProcessesNoFrame state.old state.new }
    ensures bounded { IsBounded state.new.pool }
{
    // A packet without a fragment changes no stream.
    let _ = state.pool.process_sliced_packet(&SlicedPacket::new(), 0, 0);
}

/// Slices a frame and passes it to a bounded reassembly pool that keeps no complete payload. Returns the status for C:
/// 6 if the frame completes a payload, or 3 if the payload is longer than the buffer; 0 if it completes none; 1 for an
/// invalid frame; 7, 9 or 10 for a rejected fragment; 5 if an allocation fails.
fn push_frame(
    state: &mut BoundedState,
    entry: Entry,
    frame: TimedFrame<'_>,
    buffer: &mut [u8],
    answer: &mut PoolAnswer,
) -> u32
    requires answer { answer.old ≡ empty_answer }
    requires waiting { state.old.waiting ≡ None }
    ensures pushed { let given = frame.entry in IsBoundedPushed entry given.bytes.now given.timestamp given.channel
        state.old state.new buffer.old buffer.new answer.new result }
    ensures bounded { IsBounded state.new.pool }
{
    let packet = match SlicedPacket::from_entry(entry, frame.bytes) {
        Ok(packet) => packet,
        Err(error) => {
            answer.refusal = refusal_part(&error);
            process_no_frame(state);
            return numbers::REFUSED;
        }
    };
    match process_packet(&mut state.pool, &packet, frame.timestamp, frame.channel) {
        Ok(None) => numbers::OK,
        Ok(Some(payload)) => copy_payload(payload, &mut state.waiting, buffer, answer),
        Err(error) => store_bounded_refusal(&error, answer),
    }
}

/// Passes a sliced frame to a bounded reassembly pool, with a timestamp of C.
fn process_packet(
    pool: &mut BoundedDefragPool<u64>,
    packet: &SlicedPacket<'_>,
    timestamp: u64,
    channel: u64,
) -> Result<Option<IpDefragPayloadVec>, BoundedDefragError>
    ensures takes { TakesBoundedFrame nat_eq pool.old pool.new (fragment_in packet.now) timestamp channel result }
    ensures bounded { IsBounded pool.new }
{
    let now = u128::from(timestamp);
    pool.process_sliced_packet(packet, now, channel)
}

/// Stores the number (1 to 3) of the reason why a bounded reassembly pool rejects a fragment, or 0 if it has none, and
/// returns the status: 7 for a rejected fragment, 5 if an allocation failed, 9 if the stream is discarded, 10 if it
/// needs too much memory.
fn store_bounded_refusal(error: &BoundedDefragError, answer: &mut PoolAnswer) -> u32
    requires { answer.old ≡ empty_answer }
    ensures answer { answer.new ≡ bounded_error_answer error.now }
    ensures status { result ≡ bounded_status error.now }
{
    match error {
        BoundedDefragError::Rejected(error) => store_fragment_refusal(error, answer),
        BoundedDefragError::Discarded => numbers::DISCARDED,
        BoundedDefragError::OverBudget => numbers::OVER_BUDGET,
    }
}

/// Evicts from a bounded reassembly pool each stream that is too old, or idle for longer than `idle`, and returns their
/// number.
fn expire(state: &mut BoundedState, now: u64, idle: u64) -> usize
    ensures { ExpiresBounded now idle result state.old state.new }
{
    let time = u128::from(now);
    let longest = u128::from(idle);
    state.pool.expire(time, longest)
}

/// Removes the stream with this identifier from a bounded reassembly pool, and returns the number of removed streams, 1
/// or 0.
fn remove(state: &mut BoundedState, id: &StreamId) -> usize
    ensures { RemovesBounded id.now result state.old state.new }
{
    let Some(id) = stream_id_of(id) else {
        process_no_frame(state);
        return 0;
    };
    counters_fit(state.pool.statistics());
    if state.pool.remove(&id) { 1 } else { 0 }
}

/// Removes all streams from a bounded reassembly pool.
fn clear(state: &mut BoundedState)
    ensures { ClearsBounded state.old state.new }
{
    state.pool.clear();
}

/// Returns the number of open streams in a bounded reassembly pool.
fn stream_count(state: &BoundedState) -> usize
    ensures count { result ≡ open_streams state.now }
    ensures bounded { IsBounded state.now.pool }
{
    state.pool.stream_count()
}

/// Returns the number of discarded streams in a bounded reassembly pool.
fn discarded_count(state: &BoundedState) -> usize
    ensures { result ≡ discarded_streams state.now }
{
    state.pool.discarded_count()
}

/// Returns the memory of all streams in a bounded reassembly pool, in bytes.
fn held_bytes(state: &BoundedState) -> usize
    ensures room { result ≡ bounded_bytes state.now }
    ensures bounded { IsBounded state.now.pool }
{
    state.pool.held_bytes()
}

/// Returns the number of streams that the last call evicted from a bounded reassembly pool, or discarded in it.
fn evicted_count(state: &BoundedState) -> usize
    ensures { result ≡ evicted_count state.now }
{
    state.pool.evicted().len()
}

/// Returns the limits of a bounded reassembly pool.
fn limits_in(state: &BoundedState) -> DefragLimits
    ensures { result ≡ limits_part (limits_in state.now.pool) }
{
    limits_part(&state.pool.limits())
}

/// Returns the counters of a bounded reassembly pool.
fn statistics_of(state: &BoundedState) -> DefragStatistics
    ensures returned { result ≡ statistics_part (statistics_in state.now.pool) }
    ensures sums { AddUp (statistics_in state.now.pool) (open_in state.now.pool) }
{
    statistics_part(&state.pool.statistics())
}

/// Stores the stream at an index of those that the last call evicted from a bounded reassembly pool, or discarded in
/// it. Returns status 0, or 2 if there are fewer; then `evicted` is unchanged.
fn store_evicted(state: &BoundedState, index: usize, evicted: &mut EvictedStream) -> u32
    ensures { IsEvictedStored (slice_get (evicted_in state.now.pool) index) evicted.old evicted.new result }
{
    match state.pool.evicted().get(index) {
        Some(gone) => {
            *evicted = evicted_part(gone);
            numbers::OK
        }
        None => numbers::UNKNOWN_CHOICE,
    }
}
