//! Calls for C that reassemble IP fragments in a pool whose address C holds.

ghost use Rattle.std.specs.Prelude.{◌≡◌, None, Ok, Some, is_some, nat_le, true};
ghost use Rattle.etherparse_c.specs.SliceAnswers.{entry_of};
ghost use Rattle.etherparse_c.specs.PoolAnswers.{Changes, Discards, DropsOlder, IsEmptyState, IsNewPool, IsPushAnswer};
ghost use Rattle.etherparse_c.specs.PoolAnswers.{IsPushed, IsTakeAnswer, IsTakenWith, ReturnsNumber, ReturnsPayload};
ghost use Rattle.etherparse_c.specs.PoolAnswers.{bytes_in, empty_answer, payload_answer, error_answer, refused_status};
ghost use Rattle.etherparse_c.specs.PoolAnswers.{streams_in};

use crate::describing::{no_refusal, source_number};
use crate::handle::Handle;
use crate::numbers;
use crate::owned_pool::OwnedPool;
use crate::placing::copy_bytes;
use crate::pool::Pool;
use crate::pool_answer::PoolAnswer;
use crate::raw_box::RawBox;
use crate::refusing::refusal_part;
use crate::slicing::entry_of;
use crate::state::State;
use crate::state_pointer::StatePointer;
use etherparse::defrag::{IpDefragError, IpDefragPayloadVec, IpDefragPool};
use etherparse::{Entry, SlicedPacket};
use std::alloc::Global;
use std::mem::replace;

/// Creates an empty reassembly pool and stores its address in `pool`. Reassembled payloads have at most 65535 bytes.
/// Returns status 0, or 5 if an allocation fails; then `pool` is unchanged.
#[unsafe(no_mangle)]
pub extern "C" fn etherparse_2_pool_new(alloc: Global, pool: &mut Handle) -> u32
    ensures { IsNewPool 65535 pool.old pool.new result }
{
    new_pool(alloc, 65_535, pool)
}

/// Creates an empty reassembly pool and stores its address in `pool`. Reassembled payloads have at most `limit` bytes.
/// Returns status 0, or 5 if an allocation fails; then `pool` is unchanged.
#[unsafe(no_mangle)]
pub extern "C" fn etherparse_2_pool_with_limit(alloc: Global, limit: u16, pool: &mut Handle) -> u32
    ensures { IsNewPool limit pool.old pool.new result }
{
    new_pool(alloc, limit, pool)
}

/// Frees a reassembly pool with all fragments and payloads in it.
#[unsafe(no_mangle)]
pub extern "C" fn etherparse_2_pool_free(pool: OwnedPool) {
    let OwnedPool { handle } = pool;
    let Pool { pointer } = Box::into_inner(handle.into_raw_box().into_box());
    let _ = pointer.into_raw_box().into_box();
}

/// Passes a frame, which may carry an IP fragment, to a reassembly pool. The caller chooses the numbers `timestamp` and
/// `channel`: old incomplete datagrams can be dropped by timestamp, and fragments of different channels are never
/// reassembled together. `entry` is the number of the frame's first header: 0 Ethernet II, 1 Linux cooked capture, 2
/// the header that `ether_type` identifies, 3 IP of either version.
///
/// Returns the status: 6 if the frame completes a payload, which is copied to the start of `buffer`; 3 if it completes
/// a payload that is longer than the buffer, and the pool keeps the payload until it is taken or discarded; 0 if it
/// completes none. With any other status the pool is unchanged: 2 if `entry` is above 3; otherwise 8 if the pool still
/// keeps an earlier complete payload; otherwise 1 if the bytes are not a valid frame, 7 if the fragment is rejected, 5
/// if an allocation fails. With any status but 6 the buffer is unchanged.
#[unsafe(no_mangle)]
pub extern "C" fn etherparse_2_pool_push(
    alloc: Global,
    pool: &mut Pool,
    entry: u32,
    ether_type: u16,
    bytes: &[u8],
    timestamp: u64,
    channel: u64,
    buffer: &mut [u8],
    answer: &mut PoolAnswer,
) -> u32
    ensures { Changes pool.old pool.new (λ old new. IsPushAnswer (entry_of entry ether_type) bytes.now timestamp
        channel old new buffer.old buffer.new answer.new result) }
{
    let mut state = take_state(alloc, &mut pool.pointer);
    let frame = TimedFrame {
        bytes,
        timestamp,
        channel,
    };
    let status = push(&mut state, entry, ether_type, frame, buffer, answer);
    pool.pointer = pointer_to(state);
    status
}

/// Copies a complete payload from a reassembly pool to the start of `buffer`; the pool keeps a payload for which an
/// earlier buffer was too small. Returns status 6 if the payload is copied; 3 if it is longer than `buffer`, and the
/// pool still keeps it; 0 if the pool keeps no complete payload. With any status but 6 the buffer is unchanged.
#[unsafe(no_mangle)]
pub extern "C" fn etherparse_2_pool_take(
    alloc: Global,
    pool: &mut Pool,
    buffer: &mut [u8],
    answer: &mut PoolAnswer,
) -> u32
    ensures { Changes pool.old pool.new (λ old new. IsTakeAnswer old new buffer.old buffer.new answer.new result) }
{
    let mut state = take_state(alloc, &mut pool.pointer);
    let status = copy_waiting_payload(&mut state.waiting, buffer, answer);
    pool.pointer = pointer_to(state);
    status
}

/// Discards the complete payload that a reassembly pool keeps because the caller's buffer was too small, if any.
/// Incomplete payloads are unchanged.
#[unsafe(no_mangle)]
pub extern "C" fn etherparse_2_pool_discard(alloc: Global, pool: &mut Pool)
    ensures { Changes pool.old pool.new Discards }
{
    let mut state = take_state(alloc, &mut pool.pointer);
    state.waiting = None;
    pool.pointer = pointer_to(state);
}

/// Drops from a reassembly pool each incomplete IP datagram whose last accepted fragment has a timestamp below
/// `timestamp`.
#[unsafe(no_mangle)]
pub extern "C" fn etherparse_2_pool_drop_older(alloc: Global, pool: &mut Pool, timestamp: u64)
    ensures { Changes pool.old pool.new (DropsOlder timestamp) }
{
    let mut state = take_state(alloc, &mut pool.pointer);
    drop_older(&mut state, timestamp);
    pool.pointer = pointer_to(state);
}

/// Returns the number of streams in a reassembly pool: IP datagrams that are incomplete, since only some of their
/// fragments were accepted.
#[unsafe(no_mangle)]
pub extern "C" fn etherparse_2_pool_streams(alloc: Global, pool: &mut Pool) -> usize
    ensures { Changes pool.old pool.new (ReturnsNumber streams_in result) }
{
    let state = take_state(alloc, &mut pool.pointer);
    let count = stream_count(&state);
    pool.pointer = pointer_to(state);
    count
}

/// Returns the number of payload bytes in a reassembly pool. For each incomplete datagram it counts the bytes from the
/// start of the payload to the greatest end of its fragments, gaps included; a complete payload that is not yet taken
/// counts in full. Takes time linear in the number of datagrams.
#[unsafe(no_mangle)]
pub extern "C" fn etherparse_2_pool_bytes(alloc: Global, pool: &mut Pool) -> usize
    ensures { Changes pool.old pool.new (ReturnsNumber bytes_in result) }
{
    let state = take_state(alloc, &mut pool.pointer);
    let count = held_bytes(&state);
    pool.pointer = pointer_to(state);
    count
}

/// Creates a reassembly pool for payloads of at most `limit` bytes and stores its address in `pool`. Returns status 0,
/// or 5 if an allocation fails; then `pool` is unchanged.
fn new_pool(alloc: Global, limit: u16, pool: &mut Handle) -> u32
    ensures { IsNewPool limit pool.old pool.new result }
{
    let Ok(state) = Box::new(alloc, empty_state(alloc, limit)) else {
        return numbers::OUT_OF_MEMORY;
    };
    let fresh = Pool {
        pointer: pointer_to(state),
    };
    let made = match Box::new(alloc, fresh) {
        Ok(made) => made,
        Err(failed) => {
            let Pool { pointer } = failed.value;
            let _ = pointer.into_raw_box().into_box();
            return numbers::OUT_OF_MEMORY;
        }
    };
    *pool = Handle::of(RawBox::of(made));
    numbers::OK
}

/// Returns the state of an empty reassembly pool for payloads of at most `limit` bytes.
fn empty_state(alloc: Global, limit: u16) -> State
    ensures { IsEmptyState limit result }
{
    State {
        pool: IpDefragPool::with_limit(alloc, limit),
        waiting: None,
    }
}

/// Returns the boxed state of a reassembly pool and leaves a null pointer in the pool.
fn take_state(alloc: Global, pointer: &mut StatePointer) -> Box<State>
    requires { is_some pointer.old.state ≡ true }
    ensures { Some result.value ≡ pointer.old.state }
{
    replace(pointer, StatePointer::none(alloc))
        .into_raw_box()
        .into_box()
}

/// Converts the boxed state of a reassembly pool to the pointer that the pool stores.
fn pointer_to(state: Box<State>) -> StatePointer
    ensures { result.state ≡ Some state.value }
{
    StatePointer::of(RawBox::of(state))
}

/// Frame that C passes to a reassembly pool, with its timestamp and channel (numbers of the caller's own).
#[derive(Drop)]
pub(crate) struct TimedFrame<'a> {
    pub(crate) bytes: &'a [u8],
    pub(crate) timestamp: u64,
    pub(crate) channel: u64,
}

/// Passes a frame to a reassembly pool and returns the status for C: 2 if `entry`, the number of the frame's first
/// header, is above 3; else 8 if the pool still keeps a complete payload, and the frame is not processed; else the
/// status of the processed frame (0, 1, 3, 5, 6 or 7).
fn push(
    state: &mut State,
    entry: u32,
    ether_type: u16,
    frame: TimedFrame<'_>,
    buffer: &mut [u8],
    answer: &mut PoolAnswer,
) -> u32
    ensures { let given = frame.entry in IsPushAnswer (entry_of entry ether_type) given.bytes.now
        given.timestamp given.channel state.old state.new buffer.old buffer.new answer.new result }
{
    *answer = empty_answer();
    let Some(entry) = entry_of(entry, ether_type) else {
        return numbers::UNKNOWN_CHOICE;
    };
    if let Some(payload) = &state.waiting {
        *answer = payload_answer(payload);
        return numbers::PAYLOAD_WAITS;
    }
    push_frame(state, entry, frame, buffer, answer)
}

/// Slices a frame and passes it to a reassembly pool that keeps no complete payload. Returns the status for C: 6 if the
/// frame completes a payload, or 3 if it completes one that is longer than the buffer; 0 if it completes none; 1 for an
/// invalid frame; 7 for a rejected fragment; 5 if an allocation fails.
fn push_frame(
    state: &mut State,
    entry: Entry,
    frame: TimedFrame<'_>,
    buffer: &mut [u8],
    answer: &mut PoolAnswer,
) -> u32
    requires answer { answer.old ≡ empty_answer }
    requires waiting { state.old.waiting ≡ None }
    ensures { let given = frame.entry in IsPushed entry given.bytes.now given.timestamp given.channel
        state.old state.new buffer.old buffer.new answer.new result }
{
    let packet = match SlicedPacket::from_entry(entry, frame.bytes) {
        Ok(packet) => packet,
        Err(error) => {
            answer.refusal = refusal_part(&error);
            return numbers::REFUSED;
        }
    };
    match state
        .pool
        .process_sliced_packet(&packet, frame.timestamp, frame.channel)
    {
        Ok(None) => numbers::OK,
        Ok(Some(payload)) => copy_payload(payload, &mut state.waiting, buffer, answer),
        Err(error) => store_fragment_refusal(&error, answer),
    }
}

/// Copies the complete payload that a reassembly pool keeps to the buffer. Returns status 6 if it is copied, 3 if the
/// buffer is too small (the payload is kept), or 0 if there is none.
pub(crate) fn copy_waiting_payload(
    waiting: &mut Option<IpDefragPayloadVec>,
    buffer: &mut [u8],
    answer: &mut PoolAnswer,
) -> u32
    ensures { IsTakenWith waiting.old waiting.new buffer.old buffer.new answer.new result }
{
    *answer = empty_answer();
    match replace(waiting, None) {
        Some(payload) => copy_payload(payload, waiting, buffer, answer),
        None => numbers::OK,
    }
}

/// Copies a complete reassembled payload to the caller's buffer and returns status 6. If the buffer is too small, the
/// pool keeps the payload, and the status is 3.
pub(crate) fn copy_payload(
    payload: IpDefragPayloadVec,
    waiting: &mut Option<IpDefragPayloadVec>,
    buffer: &mut [u8],
    answer: &mut PoolAnswer,
) -> u32
    requires { waiting.old ≡ None }
    ensures { ReturnsPayload payload waiting.new buffer.old buffer.new answer.new result }
{
    *answer = payload_answer(&payload);
    let mut len = 0;
    if copy_bytes(payload.payload.as_slice(), buffer, &mut len) == numbers::OK {
        return numbers::COMPLETE;
    }
    *waiting = Some(payload);
    numbers::TOO_SMALL
}

/// Returns the result of a pool call with neither a payload nor an error: all fields are 0.
pub(crate) fn empty_answer() -> PoolAnswer
    ensures { result ≡ empty_answer }
{
    PoolAnswer {
        refusal: no_refusal(),
        fragment_refusal: 0,
        len_source: 0,
        ip_number: 0,
        len: 0,
    }
}

/// Returns the result of a pool call for a complete reassembled payload: its length, IP protocol number and length
/// source.
pub(crate) fn payload_answer(payload: &IpDefragPayloadVec) -> PoolAnswer
    ensures { result ≡ payload_answer payload.now }
{
    PoolAnswer {
        refusal: no_refusal(),
        fragment_refusal: 0,
        len_source: source_number(payload.len_source),
        ip_number: payload.ip_number.0,
        len: payload.payload.len(),
    }
}

/// Stores the number (1 to 3) of the reason why the reassembly pool rejects a fragment, and returns status 7; stores 0
/// and returns 5 if an allocation failed.
pub(crate) fn store_fragment_refusal(error: &IpDefragError, answer: &mut PoolAnswer) -> u32
    requires { answer.old ≡ empty_answer }
    ensures answer { answer.new ≡ error_answer error.now }
    ensures status { result ≡ refused_status error.now }
{
    let (number, status) = match error {
        IpDefragError::UnalignedFragmentPayloadLen { .. } => (1, numbers::FRAGMENT_REFUSED),
        IpDefragError::SegmentTooBig { .. } => (2, numbers::FRAGMENT_REFUSED),
        IpDefragError::ConflictingEnd { .. } => (3, numbers::FRAGMENT_REFUSED),
        IpDefragError::AllocationFailure { .. } => (0, numbers::OUT_OF_MEMORY),
    };
    answer.fragment_refusal = number;
    status
}

/// Drops from a reassembly pool each incomplete IP datagram whose last accepted fragment has a timestamp below
/// `timestamp`.
fn drop_older(state: &mut State, timestamp: u64)
    ensures { DropsOlder timestamp state.old state.new }
{
    state.pool.retain(
        |kept: &u64| -> bool
            ensures { result ≡ nat_le timestamp kept.now }
        { *kept >= timestamp },
    );
}

/// Returns the number of streams in a reassembly pool: IP datagrams that are not yet complete.
fn stream_count(state: &State) -> usize
    ensures { result ≡ streams_in state.now }
{
    state.pool.stream_count()
}

/// Returns the number of payload bytes in a reassembly pool: those of incomplete datagrams, and of a complete payload
/// that is not yet taken.
fn held_bytes(state: &State) -> usize
    ensures { result ≡ bytes_in state.now }
{
    let waiting = match &state.waiting {
        Some(payload) => payload.payload.len(),
        None => 0,
    };
    state.pool.held_bytes().saturating_add(waiting)
}
