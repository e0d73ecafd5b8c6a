//! Running of a whole list of calls (frames as bytes, drops, returned payloads) on a new reassembly pool, by one
//! function.

ghost use Rattle.std.specs.Prelude.{◌≡◌, ◌<◌, ℕ, Bool, List, take, map, length, slice_get, Option, Some, IsFalse, IfOk, IfErr, OnOk, OnErr, MatchResult};
ghost use Rattle.std.specs.List.{All, HoldsAt};
ghost use Rattle.ep_base.specs.Tables.{IsDecided};
ghost use Rattle.ep_packet.specs.Layers.{layers_of};
ghost use Rattle.ep_packet.specs.Frame.{IsFrame};
ghost use Rattle.ep_packet.specs.FrameRefusals.{RefusesFrame};
ghost use Rattle.ep_defrag.specs.PayloadCuts.{IsCut};
ghost use Rattle.ep_defrag.specs.Calls.{Call, Kept, table_after, accepted_at};
ghost use Rattle.ep_defrag.specs.Pools.{limit_of, HoldsTable, IsDecidedBy};
ghost use Rattle.ep_defrag.specs.FrameCalls.{ReadCall, calls_pool, IsReadAs, IsOnlyRead, AreReadAs, AreRead, pool_calls, read_answer_to, frame_answers_to, IfFramePayloadReturned, FrameCallMayNeedMemory, read_answer, frame_answer_is_allocation_failure, table_with_read, read_of};

use crate::ip_defrag_payload_vec::IpDefragPayloadVec;
use crate::ip_defrag_pool::IpDefragPool;
use crate::ip_frag_id::IpFragId;
use crate::pool_run::{PoolAnswer, PoolCall, answer_next};
use crate::run::RunStop;
use ep_packet::err::SliceError;
use ep_packet::{Entry, SlicedPacket};
use std::alloc::{AllocError, Global};
use std::hash::Hash;

/// One call that `run_frames` performs on a reassembly pool: it processes a frame given as bytes, drops streams, or
/// gives the memory of a payload back to the pool.
#[derive(Debug, Drop)]
pub enum FrameCall<'a, Timestamp, CustomChannelId, V> {
    /// A frame that is to be sliced, and whose fragment, if it carries one, is added to its stream in the reassembly
    /// pool.
    Frame {
        /// Header that the bytes of the frame start with, at which slicing begins.
        entry: Entry,
        /// Bytes of the frame, starting with the header that `entry` names.
        bytes: &'a [u8],
        /// Time at which the frame arrived, in the caller's own type. A stream keeps the timestamp of its last accepted
        /// fragment.
        timestamp: Timestamp,
        /// Caller's own value that keeps fragments of different sources apart, for example the number of a capture
        /// device.
        channel_id: CustomChannelId,
    },
    /// Drop of streams (incomplete datagrams). `run_frames` calls its argument `keep` with this value and the timestamp
    /// of each stream, and drops each stream for which `keep` returns false.
    Drop(V),
    /// Gives a reassembled payload back to the reassembly pool, which uses its memory for later streams.
    Return(IpDefragPayloadVec),
}

/// The result of one [`FrameCall`] on a reassembly pool.
#[derive(Debug, PartialEq, Eq, Drop)]
pub enum FrameAnswer {
    /// The bytes of the frame can't be sliced, with the slicing error. The reassembly pool did not see the frame.
    NotSliced(SliceError),
    /// Result that the reassembly pool returned for a frame that was sliced, for a drop of streams, or for a returned
    /// payload.
    Pool(PoolAnswer),
}

/// Performs a list of calls in order on a new reassembly pool with a limit of 65535 bytes per payload. Returns the
/// result of each call, in order, and the pool. Each frame is sliced, starting with the header that its `entry` names.
/// If slicing fails, the result of the call is the slicing error, and the pool does not get the frame.
///
/// A stream is the fragments of one IP datagram. A call `Drop(value)` drops each stream for which `keep`, called with
/// `value` and the timestamp of the stream, returns false.
///
/// The results for a stream don't depend on other streams. Every open stream can still be completed
/// (law `two_frames_complete`).
///
/// # Errors
///
/// `RunStop`, only if an allocation fails.
pub fn run_frames<
    Timestamp: Drop,
    CustomChannelId: Eq + Hash + Drop,
    V: Drop,
    F: Fn(&V, &Timestamp) -> bool + Drop,
>(
    alloc: Global,
    calls: Vec<FrameCall<Timestamp, CustomChannelId, V>>,
    keep: F,
) -> Result<(Vec<FrameAnswer>, IpDefragPool<Timestamp, CustomChannelId>), RunStop>
    requires { F.IsAlwaysCallable keep }
    // Each call made was read as a call on the pool, or is a frame that is rejected.
    ensures read { MatchResult result
        (λ _. AreRead calls.entry.items) (λ stop. AreRead (take stop.at calls.entry.items)) }

    // The answers and the contents of the pool, if drops are decided by a function of value and timestamp.
    ensures answers { IfOk result (λ run. (reads : List (ReadCall Timestamp CustomChannelId V)) →
        AreReadAs calls.entry.items reads → (decide : V → Timestamp → Bool) → IsDecidedBy F.Fn keep decide →
        map read_answer run.0.items ≡ frame_answers_to 65535 CustomChannelId.eq decide reads) }
    ensures limit { IfOk result (λ run. limit_of run.1 ≡ 65535) }
    ensures holds { IfOk result (λ run. (reads : List (ReadCall Timestamp CustomChannelId V)) →
        AreReadAs calls.entry.items reads → (decide : V → Timestamp → Bool) → IsDecidedBy F.Fn keep decide →
        HoldsTable CustomChannelId.eq run.1 (table_after 65535 CustomChannelId.eq decide (pool_calls reads))) }

    // If all fragments of a stream since it last began are cuts of one payload, the payload returned is that payload.
    ensures cuts { IfOk result (λ run. (reads : List (ReadCall Timestamp CustomChannelId V)) →
        AreReadAs calls.entry.items reads → (decide : V → Timestamp → Bool) → IsDecidedBy F.Fn keep decide →
        (at : ℕ) (brought : Call Timestamp CustomChannelId V) (answer : FrameAnswer) →
        slice_get reads at ≡ Some (calls_pool brought) → slice_get run.0.items at ≡ Some answer →
        (payload : List ℕ) → All (IsCut payload) (accepted_at
        (table_after 65535 CustomChannelId.eq decide (pool_calls (take at reads))) brought) →
        IfFramePayloadReturned (read_answer answer) (λ returned. returned.bytes ≡ payload)) }

    // No answer is an allocation failure, and a run that stops after the first call stops at a frame whose fragment
    // fits and is not in place.
    ensures no_memory { IfOk result (λ run. All (λ answer. IsFalse (frame_answer_is_allocation_failure answer))
        run.0.items) }
    ensures within { IfErr result (λ stop. stop.at < length calls.entry.items) }
    ensures stopped { IfErr result (λ stop. 0 < stop.at →
        (reads : List (ReadCall Timestamp CustomChannelId V)) → AreReadAs (take stop.at calls.entry.items) reads →
        (decide : V → Timestamp → Bool) → IsDecidedBy F.Fn keep decide →
        HoldsAt (FrameCallMayNeedMemory 65535 (table_after 65535 CustomChannelId.eq decide (pool_calls reads)))
        calls.entry.items stop.at) }
{
    let Ok(mut answers) = Vec::with_capacity(alloc, calls.len()) else {
        return Err(RunStop { at: 0 });
    };
    let mut pool = IpDefragPool::new(alloc);
    for call in calls {
        let at = answers.len();
        let Ok(answer) = answer_frame(&mut pool, call, &keep) else {
            return Err(RunStop { at });
        };
        answers.push(answer).unwrap();
    }
    Ok((answers, pool))
}

/// Performs one call on the reassembly pool and returns its result. If the frame of the call can't be sliced, the
/// result is the slicing error. Returns `Err` only if an allocation failed.
fn answer_frame<
    Timestamp: Drop,
    CustomChannelId: Eq + Hash + Drop,
    V: Drop,
    F: Fn(&V, &Timestamp) -> bool,
>(
    pool: &mut IpDefragPool<Timestamp, CustomChannelId>,
    call: FrameCall<Timestamp, CustomChannelId, V>,
    keep: &F,
) -> Result<FrameAnswer, AllocError>
    requires { F.IsAlwaysCallable keep.now }
    ensures read { (read : ReadCall Timestamp CustomChannelId V) × IsOnlyRead call.entry read }
    ensures answer { IfOk result (λ answer. (read : ReadCall Timestamp CustomChannelId V) → IsReadAs call.entry read →
        (table : IpFragId CustomChannelId → Option (Kept Timestamp)) → HoldsTable CustomChannelId.eq pool.old table →
        read_answer answer ≡ read_answer_to (limit_of pool.old) table read) }
    ensures holds { OnOk result ((read : ReadCall Timestamp CustomChannelId V) → IsReadAs call.entry read →
        (decide : V → Timestamp → Bool) → IsDecidedBy F.Fn keep.now decide →
        (table : IpFragId CustomChannelId → Option (Kept Timestamp)) → HoldsTable CustomChannelId.eq pool.old table →
        HoldsTable CustomChannelId.eq pool.new
        (table_with_read (limit_of pool.old) CustomChannelId.eq decide table read)) }
    ensures limit { OnOk result (limit_of pool.new ≡ limit_of pool.old) }
    ensures no_memory { IfOk result (λ answer. IsFalse (frame_answer_is_allocation_failure answer)) }
    ensures memory { OnErr result ((table : IpFragId CustomChannelId → Option (Kept Timestamp)) →
        HoldsTable CustomChannelId.eq pool.old table → FrameCallMayNeedMemory (limit_of pool.old) table call.entry) }
{
    match read(call) {
        Ok(call) => Ok(FrameAnswer::Pool(answer_next(pool, call, keep)?)),
        Err(error) => Ok(FrameAnswer::NotSliced(error)),
    }
}

/// Slices the frame of a call, if the call has one, and returns the call with the sliced packet in place of the bytes.
/// It returns an error if the frame can't be sliced. A drop or a returned payload stays unchanged.
fn read<'a, Timestamp: Drop, CustomChannelId: Drop, V>(
    call: FrameCall<'a, Timestamp, CustomChannelId, V>,
) -> Result<PoolCall<'a, Timestamp, CustomChannelId, V>, SliceError>
    ensures { IsOnlyRead call.entry (read_of result) }
{
    match call {
        FrameCall::Frame {
            entry,
            bytes,
            timestamp,
            channel_id,
        } => {
            let packet = slice_at(entry, bytes)?;
            Ok(PoolCall::Frame {
                packet,
                timestamp,
                channel_id,
            })
        }
        FrameCall::Drop(value) => Ok(PoolCall::Drop(value)),
        FrameCall::Return(buf) => Ok(PoolCall::Return(buf)),
    }
}

/// Slices a frame whose bytes start with the header that `entry` names.
fn slice_at<'a>(entry: Entry, bytes: &'a [u8]) -> Result<SlicedPacket<'a>, SliceError>
    ensures ok { IfOk result (λ packet. IsFrame entry bytes.now (layers_of packet)) }
    ensures err { IfErr result (RefusesFrame entry bytes.now) }
    ensures decided { IsDecided (IsFrame entry bytes.now) (RefusesFrame entry bytes.now) }
{
    ep_packet::laws::frames();
    SlicedPacket::from_entry(entry, bytes)
}
