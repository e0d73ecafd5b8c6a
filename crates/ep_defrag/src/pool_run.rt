//! Running of a whole list of calls (sliced packets, drops, returned payloads) on a new reassembly pool, by one
//! function.

ghost use Rattle.std.specs.Prelude.{◌≡◌, Bool, Option, IsFalse, IfOk, OnOk, OnErr};
ghost use Rattle.ep_defrag.specs.Calls.{Kept, table_with, answer_to, CallMayNeedMemory};
ghost use Rattle.ep_defrag.specs.Pools.{limit_of, HoldsTable, IsDecidedBy, RunsCalls, plain_call, plain_answer, is_allocation_failure_in, answer_is_allocation_failure};

use crate::MAX_IP_DEFRAG_LEN_U16;
use crate::ip_defrag_error::IpDefragError;
use crate::ip_defrag_payload_vec::IpDefragPayloadVec;
use crate::ip_defrag_pool::IpDefragPool;
use crate::ip_frag_id::IpFragId;
use crate::run::RunStop;
use ep_packet::SlicedPacket;
use std::alloc::{AllocError, Global};
use std::hash::Hash;

/// One call on a reassembly pool, in a list of calls that `run_calls` performs: a sliced packet, a drop of streams, or
/// the return of a payload's memory.
#[derive(Debug, Drop)]
pub enum PoolCall<'a, Timestamp, CustomChannelId, V> {
    /// A sliced packet whose fragment, if it carries one, is added to its stream in the reassembly pool.
    Frame {
        /// Layers of the packet, as slicing returned them.
        packet: SlicedPacket<'a>,
        /// Time at which the packet arrived, in the caller's own type. A stream keeps the timestamp of its last
        /// accepted fragment.
        timestamp: Timestamp,
        /// Caller's own value that keeps fragments of different sources apart, for example the number of a capture
        /// device.
        channel_id: CustomChannelId,
    },
    /// Drop of streams (incomplete datagrams). `run_calls` calls its argument `keep` with this value and the timestamp
    /// of each stream, and drops each stream for which `keep` returns false.
    Drop(V),
    /// Gives a reassembled payload back to the reassembly pool, which uses its memory for later streams.
    Return(IpDefragPayloadVec),
}

/// The result of one [`PoolCall`] on a reassembly pool.
#[derive(Debug, PartialEq, Eq, Drop)]
pub enum PoolAnswer {
    /// Result of a sliced packet: the reassembled payload if its fragment completes it, `None` if not, or the error
    /// that rejects the fragment.
    Frame(Result<Option<IpDefragPayloadVec>, IpDefragError>),
    /// Result of a call that drops streams, which always succeeds.
    Dropped,
    /// Result of a call that gives a payload back to the pool, which always succeeds.
    Returned,
}

/// Performs a list of calls in order on a new reassembly pool with a limit of 65535 bytes per payload. Returns the
/// result of each call, in order, and the pool. A call that drops streams carries a value: it removes each stream for
/// which `keep`, called with this value and the timestamp of the stream, returns false. A stream is the fragments of
/// one IP datagram.
///
/// The results for a stream don't depend on other streams. Every open stream can still be completed
/// (law `two_frames_complete`).
///
/// # Errors
///
/// `RunStop`, only if an allocation fails.
pub fn run_calls<
    Timestamp: Drop,
    CustomChannelId: Eq + Hash + Drop,
    V: Drop,
    F: Fn(&V, &Timestamp) -> bool + Drop,
>(
    alloc: Global,
    calls: Vec<PoolCall<Timestamp, CustomChannelId, V>>,
    keep: F,
) -> Result<(Vec<PoolAnswer>, IpDefragPool<Timestamp, CustomChannelId>), RunStop>
    requires { F.IsAlwaysCallable keep }
    ensures { RunsCalls F.Fn keep CustomChannelId.eq 65535 calls.entry.items result }
{
    run_calls_with_limit(alloc, MAX_IP_DEFRAG_LEN_U16, calls, keep)
}

/// Performs a list of calls in order, as [`run_calls`] does, on a new reassembly pool with a limit of `max` bytes per
/// payload ([`IpDefragPool::with_limit`]). Every open stream can still be completed, if `max` is at least 8.
pub fn run_calls_with_limit<
    Timestamp: Drop,
    CustomChannelId: Eq + Hash + Drop,
    V: Drop,
    F: Fn(&V, &Timestamp) -> bool + Drop,
>(
    alloc: Global,
    max: u16,
    calls: Vec<PoolCall<Timestamp, CustomChannelId, V>>,
    keep: F,
) -> Result<(Vec<PoolAnswer>, IpDefragPool<Timestamp, CustomChannelId>), RunStop>
    requires { F.IsAlwaysCallable keep }
    ensures { RunsCalls F.Fn keep CustomChannelId.eq max calls.entry.items result }
{
    let Ok(mut answers) = Vec::with_capacity(alloc, calls.len()) else {
        return Err(RunStop { at: 0 });
    };
    let mut pool = IpDefragPool::with_limit(alloc, max);
    for call in calls {
        let at = answers.len();
        let Ok(answer) = answer_next(&mut pool, call, &keep) else {
            return Err(RunStop { at });
        };
        answers.push(answer).unwrap();
    }
    Ok((answers, pool))
}

/// Performs one call on the reassembly pool and returns its result. Returns `Err` only if an allocation failed.
pub(crate) fn answer_next<
    Timestamp: Drop,
    CustomChannelId: Eq + Hash + Drop,
    V: Drop,
    F: Fn(&V, &Timestamp) -> bool,
>(
    pool: &mut IpDefragPool<Timestamp, CustomChannelId>,
    call: PoolCall<Timestamp, CustomChannelId, V>,
    keep: &F,
) -> Result<PoolAnswer, AllocError>
    requires { F.IsAlwaysCallable keep.now }
    ensures answer { IfOk result (λ answer. (table : IpFragId CustomChannelId → Option (Kept Timestamp)) →
        HoldsTable CustomChannelId.eq pool.old table →
        plain_answer answer ≡ answer_to (limit_of pool.old) table (plain_call call.entry)) }
    ensures holds { OnOk result ((decide : V → Timestamp → Bool) → IsDecidedBy F.Fn keep.now decide →
        (table : IpFragId CustomChannelId → Option (Kept Timestamp)) → HoldsTable CustomChannelId.eq pool.old table →
        HoldsTable CustomChannelId.eq pool.new
        (table_with (limit_of pool.old) CustomChannelId.eq decide table (plain_call call.entry))) }
    ensures limit { OnOk result (limit_of pool.new ≡ limit_of pool.old) }
    ensures no_memory { IfOk result (λ answer. IsFalse (answer_is_allocation_failure answer)) }
    ensures memory { OnErr result ((table : IpFragId CustomChannelId → Option (Kept Timestamp)) →
        HoldsTable CustomChannelId.eq pool.old table →
        CallMayNeedMemory (limit_of pool.old) table (plain_call call.entry)) }
{
    match call {
        PoolCall::Frame {
            packet,
            timestamp,
            channel_id,
        } => {
            let answer = pool.process_sliced_packet(&packet, timestamp, channel_id);
            if failed_to_allocate(&answer) {
                return Err(AllocError);
            }
            Ok(PoolAnswer::Frame(answer))
        }
        PoolCall::Drop(value) => {
            pool.retain(|timestamp| keep(&value, timestamp));
            Ok(PoolAnswer::Dropped)
        }
        PoolCall::Return(buf) => {
            pool.return_buf(buf);
            Ok(PoolAnswer::Returned)
        }
    }
}

/// Returns whether the pool's result for a packet is the error that an allocation failed.
fn failed_to_allocate(answer: &Result<Option<IpDefragPayloadVec>, IpDefragError>) -> bool
    ensures { result ≡ is_allocation_failure_in answer.now }
{
    matches!(answer, Err(error) if error.is_allocation_failure())
}
