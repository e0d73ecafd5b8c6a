//! The answer line to a request line.

ghost use Rattle.std.specs.Prelude.{◌≡◌, ◌∷◌, ◌++◌, [], ℕ, List, OnOk};
ghost use Rattle.line_io.specs.Lines.{line_feed};
ghost use Rattle.frame_bench.specs.Answers.{IsAnswer};
ghost use Rattle.frame_bench.specs.LineCalls.{PoolHistory, IsAfterRequest, HoldsHistory, HoldsLines};
ghost use Rattle.frame_bench.specs.Replies.{IsReply};

use crate::pool_replies::{drop_below, push_fragment};
use crate::requests::{Request, parse};
use crate::slice_replies::push_slice;
use etherparse::defrag::IpDefragPool;
use std::alloc::{AllocError, Global};

/// Appends the answer to a request line, and a line feed. The reassembly pool must be as all earlier lines left it. The
/// contents of `bytes` are overwritten, and a `limit` line allocates its new pool from `alloc`.
pub fn push_line(
    alloc: Global,
    output: &mut Vec<u8>,
    pool: &mut IpDefragPool<u64, u64>,
    line: &[u8],
    bytes: &mut Vec<u8>,
) -> Result<(), AllocError>
    ensures answer { OnOk result ((before : List (List ℕ)) → HoldsLines before pool.old → (answer : List ℕ)
        × IsAnswer before line.now answer × (output.new.items ≡ output.old.items ++ (answer ++ line_feed ∷ []))) }
    ensures holds { OnOk result ((before : List (List ℕ)) → HoldsLines before pool.old →
        HoldsLines (before ++ line.now ∷ []) pool.new) }
{
    push_answer(alloc, output, pool, line, bytes)?;
    output.push(b'\n')?;
    Ok(())
}

/// Appends the answer to a request line, without a line feed, or `err line` if the line is not a request.
fn push_answer(
    alloc: Global,
    output: &mut Vec<u8>,
    pool: &mut IpDefragPool<u64, u64>,
    line: &[u8],
    bytes: &mut Vec<u8>,
) -> Result<(), AllocError>
    ensures answer { OnOk result ((before : List (List ℕ)) → HoldsLines before pool.old → (answer : List ℕ)
        × IsAnswer before line.now answer × (output.new.items ≡ output.old.items ++ answer)) }
    ensures holds { OnOk result ((before : List (List ℕ)) → HoldsLines before pool.old →
        HoldsLines (before ++ line.now ∷ []) pool.new) }
{
    match parse(line, bytes)? {
        Some(request) => push_reply(alloc, output, pool, request, bytes.as_slice()),
        None => output.extend_from_slice(b"err line"),
    }
}

/// Appends the answer to a parsed request. For a `slice` or `frag` request, `bytes` is the frame. A `frag` or `drop`
/// request can change the reassembly pool, and a `limit` request replaces it.
fn push_reply(
    alloc: Global,
    output: &mut Vec<u8>,
    pool: &mut IpDefragPool<u64, u64>,
    request: Request,
    bytes: &[u8],
) -> Result<(), AllocError>
    ensures reply { OnOk result ((history : PoolHistory) → HoldsHistory history pool.old → (reply : List ℕ)
        × IsReply history request bytes.now reply × (output.new.items ≡ output.old.items ++ reply)) }
    ensures holds { OnOk result ((history : PoolHistory) → HoldsHistory history pool.old → (after : PoolHistory)
        × IsAfterRequest history request bytes.now after × HoldsHistory after pool.new) }
{
    match request {
        Request::Slice(entry) => push_slice(output, entry, bytes),
        Request::Fragment {
            entry,
            timestamp,
            channel,
        } => push_fragment(output, pool, entry, timestamp, channel, bytes),
        Request::Drop { timestamp } => {
            drop_below(pool, timestamp);
            output.extend_from_slice(b"ok")
        }
        Request::Limit { max } => {
            *pool = IpDefragPool::with_limit(alloc, max);
            output.extend_from_slice(b"ok")
        }
    }
}
