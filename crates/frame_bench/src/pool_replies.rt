//! Answers to `frag` lines, which pass a frame to the reassembly pool, and the effect of `drop` lines.

ghost use Rattle.std.specs.Prelude.{◌≡◌, ◌∷◌, ◌++◌, [], nat_le, ℕ, IsFalse, List, OnOk};
ghost use Rattle.std.specs.Fmt.{decimal};
ghost use Rattle.etherparse.specs.Calls.{drops_streams, payload_returned};
ghost use Rattle.etherparse.specs.Pools.{plain_frame_answer, plain_payload, is_allocation_failure_in};
ghost use Rattle.etherparse.specs.FragmentRefusals.{is_allocation_failure};
ghost use Rattle.etherparse.specs.Types.IpDefragError.TheVariants.{SegmentTooBig};
ghost use Rattle.etherparse.specs.Layers.{layers_of};
ghost use Rattle.line_io.specs.Lines.{space};
ghost use Rattle.frame_bench.specs.LineCalls.{PoolHistory, IsAfterRequest, HoldsHistory, frame_call, with_call};
ghost use Rattle.frame_bench.specs.PoolReplies.{IsFragmentReply, call_reply, pool_answer_text, pool_error_text};
ghost use Rattle.frame_bench.specs.declared.requests.Request.TheVariants as request;

use crate::hex_text;
use crate::slice_replies::push_refusal;
use etherparse::defrag::{IpDefragError, IpDefragPayloadVec, IpDefragPool};
use etherparse::laws::defrag::one_more_call;
use etherparse::{Entry, SlicedPacket};
use line_io::decimals;
use std::alloc::AllocError;

/// Passes the frame of a `frag` line to the reassembly pool and appends the pool's answer, or appends the slicing error
/// if the bytes are not a frame. A reassembled payload is given back to the pool, which uses its memory again.
pub fn push_fragment(
    output: &mut Vec<u8>,
    pool: &mut IpDefragPool<u64, u64>,
    entry: Entry,
    timestamp: u64,
    channel: u64,
    bytes: &[u8],
) -> Result<(), AllocError>
    ensures reply { OnOk result ((history : PoolHistory) → HoldsHistory history pool.old → (reply : List ℕ)
        × IsFragmentReply history entry timestamp channel bytes.now reply
        × (output.new.items ≡ output.old.items ++ reply)) }
    ensures holds { OnOk result ((history : PoolHistory) → HoldsHistory history pool.old → (after : PoolHistory)
        × IsAfterRequest history (request.Fragment entry timestamp channel) bytes.now after
        × HoldsHistory after pool.new) }
{
    match SlicedPacket::from_entry(entry, bytes) {
        Ok(packet) => push_frame(output, pool, &packet, timestamp, channel),
        Err(error) => push_refusal(output, &error),
    }
}

/// Passes a sliced packet to the reassembly pool and appends the pool's answer: `none`, a payload, or the error of a
/// fragment.
fn push_frame(
    output: &mut Vec<u8>,
    pool: &mut IpDefragPool<u64, u64>,
    packet: &SlicedPacket<'_>,
    timestamp: u64,
    channel: u64,
) -> Result<(), AllocError>
    ensures reply { OnOk result ((history : PoolHistory) → HoldsHistory history pool.old → output.new.items
        ≡ output.old.items ++ call_reply history (frame_call (layers_of packet.now) timestamp channel)) }
    ensures holds { OnOk result ((history : PoolHistory) → HoldsHistory history pool.old →
        HoldsHistory (with_call history (frame_call (layers_of packet.now) timestamp channel)) pool.new) }
{
    one_more_call::<u64, u64, u64>();
    let answer = pool.process_sliced_packet(packet, timestamp, channel);
    push_pool_answer(output, &answer)?;
    give_back(pool, answer);
    Ok(())
}

/// Gives the reassembled payload in the pool's answer, if it has one, back to the pool, which uses its memory again.
fn give_back(
    pool: &mut IpDefragPool<u64, u64>,
    answer: Result<Option<IpDefragPayloadVec>, IpDefragError>,
)
    ensures { (history : PoolHistory) → HoldsHistory history pool.old → HoldsHistory history pool.new }
{
    if let Ok(Some(payload)) = answer {
        pool.return_buf(payload);
    }
}

/// Drops the incomplete datagrams of the reassembly pool whose last accepted fragment has a timestamp below
/// `timestamp`.
pub fn drop_below(pool: &mut IpDefragPool<u64, u64>, timestamp: u64)
    ensures { (history : PoolHistory) → HoldsHistory history pool.old →
        HoldsHistory (with_call history (drops_streams timestamp)) pool.new }
{
    one_more_call::<u64, u64, u64>();
    pool.retain(
        |kept: &u64| -> bool
            ensures { result ≡ nat_le timestamp kept.now }
        { *kept >= timestamp },
    );
}

/// Appends the reassembly pool's answer to a frame: `none`, a payload, or the error of a fragment. If the pool's answer
/// is an allocation failure, appends nothing and returns an error.
fn push_pool_answer(
    output: &mut Vec<u8>,
    answer: &Result<Option<IpDefragPayloadVec>, IpDefragError>,
) -> Result<(), AllocError>
    ensures memory { OnOk result (IsFalse (is_allocation_failure_in answer.now)) }
    ensures text { OnOk result (output.new.items
        ≡ output.old.items ++ pool_answer_text (plain_frame_answer answer.now)) }
{
    match answer {
        Ok(None) => output.extend_from_slice(b"none"),
        Ok(Some(payload)) => push_payload(output, payload),
        Err(error) => push_pool_error(output, error),
    }
}

/// Appends a reassembled payload: `payload`, its IP protocol number in decimal, and its bytes in hexadecimal.
fn push_payload(output: &mut Vec<u8>, payload: &IpDefragPayloadVec) -> Result<(), AllocError>
    ensures { OnOk result (output.new.items
        ≡ output.old.items ++ pool_answer_text (payload_returned (plain_payload payload.now))) }
{
    let number = payload.ip_number.0;
    decimals::push_with_text(output, b"payload ", u64::from(number))?;
    output.push(b' ')?;
    hex_text::push(output, payload.payload.as_slice())
}

/// Appends the line for a fragment that the reassembly pool rejected: `err`, a word for the error, and its numbers. If
/// `error` is an allocation failure, appends nothing and returns an error.
fn push_pool_error(output: &mut Vec<u8>, error: &IpDefragError) -> Result<(), AllocError>
    ensures memory { OnOk result (IsFalse (is_allocation_failure error.now)) }
    ensures text { OnOk result (output.new.items ≡ output.old.items ++ pool_error_text error.now) }
{
    match error {
        IpDefragError::SegmentTooBig {
            offset,
            payload_len,
            max,
        } => push_too_big(output, offset.value(), *payload_len, *max),
        IpDefragError::UnalignedFragmentPayloadLen {
            offset,
            payload_len,
        } => {
            let offset = offset.value();
            push_pair(
                output,
                b"err unaligned ",
                u64::from(offset),
                *payload_len as u64,
            )
        }
        IpDefragError::ConflictingEnd {
            previous_end,
            conflicting_end,
        } => {
            push_pair(
                output,
                b"err conflict ",
                u64::from(*previous_end),
                u64::from(*conflicting_end),
            )
        }
        IpDefragError::AllocationFailure { .. } => Err(AllocError),
    }
}

/// Appends the line for a fragment that ends above the limit of the reassembly pool: its offset in units of 8 bytes,
/// its length in bytes, and the limit.
fn push_too_big(
    output: &mut Vec<u8>,
    offset: u16,
    payload_len: usize,
    max: u16,
) -> Result<(), AllocError>
    ensures { OnOk result (output.new.items
        ≡ output.old.items ++ pool_error_text (SegmentTooBig offset payload_len max)) }
{
    push_pair(
        output,
        b"err too-big ",
        u64::from(offset),
        payload_len as u64,
    )?;
    decimals::push_with_text(output, b" ", u64::from(max))
}

/// Appends a text and two decimal numbers with a space between the numbers.
fn push_pair(output: &mut Vec<u8>, text: &[u8], first: u64, second: u64) -> Result<(), AllocError>
    ensures { OnOk result (output.new.items
        ≡ output.old.items ++ (text.now ++ (decimal first ++ space ∷ decimal second))) }
{
    decimals::push_with_text(output, text, first)?;
    decimals::push_with_text(output, b" ", second)
}
