//! Texts of the answers.

use crate::calls::{Answer, Pool};
use crate::words::cause_word;
use etherparse::defrag::{
    BoundedDefragError, DefragStatistics, IpDefragError, IpFragId, IpFragVersionSpecId,
};
use etherparse::err::packet::SliceError;
use std::alloc::{AllocError, Global};

/// Returns the text of the pool's answer to a frame: `none`, a payload with its IP protocol number, or an error. An
/// allocation that failed is returned as `Err`.
pub fn outcome_text(
    alloc: Global,
    outcome: Result<Answer, SliceError>,
) -> Result<String, AllocError> {
    match outcome {
        Err(_) => String::from_str(alloc, "err frame"),
        Ok(Ok(None)) => String::from_str(alloc, "none"),
        Ok(Ok(Some(payload))) => {
            let bytes = hex::encode(alloc, payload.payload.as_slice())?;
            format!(in alloc; "payload {} {bytes}", payload.ip_number.0)
        }
        Ok(Err(BoundedDefragError::Discarded)) => String::from_str(alloc, "err discarded"),
        Ok(Err(BoundedDefragError::OverBudget)) => String::from_str(alloc, "err over-budget"),
        Ok(Err(BoundedDefragError::Rejected(error))) => refusal_text(alloc, error),
    }
}

/// Returns the text of an error of a fragment that does not fit: `err`, a word, and its numbers.
fn refusal_text(alloc: Global, error: IpDefragError) -> Result<String, AllocError> {
    match error {
        IpDefragError::UnalignedFragmentPayloadLen {
            offset,
            payload_len,
        } => format!(in alloc; "err unaligned {} {payload_len}", offset.value()),
        IpDefragError::SegmentTooBig {
            offset,
            payload_len,
            max,
        } => format!(in alloc; "err too-big {} {payload_len} {max}", offset.value()),
        IpDefragError::ConflictingEnd {
            previous_end,
            conflicting_end,
        } => format!(in alloc; "err conflict {previous_end} {conflicting_end}"),
        IpDefragError::AllocationFailure { .. } => Err(AllocError),
    }
}

/// Returns the text of what the last call evicted or discarded: for each stream its identifier, the cause, and the time
/// of its first fragment. It is `none` if there is no such stream.
pub fn evicted_text(alloc: Global, pool: &Pool) -> Result<String, AllocError> {
    let mut text = String::new(alloc);
    for evicted in pool.evicted() {
        if !text.is_empty() {
            text.push_str(" ")?;
        }
        push_id(alloc, &mut text, &evicted.id)?;
        let cause = cause_word(evicted.cause);
        text.push_str(format!(in alloc; ":{cause}:{}", evicted.first)?.as_str())?;
    }
    if text.is_empty() {
        text.push_str("none")?;
    }
    Ok(text)
}

/// Appends an identifier: its IP version, addresses and identification, the protocol number, the channel, and the VLAN
/// identifiers, each after a comma.
fn push_id(alloc: Global, text: &mut String, id: &IpFragId<u64>) -> Result<(), AllocError> {
    let ip = match &id.ip {
        IpFragVersionSpecId::Ipv4 {
            source,
            destination,
            identification,
        } => {
            let source = hex::encode(alloc, source.as_slice())?;
            let destination = hex::encode(alloc, destination.as_slice())?;
            format!(in alloc; "4,{source},{destination},{identification}")?
        }
        IpFragVersionSpecId::Ipv6 {
            source,
            destination,
            identification,
        } => {
            let source = hex::encode(alloc, source.as_slice())?;
            let destination = hex::encode(alloc, destination.as_slice())?;
            format!(in alloc; "6,{source},{destination},{identification}")?
        }
    };
    text.push_str(ip.as_str())?;
    let rest = format!(in alloc; ",{},{}", id.payload_ip_number.0, id.channel_id)?;
    text.push_str(rest.as_str())?;
    for vlan_id in id.vlan_ids.as_slice() {
        text.push_str(format!(in alloc; ",{}", vlan_id.value())?.as_str())?;
    }
    Ok(())
}

/// Returns the text of what a pool holds and counts: the numbers of open streams, of discarded streams and of bytes,
/// and its counters in their order.
pub fn state_text(alloc: Global, pool: &Pool) -> Result<String, AllocError> {
    let (open, discarded, held) = (
        pool.stream_count(),
        pool.discarded_count(),
        pool.held_bytes(),
    );
    let mut text = format!(in alloc; "{open} {discarded} {held}")?;
    for counter in counters_of(pool.statistics()) {
        text.push_str(format!(in alloc; " {counter}")?.as_str())?;
    }
    Ok(text)
}

/// Returns the counters of a pool, in the order of their fields.
fn counters_of(statistics: DefragStatistics) -> [u64; 14] {
    [
        statistics.begun,
        statistics.completed,
        statistics.discarded,
        statistics.expired,
        statistics.evicted_for_streams,
        statistics.evicted_for_bytes,
        statistics.removed,
        statistics.accepted,
        statistics.rejected_unaligned,
        statistics.rejected_too_big,
        statistics.rejected_conflicting_end,
        statistics.rejected_out_of_memory,
        statistics.rejected_discarded,
        statistics.rejected_over_budget,
    ]
}
