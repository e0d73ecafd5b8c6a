//! Counters of a bounded reassembly pool.

ghost use Rattle.std.specs.Prelude.{◌≡◌};
ghost use Rattle.ep_defrag.specs.BoundedCounts.{counted};

use crate::bounded_defrag_error::BoundedDefragError;
use crate::departure::Departure;
use crate::evicted_stream::EvictionCause;
use crate::ip_defrag_error::IpDefragError;
use crate::ip_defrag_payload_vec::IpDefragPayloadVec;

/// Counters of a bounded reassembly pool since it was created. A counter that reached `u64::MAX` stays there.
///
/// `begun` is the sum of `completed`, `discarded`, `expired`, `evicted_for_streams`, `evicted_for_bytes`, `removed` and
/// the number of open streams. The identifiers of discarded streams leave the table later, which is not counted again.
#[derive(Clone, Copy, Debug, PartialEq, Eq)]
pub struct DefragStatistics {
    /// Streams that began with an accepted fragment.
    pub begun: u64,
    /// Streams whose payload was returned.
    pub completed: u64,
    /// Streams that were discarded because two versions of their payload arrived.
    pub discarded: u64,
    /// Open streams that were evicted for their age, or by `expire`.
    pub expired: u64,
    /// Open streams that were evicted because there were too many streams.
    pub evicted_for_streams: u64,
    /// Open streams that were evicted because all streams, or the stream alone, used too much memory.
    pub evicted_for_bytes: u64,
    /// Open streams that `remove` or `clear` removed.
    pub removed: u64,
    /// Fragments that were answered without an error.
    pub accepted: u64,
    /// Fragments that were rejected with `UnalignedFragmentPayloadLen`.
    pub rejected_unaligned: u64,
    /// Fragments that were rejected with `SegmentTooBig`.
    pub rejected_too_big: u64,
    /// Fragments that were rejected with `ConflictingEnd`.
    pub rejected_conflicting_end: u64,
    /// Fragments for which an allocation failed.
    pub rejected_out_of_memory: u64,
    /// Fragments that were rejected with `Discarded`.
    pub rejected_discarded: u64,
    /// Fragments that were rejected with `OverBudget`.
    pub rejected_over_budget: u64,
}

impl DefragStatistics {
    ghost use Rattle.ep_defrag.specs.BoundedCounts.{FitCounters, no_statistics, with_gone, with_departure, with_answer, with_rejected};

    /// Returns counters that are all 0.
    pub(crate) fn new() -> DefragStatistics
        ensures { result ≡ no_statistics }
    {
        DefragStatistics {
            begun: 0,
            completed: 0,
            discarded: 0,
            expired: 0,
            evicted_for_streams: 0,
            evicted_for_bytes: 0,
            removed: 0,
            accepted: 0,
            rejected_unaligned: 0,
            rejected_too_big: 0,
            rejected_conflicting_end: 0,
            rejected_out_of_memory: 0,
            rejected_discarded: 0,
            rejected_over_budget: 0,
        }
    }

    /// States that each counter fits 64 bits.
    #[inline]
    pub(crate) fn fit(self)
        ensures { FitCounters self }
    {}

    /// Counts an open stream that was evicted or discarded.
    pub(crate) fn count_gone(&mut self, cause: EvictionCause)
        ensures { self.new ≡ with_gone self.old cause }
    {
        match cause {
            EvictionCause::Expired => count(&mut self.expired),
            EvictionCause::Overlap => count(&mut self.discarded),
            EvictionCause::Streams => count(&mut self.evicted_for_streams),
            EvictionCause::Bytes => count(&mut self.evicted_for_bytes),
        }
    }

    /// Counts an open stream that left the table.
    pub(crate) fn count_departure(&mut self, departure: Departure)
        ensures { self.new ≡ with_departure self.old departure }
    {
        match departure {
            Departure::Completed => count(&mut self.completed),
            Departure::Removed => count(&mut self.removed),
            Departure::Evicted(cause) => self.count_gone(cause),
        }
    }

    /// Counts a fragment by the answer that the pool returns for it.
    pub(crate) fn count_answer(
        &mut self,
        answer: &Result<Option<IpDefragPayloadVec>, BoundedDefragError>,
    )
        ensures { self.new ≡ with_answer self.old answer.now }
    {
        match answer {
            Ok(_) => count(&mut self.accepted),
            Err(BoundedDefragError::Rejected(error)) => self.count_rejected(error),
            Err(BoundedDefragError::Discarded) => count(&mut self.rejected_discarded),
            Err(BoundedDefragError::OverBudget) => count(&mut self.rejected_over_budget),
        }
    }

    /// Counts a fragment that does not fit, or for which an allocation failed.
    fn count_rejected(&mut self, error: &IpDefragError)
        ensures { self.new ≡ with_rejected self.old error.now }
    {
        match error {
            IpDefragError::UnalignedFragmentPayloadLen { .. } => count(
                &mut self.rejected_unaligned,
            ),
            IpDefragError::SegmentTooBig { .. } => count(&mut self.rejected_too_big),
            IpDefragError::ConflictingEnd { .. } => count(&mut self.rejected_conflicting_end),
            IpDefragError::AllocationFailure { .. } => count(&mut self.rejected_out_of_memory),
        }
    }
}

/// Adds 1 to a counter, unless it has its greatest value.
pub(crate) fn count(counter: &mut u64)
    ensures { counter.new ≡ counted counter.old 1 }
{
    *counter = counter.saturating_add(1);
}
