//! Laws of the types of bounded reassembly pools. Each is the contract of a function that does nothing.

ghost use Rattle.std.specs.Prelude.{◌≡◌, ◌↔◌, ◌<◌, IsTrue};
ghost use Rattle.ep_defrag.specs.declared.bounded_limits.DefragLimits.{DefragLimits};
ghost use Rattle.ep_defrag.specs.declared.evicted_stream.EvictionCause.{EvictionCause};
ghost use Rattle.ep_defrag.specs.declared.bounded_limits.OverlapPolicy.{OverlapPolicy};
ghost use Rattle.ep_defrag.specs.declared.bounded_limits.TheConstants as constant;
ghost use Rattle.ep_defrag.specs.declared.defrag_statistics.DefragStatistics.{DefragStatistics};
ghost use Rattle.ep_defrag.specs.declared.bounded_defrag_error.BoundedDefragError.{BoundedDefragError};

use crate::bounded_defrag_error::BoundedDefragError;
use crate::bounded_limits::{DefragLimits, OverlapPolicy};
use crate::defrag_statistics::DefragStatistics;
use crate::evicted_stream::EvictionCause;

/// States the value of the constant `BOUNDED_NAME_MEMORY`, in bytes.
pub fn bounded_constants()
    ensures { constant.BOUNDED_NAME_MEMORY ≡ 512 }
{}

/// States that two limits, policies for overlaps, causes of evictions, counters or errors of bounded pools are equal
/// exactly if they are identical.
pub fn bounded_comparisons()
    ensures policies { (a b : OverlapPolicy) → IsTrue (⟦<OverlapPolicy as PartialEq>⟧.eq a b) ↔ (a ≡ b) }
    ensures limits { (a b : DefragLimits) → IsTrue (⟦<DefragLimits as PartialEq>⟧.eq a b) ↔ (a ≡ b) }
    ensures causes { (a b : EvictionCause) → IsTrue (⟦<EvictionCause as PartialEq>⟧.eq a b) ↔ (a ≡ b) }
    ensures statistics { (a b : DefragStatistics) → IsTrue (⟦<DefragStatistics as PartialEq>⟧.eq a b) ↔ (a ≡ b) }
    ensures errors { (a b : BoundedDefragError) → IsTrue (⟦<BoundedDefragError as PartialEq>⟧.eq a b) ↔ (a ≡ b) }
{}

/// States that a clone of limits, of a policy for overlaps, of a cause of an eviction, of counters or of an error of
/// bounded pools is equal to its source.
pub fn bounded_clones()
    ensures policies { (a b : OverlapPolicy) → ⟦<OverlapPolicy as Clone>⟧.is_clone a b → b ≡ a }
    ensures limits { (a b : DefragLimits) → ⟦<DefragLimits as Clone>⟧.is_clone a b → b ≡ a }
    ensures causes { (a b : EvictionCause) → ⟦<EvictionCause as Clone>⟧.is_clone a b → b ≡ a }
    ensures statistics { (a b : DefragStatistics) → ⟦<DefragStatistics as Clone>⟧.is_clone a b → b ≡ a }
    ensures errors { (a b : BoundedDefragError) → ⟦<BoundedDefragError as Clone>⟧.is_clone a b → b ≡ a }
{}

/// States that cloning limits, a policy for overlaps, a cause of an eviction, counters or an error of bounded pools
/// does not allocate, so it always succeeds.
pub fn bounded_clones_succeed()
    ensures policies { (a : OverlapPolicy) → ⟦<OverlapPolicy as Clone>⟧.is_infallible a }
    ensures limits { (a : DefragLimits) → ⟦<DefragLimits as Clone>⟧.is_infallible a }
    ensures causes { (a : EvictionCause) → ⟦<EvictionCause as Clone>⟧.is_infallible a }
    ensures statistics { (a : DefragStatistics) → ⟦<DefragStatistics as Clone>⟧.is_infallible a }
    ensures errors { (a : BoundedDefragError) → ⟦<BoundedDefragError as Clone>⟧.is_infallible a }
{}
