//! The sets of hosts of a filter.

ghost use Rattle.std.specs.Prelude.{◌≡◌, drop, IfOk, ℕ};
ghost use Rattle.std.specs.List.{All};
ghost use Rattle.packet_filter.specs.HostSets.{HasHostSet};

use crate::host_set::HostSet;
use filter_language::step::{Step, split_steps};
use std::alloc::{AllocError, Global};

/// Finds the sets of hosts in the steps of a filter, in order.
pub(crate) fn host_sets(alloc: Global, steps: &[Step]) -> Result<Vec<HostSet>, AllocError>
    ensures { IfOk result (λ sets. All (HasHostSet steps.now) sets.items) }
{
    let mut sets = Vec::new(alloc);
    let mut rest = steps;
    while !rest.is_empty() {
        match HostSet::read(alloc, rest)? {
            Some(set) => {
                rest = split_steps(rest, set.len).1;
                sets.push(set)?;
            }
            None => rest = split_steps(rest, 1).1,
        }
    }
    Ok(sets)
}

/// Returns the sets without those that begin before the last `left` steps.
#[inline(always)]
pub(crate) fn later_sets(sets: &[HostSet], left: usize) -> &[HostSet]
    ensures { (n : ℕ) × (result.now ≡ drop n sets.now) }
{
    // Most filters have no set.
    if sets.is_empty() {
        return sets;
    }
    let mut later = sets;
    while let [set, others @ ..] = later {
        if set.left <= left {
            return later;
        }
        later = others;
    }
    later
}
