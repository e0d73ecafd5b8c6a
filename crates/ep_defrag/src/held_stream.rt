//! State of a stream in a bounded reassembly pool: open with a buffer, or discarded.

ghost use Rattle.std.specs.Prelude.{◌≡◌, ◌⊎◌, ◌+◌, ◌^◌, ◌<◌, ◌≤◌, ◌||◌, nat_lt, List, [], ◌∷◌, ◌++◌, OnOk, IfErr, OnErr};
ghost use Rattle.ep_defrag.specs.IpFragments.{IpFragment, fragment_end};
ghost use Rattle.ep_defrag.specs.FragmentRefusals.{Fits, RefusesFragment, MayNeedMemory, refusal_of};
ghost use Rattle.ep_defrag.specs.Buffers.{HoldsFragments, IsUnchanged};
ghost use Rattle.ep_defrag.specs.Capacities.{SameCapacity};
ghost use Rattle.ep_defrag.specs.BoundedOverlaps.{contradicts, discards_stream, kept_as};
ghost use Rattle.ep_defrag.specs.BoundedNames.{held_room};
ghost use Rattle.ep_defrag.specs.BoundedAdding.{AddsFragment};

use crate::bounded_defrag_error::BoundedDefragError;
use crate::bounded_limits::{DefragLimits, OverlapPolicy};
use crate::fragment::Fragment;
use crate::ip_defrag_buf::IpDefragBuf;
use crate::ip_defrag_error::IpDefragError;
use crate::ip_defrag_pool::is_too_long;

/// State of a stream whose identifier is in the table of a bounded pool.
#[derive(Drop)]
pub(crate) struct HeldStream {
    /// Accepted fragments of the stream, or `None` if it is discarded.
    pub(crate) buffer: Option<IpDefragBuf>,
    /// Timestamp that came with the first accepted fragment.
    pub(crate) first: u128,
    /// Timestamp that came with the last accepted fragment.
    pub(crate) last: u128,
}

/// Result of adding a fragment to a stream.
pub(crate) enum Added {
    /// The fragment was rejected, and the stream is unchanged.
    Rejected(BoundedDefragError),
    /// The fragment contradicts earlier ones, and the stream is now discarded.
    Discards,
    /// The fragment was accepted, and bytes are still missing.
    Continues,
    /// The fragment was accepted, and the payload is complete.
    Completes,
}

impl HeldStream {
    /// Memory of the stream in bytes, by the capacity of its buffer; 0 if it is discarded.
    pub(crate) fn room(&self) -> u128
        ensures shown { result ≡ held_room self.now }
        ensures fits { result < 2 ^ 67 }
    {
        match &self.buffer {
            Some(buffer) => buffer.room(),
            None => 0,
        }
    }

    /// Returns whether the first accepted fragment came more than the age of the limits before `now`.
    pub(crate) fn is_expired(&self, limits: &DefragLimits, now: u128) -> bool
        ensures { result ≡ nat_lt (self.now.first + limits.now.age) now }
    {
        now.saturating_sub(self.first) > limits.age
    }

    /// Returns whether `expire` evicts the stream: it is expired, or its last accepted fragment came more than `idle`
    /// before `now`.
    pub(crate) fn is_due(&self, limits: &DefragLimits, now: u128, idle: u128) -> bool
        ensures { result ≡ (nat_lt (self.now.first + limits.now.age) now || nat_lt (self.now.last + idle) now) }
    {
        self.is_expired(limits, now) || now.saturating_sub(self.last) > idle
    }

    /// Adds a fragment to the stream, by the limit of payloads and the policy for overlaps. An accepted fragment sets
    /// the timestamp of the last one. The buffer of a stream that is discarded is freed.
    pub(crate) fn add(&mut self, limits: &DefragLimits, fragment: &Fragment, now: u128) -> Added
        ensures { AddsFragment limits.now self.old self.new fragment.now now result }
    {
        let Some(buffer) = &mut self.buffer else {
            return Added::Rejected(BoundedDefragError::Discarded);
        };
        if is_too_long(limits.payload, fragment) {
            return Added::Rejected(BoundedDefragError::Rejected(IpDefragError::SegmentTooBig {
                offset: fragment.offset,
                payload_len: fragment.payload.len(),
                max: limits.payload,
            }));
        }
        if discards(limits.overlap, buffer, fragment) {
            self.buffer = None;
            return Added::Discards;
        }
        if let Err(error) = add_kept(limits.overlap, buffer, fragment) {
            return Added::Rejected(BoundedDefragError::Rejected(error));
        }
        let complete = buffer.is_complete();
        self.last = now;
        if complete {
            Added::Completes
        } else {
            Added::Continues
        }
    }
}

/// Returns whether a fragment discards the stream of a buffer: under `Discard`, its end conflicts with the earlier
/// fragments, or it overlaps them and does not only repeat their bytes.
fn discards(policy: OverlapPolicy, buffer: &IpDefragBuf, fragment: &Fragment) -> bool
    requires { fragment_end fragment.now ≤ 65535 }
    ensures { (accepted : List IpFragment) → HoldsFragments buffer.now accepted →
        result ≡ discards_stream policy (refusal_of accepted fragment.now) (contradicts accepted fragment.now) }
{
    match policy {
        OverlapPolicy::LastWins | OverlapPolicy::FirstWins => false,
        OverlapPolicy::Discard => {
            match buffer.check(fragment.offset, fragment.more_fragments, fragment.payload) {
                Ok(()) => buffer.contradicts(fragment.offset, fragment.payload),
                Err(IpDefragError::ConflictingEnd { .. }) => true,
                Err(_) => false,
            }
        }
    }
}

/// Adds a fragment to a buffer. Where it overlaps earlier ones, the policy decides which bytes are kept.
fn add_kept(
    policy: OverlapPolicy,
    buffer: &mut IpDefragBuf,
    fragment: &Fragment,
) -> Result<(), IpDefragError>
    ensures fits { OnOk result ((accepted : List IpFragment) → HoldsFragments buffer.old accepted →
        Fits accepted fragment.now) }
    ensures holds { OnOk result ((accepted : List IpFragment) → HoldsFragments buffer.old accepted →
        HoldsFragments buffer.new (accepted ++ kept_as policy accepted fragment.now ∷ [])) }
    ensures refused { IfErr result (λ error. (accepted : List IpFragment) → HoldsFragments buffer.old accepted →
        RefusesFragment accepted fragment.now error
        ⊎ (MayNeedMemory accepted fragment.now
        × (error ≡ IpDefragError.AllocationFailure (fragment_end fragment.now)))) }
    ensures err { OnErr result (IsUnchanged buffer.old buffer.new) }
    ensures err_capacity { OnErr result (SameCapacity buffer.old buffer.new) }
{
    match policy {
        OverlapPolicy::LastWins | OverlapPolicy::Discard => {
            buffer.add(fragment.offset, fragment.more_fragments, fragment.payload)
        }
        OverlapPolicy::FirstWins => {
            buffer.add_missing(fragment.offset, fragment.more_fragments, fragment.payload)
        }
    }
}
