//! Laws of bounded reassembly pools. Each is the contract of a function that does nothing.

ghost use Rattle.std.specs.Prelude.{◌≡◌, ◌≢◌, ◌↔◌, ℕ, ◌+◌, ◌/◌, ◌<◌, ◌≤◌, not, Option, Result, Some, None, List, [], ◌∷◌, ◌++◌, length, IsTrue, IsFalse, IfSome};
ghost use Rattle.std.specs.List.{All, AllPairs, AllZip, count_by, filter};
ghost use Rattle.std.specs.List.Sorted.{IsPermutation};
ghost use Rattle.ep_defrag.specs.declared.bounded_limits.DefragLimits.{DefragLimits};
ghost use Rattle.ep_defrag.specs.declared.bounded_limits.OverlapPolicy.TheVariants as policy;
ghost use Rattle.ep_defrag.specs.declared.bounded_defrag_error.BoundedDefragError.{BoundedDefragError};
ghost use Rattle.ep_defrag.specs.IpFragments.{IpFragment, assembled, byte_at, is_complete, IsComplete};
ghost use Rattle.ep_defrag.specs.declared.ip_frag_id.IpFragId.{IpFragId};
ghost use Rattle.ep_defrag.specs.declared.ip_defrag_error.IpDefragError.{IpDefragError};
ghost use Rattle.ep_defrag.specs.declared.ip_defrag_payload_vec.IpDefragPayloadVec.{IpDefragPayloadVec};
ghost use Rattle.ep_defrag.specs.declared.bounded_defrag_pool.BoundedDefragPool.{BoundedDefragPool};
ghost use Rattle.ep_defrag.specs.Streams.{same_stream};
ghost use Rattle.ep_defrag.specs.Calls.{answers_to, Payload, payload_of};
ghost use Rattle.ep_defrag.specs.BoundedLimits.{most_names};
ghost use Rattle.ep_defrag.specs.BoundedOverlaps.{all_kept, first_byte_at};
ghost use Rattle.ep_defrag.specs.BoundedAnswers.{plain_bounded, is_memory_error};
ghost use Rattle.ep_defrag.specs.BoundedPools.{limits_in, evicted_in, AreAlike, ReportAlike, DoesStep, TakesBounded};
ghost use Rattle.ep_defrag.specs.BoundedSteps.{Row, BoundedCall, is_open, row_named, other_rows, expires_for, fragment_rejected, nothing_complete, are_within, remaining, gives_fragment, call_step, payload_complete, accepted_before, rows_discarding};
ghost use Rattle.ep_defrag.specs.BoundedDiscards.{DiscardsStream, IsDiscarding};
ghost use Rattle.ep_defrag.specs.BoundedRuns.{Made, rows_from, drops_number, alone_from, alone_answers_from, AgreesUnlessRejected, lone_open, lone_complete, lone_with, lone_after};
ghost use Rattle.ep_defrag.specs.BoundedCounts.{AddUp, no_statistics, statistics_from};
ghost use Rattle.ep_defrag.specs.BoundedGiven.{given_at, given_from};

use crate::bounded_defrag_error::BoundedDefragError;
use crate::bounded_limits::DefragLimits;

/// States that each stream of a bounded pool is answered as if it were alone, until it is discarded, evicted or
/// removed. For every list of calls there is a list of calls on an unbounded pool that returns equal results. It leaves
/// out packets without a fragment, and the fragments that are answered `Discarded`, `OverBudget` or with a failed
/// allocation, and has a drop of one timestamp for each identifier that left the table. Timestamps are the numbers of
/// the calls.
///
/// A payload has the byte of the last accepted fragment at each position, as in the unbounded pool; under `FirstWins`
/// that of the first one. It is reassembled from the accepted fragments of the unexpired stream of its identifier, none
/// if the identifier has no such stream, and then the fragment of the call, which completes them.
pub fn alone_until_evicted<CustomChannelId: Eq>()
    ensures answers { (limits : DefragLimits) (calls : List (Made CustomChannelId)) →
        answers_to limits.payload CustomChannelId.eq drops_number (alone_from limits CustomChannelId.eq [] 0 calls)
        ≡ alone_answers_from limits CustomChannelId.eq [] 0 calls }
    ensures last { (accepted : List IpFragment) → all_kept policy.LastWins accepted ≡ accepted }
    ensures undisputed { (accepted : List IpFragment) → all_kept policy.Discard accepted ≡ accepted }
    ensures first { (accepted : List IpFragment) (position : ℕ) →
        byte_at (all_kept policy.FirstWins accepted) position ≡ first_byte_at accepted position }
    // The payload has the bytes that the policy keeps of the accepted fragments: the fragments of the unexpired stream,
    // then the fragment of the call.
    ensures payload { (limits : DefragLimits) (rows : List (Row CustomChannelId)) (name : IpFragId CustomChannelId)
        (fragment : IpFragment) (now number : ℕ) (granted : Option ℕ) (payload : Payload) →
        let call = gives_fragment (Some (name, fragment)) now in
        let step = call_step limits CustomChannelId.eq rows call number granted in
        let left = filter (λ row. not (expires_for limits CustomChannelId.eq now name row)) rows in
        step.answer ≡ payload_complete payload →
        (payload
        ≡ record (payload_of name step.completed) { bytes = assembled (all_kept limits.overlap step.completed) })
        × (step.completed ≡ accepted_before (row_named CustomChannelId.eq name left) ++ fragment ∷ [])
        × IsComplete step.completed }
{}

/// States that a bounded pool is within its limits after any list of calls, in the number of its streams, open and
/// discarded ones, and in their memory.
pub fn within_limits<CustomChannelId: Eq>()
    ensures { (limits : DefragLimits) (calls : List (Made CustomChannelId)) →
        IsTrue (are_within limits (rows_from limits CustomChannelId.eq [] 0 calls)) }
{}

/// States which streams a bounded pool evicts for its limits, at a call that accepts a fragment and returns no payload:
/// exactly those that exceed the limits together with all streams whose last fragment was accepted later. The stream of
/// the fragment itself stays, as the newest. At other calls with a fragment, all streams with other identifiers stay;
/// if the fragment is rejected, its own stream stays too, unless it expired.
///
/// `OverBudget` is answered only if the payload is still incomplete and the granted memory of the stream alone exceeds
/// the limit in bytes; the stream then leaves the table. `Discarded` is answered exactly if the identifier has an
/// unexpired stream that is discarded already, or that the fragment discards: under `Discard`, by a conflict with the
/// accepted fragments in end or bytes. So the first fragment of a stream is never answered `Discarded`. A discarded
/// stream keeps its place in the table, without its fragments.
pub fn evicted_exactly<CustomChannelId: Eq>()
    // The table is in the order of the last accepted fragments, by the numbers of their calls, and no two of its names
    // are equal.
    ensures order { (limits : DefragLimits) (calls : List (Made CustomChannelId)) →
        let rows = rows_from limits CustomChannelId.eq [] 0 calls in
        All (λ row. row.number < length calls) rows
        × AllPairs (λ row later. row.number < later.number) rows
        × AllPairs (λ row later. IsFalse (same_stream CustomChannelId.eq row.id later.id)) rows }
    // The stream of the fragment is now the newest, after all others in the table, and has the granted memory. The
    // limits then decide which of the others stay.
    ensures accepted { (limits : DefragLimits) (rows : List (Row CustomChannelId)) (name : IpFragId CustomChannelId)
        (fragment : IpFragment) (now number : ℕ) (granted : Option ℕ) →
        let call = gives_fragment (Some (name, fragment)) now in
        let step = call_step limits CustomChannelId.eq rows call number granted in
        step.answer ≡ nothing_complete → (own : Row CustomChannelId)
        × IsTrue (same_stream CustomChannelId.eq own.id name) × (own.number ≡ number) × (granted ≡ Some own.room)
        × (own.room ≤ limits.bytes)
        × (step.rows ≡ remaining limits (other_rows CustomChannelId.eq name rows ++ own ∷ [])) }
    ensures stays { (limits : DefragLimits) (earlier later : List (Row CustomChannelId))
        (row own : Row CustomChannelId) →
        own.room ≤ limits.bytes →
        (IsTrue (are_within limits (row ∷ later ++ own ∷ []))
        → (kept : List (Row CustomChannelId))
        × (remaining limits (earlier ++ row ∷ later ++ own ∷ []) ≡ kept ++ row ∷ later ++ own ∷ [])) }
    ensures goes { (limits : DefragLimits) (earlier later : List (Row CustomChannelId)) (row own : Row CustomChannelId)
        →
        own.room ≤ limits.bytes → IsFalse (are_within limits (row ∷ later ++ own ∷ [])) →
        remaining limits (earlier ++ row ∷ later ++ own ∷ []) ≡ remaining limits (later ++ own ∷ []) }
    ensures own { (limits : DefragLimits) (others : List (Row CustomChannelId)) (own : Row CustomChannelId) →
        own.room ≤ limits.bytes → (kept : List (Row CustomChannelId))
        × (remaining limits (others ++ own ∷ []) ≡ kept ++ own ∷ []) }
    // If no stream uses more than its share of the bytes, only the number of later streams counts.
    ensures survival { (limits : DefragLimits) (rows : List (Row CustomChannelId)) →
        All (λ row. row.room ≤ limits.bytes / most_names limits) rows → length rows ≤ most_names limits →
        IsTrue (are_within limits rows) }
    // Such a stream stays if the later ones, with the stream of the fragment, are fewer than `streams`.
    ensures flood { (limits : DefragLimits) (earlier later : List (Row CustomChannelId)) (row : Row CustomChannelId)
        (name : IpFragId CustomChannelId) (fragment : IpFragment) (now number : ℕ) (granted : Option ℕ) →
        let call = gives_fragment (Some (name, fragment)) now in
        let step = call_step limits CustomChannelId.eq (earlier ++ row ∷ later) call number granted in
        IsFalse (same_stream CustomChannelId.eq row.id name) →
        length (other_rows CustomChannelId.eq name later) + 1 < most_names limits →
        All (λ other. other.room ≤ limits.bytes / most_names limits) (row ∷ later) →
        IfSome granted (λ room. room ≤ limits.bytes / most_names limits) →
        step.answer ≡ nothing_complete → (kept : List (Row CustomChannelId)) × (own : Row CustomChannelId)
        × IsTrue (same_stream CustomChannelId.eq own.id name)
        × (step.rows ≡ kept ++ row ∷ other_rows CustomChannelId.eq name later ++ own ∷ []) }
    ensures others { (limits : DefragLimits) (rows : List (Row CustomChannelId)) (name other : IpFragId CustomChannelId)
        (fragment : IpFragment) (now number : ℕ) (granted : Option ℕ) →
        IsFalse (same_stream CustomChannelId.eq name other) →
        let call = gives_fragment (Some (name, fragment)) now in
        let step = call_step limits CustomChannelId.eq rows call number granted in
        step.answer ≢ nothing_complete →
        row_named CustomChannelId.eq other step.rows ≡ row_named CustomChannelId.eq other rows }
    ensures rejected { (limits : DefragLimits) (rows : List (Row CustomChannelId)) (name : IpFragId CustomChannelId)
        (fragment : IpFragment) (now number : ℕ) (granted : Option ℕ) (error : IpDefragError) →
        let call = gives_fragment (Some (name, fragment)) now in
        let step = call_step limits CustomChannelId.eq rows call number granted in
        step.answer ≡ fragment_rejected (BoundedDefragError.Rejected error) →
        step.rows ≡ filter (λ row. not (expires_for limits CustomChannelId.eq now name row)) rows }
    // The granted memory of the stream alone exceeds the limit in bytes. The stream leaves the table, and all other
    // streams stay.
    ensures over_budget { (limits : DefragLimits) (rows : List (Row CustomChannelId)) (name : IpFragId CustomChannelId)
        (fragment : IpFragment) (now number : ℕ) (granted : Option ℕ) →
        let call = gives_fragment (Some (name, fragment)) now in
        let step = call_step limits CustomChannelId.eq rows call number granted in
        let left = filter (λ row. not (expires_for limits CustomChannelId.eq now name row)) rows in
        step.answer ≡ fragment_rejected BoundedDefragError.OverBudget → (room : ℕ)
        × (granted ≡ Some room) × (limits.bytes < room)
        × IsFalse (is_complete (accepted_before (row_named CustomChannelId.eq name left) ++ fragment ∷ []))
        × (step.rows ≡ other_rows CustomChannelId.eq name rows) }
    // A fragment is answered `Discarded` exactly if the unexpired stream of its identifier is discarded already, or if
    // the fragment discards it.
    ensures discarded { (limits : DefragLimits) (rows : List (Row CustomChannelId)) (name : IpFragId CustomChannelId)
        (fragment : IpFragment) (now number : ℕ) (granted : Option ℕ) →
        let call = gives_fragment (Some (name, fragment)) now in
        let step = call_step limits CustomChannelId.eq rows call number granted in
        let left = filter (λ row. not (expires_for limits CustomChannelId.eq now name row)) rows in
        (step.answer ≡ fragment_rejected BoundedDefragError.Discarded)
        ↔ IsDiscarding limits (row_named CustomChannelId.eq name left) fragment }
    // A stream that is discarded already stays as it is. A stream that the fragment discards keeps its place in the
    // table, without fragments and memory.
    ensures discards { (limits : DefragLimits) (rows : List (Row CustomChannelId)) (name : IpFragId CustomChannelId)
        (fragment : IpFragment) (now number : ℕ) (granted : Option ℕ) (row : Row CustomChannelId) →
        let call = gives_fragment (Some (name, fragment)) now in
        let step = call_step limits CustomChannelId.eq rows call number granted in
        let left = filter (λ row. not (expires_for limits CustomChannelId.eq now name row)) rows in
        row_named CustomChannelId.eq name left ≡ Some row →
        (row.accepted ≡ None → step.rows ≡ left)
        × (DiscardsStream limits row fragment →
        (step.rows ≡ rows_discarding CustomChannelId.eq name left)
        × (row_named CustomChannelId.eq name step.rows ≡ Some (record row { accepted = None; room = 0 }))) }
{}

/// States that a payload is unambiguous under `Discard`. Each fragment that its stream was given agrees with it in
/// bytes and end, except for fragments that are too long or unaligned. In another order these fragments return an equal
/// first payload, if they return one. They may return none: a fragment that overlaps earlier ones with equal bytes, but
/// also has bytes that did not arrive yet, discards the stream, and in another order it may arrive first.
pub fn no_ambiguity()
    ensures agrees { (limit : ℕ) (given : List IpFragment) (last : IpFragment) (accepted whole : List IpFragment) →
        lone_after limit (lone_open []) given ≡ lone_open accepted →
        lone_with limit (lone_open accepted) last ≡ lone_complete whole →
        All (AgreesUnlessRejected limit (assembled whole)) (given ++ last ∷ []) }
    ensures any_order { (limit : ℕ) (given : List IpFragment) (last : IpFragment) (accepted whole : List IpFragment)
        (order : List IpFragment) →
        lone_after limit (lone_open []) given ≡ lone_open accepted →
        lone_with limit (lone_open accepted) last ≡ lone_complete whole →
        IsPermutation (given ++ last ∷ []) order → (other : List IpFragment) →
        lone_after limit (lone_open []) order ≡ lone_complete other → assembled other ≡ assembled whole }
{}

/// States that a payload that a bounded pool returns under `Discard` agrees, in bytes and end, with each fragment that
/// its stream was given since its identifier was last absent from the table. Fragments that are too long or unaligned,
/// or for which an allocation failed, are excepted.
pub fn payloads_agree<CustomChannelId: Eq>()
    ensures { (limits : DefragLimits) (calls : List (Made CustomChannelId)) (name : IpFragId CustomChannelId)
        (fragment : IpFragment) (now : ℕ) (granted : Option ℕ) (payload : Payload) →
        limits.overlap ≡ policy.Discard →
        let rows = rows_from limits CustomChannelId.eq [] 0 calls in
        let call = gives_fragment (Some (name, fragment)) now in
        let step = call_step limits CustomChannelId.eq rows call (length calls) granted in
        step.answer ≡ payload_complete payload →
        All (AgreesUnlessRejected limits.payload payload.bytes)
        (given_at CustomChannelId.eq name (given_from limits CustomChannelId.eq name [] 0 [] calls) call step) }
{}

/// States that the counters of a bounded pool add up after any list of calls: each stream that began was completed,
/// discarded, evicted or removed while it was open, or is open, as long as the counter of begun streams is below its
/// greatest value.
pub fn counters_add_up<CustomChannelId: Eq>()
    ensures { (limits : DefragLimits) (calls : List (Made CustomChannelId)) →
        AddUp (statistics_from limits CustomChannelId.eq [] 0 no_statistics calls)
        (count_by is_open (rows_from limits CustomChannelId.eq [] 0 calls)) }
{}

/// States that the keys of their hashes change nothing in two bounded pools with equal limits, counters and streams.
/// Both answer a fragment equally, unless one of them answers `OverBudget` or with a failed allocation. If the
/// allocator grants both equal memory, they have equal counters and streams after each call, and report equal
/// evictions.
pub fn keys_change_nothing<CustomChannelId: Eq>()
    ensures answers { (old_a new_a old_b new_b : BoundedDefragPool CustomChannelId) (rows : List (Row CustomChannelId))
        →
        AreAlike CustomChannelId.eq old_a old_b rows →
        (name : IpFragId CustomChannelId) (fragment : IpFragment) (now : ℕ)
        (a b : Result (Option IpDefragPayloadVec) BoundedDefragError) →
        TakesBounded CustomChannelId.eq old_a new_a name fragment now a →
        TakesBounded CustomChannelId.eq old_b new_b name fragment now b →
        IsFalse (is_memory_error a) → IsFalse (is_memory_error b) →
        plain_bounded b ≡ plain_bounded a }
    ensures steps { (old_a new_a old_b new_b : BoundedDefragPool CustomChannelId) (rows : List (Row CustomChannelId)) →
        AreAlike CustomChannelId.eq old_a old_b rows →
        (call : BoundedCall CustomChannelId) (number : ℕ) (granted : Option ℕ) →
        DoesStep CustomChannelId.eq old_a new_a call number granted rows →
        DoesStep CustomChannelId.eq old_b new_b call number granted rows →
        AreAlike CustomChannelId.eq new_a new_b
        (call_step (limits_in old_a) CustomChannelId.eq rows call number granted).rows
        × AllZip (ReportAlike CustomChannelId.eq) (evicted_in new_a) (evicted_in new_b) }
{}
