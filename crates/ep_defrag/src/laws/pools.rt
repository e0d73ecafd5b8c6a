//! Laws of reassembly buffers and pools. Each is the contract of a function that does nothing.

ghost use Rattle.std.specs.Prelude.{◌≡◌, ◌↔◌, ◌⊎◌, ℕ, ◌+◌, ◌/◌, ◌%◌, ◌^◌, ◌<◌, ◌≤◌, ◌||◌, Bool, false, Option, Some, List, [], ◌∷◌, ◌++◌, length, map, IsTrue, IsFalse, IsSome, IfSome};
ghost use Rattle.std.specs.Hash.{HashWrites};
ghost use Rattle.std.specs.List.{All, Any};
ghost use Rattle.ep_defrag.specs.Ranges.{touches, merge_of, SharePoint};
ghost use Rattle.ep_defrag.specs.IpFragments.{IpFragment, fragment_with, is_final, IsCovered, reach_of, end_of, assembled, is_complete, IsComplete};
ghost use Rattle.ep_defrag.specs.FragmentRefusals.{FitsWithin, FitInTurn, FitInTurnWithin};
ghost use Rattle.ep_base.specs.Bytes.{AreBytes};
ghost use Rattle.ep_defrag.specs.Completing.{FillBoth, opening_fragment, final_fragment, is_part, CompleteInTurn, CarryingFrame, name_in, CarriesOf, FramesComplete};
ghost use Rattle.ep_defrag.specs.PayloadCuts.{IsCut};
ghost use Rattle.ep_defrag.specs.Buffers.{data_of, sections_of, HoldsFragments};
ghost use Rattle.ep_defrag.specs.Calls.{Call, Kept, accepted_in, calls_of, answers_to, table_after, table_with};
ghost use Rattle.ep_defrag.specs.NameHashes.{hash_of, given_for, std_hash};
ghost use Rattle.ep_defrag.specs.Isolation.{answers_of, fragments_of, GivesCut, StaysOpen, KeepsOwn, ReturnsPayload, ReturnsAtMost};
ghost use Rattle.ep_defrag.specs.Pools.{limit_of, stream_named, HoldsTable};
ghost use Rattle.ep_defrag.specs.BuiltCuts.{BuiltCut, IsBuiltCut, IsUnder, answers_to_frames, cut_answers};
ghost use Rattle.ep_defrag.specs.BuiltCuts.{cut_call, cut_fragment, frames_to, complete_payload_of};
ghost use Rattle.ep_defrag.specs.FrameCalls.{ReadCall, HasBytes, IsOnlyRead, pool_calls, frame_answers_to, pool_answers_in};

use crate::frame_run::FrameCall;
use crate::ip_defrag_buf::IpDefragBuf;
use crate::ip_defrag_pool::IpDefragPool;
use crate::ip_frag_id::IpFragId;
use crate::ip_frag_range::IpFragRange;
use std::hash::Hash;

/// States that the result of merging two byte ranges of a payload does not depend on their order.
pub fn merge_is_symmetric()
    ensures { (a b : IpFragRange) → merge_of a b ≡ merge_of b a }
{}

/// States that two byte ranges (start <= end) merge exactly if they overlap or touch, and the merged range is their
/// union.
pub fn merge_is_union()
    ensures some { (a b : IpFragRange) → a.start ≤ a.end → b.start ≤ b.end → IsSome (merge_of a b) ↔ SharePoint a b }
    ensures union { (a b : IpFragRange) → a.start ≤ a.end → b.start ≤ b.end →
        IfSome (merge_of a b) (λ range. (position : ℕ) →
        touches position range ≡ (touches position a || touches position b)) }
{}

/// States that a fragment is never rejected if it and all earlier fragments are cuts (consecutive parts) of one
/// payload. The payload must be no longer than the limit of the buffer or pool (65535 for a buffer), and the fragment
/// must be final or have a length that is a multiple of 8. A final cut ends at the end of the payload, so not below any
/// earlier cut.
pub fn cut_fits()
    ensures { (limit : ℕ) (payload : List ℕ) (cuts : List IpFragment) (cut : IpFragment) → length payload ≤ limit
        → All (IsCut payload) cuts → IsCut payload cut
        → IsTrue (is_final cut) ⊎ (length cut.bytes % 8 ≡ 0) → FitsWithin limit cuts cut }
{}

/// States when fragments of one payload are complete, if each has the bytes of the payload at its offset, and a final
/// one ends at the end of the payload: exactly if a final fragment is among them and together they cover each position
/// of the payload. The reassembled bytes are then this payload.
pub fn complete_cuts_are_the_payload()
    ensures complete { (payload : List ℕ) (cuts : List IpFragment) → All (IsCut payload) cuts →
        IsComplete cuts ↔ (Any (λ cut. IsTrue (is_final cut)) cuts
        × ((position : ℕ) → position < length payload → IsCovered cuts position)) }
    ensures payload { (payload : List ℕ) (cuts : List IpFragment) → All (IsCut payload) cuts →
        IsComplete cuts → assembled cuts ≡ payload }
{}

/// States that once a final fragment was accepted, its end is the greatest end of all accepted fragments. The
/// reassembled bytes then reach to the greatest end, so no accepted byte is discarded. This holds for every buffer,
/// since it rejects fragments that contradict earlier ones.
pub fn known_end_is_greatest()
    ensures end { (accepted : List IpFragment) (end : ℕ) → FitInTurn accepted → end_of accepted ≡ Some end →
        end ≡ reach_of accepted }
    ensures data { (accepted : List IpFragment) → FitInTurn accepted → length (assembled accepted) ≡ reach_of accepted }
    ensures data_len { (buffer : IpDefragBuf) (accepted : List IpFragment) → HoldsFragments buffer accepted →
        length (data_of buffer) ≡ reach_of accepted }
{}

/// States that no stream of a reassembly pool (the fragments of one IP datagram) holds more payload bytes than the
/// limit of the pool, since a fragment that ends above the limit is rejected.
pub fn data_within_limit<Timestamp, CustomChannelId: Eq + Hash>()
    ensures reach { (limit : ℕ) (accepted : List IpFragment) → FitInTurnWithin limit accepted →
        reach_of accepted ≤ limit }
    ensures data { (pool : IpDefragPool Timestamp CustomChannelId)
        (table : IpFragId CustomChannelId → Option (Kept Timestamp)) (name : IpFragId CustomChannelId) →
        HoldsTable CustomChannelId.eq pool table →
        IfSome (stream_named CustomChannelId.eq name pool)
        (λ stream. length (data_of stream.buffer) ≤ limit_of pool) }
{}

/// States that a reassembly buffer has at most limit / 8 + 1 separate byte ranges, if it accepted only fragments that
/// end within a limit. Each range begins where a fragment begins, at a multiple of 8. In a reassembly pool this holds
/// for the buffer of each stream, with the limit of the pool.
pub fn sections_within_limit<Timestamp, CustomChannelId: Eq + Hash>()
    ensures buffer { (limit : ℕ) (buffer : IpDefragBuf) (accepted : List IpFragment) →
        HoldsFragments buffer accepted → FitInTurnWithin limit accepted →
        length (sections_of buffer) ≤ limit / 8 + 1 }
    ensures pool { (pool : IpDefragPool Timestamp CustomChannelId)
        (table : IpFragId CustomChannelId → Option (Kept Timestamp)) (name : IpFragId CustomChannelId) →
        HoldsTable CustomChannelId.eq pool table →
        IfSome (stream_named CustomChannelId.eq name pool)
        (λ stream. length (sections_of stream.buffer) ≤ limit_of pool / 8 + 1) }
{}

/// States that one more fragment completes any incomplete payload: a final fragment from offset 0 to the greatest end
/// of the accepted fragments, whatever its bytes are. This fragment is not rejected; in particular, it does not end
/// above the limit of the pool (65535 for a buffer).
pub fn one_fragment_completes()
    ensures { (limit : ℕ) (accepted : List IpFragment) (bytes : List ℕ) → FitInTurnWithin limit accepted →
        length bytes ≡ reach_of accepted →
        let fragment = fragment_with 0 false bytes in
        FitsWithin limit accepted fragment × IsComplete (accepted ++ fragment ∷ []) }
{}

/// States that at most two fragments complete any incomplete payload, whatever their bytes are, if the limit of the
/// buffer or pool is at least 8 bytes. Frames can carry them, since none of them is a final fragment at offset 0. If
/// the limit is at most 65535, neither has more than 32768 bytes.
pub fn two_fragments_complete()
    ensures { (limit : ℕ) (accepted : List IpFragment) (front back : List ℕ) → 8 ≤ limit →
        FitInTurnWithin limit accepted → FillBoth accepted front back →
        CompleteInTurn limit accepted (opening_fragment front) (final_fragment accepted back) }
{}

/// States that a pool with a limit below 8 bytes per payload never completes a payload from fragments of frames.
/// Fragment offsets are multiples of 8, so the final fragment would have to start at offset 0, but a packet with offset
/// 0 and no more-fragments flag is not a fragment.
pub fn small_limits_complete_nothing()
    ensures { (limit : ℕ) (accepted : List IpFragment) → limit < 8 → FitInTurnWithin limit accepted →
        All (λ fragment. IsTrue (is_part fragment)) accepted → IsFalse (is_complete accepted) }
{}

/// States that no stream (the fragments of one IP datagram) gets stuck in a reassembly pool whose limit is at least 8
/// bytes. If some frame can carry a fragment of the stream, at most two more frames complete its payload, whatever
/// bytes they have. The returned payload is the accepted bytes, overwritten by the bytes of these two frames.
///
/// The law applies to the pool that `run_calls`, `run_calls_with_limit` or `run_frames` returns, and to each call of
/// `process_sliced_packet`, since their contracts state which fragments the pool holds of each stream.
pub fn two_frames_complete<Timestamp, CustomChannelId: Eq + Hash>()
    // If some frame carries a fragment of a stream, frames can carry each of its fragments of at most 32768 bytes that
    // is followed by more fragments or does not begin the payload.
    ensures some { (seen : CarryingFrame) (fragment : IpFragment) → fragment.offset < 2 ^ 13 →
        length fragment.bytes ≤ 32768 → AreBytes fragment.bytes → IsTrue (is_part fragment) →
        (frame : CarryingFrame) × CarriesOf seen fragment frame }
    ensures complete { (pool : IpDefragPool Timestamp CustomChannelId)
        (table : IpFragId CustomChannelId → Option (Kept Timestamp)) (seen : CarryingFrame)
        (channel : CustomChannelId) (front back : List ℕ) (timestamp : Timestamp) →
        HoldsTable CustomChannelId.eq pool table → 8 ≤ limit_of pool → AreBytes front → AreBytes back →
        let accepted = accepted_in (table (name_in seen channel)) in
        FillBoth accepted front back →
        FramesComplete (limit_of pool) CustomChannelId.eq table seen channel timestamp accepted (opening_fragment front)
        (final_fragment accepted back) }
{}

/// States that the results that a reassembly pool returns for a stream (the fragments of one IP datagram) don't depend
/// on other streams. If two lists of calls, on two new pools with equal limits, agree in the calls that concern the
/// stream, the results of these calls are equal.
pub fn streams_are_alone<Timestamp, CustomChannelId: Eq, V>()
    ensures { (limit : ℕ) (keep : V → Timestamp → Bool) (name : IpFragId CustomChannelId)
        (a b : List (Call Timestamp CustomChannelId V)) →
        calls_of CustomChannelId.eq name a ≡ calls_of CustomChannelId.eq name b →
        answers_of CustomChannelId.eq name a (answers_to limit CustomChannelId.eq keep a)
        ≡ answers_of CustomChannelId.eq name b (answers_to limit CustomChannelId.eq keep b) }
{}

/// States that the last call of a list of calls on a reassembly pool changes each stream (the fragments of one IP
/// datagram) as this call alone does, made on the pool after all earlier calls. The contracts of single calls therefore
/// determine the result of the whole list.
pub fn one_more_call<Timestamp, CustomChannelId: Eq, V>()
    ensures { (limit : ℕ) (keep : V → Timestamp → Bool) (calls : List (Call Timestamp CustomChannelId V))
        (call : Call Timestamp CustomChannelId V) (name : IpFragId CustomChannelId) →
        table_after limit CustomChannelId.eq keep (calls ++ call ∷ []) name
        ≡ table_with limit CustomChannelId.eq keep (table_after limit CustomChannelId.eq keep calls) call name }
{}

/// States that a reassembly pool reassembles a payload from its consecutive parts, in any order and with any repeats.
/// If all fragments of a stream (the fragments of one IP datagram) are parts of one payload, none is rejected, and the
/// pool returns no other payload for the stream. It returns the payload if the fragments cover it and a final fragment
/// is among them.
///
/// The payload must be no longer than the limit of the pool, and each part must be final or have a length that is a
/// multiple of 8. No drop may remove the stream while it is incomplete; it is enough that each drop keeps the
/// timestamps of the stream's own fragments.
pub fn cuts_are_reassembled<Timestamp, CustomChannelId: Eq, V>()
    ensures only { (limit : ℕ) (keep : V → Timestamp → Bool) (name : IpFragId CustomChannelId)
        (calls : List (Call Timestamp CustomChannelId V)) (payload : List ℕ) → length payload ≤ limit →
        StaysOpen limit CustomChannelId.eq keep name calls →
        All (GivesCut payload) (calls_of CustomChannelId.eq name calls) →
        All (ReturnsAtMost payload)
        (answers_of CustomChannelId.eq name calls (answers_to limit CustomChannelId.eq keep calls)) }
    ensures comes { (limit : ℕ) (keep : V → Timestamp → Bool) (name : IpFragId CustomChannelId)
        (calls : List (Call Timestamp CustomChannelId V)) (payload : List ℕ) → length payload ≤ limit →
        StaysOpen limit CustomChannelId.eq keep name calls →
        All (GivesCut payload) (calls_of CustomChannelId.eq name calls) →
        let cuts = fragments_of (calls_of CustomChannelId.eq name calls) in
        Any (λ cut. IsTrue (is_final cut)) cuts →
        ((position : ℕ) → position < length payload → IsCovered cuts position) →
        Any (ReturnsPayload payload)
        (answers_of CustomChannelId.eq name calls (answers_to limit CustomChannelId.eq keep calls)) }
    ensures kept { (limit : ℕ) (keep : V → Timestamp → Bool) (name : IpFragId CustomChannelId)
        (calls : List (Call Timestamp CustomChannelId V)) →
        KeepsOwn CustomChannelId.eq keep name calls → StaysOpen limit CustomChannelId.eq keep name calls }
{}

/// States that a call on a reassembly pool whose frame is given as bytes is read in exactly one way: as a call with a
/// sliced packet, or as a slicing error. It follows from the law `frames` of `ep_packet`.
pub fn frame_calls<Timestamp, CustomChannelId, V>()
    ensures { (call : FrameCall Timestamp CustomChannelId V) → HasBytes call →
        (read : ReadCall Timestamp CustomChannelId V) × IsOnlyRead call read }
{
    ep_packet::laws::frames();
}

/// States that frames that can't be sliced change nothing in a reassembly pool. The pool returns the same results for a
/// list of calls with such frames as for the list without them, so the laws on lists of calls hold for both.
pub fn refused_frames_change_nothing<Timestamp, CustomChannelId: Eq, V>()
    ensures { (limit : ℕ) (keep : V → Timestamp → Bool) (reads : List (ReadCall Timestamp CustomChannelId V)) →
        pool_answers_in (frame_answers_to limit CustomChannelId.eq keep reads)
        ≡ answers_to limit CustomChannelId.eq keep (pool_calls reads) }
{}

/// States that the hash of a stream identifier is the hash that std's `FoldHasher` computes if the parts of the
/// identifier are written to it in other groups. Different lists of writes become different lists of groups, so two
/// identifiers collide only if `FoldHasher` computes equal hashes of two different lists of groups.
pub fn name_hashes()
    ensures std { (writes : HashWrites) → hash_of writes ≡ std_hash (given_for writes) }
    ensures injective { (a b : HashWrites) → All AreBytes a → All AreBytes b → given_for a ≡ given_for b → a ≡ b }
{}

/// States that frames that the builder made from consecutive parts (cuts) of one payload are reassembled to this
/// payload, in any order and with any repeats. The payload must be no longer than the limit of the pool, each part must
/// be final or have a length that is a multiple of 8, and all frames must have one stream identifier. The pool returns
/// the payload at each frame that completes it; only the parts passed since the payload was last returned count. At all
/// other frames of the stream it returns nothing.
///
/// Other calls may be made between these frames: frames without a fragment, frames of other streams, returned buffers
/// and drops. No drop may remove the stream while it is incomplete; it is enough that each drop keeps the timestamps of
/// the stream's own fragments. The stream must get no other fragments.
///
/// Each frame is written by the builder's step of IP headers, and is sliced before it is passed to the pool. No part is
/// rejected: a final part ends at the end of the payload, so not below any earlier part.
pub fn built_cuts_are_reassembled<Timestamp, CustomChannelId: Eq, V>()
    ensures alone { (limit : ℕ) (keep : V → Timestamp → Bool) (name : IpFragId CustomChannelId) (payload : List ℕ)
        (cuts : List (BuiltCut Timestamp CustomChannelId)) → length payload ≤ limit →
        All (IsBuiltCut payload) cuts → All (IsUnder CustomChannelId.eq name) cuts →
        answers_to limit CustomChannelId.eq keep (map cut_call cuts)
        ≡ cut_answers (complete_payload_of name payload) [] (map cut_fragment cuts) }
    ensures among { (limit : ℕ) (keep : V → Timestamp → Bool) (name : IpFragId CustomChannelId) (payload : List ℕ)
        (cuts : List (BuiltCut Timestamp CustomChannelId)) (calls : List (Call Timestamp CustomChannelId V)) →
        length payload ≤ limit → All (IsBuiltCut payload) cuts → StaysOpen limit CustomChannelId.eq keep name calls →
        frames_to CustomChannelId.eq name calls ≡ map cut_call cuts →
        answers_to_frames CustomChannelId.eq name calls (answers_to limit CustomChannelId.eq keep calls)
        ≡ cut_answers (complete_payload_of name payload) [] (map cut_fragment cuts) }
    ensures among_kept { (limit : ℕ) (keep : V → Timestamp → Bool) (name : IpFragId CustomChannelId) (payload : List ℕ)
        (cuts : List (BuiltCut Timestamp CustomChannelId)) (calls : List (Call Timestamp CustomChannelId V)) →
        length payload ≤ limit → All (IsBuiltCut payload) cuts → KeepsOwn CustomChannelId.eq keep name calls →
        frames_to CustomChannelId.eq name calls ≡ map cut_call cuts →
        answers_to_frames CustomChannelId.eq name calls (answers_to limit CustomChannelId.eq keep calls)
        ≡ cut_answers (complete_payload_of name payload) [] (map cut_fragment cuts) }
    // For calls with frames as bytes, however they are read; rejected frames may be among them too.
    ensures read { (limit : ℕ) (keep : V → Timestamp → Bool) (name : IpFragId CustomChannelId) (payload : List ℕ)
        (cuts : List (BuiltCut Timestamp CustomChannelId)) (reads : List (ReadCall Timestamp CustomChannelId V)) →
        length payload ≤ limit → All (IsBuiltCut payload) cuts →
        StaysOpen limit CustomChannelId.eq keep name (pool_calls reads) →
        frames_to CustomChannelId.eq name (pool_calls reads) ≡ map cut_call cuts →
        answers_to_frames CustomChannelId.eq name (pool_calls reads)
        (pool_answers_in (frame_answers_to limit CustomChannelId.eq keep reads))
        ≡ cut_answers (complete_payload_of name payload) [] (map cut_fragment cuts) }
    ensures read_kept { (limit : ℕ) (keep : V → Timestamp → Bool) (name : IpFragId CustomChannelId) (payload : List ℕ)
        (cuts : List (BuiltCut Timestamp CustomChannelId)) (reads : List (ReadCall Timestamp CustomChannelId V)) →
        length payload ≤ limit → All (IsBuiltCut payload) cuts →
        KeepsOwn CustomChannelId.eq keep name (pool_calls reads) →
        frames_to CustomChannelId.eq name (pool_calls reads) ≡ map cut_call cuts →
        answers_to_frames CustomChannelId.eq name (pool_calls reads)
        (pool_answers_in (frame_answers_to limit CustomChannelId.eq keep reads))
        ≡ cut_answers (complete_payload_of name payload) [] (map cut_fragment cuts) }
{
    ep_build::laws::built_fragments();
    ep_packet::laws::frames();
}
