//! Laws of reassembly. Those of buffers, of pools and of bounded pools are theorems about the definitions in their
//! contracts; those of their types state how these are compared and cloned, and the values of the constants. Each law is
//! the contract of a function without effect.

ghost use Rattle.std.specs.Prelude.{◌≡◌, ◌↔◌, ◌<◌, List, length, IsTrue};
ghost use Rattle.std.specs.List.{All};
ghost use Rattle.ep_defrag.specs.declared.TheConstants as constant;
ghost use Rattle.ep_defrag.specs.IpFragments.{IpFragment, FillEqually, TouchSamePositions};
ghost use Rattle.ep_defrag.specs.Buffers.{IsUnchanged, ip_number_of, HoldsFragments};
ghost use Rattle.ep_defrag.specs.DefragComparisons.{range_cmp, buffer_cmp, error_cmp};
ghost use Rattle.ep_defrag.specs.Streams.{same_stream};
ghost use Rattle.ep_defrag.specs.Pools.{plain_payload, plain_answer};
ghost use Rattle.ep_defrag.specs.FrameCalls.{read_answer};

mod bounded_pools;
mod bounded_types;
mod pools;

use crate::frame_run::FrameAnswer;
use crate::ip_defrag_buf::IpDefragBuf;
use crate::ip_defrag_error::IpDefragError;
use crate::ip_defrag_payload_vec::IpDefragPayloadVec;
use crate::ip_frag_id::{IpFragId, IpFragVersionSpecId};
use crate::ip_frag_range::IpFragRange;
use crate::pool_run::PoolAnswer;
use crate::run::RunStop;
pub use bounded_pools::{
    alone_until_evicted, counters_add_up, evicted_exactly, keys_change_nothing, no_ambiguity,
    payloads_agree, within_limits,
};
pub use bounded_types::{
    bounded_clones, bounded_clones_succeed, bounded_comparisons, bounded_constants,
};
pub use pools::{
    built_cuts_are_reassembled, complete_cuts_are_the_payload, cut_fits, cuts_are_reassembled,
    data_within_limit, frame_calls, known_end_is_greatest, merge_is_symmetric, merge_is_union,
    name_hashes, one_fragment_completes, one_more_call, refused_frames_change_nothing,
    sections_within_limit, small_limits_complete_nothing, streams_are_alone,
    two_fragments_complete, two_frames_complete,
};

/// States that the constants `MAX_IP_DEFRAG_LEN_U16` and `MAX_IP_DEFRAG_LEN`, the greatest length of a reassembled
/// payload, are both 65535, the greatest value of 16 bits.
pub fn constants()
    ensures { (constant.MAX_IP_DEFRAG_LEN_U16 ≡ 65535) × (constant.MAX_IP_DEFRAG_LEN ≡ 65535) }
{}

/// States that two byte ranges are equal if their starts and ends are equal. Two reassembly buffers are equal if their
/// bytes, filled ranges, ends and protocol numbers are equal. Two errors (`IpDefragError` or `RunStop`) are equal if
/// they are identical. `cmp` compares the fields in the order of their declaration.
pub fn comparisons()
    ensures equal_ranges { (a b : IpFragRange) →
        IsTrue (⟦<IpFragRange as PartialEq>⟧.eq a b) ↔ ((a.start ≡ b.start) × (a.end ≡ b.end)) }
    ensures equal_buffers { (a b : IpDefragBuf) → IsTrue (⟦<IpDefragBuf as PartialEq>⟧.eq a b) ↔ IsUnchanged a b }
    ensures equal_errors { (a b : IpDefragError) → IsTrue (⟦<IpDefragError as PartialEq>⟧.eq a b) ↔ (a ≡ b) }
    ensures equal_stops { (a b : RunStop) → IsTrue (⟦<RunStop as PartialEq>⟧.eq a b) ↔ (a.at ≡ b.at) }

    ensures ranges { (a b : IpFragRange) → ⟦<IpFragRange as Ord>⟧.cmp a b ≡ range_cmp a b }
    ensures buffers { (a b : IpDefragBuf) → ⟦<IpDefragBuf as Ord>⟧.cmp a b ≡ buffer_cmp a b }
    ensures errors { (a b : IpDefragError) → ⟦<IpDefragError as Ord>⟧.cmp a b ≡ error_cmp a b }
{}

/// States that two reassembly buffers of one protocol are equal exactly if their accepted fragments, in any order, fill
/// the same positions with the same bytes, have the same known end, and touch the same positions (a fragment touches
/// its bytes and the position after them). If no fragment is empty, the last condition follows from the others.
pub fn equal_buffers()
    ensures contents { (a b : IpDefragBuf) (fragments others : List IpFragment) → ip_number_of a ≡ ip_number_of b →
        HoldsFragments a fragments → HoldsFragments b others →
        IsTrue (⟦<IpDefragBuf as PartialEq>⟧.eq a b) ↔
        (FillEqually fragments others × TouchSamePositions fragments others) }
    ensures not_empty { (a b : IpDefragBuf) (fragments others : List IpFragment) → ip_number_of a ≡ ip_number_of b →
        HoldsFragments a fragments → HoldsFragments b others →
        All (λ fragment. 0 < length fragment.bytes) fragments → All (λ fragment. 0 < length fragment.bytes) others →
        IsTrue (⟦<IpDefragBuf as PartialEq>⟧.eq a b) ↔ FillEqually fragments others }
{
    comparisons();
}

/// States that a clone of a byte range, of the IP part of a stream identifier, or of a reassembly error is equal to its
/// source.
pub fn clones()
    ensures ranges { (a b : IpFragRange) → ⟦<IpFragRange as Clone>⟧.is_clone a b → b ≡ a }
    ensures versions { (a b : IpFragVersionSpecId) → ⟦<IpFragVersionSpecId as Clone>⟧.is_clone a b → b ≡ a }
    ensures errors { (a b : IpDefragError) → ⟦<IpDefragError as Clone>⟧.is_clone a b → b ≡ a }
{}

/// States that cloning a byte range, the IP part of a stream identifier, or a reassembly error does not allocate, so it
/// always succeeds.
pub fn clones_succeed()
    ensures ranges { (a : IpFragRange) → ⟦<IpFragRange as Clone>⟧.is_infallible a }
    ensures versions { (a : IpFragVersionSpecId) → ⟦<IpFragVersionSpecId as Clone>⟧.is_infallible a }
    ensures errors { (a : IpDefragError) → ⟦<IpDefragError as Clone>⟧.is_infallible a }
{}

/// States what `==` compares: the IP parts of stream identifiers by version, addresses and identification; reassembled
/// payloads and the results of calls on a reassembly pool by all values that they contain.
pub fn pool_comparisons()
    ensures versions { (a b : IpFragVersionSpecId) → IsTrue (⟦<IpFragVersionSpecId as PartialEq>⟧.eq a b) ↔ (a ≡ b) }
    ensures payloads { (a b : IpDefragPayloadVec) →
        IsTrue (⟦<IpDefragPayloadVec as PartialEq>⟧.eq a b) ↔ (plain_payload a ≡ plain_payload b) }
    ensures answers { (a b : PoolAnswer) →
        IsTrue (⟦<PoolAnswer as PartialEq>⟧.eq a b) ↔ (plain_answer a ≡ plain_answer b) }
    ensures frame_answers { (a b : FrameAnswer) →
        IsTrue (⟦<FrameAnswer as PartialEq>⟧.eq a b) ↔ (read_answer a ≡ read_answer b) }
{
    ep_packet::laws::comparisons();
}

/// States that two `IpFragId` are equal exactly if they identify the same stream (the fragments of one IP datagram).
/// Their channels, the caller's own values, are compared by the equality of their type.
pub fn names<CustomChannelId: Eq>()
    ensures { (a b : IpFragId CustomChannelId) →
        ⟦<IpFragId<CustomChannelId> as PartialEq>⟧.eq a b ≡ same_stream CustomChannelId.eq a b }
{}
