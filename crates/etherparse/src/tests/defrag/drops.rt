//! Test of a datagram that is reassembled while older datagrams are dropped from the pool. A function cites the law
//! (theorem) for this case, as a user of the library would, and a test makes the calls.

ghost use Rattle.std.specs.Prelude.{◌≡◌, ◌≤◌, ℕ, nat_le, List, [], length, map};
ghost use Rattle.std.specs.List.{All};
ghost use Rattle.etherparse.specs.Types.IpFragId.{IpFragId};
ghost use Rattle.etherparse.specs.Calls.{Call, drops_streams, answers_to};
ghost use Rattle.etherparse.specs.BuiltCuts.{BuiltCut, IsBuiltCut, cut_call, cut_fragment, frames_to, answers_to_frames, cut_answers, complete_payload_of};

use super::names::completed_payload;
use super::pool::WHOLE;
use super::*;
use crate::laws;

/// States that a reassembly pool completes a payload of at most `limit` bytes from frames that carry its fragments, if
/// all these frames have timestamps of at least 3. Other calls may come between the frames: fragments of other
/// datagrams, and drops of all datagrams with a timestamp below 3.
fn drops_of_older_streams()
    ensures { (limit : ℕ) (name : IpFragId ℕ) (payload : List ℕ) (cuts : List (BuiltCut ℕ ℕ))
        (calls : List (Call ℕ ℕ ℕ)) → length payload ≤ limit → All (IsBuiltCut payload) cuts →
        All (λ cut. 3 ≤ cut.timestamp) cuts →
        All (λ call. (value : ℕ) → call ≡ drops_streams value → value ≡ 3) calls →
        frames_to ⟦<u8 as PartialEq>⟧.eq name calls ≡ map cut_call cuts →
        answers_to_frames ⟦<u8 as PartialEq>⟧.eq name calls
        (answers_to limit ⟦<u8 as PartialEq>⟧.eq nat_le calls)
        ≡ cut_answers (complete_payload_of name payload) [] (map cut_fragment cuts) }
{
    laws::defrag::built_cuts_are_reassembled::<u64, u8, u64>();
}

/// A payload is reassembled from two IPv6 fragments with timestamps 3 and 5, although all incomplete datagrams with a
/// timestamp below 3 are dropped from the pool between the two.
#[test]
fn drop_between_halves(rt: HostRuntime) {
    drops_of_older_streams();
    let mut pool = IpDefragPool::new(rt.alloc());
    let first = SlicedPacket::from_ip(FIRST_IPV6).expect(&rt, "refused");
    same(
        &rt,
        &pool.process_sliced_packet(&first, 3u64, 0u8),
        &Ok(None),
    );
    pool.retain(|timestamp: &u64| *timestamp >= 3);
    let last = SlicedPacket::from_ip(LAST_IPV6).expect(&rt, "refused");
    let answer = pool.process_sliced_packet(&last, 5, 0);
    same(&rt, &completed_payload(&answer), &WHOLE);
}
