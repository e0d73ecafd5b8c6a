//! Words of the lines: causes of evictions and policies for overlaps.

ghost use Rattle.std.specs.Prelude.{◌≡◌};
ghost use Rattle.bounded_bench.specs.Words.{cause_text, policy_text};

use etherparse::defrag::{EvictionCause, OverlapPolicy};

/// Word for the cause of an eviction.
pub fn cause_word(cause: EvictionCause) -> &'static str
    ensures { result.now ≡ cause_text cause }
{
    match cause {
        EvictionCause::Expired => "expired",
        EvictionCause::Overlap => "overlap",
        EvictionCause::Streams => "streams",
        EvictionCause::Bytes => "bytes",
    }
}

/// Word for a policy for overlaps.
fn policy_word(policy: OverlapPolicy) -> &'static str
    ensures { result.now ≡ policy_text policy }
{
    match policy {
        OverlapPolicy::LastWins => "last",
        OverlapPolicy::FirstWins => "first",
        OverlapPolicy::Discard => "discard",
    }
}

/// Returns the policy for overlaps that a word names, or `None` for any other word.
pub fn policy_named(word: &str) -> Option<OverlapPolicy> {
    for policy in [
        OverlapPolicy::LastWins,
        OverlapPolicy::FirstWins,
        OverlapPolicy::Discard,
    ] {
        if policy_word(policy) == word {
            return Some(policy);
        }
    }
    None
}
