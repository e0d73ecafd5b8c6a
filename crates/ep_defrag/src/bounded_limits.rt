//! Limits of a bounded reassembly pool, and its policy for overlapping fragments.

ghost use Rattle.std.specs.Prelude.{◌≡◌, min};
ghost use Rattle.ep_defrag.specs.declared.bounded_limits.TheConstants as constant;

/// Memory of an identifier in the table of a bounded pool, in bytes, besides the buffer of its stream: its entry, its
/// place in the hash map and in the list of evicted streams, and the overhead of the allocator. It is a measured bound,
/// not a proved one: on x86-64 with glibc and a `u64` as the channel up to 500 are allocated, and some 400 resident.
pub const BOUNDED_NAME_MEMORY: usize = 512;

/// Rule for fragments that overlap earlier ones.
#[derive(Clone, Copy, Debug, PartialEq, Eq, Hash)]
pub enum OverlapPolicy {
    /// Each byte is that of the last accepted fragment at its position.
    LastWins,
    /// Each byte is that of the first accepted fragment at its position.
    FirstWins,
    /// A fragment that contradicts earlier ones of its stream discards the stream (RFC 8200, 4.5 and RFC 5722, 4): its
    /// end conflicts, or it overlaps them and does not only repeat their bytes. A fragment that repeats bytes is
    /// accepted.
    Discard,
}

impl Default for OverlapPolicy {
    ghost use Rattle.ep_defrag.specs.declared.bounded_limits.OverlapPolicy.TheVariants.{Discard};

    ghost is_default = { λ policy. policy ≡ Discard };

    fn default() -> OverlapPolicy {
        OverlapPolicy::Discard
    }
}

/// Limits of a bounded reassembly pool.
#[derive(Clone, Copy, Debug, PartialEq, Eq, Hash)]
pub struct DefragLimits {
    /// Greatest number of streams, open and discarded ones; 0 counts as 1.
    pub streams: usize,
    /// Greatest memory of all streams in bytes: the capacities of their data and section lists.
    pub bytes: usize,
    /// Greatest length of a payload in bytes. A fragment that ends above it is rejected.
    pub payload: u16,
    /// Time that a stream may stay after its first accepted fragment, in the unit of the caller's timestamps.
    pub age: u128,
    /// Rule for fragments that overlap earlier ones of their stream.
    pub overlap: OverlapPolicy,
}

impl Default for DefragLimits {
    ghost use Rattle.ep_defrag.specs.BoundedLimits.{default_limits};

    ghost is_default = { λ limits. limits ≡ default_limits };

    fn default() -> DefragLimits {
        DefragLimits {
            streams: 4096,
            bytes: 32 * 1024 * 1024,
            payload: u16::MAX,
            age: 60_000,
            overlap: OverlapPolicy::Discard,
        }
    }
}

impl DefragLimits {
    ghost use Rattle.ep_defrag.specs.BoundedLimits.{most_names, memory_of};

    /// Greatest number of identifiers in the table: `streams`, but at least 1.
    #[inline]
    pub(crate) fn most_names(&self) -> usize
        ensures { result ≡ most_names self.now }
    {
        self.streams.max(1)
    }

    /// Greatest memory of a bounded pool with these limits, in bytes: `bytes`, and [`BOUNDED_NAME_MEMORY`] for each
    /// stream. During a call one buffer may grow beyond it. Saturates at `usize::MAX`.
    pub fn memory(&self) -> usize
        ensures { result ≡ min (memory_of constant.BOUNDED_NAME_MEMORY self.now) usize.MAX }
    {
        self.most_names()
            .saturating_mul(BOUNDED_NAME_MEMORY)
            .saturating_add(self.bytes)
    }
}
