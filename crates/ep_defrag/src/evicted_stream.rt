//! Streams that a bounded reassembly pool evicted or discarded.

use crate::ip_frag_id::IpFragId;

/// Cause for which a bounded reassembly pool evicts or discards a stream.
#[derive(Clone, Copy, Debug, PartialEq, Eq, Hash)]
pub enum EvictionCause {
    /// Its first accepted fragment arrived too long ago, or at a call of `expire` its last one.
    Expired,
    /// Two versions of its payload arrived, so it is discarded. Its identifier stays in the table.
    Overlap,
    /// There were more streams than [`DefragLimits::streams`](crate::DefragLimits::streams) allows.
    Streams,
    /// All streams, or the stream alone, used more memory than [`DefragLimits::bytes`](crate::DefragLimits::bytes)
    /// allows.
    Bytes,
}

/// A stream that a bounded reassembly pool evicted or discarded, or a discarded stream whose identifier it evicted.
#[derive(Debug, Drop)]
pub struct EvictedStream<CustomChannelId> {
    /// Identifier of the stream.
    pub id: IpFragId<CustomChannelId>,
    /// Cause for which it was evicted or discarded.
    pub cause: EvictionCause,
    /// Timestamp that came with its first accepted fragment.
    pub first: u128,
}
