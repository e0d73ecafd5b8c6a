//! Limits, counters and evicted streams of a bounded reassembly pool, as numbers in C's memory layout.

/// Limits of a bounded reassembly pool, as C passes them.
#[repr(C)]
#[derive(Clone, Copy)]
pub struct DefragLimits {
    /// Greatest number of streams, open and discarded ones; 0 counts as 1.
    pub streams: usize,
    /// Greatest memory of all streams in bytes: the capacities of their data and section lists.
    pub bytes: usize,
    /// Time that a stream may stay after its first accepted fragment, in the unit of the caller's timestamps.
    pub age: u64,
    /// Rule for fragments that overlap earlier ones of their stream (`enum etherparse_overlap`): 0 the last one wins, 1
    /// the first one wins, 2 a contradiction discards the stream.
    pub overlap: u32,
    /// Greatest length of a payload in bytes. A fragment that ends above it is rejected.
    pub payload: u16,
}

/// Counters of a bounded reassembly pool since it was created. A counter that reached its greatest value stays there.
#[repr(C)]
#[derive(Clone, Copy)]
pub struct DefragStatistics {
    /// Streams that began with an accepted fragment.
    pub begun: u64,
    /// Streams whose payload was returned.
    pub completed: u64,
    /// Streams that were discarded because two versions of their payload arrived.
    pub discarded: u64,
    /// Open streams that were evicted for their age, or by `etherparse_2_bounded_pool_expire`.
    pub expired: u64,
    /// Open streams that were evicted because there were too many streams.
    pub evicted_for_streams: u64,
    /// Open streams that were evicted because all streams, or the stream alone, used too much memory.
    pub evicted_for_bytes: u64,
    /// Open streams that `etherparse_2_bounded_pool_remove` or `etherparse_2_bounded_pool_clear` removed.
    pub removed: u64,
    /// Fragments that were accepted, also those that complete a payload.
    pub accepted: u64,
    /// Fragments that were rejected because their length is not a multiple of 8 though more fragments follow.
    pub rejected_unaligned: u64,
    /// Fragments that were rejected because they end above the greatest length of a payload.
    pub rejected_too_big: u64,
    /// Fragments that were rejected because they contradict the known end of their payload.
    pub rejected_conflicting_end: u64,
    /// Fragments for which an allocation failed.
    pub rejected_out_of_memory: u64,
    /// Fragments that were rejected because their stream is discarded.
    pub rejected_discarded: u64,
    /// Fragments that were rejected because their stream alone would need too much memory.
    pub rejected_over_budget: u64,
}

/// Identifier of a stream: fields that all fragments of one IP datagram share.
#[repr(C)]
#[derive(Clone, Copy, PartialEq)]
pub struct StreamId {
    /// Channel that the caller passed with the fragments.
    pub channel: u64,
    /// Identification of the datagram (16 bits in IPv4, 32 bits in IPv6).
    pub identification: u32,
    /// Number of VLAN tags of the packets, 0 to 3.
    pub vlan_id_count: u32,
    /// VLAN identifiers of the packets, from the outermost to the innermost; 0 for absent tags.
    pub vlan_ids: [u16; 3],
    /// IP version: 4 or 6.
    pub version: u8,
    /// IP protocol number of the fragmented payload.
    pub ip_number: u8,
    /// Source IPv4 address; all 0 if the IP version is 6.
    pub ipv4_source: [u8; 4],
    /// Destination IPv4 address; all 0 if the IP version is 6.
    pub ipv4_destination: [u8; 4],
    /// Source IPv6 address; all 0 if the IP version is 4.
    pub ipv6_source: [u8; 16],
    /// Destination IPv6 address; all 0 if the IP version is 4.
    pub ipv6_destination: [u8; 16],
}

/// A stream that a bounded reassembly pool evicted or discarded, or a discarded stream whose identifier it evicted.
#[repr(C)]
#[derive(Clone, Copy)]
pub struct EvictedStream {
    /// Identifier of the stream.
    pub id: StreamId,
    /// Timestamp of its first accepted fragment.
    pub first: u64,
    /// Cause for which it was evicted or discarded (`enum etherparse_eviction_cause`): 1 age, 2 overlap, 3 number of
    /// streams, 4 memory.
    pub cause: u32,
}
