//! Converts limits, counters and evicted streams of a bounded reassembly pool to and from the numbers of C.

ghost use Rattle.std.specs.Prelude.{◌≡◌, ℕ, Some, min, slice_index, ◌^◌, ◌-◌};
ghost use Rattle.etherparse.specs.BoundedCounts.{FitCounters};
ghost use Rattle.etherparse.specs.BoundedLimits.{default_limits};
ghost use Rattle.etherparse.specs.Types.IpFragId.{IpFragId};
ghost use Rattle.etherparse_c.specs.BoundedPoolAnswers.{IsIdentified, IsStreamId};
ghost use Rattle.etherparse_c.specs.BoundedPoolAnswers.{cause_number, evicted_part, limits_of, limits_part};
ghost use Rattle.etherparse_c.specs.BoundedPoolAnswers.{overlap_number, overlap_of, statistics_part, stream_part};

use crate::defrag_values::{DefragLimits, DefragStatistics, EvictedStream, StreamId};
use etherparse::defrag::{self, EvictionCause, IpFragId, IpFragVersionSpecId, OverlapPolicy};
use etherparse::{ArrayVec, IpNumber, VlanId};

/// Converts limits that C passes, or returns `None` if the number of their rule for overlaps is unknown.
pub(crate) fn limits_of(limits: &DefragLimits) -> Option<defrag::DefragLimits>
    ensures { result ≡ limits_of limits.now }
{
    let overlap = overlap_of(limits.overlap)?;
    Some(defrag::DefragLimits {
        streams: limits.streams,
        bytes: limits.bytes,
        payload: limits.payload,
        age: u128::from(limits.age),
        overlap,
    })
}

/// Converts C's number (0 to 2) of a rule for overlapping fragments, or returns `None` for other numbers.
fn overlap_of(number: u32) -> Option<OverlapPolicy>
    ensures { result ≡ overlap_of number }
{
    match number {
        0 => Some(OverlapPolicy::LastWins),
        1 => Some(OverlapPolicy::FirstWins),
        2 => Some(OverlapPolicy::Discard),
        _ => None,
    }
}

/// Returns the library's default limits as numbers for C.
pub(crate) fn default_limits() -> DefragLimits
    ensures { limits_of result ≡ Some default_limits }
{
    limits_part(&defrag::DefragLimits::default())
}

/// Converts the limits of a bounded reassembly pool for C.
pub(crate) fn limits_part(limits: &defrag::DefragLimits) -> DefragLimits
    ensures { result ≡ limits_part limits.now }
{
    DefragLimits {
        streams: limits.streams,
        bytes: limits.bytes,
        age: low_number(limits.age),
        overlap: overlap_number(limits.overlap),
        payload: limits.payload,
    }
}

/// Returns C's number (0 to 2) of a rule for overlapping fragments.
fn overlap_number(overlap: OverlapPolicy) -> u32
    ensures { result ≡ overlap_number overlap }
{
    match overlap {
        OverlapPolicy::LastWins => 0,
        OverlapPolicy::FirstWins => 1,
        OverlapPolicy::Discard => 2,
    }
}

/// Converts the counters of a bounded reassembly pool for C.
pub(crate) fn statistics_part(counters: &defrag::DefragStatistics) -> DefragStatistics
    ensures { result ≡ statistics_part counters.now }
{
    DefragStatistics {
        begun: counters.begun,
        completed: counters.completed,
        discarded: counters.discarded,
        expired: counters.expired,
        evicted_for_streams: counters.evicted_for_streams,
        evicted_for_bytes: counters.evicted_for_bytes,
        removed: counters.removed,
        accepted: counters.accepted,
        rejected_unaligned: counters.rejected_unaligned,
        rejected_too_big: counters.rejected_too_big,
        rejected_conflicting_end: counters.rejected_conflicting_end,
        rejected_out_of_memory: counters.rejected_out_of_memory,
        rejected_discarded: counters.rejected_discarded,
        rejected_over_budget: counters.rejected_over_budget,
    }
}

/// States that each counter of a bounded reassembly pool fits 64 bits.
pub(crate) fn counters_fit(counters: defrag::DefragStatistics)
    ensures { FitCounters counters }
{}

/// Converts a stream that a bounded reassembly pool evicted or discarded for C.
pub(crate) fn evicted_part(evicted: &defrag::EvictedStream<u64>) -> EvictedStream
    ensures { result ≡ evicted_part evicted.now }
{
    EvictedStream {
        id: stream_part(&evicted.id),
        first: low_number(evicted.first),
        cause: cause_number(evicted.cause),
    }
}

/// Returns a timestamp of C, which the library keeps as 128 bits. Greater numbers become the greatest one of 64 bits.
fn low_number(time: u128) -> u64
    ensures { result ≡ min time (2 ^ 64 - 1) }
{
    time.min(u128::from(u64::MAX)) as u64
}

/// Returns C's number (1 to 4) of the cause for which a stream was evicted or discarded.
fn cause_number(cause: EvictionCause) -> u32
    ensures { result ≡ cause_number cause }
{
    match cause {
        EvictionCause::Expired => 1,
        EvictionCause::Overlap => 2,
        EvictionCause::Streams => 3,
        EvictionCause::Bytes => 4,
    }
}

/// Converts the identifier of a stream for C.
fn stream_part(id: &IpFragId<u64>) -> StreamId
    ensures { result ≡ stream_part id.now }
{
    let vlan_ids = id.vlan_ids.as_slice();
    let part = StreamId {
        channel: id.channel_id,
        identification: 0,
        vlan_id_count: vlan_ids.len() as u32,
        vlan_ids: [
            vlan_id_at(vlan_ids, 0),
            vlan_id_at(vlan_ids, 1),
            vlan_id_at(vlan_ids, 2),
        ],
        version: 0,
        ip_number: id.payload_ip_number.0,
        ipv4_source: [0; 4],
        ipv4_destination: [0; 4],
        ipv6_source: [0; 16],
        ipv6_destination: [0; 16],
    };
    match &id.ip {
        IpFragVersionSpecId::Ipv4 {
            source,
            destination,
            identification,
        } => StreamId {
            identification: u32::from(*identification),
            version: 4,
            ipv4_source: *source,
            ipv4_destination: *destination,
            ..part
        },
        IpFragVersionSpecId::Ipv6 {
            source,
            destination,
            identification,
        } => StreamId {
            identification: *identification,
            version: 6,
            ipv6_source: *source,
            ipv6_destination: *destination,
            ..part
        },
    }
}

/// Returns the VLAN identifier at an index, or 0 if there are fewer.
fn vlan_id_at(ids: &[VlanId], index: usize) -> u16
    ensures { result ≡ slice_index ids.now index }
{
    match ids.get(index) {
        Some(id) => id.value(),
        None => 0,
    }
}

/// Converts the identifier of a stream that C passes, or returns `None` if no stream has these numbers.
pub(crate) fn stream_id_of(part: &StreamId) -> Option<IpFragId<u64>>
    ensures { IsIdentified result part.now }
{
    let id = IpFragId {
        vlan_ids: vlan_ids_of(part)?,
        ip: version_of(part)?,
        payload_ip_number: IpNumber(part.ip_number),
        channel_id: part.channel,
    };
    // Numbers that are not used, as addresses of the other version, must be 0.
    if stream_part(&id) == *part {
        Some(id)
    } else {
        None
    }
}

/// Converts the VLAN identifiers of a stream that C passes, or returns `None` if one of the three numbers is above 4095.
fn vlan_ids_of(part: &StreamId) -> Option<ArrayVec<VlanId, 3>>
    ensures { (id : IpFragId ℕ) → IsStreamId id → stream_part id ≡ part.now → result ≡ Some id.vlan_ids }
{
    let mut ids = ArrayVec::from([
        VlanId::try_new(part.vlan_ids[0]).ok()?,
        VlanId::try_new(part.vlan_ids[1]).ok()?,
        VlanId::try_new(part.vlan_ids[2]).ok()?,
    ]);
    ids.truncate(part.vlan_id_count as usize);
    Some(ids)
}

/// Converts the IP version, addresses and identification of a stream that C passes, or returns `None` if the version is
/// not 4 or 6, or if it is 4 and the identification is above 65535.
fn version_of(part: &StreamId) -> Option<IpFragVersionSpecId>
    ensures { (id : IpFragId ℕ) → IsStreamId id → stream_part id ≡ part.now → result ≡ Some id.ip }
{
    match part.version {
        4 => Some(IpFragVersionSpecId::Ipv4 {
            source: part.ipv4_source,
            destination: part.ipv4_destination,
            identification: u16::try_from(part.identification).ok()?,
        }),
        6 => Some(IpFragVersionSpecId::Ipv6 {
            source: part.ipv6_source,
            destination: part.ipv6_destination,
            identification: part.identification,
        }),
        _ => None,
    }
}
