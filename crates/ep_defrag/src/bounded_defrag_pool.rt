//! The bounded reassembly pool, which reassembles the payloads of hostile traffic within fixed memory.

ghost use Rattle.std.specs.Prelude.{◌≡◌, ℕ, ◌+◌, [], List, length, is_some, None, IfOk};
ghost use Rattle.ep_defrag.specs.BoundedSteps.{Row, row_named, removes_name, clears_names, expires_names};
ghost use Rattle.ep_defrag.specs.BoundedPools.{limits_in, names_in, evicted_in, statistics_in, keys_in, room_in, open_in, IsBounded, HoldsRows, DoesStep, TakesBounded, TakesBoundedFrame};
ghost use Rattle.ep_defrag.specs.Pools.{fragment_in};
ghost use Rattle.ep_defrag.specs.BoundedCounts.{AddUp, no_statistics};

use crate::bounded_defrag_error::BoundedDefragError;
use crate::bounded_limits::DefragLimits;
use crate::carried_fragment::carried_fragment;
use crate::defrag_statistics::DefragStatistics;
use crate::evicted_stream::{EvictedStream, EvictionCause};
use crate::fragment::Fragment;
use crate::held_stream::HeldStream;
use crate::holdings::Holdings;
use crate::ip_defrag_payload_vec::IpDefragPayloadVec;
use crate::ip_frag_id::IpFragId;
use crate::laws::names;
use ep_packet::SlicedPacket;
use lru_table::Lookup;
use lru_table::laws::places;
use std::alloc::{AllocError, Global};
use std::hash::{Hash, RandomState};
use std::marker::Model;

/// Reassembles the fragmented payloads of many streams, for traffic that may be hostile: within limits for names, bytes
/// and age, with a policy for overlaps, and with a hash whose keys a sender does not know.
///
/// A stream is the fragments of one IP datagram, identified by an [`IpFragId`]. It begins with its first accepted
/// fragment, and is answered as if it were alone until its payload is returned, or until it is discarded, evicted or
/// removed. Each call reports what it evicted or discarded ([`evicted`](BoundedDefragPool::evicted)).
#[derive(Drop)]
pub struct BoundedDefragPool<CustomChannelId: Eq + Hash> {
    limits: DefragLimits,
    holdings: Holdings<CustomChannelId>,
}

impl<CustomChannelId: Eq + Hash> Model for BoundedDefragPool<CustomChannelId> {
    ghost use Rattle.std.specs.Prelude.{List};
    ghost use Rattle.ep_defrag.specs.declared.ip_frag_id.IpFragId.{IpFragId};
    ghost use Rattle.ep_defrag.specs.declared.bounded_limits.DefragLimits.{DefragLimits};
    ghost use Rattle.ep_defrag.specs.declared.held_stream.HeldStream.{HeldStream};
    ghost use Rattle.ep_defrag.specs.declared.evicted_stream.EvictedStream.{EvictedStream};
    ghost use Rattle.ep_defrag.specs.declared.defrag_statistics.DefragStatistics.{DefragStatistics};
    ghost use Rattle.ep_defrag.specs.BoundedNames.{names_of, AreHashed, AreWithinLimits};
    ghost use Rattle.std.specs.declared.hash.RandomState.{RandomState};

    ghost Value = { DefragLimits × List (IpFragId CustomChannelId × HeldStream) × List (EvictedStream CustomChannelId)
        × DefragStatistics × RandomState };

    ghost view = { λ pool. (
      pool.limits,
      names_of pool.holdings.table,
      pool.holdings.evicted.items,
      pool.holdings.statistics,
      pool.holdings.keys,
    ) };

    ghost invariant = { λ pool. AreWithinLimits pool.limits (names_of pool.holdings.table)
        × AreHashed CustomChannelId.hash_input pool.holdings.keys pool.holdings.table };
}

impl<CustomChannelId: Eq + Hash + Drop> BoundedDefragPool<CustomChannelId> {
    /// Returns an empty bounded pool. `keys` are the secret keys of its hash: `RandomState::new` takes them from a
    /// `RandomSource`.
    pub fn new(
        alloc: Global,
        limits: DefragLimits,
        keys: RandomState,
    ) -> Result<BoundedDefragPool<CustomChannelId>, AllocError>
        ensures names { IfOk result (λ pool. names_in pool ≡ []) }
        ensures limits { IfOk result (λ pool. limits_in pool ≡ limits) }
        ensures evicted { IfOk result (λ pool. evicted_in pool ≡ []) }
        ensures statistics { IfOk result (λ pool. statistics_in pool ≡ no_statistics) }
        ensures keys { IfOk result (λ pool. keys_in pool ≡ keys) }
        ensures bounded { IfOk result (λ pool. IsBounded pool) }
    {
        Ok(BoundedDefragPool {
            limits,
            holdings: Holdings::new(alloc, keys)?,
        })
    }

    /// Limits of the pool, as they were passed to `new`.
    #[inline]
    pub fn limits(&self) -> DefragLimits
        ensures shown { result ≡ limits_in self.now }
        ensures bounded { IsBounded self.now }
    {
        self.limits
    }

    /// Number of open streams: IP datagrams with accepted fragments that are still incomplete, and not discarded.
    #[inline]
    pub fn stream_count(&self) -> usize
        ensures count { result ≡ open_in self.now }
        ensures bounded { IsBounded self.now }
    {
        self.holdings.table.len() - self.holdings.discarded
    }

    /// Number of discarded names that are still in the table.
    #[inline]
    pub fn discarded_count(&self) -> usize
        ensures count { open_in self.now + result ≡ length (names_in self.now) }
        ensures bounded { IsBounded self.now }
    {
        self.holdings.discarded
    }

    /// Memory of all open streams in bytes: the capacities of their data and section lists.
    #[inline]
    pub fn held_bytes(&self) -> usize
        ensures room { result ≡ room_in self.now }
        ensures bounded { IsBounded self.now }
    {
        // Read first: so the proof knows that it fits a `usize`.
        let _most = self.limits.bytes;
        self.holdings.held as usize
    }

    /// Counters of the pool since it was made.
    #[inline]
    pub fn statistics(&self) -> DefragStatistics
        ensures shown { result ≡ statistics_in self.now }
        ensures sums { AddUp result (open_in self.now) }
        ensures bounded { IsBounded self.now }
    {
        self.holdings.statistics
    }

    /// Streams that the last call evicted or discarded: first its own stream if that had expired, then those evicted
    /// for the limits, the one whose last accepted fragment was oldest first.
    #[inline]
    pub fn evicted(&self) -> &[EvictedStream<CustomChannelId>]
        ensures shown { result.now ≡ evicted_in self.now }
        ensures bounded { IsBounded self.now }
    {
        self.holdings.evicted.as_slice()
    }

    /// Adds the fragment that a sliced packet carries to its stream, and returns the payload if this fragment completes
    /// it. It returns `Ok(None)` if bytes are still missing, or if the packet carries no fragment, which changes no
    /// stream.
    pub fn process_sliced_packet(
        &mut self,
        packet: &SlicedPacket<'_>,
        now: u128,
        channel_id: CustomChannelId,
    ) -> Result<Option<IpDefragPayloadVec>, BoundedDefragError>
        ensures takes { TakesBoundedFrame CustomChannelId.eq self.old self.new (fragment_in packet.now) now channel_id
            result }
        ensures bounded { IsBounded self.new }
        ensures keys { keys_in self.new ≡ keys_in self.old }
    {
        let Some(carried) = carried_fragment(packet) else {
            self.holdings.evicted.clear();
            return Ok(None);
        };
        let id = IpFragId {
            vlan_ids: carried.vlan_ids,
            ip: carried.ip,
            payload_ip_number: carried.payload_ip_number,
            channel_id,
        };
        self.process_fragment(id, &carried.fragment, now)
    }

    /// Adds a fragment to the stream `id`, and returns the payload if this fragment completes it, or `Ok(None)` if
    /// bytes are still missing.
    ///
    /// # Errors
    ///
    /// In this order: `Discarded` if the stream is discarded; the errors of [`IpDefragBuf::add`], with the limit of the
    /// pool in place of 65535; under [`OverlapPolicy::Discard`](crate::OverlapPolicy::Discard) `Discarded` for a
    /// fragment that contradicts earlier ones, also in place of `ConflictingEnd`; `AllocationFailure`; and `OverBudget`
    /// if the stream alone then uses more memory than the limits allow.
    pub fn process_fragment(
        &mut self,
        id: IpFragId<CustomChannelId>,
        fragment: &Fragment,
        now: u128,
    ) -> Result<Option<IpDefragPayloadVec>, BoundedDefragError>
        ensures takes { TakesBounded CustomChannelId.eq self.old self.new id fragment.now now result }
        ensures bounded { IsBounded self.new }
        ensures keys { keys_in self.new ≡ keys_in self.old }
    {
        // Identifiers are equal if they name the same stream.
        names::<CustomChannelId>();
        // The entry is between others, which stay.
        places::<IpFragId<CustomChannelId>, HeldStream>();
        self.holdings.statistics.fit();
        self.holdings.evicted.clear();
        let limits = self.limits;
        let (lookup, expired) = self.holdings.find_expired(&limits, &id, now);
        let answer = match lookup {
            Lookup::Present(slot) => {
                if expired {
                    self.holdings.evict(slot, EvictionCause::Expired);
                    self.holdings.begin_stream(&limits, slot, id, fragment, now)
                } else {
                    self.holdings
                        .continue_stream(&limits, slot, id, fragment, now)
                }
            }
            Lookup::Vacant(slot) => self.holdings.begin_stream(&limits, slot, id, fragment, now),
        };
        // No two names of the table are equal.
        let _ = self.holdings.table.len();
        self.holdings.statistics.count_answer(&answer);
        answer
    }

    /// Evicts each name that is older than the age of the limits, or whose last accepted fragment came more than `idle`
    /// before `now`. Returns their number. It visits every name.
    pub fn expire(&mut self, now: u128, idle: u128) -> usize
        ensures step { (rows : List (Row CustomChannelId)) (number : ℕ) → HoldsRows CustomChannelId.eq self.old rows →
            DoesStep CustomChannelId.eq self.old self.new (expires_names now idle) number None rows }
        ensures count { result ≡ length (evicted_in self.new) }
        ensures bounded { IsBounded self.new }
        ensures keys { keys_in self.new ≡ keys_in self.old }
    {
        self.holdings.statistics.fit();
        self.holdings.evicted.clear();
        let limits = self.limits;
        self.holdings.evict_due(&limits, now, idle);
        self.holdings.evicted.len()
    }

    /// Removes the name `id` from the table, an open stream or a discarded one, and returns whether it was there.
    pub fn remove(&mut self, id: &IpFragId<CustomChannelId>) -> bool
        ensures step { (rows : List (Row CustomChannelId)) (number : ℕ) → HoldsRows CustomChannelId.eq self.old rows →
            DoesStep CustomChannelId.eq self.old self.new (removes_name id.now) number None rows }
        ensures present { (rows : List (Row CustomChannelId)) → HoldsRows CustomChannelId.eq self.old rows →
            result ≡ is_some (row_named CustomChannelId.eq id.now rows) }
        ensures bounded { IsBounded self.new }
        ensures keys { keys_in self.new ≡ keys_in self.old }
    {
        // Identifiers are equal if they name the same stream.
        names::<CustomChannelId>();
        // The entry is between others, which stay.
        places::<IpFragId<CustomChannelId>, HeldStream>();
        self.holdings.statistics.fit();
        self.holdings.evicted.clear();
        match self.holdings.find(id) {
            Lookup::Present(slot) => {
                self.holdings.remove(slot);
                true
            }
            Lookup::Vacant(_) => false,
        }
    }

    /// Removes all names from the table. The counters stay.
    pub fn clear(&mut self)
        ensures step { (rows : List (Row CustomChannelId)) (number : ℕ) → HoldsRows CustomChannelId.eq self.old rows →
            DoesStep CustomChannelId.eq self.old self.new clears_names number None rows }
        ensures bounded { IsBounded self.new }
        ensures keys { keys_in self.new ≡ keys_in self.old }
    {
        self.holdings.statistics.fit();
        self.holdings.evicted.clear();
        self.holdings.remove_all();
    }
}
