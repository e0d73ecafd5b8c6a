//! Table of a bounded reassembly pool, with its sums, counters and reports. Within a call it may exceed the limits of
//! the pool, which are no invariant here.

ghost use Rattle.std.specs.Prelude.{◌≡◌, ◌+◌, ◌≤◌, length, vec_capacity};
ghost use Rattle.ep_defrag.specs.BoundedCounts.{AddUp};
ghost use Rattle.ep_defrag.specs.BoundedAnswers.{ReturnsPayload};
ghost use Rattle.ep_defrag.specs.BoundedNames.{names_of, room_of_names, open_names};

use crate::bounded_defrag_error::BoundedDefragError;
use crate::bounded_limits::DefragLimits;
use crate::defrag_statistics::{DefragStatistics, count};
use crate::departure::Departure;
use crate::evicted_stream::{EvictedStream, EvictionCause};
use crate::fragment::Fragment;
use crate::held_stream::{Added, HeldStream};
use crate::ip_defrag_buf::IpDefragBuf;
use crate::ip_defrag_error::IpDefragError;
use crate::ip_defrag_payload_vec::IpDefragPayloadVec;
use crate::ip_defrag_pool::payload_of;
use crate::ip_frag_id::IpFragId;
use crate::keyed_hash::hash_of;
use crate::laws::names;
use lru_table::laws::{places, walks};
use lru_table::{Lookup, LruTable, Slot};
use std::alloc::{AllocError, Global};
use std::hash::{Hash, RandomState};

/// Identifiers of a bounded pool with the states of their streams, their sums, and the report of the last call.
#[derive(Drop)]
pub(crate) struct Holdings<CustomChannelId: Eq + Hash> {
    alloc: Global,
    /// Secret keys of the hash of identifiers.
    pub(crate) keys: RandomState,
    /// Open and discarded streams by their identifiers, in the order of their last accepted fragments.
    pub(crate) table: LruTable<IpFragId<CustomChannelId>, HeldStream>,
    /// Memory of all streams in bytes.
    pub(crate) held: u128,
    /// Number of discarded streams in the table.
    pub(crate) discarded: usize,
    pub(crate) statistics: DefragStatistics,
    /// Streams that the last call evicted or discarded. Its capacity is at least the number of entries of the table, so
    /// that evicting never allocates.
    pub(crate) evicted: Vec<EvictedStream<CustomChannelId>>,
    ghost room: { held ≡ room_of_names (names_of table) },
    ghost states: { open_names (names_of table) + discarded ≡ length table },
    ghost reportable: { length table ≤ vec_capacity evicted },
    ghost sums: { AddUp statistics (open_names (names_of table)) },
}

impl<CustomChannelId: Eq + Hash + Drop> Holdings<CustomChannelId> {
    ghost use Rattle.ep_defrag.specs.declared.ip_frag_id.IpFragId.{IpFragId};
    ghost use Rattle.std.specs.Prelude.{◌≢◌, ◌<◌, ◌^◌, nat_lt, IsTrue, IsFalse, true, is_some, [], ◌∷◌, ◌++◌, Some, None, Ok, Err, IfOk, OnOk, OnErr, IfSome, vec_len, List, if◌then◌else◌};
    ghost use Rattle.std.specs.List.{AllZip};
    ghost use Rattle.lru_table.specs.LruTable.{entry_at, found_value, without, with_newest, IsTaken, IsPresent, IsVacant, Finds};
    ghost use Rattle.ep_defrag.specs.KeyedHashes.{name_hash};
    ghost use Rattle.ep_defrag.specs.BoundedCounts.{counted, no_statistics};
    ghost use Rattle.ep_defrag.specs.BoundedLimits.{most_names};
    ghost use Rattle.ep_defrag.specs.BoundedSteps.{Row, are_within, limit_cause};
    ghost use Rattle.ep_defrag.specs.BoundedNames.{held_room, AreHashed, AreWithinLimits, HoldsRow};
    ghost use Rattle.ep_defrag.specs.BoundedHoldings.{CanReport, AreLeft, TakesName, EvictsName, EvictsForLimits, RemovesAll, is_stream_due, EvictsDue, TakesFragmentStep};

    /// Returns holdings without names.
    pub(crate) fn new(
        alloc: Global,
        keys: RandomState,
    ) -> Result<Holdings<CustomChannelId>, AllocError>
        ensures keys { IfOk result (λ holdings. holdings.keys ≡ keys) }
        ensures table { IfOk result (λ holdings. holdings.table ≡ []) }
        ensures evicted { IfOk result (λ holdings. holdings.evicted.items ≡ []) }
        ensures statistics { IfOk result (λ holdings. holdings.statistics ≡ no_statistics) }
    {
        Ok(Holdings {
            alloc,
            keys,
            table: LruTable::new(alloc)?,
            held: 0,
            discarded: 0,
            statistics: DefragStatistics::new(),
            evicted: Vec::new(alloc),
        })
    }

    /// Returns the slot of an identifier in the table, or the vacant slot for it.
    pub(crate) fn find(&self, id: &IpFragId<CustomChannelId>) -> Lookup
        ensures { Finds ⟦<IpFragId<CustomChannelId> as PartialEq>⟧.eq self.now.table
            (name_hash CustomChannelId.hash_input self.now.keys id.now) id.now result }
    {
        self.table.find(hash_of(&self.keys, id), id)
    }

    /// Returns what [`find`](Holdings::find) returns, and whether the stream in this slot is older than the age of the
    /// limits.
    pub(crate) fn find_expired(
        &self,
        limits: &DefragLimits,
        id: &IpFragId<CustomChannelId>,
        now: u128,
    ) -> (Lookup, bool)
        ensures found { Finds ⟦<IpFragId<CustomChannelId> as PartialEq>⟧.eq self.now.table
            (name_hash CustomChannelId.hash_input self.now.keys id.now) id.now result.0 }
        ensures expired { IfSome (found_value result.0 self.now.table)
            (λ stream. result.1 ≡ nat_lt (stream.first + limits.now.age) now) }
    {
        let (lookup, stream) = self.table.find_value(hash_of(&self.keys, id), id);
        let expired = match stream {
            Some(stream) => stream.is_expired(limits, now),
            None => false,
        };
        (lookup, expired)
    }

    /// Removes a name from the table, subtracts it from the sums, and counts its stream if it was open. Returns `None`
    /// if the slot is free.
    fn take(
        &mut self,
        slot: Slot,
        departure: Departure,
    ) -> Option<(IpFragId<CustomChannelId>, HeldStream)>
        ensures name { result ≡ entry_at slot self.old.table }
        ensures taken { IfSome result (TakesName self.old self.new slot departure) }
        ensures kept { self.new.table ≡ without slot self.old.table }
        ensures vacated { (id : IpFragId CustomChannelId) →
            IsPresent ⟦<IpFragId<CustomChannelId> as PartialEq>⟧.eq self.old.table slot id →
            IsVacant ⟦<IpFragId<CustomChannelId> as PartialEq>⟧.eq self.new.table slot id }
        ensures left { AreLeft self.old self.new }
    {
        // The entry is between others, which stay.
        places::<IpFragId<CustomChannelId>, HeldStream>();
        let (id, stream) = self.table.remove(slot)?;
        self.held -= stream.room();
        if stream.buffer.is_some() {
            self.statistics.count_departure(departure);
        } else {
            self.discarded -= 1;
        }
        Some((id, stream))
    }

    /// Removes the name in a slot for the caller of the pool.
    pub(crate) fn remove(&mut self, slot: Slot)
        requires { IsTaken slot self.old.table }
        ensures removed { IfSome (entry_at slot self.old.table) (TakesName self.old self.new slot Departure.Removed) }
        ensures left { AreLeft self.old self.new }
    {
        let _ = self.take(slot, Departure::Removed);
    }

    /// Evicts the name in a slot, and reports it.
    pub(crate) fn evict(&mut self, slot: Slot, cause: EvictionCause)
        requires taken { IsTaken slot self.old.table }
        requires reportable { vec_len self.old.evicted < vec_capacity self.old.evicted }
        ensures evicted { IfSome (entry_at slot self.old.table) (EvictsName self.old self.new slot cause) }
        ensures vacated { (id : IpFragId CustomChannelId) →
            IsPresent ⟦<IpFragId<CustomChannelId> as PartialEq>⟧.eq self.old.table slot id →
            IsVacant ⟦<IpFragId<CustomChannelId> as PartialEq>⟧.eq self.new.table slot id }
        ensures left { AreLeft self.old self.new }
    {
        if let Some((id, stream)) = self.take(slot, Departure::Evicted(cause)) {
            self.evicted.push_reserved(EvictedStream {
                id,
                cause,
                first: stream.first,
            });
        }
    }

    /// Returns whether `expire` evicts the stream in a slot: it is older than the age of the limits, or its last
    /// accepted fragment came more than `idle` before `now`.
    fn is_due(&self, limits: &DefragLimits, slot: Slot, now: u128, idle: u128) -> bool
        ensures { IfSome (entry_at slot self.now.table)
            (λ name. result ≡ is_stream_due limits.now now idle name.1) }
    {
        match self.table.get(slot) {
            Some((_, stream)) => stream.is_due(limits, now, idle),
            None => false,
        }
    }

    /// Evicts each stream that is older than the age of the limits, or whose last accepted fragment came more than
    /// `idle` before `now`. The others keep their order: each is visited once, from the oldest to the newest.
    pub(crate) fn evict_due(&mut self, limits: &DefragLimits, now: u128, idle: u128)
        requires { vec_len self.old.evicted ≡ 0 }
        ensures due { EvictsDue limits.now now idle self.old self.new }
        ensures left { AreLeft self.old self.new }
    {
        // The oldest name is the first entry.
        walks::<IpFragId<CustomChannelId>, HeldStream>();
        // The entry is between others, which stay.
        places::<IpFragId<CustomChannelId>, HeldStream>();
        self.statistics.fit();
        for _visited in 0..self.table.len() {
            let Some(slot) = self.table.oldest() else {
                return;
            };
            if self.is_due(limits, slot, now, idle) {
                self.evict(slot, EvictionCause::Expired);
            } else {
                self.table.touch(slot);
            }
        }
    }

    /// Removes all names for the caller of the pool.
    pub(crate) fn remove_all(&mut self)
        ensures removed { RemovesAll self.old self.new }
        ensures left { AreLeft self.old self.new }
    {
        // The oldest name is the first entry.
        walks::<IpFragId<CustomChannelId>, HeldStream>();
        while let Some(slot) = self.table.oldest() {
            self.remove(slot);
        }
        self.statistics.fit();
    }

    /// Evicts the streams whose last accepted fragments are oldest, until the limits are met.
    fn evict_over_limits(&mut self, limits: &DefragLimits)
        requires { CanReport self.old }
        ensures evicted { EvictsForLimits CustomChannelId.eq limits.now (names_of self.old.table) self.old self.new }
        ensures within { AreWithinLimits limits.now (names_of self.new.table) }
        ensures left { AreLeft self.old self.new }
    {
        // The oldest name is the first entry.
        walks::<IpFragId<CustomChannelId>, HeldStream>();
        while let Some(cause) = self.limit_cause(limits) {
            let Some(slot) = self.table.oldest() else {
                return;
            };
            self.evict(slot, cause);
        }
        self.statistics.fit();
    }

    /// Returns the cause for which a stream has to be evicted, or `None` if the limits are met.
    fn limit_cause(&self, limits: &DefragLimits) -> Option<EvictionCause>
        ensures cause { (rows : List (Row CustomChannelId)) →
            AllZip (HoldsRow limits.now) (names_of self.now.table) rows →
            result ≡ (if are_within limits.now rows then None else Some (limit_cause limits.now rows)) }
        ensures within { result ≡ None → AreWithinLimits limits.now (names_of self.now.table) }
        ensures some { (cause : EvictionCause) → result ≡ Some cause → length self.now.table ≢ 0 }
    {
        if self.table.len() > limits.most_names() {
            return Some(EvictionCause::Streams);
        }
        if self.held > limits.bytes as u128 {
            return Some(EvictionCause::Bytes);
        }
        None
    }

    /// Adds a fragment to the stream in a slot.
    pub(crate) fn continue_stream(
        &mut self,
        limits: &DefragLimits,
        slot: Slot,
        id: IpFragId<CustomChannelId>,
        fragment: &Fragment,
        now: u128,
    ) -> Result<Option<IpDefragPayloadVec>, BoundedDefragError>
        requires present { IsPresent ⟦<IpFragId<CustomChannelId> as PartialEq>⟧.eq self.old.table slot id }
        requires within { AreWithinLimits limits.now (names_of self.old.table) }
        requires silent { vec_len self.old.evicted ≡ 0 }
        ensures takes { TakesFragmentStep CustomChannelId.eq limits.now self.old self.new id fragment.now now result }
        ensures within { AreWithinLimits limits.now (names_of self.new.table) }
        ensures keys { self.new.keys ≡ self.old.keys }
        ensures hashed { AreHashed CustomChannelId.hash_input self.old.keys self.old.table →
            AreHashed CustomChannelId.hash_input self.new.keys self.new.table }
    {
        // The entry is between others, which stay.
        places::<IpFragId<CustomChannelId>, HeldStream>();
        // Identifiers are equal exactly if they are of the same stream.
        names::<CustomChannelId>();
        self.statistics.fit();
        let Some(stream) = self.table.get_mut(slot) else {
            return Err(BoundedDefragError::Discarded);
        };
        let room_before = stream.room();
        let added = stream.add(limits, fragment, now);
        let room = stream.room();
        let first = stream.first;
        self.held = self.held - room_before + room;
        match added {
            Added::Rejected(error) => Err(error),
            Added::Discards => {
                self.discarded += 1;
                self.statistics.count_gone(EvictionCause::Overlap);
                self.evicted.push_reserved(EvictedStream {
                    id,
                    cause: EvictionCause::Overlap,
                    first,
                });
                Err(BoundedDefragError::Discarded)
            }
            Added::Completes => Ok(self.complete(slot)),
            Added::Continues => self.settle(limits, slot, room),
        }
    }

    /// Makes the stream in a slot the newest after it accepted a fragment, and evicts others over the limits. If this
    /// stream alone uses too much memory, only this one is evicted.
    fn settle(
        &mut self,
        limits: &DefragLimits,
        slot: Slot,
        room: u128,
    ) -> Result<Option<IpDefragPayloadVec>, BoundedDefragError>
        requires taken { IsTaken slot self.old.table }
        requires reportable { CanReport self.old }
        requires few { length self.old.table ≤ most_names limits.now + 1 }
        requires own { IfSome (entry_at slot self.old.table) (λ name. held_room name.1 ≡ room) }
        requires others { self.old.held ≤ room + limits.now.bytes }
        ensures over_budget { limits.now.bytes < room → (result ≡ Err BoundedDefragError.OverBudget)
            × IfSome (entry_at slot self.old.table) (EvictsName self.old self.new slot EvictionCause.Bytes) }
        ensures settled { room ≤ limits.now.bytes → (result ≡ Ok None) × EvictsForLimits CustomChannelId.eq limits.now
            (names_of (with_newest slot self.old.table)) self.old self.new }
        ensures within { AreWithinLimits limits.now (names_of self.new.table) }
        ensures left { AreLeft self.old self.new }
    {
        // The entry is between others, which stay.
        places::<IpFragId<CustomChannelId>, HeldStream>();
        if room > limits.bytes as u128 {
            self.evict(slot, EvictionCause::Bytes);
            return Err(BoundedDefragError::OverBudget);
        }
        self.table.touch(slot);
        self.evict_over_limits(limits);
        Ok(None)
    }

    /// Removes a complete stream from the table, and returns its payload.
    fn complete(&mut self, slot: Slot) -> Option<IpDefragPayloadVec>
        ensures payload { IfSome (entry_at slot self.old.table) (λ name. ReturnsPayload name.0 name.1.buffer result) }
        ensures taken { IfSome (entry_at slot self.old.table)
            (TakesName self.old self.new slot Departure.Completed) }
        ensures left { AreLeft self.old self.new }
    {
        let (id, stream) = self.take(slot, Departure::Completed)?;
        take_payload(id, stream)
    }

    /// Begins a stream with its first fragment, in a vacant slot.
    pub(crate) fn begin_stream(
        &mut self,
        limits: &DefragLimits,
        slot: Slot,
        id: IpFragId<CustomChannelId>,
        fragment: &Fragment,
        now: u128,
    ) -> Result<Option<IpDefragPayloadVec>, BoundedDefragError>
        requires vacant { IsVacant ⟦<IpFragId<CustomChannelId> as PartialEq>⟧.eq self.old.table slot id }
        requires hashed { slot.hash ≡ name_hash CustomChannelId.hash_input self.old.keys id }
        requires names { AreHashed CustomChannelId.hash_input self.old.keys self.old.table }
        requires within { AreWithinLimits limits.now (names_of self.old.table) }
        ensures takes { TakesFragmentStep CustomChannelId.eq limits.now self.old self.new id fragment.now now result }
        ensures within { AreWithinLimits limits.now (names_of self.new.table) }
        ensures keys { self.new.keys ≡ self.old.keys }
        ensures hashed { AreHashed CustomChannelId.hash_input self.old.keys self.old.table →
            AreHashed CustomChannelId.hash_input self.new.keys self.new.table }
    {
        // Identifiers are equal exactly if they are of the same stream.
        names::<CustomChannelId>();
        self.statistics.fit();
        let mut stream = HeldStream {
            buffer: Some(IpDefragBuf::new(
                id.payload_ip_number,
                Vec::new(self.alloc),
                Vec::new(self.alloc),
            )),
            first: now,
            last: now,
        };
        match stream.add(limits, fragment, now) {
            Added::Rejected(error) => return Err(error),
            Added::Discards => return Err(BoundedDefragError::Discarded),
            Added::Completes => {
                count(&mut self.statistics.begun);
                count(&mut self.statistics.completed);
                return Ok(take_payload(id, stream));
            }
            Added::Continues => {}
        }
        let room = stream.room();
        if self.hold(slot, id, stream).is_err() {
            let len = usize::from(fragment.offset.byte_offset()) + fragment.payload.len();
            return Err(BoundedDefragError::Rejected(IpDefragError::AllocationFailure { len }));
        }
        self.settle(limits, slot, room)
    }

    /// Adds an open stream to the table, with capacity to report it later.
    fn hold(
        &mut self,
        slot: Slot,
        id: IpFragId<CustomChannelId>,
        stream: HeldStream,
    ) -> Result<(), AllocError>
        requires vacant { IsVacant ⟦<IpFragId<CustomChannelId> as PartialEq>⟧.eq self.old.table slot id }
        requires open { is_some stream.buffer ≡ true }
        requires within { self.old.held < 2 ^ 64 }
        ensures table { OnOk result (self.new.table ≡ self.old.table ++ (slot, (id, stream)) ∷ []) }
        ensures reportable { OnOk result
            (vec_len self.new.evicted + length self.new.table ≤ vec_capacity self.new.evicted) }
        ensures evicted { self.new.evicted.items ≡ self.old.evicted.items }
        ensures statistics { OnOk result
            (self.new.statistics ≡ record self.old.statistics { begun = counted self.old.statistics.begun 1 }) }
        ensures err_table { OnErr result (self.new.table ≡ self.old.table) }
        ensures err_statistics { OnErr result (self.new.statistics ≡ self.old.statistics) }
        ensures keys { self.new.keys ≡ self.old.keys }
    {
        let room = stream.room();
        self.evicted.reserve(self.table.len() + 1)?;
        self.table.insert(slot, id, stream)?;
        self.held += room;
        count(&mut self.statistics.begun);
        Ok(())
    }
}

/// Returns the payload of a complete stream, or `None` if it is discarded.
fn take_payload<CustomChannelId: Drop>(
    id: IpFragId<CustomChannelId>,
    stream: HeldStream,
) -> Option<IpDefragPayloadVec>
    ensures { ReturnsPayload id stream.buffer result }
{
    let (payload, _) = stream.buffer?.take_bufs();
    Some(payload_of(&id, payload))
}
