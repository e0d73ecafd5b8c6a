//! The table, over a cache of the crate `lru` whose keys are slots.

ghost use Rattle.std.specs.Prelude.{◌≡◌, ◌==◌, ◌^◌, ◌<◌, [], ◌∷◌, ◌++◌, length, drop, slice_get, option_map, option_copied, IsTrue, IfOk, OnOk, OnErr};
ghost use Rattle.std.specs.Map.Iter.{deref_pair};
ghost use Rattle.lru_table.specs.LruTable.{entry_at, found_value, without, with_newest, IsPresent, IsVacant, Finds, IsTable};

use crate::lookup::Lookup;
use crate::slot::{Slot, SlotHasher};
use lru::LruCache;
use std::alloc::{AllocError, Global};
use std::hash::BuildHasherDefault;
use std::marker::Model;

/// Keys with values, in the order of their last use.
///
/// The caller computes a hash of a key once for each operation, and [`find`](LruTable::find) returns the slot of the
/// key under this hash. All other calls take a slot, and compare no keys. Keys with equal hashes are compared with
/// `==`, and are in slots with different numbers, so that a key needs neither `Hash` nor `Clone`. A table has at most
/// one entry for a hash and equal keys.
///
/// Each call takes constant expected time, except [`clear`](LruTable::clear), if the hashes are well distributed and
/// few are equal. If an attacker can choose keys, compute the hashes with a secret seed (`RandomState`).
///
/// To visit all entries from the least to the most recently used, take the slot of the least recently used entry
/// ([`oldest`](LruTable::oldest)) as often as the table has entries, and touch or remove each. This leaves the
/// remaining entries in the order in which they were ([`walks`](crate::laws::walks)).
#[derive(Drop)]
pub struct LruTable<K: Eq, V> {
    cache: LruCache<Slot, (K, V), BuildHasherDefault<SlotHasher>>,
    /// Number of slots of each hash in which `find` looks. It is greater than the number of each slot with an entry,
    /// and it is 1 unless the table ever had keys with equal hashes.
    numbers: u64,
}

impl<K: Eq, V> Model for LruTable<K, V> {
    ghost use Rattle.std.specs.Prelude.{◌≡◌, ℕ, ◌-◌, ◌^◌, ◌<◌, List, reverse, Contains};
    ghost use Rattle.lru_table.specs.declared.slot.Slot.{Slot};

    ghost Value = { List (Slot × (K × V)) };

    ghost use Rattle.lru_table.specs.LruTable.{IsTable};

    ghost view = { λ table. reverse table.cache.entries };

    ghost invariant = { λ table. IsTable K.eq (reverse table.cache.entries)
        × (table.cache.cap ≡ 2 ^ 64 - 1)
        × (0 < table.numbers)
        × ((e : Slot × (K × V)) → Contains (reverse table.cache.entries) e → e.0.number < table.numbers) };
}

impl<K: Eq, V> LruTable<K, V> {
    ghost use Rattle.std.specs.Option.{option_copied_mut};
    ghost use Rattle.std.specs.Borrow.{sem};
    ghost use Rattle.lru_table.specs.TableLends.{lends_value};

    /// Creates an empty table, which makes two allocations.
    pub fn new(alloc: Global) -> Result<LruTable<K, V>, AllocError>
        ensures { IfOk result (λ table. table ≡ []) }
    {
        Ok(LruTable {
            cache: LruCache::unbounded_with_hasher(alloc, BuildHasherDefault::new())?,
            numbers: 1,
        })
    }

    /// Returns the number of entries.
    #[inline]
    pub fn len(&self) -> usize
        ensures len { result ≡ length self.now }
        ensures fits { result < 2 ^ 63 }
        ensures valid { IsTable K.eq self.now }
    {
        self.cache.len()
    }

    /// Returns whether the table has no entries.
    #[inline]
    pub fn is_empty(&self) -> bool
        ensures { result ≡ (length self.now == 0) }
    {
        self.len() == 0
    }

    /// Returns the slot of the entry with this hash and an equal key, or if there is none, the free slot of this hash
    /// with the least number. An entry for the key can be inserted there.
    #[inline]
    pub fn find(&self, hash: u64, key: &K) -> Lookup
        ensures found { Finds K.eq self.now hash key.now result }
        ensures valid { IsTable K.eq self.now }
    {
        self.find_value(hash, key).0
    }

    /// Returns what [`find`](LruTable::find) returns, with the value of the entry if it is present. This does not count
    /// as a use.
    pub fn find_value(&self, hash: u64, key: &K) -> (Lookup, Option<&V>)
        ensures found { Finds K.eq self.now hash key.now result.0 }
        ensures value { option_copied result.1 ≡ found_value result.0 self.now }
        ensures valid { IsTable K.eq self.now }
    {
        if self.cache.len() == 0 {
            return (Lookup::Vacant(Slot { hash, number: 0 }), None);
        }
        let mut free = self.numbers;
        for number in 0..self.numbers {
            let slot = Slot { hash, number };
            match self.cache.peek(&slot) {
                Some((stored, value)) => {
                    if *key == *stored {
                        return (Lookup::Present(slot), Some(value));
                    }
                }
                None => free = free.min(number),
            }
        }
        (Lookup::Vacant(Slot { hash, number: free }), None)
    }

    /// Returns the key and the value in a slot, or `None` if the slot is free. This does not count as a use.
    #[inline]
    pub fn get(&self, slot: Slot) -> Option<(&K, &V)>
        ensures { option_map deref_pair result ≡ entry_at slot self.now }
    {
        match self.cache.peek(&slot) {
            Some((key, value)) => Some((key, value)),
            None => None,
        }
    }

    /// Returns the value in a slot to write to, or `None` if the slot is free. This does not count as a use.
    #[inline]
    pub fn get_mut(&mut self, slot: Slot) -> Option<&mut V>
        ensures* writes_back { sem 𝓛 (lends_value K.row V.row K.eq self.entry slot result) }
        ensures value { option_copied_mut result ≡ option_map (λ e. e.1) (entry_at slot self.old) }
    {
        match self.cache.peek_mut(&slot) {
            Some((_, value)) => Some(value),
            None => None,
        }
    }

    /// Makes the entry in a slot the most recently used. If the slot is free, nothing changes.
    pub fn touch(&mut self, slot: Slot)
        ensures { self.new ≡ with_newest slot self.old }
    {
        if self.is_newest(slot) {
            return;
        }
        self.cache.promote(&slot);
    }

    /// Returns whether the most recently used entry is in a slot. This needs no hash.
    #[inline]
    fn is_newest(&self, slot: Slot) -> bool
        ensures { IsTrue result → with_newest slot self.now ≡ self.now }
    {
        match self.cache.peek_mru() {
            Some((newest, _)) => *newest == slot,
            None => false,
        }
    }

    /// Inserts an entry as the most recently used, in a slot that [`find`](LruTable::find) returned as vacant for an
    /// equal key and the hash of this key. If an allocation fails, the table is unchanged, and key and value are
    /// dropped.
    pub fn insert(&mut self, slot: Slot, key: K, value: V) -> Result<(), AllocError>
    where
        K: Drop,
        V: Drop,
        requires { IsVacant K.eq self.old slot key }
        ensures ok { OnOk result (self.new ≡ self.old ++ (slot, (key, value)) ∷ []) }
        ensures err { OnErr result (self.new ≡ self.old) }
    {
        let len = self.cache.len();
        // The capacity of the cache exceeds any memory, so it evicts nothing.
        prove!(len < usize::MAX);
        self.cache.put(slot, (key, value))?;
        self.numbers = self.numbers.max(slot.number + 1);
        Ok(())
    }

    /// Removes the entry in a slot, and returns its key and value, or `None` if the slot is free. An entry with an
    /// equal key can then be inserted there.
    pub fn remove(&mut self, slot: Slot) -> Option<(K, V)>
        ensures removed { result ≡ entry_at slot self.old }
        ensures kept { self.new ≡ without slot self.old }
        ensures vacated { (key : K) → IsPresent K.eq self.old slot key → IsVacant K.eq self.new slot key }
    {
        self.cache.pop(&slot)
    }

    /// Returns the slot of the least recently used entry, or `None` if the table is empty.
    #[inline]
    pub fn oldest(&self) -> Option<Slot>
        ensures { result ≡ option_map (λ e. e.0) (slice_get self.now 0) }
    {
        match self.cache.peek_lru() {
            Some((slot, _)) => Some(*slot),
            None => None,
        }
    }

    /// Removes the least recently used entry, and returns its key and value, or `None` if the table is empty.
    pub fn pop_oldest(&mut self) -> Option<(K, V)>
        ensures removed { result ≡ option_map (λ e. e.1) (slice_get self.old 0) }
        ensures kept { self.new ≡ drop 1 self.old }
    {
        match self.cache.pop_lru() {
            Some((_, entry)) => Some(entry),
            None => None,
        }
    }

    /// Removes all entries.
    pub fn clear(&mut self)
    where
        K: Drop,
        V: Drop,
        ensures { self.new ≡ [] }
    {
        self.cache.clear();
    }
}
