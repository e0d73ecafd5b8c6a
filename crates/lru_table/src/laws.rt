//! Laws of a table: functions with an empty body, whose contracts state what follows from the definitions that the
//! contracts of [`LruTable`](crate::LruTable) cite.

ghost use Rattle.std.specs.Prelude.{◌≡◌, ◌↔◌, IsTrue, ℕ, ◌≤◌, ◌∷◌, ◌++◌, [], length, take, drop, Some, None};
ghost use Rattle.lru_table.specs.LruTable.{Entries, entry_at, without, with_newest, with_value, walked, IsAt, IsVacant};

use crate::lookup::Lookup;
use crate::slot::Slot;

/// States that slots are equal exactly if their hashes and numbers are, and results of a look-up exactly if they are
/// the same variant with equal slots.
pub fn comparisons()
    ensures slots { (a b : Slot) → IsTrue (⟦<Slot as PartialEq>⟧.eq a b) ↔ (a ≡ b) }
    ensures lookups { (a b : Lookup) → IsTrue (⟦<Lookup as PartialEq>⟧.eq a b) ↔ (a ≡ b) }
{}

/// States that a caller visits each entry once, from the least to the most recently used, if it takes the slot of the
/// least recently used entry as often as the table has entries, and touches or removes each. `touch` moves this entry
/// to the end of the list of entries, and `remove` moves no other entry. If none was removed, the order is as it was.
pub fn walks<K, V>()
    ensures found { (first : Slot × (K × V)) (rest : Entries K V) → entry_at first.0 (first ∷ rest) ≡ Some first.1 }
    ensures touched { (first : Slot × (K × V)) (rest : Entries K V) →
        with_newest first.0 (first ∷ rest) ≡ rest ++ first ∷ [] }
    ensures removed { (first : Slot × (K × V)) (rest : Entries K V) → without first.0 (first ∷ rest) ≡ rest }
    ensures in_part { (entries : Entries K V) (n : ℕ) → n ≤ length entries →
        walked n entries ≡ drop n entries ++ take n entries }
    ensures whole { (entries : Entries K V) → walked (length entries) entries ≡ entries }
{}

/// States between which entries the entry in a slot is, and what `remove`, `touch` and a write through `get_mut` make
/// of them. The same holds after a value was written to the slot. If the slot is free, they change nothing.
pub fn places<K, V>()
    ensures taken { (entries : Entries K V) (slot : Slot) (e : K × V) → entry_at slot entries ≡ Some e →
        ((before : Entries K V) × (after : Entries K V) × IsAt slot before e after entries
        × ((value : V) → IsAt slot before (e.0, value) after (with_value slot value entries))) }
    ensures free { (entries : Entries K V) (slot : Slot) → entry_at slot entries ≡ None →
        ((without slot entries ≡ entries) × (with_newest slot entries ≡ entries)
        × ((value : V) → with_value slot value entries ≡ entries)) }
{}

/// States that a slot that is vacant for a key stays so if entries are removed or touched, or values are written. So
/// entries can be evicted between `find` and `insert`.
pub fn stays_vacant<K: Eq, V>()
    ensures removed { (entries : Entries K V) (slot other : Slot) (key : K) → IsVacant K.eq entries slot key →
        IsVacant K.eq (without other entries) slot key }
    ensures touched { (entries : Entries K V) (slot other : Slot) (key : K) → IsVacant K.eq entries slot key →
        IsVacant K.eq (with_newest other entries) slot key }
    ensures written { (entries : Entries K V) (slot other : Slot) (value : V) (key : K) →
        IsVacant K.eq entries slot key → IsVacant K.eq (with_value other value entries) slot key }
    ensures popped { (entries : Entries K V) (slot : Slot) (key : K) → IsVacant K.eq entries slot key →
        IsVacant K.eq (drop 1 entries) slot key }
{}
