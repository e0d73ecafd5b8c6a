//! Table of keys and values in the order of their last use, found by hashes that the caller computes.
#![tactic(auto)]

pub mod laws;
mod lookup;
mod slot;
mod table;

pub use lookup::Lookup;
pub use slot::{Slot, SlotHasher};
pub use table::LruTable;
