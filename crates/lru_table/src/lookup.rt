//! Result of a look-up in a table.

use crate::slot::Slot;

/// Result of [`LruTable::find`](crate::LruTable::find).
#[derive(Clone, Copy, Debug, PartialEq, Eq)]
pub enum Lookup {
    /// Slot of the entry with the hash and an equal key.
    Present(Slot),
    /// Free slot for the key: no entry with the hash has an equal key.
    Vacant(Slot),
}
