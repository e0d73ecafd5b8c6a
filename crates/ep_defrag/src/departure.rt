//! Reasons why an identifier leaves the table of a bounded reassembly pool.

use crate::evicted_stream::EvictionCause;

/// Reason why an identifier leaves the table of a bounded pool.
#[derive(Clone, Copy)]
pub(crate) enum Departure {
    /// The payload of its stream is returned.
    Completed,
    /// The caller removes it.
    Removed,
    /// It is evicted.
    Evicted(EvictionCause),
}
