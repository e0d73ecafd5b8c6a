//! State of a bounded reassembly pool whose address C holds.

use etherparse::defrag::{BoundedDefragPool, IpDefragPayloadVec};

/// State of a bounded reassembly pool that C uses: its streams, and a complete payload that did not fit into the
/// caller's buffer, if any. Timestamps and channels are numbers that C chooses.
#[derive(Drop)]
pub struct BoundedState {
    pub(crate) pool: BoundedDefragPool<u64>,
    pub(crate) waiting: Option<IpDefragPayloadVec>,
}
