//! State of a reassembly pool whose address C holds.

use etherparse::defrag::{IpDefragPayloadVec, IpDefragPool};

/// State of a reassembly pool that C uses: its incomplete IP datagrams, and a complete payload that did not fit into
/// the caller's buffer, if any. Timestamps and channels are numbers that C chooses.
#[derive(Drop)]
pub struct State {
    pub(crate) pool: IpDefragPool<u64, u64>,
    pub(crate) waiting: Option<IpDefragPayloadVec>,
}
