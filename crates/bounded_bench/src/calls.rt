//! Calls on the bounded pool with frames.

ghost use Rattle.std.specs.Prelude.{◌≡◌, IsErrAnd, IsOkAnd, IfOk, []};
ghost use Rattle.etherparse.specs.Frame.{IsFrame};
ghost use Rattle.etherparse.specs.FrameRefusals.{RefusesFrame};
ghost use Rattle.etherparse.specs.Layers.{Layers};
ghost use Rattle.etherparse.specs.BoundedPools.{limits_in, names_in};
ghost use Rattle.bounded_bench.specs.PoolCalls.{Takes};

use etherparse::defrag::{
    BoundedDefragError, BoundedDefragPool, DefragLimits, Fragment, IpDefragPayloadVec, IpFragId,
    IpFragVersionSpecId,
};
use etherparse::err::packet::SliceError;
use etherparse::{ArrayVec, Entry, IpFragOffset, IpNumber, SlicedPacket};
use std::alloc::Global;
use std::hash::RandomState;
use std::io;
use std::random::RandomSource;

/// Bounded pool of the program. The channel identifier is a number of each line.
pub type Pool = BoundedDefragPool<u64>;

/// Result of adding a frame's fragment to the pool.
pub type Answer = Result<Option<IpDefragPayloadVec>, BoundedDefragError>;

/// Source of the keys of a pool: bytes that are all equal.
#[derive(Drop)]
struct EqualBytes(u8);

impl RandomSource for EqualBytes {
    fn fill_bytes(&self, bytes: &mut [u8]) -> io::Result<()> {
        bytes.fill(self.0);
        Ok(())
    }
}

/// Creates a pool with these limits. The keys of its hash are 16 bytes `seed`.
pub fn new_pool(alloc: Global, limits: DefragLimits, seed: u8) -> io::Result<Pool>
    ensures names { IfOk result (λ pool. names_in pool ≡ []) }
    ensures limits { IfOk result (λ pool. limits_in pool ≡ limits) }
{
    let keys = RandomState::new(&EqualBytes(seed))?;
    Ok(BoundedDefragPool::new(alloc, limits, keys)?)
}

/// Slices a frame, and adds its fragment to the pool; a frame without a fragment changes no stream. Returns `Err` if
/// the bytes are not a frame; the pool is then unchanged.
pub fn take(
    pool: &mut Pool,
    entry: Entry,
    frame: &[u8],
    timestamp: u128,
    channel: u64,
) -> Result<Answer, SliceError>
    ensures frames { (layers : Layers) → IsFrame entry frame.now layers
        → IsOkAnd result (Takes ⟦<u64 as PartialEq>⟧.eq layers timestamp channel pool.old pool.new) }
    ensures others { ((layers : Layers) → ¬ IsFrame entry frame.now layers)
        → IsErrAnd result (RefusesFrame entry frame.now) × (pool.new ≡ pool.old) }
{
    let mut packet = SlicedPacket::new();
    match packet.slice_into(entry, frame) {
        Ok(()) => Ok(pool.process_sliced_packet(&packet, timestamp, channel)),
        Err(error) => Err(error),
    }
}

/// Adds a fragment without a frame to the pool: of a UDP datagram from 192.168.1.1 to 192.168.1.2 with this
/// identification. The offset is in units of 8 bytes. Returns `None` if it is above 8191.
pub fn add(
    pool: &mut Pool,
    identification: u16,
    offset: u16,
    more_fragments: bool,
    payload: &[u8],
    timestamp: u128,
) -> Option<Answer> {
    let id = IpFragId {
        vlan_ids: ArrayVec::new(),
        ip: IpFragVersionSpecId::Ipv4 {
            source: [192, 168, 1, 1],
            destination: [192, 168, 1, 2],
            identification,
        },
        payload_ip_number: IpNumber::UDP,
        channel_id: 0,
    };
    let fragment = Fragment {
        offset: IpFragOffset::try_new(offset).ok()?,
        more_fragments,
        payload,
    };
    Some(pool.process_fragment(id, &fragment, timestamp))
}

/// Removes the stream of a frame's fragment from the pool, and returns whether it was there.
pub fn remove(pool: &mut Pool, entry: Entry, frame: &[u8], channel: u64) -> bool {
    let Ok(packet) = SlicedPacket::from_entry(entry, frame) else {
        return false;
    };
    match IpFragId::of_packet(&packet, channel) {
        Some(id) => pool.remove(&id),
        None => false,
    }
}
