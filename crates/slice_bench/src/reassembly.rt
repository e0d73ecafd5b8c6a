//! Benchmarks of reassembly: pass all frames of the input file to a reassembly pool, or to a bounded one.

use crate::bench_error::BenchError;
use etherparse::SlicedPacket;
use etherparse::defrag::{
    BoundedDefragError, BoundedDefragPool, DefragLimits, IpDefragError, IpDefragPool,
};
use std::alloc::{AllocError, Global};
use std::hash::RandomState;
use std::io;
use std::random::RandomSource;

/// Passes all frames in order to a new reassembly pool, and returns the total length in bytes of the payloads that it
/// reassembles. Frames that slicing or the pool rejects are ignored. The buffer of each payload is returned to the pool
/// for reuse.
pub fn reassembled_len(alloc: Global, frames: &[&[u8]]) -> Result<u64, BenchError> {
    let mut pool: IpDefragPool<(), ()> = IpDefragPool::new(alloc);
    let mut total: u64 = 0;
    for frame in frames {
        total = total.wrapping_add(completed_len(&mut pool, frame)?);
    }
    Ok(total)
}

/// Passes one frame to the reassembly pool, and returns the length in bytes of the payload that it completes, or 0 if
/// it completes none.
fn completed_len(pool: &mut IpDefragPool<(), ()>, frame: &[u8]) -> Result<u64, BenchError> {
    let Ok(packet) = SlicedPacket::from_ethernet(frame) else {
        return Ok(0);
    };
    match pool.process_sliced_packet(&packet, (), ()) {
        Ok(Some(payload)) => {
            let len = payload.payload.len() as u64;
            pool.return_buf(payload);
            Ok(len)
        }
        Ok(None) => Ok(0),
        Err(IpDefragError::AllocationFailure { .. }) => Err(BenchError::OutOfMemory),
        Err(IpDefragError::UnalignedFragmentPayloadLen { .. }) => Ok(0),
        Err(IpDefragError::SegmentTooBig { .. }) => Ok(0),
        Err(IpDefragError::ConflictingEnd { .. }) => Ok(0),
    }
}

/// Source of the keys of the bounded pool: bytes that are all 7, so that each run hashes alike.
#[derive(Drop)]
struct FixedKeys;

impl RandomSource for FixedKeys {
    fn fill_bytes(&self, bytes: &mut [u8]) -> io::Result<()> {
        bytes.fill(7);
        Ok(())
    }
}

/// Returns limits of a bounded pool with none for streams and bytes, so that no stream is evicted.
pub fn unlimited() -> DefragLimits {
    DefragLimits {
        streams: usize::MAX,
        bytes: usize::MAX,
        ..DefragLimits::default()
    }
}

/// Passes all frames in order to a new bounded pool with these limits, and returns the total length in bytes of the
/// payloads that it reassembles. Frames that slicing or the pool rejects are ignored.
pub fn bounded_len(
    alloc: Global,
    limits: DefragLimits,
    frames: &[&[u8]],
) -> Result<u64, BenchError> {
    let Ok(keys) = RandomState::new(&FixedKeys) else {
        return Err(BenchError::OutOfMemory);
    };
    let mut pool = match BoundedDefragPool::new(alloc, limits, keys) {
        Ok(pool) => pool,
        Err(AllocError) => return Err(BenchError::OutOfMemory),
    };
    let mut total: u64 = 0;
    for frame in frames {
        total = total.wrapping_add(completed_bounded_len(&mut pool, frame)?);
    }
    Ok(total)
}

/// Passes one frame to the bounded pool, and returns the length in bytes of the payload that it completes, or 0 if it
/// completes none.
fn completed_bounded_len(
    pool: &mut BoundedDefragPool<()>,
    frame: &[u8],
) -> Result<u64, BenchError> {
    let Ok(packet) = SlicedPacket::from_ethernet(frame) else {
        return Ok(0);
    };
    match pool.process_sliced_packet(&packet, 0, ()) {
        Ok(Some(payload)) => Ok(payload.payload.len() as u64),
        Ok(None) => Ok(0),
        Err(BoundedDefragError::Rejected(IpDefragError::AllocationFailure { .. })) => {
            Err(BenchError::OutOfMemory)
        }
        Err(BoundedDefragError::Rejected(_)) => Ok(0),
        Err(BoundedDefragError::Discarded) => Ok(0),
        Err(BoundedDefragError::OverBudget) => Ok(0),
    }
}
