//! Tests of reassembly: external test vectors, and a fact that no contract states: that calls succeed if there is
//! memory, however much they need. (`memory_tests` tests what calls return if an allocation fails.)

use crate::defrag::*;
use crate::tests::checks::same;
use crate::tests::samples::*;
use crate::*;
use std::alloc::{AllocError, Global};
use std::process::Abort;

mod bounded;
mod buffers;
mod drops;
mod frames;
mod late_ends;
mod limits;
pub(crate) mod names;
pub(crate) mod pool;

/// A run of bytes in a test payload: `Rising(first, len)` rises by 1 from `first`, modulo 256; `Zeros(len)` are zeros.
#[derive(Clone, Copy)]
enum Bytes {
    Rising(u8, usize),
    Zeros(usize),
}

fn bytes_of(alloc: Global, parts: &[Bytes]) -> Result<Vec<u8>, AllocError> {
    let mut bytes = Vec::new(alloc);
    for part in parts {
        let (mut byte, step, len) = match *part {
            Bytes::Rising(first, len) => (first, 1, len),
            Bytes::Zeros(len) => (0, 0, len),
        };
        for _ in 0..len {
            bytes.push(byte)?;
            byte = byte.wrapping_add(step);
        }
    }
    Ok(bytes)
}

/// Returns a fragment offset in units of 8 bytes. Aborts the test if `units` is above 8191.
fn offset(rt: &impl Abort, units: u16) -> IpFragOffset {
    IpFragOffset::try_new(units).expect(rt, "above 8191")
}
