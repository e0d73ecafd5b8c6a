//! The benchmark job that reassembles long payloads from short fragments in unfavorable orders.

use crate::bench_error::BenchError;
use crate::digest::Digest;
use crate::fields::Numbers;
use crate::fragments::Reassembly;
use std::alloc::Global;

/// Number of fragments, of 8 bytes each, into which a payload of 65,528 bytes is split.
const FRAGMENTS: u16 = 8_191;

/// Interval of rounds: in each eighth round one fragment of the payload never arrives.
const LACKING: u32 = 8;

/// Reassembles a payload of 65,528 bytes in each round, from fragments of 8 bytes, and returns the digest of all
/// results. Four orders alternate: shuffled, the odd fragments before the even ones, reversed, and with neighbors
/// exchanged. In each eighth round one fragment never arrives.
pub fn reassemble_shuffled(alloc: Global, rounds: u32, seed: u64) -> Result<Digest, BenchError> {
    let mut numbers = Numbers::new(seed);
    let mut reassembly = Reassembly::new(alloc, seed)?;
    let mut order = Vec::new(alloc);
    let first = (seed % 65_536).wrapping_mul(65_536);
    for round in 0..rounds {
        order.clear();
        for index in 0..FRAGMENTS {
            order.push(place_at(round, index))?;
        }
        if round % 4 == 0 {
            shuffle(order.as_mut_slice(), &mut numbers);
        }
        let lacks = round % LACKING == LACKING - 1;
        let number = first.wrapping_add(u64::from(round));
        for place in order.as_slice() {
            if !(lacks && *place == FRAGMENTS / 2) {
                reassembly.process_short_fragment(number, *place, *place < FRAGMENTS - 1)?;
            }
        }
    }
    Ok(reassembly.digest)
}

/// Returns the index of the fragment that arrives at position `index` in a round. The order depends on `round % 4`: in
/// order (shuffled later), the odd fragments first, reversed, or with neighbors exchanged.
fn place_at(round: u32, index: u16) -> u16 {
    let index = index.min(FRAGMENTS - 1);
    match round % 4 {
        0 => index,
        1 if index < FRAGMENTS / 2 => 2 * index + 1,
        1 => 2 * (index - FRAGMENTS / 2),
        2 => FRAGMENTS - 1 - index,
        _ if index % 2 == 0 && index + 1 < FRAGMENTS => index + 1,
        _ if index % 2 == 0 => index,
        _ => index - 1,
    }
}

/// Shuffles the order in which the fragments of a payload arrive (Fisher-Yates).
fn shuffle(order: &mut [u16], numbers: &mut Numbers) {
    for index in 0..order.len() {
        let other = numbers.below(index as u64 + 1) as usize;
        if other < order.len() {
            order.swap(index, other);
        }
    }
}
