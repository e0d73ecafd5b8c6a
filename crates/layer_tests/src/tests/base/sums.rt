//! Tests of the 64-bit number in a checksum state, which `Debug` prints and no contract covers. It is compared with a
//! plain sum of 64-bit words, as the unoptimized `add_slice` computed it.

ghost use Rattle.std.specs.Prelude.{◌≤◌, length};

use crate::tests::checks::same;
use ep_base::checksum::Sum16BitWords;
use std::alloc::Global;
use std::process::Abort;

/// Adds two 64-bit numbers in one's complement: a carry is added to the result.
fn add_word(sum: u64, word: u64) -> u64 {
    let (sum, carry) = sum.overflowing_add(word);
    sum + carry as u64
}

/// Returns the given bytes, at most 8, as an array filled up with zero bytes.
fn filled_up(bytes: &[u8]) -> [u8; 8]
    requires { length bytes.now ≤ 8 }
{
    let mut filled = [0; 8];
    filled[..bytes.len()].copy_from_slice(bytes);
    filled
}

/// Adds the bytes of a slice to a one's complement sum, one 64-bit big-endian word after the other. The library's
/// result is compared with it.
fn add_slice(sum: u64, slice: &[u8]) -> u64 {
    let mut sum = sum;
    let mut rest = slice;
    while let Some((piece, after)) = rest.split_first_chunk::<8>() {
        sum = add_word(sum, u64::from_be_bytes(*piece));
        rest = after;
    }
    add_word(sum, u64::from_be_bytes(filled_up(rest)))
}

fn keeps(rt: &impl Abort, alloc: Global, sum: &Sum16BitWords, number: u64) {
    let shown = format!(in alloc; "{sum:?}").expect(rt, "no memory");
    let wanted = format!(in alloc; "Sum16BitWords {{ sum: {number} }}").expect(rt, "no memory");
    same(rt, &shown.as_str(), &wanted.as_str());
}

fn is_added(rt: &impl Abort, alloc: Global, number: u64, bytes: &[u8]) {
    let before = Sum16BitWords::new().add_16bytes((number as u128).to_be_bytes());
    let sum = before.add_slice(bytes);
    let number = add_slice(number, bytes);
    keeps(rt, alloc, &sum, number);
    let sum = sum.add_2bytes([0xff, 0x34]).add_4bytes([0xff; 4]);
    let number = add_word(add_word(number, 0xff34), 0xffff_ffff);
    for sixteen in [
        [0xfe; 16],
        [0; 16],
        (u128::from(number) << 37).to_be_bytes(),
    ] {
        let sum = sum.add_16bytes(sixteen).add_slice(bytes);
        keeps(
            rt,
            alloc,
            &sum,
            add_slice(add_slice(number, &sixteen), bytes),
        );
    }
}

fn are_added(rt: &impl Abort, alloc: Global, bytes: &[u8], length: usize) {
    let rest = bytes.get(length % 8..).expect(rt, "too few bytes");
    let piece = rest.get(..length).expect(rt, "too few bytes");
    for number in [0, 1, 0xffff, u64::MAX - 1, u64::MAX] {
        is_added(rt, alloc, number, piece);
    }
}

/// Returns 66,000 pseudo-random bytes: the bits of the mask `random` vary, the bits of the mask `set` are always 1, and
/// all other bits are 0.
fn made(random: u8, set: u8) -> [u8; 66_000] {
    let mut bytes = [0; 66_000];
    let mut state: u64 = 1;
    for byte in bytes.iter_mut() {
        state = state
            .wrapping_mul(6364136223846793005)
            .wrapping_add(1442695040888963407);
        *byte = state.to_be_bytes()[0] & random | set;
    }
    bytes
}

/// Asserts that `Sum16BitWords::add_slice` computes the sums that a plain loop computes. They are compared for
/// pseudo-random bytes of each length below 300, and of lengths around those at which `add_slice` changes its
/// algorithm.
fn all_lengths_are_added(rt: &impl Abort, alloc: Global, random: u8, set: u8) {
    let bytes = made(random, set);
    for length in 0..300 {
        are_added(rt, alloc, bytes.as_slice(), length);
    }
    for length in [
        576, 1401, 2040, 2047, 2048, 2049, 2055, 2056, 2057, 2175, 2176, 2177, 4095, 4096, 4097,
        4223, 4224, 8901, 65000, 65535,
    ] {
        are_added(rt, alloc, bytes.as_slice(), length);
    }
}

#[test]
fn numbers_that_sums_keep(rt: HostRuntime) {
    let alloc = rt.alloc();
    for (random, set) in [(0xff, 0), (0, 0), (0, 0xff), (0x01, 0xfe)] {
        all_lengths_are_added(&rt, alloc, random, set);
    }
}
