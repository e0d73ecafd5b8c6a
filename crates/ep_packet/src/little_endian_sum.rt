//! One's complement sums of little-endian words, for verifying checksums. Whether a sum is 65535 does not depend on the
//! byte order (RFC 1071, 2 (B)), so the bytes of a word need not be swapped.
//!
//! Multiplied by 256, the sum of little-endian 16 bit words is that of big-endian ones modulo 65535, since 65536 is 1:
//! `256 * (first + 256 * second)` is `256 * first + second`. So also longer words can be added as numbers.

ghost use Rattle.std.specs.Prelude.{◌≡◌, ◌≤◌, ◌<◌, ◌+◌, ◌*◌, ◌^◌, ◌==◌, length};
ghost use Rattle.ep_base.specs.Checksum.{residue, word_sum};

/// Adds fewer than 128 bytes to a sum of little-endian words.
#[inline(always)]
pub(crate) fn add_little_endian(sum: u128, bytes: &[u8]) -> u128
    requires short { length bytes.now < 128 }
    requires sum_bound { sum < 2 ^ 127 }
    ensures value { residue (256 * result) ≡ residue (256 * sum + word_sum bytes.now) }
    ensures bound { result ≤ sum + 2 ^ 64 * length bytes.now }
{
    let mut sum = sum;
    let mut rest = bytes;
    while let Some((piece, after)) = rest.split_first_chunk::<8>() {
        sum += u64::from_le_bytes(*piece) as u128;
        rest = after;
    }
    if rest.is_empty() {
        return sum;
    }
    sum + last_word(rest) as u128
}

/// Returns the sum of the little-endian words of fewer than 8 bytes.
#[inline]
fn last_word(bytes: &[u8]) -> u64
    requires { length bytes.now < 8 }
    ensures value { residue (256 * result) ≡ residue (word_sum bytes.now) }
    ensures bound { result ≤ 2 ^ 33 * length bytes.now }
{
    match bytes.split_first_chunk::<4>() {
        Some((piece, after)) => u32::from_le_bytes(*piece) as u64 + last_half(after),
        None => last_half(bytes),
    }
}

/// Returns the sum of the little-endian words of fewer than 4 bytes.
#[inline]
fn last_half(bytes: &[u8]) -> u64
    requires { length bytes.now < 4 }
    ensures value { residue (256 * result) ≡ residue (word_sum bytes.now) }
    ensures bound { result ≤ 2 ^ 16 * length bytes.now }
{
    match bytes.split_first_chunk::<2>() {
        Some((piece, after)) => u16::from_le_bytes(*piece) as u64 + last_byte(after),
        None => last_byte(bytes),
    }
}

/// Returns the last byte as a little-endian word, or 0 for an empty slice.
#[inline]
fn last_byte(bytes: &[u8]) -> u64
    requires { length bytes.now < 2 }
    ensures value { 256 * result ≡ word_sum bytes.now }
    ensures bound { result ≤ 2 ^ 8 * length bytes.now }
{
    match bytes.first() {
        Some(byte) => *byte as u64,
        None => 0,
    }
}

/// Returns true if the one's complement sum is 65535, by the sum of the little-endian words.
#[inline(always)]
pub(crate) fn is_all_ones(sum: u128) -> bool
    requires { sum < 2 ^ 80 }
    ensures { result ≡ (residue (256 * sum) == 65535) }
{
    // 2^64 is 1 modulo 65535, so the upper 64 bits can be added to the lower ones, and then the carry.
    let folded = (sum >> 64) + (sum & 0xffff_ffff_ffff_ffff);
    let sum = (folded >> 64) as u64 + (folded & 0xffff_ffff_ffff_ffff) as u64;
    sum > 0 && sum % 65535 == 0
}
