//! The Internet checksum (RFC 1071) of IPv4, UDP, TCP and ICMP.

ghost use Rattle.std.specs.Prelude.{◌≡◌, ◌+◌, ◌-◌, ◌*◌, ◌%◌, ◌^◌, ◌<◌, ◌≤◌, length};
ghost use Rattle.ep_base.specs.Checksum.{word_sum, residue, ones_sum, ones_add, no_zero};

use std::marker::Model;

/// Minimum length in bytes of a slice whose checksum is summed in blocks. For shorter slices it is faster to add the 64
/// bit words one by one.
const LONG: usize = 128;

/// Maximum number of bytes in one block of a checksum sum: 256 words of 64 bits. A word has eight byte positions, and
/// the 256 bytes at one position add up to less than 2^16.
const BLOCK: usize = 2048;

/// Mask that keeps the lower byte of each of the four 16 bit parts of a 64 bit word.
const LOWER_BYTES: u64 = 0x00ff_00ff_00ff_00ff;

/// One's complement sum of 16 bit words for the Internet checksum (RFC 1071), to which more bytes can be added.
///
/// Each addition starts a new 16 bit word: an odd last byte is padded with a zero byte. So only the last addition may
/// have an odd number of bytes.
#[derive(Clone, Debug, Drop)]
pub struct Sum16BitWords {
    /// One's complement sum in 64 bits of the numbers added so far: a carry out of the highest bit is added to the
    /// lowest one, so that the sum never overflows. Modulo 65535 this 64 bit sum equals the sum of the 16 bit words,
    /// since 2^64 - 1 is a multiple of 65535. `Debug` prints the 64 bit sum, to which slices and 16 bytes are added as
    /// big-endian 64 bit words, 2 and 4 bytes as 16 and 32 bit words.
    sum: u64,
}

impl Model for Sum16BitWords {
    ghost use Rattle.std.specs.Prelude.{ℕ};
    ghost use Rattle.ep_base.specs.Checksum.{residue};

    ghost Value = { ℕ };

    ghost view = { λ fields. residue fields.sum };
}

impl PartialEq for Sum16BitWords {
    ghost use Rattle.std.proofs.Common.{rules};
    ghost use Rattle.std.specs.Cmp.Rules.{comparing};
    ghost use Rattle.std.specs.Prelude.{nat_eq};

    ghost eq = { nat_eq };

    ghost laws = { Prim.search (comparing, rules) };

    fn eq(&self, other: &Sum16BitWords) -> bool {
        folded(self.sum) == folded(other.sum)
    }
}

impl Eq for Sum16BitWords {
    ghost use Rattle.std.proofs.Common.{rules};
    ghost use Rattle.std.specs.Cmp.Rules.{comparing};

    ghost laws = { Prim.search (comparing, rules) };
}

impl Sum16BitWords {
    /// Creates a checksum sum to which no bytes have been added: 0.
    #[inline]
    pub fn new() -> Sum16BitWords
        ensures { result ≡ 0 }
    {
        Sum16BitWords { sum: 0 }
    }

    /// Returns the checksum sum with two more bytes added, as a big-endian 16 bit word.
    #[inline]
    #[must_use]
    pub fn add_2bytes(&self, value: [u8; 2]) -> Sum16BitWords
        ensures { result ≡ ones_add self.now (ones_sum value) }
    {
        Sum16BitWords {
            sum: add_word(self.sum, u16::from_be_bytes(value) as u64),
        }
    }

    /// Returns the checksum sum with four more bytes added, as two big-endian 16 bit words.
    #[inline]
    #[must_use]
    pub fn add_4bytes(&self, value: [u8; 4]) -> Sum16BitWords
        ensures { result ≡ ones_add self.now (ones_sum value) }
    {
        Sum16BitWords {
            sum: add_word(self.sum, u32::from_be_bytes(value) as u64),
        }
    }

    /// Returns the checksum sum with 16 more bytes added, as eight big-endian 16 bit words.
    #[inline]
    #[must_use]
    pub fn add_16bytes(&self, value: [u8; 16]) -> Sum16BitWords
        ensures { result ≡ ones_add self.now (ones_sum value) }
    {
        Sum16BitWords {
            sum: add_word(self.sum, in_64_bits(u128::from_be_bytes(value))),
        }
    }

    /// Returns the checksum sum with the bytes of a slice added as big-endian 16 bit words. If their number is odd, the
    /// last byte is the upper half of a word whose lower half is 0.
    #[must_use]
    pub fn add_slice(&self, slice: &[u8]) -> Sum16BitWords
        ensures { result ≡ ones_add self.now (ones_sum slice.now) }
    {
        Sum16BitWords {
            sum: if slice.len() < LONG {
                add_short(self.sum as u128, slice)
            } else {
                add_long(self.sum, slice)
            },
        }
    }

    /// Returns the Internet checksum: the one's complement of the sum. Headers contain it in big-endian order.
    #[inline]
    pub fn ones_complement(&self) -> u16
        ensures { result ≡ 65535 - self.now }
    {
        u16::MAX - folded(self.sum)
    }

    /// Returns the checksum as a UDP header contains it (RFC 768): the one's complement of the sum, but 65535 instead
    /// of 0.
    #[inline]
    pub fn ones_complement_with_no_zero(&self) -> u16
        ensures { result ≡ no_zero (65535 - self.now) }
    {
        match self.ones_complement() {
            0 => u16::MAX,
            checksum => checksum,
        }
    }
}

/// Adds two numbers in 64 bit one's complement: a carry out of the highest bit is added to the lowest one.
#[inline]
fn add_word(sum: u64, word: u64) -> u64
    ensures { residue result ≡ residue (sum + word) }
{
    let (sum, carry) = sum.overflowing_add(word);
    sum + carry as u64
}

/// Reduces a 128 bit sum to 64 bits in one's complement: its upper half is added to its lower half.
#[inline]
fn in_64_bits(sum: u128) -> u64
    ensures { residue result ≡ residue sum }
{
    add_word((sum >> 64) as u64, (sum & u64::MAX as u128) as u64)
}

/// Adds fewer than 128 bytes to a checksum sum, as big-endian 64 bit words. The last word is padded with zero bytes.
#[inline]
fn add_short(sum: u128, bytes: &[u8]) -> u64
    requires short { length bytes.now < 128 }
    requires sum_bound { sum < 2 ^ 127 }
    ensures { residue result ≡ residue (sum + word_sum bytes.now) }
{
    let mut sum = sum;
    let mut rest = bytes;
    while let Some((piece, after)) = rest.split_first_chunk::<8>() {
        sum += u64::from_be_bytes(*piece) as u128;
        rest = after;
    }
    in_64_bits(sum + last_word(rest) as u128)
}

/// Adds any number of bytes to a checksum sum, in blocks of at most 2048 bytes. It is not inlined into `add_slice`, so
/// that `add_slice` does not have to save its registers for short slices.
#[inline(never)]
fn add_long(sum: u64, bytes: &[u8]) -> u64
    ensures { residue result ≡ residue (sum + word_sum bytes.now) }
{
    let mut sum = sum as u128;
    let mut rest = bytes;
    while rest.len() >= LONG {
        let (block, after) = rest.split_at(rest.len().min(BLOCK) / 8 * 8);
        sum += block_sum(block) as u128;
        rest = after;
    }
    add_short(sum, rest)
}

/// Sums the 64 bit words of at most 2048 bytes for the checksum.
///
/// The bytes at the odd positions 1, 3, 5 and 7 of the words are summed in parallel, in 16 bits each, so that no carry
/// has to be propagated between words. The wrapping sum of the words, less these sums, leaves the sums of the bytes at
/// the even positions. Words are read in little-endian order, as the machine loads them.
#[inline]
fn block_sum(block: &[u8]) -> u64
    requires short { length block.now ≤ 2048 }
    requires words { length block.now % 8 ≡ 0 }
    ensures { residue result ≡ residue (word_sum block.now) }
{
    let mut both: u64 = 0;
    let mut odd: u64 = 0;
    let mut rest = block;
    while let Some((piece, after)) = rest.split_first_chunk::<8>() {
        let word = u64::from_le_bytes(*piece);
        both = both.wrapping_add(word);
        odd += word >> 8 & LOWER_BYTES;
        rest = after;
    }
    joined(both.wrapping_sub(odd << 8), odd)
}

/// Combines the sums of the bytes at even and at odd positions of little-endian 64 bit words into one sum for the
/// checksum. Each parameter contains four sums of 16 bits, one for each of its byte positions.
#[inline]
fn joined(even: u64, odd: u64) -> u64
    ensures { residue result ≡ residue (256 * even + odd) }
{
    let lower = (even & LOWER_BYTES) + (odd & LOWER_BYTES) * 256;
    let upper = (even >> 8 & LOWER_BYTES) + (odd >> 8 & LOWER_BYTES) * 256;
    in_64_bits(lower.swap_bytes() as u128 + upper.swap_bytes() as u128 * 256)
}

/// Reads fewer than 8 bytes as a big-endian 64 bit word, padded with zero bytes at its end.
#[inline]
fn last_word(bytes: &[u8]) -> u64
    requires { length bytes.now < 8 }
    ensures { residue result ≡ residue (word_sum bytes.now) }
{
    match bytes.split_first_chunk::<4>() {
        Some((piece, after)) => {
            (u32::from_be_bytes(*piece) as u64) * 0x1_0000_0000 + last_half(after)
        }
        None => last_half(bytes) * 0x1_0000_0000,
    }
}

/// Reads fewer than 4 bytes as a big-endian 32 bit word, padded with zero bytes at its end.
#[inline]
fn last_half(bytes: &[u8]) -> u64
    requires { length bytes.now < 4 }
    ensures value { residue result ≡ residue (word_sum bytes.now) }
    ensures bound { result < 2 ^ 32 }
{
    match bytes.split_first_chunk::<2>() {
        Some((piece, after)) => (u16::from_be_bytes(*piece) as u64) * 0x1_0000 + last_byte(after),
        None => last_byte(bytes) * 0x1_0000,
    }
}

/// Reads a slice of at most one byte as a 16 bit word: the byte is its upper half. Returns 0 for an empty slice.
#[inline]
fn last_byte(bytes: &[u8]) -> u64
    requires { length bytes.now < 2 }
    ensures value { result ≡ word_sum bytes.now }
    ensures bound { result < 2 ^ 16 }
{
    match bytes.first() {
        Some(byte) => *byte as u64 * 256,
        None => 0,
    }
}

/// Folds a 64 bit one's complement sum into 16 bits: the sum of the 16 bit words that the checksum covers.
#[inline]
fn folded(sum: u64) -> u16
    ensures { result ≡ residue sum }
{
    let sum = (sum >> 32) + (sum & 0xffff_ffff);
    let sum = (sum >> 16) + (sum & 0xffff);
    let sum = (sum >> 16) + (sum & 0xffff);
    let sum = (sum >> 16) + (sum & 0xffff);
    sum as u16
}
