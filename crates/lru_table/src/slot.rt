//! Slots of a table, and their hasher.

ghost use Rattle.std.specs.Prelude.{◌≡◌};
ghost use Rattle.lru_table.specs.SlotHashes.{word_of, with_bytes};

use std::hash::Hasher;

/// Place of an entry in a table. Keys with equal hashes are in slots with different numbers.
#[derive(Clone, Copy, Debug, PartialEq, Eq, Hash)]
pub struct Slot {
    /// Hash of the key, as the caller computed it.
    pub hash: u64,
    /// Number among the slots of this hash, 0 unless keys have equal hashes.
    pub number: u64,
}

/// Hasher of [`Slot`]: the exclusive or of the words of eight bytes that are written, as one of them is a hash already.
#[doc(hidden)]
#[derive(Clone, Copy)]
pub struct SlotHasher {
    word: u64,
}

impl Default for SlotHasher {
    ghost is_default = { λ hasher. word_of hasher ≡ 0 };

    fn default() -> SlotHasher {
        SlotHasher { word: 0 }
    }
}

impl Hasher for SlotHasher {
    ghost write = { with_bytes };

    ghost finish = { word_of };

    #[inline(always)]
    fn finish(&self) -> u64 {
        self.word
    }

    #[inline(always)]
    fn write(&mut self, bytes: &[u8]) {
        if bytes.len() == 8 {
            self.word ^= u64::from_le_bytes([
                bytes[0], bytes[1], bytes[2], bytes[3], bytes[4], bytes[5], bytes[6], bytes[7],
            ]);
        }
    }
}
