//! Numbers in the byte order of a capture.

ghost use Rattle.std.specs.Prelude.{◌≡◌, ◌+◌, ◌≤◌, length};
ghost use Rattle.std.specs.Int.{w64, cast_signed};
ghost use Rattle.capture_reader.specs.Numbers.{word16_at, word32_at, word64_of};

/// Byte order in which a capture stores its numbers.
#[derive(Clone, Copy, Debug, PartialEq, Eq)]
pub enum ByteOrder {
    /// Big endian: the most significant byte first.
    Big,
    /// Little endian: the least significant byte first.
    Little,
}

impl ByteOrder {
    /// Reads a 16 bit number of this byte order at index `at` of `bytes`.
    #[inline]
    #[tactic(auto, unfolding(crate::specs::Numbers::word16_at))]
    pub(crate) fn word16(self, bytes: &[u8], at: usize) -> u16
        requires { at + 2 ≤ length bytes.now }
        ensures { result ≡ word16_at self bytes.now at }
    {
        let word = [bytes[at], bytes[at + 1]];
        match self {
            ByteOrder::Big => u16::from_be_bytes(word),
            ByteOrder::Little => u16::from_le_bytes(word),
        }
    }

    /// Reads a 32 bit number of this byte order at index `at` of `bytes`.
    #[inline]
    #[tactic(auto, unfolding(crate::specs::Numbers::word32_at))]
    pub(crate) fn word32(self, bytes: &[u8], at: usize) -> u32
        requires { at + 4 ≤ length bytes.now }
        ensures { result ≡ word32_at self bytes.now at }
    {
        let word = [bytes[at], bytes[at + 1], bytes[at + 2], bytes[at + 3]];
        match self {
            ByteOrder::Big => u32::from_be_bytes(word),
            ByteOrder::Little => u32::from_le_bytes(word),
        }
    }

    /// Reads a signed 64 bit number of this byte order from the first 8 bytes of `bytes`.
    #[tactic(auto, unfolding(crate::specs::Numbers::word64_of))]
    pub(crate) fn signed64(self, bytes: &[u8]) -> i64
        requires { 8 ≤ length bytes.now }
        ensures { result ≡ cast_signed w64 (word64_of self bytes.now) }
    {
        let word = [
            bytes[0], bytes[1], bytes[2], bytes[3], bytes[4], bytes[5], bytes[6], bytes[7],
        ];
        match self {
            ByteOrder::Big => i64::from_be_bytes(word),
            ByteOrder::Little => i64::from_le_bytes(word),
        }
    }
}
