//! Fields of a frame that are set anew for each call of a benchmark job, so that no call gets an input twice.

ghost use Rattle.std.specs.Prelude.{◌≤◌};

/// Writes a big endian 16 bit number at index `at`. Bytes of it that are out of range are not written.
#[inline]
pub fn put_16(bytes: &mut [u8], at: usize, number: u16) {
    let [high, low] = number.to_be_bytes();
    put(bytes, at, high);
    put(bytes, at.wrapping_add(1), low);
}

/// Writes a big endian 32 bit number at index `at`. Bytes of it that are out of range are not written.
#[inline]
pub fn put_32(bytes: &mut [u8], at: usize, number: u32) {
    let [a, b, c, d] = number.to_be_bytes();
    put(bytes, at, a);
    put(bytes, at.wrapping_add(1), b);
    put(bytes, at.wrapping_add(2), c);
    put(bytes, at.wrapping_add(3), d);
}

/// Writes a byte at index `at` if that is in range, otherwise does nothing.
#[inline]
pub fn put(bytes: &mut [u8], at: usize, byte: u8) {
    if at < bytes.len() {
        bytes[at] = byte;
    }
}

/// Returns the lower 16 bits of a number.
#[inline]
pub fn low_16(number: u64) -> u16 {
    (number % 65_536) as u16
}

/// Positions of two 16 bit fields of a frame. They contain a number and its one's complement, so that a checksum over
/// both stays valid for any number.
#[derive(Clone, Copy)]
pub struct Balance {
    /// Index of a 16 bit field that can be set to any number: from the start of the frame, or after `moved` from the
    /// start of the vector that contains the frame.
    pub number: usize,
    /// Index, from the same start, of the 16 bit field that is set to the one's complement of the field at `number`, so
    /// that checksums stay valid.
    pub complement: usize,
}

impl Balance {
    /// Value for a frame without the two 16 bit fields, for example because it is truncated before them.
    pub const NONE: Balance = Balance {
        number: usize::MAX,
        complement: usize::MAX,
    };

    /// Returns true if the frame has this pair of 16 bit fields, false for `NONE`.
    #[inline]
    pub fn is_there(&self) -> bool {
        self.number != usize::MAX
    }

    /// Writes `number` and its one's complement, big endian, to the two 16 bit fields of a frame.
    #[inline]
    pub fn put(&self, bytes: &mut [u8], number: u16) {
        put_16(bytes, self.number, number);
        put_16(bytes, self.complement, 65_535 - number);
    }

    /// Returns the positions of the two 16 bit fields moved by `by` bytes, or `NONE` unless both are less than `len`
    /// before the move.
    pub fn moved(&self, by: usize, len: usize) -> Balance {
        if self.number < len && self.complement < len {
            Balance {
                number: self.number.wrapping_add(by),
                complement: self.complement.wrapping_add(by),
            }
        } else {
            Balance::NONE
        }
    }
}

/// Returns a pseudorandom number, a different one for each argument (after SplitMix by Steele, Lea and Flood).
#[inline]
pub fn mixed(number: u64) -> u64 {
    let number = number.wrapping_mul(0x9e37_79b9_7f4a_7c15);
    let number = (number ^ (number >> 30)).wrapping_mul(0xbf58_476d_1ce4_e5b9);
    let number = (number ^ (number >> 27)).wrapping_mul(0x94d0_49bb_1331_11eb);
    number ^ (number >> 31)
}

/// A generator of pseudorandom numbers for the inputs of a benchmark job: each number depends on the seed and on how
/// many were drawn before.
#[derive(Drop)]
pub struct Numbers {
    next: u64,
}

impl Numbers {
    /// Returns a generator of the pseudorandom numbers of this seed.
    pub fn new(seed: u64) -> Numbers {
        Numbers {
            next: seed.wrapping_mul(0x1_0000_0001),
        }
    }

    /// Returns the next pseudorandom number, of 64 bits.
    #[inline]
    pub fn draw(&mut self) -> u64 {
        self.next = self.next.wrapping_add(1);
        mixed(self.next)
    }

    /// Returns the next pseudorandom number reduced modulo `bound`; if `bound` is 0, returns 0 and draws none.
    #[inline]
    pub fn below(&mut self, bound: u64) -> u64
        ensures { result ≤ bound }
    {
        if bound == 0 { 0 } else { self.draw() % bound }
    }
}
