//! The hasher for the keys of a reassembly pool's hash map: the identifiers of its streams.

ghost use Rattle.std.specs.Prelude.{◌≡◌, ◌≤◌};
ghost use Rattle.ep_defrag.specs.NameHashes.{initial, word, rest_of, capacity_step, wait_step, number_step, stepped, with_bytes, finished};

use std::hash::{FoldHasher, Hasher};

/// Greatest number of bytes that the hasher collects before it passes them on to std's hasher.
const MOST_WAITING: u64 = 3;

/// Base value of the hasher's 64-bit word of pending bytes after a number below 256 was written. The number is set in
/// its lowest 8 bits.
const NUMBER_WAITS: u64 = 0x200;

/// Bit 40, set in the hasher's 64-bit word of pending bytes if its lowest two bytes were written by one call. It
/// distinguishes them from two calls with one byte each.
const WRITTEN_AT_ONCE: u64 = 1 << 40;

/// Highest bit of the hasher's 64-bit word of pending bytes, set if the next write to std's hasher after this word is a
/// number of eight bytes that is passed on unchanged.
const NUMBER_FOLLOWS: u64 = 1 << 63;

/// Hashes the stream identifiers of a reassembly pool with std's [`FoldHasher`], but with fewer multiplications.
///
/// `FoldHasher` multiplies once for each write, one after the other, and an identifier writes each byte of an address
/// by itself. This hasher collects such bytes, and numbers of two bytes, after a length or the number of an enum
/// variant. Up to three bytes are passed to std's hasher as one number of eight bytes. All other writes are passed on
/// unchanged. An identifier thus takes 7 or 16 consecutive multiplications instead of 14 or 38.
///
/// The pending bytes are the lowest bytes of a 64-bit word. The word starts as 1, or as 0x200 plus a number below 256,
/// and is shifted up by each write. A further bit is set if one call wrote two bytes, and the highest bit if a number
/// of eight bytes follows unchanged. So different writes become different writes to std's hasher (law `name_hashes`).
/// Numbers of eight bytes from 256 on take two multiplications each.
///
/// One factor of each multiplication is a constant, and the other holds at most three bytes after a length. A change of
/// these bytes changes the product by at least 2^39, and the next three bytes can undo only 2^24; four bytes could be
/// computed to collide without a search. Finding two addresses that collide takes a search of some 2^20 hashes; with
/// std's hasher alone it takes a longer one. The four bytes of the IPv6 identification are passed on unchanged: with
/// them a search of some 2^17 is enough, with either hasher. A colliding channel (the caller's part of the identifier)
/// of eight bytes or more can be computed, with either hasher. The initial state is fixed.
#[derive(Clone, Copy)]
pub(crate) struct NameHasher {
    state: FoldHasher,
    /// 64-bit word of the bytes that were written and are not yet hashed; the last write is in the lowest bits. Above
    /// the bytes is the value 1, or 0x200 plus a number below 256. A further bit is set for two bytes that were written
    /// by one call (`WRITTEN_AT_ONCE`).
    waiting: u64,
    /// Number of bytes that were written and are not yet hashed, 0 to 3.
    count: u64,
}

impl Default for NameHasher {
    ghost is_default = { λ hasher. hasher ≡ initial };

    fn default() -> NameHasher {
        NameHasher {
            state: FoldHasher::default(),
            waiting: 1,
            count: 0,
        }
    }
}

impl NameHasher {
    /// Writes a number of eight bytes to std's hasher, and empties the word of pending bytes.
    #[inline(always)]
    fn flush_word(&mut self, number: u64)
        ensures { self.new ≡ stepped self.old (record { given = word number; waiting = 1; count = 0 }) }
    {
        self.state.write(&number.to_le_bytes());
        self.waiting = 1;
        self.count = 0;
    }

    /// Passes the pending bytes to std's hasher if `bytes` more bytes would make them more than three.
    #[inline(always)]
    fn reserve_bytes(&mut self, bytes: u64)
        ensures { self.new ≡ stepped self.old (capacity_step self.old.waiting self.old.count bytes) }
    {
        if self.count.saturating_add(bytes) > MOST_WAITING {
            self.flush_word(self.waiting);
        }
    }

    /// Appends a number with a width of `bytes` bytes to the pending bytes, which are not yet passed to std's hasher.
    #[inline(always)]
    fn append_bytes(&mut self, bytes: u64, number: u64)
        requires { bytes ≤ 3 }
        ensures { self.new ≡ stepped self.old (wait_step self.old.waiting self.old.count bytes number) }
    {
        self.reserve_bytes(bytes);
        self.waiting = self.waiting << (8 * bytes) | number;
        self.count += bytes;
    }

    /// Passes the pending bytes or the pending number, if any, to std's hasher.
    #[inline(always)]
    fn flush(&mut self)
        ensures { self.new ≡ stepped self.old (record { given = rest_of self.old.waiting; waiting = 1; count = 0 }) }
    {
        if self.waiting > 1 {
            self.flush_word(self.waiting);
            return;
        }
        self.waiting = 1;
        self.count = 0;
    }

    /// Hashes a number of eight bytes. A number below 256 (mostly a length) waits for the bytes that follow it, and any
    /// other number is passed to std's hasher unchanged.
    #[inline(always)]
    fn write_number(&mut self, number: u64)
        ensures { self.new ≡ stepped self.old (number_step self.old.waiting number) }
    {
        if number < 256 {
            self.flush();
            self.waiting = NUMBER_WAITS | number;
            return;
        }
        self.flush_word(self.waiting | NUMBER_FOLLOWS);
        self.flush_word(number);
    }
}

impl Hasher for NameHasher {
    ghost write = { with_bytes };

    ghost finish = { finished };

    #[inline(always)]
    fn finish(&self) -> u64 {
        let mut all = *self;
        all.flush();
        all.state.finish()
    }

    #[inline(always)]
    fn write(&mut self, bytes: &[u8]) {
        if bytes.len() == 1 {
            self.append_bytes(1, u64::from(bytes[0]));
            return;
        }
        if bytes.len() == 2 {
            let number = u64::from(u16::from_le_bytes([bytes[0], bytes[1]]));
            self.append_bytes(2, WRITTEN_AT_ONCE | number);
            return;
        }
        if bytes.len() == 8 {
            self.write_number(u64::from_le_bytes([
                bytes[0], bytes[1], bytes[2], bytes[3], bytes[4], bytes[5], bytes[6], bytes[7],
            ]));
            return;
        }
        self.flush();
        self.state.write(bytes);
    }
}
