//! Owned integrity check value of an IP authentication header (RFC 4302, 2.6).

ghost use Rattle.std.specs.Prelude.{◌≡◌, ◌≤◌, ◌*◌, ◌%◌, length};

use std::marker::Model;

/// Owned integrity check value of an IP authentication header: at most 1016 bytes, a multiple of 4.
#[derive(Clone, Debug, PartialEq, Eq, Drop)]
pub(crate) struct IpAuthIcv {
    /// Bytes of an integrity check value, padded with zeros to the maximum length of 1016 bytes.
    bytes: [u8; 1016],
    /// Length of an integrity check value in 4-byte words: 0 to 254.
    words: u8,
}

impl Model for IpAuthIcv {
    ghost use Rattle.std.specs.Prelude.{◌≡◌, ℕ, ◌-◌, ◌*◌, ◌/◌, ◌≤◌, List, length, take, drop, replicate};
    ghost use Rattle.ep_base.specs.Padding.{padded, padded_prefix};
    ghost use Rattle.std.proofs.Common.{arith, length-take-le};

    ghost Value = { List ℕ };

    ghost view = { λ v. take (4 * v.words) v.bytes };

    ghost invariant = { λ v. (length v.bytes ≡ 1016) × (v.words ≤ 254)
        × (drop (4 * v.words) v.bytes ≡ replicate (1016 - 4 * v.words) 0) };

    ghost inverse = { λ icv. record { bytes = padded 1016 icv; words = length icv / 4 } };

    ghost inverse_ok = { λ v h.
        let len : length (take (4 * v.words) v.bytes) ≡ 4 * v.words
        = length-take-le (4 * v.words) v.bytes (Prim.omega (arith, h.0, h.1)) in
        let words : length (take (4 * v.words) v.bytes) / 4 ≡ v.words = Prim.omega (arith, len) in
        λ i. record {
          bytes = padded_prefix 1016 (4 * v.words) v.bytes h.0 (Prim.omega (arith, h.1)) h.2 i;
          words = words i;
        } };
}

impl IpAuthIcv {
    /// Creates an integrity check value with a copy of `slice`. The length of `slice` must be a multiple of 4, and at
    /// most 1016 bytes.
    #[inline]
    pub(crate) fn copy_of(slice: &[u8]) -> IpAuthIcv
        requires bound { length slice.now ≤ 1016 }
        requires words { length slice.now % 4 ≡ 0 }
        ensures { result ≡ slice.now }
    {
        let mut bytes = [0; 1016];
        bytes[..slice.len()].copy_from_slice(slice);
        IpAuthIcv {
            bytes,
            words: (slice.len() / 4) as u8,
        }
    }

    /// Creates an empty integrity check value (0 bytes).
    #[inline(always)]
    pub(crate) fn shortest() -> IpAuthIcv {
        IpAuthIcv {
            bytes: [0; 1016],
            words: 0,
        }
    }

    /// Overwrites an integrity check value in place with a copy of `slice`, which avoids a move of its 1016-byte
    /// buffer. The length of `slice` must be a multiple of 4, and at most 1016 bytes.
    #[inline]
    pub(crate) fn fill(&mut self, slice: &[u8])
        requires bound { length slice.now ≤ 1016 }
        requires words { length slice.now % 4 ≡ 0 }
        ensures { self.new ≡ slice.now }
    {
        self.bytes = [0; 1016];
        self.bytes[..slice.len()].copy_from_slice(slice);
        self.words = (slice.len() / 4) as u8;
    }

    /// Bytes of the integrity check value, without padding.
    #[inline]
    pub(crate) fn as_slice(&self) -> &[u8]
        ensures value { result.now ≡ self.now }
        ensures bound { length self.now ≤ 1016 }
        ensures words { length self.now % 4 ≡ 0 }
    {
        &self.bytes[..4 * self.words as usize]
    }

    /// Length of the integrity check value in 4-byte words: 0 to 254.
    #[inline]
    pub(crate) fn words(&self) -> u8
        ensures value { 4 * result ≡ length self.now }
        ensures bound { result ≤ 254 }
    {
        self.words
    }
}
