//! Options of an IPv4 header (RFC 791, 3.1).

ghost use Rattle.std.specs.Prelude.{◌≡◌, ◌<◌, ◌≤◌, ◌%◌, ◌⊎◌, [], length, MatchResult};

use std::marker::Model;
use thiserror::Error;

/// Options of an IPv4 header: at most 40 bytes, a multiple of 4. They are stored as bytes and not interpreted.
#[derive(Clone, Debug, PartialEq, Eq, Drop)]
pub struct Ipv4Options {
    /// Bytes of the IPv4 options, followed by zero bytes up to 40.
    bytes: [u8; 40],
    /// Length of the IPv4 options in bytes: 0 to 40, a multiple of 4.
    len: u8,
}

impl Model for Ipv4Options {
    ghost use Rattle.std.specs.Prelude.{◌≡◌, ℕ, ◌-◌, ◌≤◌, ◌%◌, List, length, take, drop, replicate};
    ghost use Rattle.ep_base.specs.Padding.{padded, padded_prefix};
    ghost use Rattle.std.proofs.Common.{arith, length-take-le};

    ghost Value = { List ℕ };

    ghost view = { λ o. take o.len o.bytes };

    ghost invariant = { λ o. (length o.bytes ≡ 40) × (o.len ≤ 40) × (o.len % 4 ≡ 0)
        × (drop o.len o.bytes ≡ replicate (40 - o.len) 0) };

    ghost inverse = { λ options. record { bytes = padded 40 options; len = length options } };

    ghost inverse_ok = { λ o h i. record {
      bytes = padded_prefix 40 o.len o.bytes h.0 h.1 h.3 i;
      len = length-take-le o.len o.bytes (Prim.omega (arith, h.0, h.1)) i;
    } };
}

/// Error for IPv4 options whose number of bytes is above 40, or not a multiple of 4. It contains this number.
#[derive(Clone, Debug, PartialEq, Eq, Hash, Drop, Error)]
#[error("BadOptionsLen {0}")]
pub struct BadOptionsLen(pub usize);

impl Default for Ipv4Options {
    ghost is_default = { λ options. options ≡ [] };

    fn default() -> Ipv4Options {
        Ipv4Options::new()
    }
}

impl Ipv4Options {
    /// Maximum length of the options of an IPv4 header in bytes: 40.
    pub const MAX_LEN: usize = 40;

    /// Creates IPv4 options of length 0.
    #[inline]
    pub fn new() -> Ipv4Options
        ensures { result ≡ [] }
    {
        Ipv4Options {
            bytes: [0; 40],
            len: 0,
        }
    }

    /// Creates IPv4 options with a copy of the bytes of `slice`. Fails if their number is above 40 or not a multiple of
    /// 4.
    pub fn try_new(slice: &[u8]) -> Result<Ipv4Options, BadOptionsLen>
        ensures { MatchResult result
            (λ options. (length slice.now ≤ 40) × (length slice.now % 4 ≡ 0) × (options ≡ slice.now))
            (λ error. ((40 < length slice.now) ⊎ (0 < length slice.now % 4))
            × (error ≡ record { 0 = length slice.now })) }
    {
        if slice.len() > Ipv4Options::MAX_LEN || slice.len() % 4 != 0 {
            return Err(BadOptionsLen(slice.len()));
        }
        Ok(Ipv4Options::from_valid_slice(slice))
    }

    /// Creates IPv4 options with a copy of the bytes of `slice`. Their number must be a multiple of 4 and at most 40.
    #[inline]
    pub(crate) fn from_valid_slice(slice: &[u8]) -> Ipv4Options
        requires bound { length slice.now ≤ 40 }
        requires words { length slice.now % 4 ≡ 0 }
        ensures { result ≡ slice.now }
    {
        let mut options = Ipv4Options::new();
        options.fill(slice);
        options
    }

    /// Replaces the IPv4 options by a copy of the bytes of `slice`. Their number must be a multiple of 4 and at most
    /// 40.
    #[inline]
    pub(crate) fn fill(&mut self, slice: &[u8])
        requires bound { length slice.now ≤ 40 }
        requires words { length slice.now % 4 ≡ 0 }
        ensures { self.new ≡ slice.now }
    {
        self.bytes = [0; 40];
        self.bytes[..slice.len()].copy_from_slice(slice);
        self.len = slice.len() as u8;
    }

    /// Bytes of the IPv4 options: up to 40, without the zero bytes that pad them in memory.
    #[inline]
    pub fn as_slice(&self) -> &[u8]
        ensures value { result.now ≡ self.now }
        ensures bound { length self.now ≤ 40 }
        ensures words { length self.now % 4 ≡ 0 }
    {
        &self.bytes[..self.len()]
    }

    /// Length of the IPv4 options in bytes: 0 to 40, a multiple of 4.
    #[inline]
    pub fn len(&self) -> usize
        ensures value { result ≡ length self.now }
        ensures bound { result ≤ 40 }
        ensures words { result % 4 ≡ 0 }
    {
        self.len as usize
    }
}
