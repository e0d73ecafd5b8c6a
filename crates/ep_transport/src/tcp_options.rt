//! List of the options of a TCP header as bytes (RFC 9293, 3.1).

ghost use Rattle.std.specs.Prelude.{◌≡◌, ◌-◌, ◌^◌, ◌<◌, ◌≤◌, ◌%◌, [], length, min, MatchResult};
ghost use Rattle.std.specs.List.{All};
ghost use Rattle.ep_transport.specs.TcpOptionBytes.{FitsOption, in_words, options_bytes};
ghost use Rattle.ep_transport.specs.TcpOptionSteps.{options_left};

use crate::tcp_option_element::TcpOptionElement;
use crate::tcp_options_iterator::TcpOptionsIterator;
use arrayvec::ArrayVec;
use std::marker::Model;
use thiserror::Error;

/// All options of a TCP header as wire bytes: at most 40 bytes, a multiple of 4.
#[derive(Clone, Debug, PartialEq, Eq, Drop)]
pub struct TcpOptions {
    /// Bytes of the TCP options, followed by zero bytes up to 40.
    bytes: [u8; 40],
    /// Length of the TCP options in bytes: 0 to 40, a multiple of 4.
    len: u8,
}

impl Model for TcpOptions {
    ghost use Rattle.std.specs.Prelude.{◌≡◌, ℕ, ◌-◌, ◌≤◌, ◌%◌, List, ◌++◌, length, take, drop, replicate};
    ghost use Rattle.ep_base.specs.Padding.{padded, padded_prefix};
    ghost use Rattle.std.proofs.Common.{arith, length-take-le};

    ghost Value = { List ℕ };

    ghost view = { λ o. take o.len o.bytes };

    ghost invariant = { λ o. (length o.bytes ≡ 40) × (o.len ≤ 40) × (o.len % 4 ≡ 0)
        × (drop o.len o.bytes ≡ replicate (40 - o.len) 0) };

    ghost inverse = { λ options. record { bytes = padded 40 options; len = length options } };

    ghost inverse_ok = { λ o h i. record {
      bytes = padded_prefix 40 o.len o.bytes h.0 h.1 h.3 i;
      len = length-take-le o.len o.bytes (Prim.omega (arith, h.0, h.1)) i;
    } };
}

/// Error of setting or encoding the options of a TCP header.
#[derive(Clone, Debug, PartialEq, Eq, Hash, Drop, Error)]
pub enum TcpOptionWriteError {
    /// The TCP options are longer than 40 bytes; their length in bytes is contained.
    #[error("NotEnoughSpace {0}")]
    NotEnoughSpace(usize),
}

impl Default for TcpOptions {
    ghost is_default = { λ options. options ≡ [] };

    fn default() -> TcpOptions {
        TcpOptions::new()
    }
}

impl TcpOptions {
    ghost use Rattle.ep_transport.specs.declared.tcp_options.TcpOptionWriteError.TheVariants.{NotEnoughSpace};

    /// Maximum length of the options of a TCP header in bytes: 40.
    pub const MAX_LEN: usize = 40;

    /// Creates TCP options of length 0.
    #[inline]
    pub fn new() -> TcpOptions
        ensures { result ≡ [] }
    {
        TcpOptions {
            bytes: [0; 40],
            len: 0,
        }
    }

    /// Creates TCP options with a copy of the bytes of `slice`, padded with zero bytes to a multiple of 4. They are not
    /// parsed. Fails if there are more than 40.
    pub fn try_from_slice(slice: &[u8]) -> Result<TcpOptions, TcpOptionWriteError>
        ensures { MatchResult result
            (λ options. (length slice.now ≤ 40) × (options ≡ in_words slice.now))
            (λ error. (40 < length slice.now) × (error ≡ NotEnoughSpace (length slice.now))) }
    {
        if slice.len() > TcpOptions::MAX_LEN {
            return Err(TcpOptionWriteError::NotEnoughSpace(slice.len()));
        }
        Ok(TcpOptions::copy_of(slice))
    }

    /// Encodes the TCP options `elements`, and pads them with zero bytes to a multiple of 4. Fails if the encoded
    /// options exceed 40 bytes; the error contains their length, limited to `usize::MAX`. Parsing reads the options
    /// back, except that in a selective acknowledgment, present blocks are moved before absent ones
    /// (`laws::tcp_options_read_back`).
    pub fn try_from_elements(
        elements: &[TcpOptionElement],
    ) -> Result<TcpOptions, TcpOptionWriteError>
        ensures value { MatchResult result
            (λ options. (length (options_bytes elements.now) ≤ 40) × (options ≡ in_words (options_bytes elements.now)))
            (λ error. (40 < length (options_bytes elements.now))
            × (error ≡ NotEnoughSpace (min (length (options_bytes elements.now)) (2 ^ 64 - 1)))) }
        ensures fits { All FitsOption elements.now }
    {
        let mut options = TcpOptions::new();
        options.set_elements(elements)?;
        Ok(options)
    }

    /// Encodes the TCP options `elements`, pads them with zero bytes to a multiple of 4, and replaces the stored
    /// options by them. Fails above 40 bytes; the stored options are then unchanged.
    pub(crate) fn set_elements(
        &mut self,
        elements: &[TcpOptionElement],
    ) -> Result<(), TcpOptionWriteError>
        ensures value { MatchResult result
            (λ _. (length (options_bytes elements.now) ≤ 40)
            × (self.new ≡ in_words (options_bytes elements.now)))
            (λ error. (40 < length (options_bytes elements.now)) × (self.new ≡ self.old)
            × (error ≡ NotEnoughSpace (min (length (options_bytes elements.now)) (2 ^ 64 - 1)))) }
        ensures fits { All FitsOption elements.now }
    {
        let mut bytes: ArrayVec<u8, 40> = ArrayVec::new();
        let mut len: usize = 0;
        for element in elements {
            len = len.saturating_add(element.append_if_fits(&mut bytes));
        }
        if len > TcpOptions::MAX_LEN {
            return Err(TcpOptionWriteError::NotEnoughSpace(len));
        }
        self.fill(bytes.as_slice());
        Ok(())
    }

    /// Creates TCP options with a copy of the bytes of `slice` (at most 40), padded with zero bytes to a multiple of 4.
    #[inline]
    pub(crate) fn copy_of(slice: &[u8]) -> TcpOptions
        requires { length slice.now ≤ 40 }
        ensures { result ≡ in_words slice.now }
    {
        let mut options = TcpOptions::new();
        options.fill(slice);
        options
    }

    /// Replaces the TCP options by a copy of the bytes of `slice` (at most 40), padded with zero bytes to a multiple of
    /// 4.
    #[inline]
    pub(crate) fn fill(&mut self, slice: &[u8])
        requires { length slice.now ≤ 40 }
        ensures { self.new ≡ in_words slice.now }
    {
        self.bytes = [0; 40];
        self.bytes[..slice.len()].copy_from_slice(slice);
        self.len = ((slice.len() + 3) / 4 * 4) as u8;
    }

    /// Wire bytes of the TCP options, padded with zero bytes to a multiple of 4.
    #[inline]
    pub fn as_slice(&self) -> &[u8]
        ensures value { result.now ≡ self.now }
        ensures bound { length self.now ≤ 40 }
        ensures words { length self.now % 4 ≡ 0 }
    {
        &self.bytes[..self.len()]
    }

    /// Returns an iterator that parses the TCP options one by one.
    #[inline]
    pub fn elements_iter(&self) -> TcpOptionsIterator<'_>
        ensures { options_left result ≡ self.now }
    {
        TcpOptionsIterator::from_slice(self.as_slice())
    }

    /// Length of the TCP options in bytes: 0 to 40, a multiple of 4.
    #[inline]
    pub fn len(&self) -> usize
        ensures value { result ≡ length self.now }
        ensures bound { result ≤ 40 }
        ensures words { result % 4 ≡ 0 }
    {
        self.len as usize
    }
}
