//! Hardware and protocol addresses of ARP packets (RFC 826), owned.

ghost use Rattle.std.specs.Prelude.{◌≡◌, ◌≤◌, length};

use std::marker::Model;

/// Hardware or protocol address of an ARP packet, at most 255 bytes.
#[derive(Clone, Debug, PartialEq, Eq, Drop)]
pub(crate) struct ArpAddress {
    /// Bytes of the ARP address, padded with zero bytes to 255.
    bytes: [u8; 255],
    /// Length of the ARP address in bytes, 0 to 255. All bytes of `bytes` after the address are 0.
    len: u8,
}

impl Model for ArpAddress {
    ghost use Rattle.std.specs.Prelude.{◌≡◌, ℕ, ◌-◌, ◌≤◌, List, ◌++◌, length, take, drop, replicate};
    ghost use Rattle.ep_base.specs.Padding.{padded, padded_prefix};
    ghost use Rattle.std.proofs.Common.{arith, length-take-le};

    ghost Value = { List ℕ };

    ghost view = { λ a. take a.len a.bytes };

    ghost invariant = { λ a. (length a.bytes ≡ 255) × (a.len ≤ 255)
        × (drop a.len a.bytes ≡ replicate (255 - a.len) 0) };

    ghost inverse = { λ address. record { bytes = padded 255 address; len = length address } };

    ghost inverse_ok = { λ a h i. record {
      bytes = padded_prefix 255 a.len a.bytes h.0 h.1 h.2 i;
      len = length-take-le a.len a.bytes (Prim.omega (arith, h.0, h.1)) i;
    } };
}

impl ArpAddress {
    /// Maximum length of an address in an ARP packet in bytes.
    pub(crate) const MAX_LEN: usize = 255;

    /// Copies a hardware or protocol address of at most 255 bytes from `slice`.
    #[inline]
    pub(crate) fn copy_of(slice: &[u8]) -> ArpAddress
        requires { length slice.now ≤ 255 }
        ensures { result ≡ slice.now }
    {
        let mut bytes = [0; 255];
        bytes[..slice.len()].copy_from_slice(slice);
        ArpAddress {
            bytes,
            len: slice.len() as u8,
        }
    }

    /// Bytes of the ARP address, at most 255.
    #[inline]
    pub(crate) fn as_slice(&self) -> &[u8]
        ensures value { result.now ≡ self.now }
        ensures bound { length self.now ≤ 255 }
    {
        &self.bytes[..self.len as usize]
    }

    /// Length of the ARP address in bytes.
    #[inline]
    pub(crate) fn len(&self) -> u8
        ensures { result ≡ length self.now }
    {
        self.len
    }
}
