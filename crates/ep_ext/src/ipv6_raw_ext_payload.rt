//! Owned payload of an IPv6 Hop-by-Hop Options, Destination Options or Routing header (RFC 8200, 4).

ghost use Rattle.std.specs.Prelude.{◌≡◌, ◌≤◌, ◌+◌, ◌*◌, ◌%◌, length};

use std::marker::Model;

/// Owned payload of an IPv6 options or routing header (all bytes after the first 2): 6 bytes and at most 255 units of 8
/// bytes.
#[derive(Clone, Debug, PartialEq, Eq, Drop)]
pub(crate) struct Ipv6RawExtPayload {
    /// Payload bytes of an IPv6 options or routing header, padded with zeros to the maximum length of 2046 bytes.
    bytes: [u8; 2046],
    /// Number of 8-byte units after the first 6 bytes of the payload of an IPv6 options or routing header. It is equal
    /// to the header's length field.
    units: u8,
}

impl Model for Ipv6RawExtPayload {
    ghost use Rattle.std.specs.Prelude.{◌≡◌, ℕ, ◌+◌, ◌-◌, ◌*◌, ◌/◌, ◌≤◌, List, length, take, drop, replicate};
    ghost use Rattle.ep_base.specs.Padding.{padded, padded_prefix};
    ghost use Rattle.std.proofs.Common.{arith, length-take-le};

    ghost Value = { List ℕ };

    ghost view = { λ v. take (6 + 8 * v.units) v.bytes };

    ghost invariant = { λ v. (length v.bytes ≡ 2046) × (v.units ≤ 255)
        × (drop (6 + 8 * v.units) v.bytes ≡ replicate (2046 - (6 + 8 * v.units)) 0) };

    ghost inverse = { λ payload. record { bytes = padded 2046 payload; units = length payload / 8 } };

    ghost inverse_ok = { λ v h.
        let len : length (take (6 + 8 * v.units) v.bytes) ≡ 6 + 8 * v.units
        = length-take-le (6 + 8 * v.units) v.bytes (Prim.omega (arith, h.0, h.1)) in
        let units : length (take (6 + 8 * v.units) v.bytes) / 8 ≡ v.units = Prim.omega (arith, len) in
        λ i. record {
          bytes = padded_prefix 2046 (6 + 8 * v.units) v.bytes h.0 (Prim.omega (arith, h.1)) h.2 i;
          units = units i;
        } };
}

impl Ipv6RawExtPayload {
    /// Creates the payload of an IPv6 options or routing header with a copy of `slice`. The length of `slice` must be 6
    /// to 2046 bytes, and 2 less than a multiple of 8.
    #[inline]
    pub(crate) fn copy_of(slice: &[u8]) -> Ipv6RawExtPayload
        requires least { 6 ≤ length slice.now }
        requires bound { length slice.now ≤ 2046 }
        requires units { (length slice.now + 2) % 8 ≡ 0 }
        ensures { result ≡ slice.now }
    {
        let mut bytes = [0; 2046];
        bytes[..slice.len()].copy_from_slice(slice);
        Ipv6RawExtPayload {
            bytes,
            units: (slice.len() / 8) as u8,
        }
    }

    /// Creates the shortest payload of an IPv6 options or routing header: 6 zero bytes.
    #[inline(always)]
    pub(crate) fn shortest() -> Ipv6RawExtPayload {
        Ipv6RawExtPayload {
            bytes: [0; 2046],
            units: 0,
        }
    }

    /// Overwrites the payload of an IPv6 options or routing header in place with a copy of `slice`, which avoids a move
    /// of its 2046-byte buffer. The length of `slice` must be 6 to 2046 bytes, and 2 less than a multiple of 8.
    #[inline]
    pub(crate) fn fill(&mut self, slice: &[u8])
        requires least { 6 ≤ length slice.now }
        requires bound { length slice.now ≤ 2046 }
        requires units { (length slice.now + 2) % 8 ≡ 0 }
        ensures { self.new ≡ slice.now }
    {
        self.bytes = [0; 2046];
        self.bytes[..slice.len()].copy_from_slice(slice);
        self.units = (slice.len() / 8) as u8;
    }

    /// Payload bytes of the IPv6 options or routing header, without padding.
    #[inline]
    pub(crate) fn as_slice(&self) -> &[u8]
        ensures value { result.now ≡ self.now }
        ensures least { 6 ≤ length self.now }
        ensures bound { length self.now ≤ 2046 }
        ensures units { (length self.now + 2) % 8 ≡ 0 }
    {
        &self.bytes[..6 + 8 * self.units as usize]
    }

    /// Number of 8-byte units after the first 6 bytes of the payload of the IPv6 options or routing header. It is equal
    /// to the header's length field.
    #[inline]
    pub(crate) fn units(&self) -> u8
        ensures { 6 + 8 * result ≡ length self.now }
    {
        self.units
    }
}
