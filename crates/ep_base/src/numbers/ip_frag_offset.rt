ghost use Rattle.std.specs.Prelude.{◌≡◌, ◌≤◌, ◌*◌};
ghost use Rattle.ep_base.specs.Bounded.{TriesNumber};

use crate::err::{ValueTooBigError, ValueType};
use std::marker::Model;

/// Fragment offset of an IP packet in units of 8 bytes, 13 bits (RFC 791, 3.1 and RFC 8200, 4.5).
#[derive(Clone, Copy, Debug, PartialEq, Eq, PartialOrd, Ord, Hash)]
pub struct IpFragOffset {
    number: u16,
}

impl Model for IpFragOffset {
    ghost use Rattle.std.specs.Prelude.{ℕ, ◌≤◌};

    ghost Value = { ℕ };

    ghost view = { λ fields. fields.number };

    ghost invariant = { λ fields. fields.number ≤ 8191 };

    ghost inverse = { λ number. record { number = number } };
}

impl IpFragOffset {
    ghost use Rattle.ep_base.specs.declared.err.value_type.ValueType.TheVariants as value_type;

    /// Fragment offset 0: the start of the payload.
    pub const ZERO: IpFragOffset = IpFragOffset { number: 0 };

    /// Creates a fragment offset of `value` units of 8 bytes, or returns an error if `value` is above 8191.
    #[inline]
    pub fn try_new(value: u16) -> Result<IpFragOffset, ValueTooBigError<u16>>
        ensures { TriesNumber 8191 value_type.IpFragmentOffset value result }
    {
        if value <= 8191 {
            Ok(IpFragOffset { number: value })
        } else {
            Err(ValueTooBigError {
                actual: value,
                max_allowed: 8191,
                value_type: ValueType::IpFragmentOffset,
            })
        }
    }

    /// Fragment offset in units of 8 bytes, at most 8191.
    #[inline]
    pub fn value(self) -> u16
        ensures value { result ≡ self }
        ensures bound { result ≤ 8191 }
    {
        self.number
    }

    /// Fragment offset in bytes, at most 65528: 8 times the number in the header field.
    #[inline]
    pub fn byte_offset(self) -> u16
        ensures { result ≡ 8 * self }
    {
        self.number * 8
    }
}
