ghost use Rattle.std.specs.Prelude.{◌≡◌, ◌≤◌};
ghost use Rattle.ep_base.specs.Bounded.{TriesNumber};

use crate::err::{ValueTooBigError, ValueType};
use std::marker::Model;

/// Explicit congestion notification (ECN) field of an IPv4 header, 2 bits (RFC 3168, 5).
#[derive(Clone, Copy, Debug, PartialEq, Eq, PartialOrd, Ord, Hash)]
pub struct Ipv4Ecn {
    number: u8,
}

impl Model for Ipv4Ecn {
    ghost use Rattle.std.specs.Prelude.{ℕ, ◌≤◌};

    ghost Value = { ℕ };

    ghost view = { λ fields. fields.number };

    ghost invariant = { λ fields. fields.number ≤ 3 };

    ghost inverse = { λ number. record { number = number } };
}

impl Ipv4Ecn {
    ghost use Rattle.ep_base.specs.declared.err.value_type.ValueType.TheVariants as value_type;

    /// Explicit congestion notification field with the value 0 (not ECN-capable transport).
    pub const ZERO: Ipv4Ecn = Ipv4Ecn { number: 0 };

    /// Creates an explicit congestion notification field, or returns an error if `value` is above 3.
    #[inline]
    pub fn try_new(value: u8) -> Result<Ipv4Ecn, ValueTooBigError<u8>>
        ensures { TriesNumber 3 value_type.Ipv4Ecn value result }
    {
        if value <= 3 {
            Ok(Ipv4Ecn { number: value })
        } else {
            Err(ValueTooBigError {
                actual: value,
                max_allowed: 3,
                value_type: ValueType::Ipv4Ecn,
            })
        }
    }

    /// Explicit congestion notification field as a number, at most 3.
    #[inline]
    pub fn value(self) -> u8
        ensures value { result ≡ self }
        ensures bound { result ≤ 3 }
    {
        self.number
    }
}
