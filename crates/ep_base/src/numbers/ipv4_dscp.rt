ghost use Rattle.std.specs.Prelude.{◌≡◌, ◌≤◌};
ghost use Rattle.ep_base.specs.Bounded.{TriesNumber};

use crate::err::{ValueTooBigError, ValueType};
use std::marker::Model;

/// Differentiated services code point (DSCP) of an IPv4 header, 6 bits (RFC 2474, 3).
#[derive(Clone, Copy, Debug, PartialEq, Eq, PartialOrd, Ord, Hash)]
pub struct Ipv4Dscp {
    number: u8,
}

impl Model for Ipv4Dscp {
    ghost use Rattle.std.specs.Prelude.{ℕ, ◌≤◌};

    ghost Value = { ℕ };

    ghost view = { λ fields. fields.number };

    ghost invariant = { λ fields. fields.number ≤ 63 };

    ghost inverse = { λ number. record { number = number } };
}

impl Ipv4Dscp {
    ghost use Rattle.ep_base.specs.declared.err.value_type.ValueType.TheVariants as value_type;

    /// Differentiated services code point 0.
    pub const ZERO: Ipv4Dscp = Ipv4Dscp { number: 0 };

    /// Creates a differentiated services code point, or returns an error if `value` is above 63.
    #[inline]
    pub fn try_new(value: u8) -> Result<Ipv4Dscp, ValueTooBigError<u8>>
        ensures { TriesNumber 63 value_type.Ipv4Dscp value result }
    {
        if value <= 63 {
            Ok(Ipv4Dscp { number: value })
        } else {
            Err(ValueTooBigError {
                actual: value,
                max_allowed: 63,
                value_type: ValueType::Ipv4Dscp,
            })
        }
    }

    /// Differentiated services code point as a number, at most 63.
    #[inline]
    pub fn value(self) -> u8
        ensures value { result ≡ self }
        ensures bound { result ≤ 63 }
    {
        self.number
    }
}
