ghost use Rattle.std.specs.Prelude.{◌≡◌, ◌≤◌};
ghost use Rattle.ep_base.specs.Bounded.{TriesNumber};

use crate::err::{ValueTooBigError, ValueType};
use std::marker::Model;

/// Flow label of an IPv6 header, 20 bits (RFC 8200, 3).
#[derive(Clone, Copy, Debug, PartialEq, Eq, PartialOrd, Ord, Hash)]
pub struct Ipv6FlowLabel {
    number: u32,
}

impl Model for Ipv6FlowLabel {
    ghost use Rattle.std.specs.Prelude.{ℕ, ◌≤◌};

    ghost Value = { ℕ };

    ghost view = { λ fields. fields.number };

    ghost invariant = { λ fields. fields.number ≤ 1048575 };

    ghost inverse = { λ number. record { number = number } };
}

impl Ipv6FlowLabel {
    ghost use Rattle.ep_base.specs.declared.err.value_type.ValueType.TheVariants as value_type;

    /// IPv6 flow label 0.
    pub const ZERO: Ipv6FlowLabel = Ipv6FlowLabel { number: 0 };

    /// Creates an IPv6 flow label, or returns an error if `value` is above 1048575.
    #[inline]
    pub fn try_new(value: u32) -> Result<Ipv6FlowLabel, ValueTooBigError<u32>>
        ensures { TriesNumber 1048575 value_type.Ipv6FlowLabel value result }
    {
        if value <= 1048575 {
            Ok(Ipv6FlowLabel { number: value })
        } else {
            Err(ValueTooBigError {
                actual: value,
                max_allowed: 1048575,
                value_type: ValueType::Ipv6FlowLabel,
            })
        }
    }

    /// IPv6 flow label as a number, at most 1048575.
    #[inline]
    pub fn value(self) -> u32
        ensures value { result ≡ self }
        ensures bound { result ≤ 1048575 }
    {
        self.number
    }
}
