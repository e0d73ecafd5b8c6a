ghost use Rattle.std.specs.Prelude.{◌≡◌, ◌≤◌};
ghost use Rattle.ep_base.specs.Bounded.{TriesNumber};

use crate::err::{ValueTooBigError, ValueType};
use std::marker::Model;

/// Priority code point (PCP) of a VLAN tag, 3 bits (IEEE 802.1Q, 9.6).
#[derive(Clone, Copy, Debug, PartialEq, Eq, PartialOrd, Ord, Hash)]
pub struct VlanPcp {
    number: u8,
}

impl Model for VlanPcp {
    ghost use Rattle.std.specs.Prelude.{ℕ, ◌≤◌};

    ghost Value = { ℕ };

    ghost view = { λ fields. fields.number };

    ghost invariant = { λ fields. fields.number ≤ 7 };

    ghost inverse = { λ number. record { number = number } };
}

impl VlanPcp {
    ghost use Rattle.ep_base.specs.declared.err.value_type.ValueType.TheVariants as value_type;

    /// VLAN priority code point 0.
    pub const ZERO: VlanPcp = VlanPcp { number: 0 };

    /// Creates the priority code point of a VLAN tag, or returns an error if `value` is above 7.
    #[inline]
    pub fn try_new(value: u8) -> Result<VlanPcp, ValueTooBigError<u8>>
        ensures { TriesNumber 7 value_type.VlanPcp value result }
    {
        if value <= 7 {
            Ok(VlanPcp { number: value })
        } else {
            Err(ValueTooBigError {
                actual: value,
                max_allowed: 7,
                value_type: ValueType::VlanPcp,
            })
        }
    }

    /// Priority code point of a VLAN tag as a number, at most 7.
    #[inline]
    pub fn value(self) -> u8
        ensures value { result ≡ self }
        ensures bound { result ≤ 7 }
    {
        self.number
    }
}
