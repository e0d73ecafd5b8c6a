ghost use Rattle.std.specs.Prelude.{◌≡◌, ◌≤◌};
ghost use Rattle.ep_base.specs.Bounded.{TriesNumber};

use crate::err::{ValueTooBigError, ValueType};
use std::marker::Model;

/// VLAN identifier (VID), 12 bits (IEEE 802.1Q, 9.6).
#[derive(Clone, Copy, Debug, PartialEq, Eq, PartialOrd, Ord, Hash, Default)]
pub struct VlanId {
    number: u16,
}

impl Model for VlanId {
    ghost use Rattle.std.specs.Prelude.{ℕ, ◌≤◌};

    ghost Value = { ℕ };

    ghost view = { λ fields. fields.number };

    ghost invariant = { λ fields. fields.number ≤ 4095 };

    ghost inverse = { λ number. record { number = number } };
}

impl VlanId {
    ghost use Rattle.ep_base.specs.declared.err.value_type.ValueType.TheVariants as value_type;

    /// VLAN identifier 0.
    pub const ZERO: VlanId = VlanId { number: 0 };

    /// Creates a VLAN identifier, or returns an error if `value` is above 4095.
    #[inline]
    pub fn try_new(value: u16) -> Result<VlanId, ValueTooBigError<u16>>
        ensures { TriesNumber 4095 value_type.VlanId value result }
    {
        if value <= 4095 {
            Ok(VlanId { number: value })
        } else {
            Err(ValueTooBigError {
                actual: value,
                max_allowed: 4095,
                value_type: ValueType::VlanId,
            })
        }
    }

    /// VLAN identifier as a number, at most 4095.
    #[inline]
    pub fn value(self) -> u16
        ensures value { result ≡ self }
        ensures bound { result ≤ 4095 }
    {
        self.number
    }
}
