ghost use Rattle.std.specs.Prelude.{◌≡◌, ◌≤◌};
ghost use Rattle.ep_base.specs.Bounded.{TriesNumber};

use crate::err::{ValueTooBigError, ValueType};
use std::marker::Model;

/// Association number (AN) of a MACsec tag, 2 bits (IEEE 802.1AE, 9.6).
#[derive(Clone, Copy, Debug, PartialEq, Eq, PartialOrd, Ord, Hash)]
pub struct MacsecAn {
    number: u8,
}

impl Model for MacsecAn {
    ghost use Rattle.std.specs.Prelude.{ℕ, ◌≤◌};

    ghost Value = { ℕ };

    ghost view = { λ fields. fields.number };

    ghost invariant = { λ fields. fields.number ≤ 3 };

    ghost inverse = { λ number. record { number = number } };
}

impl MacsecAn {
    ghost use Rattle.ep_base.specs.declared.err.value_type.ValueType.TheVariants as value_type;

    /// MACsec association number 0.
    pub const ZERO: MacsecAn = MacsecAn { number: 0 };

    /// Creates a MACsec association number, or returns an error if `value` is above 3.
    #[inline]
    pub fn try_new(value: u8) -> Result<MacsecAn, ValueTooBigError<u8>>
        ensures { TriesNumber 3 value_type.MacsecAn value result }
    {
        if value <= 3 {
            Ok(MacsecAn { number: value })
        } else {
            Err(ValueTooBigError {
                actual: value,
                max_allowed: 3,
                value_type: ValueType::MacsecAn,
            })
        }
    }

    /// MACsec association number, at most 3.
    #[inline]
    pub fn value(self) -> u8
        ensures value { result ≡ self }
        ensures bound { result ≤ 3 }
    {
        self.number
    }
}
