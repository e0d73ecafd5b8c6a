ghost use Rattle.std.specs.Prelude.{◌≡◌, ◌≤◌};
ghost use Rattle.ep_base.specs.Bounded.{TriesNumber};

use crate::err::{ValueTooBigError, ValueType};
use std::marker::Model;

/// Short length (SL) of a MACsec tag, 6 bits (IEEE 802.1AE, 9.7).
#[derive(Clone, Copy, Debug, PartialEq, Eq, PartialOrd, Ord, Hash)]
pub struct MacsecShortLen {
    number: u8,
}

impl Model for MacsecShortLen {
    ghost use Rattle.std.specs.Prelude.{ℕ, ◌≤◌};

    ghost Value = { ℕ };

    ghost view = { λ fields. fields.number };

    ghost invariant = { λ fields. fields.number ≤ 63 };

    ghost inverse = { λ number. record { number = number } };
}

impl MacsecShortLen {
    ghost use Rattle.ep_base.specs.declared.err.value_type.ValueType.TheVariants as value_type;

    /// MACsec short length 0: the tag states no payload length.
    pub const ZERO: MacsecShortLen = MacsecShortLen { number: 0 };

    /// Creates the short length of a MACsec tag, or returns an error if `value` is above 63.
    #[inline]
    pub fn try_new(value: u8) -> Result<MacsecShortLen, ValueTooBigError<u8>>
        ensures { TriesNumber 63 value_type.MacsecShortLen value result }
    {
        if value <= 63 {
            Ok(MacsecShortLen { number: value })
        } else {
            Err(ValueTooBigError {
                actual: value,
                max_allowed: 63,
                value_type: ValueType::MacsecShortLen,
            })
        }
    }

    /// Short length of a MACsec tag as a number, at most 63.
    #[inline]
    pub fn value(self) -> u8
        ensures value { result ≡ self }
        ensures bound { result ≤ 63 }
    {
        self.number
    }
}
