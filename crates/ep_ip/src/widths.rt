//! Functions whose contracts state the ranges of integers and bytes, used to prove that the fields of a header fit
//! their widths.

ghost use Rattle.std.specs.Prelude.{◌<◌, ◌^◌};
ghost use Rattle.ep_base.specs.Bytes.{AreBytes};

/// Does nothing at run time: its contract states that a `u8` is below 2^8, for use in proofs.
#[inline]
pub(crate) fn has_8_bits(number: u8)
    ensures { number < 2 ^ 8 }
{
    let _ = number;
}

/// Does nothing at run time: its contract states that a `u16` is below 2^16, for use in proofs.
#[inline]
pub(crate) fn has_16_bits(number: u16)
    ensures { number < 2 ^ 16 }
{
    let _ = number;
}

/// Does nothing at run time: its contract states that each element of a byte slice is below 2^8, for use in proofs.
#[inline]
pub(crate) fn holds_bytes(bytes: &[u8])
    ensures { AreBytes bytes.now }
{
    let _ = bytes;
}
