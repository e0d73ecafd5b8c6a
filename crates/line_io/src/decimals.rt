//! Appends numbers in decimal to a byte buffer.

ghost use Rattle.std.specs.Prelude.{◌≡◌, ◌<◌, ◌≤◌, ◌+◌, ◌*◌, ◌/◌, ◌%◌, ◌∷◌, ◌++◌};
ghost use Rattle.std.specs.Prelude.{OnErr, OnOk, drop, length, vec_capacity, vec_len};
ghost use Rattle.std.specs.Fmt.{decimal};

use crate::digits::{self, PAIRS};
use std::alloc::AllocError;

/// Number of decimal digits of the greatest 64 bit number.
const MOST_DIGITS: usize = 20;

/// Least number with more than ten decimal digits. Smaller numbers are appended in a faster way, if the buffer has
/// space for ten digits (or for four, if the number is below 10,000).
const SHORT_END: u64 = 10_000_000_000;

/// Appends `text` and then `number` in decimal to `output`. Allocates only if the capacity of `output` is too small. A
/// text whose length is known to the compiler and 1 to 11 bytes is copied by a few moves instead of a call, if the
/// capacity suffices for the text.
#[inline(always)]
pub fn push_with_text(output: &mut Vec<u8>, text: &[u8], number: u64) -> Result<(), AllocError>
    ensures text { OnOk result (output.new.items ≡ output.old.items ++ (text.now ++ decimal number)) }
    ensures full { OnErr result (vec_capacity output.old
        < vec_len output.old + (length text.now + length (decimal number))) }
{
    if let Some(text) = text.as_array::<1>() {
        return push_with_array(output, text, number);
    }
    if let Some(text) = text.as_array::<2>() {
        return push_with_array(output, text, number);
    }
    if let Some(text) = text.as_array::<3>() {
        return push_with_array(output, text, number);
    }
    if let Some(text) = text.as_array::<4>() {
        return push_with_array(output, text, number);
    }
    if let Some(text) = text.as_array::<5>() {
        return push_with_array(output, text, number);
    }
    if let Some(text) = text.as_array::<6>() {
        return push_with_array(output, text, number);
    }
    if let Some(text) = text.as_array::<7>() {
        return push_with_array(output, text, number);
    }
    if let Some(text) = text.as_array::<8>() {
        return push_with_array(output, text, number);
    }
    if let Some(text) = text.as_array::<9>() {
        return push_with_array(output, text, number);
    }
    if let Some(text) = text.as_array::<10>() {
        return push_with_array(output, text, number);
    }
    if let Some(text) = text.as_array::<11>() {
        return push_with_array(output, text, number);
    }
    push_with_slice(output, text, number)
}

/// Appends a text of constant length `N` and then a number in decimal to `output`. The function is not inlined, so that
/// callers stay small. It copies `text` to a local array first: otherwise the compiler would have to assume that
/// writing to `output` may change `text`.
#[inline(never)]
fn push_with_array<const N: usize>(
    output: &mut Vec<u8>,
    text: &[u8; N],
    number: u64,
) -> Result<(), AllocError>
    ensures text { OnOk result (output.new.items ≡ output.old.items ++ (text.now ++ decimal number)) }
    ensures full { OnErr result (vec_capacity output.old
        < vec_len output.old + (length text.now + length (decimal number))) }
{
    if output.capacity() - output.len() < N {
        return push_with_slice(output, text, number);
    }
    let text = *text;
    output.extend_from_slice(&text)?;
    push(output, number)
}

/// Appends a text of any length and then a number in decimal to `output`.
#[inline(never)]
fn push_with_slice(output: &mut Vec<u8>, text: &[u8], number: u64) -> Result<(), AllocError>
    ensures text { OnOk result (output.new.items ≡ output.old.items ++ (text.now ++ decimal number)) }
    ensures full { OnErr result (vec_capacity output.old
        < vec_len output.old + (length text.now + length (decimal number))) }
{
    output.extend_from_slice(text)?;
    push(output, number)
}

/// Appends a number in decimal, without leading zeros. Allocates only if the capacity of `output` is too small. It is
/// faster than `write!`: with space for ten more bytes in `output`, a number below 10^10 is appended by a few moves;
/// for a number below 10,000, space for four bytes suffices. No branch of these cases allocates.
pub fn push(output: &mut Vec<u8>, number: u64) -> Result<(), AllocError>
    ensures text { OnOk result (output.new.items ≡ output.old.items ++ decimal number) }
    ensures full { OnErr result (vec_capacity output.old < vec_len output.old + length (decimal number)) }
{
    let spare = output.capacity() - output.len();
    if number < 10_000 && spare >= 4 {
        push_four(output, number)
    } else if number >= SHORT_END || spare < 10 {
        if number < 10 && spare > 0 {
            output.push_reserved(b'0' + number as u8);
            return Ok(());
        }
        push_any(output, number)
    } else if number < 100_000_000 {
        push_eight(output, number)
    } else {
        push_ten(output, number)
    }
}

/// Appends a number of one to four decimal digits to `output`, which must have space for at least one byte.
#[inline]
fn push_four(output: &mut Vec<u8>, number: u64) -> Result<(), AllocError>
    requires capacity { vec_len output.old < vec_capacity output.old }
    requires most { number < 10000 }
    ensures text { OnOk result (output.new.items ≡ output.old.items ++ decimal number) }
    ensures full { OnErr result (vec_capacity output.old < vec_len output.old + length (decimal number)) }
{
    if number < 100 {
        if number < 10 {
            output.push_reserved(b'0' + number as u8);
            Ok(())
        } else {
            output.extend_from_slice(&digits::two(number))
        }
    } else if number < 1_000 {
        output.extend_from_slice(&digits::three(number))
    } else {
        output.extend_from_slice(&digits::four(number))
    }
}

/// Appends a number of five to eight decimal digits to `output`.
#[inline]
fn push_eight(output: &mut Vec<u8>, number: u64) -> Result<(), AllocError>
    requires least { 10000 ≤ number }
    requires most { number < 100000000 }
    ensures text { OnOk result (output.new.items ≡ output.old.items ++ decimal number) }
    ensures full { OnErr result (vec_capacity output.old < vec_len output.old + length (decimal number)) }
{
    if number < 1_000_000 {
        if number < 100_000 {
            output.extend_from_slice(&digits::five(number))
        } else {
            output.extend_from_slice(&digits::six(number))
        }
    } else if number < 10_000_000 {
        output.extend_from_slice(&digits::seven(number))
    } else {
        output.extend_from_slice(&digits::eight(number))
    }
}

/// Appends a number of nine or ten decimal digits to `output`.
#[inline]
fn push_ten(output: &mut Vec<u8>, number: u64) -> Result<(), AllocError>
    requires least { 100000000 ≤ number }
    requires most { number < 10000000000 }
    ensures text { OnOk result (output.new.items ≡ output.old.items ++ decimal number) }
    ensures full { OnErr result (vec_capacity output.old < vec_len output.old + length (decimal number)) }
{
    if number < 1_000_000_000 {
        output.extend_from_slice(&digits::nine(number))
    } else {
        output.extend_from_slice(&digits::ten(number))
    }
}

/// Appends a number of any number of decimal digits to `output`.
#[cold]
#[inline(never)]
fn push_any(output: &mut Vec<u8>, number: u64) -> Result<(), AllocError>
    ensures text { OnOk result (output.new.items ≡ output.old.items ++ decimal number) }
    ensures full { OnErr result (vec_capacity output.old < vec_len output.old + length (decimal number)) }
{
    let mut digits = [0; MOST_DIGITS];
    let start = write_digits(&mut digits, number);
    output.extend_from_slice(&digits[start..])
}

/// Appends the decimal digits of a number, except for the first one. Allocates only if the capacity of `output` is too
/// small.
pub fn push_without_first_digit(output: &mut Vec<u8>, number: u64) -> Result<(), AllocError>
    ensures text { OnOk result (output.new.items ≡ output.old.items ++ drop 1 (decimal number)) }
    ensures full { OnErr result (vec_capacity output.old < vec_len output.old + length (decimal number)) }
{
    let mut digits = [0; MOST_DIGITS];
    let start = write_digits(&mut digits, number);
    output.extend_from_slice(&digits[start + 1..])
}

/// Writes the decimal digits of a number at the end of the array `digits`, two per division, and returns the index of
/// the first digit in it.
#[inline]
fn write_digits(digits: &mut [u8; MOST_DIGITS], number: u64) -> usize
    ensures text { drop result digits.new ≡ decimal number }
    ensures bound { result < 20 }
{
    let mut start = MOST_DIGITS;
    let mut rest = number;
    'pairs: while rest >= 100 {
        start -= 2;
        write_pair(digits, start, rest % 100);
        rest /= 100;
    }
    if rest >= 10 {
        write_pair(digits, start - 2, rest);
        start - 2
    } else {
        digits[start - 1] = b'0' + rest as u8;
        start - 1
    }
}

/// Writes the two decimal digits of a number below 100 into the array at the indices `at` and `at + 1`.
#[inline]
fn write_pair(digits: &mut [u8; MOST_DIGITS], at: usize, number: u64)
    requires number { number < 100 }
    requires within { at + 2 ≤ 20 }
    ensures { drop at digits.new ≡ (48 + number / 10) ∷ (48 + number % 10) ∷ drop (at + 2) digits.old }
{
    let from = 2 * number as usize;
    digits[at + 1] = PAIRS[from + 1];
    digits[at] = PAIRS[from];
}
