//! Decimal digits of numbers with a known number of digits, as ASCII arrays of constant length that can be appended
//! without a call.

ghost use Rattle.std.specs.Prelude.{◌≡◌, ◌<◌, ◌≤◌, ◌+◌, ◌/◌, ◌%◌};
ghost use Rattle.std.specs.Fmt.{decimal};

/// Decimal digits in ASCII of the numbers 00 to 99, two bytes each.
pub(crate) static PAIRS: [u8; 200] = *b"\
    0001020304050607080910111213141516171819\
    2021222324252627282930313233343536373839\
    4041424344454647484950515253545556575859\
    6061626364656667686970717273747576777879\
    8081828384858687888990919293949596979899";

/// Returns the first of the two decimal digits of a number below 100, in ASCII.
#[inline]
fn tens(pair: u64) -> u8
    requires { pair < 100 }
    ensures { result ≡ 48 + pair / 10 }
{
    PAIRS[2 * pair as usize]
}

/// Returns the second of the two decimal digits of a number below 100, in ASCII.
#[inline]
fn ones(pair: u64) -> u8
    requires { pair < 100 }
    ensures { result ≡ 48 + pair % 10 }
{
    PAIRS[2 * pair as usize + 1]
}

/// Returns the ASCII digits of a number with two decimal digits.
#[inline]
pub(crate) fn two(number: u64) -> [u8; 2]
    requires least { 10 ≤ number }
    requires most { number < 100 }
    ensures { result ≡ decimal number }
{
    [tens(number), ones(number)]
}

/// Returns the ASCII digits of a number with three decimal digits.
#[inline]
pub(crate) fn three(number: u64) -> [u8; 3]
    requires least { 100 ≤ number }
    requires most { number < 1000 }
    ensures { result ≡ decimal number }
{
    let hundreds = number / 100;
    [
        b'0' + hundreds as u8,
        tens(number % 100),
        ones(number % 100),
    ]
}

/// Returns the ASCII digits of a number with four decimal digits.
#[inline]
pub(crate) fn four(number: u64) -> [u8; 4]
    requires least { 1000 ≤ number }
    requires most { number < 10000 }
    ensures { result ≡ decimal number }
{
    let hundreds = number / 100;
    [
        tens(hundreds),
        ones(hundreds),
        tens(number % 100),
        ones(number % 100),
    ]
}

/// Returns the ASCII digits of a number with five decimal digits.
#[inline]
pub(crate) fn five(number: u64) -> [u8; 5]
    requires least { 10000 ≤ number }
    requires most { number < 100000 }
    ensures { result ≡ decimal number }
{
    let hundreds = number / 100;
    let myriads = hundreds / 100;
    [
        b'0' + myriads as u8,
        tens(hundreds % 100),
        ones(hundreds % 100),
        tens(number % 100),
        ones(number % 100),
    ]
}

/// Returns the ASCII digits of a number with six decimal digits.
#[inline]
pub(crate) fn six(number: u64) -> [u8; 6]
    requires least { 100000 ≤ number }
    requires most { number < 1000000 }
    ensures { result ≡ decimal number }
{
    let hundreds = number / 100;
    let myriads = hundreds / 100;
    [
        tens(myriads),
        ones(myriads),
        tens(hundreds % 100),
        ones(hundreds % 100),
        tens(number % 100),
        ones(number % 100),
    ]
}

/// Returns the ASCII digits of a number with seven decimal digits.
#[inline]
pub(crate) fn seven(number: u64) -> [u8; 7]
    requires least { 1000000 ≤ number }
    requires most { number < 10000000 }
    ensures { result ≡ decimal number }
{
    let hundreds = number / 100;
    let myriads = hundreds / 100;
    let millions = myriads / 100;
    [
        b'0' + millions as u8,
        tens(myriads % 100),
        ones(myriads % 100),
        tens(hundreds % 100),
        ones(hundreds % 100),
        tens(number % 100),
        ones(number % 100),
    ]
}

/// Returns the ASCII digits of a number with eight decimal digits.
#[inline]
pub(crate) fn eight(number: u64) -> [u8; 8]
    requires least { 10000000 ≤ number }
    requires most { number < 100000000 }
    ensures { result ≡ decimal number }
{
    let hundreds = number / 100;
    let myriads = hundreds / 100;
    let millions = myriads / 100;
    [
        tens(millions),
        ones(millions),
        tens(myriads % 100),
        ones(myriads % 100),
        tens(hundreds % 100),
        ones(hundreds % 100),
        tens(number % 100),
        ones(number % 100),
    ]
}

/// Returns the ASCII digits of a number with nine decimal digits.
#[inline]
pub(crate) fn nine(number: u64) -> [u8; 9]
    requires least { 100000000 ≤ number }
    requires most { number < 1000000000 }
    ensures { result ≡ decimal number }
{
    let hundreds = number / 100;
    let myriads = hundreds / 100;
    let millions = myriads / 100;
    let rest = millions / 100;
    [
        b'0' + rest as u8,
        tens(millions % 100),
        ones(millions % 100),
        tens(myriads % 100),
        ones(myriads % 100),
        tens(hundreds % 100),
        ones(hundreds % 100),
        tens(number % 100),
        ones(number % 100),
    ]
}

/// Returns the ASCII digits of a number with ten decimal digits.
#[inline]
pub(crate) fn ten(number: u64) -> [u8; 10]
    requires least { 1000000000 ≤ number }
    requires most { number < 10000000000 }
    ensures { result ≡ decimal number }
{
    let hundreds = number / 100;
    let myriads = hundreds / 100;
    let millions = myriads / 100;
    let rest = millions / 100;
    [
        tens(rest),
        ones(rest),
        tens(millions % 100),
        ones(millions % 100),
        tens(myriads % 100),
        ones(myriads % 100),
        tens(hundreds % 100),
        ones(hundreds % 100),
        tens(number % 100),
        ones(number % 100),
    ]
}
