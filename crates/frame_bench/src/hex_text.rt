//! Encoding of bytes as hexadecimal digits, and decoding.

ghost use Rattle.std.specs.Prelude.{◌≡◌, ◌*◌, ◌<◌, ◌++◌, ℕ, List, length, slice_index, unwrap_or, Ok, IfOk, OnOk, IsTrue};
ghost use Rattle.hex.specs.Hex.{decode_of, encode_lower, hex_digit_value, lower_digits};
ghost use Rattle.frame_bench.specs.Requests.{IsHex};
ghost use Rattle.frame_bench.specs.SliceReplies.{hex_text};

use std::alloc::AllocError;

/// Table value for a byte that is not a hexadecimal digit: 256, above every value of two digits.
const X: u16 = 256;

/// Table of the value, 0 to 15, of each ASCII byte that is a hexadecimal digit of either case, and `X` for all other
/// bytes.
static DIGIT_VALUES: [u16; 256] = [
    X, X, X, X, X, X, X, X, X, X, X, X, X, X, X, X, // 0x00
    X, X, X, X, X, X, X, X, X, X, X, X, X, X, X, X, // 0x10
    X, X, X, X, X, X, X, X, X, X, X, X, X, X, X, X, // 0x20
    0, 1, 2, 3, 4, 5, 6, 7, 8, 9, X, X, X, X, X, X, // 0x30
    X, 10, 11, 12, 13, 14, 15, X, X, X, X, X, X, X, X, X, // 0x40
    X, X, X, X, X, X, X, X, X, X, X, X, X, X, X, X, // 0x50
    X, 10, 11, 12, 13, 14, 15, X, X, X, X, X, X, X, X, X, // 0x60
    X, X, X, X, X, X, X, X, X, X, X, X, X, X, X, X, // 0x70
    X, X, X, X, X, X, X, X, X, X, X, X, X, X, X, X, // 0x80
    X, X, X, X, X, X, X, X, X, X, X, X, X, X, X, X, // 0x90
    X, X, X, X, X, X, X, X, X, X, X, X, X, X, X, X, // 0xa0
    X, X, X, X, X, X, X, X, X, X, X, X, X, X, X, X, // 0xb0
    X, X, X, X, X, X, X, X, X, X, X, X, X, X, X, X, // 0xc0
    X, X, X, X, X, X, X, X, X, X, X, X, X, X, X, X, // 0xd0
    X, X, X, X, X, X, X, X, X, X, X, X, X, X, X, X, // 0xe0
    X, X, X, X, X, X, X, X, X, X, X, X, X, X, X, X, // 0xf0
];

/// Decodes a text of hexadecimal digits, two for each byte, into the vector `bytes`, or `-` for no bytes. Returns false
/// if the text is anything else, and the contents of the vector then have no meaning.
pub fn decode(text: &[u8], bytes: &mut Vec<u8>) -> Result<bool, AllocError>
    ensures decoded { IfOk result (λ is_hex. IsTrue is_hex → IsHex text.now bytes.new.items) }
    ensures only { IfOk result (λ is_hex. (value : List ℕ) → IsHex text.now value → IsTrue is_hex) }
{
    if text.is_empty() {
        return Ok(false);
    }
    if text == b"-".as_slice() {
        bytes.clear();
        return Ok(true);
    }
    if text.len() % 2 != 0 {
        return Ok(false);
    }
    bytes.resize(text.len() / 2, 0)?;
    Ok(decode_pairs(text, bytes.as_mut_slice()))
}

/// Decodes two hexadecimal digits of `text` into each byte of `bytes`, and returns whether `text` has digits only. The
/// value of a pair, 16 times the first digit plus the second, is 256 or greater if one of them is not a digit. All
/// values are combined by bitwise OR and checked once at the end, so that there is no branch for each digit.
fn decode_pairs(text: &[u8], bytes: &mut [u8]) -> bool
    requires { length text.now ≡ 2 * length bytes.old }
    ensures decoded { IsTrue result → decode_of text.now ≡ Ok bytes.new }
    ensures only { (value : List ℕ) → decode_of text.now ≡ Ok value → IsTrue result }
{
    let mut seen = 0;
    'bytes: for at in 0..bytes.len() {
        let high = digit_value(text[2 * at]);
        let low = digit_value(text[2 * at + 1]);
        let sum = 16 * high + low;
        seen |= sum;
        bytes[at] = (sum % 256) as u8;
    }
    seen < 256
}

/// Returns the value, 0 to 15, of an ASCII byte that is a hexadecimal digit of either case, and 256 for any other byte.
#[inline]
fn digit_value(byte: u8) -> u16
    ensures { result ≡ unwrap_or (hex_digit_value byte) 256 }
{
    DIGIT_VALUES[usize::from(byte)]
}

/// Appends bytes to the output as lower case hexadecimal digits, two for each byte, or `-` if there are no bytes.
pub fn push(output: &mut Vec<u8>, bytes: &[u8]) -> Result<(), AllocError>
    ensures { OnOk result (output.new.items ≡ output.old.items ++ hex_text bytes.now) }
{
    if bytes.is_empty() {
        return Ok(output.push(b'-')?);
    }
    let start = output.len();
    let len = 2 * bytes.len();
    output.reserve(len)?;
    output.resize(start + len, 0)?;
    encode_pairs(bytes, &mut output.as_mut_slice()[start..]);
    Ok(())
}

/// Writes each byte as two lower case hexadecimal digits into `text`, which is twice as long.
fn encode_pairs(bytes: &[u8], text: &mut [u8])
    requires { length text.old ≡ 2 * length bytes.now }
    ensures { text.new ≡ encode_lower bytes.now }
{
    'bytes: for at in 0..bytes.len() {
        let high = lower_digit(bytes[at] / 16);
        let low = lower_digit(bytes[at] % 16);
        text[2 * at] = high;
        text[2 * at + 1] = low;
    }
}

/// Returns the lower case hexadecimal digit of a value from 0 to 15. It is computed, so that the compiler can process
/// eight bytes at once; a table of digit pairs takes more than twice as long.
#[inline]
fn lower_digit(value: u8) -> u8
    requires { value < 16 }
    ensures { result ≡ slice_index lower_digits value }
{
    if value < 10 {
        return b'0' + value;
    }
    b'a' - 10 + value
}
