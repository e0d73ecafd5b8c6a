//! Hex dump of packet bytes: rows of 16 bytes, in hexadecimal and as characters.

ghost use Rattle.std.specs.Prelude.{◌≡◌, ◌≤◌, ◌*◌, ◌++◌, length, OnOk};
ghost use Rattle.packet_text.specs.Rows.{character_of, characters_text, digits_text, row_at, row_start, row_text};
ghost use Rattle.packet_text.specs.Rows.{rows_text};

use crate::addresses::hex_pair;
use std::alloc::AllocError;

/// Appends a hex dump: bytes in rows of 16, each with its offset, in hexadecimal and as characters.
pub fn push_rows(output: &mut Vec<u8>, bytes: &[u8]) -> Result<(), AllocError>
    ensures { OnOk result (output.new.items ≡ output.old.items ++ rows_text bytes.now) }
{
    for row in 0..(bytes.len() + 15) / 16 {
        push_row_at(output, bytes, 16 * row)?;
    }
    Ok(())
}

/// Appends the row of a hex dump whose first byte is `bytes[index]`: up to 16 bytes.
fn push_row_at(output: &mut Vec<u8>, bytes: &[u8], index: usize) -> Result<(), AllocError>
    requires { index ≤ length bytes.now }
    ensures { OnOk result (output.new.items ≡ output.old.items ++ row_text index (row_at bytes.now index)) }
{
    let end = bytes.len().min(index + 16);
    push_row(output, index, &bytes[index..end])
}

/// Appends a row of a hex dump: a line feed, the offset `index` of its first byte, and its bytes in hexadecimal and as
/// characters.
fn push_row(output: &mut Vec<u8>, index: usize, row: &[u8]) -> Result<(), AllocError>
    requires { length row.now ≤ 16 }
    ensures { OnOk result (output.new.items ≡ output.old.items ++ row_text index row.now) }
{
    push_row_start(output, index)?;
    push_digits(output, row)?;
    push_characters(output, row)
}

/// Appends the start of a row of a hex dump: a line feed, and the offset of its first byte in hexadecimal (the lower 24
/// bits).
fn push_row_start(output: &mut Vec<u8>, index: usize) -> Result<(), AllocError>
    ensures { OnOk result (output.new.items ≡ output.old.items ++ row_start index) }
{
    let [a, b] = hex_pair((index / 65_536 % 256) as u8);
    let [c, d] = hex_pair((index / 256 % 256) as u8);
    let [e, f] = hex_pair((index % 256) as u8);
    output.extend_from_slice(&[b'\n', b' ', b' ', b' ', b' ', a, b, c, d, e, f])
}

/// Appends the bytes of a hex dump row in hexadecimal, each after a space, padded with spaces to the width of 16 bytes.
/// The text is appended in one call, which is faster.
fn push_digits(output: &mut Vec<u8>, row: &[u8]) -> Result<(), AllocError>
    requires { length row.now ≤ 16 }
    ensures { OnOk result (output.new.items ≡ output.old.items ++ digits_text row.now) }
{
    let mut text = [b' '; 48];
    for (at, byte) in row.iter().enumerate() {
        let [first, second] = hex_pair(*byte);
        text[3 * at + 1] = first;
        text[3 * at + 2] = second;
    }
    output.extend_from_slice(&text)
}

/// Appends the bytes of a hex dump row as characters between vertical bars, with `.` for bytes that are not printable.
fn push_characters(output: &mut Vec<u8>, row: &[u8]) -> Result<(), AllocError>
    requires { length row.now ≤ 16 }
    ensures { OnOk result (output.new.items ≡ output.old.items ++ characters_text row.now) }
{
    let mut text = *b"  |                 ";
    for (at, byte) in row.iter().enumerate() {
        text[at + 3] = character_of(*byte);
    }
    text[row.len() + 3] = b'|';
    output.extend_from_slice(&text[..row.len() + 4])
}

/// Returns a byte if it is a printable ASCII character, or else `.`.
fn character_of(byte: u8) -> u8
    ensures { result ≡ character_of byte }
{
    if byte >= 32 && byte < 127 { byte } else { b'.' }
}
