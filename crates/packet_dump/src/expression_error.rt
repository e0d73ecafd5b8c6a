//! Text of the error of a filter expression.

ghost use Rattle.std.specs.Prelude.{◌≡◌, ◌-◌, ◌++◌, OnOk, drop, take};
ghost use Rattle.packet_dump.specs.ErrorTexts.{expression_error_text, has_blank, hint_if, is_in_first_word, is_long};
ghost use Rattle.packet_dump.specs.ErrorTexts.{line_byte, line_text, marked_text, marked_token, quoted_token};
ghost use Rattle.packet_dump.specs.ErrorTexts.{reason_text, spaces};

use packet_filter::{FilterError, FilterErrorKind};
use std::alloc::AllocError;

/// Appends the error of a filter expression in three lines: the wrong token and the reason, the text, and a `^` under
/// the first character of the token. For a text that is too long it is one line, without the text. `reads` is whether a
/// capture is read, so that the first word of the expression may be meant as a second file.
pub fn append_expression_error(
    output: &mut Vec<u8>,
    text: &[u8],
    error: &FilterError,
    reads: bool,
) -> Result<(), AllocError>
    ensures { OnOk result (output.new.items ≡ output.old.items ++ expression_error_text text.now error.now reads) }
{
    append_reason(output, text, error, reads)?;
    if is_long(error.kind) {
        return Ok(());
    }
    append_marked_text(output, text, error.start)
}

/// Appends the line with the wrong token, if there is one, and the reason.
fn append_reason(
    output: &mut Vec<u8>,
    text: &[u8],
    error: &FilterError,
    reads: bool,
) -> Result<(), AllocError>
    ensures { OnOk result (output.new.items ≡ output.old.items ++ reason_text text.now error.now reads) }
{
    output.extend_from_slice(b"packet_dump: ")?;
    append_quoted(output, marked_token(text, error))?;
    output.extend_from_slice(error.kind.description().as_bytes())?;
    append_hint(output, reads && is_in_first_word(text, error))?;
    output.extend_from_slice(b"\n")
}

/// Appends a token in quotation marks and a colon; nothing without one.
fn append_quoted(output: &mut Vec<u8>, token: &[u8]) -> Result<(), AllocError>
    ensures { OnOk result (output.new.items ≡ output.old.items ++ quoted_token token.now) }
{
    if token.is_empty() {
        return Ok(());
    }
    output.extend_from_slice(b"'")?;
    append_line(output, token)?;
    output.extend_from_slice(b"': ")
}

/// Appends that only one file is read, if `wanted`.
fn append_hint(output: &mut Vec<u8>, wanted: bool) -> Result<(), AllocError>
    ensures { OnOk result (output.new.items ≡ output.old.items ++ hint_if wanted) }
{
    if wanted {
        output.extend_from_slice(b"; only one file is read")
    } else {
        Ok(())
    }
}

/// Appends the line with the text, and the line with a `^` under the byte at `start`.
fn append_marked_text(output: &mut Vec<u8>, text: &[u8], start: usize) -> Result<(), AllocError>
    ensures { OnOk result (output.new.items ≡ output.old.items ++ marked_text text.now start) }
{
    output.extend_from_slice(b"  ")?;
    append_line(output, text)?;
    output.extend_from_slice(b"\n  ")?;
    append_spaces(output, first_bytes(text, start))?;
    output.extend_from_slice(b"^\n")
}

/// Returns the wrong token; nothing at the end of the text, and for a text that is too long.
fn marked_token<'a>(text: &'a [u8], error: &FilterError) -> &'a [u8]
    ensures { result.now ≡ marked_token text.now error.now }
{
    if is_long(error.kind) {
        return &[];
    }
    first_bytes(
        later_bytes(text, error.start),
        error.end.saturating_sub(error.start),
    )
}

/// Returns whether the wrong token is in the first word of the text.
fn is_in_first_word(text: &[u8], error: &FilterError) -> bool
    ensures { result ≡ is_in_first_word text.now error.now }
{
    !marked_token(text, error).is_empty() && !has_blank(first_bytes(text, error.start))
}

/// Returns whether bytes contain a space or a byte below it.
fn has_blank(bytes: &[u8]) -> bool
    ensures { result ≡ has_blank bytes.now }
{
    bytes.iter().any(|byte| *byte <= b' ')
}

/// Returns whether this is the kind of error of a text that is too long.
fn is_long(kind: FilterErrorKind) -> bool
    ensures { result ≡ is_long kind }
{
    matches!(kind, FilterErrorKind::Long)
}

/// Appends bytes as a part of a line: each ASCII control character as a space.
fn append_line(output: &mut Vec<u8>, bytes: &[u8]) -> Result<(), AllocError>
    ensures { OnOk result (output.new.items ≡ output.old.items ++ line_text bytes.now) }
{
    for byte in bytes {
        output.push(line_byte(*byte))?;
    }
    Ok(())
}

/// Returns a space for an ASCII control character, and any other byte itself.
fn line_byte(byte: u8) -> u8
    ensures { result ≡ line_byte byte }
{
    if byte < b' ' || byte == 0x7f {
        b' '
    } else {
        byte
    }
}

/// Appends a space for each byte.
fn append_spaces(output: &mut Vec<u8>, bytes: &[u8]) -> Result<(), AllocError>
    ensures { OnOk result (output.new.items ≡ output.old.items ++ spaces bytes.now) }
{
    let mut left = bytes;
    while let [_, others @ ..] = left {
        output.push(b' ')?;
        left = others;
    }
    Ok(())
}

/// Returns the first `len` bytes, or all if there are fewer.
fn first_bytes(bytes: &[u8], len: usize) -> &[u8]
    ensures { result.now ≡ take len bytes.now }
{
    if len < bytes.len() {
        &bytes[..len]
    } else {
        bytes
    }
}

/// Returns the bytes after the first `len`, or none if there are fewer.
fn later_bytes(bytes: &[u8], len: usize) -> &[u8]
    ensures { result.now ≡ drop len bytes.now }
{
    if len < bytes.len() {
        &bytes[len..]
    } else {
        &[]
    }
}
