//! Splitting of the words of a request line.

ghost use Rattle.std.specs.Prelude.{◌≡◌, ◌≢◌, ◌==◌, ◌<◌, ◌≤◌, ◌+◌, ◌∷◌, ◌++◌, ℕ, List, IfNone, IfSome};
ghost use Rattle.std.specs.Prelude.{length, not, slice_index, take};
ghost use Rattle.std.specs.List.{All, prefix_len};
ghost use Rattle.std.specs.Simd.Lanes.{chunk};
ghost use Rattle.line_io.specs.Lines.{space};

use std::simd::prelude::*;

/// Splits a text at its first byte that equals `mark`, and returns the parts before and after this byte, or `None` if
/// the text has no such byte.
pub fn split_at_first(text: &[u8], mark: u8) -> Option<(&[u8], &[u8])>
    ensures some { IfSome result (λ parts. All (λ byte. byte ≢ mark) parts.0.now
        × (text.now ≡ parts.0.now ++ mark ∷ parts.1.now)) }
    ensures none { IfNone result (All (λ byte. byte ≢ mark) text.now) }
{
    let end = len_before(text, mark);
    if end == text.len() {
        return None;
    }
    Some((&text[..end], &text[end + 1..]))
}

/// Number of text bytes that are compared with the searched byte at once, by one SIMD instruction.
const STEP: usize = 16;

/// Returns the index of the first byte of a text that equals `mark`, or the length of the text if there is no such
/// byte.
fn len_before(text: &[u8], mark: u8) -> usize
    ensures within { result ≤ length text.now }
    ensures none_before { All (λ byte. byte ≢ mark) (take result text.now) }
    ensures found { result < length text.now → slice_index text.now result ≡ mark }
{
    'steps: for step in 0..text.len() / STEP {
        let start = STEP * step;
        let len = len_in_step(text, start, mark);
        if len < STEP {
            return start + len;
        }
    }
    let start = text.len() / STEP * STEP;
    start + len_before_by_one(&text[start..], mark)
}

/// Returns the index of the first byte of a text that equals `mark`, or the length of the text if there is none. It
/// compares byte by byte, for the last bytes of a text (fewer than 16).
fn len_before_by_one(text: &[u8], mark: u8) -> usize
    ensures within { result ≤ length text.now }
    ensures none_before { All (λ byte. byte ≢ mark) (take result text.now) }
    ensures found { result < length text.now → slice_index text.now result ≡ mark }
{
    match text.iter().position(|byte| *byte == mark) {
        Some(len) => len,
        None => text.len(),
    }
}

/// Searches the 16 bytes of a text from `start` on for `mark`, all at once. Returns the index of the first match among
/// them, or 16 if there is none.
fn len_in_step(text: &[u8], start: usize, mark: u8) -> usize
    requires { start + 16 ≤ length text.now }
    ensures { result ≡ prefix_len (λ byte. not (byte == mark)) (chunk start 16 text.now) }
{
    let found = u8x16::from_slice(&text[start..])
        .simd_eq(u8x16::splat(mark))
        .to_bitmask();
    if found == 0 {
        STEP
    } else {
        found.trailing_zeros() as usize
    }
}

/// Returns the text after the given word and one space, or `None` if the text does not begin with them.
pub fn strip_word<'a>(text: &'a [u8], word: &[u8]) -> Option<&'a [u8]>
    ensures some { IfSome result (λ rest. text.now ≡ word.now ++ space ∷ rest.now) }
    ensures none { IfNone result ((rest : List ℕ) → text.now ≡ word.now ++ space ∷ rest → ⊥) }
{
    text.strip_prefix(word)?.strip_prefix(b" ")
}
