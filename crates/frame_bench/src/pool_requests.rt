//! Parsing of the request lines `frag`, `drop` and `limit`, which concern the reassembly pool.

ghost use Rattle.std.specs.Prelude.{◌≡◌, ◌∷◌, ◌++◌, ℕ, List, IfNone, IfOk, IfSome, codes};
ghost use Rattle.line_io.specs.Lines.{space};
ghost use Rattle.frame_bench.specs.Requests.{Asks, IsNumber, IsLimit};
ghost use Rattle.frame_bench.specs.declared.requests.Request.{Request};

use crate::hex_text::decode;
use crate::requests::{Request, entry_at};
use crate::texts::split_at_first;
use std::alloc::AllocError;
use std::str;

/// Parses the rest of a `frag` line, after the word and a space, or returns `None` if it is invalid. The vector `bytes`
/// is overwritten by the decoded frame.
pub fn parse_fragment(text: &[u8], bytes: &mut Vec<u8>) -> Result<Option<Request>, AllocError>
    ensures some { IfOk result (λ found. IfSome found (λ request.
        Asks (codes "frag" ++ space ∷ text.now) request bytes.new.items)) }
    ensures none { IfOk result (λ found. IfNone found ((request : Request) (frame : List ℕ) →
        Asks (codes "frag" ++ space ∷ text.now) request frame → ⊥)) }
{
    let Some((entry, timed)) = entry_at(text) else {
        return Ok(None);
    };
    let Some((timestamp, numbered)) = number_at(timed) else {
        return Ok(None);
    };
    let Some((channel, digits)) = number_at(numbered) else {
        return Ok(None);
    };
    if decode(digits, bytes)? {
        Ok(Some(Request::Fragment {
            entry,
            timestamp,
            channel,
        }))
    } else {
        Ok(None)
    }
}

/// Parses the rest of a `drop` line, after the word and a space, or returns `None` if it is not a number. The vector
/// `bytes` is cleared, as the line contains no frame.
pub fn parse_drop(text: &[u8], bytes: &mut Vec<u8>) -> Option<Request>
    ensures some { IfSome result (λ request. Asks (codes "drop" ++ space ∷ text.now) request bytes.new.items) }
    ensures none { IfNone result ((request : Request) (frame : List ℕ) →
        Asks (codes "drop" ++ space ∷ text.now) request frame → ⊥) }
{
    bytes.clear();
    let timestamp = number(text)?;
    Some(Request::Drop { timestamp })
}

/// Parses the rest of a `limit` line, after the word and a space, or returns `None` if it is not 1 to 5 decimal digits
/// of at most 65535. The vector `bytes` is cleared, as the line contains no frame.
pub fn parse_limit(text: &[u8], bytes: &mut Vec<u8>) -> Option<Request>
    ensures some { IfSome result (λ request. Asks (codes "limit" ++ space ∷ text.now) request bytes.new.items) }
    ensures none { IfNone result ((request : Request) (frame : List ℕ) →
        Asks (codes "limit" ++ space ∷ text.now) request frame → ⊥) }
{
    bytes.clear();
    let max = limit(text)?;
    Some(Request::Limit { max })
}

/// Parses 1 to 5 decimal digits as the limit of a reassembly pool, or returns `None` if the text is anything else or
/// above 65535.
fn limit(text: &[u8]) -> Option<u16>
    ensures some { IfSome result (IsLimit text.now) }
    ensures none { IfNone result ((value : ℕ) → IsLimit text.now value → ⊥) }
{
    if text.len() > 5 {
        return None;
    }
    u16::try_from(number(text)?).ok()
}

/// Parses the decimal number at the start of a text. Returns it with the text after the number and one space, or `None`
/// if the text does not begin with them.
fn number_at(text: &[u8]) -> Option<(u64, &[u8])>
    ensures some { IfSome result (λ found. (word : List ℕ) × (text.now ≡ word ++ space ∷ found.1.now)
        × IsNumber word found.0) }
    ensures none { IfNone result ((word rest : List ℕ) (value : ℕ) → text.now ≡ word ++ space ∷ rest →
        IsNumber word value → ⊥) }
{
    let (word, rest) = split_at_first(text, b' ')?;
    Some((number(word)?, rest))
}

/// Parses 1 to 20 decimal digits, or returns `None` if the text is anything else or the value does not fit in 64 bits.
fn number(text: &[u8]) -> Option<u64>
    ensures some { IfSome result (IsNumber text.now) }
    ensures none { IfNone result ((value : ℕ) → IsNumber text.now value → ⊥) }
{
    if text.len() > 20 || text.first() == Some(&b'+') {
        return None;
    }
    let Ok(digits) = str::from_utf8(text) else {
        return None;
    };
    digits.parse().ok()
}
