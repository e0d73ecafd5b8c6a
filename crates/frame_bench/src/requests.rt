//! Parsing of a request line: the first word chooses among `slice`, `frag`, `drop` and `limit`.

ghost use Rattle.std.specs.Prelude.{◌∷◌, ◌++◌, ℕ, List, IfNone, IfOk, IfSome, codes};
ghost use Rattle.etherparse.specs.Types.Entry.{Entry};
ghost use Rattle.line_io.specs.Lines.{space};
ghost use Rattle.frame_bench.specs.Requests.{Asks, EntryAt};
ghost use Rattle.frame_bench.specs.declared.requests.Request.{Request};

use crate::hex_text::decode;
use crate::pool_requests::{parse_drop, parse_fragment, parse_limit};
use crate::texts::strip_word;
use etherparse::Entry;
use std::alloc::AllocError;

/// A parsed request line, without the bytes of its frame, which the parser decodes into a separate vector.
#[derive(Clone, Copy, Debug)]
pub enum Request {
    /// `slice`: print the layers of a frame whose bytes start with this header (Ethernet II, Linux SLL or IP).
    Slice(Entry),
    /// `frag`: pass a frame to the reassembly pool. Print the payload that the frame completes, `none` if it completes
    /// none, or the error if the frame is rejected.
    Fragment {
        /// Header that the bytes of the frame start with: Ethernet II, Linux SLL or IP.
        entry: Entry,
        /// Timestamp of the frame: a number that the request line states.
        timestamp: u64,
        /// Channel of the frame: a number that keeps fragments of different sources apart.
        channel: u64,
    },
    /// `drop`: drop the incomplete datagrams whose last accepted fragment has a timestamp below the given one.
    Drop {
        /// Least timestamp that is kept. A datagram is dropped if its last accepted fragment has a lower one.
        timestamp: u64,
    },
    /// `limit`: replace the reassembly pool, with its incomplete datagrams, by a new and empty pool of the given limit.
    Limit {
        /// Greatest length of a payload that the new reassembly pool accepts, in bytes.
        max: u16,
    },
}

/// Parses a request line, or returns `None` if the line is not a request. The vector `bytes` is overwritten by the
/// frame that the line contains in hexadecimal.
pub fn parse(line: &[u8], bytes: &mut Vec<u8>) -> Result<Option<Request>, AllocError>
    ensures some { IfOk result (λ found. IfSome found (λ request. Asks line.now request bytes.new.items)) }
    ensures none { IfOk result (λ found. IfNone found
        ((request : Request) (frame : List ℕ) → Asks line.now request frame → ⊥)) }
{
    if let Some(rest) = strip_word(line, b"slice") {
        return parse_slice(rest, bytes);
    }
    if let Some(rest) = strip_word(line, b"frag") {
        return parse_fragment(rest, bytes);
    }
    if let Some(rest) = strip_word(line, b"drop") {
        return Ok(parse_drop(rest, bytes));
    }
    match strip_word(line, b"limit") {
        Some(rest) => Ok(parse_limit(rest, bytes)),
        None => Ok(None),
    }
}

/// Parses the rest of a `slice` line, after the word and a space, or returns `None` if it is invalid. The vector
/// `bytes` is overwritten by the decoded frame.
fn parse_slice(text: &[u8], bytes: &mut Vec<u8>) -> Result<Option<Request>, AllocError>
    ensures some { IfOk result (λ found. IfSome found (λ request.
        Asks (codes "slice" ++ space ∷ text.now) request bytes.new.items)) }
    ensures none { IfOk result (λ found. IfNone found ((request : Request) (frame : List ℕ) →
        Asks (codes "slice" ++ space ∷ text.now) request frame → ⊥)) }
{
    let Some((entry, digits)) = entry_at(text) else {
        return Ok(None);
    };
    if decode(digits, bytes)? {
        Ok(Some(Request::Slice(entry)))
    } else {
        Ok(None)
    }
}

/// Parses the word `eth`, `sll` or `ip` at the start of a text: the header that a frame starts with. Returns it with
/// the text after the word and one space, or `None` for any other word.
pub fn entry_at(text: &[u8]) -> Option<(Entry, &[u8])>
    ensures some { IfSome result (λ found. EntryAt text.now found.0 found.1.now) }
    ensures none { IfNone result ((entry : Entry) (rest : List ℕ) → EntryAt text.now entry rest → ⊥) }
{
    if let Some(rest) = strip_word(text, b"eth") {
        return Some((Entry::Ethernet, rest));
    }
    if let Some(rest) = strip_word(text, b"sll") {
        return Some((Entry::LinuxSll, rest));
    }
    let rest = strip_word(text, b"ip")?;
    Some((Entry::Ip, rest))
}
