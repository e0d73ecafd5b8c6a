//! Parsing of lines.

use crate::words::policy_named;
use etherparse::Entry;
use etherparse::defrag::DefragLimits;
use std::alloc::Global;
use std::str::FromStr;

/// Call or question of a line.
#[derive(Drop)]
pub enum Request {
    /// `pool STREAMS BYTES PAYLOAD AGE POLICY SEED`: a new pool with these limits and keys.
    Pool {
        /// Limits of the pool.
        limits: DefragLimits,
        /// Value of each byte of its keys.
        seed: u8,
    },
    /// `frag ENTRY TIMESTAMP CHANNEL HEX`: the fragment of a frame.
    Fragment {
        /// Header at which the frame starts.
        entry: Entry,
        /// Timestamp of the call.
        timestamp: u128,
        /// Channel identifier of the stream.
        channel: u64,
        /// Bytes of the frame.
        frame: Vec<u8>,
    },
    /// `part TIMESTAMP IDENTIFICATION OFFSET more|final HEX`: a fragment that is passed without a frame.
    Part {
        /// Timestamp of the call.
        timestamp: u128,
        /// Identification of the stream, whose other parts are fixed.
        identification: u16,
        /// Offset of the fragment in units of 8 bytes.
        offset: u16,
        /// Whether more fragments follow.
        more_fragments: bool,
        /// Bytes of the fragment.
        payload: Vec<u8>,
    },
    /// `expire TIMESTAMP IDLE`: a call of `expire`.
    Expire {
        /// Timestamp of the call.
        timestamp: u128,
        /// Idle time.
        idle: u128,
    },
    /// `remove ENTRY CHANNEL HEX`: the removal of the stream of a frame's fragment.
    Remove {
        /// Header at which the frame starts.
        entry: Entry,
        /// Channel identifier of the stream.
        channel: u64,
        /// Bytes of the frame.
        frame: Vec<u8>,
    },
    /// `clear`: the removal of all streams.
    Clear,
    /// `evicted`: which streams the last call evicted or discarded.
    Evicted,
    /// `state`: what the pool holds, and its counters.
    State,
}

/// Parses a line, whose words are separated by spaces. Returns `None` if it is invalid.
pub fn parse(alloc: Global, line: &str) -> Option<Request> {
    let mut words = line.split(' ');
    let kind = words.next()?;
    if kind == "frag" {
        return Some(Request::Fragment {
            entry: entry_named(words.next()?)?,
            timestamp: number(words.next()?)?,
            channel: number(words.next()?)?,
            frame: hex::decode(alloc, words.next()?).ok()?,
        });
    }
    if kind == "part" {
        return Some(Request::Part {
            timestamp: number(words.next()?)?,
            identification: number(words.next()?)?,
            offset: number(words.next()?)?,
            more_fragments: flag_named(words.next()?)?,
            payload: hex::decode(alloc, words.next()?).ok()?,
        });
    }
    if kind == "pool" {
        return Some(Request::Pool {
            limits: DefragLimits {
                streams: number(words.next()?)?,
                bytes: number(words.next()?)?,
                payload: number(words.next()?)?,
                age: number(words.next()?)?,
                overlap: policy_named(words.next()?)?,
            },
            seed: number(words.next()?)?,
        });
    }
    if kind == "expire" {
        return Some(Request::Expire {
            timestamp: number(words.next()?)?,
            idle: number(words.next()?)?,
        });
    }
    if kind == "remove" {
        return Some(Request::Remove {
            entry: entry_named(words.next()?)?,
            channel: number(words.next()?)?,
            frame: hex::decode(alloc, words.next()?).ok()?,
        });
    }
    question_named(kind)
}

/// Returns the request that is a single word.
fn question_named(word: &str) -> Option<Request> {
    if word == "clear" {
        return Some(Request::Clear);
    }
    if word == "evicted" {
        return Some(Request::Evicted);
    }
    if word == "state" {
        return Some(Request::State);
    }
    None
}

/// Returns the header that a word names, at which a frame starts.
fn entry_named(word: &str) -> Option<Entry> {
    if word == "eth" {
        return Some(Entry::Ethernet);
    }
    if word == "ip" {
        return Some(Entry::Ip);
    }
    None
}

/// Returns the flag for more fragments that a word names.
fn flag_named(word: &str) -> Option<bool> {
    if word == "more" {
        return Some(true);
    }
    if word == "final" {
        return Some(false);
    }
    None
}

/// Parses a decimal number, or returns `None` if it is invalid or too large for its type.
fn number<N: FromStr>(word: &str) -> Option<N>
where
    <N as FromStr>::Err: Drop,
{
    word.parse::<N>().ok()
}
