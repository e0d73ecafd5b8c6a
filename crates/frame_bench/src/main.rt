//! Answers each line of standard input with one line of standard output.
//!
//! A line `slice eth HEX` requests the layers of a frame that begins with an Ethernet II header, `slice sll HEX` of a
//! frame of a Linux cooked capture, and `slice ip HEX` of an IP packet. HEX is two hexadecimal digits for each byte, or
//! `-` for no bytes. The answer is `ok LINK EXTS NET TRANSPORT PAYLOAD`, with `-` for an absent layer and commas
//! between link extensions, or the error of bytes that are not a frame.
//!
//! A line `frag eth TS CHANNEL HEX` (or `sll` or `ip`) passes such a frame to a pool that reassembles fragmented
//! payloads. TS is the frame's timestamp, and CHANNEL keeps fragments of different sources apart; each is 1 to 20
//! decimal digits of a value that fits in 64 bits. The answer is `none`, `payload NUMBER HEX` with the IP protocol
//! number and the bytes of the payload that the frame completes, or the error of a rejected fragment or of bytes that
//! are not a frame. A line `drop TS` is answered with `ok`, and the pool drops each incomplete datagram whose last
//! accepted fragment has a timestamp below TS.
//!
//! A line `limit MAX` (MAX is 1 to 5 decimal digits of at most 65535) is answered with `ok`, and a new pool replaces
//! the one before, which is dropped with its incomplete datagrams. In the new pool no payload is longer than MAX bytes.
//! The limit of the first pool is 65535.
//!
//! Any other line is answered with `err line`.
#![tactic(auto)]

ghost use Rattle.std.specs.Prelude.{◌≡◌, ◌≢◌, ◌≤◌, ◌⊎◌, false, true};
ghost use Rattle.std.specs.Process.{exit_status};
ghost use Rattle.line_io.specs.Transfers.{Transfers};
ghost use Rattle.line_io.specs.WatchedWords.{has_ended, has_failed};
ghost use Rattle.frame_bench.specs.Answers.{AnswersTo, BeginsAnswersTo};
ghost use Rattle.frame_bench.specs.Endings.{status_of};

pub mod ending;
pub mod engine;
mod hex_text;
pub mod laws;
mod pool_replies;
mod pool_requests;
mod replies;
mod requests;
mod slice_replies;
mod texts;

use crate::ending::Ending;
use crate::engine::run;
pub use line_io::{RunError, Watched};
use std::alloc::Global;
use std::io::{Read, Write};
use std::process::ExitCode;

fn main(rt: HostRuntime) -> ExitCode {
    let mut reader = Watched::new(rt.stdin(), u64::MAX);
    let mut writer = Watched::new(rt.stdout(), 0);
    answered(&rt, rt.alloc(), &mut reader, &mut writer)
}

/// Reads request lines from a reader and writes their answers to a writer. The exit status is 0 if all lines are
/// answered; otherwise it is 1, and the reason is printed to standard error.
fn answered<R: Read, W: Write>(
    rt: &impl Eprint,
    alloc: Global,
    reader: &mut Watched<R>,
    writer: &mut Watched<W>,
) -> ExitCode
    requires reader_sound { has_failed reader.old ≡ false }
    requires reader_open { has_ended reader.old ≡ false }
    requires writer_sound { has_failed writer.old ≡ false }
    ensures all_answered { exit_status result ≡ 0 → Transfers AnswersTo R.remaining reader.old reader.new
        W.contents writer.old writer.new }
    ensures begun { exit_status result ≢ 0 → Transfers BeginsAnswersTo R.remaining reader.old reader.new
        W.contents writer.old writer.new }
    ensures ended { exit_status result ≡ 0 → has_ended reader.new ≡ true }
    ensures failed { has_failed reader.new ≡ true ⊎ has_failed writer.new ≡ true → exit_status result ≡ 1 }
    ensures status { exit_status result ≤ 1 }
{
    ended(rt, run(alloc, reader, writer))
}

/// Returns the exit status for the outcome of answering all lines: 0, or 1 after an error, which is printed to standard
/// error.
fn ended(rt: &impl Eprint, outcome: Result<(), RunError>) -> ExitCode
    ensures { exit_status result ≡ status_of outcome }
{
    let ending = Ending::after(outcome);
    if let Some(complaint) = ending.complaint {
        let _ = rt.eprintln(complaint);
    }
    ExitCode::from(ending.status)
}
