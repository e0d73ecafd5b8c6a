//! Main loop: reads a capture from a reader and writes the lines of its packets to a writer.

ghost use Rattle.std.specs.Prelude.{◌≡◌, ◌≤◌, ◌<◌, ◌==◌, ◌*◌, ◌+◌, ◌^◌, ◌⊎◌, ◌↔◌, false, true, IfErr, IfOk, List, OnErr, OnOk, ℕ};
ghost use Rattle.std.specs.Prelude.{MatchResult, drop, is_err, vec_len};
ghost use Rattle.std.specs.Io.KnownBytes.{Appends, IsAtEnd, ReadConsumes};
ghost use Rattle.line_io.specs.Transfers.{Transfers};
ghost use Rattle.line_io.specs.WatchedWords.{has_ended, has_failed, inner_of, is_at_end, reads_left};
ghost use Rattle.packet_dump.specs.Dumps.{BeginsDump, IsDump};
ghost use Rattle.packet_dump.specs.Saves.{BeginsSaved, IsCopy, asks, is_failed};
ghost use Rattle.packet_dump.specs.Runs.{WritesRun};
ghost use Rattle.packet_dump.specs.Sessions.{IsUnread};
ghost use Rattle.packet_dump.specs.Summaries.{IsCountedDump, plain_of};

use crate::ending::Ending;
use crate::session::Session;
use line_io::{RunError, Watched, zeros};
use std::io::{Read, Write};

/// Length of a chunk of the capture, in bytes: the maximum length of one read.
const CHUNK_LEN: usize = 65_536;

/// Length of the space before a chunk in its buffer, in bytes. It receives the bytes of the previous chunk that are not
/// yet parsed, usually a part of one packet; if they do not fit, the chunk is copied.
const UNREAD_LEN: usize = 4_096;

/// Maximum number of reads of a capture: 2^47 reads of 64 KiB each, so that the number of bytes fits in 64 bits.
pub const MOST_READS: u64 = 0x8000_0000_0000;

/// Reads a capture from `reader` and writes a line for each shown packet to `writer`, until the capture ends, `--count`
/// packets are read, or the capture is invalid. Returns why the run ended. `reader` and `writer` must not have failed
/// before, and `reader` must not have ended.
///
/// The capture is read in chunks of 64 KiB, and the lines of a chunk are written before the next chunk is read. The
/// packets are counted in the summary of `session`, if a summary is wanted. The packets that `--only` and the filter
/// select, even if `--quiet` hides their lines, are written to `file`, if a capture file is wanted.
pub fn run<R: Read, W: Write, F: Write>(
    session: &mut Session,
    reader: &mut Watched<R>,
    writer: &mut Watched<W>,
    file: &mut Watched<F>,
) -> Result<Ending, RunError>
    requires new { IsUnread session.old }
    requires reader_sound { has_failed reader.old ≡ false }
    requires reader_open { has_ended reader.old ≡ false }
    requires reads { reads_left reader.old ≤ 2 ^ 47 }
    requires writer_sound { has_failed writer.old ≡ false }
    requires file_sound { has_failed file.old ≡ false }

    // At Ok the output is the lines of the input; at an error it begins them.
    ensures ok { IfOk result (λ ending. Transfers (IsDump session.old.options (has_ended reader.new) ending)
        R.remaining reader.old reader.new W.contents writer.old writer.new) }
    ensures err { OnErr result (Transfers (BeginsDump session.old.options) R.remaining reader.old reader.new
        W.contents writer.old writer.new) }

    // The packets of these lines, and those that are read but not shown, are counted, if a summary is wanted.
    ensures counts { IfOk result (λ ending. Transfers (IsCountedDump session.old.options (has_ended reader.new) ending
        (plain_of session.old.summary) (plain_of session.new.summary)) R.remaining reader.old reader.new
        W.contents writer.old writer.new) }

    // The lines, the counts and the bytes of the file are those of one list of packets.
    ensures one_list { IfOk result (λ ending. (saved : List ℕ)
        × Appends (F.contents (inner_of file.old)) (F.contents (inner_of file.new)) saved
        × Transfers (WritesRun session.old.options (asks session.old.saving.state) (has_ended reader.new) ending
        (plain_of session.old.summary) (plain_of session.new.summary) session.new.saving.state saved)
        R.remaining reader.old reader.new W.contents writer.old writer.new) }

    // At Ok the file is the capture of the selected packets of the input, up to one that cannot be written; if a write
    // to it failed, or at an error, it begins that capture. It is empty if none is wanted.
    ensures saved { IfOk result (λ ending. Transfers
        (IsCopy session.old.options (asks session.old.saving.state) (has_ended reader.new) ending
        session.new.saving.state)
        R.remaining reader.old reader.new F.contents file.old file.new) }
    ensures begun { OnErr result (Transfers (BeginsSaved session.old.options (asks session.old.saving.state))
        R.remaining reader.old reader.new F.contents file.old file.new) }
    ensures failed { has_failed file.new ≡ is_failed session.new.saving.state }

    // A reader that has ended was read to its end, unless it still returns bytes after the maximum number of reads.
    ensures all_read { OnOk result (has_ended reader.new ≡ true →
        IsAtEnd (R.remaining (inner_of reader.new)) ⊎ (reads_left reader.new ≡ 0)) }

    // The error names the side that failed.
    ensures read { (result ≡ Err RunError.Read) ↔ (has_failed reader.new ≡ true) }
    ensures write { (result ≡ Err RunError.Write) ↔ (has_failed writer.new ≡ true) }
{
    let mut buffer = zeros(*session.output.allocator(), UNREAD_LEN + CHUNK_LEN)?;
    'chunks: loop {
        let capture_state = session.drain()?;
        writer.write_all(session.output.as_slice())?;
        if capture_state.ends_run(reader.ended()) {
            session.saving.close(file)?;
            let ending = session.ending(capture_state);
            session.count_pool();
            return Ok(ending);
        }
        session.saving.flush(file);
        let count = read_chunk(reader, &mut buffer)?;
        session.take(&mut buffer, UNREAD_LEN, count)?;
    }
}

/// Reads the next chunk of the capture into `buffer`, from index `UNREAD_LEN` on, and returns its length, 0 at the end of
/// the capture.
fn read_chunk<R: Read>(reader: &mut Watched<R>, buffer: &mut Vec<u8>) -> Result<usize, RunError>
    requires sound { has_failed reader.old ≡ false }
    requires open { has_ended reader.old ≡ false }
    requires space { 4096 < vec_len buffer.old }
    ensures bound { IfOk result (λ count. 4096 + count ≤ vec_len buffer.new) }
    ensures bytes { ReadConsumes (R.remaining (inner_of reader.old)) (R.remaining (inner_of reader.new)) result
        (drop 4096 buffer.new.items) }
    ensures len { vec_len buffer.new ≡ vec_len buffer.old }
    ensures failed { has_failed reader.new ≡ is_err result }
    ensures error { IfErr result (λ error. error ≡ RunError.Read) }
    ensures at_end { MatchResult result (λ count. is_at_end reader.new ≡ (count == 0))
        (λ _. is_at_end reader.new ≡ false) }
    ensures end { is_at_end reader.new ≡ true → IsAtEnd (R.remaining (inner_of reader.new)) }
    ensures counted { reads_left reader.old ≡ reads_left reader.new + 1 }
{
    let (_, chunk) = buffer.as_mut_slice().split_at_mut(UNREAD_LEN);
    reader.read(chunk)
}
