//! The engine of the program: reads request lines from a reader and writes an answer line for each to a writer.

ghost use Rattle.std.specs.Prelude.{ℕ, List, ◌≡◌, ◌⊎◌, ◌<◌, ◌∷◌, ◌++◌, ◌+◌, ◌↔◌, [], false};
ghost use Rattle.std.specs.Prelude.{true, length, OnErr, OnOk};
ghost use Rattle.std.specs.Io.KnownBytes.{IsAtEnd};
ghost use Rattle.line_io.specs.Lines.{IsWithinLine, line_feed};
ghost use Rattle.line_io.specs.Transfers.{Transfers};
ghost use Rattle.line_io.specs.WatchedWords.{KeepsReads, has_ended, has_failed, inner_of, is_at_end, reads_left};
ghost use Rattle.frame_bench.specs.Answers.{IsAnswer, AnswersAfter, AnswersTo, BeginsAnswersTo};
ghost use Rattle.frame_bench.specs.LineCalls.{HoldsLines};
ghost use Rattle.frame_bench.specs.Advances.{AdvancesTo, BeginsAnswers};

use crate::laws;
use crate::replies::push_line;
use crate::texts::split_at_first;
use etherparse::defrag::IpDefragPool;
use line_io::{RunError, Watched, zeros};
use std::alloc::{AllocError, Global};
use std::io::{Read, Write};

/// Greatest number of bytes that one read of the input returns: 64 KiB.
const PIECE_LEN: usize = 65_536;

/// Reads request lines until the end of the reader, and writes one answer line for each. When it is called, neither the
/// reader nor the writer may have failed, and the reader may not have ended.
///
/// The reader is read in chunks of at most 64 KiB. Reading also ends after the maximum number of reads that was given
/// to `Watched::new`. The answers to the lines that end in a chunk are written before the next chunk is read.
///
/// # Errors
///
/// The first read, write or allocation that fails ends the run.
pub fn run<R: Read, W: Write>(
    alloc: Global,
    reader: &mut Watched<R>,
    writer: &mut Watched<W>,
) -> Result<(), RunError>
    requires reader_sound { has_failed reader.old ≡ false }
    requires reader_open { has_ended reader.old ≡ false }
    requires writer_sound { has_failed writer.old ≡ false }

    // The output is the answers to the input, and after an error the start of them.
    ensures ok { OnOk result (Transfers AnswersTo R.remaining reader.old reader.new
        W.contents writer.old writer.new) }
    ensures err { OnErr result (Transfers BeginsAnswersTo R.remaining reader.old reader.new
        W.contents writer.old writer.new) }

    // All input is read, unless the reader still returns bytes after its limit of reads.
    ensures ended { OnOk result (has_ended reader.new ≡ true) }
    ensures all_read { OnOk result (IsAtEnd (R.remaining (inner_of reader.new)) ⊎ (reads_left reader.new ≡ 0)) }

    // The writer is not read.
    ensures writer_reads { KeepsReads writer.old writer.new }

    // The error reports which side failed.
    ensures read { (result ≡ Err RunError.Read) ↔ (has_failed reader.new ≡ true) }
    ensures write { (result ≡ Err RunError.Write) ↔ (has_failed writer.new ≡ true) }
{
    // A law, not code: the clause on errors needs that each input has an output.
    laws::answers();
    let mut buffer = zeros(alloc, PIECE_LEN)?;
    let piece = buffer.as_mut_slice();
    let mut session = Session::new(alloc);
    'pieces: while !reader.ended() {
        step(&mut session, reader, piece, writer)?;
    }
    session.finish()?;
    writer.write_all(session.output.as_slice())
}

/// State between two chunks of input: the reassembly pool, the start of a line that is not yet complete, and buffers.
#[derive(Drop)]
struct Session {
    /// Allocator for reassembly pools that a `limit` line creates.
    alloc: Global,
    /// Reassembly pool that all earlier `frag`, `drop` and `limit` lines have changed. Timestamps and channels are
    /// 64-bit numbers.
    pool: IpDefragPool<u64, u64>,
    /// Start of a request line whose line feed has not been read yet.
    line: Vec<u8>,
    /// Bytes of a frame, decoded from the hexadecimal digits of a request line.
    bytes: Vec<u8>,
    /// Answer lines that are not yet written.
    output: Vec<u8>,
}

impl Session {
    /// Returns the state before any input: a new reassembly pool with the limit 65535, and empty buffers.
    fn new(alloc: Global) -> Session
        ensures line { result.line.items ≡ [] }
        ensures holds { HoldsLines [] result.pool }
    {
        Session {
            alloc,
            pool: IpDefragPool::new(alloc),
            line: Vec::new(alloc),
            bytes: Vec::new(alloc),
            output: Vec::new(alloc),
        }
    }

    /// Processes the next chunk of input. It replaces the contents of the output buffer by the answers to the lines
    /// that end in the chunk, and keeps the start of an incomplete line.
    fn take(&mut self, piece: &[u8]) -> Result<(), AllocError>
        requires { IsWithinLine self.old.line.items }
        ensures { OnOk result ((before : List (List ℕ)) → HoldsLines before self.old.pool →
            AdvancesTo before self.old.line.items piece.now self.new.output.items self.new.line.items self.new.pool) }
    {
        self.output.clear();
        let mut rest = piece;
        'lines: while let Some((end, after)) = split_at_first(rest, b'\n') {
            self.end_line(end)?;
            rest = after;
        }
        self.line.extend_from_slice(rest)?;
        Ok(())
    }

    /// Appends the answer to a request line whose line feed was found. `end` is the part of the line in the current
    /// chunk; if the line began in an earlier chunk, its start is in `self.line`. A line that is within one chunk is
    /// not copied.
    fn end_line(&mut self, end: &[u8]) -> Result<(), AllocError>
        ensures line { OnOk result (self.new.line.items ≡ []) }
        ensures answer { OnOk result ((before : List (List ℕ)) → HoldsLines before self.old.pool → (answer : List ℕ)
            × IsAnswer before (self.old.line.items ++ end.now) answer
            × (self.new.output.items ≡ self.old.output.items ++ (answer ++ line_feed ∷ []))) }
        ensures holds { OnOk result ((before : List (List ℕ)) → HoldsLines before self.old.pool →
            HoldsLines (before ++ (self.old.line.items ++ end.now) ∷ []) self.new.pool) }
    {
        if self.line.is_empty() {
            push_line(
                self.alloc,
                &mut self.output,
                &mut self.pool,
                end,
                &mut self.bytes,
            )?;
            return Ok(());
        }
        self.line.extend_from_slice(end)?;
        push_line(
            self.alloc,
            &mut self.output,
            &mut self.pool,
            self.line.as_slice(),
            &mut self.bytes,
        )?;
        self.line.clear();
        Ok(())
    }

    /// Clears the output buffer, and appends the answer to the last line if the input ends without a line feed.
    fn finish(&mut self) -> Result<(), AllocError>
        requires { IsWithinLine self.old.line.items }
        ensures { OnOk result ((before : List (List ℕ)) → HoldsLines before self.old.pool →
            AnswersAfter before self.old.line.items self.new.output.items) }
    {
        self.output.clear();
        if !self.line.is_empty() {
            push_line(
                self.alloc,
                &mut self.output,
                &mut self.pool,
                self.line.as_slice(),
                &mut self.bytes,
            )?;
        }
        Ok(())
    }
}

/// Reads one chunk of input, and writes the answers to the request lines that end in it.
fn step<R: Read, W: Write>(
    session: &mut Session,
    reader: &mut Watched<R>,
    piece: &mut [u8],
    writer: &mut Watched<W>,
) -> Result<(), RunError>
    requires within { IsWithinLine session.old.line.items }
    requires reader_sound { has_failed reader.old ≡ false }
    requires reader_open { has_ended reader.old ≡ false }
    requires writer_sound { has_failed writer.old ≡ false }
    requires not_empty { 0 < length piece.old }
    ensures ok { OnOk result ((before : List (List ℕ)) → HoldsLines before session.old.pool → Transfers
        (λ read written. AdvancesTo before session.old.line.items read written session.new.line.items session.new.pool)
        R.remaining reader.old reader.new W.contents writer.old writer.new) }
    ensures err { OnErr result ((before : List (List ℕ)) → HoldsLines before session.old.pool →
        Transfers (BeginsAnswers before session.old.line.items)
        R.remaining reader.old reader.new W.contents writer.old writer.new) }
    ensures writer_reads { KeepsReads writer.old writer.new }
    ensures counted { reads_left reader.old ≡ reads_left reader.new + 1 }
    ensures end { is_at_end reader.new ≡ true → IsAtEnd (R.remaining (inner_of reader.new)) }
    ensures read { (result ≡ Err RunError.Read) ↔ (has_failed reader.new ≡ true) }
    ensures write { (result ≡ Err RunError.Write) ↔ (has_failed writer.new ≡ true) }
{
    // A law, not code, as in `run`.
    laws::answers();
    let count = reader.read(piece)?;
    session.take(&piece[..count])?;
    let answers = session.output.as_slice();
    writer.write_all(answers)
}
