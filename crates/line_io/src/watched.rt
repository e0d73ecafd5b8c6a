//! Wrapper of a reader or writer that records how its calls ended.

ghost use Rattle.std.specs.Prelude.{◌≡◌, ◌==◌, ◌+◌, ◌-◌, ◌<◌, ◌≤◌, length, true};
ghost use Rattle.std.specs.Prelude.{false, is_err, IfOk, IfErr, MatchResult, OnOk, OnErr};
ghost use Rattle.std.specs.Io.KnownBytes.{Appends, IsAtEnd, ReadConsumes, WriteAppends};
ghost use Rattle.line_io.specs.WatchedWords.{AppendsPrefix, KeepsReads, has_ended};
ghost use Rattle.line_io.specs.WatchedWords.{has_failed, inner_of, is_at_end, reads_left};

use crate::run_error::RunError;
use std::io::{Read, Write};

/// Wrapper of a reader or writer that records whether a call failed and, for a reader, whether it reached its end.
#[derive(Drop)]
pub struct Watched<T> {
    inner: T,
    /// True if a call of the wrapped reader or writer failed, or if a write of a nonempty slice wrote no byte.
    failed: bool,
    /// True if the wrapped reader is at its end: a read into a nonempty slice returned 0 bytes.
    at_end: bool,
    /// Number of read calls that are still allowed. It ensures that a reader without an end is not read forever.
    reads_left: u64,
}

impl<T> Watched<T> {
    /// Wraps a reader or writer. A reader can be read at most `reads` times.
    pub fn new(inner: T, reads: u64) -> Watched<T>
        ensures inner { inner_of result ≡ inner }
        ensures failed { has_failed result ≡ false }
        ensures at_end { is_at_end result ≡ false }
        ensures reads_left { reads_left result ≡ reads }
    {
        Watched {
            inner,
            failed: false,
            at_end: false,
            reads_left: reads,
        }
    }

    /// Returns true if a call of the wrapped reader or writer failed, or if a write of a nonempty slice wrote no byte.
    pub fn failed(&self) -> bool
        ensures { result ≡ has_failed self.now }
    {
        self.failed
    }
}

impl<R: Read> Watched<R> {
    /// Returns true if the wrapped reader is at its end (a read into a nonempty slice returned 0 bytes), or if the
    /// maximum number of reads was made. `read` may only be called if this is false.
    pub fn ended(&self) -> bool
        ensures { result ≡ has_ended self.now }
    {
        self.at_end || self.reads_left == 0
    }

    /// Reads once from the wrapped reader into a slice, and returns the number of bytes read, 0 at the end. The slice
    /// must not be empty, and the reader must neither have failed nor ended.
    pub fn read(&mut self, piece: &mut [u8]) -> Result<usize, RunError>
        requires sound { has_failed self.old ≡ false }
        requires open { has_ended self.old ≡ false }
        requires not_empty { 0 < length piece.old }
        ensures bound { IfOk result (λ count. count ≤ length piece.new) }
        ensures bytes { ReadConsumes (R.remaining (inner_of self.old)) (R.remaining (inner_of self.new)) result
            piece.new }
        ensures failed { has_failed self.new ≡ is_err result }
        ensures error { IfErr result (λ error. error ≡ RunError.Read) }
        ensures at_end { MatchResult result (λ count. is_at_end self.new ≡ (count == 0))
            (λ _. is_at_end self.new ≡ false) }
        ensures end { is_at_end self.new ≡ true → IsAtEnd (R.remaining (inner_of self.new)) }
        ensures counted { reads_left self.old ≡ reads_left self.new + 1 }
    {
        self.reads_left -= 1;
        match self.inner.read(piece) {
            Ok(count) => {
                self.at_end = count == 0;
                Ok(count)
            }
            Err(_) => {
                self.failed = true;
                Err(RunError::Read)
            }
        }
    }
}

impl<W: Write> Watched<W> {
    /// Writes once to the wrapped writer, and returns the number of bytes written, at least 1. `part` must not be
    /// empty, and the writer must not have failed.
    fn write(&mut self, part: &[u8]) -> Result<usize, RunError>
        requires sound { has_failed self.old ≡ false }
        requires some { 0 < length part.now }
        ensures count { IfOk result (λ count. (0 < count) × (count ≤ length part.now)) }
        ensures bytes { WriteAppends (W.contents (inner_of self.old)) (W.contents (inner_of self.new)) result
            part.now }
        ensures reads { KeepsReads self.old self.new }
        ensures failed { has_failed self.new ≡ is_err result }
        ensures error { IfErr result (λ error. error ≡ RunError.Write) }
    {
        match self.inner.write(part) {
            Ok(count) if count > 0 => Ok(count),
            _ => {
                self.failed = true;
                Err(RunError::Write)
            }
        }
    }

    /// Writes all bytes to the wrapped writer, with as many write calls as needed. On error, only a prefix of the bytes
    /// was written. The writer must not have failed before.
    pub fn write_all(&mut self, bytes: &[u8]) -> Result<(), RunError>
        requires { has_failed self.old ≡ false }
        ensures all { OnOk result (Appends (W.contents (inner_of self.old)) (W.contents (inner_of self.new))
            bytes.now) }
        ensures prefix { OnErr result (AppendsPrefix (W.contents (inner_of self.old)) (W.contents (inner_of self.new))
            bytes.now) }
        ensures reads { KeepsReads self.old self.new }
        ensures failed { has_failed self.new ≡ is_err result }
        ensures error { IfErr result (λ error. error ≡ RunError.Write) }
    {
        let mut rest = bytes;
        'parts: while !rest.is_empty() {
            let count = self.write(rest)?;
            rest = &rest[count..];
        }
        Ok(())
    }
}
