//! Reader of the input that prints its progress, and why a read failed, to standard error.

use std::io;
use std::io::Read;

/// Reader of the input that prints to standard error why a read failed, and the progress of a long file at each tenth.
#[derive(Drop)]
pub struct Source<'a, R, E> {
    inner: R,
    rt: &'a E,
    /// Name of the input file, for messages.
    name: &'a str,
    /// Length of the input file in bytes, if progress is printed; else `None`.
    len: Option<u64>,
    /// Number of bytes of the input that were read so far.
    read: u64,
    /// Number of read bytes at which progress is printed next.
    next: u64,
}

/// Minimum length of an input file whose progress is printed, in bytes: 100 MB.
pub const LONG: u64 = 100_000_000;

/// Number of bytes in a megabyte (MB).
const MEGABYTE: u64 = 1_000_000;

impl<'a, R, E> Source<'a, R, E> {
    /// Returns a reader of the named input that reports failed reads, and progress if the length `len` of the input is
    /// given.
    pub fn new(inner: R, rt: &'a E, name: &'a str, len: Option<u64>) -> Source<'a, R, E> {
        Source {
            inner,
            rt,
            name,
            len,
            read: 0,
            next: tenth(len),
        }
    }
}

/// Returns a tenth of the input's length, the interval of progress messages; 0 if no progress is printed.
fn tenth(len: Option<u64>) -> u64 {
    match len {
        Some(len) => len / 10,
        None => 0,
    }
}

impl<R: Read, E: Eprint> Read for Source<'_, R, E> {
    ghost remaining = { λ p. R.remaining p.inner };

    fn read(&mut self, piece: &mut [u8]) -> io::Result<usize> {
        match self.inner.read(piece) {
            Ok(count) => {
                self.read = self.read.saturating_add(count as u64);
                if let Some(len) = self.len {
                    if self.read >= self.next {
                        self.next = self.read.saturating_add(tenth(self.len));
                        let (read, all) = (self.read / MEGABYTE, len / MEGABYTE);
                        let _ = eprintln!(self.rt; "packet_dump: {read} of {all} MB");
                    }
                }
                Ok(count)
            }
            Err(error) => {
                let name = self.name;
                let _ = eprintln!(self.rt; "packet_dump: {name}: {error}");
                Err(error)
            }
        }
    }
}
