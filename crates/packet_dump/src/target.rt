//! Writer of the capture file (`--write`) that prints why a write failed to standard error.

use std::io;
use std::io::Write;

/// Writer of the capture file (`--write`) that prints to standard error why a write failed.
#[derive(Drop)]
pub struct Target<'a, W, E> {
    inner: W,
    rt: &'a E,
    /// Name of the capture file, for messages.
    name: &'a str,
}

impl<'a, W, E> Target<'a, W, E> {
    /// Returns a writer of the named capture file that reports failed writes.
    pub fn new(inner: W, rt: &'a E, name: &'a str) -> Target<'a, W, E> {
        Target { inner, rt, name }
    }
}

impl<W: Write, E: Eprint> Write for Target<'_, W, E> {
    ghost contents = { λ p. W.contents p.inner };

    fn write(&mut self, bytes: &[u8]) -> io::Result<usize> {
        match self.inner.write(bytes) {
            Ok(count) => Ok(count),
            Err(error) => {
                let name = self.name;
                let _ = eprintln!(self.rt; "packet_dump: {name}: {error}");
                Err(error)
            }
        }
    }

    fn flush(&mut self) -> io::Result<()> {
        self.inner.flush()
    }
}

/// Stands in for the capture file if there is no `--write`: a writer that accepts no bytes.
#[derive(Drop)]
pub struct NoFile;

impl Write for NoFile {
    fn write(&mut self, _bytes: &[u8]) -> io::Result<usize> {
        Ok(0)
    }

    fn flush(&mut self) -> io::Result<()> {
        Ok(())
    }
}
