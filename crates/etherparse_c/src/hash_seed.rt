//! Seed of the hash of a bounded reassembly pool, which C passes.

ghost use Rattle.std.specs.Prelude.{◌≡◌, Ok, length};

use std::io;
use std::random::RandomSource;

/// Bytes that C passes as the seed of a pool's hash, as a source of the hash's keys.
#[derive(Clone, Copy)]
pub(crate) struct HashSeed<'a> {
    pub(crate) bytes: &'a [u8; 16],
}

impl RandomSource for HashSeed<'_> {
    /// Copies the seed to `buf`. Fails if `buf` does not have the length of the seed, the 16 bytes that the hash takes.
    fn fill_bytes(&self, buf: &mut [u8]) -> io::Result<()>
        ensures { length buf.old ≡ 16 → (result ≡ Ok tt) × (buf.new ≡ self.now.bytes.now) }
    {
        let bytes = self.bytes;
        if buf.len() != bytes.len() {
            return Err(io::ErrorKind::InvalidInput.into());
        }
        buf.copy_from_slice(bytes);
        Ok(())
    }
}
