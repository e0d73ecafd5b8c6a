//! Reading of big-endian numbers at an offset of a byte slice. Bytes after the end of the slice count as 0.

ghost use Rattle.std.specs.Prelude.{◌≡◌, slice_index};
ghost use Rattle.ep_base.specs.Bytes.{long_at, word_at};

/// Returns the byte at offset `at`, or 0 if the slice ends before it.
pub fn byte_at(bytes: &[u8], at: usize) -> u8
    ensures { result ≡ slice_index bytes.now at }
{
    if at < bytes.len() { bytes[at] } else { 0 }
}

/// Returns the 16-bit big-endian number at offset `at`. Bytes after the end of the slice count as 0.
pub fn word_at(bytes: &[u8], at: usize) -> u16
    ensures { result ≡ word_at bytes.now at }
{
    256 * u16::from(byte_at(bytes, at)) + u16::from(byte_at(bytes, at.saturating_add(1)))
}

/// Returns the 32-bit big-endian number at offset `at`. Bytes after the end of the slice count as 0.
pub fn long_at(bytes: &[u8], at: usize) -> u32
    ensures { result ≡ long_at bytes.now at }
{
    65_536 * u32::from(word_at(bytes, at)) + u32::from(word_at(bytes, at.saturating_add(2)))
}
