//! Copies bytes (the text of an error, a reassembled payload) to the buffer that C passes.

ghost use Rattle.etherparse_c.specs.Placing.{IsPlaced};

use crate::numbers;

/// Copies `bytes` to the start of the caller's buffer and stores their length in `written`. Returns status 0, or 3 if
/// the buffer is too small; the buffer is then unchanged, and `written` is the needed length.
pub(crate) fn copy_bytes(bytes: &[u8], buffer: &mut [u8], written: &mut usize) -> u32
    ensures { IsPlaced bytes.now buffer.old buffer.new written.new result }
{
    *written = bytes.len();
    if buffer.len() < bytes.len() {
        return numbers::TOO_SMALL;
    }
    buffer[..bytes.len()].copy_from_slice(bytes);
    numbers::OK
}
