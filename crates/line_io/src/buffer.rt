//! Allocation of buffers that readers fill.

ghost use Rattle.std.specs.Prelude.{◌≡◌, length, IfOk};

use std::alloc::{AllocError, Global};

/// Allocates a buffer of `len` zero bytes, into which a reader can read. Its contract states only the length, so that
/// proofs about callers do not have to track each zero.
pub fn zeros(alloc: Global, len: usize) -> Result<Vec<u8>, AllocError>
    ensures { IfOk result (λ bytes. length bytes.items ≡ len) }
{
    Ok(vec![in alloc; 0; len]?)
}
