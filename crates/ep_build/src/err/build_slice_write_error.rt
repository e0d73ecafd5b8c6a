//! Error of writing a built frame to a slice.

use crate::err::BuildWriteError;
use thiserror::Error;

/// Reason why a built frame was not written to a slice.
#[derive(Clone, Debug, PartialEq, Eq, Drop, Error)]
pub enum BuildSliceWriteError {
    /// The slice is shorter than the frame. The value is the length of the frame in bytes.
    #[error("slice is too small: the frame has {0} bytes")]
    Space(usize),
    /// The frame cannot be built from its headers and payload. Never `OutOfMemory`, since writing to a slice doesn't
    /// allocate.
    #[error(transparent)]
    Build(BuildWriteError),
}
