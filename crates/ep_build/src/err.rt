//! Errors of building a frame, in a buffer or in a slice.

mod build_slice_write_error;
mod build_write_error;

pub use build_slice_write_error::BuildSliceWriteError;
pub use build_write_error::BuildWriteError;

/// Result of a function that appends a frame to a buffer.
pub(crate) type WriteResult = Result<(), BuildWriteError>;

/// Result of a function that writes a frame to a slice: the length of the frame in bytes.
pub(crate) type SliceWriteResult = Result<usize, BuildSliceWriteError>;
