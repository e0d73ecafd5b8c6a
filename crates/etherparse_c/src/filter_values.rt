//! Error of a filter expression in C's memory layout.

/// Error of a filter expression, as numbers for C. All fields are 0 if there is no error.
#[repr(C)]
#[derive(Clone, Copy)]
pub struct FilterError {
    /// Reason for the error of a filter expression (`enum etherparse_filter_error_kind`), or 0 if there is none.
    pub kind: u32,
    /// Offset in bytes at which the wrong token of a filter expression begins.
    pub start: usize,
    /// Offset in bytes at which the wrong token of a filter expression ends.
    pub end: usize,
}
