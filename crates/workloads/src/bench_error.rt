//! Errors of the benchmark program `workloads`.

use std::alloc::{AllocError, AllocFailed};

/// Reason for which the benchmark program `workloads` failed.
#[derive(Debug, Drop)]
pub enum BenchError {
    /// The command line arguments are not JOB ROUNDS SEED.
    Usage,
    /// An allocation failed.
    OutOfMemory,
    /// Standard output could not be written.
    Output,
    /// An input of a benchmark job (frame, capture or fragment) could not be generated as intended.
    Input,
}

impl BenchError {
    /// Returns the error message for standard error, without a line feed at the end.
    pub fn text(&self) -> &'static str {
        match self {
            BenchError::Usage => "usage: workloads JOB ROUNDS SEED",
            BenchError::OutOfMemory => "workloads: out of memory",
            BenchError::Output => "workloads: write failed",
            BenchError::Input => "workloads: an input could not be made",
        }
    }

    /// Returns the exit status of the program: 2 if the command line arguments are wrong, otherwise 1.
    pub fn status(&self) -> u8 {
        match self {
            BenchError::Usage => 2,
            BenchError::OutOfMemory | BenchError::Output | BenchError::Input => 1,
        }
    }
}

impl From<AllocError> for BenchError {
    fn from(_: AllocError) -> BenchError {
        BenchError::OutOfMemory
    }
}

impl<T: Drop> From<AllocFailed<T>> for BenchError {
    fn from(_: AllocFailed<T>) -> BenchError {
        BenchError::OutOfMemory
    }
}
