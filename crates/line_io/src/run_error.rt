//! Errors that end the run of a program before its output is complete.

ghost use Rattle.std.specs.Prelude.{◌≡◌};
ghost use Rattle.line_io.specs.declared.run_error.RunError.TheVariants.{OutOfMemory};

use std::alloc::AllocError;

/// Error that ends the run of a program before its output is complete.
#[derive(Debug, PartialEq, Eq, Drop)]
pub enum RunError {
    /// Reading the program's input failed.
    Read,
    /// Writing the program's output failed, or a write of a nonempty slice wrote no byte.
    Write,
    /// An allocation of the program failed.
    OutOfMemory,
}

impl From<AllocError> for RunError {
    ghost from_gives = { λ _ error. error ≡ OutOfMemory };

    fn from(_: AllocError) -> RunError {
        RunError::OutOfMemory
    }
}
