//! Errors of the benchmark program `slice_bench`.

ghost use Rattle.std.specs.Prelude.{◌≡◌, ◌≢◌};
ghost use Rattle.slice_bench.specs.BenchTexts.{error_line};
ghost use Rattle.slice_bench.specs.declared.bench_error.BenchError.TheVariants.{OutOfMemory};

use std::alloc::AllocError;

/// Reason for which the benchmark program ends early.
#[derive(Debug, Drop)]
pub enum BenchError {
    /// The command line arguments don't match the usage line `slice_bench FILE [ROUNDS [MEASUREMENT]]`.
    Usage,
    /// The file with the frames to measure could not be read.
    File,
    /// The last frame in the file has fewer bytes than its length field states, or an incomplete length field.
    Cut,
    /// A memory allocation of the benchmark failed.
    OutOfMemory,
    /// The clock that the measurements use could not be read.
    Clock,
    /// Two rounds of a measurement, which make the same calls, computed different sums from their results.
    Unsteady,
    /// The results could not be written to standard output.
    Output,
}

impl BenchError {
    /// Returns the error message of the benchmark program for standard error, without a line feed.
    pub fn text(&self) -> &'static str
        ensures { result.now ≡ error_line self.now }
    {
        match self {
            BenchError::Usage => "usage: slice_bench FILE [ROUNDS [MEASUREMENT]]",
            BenchError::File => "slice_bench: the file can't be read",
            BenchError::Cut => "slice_bench: the last frame of the file is cut",
            BenchError::OutOfMemory => "slice_bench: out of memory",
            BenchError::Clock => "slice_bench: the clock can't be read",
            BenchError::Unsteady => "slice_bench: two rounds gave two sums",
            BenchError::Output => "slice_bench: write failed",
        }
    }

    /// Returns the exit status of the benchmark program for this error: 2 for wrong arguments, otherwise 1.
    pub fn status(&self) -> u8
        ensures usage { self.now ≡ BenchError.Usage → result ≡ 2 }
        ensures other { self.now ≢ BenchError.Usage → result ≡ 1 }
    {
        match self {
            BenchError::Usage => 2,
            _ => 1,
        }
    }
}

impl From<AllocError> for BenchError {
    ghost from_gives = { λ _ error. error ≡ OutOfMemory };

    fn from(_: AllocError) -> BenchError {
        BenchError::OutOfMemory
    }
}
