//! How a `packet_dump` run ends.

ghost use Rattle.std.specs.Prelude.{◌≡◌};
ghost use Rattle.packet_dump.specs.ErrorTexts.{run_error_text};

use capture_reader::CaptureError;
use line_io::RunError;

/// Why a run that wrote all of its output stopped reading the capture.
#[derive(Clone, Copy)]
pub enum Ending {
    /// The capture is complete and was read to its end.
    Complete,
    /// The number of packets given by `--count` was read.
    Enough,
    /// The capture is invalid, or it ends within a packet or block.
    Broken {
        /// Number of packets that were read before the error in the capture.
        packets: u64,
        /// Error in the capture, with its byte offset.
        error: CaptureError,
    },
}

/// Returns the message for standard error, without a line feed, about a failed read, write or allocation.
pub fn error_text(error: &RunError) -> &'static str
    ensures { result.now ≡ run_error_text error.now }
{
    match error {
        RunError::Read => "packet_dump: read failed",
        RunError::Write => "packet_dump: write failed",
        RunError::OutOfMemory => "packet_dump: out of memory",
    }
}
