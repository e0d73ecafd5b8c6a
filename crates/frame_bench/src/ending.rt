//! Exit status of the program and the error line that it prints.

ghost use Rattle.std.specs.Prelude.{List, ◌≡◌, ℕ};
ghost use Rattle.std.specs.Option.{option_map};
ghost use Rattle.frame_bench.specs.Endings.{complaint_of, run_error_text, status_of};

use line_io::RunError;

/// How the program ends after it has answered its input or failed: exit status and error line.
#[derive(Debug, Drop)]
pub struct Ending {
    /// Exit status of the process: 0 if all lines were answered, 1 after an error.
    pub status: u8,
    /// Line that the program prints to standard error, without its line feed, or `None` if there was no error.
    pub complaint: Option<&'static str>,
}

impl Ending {
    /// Returns exit status 0 without an error line if all lines were answered, and exit status 1 with the text of the
    /// error otherwise.
    pub fn after(run: Result<(), RunError>) -> Ending
        ensures status { result.status ≡ status_of run }
        ensures complaint { option_map (λ text. text.now) result.complaint ≡ complaint_of run }
    {
        match run {
            Ok(()) => Ending {
                status: 0,
                complaint: None,
            },
            Err(error) => Ending {
                status: 1,
                complaint: Some(error.text()),
            },
        }
    }
}

/// Error that can be printed as a line to standard error. `RunError`, the error of a failed read, write or allocation,
/// implements it.
pub trait ErrorText {
    ghost text_of: { Self → List ℕ };

    /// Line that describes the error, with the program's name and without a line feed: "frame_bench: read failed".
    fn text(&self) -> &'static str
        ensures { result.now ≡ text_of self.now };
}

impl ErrorText for RunError {
    ghost text_of = { run_error_text };

    fn text(&self) -> &'static str {
        match self {
            RunError::Read => "frame_bench: read failed",
            RunError::Write => "frame_bench: write failed",
            RunError::OutOfMemory => "frame_bench: out of memory",
        }
    }
}
