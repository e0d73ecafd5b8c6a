//! Input and output of programs that write lines: readers and writers that record how their calls ended, and numbers in
//! decimal.
#![tactic(auto)]

pub mod buffer;
pub mod decimals;
mod digits;
pub mod laws;
pub mod run_error;
pub mod watched;

pub use crate::buffer::zeros;
pub use crate::run_error::RunError;
pub use crate::watched::Watched;
