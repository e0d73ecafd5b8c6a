//! Writes packets as a capture file in the classic format (pcap, version 2.4), with timestamps in nanoseconds and
//! little-endian numbers. The law [`laws::read_back`] states that the packets are read back with equal bytes, lengths
//! and timestamps.
#![tactic(auto)]

pub mod laws;
pub mod write_error;
pub mod writing;

pub use crate::write_error::{WriteError, WriteRefusal};
pub use crate::writing::{push_heading, push_packet};
pub use capture_reader::Shown;
