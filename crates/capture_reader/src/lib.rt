//! Reads packets of captures from a stream of bytes, in chunks of any size.
//!
//! The classic format (pcap, version 2.4) begins with a file header of 24 bytes. A record follows for each packet: its
//! timestamp, its captured length, its original length, and the captured bytes. Numbers are in the byte order of the
//! machine that wrote the capture, which the magic number in the first four bytes states.
//!
//! The newer format (pcapng, draft-ietf-opsawg-pcapng) is a sequence of sections that consist of blocks. A block has
//! its length before and after its body. A section header states the byte order; interface descriptions contain the
//! unit of timestamps, and packets refer to their interface by number.
#![tactic(auto)]

pub mod block;
pub mod byte_order;
pub mod heading;
pub mod interface;
pub mod laws;
pub mod packet;
mod parts;
pub mod reader;
pub mod refusal;
pub mod shown;

pub use crate::byte_order::ByteOrder;
pub use crate::heading::{Heading, Resolution};
pub use crate::interface::Interface;
pub use crate::packet::{Packet, Record};
pub use crate::reader::{Advance, CaptureReader};
pub use crate::refusal::{CaptureError, Refusal};
pub use crate::shown::{Shown, Time};
