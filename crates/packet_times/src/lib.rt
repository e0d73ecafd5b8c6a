//! Timestamps of packets: instants in nanoseconds, and their texts as time spans, as seconds since 1970, or as dates of
//! the Gregorian calendar in UTC.
#![tactic(auto)]

pub mod dates;
pub mod instants;
pub mod laws;
pub mod texts;

pub use crate::dates::Date;
pub use crate::instants::{EPOCH, SECOND, instant_of, is_fine};
pub use crate::texts::{push_epoch, push_since, push_utc, seconds_of};
pub use capture_reader::Time;
