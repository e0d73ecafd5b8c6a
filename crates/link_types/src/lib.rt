//! Start of the packets of a capture, by its link type: the layer at which the library starts to parse, and the length
//! of a link header before it that the library does not parse.
#![tactic(auto)]

pub mod openings;

pub use crate::openings::{Opening, opening_of};
pub use ep_base::EtherType;
pub use ep_packet::Entry;
