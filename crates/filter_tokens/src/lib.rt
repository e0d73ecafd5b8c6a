//! Tokens, values, primitives and errors of filter expressions, and the text of primitives.
#![tactic(auto)]

pub mod filter_error;
pub mod keyword;
mod names;
pub mod network;
pub mod primitive;
pub mod primitive_text;
pub mod token;
pub mod value;

pub use crate::filter_error::{FilterError, FilterErrorKind};
pub use crate::network::Network;
pub use crate::primitive::Primitive;
