//! Errors of parsing and writing headers, in a module for each layer.

pub mod ip;
pub mod ip_auth;
pub mod ip_exts;
pub mod ipv4;
pub mod ipv4_exts;
pub mod ipv6;
pub mod ipv6_exts;
mod layer;
mod len_error;
pub mod linux_sll;
pub mod macsec;
pub mod tcp;
mod value_too_big;
mod value_type;

pub use layer::Layer;
pub use len_error::LenError;
pub use value_too_big::ValueTooBigError;
pub use value_type::ValueType;
