//! Errors of the IPv4 and IPv6 extension headers.

pub mod ip_auth;
pub mod ipv6_exts;

pub use ep_base::err::{Layer, LenError, ipv4_exts};
