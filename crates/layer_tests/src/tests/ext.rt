//! Tests of `ep_ext` (IP extension headers) for everything that its contracts don't cover: examples from standards,
//! error texts, and calls that have to succeed.

mod chain;
mod fragment_header;
mod ip_auth;
mod raw_extension;
