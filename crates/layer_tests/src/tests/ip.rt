//! Tests of `ep_ip` (IPv4 and IPv6 headers and packets) for everything that its contracts don't cover: examples from
//! standards, error texts, and calls that have to succeed.

mod headers;
mod packets;
