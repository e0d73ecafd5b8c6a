//! Tests of parsing, building and reassembling packets through the public names of this crate.

mod build;
mod checks;
mod checksums;
mod defrag;
mod derives;
mod hostile;
mod lax;
mod lax_headers;
mod packet;
mod quoted_packets;
mod samples;
mod sizes;
mod truncated_headers;
mod upstream;
