//! Tests of each crate that parses and writes headers, of `lru_table`, and the helpers that the tests share.

mod base;
mod checks;
mod derives;
mod ext;
mod figures;
mod ip;
mod link;
mod lru_tables;
mod transport;
