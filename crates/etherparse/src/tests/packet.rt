//! Tests of parsing packets, and of headers that are written and read back.

mod frames;
mod ip_headers;
mod layers;
mod texts;
