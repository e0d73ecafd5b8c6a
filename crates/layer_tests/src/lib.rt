//! Tests of the crates that parse and write headers, and of `lru_table`, for everything that their contracts don't
//! cover: examples from standards, error texts, and calls that have to succeed. They are in a crate of their own, so
//! that those crates are proved only once.
#![tactic(auto)]

#[cfg(test)]
mod tests;
