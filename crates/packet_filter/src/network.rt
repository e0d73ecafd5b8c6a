//! Networks of IP addresses.

pub use filter_tokens::network::Network;
