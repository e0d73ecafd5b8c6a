//! Numbers of streams (fragments of one IP datagram) in the long tests. `long_tests.sh` runs them with more.

/// Number of IP datagrams that a test reassembles at the same time.
pub const STREAMS: u64 = 10_000;

/// Number of IP datagrams that a test reassembles at the same time, with keys that all have the same hash.
pub const COLLIDING_STREAMS: u32 = 300;
