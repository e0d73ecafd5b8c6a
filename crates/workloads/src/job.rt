//! The jobs of the benchmark.

use crate::bench_error::BenchError;
use crate::building::build_frames;
use crate::captures::read_captures;
use crate::digest::Digest;
use crate::fragments::reassemble_streams;
use crate::headers::read_headers;
use crate::shuffled::reassemble_shuffled;
use crate::slicing::slice_frames;
use crate::unusual::slice_unusual;
use std::alloc::Global;

/// A job of the benchmark: packet processing whose duration matters to users of the library.
#[derive(Clone, Copy)]
pub enum Job {
    /// Reads pcap and pcapng captures, and formats a line for each packet.
    Captures,
    /// Parses Ethernet frames into slices (without copying) and reads a few of their fields.
    Slicing,
    /// Decodes the headers of Ethernet frames into owned values.
    Headers,
    /// Builds Ethernet frames from addresses, ports and headers.
    Building,
    /// Reassembles the fragments of many IP datagrams at the same time.
    Reassembly,
    /// Reassembles long IP payloads from fragments of 8 bytes that arrive in unfavorable orders.
    Shuffled,
    /// Parses frames with rare headers laxly, half of them truncated, and verifies their checksums.
    Unusual,
}

impl Job {
    /// All jobs of the benchmark, in the order in which they are run.
    pub const ALL: [Job; 7] = [
        Job::Captures,
        Job::Slicing,
        Job::Headers,
        Job::Building,
        Job::Reassembly,
        Job::Shuffled,
        Job::Unusual,
    ];

    /// Name of the benchmark job, as a command line argument and in the output.
    pub fn name(&self) -> &'static str {
        match self {
            Job::Captures => "captures",
            Job::Slicing => "slicing",
            Job::Headers => "headers",
            Job::Building => "building",
            Job::Reassembly => "reassembly",
            Job::Shuffled => "shuffled",
            Job::Unusual => "unusual",
        }
    }

    /// Runs the given number of rounds of the benchmark job over inputs that are derived from the seed, and returns the
    /// digest of all results.
    pub fn run(&self, alloc: Global, rounds: u32, seed: u64) -> Result<Digest, BenchError> {
        match self {
            Job::Captures => read_captures(alloc, rounds, seed),
            Job::Slicing => slice_frames(alloc, rounds, seed),
            Job::Headers => read_headers(alloc, rounds, seed),
            Job::Building => build_frames(alloc, rounds, seed),
            Job::Reassembly => reassemble_streams(alloc, rounds, seed),
            Job::Shuffled => reassemble_shuffled(alloc, rounds, seed),
            Job::Unusual => slice_unusual(alloc, rounds, seed),
        }
    }
}
