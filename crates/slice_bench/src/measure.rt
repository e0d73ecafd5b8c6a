//! Measures the time of benchmark rounds: one round makes a call on each frame or IP packet of a file.

ghost use Rattle.std.specs.Prelude.{◌≡◌, ◌*◌, ◌/◌, ◌<◌, ◌^◌};
ghost use Rattle.slice_bench.specs.BenchTexts.{measurement_name};

use crate::bench_error::BenchError;
use crate::building::{FrameParts, FromAddresses, FromHeaders, built, built_with_size};
use crate::columns::{
    Decoding, Filling, LaxFilling, ReadingIpHeaders, Rereading, Slicing, SlicingIpv4,
    SlicingNotInlined, total,
};
use crate::filtering::{Filters, SlicedFrame, matched};
use crate::reassembly::{bounded_len, reassembled_len, unlimited};
use crate::verdicts::{summed, valid_checksums};
use etherparse::defrag::DefragLimits;
use packet_filter::Filter;
use std::alloc::Global;
use std::rt::Clock;
use std::time::Instant;

/// Input of the benchmarks: the frames of a file, the IP packets in them, the decoded headers and payloads and the layers
/// of the first frames, and filters.
#[derive(Drop)]
pub struct Corpus<'a> {
    /// All Ethernet frames of the benchmark's input file.
    pub frames: Vec<&'a [u8]>,
    /// IP packets in the frames of the benchmark's input file, for measurements that start at the IP header.
    pub ip_packets: Vec<&'a [u8]>,
    /// Decoded headers and payloads of the first frames of the input file, for measurements that build frames.
    pub frame_parts: Vec<FrameParts<'a>>,
    /// First frames of the input file as lax slicing reads them, for measurements of filters.
    pub sliced_frames: Vec<SlicedFrame<'a>>,
    /// Filters that are measured.
    pub filters: Filters,
}

impl Corpus<'_> {
    /// Returns the number of sliced frames that a filter matches.
    fn matched(&self, filter: &Filter) -> u64 {
        matched(self.sliced_frames.as_slice(), filter)
    }
}

/// Measurement of the benchmark program. It makes library calls on each frame or IP packet of the input file, builds
/// frames from the decoded headers of the first 1,000 frames (except frames that the builder does not support), or
/// matches a filter against the first 1,000 frames, or verifies their checksums.
#[derive(Clone, Copy, Debug, PartialEq, Eq)]
pub enum Measurement {
    /// Slices each Ethernet frame into a new value.
    Slicing,
    /// Slices each Ethernet frame into a new value, in a function that is not inlined.
    SlicingNotInlined,
    /// Slices each Ethernet frame into one reused packet value.
    Filling,
    /// Slices each Ethernet frame laxly into one reused packet value.
    LaxFilling,
    /// Decodes the headers of each Ethernet frame into a new value.
    Decoding,
    /// Decodes the headers of each Ethernet frame into one reused value.
    Rereading,
    /// Slices each IP packet as IPv4; IPv6 packets are rejected.
    SlicingIpv4,
    /// Decodes the IP and extension headers of each IPv4 or IPv6 packet.
    ReadingIpHeaders,
    /// Builds each frame from its decoded headers and its payload, in one reused buffer.
    Building,
    /// Builds each frame from the addresses, ports and payload of a decoded frame, in one reused buffer.
    BuildingFromAddresses,
    /// Builds each untagged UDP over IPv4 frame in a new buffer that first reserves the size that the builder computes.
    BuildingWithSize,
    /// Slices each Ethernet frame and passes it to a reassembly pool, which is new in each round.
    Reassembly,
    /// Slices each Ethernet frame and passes it to a bounded reassembly pool without limits that it reaches, which is new
    /// in each round.
    Bounded,
    /// Slices each Ethernet frame and passes it to a bounded reassembly pool with the default limits, which is new in each
    /// round.
    BoundedByDefault,
    /// Matches the filter `port 53` against each sliced frame.
    FilteringPort,
    /// Matches the filter `host 192.168.1.1` against each sliced frame.
    FilteringHost,
    /// Matches the filter `net 192.168.0.0/16` against each sliced frame.
    FilteringNet,
    /// Matches a filter of six terms that are joined by `or` against each sliced frame.
    FilteringTerms,
    /// Matches the filter `tcp[tcpflags] & (tcp-syn|tcp-fin) != 0` against each sliced frame.
    FilteringFlags,
    /// Matches a filter of 100 hosts that are joined by `or` against each sliced frame.
    FilteringHosts,
    /// Verifies the checksums of each sliced frame.
    Verdicts,
    /// Adds up the bytes of the IPv4 header, of the addresses and of the transport layer of each sliced frame.
    Summing,
}

impl Measurement {
    /// All measurements of the benchmark program, in the order in which they are made.
    pub const ALL: [Measurement; 22] = [
        Measurement::Slicing,
        Measurement::SlicingNotInlined,
        Measurement::Filling,
        Measurement::LaxFilling,
        Measurement::Decoding,
        Measurement::Rereading,
        Measurement::SlicingIpv4,
        Measurement::ReadingIpHeaders,
        Measurement::Building,
        Measurement::BuildingFromAddresses,
        Measurement::BuildingWithSize,
        Measurement::Reassembly,
        Measurement::Bounded,
        Measurement::BoundedByDefault,
        Measurement::FilteringPort,
        Measurement::FilteringHost,
        Measurement::FilteringNet,
        Measurement::FilteringTerms,
        Measurement::FilteringFlags,
        Measurement::FilteringHosts,
        Measurement::Verdicts,
        Measurement::Summing,
    ];

    /// Name of the measurement, as the argument MEASUREMENT and in the printed results.
    pub fn name(&self) -> &'static str
        ensures { result.now ≡ measurement_name self.now }
    {
        match self {
            Measurement::Slicing => "slicing",
            Measurement::SlicingNotInlined => "slicing-apart",
            Measurement::Filling => "filling",
            Measurement::LaxFilling => "lax-filling",
            Measurement::Decoding => "decoding",
            Measurement::Rereading => "rereading",
            Measurement::SlicingIpv4 => "ipv4-slice",
            Measurement::ReadingIpHeaders => "ip-headers",
            Measurement::Building => "building",
            Measurement::BuildingFromAddresses => "building-from-addresses",
            Measurement::BuildingWithSize => "building-with-size",
            Measurement::Reassembly => "reassembly",
            Measurement::Bounded => "bounded",
            Measurement::BoundedByDefault => "bounded-by-default",
            Measurement::FilteringPort => "filtering-port",
            Measurement::FilteringHost => "filtering-host",
            Measurement::FilteringNet => "filtering-net",
            Measurement::FilteringTerms => "filtering-terms",
            Measurement::FilteringFlags => "filtering-flags",
            Measurement::FilteringHosts => "filtering-hosts",
            Measurement::Verdicts => "verdicts",
            Measurement::Summing => "summing",
        }
    }

    /// Number of items in one round of this measurement: frames, IP packets, decoded or sliced frames, as the measurement
    /// uses them.
    pub fn count(&self, corpus: &Corpus<'_>) -> usize {
        match self {
            Measurement::Slicing
            | Measurement::SlicingNotInlined
            | Measurement::Filling
            | Measurement::LaxFilling
            | Measurement::Decoding
            | Measurement::Rereading
            | Measurement::Reassembly
            | Measurement::Bounded
            | Measurement::BoundedByDefault => corpus.frames.len(),
            Measurement::SlicingIpv4 | Measurement::ReadingIpHeaders => corpus.ip_packets.len(),
            Measurement::Building
            | Measurement::BuildingFromAddresses
            | Measurement::BuildingWithSize => corpus.frame_parts.len(),
            Measurement::FilteringPort
            | Measurement::FilteringHost
            | Measurement::FilteringNet
            | Measurement::FilteringTerms
            | Measurement::FilteringFlags
            | Measurement::FilteringHosts
            | Measurement::Verdicts
            | Measurement::Summing => corpus.sliced_frames.len(),
        }
    }

    /// Makes one round of this measurement over the input, and returns the sum of the numbers computed from the results
    /// of its calls.
    fn round(&self, alloc: Global, corpus: &Corpus<'_>) -> Result<u64, BenchError> {
        match self {
            Measurement::Slicing => Ok(total::<Slicing>(corpus.frames.as_slice())),
            Measurement::SlicingNotInlined => Ok(total::<SlicingNotInlined>(
                corpus.frames.as_slice(),
            )),
            Measurement::Filling => Ok(total::<Filling>(corpus.frames.as_slice())),
            Measurement::LaxFilling => Ok(total::<LaxFilling>(corpus.frames.as_slice())),
            Measurement::Decoding => Ok(total::<Decoding>(corpus.frames.as_slice())),
            Measurement::Rereading => Ok(total::<Rereading>(corpus.frames.as_slice())),
            Measurement::SlicingIpv4 => Ok(total::<SlicingIpv4>(corpus.ip_packets.as_slice())),
            Measurement::ReadingIpHeaders => Ok(total::<ReadingIpHeaders>(
                corpus.ip_packets.as_slice(),
            )),
            Measurement::Building => built::<FromHeaders>(alloc, corpus.frame_parts.as_slice()),
            Measurement::BuildingFromAddresses => {
                built::<FromAddresses>(alloc, corpus.frame_parts.as_slice())
            }
            Measurement::BuildingWithSize => built_with_size(alloc, corpus.frame_parts.as_slice()),
            Measurement::Reassembly => reassembled_len(alloc, corpus.frames.as_slice()),
            Measurement::Bounded => bounded_len(alloc, unlimited(), corpus.frames.as_slice()),
            Measurement::BoundedByDefault => {
                bounded_len(alloc, DefragLimits::default(), corpus.frames.as_slice())
            }
            Measurement::FilteringPort => Ok(corpus.matched(&corpus.filters.port)),
            Measurement::FilteringHost => Ok(corpus.matched(&corpus.filters.host)),
            Measurement::FilteringNet => Ok(corpus.matched(&corpus.filters.net)),
            Measurement::FilteringTerms => Ok(corpus.matched(&corpus.filters.terms)),
            Measurement::FilteringFlags => Ok(corpus.matched(&corpus.filters.flags)),
            Measurement::FilteringHosts => Ok(corpus.matched(&corpus.filters.hosts)),
            Measurement::Verdicts => Ok(valid_checksums(corpus.sliced_frames.as_slice())),
            Measurement::Summing => Ok(summed(corpus.sliced_frames.as_slice())),
        }
    }
}

/// Result of one measurement of the benchmark program.
#[derive(Drop)]
pub struct Measured {
    /// Number of timed rounds over the input that the measurement made.
    pub rounds: u64,
    /// Duration of all timed rounds of the measurement together, in nanoseconds.
    pub nanos: u64,
    /// Sum of the numbers computed from the results of the measured calls in one round; equal in all rounds.
    pub sum: u64,
}

/// Duration in nanoseconds (one second) after which a measurement starts no further round, if the argument ROUNDS is
/// not given.
const LONG_ENOUGH: u64 = 1_000_000_000;

/// Makes one round of a measurement without timing it, and then `rounds` timed rounds or, if `None`, rounds until a
/// second has passed. Returns an error if a round's sum differs from that of the first round.
pub fn measure<C: Clock>(
    clock: &C,
    alloc: Global,
    measurement: Measurement,
    corpus: &Corpus<'_>,
    rounds: Option<u64>,
) -> Result<Measured, BenchError> {
    let sum = measurement.round(alloc, corpus)?;
    let most = rounds.unwrap_or(u64::MAX);
    let Ok(start) = Instant::now(clock) else {
        return Err(BenchError::Clock);
    };
    let mut nanos: u64 = 0;
    for made in 0..most {
        if rounds.is_none() && nanos >= LONG_ENOUGH {
            return Ok(Measured {
                rounds: made,
                nanos,
                sum,
            });
        }
        if measurement.round(alloc, corpus)? != sum {
            return Err(BenchError::Unsteady);
        }
        let Ok(taken) = start.elapsed(clock) else {
            return Err(BenchError::Clock);
        };
        nanos = u64::try_from(taken.as_nanos()).unwrap_or(u64::MAX);
    }
    Ok(Measured {
        rounds: most,
        nanos,
        sum,
    })
}

/// Returns the mean time of a measured call in tenths of a nanosecond, rounded down: the duration `nanos` divided by
/// the number of calls, `count`.
pub fn mean_tenths(nanos: u64, count: u64) -> u64
    requires { 0 < count }
    ensures { nanos * 10 < 2 ^ 64 → result ≡ nanos * 10 / count }
{
    nanos.saturating_mul(10) / count
}
