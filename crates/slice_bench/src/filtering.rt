//! Measured filters, and the packets that they are matched against, which are sliced before.

ghost use Rattle.std.specs.Prelude.{◌≡◌, IfErr};

use crate::bench_error::BenchError;
use etherparse::LaxSlicedPacket;
use packet_filter::Filter;
use std::alloc::Global;

/// Frame that was sliced before filters are matched against it.
#[derive(Drop)]
pub struct SlicedFrame<'a> {
    /// Bytes of the frame.
    bytes: &'a [u8],
    /// Layers of the frame.
    pub packet: LaxSlicedPacket<'a>,
}

/// Filters that are measured.
#[derive(Drop)]
pub struct Filters {
    /// A port: `port 53`.
    pub port: Filter,
    /// A host: `host 192.168.1.1`.
    pub host: Filter,
    /// A network: `net 192.168.0.0/16`.
    pub net: Filter,
    /// Six terms that are joined by `or`.
    pub terms: Filter,
    /// TCP flags: `tcp[tcpflags] & (tcp-syn|tcp-fin) != 0`.
    pub flags: Filter,
    /// 100 hosts that are joined by `or`.
    pub hosts: Filter,
}

impl Filters {
    /// Parses the filters that are measured.
    pub fn new(alloc: Global) -> Result<Filters, BenchError>
        ensures err { IfErr result (λ error. error ≡ BenchError.OutOfMemory) }
    {
        Ok(Filters {
            port: parse_filter(alloc, "port 53")?,
            host: parse_filter(alloc, "host 192.168.1.1")?,
            net: parse_filter(alloc, "net 192.168.0.0/16")?,
            terms: parse_filter(
                alloc,
                "tcp port 443 or udp port 53 or icmp or arp or host 10.0.0.1 or vlan",
            )?,
            flags: parse_filter(alloc, "tcp[tcpflags] & (tcp-syn|tcp-fin) != 0")?,
            hosts: hosts_filter(alloc)?,
        })
    }
}

/// Parses a filter. The expressions of the benchmark are valid, so only a failed allocation is an error.
fn parse_filter(alloc: Global, expression: &str) -> Result<Filter, BenchError>
    ensures err { IfErr result (λ error. error ≡ BenchError.OutOfMemory) }
{
    Filter::parse(alloc, expression).map_err(|_| BenchError::OutOfMemory)
}

/// Parses the filter of 100 hosts, `host 10.9.0.1 or host 10.9.1.2` to `host 10.9.99.100`.
fn hosts_filter(alloc: Global) -> Result<Filter, BenchError>
    ensures err { IfErr result (λ error. error ≡ BenchError.OutOfMemory) }
{
    let mut text = format!(in alloc; "host 10.9.0.1")?;
    for index in 1..100u8 {
        let host = format!(in alloc; " or host 10.9.{}.{}", index, index + 1)?;
        text.push_str(host.as_str())?;
    }
    parse_filter(alloc, text.as_str())
}

/// Slices each Ethernet frame laxly, in the order of the frames. Frames that lax slicing rejects are omitted.
pub fn sliced_frames_of<'a>(
    alloc: Global,
    frames: &[&'a [u8]],
) -> Result<Vec<SlicedFrame<'a>>, BenchError>
    ensures err { IfErr result (λ error. error ≡ BenchError.OutOfMemory) }
{
    let mut all = Vec::new(alloc);
    for frame in frames {
        if let Ok(packet) = LaxSlicedPacket::from_ethernet(frame) {
            let sliced = SlicedFrame {
                bytes: frame,
                packet,
            };
            let Ok(()) = all.push(sliced) else {
                return Err(BenchError::OutOfMemory);
            };
        }
    }
    Ok(all)
}

/// Returns the number of sliced frames that a filter matches.
pub fn matched(frames: &[SlicedFrame<'_>], filter: &Filter) -> u64 {
    let mut count: u64 = 0;
    for frame in frames {
        let wire_len = u32::try_from(frame.bytes.len()).unwrap_or(u32::MAX);
        if filter.matches(&frame.packet, frame.bytes, wire_len) {
            count = count.wrapping_add(1);
        }
    }
    count
}
