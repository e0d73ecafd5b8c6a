//! Example program: counts the segments of each TCP flow. Each line of standard input is an Ethernet frame in
//! hexadecimal.
#![tactic(auto)]

ghost use Rattle.std.specs.Prelude.{◌≡◌, Ok};
ghost use Rattle.etherparse.specs.Types.Entry.TheVariants.{Ethernet as ethernet};
ghost use Rattle.etherparse.specs.Frame.{IsFrame};
ghost use Rattle.etherparse.specs.Layers.{Layers, layers_of};
ghost use Rattle.example_flows.specs.Flows.{Counts};

use etherparse::{Entry, NetSlice, SlicedPacket, TransportSlice};
use std::alloc::AllocError;
use std::collections::BTreeMap;
use std::io;
use std::net::SocketAddr;

/// Counts of each TCP flow. A flow is one direction of a connection: the source and the destination, each an IP address
/// and a port.
pub type Flows = BTreeMap<(SocketAddr, SocketAddr), Count>;

/// Counts of one TCP flow: segments, segments with the flag SYN, segments with the flag FIN, and bytes of TCP payload.
/// A count stops at `u64::MAX`.
#[derive(Clone, Copy, Debug, Default)]
pub struct Count {
    pub segments: u64,
    pub syn: u64,
    pub fin: u64,
    pub bytes: u64,
}

fn main(rt: HostRuntime) -> io::Result<()> {
    let mut flows = BTreeMap::new(rt.alloc());
    for line in rt.lines(rt.alloc()) {
        if let Ok(frame) = hex::decode(rt.alloc(), line?.as_str()) {
            add_segment(&mut flows, frame.as_slice())?;
        }
    }
    for ((source, destination), seen) in flows.iter() {
        println!(rt; "{source} > {destination}: {seen:?}")?;
    }
    Ok(())
}

/// Adds the TCP segment in an Ethernet frame to the counts of its flow. Bytes that are not a frame, and frames without
/// a TCP segment, change nothing. Allocates for a new flow; if the allocation fails, the counts are unchanged.
pub fn add_segment(flows: &mut Flows, frame: &[u8]) -> Result<(), AllocError>
    ensures frames { (layers : Layers) → IsFrame ethernet frame.now layers
        → Counts ⟦<(SocketAddr, SocketAddr) as Ord>⟧.cmp layers flows.old flows.new result }
    ensures others { ((layers : Layers) → ¬ IsFrame ethernet frame.now layers) →
        (flows.new ≡ flows.old) × (result ≡ Ok tt) }
{
    let mut packet = SlicedPacket::new();
    match packet.slice_into(Entry::Ethernet, frame) {
        Ok(()) => add_packet(flows, &packet),
        Err(_) => Ok(()),
    }
}

/// Adds the TCP segment of a sliced packet to the counts of its flow. A packet without TCP over IPv4 or IPv6 changes
/// nothing.
fn add_packet(flows: &mut Flows, packet: &SlicedPacket<'_>) -> Result<(), AllocError>
    ensures { Counts ⟦<(SocketAddr, SocketAddr) as Ord>⟧.cmp (layers_of packet.now) flows.old flows.new result }
{
    let Some(TransportSlice::Tcp(tcp)) = &packet.transport else {
        return Ok(());
    };
    let flow = match &packet.net {
        Some(NetSlice::Ipv4(ip)) => (
            SocketAddr::from((ip.header().source(), tcp.source_port())),
            SocketAddr::from((ip.header().destination(), tcp.destination_port())),
        ),
        Some(NetSlice::Ipv6(ip)) => (
            SocketAddr::from((ip.header().source(), tcp.source_port())),
            SocketAddr::from((ip.header().destination(), tcp.destination_port())),
        ),
        _ => return Ok(()),
    };
    let before = flows.get(&flow).copied().unwrap_or_default();
    let seen = Count {
        segments: before.segments.saturating_add(1),
        syn: before.syn.saturating_add(u64::from(tcp.syn())),
        fin: before.fin.saturating_add(u64::from(tcp.fin())),
        bytes: before.bytes.saturating_add(tcp.payload().len() as u64),
    };
    flows.insert(flow, seen)?;
    Ok(())
}
