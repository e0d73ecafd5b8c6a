//! Example program: prints the Ethernet frames that carry UDP from or to port 53 and have a tag of VLAN 5. Each line of
//! standard input is a frame in hexadecimal.
#![tactic(auto)]

ghost use Rattle.std.specs.Prelude.{◌≡◌, ◌↔◌, IsTrue};
ghost use Rattle.etherparse.specs.Types.Entry.TheVariants.{Ethernet as ethernet};
ghost use Rattle.etherparse.specs.Frame.{IsFrame};
ghost use Rattle.etherparse.specs.Layers.{Layers, layers_of};
ghost use Rattle.example_filter.specs.Wanted.{is_wanted};

use etherparse::{Entry, SlicedPacket, TransportSlice, VlanId};
use std::io;

fn main(rt: HostRuntime) -> io::Result<()> {
    let vlan = VlanId::try_new(5).unwrap();
    for line in rt.lines(rt.alloc()) {
        let line = line?;
        match hex::decode(rt.alloc(), line.as_str()) {
            Ok(frame) if keeps(frame.as_slice(), vlan, 53) => println!(rt; "{line}")?,
            _ => {}
        }
    }
    Ok(())
}

/// Returns true if the bytes are an Ethernet frame that carries UDP from or to the given port and has a tag of the
/// given VLAN. Returns false for any other frame, and for bytes that are not a frame.
pub fn keeps(frame: &[u8], vlan: VlanId, port: u16) -> bool
    ensures { IsTrue result ↔ ((layers : Layers) × IsFrame ethernet frame.now layers
        × IsTrue (is_wanted vlan port layers)) }
{
    let mut packet = SlicedPacket::new();
    match packet.slice_into(Entry::Ethernet, frame) {
        Ok(()) => wants(&packet, vlan, port),
        Err(_) => false,
    }
}

/// Returns true if the sliced packet carries UDP from or to the given port and has a tag of the given VLAN.
fn wants(packet: &SlicedPacket<'_>, vlan: VlanId, port: u16) -> bool
    ensures { result ≡ is_wanted vlan port (layers_of packet.now) }
{
    match &packet.transport {
        Some(TransportSlice::Udp(udp)) => {
            (udp.source_port() == port || udp.destination_port() == port)
                && packet.vlan_ids().as_slice().contains(&vlan)
        }
        _ => false,
    }
}
