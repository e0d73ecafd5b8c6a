//! Builds the frames of a request and of its answer, UDP datagrams over IPv4.

ghost use Rattle.std.specs.Prelude.{◌≡◌, None, option_map};
ghost use Rattle.etherparse.specs.AppendedFrames.{AppendsFrame};
ghost use Rattle.etherparse.specs.Frame.{IsFrame};
ghost use Rattle.etherparse.specs.Layers.{Layers, layers_of};
ghost use Rattle.etherparse.specs.Steps.{transport_step_frame};
ghost use Rattle.etherparse.specs.Types.Entry.TheVariants.{Ethernet as ethernet};
ghost use Rattle.etherparse.specs.Types.TransportHeader.TheVariants.{Udp};
ghost use Rattle.example_generators.specs.Requests.{AppendsIfSome, answer_to, request_headers};

use etherparse::err::packet::BuildWriteError;
use etherparse::{
    LinkSlice, NetSlice, PacketBuilder, PacketBuilderStep, SlicedPacket, TransportSlice, UdpHeader,
};

/// Builds the Ethernet frame of a request with this payload, a UDP datagram over IPv4 from port 4000 to port 53, and
/// appends it to the buffer.
pub fn write_request(payload: &[u8], buf: &mut Vec<u8>) -> Result<(), BuildWriteError>
    ensures { AppendsFrame request_headers payload.now buf.old buf.new result }
{
    PacketBuilder::ethernet2([2, 0, 0, 0, 0, 1], [2, 0, 0, 0, 0, 2])
        .ipv4([192, 0, 2, 1], [192, 0, 2, 2], 64)
        .udp(4000, 53)
        .write(buf, payload)
}

/// Builds the Ethernet frame of an answer with this payload, with the MAC addresses, IP addresses and ports of
/// `request` swapped, and appends it to `buf`. Returns `None` if `request` is not an Ethernet frame of a UDP datagram
/// over IPv4.
pub fn write_answer(
    request: &[u8],
    payload: &[u8],
    buf: &mut Vec<u8>,
) -> Option<Result<(), BuildWriteError>>
    ensures frames { (layers : Layers) → IsFrame ethernet request.now layers
        → AppendsIfSome (answer_to layers) payload.now buf.old buf.new result }
    ensures others { ((layers : Layers) → ¬ IsFrame ethernet request.now layers)
        → AppendsIfSome None payload.now buf.old buf.new result }
{
    match SlicedPacket::from_ethernet(request) {
        Ok(packet) => Some(answer_to(&packet)?.write(buf, payload)),
        Err(_) => None,
    }
}

/// Returns a packet builder with the headers of an answer to `packet`: its MAC addresses, IP addresses and ports are
/// swapped. Returns `None` if `packet` is not a UDP datagram over IPv4 in an Ethernet frame.
fn answer_to(packet: &SlicedPacket<'_>) -> Option<PacketBuilderStep<UdpHeader>>
    ensures { option_map (transport_step_frame Udp) result ≡ answer_to (layers_of packet.now) }
{
    let Some(LinkSlice::Ethernet2(link)) = &packet.link else {
        return None;
    };
    let Some(NetSlice::Ipv4(ip)) = &packet.net else {
        return None;
    };
    let Some(TransportSlice::Udp(udp)) = &packet.transport else {
        return None;
    };
    let answer = PacketBuilder::ethernet2(link.destination(), link.source())
        .ipv4(ip.header().destination(), ip.header().source(), 64)
        .udp(udp.destination_port(), udp.source_port());
    Some(answer)
}
