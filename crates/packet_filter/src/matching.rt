//! Whether a primitive of a filter matches a packet.

ghost use Rattle.std.specs.Prelude.{◌≡◌, false, option_map};
ghost use Rattle.std.specs.Option.{option_map_or};
ghost use Rattle.ep_link.specs.LinkSlices.{link_layer_of};
ghost use Rattle.packet_filter.specs.Meaning.{at_side, has_port, has_station, matches_primitive, operand_of};
ghost use Rattle.packet_filter.specs.Shown.{shown_packet};

use crate::addresses::has_address;
use crate::fields::{has_port_at, has_ports, has_relation, has_vlan, number_at};
use crate::subject::{
    Subject, begins_payload, bytes_of, has_ether_type, has_ip_number, is_version,
};
use ep_link::LinkSlice;
use filter_tokens::primitive::{Operand, PortProtocol, Primitive, Side};

/// Returns true if a primitive matches a packet.
pub(crate) fn matches_primitive(primitive: &Primitive, subject: &Subject<'_, '_>) -> bool
    ensures { result ≡ matches_primitive primitive.now (shown_packet subject.now) }
{
    match primitive {
        Primitive::EtherType(ether_type) => has_ether_type(*ether_type, subject.packet),
        Primitive::Protocol(version, number) => match &subject.packet.net {
            Some(net) => is_version(*version, net) && has_ip_number(*number, net),
            None => false,
        },
        Primitive::Address(layer, side, network) => match &subject.packet.net {
            Some(net) => has_address(*layer, *side, network, net),
            None => false,
        },
        Primitive::Station(side, station) => { has_station(*side, station, &subject.packet.link) }
        Primitive::Port(protocol, side, low, high) => {
            has_port(*protocol, *side, *low, *high, subject)
        }
        Primitive::Vlan(id) => has_vlan(id, subject.packet),
        Primitive::Number(operand, mask, relation, number) => {
            match operand_of(operand, subject) {
                Some(value) => has_relation(*relation, value & *mask, *number),
                None => false,
            }
        }
    }
}

/// Returns whether a condition holds of the source, the destination, one or both of them.
fn at_side(side: Side, source: bool, destination: bool) -> bool
    ensures { result ≡ at_side side source destination }
{
    match side {
        Side::Source => source,
        Side::Destination => destination,
        Side::Either => source || destination,
        Side::Both => source && destination,
    }
}

/// Returns true if the source, the destination, one or both addresses of an Ethernet II header equal an address.
fn has_station(side: Side, station: &[u8; 6], link: &Option<LinkSlice<'_>>) -> bool
    ensures { result ≡ has_station side station.now (option_map link_layer_of link.now) }
{
    match link {
        Some(LinkSlice::Ethernet2(frame)) => at_side(
            side,
            frame.source().as_slice() == station.as_slice(),
            frame.destination().as_slice() == station.as_slice(),
        ),
        _ => false,
    }
}

/// Returns true if the transport header of a packet is one of this protocol, and has a port from `low` to `high`.
#[inline(always)]
fn has_port(
    protocol: PortProtocol,
    side: Side,
    low: u16,
    high: u16,
    subject: &Subject<'_, '_>,
) -> bool
    ensures { result
        ≡ option_map_or (has_port protocol side low high) (shown_packet subject.now).transport false }
{
    match subject.payload() {
        Some(payload) => {
            has_ports(protocol, payload.ip_number)
                && begins_payload(subject)
                && at_side(
                    side,
                    has_port_at(0, low, high, payload.payload),
                    has_port_at(2, low, high, payload.payload),
                )
        }
        None => false,
    }
}

/// Returns the number that a comparison is about, if the packet has it.
fn operand_of(operand: &Operand, subject: &Subject<'_, '_>) -> Option<u32>
    ensures { result ≡ operand_of operand.now (shown_packet subject.now) }
{
    match operand {
        Operand::Length => Some(subject.wire_len),
        Operand::Bytes(layer, at, width) => match bytes_of(subject, *layer) {
            Some(bytes) => number_at(*width, *at as usize, bytes),
            None => None,
        },
    }
}
