//! Fields of packets that the primitives of a filter are about.

ghost use Rattle.std.specs.Prelude.{◌≡◌, ◌<◌, ◌≤◌, ◌^◌};
ghost use Rattle.std.specs.List.{list_any};
ghost use Rattle.ep_lax.specs.LaxPackets.{lax_layers_of};
ghost use Rattle.ep_lax.specs.LaxViews.{lax_extension_of};
ghost use Rattle.packet_filter.specs.Meaning.{has_port_at, has_ports, has_relation, is_vlan, number_at};
ghost use Rattle.packet_filter.specs.Packets.{tags_in};

use crate::subject::SCTP;
use ep_base::bytes::{byte_at, long_at, word_at};
use ep_base::{IpNumber, VlanId};
use ep_lax::{LaxLinkExtSlice, LaxSlicedPacket};
use filter_tokens::primitive::{PortProtocol, Relation, Width};

/// Returns true if this is the IP number of a transport protocol, or of one with ports.
pub(crate) fn has_ports(protocol: PortProtocol, number: IpNumber) -> bool
    ensures { result ≡ has_ports protocol number.0 }
{
    let number = number.0;
    match protocol {
        PortProtocol::Any => {
            number == IpNumber::TCP.0 || number == IpNumber::UDP.0 || number == SCTP.0
        }
        PortProtocol::Tcp => number == IpNumber::TCP.0,
        PortProtocol::Udp => number == IpNumber::UDP.0,
        PortProtocol::Sctp => number == SCTP.0,
    }
}

/// Returns true if the port at an offset of a transport header is present and from `low` to `high`.
pub(crate) fn has_port_at(at: usize, low: u16, high: u16, bytes: &[u8]) -> bool
    requires { at ≤ 2 }
    ensures { result ≡ has_port_at at low high bytes.now }
{
    if at + 1 < bytes.len() {
        let port = word_at(bytes, at);
        low <= port && port <= high
    } else {
        false
    }
}

/// Returns true if a VLAN tag of a packet has this identifier, or for `None` if there is a VLAN tag.
#[tactic(auto, using(crate::proofs::TagLemmas::any_of_tags))]
pub(crate) fn has_vlan(id: &Option<VlanId>, packet: &LaxSlicedPacket<'_>) -> bool
    ensures { result ≡ list_any (is_vlan id.now) (tags_in (lax_layers_of packet.now)) }
{
    has_vlan_tag(id, packet.link_exts.as_slice())
}

/// Returns true if one of these link extensions is a VLAN tag, with this identifier if one is given.
fn has_vlan_tag(id: &Option<VlanId>, extensions: &[LaxLinkExtSlice<'_>]) -> bool
    ensures { result ≡ list_any (λ extension. is_vlan id.now (lax_extension_of extension)) extensions.now }
{
    extensions.iter().any(|extension| is_vlan(id, extension))
}

/// Returns true if a link extension is a VLAN tag, with this identifier if one is given.
fn is_vlan(id: &Option<VlanId>, extension: &LaxLinkExtSlice<'_>) -> bool
    ensures { result ≡ is_vlan id.now (lax_extension_of extension.now) }
{
    match (extension, id) {
        (LaxLinkExtSlice::Vlan(tag), Some(id)) => tag.vlan_identifier().value() == id.value(),
        (LaxLinkExtSlice::Vlan(_), None) => true,
        (LaxLinkExtSlice::Macsec(_), _) => false,
    }
}

/// Returns the big-endian number at an offset, unless the bytes end before its end.
pub(crate) fn number_at(width: Width, at: usize, bytes: &[u8]) -> Option<u32>
    requires { at < 2 ^ 32 }
    ensures { result ≡ number_at width at bytes.now }
{
    match width {
        Width::One => {
            if at < bytes.len() {
                Some(u32::from(byte_at(bytes, at)))
            } else {
                None
            }
        }
        Width::Two => {
            if at + 1 < bytes.len() {
                Some(u32::from(word_at(bytes, at)))
            } else {
                None
            }
        }
        Width::Four => {
            if at + 3 < bytes.len() {
                Some(long_at(bytes, at))
            } else {
                None
            }
        }
    }
}

/// Returns true if two numbers have a relation.
pub(crate) fn has_relation(relation: Relation, a: u32, b: u32) -> bool
    ensures { result ≡ has_relation relation a b }
{
    match relation {
        Relation::Equal => a == b,
        Relation::NotEqual => a != b,
        Relation::Less => a < b,
        Relation::LessOrEqual => a <= b,
        Relation::Greater => a > b,
        Relation::GreaterOrEqual => a >= b,
    }
}
