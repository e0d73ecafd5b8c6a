//! Addresses of packets that a filter searches for.

ghost use Rattle.std.specs.Prelude.{◌≡◌, [], ◌∷◌};
ghost use Rattle.ep_lax.specs.LaxSlices.{lax_ipv4_slice_header, lax_ipv6_slice_header};
ghost use Rattle.ep_lax.specs.LaxViews.{lax_net_layer_of};
ghost use Rattle.ep_link.specs.ArpSlices.{arp_slice_packet};
ghost use Rattle.packet_filter.specs.Meaning.{at_side_of};
ghost use Rattle.packet_filter.specs.Packets.{addresses_of, arp_addresses, is_for_ipv4};

use ep_lax::{LaxIpv4Slice, LaxIpv6Slice, LaxNetSlice};
use ep_link::ArpPacketSlice;
use filter_tokens::network::Network;
use filter_tokens::primitive::{AddressLayer, Side};

/// Set of addresses: a network, or a set of hosts.
pub(crate) trait HasAddress {
    ghost use Rattle.std.specs.Prelude.{◌≡◌, ℕ, Bool, List};

    ghost holds: { Self → List ℕ → Bool };

    /// Returns true if the set contains an address, given by its bytes.
    fn has(&self, address: &[u8]) -> bool
        ensures { result ≡ holds self.now address.now };
}

impl HasAddress for Network {
    ghost use Rattle.filter_tokens.specs.Networks.{is_within};

    ghost holds = { is_within };

    #[inline(always)]
    fn has(&self, address: &[u8]) -> bool {
        self.contains(address)
    }
}

/// Returns true if the source, the destination, one or both addresses of a network layer are in a set.
pub(crate) fn has_address<A: HasAddress>(
    layer: AddressLayer,
    side: Side,
    addresses: &A,
    net: &LaxNetSlice<'_>,
) -> bool
    ensures { result
        ≡ at_side_of side (A.holds addresses.now) (addresses_of layer (lax_net_layer_of net.now)) }
{
    match (layer, net) {
        (AddressLayer::Any | AddressLayer::Ipv4, LaxNetSlice::Ipv4(packet)) => {
            has_ipv4_address(side, addresses, packet)
        }
        (AddressLayer::Any | AddressLayer::Ipv6, LaxNetSlice::Ipv6(packet)) => {
            has_ipv6_address(side, addresses, packet)
        }
        (AddressLayer::Any | AddressLayer::Arp, LaxNetSlice::Arp(packet)) => {
            has_arp_address(side, addresses, packet)
        }
        _ => false,
    }
}

/// Returns true if the source, the destination, one or both addresses of an IPv4 packet are in a set.
fn has_ipv4_address<A: HasAddress>(side: Side, addresses: &A, packet: &LaxIpv4Slice<'_>) -> bool
    ensures { let header = lax_ipv4_slice_header packet.now in result
        ≡ at_side_of side (A.holds addresses.now) (header.source ∷ header.destination ∷ []) }
{
    let header = packet.header();
    is_at_side(side, addresses, &header.source(), &header.destination())
}

/// Returns true if the source, the destination, one or both addresses of an IPv6 packet are in a set.
fn has_ipv6_address<A: HasAddress>(side: Side, addresses: &A, packet: &LaxIpv6Slice<'_>) -> bool
    ensures { let header = lax_ipv6_slice_header packet.now in result
        ≡ at_side_of side (A.holds addresses.now) (header.source ∷ header.destination ∷ []) }
{
    let header = packet.header();
    is_at_side(side, addresses, &header.source(), &header.destination())
}

/// Returns true if the sender, the target, one or both addresses of an ARP packet for IPv4 are in a set.
fn has_arp_address<A: HasAddress>(side: Side, addresses: &A, packet: &ArpPacketSlice<'_>) -> bool
    ensures { result
        ≡ at_side_of side (A.holds addresses.now) (arp_addresses (arp_slice_packet packet.now)) }
{
    is_for_ipv4(packet)
        && is_at_side(
            side,
            addresses,
            packet.sender_protocol_addr(),
            packet.target_protocol_addr(),
        )
}

/// Returns true if the protocol addresses of an ARP packet are IPv4 addresses: ether type 0x0800 and 4 bytes.
fn is_for_ipv4(packet: &ArpPacketSlice<'_>) -> bool
    ensures { result ≡ is_for_ipv4 (arp_slice_packet packet.now) }
{
    packet.proto_addr_type().0 == 0x0800 && packet.protocol_addr_size() == 4
}

/// Returns true if the source, the destination, one or both of two addresses are in a set.
fn is_at_side<A: HasAddress>(side: Side, addresses: &A, source: &[u8], destination: &[u8]) -> bool
    ensures { result ≡ at_side_of side (A.holds addresses.now) (source.now ∷ destination.now ∷ []) }
{
    match side {
        Side::Source => addresses.has(source),
        Side::Destination => addresses.has(destination),
        Side::Either => addresses.has(source) || addresses.has(destination),
        Side::Both => addresses.has(source) && addresses.has(destination),
    }
}
