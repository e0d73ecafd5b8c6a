//! Texts of the fields of a packet besides the addresses, ports and lengths of its layers.

ghost use Rattle.std.specs.Prelude.{◌≡◌, ◌++◌, ℕ, List, OnOk};
ghost use Rattle.packet_text.specs.PacketDetails.{IsPacketDetails, IsTransportDetails, net_details};
ghost use Rattle.packet_text.specs.PacketDetails.{net_layer_details, tag_details, tags_details};

use crate::checksums::{push_header_checksum, push_transport_checksum};
use crate::header_details::{push_ipv4_details, push_ipv6_details, push_vlan_details};
use crate::tcp_details::push_tcp_details;
use etherparse::{LaxLinkExtSlice, LaxNetSlice, LaxSlicedPacket, TransportSlice};
use std::alloc::AllocError;

/// Appends the details of each layer of a packet as text (VLAN priority, TTL, TCP options ..), from the outermost in,
/// with whether the checksums of the IPv4 header and of the transport layer are valid.
pub fn push_details(output: &mut Vec<u8>, packet: &LaxSlicedPacket<'_>) -> Result<(), AllocError>
    ensures { OnOk result ((text : List ℕ) × IsPacketDetails packet.now text
        × (output.new.items ≡ output.old.items ++ text)) }
{
    let verdicts = packet.checksums();
    push_tags_details(output, packet.link_exts.as_slice())?;
    push_net_details(output, &packet.net)?;
    push_header_checksum(output, verdicts.ipv4_header)?;
    push_transport_details(output, &packet.transport)?;
    push_transport_checksum(output, &packet.transport, verdicts.transport)
}

/// Appends the details of each link extension as text: the priorities of VLAN tags.
fn push_tags_details(
    output: &mut Vec<u8>,
    extensions: &[LaxLinkExtSlice<'_>],
) -> Result<(), AllocError>
    ensures { OnOk result (output.new.items ≡ output.old.items ++ tags_details extensions.now) }
{
    for extension in extensions {
        push_tag_details(output, extension)?;
    }
    Ok(())
}

/// Appends the details of a link extension as text: priority and drop eligible indicator of a VLAN tag, nothing for
/// MACsec.
fn push_tag_details(output: &mut Vec<u8>, extension: &LaxLinkExtSlice<'_>) -> Result<(), AllocError>
    ensures { OnOk result (output.new.items ≡ output.old.items ++ tag_details extension.now) }
{
    match extension {
        LaxLinkExtSlice::Vlan(tag) => push_vlan_details(output, tag),
        LaxLinkExtSlice::Macsec(_) => Ok(()),
    }
}

/// Appends the details of the network layer as text (such as the TTL); nothing without a network layer.
fn push_net_details(output: &mut Vec<u8>, net: &Option<LaxNetSlice<'_>>) -> Result<(), AllocError>
    ensures { OnOk result (output.new.items ≡ output.old.items ++ net_details net.now) }
{
    match net {
        Some(layer) => push_net_layer(output, layer),
        None => Ok(()),
    }
}

/// Appends the details of a network layer as text: fields of the IPv4 or IPv6 header, nothing for ARP.
fn push_net_layer(output: &mut Vec<u8>, layer: &LaxNetSlice<'_>) -> Result<(), AllocError>
    ensures { OnOk result (output.new.items ≡ output.old.items ++ net_layer_details layer.now) }
{
    match layer {
        LaxNetSlice::Ipv4(packet) => push_ipv4_details(output, &packet.header()),
        LaxNetSlice::Ipv6(packet) => push_ipv6_details(output, &packet.header()),
        LaxNetSlice::Arp(_) => Ok(()),
    }
}

/// Appends the details of the transport layer as text: window and options of TCP, nothing for other protocols.
fn push_transport_details(
    output: &mut Vec<u8>,
    transport: &Option<TransportSlice<'_>>,
) -> Result<(), AllocError>
    ensures { OnOk result ((text : List ℕ) × IsTransportDetails transport.now text
        × (output.new.items ≡ output.old.items ++ text)) }
{
    match transport {
        Some(TransportSlice::Tcp(segment)) => push_tcp_details(output, segment),
        Some(TransportSlice::Udp(_) | TransportSlice::Icmpv4(_) | TransportSlice::Icmpv6(_))
        | None => Ok(()),
    }
}
