//! Formatting of network layers (IPv4, IPv6 and ARP) as text of a packet's line.

ghost use Rattle.std.specs.Prelude.{◌≡◌, ◌++◌, OnOk, Some};
ghost use Rattle.std.specs.Option.{option_map};
ghost use Rattle.etherparse.specs.Ipv4Chains.{ipv4_slice_parts};
ghost use Rattle.etherparse.specs.Ipv6ExtensionSlices.{extension_slice_part, ipv6_slice_parts};
ghost use Rattle.etherparse.specs.Ipv4Slices.{ipv4_header_slice_header};
ghost use Rattle.etherparse.specs.Ipv6Slices.{ipv6_header_slice_header};
ghost use Rattle.etherparse.specs.ArpSlices.{arp_slice_packet};
ghost use Rattle.etherparse.specs.LaxViews.{lax_net_layer_of};
ghost use Rattle.etherparse.specs.Types.LaxNetSlice.TheVariants as slice;
ghost use Rattle.packet_text.specs.Networks.{arp_text, fragment_text, ipv4_fragment_text, ipv4_header_text, ipv6_header_text};
ghost use Rattle.packet_text.specs.Networks.{more_text, net_text, part_text, parts_text, protocol_address_text};
ghost use Rattle.packet_text.specs.Networks.{operation_text, reply_text, who_has_text};

use crate::addresses::{push_ipv4, push_ipv6, push_octets};
use etherparse::{
    ArpPacketSlice, Ipv4ExtensionsSlice, Ipv4HeaderSlice, Ipv6ExtensionSlice, Ipv6ExtensionsSlice,
    Ipv6HeaderSlice, LaxIpv4Slice, LaxIpv6Slice, LaxNetSlice,
};
use line_io::decimals;
use std::alloc::AllocError;

/// Appends the text of a network layer: IP with its addresses, fragment fields and extension headers, or ARP; nothing
/// if there is none.
pub fn push_net(output: &mut Vec<u8>, net: &Option<LaxNetSlice<'_>>) -> Result<(), AllocError>
    ensures { OnOk result (output.new.items ≡ output.old.items ++ net_text (option_map lax_net_layer_of net.now)) }
{
    match net {
        Some(LaxNetSlice::Ipv4(packet)) => push_ipv4_layer(output, packet),
        Some(LaxNetSlice::Ipv6(packet)) => push_ipv6_layer(output, packet),
        Some(LaxNetSlice::Arp(packet)) => push_arp(output, packet),
        None => Ok(()),
    }
}

/// Appends the text of an IPv4 header and its authentication header: addresses, fragment fields and `authentication`.
fn push_ipv4_layer(output: &mut Vec<u8>, packet: &LaxIpv4Slice<'_>) -> Result<(), AllocError>
    ensures { OnOk result (output.new.items
        ≡ output.old.items ++ net_text (Some (lax_net_layer_of (slice.Ipv4 packet.now)))) }
{
    push_ipv4_header(output, &packet.header())?;
    push_ipv4_extensions(output, &packet.extensions())
}

/// Appends the text of an IPv4 header: its addresses and its fragment fields.
fn push_ipv4_header(output: &mut Vec<u8>, header: &Ipv4HeaderSlice<'_>) -> Result<(), AllocError>
    ensures { OnOk result (output.new.items
        ≡ output.old.items ++ ipv4_header_text (ipv4_header_slice_header header.now)) }
{
    output.extend_from_slice(b" ipv4 ")?;
    push_ipv4(output, header.source())?;
    output.extend_from_slice(b" > ")?;
    push_ipv4(output, header.destination())?;
    push_ipv4_fragment(output, header)
}

/// Appends the identification, offset and "more fragments" flag of an IPv4 header, if the packet is a fragment.
fn push_ipv4_fragment(output: &mut Vec<u8>, header: &Ipv4HeaderSlice<'_>) -> Result<(), AllocError>
    ensures { OnOk result (output.new.items
        ≡ output.old.items ++ ipv4_fragment_text (ipv4_header_slice_header header.now)) }
{
    if !header.is_fragmenting_payload() {
        return Ok(());
    }
    push_fragment(
        output,
        u32::from(header.identification()),
        header.fragment_offset().value(),
        header.more_fragments(),
    )
}

/// Appends the text of a fragment's fields: its identification, its offset in bytes (passed in units of 8 bytes), and
/// whether more fragments follow.
fn push_fragment(
    output: &mut Vec<u8>,
    identification: u32,
    offset: u16,
    more: bool,
) -> Result<(), AllocError>
    ensures { OnOk result (output.new.items ≡ output.old.items ++ fragment_text identification offset more) }
{
    decimals::push_with_text(output, b" fragment id ", u64::from(identification))?;
    decimals::push_with_text(output, b" offset ", 8 * u64::from(offset))?;
    push_more(output, more)
}

/// Appends ` more` if the flag "more fragments" of a fragment is set.
fn push_more(output: &mut Vec<u8>, more: bool) -> Result<(), AllocError>
    ensures { OnOk result (output.new.items ≡ output.old.items ++ more_text more) }
{
    if more {
        output.extend_from_slice(b" more")?;
    }
    Ok(())
}

/// Appends ` authentication` if an authentication header follows the IPv4 header.
fn push_ipv4_extensions(
    output: &mut Vec<u8>,
    extensions: &Ipv4ExtensionsSlice<'_>,
) -> Result<(), AllocError>
    ensures { OnOk result (output.new.items ≡ output.old.items ++ parts_text (ipv4_slice_parts extensions.now)) }
{
    match &extensions.auth {
        Some(_) => output.extend_from_slice(b" authentication"),
        None => Ok(()),
    }
}

/// Appends the text of an IPv6 header and its extension headers: addresses, fragment fields and the names of the
/// others.
fn push_ipv6_layer(output: &mut Vec<u8>, packet: &LaxIpv6Slice<'_>) -> Result<(), AllocError>
    ensures { OnOk result (output.new.items
        ≡ output.old.items ++ net_text (Some (lax_net_layer_of (slice.Ipv6 packet.now)))) }
{
    push_ipv6_header(output, &packet.header())?;
    push_ipv6_extensions(output, packet.extensions())
}

/// Appends the text of an IPv6 header: its source and destination address.
fn push_ipv6_header(output: &mut Vec<u8>, header: &Ipv6HeaderSlice<'_>) -> Result<(), AllocError>
    ensures { OnOk result (output.new.items
        ≡ output.old.items ++ ipv6_header_text (ipv6_header_slice_header header.now)) }
{
    output.extend_from_slice(b" ipv6 ")?;
    push_ipv6(output, header.source())?;
    output.extend_from_slice(b" > ")?;
    push_ipv6(output, header.destination())
}

/// Appends the text of each IPv6 extension header: its name, or the fields of a fragment header.
fn push_ipv6_extensions(
    output: &mut Vec<u8>,
    extensions: Ipv6ExtensionsSlice<'_>,
) -> Result<(), AllocError>
    ensures { OnOk result (output.new.items ≡ output.old.items ++ parts_text (ipv6_slice_parts extensions.entry)) }
{
    for extension in extensions {
        push_ipv6_extension(output, &extension)?;
    }
    Ok(())
}

/// Appends the text of an IPv6 extension header: its name, or the fields of a fragment header.
fn push_ipv6_extension(
    output: &mut Vec<u8>,
    extension: &Ipv6ExtensionSlice<'_>,
) -> Result<(), AllocError>
    ensures { OnOk result (output.new.items ≡ output.old.items ++ part_text (extension_slice_part extension.now)) }
{
    match extension {
        Ipv6ExtensionSlice::HopByHop(_) => output.extend_from_slice(b" hop-by-hop"),
        Ipv6ExtensionSlice::Routing(_) => output.extend_from_slice(b" routing"),
        Ipv6ExtensionSlice::Fragment(header) => push_fragment(
            output,
            header.identification(),
            header.fragment_offset().value(),
            header.more_fragments(),
        ),
        Ipv6ExtensionSlice::DestinationOptions(_) => {
            output.extend_from_slice(b" destination-options")
        }
        Ipv6ExtensionSlice::Authentication(_) => output.extend_from_slice(b" authentication"),
    }
}

/// Appends the text of an ARP packet: target and sender protocol address of a request, sender addresses of a reply, or
/// the number of another operation.
fn push_arp(output: &mut Vec<u8>, packet: &ArpPacketSlice<'_>) -> Result<(), AllocError>
    ensures { OnOk result (output.new.items ≡ output.old.items ++ arp_text (arp_slice_packet packet.now)) }
{
    push_operation(output, packet.operation().0, packet)
}

/// Appends the text of an ARP request (operation 1) or reply (2), or the number of another operation.
fn push_operation(
    output: &mut Vec<u8>,
    operation: u16,
    packet: &ArpPacketSlice<'_>,
) -> Result<(), AllocError>
    ensures { OnOk result (output.new.items
        ≡ output.old.items ++ operation_text operation (arp_slice_packet packet.now)) }
{
    if operation == 1 {
        return push_who_has(output, packet);
    }
    if operation == 2 {
        return push_reply(output, packet);
    }
    decimals::push_with_text(output, b" arp operation ", u64::from(operation))
}

/// Appends the text of an ARP request: the target protocol address, and the sender protocol address.
fn push_who_has(output: &mut Vec<u8>, packet: &ArpPacketSlice<'_>) -> Result<(), AllocError>
    ensures { OnOk result (output.new.items ≡ output.old.items ++ who_has_text (arp_slice_packet packet.now)) }
{
    let ether_type = packet.proto_addr_type().0;
    output.extend_from_slice(b" arp who-has ")?;
    push_protocol_address(output, ether_type, packet.target_protocol_addr())?;
    output.extend_from_slice(b" tell ")?;
    push_protocol_address(output, ether_type, packet.sender_protocol_addr())
}

/// Appends the text of an ARP reply: the sender protocol address, and the sender hardware address.
#[tactic(auto, unfolding(crate::specs::Networks::reply_text))]
fn push_reply(output: &mut Vec<u8>, packet: &ArpPacketSlice<'_>) -> Result<(), AllocError>
    ensures { OnOk result (output.new.items ≡ output.old.items ++ reply_text (arp_slice_packet packet.now)) }
{
    let ether_type = packet.proto_addr_type().0;
    output.extend_from_slice(b" arp reply ")?;
    push_protocol_address(output, ether_type, packet.sender_protocol_addr())?;
    output.extend_from_slice(b" is-at ")?;
    push_octets(output, packet.sender_hw_addr())
}

/// Appends a protocol address of an ARP packet: in dotted decimal if it is IPv4 (ether type 0x0800, 4 bytes), else its
/// bytes in hexadecimal.
fn push_protocol_address(
    output: &mut Vec<u8>,
    ether_type: u16,
    address: &[u8],
) -> Result<(), AllocError>
    ensures { OnOk result (output.new.items ≡ output.old.items ++ protocol_address_text ether_type address.now) }
{
    match address {
        [a, b, c, d] if ether_type == 0x0800 => push_ipv4(output, [*a, *b, *c, *d]),
        _ => push_octets(output, address),
    }
}
