//! Formatting of the layers of a packet as text of its line.

ghost use Rattle.std.specs.Prelude.{◌≡◌, ◌++◌, OnOk, false, map};
ghost use Rattle.std.specs.Option.{option_copied, option_map};
ghost use Rattle.etherparse.specs.LaxPackets.{lax_layers_of};
ghost use Rattle.etherparse.specs.IpPayload.{lax_ip_payload_of};
ghost use Rattle.etherparse.specs.LaxViews.{lax_extensions_of, lax_net_layer_of};
ghost use Rattle.etherparse.specs.LinkSlices.{link_layer_of};
ghost use Rattle.etherparse.specs.Payloads.{ether_payload_in, payload_ether_type_in};
ghost use Rattle.etherparse.specs.StrictFrames.{extension_in, layers_in};
ghost use Rattle.packet_text.specs.LayerTexts.{ether_type_text, has_lengths, incomplete_text, inner_in, ip_payload_text};
ghost use Rattle.packet_text.specs.LayerTexts.{is_length, name_text, named_type_text, outer_text, lax_layers_text};
ghost use Rattle.packet_text.specs.LayerTexts.{payload_start_text, protocol_text, refused_start_text, rest_text};
ghost use Rattle.packet_text.specs.LayerTexts.{transport_or_payload_text, transport_start_text, type_text};
ghost use Rattle.packet_text.specs.LayerTexts.{unparsed_payload_in};
ghost use Rattle.packet_text.specs.Links.{extensions_text};
ghost use Rattle.packet_text.specs.SliceErrorTexts.{stop_text};

use crate::addresses::push_hex;
use crate::full_lengths::{push_full_len_if_truncated, push_missing_tcp_payload};
use crate::links::{push_extensions, push_link};
use crate::networks::push_net;
use crate::refusals::push_stop;
use crate::transports::{push_header_start, push_len, push_transport};
use etherparse::err::packet::SliceError;
use etherparse::{
    EtherType, IpNumber, LaxIpPayloadSlice, LaxLinkExtSlice, LaxNetSlice, LaxSlicedPacket,
    LinkSlice,
};
use line_io::decimals;
use std::alloc::AllocError;

/// Appends the text of each valid layer of a packet, from the outermost to the innermost, each after a space, and then
/// the error at which parsing stopped, if any.
pub fn push_packet(output: &mut Vec<u8>, read: &LaxSlicedPacket<'_>) -> Result<(), AllocError>
    ensures { OnOk result (output.new.items ≡ output.old.items ++ lax_layers_text (lax_layers_of read.now)) }
{
    push_outer(output, read)?;
    push_rest(output, read)?;
    push_incomplete(output, read.is_incomplete())
}

/// Appends the text of a packet's link header, VLAN and MACsec tags, and network layer.
pub fn push_outer(output: &mut Vec<u8>, read: &LaxSlicedPacket<'_>) -> Result<(), AllocError>
    ensures { OnOk result (output.new.items ≡ output.old.items ++ outer_text (layers_in (lax_layers_of read.now))) }
{
    push_link(output, &read.link)?;
    push_tags(output, read.link_exts.as_slice())?;
    push_net(output, &read.net)
}

/// Appends the text of each VLAN and MACsec tag of a packet.
fn push_tags(output: &mut Vec<u8>, extensions: &[LaxLinkExtSlice<'_>]) -> Result<(), AllocError>
    ensures { OnOk result (output.new.items ≡ output.old.items
        ++ extensions_text (map extension_in (lax_extensions_of false extensions.now))) }
{
    push_extensions(output, extensions)
}

/// Appends the transport layer or the payload of a packet, or why its next layer is invalid.
fn push_rest(output: &mut Vec<u8>, read: &LaxSlicedPacket<'_>) -> Result<(), AllocError>
    ensures { OnOk result (output.new.items ≡ output.old.items ++ (let layers = lax_layers_of read.now in
        rest_text layers.net.inside.incomplete (layers_in layers) layers.net.inside.stop)) }
{
    match &read.stop_err {
        Some(stop) => push_stopped(output, &read.net, &stop.0),
        None => push_inner(output, read),
    }
}

/// Appends the error of a truncated or invalid layer. If that layer is a transport header, first appends the known
/// fields at the header's start.
fn push_stopped(
    output: &mut Vec<u8>,
    net: &Option<LaxNetSlice<'_>>,
    error: &SliceError,
) -> Result<(), AllocError>
    ensures { OnOk result (output.new.items ≡ output.old.items
        ++ (refused_start_text (option_map lax_net_layer_of net.now) ++ stop_text error.now)) }
{
    push_refused_start(output, net)?;
    push_stop(output, error)
}

/// Appends the known fields at the start of a transport header that is truncated or invalid (the ports, for example),
/// and the length of its payload, if it is known.
pub fn push_refused_start(
    output: &mut Vec<u8>,
    net: &Option<LaxNetSlice<'_>>,
) -> Result<(), AllocError>
    ensures { OnOk result (output.new.items
        ≡ output.old.items ++ refused_start_text (option_map lax_net_layer_of net.now)) }
{
    push_transport_start(output, net)?;
    push_missing_tcp_payload(output, net)
}

/// Appends the transport layer of a packet, or else the protocol and length of its payload, and the payload's full
/// length if the capture lacks bytes of it.
pub fn push_inner(output: &mut Vec<u8>, read: &LaxSlicedPacket<'_>) -> Result<(), AllocError>
    ensures { OnOk result (output.new.items ≡ output.old.items ++ (let layers = lax_layers_of read.now in
        inner_in layers.net.inside.incomplete (layers_in layers))) }
{
    push_transport_or_payload(output, read)?;
    push_full_len_if_truncated(output, read)
}

/// Appends the transport layer of a packet, or else the protocol and length of its payload.
fn push_transport_or_payload(
    output: &mut Vec<u8>,
    read: &LaxSlicedPacket<'_>,
) -> Result<(), AllocError>
    ensures { OnOk result (output.new.items ≡ output.old.items ++ (let layers = layers_in (lax_layers_of read.now) in
        transport_or_payload_text layers.transport (unparsed_payload_in layers))) }
{
    match &read.transport {
        Some(transport) => push_transport(output, transport),
        None => push_unparsed_payload(output, read),
    }
}

/// Appends ` incomplete` if the capture lacks bytes of a packet's last payload.
pub fn push_incomplete(output: &mut Vec<u8>, incomplete: bool) -> Result<(), AllocError>
    ensures { OnOk result (output.new.items ≡ output.old.items ++ incomplete_text incomplete) }
{
    if incomplete {
        output.extend_from_slice(b" incomplete")?;
    }
    Ok(())
}

/// Appends the ports and, for TCP, further fields at the start of a transport header that is not parsed: the header is
/// truncated or invalid, or the packet is the first fragment of an IP payload.
fn push_transport_start(
    output: &mut Vec<u8>,
    net: &Option<LaxNetSlice<'_>>,
) -> Result<(), AllocError>
    ensures { OnOk result (output.new.items
        ≡ output.old.items ++ transport_start_text (option_map lax_net_layer_of net.now)) }
{
    match net {
        Some(net) => push_payload_start(output, net.begins_payload(), net.ip_payload_ref()),
        None => Ok(()),
    }
}

/// Appends the ports and, for TCP, further fields at the start of an IP payload that is not parsed. Appends nothing for
/// a later fragment (offset above 0), whose payload does not begin with a transport header.
fn push_payload_start(
    output: &mut Vec<u8>,
    begins: bool,
    payload: Option<&LaxIpPayloadSlice<'_>>,
) -> Result<(), AllocError>
    ensures { OnOk result (output.new.items ≡ output.old.items
        ++ payload_start_text begins (option_map lax_ip_payload_of (option_copied payload.entry))) }
{
    let Some(payload) = payload else {
        return Ok(());
    };
    if begins {
        push_header_start(output, payload.ip_number, payload.payload)
    } else {
        Ok(())
    }
}

/// Appends the protocol and length of a payload in which no further layer is parsed: the IP payload, or else the
/// payload after the link header and tags.
fn push_unparsed_payload(output: &mut Vec<u8>, read: &LaxSlicedPacket<'_>) -> Result<(), AllocError>
    ensures { OnOk result (output.new.items
        ≡ output.old.items ++ unparsed_payload_in (layers_in (lax_layers_of read.now))) }
{
    match &read.net {
        Some(net) => {
            push_transport_start(output, &read.net)?;
            push_ip_payload(output, net.ip_payload_ref())
        }
        None => {
            push_ether_type(output, has_lengths(&read.link), open_type(read))?;
            push_len(output, read.payload())
        }
    }
}

/// Appends the protocol number, its name and the length of an IP payload, or nothing if there is none (ARP).
fn push_ip_payload(
    output: &mut Vec<u8>,
    payload: Option<&LaxIpPayloadSlice<'_>>,
) -> Result<(), AllocError>
    ensures { OnOk result (output.new.items
        ≡ output.old.items ++ ip_payload_text (option_map lax_ip_payload_of (option_copied payload.entry))) }
{
    let Some(payload) = payload else {
        return Ok(());
    };
    push_protocol(output, payload.ip_number)?;
    push_len(output, payload.payload)
}

/// Appends ` protocol N` for an IP protocol number, and its name if it has one.
pub fn push_protocol(output: &mut Vec<u8>, number: IpNumber) -> Result<(), AllocError>
    ensures { OnOk result (output.new.items ≡ output.old.items ++ protocol_text number.0) }
{
    decimals::push_with_text(output, b" protocol ", u64::from(number.0))?;
    push_name(output, number.name())
}

/// Returns the ether type of the payload after the link header and tags, or `None` if a network layer is parsed in that
/// payload or the ether type is unknown.
fn open_type(read: &LaxSlicedPacket<'_>) -> Option<EtherType>
    ensures { result ≡ payload_ether_type_in (layers_in (lax_layers_of read.now)) }
{
    match (&read.net, &read.transport) {
        (None, None) => payload_ether_type(read),
        (Some(_), _) | (None, Some(_)) => None,
    }
}

/// Returns the ether type of the payload after the link header and tags, whether or not a network layer is parsed in
/// it; `None` if it is unknown.
fn payload_ether_type(read: &LaxSlicedPacket<'_>) -> Option<EtherType>
    ensures { result ≡ option_map (λ payload. payload.ether_type)
        (ether_payload_in (layers_in (lax_layers_of read.now))) }
{
    match read.ether_payload() {
        Some(payload) => Some(payload.ether_type),
        None => None,
    }
}

/// Returns whether the link header is Ethernet, in which a type field up to 1500 is a length (IEEE 802.3).
fn has_lengths(link: &Option<LinkSlice<'_>>) -> bool
    ensures { result ≡ has_lengths (option_map link_layer_of link.now) }
{
    match link {
        Some(LinkSlice::Ethernet2(_)) => true,
        Some(LinkSlice::LinuxSll(_)) => false,
        Some(LinkSlice::EtherPayload(_) | LinkSlice::LinuxSllPayload(_)) | None => false,
    }
}

/// Appends an ether type, or nothing if it is unknown. After an Ethernet header, a value up to 1500 is printed as a
/// length.
fn push_ether_type(
    output: &mut Vec<u8>,
    lengths: bool,
    ether_type: Option<EtherType>,
) -> Result<(), AllocError>
    ensures { OnOk result (output.new.items ≡ output.old.items ++ ether_type_text lengths ether_type) }
{
    match ether_type {
        Some(ether_type) => push_type(output, lengths, ether_type),
        None => Ok(()),
    }
}

/// Appends an ether type, with its name if it has one. After an Ethernet header (`lengths` is true), a value up to 1500
/// is printed as a length.
fn push_type(output: &mut Vec<u8>, lengths: bool, ether_type: EtherType) -> Result<(), AllocError>
    ensures { OnOk result (output.new.items ≡ output.old.items ++ type_text lengths ether_type.0) }
{
    if is_length(lengths, ether_type) {
        decimals::push_with_text(output, b" length ", u64::from(ether_type.0))
    } else {
        push_named_type(output, ether_type)
    }
}

/// Appends an ether type in hexadecimal, and its name if it has one.
fn push_named_type(output: &mut Vec<u8>, ether_type: EtherType) -> Result<(), AllocError>
    ensures { OnOk result (output.new.items ≡ output.old.items ++ named_type_text ether_type.0) }
{
    output.extend_from_slice(b" type 0x")?;
    push_hex(output, &ether_type.0.to_be_bytes())?;
    push_name(output, ether_type.name())
}

/// Returns whether an ether type field contains a length: the link header is Ethernet (`lengths` is true) and the value
/// is at most 1500.
fn is_length(lengths: bool, ether_type: EtherType) -> bool
    ensures { result ≡ is_length lengths ether_type.0 }
{
    lengths && ether_type.0 <= 1500
}

/// Appends a space and the name of an IP protocol or ether type, or nothing if it has no name.
fn push_name(output: &mut Vec<u8>, name: Option<&str>) -> Result<(), AllocError>
    ensures { OnOk result (output.new.items ≡ output.old.items ++ name_text (option_copied name.entry)) }
{
    let Some(name) = name else {
        return Ok(());
    };
    output.push(b' ')?;
    output.extend_from_slice(name.as_bytes())
}
