//! Formatting of link headers, VLAN tags and MACsec tags as text of a packet's line, and of the headers of Linux cooked
//! captures that the library does not parse.

ghost use Rattle.std.specs.Prelude.{◌≡◌, ◌≤◌, ◌++◌, OnOk, codes, length, map};
ghost use Rattle.std.specs.Option.{option_map};
ghost use Rattle.etherparse.specs.LaxSlices.{lax_macsec_slice_header};
ghost use Rattle.etherparse.specs.LaxViews.{lax_extension_of};
ghost use Rattle.etherparse.specs.LinkSlices.{link_layer_of};
ghost use Rattle.etherparse.specs.LinuxSllSlices.{linux_sll_slice_header};
ghost use Rattle.packet_text.specs.Addresses.{mac_text};
ghost use Rattle.packet_text.specs.Links.{change_text, channel_text, extension_text, extensions_text, link_text};
ghost use Rattle.packet_text.specs.Links.{macsec_text, sender_text, skipped_header_text, sll2_header_text, sll2_interface};
ghost use Rattle.packet_text.specs.Links.{sll_header_text, sll_text, way_name, way_text};

use crate::addresses::{mac_text, push_hex, push_octets};
use ep_base::bytes::{long_at, word_at};
use etherparse::{LaxLinkExtSlice, LaxMacsecSlice, LinkSlice, LinuxSllSlice, MacsecPType};
use line_io::decimals;
use link_types::openings::{skips_sll, skips_sll2};
use std::alloc::AllocError;

/// Appends the text of a link header: both MAC addresses of Ethernet, or the direction and the sender's address of a
/// Linux cooked capture.
pub fn push_link(output: &mut Vec<u8>, link: &Option<LinkSlice<'_>>) -> Result<(), AllocError>
    ensures { OnOk result (output.new.items ≡ output.old.items ++ link_text (option_map link_layer_of link.now)) }
{
    match link {
        Some(LinkSlice::Ethernet2(frame)) => {
            push_ethernet(output, frame.source(), frame.destination())
        }
        Some(LinkSlice::LinuxSll(frame)) => push_sll(output, frame),
        Some(LinkSlice::EtherPayload(_) | LinkSlice::LinuxSllPayload(_)) | None => Ok(()),
    }
}

/// Appends the text of an Ethernet header: both MAC addresses. The text is built in a local buffer and appended in one
/// call, which is faster than several.
fn push_ethernet(
    output: &mut Vec<u8>,
    source: [u8; 6],
    destination: [u8; 6],
) -> Result<(), AllocError>
    ensures { OnOk result (output.new.items ≡ output.old.items
        ++ (codes " eth " ++ mac_text source ++ codes " > " ++ mac_text destination)) }
{
    let mut text = *b" eth 00:00:00:00:00:00 > 00:00:00:00:00:00";
    text[5..22].copy_from_slice(&mac_text(source));
    text[25..42].copy_from_slice(&mac_text(destination));
    output.extend_from_slice(&text)
}

/// Appends the text of a Linux cooked capture header: the direction of the packet and the sender's address.
fn push_sll(output: &mut Vec<u8>, frame: &LinuxSllSlice<'_>) -> Result<(), AllocError>
    ensures { OnOk result (output.new.items ≡ output.old.items ++ sll_text (linux_sll_slice_header frame.now)) }
{
    let address = frame.sender_address();
    let len = usize::from(frame.sender_address_valid_length()).min(8);
    output.extend_from_slice(b" sll ")?;
    output.extend_from_slice(way_name(frame.packet_type().0).as_bytes())?;
    push_sender(output, &address[..len])
}

/// Returns the name of a packet type of a Linux cooked capture header: the direction of the packet, such as `outgoing`.
pub fn way_name(packet_type: u16) -> &'static str
    ensures { result.now ≡ way_name packet_type }
{
    match packet_type {
        0 => "host",
        1 => "broadcast",
        2 => "multicast",
        3 => "other-host",
        4 => "outgoing",
        5 => "loopback",
        6 => "user",
        _ => "kernel",
    }
}

/// Appends ` from` and the sender's link-layer address of a Linux cooked capture, or nothing if the address is empty.
pub fn push_sender(output: &mut Vec<u8>, address: &[u8]) -> Result<(), AllocError>
    ensures { OnOk result (output.new.items ≡ output.old.items ++ sender_text address.now) }
{
    if address.is_empty() {
        return Ok(());
    }
    output.extend_from_slice(b" from ")?;
    push_octets(output, address)
}

/// Appends the text of each VLAN and MACsec tag.
pub fn push_extensions(
    output: &mut Vec<u8>,
    extensions: &[LaxLinkExtSlice<'_>],
) -> Result<(), AllocError>
    ensures { OnOk result (output.new.items
        ≡ output.old.items ++ extensions_text (map lax_extension_of extensions.now)) }
{
    for extension in extensions {
        push_extension(output, extension)?;
    }
    Ok(())
}

/// Appends the text of a VLAN tag (its identifier) or a MACsec tag.
fn push_extension(output: &mut Vec<u8>, extension: &LaxLinkExtSlice<'_>) -> Result<(), AllocError>
    ensures { OnOk result (output.new.items ≡ output.old.items ++ extension_text (lax_extension_of extension.now)) }
{
    match extension {
        LaxLinkExtSlice::Vlan(tag) => {
            let vlan_id = tag.vlan_identifier().value();
            decimals::push_with_text(output, b" vlan:", u64::from(vlan_id))
        }
        LaxLinkExtSlice::Macsec(packet) => push_macsec(output, packet),
    }
}

/// Appends the text of a MACsec tag: its packet number, its secure channel identifier, and whether the payload is
/// encrypted or modified.
fn push_macsec(output: &mut Vec<u8>, packet: &LaxMacsecSlice<'_>) -> Result<(), AllocError>
    ensures { OnOk result (output.new.items ≡ output.old.items ++ macsec_text (lax_macsec_slice_header packet.now)) }
{
    let tag = packet.to_header();
    decimals::push_with_text(output, b" macsec pn ", u64::from(tag.packet_nr))?;
    push_channel(output, tag.sci)?;
    push_change(output, &tag.ptype)
}

/// Appends the secure channel identifier (SCI) of a MACsec tag in hexadecimal, if present.
fn push_channel(output: &mut Vec<u8>, sci: Option<u64>) -> Result<(), AllocError>
    ensures { OnOk result (output.new.items ≡ output.old.items ++ channel_text sci) }
{
    let Some(sci) = sci else {
        return Ok(());
    };
    output.extend_from_slice(b" sci ")?;
    push_hex(output, &sci.to_be_bytes())
}

/// Appends whether the payload of a MACsec packet is encrypted or modified; nothing if it is neither.
fn push_change(output: &mut Vec<u8>, ptype: &MacsecPType) -> Result<(), AllocError>
    ensures { OnOk result (output.new.items ≡ output.old.items ++ change_text ptype.now) }
{
    match ptype {
        MacsecPType::Unmodified(_) => Ok(()),
        MacsecPType::Modified => output.extend_from_slice(b" modified"),
        MacsecPType::Encrypted => output.extend_from_slice(b" encrypted"),
        MacsecPType::EncryptedUnmodified => output.extend_from_slice(b" encrypted-unmodified"),
    }
}

/// Appends the fields of a Linux cooked capture header (version 1 or 2) as text, if the library does not parse the
/// header. Appends nothing for other packets.
pub fn push_skipped_header(
    output: &mut Vec<u8>,
    link_type: u16,
    bytes: &[u8],
) -> Result<(), AllocError>
    ensures { OnOk result (output.new.items ≡ output.old.items ++ skipped_header_text link_type bytes.now) }
{
    if link_type == 113 && skips_sll(bytes) {
        push_sll_header(output, bytes)
    } else if link_type == 276 && skips_sll2(bytes) {
        push_sll2_header(output, bytes)
    } else {
        Ok(())
    }
}

/// Appends ` sll`, the direction of the packet and the sender's address, from the Linux cooked capture header (version
/// 1) at the start of `bytes`.
#[tactic(auto, unfolding(crate::specs::Links::sll_header_text))]
fn push_sll_header(output: &mut Vec<u8>, bytes: &[u8]) -> Result<(), AllocError>
    requires { 16 ≤ length bytes.now }
    ensures { OnOk result (output.new.items ≡ output.old.items ++ sll_header_text bytes.now) }
{
    let len = usize::from(word_at(bytes, 4)).min(8);
    let address = &bytes[6..14];
    output.extend_from_slice(b" sll ")?;
    output.extend_from_slice(way_name(word_at(bytes, 0)).as_bytes())?;
    push_sender(output, &address[..len])
}

/// Appends the fields of a Linux cooked capture header of version 2: the interface index, the direction of the packet,
/// and the sender's address.
#[tactic(auto, unfolding(crate::specs::Links::sll2_header_text))]
fn push_sll2_header(output: &mut Vec<u8>, bytes: &[u8]) -> Result<(), AllocError>
    requires { 20 ≤ length bytes.now }
    ensures { OnOk result (output.new.items ≡ output.old.items ++ sll2_header_text bytes.now) }
{
    let len = usize::from(bytes[11]).min(8);
    let address = &bytes[12..20];
    decimals::push_with_text(output, b" sll2 interface ", sll2_interface(bytes))?;
    push_way(output, bytes[10])?;
    push_sender(output, &address[..len])
}

/// Returns the interface index of a Linux cooked capture header of version 2, bytes 4 to 7.
fn sll2_interface(bytes: &[u8]) -> u64
    requires { 20 ≤ length bytes.now }
    ensures { result ≡ sll2_interface bytes.now }
{
    u64::from(long_at(bytes, 4))
}

/// Appends the direction of a packet, given the packet type (byte 10) of a Linux cooked capture header of version 2.
fn push_way(output: &mut Vec<u8>, way: u8) -> Result<(), AllocError>
    ensures { OnOk result (output.new.items ≡ output.old.items ++ way_text way) }
{
    output.extend_from_slice(b" ")?;
    output.extend_from_slice(way_name(u16::from(way)).as_bytes())
}
