//! Answers to `slice` lines: the layers of a frame, or the error that rejects it.

ghost use Rattle.std.specs.Prelude.{◌≡◌, ◌∷◌, ◌++◌, [], ℕ, List, OnOk, map};
ghost use Rattle.std.specs.Option.{option_map};
ghost use Rattle.etherparse.specs.LinkExtensions.{link_extension_of};
ghost use Rattle.etherparse.specs.LinkSlices.{link_layer_of};
ghost use Rattle.etherparse.specs.Layers.{layers_of, net_layer_of};
ghost use Rattle.etherparse.specs.TransportParts.{transport_layer_of};
ghost use Rattle.line_io.specs.Lines.{space};
ghost use Rattle.frame_bench.specs.SliceReplies.{IsSliceReply, extension_text, extensions_word};
ghost use Rattle.frame_bench.specs.SliceReplies.{layers_text, link_word, net_word, refusal_text, transport_word};

use crate::hex_text;
use etherparse::err::packet::SliceError;
use etherparse::err::{LenError, ip, ip_auth, ipv4, ipv6, ipv6_exts, linux_sll, macsec, tcp};
use etherparse::{Entry, LinkExtSlice, LinkSlice, NetSlice, SlicedPacket, TransportSlice};
use line_io::decimals;
use std::alloc::AllocError;

/// Appends the answer to a `slice` line: a word for each layer of the frame and its payload, or the text of the slicing
/// error.
pub fn push_slice(output: &mut Vec<u8>, entry: Entry, bytes: &[u8]) -> Result<(), AllocError>
    ensures { OnOk result ((reply : List ℕ) × IsSliceReply entry bytes.now reply
        × (output.new.items ≡ output.old.items ++ reply)) }
{
    match SlicedPacket::from_entry(entry, bytes) {
        Ok(packet) => push_layers(output, &packet),
        Err(error) => push_refusal(output, &error),
    }
}

/// Appends `ok`, a word for each layer of a sliced packet (link, extensions, network, transport), and the payload of
/// its innermost layer in hexadecimal.
fn push_layers(output: &mut Vec<u8>, packet: &SlicedPacket<'_>) -> Result<(), AllocError>
    ensures { OnOk result (output.new.items ≡ output.old.items ++ layers_text (layers_of packet.now)) }
{
    let link = link_word(&packet.link);
    let net = net_word(&packet.net);
    let transport = transport_word(&packet.transport);
    output.extend_from_slice(b"ok ")?;
    push_word(output, link)?;
    push_extensions(output, packet.link_exts.as_slice())?;
    output.push(b' ')?;
    push_word(output, net)?;
    push_word(output, transport)?;
    hex_text::push(output, packet.payload())
}

/// Appends a word and a space to the output.
fn push_word(output: &mut Vec<u8>, word: &str) -> Result<(), AllocError>
    ensures { OnOk result (output.new.items ≡ output.old.items ++ (word.now ++ space ∷ [])) }
{
    output.extend_from_slice(word.as_bytes())?;
    output.push(b' ')?;
    Ok(())
}

/// Returns the word for the link layer of a packet: `eth` (Ethernet II), `sll` (Linux cooked capture), or `-` if it
/// starts with neither header.
fn link_word(link: &Option<LinkSlice<'_>>) -> &'static str
    ensures { result.now ≡ link_word (option_map link_layer_of link.now) }
{
    match link {
        Some(LinkSlice::Ethernet2(_)) => "eth",
        Some(LinkSlice::LinuxSll(_)) => "sll",
        Some(LinkSlice::EtherPayload(_) | LinkSlice::LinuxSllPayload(_)) | None => "-",
    }
}

/// Appends the link extensions of a packet (VLAN tags and MACsec) with commas between them, or `-` if there are none.
fn push_extensions(output: &mut Vec<u8>, extensions: &[LinkExtSlice<'_>]) -> Result<(), AllocError>
    ensures { OnOk result (output.new.items
        ≡ output.old.items ++ extensions_word (map link_extension_of extensions.now)) }
{
    let Some((first, others)) = extensions.split_first() else {
        return output.extend_from_slice(b"-");
    };
    push_extension(output, first)?;
    for extension in others {
        output.push(b',')?;
        push_extension(output, extension)?;
    }
    Ok(())
}

/// Appends the word for one link extension: `vlan:` with the VLAN identifier in decimal, or `macsec`.
fn push_extension(output: &mut Vec<u8>, extension: &LinkExtSlice<'_>) -> Result<(), AllocError>
    ensures { OnOk result (output.new.items ≡ output.old.items ++ extension_text (link_extension_of extension.now)) }
{
    match extension {
        LinkExtSlice::Vlan(tag) => {
            let vlan_id = tag.vlan_identifier().value();
            decimals::push_with_text(output, b"vlan:", u64::from(vlan_id))
        }
        LinkExtSlice::Macsec(_) => output.extend_from_slice(b"macsec"),
    }
}

/// Returns the word for the network layer of a packet: `ipv4`, `ipv6` or `arp`, and `-` if it has none.
fn net_word(net: &Option<NetSlice<'_>>) -> &'static str
    ensures { result.now ≡ net_word (option_map net_layer_of net.now) }
{
    match net {
        Some(NetSlice::Ipv4(_)) => "ipv4",
        Some(NetSlice::Ipv6(_)) => "ipv6",
        Some(NetSlice::Arp(_)) => "arp",
        None => "-",
    }
}

/// Returns the word for the transport layer of a packet: `udp`, `tcp`, `icmpv4` or `icmpv6`, and `-` if it has none.
fn transport_word(transport: &Option<TransportSlice<'_>>) -> &'static str
    ensures { result.now ≡ transport_word (option_map transport_layer_of transport.now) }
{
    match transport {
        Some(TransportSlice::Udp(_)) => "udp",
        Some(TransportSlice::Tcp(_)) => "tcp",
        Some(TransportSlice::Icmpv4(_)) => "icmpv4",
        Some(TransportSlice::Icmpv6(_)) => "icmpv6",
        None => "-",
    }
}

/// Appends the line for the error of a frame that can't be sliced: `err`, a word for the error, and the values of its
/// fields.
pub fn push_refusal(output: &mut Vec<u8>, error: &SliceError) -> Result<(), AllocError>
    ensures { OnOk result (output.new.items ≡ output.old.items ++ refusal_text error.now) }
{
    match error {
        SliceError::Len(error) => push_len_error(output, error),
        SliceError::LinuxSll(linux_sll::HeaderError::UnsupportedPacketTypeField { packet_type }) =>
            { decimals::push_with_text(output, b"err sll-packet-type ", u64::from(*packet_type)) }
        SliceError::LinuxSll(
            linux_sll::HeaderError::UnsupportedArpHardwareId { arp_hardware_type },
        ) => {
            decimals::push_with_text(
                output,
                b"err sll-arp-hardware ",
                u64::from(*arp_hardware_type),
            )
        }
        SliceError::Macsec(macsec::HeaderError::UnexpectedVersion) => {
            output.extend_from_slice(b"err macsec-version")
        }
        SliceError::Macsec(macsec::HeaderError::InvalidUnmodifiedShortLen) => {
            output.extend_from_slice(b"err macsec-short-length")
        }
        SliceError::Ip(ip::HeaderError::UnsupportedIpVersion { version_number }) => {
            decimals::push_with_text(output, b"err ip-version ", u64::from(*version_number))
        }
        SliceError::Ip(ip::HeaderError::Ipv4HeaderLengthSmallerThanHeader { ihl }) => {
            decimals::push_with_text(output, b"err ip-ihl ", u64::from(*ihl))
        }
        SliceError::Ipv4(ipv4::HeaderError::UnexpectedVersion { version_number }) => {
            decimals::push_with_text(output, b"err ipv4-version ", u64::from(*version_number))
        }
        SliceError::Ipv4(ipv4::HeaderError::HeaderLengthSmallerThanHeader { ihl }) => {
            decimals::push_with_text(output, b"err ipv4-ihl ", u64::from(*ihl))
        }
        SliceError::Ipv6(ipv6::HeaderError::UnexpectedVersion { version_number }) => {
            decimals::push_with_text(output, b"err ipv6-version ", u64::from(*version_number))
        }
        SliceError::Ipv4Exts(ip_auth::HeaderError::ZeroPayloadLen) => {
            output.extend_from_slice(b"err ipv4-auth-zero")
        }
        SliceError::Ipv6Exts(ipv6_exts::HeaderError::HopByHopNotAtStart) => {
            output.extend_from_slice(b"err ipv6-hop-by-hop")
        }
        SliceError::Ipv6Exts(
            ipv6_exts::HeaderError::IpAuth(ip_auth::HeaderError::ZeroPayloadLen),
        ) => output.extend_from_slice(b"err ipv6-auth-zero"),
        SliceError::Tcp(tcp::HeaderError::DataOffsetTooSmall { data_offset }) => {
            decimals::push_with_text(output, b"err tcp-data-offset ", u64::from(*data_offset))
        }
    }
}

/// Appends the line for a slicing error of too few bytes: `err len`, the required and the actual number of bytes, the
/// source of the actual number (the slice or a length field), the layer, and the layer's offset in the frame.
fn push_len_error(output: &mut Vec<u8>, error: &LenError) -> Result<(), AllocError>
    ensures { OnOk result (output.new.items ≡ output.old.items ++ refusal_text (SliceError.Len error.now)) }
{
    let offset = error.layer_start_offset;
    decimals::push_with_text(output, b"err len ", error.required_len as u64)?;
    decimals::push_with_text(output, b" ", error.len as u64)?;
    output.push(b' ')?;
    push_word(output, error.len_source.name())?;
    push_word(output, error.layer.name())?;
    decimals::push(output, offset as u64)
}
