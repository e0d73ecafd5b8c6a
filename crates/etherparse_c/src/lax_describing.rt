//! Describes the layers of a laxly sliced packet as numbers (kinds, offsets, lengths) in the struct `Packet` that C
//! reads.

ghost use Rattle.std.specs.Prelude.{◌≡◌, ◌+◌, ◌<◌, ◌^◌, length, map};
ghost use Rattle.std.specs.Option.{option_map};
ghost use Rattle.etherparse.specs.LaxPackets.{lax_layers_of};
ghost use Rattle.etherparse.specs.LaxSlices.{lax_macsec_slice_header, lax_macsec_slice_payload};
ghost use Rattle.etherparse.specs.LaxViews.{lax_extension_of, lax_net_layer_of};
ghost use Rattle.etherparse.specs.LinkExtensions.{macsec};
ghost use Rattle.etherparse.specs.StrictFrames.{layers_in};
ghost use Rattle.etherparse.specs.TransportParts.{transport_layer_of};
ghost use Rattle.etherparse.specs.Types.LenSource.TheVariants as source;
ghost use Rattle.etherparse_c.specs.Description.{net_end, payload_offset, tag_slots, tags_len};
ghost use Rattle.etherparse_c.specs.LaxAnswers.{lax_description, lax_end, lax_transport_end, stop_part, tag_end};
ghost use Rattle.etherparse_c.specs.LaxAnswers.{tags_end};

use crate::describing::{describe_headers, link_part, no_refusal, source_number};
use crate::net_part::{flag, lax_ip_part, lax_net_part};
use crate::packet::{Packet, Payload, Refusal};
use crate::refusing::refusal_part;
use crate::tags::{Tags, describe_tags};
use etherparse::err::Layer;
use etherparse::err::packet::SliceError;
use etherparse::{
    LaxLinkExtSlice, LaxMacsecSlice, LaxNetSlice, LaxSlicedPacket, LenSource, MacsecPType,
    TransportSlice,
};

/// Writes the description of a laxly sliced packet to the struct that C reads: its valid layers, and the error at which
/// parsing stopped, if any.
#[inline(always)]
pub(crate) fn describe_lax(described: &mut Packet, packet: &LaxSlicedPacket<'_>)
    requires { payload_offset (layers_in (lax_layers_of packet.now)) < 2 ^ 64 }
    ensures { described.new ≡ lax_description (lax_layers_of packet.now) }
{
    let link = link_part(&packet.link);
    let tags = tags(packet, link.len);
    let count = tag_count(packet);
    let net = lax_net_part(&packet.net, tags.end);
    let ip = lax_ip_part(&packet.net);
    let transport = &packet.transport;
    let offset = describe_headers(described, link, tags.slots, count, net, ip, transport);
    described.payload = Payload {
        len_source: source_number(lax_end(packet)),
        incomplete: u32::from(flag(packet.is_incomplete())),
        offset,
        len: packet.payload().len(),
    };
    described.refusal = stop_part(&packet.stop_err);
}

/// Returns the descriptions of the VLAN and MACsec tags of a lax packet for C; the first tag is at `offset` in the
/// frame.
#[inline(always)]
fn tags(packet: &LaxSlicedPacket<'_>, offset: usize) -> Tags
    requires { offset + tags_len (layers_in (lax_layers_of packet.now)).link_exts < 2 ^ 64 }
    ensures slots { result.slots ≡ tag_slots offset (layers_in (lax_layers_of packet.now)).link_exts }
    ensures end { result.end ≡ offset + tags_len (layers_in (lax_layers_of packet.now)).link_exts }
{
    describe_tags(packet.link_exts.as_slice(), offset)
}

/// Returns the number of VLAN and MACsec tags of a lax packet.
#[inline(always)]
#[tactic(auto, using(crate::proofs::LaxLemmas::extensions_count))]
fn tag_count(packet: &LaxSlicedPacket<'_>) -> u32
    ensures { result ≡ length (layers_in (lax_layers_of packet.now)).link_exts }
{
    packet.link_exts.len() as u32
}

/// Converts the error at which lax slicing stopped to the numbers for C; all are 0 if there is no error.
fn stop_part(stop: &Option<(SliceError, Layer)>) -> Refusal
    ensures { result ≡ stop_part stop.now }
{
    match stop {
        Some((error, _)) => refusal_part(error),
        None => no_refusal(),
    }
}

/// Returns the length field (of UDP, IP, ARP or MACsec) that limits the payload of a lax packet's last layer, or
/// `Slice` if only the end of the input does.
fn lax_end(packet: &LaxSlicedPacket<'_>) -> LenSource
    ensures { result ≡ lax_end (layers_in (lax_layers_of packet.now)) }
{
    let outer = tags_end(packet);
    lax_transport_end(&packet.transport).limited_by(net_end(&packet.net).limited_by(outer))
}

/// Returns the length source of the bytes after the VLAN and MACsec tags of a lax packet: `MacsecShortLength` if the
/// short length of any MACsec tag is not 0 and equals the length of the tag's sliced payload (plus 2 for the ether type
/// of an unmodified payload), or else `Slice` (the end of the input).
fn tags_end(packet: &LaxSlicedPacket<'_>) -> LenSource
    ensures { result ≡ tags_end source.Slice (layers_in (lax_layers_of packet.now)).link_exts }
{
    lax_exts_len_source(packet.link_exts.as_slice())
}

/// Returns the length source of the bytes after a packet's VLAN and MACsec tags: `MacsecShortLength` if the short
/// length of any MACsec tag is not 0 and equals the length of the tag's sliced payload (plus 2 for the ether type of an
/// unmodified payload), or else `Slice` (the end of the input).
fn lax_exts_len_source(extensions: &[LaxLinkExtSlice<'_>]) -> LenSource
    ensures { result ≡ tags_end source.Slice (map lax_extension_of extensions.now) }
{
    let mut end = LenSource::Slice;
    for extension in extensions {
        if let LaxLinkExtSlice::Macsec(packet) = extension {
            end = macsec_end(packet, end);
        }
    }
    end
}

/// Returns the length source of a MACsec tag's payload: `MacsecShortLength` if the tag's short length is not 0 and
/// equals the length of the sliced payload (plus 2 for the ether type of an unmodified payload), or else `outer`, the
/// length source of the bytes that contain the tag.
fn macsec_end(packet: &LaxMacsecSlice<'_>, outer: LenSource) -> LenSource
    ensures { result ≡ tag_end outer
        (macsec (lax_macsec_slice_header packet.now) (lax_macsec_slice_payload packet.now)) }
{
    let short_len = packet.header.short_len().value() as usize;
    let type_len = match packet.header.ptype() {
        MacsecPType::Unmodified(_) => 2,
        _ => 0,
    };
    if 0 < short_len && short_len == type_len + packet.payload.slice().len() {
        return LenSource::MacsecShortLength;
    }
    outer
}

/// Returns the length field of the IP header or ARP packet that limits its payload in a lax packet, or `Slice` if none
/// does.
fn net_end(net: &Option<LaxNetSlice<'_>>) -> LenSource
    ensures { result ≡ net_end (option_map lax_net_layer_of net.now) }
{
    match net {
        Some(LaxNetSlice::Ipv4(packet)) => packet.payload().len_source,
        Some(LaxNetSlice::Ipv6(packet)) => packet.payload().len_source,
        Some(LaxNetSlice::Arp(_)) => LenSource::ArpAddrLengths,
        None => LenSource::Slice,
    }
}

/// Returns `UdpHeaderLen` if the length field of UDP equals the length of the sliced datagram and so limits its
/// payload, or else `Slice`.
fn lax_transport_end(transport: &Option<TransportSlice<'_>>) -> LenSource
    ensures { result ≡ lax_transport_end (option_map transport_layer_of transport.now) }
{
    let Some(TransportSlice::Udp(datagram)) = transport else {
        return LenSource::Slice;
    };
    if datagram.length() as usize == datagram.header_len() + datagram.payload().len() {
        return LenSource::UdpHeaderLen;
    }
    LenSource::Slice
}
