//! Link layers of sliced frames: a link header with its payload, or a payload without link header.

ghost use Rattle.std.specs.Prelude.{◌≡◌, option_map};
ghost use Rattle.ep_link.specs.EtherPayloads.{ether_payload_of};
ghost use Rattle.ep_link.specs.LinkSlices.{link_layer_header_len, link_layer_payload, link_ether_payload};
ghost use Rattle.ep_link.specs.LinkSlices.{link_header_of, link_layer_of, link_slice_bytes, protocol_payload};

use crate::link::ethernet2_slice::Ethernet2Slice;
use crate::link::link_header::LinkHeader;
use crate::link::linux_sll_payload_slice::LinuxSllPayloadSlice;
use crate::link::linux_sll_protocol_type::LinuxSllProtocolType;
use crate::link::linux_sll_slice::LinuxSllSlice;
use ep_base::{EtherPayloadSlice, LenSource};

/// Link layer of a sliced frame: an Ethernet II or Linux cooked capture header with its payload, or only the payload.
#[derive(Clone, Debug, PartialEq, Eq, Drop)]
pub enum LinkSlice<'a> {
    /// Ethernet II header and its payload.
    Ethernet2(Ethernet2Slice<'a>),
    /// Header of a Linux cooked capture (SLL v1) and its payload.
    LinuxSll(LinuxSllSlice<'a>),
    /// Payload without a link header, with the ether type that the caller passed to the parsing function.
    EtherPayload(EtherPayloadSlice<'a>),
    /// Payload of a Linux cooked capture (SLL v1), without the header.
    LinuxSllPayload(LinuxSllPayloadSlice<'a>),
}

impl<'a> LinkSlice<'a> {
    /// Bytes of the link header and its payload, or of the payload alone if the link layer has no header.
    #[inline]
    pub fn slice(&self) -> &'a [u8]
        ensures { result.now ≡ link_slice_bytes self.now }
    {
        match self {
            LinkSlice::Ethernet2(frame) => frame.slice(),
            LinkSlice::LinuxSll(packet) => packet.slice(),
            LinkSlice::EtherPayload(payload) => payload.payload,
            LinkSlice::LinuxSllPayload(payload) => payload.payload,
        }
    }

    /// Returns the link header as an owned value, or `None` if the link layer has no header.
    pub fn to_header(&self) -> Option<LinkHeader>
        ensures { result ≡ link_header_of (link_layer_of self.now) }
    {
        match self {
            LinkSlice::Ethernet2(frame) => Some(LinkHeader::Ethernet2(frame.to_header())),
            LinkSlice::LinuxSll(packet) => Some(LinkHeader::LinuxSll(packet.to_header())),
            LinkSlice::EtherPayload(_) | LinkSlice::LinuxSllPayload(_) => None,
        }
    }

    /// Length of the link header in bytes: 14 for Ethernet II, 16 for a Linux cooked capture, 0 if there is no header.
    #[inline]
    pub fn header_len(&self) -> usize
        ensures { result ≡ link_layer_header_len (link_layer_of self.now) }
    {
        match self {
            LinkSlice::Ethernet2(frame) => frame.header_len(),
            LinkSlice::LinuxSll(frame) => frame.header_len(),
            LinkSlice::EtherPayload(_) | LinkSlice::LinuxSllPayload(_) => 0,
        }
    }

    /// Bytes of the link layer's payload.
    #[inline]
    pub fn payload_slice(&self) -> &'a [u8]
        ensures { result.now ≡ link_layer_payload (link_layer_of self.now) }
    {
        match self {
            LinkSlice::Ethernet2(frame) => frame.payload_slice(),
            LinkSlice::LinuxSll(frame) => frame.payload_slice(),
            LinkSlice::EtherPayload(payload) => payload.payload,
            LinkSlice::LinuxSllPayload(payload) => payload.payload,
        }
    }

    /// Payload of the link layer with its ether type. Returns `None` for the payload of a Linux cooked capture whose
    /// protocol field is not an ether type.
    pub fn ether_payload(&self) -> Option<EtherPayloadSlice<'a>>
        ensures { option_map ether_payload_of result ≡ link_ether_payload (link_layer_of self.now) }
    {
        match self {
            LinkSlice::Ethernet2(frame) => Some(frame.payload()),
            LinkSlice::LinuxSll(packet) => {
                typed_payload(&packet.protocol_type(), packet.payload_slice())
            }
            LinkSlice::EtherPayload(payload) => Some(EtherPayloadSlice {
                ether_type: payload.ether_type,
                len_source: payload.len_source,
                payload: payload.payload,
            }),
            LinkSlice::LinuxSllPayload(payload) => {
                typed_payload(&payload.protocol_type, payload.payload)
            }
        }
    }
}

/// Returns the payload of a Linux cooked capture with its ether type, or `None` if its protocol is not an ether type.
fn typed_payload<'a>(
    protocol_type: &LinuxSllProtocolType,
    payload: &'a [u8],
) -> Option<EtherPayloadSlice<'a>>
    ensures { option_map ether_payload_of result ≡ protocol_payload protocol_type.now payload.now }
{
    Some(EtherPayloadSlice {
        ether_type: protocol_type.ether_type()?,
        len_source: LenSource::Slice,
        payload,
    })
}
