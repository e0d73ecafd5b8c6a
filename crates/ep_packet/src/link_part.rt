//! The link layer at the start of a packet, before its tags and the network layer are read.

ghost use Rattle.std.specs.Prelude.{◌+◌, ◌<◌, ◌^◌, length, IfOk, IfErr};
ghost use Rattle.ep_link.specs.Ethernet2.{RefusesEthernet2};
ghost use Rattle.ep_link.specs.LinuxSll.{RefusesLinuxSll};
ghost use Rattle.ep_packet.specs.declared.entry.Entry.TheVariants.{Ethernet as ethernet, LinuxSll as linux_sll, EtherType as of_type};
ghost use Rattle.ep_packet.specs.LinkParts.{BeginsPacket};

use ep_base::err::{LenError, linux_sll};
use ep_base::{EtherPayloadSlice, EtherType, LenSource};
use ep_link::{Ethernet2Header, Ethernet2Slice, LinkSlice, LinuxSllHeader, LinuxSllSlice};

/// Link layer at the start of a packet (Ethernet II, Linux cooked capture, or a given ether type), and its payload.
#[derive(Drop)]
pub struct LinkPart<'a> {
    /// Link layer at the start of the packet: header and payload.
    pub link: LinkSlice<'a>,
    /// Offset of the link layer's payload from the start of the packet, in bytes.
    pub offset: usize,
    /// Ether type of the link layer's payload; `None` if the protocol of a Linux cooked capture is no ether type.
    pub ether_type: Option<EtherType>,
    /// Bytes of the link layer's payload.
    pub slice: &'a [u8],
}

impl<'a> LinkPart<'a> {
    /// Slices the Ethernet II header at the start of a packet, and the payload after it.
    #[inline(always)]
    pub fn ethernet(slice: &'a [u8]) -> Result<LinkPart<'a>, LenError>
        ensures ok { IfOk result (BeginsPacket ethernet slice.now) }
        ensures place { IfOk result (λ part. part.offset + length part.slice.now < 2 ^ 64) }
        ensures err { IfErr result (RefusesEthernet2 slice.now) }
    {
        let frame = match Ethernet2Slice::from_slice_without_fcs(slice) {
            Ok(frame) => frame,
            Err(error) => return Err(error),
        };
        let ether_type = frame.ether_type();
        let payload = frame.payload_slice();
        Ok(LinkPart {
            link: LinkSlice::Ethernet2(frame),
            offset: Ethernet2Header::LEN,
            ether_type: Some(ether_type),
            slice: payload,
        })
    }

    /// Slices the Linux cooked capture header (SLL v1) at the start of a packet, and the payload after it.
    #[inline(always)]
    pub fn linux_sll(slice: &'a [u8]) -> Result<LinkPart<'a>, linux_sll::HeaderSliceError>
        ensures ok { IfOk result (BeginsPacket linux_sll slice.now) }
        ensures place { IfOk result (λ part. part.offset + length part.slice.now < 2 ^ 64) }
        ensures err { IfErr result (RefusesLinuxSll slice.now) }
    {
        let packet = match LinuxSllSlice::from_slice(slice) {
            Ok(packet) => packet,
            Err(error) => return Err(error),
        };
        let ether_type = packet.protocol_type().ether_type();
        let payload = packet.payload_slice();
        Ok(LinkPart {
            link: LinkSlice::LinuxSll(packet),
            offset: LinuxSllHeader::LEN,
            ether_type,
            slice: payload,
        })
    }

    /// Returns a link layer without a header: all bytes of `slice` are its payload, of the given ether type.
    #[inline(always)]
    pub fn ether_type(ether_type: EtherType, slice: &'a [u8]) -> LinkPart<'a>
        ensures begins { BeginsPacket (of_type ether_type) slice.now result }
        ensures place { result.offset + length result.slice.now < 2 ^ 64 }
    {
        LinkPart {
            link: LinkSlice::EtherPayload(EtherPayloadSlice {
                ether_type,
                len_source: LenSource::Slice,
                payload: slice,
            }),
            offset: 0,
            ether_type: Some(ether_type),
            slice,
        }
    }
}
