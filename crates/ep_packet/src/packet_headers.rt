//! A packet decoded into owned headers, and the payload after them.

ghost use Rattle.std.specs.Prelude.{◌≡◌, ◌+◌, ◌-◌, ◌<◌, ◌^◌, length, IfOk, IfErr, Some};
ghost use Rattle.ep_base.specs.Readings.{headers};
ghost use Rattle.ep_base.specs.IpPayload.{ip_payload_of};
ghost use Rattle.ep_link.specs.EtherPayloads.{ether_payload_of};
ghost use Rattle.ep_link.specs.LinkSlices.{unlimited_ether_payload};
ghost use Rattle.ep_packet.specs.Frame.{most_link_exts, only_ipv4, only_ipv6, only_arp, any_ip, net_kind};
ghost use Rattle.ep_packet.specs.PacketHeaders.{headers_of};
ghost use Rattle.ep_packet.specs.PayloadParts.{ether, empty};
ghost use Rattle.ep_packet.specs.FrameRefusals.{RefusesInside, RefusesNetPart, RefusesTransportIn};
ghost use Rattle.ep_packet.specs.HeadersWalk.{AreDecoded, FillsInside, FillsNet, FillsTransport, begun};

use crate::entry::Entry;
use crate::err::SliceError;
use crate::net_headers::NetHeaders;
use crate::net_headers_fill::{fill_ip, fill_ipv4, fill_ipv6};
use crate::payload_slice::PayloadSlice;
use crate::vlan_tags::{outer_vlan_headers, vlan_ids_of_headers};
use arrayvec::ArrayVec;
use ep_base::err::{ip, ipv4, ipv6, linux_sll, macsec, tcp};
use ep_base::{EtherPayloadSlice, EtherType, IpPayloadSlice, LenSource, VlanId, ether_type};
use ep_ext::Ipv4Extensions;
use ep_ip::Ipv4Header;
use ep_link::{
    ArpPacketSlice, Ethernet2Header, Ethernet2Slice, LinkExtHeader, LinkExtSlice, LinkHeader,
    LinuxSllHeader, LinuxSllSlice, VlanHeader,
};
use ep_transport::{TcpHeader, TransportHeader};

/// Owned headers of a packet, from the outside in, and the payload of the last layer. `net` and `transport` are `None`
/// if the packet does not have that layer or its protocol is not supported; without `net`, `transport` is `None` too. A
/// value has space for every kind of IPv6 extension header, even if none is present.
#[derive(Clone, Debug, PartialEq, Eq, Drop)]
pub struct PacketHeaders<'a> {
    /// Link header (Ethernet II or Linux cooked capture); `None` if the packet was decoded from an ether type or from
    /// IP.
    pub link: Option<LinkHeader>,
    /// Headers of the link extensions (VLAN and MACsec tags), from the outside in, at most three.
    pub link_exts: ArrayVec<LinkExtHeader, 3>,
    /// Network layer: the IP header and its extension headers, or the ARP packet; `None` if neither is present.
    pub net: Option<NetHeaders>,
    /// Transport header (UDP, TCP, ICMPv4 or ICMPv6); `None` for another protocol, and for a fragment.
    pub transport: Option<TransportHeader>,
    /// Payload after the last header that was decoded.
    pub payload: PayloadSlice<'a>,
}

impl<'a> PacketHeaders<'a> {
    ghost use Rattle.std.specs.Prelude.{IsOkAnd, OnOk, OnErr, None};
    ghost use Rattle.ep_packet.specs.declared.entry.Entry.TheVariants.{Ethernet as ethernet, LinuxSll as linux_sll};
    ghost use Rattle.ep_packet.specs.declared.entry.Entry.TheVariants.{EtherType as of_type, Ip as ip};
    ghost use Rattle.ep_packet.specs.Layers.{Layers};
    ghost use Rattle.ep_packet.specs.Frame.{IsFrameIn};
    ghost use Rattle.ep_packet.specs.PacketHeaders.{IsSubsliceOf, headers_in, header_vlan_ids, no_headers, outer_headers};
    ghost use Rattle.ep_packet.specs.PacketHeaders.{vlan_headers};
    ghost use Rattle.ep_packet.specs.PayloadParts.{payload_part_bytes, payload_part_of};
    ghost use Rattle.ep_packet.specs.FrameRefusals.{RefusesFrameIn};

    /// Greatest number of link extensions (VLAN and MACsec tags) that are decoded: 3. A fourth one is left in the
    /// payload.
    pub const LINK_EXTS_CAP: usize = 3;

    /// Returns a packet without any header, whose payload is `Empty`.
    pub fn new() -> PacketHeaders<'a>
        ensures { headers_of result ≡ no_headers }
    {
        PacketHeaders {
            link: None,
            link_exts: ArrayVec::new(),
            net: None,
            transport: None,
            payload: PayloadSlice::Empty,
        }
    }

    /// Decodes the packet whose first protocol is `entry` into `self`, replacing what it contained. Made for repeated
    /// calls: if the previous packet had the same IP version, the space of absent headers is not touched. After an
    /// error no header is left. The payload of a Linux cooked capture whose protocol is no ether type is `MacsecMod`,
    /// as for other payloads of unknown type.
    pub fn read_into(&mut self, entry: Entry, bytes: &'a [u8]) -> Result<(), SliceError>
        ensures ok { OnOk result ((layers : Layers) × IsFrameIn headers entry bytes.now layers
            × (headers_of self.new ≡ headers_in layers)) }
        ensures only { (layers : Layers) → IsFrameIn headers entry bytes.now layers
            → IsOkAnd result (λ _. headers_of self.new ≡ headers_in layers) }
        ensures bytes { OnOk result (IsSubsliceOf (payload_part_bytes (payload_part_of self.new.payload)) bytes.now) }
        ensures err { IfErr result (RefusesFrameIn headers entry bytes.now) }
        ensures none { OnErr result (headers_of self.new ≡ no_headers) }
    {
        match self.fill(entry, bytes) {
            Ok(()) => Ok(()),
            Err(error) => {
                self.set_link(None);
                self.set_payload(PayloadSlice::Empty);
                Err(error)
            }
        }
    }

    /// Decodes the headers of a packet that begins with an Ethernet II header.
    #[inline(always)]
    pub fn from_ethernet_slice(slice: &'a [u8]) -> Result<PacketHeaders<'a>, SliceError>
        ensures ok { IfOk result (λ packet. (layers : Layers) × IsFrameIn headers ethernet slice.now layers
            × (headers_of packet ≡ headers_in layers)) }
        ensures only { (layers : Layers) → IsFrameIn headers ethernet slice.now layers
            → IsOkAnd result (λ packet. headers_of packet ≡ headers_in layers) }
        ensures bytes { IfOk result (λ packet. IsSubsliceOf (payload_part_bytes (payload_part_of packet.payload)) slice.now) }
        ensures err { IfErr result (RefusesFrameIn headers ethernet slice.now) }
    {
        let mut packet = PacketHeaders::blank();
        match packet.fill_outlined(Entry::Ethernet, slice) {
            Ok(()) => Ok(packet),
            Err(error) => Err(error),
        }
    }

    /// Decodes the headers of a packet without a link header, which begins with the protocol of the given ether type.
    #[inline(always)]
    pub fn from_ether_type(
        ether_type: EtherType,
        slice: &'a [u8],
    ) -> Result<PacketHeaders<'a>, SliceError>
        ensures ok { IfOk result (λ packet. (layers : Layers) × IsFrameIn headers (of_type ether_type) slice.now layers
            × (headers_of packet ≡ headers_in layers)) }
        ensures only { (layers : Layers) → IsFrameIn headers (of_type ether_type) slice.now layers
            → IsOkAnd result (λ packet. headers_of packet ≡ headers_in layers) }
        ensures bytes { IfOk result (λ packet. IsSubsliceOf (payload_part_bytes (payload_part_of packet.payload)) slice.now) }
        ensures err { IfErr result (RefusesFrameIn headers (of_type ether_type) slice.now) }
    {
        let mut packet = PacketHeaders::blank();
        match packet.fill_outlined(Entry::EtherType(ether_type), slice) {
            Ok(()) => Ok(packet),
            Err(error) => Err(error),
        }
    }

    /// Decodes the headers of an IP packet, version 4 or 6, without a link layer.
    #[inline(always)]
    pub fn from_ip_slice(slice: &'a [u8]) -> Result<PacketHeaders<'a>, SliceError>
        ensures ok { IfOk result (λ packet. (layers : Layers) × IsFrameIn headers ip slice.now layers
            × (headers_of packet ≡ headers_in layers)) }
        ensures only { (layers : Layers) → IsFrameIn headers ip slice.now layers
            → IsOkAnd result (λ packet. headers_of packet ≡ headers_in layers) }
        ensures bytes { IfOk result (λ packet. IsSubsliceOf (payload_part_bytes (payload_part_of packet.payload)) slice.now) }
        ensures err { IfErr result (RefusesFrameIn headers ip slice.now) }
    {
        let mut packet = PacketHeaders::blank();
        match packet.fill_outlined(Entry::Ip, slice) {
            Ok(()) => Ok(packet),
            Err(error) => Err(error),
        }
    }

    /// Returns the outermost VLAN tag of the packet, or the two outermost as one double tag, if there are at least two;
    /// `None` without a VLAN tag.
    pub fn vlan(&self) -> Option<VlanHeader>
        ensures { result ≡ outer_headers (vlan_headers self.now.link_exts.items) }
    {
        outer_vlan_headers(&self.link_exts)
    }

    /// Returns the VLAN identifiers of all VLAN tags of the packet, from the outside in.
    pub fn vlan_ids(&self) -> ArrayVec<VlanId, 3>
        ensures { result.items ≡ header_vlan_ids self.now.link_exts.items }
    {
        vlan_ids_of_headers(&self.link_exts)
    }

    /// Returns a packet with default IPv4 and TCP headers, which the caller overwrites. Most packets have these
    /// headers, so that their space is initialized once.
    #[inline(always)]
    fn blank() -> PacketHeaders<'a> {
        PacketHeaders {
            link: None,
            link_exts: ArrayVec::new(),
            net: Some(NetHeaders::Ipv4(Ipv4Header::default(), Ipv4Extensions { auth: None })),
            transport: Some(TransportHeader::Tcp(TcpHeader::default())),
            payload: PayloadSlice::Empty,
        }
    }

    /// Decodes the packet whose first protocol is `entry` into `self`, which may contain a previous packet. After an
    /// error the content of `self` is unspecified: headers decoded so far may be mixed with headers of the previous
    /// packet.
    #[inline(always)]
    fn fill(&mut self, entry: Entry, bytes: &'a [u8]) -> Result<(), SliceError>
        ensures ok { OnOk result (AreDecoded entry bytes.now (headers_of self.new)) }
        ensures only { (layers : Layers) → IsFrameIn headers entry bytes.now layers
            → IsOkAnd result (λ _. headers_of self.new ≡ headers_in layers) }
        ensures bytes { OnOk result (IsSubsliceOf (payload_part_bytes (payload_part_of self.new.payload)) bytes.now) }
        ensures err { IfErr result (RefusesFrameIn headers entry bytes.now) }
    {
        self.fill_frame(entry, bytes)
    }

    /// Decodes a packet like [`PacketHeaders::fill`], but is not inlined. The functions that return an owned packet are
    /// inlined and call this one, so that a hot loop zeroes the packet once per frame, and moves it at most once.
    #[inline(never)]
    fn fill_outlined(&mut self, entry: Entry, bytes: &'a [u8]) -> Result<(), SliceError>
        ensures ok { OnOk result (AreDecoded entry bytes.now (headers_of self.new)) }
        ensures only { (layers : Layers) → IsFrameIn headers entry bytes.now layers
            → IsOkAnd result (λ _. headers_of self.new ≡ headers_in layers) }
        ensures bytes { OnOk result (IsSubsliceOf (payload_part_bytes (payload_part_of self.new.payload)) bytes.now) }
        ensures err { IfErr result (RefusesFrameIn headers entry bytes.now) }
    {
        self.fill(entry, bytes)
    }

    /// Decodes the packet whose first protocol is `entry` into `self`. [`PacketHeaders::fill`] calls this function, and
    /// has two more contract clauses (`only` and `bytes`), which follow from the two here.
    #[inline(always)]
    fn fill_frame(&mut self, entry: Entry, bytes: &'a [u8]) -> Result<(), SliceError>
        ensures ok { OnOk result (AreDecoded entry bytes.now (headers_of self.new)) }
        ensures err { IfErr result (RefusesFrameIn headers entry bytes.now) }
    {
        match entry {
            Entry::Ethernet => self.fill_ethernet(bytes),
            Entry::LinuxSll => self.fill_linux_sll(bytes),
            Entry::EtherType(ether_type) => {
                self.set_link(None);
                self.fill_inside(0, link_ether_payload(ether_type, bytes))
            }
            Entry::Ip => {
                self.set_link(None);
                self.fill_ip(bytes)
            }
        }
    }

    /// Decodes a packet that begins with an Ethernet II header into `self`.
    #[inline]
    fn fill_ethernet(&mut self, bytes: &'a [u8]) -> Result<(), SliceError>
        ensures ok { OnOk result ((layers : Layers) × IsFrameIn headers ethernet bytes.now layers
            × (headers_of self.new ≡ headers_in layers)) }
        ensures err { IfErr result (RefusesFrameIn headers ethernet bytes.now) }
    {
        let frame = match Ethernet2Slice::from_slice_without_fcs(bytes) {
            Ok(frame) => frame,
            Err(error) => return Err(SliceError::Len(error)),
        };
        self.set_link(Some(LinkHeader::Ethernet2(frame.to_header())));
        self.fill_inside(Ethernet2Header::LEN, frame.payload())
    }

    /// Decodes a packet that begins with a Linux cooked capture header (SLL v1) into `self`.
    fn fill_linux_sll(&mut self, bytes: &'a [u8]) -> Result<(), SliceError>
        ensures ok { OnOk result ((layers : Layers) × IsFrameIn headers linux_sll bytes.now layers
            × (headers_of self.new ≡ headers_in layers)) }
        ensures err { IfErr result (RefusesFrameIn headers linux_sll bytes.now) }
    {
        let frame = match LinuxSllSlice::from_slice(bytes) {
            Ok(frame) => frame,
            Err(linux_sll::HeaderSliceError::Len(error)) => return Err(SliceError::Len(error)),
            Err(linux_sll::HeaderSliceError::Content(error)) => {
                return Err(SliceError::LinuxSll(error));
            }
        };
        self.set_link(Some(LinkHeader::LinuxSll(frame.to_header())));
        let payload = frame.payload_slice();
        match frame.protocol_type().ether_type() {
            Some(ether_type) => {
                self.fill_inside(LinuxSllHeader::LEN, link_ether_payload(ether_type, payload))
            }
            None => {
                self.set_payload(PayloadSlice::MacsecMod(payload));
                Ok(())
            }
        }
    }

    /// Sets the link header of the packet (`None` for a packet without one), and removes its link extensions.
    #[inline]
    fn set_link(&mut self, link: Option<LinkHeader>)
        ensures { headers_of self.new ≡ begun (headers_of self.old) link }
    {
        self.link = link;
        self.link_exts.clear();
    }

    /// Sets the payload of a packet in which no network layer is decoded, and removes its network and transport
    /// headers.
    #[inline]
    fn set_payload(&mut self, payload: PayloadSlice<'a>)
        ensures { headers_of self.new ≡ record (headers_of self.old) {
          net = None;
          transport = None;
          payload = payload_part_of payload.entry;
        } }
    {
        if self.net.is_some() {
            self.net = None;
        }
        self.transport = None;
        self.payload = payload;
    }

    /// Decodes the payload of a link layer or link extension: further link extensions, up to three in all, and the
    /// network and transport layer after them. `offset` is the offset of the payload from the start of the packet, in
    /// bytes.
    fn fill_inside(
        &mut self,
        offset: usize,
        payload: EtherPayloadSlice<'a>,
    ) -> Result<(), SliceError>
        requires place { offset + length payload.payload.now < 2 ^ 64 }
        ensures ok { IfOk result (λ _. FillsInside (most_link_exts - length self.old.link_exts.items)
            (ether_payload_of payload.entry) (headers_of self.old) (headers_of self.new)) }
        ensures err { IfErr result (RefusesInside headers (most_link_exts - length self.old.link_exts.items) offset
            (Some payload.entry.ether_type) payload.entry.payload.now) }
    {
        if self.link_exts.is_full() {
            return self.fill_net(offset, payload);
        }
        let extension = match LinkExtSlice::from_ether_type(payload.ether_type, payload.payload) {
            Ok(Some(extension)) => extension,
            Ok(None) => return self.fill_net(offset, payload),
            Err(macsec::HeaderSliceError::Len(error)) => {
                return Err(SliceError::Len(error.add_offset(offset)));
            }
            Err(macsec::HeaderSliceError::Content(error)) => return Err(SliceError::Macsec(error)),
        };
        let offset = offset + extension.header_len();
        self.link_exts.push(extension.to_header());
        match extension.ether_payload() {
            Some(inside) => self.fill_inside(
                offset,
                EtherPayloadSlice {
                    len_source: inside.len_source.limited_by(payload.len_source),
                    ..inside
                },
            ),
            None => {
                self.set_payload(PayloadSlice::MacsecMod(extension.payload_slice()));
                Ok(())
            }
        }
    }

    /// Decodes the network layer (IPv4, IPv6 or ARP) that the ether type of the payload names, and the transport layer
    /// in it. `offset` is the offset of the payload from the start of the packet, in bytes.
    fn fill_net(&mut self, offset: usize, payload: EtherPayloadSlice<'a>) -> Result<(), SliceError>
        requires place { offset + length payload.payload.now < 2 ^ 64 }
        ensures ok { IfOk result (λ _. FillsNet (net_kind payload.entry.ether_type) payload.entry.payload.now
            (ether (ether_payload_of payload.entry)) (headers_of self.old) (headers_of self.new)) }
        ensures err { IfErr result
            (RefusesNetPart headers offset (net_kind payload.entry.ether_type) payload.entry.payload.now) }
    {
        match payload.ether_type {
            ether_type::IPV4 => self.fill_ipv4(offset, payload.payload),
            ether_type::IPV6 => self.fill_ipv6(offset, payload.payload),
            ether_type::ARP => self.fill_arp(offset, payload.payload),
            _ => {
                self.set_payload(PayloadSlice::Ether(payload));
                Ok(())
            }
        }
    }

    /// Decodes an IPv4 packet and the transport layer in it. `offset` is its offset from the start of the whole packet,
    /// in bytes.
    fn fill_ipv4(&mut self, offset: usize, slice: &'a [u8]) -> Result<(), SliceError>
        requires place { offset + length slice.now < 2 ^ 64 }
        ensures ok { IfOk result (λ _.
            FillsNet (Some only_ipv4) slice.now empty (headers_of self.old) (headers_of self.new)) }
        ensures err { IfErr result (RefusesNetPart headers offset (Some only_ipv4) slice.now) }
    {
        let (payload, payload_offset) = match fill_ipv4(&mut self.net, slice) {
            Ok(read) => read,
            Err(ipv4::SliceError::Len(error)) => {
                return Err(SliceError::Len(error.add_offset(offset)));
            }
            Err(ipv4::SliceError::Header(error)) => return Err(SliceError::Ipv4(error)),
            Err(ipv4::SliceError::Exts(error)) => return Err(SliceError::Ipv4Exts(error)),
        };
        self.fill_transport(offset + payload_offset, payload)
    }

    /// Decodes an IPv6 packet and the transport layer in it. `offset` is its offset from the start of the whole packet,
    /// in bytes.
    fn fill_ipv6(&mut self, offset: usize, slice: &'a [u8]) -> Result<(), SliceError>
        requires place { offset + length slice.now < 2 ^ 64 }
        ensures ok { IfOk result (λ _.
            FillsNet (Some only_ipv6) slice.now empty (headers_of self.old) (headers_of self.new)) }
        ensures err { IfErr result (RefusesNetPart headers offset (Some only_ipv6) slice.now) }
    {
        let (payload, payload_offset) = match fill_ipv6(&mut self.net, slice) {
            Ok(read) => read,
            Err(ipv6::SliceError::Len(error)) => {
                return Err(SliceError::Len(error.add_offset(offset)));
            }
            Err(ipv6::SliceError::Header(error)) => return Err(SliceError::Ipv6(error)),
            Err(ipv6::SliceError::Exts(error)) => return Err(SliceError::Ipv6Exts(error)),
        };
        self.fill_transport(offset + payload_offset, payload)
    }

    /// Decodes an IP packet without a link layer, version 4 or 6, and the transport layer in it.
    fn fill_ip(&mut self, slice: &'a [u8]) -> Result<(), SliceError>
        ensures ok { IfOk result (λ _.
            FillsNet (Some any_ip) slice.now empty (headers_of self.old) (headers_of self.new)) }
        ensures err { IfErr result (RefusesNetPart headers 0 (Some any_ip) slice.now) }
    {
        let (payload, payload_offset) = match fill_ip(&mut self.net, slice) {
            Ok(read) => read,
            Err(ip::HeadersSliceError::Len(error)) => return Err(SliceError::Len(error)),
            Err(ip::HeadersSliceError::Content(error)) => return Err(match error {
                ip::HeadersError::Ip(error) => SliceError::Ip(error),
                ip::HeadersError::Ipv4Ext(error) => SliceError::Ipv4Exts(error),
                ip::HeadersError::Ipv6Ext(error) => SliceError::Ipv6Exts(error),
            }),
        };
        self.fill_transport(payload_offset, payload)
    }

    /// Decodes an ARP packet, which has no payload. `offset` is its offset from the start of the whole packet, in
    /// bytes.
    fn fill_arp(&mut self, offset: usize, slice: &'a [u8]) -> Result<(), SliceError>
        requires place { offset + length slice.now < 2 ^ 64 }
        ensures ok { IfOk result (λ _.
            FillsNet (Some only_arp) slice.now empty (headers_of self.old) (headers_of self.new)) }
        ensures err { IfErr result (RefusesNetPart headers offset (Some only_arp) slice.now) }
    {
        match ArpPacketSlice::from_slice(slice) {
            Ok(packet) => {
                self.net = Some(NetHeaders::Arp(packet.to_header()));
                self.transport = None;
                self.payload = PayloadSlice::Empty;
                Ok(())
            }
            Err(error) => Err(SliceError::Len(error.add_offset(offset))),
        }
    }

    /// Decodes the transport header at the start of an IP payload, if its protocol is supported and it is no fragment,
    /// and sets the payload of the packet. `offset` is the offset of the IP payload from the start of the packet, in
    /// bytes.
    fn fill_transport(
        &mut self,
        offset: usize,
        payload: IpPayloadSlice<'a>,
    ) -> Result<(), SliceError>
        requires place { offset < 2 ^ 64 }
        ensures ok { IfOk result (λ _.
            FillsTransport (ip_payload_of payload.entry) (headers_of self.old) (headers_of self.new)) }
        ensures err { IfErr result (RefusesTransportIn headers offset (ip_payload_of payload.entry)) }
    {
        match TransportHeader::read_into(
            &mut self.transport,
            payload.ip_number,
            payload.fragmented,
            payload.payload,
        ) {
            Ok(rest) => {
                self.payload = match &self.transport {
                    Some(TransportHeader::Udp(_)) => PayloadSlice::Udp(rest),
                    Some(TransportHeader::Tcp(_)) => PayloadSlice::Tcp(rest),
                    Some(TransportHeader::Icmpv4(_)) => PayloadSlice::Icmpv4(rest),
                    Some(TransportHeader::Icmpv6(_)) => PayloadSlice::Icmpv6(rest),
                    None => PayloadSlice::Ip(payload),
                };
                Ok(())
            }
            Err(tcp::HeaderSliceError::Len(error)) => {
                Err(SliceError::Len(error.after_header(offset, payload.len_source)))
            }
            Err(tcp::HeaderSliceError::Content(error)) => Err(SliceError::Tcp(error)),
        }
    }
}

/// Returns the bytes as the payload of a link layer with the given ether type, limited by the end of the slice.
#[inline]
fn link_ether_payload<'a>(ether_type: EtherType, payload: &'a [u8]) -> EtherPayloadSlice<'a>
    ensures { ether_payload_of result ≡ unlimited_ether_payload payload.now ether_type }
{
    EtherPayloadSlice {
        ether_type,
        len_source: LenSource::Slice,
        payload,
    }
}
