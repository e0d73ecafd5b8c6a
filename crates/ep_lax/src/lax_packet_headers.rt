//! Packet parsed laxly into owned headers, and the payload after them.

ghost use Rattle.std.specs.Prelude.{◌≡◌, ◌≤◌, ◌<◌, ◌+◌, ◌-◌, ◌^◌, [], drop, false, length, IfOk, IfErr, None, Some};
ghost use Rattle.std.specs.Option.{option_map};
ghost use Rattle.ep_base.specs.IpPayload.{lax_ip_payload_of};
ghost use Rattle.ep_base.specs.LaxCut.{LaxCut, IsLaxCut};
ghost use Rattle.ep_base.specs.declared.len_source.LenSource.TheVariants as source;
ghost use Rattle.ep_base.specs.Readings.{headers};
ghost use Rattle.ep_ip.specs.LaxIp.{RefusesIpHeader};
ghost use Rattle.ep_link.specs.LinkSlices.{link_layer_of};
ghost use Rattle.ep_transport.specs.TransportParts.{IsTransportPart, transport_layer};
ghost use Rattle.ep_packet.specs.Frame.{any_ip, most_link_exts, net_kind, only_arp, only_ipv4, only_ipv6};
ghost use Rattle.ep_lax.specs.Lax.{IsLimitedLaxly};
ghost use Rattle.ep_lax.specs.LaxHeadersWalk.{AreAfterLink, FillsLaxInside, FillsLaxNet, FillsLaxTransport, IsInIp, untyped_part};
ghost use Rattle.ep_lax.specs.LaxLayers.{LaxTransport, error_with_layer};
ghost use Rattle.ep_lax.specs.LaxPacketHeaders.{lax_headers_of};
ghost use Rattle.ep_lax.specs.LaxPayloadParts.{empty, ether, ip as in_ip, lax_payload_part_bytes, lax_payload_part_of, udp};
ghost use Rattle.ep_lax.specs.LaxPayloads.{lax_ether_payload_of};

use crate::lax_ether_payload_slice::LaxEtherPayloadSlice;
use crate::lax_link_ext_slice::LaxLinkExtSlice;
use crate::lax_payload_slice::LaxPayloadSlice;
use crate::lax_stop::{auth_stop, chain_stop, clear_stop, error_with_layer, extension_stop};
use arrayvec::ArrayVec;
use ep_base::err::{Layer, LenError, ip, ipv4, ipv6, linux_sll, tcp};
use ep_base::lax_cut::{LengthField, limit_by_length_field};
use ep_base::{EtherType, LaxIpPayloadSlice, LenSource, VlanId, ether_type};
use ep_ip::lax::{of_ipv4_header, of_ipv6_header, unsupported};
use ep_link::{ArpPacketSlice, LinkExtHeader, LinkHeader, LinkSlice, VlanHeader};
use ep_packet::err::SliceError;
use ep_packet::vlan_tags::{outer_vlan_headers, vlan_ids_of_headers};
use ep_packet::{Entry, LinkPart, NetHeaders};
use ep_transport::TransportHeader;

/// Owned headers of a packet parsed laxly, from the outside in, up to the first one that is invalid or truncated, and
/// the payload after them. A length field above the available bytes is ignored, and so is an IPv4 or UDP length below
/// that of its own header. A second IPv6 extension header of one kind is left in the payload; only Hop-by-Hop options
/// that are not first are an error. A value has space for every kind of IPv6 extension header, even if none is present.
#[derive(Clone, Debug, PartialEq, Eq, Drop)]
pub struct LaxPacketHeaders<'a> {
    /// Link header (Ethernet II or Linux cooked capture); `None` if the packet was parsed from an ether type or from
    /// IP.
    pub link: Option<LinkHeader>,
    /// Headers of the link extensions (VLAN and MACsec tags), from the outside in, at most three.
    pub link_exts: ArrayVec<LinkExtHeader, 3>,
    /// Network layer: the IP header and its valid extension headers, or the ARP packet; `None` if absent, of another
    /// type or invalid.
    pub net: Option<NetHeaders>,
    /// Transport header (UDP, TCP, ICMPv4 or ICMPv6); `None` if absent, of another type, invalid or in a fragment.
    pub transport: Option<TransportHeader>,
    /// Payload after the last valid header; bytes may be missing.
    pub payload: LaxPayloadSlice<'a>,
    /// Error at which lax parsing stopped, and the layer it is about; `None` if each header read is valid and complete,
    /// even if bytes of a payload are missing. The payload begins with the invalid layer.
    pub stop_err: Option<(SliceError, Layer)>,
}

impl<'a> LaxPacketHeaders<'a> {
    ghost use Rattle.std.specs.Prelude.{IsOkAnd};
    ghost use Rattle.ep_link.specs.Ethernet2.{RefusesEthernet2};
    ghost use Rattle.ep_link.specs.LinuxSll.{RefusesLinuxSll};
    ghost use Rattle.ep_packet.specs.declared.entry.Entry.TheVariants.{Ethernet as ethernet, LinuxSll as linux_sll, EtherType as of_type, Ip as ip};
    ghost use Rattle.ep_packet.specs.PacketHeaders.{IsSubsliceOf, header_vlan_ids, outer_headers, vlan_headers};
    ghost use Rattle.ep_lax.specs.Lax.{IsLaxIn};
    ghost use Rattle.ep_lax.specs.LaxHeadersWalk.{AreReadLaxly};
    ghost use Rattle.ep_lax.specs.LaxLayers.{LaxLayers};
    ghost use Rattle.ep_lax.specs.LaxPacketHeaders.{lax_headers_in, no_lax_headers};
    ghost use Rattle.ep_lax.specs.LaxRefusals.{RefusesLax};

    /// Maximum number of link extensions (VLAN and MACsec tags) that are parsed: 3. Further ones are left in the
    /// payload.
    pub const LINK_EXTS_CAP: usize = 3;

    /// Creates a packet without headers, whose payload is `Empty`.
    #[inline]
    pub fn new() -> LaxPacketHeaders<'a>
        ensures { lax_headers_of result ≡ no_lax_headers }
    {
        LaxPacketHeaders {
            link: None,
            link_exts: ArrayVec::new(),
            net: None,
            transport: None,
            payload: LaxPayloadSlice::Empty,
            stop_err: None,
        }
    }

    /// Parses the headers of a packet that begins with an Ethernet II header, as far as they are valid. An error in an
    /// inner layer is stored in `stop_err`.
    ///
    /// # Errors
    ///
    /// Returns an error if the slice is too short for the Ethernet II header.
    #[inline(always)]
    pub fn from_ethernet(slice: &'a [u8]) -> Result<LaxPacketHeaders<'a>, LenError>
        ensures ok { IfOk result (λ packet. (layers : LaxLayers) × IsLaxIn headers ethernet slice.now layers
            × (lax_headers_of packet ≡ lax_headers_in layers)) }
        ensures only { (layers : LaxLayers) → IsLaxIn headers ethernet slice.now layers
            → IsOkAnd result (λ packet. lax_headers_of packet ≡ lax_headers_in layers) }
        ensures bytes { IfOk result (λ packet.
            IsSubsliceOf (lax_payload_part_bytes (lax_payload_part_of packet.payload)) slice.now) }
        ensures err { IfErr result (RefusesEthernet2 slice.now) }
    {
        match LinkPart::ethernet(slice) {
            Ok(part) => {
                let mut packet = LaxPacketHeaders::new();
                packet.fill_link(part);
                Ok(packet)
            }
            Err(error) => Err(error),
        }
    }

    /// Parses the headers of a packet that begins with the header of a Linux cooked capture (SLL v1), as far as they
    /// are valid. An error in an inner layer is stored in `stop_err`.
    ///
    /// # Errors
    ///
    /// Returns an error if the SLL header is invalid or truncated.
    #[inline(always)]
    pub fn from_linux_sll(
        slice: &'a [u8],
    ) -> Result<LaxPacketHeaders<'a>, linux_sll::HeaderSliceError>
        ensures ok { IfOk result (λ packet. (layers : LaxLayers) × IsLaxIn headers linux_sll slice.now layers
            × (lax_headers_of packet ≡ lax_headers_in layers)) }
        ensures only { (layers : LaxLayers) → IsLaxIn headers linux_sll slice.now layers
            → IsOkAnd result (λ packet. lax_headers_of packet ≡ lax_headers_in layers) }
        ensures bytes { IfOk result (λ packet.
            IsSubsliceOf (lax_payload_part_bytes (lax_payload_part_of packet.payload)) slice.now) }
        ensures err { IfErr result (RefusesLinuxSll slice.now) }
    {
        match LinkPart::linux_sll(slice) {
            Ok(part) => {
                let mut packet = LaxPacketHeaders::new();
                packet.fill_link(part);
                Ok(packet)
            }
            Err(error) => Err(error),
        }
    }

    /// Parses the headers after a link header, given their ether type, as far as they are valid. This never fails; the
    /// first error is stored in `stop_err`.
    #[inline(always)]
    pub fn from_ether_type(ether_type: EtherType, slice: &'a [u8]) -> LaxPacketHeaders<'a>
        ensures ok { (layers : LaxLayers) × IsLaxIn headers (of_type ether_type) slice.now layers
            × (lax_headers_of result ≡ lax_headers_in layers) }
        ensures only { (layers : LaxLayers) → IsLaxIn headers (of_type ether_type) slice.now layers
            → lax_headers_of result ≡ lax_headers_in layers }
        ensures bytes { IsSubsliceOf (lax_payload_part_bytes (lax_payload_part_of result.payload)) slice.now }
    {
        let mut packet = LaxPacketHeaders::new();
        packet.fill_link(LinkPart::ether_type(ether_type, slice));
        packet
    }

    /// Parses the headers of an IPv4 or IPv6 packet without a link layer, as far as they are valid. An error after the
    /// IP header is stored in `stop_err`.
    ///
    /// # Errors
    ///
    /// Returns an error if the IP header is invalid or truncated.
    #[inline(always)]
    pub fn from_ip(slice: &'a [u8]) -> Result<LaxPacketHeaders<'a>, ip::LaxHeaderSliceError>
        ensures ok { IfOk result (λ packet. (layers : LaxLayers) × IsLaxIn headers ip slice.now layers
            × (lax_headers_of packet ≡ lax_headers_in layers)) }
        ensures only { (layers : LaxLayers) → IsLaxIn headers ip slice.now layers
            → IsOkAnd result (λ packet. lax_headers_of packet ≡ lax_headers_in layers) }
        ensures bytes { IfOk result (λ packet.
            IsSubsliceOf (lax_payload_part_bytes (lax_payload_part_of packet.payload)) slice.now) }
        ensures err { IfErr result (RefusesIpHeader slice.now) }
    {
        let mut packet = LaxPacketHeaders::new();
        match packet.fill_from_ip(slice) {
            Ok(()) => Ok(packet),
            Err(error) => Err(error),
        }
    }

    /// Parses a packet into this value, whose headers are all replaced. `entry` names the header that the bytes start
    /// with. Made for repeated calls: if the previous packet had the same IP version, the space of absent headers is
    /// not touched. After an error the value has no headers.
    pub fn read_into(&mut self, entry: Entry, bytes: &'a [u8]) -> Result<(), SliceError>
        ensures ok { IfOk result (λ _. (layers : LaxLayers) × IsLaxIn headers entry bytes.now layers
            × (lax_headers_of self.new ≡ lax_headers_in layers)) }
        ensures only { (layers : LaxLayers) → IsLaxIn headers entry bytes.now layers
            → IsOkAnd result (λ _. lax_headers_of self.new ≡ lax_headers_in layers) }
        ensures bytes { IfOk result (λ _.
            IsSubsliceOf (lax_payload_part_bytes (lax_payload_part_of self.new.payload)) bytes.now) }
        ensures err { IfErr result (RefusesLax entry bytes.now) }
        ensures none { IfErr result (λ _. lax_headers_of self.new ≡ no_lax_headers) }
    {
        match self.fill(entry, bytes) {
            Ok(()) => Ok(()),
            Err(error) => {
                self.clear();
                Err(error)
            }
        }
    }

    /// Returns the outermost VLAN tag of the packet, or the two outermost as one double tag, if there are at least two;
    /// `None` without a VLAN tag.
    pub fn vlan(&self) -> Option<VlanHeader>
        ensures { result ≡ outer_headers (vlan_headers self.now.link_exts.items) }
    {
        outer_vlan_headers(&self.link_exts)
    }

    /// Returns the VLAN identifiers of all VLAN tags of the packet, from the outside in.
    pub fn vlan_ids(&self) -> ArrayVec<VlanId, 3>
        ensures { result.items ≡ header_vlan_ids self.now.link_exts.items }
    {
        vlan_ids_of_headers(&self.link_exts)
    }

    /// Removes all headers of this packet, and sets its payload to `Empty`.
    fn clear(&mut self)
        ensures { lax_headers_of self.new ≡ no_lax_headers }
    {
        self.link = None;
        self.link_exts.clear();
        self.net = None;
        self.transport = None;
        self.payload = LaxPayloadSlice::Empty;
        clear_stop(&mut self.stop_err);
    }

    /// Parses a packet into this value, whose headers are replaced. `entry` names the header that the bytes start with.
    /// After an error the content of the value is unspecified.
    fn fill(&mut self, entry: Entry, bytes: &'a [u8]) -> Result<(), SliceError>
        ensures ok { IfOk result (λ _. AreReadLaxly entry bytes.now (lax_headers_of self.new)) }
        ensures err { IfErr result (RefusesLax entry bytes.now) }
    {
        match entry {
            Entry::Ethernet => match LinkPart::ethernet(bytes) {
                Ok(part) => {
                    self.fill_link(part);
                    Ok(())
                }
                Err(error) => Err(SliceError::Len(error)),
            },
            Entry::LinuxSll => match LinkPart::linux_sll(bytes) {
                Ok(part) => {
                    self.fill_link(part);
                    Ok(())
                }
                Err(error) => Err(SliceError::from(error)),
            },
            Entry::EtherType(ether_type) => {
                self.fill_link(LinkPart::ether_type(ether_type, bytes));
                Ok(())
            }
            Entry::Ip => match self.fill_from_ip(bytes) {
                Ok(()) => Ok(()),
                Err(ip::LaxHeaderSliceError::Len(error)) => Err(SliceError::Len(error)),
                Err(ip::LaxHeaderSliceError::Content(error)) => Err(SliceError::Ip(error)),
            },
        }
    }

    /// Stores the header of a parsed link layer in this value, and parses the layers in its payload. Not inlined, so
    /// that a caller zeroes the packet once.
    #[inline(never)]
    fn fill_link(&mut self, part: LinkPart<'a>)
        requires { part.offset + length part.slice.now < 2 ^ 64 }
        ensures { AreAfterLink part.entry (lax_headers_of self.new) }
    {
        self.set_link(part.link.to_header());
        match part.ether_type {
            Some(ether_type) => {
                let payload = LaxEtherPayloadSlice {
                    incomplete: false,
                    ether_type,
                    len_source: LenSource::Slice,
                    payload: part.slice,
                };
                self.fill_inside(part.offset, payload);
            }
            None => self.set_payload(untyped_payload(&part.link)),
        }
    }

    /// Sets the link header of the packet (`None` for a packet without one), and removes its link extensions.
    #[inline]
    fn set_link(&mut self, link: Option<LinkHeader>)
        ensures { lax_headers_of self.new ≡ record (lax_headers_of self.old) { link = link; link_exts = [] } }
    {
        self.link = link;
        self.link_exts.clear();
    }

    /// Parses an IPv4 or IPv6 packet without a link layer into this value. An invalid IP header is an error. Not
    /// inlined, so that a caller zeroes the packet once.
    #[inline(never)]
    fn fill_from_ip(&mut self, slice: &'a [u8]) -> Result<(), ip::LaxHeaderSliceError>
        ensures ok { IfOk result (λ _. AreReadLaxly ip slice.now (lax_headers_of self.new)) }
        ensures err { IfErr result (RefusesIpHeader slice.now) }
    {
        self.set_link(None);
        self.fill_ip(slice)
    }

    /// Parses the payload of a link layer or link extension: further link extensions, up to three in all, and the
    /// network and transport layer after them. `offset` is the offset of the payload from the start of the packet, in
    /// bytes.
    fn fill_inside(&mut self, offset: usize, payload: LaxEtherPayloadSlice<'a>)
        requires { offset + length payload.payload.now < 2 ^ 64 }
        ensures { FillsLaxInside (most_link_exts - length self.old.link_exts.items) offset
            (lax_ether_payload_of payload.entry) (lax_headers_of self.old) (lax_headers_of self.new) }
    {
        if self.link_exts.is_full() {
            return self.fill_net(offset, payload);
        }
        let extension = match LaxLinkExtSlice::read(
            payload.ether_type,
            payload.payload,
            payload.incomplete,
        ) {
            Ok(Some(extension)) => extension,
            Ok(None) => return self.fill_net(offset, payload),
            Err(error) => return self.stop_in(payload, extension_stop(error, offset)),
        };
        let inside_offset = offset + extension.header_len();
        let incomplete = extension.incomplete_in(payload.incomplete);
        self.link_exts.push(extension.to_header());
        match extension.next_ether_type() {
            Some(ether_type) => {
                let inside = LaxEtherPayloadSlice {
                    incomplete,
                    ether_type,
                    len_source: extension.len_source_in(payload.len_source),
                    payload: extension.payload_slice(),
                };
                self.fill_inside(inside_offset, inside);
            }
            None => self.set_payload(LaxPayloadSlice::MacsecModified {
                payload: extension.payload_slice(),
                incomplete,
            }),
        }
    }

    /// Parses the network layer (IPv4, IPv6 or ARP) that the ether type of the payload names, and the transport layer
    /// in it. `offset` is the offset of the payload from the start of the packet, in bytes.
    fn fill_net(&mut self, offset: usize, payload: LaxEtherPayloadSlice<'a>)
        requires { offset + length payload.payload.now < 2 ^ 64 }
        ensures { FillsLaxNet offset payload.entry.incomplete (net_kind payload.entry.ether_type)
            payload.entry.payload.now (ether (lax_ether_payload_of payload.entry)) (lax_headers_of self.old)
            (lax_headers_of self.new) }
    {
        match payload.ether_type {
            ether_type::IPV4 => self.fill_ipv4(offset, payload),
            ether_type::IPV6 => self.fill_ipv6(offset, payload),
            ether_type::ARP => self.fill_arp(offset, payload),
            _ => self.set_payload(LaxPayloadSlice::Ether(payload)),
        }
    }

    /// Parses an IPv4 packet and the transport layer in it. `offset` is its offset from the start of the whole packet,
    /// in bytes.
    fn fill_ipv4(&mut self, offset: usize, payload: LaxEtherPayloadSlice<'a>)
        requires { offset + length payload.payload.now < 2 ^ 64 }
        ensures { FillsLaxNet offset payload.entry.incomplete (Some only_ipv4) payload.entry.payload.now
            (ether (lax_ether_payload_of payload.entry)) (lax_headers_of self.old) (lax_headers_of self.new) }
    {
        match NetHeaders::read_ipv4_lax_into(&mut self.net, payload.payload, payload.incomplete) {
            Ok((inside, start, refused)) => {
                let stop = auth_stop(refused, offset);
                self.fill_ip_payload(offset + start, inside, stop);
            }
            Err(ipv4::HeaderSliceError::Len(error)) => {
                self.stop_in(payload, SliceError::Len(error.add_offset(offset)));
            }
            Err(ipv4::HeaderSliceError::Content(error)) => {
                self.stop_in(payload, SliceError::Ipv4(error));
            }
        }
    }

    /// Parses an IPv6 packet and the transport layer in it. `offset` is its offset from the start of the whole packet,
    /// in bytes.
    fn fill_ipv6(&mut self, offset: usize, payload: LaxEtherPayloadSlice<'a>)
        requires { offset + length payload.payload.now < 2 ^ 64 }
        ensures { FillsLaxNet offset payload.entry.incomplete (Some only_ipv6) payload.entry.payload.now
            (ether (lax_ether_payload_of payload.entry)) (lax_headers_of self.old) (lax_headers_of self.new) }
    {
        match NetHeaders::read_ipv6_lax_into(&mut self.net, payload.payload, payload.incomplete) {
            Ok((inside, start, refused)) => {
                let stop = chain_stop(refused, offset);
                self.fill_ip_payload(offset + start, inside, stop);
            }
            Err(ipv6::HeaderSliceError::Len(error)) => {
                self.stop_in(payload, SliceError::Len(error.add_offset(offset)));
            }
            Err(ipv6::HeaderSliceError::Content(error)) => {
                self.stop_in(payload, SliceError::Ipv6(error));
            }
        }
    }

    /// Parses an IP packet, version 4 or 6, at the start of the whole packet, and the transport layer in it. An invalid
    /// IP header is an error.
    fn fill_ip(&mut self, slice: &'a [u8]) -> Result<(), ip::LaxHeaderSliceError>
        ensures ok { IfOk result (λ _. FillsLaxNet 0 false (Some any_ip) slice.now empty (lax_headers_of self.old)
            (lax_headers_of self.new)) }
        ensures err { IfErr result (RefusesIpHeader slice.now) }
    {
        if slice.len() == 0 {
            return Err(ip::LaxHeaderSliceError::Len(LenError::at_start(
                1,
                0,
                LenSource::Slice,
                Layer::IpHeader,
            )));
        }
        let version_number = slice[0] >> 4;
        if version_number == 4 {
            return match NetHeaders::read_ipv4_lax_into(&mut self.net, slice, false) {
                Ok((payload, offset, refused)) => {
                    let stop = auth_stop(refused, 0);
                    self.fill_ip_payload(offset, payload, stop);
                    Ok(())
                }
                Err(error) => Err(of_ipv4_header(error)),
            };
        }
        if version_number == 6 {
            return match NetHeaders::read_ipv6_lax_into(&mut self.net, slice, false) {
                Ok((payload, offset, refused)) => {
                    let stop = chain_stop(refused, 0);
                    self.fill_ip_payload(offset, payload, stop);
                    Ok(())
                }
                Err(error) => Err(of_ipv6_header(error)),
            };
        }
        Err(unsupported(version_number))
    }

    /// Parses an ARP packet, which has no payload. `offset` is its offset from the start of the whole packet, in bytes.
    fn fill_arp(&mut self, offset: usize, payload: LaxEtherPayloadSlice<'a>)
        requires { offset + length payload.payload.now < 2 ^ 64 }
        ensures { FillsLaxNet offset payload.entry.incomplete (Some only_arp) payload.entry.payload.now
            (ether (lax_ether_payload_of payload.entry)) (lax_headers_of self.old) (lax_headers_of self.new) }
    {
        match ArpPacketSlice::from_slice(payload.payload) {
            Ok(packet) => {
                self.net = Some(NetHeaders::Arp(packet.to_header()));
                self.transport = None;
                self.payload = LaxPayloadSlice::Empty;
                clear_stop(&mut self.stop_err);
            }
            Err(error) => self.stop_in(payload, SliceError::Len(error.add_offset(offset))),
        }
    }

    /// Parses the transport header of an IP payload, and sets the payload of the packet. `offset` is the offset of the
    /// IP payload from the start of the packet, in bytes. If `stop` is the error of an extension header, it is stored
    /// instead, and no transport header is parsed.
    fn fill_ip_payload(
        &mut self,
        offset: usize,
        payload: LaxIpPayloadSlice<'a>,
        stop: Option<SliceError>,
    )
        ensures { FillsLaxTransport offset (lax_ip_payload_of payload.entry) payload.entry.incomplete stop
            (lax_headers_of self.old) (lax_headers_of self.new) }
    {
        match stop {
            None => self.fill_transport(offset, payload),
            Some(error) => self.stop_in_ip(payload, error),
        }
    }

    /// Parses the transport header at the start of an IP payload, if its protocol is supported and it is no fragment,
    /// and sets the payload of the packet. `offset` is the offset of the IP payload from the start of the packet, in
    /// bytes.
    fn fill_transport(&mut self, offset: usize, payload: LaxIpPayloadSlice<'a>)
        ensures { FillsLaxTransport offset (lax_ip_payload_of payload.entry) payload.entry.incomplete None
            (lax_headers_of self.old) (lax_headers_of self.new) }
    {
        match TransportHeader::read_into(
            &mut self.transport,
            payload.ip_number,
            payload.fragmented,
            payload.payload,
        ) {
            Ok(rest) => {
                clear_stop(&mut self.stop_err);
                self.payload = transport_payload(&self.transport, payload, rest);
            }
            Err(tcp::HeaderSliceError::Len(error)) => {
                let error = SliceError::Len(error.after_header(offset, payload.len_source));
                self.stop_in_ip(payload, error);
            }
            Err(tcp::HeaderSliceError::Content(error)) => {
                self.stop_in_ip(payload, SliceError::Tcp(error));
            }
        }
    }

    /// Sets the payload of a packet in which no network layer is parsed, and removes its network and transport headers
    /// and its error.
    fn set_payload(&mut self, payload: LaxPayloadSlice<'a>)
        ensures { lax_headers_of self.new ≡ record (lax_headers_of self.old) {
          net = None;
          transport = None;
          payload = lax_payload_part_of payload.entry;
          stop = None;
        } }
    {
        if self.net.is_some() {
            self.net = None;
        }
        self.transport = None;
        self.payload = payload;
        clear_stop(&mut self.stop_err);
    }

    /// Stops parsing at an error of the layer at the start of `payload`, which becomes the payload of the packet.
    /// Removes the network and transport headers.
    fn stop_in(&mut self, payload: LaxEtherPayloadSlice<'a>, error: SliceError)
        ensures { lax_headers_of self.new ≡ record (lax_headers_of self.old) {
          net = None;
          transport = None;
          payload = ether (lax_ether_payload_of payload.entry);
          stop = Some (error_with_layer error);
        } }
    {
        self.set_payload(LaxPayloadSlice::Ether(payload));
        self.stop_err = Some(error_with_layer(error));
    }

    /// Stops parsing at an error of the layer at the start of an IP payload, which becomes the payload of the packet.
    /// Removes the transport header.
    fn stop_in_ip(&mut self, payload: LaxIpPayloadSlice<'a>, error: SliceError)
        ensures { lax_headers_of self.new ≡ record (lax_headers_of self.old) {
          transport = None;
          payload = in_ip (lax_ip_payload_of payload.entry) payload.entry.incomplete;
          stop = Some (error_with_layer error);
        } }
    {
        self.transport = None;
        self.payload = LaxPayloadSlice::Ip(payload);
        self.stop_err = Some(error_with_layer(error));
    }
}

/// Returns the payload after a transport header that was parsed at the start of an IP payload. `rest` contains the
/// bytes after the header. Without a transport header the payload is that of IP.
fn transport_payload<'a>(
    transport: &Option<TransportHeader>,
    payload: LaxIpPayloadSlice<'a>,
    rest: &'a [u8],
) -> LaxPayloadSlice<'a>
    requires { IsTransportPart headers payload.ip_number.0 payload.fragmented payload.payload.now
        (option_map (λ header. transport_layer header rest.now) transport.now) }
    ensures { (inside : LaxTransport) × IsLimitedLaxly payload.entry.incomplete
        (option_map (λ header. transport_layer header rest.now) transport.now) inside
        × IsInIp (lax_ip_payload_of payload.entry) payload.entry.incomplete transport.now
        (lax_payload_part_of result) inside }
{
    match transport {
        Some(header) => header_payload(header, &payload, rest),
        None => LaxPayloadSlice::Ip(payload),
    }
}

/// Returns the payload after this transport header, which was parsed at the start of an IP payload. `rest` contains the
/// bytes after the header.
fn header_payload<'a>(
    header: &TransportHeader,
    payload: &LaxIpPayloadSlice<'a>,
    rest: &'a [u8],
) -> LaxPayloadSlice<'a>
    requires { IsTransportPart headers payload.now.ip_number.0 payload.now.fragmented payload.now.payload.now
        (Some (transport_layer header.now rest.now)) }
    ensures { (inside : LaxTransport)
        × IsLimitedLaxly payload.now.incomplete (Some (transport_layer header.now rest.now)) inside
        × IsInIp (lax_ip_payload_of payload.now) payload.now.incomplete (Some header.now) (lax_payload_part_of result)
        inside }
{
    let incomplete = payload.incomplete;
    match header {
        TransportHeader::Udp(header) => udp_payload(header.length, payload),
        TransportHeader::Tcp(_) => LaxPayloadSlice::Tcp {
            payload: rest,
            incomplete,
        },
        TransportHeader::Icmpv4(_) => LaxPayloadSlice::Icmpv4 {
            payload: rest,
            incomplete,
        },
        TransportHeader::Icmpv6(_) => LaxPayloadSlice::Icmpv6 {
            payload: rest,
            incomplete,
        },
    }
}

/// Returns the payload of UDP in an IP payload, limited by the UDP length field `stated`, unless the field is below 8
/// or above the available bytes.
fn udp_payload<'a>(stated: u16, payload: &LaxIpPayloadSlice<'a>) -> LaxPayloadSlice<'a>
    requires { 8 ≤ length payload.now.payload.now }
    ensures { (cut : LaxCut) × IsLaxCut 8 stated source.UdpHeaderLen payload.now.incomplete 8
        (drop 8 payload.now.payload.now) cut × (lax_payload_part_of result ≡ udp cut.payload cut.incomplete) }
{
    let field = LengthField {
        least: 8,
        stated: stated as usize,
        source: LenSource::UdpHeaderLen,
    };
    let cut = limit_by_length_field(payload.payload, 8, field, payload.incomplete);
    LaxPayloadSlice::Udp {
        payload: cut.payload,
        incomplete: cut.incomplete,
    }
}

/// Returns the payload of a link layer whose ether type is unknown: that of a Linux cooked capture.
fn untyped_payload<'a>(link: &LinkSlice<'a>) -> LaxPayloadSlice<'a>
    ensures { lax_payload_part_of result ≡ untyped_part (link_layer_of link.now) }
{
    match link {
        LinkSlice::LinuxSll(frame) => LaxPayloadSlice::LinuxSll(frame.payload()),
        _ => LaxPayloadSlice::Empty,
    }
}
