//! Proofs that header fields fit their widths on the wire, which the Rust types of the fields guarantee. The functions
//! have no effect, and their contracts hold for every value.

ghost use Rattle.std.specs.Prelude.{◌≡◌, length};
ghost use Rattle.ep_base.specs.Bytes.{AreBytes};
ghost use Rattle.ep_ip.specs.Ipv4.{FitsIpv4};
ghost use Rattle.ep_ip.specs.Ipv6.{FitsIpv6};
ghost use Rattle.ep_link.specs.Ethernet2.{FitsEthernet2};
ghost use Rattle.ep_link.specs.Vlan.{FitsVlan};
ghost use Rattle.ep_transport.specs.Icmpv4.{icmpv4_bytes, icmpv4_kind, icmpv4_len};
ghost use Rattle.ep_transport.specs.Icmpv6.{icmpv6_bytes};
ghost use Rattle.ep_transport.specs.Tcp.{FitsTcp};
ghost use Rattle.ep_transport.specs.Udp.{FitsUdp};
ghost use Rattle.ep_build.specs.Fits.{FitTags, FitsCooked, FitsLink, FitsTransport};
ghost use Rattle.ep_packet.specs.IpHeaders.{FitsIpHeader};

use crate::link_part::LinkPart;
use ep_ip::{Ipv4Header, Ipv6Header};
use ep_link::{Ethernet2Header, LinuxSllHeader, SingleVlanHeader, VlanHeader};
use ep_packet::IpHeaders;
use ep_transport::{Icmpv4Header, Icmpv6Header, TcpHeader, TransportHeader, UdpHeader};

/// Proves that each field of a link header and its VLAN tags fits its width on the wire. In a Linux cooked capture
/// header these are only the packet type, the sender address and its length; the other fields are filled in when the
/// frame is written. It has no effect at run time.
#[inline]
pub(crate) fn link_fits(link: &LinkPart)
    ensures { FitsLink link.now }
{
    match link {
        LinkPart::Absent => {}
        LinkPart::Ethernet2(header) => ethernet2_fits(header),
        LinkPart::Tagged(header, tags) => {
            ethernet2_fits(header);
            tags_fit(tags);
        }
        LinkPart::LinuxSll(header) => linux_sll_fits(header),
    }
}

/// Proves that each field of an IPv4 or IPv6 header fits its width on the wire. It has no effect at run time.
#[inline]
pub(crate) fn ip_header_fits(headers: &IpHeaders)
    ensures { FitsIpHeader headers.now }
{
    match headers {
        IpHeaders::Ipv4(header, _) => ipv4_fits(header),
        IpHeaders::Ipv6(header, _) => ipv6_fits(header),
    }
}

/// Proves that each field of a UDP or TCP header fits its width on the wire, and that an ICMP header is encoded in 20
/// bytes for the ICMPv4 variants `TimestampRequest` and `TimestampReply`, and in 8 bytes for all others. It has no
/// effect at run time.
#[inline]
pub(crate) fn transport_fits(transport: &TransportHeader)
    ensures { FitsTransport transport.now }
{
    match transport {
        TransportHeader::Udp(header) => udp_fits(header),
        TransportHeader::Tcp(header) => tcp_fits(header),
        TransportHeader::Icmpv4(header) => icmpv4_fits(header),
        TransportHeader::Icmpv6(header) => icmpv6_fits(header),
    }
}

/// Proves that each element of a `u8` slice is below 256. It has no effect at run time.
#[inline]
fn are_bytes(slice: &[u8])
    ensures { AreBytes slice.now }
{
    let _len = slice.len();
}

/// Proves that each field of an Ethernet II header fits its width on the wire. It has no effect at run time.
#[inline]
fn ethernet2_fits(header: &Ethernet2Header)
    ensures { FitsEthernet2 header.now }
{
    let _ether_type = header.ether_type.0;
    are_bytes(&header.source);
    are_bytes(&header.destination);
}

/// Proves that each field of one or two VLAN tags fits its width on the wire. It has no effect at run time.
#[inline]
fn tags_fit(tags: &VlanHeader)
    ensures { FitTags tags.now }
{
    match tags {
        VlanHeader::Single(tag) => tag_fits(tag),
        VlanHeader::Double(tags) => {
            tag_fits(&tags.outer);
            tag_fits(&tags.inner);
        }
    }
}

/// Proves that each field of a VLAN tag fits its width on the wire. It has no effect at run time.
#[inline]
fn tag_fits(tag: &SingleVlanHeader)
    ensures { FitsVlan tag.now }
{
    let _pcp = tag.pcp.value();
    let _vlan_id = tag.vlan_id.value();
    let _ether_type = tag.ether_type.0;
}

/// Proves that the fields of a Linux cooked capture header that writing does not fill in (packet type, sender address
/// and its length) fit their widths on the wire. It has no effect at run time.
#[inline]
fn linux_sll_fits(header: &LinuxSllHeader)
    ensures { FitsCooked header.now }
{
    let _packet_type = header.packet_type.0;
    let _valid_length = header.sender_address_valid_length;
    are_bytes(&header.sender_address);
}

/// Proves that each field of an IPv4 header fits its width on the wire. It has no effect at run time.
#[inline]
pub(crate) fn ipv4_fits(header: &Ipv4Header)
    ensures { FitsIpv4 header.now }
{
    let _dscp = header.dscp.value();
    let _ecn = header.ecn.value();
    let _total_len = header.total_len;
    let _identification = header.identification;
    let _fragment_offset = header.fragment_offset.value();
    let _time_to_live = header.time_to_live;
    let _protocol = header.protocol.0;
    let _header_checksum = header.header_checksum;
    let _options_len = header.options.len();
    are_bytes(&header.source);
    are_bytes(&header.destination);
    are_bytes(header.options.as_slice());
}

/// Proves that each field of an IPv6 header fits its width on the wire. It has no effect at run time.
#[inline]
pub(crate) fn ipv6_fits(header: &Ipv6Header)
    ensures { FitsIpv6 header.now }
{
    let _traffic_class = header.traffic_class;
    let _flow_label = header.flow_label.value();
    let _payload_length = header.payload_length;
    let _next_header = header.next_header.0;
    let _hop_limit = header.hop_limit;
    are_bytes(&header.source);
    are_bytes(&header.destination);
}

/// Proves that each field of a UDP header fits its width on the wire. It has no effect at run time.
#[inline]
fn udp_fits(header: &UdpHeader)
    ensures { FitsUdp header.now }
{
    let _source_port = header.source_port;
    let _destination_port = header.destination_port;
    let _length = header.length;
    let _checksum = header.checksum;
}

/// Proves that each field of a TCP header fits its width on the wire. It has no effect at run time.
#[inline]
fn tcp_fits(header: &TcpHeader)
    ensures { FitsTcp header.now }
{
    let _source_port = header.source_port;
    let _destination_port = header.destination_port;
    let _sequence_number = header.sequence_number;
    let _acknowledgment_number = header.acknowledgment_number;
    let _window_size = header.window_size;
    let _checksum = header.checksum;
    let _urgent_pointer = header.urgent_pointer;
    let _options_len = header.options.len();
    are_bytes(header.options.as_slice());
}

/// Proves that an ICMPv4 header is encoded in 20 bytes for the variants `TimestampRequest` and `TimestampReply`, and in
/// 8 bytes for all others. The encoding is computed only for the proof.
#[inline]
pub(crate) fn icmpv4_fits(header: &Icmpv4Header)
    ensures { length (icmpv4_bytes header.now) ≡ icmpv4_len (icmpv4_kind header.now.icmp_type) }
{
    let _bytes = header.to_bytes();
}

/// Proves that an ICMPv6 header is encoded in 8 bytes. The encoding is computed only for the proof.
#[inline]
pub(crate) fn icmpv6_fits(header: &Icmpv6Header)
    ensures { length (icmpv6_bytes header.now) ≡ 8 }
{
    let _bytes = header.to_bytes();
}
