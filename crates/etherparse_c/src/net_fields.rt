//! Reads the fields of IP headers and ARP packets for C.
//!
//! Each function that reads a header returns false if the bytes do not have it; the fields are then meaningless.

ghost use Rattle.std.specs.Prelude.{◌≡◌, ◌<◌, ◌^◌, ◌++◌, replicate};
ghost use Rattle.etherparse.specs.ArpSlices.{arp_slice_packet};
ghost use Rattle.etherparse.specs.Ipv4Slices.{ipv4_header_slice_header};
ghost use Rattle.etherparse.specs.Ipv6Slices.{ipv6_header_slice_header};
ghost use Rattle.etherparse_c.specs.declared.fields.ArpFields.{ArpFields};
ghost use Rattle.etherparse_c.specs.declared.fields.IpFields.{IpFields};
ghost use Rattle.etherparse_c.specs.FieldAnswers.{HasArp, HasIpv4, HasIpv6, IsNetAt, ReadsOnly};
ghost use Rattle.etherparse_c.specs.Fields.{arp_fields, ipv4_fields, ipv6_fields, no_arp_fields, no_ip_fields, place};

use crate::field_reading::bytes_at;
use crate::fields::{ArpFields, IpFields, Place};
use crate::net_part::flag;
use crate::numbers;
use crate::packet::{Ip, Part};
use etherparse::{ArpPacketSlice, Ipv4Header, Ipv4HeaderSlice, Ipv6HeaderSlice};

/// Length of an ARP packet without its addresses in bytes.
const ARP_FIXED_LEN: usize = 8;

/// Reads the fields of the described network header: those of IP or of ARP; the others are 0.
#[inline(always)]
pub(crate) fn read_net(
    net: &Part,
    described: &Ip,
    bytes: &[u8],
    ip: &mut IpFields,
    arp: &mut ArpFields,
) -> bool
    ensures { ReadsOnly (λ (read : IpFields × ArpFields). IsNetAt net.now described.now bytes.now read.0 read.1)
        result (ip.new, arp.new) }
{
    if net.kind == 0 {
        *ip = no_ip_fields();
        *arp = no_arp_fields();
        return true;
    }
    let Some(header) = bytes_at(bytes, net.offset, net.len) else {
        return false;
    };
    if net.kind == numbers::NET_IPV4 {
        *arp = no_arp_fields();
        return read_ipv4(header, net.offset, described, ip);
    }
    if net.kind == numbers::NET_IPV6 {
        *arp = no_arp_fields();
        return read_ipv6(header, described, ip);
    }
    if net.kind == numbers::NET_ARP {
        *ip = no_ip_fields();
        return read_arp(header, net.offset, arp);
    }
    false
}

/// Reads the fields of an IPv4 header, which is at `offset` in the packet.
#[inline(always)]
pub(crate) fn read_ipv4(bytes: &[u8], offset: usize, described: &Ip, fields: &mut IpFields) -> bool
    requires { offset < 2 ^ 63 }
    ensures { ReadsOnly (λ fields. HasIpv4 offset described.now fields bytes.now) result fields.new }
{
    let Ok(header) = Ipv4HeaderSlice::from_slice(bytes) else {
        return false;
    };
    write_ipv4_fields(&header, offset, described, fields);
    true
}

/// Writes the fields of an IPv4 header, which is at `offset` in the packet, each to its place: no struct is built and
/// copied.
#[inline(always)]
fn write_ipv4_fields(
    header: &Ipv4HeaderSlice<'_>,
    offset: usize,
    described: &Ip,
    fields: &mut IpFields,
)
    requires { offset < 2 ^ 63 }
    ensures { fields.new ≡ ipv4_fields offset described.now (ipv4_header_slice_header header.now) }
{
    fields.version = 4;
    fields.number = described.number;
    fields.next_header = header.protocol().0;
    fields.hop_limit = header.time_to_live();
    fields.dscp = header.dscp().value();
    fields.ecn = header.ecn().value();
    fields.dont_fragment = flag(header.dont_fragment());
    fields.more_fragments = flag(header.more_fragments());
    fields.fragment_offset = header.fragment_offset().byte_offset();
    fields.length = header.total_len();
    fields.checksum = header.header_checksum();
    fields.identification = u32::from(header.identification());
    fields.flow_label = 0;
    fields.source = padded_address(header.source());
    fields.destination = padded_address(header.destination());
    fields.options = Place {
        offset: offset + Ipv4Header::MIN_LEN,
        len: header.options().len(),
    };
}

/// Returns an IPv4 address and then 12 zeros.
#[inline(always)]
fn padded_address(address: [u8; 4]) -> [u8; 16]
    ensures { result ≡ address ++ replicate 12 0 }
{
    let [a, b, c, d] = address;
    [a, b, c, d, 0, 0, 0, 0, 0, 0, 0, 0, 0, 0, 0, 0]
}

/// Reads the fields of an IPv6 header. Those of its extension headers are taken from the description.
#[inline(always)]
fn read_ipv6(bytes: &[u8], described: &Ip, fields: &mut IpFields) -> bool
    ensures { ReadsOnly (λ fields. HasIpv6 described.now fields bytes.now) result fields.new }
{
    let Ok(header) = Ipv6HeaderSlice::from_slice(bytes) else {
        return false;
    };
    *fields = ipv6_fields(&header, described);
    true
}

/// Returns the fields of an IPv6 header. Those of its extension headers are taken from the description.
#[inline(always)]
fn ipv6_fields(header: &Ipv6HeaderSlice<'_>, described: &Ip) -> IpFields
    ensures { result ≡ ipv6_fields described.now (ipv6_header_slice_header header.now) }
{
    IpFields {
        version: 6,
        number: described.number,
        next_header: header.next_header().0,
        hop_limit: header.hop_limit(),
        dscp: header.traffic_class() / 4,
        ecn: header.traffic_class() % 4,
        dont_fragment: 0,
        more_fragments: described.more_fragments,
        fragment_offset: described.fragment_offset,
        length: header.payload_length(),
        checksum: 0,
        identification: described.identification,
        flow_label: header.flow_label().value(),
        source: header.source(),
        destination: header.destination(),
        options: no_place(),
    }
}

/// Returns the fields of a packet that is not IP: all are 0.
#[inline(always)]
pub(crate) fn no_ip_fields() -> IpFields
    ensures { result ≡ no_ip_fields }
{
    IpFields {
        version: 0,
        number: 0,
        next_header: 0,
        hop_limit: 0,
        dscp: 0,
        ecn: 0,
        dont_fragment: 0,
        more_fragments: 0,
        fragment_offset: 0,
        length: 0,
        checksum: 0,
        identification: 0,
        flow_label: 0,
        source: [0; 16],
        destination: [0; 16],
        options: no_place(),
    }
}

/// Reads the fields of an ARP packet, which is at `offset` in the packet of the capture.
fn read_arp(bytes: &[u8], offset: usize, fields: &mut ArpFields) -> bool
    requires { offset < 2 ^ 63 }
    ensures { ReadsOnly (λ fields. HasArp offset fields bytes.now) result fields.new }
{
    let Ok(packet) = ArpPacketSlice::from_slice(bytes) else {
        return false;
    };
    *fields = arp_fields(&packet, offset);
    true
}

/// Returns the fields of an ARP packet, which is at `offset` in the packet of the capture.
#[inline(always)]
fn arp_fields(packet: &ArpPacketSlice<'_>, offset: usize) -> ArpFields
    requires { offset < 2 ^ 63 }
    ensures { result ≡ arp_fields offset (arp_slice_packet packet.now) }
{
    let hardware = packet.hw_addr_size() as usize;
    let protocol = packet.protocol_addr_size() as usize;
    let addresses = offset + ARP_FIXED_LEN;
    ArpFields {
        hardware_type: packet.hw_addr_type().0,
        protocol_type: packet.proto_addr_type().0,
        hardware_len: packet.hw_addr_size(),
        protocol_len: packet.protocol_addr_size(),
        operation: packet.operation().0,
        sender_hardware: Place {
            offset: addresses,
            len: hardware,
        },
        sender_protocol: Place {
            offset: addresses + hardware,
            len: protocol,
        },
        target_hardware: Place {
            offset: addresses + hardware + protocol,
            len: hardware,
        },
        target_protocol: Place {
            offset: addresses + 2 * hardware + protocol,
            len: protocol,
        },
    }
}

/// Returns the fields of a packet that is not ARP: all are 0.
#[inline(always)]
pub(crate) fn no_arp_fields() -> ArpFields
    ensures { result ≡ no_arp_fields }
{
    ArpFields {
        hardware_type: 0,
        protocol_type: 0,
        hardware_len: 0,
        protocol_len: 0,
        operation: 0,
        sender_hardware: no_place(),
        sender_protocol: no_place(),
        target_hardware: no_place(),
        target_protocol: no_place(),
    }
}

/// Returns the place of no bytes: offset and length are 0.
#[inline(always)]
pub(crate) fn no_place() -> Place
    ensures { result ≡ place 0 0 }
{
    Place { offset: 0, len: 0 }
}
