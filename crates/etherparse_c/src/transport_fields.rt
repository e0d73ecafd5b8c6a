//! Reads the fields of transport headers for C.
//!
//! Each function that reads a header returns false if the bytes do not have it; the fields are then meaningless.

ghost use Rattle.std.specs.Prelude.{◌≡◌, ◌≤◌, ◌+◌, ◌*◌, ◌<◌, ◌^◌};
ghost use Rattle.etherparse.specs.Bytes.{bit};
ghost use Rattle.etherparse.specs.Icmpv4Slices.{icmpv4_slice_bytes, icmpv4_slice_header};
ghost use Rattle.etherparse.specs.Icmpv6Slices.{icmpv6_slice_bytes, icmpv6_slice_header};
ghost use Rattle.etherparse.specs.Tcp.{tcp_flags};
ghost use Rattle.etherparse.specs.TcpSlices.{tcp_slice_header};
ghost use Rattle.etherparse.specs.UdpSlices.{udp_slice_header};
ghost use Rattle.etherparse_c.specs.FieldAnswers.{ArePortsAt, HasIcmpv4, HasIcmpv6, HasTcp, HasUdp, IsTransportAt};
ghost use Rattle.etherparse_c.specs.FieldAnswers.{ReadsOnly};
ghost use Rattle.etherparse_c.specs.Fields.{begins_with_ports, icmpv4_fields, icmpv6_fields, no_transport_fields};
ghost use Rattle.etherparse_c.specs.Fields.{port_fields, tcp_fields, udp_fields};

use crate::field_reading::bytes_at;
use crate::fields::{Place, TransportFields};
use crate::net_fields::no_place;
use crate::numbers;
use crate::packet::{Ip, Packet, Payload};
use etherparse::{Icmpv4Slice, Icmpv6Slice, TcpHeader, TcpSlice, UdpSlice};

/// Reads the fields of the described transport header. Without a transport header they are 0, but for the ports of a
/// truncated one.
#[inline(always)]
pub(crate) fn read_transport(packet: &Packet, bytes: &[u8], fields: &mut TransportFields) -> bool
    ensures { let packet = packet.now in
        ReadsOnly (IsTransportAt packet.transport packet.ip packet.payload bytes.now) result fields.new }
{
    let part = &packet.transport;
    if part.kind == 0 {
        return read_ports(&packet.ip, &packet.payload, bytes, fields);
    }
    let Some(header) = bytes_at(bytes, part.offset, part.len) else {
        return false;
    };
    if part.kind == numbers::TRANSPORT_UDP {
        return read_udp(header, fields);
    }
    if part.kind == numbers::TRANSPORT_TCP {
        return read_tcp(header, part.offset, fields);
    }
    match part.kind {
        numbers::TRANSPORT_ICMPV4 => read_icmpv4(header, fields),
        numbers::TRANSPORT_ICMPV6 => read_icmpv6(header, fields),
        _ => false,
    }
}

/// Reads the ports of a truncated header from the payload of the packet; without such a header they are 0.
fn read_ports(ip: &Ip, payload: &Payload, bytes: &[u8], fields: &mut TransportFields) -> bool
    ensures { ReadsOnly (ArePortsAt ip.now payload.now bytes.now) result fields.new }
{
    let Some(payload) = bytes_at(bytes, payload.offset, payload.len) else {
        return false;
    };
    *fields = port_fields(ip, payload);
    true
}

/// Returns the fields of a packet without a transport header: the ports, if the payload begins with them.
fn port_fields(described: &Ip, payload: &[u8]) -> TransportFields
    ensures { result ≡ port_fields described.now payload.now }
{
    if !begins_with_ports(described, payload) {
        return no_transport_fields();
    }
    TransportFields {
        source_port: u16::from_be_bytes([payload[0], payload[1]]),
        destination_port: u16::from_be_bytes([payload[2], payload[3]]),
        ..no_transport_fields()
    }
}

/// Returns whether the payload of an IP packet without a transport header begins with the ports of a truncated one.
fn begins_with_ports(described: &Ip, payload: &[u8]) -> bool
    ensures { result ≡ begins_with_ports described.now payload.now }
{
    let has_ports = described.number == 6 || described.number == 17;
    described.fragmented == 0 && has_ports && 4 <= payload.len()
}

/// Reads the fields of a UDP header.
#[inline(always)]
pub(crate) fn read_udp(bytes: &[u8], fields: &mut TransportFields) -> bool
    ensures { ReadsOnly (λ fields. HasUdp fields bytes.now) result fields.new }
{
    let Ok(datagram) = UdpSlice::from_slice_lax(bytes) else {
        return false;
    };
    *fields = udp_fields(&datagram);
    true
}

/// Returns the fields of a UDP header.
#[inline(always)]
fn udp_fields(datagram: &UdpSlice<'_>) -> TransportFields
    ensures { result ≡ udp_fields (udp_slice_header datagram.now) }
{
    TransportFields {
        source_port: datagram.source_port(),
        destination_port: datagram.destination_port(),
        checksum: datagram.checksum(),
        udp_length: datagram.length(),
        ..no_transport_fields()
    }
}

/// Reads the fields of a TCP header, which is at `offset` in the packet.
#[inline(always)]
pub(crate) fn read_tcp(bytes: &[u8], offset: usize, fields: &mut TransportFields) -> bool
    requires { offset < 2 ^ 63 }
    ensures { ReadsOnly (λ fields. HasTcp offset fields bytes.now) result fields.new }
{
    let Ok(segment) = TcpSlice::from_slice(bytes) else {
        return false;
    };
    write_tcp_fields(&segment, offset, fields);
    true
}

/// Writes the fields of a TCP header, which is at `offset` in the packet, each to its place: no struct is built and
/// copied.
#[inline(always)]
fn write_tcp_fields(segment: &TcpSlice<'_>, offset: usize, fields: &mut TransportFields)
    requires { offset < 2 ^ 63 }
    ensures { fields.new ≡ tcp_fields offset (tcp_slice_header segment.now) }
{
    let options_len = segment.options().len();
    *fields = no_transport_fields();
    fields.source_port = segment.source_port();
    fields.destination_port = segment.destination_port();
    fields.checksum = segment.checksum();
    fields.sequence_number = segment.sequence_number();
    fields.acknowledgment_number = segment.acknowledgment_number();
    fields.tcp_flags = tcp_flags(segment);
    fields.window_size = segment.window_size();
    fields.urgent_pointer = segment.urgent_pointer();
    fields.data_offset = ((TcpHeader::MIN_LEN + options_len) / 4) as u8;
    fields.options = Place {
        offset: offset + TcpHeader::MIN_LEN,
        len: options_len,
    };
}

/// Returns the flags of a TCP header: those of byte 13, and NS as 256.
#[inline(always)]
fn tcp_flags(segment: &TcpSlice<'_>) -> u16
    ensures { let header = tcp_slice_header segment.now in result ≡ 2 ^ 8 * bit header.ns + tcp_flags header }
{
    let of_congestion = flag_of(segment.ns(), 256)
        + flag_of(segment.cwr(), 128)
        + flag_of(segment.ece(), 64);
    let of_data = flag_of(segment.urg(), 32)
        + flag_of(segment.ack(), 16)
        + flag_of(segment.psh(), 8);
    let of_connection = flag_of(segment.rst(), 4)
        + flag_of(segment.syn(), 2)
        + flag_of(segment.fin(), 1);
    of_congestion + of_data + of_connection
}

/// Returns the number of a flag, or 0 if the flag is not set.
#[inline(always)]
fn flag_of(is_set: bool, number: u16) -> u16
    ensures value { result ≡ number * bit is_set }
    ensures bound { result ≤ number }
{
    if is_set { number } else { 0 }
}

/// Reads the fields of an ICMP header.
fn read_icmpv4(bytes: &[u8], fields: &mut TransportFields) -> bool
    ensures { ReadsOnly (λ fields. HasIcmpv4 fields bytes.now) result fields.new }
{
    let Ok(message) = Icmpv4Slice::from_slice(bytes) else {
        return false;
    };
    *fields = icmpv4_fields(&message);
    true
}

/// Returns the fields of an ICMP header.
fn icmpv4_fields(message: &Icmpv4Slice<'_>) -> TransportFields
    ensures { result ≡ icmpv4_fields (icmpv4_slice_bytes message.now) (icmpv4_slice_header message.now) }
{
    icmp_fields(
        message.checksum(),
        message.type_u8(),
        message.code_u8(),
        message.bytes5to8(),
    )
}

/// Reads the fields of an ICMPv6 header.
fn read_icmpv6(bytes: &[u8], fields: &mut TransportFields) -> bool
    ensures { ReadsOnly (λ fields. HasIcmpv6 fields bytes.now) result fields.new }
{
    let Ok(message) = Icmpv6Slice::from_slice(bytes) else {
        return false;
    };
    *fields = icmpv6_fields(&message);
    true
}

/// Returns the fields of an ICMPv6 header.
fn icmpv6_fields(message: &Icmpv6Slice<'_>) -> TransportFields
    ensures { result ≡ icmpv6_fields (icmpv6_slice_bytes message.now) (icmpv6_slice_header message.now) }
{
    icmp_fields(
        message.checksum(),
        message.type_u8(),
        message.code_u8(),
        message.bytes5to8(),
    )
}

/// Returns the fields of an ICMP or ICMPv6 header: its checksum, type, code, and bytes 4 to 7.
#[inline(always)]
fn icmp_fields(checksum: u16, icmp_type: u8, icmp_code: u8, icmp_rest: [u8; 4]) -> TransportFields
    ensures { result ≡ record no_transport_fields {
      checksum = checksum;
      icmp_type = icmp_type;
      icmp_code = icmp_code;
      icmp_rest = icmp_rest;
    } }
{
    TransportFields {
        checksum,
        icmp_type,
        icmp_code,
        icmp_rest,
        ..no_transport_fields()
    }
}

/// Returns the fields without a transport header: all are 0.
#[inline(always)]
pub(crate) fn no_transport_fields() -> TransportFields
    ensures { result ≡ no_transport_fields }
{
    TransportFields {
        source_port: 0,
        destination_port: 0,
        checksum: 0,
        udp_length: 0,
        sequence_number: 0,
        acknowledgment_number: 0,
        tcp_flags: 0,
        window_size: 0,
        urgent_pointer: 0,
        data_offset: 0,
        icmp_type: 0,
        icmp_code: 0,
        icmp_rest: [0; 4],
        options: no_place(),
    }
}
