//! Faster reading of the fields of plain packets, the common case: Ethernet II without tags, then IPv4, then UDP or
//! TCP.
//!
//! A function returns false if the header is of another kind, or the bytes do not have it; the fields are then
//! meaningless. All functions are inlined, so that the common case makes no call.

ghost use Rattle.std.specs.Prelude.{◌≡◌, true};
ghost use Rattle.etherparse_c.specs.declared.fields.IpFields.{IpFields};
ghost use Rattle.etherparse_c.specs.declared.fields.ArpFields.{ArpFields};
ghost use Rattle.etherparse_c.specs.FieldAnswers.{AreFields, IsLinkAt, IsNetAt, IsTransportAt, ReadsOnly};

use crate::field_reading::bytes_at;
use crate::fields::{ArpFields, Fields, IpFields, LinkFields, TransportFields};
use crate::link_fields::{read_ethernet2, read_no_tags};
use crate::net_fields::{no_arp_fields, read_ipv4};
use crate::numbers;
use crate::packet::{Ip, Packet, Part};
use crate::transport_fields::{read_tcp, read_udp};

/// Reads the fields of a plain packet.
#[inline(always)]
pub(crate) fn read_plain_fields(packet: &Packet, bytes: &[u8], fields: &mut Fields) -> bool
    ensures { result ≡ true → ReadsOnly (AreFields packet.now bytes.now) true fields.new }
{
    if !read_plain_ipv4(
        &packet.net,
        &packet.ip,
        bytes,
        &mut fields.ip,
        &mut fields.arp,
    ) {
        return false;
    }
    if !read_plain_transport(packet, bytes, &mut fields.transport) {
        return false;
    }
    if !read_no_tags(&packet.link_exts, &mut fields.tags) {
        return false;
    }
    fields.header_checksum = 0;
    fields.transport_checksum = 0;
    read_plain_link(&packet.link, bytes, &mut fields.link)
}

/// Reads the fields of an Ethernet II header.
#[inline(always)]
fn read_plain_link(link: &Part, bytes: &[u8], fields: &mut LinkFields) -> bool
    ensures { result ≡ true → ReadsOnly (IsLinkAt link.now bytes.now) true fields.new }
{
    let Some(header) = bytes_at(bytes, link.offset, link.len) else {
        return false;
    };
    if link.kind == numbers::LINK_ETHERNET2 {
        return read_ethernet2(header, fields);
    }
    false
}

/// Reads the fields of an IPv4 header; those of ARP are 0.
#[inline(always)]
fn read_plain_ipv4(
    net: &Part,
    described: &Ip,
    bytes: &[u8],
    ip: &mut IpFields,
    arp: &mut ArpFields,
) -> bool
    ensures { result ≡ true → ReadsOnly
        (λ (read : IpFields × ArpFields). IsNetAt net.now described.now bytes.now read.0 read.1) true
        (ip.new, arp.new) }
{
    let Some(header) = bytes_at(bytes, net.offset, net.len) else {
        return false;
    };
    if net.kind == numbers::NET_IPV4 {
        *arp = no_arp_fields();
        return read_ipv4(header, net.offset, described, ip);
    }
    false
}

/// Reads the fields of a UDP or TCP header.
#[inline(always)]
fn read_plain_transport(packet: &Packet, bytes: &[u8], fields: &mut TransportFields) -> bool
    ensures { let packet = packet.now in result ≡ true → ReadsOnly
        (IsTransportAt packet.transport packet.ip packet.payload bytes.now) true fields.new }
{
    let part = &packet.transport;
    let Some(header) = bytes_at(bytes, part.offset, part.len) else {
        return false;
    };
    if part.kind == numbers::TRANSPORT_UDP {
        return read_udp(header, fields);
    }
    if part.kind == numbers::TRANSPORT_TCP {
        return read_tcp(header, part.offset, fields);
    }
    false
}
