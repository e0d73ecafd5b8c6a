//! Call for C that reads the fields of the headers of a described packet.

ghost use Rattle.std.specs.Prelude.{◌≡◌, ◌≤◌, ◌+◌, MatchOption, length};
ghost use Rattle.etherparse_c.specs.FieldAnswers.{AreFields, IsFieldsAnswer, ReadsOnly};
ghost use Rattle.etherparse_c.specs.Fields.{no_fields};
ghost use Rattle.etherparse_c.specs.Places.{bytes_at};

use crate::fields::Fields;
use crate::link_fields::{no_link_fields, no_tag_fields, read_link, read_tags};
use crate::net_fields::{no_arp_fields, no_ip_fields, read_net};
use crate::numbers;
use crate::packet::Packet;
use crate::plain_fields::read_plain_fields;
use crate::transport_fields::{no_transport_fields, read_transport};

/// Reads the fields of the headers of a packet from its bytes, and overwrites `fields` with them. `packet` is the
/// description of the bytes by `etherparse_2_slice` or `etherparse_2_slice_lax`. The fields of absent headers are 0.
/// Both verdicts are set to 0; `etherparse_2_checksums`, called afterwards, sets them.
///
/// Returns the status: 0 if the described headers are at their places in the bytes; 2 if they are not, as in a
/// description of other bytes: then all fields are 0.
#[unsafe(no_mangle)]
pub extern "C" fn etherparse_2_fields(packet: &Packet, bytes: &[u8], fields: &mut Fields) -> u32
    ensures { IsFieldsAnswer packet.now bytes.now result fields.new }
{
    if read_plain_fields(packet, bytes, fields) {
        return numbers::OK;
    }
    read_any_fields(packet, bytes, fields)
}

/// Reads the fields of the headers of any packet, and returns the status. Used for the packets that the faster function
/// for common packets (Ethernet II without tags, IPv4, UDP or TCP) does not handle.
#[inline(never)]
fn read_any_fields(packet: &Packet, bytes: &[u8], fields: &mut Fields) -> u32
    ensures { IsFieldsAnswer packet.now bytes.now result fields.new }
{
    if read_fields(packet, bytes, fields) {
        return numbers::OK;
    }
    clear_fields(fields);
    numbers::UNKNOWN_CHOICE
}

/// Reads the fields of the described headers. Returns false if these headers are not at their places in the bytes; the
/// fields are then meaningless.
#[inline(always)]
fn read_fields(packet: &Packet, bytes: &[u8], fields: &mut Fields) -> bool
    ensures { ReadsOnly (AreFields packet.now bytes.now) result fields.new }
{
    fields.header_checksum = 0;
    fields.transport_checksum = 0;
    if !read_link(&packet.link, bytes, &mut fields.link) {
        return false;
    }
    if !read_tags(&packet.link_exts, bytes, &mut fields.tags) {
        return false;
    }
    if !read_net(
        &packet.net,
        &packet.ip,
        bytes,
        &mut fields.ip,
        &mut fields.arp,
    ) {
        return false;
    }
    read_transport(packet, bytes, &mut fields.transport)
}

/// Sets all fields to 0.
#[inline(never)]
fn clear_fields(fields: &mut Fields)
    ensures { fields.new ≡ no_fields }
{
    *fields = Fields {
        link: no_link_fields(),
        tags: [no_tag_fields(), no_tag_fields(), no_tag_fields()],
        ip: no_ip_fields(),
        arp: no_arp_fields(),
        transport: no_transport_fields(),
        header_checksum: 0,
        transport_checksum: 0,
    };
}

/// Returns the `len` bytes at `offset`, or `None` if they end after the last byte.
#[inline(always)]
pub(crate) fn bytes_at<'a>(bytes: &'a [u8], offset: usize, len: usize) -> Option<&'a [u8]>
    ensures { MatchOption result (¬ (offset + len ≤ length bytes.now))
        (λ part. (offset + len ≤ length bytes.now) × (part.now ≡ bytes_at bytes.now offset len)) }
{
    if bytes.len() < offset || bytes.len() - offset < len {
        return None;
    }
    Some(&bytes[offset..offset + len])
}
