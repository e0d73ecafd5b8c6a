//! Reads the fields of link headers, and of VLAN and MACsec tags, for C.
//!
//! Each function that reads a header returns false if the bytes do not have it; the fields are then meaningless.

ghost use Rattle.std.specs.Prelude.{◌≡◌, ℕ, List, true};
ghost use Rattle.etherparse.specs.Ethernet2Slices.{ethernet2_slice_header};
ghost use Rattle.etherparse.specs.LinuxSllSlices.{linux_sll_slice_header};
ghost use Rattle.etherparse.specs.Macsec.{ptype_type};
ghost use Rattle.etherparse.specs.MacsecSlices.{macsec_header_slice_header};
ghost use Rattle.etherparse.specs.VlanSlices.{vlan_slice_header};
ghost use Rattle.etherparse_c.specs.FieldAnswers.{AreTagsAt, HasEthernet2, HasLinuxSll, HasMacsec, HasVlan};
ghost use Rattle.etherparse_c.specs.FieldAnswers.{IsLinkAt, IsTagAt, ReadsOnly};
ghost use Rattle.etherparse_c.specs.Fields.{ethernet2_fields, linux_sll_fields, macsec_fields, macsec_flags};
ghost use Rattle.etherparse_c.specs.Fields.{no_link_fields, no_tag_fields, sci_number, type_number, vlan_fields};

use crate::field_reading::bytes_at;
use crate::fields::{LinkFields, TagFields};
use crate::net_part::flag;
use crate::numbers;
use crate::packet::{LinkExt, Part};
use etherparse::{Ethernet2Slice, LinuxSllSlice, MacsecHeaderSlice, MacsecPType, SingleVlanSlice};

/// Reads the fields of the described link header; without a link header they are 0.
#[inline(always)]
pub(crate) fn read_link(link: &Part, bytes: &[u8], fields: &mut LinkFields) -> bool
    ensures { ReadsOnly (IsLinkAt link.now bytes.now) result fields.new }
{
    if link.kind == 0 {
        *fields = no_link_fields();
        return true;
    }
    let Some(header) = bytes_at(bytes, link.offset, link.len) else {
        return false;
    };
    if link.kind == numbers::LINK_ETHERNET2 {
        return read_ethernet2(header, fields);
    }
    if link.kind == numbers::LINK_LINUX_SLL {
        return read_linux_sll(header, fields);
    }
    false
}

/// Reads the fields of an Ethernet II header.
#[inline(always)]
pub(crate) fn read_ethernet2(bytes: &[u8], fields: &mut LinkFields) -> bool
    ensures { ReadsOnly (λ fields. HasEthernet2 fields bytes.now) result fields.new }
{
    let Ok(frame) = Ethernet2Slice::from_slice_without_fcs(bytes) else {
        return false;
    };
    *fields = ethernet2_fields(&frame);
    true
}

/// Returns the fields of an Ethernet II header.
#[inline(always)]
fn ethernet2_fields(frame: &Ethernet2Slice<'_>) -> LinkFields
    ensures { result ≡ ethernet2_fields (ethernet2_slice_header frame.now) }
{
    LinkFields {
        destination: frame.destination(),
        source: frame.source(),
        ether_type: frame.ether_type().0,
        ..no_link_fields()
    }
}

/// Reads the fields of a Linux cooked capture header.
fn read_linux_sll(bytes: &[u8], fields: &mut LinkFields) -> bool
    ensures { ReadsOnly (λ fields. HasLinuxSll fields bytes.now) result fields.new }
{
    let Ok(packet) = LinuxSllSlice::from_slice(bytes) else {
        return false;
    };
    *fields = linux_sll_fields(&packet);
    true
}

/// Returns the fields of a Linux cooked capture header.
#[inline(always)]
fn linux_sll_fields(packet: &LinuxSllSlice<'_>) -> LinkFields
    ensures { result ≡ linux_sll_fields (linux_sll_slice_header packet.now) }
{
    LinkFields {
        packet_type: packet.packet_type().0,
        hardware_type: packet.arp_hrd_type().0,
        address_len: packet.sender_address_valid_length(),
        address: packet.sender_address(),
        protocol: packet.protocol_type().number(),
        ..no_link_fields()
    }
}

/// Returns the fields without a link header: all are 0.
#[inline(always)]
pub(crate) fn no_link_fields() -> LinkFields
    ensures { result ≡ no_link_fields }
{
    LinkFields {
        destination: [0; 6],
        source: [0; 6],
        ether_type: 0,
        packet_type: 0,
        hardware_type: 0,
        address_len: 0,
        address: [0; 8],
        protocol: 0,
    }
}

/// Reads the fields of the described tags; those of empty slots are 0.
#[inline(always)]
pub(crate) fn read_tags(tags: &[LinkExt; 3], bytes: &[u8], fields: &mut [TagFields; 3]) -> bool
    ensures { ReadsOnly (AreTagsAt tags.now bytes.now) result fields.new }
{
    if read_no_tags(tags, fields) {
        return true;
    }
    read_present_tags(tags, bytes, fields)
}

/// Reads the fields of three empty slots: all are 0. Returns false if there is a tag.
#[inline(always)]
pub(crate) fn read_no_tags(tags: &[LinkExt; 3], fields: &mut [TagFields; 3]) -> bool
    ensures { result ≡ true → (bytes : List ℕ) → ReadsOnly (AreTagsAt tags.now bytes) true fields.new }
{
    let [outer, middle, inner] = tags;
    if outer.kind == 0 && middle.kind == 0 && inner.kind == 0 {
        *fields = [no_tag_fields(), no_tag_fields(), no_tag_fields()];
        return true;
    }
    false
}

/// Reads the fields of the described tags; those of empty slots are 0. Not inlined, since most packets have no tag.
#[inline(never)]
fn read_present_tags(tags: &[LinkExt; 3], bytes: &[u8], fields: &mut [TagFields; 3]) -> bool
    ensures { ReadsOnly (AreTagsAt tags.now bytes.now) result fields.new }
{
    let [outer, middle, inner] = tags;
    let mut outer_fields = no_tag_fields();
    let mut middle_fields = no_tag_fields();
    let mut inner_fields = no_tag_fields();
    if !read_tag(outer, bytes, &mut outer_fields) {
        return false;
    }
    if !read_tag(middle, bytes, &mut middle_fields) {
        return false;
    }
    if !read_tag(inner, bytes, &mut inner_fields) {
        return false;
    }
    *fields = [outer_fields, middle_fields, inner_fields];
    true
}

/// Reads the fields of the described tag; without a tag they are 0.
fn read_tag(tag: &LinkExt, bytes: &[u8], fields: &mut TagFields) -> bool
    ensures { ReadsOnly (IsTagAt tag.now bytes.now) result fields.new }
{
    if tag.kind == 0 {
        *fields = no_tag_fields();
        return true;
    }
    let Some(header) = bytes_at(bytes, tag.offset, tag.len) else {
        return false;
    };
    match tag.kind {
        numbers::EXT_VLAN => read_vlan(header, fields),
        numbers::EXT_MACSEC => read_macsec(header, fields),
        _ => false,
    }
}

/// Reads the fields of a VLAN tag.
#[inline(always)]
fn read_vlan(bytes: &[u8], fields: &mut TagFields) -> bool
    ensures { ReadsOnly (λ fields. HasVlan fields bytes.now) result fields.new }
{
    let Ok(tag) = SingleVlanSlice::from_slice(bytes) else {
        return false;
    };
    *fields = vlan_fields(&tag);
    true
}

/// Returns the fields of a VLAN tag.
#[inline(always)]
fn vlan_fields(tag: &SingleVlanSlice<'_>) -> TagFields
    ensures { result ≡ vlan_fields (vlan_slice_header tag.now) }
{
    TagFields {
        kind: numbers::EXT_VLAN,
        vlan_id: tag.vlan_identifier().value(),
        ether_type: tag.ether_type().0,
        priority: tag.pcp().value(),
        drop_eligible: flag(tag.drop_eligible_indicator()),
        ..no_tag_fields()
    }
}

/// Reads the fields of a MACsec tag.
fn read_macsec(bytes: &[u8], fields: &mut TagFields) -> bool
    ensures { ReadsOnly (λ fields. HasMacsec fields bytes.now) result fields.new }
{
    let Ok(tag) = MacsecHeaderSlice::from_slice(bytes) else {
        return false;
    };
    *fields = macsec_fields(&tag);
    true
}

/// Returns the fields of a MACsec tag.
#[inline(always)]
fn macsec_fields(tag: &MacsecHeaderSlice<'_>) -> TagFields
    ensures { result ≡ macsec_fields (macsec_header_slice_header tag.now) }
{
    TagFields {
        kind: numbers::EXT_MACSEC,
        ether_type: payload_type(tag),
        macsec_flags: macsec_flags(tag),
        association_number: tag.an().value(),
        short_len: tag.short_len().value(),
        packet_number: tag.packet_nr(),
        sci: sci_number(tag),
        ..no_tag_fields()
    }
}

/// Returns the ether type of the payload of a MACsec tag, or 0 if the payload is modified or encrypted.
fn payload_type(tag: &MacsecHeaderSlice<'_>) -> u16
    ensures { result ≡ type_number (ptype_type (macsec_header_slice_header tag.now).ptype) }
{
    match tag.next_ether_type() {
        Some(ether_type) => ether_type.0,
        None => 0,
    }
}

/// Returns the secure channel identifier of a MACsec tag, or 0 if the tag has none.
fn sci_number(tag: &MacsecHeaderSlice<'_>) -> u64
    ensures { result ≡ sci_number (macsec_header_slice_header tag.now).sci }
{
    match tag.sci() {
        Some(sci) => sci,
        None => 0,
    }
}

/// Returns the flags of a MACsec tag as in its byte 0: ES is 64, SC 32, SCB 16, E 8, C 4.
fn macsec_flags(tag: &MacsecHeaderSlice<'_>) -> u8
    ensures { result ≡ macsec_flags (macsec_header_slice_header tag.now) }
{
    let end_station = 64 * flag(tag.endstation_id());
    let has_sci = 32 * flag(tag.sci().is_some());
    let broadcast = 16 * flag(tag.scb());
    let modification = match tag.ptype() {
        MacsecPType::Unmodified(_) => 0,
        MacsecPType::Modified => 4,
        MacsecPType::EncryptedUnmodified => 8,
        MacsecPType::Encrypted => 12,
    };
    end_station + has_sci + broadcast + modification
}

/// Returns the fields without a tag: all are 0.
#[inline(always)]
pub(crate) fn no_tag_fields() -> TagFields
    ensures { result ≡ no_tag_fields }
{
    TagFields {
        kind: 0,
        vlan_id: 0,
        ether_type: 0,
        priority: 0,
        drop_eligible: 0,
        macsec_flags: 0,
        association_number: 0,
        short_len: 0,
        packet_number: 0,
        sci: 0,
    }
}
