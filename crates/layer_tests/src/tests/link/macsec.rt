//! Tests of MACsec tags and packets, with examples from the standard (IEEE 802.1AE).

use crate::tests::checks::{full, is_written, same};
use ep_link::err::macsec::{HeaderError, HeaderSliceError};
use ep_link::{
    EtherPayloadSlice, EtherType, Layer, LenError, LenSource, MacsecAn, MacsecHeader,
    MacsecHeaderSlice, MacsecPType, MacsecPayloadSlice, MacsecShortLen, MacsecSlice,
};
use std::alloc::Global;
use std::process::Abort;

/// The integrity-protected frame of the examples in IEEE 802.1AE, annex C, from its MACsec tag on, and the first 2
/// bytes of its integrity check value.
const PROTECTED: &[u8] =
    b"\x22\x2a\xb2\xc2\x84\x65\x12\x15\x35\x24\xc0\x89\x5e\x81\x08\x00\x0f\x10\x11\
    \x12\x13\x14\x15\x16\x17\x18\x19\x1a\x1b\x1c\x1d\x1e\x1f\x20\x21\x22\x23\x24\x25\
    \x26\x27\x28\x29\x2a\x2b\x2c\x2d\x2e\x2f\x30\x31\x32\x33\x34\x00\x01\xf0\x94";

/// The MACsec tag, without a secure channel identifier, of an encrypted frame of the examples in IEEE 802.1AE, annex C.
const ENCRYPTED: &[u8] = b"\x4c\x2a\x76\xd4\x57\xed";

fn too_short(required_len: usize, len: usize, layer: Layer) -> HeaderSliceError {
    HeaderSliceError::Len(LenError::at_start(required_len, len, LenSource::Slice, layer))
}

/// Returns the MACsec tag of the constant `PROTECTED`: unmodified payload of IPv4, association number 2, short length
/// 42, and a secure channel identifier.
fn header(rt: &impl Abort) -> MacsecHeader {
    MacsecHeader {
        ptype: MacsecPType::Unmodified(EtherType::IPV4),
        endstation_id: false,
        scb: false,
        an: MacsecAn::try_new(2).expect(rt, "refused"),
        short_len: MacsecShortLen::try_new(42).expect(rt, "refused"),
        packet_nr: 0xb2c2_8465,
        sci: Some(0x1215_3524_c089_5e81),
    }
}

#[test]
fn reads_each_field(rt: HostRuntime) {
    let packet = MacsecSlice::from_slice(PROTECTED).expect(&rt, "refused");
    same(&rt, &packet.to_header(), &header(&rt));
    same(&rt, &packet.payload.slice(), &&PROTECTED[16..56]);
    let Ok((read, rest)) = MacsecHeader::from_slice(PROTECTED) else {
        panic!(rt; "refused");
    };
    same(&rt, &read, &header(&rt));
    same(&rt, &rest, &&PROTECTED[16..]);
}

/// Parses a MACsec tag into an owned header, and asserts that it is written as the bytes it was parsed from.
fn writes(rt: &impl Abort, alloc: Global, tag: &[u8]) {
    let Ok((header, rest)) = MacsecHeader::from_slice(tag) else {
        panic!(rt; "refused");
    };
    same(rt, &rest.len(), &0);
    let mut buf = full(rt, alloc);
    let written = header.write(&mut buf).is_ok();
    is_written(rt, written, &buf, tag);
}

#[test]
fn writes_what_was_read(rt: HostRuntime) {
    for tag in [
        &PROTECTED[..16],
        ENCRYPTED,
        b"\x13\x3f\x00\x00\x00\x01\x08\x00",
        b"\x28\x00\x00\x00\x00\x01\x01\x02\x03\x04\x05\x06\x07\x08",
    ] {
        writes(&rt, rt.alloc(), tag);
    }
}

/// Parses a MACsec packet and asserts its payload, and that its header is equal to the header that is parsed alone.
fn holds(rt: &impl Abort, bytes: &[u8], payload: &MacsecPayloadSlice<'_>) {
    let packet = MacsecSlice::from_slice(bytes).expect(rt, "refused");
    same(rt, &packet.payload, payload);
    let header = MacsecHeaderSlice::from_slice(bytes).expect(rt, "refused");
    same(rt, &packet.header, &header);
}

#[test]
fn short_length_limits_payload(rt: HostRuntime) {
    let rows: [(&[u8], MacsecPayloadSlice<'_>); 4] = [
        (
            b"\x0c\x03\x00\x00\x00\x00\xaa\xbb\xcc\xdd",
            MacsecPayloadSlice::Modified(b"\xaa\xbb\xcc"),
        ),
        (
            b"\x04\x00\x00\x00\x00\x00\xaa\xbb\xcc\xdd",
            MacsecPayloadSlice::Modified(b"\xaa\xbb\xcc\xdd"),
        ),
        (
            b"\x00\x05\x00\x00\x00\x01\x81\x00\x00\x01\x81\xaa\xbb\xcc\xdd\xee",
            MacsecPayloadSlice::Unmodified(EtherPayloadSlice {
                ether_type: EtherType::VLAN_TAGGED_FRAME,
                len_source: LenSource::MacsecShortLength,
                payload: b"\x00\x01\x81",
            }),
        ),
        (
            b"\x00\xc0\x00\x00\x00\x01\x81\x00\x00\x01",
            MacsecPayloadSlice::Unmodified(EtherPayloadSlice {
                ether_type: EtherType::VLAN_TAGGED_FRAME,
                len_source: LenSource::Slice,
                payload: b"\x00\x01",
            }),
        ),
    ];
    for (bytes, payload) in &rows {
        holds(&rt, bytes, payload);
    }
}

#[test]
fn refuses_in_order(rt: HostRuntime) {
    let version = HeaderSliceError::Content(HeaderError::UnexpectedVersion);
    let short_len = HeaderSliceError::Content(HeaderError::InvalidUnmodifiedShortLen);
    let rows: [(&[u8], HeaderSliceError); 6] = [
        (b"\x80\x01\x00\x00\x00\x00", version),
        (b"\x00\x01\x00\x00\x00\x00", short_len),
        (
            b"\x08\x00\x00\x00\x00",
            too_short(6, 5, Layer::MacsecHeader),
        ),
        (
            b"\x20\x00\x00\x00\x00\x00",
            too_short(16, 6, Layer::MacsecHeader),
        ),
        (
            b"\x0c\x05\x00\x00\x00\x00\xaa\xbb\xcc\xdd",
            too_short(11, 10, Layer::MacsecPacket),
        ),
        (
            b"\x00\x04\x00\x00\x00\x00\x08\x00\xaa",
            too_short(10, 9, Layer::MacsecPacket),
        ),
    ];
    for (bytes, error) in rows {
        same(&rt, &MacsecSlice::from_slice(bytes).err(), &Some(error));
    }
}
