//! Tests of link extensions: VLAN and MACsec tags between the link header and the network layer.

use crate::tests::checks::{full, is_written, same};
use ep_link::err::macsec::{HeaderError, HeaderSliceError};
use ep_link::{EtherType, Layer, LenError, LenSource, LinkExtSlice};
use std::alloc::Global;
use std::process::Abort;

/// A VLAN tag with priority 5, identifier 0x123 and the ether type of IPv4, and the first 2 bytes of the IPv4 packet.
const VLAN: &[u8] = b"\xa1\x23\x08\x00\x45\x00";

/// A MACsec tag with a secure channel identifier and an unmodified payload of 3 bytes. Its short length field excludes
/// the last 2 bytes of the constant.
const UNMODIFIED: &[u8] =
    b"\x20\x05\x00\x00\x00\x01\x01\x02\x03\x04\x05\x06\x07\x08\x81\x00\x00\x01\x81\xaa\xbb";

/// A MACsec tag with a modified (encrypted) payload of 2 bytes.
const MODIFIED: &[u8] = b"\x0c\x02\x00\x00\x00\x01\xaa\xbb";

/// Parses the VLAN or MACsec tag after the given ether type. Asserts the bytes that its header is written as, the ether
/// type after it (`None` if encrypted), and its payload.
fn reads(
    rt: &impl Abort,
    alloc: Global,
    (ether_type, bytes): (u16, &[u8]),
    tag: &[u8],
    next: Option<EtherType>,
    payload: &[u8],
) {
    let extension = LinkExtSlice::from_ether_type(EtherType(ether_type), bytes).expect(
        rt, "refused",
    );
    let extension = extension.expect(rt, "no extension");
    same(rt, &extension.next_ether_type(), &next);
    same(rt, &extension.payload_slice(), &payload);
    let header = extension.to_header();
    let mut buf = full(rt, alloc);
    let written = header.write(&mut buf).is_ok();
    is_written(rt, written, &buf, tag);
}

#[test]
fn shows_extensions(rt: HostRuntime) {
    let rows: [(u16, &[u8], &[u8], Option<EtherType>, &[u8]); 5] = [
        (
            0x8100,
            VLAN,
            &VLAN[..4],
            Some(EtherType(0x0800)),
            b"\x45\x00",
        ),
        (
            0x88a8,
            VLAN,
            &VLAN[..4],
            Some(EtherType(0x0800)),
            b"\x45\x00",
        ),
        (
            0x9100,
            VLAN,
            &VLAN[..4],
            Some(EtherType(0x0800)),
            b"\x45\x00",
        ),
        (
            0x88e5,
            UNMODIFIED,
            &UNMODIFIED[..16],
            Some(EtherType(0x8100)),
            b"\x00\x01\x81",
        ),
        (0x88e5, MODIFIED, &MODIFIED[..6], None, b"\xaa\xbb"),
    ];
    for (ether_type, bytes, tag, next, payload) in rows {
        reads(&rt, rt.alloc(), (ether_type, bytes), tag, next, payload);
    }
}

#[test]
fn no_extension(rt: HostRuntime) {
    same(
        &rt,
        &LinkExtSlice::from_ether_type(EtherType(0x0800), VLAN),
        &Ok(None),
    );
}

#[test]
fn refuses_extensions(rt: HostRuntime) {
    let vlan = HeaderSliceError::Len(LenError::at_start(4, 3, LenSource::Slice, Layer::VlanHeader));
    let version = HeaderSliceError::Content(HeaderError::UnexpectedVersion);
    for (ether_type, bytes, error) in [
        (0x8100, &VLAN[..3], vlan),
        (0x88e5, b"\x80\x00\x00\x00\x00\x00".as_slice(), version),
    ] {
        same(
            &rt,
            &LinkExtSlice::from_ether_type(EtherType(ether_type), bytes).err(),
            &Some(error),
        );
    }
}
