//! The UDP header of RFC 768: source port, destination port, length, checksum.

use crate::tests::checks::same;
use ep_transport::{UdpHeader, UdpSlice};

/// Tests that each byte of a UDP header has its own place.
#[test]
fn header(rt: HostRuntime) {
    let header = UdpHeader {
        source_port: 0x0102,
        destination_port: 0x0304,
        length: 0x0008,
        checksum: 0x0506,
    };
    let bytes = [1, 2, 3, 4, 0, 8, 5, 6];
    same(&rt, &header.to_bytes(), &bytes);
    let slice = UdpSlice::from_slice(&bytes).expect(&rt, "refused");
    same(&rt, &slice.to_header(), &header);
    let expected = Ok((header, b"".as_slice()));
    same(&rt, &UdpHeader::from_slice(&bytes), &expected);
}

/// Tests that the length of a UDP header has 16 bits, with the upper byte first.
#[test]
fn length(rt: HostRuntime) {
    let bytes = [0, 0, 0, 0, 0x07, 0x08, 0, 0];
    let expected = UdpHeader {
        source_port: 0,
        destination_port: 0,
        length: 0x0708,
        checksum: 0,
    };
    same(&rt, &expected.to_bytes(), &bytes);
    let expected = Ok((expected, b"".as_slice()));
    same(&rt, &UdpHeader::from_slice(&bytes), &expected);
}
