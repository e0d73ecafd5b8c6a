//! The authentication header of RFC 4302, 2: next header, payload length, reserved, SPI, sequence number, ICV.

use crate::tests::checks::same;
use ep_ext::{IpAuthHeader, IpAuthHeaderSlice, IpNumber};
use std::process::Abort;

/// Tests that each byte of an IP authentication header with an ICV of 16 bytes has its own place.
#[test]
fn header(rt: HostRuntime) {
    let bytes = [
        1, 5, 0, 0, 2, 3, 4, 6, 7, 8, 9, 10, 11, 12, 13, 14, 15, 16, 17, 18, 19, 20, 21, 22, 23,
        24, 25, 26,
    ];
    let header = IpAuthHeader::new(IpNumber(1), 0x0203_0406, 0x0708_090a, &bytes[12..]).expect(
        &rt, "refused",
    );
    let written = header.to_bytes();
    same(&rt, &written.as_slice(), &bytes.as_slice());
    let slice = IpAuthHeaderSlice::from_slice(&bytes).expect(&rt, "refused");
    same(&rt, &slice.to_header(), &header);
    let expected = Ok((header, b"".as_slice()));
    same(&rt, &IpAuthHeader::from_slice(&bytes), &expected);
}

/// Asserts that an IP authentication header of `header_len` bytes, 12 to 520, is written with the given payload length
/// (byte 1), and parsed from it. The payload length counts words of 4 bytes, minus 2. All bytes of the ICV are equal.
fn payload_len(rt: &impl Abort, header_len: usize, payload_len: u8) {
    let mut bytes = [0xab; 521];
    bytes[..12].copy_from_slice(&[1, payload_len, 0, 0, 2, 3, 4, 5, 6, 7, 8, 9]);
    let icv = bytes.get(12..header_len).expect(rt, "refused");
    let header = IpAuthHeader::new(IpNumber(1), 0x0203_0405, 0x0607_0809, icv).expect(
        rt, "refused",
    );
    let written = header.to_bytes();
    same(rt, &Some(written.as_slice()), &bytes.get(..header_len));
    let slice = IpAuthHeaderSlice::from_slice(&bytes).expect(rt, "refused");
    same(rt, &slice.to_header(), &header);
    let rest = bytes.get(header_len..).expect(rt, "refused");
    same(rt, &IpAuthHeader::from_slice(&bytes), &Ok((header, rest)));
}

#[test]
fn payload_lengths(rt: HostRuntime) {
    for (header_len, field) in [
        (12, 0x01),
        (16, 0x02),
        (24, 0x04),
        (40, 0x08),
        (72, 0x10),
        (136, 0x20),
        (264, 0x40),
        (520, 0x80),
    ] {
        payload_len(&rt, header_len, field);
    }
}
