//! The TCP header of RFC 9293, 3.1, with the flags CWR and ECE of RFC 3168 and NS of RFC 3540.

use crate::tests::checks::same;
use ep_transport::tcp::{HeaderError, HeaderSliceError};
use ep_transport::{TcpHeader, TcpSlice};
use std::process::Abort;

/// A TCP header without flags and options, in which all bytes of the other fields are distinct.
const PLAIN: [u8; 20] = [
    1, 2, 3, 4, 5, 6, 7, 8, 9, 10, 11, 12, 0x50, 0, 13, 14, 15, 16, 17, 18,
];

/// Returns the TCP header of the constant `PLAIN`.
fn plain() -> TcpHeader {
    TcpHeader {
        acknowledgment_number: 0x090a_0b0c,
        checksum: 0x0f10,
        urgent_pointer: 0x1112,
        ..TcpHeader::new(0x0102, 0x0304, 0x0506_0708, 0x0d0e)
    }
}

/// Asserts that the TCP header is written as the bytes, and parsed from them.
fn encodes(rt: &impl Abort, header: TcpHeader, bytes: &[u8]) {
    same(rt, &header.to_bytes().as_slice(), &bytes);
    let slice = TcpSlice::from_slice(bytes).expect(rt, "refused");
    same(rt, &slice.to_header(), &header);
    let expected = Ok((header, b"".as_slice()));
    same(rt, &TcpHeader::from_slice(bytes), &expected);
}

/// Asserts that the TCP header, the constant `PLAIN` with a flag, is written with the given bytes 12 and 13, and parsed
/// from them.
fn flag(rt: &impl Abort, header: TcpHeader, [upper, lower]: [u8; 2]) {
    let mut bytes = PLAIN;
    bytes[12] = upper;
    bytes[13] = lower;
    encodes(rt, header, &bytes);
}

#[test]
fn flags(rt: HostRuntime) {
    for (header, bytes) in [
        (plain(), [0x50, 0]),
        (
            TcpHeader {
                ns: true,
                ..plain()
            },
            [0x51, 0],
        ),
        (
            TcpHeader {
                cwr: true,
                ..plain()
            },
            [0x50, 0x80],
        ),
        (
            TcpHeader {
                ece: true,
                ..plain()
            },
            [0x50, 0x40],
        ),
        (
            TcpHeader {
                urg: true,
                ..plain()
            },
            [0x50, 0x20],
        ),
        (
            TcpHeader {
                ack: true,
                ..plain()
            },
            [0x50, 0x10],
        ),
        (
            TcpHeader {
                psh: true,
                ..plain()
            },
            [0x50, 0x08],
        ),
        (
            TcpHeader {
                rst: true,
                ..plain()
            },
            [0x50, 0x04],
        ),
        (
            TcpHeader {
                syn: true,
                ..plain()
            },
            [0x50, 0x02],
        ),
        (
            TcpHeader {
                fin: true,
                ..plain()
            },
            [0x50, 0x01],
        ),
    ] {
        flag(&rt, header, bytes);
    }
}

/// Asserts that a reserved bit of byte 12 is in no field.
fn reserved(rt: &impl Abort, byte: u8) {
    let mut bytes = PLAIN;
    bytes[12] = byte;
    let expected = Ok((plain(), b"".as_slice()));
    same(rt, &TcpHeader::from_slice(&bytes), &expected);
}

#[test]
fn reserved_bits(rt: HostRuntime) {
    for byte in [0x58, 0x54, 0x52] {
        reserved(&rt, byte);
    }
}

/// Asserts that a TCP header with `options_len` bytes of options, at most 40, has the given byte 12: the data offset in
/// words of 4 bytes, in its upper 4 bits.
fn data_offset(rt: &impl Abort, options_len: usize, byte: u8) {
    let mut bytes = [0xab; 60];
    bytes[..20].copy_from_slice(&PLAIN);
    bytes[12] = byte;
    let options = bytes[20..].get(..options_len).expect(rt, "too long");
    let mut header = plain();
    header.set_options_raw(options).expect(rt, "refused");
    // known since the slice of `options` was found; stated for the proof that the next range is within `bytes`
    assert!(rt; options_len <= 40);
    encodes(rt, header, &bytes[..20 + options_len]);
}

#[test]
fn data_offsets(rt: HostRuntime) {
    for (options_len, byte) in [(0, 0x50), (4, 0x60), (8, 0x70), (12, 0x80), (40, 0xf0)] {
        data_offset(&rt, options_len, byte);
    }
}

/// Asserts that a TCP header is rejected for its data offset, byte 12.
fn data_offset_too_small(rt: &impl Abort, data_offset: u8, byte: u8) {
    let mut bytes = PLAIN;
    bytes[12] = byte;
    let refusal = HeaderSliceError::Content(HeaderError::DataOffsetTooSmall { data_offset });
    same(rt, &TcpHeader::from_slice(&bytes).err(), &Some(refusal));
}

#[test]
fn data_offsets_too_small(rt: HostRuntime) {
    for (data_offset, byte) in [(0, 0), (1, 0x10), (2, 0x20), (4, 0x40)] {
        data_offset_too_small(&rt, data_offset, byte);
    }
}
