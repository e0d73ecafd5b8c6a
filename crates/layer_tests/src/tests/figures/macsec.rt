//! The MACsec tag of IEEE 802.1AE, 9.3: flags V, ES, SC, SCB, E and C and the association number in byte 0, short
//! length in byte 1, packet number, secure channel identifier.

use crate::tests::checks::same;
use ep_link::err::macsec::{HeaderError, HeaderSliceError};
use ep_link::{EtherType, MacsecAn, MacsecHeader, MacsecHeaderSlice, MacsecPType, MacsecShortLen};
use std::process::Abort;

/// Asserts that the MACsec tag is written as the bytes, and parsed from them.
fn encodes(rt: &impl Abort, header: MacsecHeader, bytes: &[u8]) {
    same(rt, &header.to_bytes().as_slice(), &bytes);
    let slice = MacsecHeaderSlice::from_slice(bytes).expect(rt, "refused");
    same(rt, &slice.to_header(), &header);
    let expected = Ok((header, b"".as_slice()));
    same(rt, &MacsecHeader::from_slice(bytes), &expected);
}

/// Asserts that a MACsec tag with these flags (ES and SCB) and this association number, before an unmodified payload,
/// has the given byte 0.
fn flags(rt: &impl Abort, (endstation_id, scb): (bool, bool), an: u8, byte: u8) {
    let header = MacsecHeader {
        ptype: MacsecPType::Unmodified(EtherType(0x0102)),
        endstation_id,
        scb,
        an: MacsecAn::try_new(an).expect(rt, "refused"),
        short_len: MacsecShortLen::ZERO,
        packet_nr: 0x0304_0506,
        sci: None,
    };
    encodes(rt, header, &[byte, 0, 3, 4, 5, 6, 1, 2]);
}

#[test]
fn flags_and_association_numbers(rt: HostRuntime) {
    for (set, an, byte) in [
        ((true, false), 0, 0x40),
        ((false, true), 0, 0x10),
        ((false, false), 2, 0x02),
        ((false, false), 1, 0x01),
    ] {
        flags(&rt, set, an, byte);
    }
}

/// Asserts that a MACsec tag with this modification (flags E and C) and secure channel identifier (flag SC) is written
/// as the bytes, and parsed from them.
fn flags_of_parts(rt: &impl Abort, ptype: MacsecPType, sci: Option<u64>, bytes: &[u8]) {
    let header = MacsecHeader {
        ptype,
        endstation_id: false,
        scb: false,
        an: MacsecAn::ZERO,
        short_len: MacsecShortLen::ZERO,
        packet_nr: 0x0304_0506,
        sci,
    };
    encodes(rt, header, bytes);
}

#[test]
fn modification_and_secure_channel(rt: HostRuntime) {
    let rows: [(MacsecPType, Option<u64>, &[u8]); 3] = [
        (
            MacsecPType::Unmodified(EtherType(0x0102)),
            Some(0x1112_1314_1516_1718),
            b"\x20\0\x03\x04\x05\x06\x11\x12\x13\x14\x15\x16\x17\x18\x01\x02",
        ),
        (
            MacsecPType::EncryptedUnmodified,
            None,
            b"\x08\0\x03\x04\x05\x06",
        ),
        (MacsecPType::Modified, None, b"\x04\0\x03\x04\x05\x06"),
    ];
    for (ptype, sci, bytes) in rows {
        flags_of_parts(&rt, ptype, sci, bytes);
    }
}

/// Returns a MACsec tag with this short length, before a modified payload.
fn of_short_len(rt: &impl Abort, value: u8) -> MacsecHeader {
    MacsecHeader {
        ptype: MacsecPType::Modified,
        endstation_id: false,
        scb: false,
        an: MacsecAn::ZERO,
        short_len: MacsecShortLen::try_new(value).expect(rt, "refused"),
        packet_nr: 0x0304_0506,
        sci: None,
    }
}

#[test]
fn short_lengths(rt: HostRuntime) {
    for (value, byte) in [
        (32, 0x20),
        (16, 0x10),
        (8, 0x08),
        (4, 0x04),
        (2, 0x02),
        (1, 0x01),
    ] {
        encodes(&rt, of_short_len(&rt, value), &[4, byte, 3, 4, 5, 6]);
    }
}

/// Tests that the reserved bits, the upper two of byte 1, are in no field.
#[test]
fn reserved_bits(rt: HostRuntime) {
    for byte in [0x80, 0x40] {
        let bytes = [4, byte, 3, 4, 5, 6];
        let slice = MacsecHeaderSlice::from_slice(&bytes).expect(&rt, "refused");
        same(&rt, &slice.to_header(), &of_short_len(&rt, 0));
    }
}

/// Tests that a MACsec tag is rejected for its version, the upper bit of byte 0.
#[test]
fn version(rt: HostRuntime) {
    let refused = MacsecHeaderSlice::from_slice(&[0x84, 0, 3, 4, 5, 6]).err();
    let version = HeaderSliceError::Content(HeaderError::UnexpectedVersion);
    same(&rt, &refused, &Some(version));
}
