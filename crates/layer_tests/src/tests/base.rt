//! Tests of `ep_base` (numbers, errors, checksums) for everything that its contracts don't cover: examples from
//! standards, error texts, and the internal state of a checksum.

mod sums;
mod texts;

use crate::tests::checks::same;
use ep_base::checksum::Sum16BitWords;

#[test]
fn checksums(rt: HostRuntime) {
    // an IPv4 header with checksum field 0, and with its checksum
    let empty = b"\x45\x00\x00\x24\x00\x00\x40\x00\x14\x11\x00\x00\xc0\xa8\x01\x01\xc0\xa8\x01\x02";
    let filled =
        b"\x45\x00\x00\x24\x00\x00\x40\x00\x14\x11\xe3\x75\xc0\xa8\x01\x01\xc0\xa8\x01\x02";
    // example of RFC 1071, section 3
    let example = b"\x00\x01\xf2\x03\xf4\xf5\xf6\xf7";
    let odd = b"\x01\x02\x03\x04\x05\x06\x07\x08\x09";
    for (bytes, checksum, with_no_zero) in [
        (empty.as_slice(), 0xe375, 0xe375),
        (filled.as_slice(), 0, 0xffff),
        (example.as_slice(), 0x220d, 0x220d),
        (odd.as_slice(), 0xe6eb, 0xe6eb),
        (b"".as_slice(), 0xffff, 0xffff),
        ([0; 10].as_slice(), 0xffff, 0xffff),
    ] {
        let sum = Sum16BitWords::new().add_slice(bytes);
        same(
            &rt,
            &(sum.ones_complement(), sum.ones_complement_with_no_zero()),
            &(checksum, with_no_zero),
        );
    }
}

/// Returns the checksum state of a UDP datagram and its IPv4 pseudo-header, added by several calls. The resulting
/// checksum is 0, which UDP writes as 0xffff.
fn by_parts() -> Sum16BitWords {
    Sum16BitWords::new()
        .add_4bytes([192, 168, 1, 1])
        .add_4bytes([192, 168, 1, 2])
        .add_2bytes([0, 17])
        .add_2bytes([0, 10])
        .add_slice(b"\x00\x15\x04\xd2\x00\x0a\x00\x00")
        .add_slice(b"\x77\x9f")
}

fn at_once() -> Sum16BitWords {
    Sum16BitWords::new()
        .add_16bytes([
            192, 168, 1, 1, 192, 168, 1, 2, 0, 17, 0, 10, 0, 0x15, 0x04, 0xd2,
        ])
        .add_slice(b"\x00\x0a\x00\x00\x77\x9f")
}

#[test]
fn checksum_by_parts(rt: HostRuntime) {
    let sum = by_parts();
    same(
        &rt,
        &(sum.ones_complement(), sum.ones_complement_with_no_zero()),
        &(0, 0xffff),
    );
    same(&rt, &at_once(), &sum);
}
