//! The IPv6 header of RFC 8200, 3: version, traffic class, flow label, payload length, next header, hop limit,
//! addresses.

use crate::tests::checks::same;
use ep_ip::{IpNumber, Ipv6FlowLabel, Ipv6Header, Ipv6HeaderSlice};
use std::process::Abort;

/// Asserts that an IPv6 header with this traffic class and flow label is written with the given bytes 0 to 3, and
/// parsed from them.
fn class_and_label(rt: &impl Abort, traffic_class: u8, flow_label: u32, first: [u8; 4]) {
    let header = Ipv6Header {
        traffic_class,
        flow_label: Ipv6FlowLabel::try_new(flow_label).expect(rt, "refused"),
        payload_length: 0x0102,
        next_header: IpNumber(3),
        hop_limit: 4,
        source: [5, 6, 7, 8, 9, 10, 11, 12, 13, 14, 15, 16, 17, 18, 19, 20],
        destination: [
            21, 22, 23, 24, 25, 26, 27, 28, 29, 30, 31, 32, 33, 34, 35, 36,
        ],
    };
    let [b0, b1, b2, b3] = first;
    let bytes = [
        b0, b1, b2, b3, 1, 2, 3, 4, 5, 6, 7, 8, 9, 10, 11, 12, 13, 14, 15, 16, 17, 18, 19, 20, 21,
        22, 23, 24, 25, 26, 27, 28, 29, 30, 31, 32, 33, 34, 35, 36,
    ];
    same(rt, &header.to_bytes(), &bytes);
    let slice = Ipv6HeaderSlice::from_slice(&bytes).expect(rt, "refused");
    same(rt, &slice.to_header(), &header);
    let expected = Ok((header, b"".as_slice()));
    same(rt, &Ipv6Header::from_slice(&bytes), &expected);
}

#[test]
fn traffic_classes(rt: HostRuntime) {
    for (value, bytes) in [
        (0x80, [0x68, 0, 0, 0]),
        (0x40, [0x64, 0, 0, 0]),
        (0x20, [0x62, 0, 0, 0]),
        (0x10, [0x61, 0, 0, 0]),
        (0x08, [0x60, 0x80, 0, 0]),
        (0x04, [0x60, 0x40, 0, 0]),
        (0x02, [0x60, 0x20, 0, 0]),
        (0x01, [0x60, 0x10, 0, 0]),
    ] {
        class_and_label(&rt, value, 0, bytes);
    }
}

#[test]
fn flow_labels(rt: HostRuntime) {
    for (value, bytes) in [
        (0x80000, [0x60, 0x08, 0, 0]),
        (0x40000, [0x60, 0x04, 0, 0]),
        (0x20000, [0x60, 0x02, 0, 0]),
        (0x10000, [0x60, 0x01, 0, 0]),
        (0x08000, [0x60, 0, 0x80, 0]),
        (0x04000, [0x60, 0, 0x40, 0]),
        (0x02000, [0x60, 0, 0x20, 0]),
        (0x01000, [0x60, 0, 0x10, 0]),
        (0x00800, [0x60, 0, 0x08, 0]),
        (0x00400, [0x60, 0, 0x04, 0]),
        (0x00200, [0x60, 0, 0x02, 0]),
        (0x00100, [0x60, 0, 0x01, 0]),
        (0x00080, [0x60, 0, 0, 0x80]),
        (0x00040, [0x60, 0, 0, 0x40]),
        (0x00020, [0x60, 0, 0, 0x20]),
        (0x00010, [0x60, 0, 0, 0x10]),
        (0x00008, [0x60, 0, 0, 0x08]),
        (0x00004, [0x60, 0, 0, 0x04]),
        (0x00002, [0x60, 0, 0, 0x02]),
        (0x00001, [0x60, 0, 0, 0x01]),
    ] {
        class_and_label(&rt, 0, value, bytes);
    }
}
