//! The VLAN tag of IEEE 802.1Q, 9.6: priority code point (3 bits), drop eligible indicator, VLAN identifier (12 bits).

use crate::tests::checks::same;
use ep_link::{EtherType, SingleVlanHeader, SingleVlanSlice, VlanId, VlanPcp};
use std::process::Abort;

/// Asserts that a VLAN tag with these fields is written with the given bytes 0 and 1, and parsed from them.
fn tag(rt: &impl Abort, (pcp, eligible, id): (u8, bool, u16), [upper, lower]: [u8; 2]) {
    let header = SingleVlanHeader {
        pcp: VlanPcp::try_new(pcp).expect(rt, "refused"),
        drop_eligible_indicator: eligible,
        vlan_id: VlanId::try_new(id).expect(rt, "refused"),
        ether_type: EtherType(0x0102),
    };
    let bytes = [upper, lower, 1, 2];
    same(rt, &header.to_bytes(), &bytes);
    let slice = SingleVlanSlice::from_slice(&bytes).expect(rt, "refused");
    same(rt, &slice.to_header(), &header);
    let expected = Ok((header, b"".as_slice()));
    same(rt, &SingleVlanHeader::from_slice(&bytes), &expected);
}

#[test]
fn tag_control_information(rt: HostRuntime) {
    for (fields, bytes) in [
        ((4, false, 0), [0x80, 0]),
        ((2, false, 0), [0x40, 0]),
        ((1, false, 0), [0x20, 0]),
        ((0, true, 0), [0x10, 0]),
        ((0, false, 0x800), [0x08, 0]),
        ((0, false, 0x400), [0x04, 0]),
        ((0, false, 0x200), [0x02, 0]),
        ((0, false, 0x100), [0x01, 0]),
        ((0, false, 0x080), [0, 0x80]),
        ((0, false, 0x040), [0, 0x40]),
        ((0, false, 0x020), [0, 0x20]),
        ((0, false, 0x010), [0, 0x10]),
        ((0, false, 0x008), [0, 0x08]),
        ((0, false, 0x004), [0, 0x04]),
        ((0, false, 0x002), [0, 0x02]),
        ((0, false, 0x001), [0, 0x01]),
    ] {
        tag(&rt, fields, bytes);
    }
}
