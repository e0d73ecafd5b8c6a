//! Tests of single and double VLAN tags.

use crate::tests::checks::same;
use ep_link::{
    DoubleVlanHeader, EtherType, Layer, LenError, LenSource, SingleVlanHeader, SingleVlanSlice,
    VlanHeader, VlanId, VlanPcp,
};
use std::process::Abort;

/// Two VLAN tags, the first with the drop eligible indicator, and the first 2 bytes of an IPv4 packet.
pub(super) const TAGGED: &[u8] = b"\x30\x01\x81\x00\xa1\x23\x08\x00\x45\x00";

fn outer_tag(rt: &impl Abort) -> SingleVlanHeader {
    SingleVlanHeader {
        pcp: VlanPcp::try_new(1).expect(rt, "refused"),
        drop_eligible_indicator: true,
        vlan_id: VlanId::try_new(1).expect(rt, "refused"),
        ether_type: EtherType(0x8100),
    }
}

pub(super) fn inner_tag(rt: &impl Abort) -> SingleVlanHeader {
    SingleVlanHeader {
        pcp: VlanPcp::try_new(5).expect(rt, "refused"),
        drop_eligible_indicator: false,
        vlan_id: VlanId::try_new(0x123).expect(rt, "refused"),
        ether_type: EtherType(0x0800),
    }
}

pub(super) fn both_tags(rt: &impl Abort) -> DoubleVlanHeader {
    DoubleVlanHeader {
        outer: outer_tag(rt),
        inner: inner_tag(rt),
    }
}

#[test]
fn reads_tags(rt: HostRuntime) {
    let inner = SingleVlanSlice::from_slice(&TAGGED[4..]).expect(&rt, "refused");
    same(&rt, &inner.to_header(), &inner_tag(&rt));
    let expected = Ok((outer_tag(&rt), &TAGGED[4..]));
    same(&rt, &SingleVlanHeader::from_slice(TAGGED), &expected);
    let expected = Ok((both_tags(&rt), &TAGGED[8..]));
    same(&rt, &DoubleVlanHeader::from_slice(TAGGED), &expected);
}

#[test]
fn refuses_short_slices(rt: HostRuntime) {
    for (len, layer_start_offset) in [(3, 0), (7, 4)] {
        let error = LenError {
            required_len: 4,
            len: 3,
            len_source: LenSource::Slice,
            layer: Layer::VlanHeader,
            layer_start_offset,
        };
        same(
            &rt,
            &DoubleVlanHeader::from_slice(&TAGGED[..len]),
            &Err(error),
        );
    }
}
