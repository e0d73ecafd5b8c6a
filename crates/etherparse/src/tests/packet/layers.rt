//! Tests of the layers of packets, through the accessors of single layers.

use crate::err::packet::SliceError;
use crate::err::{Layer, LenError};
use crate::tests::checks::same;
use crate::tests::samples::*;
use crate::*;
use std::process::Abort;

/// A Linux cooked capture header (SLL) of an Ethernet device, and the IPv4 packet of `FRAME` with the UDP payload 1 to
/// 8.
const COOKED: &[u8] =
    b"\x00\x03\x00\x01\x00\x06\x01\x02\x03\x04\x05\x06\x00\x00\x08\x00\x45\x00\x00\x24\x00\x00\x40\x00\x14\x11\xe3\x75\xc0\xa8\x01\x01\xc0\xa8\x01\x02\x00\x15\x04\xd2\x00\x10\x67\x7f\x01\x02\x03\x04\x05\x06\x07\x08";

#[test]
fn ip_payload_of_a_frame(rt: HostRuntime) {
    let packet = SlicedPacket::from_ethernet(FRAME).expect(&rt, "refused");
    let payload = IpPayloadSlice {
        ip_number: IpNumber::UDP,
        fragmented: false,
        len_source: LenSource::Ipv4HeaderTotalLen,
        payload: &FRAME[34..],
    };
    same(&rt, &packet.ip_payload(), &Some(&payload));
    let net = packet.net.as_ref().expect(&rt, "a net layer");
    same(&rt, &(net.header_len(), packet.payload_offset()), &(20, 42));
}

/// Returns the UDP destination port of an IPv4 packet. Its `?` converts the error of a single layer to that of a
/// packet.
fn port_in(packet: &[u8]) -> Result<u16, SliceError> {
    let packet = Ipv4Slice::from_slice(packet)?;
    let datagram = UdpSlice::from_slice(packet.payload().payload)?;
    Ok(datagram.destination_port())
}

#[test]
fn errors_of_layers(rt: HostRuntime) {
    let error = LenError {
        required_len: 20,
        len: 19,
        len_source: LenSource::Slice,
        layer: Layer::Ipv4Header,
        layer_start_offset: 0,
    };
    same(&rt, &port_in(&FRAME[14..]), &Ok(1234));
    same(&rt, &port_in(&FRAME[14..33]), &Err(SliceError::Len(error)));
}

/// Returns a VLAN tag with this identifier and ether type. Aborts the test if `id` is above 4095.
fn tag(rt: &impl Abort, id: u16, ether_type: EtherType) -> SingleVlanHeader {
    SingleVlanHeader {
        pcp: VlanPcp::ZERO,
        drop_eligible_indicator: false,
        vlan_id: VlanId::try_new(id).expect(rt, "above 4095"),
        ether_type,
    }
}

/// Returns the first two of the four VLAN tags of a test packet: identifiers 1 and 2, both before a further tag.
fn outer_tags(rt: &impl Abort) -> Option<VlanHeader> {
    let outer = tag(rt, 1, EtherType::VLAN_TAGGED_FRAME);
    let inner = tag(rt, 2, EtherType::VLAN_TAGGED_FRAME);
    Some(VlanHeader::Double(DoubleVlanHeader { outer, inner }))
}

/// Asserts that the VLAN identifiers of a packet are 1, 2 and 3.
fn are_first_three(rt: &impl Abort, ids: &ArrayVec<VlanId, 3>) {
    same(rt, &ids.len(), &3);
    for (before, id) in ids.iter().enumerate() {
        same(rt, &usize::from(id.value()), &(before + 1));
    }
}

#[test]
fn outer_tags_of_headers(rt: HostRuntime) {
    let tagged = PacketHeaders::from_ether_type(EtherType::VLAN_TAGGED_FRAME, FOUR_TAGS);
    let packet = tagged.expect(&rt, "refused");
    same(&rt, &packet.vlan(), &outer_tags(&rt));
    are_first_three(&rt, &packet.vlan_ids());
}

#[test]
fn tag_in_macsec(rt: HostRuntime) {
    let tagged = PacketHeaders::from_ether_type(EtherType::MACSEC, TAG_IN_MACSEC);
    let packet = tagged.expect(&rt, "refused");
    let inner = tag(&rt, 7, EtherType(0x1234));
    same(&rt, &packet.vlan(), &Some(VlanHeader::Single(inner)));
    let Ok((outer, _)) = MacsecHeader::from_slice(TAG_IN_MACSEC) else {
        panic!(&rt; "refused");
    };
    same(
        &rt,
        &packet.link_exts.first(),
        &Some(&LinkExtHeader::Macsec(outer)),
    );
}

#[test]
fn cooked_captures(rt: HostRuntime) {
    let packet = SlicedPacket::from_linux_sll(COOKED).expect(&rt, "refused");
    let link = LinuxSllSlice::from_slice(COOKED).expect(&rt, "refused");
    same(&rt, &packet.link, &Some(LinkSlice::LinuxSll(link)));
    same(&rt, &packet.payload(), &PAYLOAD);
    same(&rt, &packet.payload_ether_type(), &None);
    let payload = EtherPayloadSlice {
        ether_type: EtherType::IPV4,
        len_source: LenSource::Slice,
        payload: &FRAME[14..],
    };
    same(&rt, &packet.ether_payload(), &Some(payload));
}

/// Returns a `NetSlice` under its older name `InternetSlice`: both name one type.
fn as_internet_slice(net: NetSlice<'_>) -> InternetSlice<'_> {
    net
}

/// Returns `NetHeaders` under their older name `IpHeader`: both name one type.
fn as_ip_header(net: NetHeaders) -> IpHeader {
    net
}

#[test]
fn older_names(rt: HostRuntime) {
    let packet = Ipv4Slice::from_slice(AUTHENTICATED).expect(&rt, "refused");
    same(
        &rt,
        &as_internet_slice(NetSlice::from(packet)).is_ipv4(),
        &true,
    );
    let header = NetHeaders::from(arp_request(&rt));
    same(&rt, &as_ip_header(header).is_arp(), &true);
}
