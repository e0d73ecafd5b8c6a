//! Tests of Ethernet II frames and of packets of Linux cooked captures (SLL).

use crate::tests::checks::same;
use ep_link::err::linux_sll::{HeaderError, HeaderSliceError};
use ep_link::{
    ArpHardwareId, EtherType, Ethernet2Header, Ethernet2Slice, Layer, LenError, LenSource,
    LinuxSllHeader, LinuxSllPacketType, LinuxSllProtocolType, LinuxSllSlice,
};
use std::process::Abort;

/// An Ethernet II frame: destination and source address, the ether type of IPv6, and 2 bytes of payload, all bytes
/// distinct.
pub(super) const ETHERNET: &[u8] =
    b"\x01\x02\x03\x04\x05\x06\x07\x08\x09\x0a\x0b\x0c\x86\xdd\xfe\xff";

/// A header of a Linux cooked capture (SLL) without payload: sent to another host, a sender address of 6 bytes,
/// Ethernet and IPv4.
pub(super) const IPV4: &[u8] = b"\x00\x03\x00\x01\x00\x06\x01\x02\x03\x04\x05\x06\x00\x00\x08\x00";

/// A Linux cooked capture (SLL) packet of netlink (hardware type 824), with 2 bytes of payload.
pub(super) const NETLINK: &[u8] =
    b"\x00\x00\x03\x38\x00\x00\x00\x00\x00\x00\x00\x00\x00\x00\x00\x10\x01\x02";

/// A header of a Linux cooked capture (SLL) with two unsupported fields: packet type 8 and hardware type 264.
const UNKNOWN_TYPE: &[u8] = b"\x00\x08\x01\x08\x00\x06\x01\x02\x03\x04\x05\x06\x00\x00\x08\x00";

/// A header of a Linux cooked capture (SLL) with the unsupported hardware type 264.
const UNKNOWN_HARDWARE: &[u8] = b"\x00\x03\x01\x08\x00\x06\x01\x02\x03\x04\x05\x06\x00\x00\x08\x00";

/// Returns an Ethernet II header with the fields of the constant `ETHERNET`: its two addresses and the ether type of
/// IPv6.
pub(super) fn ethernet_header() -> Ethernet2Header {
    Ethernet2Header {
        source: [7, 8, 9, 10, 11, 12],
        destination: [1, 2, 3, 4, 5, 6],
        ether_type: EtherType::IPV6,
    }
}

/// Returns a Linux cooked capture header with the fields of the constant `IPV4`: sent to another host, over Ethernet,
/// with IPv4.
pub(super) fn ipv4_header() -> LinuxSllHeader {
    LinuxSllHeader {
        packet_type: LinuxSllPacketType::OTHERHOST,
        arp_hrd_type: ArpHardwareId::ETHERNET,
        sender_address_valid_length: 6,
        sender_address: [1, 2, 3, 4, 5, 6, 0, 0],
        protocol_type: LinuxSllProtocolType::EtherType(EtherType::IPV4),
    }
}

/// Returns a Linux cooked capture header with the fields of the constant `NETLINK`: hardware type 824 and netlink
/// protocol 16.
pub(super) fn netlink_header() -> LinuxSllHeader {
    LinuxSllHeader {
        packet_type: LinuxSllPacketType::HOST,
        arp_hrd_type: ArpHardwareId(824),
        sender_address_valid_length: 0,
        sender_address: [0; 8],
        protocol_type: LinuxSllProtocolType::NetlinkProtocolType(16),
    }
}

#[test]
fn reads_ethernet(rt: HostRuntime) {
    let frame = Ethernet2Slice::from_slice_without_fcs(ETHERNET).expect(&rt, "refused");
    same(&rt, &frame.to_header(), &ethernet_header());
    same(&rt, &frame.payload_slice(), &b"\xfe\xff".as_slice());
}

/// Parses a Linux cooked capture packet with both parsers (slice and owned header), and asserts that both return the
/// given header and payload.
fn reads(rt: &impl Abort, bytes: &[u8], header: LinuxSllHeader, payload: &[u8]) {
    let packet = LinuxSllSlice::from_slice(bytes).expect(rt, "refused");
    same(rt, &packet.to_header(), &header);
    same(rt, &packet.payload_slice(), &payload);
    same(
        rt,
        &LinuxSllHeader::from_slice(bytes),
        &Ok((header, payload)),
    );
}

#[test]
fn reads_cooked_packets(rt: HostRuntime) {
    reads(&rt, IPV4, ipv4_header(), b"");
    reads(&rt, NETLINK, netlink_header(), b"\x01\x02");
}

/// Returns the protocol type that is read from a Linux cooked capture header with this hardware type and protocol
/// number. The hardware type decides the meaning of the number.
fn protocol_of(rt: &impl Abort, hardware: u16, number: u16) -> LinuxSllProtocolType {
    let [h0, h1] = u16::to_be_bytes(hardware);
    let [n0, n1] = u16::to_be_bytes(number);
    let bytes = [0, 3, h0, h1, 0, 6, 1, 2, 3, 4, 5, 6, 0, 0, n0, n1];
    LinuxSllSlice::from_slice(&bytes)
        .expect(rt, "refused")
        .protocol_type()
}

#[test]
fn reads_protocol_by_hardware(rt: HostRuntime) {
    for (hardware, number, protocol_type) in [
        (
            1,
            0x0600,
            LinuxSllProtocolType::EtherType(EtherType(0x0600)),
        ),
        (
            1,
            0x05ff,
            LinuxSllProtocolType::LinuxNonstandardEtherType(0x05ff),
        ),
        (772, 0x0806, LinuxSllProtocolType::EtherType(EtherType::ARP)),
        (
            772,
            0x000c,
            LinuxSllProtocolType::LinuxNonstandardEtherType(0x000c),
        ),
        (770, 0x0800, LinuxSllProtocolType::Ignored(0x0800)),
        (803, 0x0800, LinuxSllProtocolType::Ignored(0x0800)),
        (
            778,
            0x0800,
            LinuxSllProtocolType::GenericRoutingEncapsulationProtocolType(0x0800),
        ),
        (824, 0, LinuxSllProtocolType::NetlinkProtocolType(0)),
    ] {
        same(&rt, &protocol_of(&rt, hardware, number), &protocol_type);
    }
}

#[test]
fn refuses_a_short_frame(rt: HostRuntime) {
    let too_short = LenError::at_start(14, 13, LenSource::Slice, Layer::Ethernet2Header);
    same(
        &rt,
        &Ethernet2Slice::from_slice_without_fcs(&ETHERNET[..13]).err(),
        &Some(too_short),
    );
}

#[test]
fn refuses_in_order(rt: HostRuntime) {
    let too_short = LenError::at_start(16, 15, LenSource::Slice, Layer::LinuxSllHeader);
    let unknown_type = HeaderError::UnsupportedPacketTypeField { packet_type: 8 };
    let unknown_hardware = HeaderError::UnsupportedArpHardwareId {
        arp_hardware_type: 264,
    };
    for (bytes, error) in [
        (&UNKNOWN_TYPE[..15], HeaderSliceError::Len(too_short)),
        (UNKNOWN_TYPE, HeaderSliceError::Content(unknown_type)),
        (
            UNKNOWN_HARDWARE,
            HeaderSliceError::Content(unknown_hardware),
        ),
    ] {
        same(&rt, &LinuxSllSlice::from_slice(bytes).err(), &Some(error));
    }
}
