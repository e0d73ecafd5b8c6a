//! Tests that the public types of `ep_link` (link headers, VLAN tags, MACsec and ARP) have their derived traits.

use super::*;
use ep_link::err::arp::{ArpHwAddrError, ArpNewError, ArpProtoAddrError};
use ep_link::{
    ArpHardwareId, ArpOperation, ArpPacket, ArpPacketSlice, DoubleVlanHeader, DoubleVlanSlice,
    Ethernet2Header, Ethernet2Slice, LinkExtHeader, LinkExtSlice, LinkHeader, LinkSlice,
    LinuxSllHeader, LinuxSllPacketType, LinuxSllPayloadSlice, LinuxSllProtocolType, LinuxSllSlice,
    MacsecHeader, MacsecHeaderSlice, MacsecPType, MacsecPayloadSlice, MacsecSlice,
    SingleVlanHeader, SingleVlanSlice, VlanHeader, VlanSlice,
};

#[test]
fn derived_traits() {
    are_copied_ordered_and_hashed::<(ArpHardwareId, ArpOperation)>();
    are_hashed::<(ArpHwAddrError, ArpNewError, ArpProtoAddrError)>();
    are_errors::<ArpHwAddrError, ArpNewError, ArpProtoAddrError>();
    are_compared::<
        (
            ArpPacket,
            ArpPacketSlice<'_>,
            DoubleVlanHeader,
            DoubleVlanSlice<'_>,
            Ethernet2Header,
            Ethernet2Slice<'_>,
            LinkExtHeader,
            LinkExtSlice<'_>,
            LinkHeader,
            LinkSlice<'_>,
            LinuxSllHeader,
            LinuxSllPacketType,
        ),
    >();
    are_compared::<
        (
            LinuxSllPayloadSlice<'_>,
            LinuxSllProtocolType,
            LinuxSllSlice<'_>,
            MacsecHeader,
            MacsecHeaderSlice<'_>,
            MacsecPType,
            MacsecPayloadSlice<'_>,
            MacsecSlice<'_>,
            SingleVlanHeader,
            SingleVlanSlice<'_>,
            VlanHeader,
            VlanSlice<'_>,
        ),
    >();
    have_defaults::<(LinkExtHeader, LinkExtSlice<'_>)>();
}
