//! Link layers: Ethernet II, Linux cooked captures, VLAN and MACsec tags, and ARP, as owned headers and as slices.
#![tactic(auto)]

mod arp;
pub mod err;
pub mod laws;
mod link;
mod link_ext;

pub use arp::{ArpHardwareId, ArpOperation, ArpPacket, ArpPacketSlice};
pub use arrayvec::ArrayVec;
pub use ep_base::err::{Layer, LenError};
pub use ep_base::{
    EtherPayloadSlice, EtherType, LenSource, MacsecAn, MacsecShortLen, VlanId, VlanPcp,
};
pub use link::{
    Ethernet2Header, Ethernet2Slice, LinkHeader, LinkSlice, LinuxSllHeader, LinuxSllPacketType,
    LinuxSllPayloadSlice, LinuxSllProtocolType, LinuxSllSlice,
};
pub use link_ext::{
    DoubleVlanHeader, DoubleVlanSlice, LinkExtHeader, LinkExtSlice, MacsecHeader,
    MacsecHeaderSlice, MacsecPType, MacsecPayloadSlice, MacsecSlice, SingleVlanHeader,
    SingleVlanSlice, VlanHeader, VlanSlice,
};
