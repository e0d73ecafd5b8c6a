//! ARP, the Address Resolution Protocol (RFC 826): packets, addresses and operations.

mod arp_address;
mod arp_hardware_id;
mod arp_operation;
mod arp_packet;
mod arp_packet_slice;

pub use arp_hardware_id::ArpHardwareId;
pub use arp_operation::ArpOperation;
pub use arp_packet::ArpPacket;
pub use arp_packet_slice::ArpPacketSlice;
