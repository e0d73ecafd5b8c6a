//! Errors when creating an ARP packet from addresses (RFC 826).

mod arp_hw_addr_error;
mod arp_new_error;
mod arp_proto_addr_error;

pub use arp_hw_addr_error::ArpHwAddrError;
pub use arp_new_error::ArpNewError;
pub use arp_proto_addr_error::ArpProtoAddrError;
