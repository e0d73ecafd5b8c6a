//! Errors of parsing link headers, VLAN and MACsec tags and ARP packets, and of creating ARP packets.

pub mod arp;

pub use ep_base::err::{Layer, LenError, linux_sll, macsec};
