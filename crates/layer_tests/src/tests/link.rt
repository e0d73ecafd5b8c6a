//! Tests of `ep_link` (link headers, VLAN tags, MACsec and ARP) for everything that its contracts don't cover: examples
//! from standards, error texts, and calls that have to succeed.

mod arp;
mod frames;
mod link_ext;
mod macsec;
mod vlan;
mod writes;
