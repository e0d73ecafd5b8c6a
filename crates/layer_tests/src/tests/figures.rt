//! Tests of each header against its figure in the standard: each flag and each bit of a narrow field set alone, and the
//! bytes of the wider fields distinct. Each row is written as the bytes of the figure, and parsed from them.

mod arp;
mod cooked;
mod fragment;
mod ip_auth;
mod ipv4;
mod ipv6;
mod macsec;
mod tcp;
mod udp;
mod vlan;
