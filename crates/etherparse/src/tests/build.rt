//! Tests of the packet builder: external test vectors, errors, and the largest frames, which are written if there is
//! memory.

use crate::err::packet::{BuildSliceWriteError, BuildWriteError};
use crate::tests::checks::{same, shows};
use crate::tests::samples::*;
use crate::*;
use std::alloc::Global;
use std::process::Abort;

mod bounds;
mod frames;
mod refusals;
mod writers;

/// Starts a frame with an Ethernet II header from 01:02:03:04:05:06 to 07:08:09:0a:0b:0c.
fn ethernet() -> PacketBuilderStep<Ethernet2Header> {
    PacketBuilder::ethernet2([1, 2, 3, 4, 5, 6], [7, 8, 9, 10, 11, 12])
}

/// Starts a packet with an IPv4 header (192.168.1.1 to 192.168.1.2, time to live 20) and without a link header.
fn ipv4() -> PacketBuilderStep<IpHeaders> {
    PacketBuilder::ipv4(SOURCE_4, DESTINATION_4, 20)
}

/// Starts a frame with an Ethernet II header and an IPv4 header (192.168.1.1 to 192.168.1.2, time to live 20).
fn ethernet_ipv4() -> PacketBuilderStep<IpHeaders> {
    let ethernet = PacketBuilder::ethernet2([1, 2, 3, 4, 5, 6], [7, 8, 9, 10, 11, 12]);
    ethernet.ipv4(SOURCE_4, DESTINATION_4, 20)
}

/// Starts a packet with an IPv6 header (hop limit 47) and without a link header.
fn ipv6() -> PacketBuilderStep<IpHeaders> {
    PacketBuilder::ipv6(SOURCE, DESTINATION, 47)
}

/// IPv4 source address of most frames that the builder tests write; `SOURCE` is the IPv6 source address.
const SOURCE_4: [u8; 4] = [192, 168, 1, 1];

const DESTINATION_4: [u8; 4] = [192, 168, 1, 2];

const SOURCE: [u8; 16] = [
    11, 12, 13, 14, 15, 16, 17, 18, 19, 10, 21, 22, 23, 24, 25, 26,
];

const DESTINATION: [u8; 16] = [
    31, 32, 33, 34, 35, 36, 37, 38, 39, 40, 41, 42, 43, 44, 45, 46,
];
