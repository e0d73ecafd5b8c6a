//! Tests that link headers and VLAN tags are written correctly to a vector without spare capacity.

use super::frames::*;
use super::vlan::*;
use crate::tests::checks::{full, is_written};
use ep_link::{LinkHeader, VlanHeader};

#[test]
fn ethernet(rt: HostRuntime) {
    let mut buf = full(&rt, rt.alloc());
    let written = ethernet_header().write(&mut buf).is_ok();
    is_written(&rt, written, &buf, &ETHERNET[..14]);
    let mut buf = full(&rt, rt.alloc());
    let written = LinkHeader::Ethernet2(ethernet_header())
        .write(&mut buf)
        .is_ok();
    is_written(&rt, written, &buf, &ETHERNET[..14]);
}

#[test]
fn cooked_captures(rt: HostRuntime) {
    let mut buf = full(&rt, rt.alloc());
    let written = netlink_header().write(&mut buf).is_ok();
    is_written(&rt, written, &buf, &NETLINK[..16]);
    let mut buf = full(&rt, rt.alloc());
    let written = LinkHeader::LinuxSll(ipv4_header()).write(&mut buf).is_ok();
    is_written(&rt, written, &buf, IPV4);
}

#[test]
fn tags(rt: HostRuntime) {
    let mut buf = full(&rt, rt.alloc());
    let written = inner_tag(&rt).write(&mut buf).is_ok();
    is_written(&rt, written, &buf, &TAGGED[4..8]);
    let mut buf = full(&rt, rt.alloc());
    let written = both_tags(&rt).write(&mut buf).is_ok();
    is_written(&rt, written, &buf, &TAGGED[..8]);
    let mut buf = full(&rt, rt.alloc());
    let written = VlanHeader::Double(both_tags(&rt)).write(&mut buf).is_ok();
    is_written(&rt, written, &buf, &TAGGED[..8]);
}
