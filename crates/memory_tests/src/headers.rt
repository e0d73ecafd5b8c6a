//! Tests that the longest value of each header type is written with one allocation. If it fails, the vector is
//! unchanged.

use crate::checks::*;
use crate::samples::*;
use etherparse::icmpv4::TimestampMessage;
use etherparse::*;
use std::alloc::Global;
use std::process::Abort;

/// A header, or chain of extension headers, that can be appended to a vector. It is implemented by all header types
/// that have a `write` function, except `IcmpEchoHeader` (part of an ICMP header), so that one helper tests them all.
trait Append {
    /// Appends the header to a vector, and returns false if the allocation fails.
    fn append(&self, buf: &mut Vec<u8>) -> bool;
}

impl Append for ArpPacket {
    fn append(&self, buf: &mut Vec<u8>) -> bool {
        self.write(buf).is_ok()
    }
}

impl Append for DoubleVlanHeader {
    fn append(&self, buf: &mut Vec<u8>) -> bool {
        self.write(buf).is_ok()
    }
}

impl Append for Ethernet2Header {
    fn append(&self, buf: &mut Vec<u8>) -> bool {
        self.write(buf).is_ok()
    }
}

impl Append for Icmpv4Header {
    fn append(&self, buf: &mut Vec<u8>) -> bool {
        self.write(buf).is_ok()
    }
}

impl Append for Icmpv6Header {
    fn append(&self, buf: &mut Vec<u8>) -> bool {
        self.write(buf).is_ok()
    }
}

impl Append for IpAuthHeader {
    fn append(&self, buf: &mut Vec<u8>) -> bool {
        self.write(buf).is_ok()
    }
}

impl Append for IpHeaders {
    fn append(&self, buf: &mut Vec<u8>) -> bool {
        self.write(buf).is_ok()
    }
}

impl Append for Ipv4Header {
    fn append(&self, buf: &mut Vec<u8>) -> bool {
        self.write(buf).is_ok()
    }
}

impl Append for Ipv6FragmentHeader {
    fn append(&self, buf: &mut Vec<u8>) -> bool {
        self.write(buf).is_ok()
    }
}

impl Append for Ipv6Header {
    fn append(&self, buf: &mut Vec<u8>) -> bool {
        self.write(buf).is_ok()
    }
}

impl Append for Ipv6RawExtHeader {
    fn append(&self, buf: &mut Vec<u8>) -> bool {
        self.write(buf).is_ok()
    }
}

impl Append for LinkExtHeader {
    fn append(&self, buf: &mut Vec<u8>) -> bool {
        self.write(buf).is_ok()
    }
}

impl Append for LinkHeader {
    fn append(&self, buf: &mut Vec<u8>) -> bool {
        self.write(buf).is_ok()
    }
}

impl Append for LinuxSllHeader {
    fn append(&self, buf: &mut Vec<u8>) -> bool {
        self.write(buf).is_ok()
    }
}

impl Append for MacsecHeader {
    fn append(&self, buf: &mut Vec<u8>) -> bool {
        self.write(buf).is_ok()
    }
}

impl Append for SingleVlanHeader {
    fn append(&self, buf: &mut Vec<u8>) -> bool {
        self.write(buf).is_ok()
    }
}

impl Append for TcpHeader {
    fn append(&self, buf: &mut Vec<u8>) -> bool {
        self.write(buf).is_ok()
    }
}

impl Append for TransportHeader {
    fn append(&self, buf: &mut Vec<u8>) -> bool {
        self.write(buf).is_ok()
    }
}

impl Append for UdpHeader {
    fn append(&self, buf: &mut Vec<u8>) -> bool {
        self.write(buf).is_ok()
    }
}

impl Append for VlanHeader {
    fn append(&self, buf: &mut Vec<u8>) -> bool {
        self.write(buf).is_ok()
    }
}

impl Append for (Ipv4Extensions, IpNumber) {
    fn append(&self, buf: &mut Vec<u8>) -> bool {
        self.0.write(buf, self.1).is_ok()
    }
}

impl Append for (Ipv6Extensions, IpNumber) {
    fn append(&self, buf: &mut Vec<u8>) -> bool {
        self.0.write(buf, self.1).is_ok()
    }
}

/// Asserts that a header of `len` bytes is appended to a vector. If the allocation fails, it prints `name`, and asserts
/// that the vector's length is unchanged and a second try succeeds.
fn writes<H: Append>(
    rt: &(impl Abort + Print),
    buf: &mut Vec<u8>,
    name: &str,
    header: &H,
    len: usize,
) {
    let before = buf.len();
    if !header.append(buf) {
        refused(rt, name);
        same(rt, &buf.len(), &before);
        same(rt, &header.append(buf), &true);
    }
    same(rt, &buf.len().saturating_sub(before), &len);
}

/// Asserts that a header of `len` bytes is written to an empty vector: if the first allocation fails, a second call
/// succeeds.
fn writes_alone<H: Append>(
    rt: &(impl Abort + Print),
    alloc: Global,
    name: &str,
    header: &H,
    len: usize,
) {
    writes(rt, &mut Vec::new(alloc), name, header, len);
}

fn ethernet2() -> Ethernet2Header {
    Ethernet2Header {
        source: [1; 6],
        destination: [2; 6],
        ether_type: EtherType::IPV4,
    }
}

fn linux_sll() -> LinuxSllHeader {
    LinuxSllHeader {
        packet_type: LinuxSllPacketType::HOST,
        arp_hrd_type: ArpHardwareId::ETHERNET,
        sender_address_valid_length: 6,
        sender_address: [1; 8],
        protocol_type: LinuxSllProtocolType::EtherType(EtherType::IPV4),
    }
}

fn tag() -> SingleVlanHeader {
    SingleVlanHeader {
        pcp: VlanPcp::ZERO,
        drop_eligible_indicator: true,
        vlan_id: VlanId::ZERO,
        ether_type: EtherType::IPV4,
    }
}

fn tags() -> DoubleVlanHeader {
    DoubleVlanHeader {
        outer: tag(),
        inner: tag(),
    }
}

fn macsec() -> MacsecHeader {
    MacsecHeader {
        ptype: MacsecPType::Unmodified(EtherType::IPV4),
        endstation_id: false,
        scb: false,
        an: MacsecAn::ZERO,
        short_len: MacsecShortLen::ZERO,
        packet_nr: 3,
        sci: Some(1),
    }
}

#[test]
fn links(rt: HostRuntime) {
    writes_alone(&rt, rt.alloc(), "Ethernet2Header::write", &ethernet2(), 14);
    writes_alone(&rt, rt.alloc(), "LinuxSllHeader::write", &linux_sll(), 16);
    let link = LinkHeader::LinuxSll(linux_sll());
    writes_alone(&rt, rt.alloc(), "LinkHeader::write", &link, 16);
    writes_alone(&rt, rt.alloc(), "ArpPacket::write", &longest_arp(&rt), 1028);
}

#[test]
fn link_extensions(rt: HostRuntime) {
    writes_alone(&rt, rt.alloc(), "SingleVlanHeader::write", &tag(), 4);
    writes_alone(&rt, rt.alloc(), "DoubleVlanHeader::write", &tags(), 8);
    let vlan = VlanHeader::Double(tags());
    writes_alone(&rt, rt.alloc(), "VlanHeader::write", &vlan, 8);
    writes_alone(&rt, rt.alloc(), "MacsecHeader::write", &macsec(), 16);
    let link_ext = LinkExtHeader::Macsec(macsec());
    writes_alone(&rt, rt.alloc(), "LinkExtHeader::write", &link_ext, 16);
}

#[test]
fn extension_headers(rt: HostRuntime) {
    let raw = longest_header(&rt, IpNumber::UDP);
    writes_alone(&rt, rt.alloc(), "Ipv6RawExtHeader::write", &raw, 2048);
    let fragment = fragment_header();
    writes_alone(&rt, rt.alloc(), "Ipv6FragmentHeader::write", &fragment, 8);
    let auth = longest_auth(&rt);
    writes_alone(&rt, rt.alloc(), "IpAuthHeader::write", &auth, 1028);
    let extensions = (
        Ipv4Extensions { auth: Some(auth) },
        IpNumber::AUTHENTICATION_HEADER,
    );
    writes_alone(&rt, rt.alloc(), "Ipv4Extensions::write", &extensions, 1028);
    let extensions = longest_extensions(&rt);
    writes_alone(&rt, rt.alloc(), "Ipv6Extensions::write", &extensions, 9228);
}

#[test]
fn ip(rt: HostRuntime) {
    let header = Ipv4Header {
        options: Ipv4Options::try_new(&[1; 40]).expect(&rt, "of 40 bytes"),
        ..Default::default()
    };
    writes_alone(&rt, rt.alloc(), "Ipv4Header::write", &header, 60);
    writes_alone(
        &rt,
        rt.alloc(),
        "Ipv6Header::write",
        &Ipv6Header::default(),
        40,
    );
    writes_alone(
        &rt,
        rt.alloc(),
        "IpHeaders::write of IPv4",
        &longest_ipv4(&rt),
        1088,
    );
    writes_alone(
        &rt,
        rt.alloc(),
        "IpHeaders::write of IPv6",
        &longest_ipv6(&rt),
        9268,
    );
}

/// Tests that the longest IPv6 headers are appended to a vector of 3 bytes without spare capacity, and that these bytes
/// stay.
#[test]
fn after_existing_bytes(rt: HostRuntime) {
    let mut buf = full(&rt, rt.alloc(), b"abc");
    writes(
        &rt,
        &mut buf,
        "IpHeaders::write after bytes",
        &longest_ipv6(&rt),
        9268,
    );
    same(&rt, &buf.get(..3), &Some(b"abc".as_slice()));
}

fn tcp(rt: &impl Abort) -> TcpHeader {
    let mut header = TcpHeader::default();
    header.set_options_raw(&[1; 40]).expect(rt, "of 40 bytes");
    header
}

fn echo() -> IcmpEchoHeader {
    IcmpEchoHeader { id: 1, seq: 2 }
}

fn times() -> TimestampMessage {
    TimestampMessage {
        id: 1,
        seq: 2,
        originate_timestamp: 3,
        receive_timestamp: 4,
        transmit_timestamp: 5,
    }
}

#[test]
fn icmp(rt: HostRuntime) {
    let icmpv4 = Icmpv4Header::new(Icmpv4Type::TimestampReply(times()));
    writes_alone(&rt, rt.alloc(), "Icmpv4Header::write", &icmpv4, 20);
    let icmpv6 = Icmpv6Header::new(Icmpv6Type::EchoRequest(echo()));
    writes_alone(&rt, rt.alloc(), "Icmpv6Header::write", &icmpv6, 8);
}

#[test]
fn transports(rt: HostRuntime) {
    writes_alone(
        &rt,
        rt.alloc(),
        "UdpHeader::write",
        &UdpHeader::default(),
        8,
    );
    writes_alone(&rt, rt.alloc(), "TcpHeader::write", &tcp(&rt), 60);
    let transport = TransportHeader::Tcp(tcp(&rt));
    writes_alone(&rt, rt.alloc(), "TransportHeader::write", &transport, 60);
}
