//! Tests that the text of each error of slicing a packet equals that of its `Display`.

ghost use Rattle.std.specs.Prelude.{◌≤◌, ◌-◌};

use crate::push_reason;
use etherparse::LenSource;
use etherparse::err::packet::SliceError;
use etherparse::err::{
    Layer, LenError, ip, ip_auth, ipv4, ipv6, ipv6_exts, linux_sll, macsec, tcp,
};
use std::alloc::Global;
use std::process::Abort;

/// Asserts that `push_reason` appends the same text as `Display` for this error, after the bytes already in the vector.
fn is_displayed(rt: &impl Abort, alloc: Global, error: SliceError) {
    let mut text = Vec::new(alloc);
    text.push(b'>').expect(rt, "no memory");
    push_reason(&mut text, &error).expect(rt, "no memory");
    let shown = format!(in alloc; ">{error}").expect(rt, "no memory");
    assert_eq!(rt; text.as_slice(), shown.as_bytes());
}

#[test]
fn contents(rt: HostRuntime) {
    for error in [
        SliceError::Macsec(macsec::HeaderError::UnexpectedVersion),
        SliceError::Macsec(macsec::HeaderError::InvalidUnmodifiedShortLen),
        SliceError::Ipv4Exts(ip_auth::HeaderError::ZeroPayloadLen),
        SliceError::Ipv6Exts(ipv6_exts::HeaderError::HopByHopNotAtStart),
        SliceError::Ipv6Exts(ipv6_exts::HeaderError::IpAuth(ip_auth::HeaderError::ZeroPayloadLen)),
    ] {
        is_displayed(&rt, rt.alloc(), error);
    }
}

#[test]
fn numbers(rt: HostRuntime) {
    let alloc = rt.alloc();
    for number in [0, 9, 10, 255] {
        is_displayed(&rt, alloc, of_ip(number));
        is_displayed(&rt, alloc, of_ipv4_in_ip(number));
        is_displayed(&rt, alloc, of_ipv4(number));
        is_displayed(&rt, alloc, of_ihl(number));
        is_displayed(&rt, alloc, of_ipv6(number));
        is_displayed(&rt, alloc, of_tcp(number));
    }
    for number in [0, 8, 65_535] {
        is_displayed(&rt, alloc, of_packet_type(number));
        is_displayed(&rt, alloc, of_hardware(number));
    }
}

fn of_ip(version_number: u8) -> SliceError {
    SliceError::Ip(ip::HeaderError::UnsupportedIpVersion { version_number })
}

fn of_ipv4_in_ip(ihl: u8) -> SliceError {
    SliceError::Ip(ip::HeaderError::Ipv4HeaderLengthSmallerThanHeader { ihl })
}

fn of_ipv4(version_number: u8) -> SliceError {
    SliceError::Ipv4(ipv4::HeaderError::UnexpectedVersion { version_number })
}

fn of_ihl(ihl: u8) -> SliceError {
    SliceError::Ipv4(ipv4::HeaderError::HeaderLengthSmallerThanHeader { ihl })
}

fn of_ipv6(version_number: u8) -> SliceError {
    SliceError::Ipv6(ipv6::HeaderError::UnexpectedVersion { version_number })
}

fn of_tcp(data_offset: u8) -> SliceError {
    SliceError::Tcp(tcp::HeaderError::DataOffsetTooSmall { data_offset })
}

fn of_packet_type(packet_type: u16) -> SliceError {
    SliceError::LinuxSll(linux_sll::HeaderError::UnsupportedPacketTypeField { packet_type })
}

fn of_hardware(arp_hardware_type: u16) -> SliceError {
    SliceError::LinuxSll(linux_sll::HeaderError::UnsupportedArpHardwareId { arp_hardware_type })
}

#[test]
fn lengths(rt: HostRuntime) {
    let alloc = rt.alloc();
    let layers = [
        Layer::Ethernet2Header,
        Layer::LinuxSllHeader,
        Layer::VlanHeader,
        Layer::MacsecHeader,
        Layer::MacsecPacket,
        Layer::Arp,
        Layer::IpHeader,
        Layer::Ipv4Header,
        Layer::Ipv4Packet,
        Layer::IpAuthHeader,
        Layer::Ipv6Header,
        Layer::Ipv6Packet,
        Layer::Ipv6ExtHeader,
        Layer::Ipv6FragHeader,
        Layer::UdpHeader,
        Layer::UdpPayload,
        Layer::TcpHeader,
        Layer::Icmpv4,
        Layer::Icmpv4Timestamp,
        Layer::Icmpv4TimestampReply,
        Layer::Icmpv6,
    ];
    for layer in layers {
        is_displayed(&rt, alloc, missing(layer, LenSource::Slice, 0));
    }
    let ends = [
        LenSource::Slice,
        LenSource::MacsecShortLength,
        LenSource::Ipv4HeaderTotalLen,
        LenSource::Ipv6HeaderPayloadLen,
        LenSource::UdpHeaderLen,
        LenSource::ArpAddrLengths,
    ];
    for end in ends {
        is_displayed(&rt, alloc, missing(Layer::Arp, end, usize::MAX - 2));
    }
}

/// Returns a length error of this layer: `number` bytes are present, `number + 2` needed, at offset `number + 1`.
fn missing(layer: Layer, len_source: LenSource, number: usize) -> SliceError
    requires { number ≤ usize.MAX - 2 }
{
    SliceError::Len(LenError {
        required_len: number + 2,
        len: number,
        len_source,
        layer,
        layer_start_offset: number + 1,
    })
}
