//! Tests of the texts that errors of packets are printed as.

use crate::err::ip::HeadersWriteError;
use crate::err::net::NetSetNextHeaderError;
use crate::err::packet::SliceError;
use crate::err::{
    Layer, LenError, ip, ip_auth, ipv4, ipv4_exts, ipv6, ipv6_exts, linux_sll, macsec, tcp,
};
use crate::tests::checks::shows;
use crate::{IpNumber, LenSource};

#[test]
fn errors_of_slicing(rt: HostRuntime) {
    let short = LenError::at_start(14, 0, LenSource::Slice, Layer::Ethernet2Header);
    let short_text = "Ethernet2Header: 14 bytes needed, 0 there (limit Slice, offset 0)";
    let sll = linux_sll::HeaderError::UnsupportedPacketTypeField { packet_type: 8 };
    let macsec = macsec::HeaderError::UnexpectedVersion;
    let ip = ip::HeaderError::UnsupportedIpVersion { version_number: 5 };
    let ipv4 = ipv4::HeaderError::UnexpectedVersion { version_number: 5 };
    let ipv6 = ipv6::HeaderError::UnexpectedVersion { version_number: 4 };
    let zero = ip_auth::HeaderError::ZeroPayloadLen;
    let hop_by_hop = ipv6_exts::HeaderError::HopByHopNotAtStart;
    let tcp = tcp::HeaderError::DataOffsetTooSmall { data_offset: 4 };
    for (error, text) in [
        (SliceError::Len(short), short_text),
        (SliceError::LinuxSll(sll), "UnsupportedPacketTypeField 8"),
        (SliceError::Macsec(macsec), "UnexpectedVersion"),
        (SliceError::Ip(ip), "UnsupportedIpVersion 5"),
        (SliceError::Ipv4(ipv4), "UnexpectedVersion 5"),
        (SliceError::Ipv6(ipv6), "UnexpectedVersion 4"),
        (SliceError::Ipv4Exts(zero), "ZeroPayloadLen"),
        (SliceError::Ipv6Exts(hop_by_hop), "HopByHopNotAtStart"),
        (SliceError::Tcp(tcp), "DataOffsetTooSmall 4"),
    ] {
        shows(&rt, rt.alloc(), &error, text);
    }
}

#[test]
fn errors_of_writing(rt: HostRuntime) {
    let alloc = rt.alloc();
    shows(&rt, alloc, &HeadersWriteError::OutOfMemory, "out of memory");
    let missing_ext = IpNumber(51);
    let missing = ipv4_exts::ExtsWalkError::ExtNotReferenced { missing_ext };
    let error = HeadersWriteError::Ipv4Exts(missing);
    shows(&rt, alloc, &error, "ExtNotReferenced 51");
    let hop_by_hop = ipv6_exts::ExtsWalkError::HopByHopNotAtStart;
    let error = HeadersWriteError::Ipv6Exts(hop_by_hop);
    shows(&rt, alloc, &error, "HopByHopNotAtStart");
}

#[test]
fn number_of_arp(rt: HostRuntime) {
    let text = "It is not possible to set the payload 'IP number' for an ARP header.";
    shows(&rt, rt.alloc(), &NetSetNextHeaderError::ArpHeader, text);
}
