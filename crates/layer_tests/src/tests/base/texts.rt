//! Tests of the text that `Display` prints for each error of `ep_base` except `ip::LaxHeaderSliceError`.

use crate::tests::checks::shows;
use ep_base::err::{
    Layer, LenError, ValueTooBigError, ValueType, ip, ip_auth, ip_exts, ipv4, ipv4_exts, ipv6,
    ipv6_exts, linux_sll, macsec, tcp,
};
use ep_base::{IpNumber, LenSource};

fn above<T>(actual: T, max_allowed: T, value_type: ValueType) -> ValueTooBigError<T> {
    ValueTooBigError {
        actual,
        max_allowed,
        value_type,
    }
}

fn len_error() -> LenError {
    LenError {
        required_len: 40,
        len: 39,
        len_source: LenSource::Slice,
        layer: Layer::Ipv6Header,
        layer_start_offset: 14,
    }
}

const LEN_TEXT: &str = "Ipv6Header: 40 bytes needed, 39 there (limit Slice, offset 14)";

#[test]
fn text_of_len_error(rt: HostRuntime) {
    let alloc = rt.alloc();
    shows(&rt, alloc, &len_error(), LEN_TEXT);
}

#[test]
fn text_of_value_too_big_error(rt: HostRuntime) {
    let alloc = rt.alloc();
    shows(
        &rt,
        alloc,
        &above(4096u16, 4095, ValueType::VlanId),
        "VlanId: 4096 is above 4095",
    );
    shows(
        &rt,
        alloc,
        &above(65536usize, 65527, ValueType::UdpPayloadLengthIpv4),
        "UdpPayloadLengthIpv4: 65536 is above 65527",
    );
}

#[test]
fn texts_of_linux_sll(rt: HostRuntime) {
    let alloc = rt.alloc();
    shows(
        &rt,
        alloc,
        &linux_sll::HeaderError::UnsupportedPacketTypeField { packet_type: 8 },
        "UnsupportedPacketTypeField 8",
    );
    shows(
        &rt,
        alloc,
        &linux_sll::HeaderError::UnsupportedArpHardwareId {
            arp_hardware_type: 5,
        },
        "UnsupportedArpHardwareId 5",
    );
    shows(
        &rt,
        alloc,
        &linux_sll::HeaderSliceError::Len(len_error()),
        LEN_TEXT,
    );
    shows(
        &rt,
        alloc,
        &linux_sll::HeaderSliceError::Content(linux_sll::HeaderError::UnsupportedPacketTypeField {
            packet_type: 8,
        }),
        "UnsupportedPacketTypeField 8",
    );
}

#[test]
fn texts_of_macsec(rt: HostRuntime) {
    let alloc = rt.alloc();
    shows(
        &rt,
        alloc,
        &macsec::HeaderError::UnexpectedVersion,
        "UnexpectedVersion",
    );
    shows(
        &rt,
        alloc,
        &macsec::HeaderError::InvalidUnmodifiedShortLen,
        "InvalidUnmodifiedShortLen",
    );
    shows(
        &rt,
        alloc,
        &macsec::HeaderSliceError::Len(len_error()),
        LEN_TEXT,
    );
    shows(
        &rt,
        alloc,
        &macsec::HeaderSliceError::Content(macsec::HeaderError::UnexpectedVersion),
        "UnexpectedVersion",
    );
}

#[test]
fn texts_of_ip_auth(rt: HostRuntime) {
    let alloc = rt.alloc();
    shows(
        &rt,
        alloc,
        &ip_auth::HeaderError::ZeroPayloadLen,
        "ZeroPayloadLen",
    );
    shows(
        &rt,
        alloc,
        &ip_auth::HeaderSliceError::Len(len_error()),
        LEN_TEXT,
    );
    shows(
        &rt,
        alloc,
        &ip_auth::HeaderSliceError::Content(ip_auth::HeaderError::ZeroPayloadLen),
        "ZeroPayloadLen",
    );
}

#[test]
fn texts_of_ipv4(rt: HostRuntime) {
    let alloc = rt.alloc();
    shows(
        &rt,
        alloc,
        &ipv4::HeaderError::UnexpectedVersion { version_number: 5 },
        "UnexpectedVersion 5",
    );
    shows(
        &rt,
        alloc,
        &ipv4::HeaderError::HeaderLengthSmallerThanHeader { ihl: 4 },
        "HeaderLengthSmallerThanHeader 4",
    );
    shows(
        &rt,
        alloc,
        &ipv4::HeaderSliceError::Len(len_error()),
        LEN_TEXT,
    );
    shows(
        &rt,
        alloc,
        &ipv4::HeaderSliceError::Content(ipv4::HeaderError::UnexpectedVersion {
            version_number: 5,
        }),
        "UnexpectedVersion 5",
    );
    shows(&rt, alloc, &ipv4::SliceError::Len(len_error()), LEN_TEXT);
    shows(
        &rt,
        alloc,
        &ipv4::SliceError::Header(ipv4::HeaderError::UnexpectedVersion { version_number: 5 }),
        "UnexpectedVersion 5",
    );
    shows(
        &rt,
        alloc,
        &ipv4::SliceError::Exts(ip_auth::HeaderError::ZeroPayloadLen),
        "ZeroPayloadLen",
    );
}

#[test]
fn texts_of_ipv6(rt: HostRuntime) {
    let alloc = rt.alloc();
    shows(
        &rt,
        alloc,
        &ipv6::HeaderError::UnexpectedVersion { version_number: 5 },
        "UnexpectedVersion 5",
    );
    shows(
        &rt,
        alloc,
        &ipv6::HeaderSliceError::Len(len_error()),
        LEN_TEXT,
    );
    shows(
        &rt,
        alloc,
        &ipv6::HeaderSliceError::Content(ipv6::HeaderError::UnexpectedVersion {
            version_number: 5,
        }),
        "UnexpectedVersion 5",
    );
    shows(&rt, alloc, &ipv6::SliceError::Len(len_error()), LEN_TEXT);
    shows(
        &rt,
        alloc,
        &ipv6::SliceError::Header(ipv6::HeaderError::UnexpectedVersion { version_number: 5 }),
        "UnexpectedVersion 5",
    );
    shows(
        &rt,
        alloc,
        &ipv6::SliceError::Exts(ipv6_exts::HeaderError::HopByHopNotAtStart),
        "HopByHopNotAtStart",
    );
}

#[test]
fn texts_of_ipv6_exts(rt: HostRuntime) {
    let alloc = rt.alloc();
    shows(
        &rt,
        alloc,
        &ipv6_exts::HeaderError::HopByHopNotAtStart,
        "HopByHopNotAtStart",
    );
    shows(
        &rt,
        alloc,
        &ipv6_exts::HeaderError::IpAuth(ip_auth::HeaderError::ZeroPayloadLen),
        "ZeroPayloadLen",
    );
    shows(
        &rt,
        alloc,
        &ipv6_exts::HeaderSliceError::Len(len_error()),
        LEN_TEXT,
    );
    shows(
        &rt,
        alloc,
        &ipv6_exts::HeaderSliceError::Content(ipv6_exts::HeaderError::HopByHopNotAtStart),
        "HopByHopNotAtStart",
    );
}

#[test]
fn texts_of_ip_exts(rt: HostRuntime) {
    let alloc = rt.alloc();
    shows(
        &rt,
        alloc,
        &ip_exts::HeaderError::Ipv4Ext(ip_auth::HeaderError::ZeroPayloadLen),
        "ZeroPayloadLen",
    );
    shows(
        &rt,
        alloc,
        &ip_exts::HeaderError::Ipv6Ext(ipv6_exts::HeaderError::HopByHopNotAtStart),
        "HopByHopNotAtStart",
    );
    shows(
        &rt,
        alloc,
        &ip_exts::HeadersSliceError::Len(len_error()),
        LEN_TEXT,
    );
    shows(
        &rt,
        alloc,
        &ip_exts::HeadersSliceError::Content(ip_exts::HeaderError::Ipv4Ext(
            ip_auth::HeaderError::ZeroPayloadLen,
        )),
        "ZeroPayloadLen",
    );
}

#[test]
fn texts_of_walk_errors(rt: HostRuntime) {
    let alloc = rt.alloc();
    shows(
        &rt,
        alloc,
        &ipv4_exts::ExtsWalkError::ExtNotReferenced {
            missing_ext: IpNumber::AUTHENTICATION_HEADER,
        },
        "ExtNotReferenced 51",
    );
    shows(
        &rt,
        alloc,
        &ipv6_exts::ExtsWalkError::HopByHopNotAtStart,
        "HopByHopNotAtStart",
    );
    shows(
        &rt,
        alloc,
        &ipv6_exts::ExtsWalkError::ExtNotReferenced {
            missing_ext: IpNumber::IPV6_FRAGMENTATION_HEADER,
        },
        "ExtNotReferenced 44",
    );
    shows(
        &rt,
        alloc,
        &ip_exts::ExtsWalkError::Ipv4Exts(ipv4_exts::ExtsWalkError::ExtNotReferenced {
            missing_ext: IpNumber::AUTHENTICATION_HEADER,
        }),
        "ExtNotReferenced 51",
    );
    shows(
        &rt,
        alloc,
        &ip_exts::ExtsWalkError::Ipv6Exts(ipv6_exts::ExtsWalkError::ExtNotReferenced {
            missing_ext: IpNumber::IPV6_FRAGMENTATION_HEADER,
        }),
        "ExtNotReferenced 44",
    );
}

#[test]
fn texts_of_refused_writes_of_extensions(rt: HostRuntime) {
    let alloc = rt.alloc();
    shows(
        &rt,
        alloc,
        &ipv4_exts::HeaderWriteError::Content(ipv4_exts::ExtsWalkError::ExtNotReferenced {
            missing_ext: IpNumber::AUTHENTICATION_HEADER,
        }),
        "ExtNotReferenced 51",
    );
    shows(
        &rt,
        alloc,
        &ipv4_exts::HeaderWriteError::OutOfMemory,
        "out of memory",
    );
    shows(
        &rt,
        alloc,
        &ipv6_exts::HeaderWriteError::Content(ipv6_exts::ExtsWalkError::HopByHopNotAtStart),
        "HopByHopNotAtStart",
    );
    shows(
        &rt,
        alloc,
        &ipv6_exts::HeaderWriteError::OutOfMemory,
        "out of memory",
    );
}

#[test]
fn texts_of_ip(rt: HostRuntime) {
    let alloc = rt.alloc();
    shows(
        &rt,
        alloc,
        &ip::HeaderError::UnsupportedIpVersion { version_number: 5 },
        "UnsupportedIpVersion 5",
    );
    shows(
        &rt,
        alloc,
        &ip::HeaderError::Ipv4HeaderLengthSmallerThanHeader { ihl: 4 },
        "Ipv4HeaderLengthSmallerThanHeader 4",
    );
    shows(
        &rt,
        alloc,
        &ip::HeadersError::Ip(ip::HeaderError::UnsupportedIpVersion { version_number: 5 }),
        "UnsupportedIpVersion 5",
    );
    shows(
        &rt,
        alloc,
        &ip::HeadersError::Ipv4Ext(ip_auth::HeaderError::ZeroPayloadLen),
        "ZeroPayloadLen",
    );
    shows(
        &rt,
        alloc,
        &ip::HeadersError::Ipv6Ext(ipv6_exts::HeaderError::HopByHopNotAtStart),
        "HopByHopNotAtStart",
    );
    shows(
        &rt,
        alloc,
        &ip::HeadersSliceError::Len(len_error()),
        LEN_TEXT,
    );
    shows(
        &rt,
        alloc,
        &ip::HeadersSliceError::Content(ip::HeadersError::Ip(ip::HeaderError::UnsupportedIpVersion {
            version_number: 5,
        })),
        "UnsupportedIpVersion 5",
    );
    shows(&rt, alloc, &ip::SliceError::Len(len_error()), LEN_TEXT);
    shows(
        &rt,
        alloc,
        &ip::SliceError::IpHeaders(ip::HeadersError::Ip(ip::HeaderError::UnsupportedIpVersion {
            version_number: 5,
        })),
        "UnsupportedIpVersion 5",
    );
}

#[test]
fn texts_of_tcp(rt: HostRuntime) {
    let alloc = rt.alloc();
    shows(
        &rt,
        alloc,
        &tcp::HeaderError::DataOffsetTooSmall { data_offset: 4 },
        "DataOffsetTooSmall 4",
    );
    shows(
        &rt,
        alloc,
        &tcp::HeaderSliceError::Len(len_error()),
        LEN_TEXT,
    );
    shows(
        &rt,
        alloc,
        &tcp::HeaderSliceError::Content(tcp::HeaderError::DataOffsetTooSmall { data_offset: 4 }),
        "DataOffsetTooSmall 4",
    );
}
