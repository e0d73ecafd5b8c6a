//! Converts a slicing error to the numbers (kind, layer, lengths) that C gets.

ghost use Rattle.std.specs.Prelude.{◌≡◌};
ghost use Rattle.etherparse_c.specs.RefusalNumbers.{content_part, layer_number, len_part, refusal_part};

use crate::describing::source_number;
use crate::packet::Refusal;
use etherparse::err::packet::SliceError;
use etherparse::err::{
    Layer, LenError, ip, ip_auth, ipv4, ipv6, ipv6_exts, linux_sll, macsec, tcp,
};

/// Converts a slicing error to the numbers that C gets. For a length error these are kind, layer, offset, lengths and
/// length source; for any other error, its kind and the value of the invalid header field, if it has one.
pub(crate) fn refusal_part(error: &SliceError) -> Refusal
    ensures { result ≡ refusal_part error.now }
{
    match error {
        SliceError::Len(error) => len_part(error),
        SliceError::LinuxSll(linux_sll::HeaderError::UnsupportedPacketTypeField { packet_type }) =>
            { content_part(2, u32::from(*packet_type)) }
        SliceError::LinuxSll(
            linux_sll::HeaderError::UnsupportedArpHardwareId { arp_hardware_type },
        ) => content_part(3, u32::from(*arp_hardware_type)),
        SliceError::Macsec(macsec::HeaderError::UnexpectedVersion) => content_part(4, 0),
        SliceError::Macsec(macsec::HeaderError::InvalidUnmodifiedShortLen) => content_part(5, 0),
        SliceError::Ip(ip::HeaderError::UnsupportedIpVersion { version_number }) => {
            content_part(6, u32::from(*version_number))
        }
        SliceError::Ip(ip::HeaderError::Ipv4HeaderLengthSmallerThanHeader { ihl }) => {
            content_part(7, u32::from(*ihl))
        }
        SliceError::Ipv4(ipv4::HeaderError::UnexpectedVersion { version_number }) => {
            content_part(8, u32::from(*version_number))
        }
        SliceError::Ipv4(ipv4::HeaderError::HeaderLengthSmallerThanHeader { ihl }) => {
            content_part(9, u32::from(*ihl))
        }
        SliceError::Ipv6(ipv6::HeaderError::UnexpectedVersion { version_number }) => {
            content_part(10, u32::from(*version_number))
        }
        SliceError::Ipv4Exts(ip_auth::HeaderError::ZeroPayloadLen) => content_part(11, 0),
        SliceError::Ipv6Exts(ipv6_exts::HeaderError::HopByHopNotAtStart) => content_part(12, 0),
        SliceError::Ipv6Exts(
            ipv6_exts::HeaderError::IpAuth(ip_auth::HeaderError::ZeroPayloadLen),
        ) => content_part(13, 0),
        SliceError::Tcp(tcp::HeaderError::DataOffsetTooSmall { data_offset }) => {
            content_part(14, u32::from(*data_offset))
        }
    }
}

/// Converts a length error (kind 1: a layer has too few or too many bytes) to the numbers that C gets.
fn len_part(error: &LenError) -> Refusal
    ensures { result ≡ len_part error.now }
{
    Refusal {
        kind: 1,
        layer: layer_number(&error.layer),
        len_source: source_number(error.len_source),
        number: 0,
        required_len: error.required_len,
        len: error.len,
        layer_start_offset: error.layer_start_offset,
    }
}

/// Returns the numbers that C gets for an invalid header field: the error kind, and the field's value, or 0 for kinds
/// without one.
fn content_part(kind: u32, number: u32) -> Refusal
    ensures { result ≡ content_part kind number }
{
    Refusal {
        kind,
        layer: 0,
        len_source: 0,
        number,
        required_len: 0,
        len: 0,
        layer_start_offset: 0,
    }
}

/// Returns C's number of the layer that a length error names (`enum etherparse_layer`).
fn layer_number(layer: &Layer) -> u32
    ensures { result ≡ layer_number layer.now }
{
    match layer {
        Layer::Ethernet2Header => 1,
        Layer::LinuxSllHeader => 2,
        Layer::VlanHeader => 3,
        Layer::MacsecHeader => 4,
        Layer::MacsecPacket => 5,
        Layer::Arp => 6,
        Layer::IpHeader => 7,
        Layer::Ipv4Header => 8,
        Layer::Ipv4Packet => 9,
        Layer::IpAuthHeader => 10,
        Layer::Ipv6Header => 11,
        Layer::Ipv6Packet => 12,
        Layer::Ipv6ExtHeader => 13,
        Layer::Ipv6FragHeader => 14,
        Layer::UdpHeader => 15,
        Layer::UdpPayload => 16,
        Layer::TcpHeader => 17,
        Layer::Icmpv4 => 18,
        Layer::Icmpv4Timestamp => 19,
        Layer::Icmpv4TimestampReply => 20,
        Layer::Icmpv6 => 21,
    }
}
