//! IP packets of version 4 or 6 as slices of their bytes, parsed without copying.

ghost use Rattle.std.specs.Prelude.{◌≡◌};
ghost use Rattle.ep_base.specs.declared.err.ip.HeaderError.TheVariants as content;
ghost use Rattle.ep_base.specs.declared.err.ip.HeadersError.TheVariants as headers_error;
ghost use Rattle.ep_base.specs.declared.err.ip.SliceError.TheVariants as slice_error;
ghost use Rattle.ep_ip.specs.IpPackets.{of_ipv4_error, of_ipv6_error};

use crate::ipv4_slice::Ipv4Slice;
use crate::ipv6_slice::Ipv6Slice;
use ep_base::err::ip::{HeaderError, HeadersError, SliceError};
use ep_base::err::{Layer, LenError, ipv4, ipv6};
use ep_base::{IpPayloadSlice, LenSource};

/// IPv4 or IPv6 packet as slices of its bytes: IP header, extension headers and payload. Nothing is copied.
#[derive(Clone, Debug, PartialEq, Eq, Drop)]
pub enum IpSlice<'a> {
    /// IPv4 packet (RFC 791).
    Ipv4(Ipv4Slice<'a>),
    /// IPv6 packet (RFC 8200).
    Ipv6(Ipv6Slice<'a>),
}

impl<'a> IpSlice<'a> {
    ghost use Rattle.std.specs.Prelude.{◌≡◌, ◌++◌, IfOk, IfErr, IsOkAnd, List, ℕ};
    ghost use Rattle.ep_base.specs.Readings.{slices};
    ghost use Rattle.ep_base.specs.IpPayload.{ip_payload_of};
    ghost use Rattle.ep_ip.specs.IpPackets.{IpPart, IsIp, RefusesIp, ip_left};
    ghost use Rattle.ep_ip.specs.IpSlices.{FollowsIpHeader, ip_slice_bytes, ip_slice_packet, ip_slice_payload};

    /// Parses the IPv4 or IPv6 packet at the start of the slice with its extension headers; the upper 4 bits of byte 0
    /// are the version. Bytes after the end that the IPv4 total length or the IPv6 payload length sets are ignored. If
    /// the IPv6 payload length is 0, the packet extends to the end of the slice.
    pub fn from_slice(slice: &'a [u8]) -> Result<IpSlice<'a>, SliceError>
        ensures ok { IfOk result (λ shown. (left : List ℕ) × (slice.now ≡ ip_slice_bytes shown ++ left)
            × IsIp slices slice.now (ip_slice_packet shown left)) }
        ensures only { (part : IpPart) → IsIp slices slice.now part
            → IsOkAnd result (λ shown. ip_slice_packet shown (ip_left part) ≡ part) }
        ensures err { IfErr result (RefusesIp slices slice.now) }
        ensures number { IfOk result (λ shown. FollowsIpHeader shown) }
    {
        if slice.len() == 0 {
            return Err(SliceError::Len(LenError::at_start(
                1,
                0,
                LenSource::Slice,
                Layer::IpHeader,
            )));
        }
        let version_number = slice[0] >> 4;
        if version_number == 4 {
            return match Ipv4Slice::from_slice(slice) {
                Ok(packet) => Ok(IpSlice::Ipv4(packet)),
                Err(error) => Err(of_ipv4_error(error)),
            };
        }
        if version_number == 6 {
            return match Ipv6Slice::from_slice(slice) {
                Ok(packet) => Ok(IpSlice::Ipv6(packet)),
                Err(error) => Err(of_ipv6_error(error)),
            };
        }
        Err(unsupported(version_number))
    }

    /// Payload of the IPv4 or IPv6 packet after its extension headers: its bytes, its protocol number, whether it is a
    /// fragment, and whether a length field or the end of the slice limits it.
    #[inline]
    pub fn payload(&self) -> &IpPayloadSlice<'a>
        ensures { ip_payload_of result.now ≡ ip_slice_payload self.now }
    {
        match self {
            IpSlice::Ipv4(packet) => packet.payload(),
            IpSlice::Ipv6(packet) => packet.payload(),
        }
    }

    /// Returns true if the IP packet is a fragment, so that its payload is only a part of a longer payload.
    #[inline]
    pub fn is_payload_fragmented(&self) -> bool
        ensures { result ≡ (ip_slice_payload self.now).fragmented }
    {
        self.payload().fragmented
    }
}

/// Returns the error for an IP version other than 4 and 6.
fn unsupported(version_number: u8) -> SliceError
    ensures { result ≡ slice_error.IpHeaders (headers_error.Ip (content.UnsupportedIpVersion version_number)) }
{
    SliceError::IpHeaders(HeadersError::Ip(HeaderError::UnsupportedIpVersion { version_number }))
}

/// Converts an error of the parser for IPv4 packets to the error type of the parser that accepts both IP versions.
fn of_ipv4_error(error: ipv4::SliceError) -> SliceError
    ensures { result ≡ of_ipv4_error error }
{
    match error {
        ipv4::SliceError::Len(error) => SliceError::Len(error),
        ipv4::SliceError::Header(ipv4::HeaderError::UnexpectedVersion { version_number }) => {
            unsupported(version_number)
        }
        ipv4::SliceError::Header(ipv4::HeaderError::HeaderLengthSmallerThanHeader { ihl }) => {
            SliceError::IpHeaders(HeadersError::Ip(HeaderError::Ipv4HeaderLengthSmallerThanHeader {
                ihl,
            }))
        }
        ipv4::SliceError::Exts(error) => SliceError::IpHeaders(HeadersError::Ipv4Ext(error)),
    }
}

/// Converts an error of the parser for IPv6 packets to the error type of the parser that accepts both IP versions.
fn of_ipv6_error(error: ipv6::SliceError) -> SliceError
    ensures { result ≡ of_ipv6_error error }
{
    match error {
        ipv6::SliceError::Len(error) => SliceError::Len(error),
        ipv6::SliceError::Header(ipv6::HeaderError::UnexpectedVersion { version_number }) => {
            unsupported(version_number)
        }
        ipv6::SliceError::Exts(error) => SliceError::IpHeaders(HeadersError::Ipv6Ext(error)),
    }
}
