//! Decoding IP headers, with their extension headers, from a slice into owned headers.

ghost use Rattle.std.specs.Prelude.{◌≡◌, ◌+◌, ◌≤◌, IfOk, IfErr, List, ℕ, length};
ghost use Rattle.ep_base.specs.Readings.{headers};
ghost use Rattle.ep_base.specs.Tables.{parts_of, RefusesAs};
ghost use Rattle.ep_base.specs.declared.err.ip.HeaderError.TheVariants as content;
ghost use Rattle.ep_base.specs.declared.err.ip.HeadersError.TheVariants as headers_error;
ghost use Rattle.ep_base.specs.declared.err.ip.HeadersSliceError.TheVariants as headers_slice_error;
ghost use Rattle.ep_ip.specs.declared.ipv4_header.Ipv4Header.{Ipv4Header};
ghost use Rattle.ep_ip.specs.declared.ipv6_header.Ipv6Header.{Ipv6Header};
ghost use Rattle.ep_ip.specs.IpPackets.{IpPacket, IpPart, IsIp, IsIpv4, IsIpv6, RefusesIp, RefusesIpv4, RefusesIpv6};
ghost use Rattle.ep_ip.specs.IpPackets.{ipv4_part, ipv6_part, of_ipv4_error, of_ipv6_error};
ghost use Rattle.ep_ip.specs.Ipv6.{IsIpv6Packet, RefusesIpv6Packet, ipv6_payload_source};
ghost use Rattle.ep_base.specs.IpPayload.{ip_payload_of};
ghost use Rattle.ep_base.specs.Readings.{len_error};
ghost use Rattle.ep_base.specs.declared.err.layer.Layer.TheVariants as layer;
ghost use Rattle.ep_base.specs.declared.len_source.LenSource.TheVariants as source;
ghost use Rattle.ep_ext.specs.Chains.{is_ipv6_extension};
ghost use Rattle.ep_ext.specs.Ipv6Chains.{no_ipv6_extensions};
ghost use Rattle.ep_ip.specs.Ipv4Slices.{ipv4_slice_packet, ipv4_slice_payload};
ghost use Rattle.ep_packet.specs.IpHeaders.{AreOfPart, of_slice_error};

use crate::ip_headers::IpHeaders;
use ep_base::err::ip::{HeaderError, HeadersError, HeadersSliceError};
use ep_base::err::{Layer, LenError, ipv4, ipv6, ipv6_exts};
use ep_base::{IpNumber, IpPayloadSlice, LenSource, ip_number};
use ep_ext::{Ipv4Extensions, Ipv6Extensions};
use ep_ip::{Ipv4Slice, Ipv6Header, Ipv6HeaderSlice};

impl IpHeaders {
    ghost use Rattle.std.specs.Prelude.{◌≡◌, IfOk, IfErr, IsOkAnd};
    ghost use Rattle.ep_base.specs.Readings.{headers};
    ghost use Rattle.ep_base.specs.Tables.{RefusesAs};
    ghost use Rattle.ep_ip.specs.declared.ipv4_header.Ipv4Header.{Ipv4Header};
    ghost use Rattle.ep_ip.specs.declared.ipv6_header.Ipv6Header.{Ipv6Header};
    ghost use Rattle.ep_ip.specs.IpPackets.{IpPacket, IpPart, IsIp, IsIpv4, IsIpv6, RefusesIp, RefusesIpv4};
    ghost use Rattle.ep_ip.specs.IpPackets.{RefusesIpv6};
    ghost use Rattle.ep_ip.specs.IpPackets.{ipv4_part, ipv6_part};
    ghost use Rattle.ep_packet.specs.IpHeaders.{AreOfPart, HasBytes, of_slice_error};

    /// Decodes the IP header (version 4 or 6) at the start of the slice and its extension headers. Returns these
    /// headers and the payload after them, limited by the length field of the IP header, or by the slice if an IPv6
    /// payload length is 0. A second IPv6 extension header of the same kind is left in the payload; a hop-by-hop
    /// options header that is not the first is an error.
    #[inline(always)]
    pub fn from_slice(slice: &[u8]) -> Result<(IpHeaders, IpPayloadSlice<'_>), HeadersSliceError>
        ensures ok { IfOk result (λ read. (part : IpPart) × IsIp headers slice.now part × AreOfPart part read) }
        ensures only { (part : IpPart) → IsIp headers slice.now part → IsOkAnd result (AreOfPart part) }
        ensures err { IfErr result (RefusesAs of_slice_error (RefusesIp headers slice.now)) }
    {
        read_ip(slice)
    }

    /// Decodes IP headers like [`IpHeaders::from_slice`]. Returns them with the protocol number and the bytes of their
    /// payload.
    #[inline(always)]
    pub fn read_from_slice(slice: &[u8]) -> Result<(IpHeaders, IpNumber, &[u8]), HeadersSliceError>
        ensures ok { IfOk result (λ read. (part : IpPart) × IsIp headers slice.now part
            × HasBytes part (read.0, read.1, read.2.now)) }
        ensures only { (part : IpPart) → IsIp headers slice.now part → IsOkAnd result
            (λ read. HasBytes part (read.0, read.1, read.2.now)) }
        ensures err { IfErr result (RefusesAs of_slice_error (RefusesIp headers slice.now)) }
    {
        match read_ip(slice) {
            Ok((headers, payload)) => Ok((headers, payload.ip_number, payload.payload)),
            Err(error) => Err(error),
        }
    }

    /// Decodes the IPv4 header at the start of the slice, and its authentication header, if any. Returns them with the
    /// payload after them, limited by the total length.
    #[inline(always)]
    pub fn from_ipv4_slice(
        slice: &[u8],
    ) -> Result<(IpHeaders, IpPayloadSlice<'_>), ipv4::SliceError>
        ensures ok { IfOk result (λ read. (packet : IpPacket Ipv4Header) × IsIpv4 headers slice.now packet
            × AreOfPart (ipv4_part packet) read) }
        ensures only { (packet : IpPacket Ipv4Header) → IsIpv4 headers slice.now packet
            → IsOkAnd result (AreOfPart (ipv4_part packet)) }
        ensures err { IfErr result (RefusesIpv4 headers slice.now) }
    {
        read_ipv4(slice)
    }

    /// Decodes the IPv6 header at the start of the slice and its extension headers. Returns these headers and the
    /// payload after them, limited by the payload length field, or by the slice if that field is 0. A second extension
    /// header of the same kind is left in the payload; a hop-by-hop options header that is not the first is an error.
    #[inline(always)]
    pub fn from_ipv6_slice(
        slice: &[u8],
    ) -> Result<(IpHeaders, IpPayloadSlice<'_>), ipv6::SliceError>
        ensures ok { IfOk result (λ read. (packet : IpPacket Ipv6Header) × IsIpv6 headers slice.now packet
            × AreOfPart (ipv6_part packet) read) }
        ensures only { (packet : IpPacket Ipv6Header) → IsIpv6 headers slice.now packet
            → IsOkAnd result (AreOfPart (ipv6_part packet)) }
        ensures err { IfErr result (RefusesIpv6 headers slice.now) }
    {
        read_ipv6(slice)
    }
}

/// Decodes an IP header, version 4 or 6, and its extension headers, and returns them with their payload. Each result is
/// built in its return expression: headers are large, and a call that is not inlined copies them.
#[inline(always)]
fn read_ip(slice: &[u8]) -> Result<(IpHeaders, IpPayloadSlice<'_>), HeadersSliceError>
    ensures ok { IfOk result (λ read. (part : IpPart) × IsIp headers slice.now part × AreOfPart part read) }
    ensures err { IfErr result (RefusesAs of_slice_error (RefusesIp headers slice.now)) }
{
    if slice.len() == 0 {
        return Err(empty_slice_error());
    }
    let version_number = slice[0] >> 4;
    if version_number == 4 {
        return match Ipv4Slice::from_slice(slice) {
            Ok(packet) => Ok(value_of_ipv4(&packet)),
            Err(error) => Err(of_ipv4_error(error)),
        };
    }
    if version_number == 6 {
        return match read_ipv6(slice) {
            Ok(read) => Ok(read),
            Err(error) => Err(of_ipv6_error(error)),
        };
    }
    Err(unsupported(version_number))
}

/// Decodes the IPv4 header at the start of the slice, with its authentication header, and returns them with their
/// payload.
#[inline(always)]
fn read_ipv4(slice: &[u8]) -> Result<(IpHeaders, IpPayloadSlice<'_>), ipv4::SliceError>
    ensures ok { IfOk result (λ read. (packet : IpPacket Ipv4Header) × IsIpv4 headers slice.now packet
        × AreOfPart (ipv4_part packet) read) }
    ensures err { IfErr result (RefusesIpv4 headers slice.now) }
{
    match Ipv4Slice::from_slice(slice) {
        Ok(packet) => Ok(value_of_ipv4(&packet)),
        Err(error) => Err(error),
    }
}

/// Copies the headers of a sliced IPv4 packet into owned ones, and returns them with the payload of the packet.
#[inline(always)]
fn value_of_ipv4<'a>(packet: &Ipv4Slice<'a>) -> (IpHeaders, IpPayloadSlice<'a>)
    ensures { (left : List ℕ) → AreOfPart (ipv4_part (ipv4_slice_packet packet.now left)) result }
{
    let header = packet.header().to_header();
    match packet.extensions().auth {
        Some(auth) => {
            let auth = Some(auth.to_header());
            (
                IpHeaders::Ipv4(header, Ipv4Extensions { auth }),
                payload_of_ipv4(packet),
            )
        }
        None => (
            IpHeaders::Ipv4(header, Ipv4Extensions { auth: None }),
            payload_of_ipv4(packet),
        ),
    }
}

/// Returns the payload of a sliced IPv4 packet.
#[inline]
pub(crate) fn payload_of_ipv4<'a>(packet: &Ipv4Slice<'a>) -> IpPayloadSlice<'a>
    ensures { ip_payload_of result ≡ ipv4_slice_payload packet.now }
{
    let shown = packet.payload();
    IpPayloadSlice {
        ip_number: shown.ip_number,
        fragmented: shown.fragmented,
        len_source: shown.len_source,
        payload: shown.payload,
    }
}

/// Decodes the IPv6 header at the start of the slice and its extension headers, and returns them with their payload. If
/// the packet has no extension headers, the space for extension headers in the result is not touched.
#[inline(always)]
fn read_ipv6(slice: &[u8]) -> Result<(IpHeaders, IpPayloadSlice<'_>), ipv6::SliceError>
    ensures ok { IfOk result (λ read. (packet : IpPacket Ipv6Header) × IsIpv6 headers slice.now packet
        × AreOfPart (ipv6_part packet) read) }
    ensures err { IfErr result (RefusesIpv6 headers slice.now) }
{
    let (header, content, len_source) = match parse_limited(slice) {
        Ok(cut) => cut,
        Err(error) => return Err(error),
    };
    if !is_extension(header.next_header) {
        let payload = IpPayloadSlice {
            ip_number: header.next_header,
            fragmented: false,
            len_source,
            payload: content,
        };
        return Ok((IpHeaders::Ipv6(header, no_extensions()), payload));
    }
    match Ipv6Extensions::from_slice(header.next_header, content) {
        Ok((extensions, ip_number, payload)) => {
            let payload = IpPayloadSlice {
                ip_number,
                fragmented: extensions.is_fragmenting_payload(),
                len_source,
                payload,
            };
            Ok((IpHeaders::Ipv6(header, extensions), payload))
        }
        Err(ipv6_exts::HeaderSliceError::Len(error)) => {
            Err(ipv6::SliceError::Len(error.after_header(Ipv6Header::LEN, len_source)))
        }
        Err(ipv6_exts::HeaderSliceError::Content(error)) => Err(ipv6::SliceError::Exts(error)),
    }
}

/// Returns IPv6 extension headers that are all absent.
#[inline(always)]
pub(crate) fn no_extensions() -> Ipv6Extensions
    ensures { result ≡ no_ipv6_extensions }
{
    Ipv6Extensions {
        hop_by_hop_options: None,
        destination_options: None,
        routing: None,
        fragment: None,
        auth: None,
    }
}

/// Returns true if the protocol number is that of an IPv6 extension header: 0 (hop-by-hop options), 43 (routing), 44
/// (fragment), 51 (authentication) or 60 (destination options).
#[inline]
pub(crate) fn is_extension(number: IpNumber) -> bool
    ensures { result ≡ is_ipv6_extension number.0 }
{
    number == ip_number::IPV6_HEADER_HOP_BY_HOP
        || number == ip_number::IPV6_ROUTE_HEADER
        || number == ip_number::IPV6_FRAGMENTATION_HEADER
        || number == ip_number::AUTHENTICATION_HEADER
        || number == ip_number::IPV6_DESTINATION_OPTIONS
}

/// Decodes the IPv6 header at the start of the slice. Returns the header, the bytes after it (limited by the payload
/// length field, or by the slice if that field is 0), and the source of that limit.
pub(crate) fn parse_limited(
    slice: &[u8],
) -> Result<(Ipv6Header, &[u8], LenSource), ipv6::SliceError>
    ensures ok { IfOk result (λ read. (left : List ℕ)
        × IsIpv6Packet slice.now (parts_of read.0 read.1.now left)) }
    ensures source { IfOk result (λ read. read.2 ≡ ipv6_payload_source read.0 read.1.now) }
    ensures within { IfOk result (λ read. 40 + length read.1.now ≤ length slice.now) }
    ensures err { IfErr result (RefusesIpv6Packet slice.now) }
{
    let (header, content, len_source) = match Ipv6HeaderSlice::from_packet_slice(slice) {
        Ok(read) => read,
        Err(error) => return Err(error),
    };
    Ok((header.to_header(), content, len_source))
}

/// Returns the error of an empty slice: its first byte is missing, which contains the IP version.
pub(crate) fn empty_slice_error() -> HeadersSliceError
    ensures { result ≡ headers_slice_error.Len (len_error 1 0 source.Slice layer.IpHeader) }
{
    HeadersSliceError::Len(LenError::at_start(1, 0, LenSource::Slice, Layer::IpHeader))
}

/// Returns the error of an IP header whose version is neither 4 nor 6.
pub(crate) fn unsupported(version_number: u8) -> HeadersSliceError
    ensures { result ≡ headers_slice_error.Content (headers_error.Ip (content.UnsupportedIpVersion version_number)) }
{
    HeadersSliceError::Content(HeadersError::Ip(HeaderError::UnsupportedIpVersion {
        version_number,
    }))
}

/// Converts an error of slicing an IPv4 packet into the error type that IPv4 and IPv6 headers share.
pub(crate) fn of_ipv4_error(error: ipv4::SliceError) -> HeadersSliceError
    ensures { result ≡ of_slice_error (of_ipv4_error error) }
{
    match error {
        ipv4::SliceError::Len(error) => HeadersSliceError::Len(error),
        ipv4::SliceError::Header(ipv4::HeaderError::UnexpectedVersion { version_number }) => {
            unsupported(version_number)
        }
        ipv4::SliceError::Header(ipv4::HeaderError::HeaderLengthSmallerThanHeader { ihl }) => {
            HeadersSliceError::Content(HeadersError::Ip(
                HeaderError::Ipv4HeaderLengthSmallerThanHeader { ihl },
            ))
        }
        ipv4::SliceError::Exts(error) => HeadersSliceError::Content(HeadersError::Ipv4Ext(error)),
    }
}

/// Converts an error of slicing an IPv6 packet into the error type that IPv4 and IPv6 headers share.
pub(crate) fn of_ipv6_error(error: ipv6::SliceError) -> HeadersSliceError
    ensures { result ≡ of_slice_error (of_ipv6_error error) }
{
    match error {
        ipv6::SliceError::Len(error) => HeadersSliceError::Len(error),
        ipv6::SliceError::Header(ipv6::HeaderError::UnexpectedVersion { version_number }) => {
            unsupported(version_number)
        }
        ipv6::SliceError::Exts(error) => HeadersSliceError::Content(HeadersError::Ipv6Ext(error)),
    }
}
