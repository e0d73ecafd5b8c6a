//! Decoding IP headers laxly from a slice into owned headers: bytes of the payload may be missing, and reading ends at
//! the first invalid extension header.

ghost use Rattle.std.specs.Prelude.{◌≡◌, IfOk, IfErr, Option, false};
ghost use Rattle.std.specs.Option.{option_map};
ghost use Rattle.ep_base.specs.Readings.{headers};
ghost use Rattle.ep_base.specs.declared.err.ipv6_exts.HeaderSliceError.{HeaderSliceError};
ghost use Rattle.ep_ext.specs.Chains.{ipv4, ipv6};
ghost use Rattle.ep_ext.specs.ChainPrefixes.{chain_stop};
ghost use Rattle.ep_ext.specs.ExtensionParts.{auth_refusal};
ghost use Rattle.ep_ip.specs.declared.ipv4_header.Ipv4Header.{Ipv4Header};
ghost use Rattle.ep_ip.specs.declared.ipv6_header.Ipv6Header.{Ipv6Header};
ghost use Rattle.ep_ip.specs.Ipv4.{RefusesIpv4Header};
ghost use Rattle.ep_ip.specs.Ipv6.{RefusesIpv6Header};
ghost use Rattle.ep_ip.specs.LaxIp.{LaxIp, IsLaxIpv4In, IsLaxIpv6In, RefusesIpHeader};
ghost use Rattle.ep_packet.specs.LaxIpHeaders.{IsLaxIp, LaxIpPart, ShowsLaxIp, ShowsLaxIpv4, ShowsLaxIpv6, extension_stop, stop_with_layer};

use crate::ip_headers::IpHeaders;
use crate::lax_ip_content::{slice_ipv4_lax, slice_ipv6_lax};
use ep_base::err::{Layer, LenError, ip, ip_auth, ip_exts, ipv4, ipv6, ipv6_exts};
use ep_base::{LaxIpPayloadSlice, LenSource};
use ep_ext::{Ipv4Extensions, Ipv6Extensions};
use ep_ip::Ipv6Header;
use ep_ip::lax::{
    auth_error_in_packet, exts_error_in_packet, of_ipv4_header, of_ipv6_header, unsupported,
};

/// Result of [`IpHeaders::from_slice_lax`]: the headers, the payload after them, and the error of the first invalid
/// extension header with its layer, if any.
pub type IpHeadersLaxFromSliceResult<'a> = (
    IpHeaders,
    LaxIpPayloadSlice<'a>,
    Option<(ip_exts::HeadersSliceError, Layer)>,
);

/// Result of [`IpHeaders::from_ipv6_slice_lax`]: the headers, the payload after them, and the error of the first
/// invalid extension header with its layer, if any.
pub type IpHeadersIpv6LaxFromSliceResult<'a> = (
    IpHeaders,
    LaxIpPayloadSlice<'a>,
    Option<(ipv6_exts::HeaderSliceError, Layer)>,
);

/// Headers of an IPv4 packet, the payload after them, and the error of an invalid authentication header, if any.
type Ipv4WithStop<'a> = (
    IpHeaders,
    LaxIpPayloadSlice<'a>,
    Option<ip_auth::HeaderSliceError>,
);

impl IpHeaders {
    ghost use Rattle.std.specs.Prelude.{IsOkAnd};
    ghost use Rattle.ep_base.specs.Tables.{RefusesAs};
    ghost use Rattle.ep_ip.specs.LaxIp.{of_ipv4_header};

    /// Decodes the IP header (version 4 or 6) at the start of the slice and its extension headers, up to the first
    /// invalid or truncated one. A length field above the available bytes is ignored, and so are an IPv4 total length
    /// below the header length and an IPv6 payload length of 0. Returns the headers, the payload after them, and the
    /// error and layer of the invalid extension header that the payload begins with, if any. A second IPv6 extension
    /// header of the same kind is left in the payload.
    ///
    /// # Errors
    ///
    /// Returns an error if the IP header itself is invalid or truncated.
    #[inline(always)]
    pub fn from_slice_lax(
        slice: &[u8],
    ) -> Result<IpHeadersLaxFromSliceResult<'_>, ip::LaxHeaderSliceError>
        ensures ok { IfOk result (λ read. (part : LaxIpPart) × IsLaxIp headers slice.now part × ShowsLaxIp part read) }
        ensures only { (part : LaxIpPart) → IsLaxIp headers slice.now part → IsOkAnd result (ShowsLaxIp part) }
        ensures err { IfErr result (RefusesIpHeader slice.now) }
    {
        read_ip(slice)
    }

    /// Decodes the IPv4 header at the start of the slice, and its authentication header, if it is valid. A total length
    /// below the header length or above the available bytes is ignored. Returns the headers, the payload after them,
    /// and the error of an invalid authentication header, if any.
    ///
    /// # Errors
    ///
    /// Returns an error if the IPv4 header is invalid or truncated.
    #[inline(always)]
    pub fn from_ipv4_slice_lax(
        slice: &[u8],
    ) -> Result<
        (
            IpHeaders,
            LaxIpPayloadSlice<'_>,
            Option<ip_auth::HeaderSliceError>,
        ),
        ip::LaxHeaderSliceError,
    >
        ensures ok { IfOk result (λ read. (lax : LaxIp Ipv4Header) × IsLaxIpv4In headers false slice.now lax
            × ShowsLaxIpv4 lax read) }
        ensures only { (lax : LaxIp Ipv4Header) → IsLaxIpv4In headers false slice.now lax
            → IsOkAnd result (ShowsLaxIpv4 lax) }
        ensures err { IfErr result (RefusesAs of_ipv4_header (RefusesIpv4Header slice.now)) }
    {
        match read_ipv4(slice) {
            Ok(read) => Ok(read),
            Err(error) => Err(of_ipv4_header(error)),
        }
    }

    /// Decodes the IPv6 header at the start of the slice and its extension headers, up to the first invalid or
    /// truncated one. A payload length of 0 or above the available bytes is ignored. Returns the headers, the payload
    /// after them, and the error and layer of the invalid extension header that the payload begins with, if any. A
    /// second extension header of the same kind is left in the payload.
    ///
    /// # Errors
    ///
    /// Returns an error if the IPv6 header is invalid or truncated.
    #[inline(always)]
    pub fn from_ipv6_slice_lax(
        slice: &[u8],
    ) -> Result<IpHeadersIpv6LaxFromSliceResult<'_>, ipv6::HeaderSliceError>
        ensures ok { IfOk result (λ read. (lax : LaxIp Ipv6Header) × IsLaxIpv6In headers false slice.now lax
            × ShowsLaxIpv6 lax read) }
        ensures only { (lax : LaxIp Ipv6Header) → IsLaxIpv6In headers false slice.now lax
            → IsOkAnd result (ShowsLaxIpv6 lax) }
        ensures err { IfErr result (RefusesIpv6Header slice.now) }
    {
        read_ipv6(slice)
    }
}

/// Decodes an IP header, version 4 or 6, and its extension headers laxly. Each result is built in its return
/// expression: headers are large, and a call that is not inlined copies them.
#[inline(always)]
fn read_ip(slice: &[u8]) -> Result<IpHeadersLaxFromSliceResult<'_>, ip::LaxHeaderSliceError>
    ensures ok { IfOk result (λ read. (part : LaxIpPart) × IsLaxIp headers slice.now part × ShowsLaxIp part read) }
    ensures err { IfErr result (RefusesIpHeader slice.now) }
{
    if slice.len() == 0 {
        return Err(ip::LaxHeaderSliceError::Len(LenError::at_start(
            1,
            0,
            LenSource::Slice,
            Layer::IpHeader,
        )));
    }
    let version_number = slice[0] >> 4;
    if version_number == 4 {
        return match read_ipv4(slice) {
            Ok((headers, payload, stop)) => Ok((headers, payload, of_auth_stop(stop))),
            Err(error) => Err(of_ipv4_header(error)),
        };
    }
    if version_number == 6 {
        return match read_ipv6(slice) {
            Ok((headers, payload, stop)) => Ok((headers, payload, of_exts_stop(stop))),
            Err(error) => Err(of_ipv6_header(error)),
        };
    }
    Err(unsupported(version_number))
}

/// Decodes the IPv4 header at the start of the slice, and its authentication header laxly.
#[inline(always)]
fn read_ipv4(slice: &[u8]) -> Result<Ipv4WithStop<'_>, ipv4::HeaderSliceError>
    ensures ok { IfOk result (λ read. (lax : LaxIp Ipv4Header) × IsLaxIpv4In headers false slice.now lax
        × ShowsLaxIpv4 lax read) }
    ensures err { IfErr result (RefusesIpv4Header slice.now) }
{
    let (header, content) = match slice_ipv4_lax(slice, false) {
        Ok(read) => read,
        Err(error) => return Err(error),
    };
    let (extensions, ip_number, payload, refused) = Ipv4Extensions::from_slice_lax(
        content.ip_number,
        content.payload,
    );
    let payload = LaxIpPayloadSlice {
        ip_number,
        payload,
        ..content
    };
    let stop = auth_error_in_packet(refused, header.header_len(), payload.len_source);
    Ok((
        IpHeaders::Ipv4(header.to_header(), extensions),
        payload,
        stop,
    ))
}

/// Decodes the IPv6 header at the start of the slice, and its extension headers laxly.
#[inline(always)]
fn read_ipv6(slice: &[u8]) -> Result<IpHeadersIpv6LaxFromSliceResult<'_>, ipv6::HeaderSliceError>
    ensures ok { IfOk result (λ read. (lax : LaxIp Ipv6Header) × IsLaxIpv6In headers false slice.now lax
        × ShowsLaxIpv6 lax read) }
    ensures err { IfErr result (RefusesIpv6Header slice.now) }
{
    let (header, content) = match slice_ipv6_lax(slice, false) {
        Ok(read) => read,
        Err(error) => return Err(error),
    };
    let (extensions, ip_number, payload, refused) = Ipv6Extensions::from_slice_lax(
        content.ip_number,
        content.payload,
    );
    let payload = LaxIpPayloadSlice {
        ip_number,
        fragmented: extensions.is_fragmenting_payload(),
        payload,
        ..content
    };
    let stop = exts_error_in_packet(refused, Ipv6Header::LEN, payload.len_source);
    Ok((
        IpHeaders::Ipv6(header.to_header(), extensions),
        payload,
        stop,
    ))
}

/// Converts the error of an authentication header of an IPv4 packet, if any, into an error of extension headers of
/// either IP version, and adds its layer.
fn of_auth_stop(
    stop: Option<ip_auth::HeaderSliceError>,
) -> Option<(ip_exts::HeadersSliceError, Layer)>
    ensures { (error : Option HeaderSliceError) → option_map auth_refusal stop ≡ error
        → result ≡ option_map (stop_with_layer ipv4) error }
{
    match stop {
        None => None,
        Some(error) => Some(of_auth_error(error)),
    }
}

/// Converts the error of an authentication header of an IPv4 packet into an error of extension headers of either IP
/// version, and adds its layer.
fn of_auth_error(error: ip_auth::HeaderSliceError) -> (ip_exts::HeadersSliceError, Layer)
    ensures { result ≡ stop_with_layer ipv4 (auth_refusal error) }
{
    match error {
        ip_auth::HeaderSliceError::Len(error) => {
            let layer = error.layer.clone().unwrap();
            (ip_exts::HeadersSliceError::Len(error), layer)
        }
        ip_auth::HeaderSliceError::Content(error) => (
            ip_exts::HeadersSliceError::Content(ip_exts::HeaderError::Ipv4Ext(error)),
            Layer::IpAuthHeader,
        ),
    }
}

/// Converts the error of an extension header of an IPv6 packet, if any, with its layer, into an error of extension
/// headers of either IP version.
fn of_exts_stop(
    stop: Option<(ipv6_exts::HeaderSliceError, Layer)>,
) -> Option<(ip_exts::HeadersSliceError, Layer)>
    ensures { (error : Option HeaderSliceError) → stop ≡ option_map chain_stop error
        → result ≡ option_map (stop_with_layer ipv6) error }
{
    match stop {
        None => None,
        Some((error, layer)) => Some((of_exts_error(error), layer)),
    }
}

/// Converts the error of an extension header of an IPv6 packet into an error of extension headers of either IP version.
fn of_exts_error(error: ipv6_exts::HeaderSliceError) -> ip_exts::HeadersSliceError
    ensures { result ≡ extension_stop ipv6 error }
{
    match error {
        ipv6_exts::HeaderSliceError::Len(error) => ip_exts::HeadersSliceError::Len(error),
        ipv6_exts::HeaderSliceError::Content(error) => {
            ip_exts::HeadersSliceError::Content(ip_exts::HeaderError::Ipv6Ext(error))
        }
    }
}
