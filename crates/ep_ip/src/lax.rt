//! Parts of lax reading of IP packets: errors of a header of either version, the errors of extension headers in a
//! packet, and the source of an IPv6 payload's length.

ghost use Rattle.std.specs.Prelude.{◌≡◌, ◌+◌, ◌<◌, ◌^◌, Option};
ghost use Rattle.std.specs.Option.{ForSome, option_map};
ghost use Rattle.ep_base.specs.LaxCut.{LaxCut};
ghost use Rattle.ep_base.specs.declared.err.ip.HeaderError.TheVariants as content;
ghost use Rattle.ep_base.specs.declared.err.ip.LaxHeaderSliceError.TheVariants as header_error;
ghost use Rattle.ep_base.specs.declared.err.ipv6_exts.HeaderSliceError.{HeaderSliceError};
ghost use Rattle.ep_ext.specs.Chains.{offset_of};
ghost use Rattle.ep_ext.specs.ChainPrefixes.{chain_stop};
ghost use Rattle.ep_ext.specs.ExtensionParts.{auth_refusal};
ghost use Rattle.ep_ip.specs.Ipv6Slices.{ipv6_header_slice_header};
ghost use Rattle.ep_ip.specs.LaxIp.{lax_ipv6_source, of_ipv4_header, of_ipv6_header, stop_after};

use crate::ipv6_header_slice::Ipv6HeaderSlice;
use ep_base::LenSource;
use ep_base::err::{Layer, ip, ip_auth, ipv4, ipv6, ipv6_exts};
use ep_base::lax_cut::LimitedSlice;

/// Returns the error of an IP header whose version is neither 4 nor 6.
pub fn unsupported(version_number: u8) -> ip::LaxHeaderSliceError
    ensures { result ≡ header_error.Content (content.UnsupportedIpVersion version_number) }
{
    ip::LaxHeaderSliceError::Content(ip::HeaderError::UnsupportedIpVersion { version_number })
}

/// Converts the error of an IPv4 header into the equivalent error of an IP header of either version.
pub fn of_ipv4_header(error: ipv4::HeaderSliceError) -> ip::LaxHeaderSliceError
    ensures { result ≡ of_ipv4_header error }
{
    match error {
        ipv4::HeaderSliceError::Len(error) => ip::LaxHeaderSliceError::Len(error),
        ipv4::HeaderSliceError::Content(ipv4::HeaderError::UnexpectedVersion { version_number }) =>
            unsupported(version_number),
        ipv4::HeaderSliceError::Content(ipv4::HeaderError::HeaderLengthSmallerThanHeader { ihl }) =>
            ip::LaxHeaderSliceError::Content(ip::HeaderError::Ipv4HeaderLengthSmallerThanHeader {
                ihl,
            }),
    }
}

/// Converts the error of an IPv6 header into the equivalent error of an IP header of either version.
pub fn of_ipv6_header(error: ipv6::HeaderSliceError) -> ip::LaxHeaderSliceError
    ensures { result ≡ of_ipv6_header error }
{
    match error {
        ipv6::HeaderSliceError::Len(error) => ip::LaxHeaderSliceError::Len(error),
        ipv6::HeaderSliceError::Content(ipv6::HeaderError::UnexpectedVersion { version_number }) =>
            unsupported(version_number),
    }
}

/// Converts the error of an authentication header, if any, into an error of its IPv4 packet. In a length error, the
/// length of the IPv4 header (`header_len`) is added to the offset, and the length source `LenSource::Slice` is
/// replaced by `len_source`.
#[inline]
pub fn auth_error_in_packet(
    refused: Option<ip_auth::HeaderSliceError>,
    header_len: usize,
    len_source: LenSource,
) -> Option<ip_auth::HeaderSliceError>
    requires { ForSome refused (λ error. offset_of (auth_refusal error) + header_len < 2 ^ 64) }
    ensures { option_map auth_refusal result
        ≡ option_map (stop_after header_len len_source) (option_map auth_refusal refused) }
{
    match refused {
        None => None,
        Some(error) => Some(auth_error_after_header(error, header_len, len_source)),
    }
}

/// Converts the error of an authentication header into an error of its IPv4 packet. In a length error, the length of
/// the IPv4 header (`header_len`) is added to the offset, and the length source `LenSource::Slice` is replaced by
/// `len_source`.
#[inline]
fn auth_error_after_header(
    error: ip_auth::HeaderSliceError,
    header_len: usize,
    len_source: LenSource,
) -> ip_auth::HeaderSliceError
    requires { offset_of (auth_refusal error) + header_len < 2 ^ 64 }
    ensures { auth_refusal result ≡ stop_after header_len len_source (auth_refusal error) }
{
    match error {
        ip_auth::HeaderSliceError::Len(error) => {
            ip_auth::HeaderSliceError::Len(error.after_header(header_len, len_source))
        }
        ip_auth::HeaderSliceError::Content(error) => ip_auth::HeaderSliceError::Content(error),
    }
}

/// Converts the error of an IPv6 extension header, if any, into an error of its IPv6 packet, and keeps its layer. In a
/// length error, the length of the IPv6 header is added to the offset, and the length source `LenSource::Slice` is
/// replaced by `len_source`.
#[inline]
pub fn exts_error_in_packet(
    refused: Option<(ipv6_exts::HeaderSliceError, Layer)>,
    header_len: usize,
    len_source: LenSource,
) -> Option<(ipv6_exts::HeaderSliceError, Layer)>
    requires { ForSome refused (λ read. offset_of read.0 + header_len < 2 ^ 64) }
    ensures { (stop : Option HeaderSliceError) → refused ≡ option_map chain_stop stop
        → result ≡ option_map chain_stop (option_map (stop_after header_len len_source) stop) }
{
    match refused {
        None => None,
        Some(read) => Some((
            exts_error_after_header(read.0, header_len, len_source),
            read.1,
        )),
    }
}

/// Converts the error of an IPv6 extension header into an error of its IPv6 packet. In a length error, the length of
/// the IPv6 header is added to the offset, and the length source `LenSource::Slice` is replaced by `len_source`.
#[inline]
fn exts_error_after_header(
    error: ipv6_exts::HeaderSliceError,
    header_len: usize,
    len_source: LenSource,
) -> ipv6_exts::HeaderSliceError
    requires { offset_of error + header_len < 2 ^ 64 }
    ensures { result ≡ stop_after header_len len_source error }
{
    match error {
        ipv6_exts::HeaderSliceError::Len(error) => {
            ipv6_exts::HeaderSliceError::Len(error.after_header(header_len, len_source))
        }
        ipv6_exts::HeaderSliceError::Content(error) => ipv6_exts::HeaderSliceError::Content(error),
    }
}

/// Returns the source of the IPv6 payload's length: the payload length field, or the end of the slice if the field is
/// ignored. A field of 0 is ignored if there are bytes after the IPv6 header.
#[inline]
pub fn ipv6_payload_source(header: &Ipv6HeaderSlice<'_>, content: &LimitedSlice<'_>) -> LenSource
    ensures { (cut : LaxCut) → cut.payload ≡ content.now.payload.now → cut.source ≡ content.now.len_source
        → result ≡ lax_ipv6_source (ipv6_header_slice_header header.now) cut }
{
    if header.payload_length() != 0 {
        return content.len_source;
    }
    if content.payload.is_empty() {
        LenSource::Ipv6HeaderPayloadLen
    } else {
        LenSource::Slice
    }
}
