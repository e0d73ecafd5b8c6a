//! Slicing of an IP header and the bytes after it, as lax slicing does, before extension headers are read.

ghost use Rattle.std.specs.Prelude.{IfOk, IfErr};
ghost use Rattle.ep_ip.specs.Ipv4.{RefusesIpv4Header};
ghost use Rattle.ep_ip.specs.Ipv6.{RefusesIpv6Header};
ghost use Rattle.ep_packet.specs.LaxIpContents.{IsLaxIpv4Content, IsLaxIpv6Content};

use ep_base::err::{ipv4, ipv6};
use ep_base::lax_cut::{LengthField, limit_by_length_field};
use ep_base::{LaxIpPayloadSlice, LenSource};
use ep_ip::lax::ipv6_payload_source;
use ep_ip::{Ipv4HeaderSlice, Ipv6Header, Ipv6HeaderSlice};

/// Slices the IPv4 header at the start of the slice. Returns it with the bytes after it, which begin with the
/// authentication header, if any; a total length below the header length or above the available bytes is ignored.
/// `outer` is true if bytes of the enclosing layer (MACsec) are missing.
///
/// # Errors
///
/// Returns an error if the IPv4 header is invalid or truncated.
#[inline(always)]
pub fn slice_ipv4_lax<'a>(
    slice: &'a [u8],
    outer: bool,
) -> Result<(Ipv4HeaderSlice<'a>, LaxIpPayloadSlice<'a>), ipv4::HeaderSliceError>
    ensures ok { IfOk result (λ read. IsLaxIpv4Content outer slice.now read.0 read.1) }
    ensures err { IfErr result (RefusesIpv4Header slice.now) }
{
    let header = match Ipv4HeaderSlice::from_slice(slice) {
        Ok(header) => header,
        Err(error) => return Err(error),
    };
    let header_len = header.header_len();
    let field = LengthField {
        least: header_len,
        stated: header.total_len() as usize,
        source: LenSource::Ipv4HeaderTotalLen,
    };
    let limited = limit_by_length_field(slice, header_len, field, outer);
    let content = LaxIpPayloadSlice {
        incomplete: limited.incomplete,
        ip_number: header.protocol(),
        fragmented: header.is_fragmenting_payload(),
        len_source: limited.len_source,
        payload: limited.payload,
    };
    Ok((header, content))
}

/// Slices the IPv6 header at the start of the slice. Returns it with the bytes after it, which begin with the extension
/// headers, if any; a payload length of 0 or above the available bytes is ignored. The fragment header is not read
/// yet, so that the content is not marked as a fragment. `outer` is true if bytes of the enclosing layer (MACsec) are
/// missing.
///
/// # Errors
///
/// Returns an error if the IPv6 header is invalid or truncated.
#[inline(always)]
pub fn slice_ipv6_lax<'a>(
    slice: &'a [u8],
    outer: bool,
) -> Result<(Ipv6HeaderSlice<'a>, LaxIpPayloadSlice<'a>), ipv6::HeaderSliceError>
    ensures ok { IfOk result (λ read. IsLaxIpv6Content outer slice.now read.0 read.1) }
    ensures err { IfErr result (RefusesIpv6Header slice.now) }
{
    let header = match Ipv6HeaderSlice::from_slice(slice) {
        Ok(header) => header,
        Err(error) => return Err(error),
    };
    let field = LengthField {
        least: Ipv6Header::LEN + 1,
        stated: Ipv6Header::LEN + header.payload_length() as usize,
        source: LenSource::Ipv6HeaderPayloadLen,
    };
    let limited = limit_by_length_field(slice, Ipv6Header::LEN, field, outer);
    let content = LaxIpPayloadSlice {
        incomplete: limited.incomplete,
        ip_number: header.next_header(),
        fragmented: false,
        len_source: ipv6_payload_source(&header, &limited),
        payload: limited.payload,
    };
    Ok((header, content))
}
