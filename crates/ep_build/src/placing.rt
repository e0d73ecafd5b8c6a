//! Writing the headers and the payload of a built frame to the start of a slice, without allocation: first all checks,
//! then the bytes.

ghost use Rattle.std.specs.Prelude.{◌+◌, ◌≤◌, ◌++◌, length, OnOk, option_map};
ghost use Rattle.ep_packet.specs.IpHeaders.{FitsIpHeader, ip_headers_len, ip_headers_parts, written_headers};
ghost use Rattle.ep_transport.specs.TransportHeaders.{transport_bytes, transport_header_len};
ghost use Rattle.ep_ext.specs.Chains.{FitParts, parts_bytes};
ghost use Rattle.ep_ext.specs.ExtensionParts.{authentication, fragment, hop_by_hop, optional_part, routing};
ghost use Rattle.ep_ext.specs.Ipv6Chains.{final_by, ipv6_parts, routing_header};
ghost use Rattle.ep_build.specs.BuiltFragments.{IsFragmentReadBack};
ghost use Rattle.ep_build.specs.BuiltFrames.{ip_frame_headers, transport_frame_headers, link_with_type, link_part_bytes, link_part_len};
ghost use Rattle.ep_build.specs.Fits.{FitsTransport};
ghost use Rattle.ep_build.specs.Placing.{AreAt, FillsStart, PartsAreAt};
ghost use Rattle.ep_build.specs.ReadBack.{IsReadBack};
ghost use Rattle.ep_build.specs.Steps.{part_headers};

use crate::err::{BuildSliceWriteError, BuildWriteError, SliceWriteResult};
use crate::facts::link_fits;
use crate::ip_part::{IpPart, IsIpHeaders};
use crate::link_part::LinkPart;
use crate::writing::prepared;
use ep_base::{EtherType, IpNumber};
use ep_ext::{
    IpAuthHeader, Ipv6Extensions, Ipv6FragmentHeader, Ipv6RawExtHeader, Ipv6RoutingExtensions,
};
use ep_transport::TransportHeader;

/// Writes the frame of a link header, IP headers, a transport header and a payload to the start of the slice. Returns
/// its length in bytes.
#[inline(always)]
pub(crate) fn place_transport_step(
    link: LinkPart,
    ip: IpPart,
    mut transport: TransportHeader,
    payload: &[u8],
    slice: &mut [u8],
) -> SliceWriteResult
    ensures filled { FillsStart (transport_frame_headers link (part_headers ip) transport) payload.now
        slice.old slice.new result }
    ensures read_back { OnOk result (IsReadBack link (part_headers ip) transport payload.now) }
{
    match ip {
        IpPart::Plain4(mut header) => {
            place_transport(&link, &mut header, &mut transport, payload, slice)
        }
        IpPart::Plain6(mut header) => {
            place_transport(&link, &mut header, &mut transport, payload, slice)
        }
        IpPart::Any(mut headers) => {
            place_transport(&link, &mut headers, &mut transport, payload, slice)
        }
    }
}

/// Writes the frame of a link header, IP headers, a transport header and a payload to the start of the slice, and
/// returns its length in bytes. The next header values are set to lead to the transport header.
#[inline(never)]
fn place_transport<Headers: IsIpHeaders>(
    link: &LinkPart,
    headers: &mut Headers,
    transport: &mut TransportHeader,
    payload: &[u8],
    slice: &mut [u8],
) -> SliceWriteResult
    ensures filled { FillsStart (transport_frame_headers link.now (Headers.headers headers.old) transport.old)
        payload.now
        slice.old slice.new result }
    ensures read_back { OnOk result (IsReadBack link.now (Headers.headers headers.old) transport.old payload.now) }
{
    let (ether_type, size) = match prepared(link, headers, transport, payload) {
        Ok(prepared) => prepared,
        Err(error) => return Err(BuildSliceWriteError::Build(error)),
    };
    if slice.len() < size {
        return Err(BuildSliceWriteError::Space(size));
    }
    let ip_end = place_headers(link, ether_type, headers, slice);
    let header_end = place_header(transport, ip_end, slice);
    put(payload, header_end, slice);
    Ok(size)
}

/// Writes the frame of a link header, IP headers and a payload of protocol number `last` to the start of the slice, and
/// returns its length in bytes. The next header values are set to lead to `last`.
#[inline(always)]
pub(crate) fn place_ip_step(
    link: LinkPart,
    ip: IpPart,
    last: IpNumber,
    payload: &[u8],
    slice: &mut [u8],
) -> SliceWriteResult
    ensures filled { FillsStart (ip_frame_headers link (part_headers ip) last) payload.now slice.old slice.new result }
    ensures fragment { OnOk result (IsFragmentReadBack link (part_headers ip) last payload.now) }
{
    match ip {
        IpPart::Plain4(mut header) => place_ip(&link, &mut header, last, payload, slice),
        IpPart::Plain6(mut header) => place_ip(&link, &mut header, last, payload, slice),
        IpPart::Any(mut headers) => place_ip(&link, &mut headers, last, payload, slice),
    }
}

/// Writes the frame of a link header, IP headers and a payload of protocol number `last` to the start of the slice, and
/// returns its length in bytes. The next header values are set to lead to `last`.
#[inline(never)]
fn place_ip<Headers: IsIpHeaders>(
    link: &LinkPart,
    headers: &mut Headers,
    last: IpNumber,
    payload: &[u8],
    slice: &mut [u8],
) -> SliceWriteResult
    ensures filled { FillsStart (ip_frame_headers link.now (Headers.headers headers.old) last) payload.now
        slice.old slice.new result }
    ensures fragment { OnOk result (IsFragmentReadBack link.now (Headers.headers headers.old) last payload.now) }
{
    link_fits(link);
    let ether_type = match headers.link(last, payload.len()) {
        Ok(ether_type) => ether_type,
        Err(error) => {
            return Err(BuildSliceWriteError::Build(BuildWriteError::PayloadLen(error)));
        }
    };
    let size = link.header_len() + headers.headers_len() + payload.len();
    if slice.len() < size {
        return Err(BuildSliceWriteError::Space(size));
    }
    let ip_end = place_headers(link, ether_type, headers, slice);
    put(payload, ip_end, slice);
    Ok(size)
}

/// Writes a link header and IP headers, whose lengths and next header values are set already, to the start of the
/// slice. Returns the offset after them. The slice must be long enough.
#[inline(always)]
fn place_headers<Headers: IsIpHeaders>(
    link: &LinkPart,
    ether_type: EtherType,
    headers: &mut Headers,
    slice: &mut [u8],
) -> usize
    requires slice_len { link_part_len link.now + ip_headers_len (Headers.headers headers.old) ≤ length slice.old }
    requires fits { FitsIpHeader (Headers.headers headers.old) }
    ensures bytes { AreAt (link_part_bytes (link_with_type link.now ether_type) ++ written_headers
        (Headers.headers headers.old) (ip_headers_parts (Headers.headers headers.old))) slice.old slice.new 0 result }
    ensures fits { FitParts (ip_headers_parts (Headers.headers headers.old)) }
{
    link_fits(link);
    let at = link.place_with_type(ether_type, slice);
    headers.place(at, slice)
}

/// Writes a transport header to the slice at offset `at`, and returns the offset after it. The slice must be long
/// enough.
#[inline]
fn place_header(transport: &TransportHeader, at: usize, slice: &mut [u8]) -> usize
    requires slice_len { at + transport_header_len transport.now ≤ length slice.old }
    requires fits { FitsTransport transport.now }
    ensures { AreAt (transport_bytes transport.now) slice.old slice.new at result }
{
    match transport {
        TransportHeader::Udp(header) => put(&header.to_bytes(), at, slice),
        TransportHeader::Tcp(header) => put(header.to_bytes().as_slice(), at, slice),
        TransportHeader::Icmpv4(header) => put(header.to_bytes().as_slice(), at, slice),
        TransportHeader::Icmpv6(header) => put(&header.to_bytes(), at, slice),
    }
}

/// Writes IPv6 extension headers to the slice at offset `at`, in the order of RFC 8200, 4.1, and returns the offset
/// after them. The slice must be long enough.
pub(crate) fn place_extensions(extensions: &Ipv6Extensions, at: usize, slice: &mut [u8]) -> usize
    requires { at + length (parts_bytes (ipv6_parts extensions.now)) ≤ length slice.old }
    ensures { PartsAreAt (ipv6_parts extensions.now) slice.old slice.new at result }
{
    let at = place_raw(&extensions.hop_by_hop_options, at, slice);
    let at = place_raw(&extensions.destination_options, at, slice);
    let at = place_routing(&extensions.routing, at, slice);
    let at = place_fragment(&extensions.fragment, at, slice);
    let at = place_authentication(&extensions.auth, at, slice);
    place_final(&extensions.routing, at, slice)
}

/// Writes an IPv6 hop-by-hop or destination options header, if present, to the slice at offset `at`, and returns the
/// offset after it.
#[inline(never)]
fn place_raw(header: &Option<Ipv6RawExtHeader>, at: usize, slice: &mut [u8]) -> usize
    requires { at + length (parts_bytes (optional_part hop_by_hop header.now)) ≤ length slice.old }
    ensures { PartsAreAt (optional_part hop_by_hop header.now) slice.old slice.new at result }
{
    match header {
        Some(header) => put(header.to_bytes().as_slice(), at, slice),
        None => at,
    }
}

/// Writes an IPv6 routing header, if present, to the slice at offset `at`, and returns the offset after it.
#[inline(never)]
fn place_routing(routing_exts: &Option<Ipv6RoutingExtensions>, at: usize, slice: &mut [u8]) -> usize
    requires { at + length (parts_bytes (optional_part routing (option_map routing_header routing_exts.now)))
        ≤ length slice.old }
    ensures { PartsAreAt (optional_part routing (option_map routing_header routing_exts.now))
        slice.old slice.new at result }
{
    match routing_exts {
        Some(exts) => put(exts.routing.to_bytes().as_slice(), at, slice),
        None => at,
    }
}

/// Writes the IPv6 destination options header that follows a routing header, if present, to the slice at offset `at`,
/// and returns the offset after it.
fn place_final(routing_exts: &Option<Ipv6RoutingExtensions>, at: usize, slice: &mut [u8]) -> usize
    requires { at + length (parts_bytes (optional_part hop_by_hop (final_by routing_exts.now))) ≤ length slice.old }
    ensures { PartsAreAt (optional_part hop_by_hop (final_by routing_exts.now)) slice.old slice.new at result }
{
    match routing_exts {
        Some(exts) => place_raw(&exts.final_destination_options, at, slice),
        None => at,
    }
}

/// Writes an IPv6 fragment header, if present, to the slice at offset `at`, and returns the offset after it.
fn place_fragment(header: &Option<Ipv6FragmentHeader>, at: usize, slice: &mut [u8]) -> usize
    requires { at + length (parts_bytes (optional_part fragment header.now)) ≤ length slice.old }
    ensures { PartsAreAt (optional_part fragment header.now) slice.old slice.new at result }
{
    match header {
        Some(header) => put(&header.to_bytes(), at, slice),
        None => at,
    }
}

/// Writes an authentication header, if present, to the slice at the given offset, and returns the offset after it.
#[inline(never)]
pub(crate) fn place_authentication(
    header: &Option<IpAuthHeader>,
    at: usize,
    slice: &mut [u8],
) -> usize
    requires { at + length (parts_bytes (optional_part authentication header.now)) ≤ length slice.old }
    ensures { PartsAreAt (optional_part authentication header.now) slice.old slice.new at result }
{
    match header {
        Some(header) => put(header.to_bytes().as_slice(), at, slice),
        None => at,
    }
}

/// Copies `bytes` into the slice at offset `at`, and returns the offset after them. The slice must be long enough.
#[inline]
pub(crate) fn put(bytes: &[u8], at: usize, slice: &mut [u8]) -> usize
    requires { at + length bytes.now ≤ length slice.old }
    ensures { AreAt bytes.now slice.old slice.new at result }
{
    let end = at + bytes.len();
    slice[at..end].copy_from_slice(bytes);
    end
}
