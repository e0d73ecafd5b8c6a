//! Decoding IP headers into the network layer of a `PacketHeaders`. If this layer already contains headers of the same
//! IP version, only headers that are or were present are overwritten, since the space of all extension headers is
//! large. Otherwise the whole layer is replaced.

ghost use Rattle.std.specs.Prelude.{◌≡◌, IfOk, IfErr, List, ℕ, Some, None};
ghost use Rattle.std.specs.Option.{option_map};
ghost use Rattle.ep_base.specs.IpPayload.{ip_payload_of};
ghost use Rattle.ep_base.specs.Readings.{headers};
ghost use Rattle.ep_base.specs.Tables.{RefusesAs};
ghost use Rattle.ep_ext.specs.Chains.{ipv6, IsExtensionChain, RefusesExtensionChain, chain_fragments, chain_of};
ghost use Rattle.ep_ext.specs.ExtensionParts.{ExtensionPart};
ghost use Rattle.ep_ext.specs.IpAuthSlices.{ip_auth_slice_header};
ghost use Rattle.ep_ext.specs.Ipv6Chains.{extensions_of, ipv6_parts, no_ipv6_extensions};
ghost use Rattle.ep_ip.specs.declared.ipv4_header.Ipv4Header.{Ipv4Header};
ghost use Rattle.ep_ip.specs.declared.ipv6_header.Ipv6Header.{Ipv6Header};
ghost use Rattle.ep_ip.specs.IpPackets.{IpPacket, IpPart, IsIp, IsIpv4, IsIpv6, RefusesIp, RefusesIpv4, RefusesIpv6};
ghost use Rattle.ep_ip.specs.IpPackets.{ipv4_part, ipv6_part};
ghost use Rattle.ep_ip.specs.Ipv4Slices.{ipv4_header_slice_header, ipv4_slice_packet};
ghost use Rattle.ep_packet.specs.declared.net_headers.NetHeaders.TheVariants as variant;
ghost use Rattle.ep_packet.specs.HeadersWalk.{FillsIp};
ghost use Rattle.ep_packet.specs.IpHeaders.{ip_headers_of, of_slice_error};
ghost use Rattle.ep_packet.specs.NetHeaders.{net_headers_of};

use crate::ip_headers_read::{
    empty_slice_error, is_extension, no_extensions, of_ipv4_error, of_ipv6_error, parse_limited,
    payload_of_ipv4, unsupported,
};
use crate::net_headers::NetHeaders;
use ep_base::err::ip::HeadersSliceError;
use ep_base::err::{ipv4, ipv6, ipv6_exts};
use ep_base::{IpNumber, IpPayloadSlice};
use ep_ext::{IpAuthHeaderSlice, Ipv4Extensions, Ipv4ExtensionsSlice};
use ep_ip::{Ipv4HeaderSlice, Ipv4Slice, Ipv6Header};

/// Decodes the IP header at the start of the slice, version 4 or 6, and its extension headers into `net`. Returns the
/// IP payload and its offset from the start of the slice, in bytes.
pub(crate) fn fill_ip<'a>(
    net: &mut Option<NetHeaders>,
    slice: &'a [u8],
) -> Result<(IpPayloadSlice<'a>, usize), HeadersSliceError>
    ensures ok { IfOk result (λ read. (part : IpPart) × IsIp headers slice.now part
        × FillsIp part slice.now net.new (ip_payload_of read.0) read.1) }
    ensures err { IfErr result (RefusesAs of_slice_error (RefusesIp headers slice.now)) }
{
    if slice.len() == 0 {
        return Err(empty_slice_error());
    }
    let version_number = slice[0] >> 4;
    if version_number == 4 {
        return match fill_ipv4(net, slice) {
            Ok(read) => Ok(read),
            Err(error) => Err(of_ipv4_error(error)),
        };
    }
    if version_number == 6 {
        return match fill_ipv6(net, slice) {
            Ok(read) => Ok(read),
            Err(error) => Err(of_ipv6_error(error)),
        };
    }
    Err(unsupported(version_number))
}

/// Decodes the IPv4 header at the start of the slice, and its authentication header, if any, into `net`. Returns the IP
/// payload and its offset from the start of the slice, in bytes.
pub(crate) fn fill_ipv4<'a>(
    net: &mut Option<NetHeaders>,
    slice: &'a [u8],
) -> Result<(IpPayloadSlice<'a>, usize), ipv4::SliceError>
    ensures ok { IfOk result (λ read. (packet : IpPacket Ipv4Header) × IsIpv4 headers slice.now packet
        × FillsIp (ipv4_part packet) slice.now net.new (ip_payload_of read.0) read.1) }
    ensures err { IfErr result (RefusesIpv4 headers slice.now) }
{
    match Ipv4Slice::from_slice(slice) {
        Ok(packet) => {
            store_ipv4(net, &packet);
            let payload = payload_of_ipv4(&packet);
            let content_end = packet.header().total_len() as usize;
            let offset = content_end - payload.payload.len();
            Ok((payload, offset))
        }
        Err(error) => Err(error),
    }
}

/// Copies the headers of a sliced IPv4 packet into `net`.
fn store_ipv4(net: &mut Option<NetHeaders>, packet: &Ipv4Slice<'_>)
    ensures { (left : List ℕ)
        → net.new ≡ Some (net_headers_of (ip_headers_of (ipv4_part (ipv4_slice_packet packet.now left)))) }
{
    store_ipv4_headers(net, &packet.header(), &packet.extensions());
}

/// Copies an IPv4 header and its authentication header, if any, into `net`. A packet with an authentication header is
/// left to a function that is not inlined: otherwise the space of that header would be zeroed for each packet.
#[inline(always)]
pub(crate) fn store_ipv4_headers(
    net: &mut Option<NetHeaders>,
    header: &Ipv4HeaderSlice<'_>,
    extensions: &Ipv4ExtensionsSlice<'_>,
)
    ensures { net.new ≡ Some (variant.Ipv4 (ipv4_header_slice_header header.now) (record {
      auth = option_map ip_auth_slice_header extensions.now.auth;
    })) }
{
    if let Some(auth) = &extensions.auth {
        store_authenticated(net, header, auth);
        return;
    }
    if let Some(headers) = net {
        if let NetHeaders::Ipv4(stored, extensions) = headers {
            header.header_into(stored);
            if extensions.auth.is_some() {
                extensions.auth = None;
            }
            return;
        }
    }
    replace_by_ipv4(net, header);
}

/// Copies an IPv4 header, and the authentication header after it, into `net`.
#[inline(never)]
fn store_authenticated(
    net: &mut Option<NetHeaders>,
    header: &Ipv4HeaderSlice<'_>,
    auth: &IpAuthHeaderSlice<'_>,
)
    ensures { net.new ≡ Some (variant.Ipv4 (ipv4_header_slice_header header.now) (record {
      auth = Some (ip_auth_slice_header auth.now);
    })) }
{
    if let Some(headers) = net {
        if let NetHeaders::Ipv4(stored, extensions) = headers {
            header.header_into(stored);
            auth.header_into(&mut extensions.auth);
            return;
        }
    }
    let auth = Some(auth.to_header());
    *net = Some(NetHeaders::Ipv4(header.to_header(), Ipv4Extensions { auth }));
}

/// Replaces `net` by an IPv4 header without an authentication header. It is not inlined, so that the value is written
/// once: inlined, its parts would be zeroed and moved one by one.
#[inline(never)]
fn replace_by_ipv4(net: &mut Option<NetHeaders>, header: &Ipv4HeaderSlice<'_>)
    ensures { net.new ≡ Some (variant.Ipv4 (ipv4_header_slice_header header.now) (record { auth = None })) }
{
    let header = header.to_header();
    *net = Some(NetHeaders::Ipv4(header, Ipv4Extensions { auth: None }));
}

/// Decodes the IPv6 header at the start of the slice and its extension headers into `net`. Returns the IP payload and
/// its offset from the start of the slice, in bytes.
pub(crate) fn fill_ipv6<'a>(
    net: &mut Option<NetHeaders>,
    slice: &'a [u8],
) -> Result<(IpPayloadSlice<'a>, usize), ipv6::SliceError>
    ensures ok { IfOk result (λ read. (packet : IpPacket Ipv6Header) × IsIpv6 headers slice.now packet
        × FillsIp (ipv6_part packet) slice.now net.new (ip_payload_of read.0) read.1) }
    ensures err { IfErr result (RefusesIpv6 headers slice.now) }
{
    let (header, content, len_source) = match parse_limited(slice) {
        Ok(cut) => cut,
        Err(error) => return Err(error),
    };
    let next_header = header.next_header;
    if is_extension(next_header) {
        return fill_ipv6_extensions(net, slice);
    }
    let payload = IpPayloadSlice {
        ip_number: next_header,
        fragmented: false,
        len_source,
        payload: content,
    };
    store_ipv6(net, header);
    Ok((payload, Ipv6Header::LEN))
}

/// Decodes an IPv6 header that is followed by extension headers, and these headers, into `net`. Returns the IP payload
/// and its offset from the start of the slice, in bytes. It is not inlined, so that packets without extension headers
/// don't pay for it.
#[inline(never)]
fn fill_ipv6_extensions<'a>(
    net: &mut Option<NetHeaders>,
    slice: &'a [u8],
) -> Result<(IpPayloadSlice<'a>, usize), ipv6::SliceError>
    ensures ok { IfOk result (λ read. (packet : IpPacket Ipv6Header) × IsIpv6 headers slice.now packet
        × FillsIp (ipv6_part packet) slice.now net.new (ip_payload_of read.0) read.1) }
    ensures err { IfErr result (RefusesIpv6 headers slice.now) }
{
    let (header, content, len_source) = match parse_limited(slice) {
        Ok(cut) => cut,
        Err(error) => return Err(error),
    };
    match store_ipv6_extensions(net, header, content) {
        Ok((ip_number, fragmented, payload)) => {
            let offset = Ipv6Header::LEN + (content.len() - payload.len());
            let payload = IpPayloadSlice {
                ip_number,
                fragmented,
                len_source,
                payload,
            };
            Ok((payload, offset))
        }
        Err(ipv6_exts::HeaderSliceError::Len(error)) => {
            Err(ipv6::SliceError::Len(error.after_header(Ipv6Header::LEN, len_source)))
        }
        Err(ipv6_exts::HeaderSliceError::Content(error)) => Err(ipv6::SliceError::Exts(error)),
    }
}

/// Sets `net` to `header` and the extension headers decoded from the start of `content`. Returns the protocol number of
/// the payload, whether the packet is a fragment, and the bytes of the payload.
#[inline]
fn store_ipv6_extensions<'a>(
    net: &mut Option<NetHeaders>,
    header: Ipv6Header,
    content: &'a [u8],
) -> Result<(IpNumber, bool, &'a [u8]), ipv6_exts::HeaderSliceError>
    ensures ok { IfOk result (λ read. (parts : List ExtensionPart)
        × (net.new ≡ Some (variant.Ipv6 header (extensions_of parts)))
        × IsExtensionChain ipv6 headers header.next_header.0 content.now (chain_of parts read.0.0 read.2.now)
        × (read.1 ≡ chain_fragments (ipv6_parts (extensions_of parts)))) }
    ensures err { IfErr result (RefusesExtensionChain ipv6 headers header.next_header.0 content.now) }
{
    let number = header.next_header;
    store_ipv6(net, header);
    if let Some(headers) = net {
        if let NetHeaders::Ipv6(_, extensions) = headers {
            return match extensions.read_into(number, content) {
                Ok((last, payload)) => Ok((last, extensions.is_fragmenting_payload(), payload)),
                Err(error) => Err(error),
            };
        }
    }
    unreachable!()
}

/// Sets `net` to an IPv6 header without extension headers. If it already contains IPv6 headers, only the header and the
/// extension headers that were present are overwritten.
pub(crate) fn store_ipv6(net: &mut Option<NetHeaders>, header: Ipv6Header)
    ensures { net.new ≡ Some (variant.Ipv6 header no_ipv6_extensions) }
{
    if let Some(headers) = net {
        if let NetHeaders::Ipv6(stored, extensions) = headers {
            *stored = header;
            extensions.clear();
            return;
        }
    }
    replace_by_ipv6(net, header);
}

/// Replaces `net` by an IPv6 header without extension headers. It is not inlined, so that the value is written once:
/// inlined, its parts would be zeroed and moved one by one.
#[inline(never)]
fn replace_by_ipv6(net: &mut Option<NetHeaders>, header: Ipv6Header)
    ensures { net.new ≡ Some (variant.Ipv6 header no_ipv6_extensions) }
{
    *net = Some(NetHeaders::Ipv6(header, no_extensions()));
}
