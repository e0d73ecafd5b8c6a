//! Decoding IP headers laxly into the network layer of a packet value. Only headers that are or were present are
//! overwritten, as in strict decoding.

ghost use Rattle.std.specs.Prelude.{◌≡◌, IfOk, IfErr, OnErr, List, Option, Some};
ghost use Rattle.std.specs.Option.{option_map};
ghost use Rattle.ep_base.specs.Readings.{headers};
ghost use Rattle.ep_base.specs.declared.err.ipv6_exts.HeaderSliceError.{HeaderSliceError};
ghost use Rattle.ep_ext.specs.Chains.{ipv6, chain_fragments, chain_of};
ghost use Rattle.ep_ext.specs.ChainPrefixes.{IsLaxChainIn, chain_stop};
ghost use Rattle.ep_ext.specs.ExtensionParts.{ExtensionPart, auth_refusal};
ghost use Rattle.ep_ext.specs.Ipv6Chains.{extensions_of, ipv6_parts};
ghost use Rattle.ep_ip.specs.declared.ipv4_header.Ipv4Header.{Ipv4Header};
ghost use Rattle.ep_ip.specs.declared.ipv6_header.Ipv6Header.{Ipv6Header};
ghost use Rattle.ep_ip.specs.IpPackets.{ipv4_part, ipv6_part};
ghost use Rattle.ep_ip.specs.Ipv4.{RefusesIpv4Header};
ghost use Rattle.ep_ip.specs.Ipv6.{RefusesIpv6Header};
ghost use Rattle.ep_ip.specs.LaxIp.{LaxIp, IsLaxIpv4In, IsLaxIpv6In};
ghost use Rattle.ep_packet.specs.declared.net_headers.NetHeaders.TheVariants as variant;
ghost use Rattle.ep_packet.specs.LaxIpHeaders.{FillsLaxIp};

use crate::lax_ip_content::{slice_ipv4_lax, slice_ipv6_lax};
use crate::net_headers::NetHeaders;
use crate::net_headers_fill::{store_ipv4_headers, store_ipv6};
use ep_base::err::{Layer, ip_auth, ipv4, ipv6, ipv6_exts};
use ep_base::{IpNumber, LaxIpPayloadSlice};
use ep_ext::Ipv4ExtensionsSlice;
use ep_ip::Ipv6Header;
use ep_ip::lax::{auth_error_in_packet, exts_error_in_packet};

/// Payload of an IPv4 packet, its offset in the packet, and the error of an invalid authentication header, if any.
type Ipv4Payload<'a> = (
    LaxIpPayloadSlice<'a>,
    usize,
    Option<ip_auth::HeaderSliceError>,
);

/// Payload of an IPv6 packet, its offset in the packet, and the error and layer of the first invalid extension header,
/// if any.
type Ipv6Payload<'a> = (
    LaxIpPayloadSlice<'a>,
    usize,
    Option<(ipv6_exts::HeaderSliceError, Layer)>,
);

impl NetHeaders {
    /// Decodes the IPv4 header at the start of the slice, and its authentication header, if it is valid, into `net`.
    /// `outer` is true if bytes of the enclosing layer (MACsec) are missing. Returns the payload, its offset from the
    /// start of the slice, and the error of an invalid authentication header, if any. An invalid or truncated IPv4
    /// header is an error, and leaves `net` unchanged.
    pub fn read_ipv4_lax_into<'a>(
        net: &mut Option<NetHeaders>,
        slice: &'a [u8],
        outer: bool,
    ) -> Result<Ipv4Payload<'a>, ipv4::HeaderSliceError>
        ensures ok { IfOk result (λ read. (lax : LaxIp Ipv4Header) × IsLaxIpv4In headers outer slice.now lax
            × FillsLaxIp (ipv4_part lax.packet) lax.incomplete slice.now net.new read.0 read.1
            × (option_map auth_refusal read.2 ≡ lax.stop)) }
        ensures err { IfErr result (RefusesIpv4Header slice.now) }
        ensures unchanged { OnErr result (net.new ≡ net.old) }
    {
        let (header, content) = match slice_ipv4_lax(slice, outer) {
            Ok(read) => read,
            Err(error) => return Err(error),
        };
        let header_len = header.header_len();
        let (extensions, ip_number, payload, refused) = Ipv4ExtensionsSlice::from_slice_lax(
            content.ip_number,
            content.payload,
        );
        let stop = auth_error_in_packet(refused, header_len, content.len_source);
        let offset = header_len + (content.payload.len() - payload.len());
        store_ipv4_headers(net, &header, &extensions);
        let payload = LaxIpPayloadSlice {
            ip_number,
            payload,
            ..content
        };
        Ok((payload, offset, stop))
    }

    /// Decodes the IPv6 header at the start of the slice, and its extension headers up to the first invalid one, into
    /// `net`. `outer` is true if bytes of the enclosing layer (MACsec) are missing. Returns the payload, its offset
    /// from the start of the slice, and the error and layer of the invalid extension header, if any. An invalid or
    /// truncated IPv6 header is an error, and leaves `net` unchanged.
    pub fn read_ipv6_lax_into<'a>(
        net: &mut Option<NetHeaders>,
        slice: &'a [u8],
        outer: bool,
    ) -> Result<Ipv6Payload<'a>, ipv6::HeaderSliceError>
        ensures ok { IfOk result (λ read. (lax : LaxIp Ipv6Header) × IsLaxIpv6In headers outer slice.now lax
            × FillsLaxIp (ipv6_part lax.packet) lax.incomplete slice.now net.new read.0 read.1
            × (read.2 ≡ option_map chain_stop lax.stop)) }
        ensures err { IfErr result (RefusesIpv6Header slice.now) }
        ensures unchanged { OnErr result (net.new ≡ net.old) }
    {
        let (header, content) = match slice_ipv6_lax(slice, outer) {
            Ok(read) => read,
            Err(error) => return Err(error),
        };
        let (ip_number, fragmented, payload, refused) = store_ipv6_extensions(
            net,
            header.to_header(),
            content.payload,
        );
        let stop = exts_error_in_packet(refused, Ipv6Header::LEN, content.len_source);
        let offset = Ipv6Header::LEN + (content.payload.len() - payload.len());
        let payload = LaxIpPayloadSlice {
            ip_number,
            fragmented,
            payload,
            ..content
        };
        Ok((payload, offset, stop))
    }
}

/// Sets `net` to `header` and the extension headers at the start of `content`, up to the first invalid one. Returns the
/// IP number of the remaining bytes, whether the packet is a fragment, the remaining bytes, and the error and layer of
/// the invalid extension header, if any.
#[inline]
fn store_ipv6_extensions<'a>(
    net: &mut Option<NetHeaders>,
    header: Ipv6Header,
    content: &'a [u8],
) -> (
    IpNumber,
    bool,
    &'a [u8],
    Option<(ipv6_exts::HeaderSliceError, Layer)>,
)
    ensures { (parts : List ExtensionPart) × (stop : Option HeaderSliceError)
        × (net.new ≡ Some (variant.Ipv6 header (extensions_of parts))) × (result.3 ≡ option_map chain_stop stop)
        × IsLaxChainIn ipv6 headers header.next_header.0 content.now (chain_of parts result.0.0 result.2.now) stop
        × (result.1 ≡ chain_fragments (ipv6_parts (extensions_of parts))) }
{
    let number = header.next_header;
    store_ipv6(net, header);
    if let Some(headers) = net {
        if let NetHeaders::Ipv6(_, extensions) = headers {
            let (last, payload, stop) = extensions.read_into_lax(number, content);
            return (last, extensions.is_fragmenting_payload(), payload, stop);
        }
    }
    unreachable!()
}
