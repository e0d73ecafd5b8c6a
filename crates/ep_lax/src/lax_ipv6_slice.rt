//! IPv6 packet in a slice, as lax slicing reads it: bytes of the payload may be missing (RFC 8200).

ghost use Rattle.std.specs.Prelude.{◌≡◌};
ghost use Rattle.ep_ext.specs.Ipv6ExtensionSlices.{ipv6_slice_number as extension_number};
ghost use Rattle.ep_ip.specs.Ipv6Slices.{ipv6_header_slice_header};

use ep_base::LaxIpPayloadSlice;
use ep_base::err::{Layer, ipv6, ipv6_exts};
use ep_ext::Ipv6ExtensionsSlice;
use ep_ip::lax::exts_error_in_packet;
use ep_ip::{Ipv6Header, Ipv6HeaderSlice};
use ep_packet::lax_ip_content::slice_ipv6_lax;
use std::alloc::AllocError;

/// IPv6 packet read by lax slicing (RFC 8200): a valid header, the extension headers up to the first invalid one, and
/// the payload. The payload length limits the payload, unless it is 0 or above the available bytes.
#[derive(Debug, PartialEq, Eq, Drop)]
pub struct LaxIpv6Slice<'a> {
    header: Ipv6HeaderSlice<'a>,
    extensions: Ipv6ExtensionsSlice<'a>,
    payload: LaxIpPayloadSlice<'a>,
    ghost follows: { extension_number extensions ≡ (ipv6_header_slice_header header).next_header.0 },
}

impl<'a> Clone for LaxIpv6Slice<'a> {
    ghost use Rattle.std.specs.Prelude.{◌≡◌, ⊤};

    ghost is_clone = { λ source copy. copy ≡ source };

    ghost is_infallible = { λ _. ⊤ };

    fn clone(&self) -> Result<LaxIpv6Slice<'a>, AllocError> {
        Ok(LaxIpv6Slice {
            header: self.header.clone()?,
            extensions: self.extensions.clone()?,
            payload: LaxIpPayloadSlice {
                incomplete: self.payload.incomplete,
                ip_number: self.payload.ip_number,
                fragmented: self.payload.fragmented,
                len_source: self.payload.len_source,
                payload: self.payload.payload,
            },
        })
    }
}

/// IPv6 packet read by lax slicing. If its payload begins with an invalid extension header, also the error and layer of
/// that header.
type WithStop<'a> = (
    LaxIpv6Slice<'a>,
    Option<(ipv6_exts::HeaderSliceError, Layer)>,
);

impl<'a> LaxIpv6Slice<'a> {
    ghost use Rattle.std.specs.Prelude.{◌≡◌, ◌+◌, ◌++◌, length, IfOk, IfErr, IsOkAnd, List, ℕ, Option, false};
    ghost use Rattle.std.specs.Option.{option_map};
    ghost use Rattle.ep_base.specs.declared.err.ipv6_exts.HeaderSliceError.{HeaderSliceError};
    ghost use Rattle.ep_ext.specs.ChainPrefixes.{chain_stop};
    ghost use Rattle.ep_ext.specs.Ipv6ExtensionSlices.{ipv6_slice_parts as extension_parts, ipv6_slice_bytes as extension_bytes};
    ghost use Rattle.ep_ip.specs.declared.ipv6_header.Ipv6Header.{Ipv6Header};
    ghost use Rattle.ep_ip.specs.Ipv6.{RefusesIpv6Header};
    ghost use Rattle.ep_ip.specs.Ipv6Slices.{ipv6_header_slice_bytes};
    ghost use Rattle.ep_ip.specs.LaxIp.{LaxIp, IsLaxIpv6};
    ghost use Rattle.ep_base.specs.IpPayload.{lax_ip_payload_of};
    ghost use Rattle.ep_lax.specs.LaxSlices.{lax_ipv6_of, lax_ipv6_slice_bytes, lax_ipv6_slice_content, lax_ipv6_slice_incomplete};
    ghost use Rattle.ep_lax.specs.LaxSlices.{lax_ipv6_slice_extensions, lax_ipv6_slice_header, lax_ipv6_slice_payload};

    /// Slices the IPv6 packet at the start of the slice. A payload length of 0 or above the available bytes is ignored;
    /// if it is above, the payload is incomplete. Returns the packet and, if its payload begins with an invalid
    /// extension header, the error and layer of that header.
    ///
    /// # Errors
    ///
    /// Returns an error if the IPv6 header is invalid or truncated.
    pub fn from_slice(slice: &'a [u8]) -> Result<WithStop<'a>, ipv6::HeaderSliceError>
        ensures ok { IfOk result (λ read. (left : List ℕ) × (stop : Option HeaderSliceError)
            × (slice.now ≡ lax_ipv6_slice_bytes read.0 ++ left)
            × IsLaxIpv6 false slice.now (lax_ipv6_of read.0 left stop) × (read.1 ≡ option_map chain_stop stop)) }
        ensures only { (lax : LaxIp Ipv6Header) → IsLaxIpv6 false slice.now lax
            → IsOkAnd result (λ read. (lax_ipv6_of read.0 lax.packet.left lax.stop ≡ lax)
            × (read.1 ≡ option_map chain_stop lax.stop)) }
        ensures err { IfErr result (RefusesIpv6Header slice.now) }
    {
        LaxIpv6Slice::read(slice, false)
    }

    /// Slices the IPv6 packet at the start of the slice, as lax slicing does. Returns it with the error and layer of
    /// the first invalid extension header, if any. `outer` is true if bytes of the enclosing layer (MACsec) are
    /// missing.
    #[inline(always)]
    pub(crate) fn read(slice: &'a [u8], outer: bool) -> Result<WithStop<'a>, ipv6::HeaderSliceError>
        ensures ok { IfOk result (λ read. (left : List ℕ) × (stop : Option HeaderSliceError)
            × (slice.now ≡ lax_ipv6_slice_bytes read.0 ++ left)
            × IsLaxIpv6 outer slice.now (lax_ipv6_of read.0 left stop) × (read.1 ≡ option_map chain_stop stop)) }
        ensures err { IfErr result (RefusesIpv6Header slice.now) }
    {
        let (header, content) = match slice_ipv6_lax(slice, outer) {
            Ok(read) => read,
            Err(error) => return Err(error),
        };
        let (extensions, ip_number, payload, refused) = Ipv6ExtensionsSlice::from_slice_lax(
            content.ip_number,
            content.payload,
        );
        let stop = exts_error_in_packet(refused, Ipv6Header::LEN, content.len_source);
        let payload = LaxIpPayloadSlice {
            ip_number,
            fragmented: extensions.is_fragmenting_payload(),
            payload,
            ..content
        };
        Ok((
            LaxIpv6Slice {
                header,
                extensions,
                payload,
            },
            stop,
        ))
    }

    /// IPv6 header of the packet (40 bytes), without its extension headers.
    #[inline]
    pub fn header(&self) -> Ipv6HeaderSlice<'a>
        ensures header { ipv6_header_slice_header result ≡ lax_ipv6_slice_header self.now }
        ensures bytes { ipv6_header_slice_bytes result ++ lax_ipv6_slice_content self.now ≡ lax_ipv6_slice_bytes self.now }
    {
        self.header.clone().unwrap()
    }

    /// Length in bytes of the IPv6 header without extension headers: 40.
    #[inline]
    pub fn header_len(&self) -> usize
        ensures { result ≡ 40 }
    {
        self.header.header_len()
    }

    /// Length in bytes of the IPv6 header and its valid extension headers together.
    #[inline]
    pub(crate) fn headers_len(&self) -> usize
        ensures { result + length (lax_ipv6_slice_payload self.now).bytes ≡ length (lax_ipv6_slice_bytes self.now) }
    {
        Ipv6Header::LEN + self.extensions.slice().len()
    }

    /// Returns an owned copy of the IPv6 header.
    #[inline]
    pub fn to_header(&self) -> Ipv6Header
        ensures { result ≡ lax_ipv6_slice_header self.now }
    {
        self.header.to_header()
    }

    /// Extension headers of the IPv6 packet in the order on the wire, up to the first invalid one.
    #[inline]
    pub fn extensions(&self) -> Ipv6ExtensionsSlice<'a>
        ensures headers { extension_parts result ≡ lax_ipv6_slice_extensions self.now }
        ensures bytes { extension_bytes result ++ (lax_ipv6_slice_payload self.now).bytes
            ≡ lax_ipv6_slice_content self.now }
        ensures number { extension_number result ≡ (lax_ipv6_slice_header self.now).next_header.0 }
    {
        self.extensions.clone().unwrap()
    }

    /// Payload of the IPv6 packet, with its IP number, whether it is a fragment, and whether bytes are missing.
    #[inline]
    pub fn payload(&self) -> &LaxIpPayloadSlice<'a>
        ensures payload { lax_ip_payload_of result.now ≡ lax_ipv6_slice_payload self.now }
        ensures incomplete { result.now.incomplete ≡ lax_ipv6_slice_incomplete self.now }
    {
        &self.payload
    }

    /// Returns true if the payload of the IPv6 packet is a fragment: a valid fragment header has its M flag set, or a
    /// fragment offset above 0.
    #[inline]
    pub fn is_payload_fragmented(&self) -> bool
        ensures { result ≡ (lax_ipv6_slice_payload self.now).fragmented }
    {
        self.payload.fragmented
    }
}
