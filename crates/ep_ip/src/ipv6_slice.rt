//! IPv6 packets (RFC 8200) as slices of their bytes, parsed without copying.

ghost use Rattle.std.specs.Prelude.{◌≡◌, ◌++◌, IfOk, IfErr, IsOkAnd, List, ℕ};
ghost use Rattle.ep_ext.specs.Ipv6ExtensionSlices.{ipv6_slice_number as extension_number};
ghost use Rattle.ep_ip.specs.Ipv6.{ipv6_header_of};

use crate::ipv6_header::Ipv6Header;
use crate::ipv6_header_slice::Ipv6HeaderSlice;
use ep_base::IpPayloadSlice;
use ep_base::err::ipv6::SliceError;
use ep_base::err::ipv6_exts;
use ep_ext::Ipv6ExtensionsSlice;
use std::alloc::AllocError;

/// IPv6 packet (RFC 8200) as slices of its bytes: header, extension headers, and payload up to the end that the payload
/// length sets, or to the end of the slice if the payload length is 0.
#[derive(Debug, PartialEq, Eq, Drop)]
pub struct Ipv6Slice<'a> {
    header: Ipv6HeaderSlice<'a>,
    extensions: Ipv6ExtensionsSlice<'a>,
    payload: IpPayloadSlice<'a>,
    ghost follows: { extension_number extensions ≡ (ipv6_header_of header.bytes.slice.now).next_header.0 },
}

impl<'a> Clone for Ipv6Slice<'a> {
    ghost use Rattle.std.specs.Prelude.{◌≡◌, ⊤};

    ghost is_clone = { λ source copy. copy ≡ source };

    ghost is_infallible = { λ _. ⊤ };

    fn clone(&self) -> Result<Ipv6Slice<'a>, AllocError> {
        Ok(Ipv6Slice {
            header: self.header.copied(),
            extensions: self.extensions.clone()?,
            payload: IpPayloadSlice {
                ip_number: self.payload.ip_number,
                fragmented: self.payload.fragmented,
                len_source: self.payload.len_source,
                payload: self.payload.payload,
            },
        })
    }
}

impl<'a> Ipv6Slice<'a> {
    ghost use Rattle.ep_base.specs.Readings.{slices};
    ghost use Rattle.ep_base.specs.IpPayload.{ip_payload_of};
    ghost use Rattle.ep_ext.specs.Ipv6ExtensionSlices.{ipv6_slice_parts as extension_parts, ipv6_slice_bytes as extension_bytes};
    ghost use Rattle.ep_ip.specs.declared.ipv6_header.Ipv6Header.{Ipv6Header};
    ghost use Rattle.ep_ip.specs.IpPackets.{IpPacket, IsIpv6, RefusesIpv6};
    ghost use Rattle.ep_ip.specs.Ipv6Slices.{ipv6_header_slice_header, ipv6_header_slice_bytes};
    ghost use Rattle.ep_ip.specs.Ipv6Slices.{ipv6_slice_bytes, ipv6_slice_header, ipv6_slice_extensions};
    ghost use Rattle.ep_ip.specs.Ipv6Slices.{ipv6_slice_payload, ipv6_slice_content, ipv6_slice_packet};
    ghost use Rattle.ep_ip.specs.Ipv6Slices.{FollowsIpv6Header};

    /// Parses the IPv6 packet at the start of the slice: header, extension headers and payload. Bytes after the end
    /// that the payload length sets are ignored; if the payload length is 0, the packet extends to the end of the
    /// slice.
    pub fn from_slice(slice: &'a [u8]) -> Result<Ipv6Slice<'a>, SliceError>
        ensures ok { IfOk result (λ shown. (left : List ℕ) × (slice.now ≡ ipv6_slice_bytes shown ++ left)
            × IsIpv6 slices slice.now (ipv6_slice_packet shown left)) }
        ensures only { (packet : IpPacket Ipv6Header) → IsIpv6 slices slice.now packet
            → IsOkAnd result (λ shown. ipv6_slice_packet shown packet.left ≡ packet) }
        ensures err { IfErr result (RefusesIpv6 slices slice.now) }
        ensures number { IfOk result (λ shown. FollowsIpv6Header shown) }
    {
        let (header, content, len_source) = Ipv6HeaderSlice::from_packet_slice(slice)?;
        let (extensions, ip_number, payload) = match Ipv6ExtensionsSlice::from_slice(
            header.next_header(),
            content,
        ) {
            Ok(read) => read,
            Err(ipv6_exts::HeaderSliceError::Len(error)) => {
                return Err(SliceError::Len(error.after_header(Ipv6Header::LEN, len_source)));
            }
            Err(ipv6_exts::HeaderSliceError::Content(error)) => {
                return Err(SliceError::Exts(error));
            }
        };
        let payload = IpPayloadSlice {
            ip_number,
            fragmented: extensions.is_fragmenting_payload(),
            len_source,
            payload,
        };
        Ok(Ipv6Slice {
            header,
            extensions,
            payload,
        })
    }

    /// Header of the IPv6 packet (40 bytes), without the extension headers.
    #[inline]
    pub fn header(&self) -> Ipv6HeaderSlice<'a>
        ensures header { ipv6_header_slice_header result ≡ ipv6_slice_header self.now }
        ensures bytes { ipv6_header_slice_bytes result ++ ipv6_slice_content self.now ≡ ipv6_slice_bytes self.now }
    {
        self.header.copied()
    }

    /// Length of the IPv6 header in bytes; always 40, because extension headers are not counted.
    #[inline]
    pub fn header_len(&self) -> usize
        ensures { result ≡ 40 }
    {
        self.header.header_len()
    }

    /// Decodes the header of the IPv6 packet, without the extension headers, into an owned header.
    #[inline]
    pub fn to_header(&self) -> Ipv6Header
        ensures { result ≡ ipv6_slice_header self.now }
    {
        self.header.to_header()
    }

    /// Extension headers of the IPv6 packet, in their order on the wire.
    #[inline]
    pub fn extensions(&self) -> Ipv6ExtensionsSlice<'a>
        ensures headers { extension_parts result ≡ ipv6_slice_extensions self.now }
        ensures bytes { extension_bytes result ++ (ipv6_slice_payload self.now).bytes ≡ ipv6_slice_content self.now }
        ensures number { extension_number result ≡ (ipv6_slice_header self.now).next_header.0 }
    {
        self.extensions.clone().unwrap()
    }

    /// Payload of the IPv6 packet after its extension headers: its bytes, its protocol number, whether it is a
    /// fragment, and whether the payload length field or the end of the slice limits it.
    #[inline]
    pub fn payload(&self) -> &IpPayloadSlice<'a>
        ensures { ip_payload_of result.now ≡ ipv6_slice_payload self.now }
    {
        &self.payload
    }

    /// Returns true if a fragment header of the IPv6 packet states that its payload is only a part of a longer payload.
    #[inline]
    pub fn is_payload_fragmented(&self) -> bool
        ensures { result ≡ (ipv6_slice_payload self.now).fragmented }
    {
        self.payload.fragmented
    }
}
