//! IPv4 packets (RFC 791) as slices of their bytes, parsed without copying.

ghost use Rattle.std.specs.Prelude.{◌≡◌, ◌++◌, IfOk, IfErr, IsOkAnd, List, ℕ};
ghost use Rattle.ep_base.specs.Tables.{parts_of};
ghost use Rattle.ep_ip.specs.Ipv4.{IsIpv4Packet, RefusesIpv4Packet};
ghost use Rattle.ep_ip.specs.Ipv4Slices.{ipv4_header_slice_header, ipv4_header_slice_bytes};

use crate::ipv4_header::Ipv4Header;
use crate::ipv4_header_slice::Ipv4HeaderSlice;
use ep_base::err::ipv4::{HeaderSliceError, SliceError};
use ep_base::err::{Layer, LenError, ip_auth};
use ep_base::{IpPayloadSlice, LenSource};
use ep_ext::Ipv4ExtensionsSlice;

/// IPv4 packet (RFC 791) as slices of its bytes: header, authentication header if present, and payload up to the end
/// that the total length sets.
#[derive(Clone, Debug, PartialEq, Eq, Drop)]
pub struct Ipv4Slice<'a> {
    header: Ipv4HeaderSlice<'a>,
    extensions: Ipv4ExtensionsSlice<'a>,
    payload: IpPayloadSlice<'a>,
}

impl<'a> Ipv4Slice<'a> {
    ghost use Rattle.ep_base.specs.Readings.{slices};
    ghost use Rattle.ep_base.specs.IpPayload.{ip_payload_of};
    ghost use Rattle.ep_ext.specs.Ipv4Chains.{ipv4_slice_parts as extension_parts, ipv4_slice_bytes as extension_bytes};
    ghost use Rattle.ep_ip.specs.declared.ipv4_header.Ipv4Header.{Ipv4Header};
    ghost use Rattle.ep_ip.specs.IpPackets.{IpPacket, IsIpv4, RefusesIpv4};
    ghost use Rattle.ep_ip.specs.Ipv4.{ipv4_header_len};
    ghost use Rattle.ep_ip.specs.Ipv4Slices.{ipv4_slice_bytes, ipv4_slice_header, ipv4_slice_extensions};
    ghost use Rattle.ep_ip.specs.Ipv4Slices.{ipv4_slice_payload, ipv4_slice_content, ipv4_slice_packet};

    /// Parses the IPv4 packet at the start of the slice: header, authentication header if present, and payload. Bytes
    /// after the end that the total length sets are ignored.
    #[inline(always)]
    pub fn from_slice(slice: &'a [u8]) -> Result<Ipv4Slice<'a>, SliceError>
        ensures ok { IfOk result (λ shown. (left : List ℕ) × (slice.now ≡ ipv4_slice_bytes shown ++ left)
            × IsIpv4 slices slice.now (ipv4_slice_packet shown left)) }
        ensures only { (packet : IpPacket Ipv4Header) → IsIpv4 slices slice.now packet
            → IsOkAnd result (λ shown. ipv4_slice_packet shown packet.left ≡ packet) }
        ensures err { IfErr result (RefusesIpv4 slices slice.now) }
    {
        let (header, content) = parse_limited(slice)?;
        let (extensions, ip_number, payload) = match Ipv4ExtensionsSlice::from_slice(
            header.protocol(),
            content,
        ) {
            Ok(read) => read,
            Err(ip_auth::HeaderSliceError::Len(error)) => {
                return Err(SliceError::Len(error.after_header(
                    header.header_len(),
                    LenSource::Ipv4HeaderTotalLen,
                )));
            }
            Err(ip_auth::HeaderSliceError::Content(error)) => {
                return Err(SliceError::Exts(error));
            }
        };
        let payload = IpPayloadSlice {
            ip_number,
            fragmented: header.is_fragmenting_payload(),
            len_source: LenSource::Ipv4HeaderTotalLen,
            payload,
        };
        Ok(Ipv4Slice {
            header,
            extensions,
            payload,
        })
    }

    /// Header of the IPv4 packet with its options, without the authentication header.
    #[inline]
    pub fn header(&self) -> Ipv4HeaderSlice<'a>
        ensures header { ipv4_header_slice_header result ≡ ipv4_slice_header self.now }
        ensures bytes { ipv4_header_slice_bytes result ++ ipv4_slice_content self.now ≡ ipv4_slice_bytes self.now }
    {
        self.header.copied()
    }

    /// Length of the IPv4 header with its options in bytes, 20 to 60; an authentication header is not counted.
    #[inline]
    pub fn header_len(&self) -> usize
        ensures { result ≡ ipv4_header_len (ipv4_slice_header self.now) }
    {
        self.header.header_len()
    }

    /// Decodes the header of the IPv4 packet into an owned header.
    #[inline]
    pub fn to_header(&self) -> Ipv4Header
        ensures { result ≡ ipv4_slice_header self.now }
    {
        self.header.to_header()
    }

    /// Extension headers of the IPv4 packet: the authentication header (RFC 4302), or none.
    #[inline]
    pub fn extensions(&self) -> Ipv4ExtensionsSlice<'a>
        ensures headers { extension_parts result ≡ ipv4_slice_extensions self.now }
        ensures bytes { extension_bytes result ++ (ipv4_slice_payload self.now).bytes ≡ ipv4_slice_content self.now }
    {
        self.extensions.clone().unwrap()
    }

    /// Payload of the IPv4 packet after the authentication header (if present), up to the end that the total length
    /// sets: its bytes, its protocol number, and whether it is a fragment.
    #[inline]
    pub fn payload(&self) -> &IpPayloadSlice<'a>
        ensures { ip_payload_of result.now ≡ ipv4_slice_payload self.now }
    {
        &self.payload
    }

    /// Returns true if the IPv4 packet is a fragment, so that its payload is only a part of a longer payload.
    #[inline]
    pub fn is_payload_fragmented(&self) -> bool
        ensures { result ≡ (ipv4_slice_payload self.now).fragmented }
    {
        self.payload.fragmented
    }
}

/// Parses the IPv4 header at the start of the slice. Returns it with the bytes after it, up to the end that the total
/// length sets; extension headers are not parsed.
fn parse_limited<'a>(slice: &'a [u8]) -> Result<(Ipv4HeaderSlice<'a>, &'a [u8]), SliceError>
    ensures ok { IfOk result (λ read. (left : List ℕ)
        × (slice.now ≡ (ipv4_header_slice_bytes read.0 ++ read.1.now) ++ left)
        × IsIpv4Packet slice.now (parts_of (ipv4_header_slice_header read.0) read.1.now left)) }
    ensures err { IfErr result (RefusesIpv4Packet slice.now) }
{
    let header = match Ipv4HeaderSlice::from_slice(slice) {
        Ok(header) => header,
        Err(HeaderSliceError::Len(error)) => return Err(SliceError::Len(error)),
        Err(HeaderSliceError::Content(error)) => return Err(SliceError::Header(error)),
    };
    let header_len = header.header_len();
    let total_len = header.total_len() as usize;
    if total_len < header_len {
        return Err(SliceError::Len(LenError::at_start(
            header_len,
            total_len,
            LenSource::Ipv4HeaderTotalLen,
            Layer::Ipv4Packet,
        )));
    }
    if slice.len() < total_len {
        return Err(SliceError::Len(LenError::at_start(
            total_len,
            slice.len(),
            LenSource::Slice,
            Layer::Ipv4Packet,
        )));
    }
    Ok((header, &slice[header_len..total_len]))
}
