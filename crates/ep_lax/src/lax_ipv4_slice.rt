//! IPv4 packet in a slice, as lax slicing reads it: bytes of the payload may be missing (RFC 791).

use ep_base::LaxIpPayloadSlice;
use ep_base::err::{ip_auth, ipv4};
use ep_ext::Ipv4ExtensionsSlice;
use ep_ip::lax::auth_error_in_packet;
use ep_ip::{Ipv4Header, Ipv4HeaderSlice};
use ep_packet::lax_ip_content::slice_ipv4_lax;

/// IPv4 packet read by lax slicing (RFC 791): a valid header, a valid authentication header, if present, and the
/// payload. The total length limits the payload, unless it is below the header length or above the available bytes.
#[derive(Clone, Debug, PartialEq, Eq, Drop)]
pub struct LaxIpv4Slice<'a> {
    header: Ipv4HeaderSlice<'a>,
    extensions: Ipv4ExtensionsSlice<'a>,
    payload: LaxIpPayloadSlice<'a>,
}

impl<'a> LaxIpv4Slice<'a> {
    ghost use Rattle.std.specs.Prelude.{◌≡◌, ◌+◌, ◌++◌, length, IfOk, IfErr, IsOkAnd, List, ℕ, false};
    ghost use Rattle.ep_ext.specs.Ipv4Chains.{ipv4_slice_parts as extension_parts, ipv4_slice_bytes as extension_bytes};
    ghost use Rattle.ep_ip.specs.declared.ipv4_header.Ipv4Header.{Ipv4Header};
    ghost use Rattle.ep_ip.specs.Ipv4.{RefusesIpv4Header, ipv4_header_len};
    ghost use Rattle.ep_ip.specs.Ipv4Slices.{ipv4_header_slice_header, ipv4_header_slice_bytes};
    ghost use Rattle.ep_ip.specs.LaxIp.{LaxIp, IsLaxIpv4};
    ghost use Rattle.ep_base.specs.IpPayload.{lax_ip_payload_of};
    ghost use Rattle.ep_lax.specs.LaxSlices.{lax_ipv4_of, lax_ipv4_slice_bytes, lax_ipv4_slice_content, lax_ipv4_slice_incomplete};
    ghost use Rattle.ep_lax.specs.LaxSlices.{lax_ipv4_slice_extensions, lax_ipv4_slice_header, lax_ipv4_slice_payload};

    /// Slices the IPv4 packet at the start of the slice. A total length below the header length or above the available
    /// bytes is ignored; if it is above, the payload is incomplete. Returns the packet and, if its payload begins with
    /// an invalid authentication header, the error of that header.
    ///
    /// # Errors
    ///
    /// Returns an error if the IPv4 header is invalid or truncated.
    pub fn from_slice(
        slice: &'a [u8],
    ) -> Result<(LaxIpv4Slice<'a>, Option<ip_auth::HeaderSliceError>), ipv4::HeaderSliceError>
        ensures ok { IfOk result (λ read. (left : List ℕ) × (slice.now ≡ lax_ipv4_slice_bytes read.0 ++ left)
            × IsLaxIpv4 false slice.now (lax_ipv4_of read.0 left read.1)) }
        ensures only { (lax : LaxIp Ipv4Header) → IsLaxIpv4 false slice.now lax
            → IsOkAnd result (λ read. lax_ipv4_of read.0 lax.packet.left read.1 ≡ lax) }
        ensures err { IfErr result (RefusesIpv4Header slice.now) }
    {
        LaxIpv4Slice::read(slice, false)
    }

    /// Slices the IPv4 packet at the start of the slice, as lax slicing does. Returns it with the error of an invalid
    /// authentication header, if any. `outer` is true if bytes of the enclosing layer (MACsec) are missing.
    #[inline(always)]
    pub(crate) fn read(
        slice: &'a [u8],
        outer: bool,
    ) -> Result<(LaxIpv4Slice<'a>, Option<ip_auth::HeaderSliceError>), ipv4::HeaderSliceError>
        ensures ok { IfOk result (λ read. (left : List ℕ) × (slice.now ≡ lax_ipv4_slice_bytes read.0 ++ left)
            × IsLaxIpv4 outer slice.now (lax_ipv4_of read.0 left read.1)) }
        ensures err { IfErr result (RefusesIpv4Header slice.now) }
    {
        let (header, content) = match slice_ipv4_lax(slice, outer) {
            Ok(read) => read,
            Err(error) => return Err(error),
        };
        let (extensions, ip_number, payload, refused) = Ipv4ExtensionsSlice::from_slice_lax(
            content.ip_number,
            content.payload,
        );
        let stop = auth_error_in_packet(refused, header.header_len(), content.len_source);
        let payload = LaxIpPayloadSlice {
            ip_number,
            payload,
            ..content
        };
        Ok((
            LaxIpv4Slice {
                header,
                extensions,
                payload,
            },
            stop,
        ))
    }

    /// IPv4 header of the packet, with its options.
    #[inline]
    pub fn header(&self) -> Ipv4HeaderSlice<'a>
        ensures header { ipv4_header_slice_header result ≡ lax_ipv4_slice_header self.now }
        ensures bytes { ipv4_header_slice_bytes result ++ lax_ipv4_slice_content self.now ≡ lax_ipv4_slice_bytes self.now }
    {
        self.header.clone().unwrap()
    }

    /// Length in bytes of the IPv4 header with its options: 20 to 60. The authentication header is not counted.
    #[inline]
    pub fn header_len(&self) -> usize
        ensures { result ≡ ipv4_header_len (lax_ipv4_slice_header self.now) }
    {
        self.header.header_len()
    }

    /// Length in bytes of the IPv4 header and the authentication header, if present, together.
    #[inline]
    pub(crate) fn headers_len(&self) -> usize
        ensures { result + length (lax_ipv4_slice_payload self.now).bytes ≡ length (lax_ipv4_slice_bytes self.now) }
    {
        let header_len = self.header.header_len();
        match &self.extensions.auth {
            Some(header) => header_len + header.slice().len(),
            None => header_len,
        }
    }

    /// Returns an owned copy of the IPv4 header.
    #[inline]
    pub fn to_header(&self) -> Ipv4Header
        ensures { result ≡ lax_ipv4_slice_header self.now }
    {
        self.header.to_header()
    }

    /// IPv4 extension headers of the packet: the authentication header, if the protocol field refers to one and it is
    /// valid, else none.
    #[inline]
    pub fn extensions(&self) -> Ipv4ExtensionsSlice<'a>
        ensures headers { extension_parts result ≡ lax_ipv4_slice_extensions self.now }
        ensures bytes { extension_bytes result ++ (lax_ipv4_slice_payload self.now).bytes
            ≡ lax_ipv4_slice_content self.now }
    {
        self.extensions.clone().unwrap()
    }

    /// Payload of the IPv4 packet, with its IP number, whether it is a fragment, and whether bytes are missing.
    #[inline]
    pub fn payload(&self) -> &LaxIpPayloadSlice<'a>
        ensures payload { lax_ip_payload_of result.now ≡ lax_ipv4_slice_payload self.now }
        ensures incomplete { result.now.incomplete ≡ lax_ipv4_slice_incomplete self.now }
    {
        &self.payload
    }

    /// Returns true if the payload of the IPv4 packet is a fragment: more fragments follow, or the fragment offset is
    /// above 0.
    #[inline]
    pub fn is_payload_fragmented(&self) -> bool
        ensures { result ≡ (lax_ipv4_slice_payload self.now).fragmented }
    {
        self.payload.fragmented
    }
}
