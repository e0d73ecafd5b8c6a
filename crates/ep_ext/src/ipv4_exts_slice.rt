//! Extension headers of IPv4 in a slice: an authentication header, or none.

use crate::ip_auth_header_slice::IpAuthHeaderSlice;
use ep_base::err::ip_auth::HeaderSliceError;
use ep_base::{IpNumber, ip_number};

/// Extension headers of an IPv4 packet in a slice: an authentication header (RFC 4302), or none.
#[derive(Clone, Debug, PartialEq, Eq, Default, Drop)]
pub struct Ipv4ExtensionsSlice<'a> {
    /// Authentication header after an IPv4 header, if present.
    pub auth: Option<IpAuthHeaderSlice<'a>>,
}

impl<'a> Ipv4ExtensionsSlice<'a> {
    ghost use Rattle.std.specs.Prelude.{◌≡◌, ◌++◌, IfOk, IfErr, IsOkAnd, Option};
    ghost use Rattle.std.specs.Option.{option_map};
    ghost use Rattle.ep_base.specs.declared.err.ip_auth.HeaderSliceError.{HeaderSliceError};
    ghost use Rattle.ep_base.specs.Readings.{slices};
    ghost use Rattle.ep_ext.specs.ExtensionParts.{auth_refusal};
    ghost use Rattle.ep_ext.specs.Chains.{ipv4, ExtensionChain, IsExtensionChain, RefusesExtensionChain, chain_of};
    ghost use Rattle.ep_ext.specs.ChainPrefixes.{IsLaxChain};
    ghost use Rattle.ep_ext.specs.Ipv4Chains.{ipv4_slice_parts, ipv4_slice_bytes};

    /// Parses the extension headers of IPv4 at the start of the slice: an authentication header if `number` (the
    /// protocol field of the IPv4 header) is 51, else none. Returns the headers, the IP number of the payload, and the
    /// bytes after the headers.
    #[inline(always)]
    pub fn from_slice(
        number: IpNumber,
        slice: &'a [u8],
    ) -> Result<(Ipv4ExtensionsSlice<'a>, IpNumber, &'a [u8]), HeaderSliceError>
        ensures ok { IfOk result (λ read. (slice.now ≡ ipv4_slice_bytes read.0 ++ read.2.now)
            × IsExtensionChain ipv4 slices number.0 slice.now
            (chain_of (ipv4_slice_parts read.0) read.1.0 read.2.now)) }
        ensures only { (chain : ExtensionChain) → IsExtensionChain ipv4 slices number.0 slice.now chain
            → IsOkAnd result (λ read. chain_of (ipv4_slice_parts read.0) read.1.0 read.2.now ≡ chain) }
        ensures err { IfErr result (λ error. RefusesExtensionChain ipv4 slices number.0 slice.now
            (auth_refusal error)) }
    {
        if number != ip_number::AUTHENTICATION_HEADER {
            return Ok((Ipv4ExtensionsSlice { auth: None }, number, slice));
        }
        let header = IpAuthHeaderSlice::from_slice(slice)?;
        let next_header = header.next_header();
        let rest = &slice[header.header_len()..];
        Ok((
            Ipv4ExtensionsSlice { auth: Some(header) },
            next_header,
            rest,
        ))
    }
    /// Parses the authentication header at the start of the slice, if `number` (the protocol field of the IPv4 header)
    /// is 51. Returns the headers, the IP number of the payload, the bytes after the headers, and `None`. If the header
    /// is invalid or truncated, returns no headers, `number`, the whole slice and the error.
    #[inline(always)]
    pub fn from_slice_lax(
        number: IpNumber,
        slice: &'a [u8],
    ) -> (
        Ipv4ExtensionsSlice<'a>,
        IpNumber,
        &'a [u8],
        Option<HeaderSliceError>,
    )
        ensures bytes { slice.now ≡ ipv4_slice_bytes result.0 ++ result.2.now }
        ensures chain { IsLaxChain ipv4 number.0 slice.now
            (chain_of (ipv4_slice_parts result.0) result.1.0 result.2.now) (option_map auth_refusal result.3) }
        ensures only { (chain : ExtensionChain) (stop : Option HeaderSliceError)
            → IsLaxChain ipv4 number.0 slice.now chain (option_map auth_refusal stop)
            → (chain_of (ipv4_slice_parts result.0) result.1.0 result.2.now ≡ chain) × (result.3 ≡ stop) }
    {
        if number != ip_number::AUTHENTICATION_HEADER {
            return (Ipv4ExtensionsSlice { auth: None }, number, slice, None);
        }
        match IpAuthHeaderSlice::from_slice(slice) {
            Ok(header) => {
                let next_header = header.next_header();
                let rest = &slice[header.header_len()..];
                (
                    Ipv4ExtensionsSlice { auth: Some(header) },
                    next_header,
                    rest,
                    None,
                )
            }
            Err(error) => (
                Ipv4ExtensionsSlice { auth: None },
                number,
                slice,
                Some(error),
            ),
        }
    }
}
