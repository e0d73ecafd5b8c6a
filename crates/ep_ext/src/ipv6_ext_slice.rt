//! One IPv6 extension header in a slice, with its type (RFC 8200, 4).

ghost use Rattle.std.specs.Prelude.{◌≡◌, ◌+◌, ◌<◌, ◌^◌, ◌++◌, List, ℕ, true, IfOk, IfErr};
ghost use Rattle.ep_base.specs.Tables.{Refuses, rows_as};
ghost use Rattle.ep_base.specs.declared.err.ipv6_exts.HeaderSliceError.TheVariants as header_error;
ghost use Rattle.ep_ext.specs.IpAuth.{IsIpAuth, ip_auth_rows};
ghost use Rattle.ep_ext.specs.IpAuthSlices.{ip_auth_slice_bytes, ip_auth_slice_header};
ghost use Rattle.ep_ext.specs.FragmentHeader.{IsFragmentHeader, fragment_header_rows};
ghost use Rattle.ep_ext.specs.FragmentHeaderSlices.{fragment_slice_bytes, fragment_slice_header};
ghost use Rattle.ep_ext.specs.RawExtension.{IsRawExtension, raw_extension_rows};
ghost use Rattle.ep_ext.specs.RawExtensionSlices.{raw_extension_slice_bytes, raw_extension_slice_header};
ghost use Rattle.ep_ext.specs.ExtensionParts.{IsExtensionPart, RefusesExtensionPart, auth_refusal, part_fragments, part_next};
ghost use Rattle.ep_ext.specs.Chains.{is_ipv6_extension, with_offset_in, offset_of};
ghost use Rattle.ep_ext.specs.Ipv6ExtensionSlices.{extension_slice_bytes, extension_slice_part};

use crate::ip_auth_header_slice::IpAuthHeaderSlice;
use crate::ipv6_fragment_header_slice::Ipv6FragmentHeaderSlice;
use crate::ipv6_raw_ext_header_slice::Ipv6RawExtHeaderSlice;
use ep_base::err::ip_auth;
use ep_base::err::ipv6_exts::{HeaderError, HeaderSliceError};
use ep_base::{IpNumber, ip_number};

/// One IPv6 extension header in a slice, with one variant for each type of header (RFC 8200, 4).
#[derive(Clone, Debug, PartialEq, Eq, Drop)]
pub enum Ipv6ExtensionSlice<'a> {
    /// IPv6 Hop-by-Hop Options header (IP number 0).
    HopByHop(Ipv6RawExtHeaderSlice<'a>),
    /// IPv6 Routing header (IP number 43).
    Routing(Ipv6RawExtHeaderSlice<'a>),
    /// IPv6 Fragment header (IP number 44).
    Fragment(Ipv6FragmentHeaderSlice<'a>),
    /// IPv6 Destination Options header (IP number 60).
    DestinationOptions(Ipv6RawExtHeaderSlice<'a>),
    /// IP authentication header (IP number 51).
    Authentication(IpAuthHeaderSlice<'a>),
}

impl<'a> Ipv6ExtensionSlice<'a> {
    /// Parses the one IPv6 extension header at the start of the slice. Its type is given by its IP number `number`.
    pub(crate) fn read(
        number: IpNumber,
        slice: &'a [u8],
    ) -> Result<Ipv6ExtensionSlice<'a>, HeaderSliceError>
        requires { is_ipv6_extension number.0 ≡ true }
        ensures ok { IfOk result (λ part. (rest : List ℕ) × (slice.now ≡ extension_slice_bytes part ++ rest)
            × IsExtensionPart number.0 slice.now (extension_slice_part part) rest) }
        ensures err { IfErr result (RefusesExtensionPart number.0 slice.now) }
    {
        if number == ip_number::AUTHENTICATION_HEADER {
            return Ok(Ipv6ExtensionSlice::Authentication(read_authentication(slice)?));
        }
        if number == ip_number::IPV6_FRAGMENTATION_HEADER {
            return Ok(Ipv6ExtensionSlice::Fragment(read_fragment(slice)?));
        }
        let header = read_raw(slice)?;
        if number == ip_number::IPV6_HEADER_HOP_BY_HOP {
            return Ok(Ipv6ExtensionSlice::HopByHop(header));
        }
        if number == ip_number::IPV6_ROUTE_HEADER {
            return Ok(Ipv6ExtensionSlice::Routing(header));
        }
        Ok(Ipv6ExtensionSlice::DestinationOptions(header))
    }

    /// All bytes of this one IPv6 extension header.
    #[inline]
    pub(crate) fn slice(&self) -> &'a [u8]
        ensures { result.now ≡ extension_slice_bytes self.now }
    {
        match self {
            Ipv6ExtensionSlice::HopByHop(header) => header.slice(),
            Ipv6ExtensionSlice::Routing(header) => header.slice(),
            Ipv6ExtensionSlice::Fragment(header) => header.slice(),
            Ipv6ExtensionSlice::DestinationOptions(header) => header.slice(),
            Ipv6ExtensionSlice::Authentication(header) => header.slice(),
        }
    }

    /// Next header field of this IPv6 extension header, byte 0: the IP number of the header or payload after it.
    #[inline]
    pub(crate) fn next_header(&self) -> IpNumber
        ensures { result.0 ≡ part_next (extension_slice_part self.now) }
    {
        match self {
            Ipv6ExtensionSlice::HopByHop(header) => header.next_header(),
            Ipv6ExtensionSlice::Routing(header) => header.next_header(),
            Ipv6ExtensionSlice::Fragment(header) => header.next_header(),
            Ipv6ExtensionSlice::DestinationOptions(header) => header.next_header(),
            Ipv6ExtensionSlice::Authentication(header) => header.next_header(),
        }
    }

    /// Returns true if this IPv6 extension header is a Fragment header of a fragmented packet: its M flag (more
    /// fragments) is set, or its fragment offset is above 0.
    #[inline]
    pub(crate) fn is_fragmenting_payload(&self) -> bool
        ensures { result ≡ part_fragments (extension_slice_part self.now) }
    {
        match self {
            Ipv6ExtensionSlice::Fragment(header) => header.is_fragmenting_payload(),
            _ => false,
        }
    }
}

/// Returns true if the IP number is that of an IPv6 extension header: 0, 43, 44, 51 or 60.
#[inline]
pub(crate) fn is_extension(number: IpNumber) -> bool
    ensures { result ≡ is_ipv6_extension number.0 }
{
    number == ip_number::IPV6_HEADER_HOP_BY_HOP
        || number == ip_number::IPV6_ROUTE_HEADER
        || number == ip_number::IPV6_FRAGMENTATION_HEADER
        || number == ip_number::AUTHENTICATION_HEADER
        || number == ip_number::IPV6_DESTINATION_OPTIONS
}

/// Adds `offset` (bytes) to the layer start offset that a length error contains. Returns other errors unchanged.
#[inline]
pub(crate) fn with_offset(error: HeaderSliceError, offset: usize) -> HeaderSliceError
    requires { offset_of error + offset < 2 ^ 64 }
    ensures { result ≡ with_offset_in offset error }
{
    match error {
        HeaderSliceError::Len(error) => HeaderSliceError::Len(error.add_offset(offset)),
        HeaderSliceError::Content(error) => HeaderSliceError::Content(error),
    }
}

/// Parses the IP authentication header at the start of the slice.
fn read_authentication<'a>(slice: &'a [u8]) -> Result<IpAuthHeaderSlice<'a>, HeaderSliceError>
    ensures ok { IfOk result (λ header. (rest : List ℕ) × (slice.now ≡ ip_auth_slice_bytes header ++ rest)
        × IsIpAuth slice.now (ip_auth_slice_header header, rest)) }
    ensures err { IfErr result (Refuses (rows_as auth_refusal (ip_auth_rows slice.now))) }
{
    match IpAuthHeaderSlice::from_slice(slice) {
        Ok(header) => Ok(header),
        Err(ip_auth::HeaderSliceError::Len(error)) => Err(HeaderSliceError::Len(error)),
        Err(ip_auth::HeaderSliceError::Content(error)) => {
            Err(HeaderSliceError::Content(HeaderError::IpAuth(error)))
        }
    }
}

/// Parses the IPv6 Fragment header at the start of the slice.
fn read_fragment<'a>(slice: &'a [u8]) -> Result<Ipv6FragmentHeaderSlice<'a>, HeaderSliceError>
    ensures ok { IfOk result (λ header. (rest : List ℕ) × (slice.now ≡ fragment_slice_bytes header ++ rest)
        × IsFragmentHeader slice.now (fragment_slice_header header, rest)) }
    ensures err { IfErr result (Refuses (rows_as header_error.Len (fragment_header_rows slice.now))) }
{
    match Ipv6FragmentHeaderSlice::from_slice(slice) {
        Ok(header) => Ok(header),
        Err(error) => Err(HeaderSliceError::Len(error)),
    }
}

/// Parses the IPv6 Hop-by-Hop Options, Destination Options or Routing header at the start of the slice.
fn read_raw<'a>(slice: &'a [u8]) -> Result<Ipv6RawExtHeaderSlice<'a>, HeaderSliceError>
    ensures ok { IfOk result (λ header. (rest : List ℕ) × (slice.now ≡ raw_extension_slice_bytes header ++ rest)
        × IsRawExtension slice.now (raw_extension_slice_header header, rest)) }
    ensures err { IfErr result (Refuses (rows_as header_error.Len (raw_extension_rows slice.now))) }
{
    match Ipv6RawExtHeaderSlice::from_slice(slice) {
        Ok(header) => Ok(header),
        Err(error) => Err(HeaderSliceError::Len(error)),
    }
}
