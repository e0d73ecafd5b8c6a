//! Extension headers of an IPv6 packet in a slice, without a copy (RFC 8200, 4).

ghost use Rattle.std.specs.Prelude.{◌≡◌};
ghost use Rattle.ep_ext.specs.Chains.{chain_fragments};
ghost use Rattle.ep_ext.specs.ChainPrefixes.{chain_stop};
ghost use Rattle.ep_ext.specs.ShownChains.{shown_parts};

use crate::ipv6_ext_slice::{Ipv6ExtensionSlice, is_extension, with_offset};
use crate::ipv6_exts_slice_iter::Ipv6ExtensionSliceIter;
use ep_base::err::Layer;
use ep_base::err::ipv6_exts::{HeaderError, HeaderSliceError};
use ep_base::{IpNumber, ip_number};

/// Bytes of a parsed chain of IPv6 extension headers, with the IP number of the first header (`first`) and whether a
/// fragment header of the chain states that the packet carries a fragment (`fragmented`).
#[derive(Clone, Copy, Debug, PartialEq, Eq)]
pub(crate) struct ParsedExtensions<'a> {
    pub(crate) first: IpNumber,
    pub(crate) slice: &'a [u8],
    pub(crate) fragmented: bool,
    pub(crate) ghost fragments: { fragmented ≡ chain_fragments (shown_parts first.0 slice.now) },
}

/// Extension headers of an IPv6 packet in a slice (RFC 8200, 4): a valid chain of headers, in which each type except
/// Hop-by-Hop Options may occur more than once.
#[derive(Clone, Debug, PartialEq, Eq, Drop)]
pub struct Ipv6ExtensionsSlice<'a> {
    shown: ParsedExtensions<'a>,
}

impl<'a> Ipv6ExtensionsSlice<'a> {
    ghost use Rattle.std.specs.Prelude.{◌≡◌, ◌≤◌, ◌-◌, ◌++◌, IfOk, IfErr, IsOkAnd, Option, length, take};
    ghost use Rattle.std.specs.Option.{option_map};
    ghost use Rattle.ep_base.specs.declared.err.ipv6_exts.HeaderSliceError.{HeaderSliceError};
    ghost use Rattle.ep_base.specs.Readings.{slices};
    ghost use Rattle.ep_ext.specs.Chains.{ipv6, ExtensionChain, IsExtensionChain, RefusesExtensionChain, chain_of, chain_fragments};
    ghost use Rattle.ep_ext.specs.ChainPrefixes.{IsLaxChain, chain_stop};
    ghost use Rattle.ep_ext.specs.Ipv6ExtensionSlices.{ipv6_slice_parts, ipv6_slice_bytes, ipv6_slice_number};
    ghost use Rattle.ep_ext.specs.ShownChains.{shown_parts};

    /// Parses the chain of IPv6 extension headers at the start of the slice, without a copy; `number` is the next
    /// header field of the IPv6 header. Returns the headers, the IP number of the payload, and the bytes after the
    /// headers.
    pub fn from_slice(
        number: IpNumber,
        slice: &'a [u8],
    ) -> Result<(Ipv6ExtensionsSlice<'a>, IpNumber, &'a [u8]), HeaderSliceError>
        ensures ok { IfOk result (λ read. (slice.now ≡ ipv6_slice_bytes read.0 ++ read.2.now)
            × IsExtensionChain ipv6 slices number.0 slice.now
            (chain_of (ipv6_slice_parts read.0) read.1.0 read.2.now)) }
        ensures only { (chain : ExtensionChain) → IsExtensionChain ipv6 slices number.0 slice.now chain
            → IsOkAnd result (λ read. chain_of (ipv6_slice_parts read.0) read.1.0 read.2.now ≡ chain) }
        ensures err { IfErr result (RefusesExtensionChain ipv6 slices number.0 slice.now) }
        ensures number { IfOk result (λ read. ipv6_slice_number read.0 ≡ number.0) }
    {
        let mut next = number;
        let mut rest = slice;
        let mut fragmented = false;
        while is_extension(next) {
            let offset = slice.len() - rest.len();
            if next == ip_number::IPV6_HEADER_HOP_BY_HOP && offset > 0 {
                return Err(HeaderSliceError::Content(HeaderError::HopByHopNotAtStart));
            }
            let part = match Ipv6ExtensionSlice::read(next, rest) {
                Ok(part) => part,
                Err(error) => return Err(with_offset(error, offset)),
            };
            fragmented = fragmented | part.is_fragmenting_payload();
            next = part.next_header();
            rest = &rest[part.slice().len()..];
        }
        let shown = ParsedExtensions {
            first: number,
            slice: &slice[..slice.len() - rest.len()],
            fragmented,
        };
        Ok((Ipv6ExtensionsSlice { shown }, next, rest))
    }

    /// Parses the chain of IPv6 extension headers at the start of the slice, up to the first invalid or truncated one;
    /// `number` is the next header field of the IPv6 header. Returns the valid headers, the IP number of the remaining
    /// bytes, the remaining bytes, and `None`. If a header is invalid or truncated, the remaining bytes begin with that
    /// header, and the fourth value is its error and layer; an offset in the error counts from the start of the slice.
    pub fn from_slice_lax(
        number: IpNumber,
        slice: &'a [u8],
    ) -> (
        Ipv6ExtensionsSlice<'a>,
        IpNumber,
        &'a [u8],
        Option<(HeaderSliceError, Layer)>,
    )
        ensures bytes { slice.now ≡ ipv6_slice_bytes result.0 ++ result.2.now }
        ensures chain { (stop : Option HeaderSliceError) × IsLaxChain ipv6 number.0 slice.now
            (chain_of (ipv6_slice_parts result.0) result.1.0 result.2.now) stop
            × (result.3 ≡ option_map chain_stop stop) }
        ensures only { (chain : ExtensionChain) (stop : Option HeaderSliceError)
            → IsLaxChain ipv6 number.0 slice.now chain stop
            → (chain_of (ipv6_slice_parts result.0) result.1.0 result.2.now ≡ chain)
            × (result.3 ≡ option_map chain_stop stop) }
        ensures number { ipv6_slice_number result.0 ≡ number.0 }
    {
        let mut next = number;
        let mut rest = slice;
        let mut fragmented = false;
        while is_extension(next) {
            let offset = slice.len() - rest.len();
            if next == ip_number::IPV6_HEADER_HOP_BY_HOP && offset > 0 {
                let ahead = Ipv6ExtensionsSlice::headers_before(number, slice, rest, fragmented);
                let misplaced = HeaderSliceError::Content(HeaderError::HopByHopNotAtStart);
                return (ahead, next, rest, Some((misplaced, Layer::Ipv6ExtHeader)));
            }
            let part = match Ipv6ExtensionSlice::read(next, rest) {
                Ok(part) => part,
                Err(error) => {
                    let before_error = Ipv6ExtensionsSlice::headers_before(
                        number, slice, rest, fragmented,
                    );
                    return (
                        before_error,
                        next,
                        rest,
                        Some(error_with_layer(with_offset(error, offset))),
                    );
                }
            };
            fragmented = fragmented | part.is_fragmenting_payload();
            next = part.next_header();
            rest = &rest[part.slice().len()..];
        }
        let all = Ipv6ExtensionsSlice::headers_before(number, slice, rest, fragmented);
        (all, next, rest, None)
    }

    /// Creates the value for the IPv6 extension headers parsed from the start of `slice`, where `rest` is the part of
    /// `slice` after them. `first` is the IP number of the first header, and `fragmented` states whether the packet
    /// carries a fragment.
    fn headers_before(
        first: IpNumber,
        slice: &'a [u8],
        rest: &[u8],
        fragmented: bool,
    ) -> Ipv6ExtensionsSlice<'a>
        requires fragments { fragmented
            ≡ chain_fragments (shown_parts first.0 (take (length slice.now - length rest.now) slice.now)) }
        requires within { length rest.now ≤ length slice.now }
        ensures bytes { ipv6_slice_bytes result ≡ take (length slice.now - length rest.now) slice.now }
        ensures number { ipv6_slice_number result ≡ first.0 }
    {
        let shown = ParsedExtensions {
            first,
            slice: &slice[..slice.len() - rest.len()],
            fragmented,
        };
        Ipv6ExtensionsSlice { shown }
    }

    /// Bytes of all IPv6 extension headers that were parsed, from the first to the last.
    #[inline]
    pub fn slice(&self) -> &'a [u8]
        ensures { result.now ≡ ipv6_slice_bytes self.now }
    {
        self.shown.slice
    }

    /// Returns true if the IPv6 packet carries a fragment: a fragment header is in the chain, and its M flag (more
    /// fragments) is set or its fragment offset is above 0.
    #[inline]
    pub fn is_fragmenting_payload(&self) -> bool
        ensures { result ≡ chain_fragments (ipv6_slice_parts self.now) }
    {
        self.shown.fragmented
    }
}

impl<'a> IntoIterator for Ipv6ExtensionsSlice<'a> {
    ghost use Rattle.ep_ext.specs.Ipv6ExtensionSlices.{BeginsIteration};

    type Item = Ipv6ExtensionSlice<'a>;

    type IntoIter = Ipv6ExtensionSliceIter<'a>;

    ghost into_iter_gives = { BeginsIteration };

    #[inline]
    fn into_iter(self) -> Ipv6ExtensionSliceIter<'a> {
        Ipv6ExtensionSliceIter {
            number: self.shown.first,
            rest: self.shown.slice,
        }
    }
}

/// Pairs the error of an invalid IPv6 extension header with the layer of that header: the layer that a length error
/// contains, `Ipv6ExtHeader` for misplaced Hop-by-Hop Options, or `IpAuthHeader` for an invalid authentication header.
pub(crate) fn error_with_layer(error: HeaderSliceError) -> (HeaderSliceError, Layer)
    ensures { result ≡ chain_stop error }
{
    let layer = match &error {
        HeaderSliceError::Len(error) => error.layer.clone().unwrap(),
        HeaderSliceError::Content(HeaderError::HopByHopNotAtStart) => Layer::Ipv6ExtHeader,
        HeaderSliceError::Content(HeaderError::IpAuth(_)) => Layer::IpAuthHeader,
    };
    (error, layer)
}
