//! Owned extension headers of an IPv6 packet (RFC 8200, 4.1).

ghost use Rattle.std.specs.Prelude.{◌≡◌, ◌≤◌, ◌++◌, ◌↔◌, ◌==◌, List, true, false, IfOk, IfErr, OnErr, IsOkAnd, Ok, Err, Option, Some, None};
ghost use Rattle.std.specs.Option.{option_map};
ghost use Rattle.ep_base.specs.Readings.{headers};
ghost use Rattle.ep_base.specs.declared.err.ipv6_exts.HeaderSliceError.{HeaderSliceError};
ghost use Rattle.ep_ext.specs.ExtensionParts.{ExtensionPart, IsExtensionPart, RefusesExtensionPart, part_next};
ghost use Rattle.ep_ext.specs.Chains.{ipv6, ExtensionChain, IsExtensionChain, RefusesExtensionChain, chain_of, chain_fragments, is_ipv6_extension};
ghost use Rattle.ep_ext.specs.ChainPrefixes.{IsLaxChainIn, chain_stop};
ghost use Rattle.ep_ext.specs.Ipv6ExtensionSlices.{extension_slice_part};
ghost use Rattle.ep_ext.specs.RawExtensionSlices.{raw_extension_slice_header};
ghost use Rattle.ep_ext.specs.Ipv6Chains.{no_ipv6_extensions, ipv6_parts, extensions_of, with_part, has_kind};

use crate::ip_auth_header::IpAuthHeader;
use crate::ipv6_ext_slice::{Ipv6ExtensionSlice, is_extension, with_offset};
use crate::ipv6_exts_slice::error_with_layer;
use crate::ipv6_fragment_header::Ipv6FragmentHeader;
use crate::ipv6_raw_ext_header::Ipv6RawExtHeader;
use crate::ipv6_raw_ext_header_slice::Ipv6RawExtHeaderSlice;
use crate::ipv6_routing_exts::Ipv6RoutingExtensions;
use ep_base::err::Layer;
use ep_base::err::ipv6_exts::{HeaderError, HeaderSliceError};
use ep_base::{IpNumber, ip_number};
use std::alloc::AllocError;

/// Owned extension headers of an IPv6 packet (RFC 8200, 4.1): at most one of each type, except that a second
/// Destination Options header may come after a routing header.
#[derive(Debug, PartialEq, Eq, Default, Drop)]
pub struct Ipv6Extensions {
    /// Hop-by-Hop Options header of the IPv6 packet, if present.
    pub hop_by_hop_options: Option<Ipv6RawExtHeader>,
    /// Destination Options header of the IPv6 packet, if present before the routing header or in a packet without a
    /// routing header.
    pub destination_options: Option<Ipv6RawExtHeader>,
    /// Routing header of the IPv6 packet, if present, with the Destination Options header after it, if any.
    pub routing: Option<Ipv6RoutingExtensions>,
    /// Fragment header of the IPv6 packet, if present.
    pub fragment: Option<Ipv6FragmentHeader>,
    /// Authentication header (RFC 4302) of the IPv6 packet, if present.
    pub auth: Option<IpAuthHeader>,
}

impl Clone for Ipv6Extensions {
    ghost use Rattle.std.specs.Prelude.{◌≡◌, ⊤};

    ghost is_clone = { λ source copy. copy ≡ source };

    ghost is_infallible = { λ _. ⊤ };

    // A derived clone would move each header several times. Here the result is created first and filled in.
    #[inline(never)]
    fn clone(&self) -> Result<Ipv6Extensions, AllocError> {
        let mut result = Ok(Ipv6Extensions::default());
        if let Ok(copy) = &mut result {
            copy.copy_from(self);
        }
        result
    }
}

impl Ipv6Extensions {
    /// Parses the IPv6 extension headers at the start of the slice; `number` is the next header field of the IPv6
    /// header. Returns owned headers, the IP number of the payload, and the bytes after the headers. Parsing ends
    /// before a second header of one type, which is then part of the payload; but Destination Options may occur once
    /// before and once after a routing header. Hop-by-Hop Options that are not the first header are an error.
    #[inline]
    pub fn from_slice(
        number: IpNumber,
        slice: &[u8],
    ) -> Result<(Ipv6Extensions, IpNumber, &[u8]), HeaderSliceError>
        ensures ok { IfOk result (λ read. (parts : List ExtensionPart) × (read.0 ≡ extensions_of parts)
            × IsExtensionChain ipv6 headers number.0 slice.now (chain_of parts read.1.0 read.2.now)) }
        ensures only { (chain : ExtensionChain) → IsExtensionChain ipv6 headers number.0 slice.now chain
            → IsOkAnd result (λ read. (read.0 ≡ extensions_of chain.parts)
            × (read.1.0 ≡ chain.last) × (read.2.now ≡ chain.rest)) }
        ensures err { IfErr result (RefusesExtensionChain ipv6 headers number.0 slice.now) }
    {
        let mut extensions = Ipv6Extensions::default();
        match extensions.fill(number, slice) {
            Ok((next, rest)) => Ok((extensions, next, rest)),
            Err(error) => Err(error),
        }
    }

    /// Parses the IPv6 extension headers at the start of the slice into this value, as [`Ipv6Extensions::from_slice`]
    /// does, and replaces its headers. Returns the IP number of the payload, and the bytes after the headers. An error
    /// leaves the value without headers. Reusing a value avoids moves of the large header buffers.
    #[inline]
    pub fn read_into<'a>(
        &mut self,
        number: IpNumber,
        slice: &'a [u8],
    ) -> Result<(IpNumber, &'a [u8]), HeaderSliceError>
        ensures ok { IfOk result (λ read. (parts : List ExtensionPart) × (self.new ≡ extensions_of parts)
            × IsExtensionChain ipv6 headers number.0 slice.now (chain_of parts read.0.0 read.1.now)) }
        ensures only { (chain : ExtensionChain) → IsExtensionChain ipv6 headers number.0 slice.now chain
            → IsOkAnd result (λ read. (self.new ≡ extensions_of chain.parts)
            × (read.0.0 ≡ chain.last) × (read.1.now ≡ chain.rest)) }
        ensures err { IfErr result (RefusesExtensionChain ipv6 headers number.0 slice.now) }
        ensures none { OnErr result (self.new ≡ no_ipv6_extensions) }
    {
        self.clear();
        match self.fill(number, slice) {
            Ok(read) => Ok(read),
            Err(error) => {
                self.clear();
                Err(error)
            }
        }
    }

    /// Parses the IPv6 extension headers at the start of the slice, up to the first invalid or truncated one; `number`
    /// is the next header field of the IPv6 header. Returns the owned headers, the IP number of the remaining bytes,
    /// the remaining bytes, and `None`. Parsing ends before a second header of one type, as in
    /// [`Ipv6Extensions::from_slice`]. If a header is invalid or truncated, the remaining bytes begin with that header,
    /// and the fourth value is its error and layer; an offset in the error counts from the start of the slice.
    #[inline]
    pub fn from_slice_lax(
        number: IpNumber,
        slice: &[u8],
    ) -> (
        Ipv6Extensions,
        IpNumber,
        &[u8],
        Option<(HeaderSliceError, Layer)>,
    )
        ensures chain { (parts : List ExtensionPart) × (stop : Option HeaderSliceError)
            × (result.0 ≡ extensions_of parts) × (result.3 ≡ option_map chain_stop stop)
            × IsLaxChainIn ipv6 headers number.0 slice.now (chain_of parts result.1.0 result.2.now) stop }
        ensures only { (chain : ExtensionChain) (stop : Option HeaderSliceError)
            → IsLaxChainIn ipv6 headers number.0 slice.now chain stop
            → (result.0 ≡ extensions_of chain.parts) × (result.1.0 ≡ chain.last) × (result.2.now ≡ chain.rest)
            × (result.3 ≡ option_map chain_stop stop) }
    {
        let mut extensions = Ipv6Extensions::default();
        let (last, rest, stop) = extensions.fill_lax(number, slice);
        (extensions, last, rest, stop)
    }

    /// Parses the IPv6 extension headers at the start of the slice into this value, as
    /// [`Ipv6Extensions::from_slice_lax`] does, and replaces its headers. Returns the IP number of the remaining bytes,
    /// the remaining bytes, and the error and layer of the first invalid header, if any. Reusing a value avoids moves
    /// of the large header buffers.
    #[inline]
    pub fn read_into_lax<'a>(
        &mut self,
        number: IpNumber,
        slice: &'a [u8],
    ) -> (IpNumber, &'a [u8], Option<(HeaderSliceError, Layer)>)
        ensures chain { (parts : List ExtensionPart) × (stop : Option HeaderSliceError)
            × (self.new ≡ extensions_of parts) × (result.2 ≡ option_map chain_stop stop)
            × IsLaxChainIn ipv6 headers number.0 slice.now (chain_of parts result.0.0 result.1.now) stop }
        ensures only { (chain : ExtensionChain) (stop : Option HeaderSliceError)
            → IsLaxChainIn ipv6 headers number.0 slice.now chain stop
            → (self.new ≡ extensions_of chain.parts) × (result.0.0 ≡ chain.last) × (result.1.now ≡ chain.rest)
            × (result.2 ≡ option_map chain_stop stop) }
    {
        self.clear();
        self.fill_lax(number, slice)
    }

    /// Overwrites these IPv6 extension headers in place with a copy of those in `source`. No large header buffer is
    /// moved, and fields that are `None` in both values are not written.
    pub fn copy_from(&mut self, source: &Ipv6Extensions)
        ensures { self.new ≡ source.now }
    {
        self.clear();
        if let Some(header) = &source.hop_by_hop_options {
            store_raw_copy(&mut self.hop_by_hop_options, header);
        }
        if let Some(header) = &source.destination_options {
            store_raw_copy(&mut self.destination_options, header);
        }
        if let Some(exts) = &source.routing {
            store_routing_copy(&mut self.routing, exts);
        }
        if let Some(header) = &source.fragment {
            self.fragment = Some(Ipv6FragmentHeader { ..*header });
        }
        if let Some(header) = &source.auth {
            store_auth_copy(&mut self.auth, header);
        }
    }

    /// Removes all IPv6 extension headers: sets each field to `None`. Fields that are `None` already are not written.
    #[inline]
    pub fn clear(&mut self)
        ensures { self.new ≡ no_ipv6_extensions }
    {
        if self.hop_by_hop_options.is_some() {
            self.hop_by_hop_options = None;
        }
        if self.destination_options.is_some() {
            self.destination_options = None;
        }
        if self.routing.is_some() {
            self.routing = None;
        }
        if self.fragment.is_some() {
            self.fragment = None;
        }
        if self.auth.is_some() {
            self.auth = None;
        }
    }

    /// Parses the IPv6 extension headers at the start of the slice into this value, which must have no headers;
    /// `number` is the IP number of the first header. Returns the IP number of the payload, and the bytes after the
    /// headers.
    fn fill<'a>(
        &mut self,
        number: IpNumber,
        slice: &'a [u8],
    ) -> Result<(IpNumber, &'a [u8]), HeaderSliceError>
        requires { self.old ≡ no_ipv6_extensions }
        ensures ok { IfOk result (λ read. (parts : List ExtensionPart) × (self.new ≡ extensions_of parts)
            × IsExtensionChain ipv6 headers number.0 slice.now (chain_of parts read.0.0 read.1.now)) }
        ensures err { IfErr result (RefusesExtensionChain ipv6 headers number.0 slice.now) }
    {
        let mut next = number;
        let mut rest = slice;
        while is_extension(next) {
            let offset = slice.len() - rest.len();
            if next == ip_number::IPV6_HEADER_HOP_BY_HOP && offset > 0 {
                return Err(HeaderSliceError::Content(HeaderError::HopByHopNotAtStart));
            }
            if self.has(next) {
                return Ok((next, rest));
            }
            match self.read_one(next, rest) {
                Ok((next_header, after)) => {
                    next = next_header;
                    rest = after;
                }
                Err(error) => return Err(with_offset(error, offset)),
            }
        }
        Ok((next, rest))
    }

    /// Parses the IPv6 extension headers at the start of the slice into this value, which must have no headers, up to
    /// the first invalid or truncated one; `number` is the IP number of the first header. Returns the IP number of the
    /// remaining bytes, the remaining bytes, and the error and layer of the first invalid header, if any.
    fn fill_lax<'a>(
        &mut self,
        number: IpNumber,
        slice: &'a [u8],
    ) -> (IpNumber, &'a [u8], Option<(HeaderSliceError, Layer)>)
        requires { self.old ≡ no_ipv6_extensions }
        ensures { (parts : List ExtensionPart) × (stop : Option HeaderSliceError)
            × (self.new ≡ extensions_of parts) × (result.2 ≡ option_map chain_stop stop)
            × IsLaxChainIn ipv6 headers number.0 slice.now (chain_of parts result.0.0 result.1.now) stop }
    {
        let mut next = number;
        let mut rest = slice;
        while is_extension(next) {
            let offset = slice.len() - rest.len();
            if next == ip_number::IPV6_HEADER_HOP_BY_HOP && offset > 0 {
                let misplaced = HeaderSliceError::Content(HeaderError::HopByHopNotAtStart);
                return (next, rest, Some((misplaced, Layer::Ipv6ExtHeader)));
            }
            if self.has(next) {
                return (next, rest, None);
            }
            match self.read_one(next, rest) {
                Ok((next_header, after)) => {
                    next = next_header;
                    rest = after;
                }
                Err(error) => {
                    return (
                        next,
                        rest,
                        Some(error_with_layer(with_offset(error, offset))),
                    );
                }
            }
        }
        (next, rest, None)
    }

    /// Returns true if this value already has an IPv6 extension header of the type with this IP number. If there is a
    /// routing header, 60 (Destination Options) refers only to the Destination Options after it.
    #[inline]
    fn has(&self, number: IpNumber) -> bool
        ensures { result ≡ has_kind self.now number.0 }
    {
        if number == ip_number::IPV6_HEADER_HOP_BY_HOP {
            return self.hop_by_hop_options.is_some();
        }
        if number == ip_number::IPV6_ROUTE_HEADER {
            return self.routing.is_some();
        }
        if number == ip_number::IPV6_FRAGMENTATION_HEADER {
            return self.fragment.is_some();
        }
        if number == ip_number::AUTHENTICATION_HEADER {
            return self.auth.is_some();
        }
        if number == ip_number::IPV6_DESTINATION_OPTIONS {
            return match &self.routing {
                Some(exts) => exts.final_destination_options.is_some(),
                None => self.destination_options.is_some(),
            };
        }
        false
    }

    /// Parses the one IPv6 extension header at the start of the slice, whose type is given by its IP number `number`,
    /// and stores it in this value. Returns its next header field and the bytes after the header. An error leaves the
    /// value unchanged.
    fn read_one<'a>(
        &mut self,
        number: IpNumber,
        slice: &'a [u8],
    ) -> Result<(IpNumber, &'a [u8]), HeaderSliceError>
        requires { is_ipv6_extension number.0 ≡ true }
        ensures ok { IfOk result (λ read. (part : ExtensionPart) × (self.new ≡ with_part self.old part)
            × (read.0.0 ≡ part_next part) × IsExtensionPart number.0 slice.now part read.1.now) }
        ensures err { IfErr result (RefusesExtensionPart number.0 slice.now) }
        ensures unchanged { OnErr result (self.new ≡ self.old) }
    {
        let part = match Ipv6ExtensionSlice::read(number, slice) {
            Ok(part) => part,
            Err(error) => return Err(error),
        };
        self.store(&part);
        Ok((part.next_header(), &slice[part.slice().len()..]))
    }

    /// Stores an owned copy of one parsed IPv6 extension header in the field for its type. Destination Options are
    /// stored in the field after the routing header, if there is a routing header.
    fn store(&mut self, part: &Ipv6ExtensionSlice<'_>)
        ensures { self.new ≡ with_part self.old (extension_slice_part part.now) }
    {
        match part {
            Ipv6ExtensionSlice::HopByHop(header) => {
                store_raw(&mut self.hop_by_hop_options, header);
            }
            Ipv6ExtensionSlice::Routing(header) => {
                store_routing(&mut self.routing, header);
            }
            Ipv6ExtensionSlice::Fragment(header) => {
                self.fragment = Some(header.to_header());
            }
            Ipv6ExtensionSlice::DestinationOptions(header) => match &mut self.routing {
                Some(exts) => {
                    store_raw(&mut exts.final_destination_options, header);
                }
                None => {
                    store_raw(&mut self.destination_options, header);
                }
            },
            Ipv6ExtensionSlice::Authentication(header) => {
                header.header_into(&mut self.auth);
            }
        }
    }

    /// Returns true if the IPv6 packet carries a fragment: there is a fragment header, and its M flag (more fragments)
    /// is set or its fragment offset is above 0.
    #[inline]
    pub fn is_fragmenting_payload(&self) -> bool
        ensures { result ≡ chain_fragments (ipv6_parts self.now) }
    {
        match &self.fragment {
            Some(header) => header.is_fragmenting_payload(),
            None => false,
        }
    }
}

/// Writes an owned copy of an options or routing header to `place`, which becomes `Some`; a header that was there is
/// overwritten. The copy is filled in place, so that its 2046-byte buffer is not moved.
fn store_raw(place: &mut Option<Ipv6RawExtHeader>, header: &Ipv6RawExtHeaderSlice<'_>)
    ensures { place.new ≡ Some (raw_extension_slice_header header.now) }
{
    *place = Some(Ipv6RawExtHeader::blank());
    if let Some(stored) = place {
        stored.fill(header);
    }
}

/// Writes an owned copy of a routing header to `place`, which becomes `Some` without destination options after the
/// routing header. The copy is filled in place, so that its 2046-byte buffer is not moved.
fn store_routing(place: &mut Option<Ipv6RoutingExtensions>, header: &Ipv6RawExtHeaderSlice<'_>)
    ensures { place.new ≡ Some (record {
      routing = raw_extension_slice_header header.now;
      final_destination_options = None;
    }) }
{
    *place = Some(Ipv6RoutingExtensions {
        routing: Ipv6RawExtHeader::blank(),
        final_destination_options: None,
    });
    if let Some(stored) = place {
        stored.routing.fill(header);
    }
}

/// Writes a copy of an options or routing header to `place`, which becomes `Some`; a header that was there is
/// overwritten. The copy is filled in place, so that its 2046-byte buffer is not moved.
fn store_raw_copy(place: &mut Option<Ipv6RawExtHeader>, header: &Ipv6RawExtHeader)
    ensures { place.new ≡ Some header.now }
{
    *place = Some(Ipv6RawExtHeader::blank());
    if let Some(stored) = place {
        stored.copy_from(header);
    }
}

/// Writes a copy of a routing header and of the destination options after it to `place`, which becomes `Some`. The copy
/// is filled in place, so that no 2046-byte buffer is moved.
fn store_routing_copy(place: &mut Option<Ipv6RoutingExtensions>, source: &Ipv6RoutingExtensions)
    ensures { place.new ≡ Some source.now }
{
    *place = Some(Ipv6RoutingExtensions {
        routing: Ipv6RawExtHeader::blank(),
        final_destination_options: None,
    });
    if let Some(stored) = place {
        stored.routing.copy_from(&source.routing);
        if let Some(header) = &source.final_destination_options {
            store_raw_copy(&mut stored.final_destination_options, header);
        }
    }
}

/// Writes a copy of an IP authentication header to `place`, which becomes `Some`. The copy is filled in place, so that
/// its 1016-byte buffer is not moved.
fn store_auth_copy(place: &mut Option<IpAuthHeader>, header: &IpAuthHeader)
    ensures { place.new ≡ Some header.now }
{
    *place = Some(IpAuthHeader::blank());
    if let Some(stored) = place {
        stored.copy_from(header);
    }
}
