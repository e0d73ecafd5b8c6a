//! Walk over owned IPv6 extension headers in the order that their next header fields give (RFC 8200, 4.1).

ghost use Rattle.std.specs.Prelude.{◌≡◌, ◌<◌, ◌≤◌, ◌+◌, ◌++◌, ◌↔◌, ℕ, List, length, vec_len, vec_capacity, Err, option_map, IfOk, IfErr, OnOk, OnErr, IsOkAnd};
ghost use Rattle.ep_base.specs.declared.err.ipv6_exts.ExtsWalkError.{ExtsWalkError};
ghost use Rattle.ep_base.specs.declared.err.ipv6_exts.HeaderWriteError.TheVariants as write_error;
ghost use Rattle.ep_base.specs.IpNumbers.{destination_options_number};
ghost use Rattle.ep_ext.specs.ExtensionParts.{ExtensionPart, FitsPart, part_next, part_bytes};
ghost use Rattle.ep_ext.specs.Chains.{FitParts, parts_bytes};
ghost use Rattle.ep_ext.specs.Ipv6Chains.{WalksAll, RefusesWalk, walk_refusal, number_of};
ghost use Rattle.ep_ext.specs.Walks.{marked, header_ref_part, header_at, missing_at};

use crate::ip_auth_header::IpAuthHeader;
use crate::ipv6_exts::Ipv6Extensions;
use crate::ipv6_fragment_header::Ipv6FragmentHeader;
use crate::ipv6_raw_ext_header::Ipv6RawExtHeader;
use ep_base::err::ipv6_exts::{ExtsWalkError, HeaderWriteError};
use ep_base::{IpNumber, ip_number};
use std::alloc::AllocError;

/// Visited flags of the IPv6 extension headers in a walk along the next header fields: one flag for each header, and
/// `any`, which is set once any header is visited.
#[derive(Clone, Copy, Default)]
pub(crate) struct VisitedHeaders {
    pub(crate) any: bool,
    pub(crate) hop_by_hop: bool,
    pub(crate) destination_options: bool,
    pub(crate) routing: bool,
    pub(crate) fragment: bool,
    pub(crate) auth: bool,
    pub(crate) final_destination_options: bool,
}

impl VisitedHeaders {
    /// Sets the visited flag of the IPv6 extension header `header`. For Destination Options, this is
    /// `final_destination_options` if the routing header is already visited, otherwise `destination_options`.
    fn mark(&mut self, header: &HeaderRef<'_>)
        ensures { self.new ≡ marked self.old (header_ref_part header.now) }
    {
        self.any = true;
        match header {
            HeaderRef::HopByHop(_) => self.hop_by_hop = true,
            HeaderRef::DestinationOptions(_) => {
                if self.routing {
                    self.final_destination_options = true;
                } else {
                    self.destination_options = true;
                }
            }
            HeaderRef::Routing(_) => {
                self.routing = true;
                self.final_destination_options = false;
            }
            HeaderRef::Fragment(_) => self.fragment = true,
            HeaderRef::Authentication(_) => self.auth = true,
        }
    }
}

/// Reference to one owned header of an [`Ipv6Extensions`], with one variant for each type of IPv6 extension header.
#[derive(Clone, Copy)]
pub(crate) enum HeaderRef<'a> {
    HopByHop(&'a Ipv6RawExtHeader),
    DestinationOptions(&'a Ipv6RawExtHeader),
    Routing(&'a Ipv6RawExtHeader),
    Fragment(&'a Ipv6FragmentHeader),
    Authentication(&'a IpAuthHeader),
}

impl HeaderRef<'_> {
    /// Next header field of the referenced IPv6 extension header, byte 0: the IP number of the header or payload after
    /// it.
    fn next_header(&self) -> IpNumber
        ensures { result.0 ≡ part_next (header_ref_part self.now) }
    {
        match self {
            HeaderRef::HopByHop(header) => header.next_header,
            HeaderRef::DestinationOptions(header) => header.next_header,
            HeaderRef::Routing(header) => header.next_header,
            HeaderRef::Fragment(header) => header.next_header,
            HeaderRef::Authentication(header) => header.next_header,
        }
    }

    /// Appends the wire format of the referenced IPv6 extension header to the buffer. The only error is a failed
    /// allocation, if the buffer has to grow; it leaves the buffer unchanged.
    fn write(&self, buf: &mut Vec<u8>) -> Result<(), AllocError>
        ensures ok { OnOk result (buf.new.items ≡ buf.old.items ++ part_bytes (header_ref_part self.now)) }
        ensures err { OnErr result (buf.new.items ≡ buf.old.items) }
        ensures fits { FitsPart (header_ref_part self.now) }
        ensures full { OnErr result (vec_capacity buf.old < vec_len buf.old
            + length (part_bytes (header_ref_part self.now))) }
        ensures capacity { vec_capacity buf.old ≤ vec_capacity buf.new }
    {
        match self {
            HeaderRef::HopByHop(header) => header.write(buf),
            HeaderRef::DestinationOptions(header) => header.write(buf),
            HeaderRef::Routing(header) => header.write(buf),
            HeaderRef::Fragment(header) => header.write(buf),
            HeaderRef::Authentication(header) => header.write(buf),
        }
    }
}

impl Ipv6Extensions {
    /// Returns the IP number of the payload after the IPv6 extension headers, found by following the next header fields
    /// from `first`, the next header field of the IPv6 header.
    ///
    /// # Errors
    ///
    /// Returns an error if the next header fields do not lead to all headers.
    pub fn next_header(&self, first: IpNumber) -> Result<IpNumber, ExtsWalkError>
        ensures ok { IfOk result (λ last. (parts : List ExtensionPart) × WalksAll self.now first.0 parts last.0) }
        ensures only { (parts : List ExtensionPart) (last : ℕ) → WalksAll self.now first.0 parts last
            → IsOkAnd result (λ number. number.0 ≡ last) }
        ensures err { IfErr result (RefusesWalk self.now first.0) }
    {
        let mut marks = VisitedHeaders::default();
        let mut number = first;
        while let Some(header) = self.find_unvisited(&marks, number) {
            marks.mark(&header);
            number = header.next_header();
        }
        match self.first_unvisited(&marks) {
            None => Ok(number),
            Some(missing_ext) => Err(walk_error(missing_ext, number)),
        }
    }

    /// Appends the IPv6 extension headers to the buffer in the order that their next header fields give, from `first`,
    /// the next header field of the IPv6 header. Returns an error if the fields do not lead to all headers, or if the
    /// allocation fails. An error leaves the buffer unchanged. The buffer grows at most once.
    pub fn write(&self, buf: &mut Vec<u8>, first: IpNumber) -> Result<(), HeaderWriteError>
        ensures ok { OnOk result ((parts : List ExtensionPart) × (last : ℕ) × WalksAll self.now first.0 parts last
            × FitParts parts × (buf.new.items ≡ buf.old.items ++ parts_bytes parts)) }
        ensures err { OnErr result (buf.new.items ≡ buf.old.items) }
        ensures walk { (error : ExtsWalkError)
            → RefusesWalk self.now first.0 error ↔ (result ≡ Err (write_error.Content error)) }
        ensures full { result ≡ Err write_error.OutOfMemory
            → (parts : List ExtensionPart) × (last : ℕ) × WalksAll self.now first.0 parts last
            × (vec_capacity buf.old < vec_len buf.old + length (parts_bytes parts)) }
        ensures capacity { vec_capacity buf.old ≤ vec_capacity buf.new }
    {
        if let Err(error) = self.next_header(first) {
            return Err(HeaderWriteError::Content(error));
        }
        if buf.reserve(self.header_len()).is_err() {
            return Err(HeaderWriteError::OutOfMemory);
        }
        let mut marks = VisitedHeaders::default();
        let mut number = first;
        while let Some(header) = self.find_unvisited(&marks, number) {
            header.write(buf).unwrap();
            marks.mark(&header);
            number = header.next_header();
        }
        Ok(())
    }

    /// Returns the IPv6 extension header with this IP number, or `None` if there is no such header or it is already
    /// visited according to `marks`. Hop-by-Hop Options are returned only if no header is visited yet.
    fn find_unvisited<'a>(
        &'a self,
        marks: &VisitedHeaders,
        number: IpNumber,
    ) -> Option<HeaderRef<'a>>
        ensures { option_map header_ref_part result ≡ header_at self.now marks.now number.0 }
    {
        if number == ip_number::IPV6_HEADER_HOP_BY_HOP {
            return match &self.hop_by_hop_options {
                Some(header) if !marks.any => Some(HeaderRef::HopByHop(header)),
                _ => None,
            };
        }
        if number == ip_number::IPV6_ROUTE_HEADER {
            return match &self.routing {
                Some(exts) if !marks.routing => Some(HeaderRef::Routing(&exts.routing)),
                _ => None,
            };
        }
        if number == ip_number::IPV6_FRAGMENTATION_HEADER {
            return match &self.fragment {
                Some(header) if !marks.fragment => Some(HeaderRef::Fragment(header)),
                _ => None,
            };
        }
        if number == ip_number::AUTHENTICATION_HEADER {
            return match &self.auth {
                Some(header) if !marks.auth => Some(HeaderRef::Authentication(header)),
                _ => None,
            };
        }
        if number == ip_number::IPV6_DESTINATION_OPTIONS {
            return self.find_destination(marks);
        }
        None
    }

    /// Returns the Destination Options header that comes next in a walk over IPv6 extension headers:
    /// `final_destination_options` if the routing header is visited according to `marks`, otherwise
    /// `destination_options`. Returns `None` if that header is absent or already visited.
    fn find_destination<'a>(&'a self, marks: &VisitedHeaders) -> Option<HeaderRef<'a>>
        ensures { option_map header_ref_part result ≡ header_at self.now marks.now destination_options_number }
    {
        if !marks.routing {
            return match &self.destination_options {
                Some(header) if !marks.destination_options => {
                    Some(HeaderRef::DestinationOptions(header))
                }
                _ => None,
            };
        }
        match &self.routing {
            Some(exts) => match &exts.final_destination_options {
                Some(header) if !marks.final_destination_options => {
                    Some(HeaderRef::DestinationOptions(header))
                }
                _ => None,
            },
            None => None,
        }
    }

    /// Returns the IP number of the first IPv6 extension header, in the order of RFC 8200, 4.1, that is not visited
    /// according to `marks`, or `None` if all headers are visited.
    fn first_unvisited(&self, marks: &VisitedHeaders) -> Option<IpNumber>
        ensures { option_map number_of result ≡ missing_at self.now marks.now }
    {
        if self.hop_by_hop_options.is_some() && !marks.hop_by_hop {
            return Some(ip_number::IPV6_HEADER_HOP_BY_HOP);
        }
        if self.destination_options.is_some() && !marks.destination_options {
            return Some(ip_number::IPV6_DESTINATION_OPTIONS);
        }
        if self.routing.is_some() && !marks.routing {
            return Some(ip_number::IPV6_ROUTE_HEADER);
        }
        if self.fragment.is_some() && !marks.fragment {
            return Some(ip_number::IPV6_FRAGMENTATION_HEADER);
        }
        if self.auth.is_some() && !marks.auth {
            return Some(ip_number::AUTHENTICATION_HEADER);
        }
        match &self.routing {
            Some(exts)
                if exts.final_destination_options.is_some() && !marks.final_destination_options => {
                Some(ip_number::IPV6_DESTINATION_OPTIONS)
            }
            _ => None,
        }
    }
}

/// Returns the error of a walk over IPv6 extension headers that ended at the IP number `last` without visiting the
/// header `missing_ext`. The error is `HopByHopNotAtStart` if both are the number of Hop-by-Hop Options, otherwise
/// `ExtNotReferenced`: the next header fields do not lead to the header.
fn walk_error(missing_ext: IpNumber, last: IpNumber) -> ExtsWalkError
    ensures { result ≡ walk_refusal missing_ext.0 last.0 }
{
    if missing_ext == ip_number::IPV6_HEADER_HOP_BY_HOP
        && last == ip_number::IPV6_HEADER_HOP_BY_HOP
    {
        return ExtsWalkError::HopByHopNotAtStart;
    }
    ExtsWalkError::ExtNotReferenced { missing_ext }
}
