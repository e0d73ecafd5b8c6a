//! Lengths and next header fields of the owned IPv6 extension headers (RFC 8200, 4.1): each header is set to refer to
//! the next one.

ghost use Rattle.std.specs.Prelude.{◌≡◌, ◌≤◌, ◌+◌, length, option_map};
ghost use Rattle.std.specs.Option.{option_map_or};
ghost use Rattle.ep_base.specs.IpNumbers.{authentication_number, destination_options_number, fragment_number, routing_number};
ghost use Rattle.ep_ext.specs.Chains.{parts_bytes};
ghost use Rattle.ep_ext.specs.IpAuth.{ip_auth_len};
ghost use Rattle.ep_ext.specs.RawExtension.{raw_extension_len};
ghost use Rattle.ep_ext.specs.Ipv4Chains.{ip_auth_leading_to};
ghost use Rattle.ep_ext.specs.Ipv6Chains.{ipv6_parts, ipv6_first, ipv6_linked, number_before, final_by, raw_leading_to, fragment_leading_to, routing_header, final_leading_to, routing_alone_leading_to};

use crate::ip_auth_header::IpAuthHeader;
use crate::ipv6_exts::Ipv6Extensions;
use crate::ipv6_fragment_header::Ipv6FragmentHeader;
use crate::ipv6_raw_ext_header::Ipv6RawExtHeader;
use crate::ipv6_routing_exts::Ipv6RoutingExtensions;
use ep_base::{IpNumber, ip_number};

impl Ipv6Extensions {
    /// Length of all IPv6 extension headers together, in bytes: 0 without headers, at most 9228.
    pub fn header_len(&self) -> usize
        ensures bytes { result ≡ length (parts_bytes (ipv6_parts self.now)) }
        ensures bound { result ≤ 9228 }
    {
        raw_len(&self.hop_by_hop_options)
            + raw_len(&self.destination_options)
            + routing_len(&self.routing)
            + fragment_len(&self.fragment)
            + auth_len(&self.auth)
    }

    /// Sets the next header fields of the IPv6 extension headers, in the order of RFC 8200, 4.1: each to the IP number
    /// of the header after it, and the last one to `last`, the payload's IP number. Returns the next header value for
    /// the IPv6 header: the IP number of the first extension header, or `last` if there is none.
    pub fn set_next_headers(&mut self, last: IpNumber) -> IpNumber
        ensures linked { self.new ≡ ipv6_linked self.old last }
        ensures first { result ≡ ipv6_first self.old last }
    {
        let after_auth = link_final(&mut self.routing, last);
        let after_fragment = link_auth(&mut self.auth, after_auth);
        let after_routing = link_fragment(&mut self.fragment, after_fragment);
        let after_destination = link_routing(&mut self.routing, after_routing);
        let after_hop_by_hop = link_raw(
            &mut self.destination_options,
            ip_number::IPV6_DESTINATION_OPTIONS,
            after_destination,
        );
        link_raw(
            &mut self.hop_by_hop_options,
            ip_number::IPV6_HEADER_HOP_BY_HOP,
            after_hop_by_hop,
        )
    }
}

/// Returns the length in bytes of an IPv6 options or routing header, or 0 for `None`.
fn raw_len(header: &Option<Ipv6RawExtHeader>) -> usize
    ensures value { result ≡ option_map_or raw_extension_len header.now 0 }
    ensures bound { result ≤ 2048 }
{
    match header {
        Some(header) => header.header_len(),
        None => 0,
    }
}

/// Returns the length in bytes of an IPv6 routing header together with the Destination Options header after it, or 0
/// for `None`.
fn routing_len(routing_exts: &Option<Ipv6RoutingExtensions>) -> usize
    ensures value { result ≡ option_map_or raw_extension_len (option_map routing_header routing_exts.now) 0
        + option_map_or raw_extension_len (final_by routing_exts.now) 0 }
    ensures bound { result ≤ 4096 }
{
    match routing_exts {
        Some(exts) => exts.routing.header_len() + raw_len(&exts.final_destination_options),
        None => 0,
    }
}

/// Returns the length in bytes of an IPv6 fragment header: 8, or 0 for `None`.
fn fragment_len(header: &Option<Ipv6FragmentHeader>) -> usize
    ensures value { result ≡ option_map_or (λ _. 8) header.now 0 }
    ensures bound { result ≤ 8 }
{
    match header {
        Some(header) => header.header_len(),
        None => 0,
    }
}

/// Returns the length in bytes of an IP authentication header, or 0 for `None`.
fn auth_len(header: &Option<IpAuthHeader>) -> usize
    ensures value { result ≡ option_map_or ip_auth_len header.now 0 }
    ensures bound { result ≤ 1028 }
{
    match header {
        Some(header) => header.header_len(),
        None => 0,
    }
}

/// Sets the next header field of an IPv6 options or routing header, if present, to `next`. Returns the value for the
/// next header field of the preceding header: `number` (the IP number of `header`), or `next` if `header` is `None`.
fn link_raw(header: &mut Option<Ipv6RawExtHeader>, number: IpNumber, next: IpNumber) -> IpNumber
    ensures linked { header.new ≡ option_map (raw_leading_to next) header.old }
    ensures first { result ≡ number_before header.old number.0 next }
{
    match header {
        Some(header) => {
            header.next_header = next;
            number
        }
        None => next,
    }
}

/// Sets the next header field of an IP authentication header, if present, to `next`. Returns the value for the next
/// header field of the preceding header: 51, or `next` if the authentication header is absent.
fn link_auth(header: &mut Option<IpAuthHeader>, next: IpNumber) -> IpNumber
    ensures linked { header.new ≡ option_map (ip_auth_leading_to next) header.old }
    ensures first { result ≡ number_before header.old authentication_number next }
{
    match header {
        Some(header) => {
            header.next_header = next;
            ip_number::AUTHENTICATION_HEADER
        }
        None => next,
    }
}

/// Sets the next header field of an IPv6 fragment header, if present, to `next`. Returns the value for the next header
/// field of the preceding header: 44, or `next` if the fragment header is absent.
fn link_fragment(header: &mut Option<Ipv6FragmentHeader>, next: IpNumber) -> IpNumber
    ensures linked { header.new ≡ option_map (fragment_leading_to next) header.old }
    ensures first { result ≡ number_before header.old fragment_number next }
{
    match header {
        Some(header) => {
            header.next_header = next;
            ip_number::IPV6_FRAGMENTATION_HEADER
        }
        None => next,
    }
}

/// Sets the next header field of the Destination Options header after an IPv6 routing header, if present, to `next`.
/// Returns the value for the next header field of the preceding header: 60, or `next` if the Destination Options header
/// is absent.
fn link_final(routing_exts: &mut Option<Ipv6RoutingExtensions>, next: IpNumber) -> IpNumber
    ensures linked { routing_exts.new ≡ option_map (final_leading_to next) routing_exts.old }
    ensures first { result ≡ number_before (final_by routing_exts.old) destination_options_number next }
{
    match routing_exts {
        Some(exts) => link_raw(
            &mut exts.final_destination_options,
            ip_number::IPV6_DESTINATION_OPTIONS,
            next,
        ),
        None => next,
    }
}

/// Sets the next header field of an IPv6 routing header, if present, to `next`. Returns the value for the next header
/// field of the preceding header: 43, or `next` if the routing header is absent.
fn link_routing(routing_exts: &mut Option<Ipv6RoutingExtensions>, next: IpNumber) -> IpNumber
    ensures linked { routing_exts.new ≡ option_map (routing_alone_leading_to next) routing_exts.old }
    ensures first { result ≡ number_before routing_exts.old routing_number next }
{
    match routing_exts {
        Some(exts) => {
            exts.routing.next_header = next;
            ip_number::IPV6_ROUTE_HEADER
        }
        None => next,
    }
}
