//! Tests that the public types of `ep_ext` and `ep_ip` (IP headers and extension headers) have their derived traits.

use super::*;
use ep_ext::err::ip_auth::IcvLenError;
use ep_ext::err::ipv6_exts::ExtPayloadLenError;
use ep_ext::{
    IpAuthHeader, IpAuthHeaderSlice, Ipv4Extensions, Ipv4ExtensionsSlice, Ipv6ExtensionSlice,
    Ipv6ExtensionSliceIter, Ipv6Extensions, Ipv6ExtensionsSlice, Ipv6FragmentHeader,
    Ipv6FragmentHeaderSlice, Ipv6RawExtHeader, Ipv6RawExtHeaderSlice, Ipv6RoutingExtensions,
};
use ep_ip::{
    BadOptionsLen, IpSlice, Ipv4Header, Ipv4HeaderSlice, Ipv4Options, Ipv4Slice, Ipv6Header,
    Ipv6HeaderSlice, Ipv6Slice,
};

#[test]
fn derived_traits() {
    are_hashed::<(BadOptionsLen, ExtPayloadLenError, IcvLenError)>();
    are_errors::<BadOptionsLen, ExtPayloadLenError, IcvLenError>();
    are_compared::<
        (
            IpAuthHeader,
            IpAuthHeaderSlice<'_>,
            IpSlice<'_>,
            Ipv4Extensions,
            Ipv4ExtensionsSlice<'_>,
            Ipv4Header,
            Ipv4HeaderSlice<'_>,
            Ipv4Options,
            Ipv4Slice<'_>,
            Ipv6ExtensionSlice<'_>,
            Ipv6ExtensionSliceIter<'_>,
            Ipv6Extensions,
        ),
    >();
    are_compared::<
        (
            Ipv6ExtensionsSlice<'_>,
            Ipv6FragmentHeader,
            Ipv6FragmentHeaderSlice<'_>,
            Ipv6Header,
            Ipv6HeaderSlice<'_>,
            Ipv6RawExtHeader,
            Ipv6RawExtHeaderSlice<'_>,
            Ipv6RoutingExtensions,
            Ipv6Slice<'_>,
        ),
    >();
    have_defaults::<
        (
            Ipv4Extensions,
            Ipv4ExtensionsSlice<'_>,
            Ipv4Header,
            Ipv4Options,
            Ipv6Extensions,
            Ipv6Header,
        ),
    >();
}
