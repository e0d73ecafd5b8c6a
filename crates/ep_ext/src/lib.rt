//! IP extension headers: the authentication header of IPv4 and IPv6, and the Hop-by-Hop Options, Destination Options,
//! Routing and Fragment headers of IPv6.
#![tactic(auto)]

pub mod err;
mod ip_auth_header;
mod ip_auth_header_slice;
mod ip_auth_icv;
mod ipv4_exts;
mod ipv4_exts_slice;
mod ipv6_ext_slice;
mod ipv6_exts;
mod ipv6_exts_links;
mod ipv6_exts_slice;
mod ipv6_exts_slice_iter;
mod ipv6_exts_walk;
mod ipv6_fragment_header;
mod ipv6_fragment_header_slice;
mod ipv6_raw_ext_header;
mod ipv6_raw_ext_header_slice;
mod ipv6_raw_ext_payload;
mod ipv6_routing_exts;
pub mod laws;

pub use arrayvec::ArrayVec;
pub use ep_base::err::{Layer, LenError};
pub use ep_base::{IpFragOffset, IpNumber, LenSource};
pub use ip_auth_header::IpAuthHeader;
pub use ip_auth_header_slice::IpAuthHeaderSlice;
pub use ipv4_exts::Ipv4Extensions;
pub use ipv4_exts_slice::Ipv4ExtensionsSlice;
pub use ipv6_ext_slice::Ipv6ExtensionSlice;
pub use ipv6_exts::Ipv6Extensions;
pub use ipv6_exts_slice::Ipv6ExtensionsSlice;
pub use ipv6_exts_slice_iter::Ipv6ExtensionSliceIter;
pub use ipv6_fragment_header::Ipv6FragmentHeader;
pub use ipv6_fragment_header_slice::Ipv6FragmentHeaderSlice;
pub use ipv6_raw_ext_header::Ipv6RawExtHeader;
pub use ipv6_raw_ext_header_slice::Ipv6RawExtHeaderSlice;
pub use ipv6_routing_exts::Ipv6RoutingExtensions;
