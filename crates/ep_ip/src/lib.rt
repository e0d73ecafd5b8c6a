//! IPv4 (RFC 791) and IPv6 (RFC 8200): headers as owned values and as slices, and packets with their extension headers
//! as slices.
#![tactic(auto)]

mod ip_slice;
mod ipv4_header;
mod ipv4_header_slice;
mod ipv4_options;
mod ipv4_slice;
mod ipv6_header;
mod ipv6_header_slice;
mod ipv6_slice;
pub mod laws;
pub mod lax;
mod widths;

pub use arrayvec::ArrayVec;
pub use ep_base::err::{
    Layer, LenError, ValueTooBigError, ValueType, ip, ip_auth, ipv4, ipv6, ipv6_exts,
};
pub use ep_base::{
    IpFragOffset, IpNumber, IpPayloadSlice, Ipv4Dscp, Ipv4Ecn, Ipv6FlowLabel, LenSource,
};
pub use ep_ext::{
    IpAuthHeaderSlice, Ipv4ExtensionsSlice, Ipv6ExtensionSlice, Ipv6ExtensionSliceIter,
    Ipv6ExtensionsSlice, Ipv6FragmentHeaderSlice, Ipv6RawExtHeaderSlice,
};
pub use ip_slice::IpSlice;
pub use ipv4_header::Ipv4Header;
pub use ipv4_header_slice::Ipv4HeaderSlice;
pub use ipv4_options::{BadOptionsLen, Ipv4Options};
pub use ipv4_slice::Ipv4Slice;
pub use ipv6_header::Ipv6Header;
pub use ipv6_header_slice::Ipv6HeaderSlice;
pub use ipv6_slice::Ipv6Slice;
