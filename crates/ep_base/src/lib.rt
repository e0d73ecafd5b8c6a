//! Ether types, IP protocol numbers, bounded header fields, errors and the checksum, which all layers of the library
//! share.
#![tactic(auto)]

mod at_least;
pub mod bytes;
pub mod checksum;
pub mod err;
mod ether_payload_slice;
pub mod ether_type;
pub mod ip_number;
mod ip_payload_slice;
pub mod laws;
pub mod lax_cut;
mod lax_ip_payload_slice;
mod len_source;
mod numbers;

pub use at_least::AtLeast;
pub use ether_payload_slice::EtherPayloadSlice;
pub use ether_type::EtherType;
pub use ip_number::IpNumber;
pub use ip_payload_slice::IpPayloadSlice;
pub use lax_ip_payload_slice::LaxIpPayloadSlice;
pub use len_source::LenSource;
pub use numbers::{
    IpFragOffset, Ipv4Dscp, Ipv4Ecn, Ipv6FlowLabel, MacsecAn, MacsecShortLen, VlanId, VlanPcp,
};
