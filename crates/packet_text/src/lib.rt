//! Appends the layers of a packet to a vector as text: in a line as `packet_dump` prints it, in detail, and as rows of
//! hexadecimal digits. Each kind of layer has a module.
#![tactic(auto)]

pub mod addresses;
pub mod checksums;
pub mod details;
pub mod full_lengths;
pub mod header_details;
pub mod icmp_messages;
pub mod links;
pub mod networks;
pub mod packet;
pub mod quotes;
pub mod refusals;
pub mod rows;
pub mod tcp_details;
pub mod transports;

pub use crate::checksums::{push_header_checksum, push_transport_checksum};
pub use crate::details::push_details;
pub use crate::header_details::{push_ipv4_details, push_ipv6_details, push_vlan_details};
pub use crate::links::push_skipped_header;
pub use crate::packet::{push_outer, push_packet, push_protocol};
pub use crate::quotes::{push_quote_of, quoted_by};
pub use crate::refusals::{push_refusal, push_stop};
pub use crate::rows::push_rows;
pub use crate::tcp_details::push_tcp_details;
pub use crate::transports::{push_len, push_transport};
