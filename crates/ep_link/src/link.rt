//! Link headers: Ethernet II and Linux cooked captures (SLL v1).

mod ethernet2_header;
mod ethernet2_slice;
mod link_header;
mod link_slice;
mod linux_sll_header;
mod linux_sll_packet_type;
mod linux_sll_payload_slice;
mod linux_sll_protocol_type;
mod linux_sll_slice;

pub use ethernet2_header::Ethernet2Header;
pub use ethernet2_slice::Ethernet2Slice;
pub use link_header::LinkHeader;
pub use link_slice::LinkSlice;
pub use linux_sll_header::LinuxSllHeader;
pub use linux_sll_packet_type::LinuxSllPacketType;
pub use linux_sll_payload_slice::LinuxSllPayloadSlice;
pub use linux_sll_protocol_type::LinuxSllProtocolType;
pub use linux_sll_slice::LinuxSllSlice;
