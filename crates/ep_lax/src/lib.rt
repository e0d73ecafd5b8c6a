//! Lax slicing of packets as captures contain them: truncated by a snapshot length, or with a length field below or
//! above the available bytes. Layers are read up to the first invalid or truncated header, and missing bytes are
//! reported.
#![tactic(auto)]

pub mod laws;
mod lax_ether_payload_slice;
mod lax_ipv4_slice;
mod lax_ipv6_slice;
mod lax_link_ext_slice;
mod lax_macsec_payload_slice;
mod lax_macsec_slice;
mod lax_net_slice;
mod lax_packet_headers;
mod lax_payload_slice;
mod lax_sliced_packet;
mod lax_sliced_packet_checksums;
mod lax_sliced_packet_frame;
mod lax_sliced_packet_payload;
mod lax_sliced_packet_walk;
mod lax_stop;
mod lax_transport;
mod missing_bytes;
mod quoted_packets;

pub use ep_base::LaxIpPayloadSlice;
pub use lax_ether_payload_slice::LaxEtherPayloadSlice;
pub use lax_ipv4_slice::LaxIpv4Slice;
pub use lax_ipv6_slice::LaxIpv6Slice;
pub use lax_link_ext_slice::LaxLinkExtSlice;
pub use lax_macsec_payload_slice::LaxMacsecPayloadSlice;
pub use lax_macsec_slice::LaxMacsecSlice;
pub use lax_net_slice::LaxNetSlice;
pub use lax_packet_headers::LaxPacketHeaders;
pub use lax_payload_slice::LaxPayloadSlice;
pub use lax_sliced_packet::LaxSlicedPacket;
pub use quoted_packets::quoted_packet;
