//! Reassembly of fragmented IP payloads (RFC 791, 3.2 and RFC 8200, 4.5).
#![tactic(auto)]

mod bounded_defrag_error;
mod bounded_defrag_pool;
mod bounded_limits;
mod carried_fragment;
mod defrag_statistics;
mod departure;
mod evicted_stream;
mod fragment;
mod frame_run;
mod held_stream;
mod holdings;
mod ip_defrag_buf;
mod ip_defrag_bytes;
mod ip_defrag_error;
mod ip_defrag_payload_vec;
mod ip_defrag_pool;
mod ip_defrag_sections;
mod ip_frag_id;
mod ip_frag_range;
mod keyed_hash;
pub mod laws;
mod name_hasher;
mod pool_run;
mod run;
mod spare_buffers;

pub use arrayvec::ArrayVec;
pub use bounded_defrag_error::BoundedDefragError;
pub use bounded_defrag_pool::BoundedDefragPool;
pub use bounded_limits::{BOUNDED_NAME_MEMORY, DefragLimits, OverlapPolicy};
pub use defrag_statistics::DefragStatistics;
pub use ep_base::err::{
    Layer, LenError, ip, ip_auth, ipv4, ipv6, ipv6_exts, linux_sll, macsec, tcp,
};
pub use ep_base::{EtherPayloadSlice, EtherType, IpFragOffset, IpNumber, LenSource, VlanId};
pub use ep_ip::{Ipv4Slice, Ipv6Slice};
pub use ep_link::{
    ArpPacketSlice, Ethernet2Slice, LinkExtSlice, LinkSlice, LinuxSllPayloadSlice,
    LinuxSllProtocolType, LinuxSllSlice, MacsecHeaderSlice, MacsecPayloadSlice, MacsecSlice,
    SingleVlanSlice,
};
pub use ep_packet::err::SliceError;
pub use ep_packet::{Entry, NetSlice, SlicedPacket};
pub use ep_transport::{Icmpv4Slice, Icmpv6Slice, TcpSlice, TransportSlice, UdpSlice};
pub use evicted_stream::{EvictedStream, EvictionCause};
pub use fragment::Fragment;
pub use frame_run::{FrameAnswer, FrameCall, run_frames};
pub use ip_defrag_buf::IpDefragBuf;
pub use ip_defrag_error::IpDefragError;
pub use ip_defrag_payload_vec::IpDefragPayloadVec;
pub use ip_defrag_pool::IpDefragPool;
pub use ip_frag_id::{IpFragId, IpFragVersionSpecId};
pub use ip_frag_range::IpFragRange;
pub use pool_run::{PoolAnswer, PoolCall, run_calls, run_calls_with_limit};
pub use run::{RunStop, add_all};

/// Greatest length of a reassembled payload in bytes, as `u16`.
pub const MAX_IP_DEFRAG_LEN_U16: u16 = u16::MAX;

/// Greatest length of a reassembled payload in bytes, as `usize`.
pub const MAX_IP_DEFRAG_LEN: usize = 65535;
