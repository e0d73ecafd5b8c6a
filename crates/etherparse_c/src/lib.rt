//! The library for C and for languages that call C: each exported function calls `etherparse` and returns the result as
//! numbers.
//!
//! Only reassembly pools and filters keep a pointer or state between calls. An exported function can be misused only by
//! passing a pointer that does not point to what its type states. `bindings/c/etherparse.h` declares all exported
//! functions, and documents the numbers.
#![tactic(auto)]

mod bounded_handle;
mod bounded_pool;
mod bounded_pooling;
mod bounded_state;
mod bounded_state_pointer;
mod building;
mod building_tagged;
mod checksum;
mod defrag_describing;
mod defrag_values;
mod describing;
mod field_reading;
mod fields;
mod filter_handle;
mod filter_pointer;
mod filter_values;
mod filtering;
mod handle;
mod hash_seed;
mod held_filter;
pub mod laws;
mod lax_describing;
mod lax_slicing;
mod link_fields;
mod net_fields;
mod net_part;
mod numbers;
mod owned_bounded_pool;
mod owned_filter;
mod owned_pool;
mod packet;
mod placing;
mod plain;
mod plain_fields;
mod pool;
mod pool_answer;
mod pooling;
mod raw_box;
mod refusing;
mod route;
mod sliced_net;
mod slicing;
mod slicing_many;
mod state;
mod state_pointer;
mod tags;
mod texts;
mod transport_fields;
mod verifying;
mod version;
mod vlans;

pub use bounded_handle::BoundedHandle;
pub use bounded_pool::BoundedPool;
pub use bounded_pooling::{
    etherparse_2_bounded_pool_clear, etherparse_2_bounded_pool_discard,
    etherparse_2_bounded_pool_discarded_streams, etherparse_2_bounded_pool_evicted,
    etherparse_2_bounded_pool_evicted_count, etherparse_2_bounded_pool_expire,
    etherparse_2_bounded_pool_free, etherparse_2_bounded_pool_held_bytes,
    etherparse_2_bounded_pool_limits, etherparse_2_bounded_pool_new,
    etherparse_2_bounded_pool_push, etherparse_2_bounded_pool_remove,
    etherparse_2_bounded_pool_statistics, etherparse_2_bounded_pool_streams,
    etherparse_2_bounded_pool_take, etherparse_2_defrag_limits_default,
};
pub use building::{etherparse_2_build_icmp_echo, etherparse_2_build_tcp, etherparse_2_build_udp};
pub use building_tagged::{
    etherparse_2_build_fragment, etherparse_2_build_tagged_icmp_echo,
    etherparse_2_build_tagged_tcp, etherparse_2_build_tagged_udp,
};
pub use checksum::etherparse_2_checksum;
pub use defrag_values::{DefragLimits, DefragStatistics, EvictedStream, StreamId};
pub use field_reading::etherparse_2_fields;
pub use fields::{ArpFields, Fields, IpFields, LinkFields, Place, TagFields, TransportFields};
pub use filter_handle::FilterHandle;
pub use filter_values::FilterError;
pub use filtering::{
    etherparse_2_filter_error_text, etherparse_2_filter_free, etherparse_2_filter_matches,
    etherparse_2_filter_matches_many, etherparse_2_filter_new, etherparse_2_filter_text,
};
pub use handle::Handle;
pub use held_filter::HeldFilter;
pub use lax_slicing::etherparse_2_slice_lax;
pub use owned_bounded_pool::OwnedBoundedPool;
pub use owned_filter::OwnedFilter;
pub use owned_pool::OwnedPool;
pub use packet::{Ip, LinkExt, Packet, Part, Payload, Refusal};
pub use pool::Pool;
pub use pool_answer::PoolAnswer;
pub use pooling::{
    etherparse_2_pool_bytes, etherparse_2_pool_discard, etherparse_2_pool_drop_older,
    etherparse_2_pool_free, etherparse_2_pool_new, etherparse_2_pool_push,
    etherparse_2_pool_streams, etherparse_2_pool_take, etherparse_2_pool_with_limit,
};
pub use route::{FragmentFields, Route, TaggedRoute, TcpFields};
pub use slicing::etherparse_2_slice;
pub use slicing_many::{etherparse_2_slice_lax_many, etherparse_2_slice_many};
pub use texts::etherparse_2_refusal_text;
pub use verifying::etherparse_2_checksums;
pub use version::etherparse_2_version;
