//! An IP payload that was reassembled from fragments.

use ep_base::{IpNumber, LenSource};

/// An IP payload that was reassembled from its fragments, in a vector of its own.
#[derive(Debug, PartialEq, Eq, Drop)]
pub struct IpDefragPayloadVec {
    /// IP protocol number of the reassembled payload: what its bytes contain (17 for UDP).
    pub ip_number: IpNumber,
    /// Length field of the IP version of the fragments: the IPv4 total length, or the IPv6 payload length. It is the
    /// IPv6 payload length even if this field was 0 and did not limit the fragments.
    pub len_source: LenSource,
    /// Bytes of the reassembled payload, without headers.
    pub payload: Vec<u8>,
}
