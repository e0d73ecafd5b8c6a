//! Result of passing a frame to a reassembly pool, as numbers for C.

use crate::packet::Refusal;

/// Result of passing a frame to a reassembly pool, or of taking a reassembled payload, as numbers for C. Fields that do
/// not belong to the returned status are 0.
#[repr(C)]
#[derive(Clone, Copy)]
pub struct PoolAnswer {
    /// Slicing error if the bytes passed to the pool are not a valid frame (status 1); else all its fields are 0.
    pub refusal: Refusal,
    /// Reason why the pool rejects an IP fragment (status 7): 1 if its length is not a multiple of 8 though more
    /// fragments follow; 2 if it ends after the maximum length of a reassembled payload; 3 if it ends after the known
    /// end of the payload, or is without the more-fragments flag and ends before the known end or before the end of an
    /// earlier accepted fragment. Else 0.
    pub fragment_refusal: u32,
    /// Length field that limits the fragments of a complete reassembled payload: the total length of IPv4 or the
    /// payload length of IPv6 (`enum etherparse_len_source`).
    pub len_source: u32,
    /// IP protocol number of a complete reassembled payload; 0 if none is complete.
    pub ip_number: u8,
    /// Length of a complete reassembled payload in bytes; 0 if none is complete.
    pub len: usize,
}
