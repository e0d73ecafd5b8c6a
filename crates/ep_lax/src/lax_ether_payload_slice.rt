//! Payload of a link header, VLAN tag or MACsec tag, as lax slicing returns it; bytes may be missing.

use ep_base::{EtherType, LenSource};

/// Payload of a link header, VLAN tag or MACsec tag, with its ether type, as lax slicing returns it; bytes may be
/// missing.
#[derive(Clone, Debug, PartialEq, Eq, Drop)]
pub struct LaxEtherPayloadSlice<'a> {
    /// True if bytes of this payload are missing: the short length of a MACsec tag counts more bytes than are
    /// available.
    pub incomplete: bool,
    /// Ether type of the payload, from the link header or tag before it, or as passed to `from_ether_type`.
    pub ether_type: EtherType,
    /// Source of the payload's length: the length field that limits the payload, or the end of the slice.
    pub len_source: LenSource,
    /// Available bytes of the payload of the link header or tag.
    pub payload: &'a [u8],
}
