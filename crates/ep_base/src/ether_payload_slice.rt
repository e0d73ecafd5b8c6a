//! Payload of a link header, VLAN tag or MACsec tag, with its ether type.

use crate::ether_type::EtherType;
use crate::len_source::LenSource;

/// Bytes after a link header, VLAN tag or MACsec tag, with the ether type of the protocol in them.
#[derive(Clone, Debug, PartialEq, Eq, PartialOrd, Ord, Hash, Drop)]
pub struct EtherPayloadSlice<'a> {
    /// Ether type of the protocol in the payload.
    pub ether_type: EtherType,
    /// Source of the payload's length: the end of the input, or the short length of a MACsec tag.
    pub len_source: LenSource,
    /// Bytes after the link header, VLAN tag or MACsec tag.
    pub payload: &'a [u8],
}
