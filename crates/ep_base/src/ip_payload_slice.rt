//! Payload of an IPv4 or IPv6 packet, with its protocol number.

use crate::ip_number::IpNumber;
use crate::len_source::LenSource;

/// Bytes after an IPv4 or IPv6 header and its extension headers, with the protocol number of their contents.
#[derive(Clone, Debug, PartialEq, Eq, PartialOrd, Ord, Hash, Drop)]
pub struct IpPayloadSlice<'a> {
    /// IP protocol number of the payload.
    pub ip_number: IpNumber,
    /// True if the IP payload is only a fragment of the payload of a fragmented packet.
    pub fragmented: bool,
    /// Source of the IP payload's length: the end of the input, or the length field of the IP header.
    pub len_source: LenSource,
    /// Bytes after the IP header and its extension headers.
    pub payload: &'a [u8],
}
