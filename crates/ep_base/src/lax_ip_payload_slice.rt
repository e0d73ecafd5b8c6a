//! Payload of an IP packet, as lax slicing returns it; bytes may be missing.

use crate::ip_number::IpNumber;
use crate::len_source::LenSource;

/// Payload after an IP header and its valid extension headers, as lax slicing returns it; bytes may be missing.
#[derive(Clone, Debug, PartialEq, Eq, Drop)]
pub struct LaxIpPayloadSlice<'a> {
    /// True if bytes of the IP payload are missing: a length field (such as the IPv4 total length) counts more bytes
    /// than are available.
    pub incomplete: bool,
    /// IP number of the bytes at the start of the payload: a transport protocol, or an extension header that was not
    /// read.
    pub ip_number: IpNumber,
    /// True if the payload is a fragment of an IP datagram, by the IPv4 header or an IPv6 fragment header.
    pub fragmented: bool,
    /// Source of the IP payload's length: the length field that limits it, or the end of the slice.
    pub len_source: LenSource,
    /// Available bytes of the IP payload.
    pub payload: &'a [u8],
}
