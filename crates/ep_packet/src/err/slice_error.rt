//! Error of slicing a packet, or of decoding its headers.

use ep_base::err::{LenError, ip, ip_auth, ipv4, ipv6, ipv6_exts, linux_sll, macsec, tcp};
use thiserror::Error;

/// Reason why a packet could not be sliced or decoded: the error of its outermost invalid layer.
#[derive(Clone, Debug, PartialEq, Eq, Hash, Drop, Error)]
pub enum SliceError {
    /// A layer of the packet has too few bytes, or an ICMPv4 timestamp message does not have exactly 20 bytes.
    #[error(transparent)]
    Len(LenError),
    /// The Linux cooked capture header is invalid.
    #[error(transparent)]
    LinuxSll(linux_sll::HeaderError),
    /// A MACsec tag of the packet is invalid.
    #[error(transparent)]
    Macsec(macsec::HeaderError),
    /// The IP header is invalid, in a packet without an ether type: the version field of the header decides between
    /// IPv4 and IPv6.
    #[error(transparent)]
    Ip(ip::HeaderError),
    /// The IPv4 header is invalid, in a packet of ether type IPv4.
    #[error(transparent)]
    Ipv4(ipv4::HeaderError),
    /// The IPv6 header is invalid, in a packet of ether type IPv6.
    #[error(transparent)]
    Ipv6(ipv6::HeaderError),
    /// The authentication header after an IPv4 header is invalid.
    #[error(transparent)]
    Ipv4Exts(ip_auth::HeaderError),
    /// An extension header after an IPv6 header is invalid.
    #[error(transparent)]
    Ipv6Exts(ipv6_exts::HeaderError),
    /// The TCP header is invalid.
    #[error(transparent)]
    Tcp(tcp::HeaderError),
}
