//! Owned IPv6 routing header with the Destination Options header after it (RFC 8200, 4.1).

use crate::ipv6_raw_ext_header::Ipv6RawExtHeader;

/// Owned IPv6 routing header, and the Destination Options header after it, if present. Options after the routing header
/// are for the final destination only.
#[derive(Clone, Debug, PartialEq, Eq, Drop)]
pub struct Ipv6RoutingExtensions {
    /// Routing header of the IPv6 packet.
    pub routing: Ipv6RawExtHeader,
    /// Destination Options header after the IPv6 routing header, if present. Its options are for the final destination
    /// only.
    pub final_destination_options: Option<Ipv6RawExtHeader>,
}
