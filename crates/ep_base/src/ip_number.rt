//! IP protocol numbers (RFC 791, 3.1 and RFC 8200, 3), with constants for the protocols that this library knows.

/// IP protocol number: the 8 bit number, assigned by IANA, of the protocol or extension header in an IP payload.
#[derive(Clone, Copy, Debug, PartialEq, Eq, PartialOrd, Ord, Hash)]
pub struct IpNumber(pub u8);

impl IpNumber {
    ghost use Rattle.std.specs.Prelude.{◌≡◌, option_copied};
    ghost use Rattle.ep_base.specs.Names.{ip_number_name};

    /// IP protocol number of the IPv6 hop-by-hop options header (RFC 8200, 4.3): 0.
    pub const IPV6_HEADER_HOP_BY_HOP: IpNumber = IpNumber(0);
    /// IP protocol number of ICMP for IPv4 (RFC 792): 1.
    pub const ICMP: IpNumber = IpNumber(1);
    /// IP protocol number of TCP (RFC 9293): 6.
    pub const TCP: IpNumber = IpNumber(6);
    /// IP protocol number of UDP (RFC 768): 17.
    pub const UDP: IpNumber = IpNumber(17);
    /// IP protocol number of the IPv6 routing header (RFC 8200, 4.4): 43.
    pub const IPV6_ROUTE_HEADER: IpNumber = IpNumber(43);
    /// IP protocol number of the IPv6 fragment header (RFC 8200, 4.5): 44.
    pub const IPV6_FRAGMENTATION_HEADER: IpNumber = IpNumber(44);
    /// IP protocol number of the authentication header (RFC 4302): 51.
    pub const AUTHENTICATION_HEADER: IpNumber = IpNumber(51);
    /// IP protocol number of ICMPv6 (RFC 4443): 58.
    pub const IPV6_ICMP: IpNumber = IpNumber(58);
    /// IP protocol number of the IPv6 destination options header (RFC 8200, 4.6): 60.
    pub const IPV6_DESTINATION_OPTIONS: IpNumber = IpNumber(60);

    /// Returns the name of the `IpNumber` constant with this number, such as `IPV6_ICMP`, or `None` if no constant has
    /// it.
    pub fn name(self) -> Option<&'static str>
        ensures { option_copied result ≡ ip_number_name self.0 }
    {
        match self {
            IpNumber::IPV6_HEADER_HOP_BY_HOP => Some("IPV6_HEADER_HOP_BY_HOP"),
            IpNumber::ICMP => Some("ICMP"),
            IpNumber::TCP => Some("TCP"),
            IpNumber::UDP => Some("UDP"),
            IpNumber::IPV6_ROUTE_HEADER => Some("IPV6_ROUTE_HEADER"),
            IpNumber::IPV6_FRAGMENTATION_HEADER => Some("IPV6_FRAGMENTATION_HEADER"),
            IpNumber::AUTHENTICATION_HEADER => Some("AUTHENTICATION_HEADER"),
            IpNumber::IPV6_ICMP => Some("IPV6_ICMP"),
            IpNumber::IPV6_DESTINATION_OPTIONS => Some("IPV6_DESTINATION_OPTIONS"),
            _ => None,
        }
    }
}

/// IP protocol number of the IPv6 hop-by-hop options header, 0.
pub const IPV6_HEADER_HOP_BY_HOP: IpNumber = IpNumber::IPV6_HEADER_HOP_BY_HOP;
/// IP protocol number of ICMP for IPv4, 1.
pub const ICMP: IpNumber = IpNumber::ICMP;
/// IP protocol number of TCP, 6.
pub const TCP: IpNumber = IpNumber::TCP;
/// IP protocol number of UDP, 17.
pub const UDP: IpNumber = IpNumber::UDP;
/// IP protocol number of the IPv6 routing header, 43.
pub const IPV6_ROUTE_HEADER: IpNumber = IpNumber::IPV6_ROUTE_HEADER;
/// IP protocol number of the IPv6 fragment header, 44.
pub const IPV6_FRAGMENTATION_HEADER: IpNumber = IpNumber::IPV6_FRAGMENTATION_HEADER;
/// IP protocol number of the authentication header, 51.
pub const AUTHENTICATION_HEADER: IpNumber = IpNumber::AUTHENTICATION_HEADER;
/// IP protocol number of ICMPv6, 58.
pub const IPV6_ICMP: IpNumber = IpNumber::IPV6_ICMP;
/// IP protocol number of the IPv6 destination options header, 60.
pub const IPV6_DESTINATION_OPTIONS: IpNumber = IpNumber::IPV6_DESTINATION_OPTIONS;
