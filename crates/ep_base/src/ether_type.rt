//! Ether types (IEEE 802.3, 3.2.6), with constants for the protocols that this library knows.

/// Ether type: the 16 bit number, assigned by IEEE, of the protocol in the payload of a link layer.
#[derive(Clone, Copy, Debug, PartialEq, Eq, PartialOrd, Ord, Hash)]
pub struct EtherType(pub u16);

impl EtherType {
    ghost use Rattle.std.specs.Prelude.{◌≡◌, option_copied};
    ghost use Rattle.ep_base.specs.Names.{ether_type_name};

    /// Ether type of IPv4 (RFC 791): 0x0800.
    pub const IPV4: EtherType = EtherType(0x0800);
    /// Ether type of ARP, the Address Resolution Protocol (RFC 826): 0x0806.
    pub const ARP: EtherType = EtherType(0x0806);
    /// Ether type of IPv6 (RFC 8200): 0x86DD.
    pub const IPV6: EtherType = EtherType(0x86DD);
    /// Ether type of a customer VLAN tag (IEEE 802.1Q): 0x8100.
    pub const VLAN_TAGGED_FRAME: EtherType = EtherType(0x8100);
    /// Ether type of a service VLAN tag of provider bridging (IEEE 802.1Q): 0x88A8.
    pub const PROVIDER_BRIDGING: EtherType = EtherType(0x88A8);
    /// Older ether type of the outer VLAN tag of double tagged frames: 0x9100.
    pub const VLAN_DOUBLE_TAGGED_FRAME: EtherType = EtherType(0x9100);
    /// Ether type of a MACsec tag (IEEE 802.1AE): 0x88E5.
    pub const MACSEC: EtherType = EtherType(0x88E5);

    /// Returns the name of the `EtherType` constant with this number, such as `PROVIDER_BRIDGING`, or `None` if no
    /// constant has it.
    pub fn name(self) -> Option<&'static str>
        ensures { option_copied result ≡ ether_type_name self.0 }
    {
        match self {
            EtherType::IPV4 => Some("IPV4"),
            EtherType::ARP => Some("ARP"),
            EtherType::IPV6 => Some("IPV6"),
            EtherType::VLAN_TAGGED_FRAME => Some("VLAN_TAGGED_FRAME"),
            EtherType::PROVIDER_BRIDGING => Some("PROVIDER_BRIDGING"),
            EtherType::VLAN_DOUBLE_TAGGED_FRAME => Some("VLAN_DOUBLE_TAGGED_FRAME"),
            EtherType::MACSEC => Some("MACSEC"),
            _ => None,
        }
    }
}

/// Ether type of IPv4, 0x0800.
pub const IPV4: EtherType = EtherType::IPV4;
/// Ether type of ARP, 0x0806.
pub const ARP: EtherType = EtherType::ARP;
/// Ether type of IPv6, 0x86DD.
pub const IPV6: EtherType = EtherType::IPV6;
/// Ether type of a customer VLAN tag, 0x8100.
pub const VLAN_TAGGED_FRAME: EtherType = EtherType::VLAN_TAGGED_FRAME;
/// Ether type of a service VLAN tag of provider bridging, 0x88A8.
pub const PROVIDER_BRIDGING: EtherType = EtherType::PROVIDER_BRIDGING;
/// Older ether type of the outer VLAN tag of double tagged frames, 0x9100.
pub const VLAN_DOUBLE_TAGGED_FRAME: EtherType = EtherType::VLAN_DOUBLE_TAGGED_FRAME;
/// Ether type of a MACsec tag, 0x88E5.
pub const MACSEC: EtherType = EtherType::MACSEC;
