//! Protocol field of Linux cooked captures (SLL v1).

ghost use Rattle.std.specs.Prelude.{◌≡◌};
ghost use Rattle.ep_link.specs.LinuxSll.{knows_hardware, protocol_ether_type, protocol_number, protocol_of};

use crate::arp::ArpHardwareId;
use ep_base::EtherType;

/// Protocol of the payload of a Linux cooked capture (SLL v1), the last field of the header. The ARPHRD hardware type
/// of the header determines how the number is interpreted.
#[derive(Clone, Debug, PartialEq, Eq, Drop)]
pub enum LinuxSllProtocolType {
    /// Ether type of the payload, 0x0600 or greater (hardware types Ethernet and loopback).
    EtherType(EtherType),
    /// Linux specific protocol number, below 0x0600, in place of an ether type (hardware types Ethernet and loopback).
    LinuxNonstandardEtherType(u16),
    /// Number without a meaning, which is ignored (hardware types Frame Relay and IEEE 802.11 with radiotap header).
    Ignored(u16),
    /// Netlink protocol (hardware type netlink).
    NetlinkProtocolType(u16),
    /// Protocol type of a GRE tunnel (hardware type GRE over IP).
    GenericRoutingEncapsulationProtocolType(u16),
}

/// ARPHRD hardware type of Ethernet: 1.
const ETHERNET: u16 = ArpHardwareId::ETHERNET.0;
/// ARPHRD hardware type of a Frame Relay access device.
const FRAME_RELAY: u16 = 770;
/// ARPHRD hardware type of the Linux loopback device: 772.
const LOOPBACK: u16 = ArpHardwareId::LOOPBACK.0;
/// ARPHRD hardware type of a GRE tunnel over IP.
const GRE: u16 = 778;
/// ARPHRD hardware type of IEEE 802.11 with a radiotap header.
const RADIOTAP: u16 = 803;
/// ARPHRD hardware type of netlink.
const NETLINK: u16 = 824;

/// Least number that is an ether type (IEEE 802.3, 3.2.6).
const LEAST_ETHER_TYPE: u16 = 0x0600;

impl LinuxSllProtocolType {
    /// Returns true if the protocol field of a Linux cooked capture can be interpreted for this ARPHRD hardware type:
    /// Ethernet, Frame Relay, loopback, GRE, radiotap or netlink.
    #[inline]
    pub(crate) fn is_known(hardware: ArpHardwareId) -> bool
        ensures { result ≡ knows_hardware hardware.0 }
    {
        matches!(
            hardware.0,
            ETHERNET | FRAME_RELAY | LOOPBACK | GRE | RADIOTAP | NETLINK
        )
    }

    /// Interprets the protocol field `number` of a Linux cooked capture by the ARPHRD hardware type `hardware`, for
    /// which `is_known` must be true.
    #[inline]
    pub(crate) fn of(hardware: ArpHardwareId, number: u16) -> LinuxSllProtocolType
        ensures { result ≡ protocol_of hardware.0 number }
    {
        match hardware.0 {
            NETLINK => LinuxSllProtocolType::NetlinkProtocolType(number),
            GRE => LinuxSllProtocolType::GenericRoutingEncapsulationProtocolType(number),
            FRAME_RELAY | RADIOTAP => LinuxSllProtocolType::Ignored(number),
            _ if number < LEAST_ETHER_TYPE => {
                LinuxSllProtocolType::LinuxNonstandardEtherType(number)
            }
            _ => LinuxSllProtocolType::EtherType(EtherType(number)),
        }
    }

    /// Protocol number as the header of a Linux cooked capture contains it.
    #[inline]
    pub fn number(&self) -> u16
        ensures { result ≡ protocol_number self.now }
    {
        match self {
            LinuxSllProtocolType::EtherType(ether_type) => ether_type.0,
            LinuxSllProtocolType::LinuxNonstandardEtherType(number)
            | LinuxSllProtocolType::Ignored(number)
            | LinuxSllProtocolType::NetlinkProtocolType(number)
            | LinuxSllProtocolType::GenericRoutingEncapsulationProtocolType(number) => *number,
        }
    }

    /// Ether type of the payload, or `None` if the protocol field of the Linux cooked capture is not an ether type.
    #[inline]
    pub fn ether_type(&self) -> Option<EtherType>
        ensures { result ≡ protocol_ether_type self.now }
    {
        match self {
            LinuxSllProtocolType::EtherType(ether_type) => Some(*ether_type),
            _ => None,
        }
    }
}
