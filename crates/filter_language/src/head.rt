//! Qualifiers of values in filter expressions.

use filter_tokens::primitive::{AddressLayer, IpVersion, PortProtocol, Side};

/// Qualifiers of a value: what `tcp src port` says of the `80` after it.
#[derive(Clone, Copy)]
pub enum Head {
    /// `host`: an address.
    Host(AddressLayer, Side),
    /// `net`: a network.
    Net(AddressLayer, Side),
    /// `ether host`: a MAC address.
    Station(Side),
    /// `port`: a port.
    Port(PortProtocol, Side),
    /// `portrange`: a range of ports.
    PortRange(PortProtocol, Side),
    /// `proto`: an IP protocol number.
    Protocol(IpVersion),
    /// `ether proto`: an ether type.
    EtherType,
}
