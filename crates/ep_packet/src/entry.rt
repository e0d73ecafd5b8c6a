//! Protocol of the first header of a packet: Ethernet II, Linux cooked capture, a given ether type, or IP.

use ep_base::EtherType;

/// Protocol at the first byte of a packet, where slicing or decoding starts: Ethernet II, a Linux cooked capture, a
/// given ether type, or IP.
#[derive(Clone, Copy, Debug, PartialEq, Eq, Drop)]
pub enum Entry {
    /// Ethernet II header at the start of the packet (IEEE 802.3, clause 3).
    Ethernet,
    /// Linux cooked capture header (SLL v1) at the start of the packet.
    LinuxSll,
    /// No link header: the bytes are the payload of a link layer, and the value is their ether type (IPv4, a VLAN tag
    /// ..).
    EtherType(EtherType),
    /// No link header: the bytes are an IP packet, version 4 or 6 by its first byte (RFC 791, 3.1; RFC 8200, 3).
    Ip,
}
