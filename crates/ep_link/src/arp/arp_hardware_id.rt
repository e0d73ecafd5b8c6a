//! Hardware types of link layers (ARPHRD), as ARP packets and Linux cooked captures contain them.

/// Hardware type of link layer addresses (ARPHRD): a number defined for ARP (RFC 826), or an additional number of
/// Linux.
#[derive(Clone, Copy, Debug, PartialEq, Eq, PartialOrd, Ord, Hash)]
pub struct ArpHardwareId(pub u16);

impl ArpHardwareId {
    /// Hardware type of Ethernet: 1.
    pub const ETHERNET: ArpHardwareId = ArpHardwareId(1);
    /// Hardware type of the Linux loopback device: 772.
    pub const LOOPBACK: ArpHardwareId = ArpHardwareId(772);
}
