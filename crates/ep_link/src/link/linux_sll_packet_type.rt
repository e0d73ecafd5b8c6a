//! Packet types of Linux cooked captures (SLL v1).

/// Packet type of a Linux cooked capture (SLL v1): to whom or by whom the packet was sent.
#[derive(Clone, Debug, PartialEq, Eq, Drop)]
pub struct LinuxSllPacketType(pub u16);

impl LinuxSllPacketType {
    /// Packet type 0 of Linux cooked captures: sent to this host.
    pub const HOST: LinuxSllPacketType = LinuxSllPacketType(0);
    /// Packet type 1 of Linux cooked captures: broadcast to all hosts.
    pub const BROADCAST: LinuxSllPacketType = LinuxSllPacketType(1);
    /// Packet type 2 of Linux cooked captures: multicast to a group of hosts.
    pub const MULTICAST: LinuxSllPacketType = LinuxSllPacketType(2);
    /// Packet type 3 of Linux cooked captures: sent to another host.
    pub const OTHERHOST: LinuxSllPacketType = LinuxSllPacketType(3);
    /// Packet type 4 of Linux cooked captures: sent by this host.
    pub const OUTGOING: LinuxSllPacketType = LinuxSllPacketType(4);
    /// Packet type 5 of Linux cooked captures: multicast or broadcast packet that was looped back to this host.
    pub const LOOPBACK: LinuxSllPacketType = LinuxSllPacketType(5);
    /// Packet type 6 of Linux cooked captures: sent to user space.
    pub const USER: LinuxSllPacketType = LinuxSllPacketType(6);
    /// Packet type 7 of Linux cooked captures: sent to kernel space.
    pub const KERNEL: LinuxSllPacketType = LinuxSllPacketType(7);
}
