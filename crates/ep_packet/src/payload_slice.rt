//! The payload after the last decoded header of a packet.

use ep_base::{EtherPayloadSlice, IpPayloadSlice};

/// Payload after the last decoded header of a packet. The variant names the layer that the header belongs to.
#[derive(Clone, Debug, PartialEq, Eq, PartialOrd, Ord, Hash, Drop)]
pub enum PayloadSlice<'a> {
    /// No payload: the last header is an ARP packet, or nothing was decoded.
    Empty,
    /// Payload of a link layer or link extension (VLAN or MACsec tag), with its ether type: no network layer was
    /// decoded in it.
    Ether(EtherPayloadSlice<'a>),
    /// Payload of unknown type: after a MACsec tag whose payload is modified or encrypted, or in a Linux cooked capture
    /// whose protocol is no ether type.
    MacsecMod(&'a [u8]),
    /// Payload of an IP packet, with its protocol number: no transport header was decoded in it.
    Ip(IpPayloadSlice<'a>),
    /// Payload of UDP: all bytes after the UDP header, not limited by the UDP length field.
    Udp(&'a [u8]),
    /// Payload of TCP: the bytes after the TCP header and its options.
    Tcp(&'a [u8]),
    /// Payload of ICMPv4: the bytes after the ICMPv4 header.
    Icmpv4(&'a [u8]),
    /// Payload of ICMPv6: the bytes after the ICMPv6 header.
    Icmpv6(&'a [u8]),
}

impl<'a> PayloadSlice<'a> {
    ghost use Rattle.std.specs.Prelude.{◌≡◌};
    ghost use Rattle.ep_packet.specs.PayloadParts.{payload_part_bytes, payload_part_of};

    /// Bytes of the packet's payload; an empty slice for `Empty`.
    #[inline]
    pub fn slice(&self) -> &'a [u8]
        ensures { result.now ≡ payload_part_bytes (payload_part_of self.now) }
    {
        match self {
            PayloadSlice::Empty => &[],
            PayloadSlice::Ether(payload) => payload.payload,
            PayloadSlice::Ip(payload) => payload.payload,
            PayloadSlice::MacsecMod(bytes)
            | PayloadSlice::Udp(bytes)
            | PayloadSlice::Tcp(bytes)
            | PayloadSlice::Icmpv4(bytes)
            | PayloadSlice::Icmpv6(bytes) => bytes,
        }
    }
}
