//! Identifier of the IP datagram that a fragment belongs to.

ghost use Rattle.std.specs.Prelude.{◌≡◌};
ghost use Rattle.std.specs.Option.{option_map};
ghost use Rattle.ep_defrag.specs.Pools.{fragment_in};
ghost use Rattle.ep_defrag.specs.Streams.{name_of, source_of};

use crate::carried_fragment::carried_fragment;
use arrayvec::ArrayVec;
use ep_base::{IpNumber, LenSource, VlanId};
use ep_packet::SlicedPacket;

/// Fields of a packet's IP and fragment headers that identify the datagram of a fragment: version, source, destination
/// and identification (RFC 791, 3.1 and RFC 8200, 4.5).
#[derive(Clone, Debug, PartialEq, Eq, Hash, Drop)]
pub enum IpFragVersionSpecId {
    /// Fields of an IPv4 header that identify the datagram of a fragment.
    Ipv4 {
        /// Source address of the IPv4 header.
        source: [u8; 4],
        /// Destination address of the IPv4 header.
        destination: [u8; 4],
        /// Identification field of the IPv4 header, equal in all fragments of a datagram.
        identification: u16,
    },
    /// Fields of an IPv6 packet that identify the datagram of a fragment.
    Ipv6 {
        /// Source address of the IPv6 header.
        source: [u8; 16],
        /// Destination address of the IPv6 header.
        destination: [u8; 16],
        /// Identification field of the IPv6 fragment header, equal in all fragments of a datagram.
        identification: u32,
    },
}

impl IpFragVersionSpecId {
    /// Length field of the IP version: the total length for IPv4, the payload length for IPv6. It limits the bytes of a
    /// fragment, unless it is an IPv6 payload length of 0.
    pub(crate) fn len_source(&self) -> LenSource
        ensures { result ≡ source_of self.now }
    {
        match self {
            IpFragVersionSpecId::Ipv4 { .. } => LenSource::Ipv4HeaderTotalLen,
            IpFragVersionSpecId::Ipv6 { .. } => LenSource::Ipv6HeaderPayloadLen,
        }
    }
}

/// Identifier of a stream (the fragments of one IP datagram). Fragments with equal identifiers are reassembled into one
/// payload.
#[derive(Debug, PartialEq, Eq, Hash, Drop)]
pub struct IpFragId<CustomChannelId> {
    /// VLAN identifiers of the packets that carry the fragments, at most three, outermost first.
    pub vlan_ids: ArrayVec<VlanId, 3>,
    /// IP version, source and destination address and fragment identification of the datagram.
    pub ip: IpFragVersionSpecId,
    /// IP protocol number of the fragmented payload: what the reassembled bytes contain (17 for UDP).
    pub payload_ip_number: IpNumber,
    /// Caller's own value that keeps fragments of different sources apart, for example the number of a capture device.
    pub channel_id: CustomChannelId,
}

impl<CustomChannelId: Drop> IpFragId<CustomChannelId> {
    /// Returns the identifier of the stream that the fragment in a packet belongs to, or `None` if the packet carries
    /// no fragment. [`process_sliced_packet`](crate::IpDefragPool::process_sliced_packet) finds the stream by this
    /// identifier.
    pub fn of_packet(
        packet: &SlicedPacket<'_>,
        channel_id: CustomChannelId,
    ) -> Option<IpFragId<CustomChannelId>>
        ensures { result ≡ option_map (λ carried. name_of carried channel_id) (fragment_in packet.now) }
    {
        let carried = carried_fragment(packet)?;
        Some(IpFragId {
            vlan_ids: carried.vlan_ids,
            ip: carried.ip,
            payload_ip_number: carried.payload_ip_number,
            channel_id,
        })
    }
}
