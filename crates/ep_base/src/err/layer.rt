//! Headers and packets that errors name as the layer with a length error, or at which lax parsing stopped.

ghost use Rattle.std.specs.Prelude.{◌≡◌};
ghost use Rattle.ep_base.specs.Names.{layer_name};

/// Header or packet that an error names: the layer with a length error, or the layer at which lax parsing stopped.
#[derive(Clone, Debug, PartialEq, Eq, Hash, Drop)]
pub enum Layer {
    /// Ethernet II header (IEEE 802.3), 14 bytes.
    Ethernet2Header,
    /// Header of a Linux cooked capture (SLL v1), 16 bytes.
    LinuxSllHeader,
    /// VLAN tag (IEEE 802.1Q), without the ether type that announces it.
    VlanHeader,
    /// MACsec tag (IEEE 802.1AE), including the ether type of an unmodified payload.
    MacsecHeader,
    /// MACsec tag together with its payload, whose length the short length field of the tag states.
    MacsecPacket,
    /// ARP packet (RFC 826).
    Arp,
    /// IP header whose first byte, which contains the version field, is missing or invalid.
    IpHeader,
    /// IPv4 header (RFC 791).
    Ipv4Header,
    /// IPv4 header together with the payload, as long as the total length field of the header states.
    Ipv4Packet,
    /// Authentication header (RFC 4302).
    IpAuthHeader,
    /// IPv6 header (RFC 8200).
    Ipv6Header,
    /// IPv6 header together with the payload, whose length the payload length field of the header states.
    Ipv6Packet,
    /// IPv6 extension header other than the fragment header and the authentication header (RFC 8200, 4).
    Ipv6ExtHeader,
    /// IPv6 fragment header (RFC 8200, 4.5).
    Ipv6FragHeader,
    /// UDP header (RFC 768).
    UdpHeader,
    /// UDP header together with the payload, as long as the length field of the header states.
    UdpPayload,
    /// TCP header (RFC 9293).
    TcpHeader,
    /// ICMP message over IPv4 (RFC 792), of any type.
    Icmpv4,
    /// ICMP timestamp message over IPv4 (RFC 792, type 13).
    Icmpv4Timestamp,
    /// ICMP timestamp reply message over IPv4 (RFC 792, type 14).
    Icmpv4TimestampReply,
    /// ICMPv6 message (RFC 4443).
    Icmpv6,
}

impl Layer {
    /// Returns the name of the layer as text: the identifier of its enum variant, such as `Ipv4Header`.
    pub fn name(&self) -> &'static str
        ensures { result.now ≡ layer_name self.now }
    {
        match self {
            Layer::Ethernet2Header => "Ethernet2Header",
            Layer::LinuxSllHeader => "LinuxSllHeader",
            Layer::VlanHeader => "VlanHeader",
            Layer::MacsecHeader => "MacsecHeader",
            Layer::MacsecPacket => "MacsecPacket",
            Layer::Arp => "Arp",
            Layer::IpHeader => "IpHeader",
            Layer::Ipv4Header => "Ipv4Header",
            Layer::Ipv4Packet => "Ipv4Packet",
            Layer::IpAuthHeader => "IpAuthHeader",
            Layer::Ipv6Header => "Ipv6Header",
            Layer::Ipv6Packet => "Ipv6Packet",
            Layer::Ipv6ExtHeader => "Ipv6ExtHeader",
            Layer::Ipv6FragHeader => "Ipv6FragHeader",
            Layer::UdpHeader => "UdpHeader",
            Layer::UdpPayload => "UdpPayload",
            Layer::TcpHeader => "TcpHeader",
            Layer::Icmpv4 => "Icmpv4",
            Layer::Icmpv4Timestamp => "Icmpv4Timestamp",
            Layer::Icmpv4TimestampReply => "Icmpv4TimestampReply",
            Layer::Icmpv6 => "Icmpv6",
        }
    }
}
