//! Header fields and payload lengths that reject numbers above a maximum.

ghost use Rattle.std.specs.Prelude.{◌≡◌};
ghost use Rattle.ep_base.specs.Names.{value_type_name};

/// Header field or payload length that a rejected number was too big for.
#[derive(Clone, Debug, PartialEq, Eq, Hash, Drop)]
pub enum ValueType {
    /// Identifier (VID) of a VLAN tag, 12 bits.
    VlanId,
    /// Priority code point of a VLAN tag, 3 bits.
    VlanPcp,
    /// Fragment offset of an IPv4 header or IPv6 fragment header, in units of 8 bytes, 13 bits.
    IpFragmentOffset,
    /// Differentiated services code point of an IPv4 header, 6 bits.
    Ipv4Dscp,
    /// Explicit congestion notification of an IPv4 header, 2 bits.
    Ipv4Ecn,
    /// Flow label of an IPv6 header, 20 bits.
    Ipv6FlowLabel,
    /// Short length of a MACsec tag, 6 bits.
    MacsecShortLen,
    /// Association number of a MACsec tag, 2 bits.
    MacsecAn,
    /// Length in bytes of the payload after an IPv4 header.
    Ipv4PayloadLength,
    /// Length in bytes of the payload after an IPv6 header.
    Ipv6PayloadLength,
    /// Length in bytes of a UDP payload over IPv4.
    UdpPayloadLengthIpv4,
    /// Length in bytes of a UDP payload over IPv6.
    UdpPayloadLengthIpv6,
    /// Length in bytes of a TCP payload over IPv4, or of the entire segment if the checksum of a `TcpSlice` is
    /// computed.
    TcpPayloadLengthIpv4,
    /// Length in bytes of a TCP payload over IPv6, or of the entire segment if the checksum of a `TcpSlice` is
    /// computed.
    TcpPayloadLengthIpv6,
    /// Length in bytes of the data after an ICMPv6 header.
    Icmpv6PayloadLength,
}

impl ValueType {
    /// Returns the name of the header field or payload length as text: the identifier of its enum variant, such as
    /// `VlanId`.
    pub fn name(&self) -> &'static str
        ensures { result.now ≡ value_type_name self.now }
    {
        match self {
            ValueType::VlanId => "VlanId",
            ValueType::VlanPcp => "VlanPcp",
            ValueType::IpFragmentOffset => "IpFragmentOffset",
            ValueType::Ipv4Dscp => "Ipv4Dscp",
            ValueType::Ipv4Ecn => "Ipv4Ecn",
            ValueType::Ipv6FlowLabel => "Ipv6FlowLabel",
            ValueType::MacsecShortLen => "MacsecShortLen",
            ValueType::MacsecAn => "MacsecAn",
            ValueType::Ipv4PayloadLength => "Ipv4PayloadLength",
            ValueType::Ipv6PayloadLength => "Ipv6PayloadLength",
            ValueType::UdpPayloadLengthIpv4 => "UdpPayloadLengthIpv4",
            ValueType::UdpPayloadLengthIpv6 => "UdpPayloadLengthIpv6",
            ValueType::TcpPayloadLengthIpv4 => "TcpPayloadLengthIpv4",
            ValueType::TcpPayloadLengthIpv6 => "TcpPayloadLengthIpv6",
            ValueType::Icmpv6PayloadLength => "Icmpv6PayloadLength",
        }
    }
}
