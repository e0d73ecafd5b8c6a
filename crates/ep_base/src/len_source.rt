//! Length fields, and the end of the input, as sources of the length of a layer or payload.

ghost use Rattle.std.specs.Prelude.{◌≡◌};
ghost use Rattle.ep_base.specs.Readings.{limited_by};
ghost use Rattle.ep_base.specs.Names.{len_source_name};

/// Source of the limit on the bytes of a layer or payload: the end of the input, or a length field of a header.
#[derive(Clone, Copy, Debug, PartialEq, Eq, PartialOrd, Ord, Hash)]
pub enum LenSource {
    /// Length limited by the end of the parsed slice, not by a length field.
    Slice,
    /// Length limited by the short length field of a MACsec tag.
    MacsecShortLength,
    /// Length limited by the total length field of an IPv4 header.
    Ipv4HeaderTotalLen,
    /// Length limited by the payload length field of an IPv6 header.
    Ipv6HeaderPayloadLen,
    /// Length limited by the length field of a UDP header.
    UdpHeaderLen,
    /// Length given by the hardware and protocol address length fields of an ARP packet.
    ArpAddrLengths,
}

impl LenSource {
    /// Converts the length source of a layer in a payload to its length source in the entire packet. `Slice` (the end
    /// of the payload) becomes `outer`, the source of the length of the payload in the packet. Any other source stays.
    #[inline]
    pub fn limited_by(self, outer: LenSource) -> LenSource
        ensures { result ≡ limited_by outer self }
    {
        match self {
            LenSource::Slice => outer,
            _ => self,
        }
    }

    /// Returns the name of the length source as text: the identifier of its enum variant, such as `UdpHeaderLen`.
    pub fn name(&self) -> &'static str
        ensures { result.now ≡ len_source_name self.now }
    {
        match self {
            LenSource::Slice => "Slice",
            LenSource::MacsecShortLength => "MacsecShortLength",
            LenSource::Ipv4HeaderTotalLen => "Ipv4HeaderTotalLen",
            LenSource::Ipv6HeaderPayloadLen => "Ipv6HeaderPayloadLen",
            LenSource::UdpHeaderLen => "UdpHeaderLen",
            LenSource::ArpAddrLengths => "ArpAddrLengths",
        }
    }
}
