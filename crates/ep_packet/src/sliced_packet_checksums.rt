//! Verdicts about the checksums of a sliced packet.

use crate::checksum_verdict::ChecksumVerdicts;
use crate::net_slice::NetSlice;
use crate::sliced_packet::SlicedPacket;

impl<'a> SlicedPacket<'a> {
    ghost use Rattle.std.specs.Prelude.{◌≡◌};
    ghost use Rattle.ep_packet.specs.Verdicts.{checksums_of};

    /// Returns whether the checksums of the IPv4 header and of the transport layer are valid.
    ///
    /// The first of these cases decides about the transport layer:
    ///
    /// 1. `Unknown`: the IP payload is a fragment, or no length field counts it, as in a jumbogram; there is an IPv6
    ///    routing header, or an IPv4 option that is a source route; or the message is one of ICMPv6 over IPv4, for which
    ///    no pseudo header is defined.
    /// 2. `Absent`: the message is a UDP datagram over IPv4 with checksum 0.
    /// 3. `Invalid`: the message is a UDP datagram over IPv6 with checksum 0.
    /// 4. `Unknown`: the length field of UDP is 0, or the length of the message does not fit the pseudo header.
    /// 5. `Valid` if the one's complement sum of pseudo header and message is 65535, otherwise `Invalid`. ICMPv4 has no
    ///    pseudo header. The source of the pseudo header is that of the IPv6 header, also after a home address option
    ///    (RFC 6275, 11.2.4), which replaces it in the sender's sum.
    pub fn checksums(&self) -> ChecksumVerdicts
        ensures { result ≡ checksums_of self.now }
    {
        match &self.net {
            Some(NetSlice::Ipv4(packet)) => {
                let header = packet.header();
                ChecksumVerdicts::of_ipv4(&header, packet.payload(), false, &self.transport)
            }
            Some(NetSlice::Ipv6(packet)) => ChecksumVerdicts::of_ipv6(
                &packet.header(),
                packet.extensions(),
                packet.payload(),
                false,
                &self.transport,
            ),
            Some(NetSlice::Arp(_)) | None => ChecksumVerdicts::without_ip(&self.transport),
        }
    }
}
