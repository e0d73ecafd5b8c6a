//! Verdicts about the checksums of a packet read by lax slicing.

ghost use Rattle.std.specs.Prelude.{◌≡◌};
ghost use Rattle.ep_base.specs.IpPayload.{ip_payload_of, lax_ip_payload_of};

use crate::lax_net_slice::LaxNetSlice;
use crate::lax_sliced_packet::LaxSlicedPacket;
use crate::lax_sliced_packet_payload::transport_incomplete;
use ep_base::{IpPayloadSlice, LaxIpPayloadSlice};
use ep_packet::ChecksumVerdicts;

impl<'a> LaxSlicedPacket<'a> {
    ghost use Rattle.std.specs.Prelude.{◌≡◌};
    ghost use Rattle.ep_lax.specs.LaxVerdicts.{lax_checksums_of};

    /// Returns whether the checksums of the IPv4 header and of the transport layer are valid, by the rules of
    /// `SlicedPacket::checksums`. That of the transport layer is also `Unknown` if bytes of its payload are missing.
    pub fn checksums(&self) -> ChecksumVerdicts
        ensures { result ≡ lax_checksums_of self.now }
    {
        match &self.net {
            Some(LaxNetSlice::Ipv4(packet)) => {
                let payload = packet.payload();
                ChecksumVerdicts::of_ipv4(
                    &packet.header(),
                    &available(payload),
                    transport_incomplete(payload.incomplete, &self.transport),
                    &self.transport,
                )
            }
            Some(LaxNetSlice::Ipv6(packet)) => {
                let payload = packet.payload();
                ChecksumVerdicts::of_ipv6(
                    &packet.header(),
                    packet.extensions(),
                    &available(payload),
                    transport_incomplete(payload.incomplete, &self.transport),
                    &self.transport,
                )
            }
            Some(LaxNetSlice::Arp(_)) | None => ChecksumVerdicts::without_ip(&self.transport),
        }
    }
}

/// Returns the available bytes of an IP payload, with its protocol number, the source of its length, and whether it is
/// a fragment.
#[inline]
fn available<'a>(payload: &LaxIpPayloadSlice<'a>) -> IpPayloadSlice<'a>
    ensures { ip_payload_of result ≡ lax_ip_payload_of payload.now }
{
    IpPayloadSlice {
        ip_number: payload.ip_number,
        fragmented: payload.fragmented,
        len_source: payload.len_source,
        payload: payload.payload,
    }
}
