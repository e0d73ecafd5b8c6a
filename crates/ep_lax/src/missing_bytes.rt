//! Number of payload bytes that are missing from a truncated packet, by the length fields of its headers.

ghost use Rattle.std.specs.Prelude.{◌≡◌, ◌≤◌, ◌<◌, ◌^◌};
ghost use Rattle.ep_lax.specs.LaxPackets.{lax_layers_of};
ghost use Rattle.ep_lax.specs.LaxViews.{lax_net_layer_of};
ghost use Rattle.ep_lax.specs.MissingBytes.{bytes_missing, missing_bytes, net_missing};
ghost use Rattle.ep_lax.specs.StrictFrames.{layers_in};

use crate::lax_net_slice::LaxNetSlice;
use crate::lax_sliced_packet::LaxSlicedPacket;
use ep_ip::Ipv6Header;
use ep_transport::{TransportSlice, UdpHeader};

impl<'a> LaxNetSlice<'a> {
    /// Returns the number of bytes of the IP payload that are missing, by the total length of IPv4 or the payload
    /// length of IPv6: 0 to 65,535. 0 if none is missing, if the length field is below the length of the headers that
    /// it includes (such as 0), and for ARP. A truncated or invalid extension header is part of the payload.
    pub fn missing_bytes(&self) -> usize
        ensures value { result ≡ net_missing (lax_net_layer_of self.now) }
        ensures bound { result < 2 ^ 16 }
    {
        let headers_len = self.header_len();
        match self {
            LaxNetSlice::Ipv4(packet) => {
                let stated = usize::from(packet.header().total_len());
                bytes_missing(stated, headers_len, packet.payload().payload)
            }
            LaxNetSlice::Ipv6(packet) => {
                let stated = usize::from(packet.header().payload_length());
                let extensions_len = headers_len - Ipv6Header::LEN;
                bytes_missing(stated, extensions_len, packet.payload().payload)
            }
            LaxNetSlice::Arp(_) => 0,
        }
    }
}

impl<'a> LaxSlicedPacket<'a> {
    /// Returns the number of bytes of the last layer's payload that are missing, by the length field of UDP or IP: 0 to
    /// 65,535. The length field of IP decides if the last layer is not UDP, or if the UDP length is below 8 (the UDP
    /// header). 0 if none is missing, and without an IP layer, also if bytes of a MACsec payload are missing.
    pub fn missing_bytes(&self) -> usize
        ensures value { result ≡ missing_bytes (layers_in (lax_layers_of self.now)) }
        ensures bound { result < 2 ^ 16 }
    {
        let outer = match &self.net {
            Some(net) => net.missing_bytes(),
            None => 0,
        };
        match &self.transport {
            Some(TransportSlice::Udp(datagram)) => {
                let stated = usize::from(datagram.length());
                if stated < UdpHeader::LEN {
                    outer
                } else {
                    bytes_missing(stated, UdpHeader::LEN, datagram.payload())
                }
            }
            _ => outer,
        }
    }
}

/// Returns the number of missing bytes of a payload: `stated`, the value of a length field, less the length of the
/// headers that it includes, and less the length of the available payload. 0 if it is less than their sum.
#[inline]
fn bytes_missing(stated: usize, headers_len: usize, payload: &[u8]) -> usize
    ensures value { result ≡ bytes_missing stated headers_len payload.now }
    ensures bound { result ≤ stated }
{
    stated
        .saturating_sub(headers_len)
        .saturating_sub(payload.len())
}
