//! Builds the frame of a UDP datagram over IPv6 with extension headers.

ghost use Rattle.std.specs.Prelude.{◌≡◌};
ghost use Rattle.etherparse.specs.AppendedFrames.{AppendsFrame};
ghost use Rattle.example_generators.specs.Reports.{ip_headers, report_headers};

use etherparse::err::packet::BuildWriteError;
use etherparse::{
    IpHeaders, IpNumber, Ipv6Extensions, Ipv6Header, Ipv6RawExtHeader, PacketBuilder,
};

/// Builds the Ethernet frame of a UDP datagram with this payload from port 4000 to port 53, over IPv6 with extension
/// headers, and appends it to the buffer.
pub fn write_report(payload: &[u8], buf: &mut Vec<u8>) -> Result<(), BuildWriteError>
    ensures { AppendsFrame report_headers payload.now buf.old buf.new result }
{
    PacketBuilder::ethernet2([2, 0, 0, 0, 0, 1], [2, 0, 0, 0, 0, 2])
        .ip(ip_headers())
        .udp(4000, 53)
        .write(buf, payload)
}

/// Returns an IPv6 header with two extension headers: hop-by-hop options with a router alert (RFC 2711), and
/// destination options with nothing but padding. The addresses are reserved for documentation (RFC 3849).
fn ip_headers() -> IpHeaders
    ensures { result ≡ ip_headers }
{
    let header = Ipv6Header {
        hop_limit: 64,
        source: [0x20, 1, 0x0d, 0xb8, 0, 0, 0, 0, 0, 0, 0, 0, 0, 0, 0, 1],
        destination: [0x20, 1, 0x0d, 0xb8, 0, 0, 0, 0, 0, 0, 0, 0, 0, 0, 0, 2],
        ..Default::default()
    };
    let alert = Ipv6RawExtHeader::new_raw(IpNumber(0), &[5, 2, 0, 0, 1, 0]).unwrap();
    let padding = Ipv6RawExtHeader::new_raw(IpNumber(0), &[1, 4, 0, 0, 0, 0]).unwrap();
    let extensions = Ipv6Extensions {
        hop_by_hop_options: Some(alert),
        destination_options: Some(padding),
        ..Default::default()
    };
    IpHeaders::Ipv6(header, extensions)
}
