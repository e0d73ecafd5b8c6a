//! Builds the frames of the IPv4 fragments of a payload that is too long for one Ethernet frame.

ghost use Rattle.std.specs.Prelude.{◌≡◌, ◌*◌, IfSome};
ghost use Rattle.std.specs.Option.{option_map};
ghost use Rattle.etherparse.specs.AppendedFrames.{AppendsFrame};
ghost use Rattle.etherparse.specs.IpFragments.{fragment_with};
ghost use Rattle.etherparse.specs.PayloadCuts.{IsCut};
ghost use Rattle.example_generators.specs.Fragments.{fragment_headers, fragment_payload, ip_headers};

use etherparse::err::packet::BuildWriteError;
use etherparse::{IpFragOffset, IpHeaders, IpNumber, Ipv4Header, PacketBuilder};

/// Number of payload bytes in each IPv4 fragment but the last: the MTU of 1500 bytes minus the IPv4 header of 20 bytes.
/// It is a multiple of 8, as fragment offsets require.
const MAX_PAYLOAD_LEN: usize = 1480;

/// Returns the bytes of the payload for the fragment with this offset, at most 1480, and true if more bytes follow (the
/// More Fragments flag). Returns `None` if the offset is not before the end of the payload.
pub fn fragment_payload(payload: &[u8], offset: IpFragOffset) -> Option<(&[u8], bool)>
    ensures value { option_map (λ found. (found.0.now, found.1)) result ≡ fragment_payload payload.now (8 * offset) }
    ensures cut { IfSome result (λ found. IsCut payload.now (fragment_with offset found.1 found.0.now)) }
{
    let start = usize::from(offset.byte_offset());
    if payload.len() <= start {
        return None;
    }
    let end = payload.len().min(start + MAX_PAYLOAD_LEN);
    Some((&payload[start..end], end < payload.len()))
}

/// Builds the Ethernet frame of an IPv4 fragment with this offset, the More Fragments flag `more` and this payload, and
/// appends it to `buf`.
pub fn write_fragment(
    offset: IpFragOffset,
    more: bool,
    payload: &[u8],
    buf: &mut Vec<u8>,
) -> Result<(), BuildWriteError>
    ensures { AppendsFrame (fragment_headers offset more) payload.now buf.old buf.new result }
{
    PacketBuilder::ethernet2([2, 0, 0, 0, 0, 1], [2, 0, 0, 0, 0, 2])
        .ip(ip_headers(offset, more))
        .write(buf, IpNumber::UDP, payload)
}

/// Returns the IPv4 header of a fragment with this offset and the More Fragments flag `more`. All fragments have the
/// identification 1, so they are reassembled into one datagram.
fn ip_headers(offset: IpFragOffset, more: bool) -> IpHeaders
    ensures { result ≡ ip_headers offset more }
{
    let header = Ipv4Header {
        identification: 1,
        dont_fragment: false,
        more_fragments: more,
        fragment_offset: offset,
        time_to_live: 64,
        source: [192, 0, 2, 1],
        destination: [192, 0, 2, 2],
        ..Default::default()
    };
    IpHeaders::Ipv4(header, Default::default())
}
