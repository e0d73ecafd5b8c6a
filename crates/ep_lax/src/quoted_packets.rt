//! The packet that an ICMP error message quotes: the start of the packet that caused the error.

ghost use Rattle.std.specs.Prelude.{◌≡◌};
ghost use Rattle.std.specs.Option.{option_copied};
ghost use Rattle.ep_transport.specs.TransportParts.{transport_layer_of};
ghost use Rattle.ep_lax.specs.QuotedPackets.{is_icmpv4_error, payload_if, quoted_in};

use ep_transport::TransportSlice;

/// Returns the packet that an ICMP error message quotes: the message's payload, all bytes after its 8-byte header. They
/// begin with the IP header of the packet that caused the error. Returns `None` for other ICMP messages, UDP and TCP.
///
/// Error messages are destination unreachable, source quench, redirect, time exceeded and parameter problem of ICMPv4
/// (types 3, 4, 5, 11 and 12, RFC 792), and all ICMPv6 messages of types below 128 (RFC 4443, 2.1 and 2.4). The packet
/// is usually truncated; [`LaxSlicedPacket::from_ip`](crate::LaxSlicedPacket::from_ip) reads its layers. Extensions
/// after the packet (RFC 4884) are not separated from it.
pub fn quoted_packet<'a>(transport: &TransportSlice<'a>) -> Option<&'a [u8]>
    ensures { option_copied result ≡ quoted_in (transport_layer_of transport.now) }
{
    match transport {
        TransportSlice::Udp(_) | TransportSlice::Tcp(_) => None,
        TransportSlice::Icmpv4(message) => {
            payload_if(is_icmpv4_error(message.type_u8()), message.payload())
        }
        TransportSlice::Icmpv6(message) => {
            payload_if(message.type_u8() < 128, message.payload())
        }
    }
}

/// Returns the payload of an ICMP message if `quoted` is true (the payload is a quoted packet), and `None` otherwise.
fn payload_if(quoted: bool, payload: &[u8]) -> Option<&[u8]>
    ensures { option_copied result ≡ payload_if quoted payload.now }
{
    if quoted { Some(payload) } else { None }
}

/// Returns true if the ICMPv4 type is that of an error message: 3, 4, 5, 11 or 12 (RFC 792).
fn is_icmpv4_error(message_type: u8) -> bool
    ensures { result ≡ is_icmpv4_error message_type }
{
    matches!(message_type, 3 | 4 | 5 | 11 | 12)
}
