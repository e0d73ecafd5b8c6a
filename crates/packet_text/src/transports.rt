//! Formatting of transport layers (UDP, TCP, ICMPv4 and ICMPv6) as text of a packet's line.

ghost use Rattle.std.specs.Prelude.{◌≡◌, ◌<◌, ◌++◌, OnOk};
ghost use Rattle.etherparse.specs.Tcp.{flag_at, tcp_header_of};
ghost use Rattle.etherparse.specs.TransportParts.{transport_layer_of};
ghost use Rattle.etherparse.specs.UdpSlices.{udp_slice_header, udp_slice_payload};
ghost use Rattle.etherparse.specs.Types.TransportHeader.TheVariants as header;
ghost use Rattle.packet_text.specs.Transports.{acknowledgment_text, flag_text, flags_text, header_start_text, len_text};
ghost use Rattle.packet_text.specs.Transports.{no_length_text, ports_at, ports_text, state_at, state_text};
ghost use Rattle.packet_text.specs.Transports.{tcp_start_text};
ghost use Rattle.packet_text.specs.Transports.{tcp_text, transport_text, udp_start_text, udp_text};

use crate::icmp_messages::{push_icmpv4, push_icmpv6};
use ep_base::bytes::{byte_at, long_at, word_at};
use etherparse::{IpNumber, TransportSlice, UdpSlice};
use line_io::decimals;
use std::alloc::AllocError;

/// Appends the text of a transport layer (UDP, TCP, ICMPv4 or ICMPv6), and the length of its payload.
pub fn push_transport(
    output: &mut Vec<u8>,
    transport: &TransportSlice<'_>,
) -> Result<(), AllocError>
    ensures { OnOk result (output.new.items
        ≡ output.old.items ++ transport_text (transport_layer_of transport.now)) }
{
    match transport {
        TransportSlice::Udp(datagram) => push_datagram(output, datagram),
        TransportSlice::Tcp(segment) => {
            push_tcp(output, segment.slice())?;
            push_len(output, segment.payload())
        }
        TransportSlice::Icmpv4(message) => {
            push_icmpv4(output, &message.icmp_type())?;
            push_len(output, message.payload())
        }
        TransportSlice::Icmpv6(message) => {
            push_icmpv6(output, &message.icmp_type())?;
            push_len(output, message.payload())
        }
    }
}

/// Appends the source and the destination port of UDP or TCP: `21 > 1234`.
fn push_ports(output: &mut Vec<u8>, source: u16, destination: u16) -> Result<(), AllocError>
    ensures { OnOk result (output.new.items ≡ output.old.items ++ ports_text source destination) }
{
    decimals::push(output, u64::from(source))?;
    decimals::push_with_text(output, b" > ", u64::from(destination))
}

/// Appends ` len N`, the number of captured bytes of a payload.
pub fn push_len(output: &mut Vec<u8>, payload: &[u8]) -> Result<(), AllocError>
    ensures { OnOk result (output.new.items ≡ output.old.items ++ len_text payload.now) }
{
    decimals::push_with_text(output, b" len ", payload.len() as u64)
}

/// Appends the text of a UDP datagram: its ports, and the length of its payload.
fn push_datagram(output: &mut Vec<u8>, datagram: &UdpSlice<'_>) -> Result<(), AllocError>
    ensures { OnOk result (output.new.items ≡ output.old.items ++ (udp_text (udp_slice_header datagram.now)
        ++ no_length_text (header.Udp (udp_slice_header datagram.now)) (udp_slice_payload datagram.now)
        ++ len_text (udp_slice_payload datagram.now))) }
{
    push_udp(output, datagram)?;
    push_no_length(output, datagram)?;
    push_len(output, datagram.payload())
}

/// Appends ` udp` and the source and destination port of a UDP header.
fn push_udp(output: &mut Vec<u8>, datagram: &UdpSlice<'_>) -> Result<(), AllocError>
    ensures { OnOk result (output.new.items ≡ output.old.items ++ udp_text (udp_slice_header datagram.now)) }
{
    output.extend_from_slice(b" udp ")?;
    push_ports(output, datagram.source_port(), datagram.destination_port())
}

/// Appends ` length 0` if the length field of UDP is 0 though payload bytes follow the header.
fn push_no_length(output: &mut Vec<u8>, datagram: &UdpSlice<'_>) -> Result<(), AllocError>
    ensures { OnOk result (output.new.items ≡ output.old.items
        ++ no_length_text (header.Udp (udp_slice_header datagram.now)) (udp_slice_payload datagram.now)) }
{
    if datagram.length() == 0 && datagram.payload().len() > 0 {
        output.extend_from_slice(b" length 0")?;
    }
    Ok(())
}

/// Appends the fields at the start of a UDP or TCP header that is truncated, invalid or in a first fragment: the ports,
/// if these 4 bytes are captured, and further fields of TCP. Appends nothing for other protocols.
pub fn push_header_start(
    output: &mut Vec<u8>,
    number: IpNumber,
    bytes: &[u8],
) -> Result<(), AllocError>
    ensures { OnOk result (output.new.items ≡ output.old.items ++ header_start_text number.0 bytes.now) }
{
    if bytes.len() < 4 {
        return Ok(());
    }
    if number.0 == 17 {
        return push_udp_start(output, bytes);
    }
    if number.0 == 6 {
        return push_tcp_start(output, bytes);
    }
    Ok(())
}

/// Appends ` udp` and the ports of a UDP header that is truncated or in a first fragment. `bytes` has at least the
/// first 4 bytes of the header.
fn push_udp_start(output: &mut Vec<u8>, bytes: &[u8]) -> Result<(), AllocError>
    ensures { OnOk result (output.new.items ≡ output.old.items ++ udp_start_text bytes.now) }
{
    output.extend_from_slice(b" udp ")?;
    push_ports_at(output, bytes)
}

/// Appends ` tcp` and the ports of a TCP header that is truncated, invalid or in a first fragment, and its flags and
/// sequence numbers if its first 14 bytes are captured.
fn push_tcp_start(output: &mut Vec<u8>, bytes: &[u8]) -> Result<(), AllocError>
    ensures { OnOk result (output.new.items ≡ output.old.items ++ tcp_start_text bytes.now) }
{
    output.extend_from_slice(b" tcp ")?;
    push_ports_at(output, bytes)?;
    push_state_at(output, bytes)
}

/// Appends the source and the destination port of the UDP or TCP header at the start of `bytes` (its bytes 0 to 3).
fn push_ports_at(output: &mut Vec<u8>, bytes: &[u8]) -> Result<(), AllocError>
    ensures { OnOk result (output.new.items ≡ output.old.items ++ ports_at bytes.now) }
{
    push_ports(output, word_at(bytes, 0), word_at(bytes, 2))
}

/// Appends the flags and the sequence numbers of the TCP header at the start of `bytes`, if its first 14 bytes are
/// captured.
fn push_state_at(output: &mut Vec<u8>, bytes: &[u8]) -> Result<(), AllocError>
    ensures { OnOk result (output.new.items ≡ output.old.items ++ state_at bytes.now) }
{
    if bytes.len() >= 14 {
        push_state(output, bytes)?;
    }
    Ok(())
}

/// Appends the text of the TCP header at the start of `bytes`: ports, flags and sequence numbers.
fn push_tcp(output: &mut Vec<u8>, bytes: &[u8]) -> Result<(), AllocError>
    ensures { OnOk result (output.new.items ≡ output.old.items ++ tcp_text (tcp_header_of bytes.now)) }
{
    output.extend_from_slice(b" tcp ")?;
    push_ports_at(output, bytes)?;
    push_state(output, bytes)
}

/// Appends the flags and the sequence numbers of the TCP header at the start of `bytes`.
fn push_state(output: &mut Vec<u8>, bytes: &[u8]) -> Result<(), AllocError>
    ensures { OnOk result (output.new.items ≡ output.old.items ++ state_text (tcp_header_of bytes.now)) }
{
    output.extend_from_slice(b" [")?;
    push_flags(output, bytes)?;
    decimals::push_with_text(output, b"] seq ", u64::from(long_at(bytes, 4)))?;
    push_acknowledgment(output, bytes)
}

/// Appends a letter for each flag that is set in the TCP header at the start of `bytes` (SYN is `S`, ACK `A` ..).
#[tactic(auto, unfolding(crate::specs::Transports::flags_text))]
fn push_flags(output: &mut Vec<u8>, bytes: &[u8]) -> Result<(), AllocError>
    ensures { OnOk result (output.new.items ≡ output.old.items ++ flags_text (tcp_header_of bytes.now)) }
{
    push_flag_at(output, bytes, 1, b'S')?;
    push_flag_at(output, bytes, 0, b'F')?;
    push_flag_at(output, bytes, 2, b'R')?;
    push_flag_at(output, bytes, 3, b'P')?;
    push_flag_at(output, bytes, 4, b'A')?;
    push_flag_at(output, bytes, 5, b'U')?;
    push_flag_at(output, bytes, 6, b'E')?;
    push_flag_at(output, bytes, 7, b'C')?;
    push_nonce(output, bytes)
}

/// Appends `letter` if a flag is set in the TCP header at the start of `bytes`; `bit` is the flag's bit in byte 13, 0
/// for FIN.
fn push_flag_at(output: &mut Vec<u8>, bytes: &[u8], bit: u32, letter: u8) -> Result<(), AllocError>
    requires { bit < 8 }
    ensures { OnOk result (output.new.items ≡ output.old.items ++ flag_text (flag_at bytes.now bit) letter) }
{
    push_flag(output, flag_at(bytes, bit), letter)
}

/// Returns whether a flag is set in the TCP header at the start of `bytes`; `bit` is the flag's bit in byte 13, 0 for
/// FIN.
fn flag_at(bytes: &[u8], bit: u32) -> bool
    requires { bit < 8 }
    ensures { result ≡ flag_at bytes.now bit }
{
    (byte_at(bytes, 13) >> bit) % 2 == 1
}

/// Appends `N` if the NS flag (ECN-nonce) is set in the TCP header at the start of `bytes` (byte 12, bit 0).
fn push_nonce(output: &mut Vec<u8>, bytes: &[u8]) -> Result<(), AllocError>
    ensures { OnOk result (output.new.items
        ≡ output.old.items ++ flag_text (tcp_header_of bytes.now).ns 78) }
{
    push_flag(output, byte_at(bytes, 12) % 2 == 1, b'N')
}

/// Appends the letter of a TCP flag, if the flag is set.
fn push_flag(output: &mut Vec<u8>, set: bool, letter: u8) -> Result<(), AllocError>
    ensures { OnOk result (output.new.items ≡ output.old.items ++ flag_text set letter) }
{
    if set {
        output.push(letter)?;
    }
    Ok(())
}

/// Appends ` ack N`, the acknowledgment number of the TCP header at the start of `bytes`, if its ACK flag is set.
fn push_acknowledgment(output: &mut Vec<u8>, bytes: &[u8]) -> Result<(), AllocError>
    ensures { OnOk result (output.new.items
        ≡ output.old.items ++ acknowledgment_text (tcp_header_of bytes.now)) }
{
    if byte_at(bytes, 13) / 16 % 2 == 1 {
        decimals::push_with_text(output, b" ack ", u64::from(long_at(bytes, 8)))?;
    }
    Ok(())
}
