//! Calls for C that build a frame into the caller's buffer: UDP, TCP, or an echo message of ICMP or ICMPv6.

ghost use Rattle.std.specs.Prelude.{◌≡◌, MatchResult};
ghost use Rattle.etherparse.specs.Placing.{FillsStart};
ghost use Rattle.etherparse.specs.Steps.{frame_after};
ghost use Rattle.etherparse.specs.Types.TransportHeader.{TransportHeader};
ghost use Rattle.etherparse.specs.Types.TransportHeader.TheVariants as transport;
ghost use Rattle.etherparse_c.specs.Building.{IsBuildAnswer, IsBuilt, echo_header, echo_of, icmpv4_echo, icmpv6_echo};
ghost use Rattle.etherparse_c.specs.Building.{tcp_of, udp_between};
ghost use Rattle.etherparse_c.specs.Placing.{IsBuildErrorAnswer};

use crate::numbers;
use crate::route::{Route, TcpFields};
use etherparse::err::packet::BuildSliceWriteError;
use etherparse::{
    IcmpEchoHeader, Icmpv4Type, Icmpv6Type, IpHeaders, PacketBuilder, PacketBuilderStep, TcpHeader,
};

/// Writes the frame of a UDP datagram, including lengths and checksums, to the start of the caller's `buffer`, and its
/// length to `written`. Does not allocate.
///
/// Returns the status: 0 if the frame is written; 2 if the IP version of `route` (the Ethernet II and IP header fields)
/// is neither 4 nor 6; 3 if the buffer is too small, and `written` is the needed length; 4 if the payload is too long
/// for the headers' length fields. With any status but 0 the buffer is unchanged. (The contract also allows 5, out of
/// memory, which is not returned.)
#[unsafe(no_mangle)]
pub extern "C" fn etherparse_2_build_udp(
    route: &Route,
    source_port: u16,
    destination_port: u16,
    payload: &[u8],
    buffer: &mut [u8],
    written: &mut usize,
) -> u32
    ensures { IsBuildAnswer route.now (udp_between source_port destination_port) payload.now
        buffer.old buffer.new written.new result }
{
    let ports = UdpPorts {
        source_port,
        destination_port,
    };
    build(route, ports, payload, buffer, written)
}

/// Writes the frame of a TCP segment, including lengths and checksums, to the start of the caller's `buffer`, and its
/// length to `written`.
///
/// Returns the status: 0 if the frame is written; 2 if the IP version of `route` (the Ethernet II and IP header fields)
/// is neither 4 nor 6; 3 if the buffer is too small, and `written` is the needed length; 4 if the payload is too long
/// for the headers' length fields. With any status but 0 the buffer is unchanged.
#[unsafe(no_mangle)]
pub extern "C" fn etherparse_2_build_tcp(
    route: &Route,
    fields: &TcpFields,
    payload: &[u8],
    buffer: &mut [u8],
    written: &mut usize,
) -> u32
    ensures { IsBuildAnswer route.now (tcp_of fields.now) payload.now
        buffer.old buffer.new written.new result }
{
    build(route, tcp_header(fields), payload, buffer, written)
}

/// Writes the frame of an ICMP echo request (`is_reply` is 0) or echo reply to the start of the caller's `buffer`, and
/// its length to `written`. The message is ICMPv6 if the IP version of `route` (the Ethernet II and IP header fields)
/// is 6.
///
/// Returns the status: 0 if the frame is written; 2 if the IP version is neither 4 nor 6; 3 if the buffer is too small,
/// and `written` is the needed length; 4 if the payload is too long for the headers' length fields. With any status but
/// 0 the buffer is unchanged.
#[unsafe(no_mangle)]
pub extern "C" fn etherparse_2_build_icmp_echo(
    route: &Route,
    is_reply: u8,
    id: u16,
    seq: u16,
    payload: &[u8],
    buffer: &mut [u8],
    written: &mut usize,
) -> u32
    ensures { IsBuildAnswer route.now (echo_of route.now is_reply id seq) payload.now
        buffer.old buffer.new written.new result }
{
    let echo = Echo {
        is_ipv4: route.version == 4,
        is_reply,
        id,
        seq,
    };
    build(route, echo, payload, buffer, written)
}

/// State of the packet builder to which IP headers were added; a transport header can be added next.
pub(crate) type IpStep = PacketBuilderStep<IpHeaders>;

/// Result of writing a frame to the start of a caller's buffer: the length of the frame, or the error.
pub(crate) type Filled = Result<usize, BuildSliceWriteError>;

/// Transport header that can be added after IP headers and written with them as a frame. Implemented for the ports of a
/// UDP datagram, a TCP header, and an ICMP echo message.
pub(crate) trait TransportPart: Drop {
    /// Transport header of a value of this type, for contracts: UDP, TCP, ICMPv4 or ICMPv6.
    ghost header: { Self → TransportHeader };

    /// Writes a frame to the start of the buffer: the link and IP headers of the builder `step`, this transport header,
    /// and the payload.
    fn fill(self, step: IpStep, payload: &[u8], buffer: &mut [u8]) -> Filled
        ensures { FillsStart (frame_after step (header self)) payload.now buffer.old buffer.new result };
}

/// Source and destination port of a UDP datagram to build.
#[derive(Clone, Copy)]
pub(crate) struct UdpPorts {
    pub(crate) source_port: u16,
    pub(crate) destination_port: u16,
}

/// Echo request (`is_reply` is 0) or echo reply, of ICMP for IPv4 or of ICMPv6.
#[derive(Clone, Copy)]
pub(crate) struct Echo {
    pub(crate) is_ipv4: bool,
    pub(crate) is_reply: u8,
    pub(crate) id: u16,
    pub(crate) seq: u16,
}

impl TransportPart for UdpPorts {
    ghost header = { λ ports. udp_between ports.source_port ports.destination_port };

    #[inline(always)]
    fn fill(self, step: IpStep, payload: &[u8], buffer: &mut [u8]) -> Filled {
        step.udp(self.source_port, self.destination_port)
            .write_to_slice(buffer, payload)
    }
}

impl TransportPart for TcpHeader {
    ghost header = { transport.Tcp };

    #[inline(always)]
    fn fill(self, step: IpStep, payload: &[u8], buffer: &mut [u8]) -> Filled {
        step.tcp_header(self).write_to_slice(buffer, payload)
    }
}

impl TransportPart for Echo {
    ghost header = { λ echo. echo_header echo.is_ipv4 echo.is_reply echo.id echo.seq };

    #[inline(always)]
    fn fill(self, step: IpStep, payload: &[u8], buffer: &mut [u8]) -> Filled {
        if self.is_ipv4 {
            step.icmpv4(icmpv4_echo(self.is_reply, self.id, self.seq))
                .write_to_slice(buffer, payload)
        } else {
            step.icmpv6(icmpv6_echo(self.is_reply, self.id, self.seq))
                .write_to_slice(buffer, payload)
        }
    }
}

/// Writes a frame to the start of the caller's buffer: an optional Ethernet II header, an IP header, a transport
/// header, and the payload. Returns the status for C (0 if the frame is written). Each branch is one inlined chain of
/// builder calls, so that no builder state is copied.
#[inline(always)]
pub(crate) fn build<Transport: TransportPart>(
    route: &Route,
    transport_part: Transport,
    payload: &[u8],
    buffer: &mut [u8],
    written: &mut usize,
) -> u32
    ensures { IsBuildAnswer route.now (Transport.header transport_part) payload.now
        buffer.old buffer.new written.new result }
{
    let route = *route;
    let (source, destination) = (route.ethernet_source, route.ethernet_destination);
    if route.version == 4 {
        let (from, to) = (route.ipv4_source, route.ipv4_destination);
        if route.with_ethernet == 0 {
            let step = PacketBuilder::ipv4(from, to, route.hop_limit);
            return write_transport(step, transport_part, payload, buffer, written);
        }
        let step = PacketBuilder::ethernet2(source, destination).ipv4(from, to, route.hop_limit);
        return write_transport(step, transport_part, payload, buffer, written);
    }
    if route.version == 6 {
        let (from, to) = (route.ipv6_source, route.ipv6_destination);
        if route.with_ethernet == 0 {
            let step = PacketBuilder::ipv6(from, to, route.hop_limit);
            return write_transport(step, transport_part, payload, buffer, written);
        }
        let step = PacketBuilder::ethernet2(source, destination).ipv6(from, to, route.hop_limit);
        return write_transport(step, transport_part, payload, buffer, written);
    }
    *written = 0;
    numbers::UNKNOWN_CHOICE
}

/// Writes a frame to the start of the caller's buffer: the link and IP headers of a packet builder, a transport header,
/// and the payload. Returns the status for C (0 if the frame is written).
#[inline(always)]
pub(crate) fn write_transport<Transport: TransportPart>(
    step: IpStep,
    transport_part: Transport,
    payload: &[u8],
    buffer: &mut [u8],
    written: &mut usize,
) -> u32
    ensures { IsBuilt (frame_after step (Transport.header transport_part)) payload.now
        buffer.old buffer.new written.new result }
{
    store_written(transport_part.fill(step, payload, buffer), written)
}

/// Converts the TCP fields that C passes to a TCP header without options.
#[tactic(auto, unfolding(crate::specs::Building::tcp_of))]
pub(crate) fn tcp_header(fields: &TcpFields) -> TcpHeader
    ensures { transport.Tcp result ≡ tcp_of fields.now }
{
    let fields = *fields;
    TcpHeader {
        acknowledgment_number: fields.acknowledgment_number,
        fin: fields.flags & 1 != 0,
        syn: fields.flags & 2 != 0,
        rst: fields.flags & 4 != 0,
        psh: fields.flags & 8 != 0,
        ack: fields.flags & 16 != 0,
        urg: fields.flags & 32 != 0,
        ece: fields.flags & 64 != 0,
        cwr: fields.flags & 128 != 0,
        urgent_pointer: fields.urgent_pointer,
        ..TcpHeader::new(
            fields.source_port,
            fields.destination_port,
            fields.sequence_number,
            fields.window_size,
        )
    }
}

/// Returns an ICMP (IPv4) echo message: a request if `is_reply` is 0, else a reply.
fn icmpv4_echo(is_reply: u8, id: u16, seq: u16) -> Icmpv4Type
    ensures { result ≡ icmpv4_echo is_reply id seq }
{
    let echo = IcmpEchoHeader { id, seq };
    if is_reply == 0 {
        Icmpv4Type::EchoRequest(echo)
    } else {
        Icmpv4Type::EchoReply(echo)
    }
}

/// Returns an ICMPv6 echo message: a request if `is_reply` is 0, else a reply.
fn icmpv6_echo(is_reply: u8, id: u16, seq: u16) -> Icmpv6Type
    ensures { result ≡ icmpv6_echo is_reply id seq }
{
    let echo = IcmpEchoHeader { id, seq };
    if is_reply == 0 {
        Icmpv6Type::EchoRequest(echo)
    } else {
        Icmpv6Type::EchoReply(echo)
    }
}

/// Converts the result of writing a frame to the status for C: 0 if the frame is written, 3 if the buffer is too small,
/// 4 if the payload is too long. With status 0 and 3, stores the frame's length in `written`; with status 4, stores 0.
#[inline]
pub(crate) fn store_written(filled: Filled, written: &mut usize) -> u32
    ensures { MatchResult filled
        (λ len. (result ≡ 0) × (written.new ≡ len))
        (λ error. IsBuildErrorAnswer error written.new result) }
{
    let (len, status) = match filled {
        Ok(len) => (len, numbers::OK),
        Err(BuildSliceWriteError::Space(len)) => (len, numbers::TOO_SMALL),
        Err(BuildSliceWriteError::Build(_)) => (0, numbers::TOO_LONG),
    };
    *written = len;
    status
}
