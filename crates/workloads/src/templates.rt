//! Generated frames as in ordinary traffic; their addresses and ports are set anew for each call.

ghost use Rattle.std.specs.Prelude.{◌≤◌};

use crate::bench_error::BenchError;
use crate::fields::{Balance, Numbers};
use etherparse::{
    ArpHardwareId, ArpOperation, ArpPacket, EtherType, IpHeaders, IpNumber, Ipv6Extensions,
    Ipv6Header, Ipv6RawExtHeader, PacketBuilder, PacketBuilderStep, TcpOptionElement, VlanId,
};
use std::alloc::Global;

/// Maximum number of bytes after the Ethernet header and VLAN tag of a generated frame.
const MTU: usize = 1500;

/// Length in bytes of a TCP header with a timestamp option and two no-operation options.
const TCP_LEN: usize = 32;

/// Number of random bytes that serve as payloads of generated frames.
const NOISE_LEN: usize = 9_200;

/// Content of a generated frame: its transport layer, or ARP.
#[derive(Clone, Copy, PartialEq, Eq)]
pub enum Inside {
    /// A TCP segment with a timestamp option.
    Tcp,
    /// A UDP datagram.
    Udp,
    /// An ICMPv4 or ICMPv6 echo request.
    Icmp,
    /// A UDP datagram over IPv6, after hop-by-hop and destination options.
    Chain,
    /// An ARP request, instead of an IP packet.
    Arp,
}

/// Shape of a generated frame: its headers, and the length of its payload.
#[derive(Clone, Copy)]
pub struct Shape {
    /// Transport layer of the generated frame, or ARP.
    pub inside: Inside,
    /// True if the generated frame has an IPv6 header, false for IPv4. It has no effect on `Chain` (always IPv6) and
    /// `Arp`.
    pub is_ipv6: bool,
    /// True if the generated frame has a VLAN tag. It has no effect on `Arp`, which has none.
    pub is_tagged: bool,
    /// Length of the payload of the generated frame in bytes, unless the frame would be too long.
    pub payload_len: usize,
}

/// Positions in a generated frame of the fields that are set anew for each call of the library; they can change without
/// invalidating a checksum.
#[derive(Clone, Copy)]
pub struct Fields {
    /// Index in the generated frame at which the network layer starts.
    pub net: usize,
    /// Positions in the frame: lower 16 bits of the source IP address, and lower 16 bits of the destination IP address,
    /// which are set to the one's complement of the former.
    pub addresses: Balance,
    /// Positions of the frame's source port (or of another field that distinguishes frames), and of a second field that
    /// is set to its one's complement, so that the checksum stays valid.
    pub ports: Balance,
}

impl Shape {
    /// Draws the shape of a random frame as in ordinary traffic. Four fifths of the frames are TCP segments: half of
    /// these have no payload, and most others fill the MTU of 1,500 bytes. UDP payloads have 2 to 1,257 bytes. A
    /// quarter of the frames is IPv6. A few frames have a VLAN tag or extension headers, or are echo requests or ARP.
    pub fn drawn(numbers: &mut Numbers) -> Shape {
        let kind = numbers.below(100);
        let is_ipv6 = numbers.below(4) == 0;
        let is_tagged = numbers.below(33) == 0;
        let (inside, payload_len) = match kind {
            0..=39 => (Inside::Tcp, 0),
            40..=68 => (Inside::Tcp, MTU),
            69..=79 => (Inside::Tcp, numbers.below(1400) as usize),
            80..=93 => (Inside::Udp, 18 + numbers.below(1240) as usize),
            94..=95 => (Inside::Icmp, 56),
            96..=97 => (Inside::Arp, 0),
            98 => (Inside::Chain, 200),
            _ => (Inside::Udp, 2 + numbers.below(16) as usize),
        };
        Shape {
            inside,
            is_ipv6,
            is_tagged,
            payload_len,
        }
    }

    /// Returns the length of the Ethernet header and VLAN tag of a generated frame, in bytes.
    fn link_len(&self) -> usize
        ensures { result ≤ 18 }
    {
        if self.is_tagged { 18 } else { 14 }
    }

    /// Returns the payload length of a generated frame, limited so that it fits in 1,500 bytes after `headers_len`
    /// bytes of IP and transport headers.
    fn fitting_len(&self, headers_len: usize) -> usize {
        self.payload_len.min(MTU - headers_len.min(MTU))
    }
}

/// Returns random bytes for the payloads of generated frames. The first two bytes are 0xffff: in a UDP datagram they
/// contain the one's complement of the source port, which is 0 at first.
pub fn noise(alloc: Global, numbers: &mut Numbers) -> Result<Vec<u8>, BenchError> {
    let mut bytes = Vec::new(alloc);
    bytes.extend_from_slice(&[255, 255])?;
    for _ in 0..NOISE_LEN / 8 {
        bytes.extend_from_slice(&numbers.draw().to_le_bytes())?;
    }
    Ok(bytes)
}

/// Returns the first `len` bytes, or all bytes if there are fewer.
pub fn front(bytes: &[u8], len: usize) -> &[u8] {
    &bytes[..len.min(bytes.len())]
}

/// Replaces the content of the vector with a frame that has the headers of `shape` and the start of `noise` as payload.
/// Returns the positions of its addresses and ports.
pub fn write_shape(frame: &mut Vec<u8>, shape: &Shape, noise: &[u8]) -> Result<Fields, BenchError> {
    frame.clear();
    match shape.inside {
        Inside::Arp => write_arp(frame),
        Inside::Tcp | Inside::Udp | Inside::Icmp | Inside::Chain => {
            write_ip(frame, shape, noise)
        }
    }
}

/// Writes an Ethernet frame with an ARP request, and returns the positions of its addresses.
fn write_arp(frame: &mut Vec<u8>) -> Result<Fields, BenchError> {
    let Ok(packet) = ArpPacket::new(
        ArpHardwareId::ETHERNET,
        EtherType::IPV4,
        ArpOperation::REQUEST,
        &[2, 0, 0, 0, 0, 0],
        &[10, 1, 0, 0],
        &[0, 0, 0, 0, 255, 255],
        &[10, 2, 255, 255],
    ) else {
        return Err(BenchError::Input);
    };
    let Ok(()) = PacketBuilder::ethernet2(SOURCE, [255; 6])
        .arp(packet)
        .write(frame)
    else {
        return Err(BenchError::Input);
    };
    Ok(Fields {
        net: 14,
        addresses: Balance {
            number: 30,
            complement: 40,
        },
        ports: Balance {
            number: 26,
            complement: 36,
        },
    })
}

/// Source hardware address of the generated frames; some benchmark jobs set its last four bytes for each call.
pub const SOURCE: [u8; 6] = [2, 0, 0, 0, 0, 1];

/// Destination hardware address of the generated frames; ARP requests are broadcast instead.
pub const DESTINATION: [u8; 6] = [2, 0, 0, 0, 0, 2];

/// Source IPv4 address of the generated frames. Its lower 16 bits are replaced each time a frame is passed to the
/// library.
pub const SOURCE_IPV4: [u8; 4] = [10, 1, 0, 0];

/// Destination IPv4 address of the generated frames; its lower 16 bits are the complement of those of `SOURCE_IPV4`.
pub const DESTINATION_IPV4: [u8; 4] = [10, 2, 255, 255];

/// Source IPv6 address of the generated frames. Its lower 16 bits are replaced each time a frame is passed to the
/// library.
pub const SOURCE_IPV6: [u8; 16] = [0x20, 1, 0xd, 0xb8, 0, 1, 0, 0, 0, 0, 0, 0, 0, 7, 0, 0];

/// Destination IPv6 address of the generated frames; its lower 16 bits are the complement of those of `SOURCE_IPV6`.
pub const DESTINATION_IPV6: [u8; 16] = [0x20, 1, 0xd, 0xb8, 0, 2, 0, 0, 0, 0, 0, 0, 0, 9, 255, 255];

/// Writes an Ethernet frame with the IP packet that `shape` describes, and returns the positions of its addresses and
/// ports.
fn write_ip(frame: &mut Vec<u8>, shape: &Shape, noise: &[u8]) -> Result<Fields, BenchError> {
    let link = PacketBuilder::ethernet2(SOURCE, DESTINATION);
    let Ok(vlan) = VlanId::try_new(5) else {
        return Err(BenchError::Input);
    };
    if shape.inside == Inside::Chain {
        let headers = IpHeaders::Ipv6(ipv6_header(), chain()?);
        let step = if shape.is_tagged {
            link.single_vlan(vlan).ip(headers)
        } else {
            link.ip(headers)
        };
        return write_transport(frame, step, shape, true, noise);
    }
    let step = match (shape.is_tagged, shape.is_ipv6) {
        (false, false) => link.ipv4(SOURCE_IPV4, DESTINATION_IPV4, 64),
        (false, true) => link.ipv6(SOURCE_IPV6, DESTINATION_IPV6, 64),
        (true, false) => link
            .single_vlan(vlan)
            .ipv4(SOURCE_IPV4, DESTINATION_IPV4, 64),
        (true, true) => link
            .single_vlan(vlan)
            .ipv6(SOURCE_IPV6, DESTINATION_IPV6, 64),
    };
    write_transport(frame, step, shape, shape.is_ipv6, noise)
}

/// Returns an IPv6 header with the addresses of the generated frames and hop limit 64.
pub fn ipv6_header() -> Ipv6Header {
    Ipv6Header {
        hop_limit: 64,
        source: SOURCE_IPV6,
        destination: DESTINATION_IPV6,
        ..Default::default()
    }
}

/// Returns IPv6 hop-by-hop options and destination options, both of padding only.
pub fn chain() -> Result<Ipv6Extensions, BenchError> {
    let (Ok(first), Ok(second)) = (
        Ipv6RawExtHeader::new_raw(IpNumber::UDP, &[1, 4, 0, 0, 0, 0]),
        Ipv6RawExtHeader::new_raw(IpNumber::UDP, &[1, 12, 0, 0, 0, 0, 0, 0, 0, 0, 0, 0, 0, 0]),
    ) else {
        return Err(BenchError::Input);
    };
    Ok(Ipv6Extensions {
        hop_by_hop_options: Some(first),
        destination_options: Some(second),
        routing: None,
        fragment: None,
        auth: None,
    })
}

/// Writes a frame: the link and IP headers that the packet builder `step` already has, the transport header that
/// `shape` names, and a payload from `noise`. Returns the positions of the frame's addresses and ports.
fn write_transport(
    frame: &mut Vec<u8>,
    step: PacketBuilderStep<IpHeaders>,
    shape: &Shape,
    is_ipv6: bool,
    noise: &[u8],
) -> Result<Fields, BenchError> {
    let ip_len = if is_ipv6 { 40 } else { 20 };
    let net = shape.link_len();
    let (payload, header_len) = match shape.inside {
        Inside::Tcp => (front(noise, shape.fitting_len(ip_len + TCP_LEN)), TCP_LEN),
        Inside::Udp | Inside::Icmp | Inside::Chain | Inside::Arp => {
            (front(noise, shape.fitting_len(ip_len + 32)), 8)
        }
    };
    let written = match shape.inside {
        Inside::Tcp => {
            let options = [
                TcpOptionElement::Noop,
                TcpOptionElement::Noop,
                TcpOptionElement::Timestamp(0x0102_0304, 0x0506_0708),
            ];
            match step.tcp(0, 443, 0x0001_ffff, 4096).ack(7).options(&options) {
                Ok(step) => step.write(frame, payload),
                Err(_) => return Err(BenchError::Input),
            }
        }
        Inside::Icmp if is_ipv6 => step.icmpv6_echo_request(0, 65_535).write(frame, payload),
        Inside::Icmp => step.icmpv4_echo_request(0, 65_535).write(frame, payload),
        Inside::Udp | Inside::Chain | Inside::Arp => step.udp(0, 53).write(frame, payload),
    };
    if written.is_err() {
        return Err(BenchError::Input);
    }
    let transport = frame
        .len()
        .saturating_sub(payload.len())
        .saturating_sub(header_len);
    let ports = match shape.inside {
        Inside::Tcp => Balance {
            number: transport,
            complement: transport.saturating_add(6),
        },
        Inside::Icmp => Balance {
            number: transport.saturating_add(4),
            complement: transport.saturating_add(6),
        },
        Inside::Udp | Inside::Chain | Inside::Arp => Balance {
            number: transport,
            complement: transport.saturating_add(8),
        },
    };
    let addresses = if is_ipv6 {
        Balance {
            number: net + 22,
            complement: net + 38,
        }
    } else {
        Balance {
            number: net + 14,
            complement: net + 18,
        }
    };
    Ok(Fields {
        net,
        addresses,
        ports,
    })
}
