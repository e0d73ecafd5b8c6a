//! The benchmark job that builds frames.

use crate::bench_error::BenchError;
use crate::digest::Digest;
use crate::fields::{Numbers, low_16};
use crate::frames::{FRAMES, between, first_number, host_of, port_of};
use crate::templates::{
    DESTINATION, DESTINATION_IPV4, DESTINATION_IPV6, SOURCE, SOURCE_IPV4, SOURCE_IPV6, chain,
    ipv6_header, noise,
};
use etherparse::err::packet::BuildWriteError;
use etherparse::{
    IpFragOffset, IpHeaders, IpNumber, Ipv4Header, Ipv6Header, PacketBuilder, TcpOptionElement,
    VlanId,
};
use std::alloc::Global;

/// Kind of a frame that the benchmark builds: its headers, and what they are built from.
#[derive(Clone, Copy)]
enum Kind {
    /// A UDP datagram over IPv4, built from addresses and ports.
    UdpIpv4,
    /// A UDP datagram over IPv4 with a VLAN tag, built from addresses and ports.
    TaggedUdpIpv4,
    /// A UDP datagram over IPv6, built from addresses and ports.
    UdpIpv6,
    /// A TCP segment over IPv4, built from addresses, ports, sequence numbers and options.
    TcpIpv4,
    /// A TCP segment over IPv6, built from addresses, ports, sequence numbers and options.
    TcpIpv6,
    /// An ICMPv4 echo request, built from addresses, identifier and sequence number.
    EchoIpv4,
    /// An ICMPv6 echo request, built from addresses, identifier and sequence number.
    EchoIpv6,
    /// A UDP datagram over IPv4, built from an owned IPv4 header and ports.
    Ipv4Header,
    /// A UDP datagram over IPv6, built from an owned IPv6 header and ports.
    Ipv6Header,
    /// A UDP datagram over IPv6, built from an owned IPv6 header with extension headers, and ports.
    Chain,
    /// An IPv4 fragment, built from an owned IPv4 header with a fragment offset.
    Fragment,
}

/// Description of a frame that the benchmark builds once in each round, with other addresses and ports.
#[derive(Clone, Copy)]
struct Plan {
    kind: Kind,
    /// Offset in the vector of random bytes at which the payload of the frame starts.
    start: usize,
    /// Length of the payload of the frame in bytes.
    len: usize,
}

/// Builds 2,000 frames in each round, from addresses or from owned headers, each into one reused vector. Returns the
/// digest of their bytes.
pub fn build_frames(alloc: Global, rounds: u32, seed: u64) -> Result<Digest, BenchError> {
    let mut numbers = Numbers::new(seed);
    let noise = noise(alloc, &mut numbers)?;
    let mut plans = Vec::new(alloc);
    for _ in 0..FRAMES {
        plans.push(Plan::drawn(&mut numbers))?;
    }
    let mut digest = Digest::new();
    let mut frame = Vec::new(alloc);
    for round in 0..rounds {
        let mut number = first_number(seed, round);
        for plan in plans.as_slice() {
            number = number.wrapping_add(1);
            let start = plan.start;
            let payload = between(noise.as_slice(), start, start.wrapping_add(plan.len));
            frame.clear();
            digest.count_call();
            match plan.build(number, payload, &mut frame)? {
                Ok(()) => digest.add_bytes(frame.as_slice()),
                Err(BuildWriteError::OutOfMemory) => return Err(BenchError::OutOfMemory),
                Err(_) => digest.add(1),
            }
        }
    }
    Ok(digest)
}

impl Plan {
    /// Draws a random kind of frame, and a payload length of 0, 64, 1,400 or, rarely, 8,900 bytes.
    fn drawn(numbers: &mut Numbers) -> Plan {
        let kind = match numbers.below(100) {
            0..=21 => Kind::UdpIpv4,
            22..=24 => Kind::TaggedUdpIpv4,
            25..=33 => Kind::UdpIpv6,
            34..=58 => Kind::TcpIpv4,
            59..=66 => Kind::TcpIpv6,
            67..=70 => Kind::EchoIpv4,
            71..=72 => Kind::EchoIpv6,
            73..=83 => Kind::Ipv4Header,
            84..=89 => Kind::Ipv6Header,
            90..=93 => Kind::Chain,
            _ => Kind::Fragment,
        };
        let len = match numbers.below(100) {
            0..=29 => 0,
            30..=61 => 64,
            62..=96 => 1_400,
            _ => 8_900,
        };
        Plan {
            kind,
            start: numbers.below(200) as usize,
            len,
        }
    }

    /// Appends a frame whose addresses and ports are derived from `number`. The inner result is that of the packet
    /// builder; the outer one is an error if an input value is invalid.
    fn build(
        &self,
        number: u64,
        payload: &[u8],
        frame: &mut Vec<u8>,
    ) -> Result<Result<(), BuildWriteError>, BenchError> {
        let port = port_of(number);
        let [high, low] = host_of(number).to_be_bytes();
        let [a, b, _, _] = SOURCE_IPV4;
        let ipv4 = [a, b, high, low];
        let mut ipv6 = SOURCE_IPV6;
        ipv6[14] = high;
        ipv6[15] = low;
        let link = PacketBuilder::ethernet2(SOURCE, DESTINATION);
        let built = match self.kind {
            Kind::UdpIpv4 => {
                let step = link.ipv4(ipv4, DESTINATION_IPV4, 64).udp(port, 53);
                step.write(frame, payload)
            }
            Kind::TaggedUdpIpv4 => {
                let Ok(vlan) = VlanId::try_new(low_16(number % 4_096)) else {
                    return Err(BenchError::Input);
                };
                let step = link
                    .single_vlan(vlan)
                    .ipv4(ipv4, DESTINATION_IPV4, 64)
                    .udp(port, 53);
                step.write(frame, payload)
            }
            Kind::UdpIpv6 => {
                let step = link.ipv6(ipv6, DESTINATION_IPV6, 64).udp(port, 53);
                step.write(frame, payload)
            }
            Kind::TcpIpv4 => {
                let step = link
                    .ipv4(ipv4, DESTINATION_IPV4, 64)
                    .tcp(port, 80, 7, 4_096)
                    .ack(9);
                match step.options(&timestamp(number)) {
                    Ok(step) => step.write(frame, payload),
                    Err(_) => return Err(BenchError::Input),
                }
            }
            Kind::TcpIpv6 => {
                let step = link
                    .ipv6(ipv6, DESTINATION_IPV6, 64)
                    .tcp(port, 80, 7, 4_096)
                    .ack(9);
                match step.options(&timestamp(number)) {
                    Ok(step) => step.write(frame, payload),
                    Err(_) => return Err(BenchError::Input),
                }
            }
            Kind::EchoIpv4 => {
                let step = link
                    .ipv4(ipv4, DESTINATION_IPV4, 64)
                    .icmpv4_echo_request(port, 1);
                step.write(frame, payload)
            }
            Kind::EchoIpv6 => {
                let step = link
                    .ipv6(ipv6, DESTINATION_IPV6, 64)
                    .icmpv6_echo_request(port, 1);
                step.write(frame, payload)
            }
            Kind::Ipv4Header => {
                let step = link.ip(ipv4_headers(ipv4, port, IpFragOffset::ZERO, false));
                step.udp(port, 53).write(frame, payload)
            }
            Kind::Ipv6Header => {
                let header = ipv6_from(ipv6);
                let step = link.ip(IpHeaders::Ipv6(header, Default::default()));
                step.udp(port, 53).write(frame, payload)
            }
            Kind::Chain => {
                let header = ipv6_from(ipv6);
                let step = link.ip(IpHeaders::Ipv6(header, chain()?));
                step.udp(port, 53).write(frame, payload)
            }
            Kind::Fragment => {
                let Ok(place) = IpFragOffset::try_new(low_16(number % 4_096)) else {
                    return Err(BenchError::Input);
                };
                let step = link.ip(ipv4_headers(ipv4, port, place, number % 2 == 0));
                step.write(frame, IpNumber::UDP, payload)
            }
        };
        Ok(built)
    }
}

/// Returns TCP options: two no-operation options, and a timestamp with the lower 16 bits of `number`.
fn timestamp(number: u64) -> [TcpOptionElement; 3] {
    let time = u32::from(low_16(number));
    [
        TcpOptionElement::Noop,
        TcpOptionElement::Noop,
        TcpOptionElement::Timestamp(time, 7),
    ]
}

/// Returns an IPv4 header with this source address, identification and fragment offset, and without extension headers.
fn ipv4_headers(
    source: [u8; 4],
    identification: u16,
    fragment_offset: IpFragOffset,
    more_fragments: bool,
) -> IpHeaders {
    let header = Ipv4Header {
        identification,
        dont_fragment: false,
        more_fragments,
        fragment_offset,
        time_to_live: 64,
        source,
        destination: DESTINATION_IPV4,
        ..Default::default()
    };
    IpHeaders::Ipv4(header, Default::default())
}

/// Returns an IPv6 header with this source address and a fixed destination address.
fn ipv6_from(source: [u8; 16]) -> Ipv6Header {
    Ipv6Header {
        source,
        ..ipv6_header()
    }
}
