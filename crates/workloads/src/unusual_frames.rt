//! Generated frames with rare headers: IPv4 and TCP options, authentication headers, MACsec, two and three VLAN tags.

use crate::bench_error::BenchError;
use crate::fields::{Balance, Numbers, mixed, put_32};
use crate::frames::{FRAMES, between, host_of, port_of};
use crate::templates::{
    DESTINATION, DESTINATION_IPV4, SOURCE, SOURCE_IPV4, front, ipv6_header, noise,
};
use etherparse::{
    EtherType, Ethernet2Header, IpAuthHeader, IpHeaders, IpNumber, Ipv4Extensions, Ipv4Header,
    Ipv4Options, Ipv6Extensions, Ipv6RawExtHeader, MacsecAn, MacsecHeader, MacsecPType,
    MacsecShortLen, PacketBuilder, PacketBuilderStep, SingleVlanHeader, TcpOptionElement, VlanId,
    VlanPcp,
};
use std::alloc::Global;

/// Minimum length of truncated frames in bytes, that of an Ethernet header.
const LEAST_LEN: usize = 14;

/// Truncated frames are shorter than this number of bytes.
const SNAP_LEN: usize = 160;

/// Length in bytes of the integrity check value in generated authentication headers, as for HMAC-SHA-1-96 (RFC 2404).
const ICV_LEN: usize = 12;

/// IPv4 options (RFC 791, 3.1): router alert (RFC 2113), record route with space for three routers, and the
/// end-of-options marker.
const IPV4_OPTIONS: [u8; 20] = [
    148, 4, 0, 0, 7, 15, 8, 192, 0, 2, 1, 0, 0, 0, 0, 0, 0, 0, 0, 0,
];

/// Tags between the Ethernet header and the network layer of a generated frame.
#[derive(Clone, Copy, PartialEq, Eq)]
enum Tags {
    /// The frame has no VLAN tag and no MACsec tag.
    Untagged,
    /// Two VLAN tags.
    TwoVlans,
    /// Three VLAN tags.
    ThreeVlans,
    /// A MACsec tag (SecTAG) and an unmodified payload.
    Macsec,
    /// A MACsec tag (SecTAG) with a secure channel identifier, and an encrypted payload.
    Encrypted,
}

/// Transport layer of a generated frame.
#[derive(Clone, Copy)]
enum Transport {
    /// A TCP segment with the options of a SYN: maximum segment size, SACK permitted, timestamp and window scale.
    Syn,
    /// A TCP segment with a timestamp and three SACK blocks, the longest options that a TCP header can have.
    Ack,
    /// A UDP datagram.
    Udp,
    /// An ICMPv4 or ICMPv6 echo request.
    Echo,
}

impl Transport {
    /// Returns the length of the transport header and two offsets from its start, all in bytes. The first offset is
    /// that of the source port, or of the identifier of an echo request. The second offset is that of a field which is
    /// set to the one's complement of this port or identifier; for UDP the field is in the payload.
    fn places(&self) -> (usize, usize, usize) {
        match self {
            Transport::Syn => (40, 0, 6),
            Transport::Ack => (60, 0, 6),
            Transport::Udp => (8, 0, 8),
            Transport::Echo => (8, 4, 6),
        }
    }
}

/// Shape of a generated frame: its headers, and the length of its payload in bytes.
#[derive(Clone, Copy)]
struct UnusualShape {
    tags: Tags,
    is_ipv6: bool,
    /// True if the generated frame has IPv4 options or IPv6 hop-by-hop options.
    has_options: bool,
    /// True if the generated frame has an IP authentication header.
    has_auth: bool,
    transport: Transport,
    payload_len: usize,
}

impl UnusualShape {
    /// Draws the shape of a random frame with rare headers. Encrypted payloads and echo requests are a tenth each, all
    /// other rare headers a fifth to a half. As in ordinary traffic, short payloads are more frequent than long ones.
    fn drawn(numbers: &mut Numbers) -> UnusualShape {
        UnusualShape {
            tags: match numbers.below(10) {
                0..=2 => Tags::Untagged,
                3..=4 => Tags::TwoVlans,
                5..=6 => Tags::ThreeVlans,
                7..=8 => Tags::Macsec,
                _ => Tags::Encrypted,
            },
            is_ipv6: numbers.below(3) == 0,
            has_options: numbers.below(2) == 0,
            has_auth: numbers.below(2) == 0,
            transport: match numbers.below(10) {
                0..=2 => Transport::Syn,
                3..=5 => Transport::Ack,
                6..=8 => Transport::Udp,
                _ => Transport::Echo,
            },
            payload_len: match numbers.below(4) {
                0 => 0,
                1 => numbers.below(1_200) as usize,
                _ => 2 + numbers.below(100) as usize,
            },
        }
    }
}

/// Position of a generated frame in the vector of all frames, with the positions of the fields that are set anew for
/// each call of the library.
#[derive(Clone, Copy)]
pub struct Sample {
    start: usize,
    end: usize,
    /// Positions in the vector of all frames: lower 16 bits of this frame's source IP address, and lower 16 bits of its
    /// destination IP address, which are set to the one's complement of the former.
    addresses: Balance,
    /// Positions of the frame's source port (or the identifier of its echo request) and of a field with its complement.
    ports: Balance,
    /// Index of the frame's MACsec packet number in the vector of all frames, if it has a MACsec tag.
    packet_number: Option<usize>,
    /// Index of the sequence number of the frame's IP authentication header in the vector of all frames, if present.
    sequence_number: Option<usize>,
    is_truncated: bool,
}

impl Sample {
    /// Sets the frame's hardware address, IP addresses, ports, MACsec packet number and authentication sequence number
    /// to values derived from `number`.
    fn renew(&self, bytes: &mut [u8], number: u64) {
        let low = (number % 0x1_0000_0000) as u32;
        put_32(bytes, self.start.wrapping_add(8), low);
        if let Some(at) = self.packet_number {
            put_32(bytes, at, low);
        }
        if let Some(at) = self.sequence_number {
            put_32(bytes, at, low);
        }
        if self.addresses.is_there() {
            self.addresses.put(bytes, host_of(number));
        }
        if self.ports.is_there() {
            self.ports.put(bytes, port_of(number));
        }
    }

    /// Returns the captured bytes of a generated frame: all bytes or, if the frame is truncated, only the first 14 to
    /// 159. The length of a truncated frame is derived from `number`.
    #[inline]
    pub fn captured_in<'a>(&self, bytes: &'a [u8], number: u64) -> &'a [u8] {
        let len = self.end.saturating_sub(self.start);
        let most = len.min(SNAP_LEN);
        let kept = if self.is_truncated && most > LEAST_LEN {
            LEAST_LEN.saturating_add((mixed(number) % (most - LEAST_LEN) as u64) as usize)
        } else {
            len
        };
        between(bytes, self.start, self.start.saturating_add(kept))
    }
}

/// Generated frames with rare headers, one after the other in one vector, and their positions.
#[derive(Drop)]
pub struct UnusualFrames {
    /// Bytes of all generated frames, one after the other.
    pub bytes: Vec<u8>,
    /// Positions of the generated frames, and of their fields that are set anew for each call of the library.
    pub samples: Vec<Sample>,
}

impl UnusualFrames {
    /// Generates 2,000 random frames with rare headers. Every second one is truncated whenever it is parsed, to another
    /// length each time.
    pub fn drawn(alloc: Global, numbers: &mut Numbers) -> Result<UnusualFrames, BenchError> {
        let noise = noise(alloc, numbers)?;
        let mut bytes = Vec::new(alloc);
        let mut samples = Vec::new(alloc);
        for index in 0..FRAMES {
            let shape = UnusualShape::drawn(numbers);
            let mut sample = push_frame(&mut bytes, &shape, noise.as_slice())?;
            sample.is_truncated = index % 2 == 1;
            samples.push(sample)?;
        }
        Ok(UnusualFrames { bytes, samples })
    }

    /// Sets addresses, ports and sequence numbers of each generated frame to values derived from its frame number. The
    /// first frame gets `number`, and each later frame the next higher number.
    pub fn renew(&mut self, number: u64) {
        let mut number = number;
        for sample in self.samples.as_slice() {
            sample.renew(self.bytes.as_mut_slice(), number);
            number = number.wrapping_add(1);
        }
    }
}

/// Appends a frame with the headers of `shape` to the vector of all frames, and returns its position and those of its
/// fields.
fn push_frame(
    bytes: &mut Vec<u8>,
    shape: &UnusualShape,
    noise: &[u8],
) -> Result<Sample, BenchError> {
    let start = bytes.len();
    let ether_type = if shape.is_ipv6 {
        EtherType::IPV6
    } else {
        EtherType::IPV4
    };
    push_link(bytes, shape.tags, ether_type)?;
    let is_macsec = matches!(shape.tags, Tags::Macsec | Tags::Encrypted);
    let mut sample = Sample {
        start,
        end: start,
        addresses: Balance::NONE,
        ports: Balance::NONE,
        packet_number: if is_macsec {
            Some(start.saturating_add(16))
        } else {
            None
        },
        sequence_number: None,
        is_truncated: false,
    };
    if shape.tags == Tags::Encrypted {
        bytes.extend_from_slice(front(noise, shape.payload_len))?;
    } else {
        push_packet(bytes, shape, noise, &mut sample)?;
    }
    sample.end = bytes.len();
    Ok(sample)
}

/// Appends an Ethernet header and the VLAN or MACsec tags that `tags` names. `ether_type` is the type of the network
/// layer after them; it is not used for an encrypted payload.
fn push_link(bytes: &mut Vec<u8>, tags: Tags, ether_type: EtherType) -> Result<(), BenchError> {
    let outer = match tags {
        Tags::Untagged => ether_type,
        Tags::TwoVlans => EtherType::PROVIDER_BRIDGING,
        Tags::ThreeVlans => EtherType::VLAN_DOUBLE_TAGGED_FRAME,
        Tags::Macsec | Tags::Encrypted => EtherType::MACSEC,
    };
    let ethernet = Ethernet2Header {
        source: SOURCE,
        destination: DESTINATION,
        ether_type: outer,
    };
    ethernet.write(bytes)?;
    match tags {
        Tags::Untagged => Ok(()),
        Tags::TwoVlans => push_vlans(bytes, &[EtherType::VLAN_TAGGED_FRAME, ether_type]),
        Tags::ThreeVlans => push_vlans(
            bytes,
            &[
                EtherType::PROVIDER_BRIDGING,
                EtherType::VLAN_TAGGED_FRAME,
                ether_type,
            ],
        ),
        Tags::Macsec => push_macsec(bytes, MacsecPType::Unmodified(ether_type), None),
        Tags::Encrypted => push_macsec(bytes, MacsecPType::Encrypted, Some(0x0200_0000_0001_0001)),
    }
}

/// Appends one VLAN tag for each element of `types`. The element is the ether type in the tag: the type of the header
/// after the tag.
fn push_vlans(bytes: &mut Vec<u8>, types: &[EtherType]) -> Result<(), BenchError> {
    for ether_type in types {
        let (Ok(pcp), Ok(vlan_id)) = (VlanPcp::try_new(3), VlanId::try_new(42)) else {
            return Err(BenchError::Input);
        };
        let tag = SingleVlanHeader {
            pcp,
            drop_eligible_indicator: false,
            vlan_id,
            ether_type: *ether_type,
        };
        tag.write(bytes)?;
    }
    Ok(())
}

/// Appends a MACsec tag (SecTAG) with short length 0, which sets no limit to the payload.
fn push_macsec(
    bytes: &mut Vec<u8>,
    ptype: MacsecPType,
    sci: Option<u64>,
) -> Result<(), BenchError> {
    let tag = MacsecHeader {
        ptype,
        endstation_id: false,
        scb: false,
        an: MacsecAn::ZERO,
        short_len: MacsecShortLen::ZERO,
        packet_nr: 0,
        sci,
    };
    tag.write(bytes)?;
    Ok(())
}

/// Appends the IP packet that `shape` describes, and stores the positions of its addresses, ports and sequence number
/// in `sample`.
fn push_packet(
    bytes: &mut Vec<u8>,
    shape: &UnusualShape,
    noise: &[u8],
    sample: &mut Sample,
) -> Result<(), BenchError> {
    let net = bytes.len();
    let payload = front(noise, shape.payload_len);
    push_ip(bytes, shape, payload)?;
    let (header_len, number, complement) = shape.transport.places();
    let transport = bytes
        .len()
        .saturating_sub(payload.len())
        .saturating_sub(header_len);
    if shape.has_auth {
        sample.sequence_number = Some(transport.saturating_sub(ICV_LEN + 4));
    }
    let (source, destination) = if shape.is_ipv6 { (22, 38) } else { (14, 18) };
    sample.addresses = Balance {
        number: net.saturating_add(source),
        complement: net.saturating_add(destination),
    };
    // The complement of a UDP port is in the payload, if that has two bytes.
    if transport.saturating_add(complement).saturating_add(1) < bytes.len() {
        sample.ports = Balance {
            number: transport.saturating_add(number),
            complement: transport.saturating_add(complement),
        };
    }
    Ok(())
}

/// Appends an IP packet: the IP headers and the transport header that `shape` names, and this payload.
fn push_ip(bytes: &mut Vec<u8>, shape: &UnusualShape, payload: &[u8]) -> Result<(), BenchError> {
    let step = PacketBuilder::ip(ip_headers(shape)?);
    let written = match shape.transport {
        Transport::Syn => return push_tcp(bytes, step, &syn_options(), payload),
        Transport::Ack => return push_tcp(bytes, step, &ack_options(), payload),
        Transport::Udp => step.udp(0, 53).write(bytes, payload),
        Transport::Echo if shape.is_ipv6 => {
            step.icmpv6_echo_request(0, 65_535).write(bytes, payload)
        }
        Transport::Echo => step.icmpv4_echo_request(0, 65_535).write(bytes, payload),
    };
    match written {
        Ok(()) => Ok(()),
        Err(_) => Err(BenchError::Input),
    }
}

/// Appends an IP packet with a TCP segment: the IP headers that the packet builder `step` already has, a TCP header
/// with these options, and this payload.
fn push_tcp(
    bytes: &mut Vec<u8>,
    step: PacketBuilderStep<IpHeaders>,
    options: &[TcpOptionElement],
    payload: &[u8],
) -> Result<(), BenchError> {
    let Ok(step) = step.tcp(0, 443, 0x0001_ffff, 4096).ack(7).options(options) else {
        return Err(BenchError::Input);
    };
    match step.write(bytes, payload) {
        Ok(()) => Ok(()),
        Err(_) => Err(BenchError::Input),
    }
}

/// Returns the TCP options of a SYN, 20 bytes: maximum segment size, SACK permitted, timestamp and window scale.
fn syn_options() -> [TcpOptionElement; 5] {
    [
        TcpOptionElement::MaximumSegmentSize(1_460),
        TcpOptionElement::SelectiveAcknowledgementPermitted,
        TcpOptionElement::Timestamp(0x0102_0304, 0),
        TcpOptionElement::Noop,
        TcpOptionElement::WindowScale(7),
    ]
}

/// Returns TCP options of 40 bytes, the maximum: a timestamp and three SACK blocks.
fn ack_options() -> [TcpOptionElement; 6] {
    [
        TcpOptionElement::Noop,
        TcpOptionElement::Noop,
        TcpOptionElement::Timestamp(0x0102_0304, 0x0506_0708),
        TcpOptionElement::Noop,
        TcpOptionElement::Noop,
        TcpOptionElement::SelectiveAcknowledgement(
            (1_000, 2_460),
            [Some((3_920, 5_380)), Some((6_840, 8_300)), None],
        ),
    ]
}

/// Returns the IPv4 or IPv6 header that `shape` describes, with its options and authentication header.
fn ip_headers(shape: &UnusualShape) -> Result<IpHeaders, BenchError> {
    let auth = if shape.has_auth {
        Some(auth_header()?)
    } else {
        None
    };
    if shape.is_ipv6 {
        let hop_by_hop_options = if shape.has_options {
            Some(hop_by_hop_options()?)
        } else {
            None
        };
        let extensions = Ipv6Extensions {
            hop_by_hop_options,
            destination_options: None,
            routing: None,
            fragment: None,
            auth,
        };
        return Ok(IpHeaders::Ipv6(ipv6_header(), extensions));
    }
    let options: &[u8] = if shape.has_options {
        &IPV4_OPTIONS
    } else {
        &[]
    };
    let Ok(options) = Ipv4Options::try_new(options) else {
        return Err(BenchError::Input);
    };
    let header = Ipv4Header {
        time_to_live: 64,
        source: SOURCE_IPV4,
        destination: DESTINATION_IPV4,
        options,
        ..Default::default()
    };
    Ok(IpHeaders::Ipv4(header, Ipv4Extensions { auth }))
}

/// Returns an IP authentication header (RFC 4302); the packet builder sets its next header field.
fn auth_header() -> Result<IpAuthHeader, BenchError> {
    match IpAuthHeader::new(IpNumber::UDP, 0x1001, 0, &[0xa5; ICV_LEN]) {
        Ok(header) => Ok(header),
        Err(_) => Err(BenchError::Input),
    }
}

/// Returns IPv6 hop-by-hop options with a router alert (RFC 2711); the packet builder sets their next header field.
fn hop_by_hop_options() -> Result<Ipv6RawExtHeader, BenchError> {
    match Ipv6RawExtHeader::new_raw(IpNumber::UDP, &[5, 2, 0, 0, 1, 0]) {
        Ok(header) => Ok(header),
        Err(_) => Err(BenchError::Input),
    }
}
