//! Verdicts about the checksums of a packet.

ghost use Rattle.std.specs.Prelude.{◌≡◌, ◌≤◌, ◌<◌, ◌*◌, ◌^◌, ◌==◌, if◌then◌else◌, length};
ghost use Rattle.ep_base.specs.Checksum.{residue};
ghost use Rattle.ep_ext.specs.Ipv6ExtensionSlices.{extension_slice_part, ipv6_slice_parts};
ghost use Rattle.ep_base.specs.IpPayload.{ip_payload_of};
ghost use Rattle.ep_transport.specs.UdpSlices.{udp_slice_bytes, udp_slice_header};
ghost use Rattle.ep_packet.specs.Verdicts.{has_routing, has_source_route, is_partial, is_routing, is_source_route};
ghost use Rattle.ep_packet.specs.Verdicts.{message_verdict_ipv4, message_verdict_ipv6, sum_verdict};
ghost use Rattle.ep_packet.specs.declared.checksum_verdict.ChecksumVerdict.TheVariants as verdict;

use crate::little_endian_sum::{add_little_endian, is_all_ones};
use ep_base::checksum::Sum16BitWords;
use ep_base::{IpNumber, IpPayloadSlice, LenSource};
use ep_ext::{Ipv6ExtensionSlice, Ipv6ExtensionsSlice};
use ep_ip::{Ipv4HeaderSlice, Ipv6HeaderSlice};
use ep_transport::pseudo_header::{sum_ipv4, sum_ipv6};
use ep_transport::{TransportSlice, UdpSlice};

/// Minimum length in bytes of a message that is summed by `Sum16BitWords`, in blocks. For shorter messages it is faster
/// to add little-endian words.
const LONG: usize = 128;

/// Verdict about a checksum: that of an IPv4 header, or that of a UDP datagram, TCP segment, ICMPv4 or ICMPv6 message.
#[derive(Clone, Copy, Debug, PartialEq, Eq)]
pub enum ChecksumVerdict {
    /// The one's complement sum of the bytes that the checksum covers, and of the pseudo header, is 65535.
    Valid,
    /// The one's complement sum is not 65535, or a UDP datagram over IPv6 has checksum 0, which RFC 8200 (8.1) permits
    /// only in tunnels that are configured for it.
    Invalid,
    /// UDP datagram over IPv4 with checksum 0: the sender computed no checksum (RFC 768).
    Absent,
    /// The checksum cannot be verified: bytes of the message are missing, its length is unknown or does not fit the
    /// pseudo header, the IP header does not have the destination address of the pseudo header, or no pseudo header is
    /// defined, as for ICMPv6 over IPv4.
    Unknown,
}

/// Verdicts about the checksums of a packet. A network card may fill in the checksums of outgoing packets after they
/// are captured, and those of such packets are then `Invalid`.
#[derive(Clone, Copy, Debug, PartialEq, Eq)]
pub struct ChecksumVerdicts {
    /// Verdict about the checksum of the IPv4 header, `Valid` or `Invalid`; `None` if the packet has no IPv4 header.
    pub ipv4_header: Option<ChecksumVerdict>,
    /// Verdict about the checksum of the transport layer; `None` if the packet has none and carries no fragment. That
    /// of a fragment is `Unknown`.
    pub transport: Option<ChecksumVerdict>,
}

impl ChecksumVerdict {
    ghost use Rattle.ep_ext.specs.Ipv6ExtensionSlices.{ipv6_slice_parts};
    ghost use Rattle.ep_ip.specs.Ipv4Slices.{ipv4_header_slice_bytes, ipv4_header_slice_header};
    ghost use Rattle.ep_ip.specs.Ipv6Slices.{ipv6_header_slice_header};
    ghost use Rattle.std.specs.Prelude.{◌≡◌, if◌then◌else◌};
    ghost use Rattle.ep_packet.specs.Verdicts.{has_routing, has_source_route, message_of, sum_verdict};
    ghost use Rattle.ep_packet.specs.Verdicts.{verdict_ipv4, verdict_ipv6};
    ghost use Rattle.ep_packet.specs.declared.checksum_verdict.ChecksumVerdict.TheVariants as verdict;

    /// Returns whether the checksum of an IPv4 header is valid: `Valid` or `Invalid` (RFC 791, 3.1).
    #[inline]
    pub fn of_ipv4_header(header: &Ipv4HeaderSlice<'_>) -> ChecksumVerdict
        ensures { result ≡ sum_verdict (ipv4_header_slice_bytes header.now) }
    {
        let bytes = header.slice();
        match bytes.split_first_chunk::<20>() {
            // The compiler sums 20 bytes, of a header without options, without a call and a loop.
            Some((fixed, [])) => sum_verdict(fixed),
            _ => sum_verdict(bytes),
        }
    }

    /// Returns whether the checksum of a transport layer with the addresses and options of an IPv4 header is valid. It
    /// is `Unknown` if a loose or strict source route is among the options. The transport layer must be complete.
    #[inline]
    pub fn in_ipv4(header: &Ipv4HeaderSlice<'_>, transport: &TransportSlice<'_>) -> ChecksumVerdict
        ensures { let ip = ipv4_header_slice_header header.now in let message = message_of transport.now in
            result ≡ (if has_source_route ip.options then verdict.Unknown
            else verdict_ipv4 ip.source ip.destination message.0 message.1) }
    {
        if has_source_route(header.options()) {
            return ChecksumVerdict::Unknown;
        }
        ChecksumVerdict::between_ipv4(header.source(), header.destination(), transport)
    }

    /// Returns whether the checksum of a transport layer with the addresses of an IPv6 header is valid. It is `Unknown`
    /// if a routing header is among the extension headers. The transport layer must be complete.
    #[inline]
    pub fn in_ipv6(
        header: &Ipv6HeaderSlice<'_>,
        extensions: Ipv6ExtensionsSlice<'_>,
        transport: &TransportSlice<'_>,
    ) -> ChecksumVerdict
        ensures { let ip = ipv6_header_slice_header header.now in let message = message_of transport.now in
            result ≡ (if has_routing (ipv6_slice_parts extensions.entry) then verdict.Unknown
            else verdict_ipv6 ip.source ip.destination message.0 message.1) }
    {
        if has_routing(extensions) {
            return ChecksumVerdict::Unknown;
        }
        ChecksumVerdict::between_ipv6(header.source(), header.destination(), transport)
    }

    /// Returns whether the checksum of a complete transport layer between two IPv4 addresses is valid. It is `Unknown`
    /// for ICMPv6, for which no IPv4 pseudo header is defined, for a UDP datagram whose length field does not count it,
    /// and for a TCP segment of more than 65535 bytes.
    #[inline]
    pub fn between_ipv4(
        source: [u8; 4],
        destination: [u8; 4],
        transport: &TransportSlice<'_>,
    ) -> ChecksumVerdict
        ensures { let message = message_of transport.now in
            result ≡ verdict_ipv4 source destination message.0 message.1 }
    {
        // (comparisons, since a jump table is slower where the kinds of packets alternate)
        let (number, message) = if let TransportSlice::Udp(datagram) = transport {
            if datagram.checksum() == 0 {
                return ChecksumVerdict::Absent;
            }
            if !counts_message(datagram) {
                return ChecksumVerdict::Unknown;
            }
            (IpNumber::UDP, datagram.slice())
        } else if let TransportSlice::Tcp(segment) = transport {
            (IpNumber::TCP, segment.slice())
        } else if let TransportSlice::Icmpv4(message) = transport {
            return sum_verdict(message.slice());
        } else {
            return ChecksumVerdict::Unknown;
        };
        message_ipv4(source, destination, number, message)
    }

    /// Returns whether the checksum of a complete transport layer between two IPv6 addresses is valid. It is `Unknown`
    /// for a UDP datagram whose length field does not count it, and for a TCP segment or ICMPv6 message whose length
    /// exceeds 32 bits.
    #[inline]
    pub fn between_ipv6(
        source: [u8; 16],
        destination: [u8; 16],
        transport: &TransportSlice<'_>,
    ) -> ChecksumVerdict
        ensures { let message = message_of transport.now in
            result ≡ verdict_ipv6 source destination message.0 message.1 }
    {
        // (comparisons, since a jump table is slower where the kinds of packets alternate)
        let (number, message) = if let TransportSlice::Udp(datagram) = transport {
            if datagram.checksum() == 0 {
                return ChecksumVerdict::Invalid;
            }
            if !counts_message(datagram) {
                return ChecksumVerdict::Unknown;
            }
            (IpNumber::UDP, datagram.slice())
        } else if let TransportSlice::Tcp(segment) = transport {
            (IpNumber::TCP, segment.slice())
        } else if let TransportSlice::Icmpv6(message) = transport {
            (IpNumber::IPV6_ICMP, message.slice())
        } else if let TransportSlice::Icmpv4(message) = transport {
            return sum_verdict(message.slice());
        } else {
            return ChecksumVerdict::Unknown;
        };
        message_ipv6(source, destination, number, message)
    }
}

impl ChecksumVerdicts {
    ghost use Rattle.std.specs.Prelude.{◌≡◌, List, Some, None};
    ghost use Rattle.std.specs.Option.{option_map};
    ghost use Rattle.ep_base.specs.IpPayload.{ip_payload_of};
    ghost use Rattle.ep_ext.specs.ExtensionParts.{ExtensionPart};
    ghost use Rattle.ep_ext.specs.Ipv6ExtensionSlices.{ipv6_slice_parts};
    ghost use Rattle.ep_ip.specs.Ipv4Slices.{ipv4_header_slice_bytes, ipv4_header_slice_header};
    ghost use Rattle.ep_ip.specs.Ipv6Slices.{ipv6_header_slice_header};
    ghost use Rattle.ep_packet.specs.Layers.{ipv4, ipv6};
    ghost use Rattle.ep_packet.specs.Verdicts.{message_of, sum_verdict, transport_verdict};

    /// Returns whether the checksums of an IPv4 header and of the transport layer after it are valid. `incomplete`
    /// states whether bytes of the transport layer are missing.
    #[inline]
    pub fn of_ipv4(
        header: &Ipv4HeaderSlice<'_>,
        payload: &IpPayloadSlice<'_>,
        incomplete: bool,
        transport: &Option<TransportSlice<'_>>,
    ) -> ChecksumVerdicts
        ensures header { result.ipv4_header ≡ Some (sum_verdict (ipv4_header_slice_bytes header.now)) }
        ensures transport { (extensions : List ExtensionPart) → result.transport ≡ transport_verdict
            (Some (ipv4 (ipv4_header_slice_header header.now) extensions (ip_payload_of payload.now)))
            incomplete (option_map message_of transport.now) }
    {
        let transport = match transport {
            Some(_) if incomplete || is_partial(payload) => Some(ChecksumVerdict::Unknown),
            Some(transport) => Some(ChecksumVerdict::in_ipv4(header, transport)),
            None if payload.fragmented => Some(ChecksumVerdict::Unknown),
            None => None,
        };
        ChecksumVerdicts {
            ipv4_header: Some(ChecksumVerdict::of_ipv4_header(header)),
            transport,
        }
    }

    /// Returns whether the checksum of the transport layer after an IPv6 header and its extension headers is valid.
    /// `incomplete` states whether bytes of the transport layer are missing.
    #[inline]
    pub fn of_ipv6(
        header: &Ipv6HeaderSlice<'_>,
        extensions: Ipv6ExtensionsSlice<'_>,
        payload: &IpPayloadSlice<'_>,
        incomplete: bool,
        transport: &Option<TransportSlice<'_>>,
    ) -> ChecksumVerdicts
        ensures header { result.ipv4_header ≡ None }
        ensures transport { result.transport ≡ transport_verdict
            (Some (ipv6 (ipv6_header_slice_header header.now) (ipv6_slice_parts extensions.entry)
            (ip_payload_of payload.now))) incomplete (option_map message_of transport.now) }
    {
        let transport = match transport {
            Some(_) if incomplete || is_partial(payload) => Some(ChecksumVerdict::Unknown),
            Some(transport) => Some(ChecksumVerdict::in_ipv6(header, extensions, transport)),
            None if payload.fragmented => Some(ChecksumVerdict::Unknown),
            None => None,
        };
        ChecksumVerdicts {
            ipv4_header: None,
            transport,
        }
    }

    /// Returns the verdicts about a packet without an IP header: `Unknown` for a transport layer, which no call that
    /// slices packets returns without an IP header.
    pub fn without_ip(transport: &Option<TransportSlice<'_>>) -> ChecksumVerdicts
        ensures header { result.ipv4_header ≡ None }
        ensures transport { result.transport ≡ option_map (λ _. verdict.Unknown) transport.now }
    {
        ChecksumVerdicts {
            ipv4_header: None,
            transport: transport.as_ref().map(|_| ChecksumVerdict::Unknown),
        }
    }
}

/// Returns true if the length field of a UDP datagram counts exactly its bytes: it is neither 0 nor less than a header.
#[inline]
fn counts_message(datagram: &UdpSlice<'_>) -> bool
    ensures { result ≡ ((udp_slice_header datagram.now).length == length (udp_slice_bytes datagram.now)) }
{
    usize::from(datagram.length()) == datagram.slice().len()
}

/// Returns whether the checksum of a message between two IPv4 addresses is valid; `Unknown` if its length exceeds 16
/// bits.
#[inline]
fn message_ipv4(
    source: [u8; 4],
    destination: [u8; 4],
    number: IpNumber,
    message: &[u8],
) -> ChecksumVerdict
    ensures { result ≡ message_verdict_ipv4 source destination number.0 message.now }
{
    let len = message.len();
    if len > 65535 {
        return ChecksumVerdict::Unknown;
    }
    if len >= LONG {
        let pseudo = sum_ipv4(source, destination, number, len as u16);
        return verdict_of_sum(&pseudo.add_slice(message));
    }
    let sum = add_little_endian(0, &[0, number.0]);
    let sum = add_little_endian(sum, &(len as u16).to_be_bytes());
    let sum = add_little_endian(sum, &source);
    let sum = add_little_endian(sum, &destination);
    verdict_of_words(add_little_endian(sum, message))
}

/// Returns whether the checksum of a message between two IPv6 addresses is valid; `Unknown` if its length exceeds 32
/// bits.
#[inline]
fn message_ipv6(
    source: [u8; 16],
    destination: [u8; 16],
    number: IpNumber,
    message: &[u8],
) -> ChecksumVerdict
    ensures { result ≡ message_verdict_ipv6 source destination number.0 message.now }
{
    let len = message.len();
    if len > 4294967295 {
        return ChecksumVerdict::Unknown;
    }
    if len >= LONG {
        let pseudo = sum_ipv6(source, destination, number, len as u32);
        return verdict_of_sum(&pseudo.add_slice(message));
    }
    let sum = add_little_endian(0, &(len as u32).to_be_bytes());
    let sum = add_little_endian(sum, &[0, 0, 0, number.0]);
    let sum = add_little_endian(sum, &source);
    let sum = add_little_endian(sum, &destination);
    verdict_of_words(add_little_endian(sum, message))
}

/// Returns whether the checksum in the bytes is valid, if it covers no pseudo header.
#[inline]
fn sum_verdict(bytes: &[u8]) -> ChecksumVerdict
    ensures { result ≡ sum_verdict bytes.now }
{
    if bytes.len() >= LONG {
        return verdict_of_sum(&Sum16BitWords::new().add_slice(bytes));
    }
    verdict_of_words(add_little_endian(0, bytes))
}

/// Returns `Valid` if the one's complement sum is 65535, otherwise `Invalid`.
#[inline]
fn verdict_of_sum(sum: &Sum16BitWords) -> ChecksumVerdict
    requires { sum.now ≤ 65535 }
    ensures { result ≡ (if sum.now == 65535 then verdict.Valid else verdict.Invalid) }
{
    if sum.ones_complement() == 0 {
        ChecksumVerdict::Valid
    } else {
        ChecksumVerdict::Invalid
    }
}

/// Returns `Valid` if the one's complement sum is 65535, by the sum of little-endian words, otherwise `Invalid`.
#[inline]
fn verdict_of_words(sum: u128) -> ChecksumVerdict
    requires { sum < 2 ^ 80 }
    ensures { result ≡ (if residue (256 * sum) == 65535 then verdict.Valid else verdict.Invalid) }
{
    if is_all_ones(sum) {
        ChecksumVerdict::Valid
    } else {
        ChecksumVerdict::Invalid
    }
}

/// Returns true if a loose or strict source route is among IPv4 options (RFC 791, 3.1).
#[inline]
fn has_source_route(options: &[u8]) -> bool
    ensures { result ≡ has_source_route options.now }
{
    let mut rest = options;
    while let [kind, len, ..] = rest {
        match kind {
            0 => return false,
            1 => rest = &rest[1..],
            _ => {
                let len = usize::from(*len);
                if len < 2 || rest.len() < len {
                    return false;
                }
                if is_source_route(*kind) {
                    return true;
                }
                rest = &rest[len..];
            }
        }
    }
    false
}

/// Returns true if an IPv4 option of this type is a loose (131) or strict (137) source route.
#[inline]
fn is_source_route(kind: u8) -> bool
    ensures { result ≡ is_source_route kind }
{
    kind == 131 || kind == 137
}

/// Returns true if a routing header is among IPv6 extension headers.
#[inline]
fn has_routing(extensions: Ipv6ExtensionsSlice<'_>) -> bool
    ensures { result ≡ has_routing (ipv6_slice_parts extensions.entry) }
{
    if extensions.slice().is_empty() {
        return false;
    }
    for extension in extensions {
        if is_routing(&extension) {
            return true;
        }
    }
    false
}

/// Returns true if the IPv6 extension header is a routing header.
#[inline]
fn is_routing(extension: &Ipv6ExtensionSlice<'_>) -> bool
    ensures { result ≡ is_routing (extension_slice_part extension.now) }
{
    matches!(extension, Ipv6ExtensionSlice::Routing(_))
}

/// Returns true if the IP payload is a fragment, or if no length field counts it.
#[inline]
fn is_partial(payload: &IpPayloadSlice<'_>) -> bool
    ensures { result ≡ is_partial (ip_payload_of payload.now) }
{
    payload.fragmented || matches!(payload.len_source, LenSource::Slice)
}
