//! Calls for C that build a frame with VLAN tags, TCP options or a fragment into the caller's buffer.

ghost use Rattle.std.specs.Prelude.{◌≡◌};
ghost use Rattle.etherparse.specs.Steps.{ip_step_frame, tag_of};
ghost use Rattle.etherparse_c.specs.Building.{IsBuilt, echo_of, tcp_of, udp_between};
ghost use Rattle.etherparse_c.specs.TaggedBuilding.{IsFragmentAnswer, IsOptionsAnswer, IsTaggedAnswer};
ghost use Rattle.etherparse_c.specs.TaggedBuilding.{fragment_headers, route_tags};

use crate::building::{
    Echo, IpStep, TransportPart, UdpPorts, build, store_written, tcp_header, write_transport,
};
use crate::numbers;
use crate::route::{FragmentFields, Route, TaggedRoute, TcpFields};
use etherparse::{
    DoubleVlanHeader, EtherType, IpFragOffset, IpHeaders, IpNumber, Ipv4Extensions, Ipv4Header,
    Ipv6Extensions, Ipv6FragmentHeader, Ipv6Header, PacketBuilder, SingleVlanHeader, VlanHeader,
    VlanId, VlanPcp,
};

/// Writes the frame of a UDP datagram with up to two VLAN tags to the start of the caller's `buffer`, and its length to
/// `written`.
///
/// Returns the status: 0 if the frame is written; 2 if `route`, the fields of the headers before UDP, is invalid (IP
/// version neither 4 nor 6, more than two tags, tags without an Ethernet II header, or a VLAN identifier above 4095); 3
/// if the buffer is too small, and `written` is the needed length; 4 if the payload is too long for the headers' length
/// fields. With any status but 0 the buffer is unchanged.
#[unsafe(no_mangle)]
pub extern "C" fn etherparse_2_build_tagged_udp(
    route: &TaggedRoute,
    source_port: u16,
    destination_port: u16,
    payload: &[u8],
    buffer: &mut [u8],
    written: &mut usize,
) -> u32
    ensures { IsTaggedAnswer route.now (udp_between source_port destination_port) payload.now
        buffer.old buffer.new written.new result }
{
    let ports = UdpPorts {
        source_port,
        destination_port,
    };
    build_tagged(route, ports, payload, buffer, written)
}

/// Writes the frame of a TCP segment with options (padded with zero bytes to a multiple of 4) and up to two VLAN tags
/// to the start of the caller's `buffer`, and its length to `written`.
///
/// Returns the status: 0 if the frame is written; 4 if the options have more than 40 bytes, which is checked first; 2
/// if `route`, the fields of the headers before TCP, is invalid (IP version, tags or VLAN identifiers); 3 if the buffer
/// is too small, and `written` is the needed length; 4 if the payload is too long for the headers' length fields. With
/// any status but 0 the buffer is unchanged.
#[unsafe(no_mangle)]
pub extern "C" fn etherparse_2_build_tagged_tcp(
    route: &TaggedRoute,
    fields: &TcpFields,
    options: &[u8],
    payload: &[u8],
    buffer: &mut [u8],
    written: &mut usize,
) -> u32
    ensures { IsOptionsAnswer route.now (tcp_of fields.now) options.now payload.now
        buffer.old buffer.new written.new result }
{
    let mut header = tcp_header(fields);
    match header.set_options_raw(options) {
        Ok(()) => build_tagged(route, header, payload, buffer, written),
        Err(_) => {
            *written = 0;
            numbers::TOO_LONG
        }
    }
}

/// Writes the frame of an ICMP echo request (`is_reply` is 0) or echo reply with up to two VLAN tags to the start of
/// the caller's `buffer`, and its length to `written`. The message is ICMPv6 if the IP version is 6.
///
/// Returns the status: 0 if the frame is written; 2 if `route`, the fields of the headers before ICMP, is invalid (IP
/// version, tags or VLAN identifiers); 3 if the buffer is too small, and `written` is the needed length; 4 if the
/// payload is too long for the headers' length fields. With any status but 0 the buffer is unchanged.
#[unsafe(no_mangle)]
pub extern "C" fn etherparse_2_build_tagged_icmp_echo(
    route: &TaggedRoute,
    is_reply: u8,
    id: u16,
    seq: u16,
    payload: &[u8],
    buffer: &mut [u8],
    written: &mut usize,
) -> u32
    ensures { IsTaggedAnswer route.now (echo_of route.now.route is_reply id seq) payload.now
        buffer.old buffer.new written.new result }
{
    let echo = Echo {
        is_ipv4: route.route.version == 4,
        is_reply,
        id,
        seq,
    };
    build_tagged(route, echo, payload, buffer, written)
}

/// Writes the frame of one fragment of an IP datagram to the start of the caller's `buffer`, and its length to
/// `written`; `payload` has the bytes of this fragment only.
///
/// Returns the status: 0 if the frame is written; 2 if the IP version, the tags or the VLAN identifiers in `route` are
/// invalid, or if the fragment offset is not a multiple of 8, or if an IPv4 identification has more than 16 bits; 3 if
/// the buffer is too small, and `written` is the needed length; 4 if the payload is too long for the headers' length
/// fields. With any status but 0 the buffer is unchanged.
#[unsafe(no_mangle)]
pub extern "C" fn etherparse_2_build_fragment(
    route: &TaggedRoute,
    fields: &FragmentFields,
    payload: &[u8],
    buffer: &mut [u8],
    written: &mut usize,
) -> u32
    ensures { IsFragmentAnswer route.now fields.now payload.now
        buffer.old buffer.new written.new result }
{
    let number = fields.ip_number;
    if let Some(headers) = fragment_headers(&route.route, fields) {
        let start = PacketBuilder::ethernet2(
            route.route.ethernet_source,
            route.route.ethernet_destination,
        );
        if route.tag_count == 0 {
            if route.route.with_ethernet == 0 {
                let step = PacketBuilder::ip(headers);
                return write_ip(step, number, payload, buffer, written);
            }
            let step = start.ip(headers);
            return write_ip(step, number, payload, buffer, written);
        }
        if route.route.with_ethernet != 0 {
            if let Some(tags) = route_tags(route) {
                let step = start.vlan(tags).ip(headers);
                return write_ip(step, number, payload, buffer, written);
            }
        }
    }
    *written = 0;
    numbers::UNKNOWN_CHOICE
}

/// Writes a frame to the start of the caller's buffer: an optional Ethernet II header with up to two VLAN tags, an IP
/// header, a transport header, and the payload. Returns the status for C (0 if the frame is written).
#[inline(always)]
fn build_tagged<Transport: TransportPart>(
    tagged: &TaggedRoute,
    transport_part: Transport,
    payload: &[u8],
    buffer: &mut [u8],
    written: &mut usize,
) -> u32
    ensures { IsTaggedAnswer tagged.now (Transport.header transport_part) payload.now
        buffer.old buffer.new written.new result }
{
    if tagged.tag_count == 0 {
        return build(&tagged.route, transport_part, payload, buffer, written);
    }
    let route = tagged.route;
    if route.with_ethernet != 0 {
        if let Some(tags) = route_tags(tagged) {
            let start = PacketBuilder::ethernet2(route.ethernet_source, route.ethernet_destination);
            if route.version == 4 {
                let (from, to) = (route.ipv4_source, route.ipv4_destination);
                let step = start.vlan(tags).ipv4(from, to, route.hop_limit);
                return write_transport(step, transport_part, payload, buffer, written);
            }
            if route.version == 6 {
                let (from, to) = (route.ipv6_source, route.ipv6_destination);
                let step = start.vlan(tags).ipv6(from, to, route.hop_limit);
                return write_transport(step, transport_part, payload, buffer, written);
            }
        }
    }
    *written = 0;
    numbers::UNKNOWN_CHOICE
}

/// Writes a frame to the start of the buffer: the link and IP headers of the builder `step`, and a payload whose IP
/// protocol is `number`. Returns the status for C (0 if the frame is written).
fn write_ip(step: IpStep, number: u8, payload: &[u8], buffer: &mut [u8], written: &mut usize) -> u32
    ensures { IsBuilt (ip_step_frame step (record { 0 = number })) payload.now buffer.old buffer.new written.new result }
{
    store_written(
        step.write_to_slice(buffer, IpNumber(number), payload),
        written,
    )
}

/// Converts the VLAN fields that C passes to one or two VLAN tags. Returns `None` if the number of tags is neither 1
/// nor 2, or if the VLAN identifier of one of these tags is above 4095.
fn route_tags(tagged: &TaggedRoute) -> Option<VlanHeader>
    ensures { result ≡ route_tags tagged.now }
{
    let [outer, inner] = tagged.vlan_ids;
    match tagged.tag_count {
        1 => Some(VlanHeader::Single(tag(VlanId::try_new(outer).ok()?))),
        2 => Some(VlanHeader::Double(DoubleVlanHeader {
            outer: tag(VlanId::try_new(outer).ok()?),
            inner: tag(VlanId::try_new(inner).ok()?),
        })),
        _ => None,
    }
}

/// Returns a VLAN tag with this identifier; its priority, drop eligible indicator and ether type are 0.
fn tag(vlan_id: VlanId) -> SingleVlanHeader
    ensures { result ≡ tag_of vlan_id }
{
    SingleVlanHeader {
        pcp: VlanPcp::ZERO,
        drop_eligible_indicator: false,
        vlan_id,
        ether_type: EtherType(0),
    }
}

/// Returns the IP headers of a fragment, or `None` if the IP version is neither 4 nor 6, the fragment offset is not a
/// multiple of 8, or an IPv4 identification has more than 16 bits.
fn fragment_headers(route: &Route, fields: &FragmentFields) -> Option<IpHeaders>
    ensures { result ≡ fragment_headers route.now fields.now }
{
    if fields.fragment_offset % 8 != 0 {
        return None;
    }
    let fragment_offset = IpFragOffset::try_new(fields.fragment_offset / 8).ok()?;
    let more_fragments = fields.more_fragments != 0;
    match route.version {
        4 => Some(IpHeaders::Ipv4(
            Ipv4Header {
                identification: u16::try_from(fields.identification).ok()?,
                dont_fragment: false,
                more_fragments,
                fragment_offset,
                time_to_live: route.hop_limit,
                source: route.ipv4_source,
                destination: route.ipv4_destination,
                ..Ipv4Header::default()
            },
            Ipv4Extensions::default(),
        )),
        6 => Some(IpHeaders::Ipv6(
            Ipv6Header {
                hop_limit: route.hop_limit,
                source: route.ipv6_source,
                destination: route.ipv6_destination,
                ..Ipv6Header::default()
            },
            Ipv6Extensions {
                fragment: Some(Ipv6FragmentHeader {
                    next_header: IpNumber(0),
                    fragment_offset,
                    more_fragments,
                    identification: fields.identification,
                }),
                ..Ipv6Extensions::default()
            },
        )),
        _ => None,
    }
}
