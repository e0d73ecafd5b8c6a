//! Appending the headers and the payload of a built frame to a buffer: first all checks, then one reservation, then the
//! bytes.

ghost use Rattle.std.specs.Prelude.{◌≡◌, ◌≤◌, ◌<◌, ◌+◌, ◌++◌, ℕ, [], length, Err, IfErr, MatchResult, OnOk, OnErr};
ghost use Rattle.std.specs.Prelude.{vec_capacity, vec_len};
ghost use Rattle.ep_packet.specs.IpHeaders.{FitsIpHeader, LeadThrough, ip_headers_len, ip_headers_parts};
ghost use Rattle.ep_packet.specs.IpHeaders.{written_headers};
ghost use Rattle.ep_link.specs.ArpSlices.{arp_of};
ghost use Rattle.ep_transport.specs.TransportHeaders.{transport_header_len};
ghost use Rattle.ep_ext.specs.Chains.{FitParts};
ghost use Rattle.ep_build.specs.BuiltFragments.{IsFragmentReadBack};
ghost use Rattle.ep_build.specs.ReadBack.{IsArpReadBack, IsReadBack};
ghost use Rattle.ep_build.specs.BuildErrors.{IsBuildable, IsBuildError, RefusesBuild};
ghost use Rattle.ep_build.specs.BuiltFrames.{ip_frame_headers, transport_frame_headers, arp_frame_headers, built_frame, built_size};
ghost use Rattle.ep_build.specs.BuiltFrames.{link_with_type, link_part_bytes, link_part_len, transport_number};
ghost use Rattle.ep_build.specs.BuiltFrames.{with_length};
ghost use Rattle.ep_build.specs.Placing.{ArePrepared};
ghost use Rattle.ep_build.specs.Steps.{part_headers};

use crate::err::{BuildWriteError, WriteResult};
use crate::facts::{link_fits, transport_fits};
use crate::ip_part::{IpPart, IsIpHeaders};
use crate::link_part::LinkPart;
use ep_base::{EtherType, IpNumber};
use ep_link::ArpPacket;
use ep_transport::{TransportHeader, UdpHeader};

/// Appends the frame of a link header, IP headers and a payload of protocol number `last` to a buffer. The next header
/// values are set to lead to `last`.
#[inline(never)]
pub(crate) fn write_ip<Headers: IsIpHeaders>(
    link: &LinkPart,
    headers: &mut Headers,
    last: IpNumber,
    payload: &[u8],
    buf: &mut Vec<u8>,
) -> WriteResult
    ensures ok { let frame = ip_frame_headers link.now (Headers.headers headers.old) last in
        OnOk result (IsBuildable frame (length payload.now)
        × (buf.new.items ≡ buf.old.items ++ built_frame frame payload.now)) }
    ensures err { OnErr result (buf.new.items ≡ buf.old.items) }
    ensures refused { IfErr result
        (IsBuildError (ip_frame_headers link.now (Headers.headers headers.old) last) (length payload.now)) }
    ensures fragment { OnOk result (IsFragmentReadBack link.now (Headers.headers headers.old) last payload.now) }
    ensures full { result ≡ Err BuildWriteError.OutOfMemory → vec_capacity buf.old
        < vec_len buf.old + built_size (ip_frame_headers link.now (Headers.headers headers.old) last)
        (length payload.now) }
    ensures capacity { vec_capacity buf.old ≤ vec_capacity buf.new }
{
    link_fits(link);
    let ether_type = match headers.link(last, payload.len()) {
        Ok(ether_type) => ether_type,
        Err(error) => return Err(BuildWriteError::PayloadLen(error)),
    };
    let size = link.header_len() + headers.headers_len() + payload.len();
    if buf.reserve(size).is_err() {
        return Err(BuildWriteError::OutOfMemory);
    }
    append_headers(link, ether_type, headers, buf);
    buf.extend_from_slice(payload).unwrap();
    Ok(())
}

/// Appends the frame of a link header, IP headers and a payload of protocol number `last` to a buffer. It is inlined
/// and takes its arguments owned, so that an IPv4 or IPv6 header passed alone needs no space for extension headers.
#[inline(always)]
pub(crate) fn append_ip_step(
    link: LinkPart,
    ip: IpPart,
    last: IpNumber,
    payload: &[u8],
    buf: &mut Vec<u8>,
) -> WriteResult
    ensures ok { let frame = ip_frame_headers link (part_headers ip) last in
        OnOk result (IsBuildable frame (length payload.now)
        × (buf.new.items ≡ buf.old.items ++ built_frame frame payload.now)) }
    ensures err { OnErr result (buf.new.items ≡ buf.old.items) }
    ensures refused { IfErr result (IsBuildError (ip_frame_headers link (part_headers ip) last) (length payload.now)) }
    ensures fragment { OnOk result (IsFragmentReadBack link (part_headers ip) last payload.now) }
    ensures full { result ≡ Err BuildWriteError.OutOfMemory → vec_capacity buf.old
        < vec_len buf.old + built_size (ip_frame_headers link (part_headers ip) last) (length payload.now) }
    ensures capacity { vec_capacity buf.old ≤ vec_capacity buf.new }
{
    match ip {
        IpPart::Plain4(mut header) => write_ip(&link, &mut header, last, payload, buf),
        IpPart::Plain6(mut header) => write_ip(&link, &mut header, last, payload, buf),
        IpPart::Any(mut headers) => write_ip(&link, &mut headers, last, payload, buf),
    }
}

/// Appends the frame of a link header, IP headers, a transport header and a payload to a buffer. It is inlined and
/// takes its arguments owned, so that an IPv4 or IPv6 header passed alone needs no space for extension headers.
#[inline(always)]
pub(crate) fn append_transport_step(
    link: LinkPart,
    ip: IpPart,
    mut transport: TransportHeader,
    payload: &[u8],
    buf: &mut Vec<u8>,
) -> WriteResult
    ensures ok { let frame = transport_frame_headers link (part_headers ip) transport in
        OnOk result (IsBuildable frame (length payload.now)
        × (buf.new.items ≡ buf.old.items ++ built_frame frame payload.now)) }
    ensures err { OnErr result (buf.new.items ≡ buf.old.items) }
    ensures refused { IfErr result (IsBuildError (transport_frame_headers link (part_headers ip) transport)
        (length payload.now)) }
    ensures read_back { OnOk result (IsReadBack link (part_headers ip) transport payload.now) }
    ensures full { result ≡ Err BuildWriteError.OutOfMemory → vec_capacity buf.old
        < vec_len buf.old + built_size (transport_frame_headers link (part_headers ip) transport) (length payload.now) }
    ensures capacity { vec_capacity buf.old ≤ vec_capacity buf.new }
{
    match ip {
        IpPart::Plain4(mut header) => {
            write_transport(&link, &mut header, &mut transport, payload, buf)
        }
        IpPart::Plain6(mut header) => {
            write_transport(&link, &mut header, &mut transport, payload, buf)
        }
        IpPart::Any(mut headers) => {
            write_transport(&link, &mut headers, &mut transport, payload, buf)
        }
    }
}

/// Appends the frame of a link header, IP headers, a transport header and a payload to a buffer. The next header values
/// are set to lead to the transport header.
#[inline(never)]
pub(crate) fn write_transport<Headers: IsIpHeaders>(
    link: &LinkPart,
    headers: &mut Headers,
    transport: &mut TransportHeader,
    payload: &[u8],
    buf: &mut Vec<u8>,
) -> WriteResult
    ensures ok { let frame = transport_frame_headers link.now (Headers.headers headers.old) transport.old in
        OnOk result (IsBuildable frame (length payload.now)
        × (buf.new.items ≡ buf.old.items ++ built_frame frame payload.now)) }
    ensures err { OnErr result (buf.new.items ≡ buf.old.items) }
    ensures refused { IfErr result
        (IsBuildError (transport_frame_headers link.now (Headers.headers headers.old) transport.old)
        (length payload.now)) }
    ensures read_back { OnOk result (IsReadBack link.now (Headers.headers headers.old) transport.old payload.now) }
    ensures full { result ≡ Err BuildWriteError.OutOfMemory → vec_capacity buf.old < vec_len buf.old
        + built_size (transport_frame_headers link.now (Headers.headers headers.old) transport.old)
        (length payload.now) }
    ensures capacity { vec_capacity buf.old ≤ vec_capacity buf.new }
{
    let (ether_type, size) = prepared(link, headers, transport, payload)?;
    if buf.reserve(size).is_err() {
        return Err(BuildWriteError::OutOfMemory);
    }
    append_headers(link, ether_type, headers, buf);
    transport.write(buf).unwrap();
    buf.extend_from_slice(payload).unwrap();
    Ok(())
}

/// Sets the next header values and the length field of the IP headers of a frame, and the length (UDP) and checksum of
/// its transport header. Returns the ether type of the IP version, and the length of the frame in bytes.
#[inline(always)]
pub(crate) fn prepared<Headers: IsIpHeaders>(
    link: &LinkPart,
    headers: &mut Headers,
    transport: &mut TransportHeader,
    payload: &[u8],
) -> Result<(EtherType, usize), BuildWriteError>
    ensures { MatchResult result
        (λ made. ArePrepared link.now (Headers.headers headers.old) transport.old payload.now
        (Headers.headers headers.new) transport.new made.0 made.1)
        (RefusesBuild (transport_frame_headers link.now (Headers.headers headers.old) transport.old)
        (length payload.now)) }
{
    link_fits(link);
    let last = number_of(transport);
    let content_len = transport.header_len() + payload.len();
    let ether_type = match headers.link(last, content_len) {
        Ok(ether_type) => ether_type,
        Err(error) => return Err(BuildWriteError::PayloadLen(error)),
    };
    set_length(transport, payload.len());
    headers.set_checksum(transport, payload)?;
    transport_fits(transport);
    let size = link.header_len() + headers.headers_len() + content_len;
    Ok((ether_type, size))
}

/// Appends the frame of a link header and an ARP packet to a buffer.
pub(crate) fn write_arp(link: &LinkPart, packet: &ArpPacket, buf: &mut Vec<u8>) -> WriteResult
    ensures ok { OnOk result (buf.new.items
        ≡ buf.old.items ++ built_frame (arp_frame_headers link.now (arp_of packet.now)) []) }
    ensures err { OnErr result (buf.new.items ≡ buf.old.items) }
    ensures memory { IfErr result (λ error. error ≡ BuildWriteError.OutOfMemory) }
    ensures read_back { OnOk result (IsArpReadBack link.now (arp_of packet.now)) }
    ensures full { OnErr result
        (vec_capacity buf.old < vec_len buf.old + built_size (arp_frame_headers link.now (arp_of packet.now)) 0) }
    ensures capacity { vec_capacity buf.old ≤ vec_capacity buf.new }
{
    link_fits(link);
    let size = link.header_len() + packet.packet_len();
    if buf.reserve(size).is_err() {
        return Err(BuildWriteError::OutOfMemory);
    }
    link.append_with_type(EtherType::ARP, buf);
    packet.write(buf).unwrap();
    Ok(())
}

/// Returns the protocol number of a UDP, TCP, ICMPv4 or ICMPv6 header.
#[inline]
fn number_of(transport: &TransportHeader) -> IpNumber
    ensures { result.0 ≡ transport_number transport.now }
{
    match transport {
        TransportHeader::Udp(_) => IpNumber::UDP,
        TransportHeader::Tcp(_) => IpNumber::TCP,
        TransportHeader::Icmpv4(_) => IpNumber::ICMP,
        TransportHeader::Icmpv6(_) => IpNumber::IPV6_ICMP,
    }
}

/// Sets the UDP length field for a payload of `len` bytes; does nothing for another transport header.
#[inline]
fn set_length(transport: &mut TransportHeader, len: usize)
    requires { transport_header_len transport.old + len ≤ 65535 }
    ensures { transport.new ≡ with_length len transport.old }
{
    if let TransportHeader::Udp(header) = transport {
        header.length = (UdpHeader::LEN + len) as u16;
    }
}

/// Appends a link header and IP headers to a buffer, which must have the capacity for them. The lengths and next header
/// values of the headers must be set already.
#[inline]
fn append_headers<Headers: IsIpHeaders>(
    link: &LinkPart,
    ether_type: EtherType,
    headers: &Headers,
    buf: &mut Vec<u8>,
)
    requires leads { (last : ℕ) × LeadThrough (Headers.headers headers.now)
        (ip_headers_parts (Headers.headers headers.now)) last }
    requires capacity { vec_len buf.old + (link_part_len link.now + ip_headers_len (Headers.headers headers.now))
        ≤ vec_capacity buf.old }
    requires fits { FitsIpHeader (Headers.headers headers.now) }
    ensures items { buf.new.items ≡ buf.old.items ++ (link_part_bytes (link_with_type link.now ether_type)
        ++ written_headers (Headers.headers headers.now) (ip_headers_parts (Headers.headers headers.now))) }
    ensures len { vec_len buf.new
        ≡ vec_len buf.old + (link_part_len link.now + ip_headers_len (Headers.headers headers.now)) }
    ensures capacity { vec_capacity buf.old ≤ vec_capacity buf.new }
    ensures fits { FitParts (ip_headers_parts (Headers.headers headers.now)) }
{
    link_fits(link);
    link.append_with_type(ether_type, buf);
    headers.append(buf);
}
