//! Header of any supported transport layer (UDP, TCP, ICMPv4 or ICMPv6) as an owned value.

ghost use Rattle.std.specs.Prelude.{◌≡◌, ◌≢◌, ◌+◌, ◌<◌, ◌≤◌, ◌++◌, false, IfOk, IfErr, IsOkAnd, MatchResult, OnOk, OnErr, Option, Some, None, length, vec_len, vec_capacity};
ghost use Rattle.std.specs.Option.{option_map};
ghost use Rattle.std.specs.Borrow.{LendsIf, sem};
ghost use Rattle.ep_base.specs.IpNumbers.{tcp_number};
ghost use Rattle.ep_base.specs.Readings.{headers};
ghost use Rattle.ep_base.specs.Tables.{Refuses, first_row};
ghost use Rattle.ep_transport.specs.contracts.transport_header.TransportHeader.{the_row};
ghost use Rattle.ep_transport.specs.contracts.udp_header.UdpHeader.{the_row as udp_row};
ghost use Rattle.ep_transport.specs.contracts.tcp_header.TcpHeader.{the_row as tcp_row};
ghost use Rattle.ep_transport.specs.contracts.icmpv4_header.Icmpv4Header.{the_row as icmpv4_row};
ghost use Rattle.ep_transport.specs.contracts.icmpv6_header.Icmpv6Header.{the_row as icmpv6_row};
ghost use Rattle.ep_transport.specs.declared.transport_header.TransportHeader.TheVariants.{Udp, Tcp, Icmpv4, Icmpv6};
ghost use Rattle.ep_transport.specs.TransportHeaders.{udp_header_in, tcp_header_in, icmpv4_header_in, icmpv6_header_in};
ghost use Rattle.ep_transport.specs.TransportHeaders.{transport_bytes, transport_header_len};
ghost use Rattle.ep_transport.specs.TcpSlices.{tcp_slice_header};
ghost use Rattle.ep_transport.specs.TransportHeaders.{checksum_rows_ipv4, checksum_rows_ipv6, with_checksum_ipv4, with_checksum_ipv6};
ghost use Rattle.ep_transport.specs.TransportParts.{TransportLayer, IsTransportPart, RefusesTransportPart, transport_layer};

use crate::icmpv4_header::Icmpv4Header;
use crate::icmpv6_header::Icmpv6Header;
use crate::tcp_header::TcpHeader;
use crate::tcp_slice::TcpSlice;
use crate::transport_checksum_error::TransportChecksumError;
use crate::udp_header::UdpHeader;
use ep_base::IpNumber;
use ep_base::err::{ValueTooBigError, tcp};
use ep_ip::{Ipv4Header, Ipv6Header};
use std::alloc::AllocError;

/// UDP, TCP, ICMPv4 or ICMPv6 header as an owned value.
#[derive(Clone, Debug, PartialEq, Eq, Drop)]
pub enum TransportHeader {
    /// UDP header (RFC 768).
    Udp(UdpHeader),
    /// TCP header with its options (RFC 9293).
    Tcp(TcpHeader),
    /// ICMPv4 header (RFC 792).
    Icmpv4(Icmpv4Header),
    /// ICMPv6 header (RFC 4443).
    Icmpv6(Icmpv6Header),
}

impl TransportHeader {
    /// Parses the transport header at the start of `slice` (the payload of an IP packet with the protocol `number`),
    /// and returns the header with all bytes after it; the UDP length field is not checked. Returns `None` for a
    /// fragment, and for a protocol other than UDP, TCP, ICMPv4 and ICMPv6.
    pub fn from_ip_number(
        number: IpNumber,
        fragmented: bool,
        slice: &[u8],
    ) -> Result<Option<(TransportHeader, &[u8])>, tcp::HeaderSliceError>
        ensures ok { IfOk result (λ part. IsTransportPart headers number.0 fragmented slice.now
            (option_map (λ read. transport_layer read.0 read.1.now) part)) }
        ensures only { (part : Option TransportLayer) → IsTransportPart headers number.0 fragmented slice.now part
            → IsOkAnd result (λ read. option_map (λ layer. transport_layer layer.0 layer.1.now) read ≡ part) }
        ensures err { IfErr result (RefusesTransportPart headers number.0 fragmented slice.now) }
    {
        TransportHeader::parse_ip_payload(number, fragmented, slice)
    }

    /// Implements `TransportHeader::from_ip_number`, which parses the transport header at the start of an IP payload.
    #[inline]
    fn parse_ip_payload(
        number: IpNumber,
        fragmented: bool,
        slice: &[u8],
    ) -> Result<Option<(TransportHeader, &[u8])>, tcp::HeaderSliceError>
        ensures ok { IfOk result (λ part. IsTransportPart headers number.0 fragmented slice.now
            (option_map (λ read. transport_layer read.0 read.1.now) part)) }
        ensures err { IfErr result (RefusesTransportPart headers number.0 fragmented slice.now) }
    {
        if fragmented {
            return Ok(None);
        }
        if number == IpNumber::UDP {
            return match UdpHeader::from_slice(slice) {
                Ok((header, payload)) => Ok(Some((TransportHeader::Udp(header), payload))),
                Err(error) => Err(tcp::HeaderSliceError::Len(error)),
            };
        }
        if number == IpNumber::TCP {
            return match TcpHeader::from_slice(slice) {
                Ok((header, payload)) => Ok(Some((TransportHeader::Tcp(header), payload))),
                Err(error) => Err(error),
            };
        }
        if number == IpNumber::ICMP {
            return match Icmpv4Header::from_slice(slice) {
                Ok((header, payload)) => Ok(Some((TransportHeader::Icmpv4(header), payload))),
                Err(error) => Err(tcp::HeaderSliceError::Len(error)),
            };
        }
        if number == IpNumber::IPV6_ICMP {
            return match Icmpv6Header::from_slice(slice) {
                Ok((header, payload)) => Ok(Some((TransportHeader::Icmpv6(header), payload))),
                Err(error) => Err(tcp::HeaderSliceError::Len(error)),
            };
        }
        Ok(None)
    }

    /// Parses the transport header at the start of `slice` (the payload of an IP packet with the protocol `number`)
    /// into `place`, and returns all bytes after the header. For a fragment, and for a protocol other than UDP, TCP,
    /// ICMPv4 and ICMPv6, `place` becomes `None`, and all bytes are returned. If `place` already contains a TCP header,
    /// a new TCP header is decoded into its fields, which saves hot loops copies of complete headers. On an error
    /// `place` is unchanged.
    pub fn read_into<'a>(
        place: &mut Option<TransportHeader>,
        number: IpNumber,
        fragmented: bool,
        slice: &'a [u8],
    ) -> Result<&'a [u8], tcp::HeaderSliceError>
        ensures ok { IfOk result (λ rest. IsTransportPart headers number.0 fragmented slice.now
            (option_map (λ header. transport_layer header rest.now) place.new)) }
        ensures only { (part : Option TransportLayer) → IsTransportPart headers number.0 fragmented slice.now part
            → IsOkAnd result (λ rest. option_map (λ header. transport_layer header rest.now) place.new ≡ part) }
        ensures no_layer { IfOk result (λ rest. place.new ≡ None → rest.now ≡ slice.now) }
        ensures err { IfErr result (RefusesTransportPart headers number.0 fragmented slice.now) }
        ensures kept { OnErr result (place.new ≡ place.old) }
    {
        TransportHeader::fill(place, number, fragmented, slice)
    }

    /// Implements `TransportHeader::read_into`, which parses the transport header of an IP payload into an existing
    /// value.
    #[inline]
    fn fill<'a>(
        place: &mut Option<TransportHeader>,
        number: IpNumber,
        fragmented: bool,
        slice: &'a [u8],
    ) -> Result<&'a [u8], tcp::HeaderSliceError>
        ensures ok { IfOk result (λ rest. IsTransportPart headers number.0 fragmented slice.now
            (option_map (λ header. transport_layer header rest.now) place.new)) }
        ensures no_layer { IfOk result (λ rest. place.new ≡ None → rest.now ≡ slice.now) }
        ensures err { IfErr result (RefusesTransportPart headers number.0 fragmented slice.now) }
        ensures kept { OnErr result (place.new ≡ place.old) }
    {
        if fragmented {
            *place = None;
            return Ok(slice);
        }
        if number == IpNumber::TCP {
            return match TcpSlice::from_slice(slice) {
                Ok(segment) => {
                    store_tcp(place, &segment);
                    Ok(segment.payload())
                }
                Err(error) => Err(error),
            };
        }
        TransportHeader::fill_without_tcp(place, number, slice)
    }

    /// Parses the UDP, ICMPv4 or ICMPv6 header at the start of an IP payload into `place`, and returns the bytes after
    /// it. For another protocol `place` becomes `None`, and all bytes are returned; `number` must not be TCP. Not
    /// inlined: otherwise the caller would zero stack space for these headers with each TCP segment.
    #[inline(never)]
    fn fill_without_tcp<'a>(
        place: &mut Option<TransportHeader>,
        number: IpNumber,
        slice: &'a [u8],
    ) -> Result<&'a [u8], tcp::HeaderSliceError>
        requires { number.0 ≢ tcp_number }
        ensures ok { IfOk result (λ rest. IsTransportPart headers number.0 false slice.now
            (option_map (λ header. transport_layer header rest.now) place.new)) }
        ensures no_layer { IfOk result (λ rest. place.new ≡ None → rest.now ≡ slice.now) }
        ensures err { IfErr result (RefusesTransportPart headers number.0 false slice.now) }
        ensures kept { OnErr result (place.new ≡ place.old) }
    {
        if number == IpNumber::UDP {
            return match UdpHeader::from_slice(slice) {
                Ok((header, payload)) => {
                    *place = Some(TransportHeader::Udp(header));
                    Ok(payload)
                }
                Err(error) => Err(tcp::HeaderSliceError::Len(error)),
            };
        }
        if number == IpNumber::ICMP {
            return match Icmpv4Header::from_slice(slice) {
                Ok((header, payload)) => {
                    *place = Some(TransportHeader::Icmpv4(header));
                    Ok(payload)
                }
                Err(error) => Err(tcp::HeaderSliceError::Len(error)),
            };
        }
        if number == IpNumber::IPV6_ICMP {
            return match Icmpv6Header::from_slice(slice) {
                Ok((header, payload)) => {
                    *place = Some(TransportHeader::Icmpv6(header));
                    Ok(payload)
                }
                Err(error) => Err(tcp::HeaderSliceError::Len(error)),
            };
        }
        *place = None;
        Ok(slice)
    }

    /// Returns the UDP header, or `None` if the transport header is of another protocol.
    #[inline]
    pub fn udp(self) -> Option<UdpHeader>
        ensures { result ≡ udp_header_in self }
    {
        match self {
            TransportHeader::Udp(header) => Some(header),
            _ => None,
        }
    }

    /// Returns the TCP header, or `None` if the transport header is of another protocol.
    #[inline]
    pub fn tcp(self) -> Option<TcpHeader>
        ensures { result ≡ tcp_header_in self }
    {
        match self {
            TransportHeader::Tcp(header) => Some(header),
            _ => None,
        }
    }

    /// Returns the ICMPv4 header, or `None` if the transport header is of another protocol.
    #[inline]
    pub fn icmpv4(self) -> Option<Icmpv4Header>
        ensures { result ≡ icmpv4_header_in self }
    {
        match self {
            TransportHeader::Icmpv4(header) => Some(header),
            _ => None,
        }
    }

    /// Returns the ICMPv6 header, or `None` if the transport header is of another protocol.
    #[inline]
    pub fn icmpv6(self) -> Option<Icmpv6Header>
        ensures { result ≡ icmpv6_header_in self }
    {
        match self {
            TransportHeader::Icmpv6(header) => Some(header),
            _ => None,
        }
    }

    /// Returns a mutable reference to the UDP header, or `None` if the transport header is of another protocol.
    #[inline]
    pub fn mut_udp(&mut self) -> Option<&mut UdpHeader>
        ensures* writes_back { sem 𝓛 (LendsIf the_row udp_row self.entry result Udp self.old) }
        ensures value { option_map (λ header. header.now) result ≡ udp_header_in self.old }
    {
        match self {
            TransportHeader::Udp(header) => Some(header),
            _ => None,
        }
    }

    /// Returns a mutable reference to the TCP header, or `None` if the transport header is of another protocol.
    #[inline]
    pub fn mut_tcp(&mut self) -> Option<&mut TcpHeader>
        ensures* writes_back { sem 𝓛 (LendsIf the_row tcp_row self.entry result Tcp self.old) }
        ensures value { option_map (λ header. header.now) result ≡ tcp_header_in self.old }
    {
        match self {
            TransportHeader::Tcp(header) => Some(header),
            _ => None,
        }
    }

    /// Returns a mutable reference to the ICMPv4 header, or `None` if the transport header is of another protocol.
    #[inline]
    pub fn mut_icmpv4(&mut self) -> Option<&mut Icmpv4Header>
        ensures* writes_back { sem 𝓛 (LendsIf the_row icmpv4_row self.entry result Icmpv4 self.old) }
        ensures value { option_map (λ header. header.now) result ≡ icmpv4_header_in self.old }
    {
        match self {
            TransportHeader::Icmpv4(header) => Some(header),
            _ => None,
        }
    }

    /// Returns a mutable reference to the ICMPv6 header, or `None` if the transport header is of another protocol.
    #[inline]
    pub fn mut_icmpv6(&mut self) -> Option<&mut Icmpv6Header>
        ensures* writes_back { sem 𝓛 (LendsIf the_row icmpv6_row self.entry result Icmpv6 self.old) }
        ensures value { option_map (λ header. header.now) result ≡ icmpv6_header_in self.old }
    {
        match self {
            TransportHeader::Icmpv6(header) => Some(header),
            _ => None,
        }
    }

    /// Length of the UDP, TCP, ICMPv4 or ICMPv6 header in bytes, TCP options included; 8 to 60.
    #[inline]
    pub fn header_len(&self) -> usize
        ensures value { result ≡ transport_header_len self.now }
        ensures bound { result ≤ 60 }
    {
        match self {
            TransportHeader::Udp(header) => header.header_len(),
            TransportHeader::Tcp(header) => header.header_len(),
            TransportHeader::Icmpv4(header) => header.header_len(),
            TransportHeader::Icmpv6(header) => header.header_len(),
        }
    }

    /// Computes the checksum of the transport header and `payload` in a packet with the IPv4 header `ip_header`, and
    /// stores it in the header. Fails for ICMPv6, and for UDP or TCP if the payload is too long; nothing is changed
    /// then. The checksum of ICMPv4 does not depend on `ip_header`.
    pub fn update_checksum_ipv4(
        &mut self,
        ip_header: &Ipv4Header,
        payload: &[u8],
    ) -> Result<(), TransportChecksumError>
        ensures { MatchResult result
            (λ _. (first_row (checksum_rows_ipv4 self.old payload.now) ≡ None)
            × (self.new ≡ with_checksum_ipv4 ip_header.now payload.now self.old))
            (λ error. Refuses (checksum_rows_ipv4 self.old payload.now) error × (self.new ≡ self.old)) }
    {
        match self {
            TransportHeader::Udp(header) => match header.calc_checksum_ipv4(ip_header, payload) {
                Ok(checksum) => header.checksum = checksum,
                Err(error) => return Err(TransportChecksumError::PayloadLen(error)),
            },
            TransportHeader::Tcp(header) => match header.calc_checksum_ipv4(ip_header, payload) {
                Ok(checksum) => header.checksum = checksum,
                Err(error) => return Err(TransportChecksumError::PayloadLen(error)),
            },
            TransportHeader::Icmpv4(header) => header.update_checksum(payload),
            TransportHeader::Icmpv6(_) => return Err(TransportChecksumError::Icmpv6InIpv4),
        }
        Ok(())
    }

    /// Computes the checksum of the transport header and `payload` in a packet with the IPv6 header `ip_header`, and
    /// stores it in the header. Fails if the payload is too long; nothing is changed then. The checksum of ICMPv4 does
    /// not depend on `ip_header`.
    pub fn update_checksum_ipv6(
        &mut self,
        ip_header: &Ipv6Header,
        payload: &[u8],
    ) -> Result<(), ValueTooBigError<usize>>
        ensures { MatchResult result
            (λ _. (first_row (checksum_rows_ipv6 self.old payload.now) ≡ None)
            × (self.new ≡ with_checksum_ipv6 ip_header.now payload.now self.old))
            (λ error. Refuses (checksum_rows_ipv6 self.old payload.now) error × (self.new ≡ self.old)) }
    {
        match self {
            TransportHeader::Udp(header) => {
                header.checksum = header.calc_checksum_ipv6(ip_header, payload)?;
            }
            TransportHeader::Tcp(header) => {
                header.checksum = header.calc_checksum_ipv6(ip_header, payload)?;
            }
            TransportHeader::Icmpv4(header) => header.update_checksum(payload),
            TransportHeader::Icmpv6(header) => {
                header.update_checksum(ip_header.source, ip_header.destination, payload)?;
            }
        }
        Ok(())
    }

    /// Appends the wire bytes of the transport header to the buffer; the checksum is written as the header contains it.
    /// Fails only if the buffer has to grow and the allocation fails; the buffer's content is then unchanged.
    pub fn write(&self, buf: &mut Vec<u8>) -> Result<(), AllocError>
        ensures ok { OnOk result (buf.new.items ≡ buf.old.items ++ transport_bytes self.now) }
        ensures err { OnErr result (buf.new.items ≡ buf.old.items) }
        ensures full { OnErr result (vec_capacity buf.old < vec_len buf.old + length (transport_bytes self.now)) }
        ensures capacity { vec_capacity buf.old ≤ vec_capacity buf.new }
    {
        match self {
            TransportHeader::Udp(header) => header.write(buf),
            TransportHeader::Tcp(header) => header.write(buf),
            TransportHeader::Icmpv4(header) => header.write(buf),
            TransportHeader::Icmpv6(header) => header.write(buf),
        }
    }
}

/// Decodes the header of a TCP segment into `place`. If `place` already contains a TCP header, its fields are
/// overwritten one by one, which copies no complete header.
fn store_tcp(place: &mut Option<TransportHeader>, segment: &TcpSlice<'_>)
    ensures { place.new ≡ Some (Tcp (tcp_slice_header segment.now)) }
{
    if let Some(TransportHeader::Tcp(header)) = place {
        segment.header_into(header);
        return;
    }
    replace_by_tcp(place, segment);
}

/// Replaces the content of `place` by the decoded header of a TCP segment. Not inlined: otherwise the caller would zero
/// stack space for a second header with each segment.
#[inline(never)]
fn replace_by_tcp(place: &mut Option<TransportHeader>, segment: &TcpSlice<'_>)
    ensures { place.new ≡ Some (Tcp (tcp_slice_header segment.now)) }
{
    *place = Some(TransportHeader::Tcp(segment.to_header()));
}
