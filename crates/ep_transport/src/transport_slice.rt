//! Any supported transport layer (UDP, TCP, ICMPv4 or ICMPv6) as a slice of its bytes.

use crate::icmpv4_slice::Icmpv4Slice;
use crate::icmpv6_slice::Icmpv6Slice;
use crate::tcp_slice::TcpSlice;
use crate::udp_slice::UdpSlice;
use ep_base::IpNumber;
use ep_base::err::tcp;

/// UDP datagram, TCP segment, ICMPv4 or ICMPv6 message as a slice of its bytes.
#[derive(Clone, Debug, PartialEq, Eq, Drop)]
pub enum TransportSlice<'a> {
    /// UDP datagram (RFC 768).
    Udp(UdpSlice<'a>),
    /// TCP segment (RFC 9293).
    Tcp(TcpSlice<'a>),
    /// ICMPv4 message (RFC 792).
    Icmpv4(Icmpv4Slice<'a>),
    /// ICMPv6 message (RFC 4443).
    Icmpv6(Icmpv6Slice<'a>),
}

impl<'a> TransportSlice<'a> {
    ghost use Rattle.std.specs.Prelude.{◌≡◌, ◌≤◌, ◌++◌, None, IfOk, IfErr, IfSome, IsOkAnd, List, ℕ, Option};
    ghost use Rattle.std.specs.Option.{MatchOption, option_map};
    ghost use Rattle.ep_base.specs.Readings.{slices};
    ghost use Rattle.ep_transport.specs.TransportParts.{TransportLayer, transport_layer, IsTransportPart, RefusesTransportPart, transport_layer_of, transport_slice_bytes, transport_payload};
    ghost use Rattle.ep_transport.specs.TransportHeaders.{transport_header_len};
    ghost use Rattle.ep_transport.specs.TransportHeaders.{udp_header_in, tcp_header_in, icmpv4_header_in, icmpv6_header_in};
    ghost use Rattle.ep_transport.specs.UdpSlices.{udp_slice_header, udp_slice_payload};
    ghost use Rattle.ep_transport.specs.TcpSlices.{tcp_slice_header, tcp_slice_payload};
    ghost use Rattle.ep_transport.specs.Icmpv4Slices.{icmpv4_slice_header, icmpv4_slice_payload};
    ghost use Rattle.ep_transport.specs.Icmpv6Slices.{icmpv6_slice_header, icmpv6_slice_payload};
    ghost use Rattle.ep_transport.specs.declared.transport_header.TransportHeader.TheVariants as header;

    /// Parses the transport layer at the start of `slice`, the payload of an IP packet with the protocol `number`.
    /// Returns `None` for a fragment, and for a protocol other than UDP, TCP, ICMPv4 and ICMPv6.
    #[inline(always)]
    pub fn from_ip_number(
        number: IpNumber,
        fragmented: bool,
        slice: &'a [u8],
    ) -> Result<Option<TransportSlice<'a>>, tcp::HeaderSliceError>
        ensures ok { IfOk result (λ part.
            IsTransportPart slices number.0 fragmented slice.now (option_map transport_layer_of part)) }
        ensures only { (part : Option TransportLayer) → IsTransportPart slices number.0 fragmented slice.now part
            → IsOkAnd result (λ shown. option_map transport_layer_of shown ≡ part) }
        ensures bytes { IfOk result (λ part. IfSome part (λ shown.
            (left : List ℕ) × (slice.now ≡ transport_slice_bytes shown ++ left))) }
        ensures err { IfErr result (RefusesTransportPart slices number.0 fragmented slice.now) }
    {
        TransportSlice::parse_ip_payload(number, fragmented, slice)
    }

    /// Implements `TransportSlice::from_ip_number`, which parses the transport layer at the start of an IP payload.
    #[inline(always)]
    fn parse_ip_payload(
        number: IpNumber,
        fragmented: bool,
        slice: &'a [u8],
    ) -> Result<Option<TransportSlice<'a>>, tcp::HeaderSliceError>
        ensures ok { IfOk result (λ part.
            IsTransportPart slices number.0 fragmented slice.now (option_map transport_layer_of part)) }
        ensures bytes { IfOk result (λ part. IfSome part (λ shown.
            (left : List ℕ) × (slice.now ≡ transport_slice_bytes shown ++ left))) }
        ensures err { IfErr result (RefusesTransportPart slices number.0 fragmented slice.now) }
    {
        if fragmented {
            return Ok(None);
        }
        if number == IpNumber::UDP {
            return match UdpSlice::from_slice(slice) {
                Ok(datagram) => Ok(Some(TransportSlice::Udp(datagram))),
                Err(error) => Err(tcp::HeaderSliceError::Len(error)),
            };
        }
        if number == IpNumber::TCP {
            return match TcpSlice::from_slice(slice) {
                Ok(segment) => Ok(Some(TransportSlice::Tcp(segment))),
                Err(error) => Err(error),
            };
        }
        if number == IpNumber::ICMP {
            return match Icmpv4Slice::from_slice(slice) {
                Ok(message) => Ok(Some(TransportSlice::Icmpv4(message))),
                Err(error) => Err(tcp::HeaderSliceError::Len(error)),
            };
        }
        if number == IpNumber::IPV6_ICMP {
            return match Icmpv6Slice::from_slice(slice) {
                Ok(message) => Ok(Some(TransportSlice::Icmpv6(message))),
                Err(error) => Err(tcp::HeaderSliceError::Len(error)),
            };
        }
        Ok(None)
    }

    /// Bytes of the UDP datagram, TCP segment, ICMPv4 or ICMPv6 message: header and payload.
    #[inline]
    pub fn slice(&self) -> &'a [u8]
        ensures { result.now ≡ transport_slice_bytes self.now }
    {
        match self {
            TransportSlice::Udp(datagram) => datagram.slice(),
            TransportSlice::Tcp(segment) => segment.slice(),
            TransportSlice::Icmpv4(message) => message.slice(),
            TransportSlice::Icmpv6(message) => message.slice(),
        }
    }

    /// Payload of the transport layer, the bytes after its header.
    #[inline]
    pub fn payload(&self) -> &'a [u8]
        ensures { result.now ≡ transport_payload (transport_layer_of self.now) }
    {
        match self {
            TransportSlice::Udp(datagram) => datagram.payload(),
            TransportSlice::Tcp(segment) => segment.payload(),
            TransportSlice::Icmpv4(message) => message.payload(),
            TransportSlice::Icmpv6(message) => message.payload(),
        }
    }

    /// Length of the UDP, TCP, ICMPv4 or ICMPv6 header in bytes, TCP options included; 8 to 60.
    #[inline]
    pub fn header_len(&self) -> usize
        ensures value { result ≡ transport_header_len (transport_layer_of self.now).header }
        ensures bound { result ≤ 60 }
    {
        match self {
            TransportSlice::Udp(datagram) => datagram.header_len(),
            TransportSlice::Tcp(segment) => segment.header_len(),
            TransportSlice::Icmpv4(message) => message.header_len(),
            TransportSlice::Icmpv6(message) => message.header_len(),
        }
    }

    /// Returns the UDP datagram, or `None` if the transport layer is of another protocol.
    #[inline]
    pub fn udp(&self) -> Option<&UdpSlice<'a>>
        ensures { let layer = transport_layer_of self.now in MatchOption result (udp_header_in layer.header ≡ None)
            (λ shown. layer ≡ transport_layer (header.Udp (udp_slice_header shown.now))
            (udp_slice_payload shown.now)) }
    {
        match self {
            TransportSlice::Udp(layer) => Some(layer),
            TransportSlice::Tcp(_) | TransportSlice::Icmpv4(_) | TransportSlice::Icmpv6(_) => None,
        }
    }

    /// Returns the TCP segment, or `None` if the transport layer is of another protocol.
    #[inline]
    pub fn tcp(&self) -> Option<&TcpSlice<'a>>
        ensures { let layer = transport_layer_of self.now in MatchOption result (tcp_header_in layer.header ≡ None)
            (λ shown. layer ≡ transport_layer (header.Tcp (tcp_slice_header shown.now))
            (tcp_slice_payload shown.now)) }
    {
        match self {
            TransportSlice::Tcp(layer) => Some(layer),
            TransportSlice::Udp(_) | TransportSlice::Icmpv4(_) | TransportSlice::Icmpv6(_) => None,
        }
    }

    /// Returns the ICMPv4 message, or `None` if the transport layer is of another protocol.
    #[inline]
    pub fn icmpv4(&self) -> Option<&Icmpv4Slice<'a>>
        ensures { let layer = transport_layer_of self.now in MatchOption result (icmpv4_header_in layer.header ≡ None)
            (λ shown. layer ≡ transport_layer (header.Icmpv4 (icmpv4_slice_header shown.now))
            (icmpv4_slice_payload shown.now)) }
    {
        match self {
            TransportSlice::Icmpv4(layer) => Some(layer),
            TransportSlice::Udp(_) | TransportSlice::Tcp(_) | TransportSlice::Icmpv6(_) => None,
        }
    }

    /// Returns the ICMPv6 message, or `None` if the transport layer is of another protocol.
    #[inline]
    pub fn icmpv6(&self) -> Option<&Icmpv6Slice<'a>>
        ensures { let layer = transport_layer_of self.now in MatchOption result (icmpv6_header_in layer.header ≡ None)
            (λ shown. layer ≡ transport_layer (header.Icmpv6 (icmpv6_slice_header shown.now))
            (icmpv6_slice_payload shown.now)) }
    {
        match self {
            TransportSlice::Icmpv6(layer) => Some(layer),
            TransportSlice::Udp(_) | TransportSlice::Tcp(_) | TransportSlice::Icmpv4(_) => None,
        }
    }
}
