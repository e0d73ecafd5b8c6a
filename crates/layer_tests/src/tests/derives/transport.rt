//! Tests that the public types of `ep_transport` (UDP, TCP and ICMP) have their derived traits.

use super::*;
use ep_transport::{
    IcmpEchoHeader, Icmpv4Header, Icmpv4Slice, Icmpv4Type, Icmpv6Header, Icmpv6Slice, Icmpv6Type,
    TcpHeader, TcpOptionElement, TcpOptionReadError, TcpOptionWriteError, TcpOptions,
    TcpOptionsIterator, TcpSlice, TransportChecksumError, TransportHeader, TransportSlice,
    UdpHeader, UdpSlice, icmpv4, icmpv6,
};

#[test]
fn derived_traits() {
    are_hashed::<
        (
            TcpOptionReadError,
            TcpOptionWriteError,
            TransportChecksumError,
        ),
    >();
    are_errors::<TcpOptionReadError, TcpOptionWriteError, TransportChecksumError>();
    are_compared::<
        (
            IcmpEchoHeader,
            Icmpv4Header,
            Icmpv4Slice<'_>,
            Icmpv4Type,
            Icmpv6Header,
            Icmpv6Slice<'_>,
            Icmpv6Type,
            TcpHeader,
            TcpOptionElement,
            TcpOptions,
            TcpOptionsIterator<'_>,
            TcpSlice<'_>,
        ),
    >();
    are_compared::<
        (
            TransportHeader,
            TransportSlice<'_>,
            UdpHeader,
            UdpSlice<'_>,
            icmpv4::TimeExceededCode,
            icmpv4::TimestampMessage,
            icmpv6::TimeExceededCode,
        ),
    >();
    have_defaults::<(TcpHeader, TcpOptions, UdpHeader)>();
}
