//! Tests that the public types of `ep_base` (numbers, payloads, checksums, and errors except `ip::LaxHeaderSliceError`)
//! have their derived traits.

use super::*;
use ep_base::checksum::Sum16BitWords;
use ep_base::err::{
    Layer, LenError, ValueTooBigError, ValueType, ip, ip_auth, ip_exts, ipv4, ipv4_exts, ipv6,
    ipv6_exts, linux_sll, macsec, tcp,
};
use ep_base::{
    AtLeast, EtherPayloadSlice, EtherType, IpFragOffset, IpNumber, IpPayloadSlice, Ipv4Dscp,
    Ipv4Ecn, Ipv6FlowLabel, LenSource, MacsecAn, MacsecShortLen, VlanId, VlanPcp,
};

#[test]
fn derived_traits() {
    are_copied_ordered_and_hashed::<
        (
            EtherType,
            IpFragOffset,
            IpNumber,
            Ipv4Dscp,
            Ipv4Ecn,
            Ipv6FlowLabel,
            LenSource,
            MacsecAn,
            MacsecShortLen,
            VlanId,
            VlanPcp,
        ),
    >();
    are_ordered_and_hashed::<(EtherPayloadSlice<'_>, IpPayloadSlice<'_>)>();
    are_hashed::<(Layer, ValueType)>();
    are_hashed::<
        (
            LenError,
            ValueTooBigError<usize>,
            linux_sll::HeaderError,
            linux_sll::HeaderSliceError,
            macsec::HeaderError,
            macsec::HeaderSliceError,
            tcp::HeaderError,
            tcp::HeaderSliceError,
            ip::HeaderError,
            ip::HeadersError,
            ip::HeadersSliceError,
            ip::SliceError,
        ),
    >();
    are_hashed::<
        (
            ip_auth::HeaderError,
            ip_auth::HeaderSliceError,
            ip_exts::ExtsWalkError,
            ipv4::HeaderError,
            ipv4::HeaderSliceError,
            ipv4::SliceError,
            ipv4_exts::ExtsWalkError,
            ipv4_exts::HeaderWriteError,
            ipv6::HeaderError,
            ipv6::HeaderSliceError,
            ipv6::SliceError,
            ipv6_exts::ExtsWalkError,
        ),
    >();
    are_hashed::<
        (
            ipv6_exts::HeaderError,
            ipv6_exts::HeaderSliceError,
            ipv6_exts::HeaderWriteError,
            ip_exts::HeaderError,
            ip_exts::HeadersSliceError,
        ),
    >();
    are_errors::<LenError, ValueTooBigError<usize>, linux_sll::HeaderError>();
    are_errors::<linux_sll::HeaderSliceError, macsec::HeaderError, macsec::HeaderSliceError>();
    are_errors::<tcp::HeaderError, tcp::HeaderSliceError, ip::HeaderError>();
    are_errors::<ip::HeadersError, ip::HeadersSliceError, ip::SliceError>();
    are_errors::<ip_auth::HeaderError, ip_auth::HeaderSliceError, ip_exts::ExtsWalkError>();
    are_errors::<ip_exts::HeaderError, ip_exts::HeadersSliceError, ip_exts::ExtsWalkError>();
    are_errors::<ipv4::HeaderError, ipv4::HeaderSliceError, ipv4::SliceError>();
    are_errors::<ipv4_exts::ExtsWalkError, ipv4_exts::HeaderWriteError, ipv6::HeaderError>();
    are_errors::<ipv6::HeaderSliceError, ipv6::SliceError, ipv6_exts::ExtsWalkError>();
    are_errors::<
        ipv6_exts::HeaderError,
        ipv6_exts::HeaderSliceError,
        ipv6_exts::HeaderWriteError,
    >();
    is_copied::<AtLeast<'_, 20>>();
    are_compared::<Sum16BitWords>();
    have_defaults::<VlanId>();
}
