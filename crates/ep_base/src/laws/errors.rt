//! Laws of comparing and cloning errors: each is a function whose contract states the law.

ghost use Rattle.ep_base.specs.NumberComparisons.{DecidesEquality, ClonesExactly};

use crate::err::{ip, ip_auth, ip_exts, ipv4, ipv4_exts, ipv6, ipv6_exts, linux_sll, macsec, tcp};
use crate::laws;

/// States that two errors of a header or packet are equal exactly if they are the same variant with equal fields.
pub fn equalities()
    ensures ip_header { DecidesEquality ⟦<ip::HeaderError as PartialEq>⟧.eq }
    ensures ip_headers { DecidesEquality ⟦<ip::HeadersError as PartialEq>⟧.eq }
    ensures ip_headers_slice { DecidesEquality ⟦<ip::HeadersSliceError as PartialEq>⟧.eq }
    ensures ip_slice { DecidesEquality ⟦<ip::SliceError as PartialEq>⟧.eq }
    ensures ip_lax_header_slice { DecidesEquality ⟦<ip::LaxHeaderSliceError as PartialEq>⟧.eq }
    ensures ip_auth_header { DecidesEquality ⟦<ip_auth::HeaderError as PartialEq>⟧.eq }
    ensures ip_auth_header_slice { DecidesEquality ⟦<ip_auth::HeaderSliceError as PartialEq>⟧.eq }
    ensures ip_exts_header { DecidesEquality ⟦<ip_exts::HeaderError as PartialEq>⟧.eq }
    ensures ip_exts_headers_slice { DecidesEquality ⟦<ip_exts::HeadersSliceError as PartialEq>⟧.eq }
    ensures ip_exts_walk { DecidesEquality ⟦<ip_exts::ExtsWalkError as PartialEq>⟧.eq }
    ensures ipv4_header { DecidesEquality ⟦<ipv4::HeaderError as PartialEq>⟧.eq }
    ensures ipv4_header_slice { DecidesEquality ⟦<ipv4::HeaderSliceError as PartialEq>⟧.eq }
    ensures ipv4_slice { DecidesEquality ⟦<ipv4::SliceError as PartialEq>⟧.eq }
    ensures ipv4_exts_walk { DecidesEquality ⟦<ipv4_exts::ExtsWalkError as PartialEq>⟧.eq }
    ensures ipv4_exts_write { DecidesEquality ⟦<ipv4_exts::HeaderWriteError as PartialEq>⟧.eq }
    ensures ipv6_header { DecidesEquality ⟦<ipv6::HeaderError as PartialEq>⟧.eq }
    ensures ipv6_header_slice { DecidesEquality ⟦<ipv6::HeaderSliceError as PartialEq>⟧.eq }
    ensures ipv6_slice { DecidesEquality ⟦<ipv6::SliceError as PartialEq>⟧.eq }
    ensures ipv6_exts_header { DecidesEquality ⟦<ipv6_exts::HeaderError as PartialEq>⟧.eq }
    ensures ipv6_exts_header_slice { DecidesEquality ⟦<ipv6_exts::HeaderSliceError as PartialEq>⟧.eq }
    ensures ipv6_exts_walk { DecidesEquality ⟦<ipv6_exts::ExtsWalkError as PartialEq>⟧.eq }
    ensures ipv6_exts_write { DecidesEquality ⟦<ipv6_exts::HeaderWriteError as PartialEq>⟧.eq }
    ensures linux_sll_header { DecidesEquality ⟦<linux_sll::HeaderError as PartialEq>⟧.eq }
    ensures linux_sll_header_slice { DecidesEquality ⟦<linux_sll::HeaderSliceError as PartialEq>⟧.eq }
    ensures macsec_header { DecidesEquality ⟦<macsec::HeaderError as PartialEq>⟧.eq }
    ensures macsec_header_slice { DecidesEquality ⟦<macsec::HeaderSliceError as PartialEq>⟧.eq }
    ensures tcp_header { DecidesEquality ⟦<tcp::HeaderError as PartialEq>⟧.eq }
    ensures tcp_header_slice { DecidesEquality ⟦<tcp::HeaderSliceError as PartialEq>⟧.eq }
{
    laws::equalities();
}

/// States that cloning an error of a header or packet never fails, and that the clone is equal to its source.
pub fn clones()
    ensures ip_header { ClonesExactly ⟦<ip::HeaderError as Clone>⟧.is_infallible ⟦<ip::HeaderError as Clone>⟧.is_clone }
    ensures ip_headers { ClonesExactly
        ⟦<ip::HeadersError as Clone>⟧.is_infallible ⟦<ip::HeadersError as Clone>⟧.is_clone }
    ensures ip_headers_slice { ClonesExactly
        ⟦<ip::HeadersSliceError as Clone>⟧.is_infallible ⟦<ip::HeadersSliceError as Clone>⟧.is_clone }
    ensures ip_slice { ClonesExactly ⟦<ip::SliceError as Clone>⟧.is_infallible ⟦<ip::SliceError as Clone>⟧.is_clone }
    ensures ip_lax_header_slice { ClonesExactly
        ⟦<ip::LaxHeaderSliceError as Clone>⟧.is_infallible ⟦<ip::LaxHeaderSliceError as Clone>⟧.is_clone }
    ensures ip_auth_header { ClonesExactly
        ⟦<ip_auth::HeaderError as Clone>⟧.is_infallible ⟦<ip_auth::HeaderError as Clone>⟧.is_clone }
    ensures ip_auth_header_slice { ClonesExactly
        ⟦<ip_auth::HeaderSliceError as Clone>⟧.is_infallible ⟦<ip_auth::HeaderSliceError as Clone>⟧.is_clone }
    ensures ip_exts_header { ClonesExactly
        ⟦<ip_exts::HeaderError as Clone>⟧.is_infallible ⟦<ip_exts::HeaderError as Clone>⟧.is_clone }
    ensures ip_exts_headers_slice { ClonesExactly
        ⟦<ip_exts::HeadersSliceError as Clone>⟧.is_infallible ⟦<ip_exts::HeadersSliceError as Clone>⟧.is_clone }
    ensures ip_exts_walk { ClonesExactly
        ⟦<ip_exts::ExtsWalkError as Clone>⟧.is_infallible ⟦<ip_exts::ExtsWalkError as Clone>⟧.is_clone }
    ensures ipv4_header { ClonesExactly
        ⟦<ipv4::HeaderError as Clone>⟧.is_infallible ⟦<ipv4::HeaderError as Clone>⟧.is_clone }
    ensures ipv4_header_slice { ClonesExactly
        ⟦<ipv4::HeaderSliceError as Clone>⟧.is_infallible ⟦<ipv4::HeaderSliceError as Clone>⟧.is_clone }
    ensures ipv4_slice { ClonesExactly
        ⟦<ipv4::SliceError as Clone>⟧.is_infallible ⟦<ipv4::SliceError as Clone>⟧.is_clone }
    ensures ipv4_exts_walk { ClonesExactly
        ⟦<ipv4_exts::ExtsWalkError as Clone>⟧.is_infallible ⟦<ipv4_exts::ExtsWalkError as Clone>⟧.is_clone }
    ensures ipv4_exts_write { ClonesExactly
        ⟦<ipv4_exts::HeaderWriteError as Clone>⟧.is_infallible ⟦<ipv4_exts::HeaderWriteError as Clone>⟧.is_clone }
    ensures ipv6_header { ClonesExactly
        ⟦<ipv6::HeaderError as Clone>⟧.is_infallible ⟦<ipv6::HeaderError as Clone>⟧.is_clone }
    ensures ipv6_header_slice { ClonesExactly
        ⟦<ipv6::HeaderSliceError as Clone>⟧.is_infallible ⟦<ipv6::HeaderSliceError as Clone>⟧.is_clone }
    ensures ipv6_slice { ClonesExactly
        ⟦<ipv6::SliceError as Clone>⟧.is_infallible ⟦<ipv6::SliceError as Clone>⟧.is_clone }
    ensures ipv6_exts_header { ClonesExactly
        ⟦<ipv6_exts::HeaderError as Clone>⟧.is_infallible ⟦<ipv6_exts::HeaderError as Clone>⟧.is_clone }
    ensures ipv6_exts_header_slice { ClonesExactly
        ⟦<ipv6_exts::HeaderSliceError as Clone>⟧.is_infallible ⟦<ipv6_exts::HeaderSliceError as Clone>⟧.is_clone }
    ensures ipv6_exts_walk { ClonesExactly
        ⟦<ipv6_exts::ExtsWalkError as Clone>⟧.is_infallible ⟦<ipv6_exts::ExtsWalkError as Clone>⟧.is_clone }
    ensures ipv6_exts_write { ClonesExactly
        ⟦<ipv6_exts::HeaderWriteError as Clone>⟧.is_infallible ⟦<ipv6_exts::HeaderWriteError as Clone>⟧.is_clone }
    ensures linux_sll_header { ClonesExactly
        ⟦<linux_sll::HeaderError as Clone>⟧.is_infallible ⟦<linux_sll::HeaderError as Clone>⟧.is_clone }
    ensures linux_sll_header_slice { ClonesExactly
        ⟦<linux_sll::HeaderSliceError as Clone>⟧.is_infallible ⟦<linux_sll::HeaderSliceError as Clone>⟧.is_clone }
    ensures macsec_header { ClonesExactly
        ⟦<macsec::HeaderError as Clone>⟧.is_infallible ⟦<macsec::HeaderError as Clone>⟧.is_clone }
    ensures macsec_header_slice { ClonesExactly
        ⟦<macsec::HeaderSliceError as Clone>⟧.is_infallible ⟦<macsec::HeaderSliceError as Clone>⟧.is_clone }
    ensures tcp_header { ClonesExactly
        ⟦<tcp::HeaderError as Clone>⟧.is_infallible ⟦<tcp::HeaderError as Clone>⟧.is_clone }
    ensures tcp_header_slice { ClonesExactly
        ⟦<tcp::HeaderSliceError as Clone>⟧.is_infallible ⟦<tcp::HeaderSliceError as Clone>⟧.is_clone }
{}
