//! Theorems (laws) about comparing and cloning IP headers and slices. Each law is the contract of a function that does
//! nothing else.

ghost use Rattle.std.specs.Prelude.{◌≡◌, ◌↔◌, IsTrue};
ghost use Rattle.ep_base.specs.NumberComparisons.{DecidesEquality, ClonesExactly};
ghost use Rattle.ep_ip.specs.declared.ip_slice.IpSlice.{IpSlice};
ghost use Rattle.ep_ip.specs.declared.ipv4_header_slice.Ipv4HeaderSlice.{Ipv4HeaderSlice};
ghost use Rattle.ep_ip.specs.declared.ipv4_slice.Ipv4Slice.{Ipv4Slice};
ghost use Rattle.ep_ip.specs.declared.ipv6_header_slice.Ipv6HeaderSlice.{Ipv6HeaderSlice};
ghost use Rattle.ep_ip.specs.declared.ipv6_slice.Ipv6Slice.{Ipv6Slice};
ghost use Rattle.ep_ip.specs.IpSlices.{ShowSameIp};
ghost use Rattle.ep_ip.specs.Ipv4Slices.{ShowSameIpv4, ipv4_header_slice_bytes};
ghost use Rattle.ep_ip.specs.Ipv6Slices.{ShowSameIpv6, ipv6_header_slice_bytes};

use crate::{
    BadOptionsLen, IpSlice, Ipv4Header, Ipv4HeaderSlice, Ipv4Options, Ipv4Slice, Ipv6Header,
    Ipv6HeaderSlice, Ipv6Slice,
};

/// States that two IP headers are equal (`==`) if and only if all their fields are equal; options are compared by their
/// bytes. Two slices of IP headers or packets are equal if and only if their contents are equal.
pub fn equalities()
    ensures ipv4_options { DecidesEquality ⟦<Ipv4Options as PartialEq>⟧.eq }
    ensures options_error { DecidesEquality ⟦<BadOptionsLen as PartialEq>⟧.eq }
    ensures ipv4_header { DecidesEquality ⟦<Ipv4Header as PartialEq>⟧.eq }
    ensures ipv4_header_slice { (a b : Ipv4HeaderSlice) → IsTrue (⟦<Ipv4HeaderSlice<'static> as PartialEq>⟧.eq a b)
        ↔ (ipv4_header_slice_bytes a ≡ ipv4_header_slice_bytes b) }
    ensures ipv4_slice { (a b : Ipv4Slice) → IsTrue (⟦<Ipv4Slice<'static> as PartialEq>⟧.eq a b) ↔ ShowSameIpv4 a b }
    ensures ipv6_header { DecidesEquality ⟦<Ipv6Header as PartialEq>⟧.eq }
    ensures ipv6_header_slice { (a b : Ipv6HeaderSlice) → IsTrue (⟦<Ipv6HeaderSlice<'static> as PartialEq>⟧.eq a b)
        ↔ (ipv6_header_slice_bytes a ≡ ipv6_header_slice_bytes b) }
    ensures ipv6_slice { (a b : Ipv6Slice) → IsTrue (⟦<Ipv6Slice<'static> as PartialEq>⟧.eq a b) ↔ ShowSameIpv6 a b }
    ensures ip_slice { (a b : IpSlice) → IsTrue (⟦<IpSlice<'static> as PartialEq>⟧.eq a b) ↔ ShowSameIp a b }
{
    ep_base::laws::equalities();
    ep_ext::laws::comparisons();
}

/// States that cloning an IP header, options or slice never fails, even if memory is exhausted, and a clone equals its
/// source.
pub fn clones()
    ensures ipv4_options { ClonesExactly ⟦<Ipv4Options as Clone>⟧.is_infallible ⟦<Ipv4Options as Clone>⟧.is_clone }
    ensures options_error { ClonesExactly ⟦<BadOptionsLen as Clone>⟧.is_infallible ⟦<BadOptionsLen as Clone>⟧.is_clone }
    ensures ipv4_header { ClonesExactly ⟦<Ipv4Header as Clone>⟧.is_infallible ⟦<Ipv4Header as Clone>⟧.is_clone }
    ensures ipv4_header_slice { ClonesExactly
        ⟦<Ipv4HeaderSlice<'static> as Clone>⟧.is_infallible ⟦<Ipv4HeaderSlice<'static> as Clone>⟧.is_clone }
    ensures ipv4_slice { ClonesExactly
        ⟦<Ipv4Slice<'static> as Clone>⟧.is_infallible ⟦<Ipv4Slice<'static> as Clone>⟧.is_clone }
    ensures ipv6_header { ClonesExactly ⟦<Ipv6Header as Clone>⟧.is_infallible ⟦<Ipv6Header as Clone>⟧.is_clone }
    ensures ipv6_header_slice { ClonesExactly
        ⟦<Ipv6HeaderSlice<'static> as Clone>⟧.is_infallible ⟦<Ipv6HeaderSlice<'static> as Clone>⟧.is_clone }
    ensures ipv6_slice { ClonesExactly
        ⟦<Ipv6Slice<'static> as Clone>⟧.is_infallible ⟦<Ipv6Slice<'static> as Clone>⟧.is_clone }
    ensures ip_slice { ClonesExactly
        ⟦<IpSlice<'static> as Clone>⟧.is_infallible ⟦<IpSlice<'static> as Clone>⟧.is_clone }
{}
