//! Laws of checksums, constants, orders, equality and clones: each is a function whose contract states the law.

ghost use Rattle.std.specs.Prelude.{◌≡◌, ◌↔◌, ◌+◌, ◌%◌, ◌^◌, ◌≤◌, ◌<◌, ℕ, List, [], ◌∷◌, ◌++◌, length, IsTrue};
ghost use Rattle.std.specs.Ordering.{nat_cmp};
ghost use Rattle.std.specs.Int.{w16, to_be_bytes};
ghost use Rattle.std.specs.List.{All};
ghost use Rattle.ep_base.specs.Checksum.{word_sum, ones_sum, ones_add, checksum_of};
ghost use Rattle.ep_base.specs.NumberComparisons.{len_source_cmp, ether_payload_cmp, ip_payload_cmp, ClonesExactly};
ghost use Rattle.ep_base.specs.declared.at_least.AtLeast.{AtLeast};
ghost use Rattle.ep_base.specs.declared.ether_type.TheConstants as ether;
ghost use Rattle.ep_base.specs.declared.ip_number.TheConstants as number;

pub mod errors;

use crate::checksum::Sum16BitWords;
use crate::err::{Layer, LenError, ValueTooBigError, ValueType};
use crate::{
    AtLeast, EtherPayloadSlice, EtherType, IpFragOffset, IpNumber, IpPayloadSlice, Ipv4Dscp,
    Ipv4Ecn, Ipv6FlowLabel, LenSource, MacsecAn, MacsecShortLen, VlanId, VlanPcp,
};

/// States that the one's complement sum of bytes is congruent modulo 65535 to the plain sum of their 16 bit words, is
/// at most 65535, and is 0 only if all bytes are 0.
pub fn sum_is_a_residue()
    ensures same { (bytes : List ℕ) → ones_sum bytes % 65535 ≡ word_sum bytes % 65535 }
    ensures bound { (bytes : List ℕ) → ones_sum bytes ≤ 65535 }
    ensures zero { (bytes : List ℕ) → (ones_sum bytes ≡ 0) ↔ All (λ byte. byte ≡ 0) bytes }
{}

/// States that the one's complement sum of two concatenated byte sequences is the one's complement addition of their
/// two sums, if the first sequence has an even number of bytes.
pub fn sum_of_parts()
    ensures { (front back : List ℕ) → length front % 2 ≡ 0
        → ones_sum (front ++ back) ≡ ones_add (ones_sum front) (ones_sum back) }
{}

/// States that one's complement addition of checksum sums is commutative and associative, and that 0, the sum of no
/// bytes, is neutral.
pub fn order_of_sums()
    ensures commutes { (a b : ℕ) → ones_add a b ≡ ones_add b a }
    ensures associates { (a b c : ℕ) → ones_add (ones_add a b) c ≡ ones_add a (ones_add b c) }
    ensures nothing { (bytes : List ℕ) → ones_add 0 (ones_sum bytes) ≡ ones_sum bytes }
{}

/// States that exchanging two adjacent byte sequences of even length at the start of the bytes does not change the
/// one's complement sum of all bytes.
pub fn order_of_parts()
    ensures { (a b back : List ℕ) → length a % 2 ≡ 0 → length b % 2 ≡ 0
        → ones_sum ((a ++ b) ++ back) ≡ ones_sum ((b ++ a) ++ back) }
{}

/// States that replacing a zero 16 bit word at an even offset, such as an empty checksum field, adds the new word to
/// the one's complement sum of the bytes.
pub fn word_in_place_of_zero()
    ensures { (front back : List ℕ) (upper lower : ℕ) → length front % 2 ≡ 0
        → ones_sum ((front ++ upper ∷ lower ∷ []) ++ back)
        ≡ ones_add (ones_sum ((front ++ 0 ∷ 0 ∷ []) ++ back)) (ones_sum (upper ∷ lower ∷ [])) }
{}

/// States that a receiver finds the checksum valid (RFC 1071, 1): if a zero checksum field at an even offset is
/// replaced by the checksum of the bytes, their one's complement sum is 65535.
pub fn checksum_is_found()
    ensures { (front back : List ℕ) → length front % 2 ≡ 0
        → ones_sum ((front ++ to_be_bytes w16 (checksum_of ((front ++ 0 ∷ 0 ∷ []) ++ back))) ++ back) ≡ 65535 }
{}

/// States that the constants for ether types and IP protocol numbers have the values that IEEE and IANA assign: the
/// associated constants of `EtherType` and `IpNumber`, and the module constants with the same names.
pub fn constants()
    ensures ipv4 { (EtherType.IPV4.0 ≡ 0x0800) × (ether.IPV4.0 ≡ 0x0800) }
    ensures arp { (EtherType.ARP.0 ≡ 0x0806) × (ether.ARP.0 ≡ 0x0806) }
    ensures ipv6 { (EtherType.IPV6.0 ≡ 0x86DD) × (ether.IPV6.0 ≡ 0x86DD) }
    ensures vlan { (EtherType.VLAN_TAGGED_FRAME.0 ≡ 0x8100) × (ether.VLAN_TAGGED_FRAME.0 ≡ 0x8100) }
    ensures provider_bridging { (EtherType.PROVIDER_BRIDGING.0 ≡ 0x88A8) × (ether.PROVIDER_BRIDGING.0 ≡ 0x88A8) }
    ensures double_vlan { (EtherType.VLAN_DOUBLE_TAGGED_FRAME.0 ≡ 0x9100)
        × (ether.VLAN_DOUBLE_TAGGED_FRAME.0 ≡ 0x9100) }
    ensures macsec { (EtherType.MACSEC.0 ≡ 0x88E5) × (ether.MACSEC.0 ≡ 0x88E5) }

    ensures hop_by_hop { (IpNumber.IPV6_HEADER_HOP_BY_HOP.0 ≡ 0) × (number.IPV6_HEADER_HOP_BY_HOP.0 ≡ 0) }
    ensures icmpv4 { (IpNumber.ICMP.0 ≡ 1) × (number.ICMP.0 ≡ 1) }
    ensures tcp { (IpNumber.TCP.0 ≡ 6) × (number.TCP.0 ≡ 6) }
    ensures udp { (IpNumber.UDP.0 ≡ 17) × (number.UDP.0 ≡ 17) }
    ensures routing { (IpNumber.IPV6_ROUTE_HEADER.0 ≡ 43) × (number.IPV6_ROUTE_HEADER.0 ≡ 43) }
    ensures fragment { (IpNumber.IPV6_FRAGMENTATION_HEADER.0 ≡ 44) × (number.IPV6_FRAGMENTATION_HEADER.0 ≡ 44) }
    ensures authentication { (IpNumber.AUTHENTICATION_HEADER.0 ≡ 51) × (number.AUTHENTICATION_HEADER.0 ≡ 51) }
    ensures icmpv6 { (IpNumber.IPV6_ICMP.0 ≡ 58) × (number.IPV6_ICMP.0 ≡ 58) }
    ensures destination_options { (IpNumber.IPV6_DESTINATION_OPTIONS.0 ≡ 60)
        × (number.IPV6_DESTINATION_OPTIONS.0 ≡ 60) }
{}

/// Returns the constant `ZERO` of each bounded number type (VLAN identifier, DSCP, fragment offset ..) and the default
/// VLAN identifier. The contract states that all are 0.
pub fn zeros() -> (
    [VlanId; 2],
    VlanPcp,
    IpFragOffset,
    Ipv4Dscp,
    Ipv4Ecn,
    Ipv6FlowLabel,
    MacsecShortLen,
    MacsecAn,
)
    ensures { result ≡ record { 0 = 0 ∷ 0 ∷ []; 1 = 0; 2 = 0; 3 = 0; 4 = 0; 5 = 0; 6 = 0; 7 = 0 } }
{
    (
        [VlanId::ZERO, VlanId::default()],
        VlanPcp::ZERO,
        IpFragOffset::ZERO,
        Ipv4Dscp::ZERO,
        Ipv4Ecn::ZERO,
        Ipv6FlowLabel::ZERO,
        MacsecShortLen::ZERO,
        MacsecAn::ZERO,
    )
}

/// States how the values of this crate's types are ordered: numbers numerically, length sources in the order of their
/// declaration, and payload slices by their fields, compared in the order of declaration.
pub fn comparisons()
    ensures ether_types { (a b : EtherType) → ⟦<EtherType as Ord>⟧.cmp a b ≡ nat_cmp a.0 b.0 }
    ensures ip_numbers { (a b : IpNumber) → ⟦<IpNumber as Ord>⟧.cmp a b ≡ nat_cmp a.0 b.0 }
    ensures len_sources { (a b : LenSource) → ⟦<LenSource as Ord>⟧.cmp a b ≡ len_source_cmp a b }
    ensures ether_payloads { (a b : EtherPayloadSlice) →
        ⟦<EtherPayloadSlice<'static> as Ord>⟧.cmp a b ≡ ether_payload_cmp a b }
    ensures ip_payloads { (a b : IpPayloadSlice) →
        ⟦<IpPayloadSlice<'static> as Ord>⟧.cmp a b ≡ ip_payload_cmp a b }
    ensures vlan_ids { (a b : ℕ) → ⟦<VlanId as Ord>⟧.cmp a b ≡ nat_cmp a b }
    ensures vlan_pcps { (a b : ℕ) → ⟦<VlanPcp as Ord>⟧.cmp a b ≡ nat_cmp a b }
    ensures fragment_offsets { (a b : ℕ) → ⟦<IpFragOffset as Ord>⟧.cmp a b ≡ nat_cmp a b }
    ensures dscps { (a b : ℕ) → ⟦<Ipv4Dscp as Ord>⟧.cmp a b ≡ nat_cmp a b }
    ensures ecns { (a b : ℕ) → ⟦<Ipv4Ecn as Ord>⟧.cmp a b ≡ nat_cmp a b }
    ensures flow_labels { (a b : ℕ) → ⟦<Ipv6FlowLabel as Ord>⟧.cmp a b ≡ nat_cmp a b }
    ensures short_lens { (a b : ℕ) → ⟦<MacsecShortLen as Ord>⟧.cmp a b ≡ nat_cmp a b }
    ensures association_numbers { (a b : ℕ) → ⟦<MacsecAn as Ord>⟧.cmp a b ≡ nat_cmp a b }
{}

/// States that two ether types, IP numbers, bounded numbers, payload slices or length errors are equal exactly if all
/// their parts are, and two checksum sums exactly if their 16 bit sums are.
pub fn equalities()
    ensures ether_types { (a b : EtherType) → IsTrue (⟦<EtherType as PartialEq>⟧.eq a b) ↔ (a ≡ b) }
    ensures ip_numbers { (a b : IpNumber) → IsTrue (⟦<IpNumber as PartialEq>⟧.eq a b) ↔ (a ≡ b) }
    ensures len_sources { (a b : LenSource) → IsTrue (⟦<LenSource as PartialEq>⟧.eq a b) ↔ (a ≡ b) }
    ensures ether_payloads { (a b : EtherPayloadSlice) →
        IsTrue (⟦<EtherPayloadSlice<'static> as PartialEq>⟧.eq a b) ↔ ((a.ether_type ≡ b.ether_type)
        × (a.len_source ≡ b.len_source) × (a.payload.now ≡ b.payload.now)) }
    ensures ip_payloads { (a b : IpPayloadSlice) →
        IsTrue (⟦<IpPayloadSlice<'static> as PartialEq>⟧.eq a b) ↔ ((a.ip_number ≡ b.ip_number)
        × (a.fragmented ≡ b.fragmented) × (a.len_source ≡ b.len_source) × (a.payload.now ≡ b.payload.now)) }
    ensures vlan_ids { (a b : ℕ) → IsTrue (⟦<VlanId as PartialEq>⟧.eq a b) ↔ (a ≡ b) }
    ensures vlan_pcps { (a b : ℕ) → IsTrue (⟦<VlanPcp as PartialEq>⟧.eq a b) ↔ (a ≡ b) }
    ensures fragment_offsets { (a b : ℕ) → IsTrue (⟦<IpFragOffset as PartialEq>⟧.eq a b) ↔ (a ≡ b) }
    ensures dscps { (a b : ℕ) → IsTrue (⟦<Ipv4Dscp as PartialEq>⟧.eq a b) ↔ (a ≡ b) }
    ensures ecns { (a b : ℕ) → IsTrue (⟦<Ipv4Ecn as PartialEq>⟧.eq a b) ↔ (a ≡ b) }
    ensures flow_labels { (a b : ℕ) → IsTrue (⟦<Ipv6FlowLabel as PartialEq>⟧.eq a b) ↔ (a ≡ b) }
    ensures short_lens { (a b : ℕ) → IsTrue (⟦<MacsecShortLen as PartialEq>⟧.eq a b) ↔ (a ≡ b) }
    ensures association_numbers { (a b : ℕ) → IsTrue (⟦<MacsecAn as PartialEq>⟧.eq a b) ↔ (a ≡ b) }
    ensures sums { (a b : ℕ) → IsTrue (⟦<Sum16BitWords as PartialEq>⟧.eq a b) ↔ (a ≡ b) }
    ensures slices { (a b : AtLeast 8) →
        IsTrue (⟦<AtLeast<'static, 8> as PartialEq>⟧.eq a b) ↔ (a.slice.now ≡ b.slice.now) }
    ensures layers { (a b : Layer) → IsTrue (⟦<Layer as PartialEq>⟧.eq a b) ↔ (a ≡ b) }
    ensures value_types { (a b : ValueType) → IsTrue (⟦<ValueType as PartialEq>⟧.eq a b) ↔ (a ≡ b) }
    ensures len_errors { (a b : LenError) → IsTrue (⟦<LenError as PartialEq>⟧.eq a b) ↔ (a ≡ b) }
    ensures value_errors { (a b : ValueTooBigError ℕ) →
        IsTrue (⟦<ValueTooBigError<u16> as PartialEq>⟧.eq a b) ↔ (a ≡ b) }
{}

/// States that cloning a number, payload slice, checksum sum or length error never fails, and that the clone is equal
/// to its source.
pub fn clones()
    ensures ether_types { ClonesExactly ⟦<EtherType as Clone>⟧.is_infallible ⟦<EtherType as Clone>⟧.is_clone }
    ensures ip_numbers { ClonesExactly ⟦<IpNumber as Clone>⟧.is_infallible ⟦<IpNumber as Clone>⟧.is_clone }
    ensures len_sources { ClonesExactly ⟦<LenSource as Clone>⟧.is_infallible ⟦<LenSource as Clone>⟧.is_clone }
    ensures ether_payloads { ClonesExactly
        ⟦<EtherPayloadSlice<'static> as Clone>⟧.is_infallible ⟦<EtherPayloadSlice<'static> as Clone>⟧.is_clone }
    ensures ip_payloads { ClonesExactly
        ⟦<IpPayloadSlice<'static> as Clone>⟧.is_infallible ⟦<IpPayloadSlice<'static> as Clone>⟧.is_clone }
    ensures vlan_ids { ClonesExactly ⟦<VlanId as Clone>⟧.is_infallible ⟦<VlanId as Clone>⟧.is_clone }
    ensures vlan_pcps { ClonesExactly ⟦<VlanPcp as Clone>⟧.is_infallible ⟦<VlanPcp as Clone>⟧.is_clone }
    ensures fragment_offsets { ClonesExactly
        ⟦<IpFragOffset as Clone>⟧.is_infallible ⟦<IpFragOffset as Clone>⟧.is_clone }
    ensures dscps { ClonesExactly ⟦<Ipv4Dscp as Clone>⟧.is_infallible ⟦<Ipv4Dscp as Clone>⟧.is_clone }
    ensures ecns { ClonesExactly ⟦<Ipv4Ecn as Clone>⟧.is_infallible ⟦<Ipv4Ecn as Clone>⟧.is_clone }
    ensures flow_labels { ClonesExactly ⟦<Ipv6FlowLabel as Clone>⟧.is_infallible ⟦<Ipv6FlowLabel as Clone>⟧.is_clone }
    ensures short_lens { ClonesExactly ⟦<MacsecShortLen as Clone>⟧.is_infallible ⟦<MacsecShortLen as Clone>⟧.is_clone }
    ensures association_numbers { ClonesExactly ⟦<MacsecAn as Clone>⟧.is_infallible ⟦<MacsecAn as Clone>⟧.is_clone }
    ensures sums { ClonesExactly ⟦<Sum16BitWords as Clone>⟧.is_infallible ⟦<Sum16BitWords as Clone>⟧.is_clone }
    ensures slices { ClonesExactly
        ⟦<AtLeast<'static, 8> as Clone>⟧.is_infallible ⟦<AtLeast<'static, 8> as Clone>⟧.is_clone }
    ensures layers { ClonesExactly ⟦<Layer as Clone>⟧.is_infallible ⟦<Layer as Clone>⟧.is_clone }
    ensures value_types { ClonesExactly ⟦<ValueType as Clone>⟧.is_infallible ⟦<ValueType as Clone>⟧.is_clone }
    ensures len_errors { ClonesExactly ⟦<LenError as Clone>⟧.is_infallible ⟦<LenError as Clone>⟧.is_clone }
    ensures value_errors { ClonesExactly
        ⟦<ValueTooBigError<u16> as Clone>⟧.is_infallible ⟦<ValueTooBigError<u16> as Clone>⟧.is_clone }
{}
