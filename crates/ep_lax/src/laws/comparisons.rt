//! Laws about comparing and cloning the slices of lax slicing: each is the contract of a function that only calls other
//! laws.

ghost use Rattle.std.specs.Prelude.{◌≡◌, ◌↔◌, IsTrue};
ghost use Rattle.ep_base.specs.NumberComparisons.{ClonesExactly};
ghost use Rattle.ep_lax.specs.declared.lax_ether_payload_slice.LaxEtherPayloadSlice.{LaxEtherPayloadSlice};
ghost use Rattle.ep_base.specs.declared.lax_ip_payload_slice.LaxIpPayloadSlice.{LaxIpPayloadSlice};
ghost use Rattle.ep_lax.specs.declared.lax_ipv4_slice.LaxIpv4Slice.{LaxIpv4Slice};
ghost use Rattle.ep_lax.specs.declared.lax_ipv6_slice.LaxIpv6Slice.{LaxIpv6Slice};
ghost use Rattle.ep_lax.specs.declared.lax_link_ext_slice.LaxLinkExtSlice.{LaxLinkExtSlice};
ghost use Rattle.ep_lax.specs.declared.lax_macsec_payload_slice.LaxMacsecPayloadSlice.{LaxMacsecPayloadSlice};
ghost use Rattle.ep_lax.specs.declared.lax_macsec_slice.LaxMacsecSlice.{LaxMacsecSlice};
ghost use Rattle.ep_lax.specs.declared.lax_net_slice.LaxNetSlice.{LaxNetSlice};
ghost use Rattle.ep_lax.specs.declared.lax_sliced_packet.LaxSlicedPacket.{LaxSlicedPacket};
ghost use Rattle.ep_lax.specs.LaxComparisons.{ShowSameLaxExtension, ShowSameLaxIpv4, ShowSameLaxIpv6};
ghost use Rattle.ep_lax.specs.LaxComparisons.{ShowSameLaxMacsec, ShowSameLaxNet, ShowSameLaxPayload, same_lax_packets};

use crate::{
    LaxEtherPayloadSlice, LaxIpPayloadSlice, LaxIpv4Slice, LaxIpv6Slice, LaxLinkExtSlice,
    LaxMacsecPayloadSlice, LaxMacsecSlice, LaxNetSlice, LaxSlicedPacket,
};
use ep_base::err::Layer;
use ep_link::LinkSlice;
use ep_packet::err::SliceError;
use ep_transport::TransportSlice;

/// States when `==` is true for each type of lax slicing. Two payloads are equal if all their fields are equal,
/// including whether bytes are missing. Two tags or IP packets are equal if the bytes of their headers and their
/// payloads are equal. Two packets are equal if all their layers, and the errors at which slicing stopped, are equal.
pub fn equalities()
    ensures ether_payloads { (a b : LaxEtherPayloadSlice) →
        IsTrue (⟦<LaxEtherPayloadSlice<'static> as PartialEq>⟧.eq a b) ↔ ((a.incomplete ≡ b.incomplete)
        × (a.ether_type ≡ b.ether_type) × (a.len_source ≡ b.len_source) × (a.payload.now ≡ b.payload.now)) }
    ensures ip_payloads { (a b : LaxIpPayloadSlice) →
        IsTrue (⟦<LaxIpPayloadSlice<'static> as PartialEq>⟧.eq a b) ↔ ((a.incomplete ≡ b.incomplete)
        × (a.ip_number ≡ b.ip_number) × (a.fragmented ≡ b.fragmented) × (a.len_source ≡ b.len_source)
        × (a.payload.now ≡ b.payload.now)) }
    ensures ipv4 { (a b : LaxIpv4Slice) →
        IsTrue (⟦<LaxIpv4Slice<'static> as PartialEq>⟧.eq a b) ↔ ShowSameLaxIpv4 a b }
    ensures ipv6 { (a b : LaxIpv6Slice) →
        IsTrue (⟦<LaxIpv6Slice<'static> as PartialEq>⟧.eq a b) ↔ ShowSameLaxIpv6 a b }
    ensures macsec_payloads { (a b : LaxMacsecPayloadSlice) →
        IsTrue (⟦<LaxMacsecPayloadSlice<'static> as PartialEq>⟧.eq a b) ↔ ShowSameLaxPayload a b }
    ensures macsec { (a b : LaxMacsecSlice) →
        IsTrue (⟦<LaxMacsecSlice<'static> as PartialEq>⟧.eq a b) ↔ ShowSameLaxMacsec a b }
    ensures link_exts { (a b : LaxLinkExtSlice) →
        IsTrue (⟦<LaxLinkExtSlice<'static> as PartialEq>⟧.eq a b) ↔ ShowSameLaxExtension a b }
    ensures net { (a b : LaxNetSlice) →
        IsTrue (⟦<LaxNetSlice<'static> as PartialEq>⟧.eq a b) ↔ ShowSameLaxNet a b }
    ensures packets { (a b : LaxSlicedPacket) →
        ⟦<LaxSlicedPacket<'static> as PartialEq>⟧.eq a b ≡ same_lax_packets
        ⟦<LinkSlice<'static> as PartialEq>⟧.eq ⟦<LaxLinkExtSlice<'static> as PartialEq>⟧.eq
        ⟦<LaxNetSlice<'static> as PartialEq>⟧.eq ⟦<TransportSlice<'static> as PartialEq>⟧.eq
        ⟦<(SliceError, Layer) as PartialEq>⟧.eq a b }
{
    ep_base::laws::equalities();
    ep_ext::laws::comparisons();
}

/// States that cloning a slice or packet of lax slicing never fails, and the clone is equal to its source.
pub fn clones()
    ensures ether_payloads { ClonesExactly
        ⟦<LaxEtherPayloadSlice<'static> as Clone>⟧.is_infallible ⟦<LaxEtherPayloadSlice<'static> as Clone>⟧.is_clone }
    ensures ip_payloads { ClonesExactly
        ⟦<LaxIpPayloadSlice<'static> as Clone>⟧.is_infallible ⟦<LaxIpPayloadSlice<'static> as Clone>⟧.is_clone }
    ensures ipv4 { ClonesExactly
        ⟦<LaxIpv4Slice<'static> as Clone>⟧.is_infallible ⟦<LaxIpv4Slice<'static> as Clone>⟧.is_clone }
    ensures ipv6 { ClonesExactly
        ⟦<LaxIpv6Slice<'static> as Clone>⟧.is_infallible ⟦<LaxIpv6Slice<'static> as Clone>⟧.is_clone }
    ensures macsec_payloads { ClonesExactly
        ⟦<LaxMacsecPayloadSlice<'static> as Clone>⟧.is_infallible ⟦<LaxMacsecPayloadSlice<'static> as Clone>⟧.is_clone }
    ensures macsec { ClonesExactly
        ⟦<LaxMacsecSlice<'static> as Clone>⟧.is_infallible ⟦<LaxMacsecSlice<'static> as Clone>⟧.is_clone }
    ensures link_exts { ClonesExactly
        ⟦<LaxLinkExtSlice<'static> as Clone>⟧.is_infallible ⟦<LaxLinkExtSlice<'static> as Clone>⟧.is_clone }
    ensures net { ClonesExactly
        ⟦<LaxNetSlice<'static> as Clone>⟧.is_infallible ⟦<LaxNetSlice<'static> as Clone>⟧.is_clone }
    ensures packets { (a b : LaxSlicedPacket) → ⟦<LaxSlicedPacket<'static> as Clone>⟧.is_clone a b → b ≡ a }
    ensures packets_succeed { (a : LaxSlicedPacket) → ⟦<LaxSlicedPacket<'static> as Clone>⟧.is_infallible a }
{
    ep_packet::laws::clones();
}
