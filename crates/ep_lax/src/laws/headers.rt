//! Laws of lax parsing into owned headers, which reads truncated packets, about its constants, and about comparing and
//! cloning its values: each is the contract of a function that does nothing or only calls other laws.
//!
//! Lax parsing into owned headers finds the layers that lax slicing finds, with one exception: it leaves a second IPv6
//! extension header of a kind, and all layers after it, in the payload of the IP packet.

ghost use Rattle.std.specs.Prelude.{◌≡◌, ◌↔◌, ℕ, List, length, IsTrue, Some, None};
ghost use Rattle.ep_base.specs.Bytes.{AreBytes};
ghost use Rattle.ep_base.specs.NumberComparisons.{ClonesExactly};
ghost use Rattle.ep_base.specs.Readings.{headers};
ghost use Rattle.ep_base.specs.Tables.{IsDecided};
ghost use Rattle.ep_base.specs.declared.err.len_error.LenError.{LenError};
ghost use Rattle.ep_packet.specs.Frame.{most_link_exts};
ghost use Rattle.ep_packet.specs.FrameBytes.{AreInOrder, last_payload};
ghost use Rattle.ep_packet.specs.Offsets.{payload_offset};
ghost use Rattle.ep_packet.specs.declared.err.slice_error.SliceError.TheVariants.{Len};
ghost use Rattle.ep_lax.specs.declared.lax_packet_headers.LaxPacketHeaders.{LaxPacketHeaders};
ghost use Rattle.ep_lax.specs.declared.lax_payload_slice.LaxPayloadSlice.{LaxPayloadSlice};
ghost use Rattle.ep_lax.specs.Lax.{IsLaxIn};
ghost use Rattle.ep_lax.specs.LaxHeaderComparisons.{same_lax_headers};
ghost use Rattle.ep_lax.specs.LaxLayers.{LaxLayers};
ghost use Rattle.ep_lax.specs.LaxPayloadParts.{lax_payload_part_of};
ghost use Rattle.ep_lax.specs.LaxRefusals.{RefusesLax};
ghost use Rattle.ep_lax.specs.LaxStops.{RefusesNextLayerIn};
ghost use Rattle.ep_lax.specs.LengthFields.{ArePayloads};
ghost use Rattle.ep_lax.specs.StrictFrames.{layers_in};

use crate::{LaxPacketHeaders, LaxPayloadSlice};
use ep_base::err::Layer;
use ep_link::{LinkExtHeader, LinkHeader};
use ep_packet::err::SliceError;
use ep_packet::{Entry, NetHeaders};
use ep_transport::TransportHeader;

/// States that lax parsing of any bytes into owned headers either gives exactly one list of layers, or rejects them
/// with exactly one error. It rejects them only if their first header is invalid or truncated, with the error of lax
/// slicing.
pub fn lax()
    ensures { (entry : Entry) (bytes : List ℕ) → AreBytes bytes
        → IsDecided (IsLaxIn headers entry bytes) (RefusesLax entry bytes) }
{}

/// States that bytes that lax parsing into owned headers accepts are the headers of the layers, from the outside in,
/// then the payload of the last layer, then the trailing bytes that length fields exclude.
pub fn lax_bytes()
    ensures { (entry : Entry) (bytes : List ℕ) (read : LaxLayers) → IsLaxIn headers entry bytes read
        → AreInOrder bytes (layers_in read) }
{}

/// States which bytes each payload has that lax parsing into owned headers finds, for any bytes: from the end of the
/// layer's headers to the end of the layer. MACsec, IPv4, IPv6 and UDP end where their length field states, if the
/// field includes its header and this end is within the payload of the layer around it. Any other layer, also one whose
/// length field is 0, ends with the payload of the layer around it; the outermost layer ends with the packet. The
/// payload of an ARP packet is empty. A second IPv6 extension header of a kind is in the payload of the IP packet.
pub fn payload_bytes()
    ensures { (entry : Entry) (bytes : List ℕ) (read : LaxLayers) → IsLaxIn headers entry bytes read
        → ArePayloads bytes (layers_in read) }
{}

/// States when lax parsing into owned headers stops: if and only if the next layer, in the payload of the last layer
/// that it found, is truncated or invalid. It stops at the first error that the checks of strict slicing find in this
/// layer. A second IPv6 extension header of a kind is not such a layer: parsing ends before it without an error, unless
/// it is Hop-by-Hop options, which are valid only as the first extension header.
pub fn stops()
    ensures next { (entry : Entry) (bytes : List ℕ) (read : LaxLayers) → IsLaxIn headers entry bytes read
        → (stop : SliceError × Layer) → read.net.inside.stop ≡ Some stop
        → RefusesNextLayerIn headers (layers_in read) stop.0 }
    ensures none { (entry : Entry) (bytes : List ℕ) (read : LaxLayers) → IsLaxIn headers entry bytes read
        → read.net.inside.stop ≡ None → (error : SliceError) → RefusesNextLayerIn headers (layers_in read) error → ⊥ }
{}

/// States where lax parsing into owned headers stops. If it stops at a length error (missing bytes, or an ICMPv4
/// timestamp message of more than 20 bytes), the layer of the error starts at the offset of the payload of the last
/// layer that was found, and the error counts the bytes of this payload.
pub fn stop_position()
    ensures { (entry : Entry) (bytes : List ℕ) (read : LaxLayers) → IsLaxIn headers entry bytes read
        → (error : LenError) (layer : Layer) → read.net.inside.stop ≡ Some (Len error, layer)
        → (error.layer_start_offset ≡ payload_offset (layers_in read))
        × (error.len ≡ length (last_payload (layers_in read))) }
{}

/// States that `LaxPacketHeaders::LINK_EXTS_CAP` is 3: at most three link extensions (VLAN and MACsec tags) of a packet
/// are parsed.
pub fn constants()
    ensures value { LaxPacketHeaders.LINK_EXTS_CAP ≡ 3 }
    ensures cap { LaxPacketHeaders.LINK_EXTS_CAP ≡ most_link_exts }
{}

/// States when `==` is true: two payloads are equal if their kind (`Udp`, `Ip` ..), their content, and whether bytes
/// are missing are equal. Two packets are equal if all their headers, their payloads, and the errors at which parsing
/// stopped are equal.
pub fn equalities()
    ensures payloads { (a b : LaxPayloadSlice) →
        IsTrue (⟦<LaxPayloadSlice<'static> as PartialEq>⟧.eq a b) ↔ (lax_payload_part_of a ≡ lax_payload_part_of b) }
    ensures packets { (a b : LaxPacketHeaders) →
        ⟦<LaxPacketHeaders<'static> as PartialEq>⟧.eq a b ≡ same_lax_headers
        ⟦<LinkHeader as PartialEq>⟧.eq ⟦<LinkExtHeader as PartialEq>⟧.eq ⟦<NetHeaders as PartialEq>⟧.eq
        ⟦<TransportHeader as PartialEq>⟧.eq ⟦<LaxPayloadSlice<'static> as PartialEq>⟧.eq
        ⟦<(SliceError, Layer) as PartialEq>⟧.eq a b }
{
    crate::laws::comparisons::equalities();
    ep_link::laws::equalities();
}

/// States that cloning a payload or a packet never fails, and the clone is equal to its source.
pub fn clones()
    ensures payloads { ClonesExactly
        ⟦<LaxPayloadSlice<'static> as Clone>⟧.is_infallible ⟦<LaxPayloadSlice<'static> as Clone>⟧.is_clone }
    ensures packets { (a b : LaxPacketHeaders) → ⟦<LaxPacketHeaders<'static> as Clone>⟧.is_clone a b → b ≡ a }
    ensures packets_succeed { (a : LaxPacketHeaders) → ⟦<LaxPacketHeaders<'static> as Clone>⟧.is_infallible a }
{
    ep_packet::laws::clones();
}
