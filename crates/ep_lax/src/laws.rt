//! Laws of lax slicing, which reads truncated packets: each is the contract of a function that does nothing, and holds
//! for all bytes.

ghost use Rattle.std.specs.Prelude.{◌≡◌, ◌⊎◌, ◌++◌, ℕ, List, [], length, Some, None, false};
ghost use Rattle.ep_base.specs.Bytes.{AreBytes};
ghost use Rattle.ep_base.specs.Tables.{IsDecided};
ghost use Rattle.ep_base.specs.declared.err.layer.Layer.{Layer};
ghost use Rattle.ep_base.specs.declared.err.len_error.LenError.{LenError};
ghost use Rattle.ep_link.specs.LinkExtensions.{vlan};
ghost use Rattle.ep_packet.specs.Frame.{IsFrame, most_link_exts};
ghost use Rattle.ep_packet.specs.FrameBytes.{AreInOrder, last_payload};
ghost use Rattle.ep_packet.specs.FrameRefusals.{RefusesFrame};
ghost use Rattle.ep_packet.specs.FrameVerdicts.{frame_checksums};
ghost use Rattle.ep_packet.specs.Layers.{Layers, layers_of};
ghost use Rattle.ep_packet.specs.Offsets.{payload_offset};
ghost use Rattle.ep_packet.specs.ShownBytes.{ShowsBytes};
ghost use Rattle.ep_packet.specs.Verdicts.{checksums_of};
ghost use Rattle.ep_packet.specs.declared.err.slice_error.SliceError.TheVariants.{Len};
ghost use Rattle.ep_lax.specs.Lax.{IsLax};
ghost use Rattle.ep_lax.specs.LaxHeaders.{AreFirst, BeginWith, ShowsPrefix, headers_within, shown_headers, frame_headers};
ghost use Rattle.ep_lax.specs.LaxLayers.{LaxLayers};
ghost use Rattle.ep_lax.specs.LaxRefusals.{RefusesLax};
ghost use Rattle.ep_lax.specs.LaxStops.{IsStrictStop, RefusesNextLayer, StopsFor, is_by_length};
ghost use Rattle.ep_lax.specs.LaxPackets.{ShowsLax, lax_layers_of};
ghost use Rattle.ep_lax.specs.LaxVerdicts.{lax_checksums_of};
ghost use Rattle.ep_lax.specs.LaxViews.{lax_extension_of};
ghost use Rattle.ep_lax.specs.LengthFields.{ArePayloads, IncludeHeaders};
ghost use Rattle.ep_lax.specs.StrictFrames.{IsWhole, layers_in};
ghost use Rattle.ep_lax.specs.Truncation.{ReportsTruncatedPayloads};

pub mod comparisons;
pub mod headers;

use crate::{LaxLinkExtSlice, LaxSlicedPacket};
use ep_packet::err::SliceError;
use ep_packet::{Entry, SlicedPacket};

/// States that lax slicing of any bytes either gives exactly one list of layers, or rejects them with exactly one
/// error. It rejects them only if their first header is invalid or truncated.
pub fn lax()
    ensures { (entry : Entry) (bytes : List ℕ) → AreBytes bytes
        → IsDecided (IsLax entry bytes) (RefusesLax entry bytes) }
{}

/// States that bytes that lax slicing accepts are the headers of the layers, from the outside in, then the payload of
/// the last layer, then the trailing bytes that length fields exclude.
pub fn lax_bytes()
    ensures { (entry : Entry) (bytes : List ℕ) (read : LaxLayers) → IsLax entry bytes read
        → AreInOrder bytes (layers_in read) }
{}

/// States that lax slicing of a packet that strict slicing accepts finds the same layers and payload. It reports no
/// payload as incomplete, and does not stop at an error.
pub fn strict_frames()
    ensures { (entry : Entry) (bytes : List ℕ) (layers : Layers) → IsFrame entry bytes layers
        → (read : LaxLayers) × IsLax entry bytes read × (layers_in read ≡ layers) × IsWhole read }
{}

/// States when strict slicing accepts a packet, with the layers that lax slicing finds: if lax slicing reports no
/// payload as incomplete and does not stop at an error, and each length field includes the header that it is in. Fields
/// of 0 that state no length (the short length of MACsec, the payload length of IPv6, the length of UDP) are excepted.
/// Strict slicing accepts no other packets, by the laws `strict_frames` and `length_fields`.
pub fn whole_is_frame()
    ensures { (entry : Entry) (bytes : List ℕ) (read : LaxLayers) → IsLax entry bytes read → IsWhole read
        → IncludeHeaders (shown_headers read) → IsFrame entry bytes (layers_in read) }
{}

/// States that if lax slicing accepts a truncated packet, it accepts the full packet, whose headers begin with those of
/// the truncated one. Unless slicing of the truncated packet stopped at an error, the full packet has no further
/// headers. One exception: an ICMPv4 timestamp message must have 20 bytes; if it is truncated to 20 but longer in the
/// full packet, slicing of the full packet stops there.
pub fn more_bytes()
    ensures { (entry : Entry) (prefix rest : List ℕ) (read : LaxLayers) → AreBytes (prefix ++ rest)
        → IsLax entry prefix read
        → (longer : LaxLayers) × IsLax entry (prefix ++ rest) longer
        × ShowsPrefix (shown_headers read) read.net.inside.stop (shown_headers longer) longer.net.inside.stop }
{}

/// States that lax slicing of a truncated packet finds the first headers of the full packet, if strict slicing accepts
/// the full packet and lax slicing accepts the truncated one. It finds all headers of the full packet unless it stops
/// at an error.
pub fn prefix_shows_headers()
    ensures { (entry : Entry) (prefix rest : List ℕ) (layers : Layers) (read : LaxLayers) → AreBytes (prefix ++ rest)
        → IsFrame entry (prefix ++ rest) layers → IsLax entry prefix read
        → AreFirst (shown_headers read) read.net.inside.stop (frame_headers layers) }
{}

/// States which headers lax slicing of a truncated packet finds, if strict slicing accepts the full packet and lax
/// slicing accepts the truncated one: all headers of the full packet that are complete in the truncated one, in order.
pub fn prefix_shows_complete_headers()
    ensures { (entry : Entry) (prefix rest : List ℕ) (layers : Layers) (read : LaxLayers) → AreBytes (prefix ++ rest)
        → IsFrame entry (prefix ++ rest) layers → IsLax entry prefix read
        → shown_headers read ≡ headers_within (length prefix) (frame_headers layers) }
{}

/// States that each length field of a packet that strict slicing accepts includes the header that it is in. Fields of 0
/// that state no length (the short length of MACsec, the payload length of IPv6, the length of UDP) are excepted. Lax
/// slicing accepts packets for which this is false.
pub fn length_fields()
    ensures { (entry : Entry) (bytes : List ℕ) (layers : Layers) → IsFrame entry bytes layers
        → IncludeHeaders (frame_headers layers) }
{}

/// States which bytes each payload has that lax slicing finds, for any bytes: from the end of the layer's headers to
/// the end of the layer. MACsec, IPv4, IPv6 and UDP end where their length field states, if the field includes its
/// header and this end is within the payload of the layer around it. Any other layer, also one whose length field is 0,
/// ends with the payload of the layer around it; the outermost layer ends with the packet. The payload of an ARP packet
/// is empty.
pub fn payload_bytes()
    ensures { (entry : Entry) (bytes : List ℕ) (read : LaxLayers) → IsLax entry bytes read
        → ArePayloads bytes (layers_in read) }
{}

/// States which payloads of a truncated packet lax slicing reports as incomplete, if strict slicing accepts the full
/// packet. The payload of MACsec, IPv4, IPv6 and UDP is incomplete exactly if the truncated packet ends before the end
/// that its length field states. Any other payload, also one whose length field is 0, is incomplete exactly if the
/// payload of the layer around it is. An ARP packet has no payload, and truncated trailing bytes make nothing
/// incomplete.
pub fn truncated_payloads()
    ensures { (entry : Entry) (prefix rest : List ℕ) (layers : Layers) (read : LaxLayers) → AreBytes (prefix ++ rest)
        → IsFrame entry (prefix ++ rest) layers → IsLax entry prefix read
        → ReportsTruncatedPayloads (length prefix) read }
{}

/// States that the headers that lax slicing finds are the first bytes of the packet, one after another, in their wire
/// formats and with their reserved bits. The length of a header depends only on its own bytes. So a header that is
/// found in a truncated packet has the same bytes in the full packet.
pub fn header_bytes()
    ensures { (entry : Entry) (bytes : List ℕ) (read : LaxLayers) → IsLax entry bytes read
        → BeginWith (shown_headers read) bytes }
{}

/// States how the errors of strict and lax slicing correspond. If strict slicing fails for another reason than a length
/// field, lax slicing has the same error, as its result or as the error at which it stops. Lax slicing has no errors of
/// length fields. Bytes that lax slicing rejects are rejected by strict slicing with the same error. If lax slicing
/// stops at an error, strict slicing rejects the bytes with this error or with an earlier error of a length field.
///
/// Lax slicing stops if and only if the next layer, in the payload of the last layer that it found, is truncated or
/// invalid. It stops at the first error that the checks of strict slicing find in this layer.
pub fn stops()
    ensures strict { (entry : Entry) (bytes : List ℕ) → AreBytes bytes → (error : SliceError)
        → RefusesFrame entry bytes error → is_by_length error ≡ false
        → RefusesLax entry bytes error ⊎ StopsFor entry bytes error }
    ensures first { (entry : Entry) (bytes : List ℕ) (error : SliceError) → RefusesLax entry bytes error
        → RefusesFrame entry bytes error × (is_by_length error ≡ false) }
    ensures stop { (entry : Entry) (bytes : List ℕ) → AreBytes bytes → (read : LaxLayers) → IsLax entry bytes read
        → (stop : SliceError × Layer) → read.net.inside.stop ≡ Some stop → IsStrictStop entry bytes stop }
    ensures next { (entry : Entry) (bytes : List ℕ) (read : LaxLayers) → IsLax entry bytes read
        → (stop : SliceError × Layer) → read.net.inside.stop ≡ Some stop → RefusesNextLayer (layers_in read) stop.0 }
    ensures none { (entry : Entry) (bytes : List ℕ) (read : LaxLayers) → IsLax entry bytes read
        → read.net.inside.stop ≡ None → (error : SliceError) → RefusesNextLayer (layers_in read) error → ⊥ }
{}

/// States where lax slicing stops. If it stops at a length error (missing bytes, or an ICMPv4 timestamp message of more
/// than 20 bytes), the layer of the error starts at the offset of the payload of the last layer that was found, and the
/// error counts the bytes of this payload.
pub fn stop_position()
    ensures { (entry : Entry) (bytes : List ℕ) (read : LaxLayers) → IsLax entry bytes read → (error : LenError)
        (layer : Layer) → read.net.inside.stop ≡ Some (Len error, layer)
        → (error.layer_start_offset ≡ payload_offset (layers_in read))
        × (error.len ≡ length (last_payload (layers_in read))) }
{}

/// States that the verdicts about the checksums of a packet follow from its layers and the bytes that it was sliced
/// from (`shown`), and that they are those of strict slicing, if strict slicing accepts the bytes (`strict`).
pub fn checksums()
    ensures shown { (bytes : List ℕ) (packet : LaxSlicedPacket) → ShowsLax bytes packet
        → let read = lax_layers_of packet in
        lax_checksums_of packet ≡ frame_checksums bytes (layers_in read) read.net.inside.incomplete }
    ensures strict { (entry : Entry) (bytes : List ℕ) (strict : SlicedPacket) (lax : LaxSlicedPacket) → AreBytes bytes
        → IsFrame entry bytes (layers_of strict) → ShowsBytes bytes strict → IsLax entry bytes (lax_layers_of lax)
        → ShowsLax bytes lax → lax_checksums_of lax ≡ checksums_of strict }
{}

/// States that `LINK_EXTS_CAP` is 3: lax slicing reads at most three link extensions (VLAN and MACsec tags) of a
/// packet.
pub fn constants()
    ensures value { LaxSlicedPacket.LINK_EXTS_CAP ≡ 3 }
    ensures cap { LaxSlicedPacket.LINK_EXTS_CAP ≡ most_link_exts }
{}

/// Returns the default link extension (tag between link header and network layer): a VLAN tag of four zero bytes, with
/// an empty payload.
pub fn default_link_ext() -> LaxLinkExtSlice<'static>
    ensures { lax_extension_of result ≡ vlan
        (record { pcp = 0; drop_eligible_indicator = false; vlan_id = 0; ether_type = record { 0 = 0 } }) [] }
{
    LaxLinkExtSlice::default()
}
