//! Laws of building frames, and of comparing and cloning the errors. Each law is the contract of a function without
//! effect.

ghost use Rattle.std.specs.Prelude.{◌≡◌, ◌↔◌, ℕ, ◌<◌, ◌^◌, ◌++◌, true, false, List, [], IsTrue, length};
ghost use Rattle.ep_base.specs.Bytes.{AreBytes};
ghost use Rattle.ep_base.specs.Readings.{Reading};
ghost use Rattle.ep_base.specs.declared.ip_number.IpNumber.{IpNumber};
ghost use Rattle.ep_ip.specs.declared.ipv4_header.Ipv4Header.{Ipv4Header};
ghost use Rattle.ep_ip.specs.Ipv4.{ipv4_bytes, ipv4_checksum};
ghost use Rattle.ep_link.specs.Arp.{Arp, FitsArp};
ghost use Rattle.ep_packet.specs.IpHeaders.{EndsExtensions, FitIpHeaders, headers_fragment};
ghost use Rattle.ep_packet.specs.Frame.{IsFrame};
ghost use Rattle.ep_packet.specs.Layers.{layers_of};
ghost use Rattle.ep_packet.specs.ShownBytes.{ShowsBytes};
ghost use Rattle.ep_packet.specs.Verdicts.{checksums_of, sum_verdict};
ghost use Rattle.ep_packet.specs.declared.ip_headers.IpHeaders.{IpHeaders};
ghost use Rattle.ep_build.specs.BuildErrors.{IsBuildable};
ghost use Rattle.ep_build.specs.BuiltFragments.{IsFragmentReadBack};
ghost use Rattle.ep_build.specs.BuiltFrames.{built_frame, ip_frame_headers, transport_between, transport_frame_headers};
ghost use Rattle.ep_build.specs.BuiltFrames.{arp_frame_headers, arp_packet, ip_packet, transport_packet};
ghost use Rattle.ep_build.specs.BuiltVerdicts.{built_header_verdict, built_verdicts, written_verdict};
ghost use Rattle.ep_build.specs.KeptFields.{GivesIpv4, GivesIpv6, GivesTag, ReadsAll};
ghost use Rattle.ep_build.specs.ReadBack.{HasItsLength, IsEntryOf, message_of};
ghost use Rattle.ep_build.specs.Fits.{FitsLink, FitsTransport};
ghost use Rattle.ep_build.specs.Steps.{ipv4_headers_between, ipv6_headers_between, tag_of};
ghost use Rattle.ep_build.specs.declared.link_part.LinkPart.{LinkPart};
ghost use Rattle.ep_transport.specs.TransportHeaders.{transport_bytes};
ghost use Rattle.ep_transport.specs.declared.transport_header.TransportHeader.{TransportHeader};

use crate::err::{BuildSliceWriteError, BuildWriteError};
use ep_packet::{ChecksumVerdict, Entry, SlicedPacket};

/// States that `SlicedPacket` and `PacketHeaders` read a fragment back from the frame built from its IP headers and its
/// payload. This requires that the header fields fit their widths, that the payload is not too long, that its protocol
/// number is not that of an extension header, and that a Linux cooked capture header has a known packet type. If each
/// element of the payload is a byte (below 256), so is each element of the frame.
pub fn built_fragments()
    ensures read_back { (part : LinkPart) (headers : IpHeaders) (last : IpNumber) (payload : List ℕ) → FitsLink part
        → FitIpHeaders headers → last.0 < 2 ^ 8 → IsBuildable (ip_frame_headers part headers last) (length payload)
        → IsFragmentReadBack part headers last payload }
    ensures bytes { (part : LinkPart) (headers : IpHeaders) (last : IpNumber) (payload : List ℕ) → FitsLink part
        → FitIpHeaders headers → last.0 < 2 ^ 8 → IsBuildable (ip_frame_headers part headers last) (length payload)
        → AreBytes payload → AreBytes (built_frame (ip_frame_headers part headers last) payload) }
{}

/// States that what `SlicedPacket` and `PacketHeaders` read from a built frame is what was given: each field of each
/// header, options, extension headers in the order of RFC 8200 (4.1), and the payload. Only the fields that are filled
/// in differ, and have their defined values: ether types, hardware type and protocol of a Linux cooked capture header,
/// next header values, lengths and checksums. Reserved bits are 0, and the frame has no bytes after the payload. This
/// requires that the header fields fit their widths, that the frame is not rejected, and that a Linux cooked capture
/// header has a known packet type. With a transport header (`transport`), each element of the payload must be a byte
/// (below 256), the headers must not state a fragment, and an ICMPv4 message must have the length of its type; an ICMP
/// header that reading cannot return is read back as its bytes. Without one (`fragment`), they must state a fragment,
/// and the protocol number must not be that of an extension header.
pub fn built_fields()
    ensures transport { (part : LinkPart) (headers : IpHeaders) (upper : TransportHeader) (payload : List ℕ)
        → FitsLink part → FitIpHeaders headers → FitsTransport upper → AreBytes (transport_bytes upper ++ payload)
        → IsBuildable (transport_frame_headers part headers upper) (length payload)
        → headers_fragment headers ≡ false → HasItsLength upper (transport_bytes upper ++ payload)
        → (reading : Reading) (entry : Entry) → IsEntryOf part (transport_packet headers upper) entry
        → ReadsAll reading entry (transport_frame_headers part headers upper) payload }
    ensures fragment { (part : LinkPart) (headers : IpHeaders) (last : IpNumber) (payload : List ℕ)
        → FitsLink part → FitIpHeaders headers → last.0 < 2 ^ 8
        → IsBuildable (ip_frame_headers part headers last) (length payload)
        → headers_fragment headers ≡ true → EndsExtensions headers last.0
        → (reading : Reading) (entry : Entry) → IsEntryOf part (ip_packet headers last) entry
        → ReadsAll reading entry (ip_frame_headers part headers last) payload }
    ensures arp { (part : LinkPart) (packet : Arp) → FitsLink part → FitsArp packet
        → (reading : Reading) (entry : Entry) → IsEntryOf part (arp_packet packet) entry
        → ReadsAll reading entry (arp_frame_headers part packet) [] }
{}

/// States that the headers that `ipv4`, `ipv6`, `single_vlan` and `double_vlan` add have the given addresses, time to
/// live or hop limit, and identifiers. An IPv4 header has "don't fragment" set. All other fields that are not filled in
/// are 0 or empty.
pub fn given_headers()
    ensures ipv4 { (source destination : List ℕ) (time_to_live : ℕ)
        → GivesIpv4 source destination time_to_live (ipv4_headers_between source destination time_to_live) }
    ensures ipv6 { (source destination : List ℕ) (hop_limit : ℕ)
        → GivesIpv6 source destination hop_limit (ipv6_headers_between source destination hop_limit) }
    ensures tags { (identifier : ℕ) → GivesTag identifier (tag_of identifier) }
{}

/// States that the checksums that the builder writes are valid: that of an IPv4 header (`header`), and that of a
/// transport header and its payload between the addresses of the IP headers (`message`). This requires that the header
/// fields fit their widths, and that the frame is not rejected. Slicing the frame finds these verdicts, but `Unknown`
/// for the transport header if the headers that were given state a fragment, or have a source route or a routing header
/// (`frames`). Slicing a frame of IP headers and a payload finds that the IPv4 header checksum is valid, whatever the
/// payload and its protocol number are (`ip_frames`).
pub fn built_checksums()
    ensures header { (header : Ipv4Header)
        → sum_verdict (ipv4_bytes (record header { header_checksum = ipv4_checksum header })) ≡ ChecksumVerdict.Valid }
    ensures message { (part : LinkPart) (headers : IpHeaders) (upper : TransportHeader) (payload : List ℕ)
        → FitIpHeaders headers → FitsTransport (transport_between headers payload upper)
        → IsBuildable (transport_frame_headers part headers upper) (length payload)
        → written_verdict headers upper payload ≡ ChecksumVerdict.Valid }
    ensures frames { (part : LinkPart) (headers : IpHeaders) (upper : TransportHeader) (payload : List ℕ)
        → FitsLink part → FitIpHeaders headers → FitsTransport (transport_between headers payload upper)
        → AreBytes (message_of headers upper payload)
        → IsBuildable (transport_frame_headers part headers upper) (length payload) → (entry : Entry)
        → IsEntryOf part (transport_packet headers upper) entry → (packet : SlicedPacket)
        → let bytes = built_frame (transport_frame_headers part headers upper) payload in
        IsFrame entry bytes (layers_of packet) → ShowsBytes bytes packet
        → checksums_of packet ≡ built_verdicts headers }
    ensures ip_frames { (part : LinkPart) (headers : IpHeaders) (last : IpNumber) (payload : List ℕ) → FitsLink part
        → FitIpHeaders headers → (entry : Entry) → IsEntryOf part (ip_packet headers last) entry
        → (packet : SlicedPacket) → let bytes = built_frame (ip_frame_headers part headers last) payload in
        IsFrame entry bytes (layers_of packet) → ShowsBytes bytes packet
        → (checksums_of packet).ipv4_header ≡ built_header_verdict headers }
{}

/// States that two errors of building a frame are equal (`==`) if and only if they are identical.
pub fn comparisons()
    ensures write_errors { (a b : BuildWriteError) → IsTrue (⟦<BuildWriteError as PartialEq>⟧.eq a b) ↔ (a ≡ b) }
    ensures slice_write_errors { (a b : BuildSliceWriteError)
        → IsTrue (⟦<BuildSliceWriteError as PartialEq>⟧.eq a b) ↔ (a ≡ b) }
{}

/// States that a clone of an error of building a frame equals its source.
pub fn clones()
    ensures write_errors { (a b : BuildWriteError) → ⟦<BuildWriteError as Clone>⟧.is_clone a b → b ≡ a }
    ensures slice_write_errors { (a b : BuildSliceWriteError)
        → ⟦<BuildSliceWriteError as Clone>⟧.is_clone a b → b ≡ a }
{}

/// States that cloning an error of building a frame doesn't allocate, and so always succeeds.
pub fn clones_succeed()
    ensures write_errors { (a : BuildWriteError) → ⟦<BuildWriteError as Clone>⟧.is_infallible a }
    ensures slice_write_errors { (a : BuildSliceWriteError) → ⟦<BuildSliceWriteError as Clone>⟧.is_infallible a }
{}
