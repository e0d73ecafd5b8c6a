//! Laws of whole packets, for every list of bytes, and of comparisons and clones. Each law is the contract of a
//! function without effect.

ghost use Rattle.std.specs.Prelude.{◌≡◌, ◌↔◌, ◌+◌, ◌≤◌, ◌++◌, ℕ, List, Option, IsTrue, false, length};
ghost use Rattle.ep_base.specs.Bytes.{AreBytes};
ghost use Rattle.ep_base.specs.Readings.{Reading};
ghost use Rattle.ep_base.specs.Missing.{CountsMissing, HasExactLength, IsOfAvailableBytes, ReportsTruncation, that_row};
ghost use Rattle.ep_base.specs.Tables.{IsDecided};
ghost use Rattle.ep_base.specs.declared.err.len_error.LenError.{LenError};
ghost use Rattle.ep_link.specs.LinkExtensions.{EncodesTag, LinkExtension};
ghost use Rattle.ep_link.specs.LinkSlices.{LinkLayer};
ghost use Rattle.ep_packet.specs.FrameCuts.{frame_truncation_limit};
ghost use Rattle.ep_packet.specs.FrameVerdicts.{frame_checksums};
ghost use Rattle.ep_packet.specs.Layers.{Layers, NetLayer, layers_of};
ghost use Rattle.ep_packet.specs.ShownBytes.{ShowsBytes};
ghost use Rattle.ep_packet.specs.Verdicts.{checksums_of};
ghost use Rattle.ep_packet.specs.Offsets.{link_len, net_len, tag_len, tags_len, transport_len};
ghost use Rattle.ep_transport.specs.TransportParts.{EncodesTransport, TransportLayer};
ghost use Rattle.ep_packet.specs.Frame.{IsFrame, IsFrameIn, most_link_exts};
ghost use Rattle.ep_packet.specs.FrameBytes.{AreInOrder, EncodesLink, EncodesNet, EncodesTags};
ghost use Rattle.ep_packet.specs.FrameRefusals.{RefusesFrame, RefusesFrameIn};
ghost use Rattle.ep_packet.specs.UncutTags.{HasNoShortLength};
ghost use Rattle.ep_packet.specs.declared.err.slice_error.SliceError.TheVariants as slice_error;
ghost use Rattle.ep_packet.specs.PayloadParts.{payload_part_of};
ghost use Rattle.ep_packet.specs.PacketComparisons.{payload_cmp, same_ip_headers, same_net_headers, same_net_slices};
ghost use Rattle.ep_packet.specs.PacketComparisons.{same_packet_headers, same_sliced_packets};

pub mod ip_headers;
pub mod parsers;

use crate::err::{HeadersWriteError, NetSetNextHeaderError, SliceError};
use crate::{
    ArpPacket, ArpPacketSlice, ChecksumVerdict, ChecksumVerdicts, Entry, IpHeaders, Ipv4Extensions,
    Ipv4Header, Ipv4Slice, Ipv6Extensions, Ipv6Header, Ipv6Slice, LinkExtHeader, LinkExtSlice,
    LinkHeader, LinkSlice, NetHeaders, NetSlice, PacketHeaders, PayloadSlice, SlicedPacket,
    TransportHeader, TransportSlice,
};

/// States, for both parsers (slicing and decoding into owned headers), that bytes either are a frame with exactly one
/// list of layers, or are rejected with exactly one error.
pub fn frames()
    ensures slices { (entry : Entry) (bytes : List ℕ) → AreBytes bytes
        → IsDecided (IsFrame entry bytes) (RefusesFrame entry bytes) }
    ensures readings { (reading : Reading) (entry : Entry) (bytes : List ℕ) → AreBytes bytes
        → IsDecided (IsFrameIn reading entry bytes) (RefusesFrameIn reading entry bytes) }
{}

/// States that the bytes of a frame are its headers from the outside in, the payload of its last layer, and the
/// trailing bytes that length fields exclude.
pub fn frame_bytes()
    ensures { (reading : Reading) (entry : Entry) (bytes : List ℕ) (layers : Layers)
        → IsFrameIn reading entry bytes layers → AreInOrder bytes layers }
{}

/// States that a header is encoded in as many bytes as its length function returns: link header, link extensions,
/// network layer headers and transport header. So each layer of a frame starts at the sum of the lengths before it.
pub fn header_lens()
    ensures link { (link : Option LinkLayer) (bytes : List ℕ) → EncodesLink link bytes
        → length bytes ≡ link_len link }
    ensures tag { (extension : LinkExtension) (bytes : List ℕ) → EncodesTag extension bytes
        → length bytes ≡ tag_len extension }
    ensures tags { (extensions : List LinkExtension) (bytes : List ℕ) → EncodesTags extensions bytes
        → length bytes ≡ tags_len extensions }
    ensures net { (net : Option NetLayer) (bytes : List ℕ) → EncodesNet net bytes → length bytes ≡ net_len net }
    ensures transport { (transport : Option TransportLayer) (bytes : List ℕ) → EncodesTransport transport bytes
        → length bytes ≡ transport_len transport }
{}

/// States how many bytes a length error reports as missing. The offset of the layer plus `len` is the length of the
/// slice, and `required_len` is more than `len` (`counts`). If at least `required_len` minus `len` bytes are appended,
/// an error that differs at most in `len` does not occur (`not_again`). Both hold if the length source is `Slice` or
/// `ArpAddrLengths`, the layer is no ICMP timestamp message, and no MACsec tag has a short length above 0.
pub fn missing_bytes()
    ensures counts { (reading : Reading) (entry : Entry) (bytes : List ℕ) (error : LenError)
        → RefusesFrameIn reading entry bytes (slice_error.Len error) → HasNoShortLength entry bytes
        → CountsMissing (length bytes) error }
    ensures not_again { (reading : Reading) (entry : Entry) (bytes more : List ℕ) → AreBytes (bytes ++ more)
        → (error : LenError) (len : ℕ) → RefusesFrameIn reading entry bytes (slice_error.Len error)
        → HasNoShortLength entry bytes → IsOfAvailableBytes error.len_source → (¬ HasExactLength error.layer)
        → error.required_len ≤ error.len + length more
        → ¬ RefusesFrameIn reading entry (bytes ++ more) (slice_error.Len (that_row error len)) }
{}

/// States that a truncated frame, if it is rejected, is rejected for the missing bytes. The error is a length error,
/// the offset plus `len` is the number of bytes left, `required_len` is more than `len`, and the offset plus
/// `required_len` is at most the length of the full frame. The source of the limit is `Slice`, with two exceptions:
/// `ArpAddrLengths` for an ARP packet with at least 8 bytes left, and `Ipv6HeaderPayloadLen` for the layer after an
/// IPv6 header with a payload length of 0, if the bytes end with that header.
pub fn truncation()
    ensures { (reading : Reading) (entry : Entry)
        → ReportsTruncation (IsFrameIn reading entry) (RefusesFrameIn reading entry) slice_error.Len
        (frame_truncation_limit entry) }
{}

/// States that the verdicts about the checksums of a packet follow from its layers and the bytes that it was sliced
/// from. An IPv4 header is at the start of the payload of the layer around it, up to the length that it states, and
/// the transport layer is at the start of the IP payload.
pub fn checksums()
    ensures { (bytes : List ℕ) (packet : SlicedPacket) → ShowsBytes bytes packet
        → checksums_of packet ≡ frame_checksums bytes (layers_of packet) false }
{}

/// States that `SlicedPacket::LINK_EXTS_CAP` is 3, and equals the greatest number of link extensions in the
/// specification of frames.
pub fn constants()
    ensures value { SlicedPacket.LINK_EXTS_CAP ≡ 3 }
    ensures cap { SlicedPacket.LINK_EXTS_CAP ≡ most_link_exts }
{}

/// States what `==` compares: values of `Entry`, verdicts and errors are equal only if identical, payloads if their kind
/// (`Udp`, `Ip` ..) and content are equal, and headers, slices and packets if each of their parts is. Payloads are
/// ordered by kind, as `PayloadSlice` declares them, and those of one kind by content.
pub fn comparisons()
    ensures entries { (a b : Entry) → IsTrue (⟦<Entry as PartialEq>⟧.eq a b) ↔ (a ≡ b) }
    ensures slice_errors { (a b : SliceError) → IsTrue (⟦<SliceError as PartialEq>⟧.eq a b) ↔ (a ≡ b) }
    ensures write_errors { (a b : HeadersWriteError) →
        IsTrue (⟦<HeadersWriteError as PartialEq>⟧.eq a b) ↔ (a ≡ b) }
    ensures net_errors { (a b : NetSetNextHeaderError) →
        IsTrue (⟦<NetSetNextHeaderError as PartialEq>⟧.eq a b) ↔ (a ≡ b) }
    ensures verdicts { (a b : ChecksumVerdict) → IsTrue (⟦<ChecksumVerdict as PartialEq>⟧.eq a b) ↔ (a ≡ b) }
    ensures all_verdicts { (a b : ChecksumVerdicts) → IsTrue (⟦<ChecksumVerdicts as PartialEq>⟧.eq a b) ↔ (a ≡ b) }
    ensures payloads { (a b : PayloadSlice) →
        IsTrue (⟦<PayloadSlice<'static> as PartialEq>⟧.eq a b) ↔ (payload_part_of a ≡ payload_part_of b) }
    ensures payload_order { (a b : PayloadSlice) → ⟦<PayloadSlice<'static> as Ord>⟧.cmp a b ≡ payload_cmp a b }
    ensures ip_headers { (a b : IpHeaders) → ⟦<IpHeaders as PartialEq>⟧.eq a b ≡ same_ip_headers
        ⟦<Ipv4Header as PartialEq>⟧.eq ⟦<Ipv4Extensions as PartialEq>⟧.eq
        ⟦<Ipv6Header as PartialEq>⟧.eq ⟦<Ipv6Extensions as PartialEq>⟧.eq a b }
    ensures net_headers { (a b : NetHeaders) → ⟦<NetHeaders as PartialEq>⟧.eq a b ≡ same_net_headers
        ⟦<IpHeaders as PartialEq>⟧.eq ⟦<ArpPacket as PartialEq>⟧.eq a b }
    ensures net_slices { (a b : NetSlice) → ⟦<NetSlice<'static> as PartialEq>⟧.eq a b ≡ same_net_slices
        ⟦<Ipv4Slice<'static> as PartialEq>⟧.eq ⟦<Ipv6Slice<'static> as PartialEq>⟧.eq
        ⟦<ArpPacketSlice<'static> as PartialEq>⟧.eq a b }
    ensures sliced_packets { (a b : SlicedPacket) →
        ⟦<SlicedPacket<'static> as PartialEq>⟧.eq a b ≡ same_sliced_packets
        ⟦<LinkSlice<'static> as PartialEq>⟧.eq ⟦<LinkExtSlice<'static> as PartialEq>⟧.eq
        ⟦<NetSlice<'static> as PartialEq>⟧.eq ⟦<TransportSlice<'static> as PartialEq>⟧.eq a b }
    ensures packet_headers { (a b : PacketHeaders) →
        ⟦<PacketHeaders<'static> as PartialEq>⟧.eq a b ≡ same_packet_headers
        ⟦<LinkHeader as PartialEq>⟧.eq ⟦<LinkExtHeader as PartialEq>⟧.eq ⟦<NetHeaders as PartialEq>⟧.eq
        ⟦<TransportHeader as PartialEq>⟧.eq ⟦<PayloadSlice<'static> as PartialEq>⟧.eq a b }
{
    ep_base::laws::equalities();
}

/// States that a clone of each type of this crate equals its source.
pub fn clones()
    ensures entries { (a b : Entry) → ⟦<Entry as Clone>⟧.is_clone a b → b ≡ a }
    ensures slice_errors { (a b : SliceError) → ⟦<SliceError as Clone>⟧.is_clone a b → b ≡ a }
    ensures write_errors { (a b : HeadersWriteError) → ⟦<HeadersWriteError as Clone>⟧.is_clone a b → b ≡ a }
    ensures net_errors { (a b : NetSetNextHeaderError) → ⟦<NetSetNextHeaderError as Clone>⟧.is_clone a b → b ≡ a }
    ensures verdicts { (a b : ChecksumVerdict) → ⟦<ChecksumVerdict as Clone>⟧.is_clone a b → b ≡ a }
    ensures all_verdicts { (a b : ChecksumVerdicts) → ⟦<ChecksumVerdicts as Clone>⟧.is_clone a b → b ≡ a }
    ensures payloads { (a b : PayloadSlice) → ⟦<PayloadSlice<'static> as Clone>⟧.is_clone a b → b ≡ a }
    ensures ip_headers { (a b : IpHeaders) → ⟦<IpHeaders as Clone>⟧.is_clone a b → b ≡ a }
    ensures net_headers { (a b : NetHeaders) → ⟦<NetHeaders as Clone>⟧.is_clone a b → b ≡ a }
    ensures net_slices { (a b : NetSlice) → ⟦<NetSlice<'static> as Clone>⟧.is_clone a b → b ≡ a }
    ensures sliced_packets { (a b : SlicedPacket) → ⟦<SlicedPacket<'static> as Clone>⟧.is_clone a b → b ≡ a }
    ensures packet_headers { (a b : PacketHeaders) → ⟦<PacketHeaders<'static> as Clone>⟧.is_clone a b → b ≡ a }
{}

/// States that cloning a value of this crate doesn't allocate, and so always succeeds.
pub fn clones_succeed()
    ensures entries { (a : Entry) → ⟦<Entry as Clone>⟧.is_infallible a }
    ensures slice_errors { (a : SliceError) → ⟦<SliceError as Clone>⟧.is_infallible a }
    ensures write_errors { (a : HeadersWriteError) → ⟦<HeadersWriteError as Clone>⟧.is_infallible a }
    ensures net_errors { (a : NetSetNextHeaderError) → ⟦<NetSetNextHeaderError as Clone>⟧.is_infallible a }
    ensures verdicts { (a : ChecksumVerdict) → ⟦<ChecksumVerdict as Clone>⟧.is_infallible a }
    ensures all_verdicts { (a : ChecksumVerdicts) → ⟦<ChecksumVerdicts as Clone>⟧.is_infallible a }
    ensures payloads { (a : PayloadSlice) → ⟦<PayloadSlice<'static> as Clone>⟧.is_infallible a }
    ensures ip_headers { (a : IpHeaders) → ⟦<IpHeaders as Clone>⟧.is_infallible a }
    ensures net_headers { (a : NetHeaders) → ⟦<NetHeaders as Clone>⟧.is_infallible a }
    ensures net_slices { (a : NetSlice) → ⟦<NetSlice<'static> as Clone>⟧.is_infallible a }
    ensures sliced_packets { (a : SlicedPacket) → ⟦<SlicedPacket<'static> as Clone>⟧.is_infallible a }
    ensures packet_headers { (a : PacketHeaders) → ⟦<PacketHeaders<'static> as Clone>⟧.is_infallible a }
{}
