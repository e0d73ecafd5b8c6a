//! Theorems (laws) about IPv4 and IPv6 headers and packets, and the values of their constants. Each law is the contract
//! of a function without effect.

ghost use Rattle.std.specs.Prelude.{◌≡◌, ◌≤◌, ◌↔◌, length, ℕ, true, false, List, [], ◌∷◌, replicate};
ghost use Rattle.ep_base.specs.Bytes.{AreBytes};
ghost use Rattle.ep_base.specs.Readings.{Reading};
ghost use Rattle.ep_base.specs.Missing.{IsOfAvailableBytes, ReportsTruncation, ReportsMissing, slice_end};
ghost use Rattle.ep_base.specs.Tables.{IsDecided};
ghost use Rattle.ep_base.specs.declared.err.ip.SliceError.TheVariants as ip_error;
ghost use Rattle.ep_base.specs.declared.err.ipv4.HeaderSliceError.TheVariants as ipv4_header_error;
ghost use Rattle.ep_base.specs.declared.err.ipv6.HeaderSliceError.TheVariants as ipv6_header_error;
ghost use Rattle.ep_base.specs.declared.err.len_error.LenError.{LenError};
ghost use Rattle.ep_base.specs.declared.err.ipv4.SliceError.TheVariants as ipv4_error;
ghost use Rattle.ep_base.specs.declared.err.ipv6.SliceError.TheVariants as ipv6_error;
ghost use Rattle.ep_ip.specs.Ip.{version_of};
ghost use Rattle.ep_ip.specs.Ipv4.{IsIpv4Header, RefusesIpv4Header, IsIpv4Packet, RefusesIpv4Packet};
ghost use Rattle.ep_ip.specs.Ipv6.{IsIpv6Header, RefusesIpv6Header, IsIpv6Packet, RefusesIpv6Packet, ipv6_truncation_limit};
ghost use Rattle.ep_ip.specs.IpBytes.{AreIpv4Bytes, AreIpv6Bytes};
ghost use Rattle.ep_ip.specs.IpPackets.{IpPart, IpPacket, ipv4_part, ipv6_part};
ghost use Rattle.ep_ip.specs.IpPackets.{IsIpv4, RefusesIpv4, IsIpv6, RefusesIpv6, IsIp, RefusesIp, ip_truncation_limit};
ghost use Rattle.ep_ip.specs.declared.ipv4_header.Ipv4Header.{Ipv4Header};
ghost use Rattle.ep_ip.specs.declared.ipv6_header.Ipv6Header.{Ipv6Header};

pub mod comparisons;

use crate::{Ipv4Header, Ipv4Options, Ipv6Header};

/// States that any bytes either parse as exactly one IPv4 header and exactly one remainder, or are rejected with
/// exactly one error.
pub fn ipv4_header()
    ensures { (bytes : List ℕ) → AreBytes bytes → IsDecided (IsIpv4Header bytes) (RefusesIpv4Header bytes) }
{}

/// States that any bytes either parse as exactly one IPv4 packet (header, the bytes after it up to the end that the
/// total length sets, and trailing bytes), or are rejected with exactly one error. Extension headers are not parsed.
pub fn ipv4_packet()
    ensures { (bytes : List ℕ) → AreBytes bytes → IsDecided (IsIpv4Packet bytes) (RefusesIpv4Packet bytes) }
{}

/// States that any bytes either parse as exactly one IPv6 header and exactly one remainder, or are rejected with
/// exactly one error.
pub fn ipv6_header()
    ensures { (bytes : List ℕ) → AreBytes bytes → IsDecided (IsIpv6Header bytes) (RefusesIpv6Header bytes) }
{}

/// States that any bytes either parse as exactly one IPv6 packet (header, the bytes after it up to the end that the
/// payload length sets, and trailing bytes), or are rejected with exactly one error. A payload length of 0 leaves no
/// trailing bytes. Extension headers are not parsed.
pub fn ipv6_packet()
    ensures { (bytes : List ℕ) → AreBytes bytes → IsDecided (IsIpv6Packet bytes) (RefusesIpv6Packet bytes) }
{}

/// States that any bytes either parse as exactly one IPv4 packet (header, extension headers, payload and trailing
/// bytes), or are rejected with exactly one error. It holds for the slicing parser and for the header-decoding parser.
pub fn ipv4()
    ensures { (reading : Reading) (bytes : List ℕ) → AreBytes bytes
        → IsDecided (IsIpv4 reading bytes) (RefusesIpv4 reading bytes) }
{}

/// States that any bytes either parse as exactly one IPv6 packet (header, extension headers, payload and trailing
/// bytes), or are rejected with exactly one error. It holds for the slicing parser and for the header-decoding parser.
pub fn ipv6()
    ensures { (reading : Reading) (bytes : List ℕ) → AreBytes bytes
        → IsDecided (IsIpv6 reading bytes) (RefusesIpv6 reading bytes) }
{}

/// States that any bytes either parse as exactly one IP packet of version 4 or 6, or are rejected with exactly one
/// error. It holds for the slicing parser and for the header-decoding parser.
pub fn ip()
    ensures { (reading : Reading) (bytes : List ℕ) → AreBytes bytes
        → IsDecided (IsIp reading bytes) (RefusesIp reading bytes) }
{}

/// States that the bytes of a parsed IP packet are its header, its extension headers, its payload, and the trailing
/// bytes after the end that its length field sets, in this order and nothing else.
pub fn ip_bytes()
    ensures ipv4 { (reading : Reading) (bytes : List ℕ) (packet : IpPacket Ipv4Header) → IsIpv4 reading bytes packet
        → AreIpv4Bytes bytes packet }
    ensures ipv6 { (reading : Reading) (bytes : List ℕ) (packet : IpPacket Ipv6Header) → IsIpv6 reading bytes packet
        → AreIpv6Bytes bytes packet }
{}

/// States that in a length error for an IPv4 or IPv6 packet, `layer_start_offset` is at most the number of input bytes.
pub fn error_offsets()
    ensures ipv4 { (reading : Reading) (bytes : List ℕ) (error : LenError)
        → RefusesIpv4 reading bytes (ipv4_error.Len error) → error.layer_start_offset ≤ length bytes }
    ensures ipv6 { (reading : Reading) (bytes : List ℕ) (error : LenError)
        → RefusesIpv6 reading bytes (ipv6_error.Len error) → error.layer_start_offset ≤ length bytes }
{}

/// States how many bytes are missing if an IP header or packet is rejected with a length error whose `len_source` is
/// `Slice`: `layer_start_offset + len` is the number of input bytes, and `required_len` is above `len`. With
/// `required_len - len` or more bytes appended to the input, parsing does not fail at this check again. An IPv6 packet
/// has no trailing bytes if the length source of its payload is `Slice`.
pub fn missing_bytes()
    ensures ipv4_header { ReportsMissing (λ bytes error. RefusesIpv4Header bytes (ipv4_header_error.Len error)) }
    ensures ipv4_packet { ReportsMissing (λ bytes error. RefusesIpv4Packet bytes (ipv4_error.Len error)) }
    ensures ipv6_header { ReportsMissing (λ bytes error. RefusesIpv6Header bytes (ipv6_header_error.Len error)) }
    ensures ipv6_packet { ReportsMissing (λ bytes error. RefusesIpv6Packet bytes (ipv6_error.Len error)) }
    ensures ipv4 { (reading : Reading)
        → ReportsMissing (λ bytes error. RefusesIpv4 reading bytes (ipv4_error.Len error)) }
    ensures ipv6 { (reading : Reading)
        → ReportsMissing (λ bytes error. RefusesIpv6 reading bytes (ipv6_error.Len error)) }
    ensures ip { (reading : Reading) → ReportsMissing (λ bytes error. RefusesIp reading bytes (ip_error.Len error)) }
    ensures payload { (reading : Reading) (bytes : List ℕ) (packet : IpPacket Ipv6Header) → IsIpv6 reading bytes packet
        → IsOfAvailableBytes packet.payload.source → packet.left ≡ [] }
{}

/// States that if a valid IP header or packet is truncated and then rejected, the error is a length error for the
/// missing bytes. In this error, `layer_start_offset + len` is the truncated length, `required_len` is above `len`, and
/// `layer_start_offset + required_len` is at most the original length. Its `len_source` is `Slice`, with one exception:
/// if an IPv6 packet has the payload length 0 and is truncated right after its IPv6 header, `len_source` is
/// `Ipv6HeaderPayloadLen`.
pub fn truncation()
    ensures ipv4_header { ReportsTruncation IsIpv4Header RefusesIpv4Header ipv4_header_error.Len (λ read. slice_end) }
    ensures ipv6_header { ReportsTruncation IsIpv6Header RefusesIpv6Header ipv6_header_error.Len (λ read. slice_end) }
    ensures ipv4_packet { ReportsTruncation IsIpv4Packet RefusesIpv4Packet ipv4_error.Len (λ packet. slice_end) }
    ensures ipv6_packet { ReportsTruncation IsIpv6Packet RefusesIpv6Packet ipv6_error.Len
        (λ packet. ipv6_truncation_limit 0 packet.header) }
    ensures ipv4 { (reading : Reading)
        → ReportsTruncation (IsIpv4 reading) (RefusesIpv4 reading) ipv4_error.Len (λ packet. slice_end) }
    ensures ipv6 { (reading : Reading)
        → ReportsTruncation (IsIpv6 reading) (RefusesIpv6 reading) ipv6_error.Len
        (λ packet. ipv6_truncation_limit 0 packet.header) }
    ensures ip { (reading : Reading)
        → ReportsTruncation (IsIp reading) (RefusesIp reading) ip_error.Len (ip_truncation_limit 0) }
{}

/// States that the parser for both IP versions agrees with the parsers for a single version. It accepts bytes of
/// version 4 if and only if the IPv4 parser accepts them, bytes of version 6 if and only if the IPv6 parser accepts
/// them, and returns equal parts.
pub fn open_version()
    ensures ipv4 { (reading : Reading) (bytes : List ℕ) → version_of bytes ≡ 4 → (part : IpPart)
        → IsIp reading bytes part ↔ ((packet : IpPacket Ipv4Header) × IsIpv4 reading bytes packet
        × (part ≡ ipv4_part packet)) }
    ensures ipv6 { (reading : Reading) (bytes : List ℕ) → version_of bytes ≡ 6 → (part : IpPart)
        → IsIp reading bytes part ↔ ((packet : IpPacket Ipv6Header) × IsIpv6 reading bytes packet
        × (part ≡ ipv6_part packet)) }
{}

/// States that an IPv4 header has 20 to 60 bytes, its options have at most 40, and an IPv6 header has 40.
pub fn constants()
    ensures ipv4_header { (Ipv4Header.MIN_LEN ≡ 20) × (Ipv4Header.MAX_LEN ≡ 60) }
    ensures ipv4_options { Ipv4Options.MAX_LEN ≡ 40 }
    ensures ipv6_header { Ipv6Header.LEN ≡ 40 }
{}

/// Returns the default IPv4 header, the IPv4 options that `new` and `default` create, and the default IPv6 header. Its
/// contract states the value of each field.
pub fn defaults() -> (Ipv4Header, [Ipv4Options; 2], Ipv6Header)
    ensures ipv4_header { result.0 ≡ record {
      dscp = 0;
      ecn = 0;
      total_len = 0;
      identification = 0;
      dont_fragment = true;
      more_fragments = false;
      fragment_offset = 0;
      time_to_live = 0;
      protocol = record { 0 = 255 };
      header_checksum = 0;
      source = 0 ∷ 0 ∷ 0 ∷ 0 ∷ [];
      destination = 0 ∷ 0 ∷ 0 ∷ 0 ∷ [];
      options = [];
    } }
    ensures ipv4_options { result.1 ≡ [] ∷ [] ∷ [] }
    ensures ipv6_header { result.2 ≡ record {
      traffic_class = 0;
      flow_label = 0;
      payload_length = 0;
      next_header = record { 0 = 255 };
      hop_limit = 0;
      source = replicate 16 0;
      destination = replicate 16 0;
    } }
{
    (
        Ipv4Header::default(),
        [Ipv4Options::new(), Ipv4Options::default()],
        Ipv6Header::default(),
    )
}
