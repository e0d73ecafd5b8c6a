//! Theorems (laws) about UDP, TCP, ICMPv4 and ICMPv6. Each law is the contract of a function without effect; of these
//! functions only `constants` returns values, the default headers.

ghost use Rattle.std.specs.Prelude.{◌≡◌, ◌%◌, ◌≤◌, ◌⊎◌, ◌++◌, ◌↔◌, ℕ, Bool, IsTrue, List, length, take, drop, map, Option, Result, Ok};
ghost use Rattle.std.specs.Int.{w16, to_be_bytes};
ghost use Rattle.std.specs.List.{All};
ghost use Rattle.ep_transport.specs.declared.tcp_option_element.TcpOptionElement.{TcpOptionElement};
ghost use Rattle.ep_transport.specs.declared.tcp_option_element.TcpOptionReadError.{TcpOptionReadError};
ghost use Rattle.ep_base.specs.Bytes.{AreBytes};
ghost use Rattle.ep_base.specs.Checksum.{ones_sum, checksum_of, no_zero};
ghost use Rattle.ep_base.specs.Readings.{Reading, slices, headers};
ghost use Rattle.ep_base.specs.Missing.{ReportsTruncation, ReportsMissing, slice_end};
ghost use Rattle.ep_base.specs.Tables.{IsDecided};
ghost use Rattle.ep_base.specs.declared.len_source.LenSource.TheVariants as source;
ghost use Rattle.ep_base.specs.declared.err.len_error.LenError.{LenError};
ghost use Rattle.ep_base.specs.declared.err.tcp.HeaderSliceError.{HeaderSliceError};
ghost use Rattle.ep_base.specs.declared.err.tcp.HeaderSliceError.TheVariants as header_error;
ghost use Rattle.ep_transport.specs.Udp.{IsUdp, IsUdpHeader, RefusesUdp, RefusesUdpHeader, udp_bytes};
ghost use Rattle.ep_transport.specs.Icmpv4.{IsIcmpv4, RefusesIcmpv4};
ghost use Rattle.ep_transport.specs.Icmpv6.{IsIcmpv6, RefusesIcmpv6};
ghost use Rattle.ep_transport.specs.Tcp.{IsTcp, RefusesTcp, tcp_bytes, default_tcp_header};
ghost use Rattle.ep_transport.specs.TcpOptionBytes.{FitsOption, IsNextOption, RefusesOption, AreItems, as_read, in_words, options_bytes};
ghost use Rattle.ep_transport.specs.PseudoHeaders.{pseudo_header_ipv4, pseudo_header_ipv6};
ghost use Rattle.ep_transport.specs.PseudoHeaders.{udp_message, tcp_message, tcp_bytes_without_checksum};
ghost use Rattle.ep_transport.specs.declared.udp_header.UdpHeader.{UdpHeader};
ghost use Rattle.ep_transport.specs.declared.tcp_header.TcpHeader.{TcpHeader};
ghost use Rattle.ep_transport.specs.declared.transport_header.TransportHeader.{TransportHeader};
ghost use Rattle.ep_transport.specs.declared.transport_checksum_error.TransportChecksumError.{TransportChecksumError};
ghost use Rattle.ep_transport.specs.declared.tcp_options.TcpOptionWriteError.{TcpOptionWriteError};
ghost use Rattle.ep_transport.specs.TcpOptionSteps.{options_left};
ghost use Rattle.ep_transport.specs.UdpSlices.{udp_slice_bytes};
ghost use Rattle.ep_transport.specs.TcpSlices.{tcp_slice_bytes};
ghost use Rattle.ep_transport.specs.TransportParts.{TransportLayer, AreTransport, HasNoHeader, IsTransportWithTrailingBytes, IsTransportPart, IsUdpLengthError, RefusesTransportPart};
ghost use Rattle.ep_transport.specs.TransportParts.{transport_slice_bytes};
ghost use Rattle.ep_transport.specs.TransportNumbers.{transport_slice_number};

pub mod icmp;

use crate::{
    TcpHeader, TcpOptionElement, TcpOptionReadError, TcpOptionWriteError, TcpOptions,
    TcpOptionsIterator, TcpSlice, TransportChecksumError, TransportHeader, TransportSlice,
    UdpHeader, UdpSlice,
};

/// States that any bytes either parse as exactly one UDP datagram (header, payload, and trailing bytes after the end
/// that the length field sets), or are rejected with exactly one error.
pub fn udp()
    ensures { (bytes : List ℕ) → AreBytes bytes → IsDecided (IsUdp bytes) (RefusesUdp bytes) }
{}

/// States that any bytes either parse as exactly one UDP header and exactly one remainder, or are rejected with exactly
/// one error. The length field is not checked.
pub fn udp_header()
    ensures { (bytes : List ℕ) → AreBytes bytes → IsDecided (IsUdpHeader bytes) (RefusesUdpHeader bytes) }
{}

/// States that any bytes either parse as exactly one TCP segment (header and payload), or are rejected with exactly one
/// error.
pub fn tcp()
    ensures { (bytes : List ℕ) → AreBytes bytes → IsDecided (IsTcp bytes) (RefusesTcp bytes) }
{}

/// States that any unread bytes of a TCP option list either parse as exactly one next option and the bytes after it, or
/// are the end of the list (no bytes left, or kind 0), or are rejected with exactly one error.
pub fn tcp_option()
    ensures { (bytes : List ℕ) → AreBytes bytes → IsDecided (IsNextOption bytes) (RefusesOption bytes) }
{}

/// States that iterating over bytes as TCP options gives exactly one sequence of results (options, and perhaps an error
/// as the last result), with at most one result per byte.
pub fn tcp_option_items()
    ensures some { (bytes : List ℕ) → AreBytes bytes → (items : List (Result TcpOptionElement TcpOptionReadError))
        × AreItems bytes items × (length items ≤ length bytes) }
    ensures one { (bytes : List ℕ) (items others : List (Result TcpOptionElement TcpOptionReadError))
        → AreItems bytes items → AreItems bytes others → items ≡ others }
{}

/// States that in a length error for the transport layer of an IP payload, `layer_start_offset` is 0, the start of that
/// payload.
pub fn error_offsets()
    ensures { (reading : Reading) (number : ℕ) (fragmented : Bool) (bytes : List ℕ) (error : LenError)
        → RefusesTransportPart reading number fragmented bytes (header_error.Len error) → error.layer_start_offset ≡ 0 }
{}

/// States that TCP options that are encoded and padded to a multiple of 4 bytes are read back unchanged, with one
/// exception: in a selective acknowledgment, present blocks are moved before absent ones (`None`).
pub fn tcp_options_read_back()
    ensures { (options : List TcpOptionElement) → All FitsOption options
        → AreItems (in_words (options_bytes options)) (map (λ option. Ok (as_read option)) options) }
{}

/// States that any IP payload either has exactly one transport layer, or none (a fragment, or a protocol other than
/// UDP, TCP, ICMPv4 and ICMPv6), or is rejected with exactly one error. It holds for the slicing parser and for the
/// header-decoding parser.
pub fn transport()
    ensures { (reading : Reading) (number : ℕ) (fragmented : Bool) (bytes : List ℕ) → AreBytes bytes
        → IsDecided (IsTransportPart reading number fragmented bytes)
        (RefusesTransportPart reading number fragmented bytes) }
{}

/// States that parsing the transport layer of any IP payload has exactly one result: a transport layer (or none) with
/// its trailing bytes, or an error. It holds for the slicing parser, where trailing bytes are those after the end that
/// the UDP length field sets, and for the header-decoding parser, which has no trailing bytes.
pub fn transport_with_trailing_bytes()
    ensures { (reading : Reading) (number : ℕ) (fragmented : Bool) (bytes : List ℕ) → AreBytes bytes
        → IsDecided (IsTransportWithTrailingBytes reading number fragmented bytes)
        (RefusesTransportPart reading number fragmented bytes) }
{}

/// States that the slicing parser rejects each transport layer that the header-decoding parser rejects, with the same
/// error. Besides these, the slicing parser rejects only an invalid UDP length field. Neither parser rejects the
/// payload of an IP protocol other than UDP, TCP, ICMPv4 and ICMPv6.
pub fn transport_of_headers()
    ensures refused { (number : ℕ) (fragmented : Bool) (bytes : List ℕ) (error : HeaderSliceError)
        → RefusesTransportPart headers number fragmented bytes error
        → RefusesTransportPart slices number fragmented bytes error }
    ensures alone { (number : ℕ) (fragmented : Bool) (bytes : List ℕ) (error : HeaderSliceError)
        → RefusesTransportPart slices number fragmented bytes error
        → RefusesTransportPart headers number fragmented bytes error ⊎ IsUdpLengthError error }
    ensures none { (reading : Reading) (number : ℕ) (fragmented : Bool) (bytes : List ℕ) (error : HeaderSliceError)
        → HasNoHeader number → ¬ RefusesTransportPart reading number fragmented bytes error }
{}

/// States how many bytes are missing if a transport layer is rejected with a length error whose `len_source` is
/// `Slice`: `layer_start_offset + len` is the number of input bytes, and `required_len` is above `len`. With
/// `required_len - len` or more bytes appended to the input, parsing does not fail at this check again. ICMPv4
/// timestamp messages are excepted, because they must have exactly 20 bytes. The only other `len_source` is
/// `UdpHeaderLen`.
pub fn missing_bytes()
    ensures udp_header { ReportsMissing RefusesUdpHeader }
    ensures udp { ReportsMissing RefusesUdp }
    ensures tcp { ReportsMissing (λ bytes error. RefusesTcp bytes (header_error.Len error)) }
    ensures icmpv4 { ReportsMissing RefusesIcmpv4 }
    ensures icmpv6 { ReportsMissing RefusesIcmpv6 }
    ensures transport { (reading : Reading) (number : ℕ) (fragmented : Bool) → ReportsMissing
        (λ bytes error. RefusesTransportPart reading number fragmented bytes (header_error.Len error)) }
    ensures limit { (reading : Reading) (number : ℕ) (fragmented : Bool) (bytes : List ℕ) (error : LenError)
        → RefusesTransportPart reading number fragmented bytes (header_error.Len error)
        → (error.len_source ≡ source.Slice) ⊎ (error.len_source ≡ source.UdpHeaderLen) }
{}

/// States that if a valid transport layer is truncated and then rejected, the error is a length error for the missing
/// bytes. In this error, `layer_start_offset + len` is the truncated length, `required_len` is above `len`,
/// `layer_start_offset + required_len` is at most the original length, and `len_source` is `Slice`. This also holds for
/// ICMPv4 timestamp messages, which must have exactly 20 bytes.
pub fn truncation()
    ensures udp_header { ReportsTruncation IsUdpHeader RefusesUdpHeader (λ (error : LenError). error) (λ read. slice_end) }
    ensures udp { ReportsTruncation IsUdp RefusesUdp (λ (error : LenError). error) (λ datagram. slice_end) }
    ensures tcp { ReportsTruncation IsTcp RefusesTcp header_error.Len (λ segment. slice_end) }
    ensures icmpv4 { ReportsTruncation IsIcmpv4 RefusesIcmpv4 (λ (error : LenError). error) (λ message. slice_end) }
    ensures icmpv6 { ReportsTruncation IsIcmpv6 RefusesIcmpv6 (λ (error : LenError). error) (λ message. slice_end) }
    ensures transport { (reading : Reading) (number : ℕ) (fragmented : Bool)
        → ReportsTruncation (IsTransportPart reading number fragmented) (RefusesTransportPart reading number fragmented)
        header_error.Len (λ part. slice_end) }
{}

/// States that the bytes of an IP payload are the transport header, the payload of the transport layer, and the
/// trailing bytes after the end that the UDP length field sets, in this order. Without a transport layer, they are
/// payload alone.
pub fn transport_bytes()
    ensures { (reading : Reading) (number : ℕ) (fragmented : Bool) (bytes : List ℕ) (part : Option TransportLayer)
        → IsTransportPart reading number fragmented bytes part → AreTransport bytes part }
{}

/// States that receivers accept computed checksums: the one's complement sum of a pseudo header and a UDP datagram or
/// TCP segment with its computed checksum is 65535. It holds for any even number of bytes in place of the pseudo
/// header, and pseudo headers have an even length. It also holds if the checksum is computed from the bytes of a
/// received TCP segment, whose reserved bits may be set.
pub fn checksums()
    ensures udp { (pseudo : List ℕ) (header : UdpHeader) (payload : List ℕ) → length pseudo % 2 ≡ 0
        → ones_sum (pseudo ++ (udp_bytes
        (record header { checksum = no_zero (checksum_of (pseudo ++ udp_message header payload)) })
        ++ payload)) ≡ 65535 }
    ensures tcp { (pseudo : List ℕ) (header : TcpHeader) (payload : List ℕ) → length pseudo % 2 ≡ 0
        → ones_sum (pseudo ++ (tcp_bytes
        (record header { checksum = checksum_of (pseudo ++ tcp_message header payload) })
        ++ payload)) ≡ 65535 }
    ensures segment { (header : TcpHeader) (payload : List ℕ)
        → tcp_bytes_without_checksum (tcp_bytes header ++ payload) ≡ tcp_message header payload }
    ensures segment_bytes { (pseudo bytes : List ℕ) → length pseudo % 2 ≡ 0 → 16 ≤ length bytes
        → ones_sum (pseudo ++ (take 16 bytes
        ++ (to_be_bytes w16 (checksum_of (pseudo ++ tcp_bytes_without_checksum bytes)) ++ drop 18 bytes))) ≡ 65535 }
    ensures pseudo_ipv4 { (source destination : List ℕ) (number len : ℕ) → length source ≡ 4 → length destination ≡ 4
        → length (pseudo_header_ipv4 source destination number len) % 2 ≡ 0 }
    ensures pseudo_ipv6 { (source destination : List ℕ) (number len : ℕ) → length source ≡ 16
        → length destination ≡ 16 → length (pseudo_header_ipv6 source destination number len) % 2 ≡ 0 }
{}

/// Returns the default UDP header and the default TCP header, whose fields are 0, false or empty. The contract also
/// states the values of the length constants, in bytes: UDP header 8; TCP header at least 20 and at most 60, TCP
/// options at most 40 (RFC 768; RFC 9293, 3.1).
pub fn constants() -> (UdpHeader, TcpHeader)
    ensures udp_len { UdpHeader.LEN ≡ 8 }
    ensures udp_default { result.0 ≡ record { source_port = 0; destination_port = 0; length = 0; checksum = 0 } }
    ensures tcp_min_len { TcpHeader.MIN_LEN ≡ 20 }
    ensures tcp_max_len { TcpHeader.MAX_LEN ≡ 60 }
    ensures tcp_options_max_len { TcpOptions.MAX_LEN ≡ 40 }
    ensures tcp_default { result.1 ≡ default_tcp_header }
{
    (UdpHeader::default(), TcpHeader::default())
}

/// States that transport headers are equal (`==`) if and only if all fields are equal; TCP options are compared by
/// their bytes. Slices are equal if and only if protocol and bytes are equal, iterators over TCP options if the unread
/// bytes are equal, and errors if all their fields are equal.
pub fn comparisons()
    ensures udp { (a b : UdpHeader) → IsTrue (⟦<UdpHeader as PartialEq>⟧.eq a b) ↔ (a ≡ b) }
    ensures udp_slices { (a b : UdpSlice) →
        IsTrue (⟦<UdpSlice<'static> as PartialEq>⟧.eq a b) ↔ (udp_slice_bytes a ≡ udp_slice_bytes b) }
    ensures tcp { (a b : TcpHeader) → IsTrue (⟦<TcpHeader as PartialEq>⟧.eq a b) ↔ (a ≡ b) }
    ensures tcp_slices { (a b : TcpSlice) →
        IsTrue (⟦<TcpSlice<'static> as PartialEq>⟧.eq a b) ↔ (tcp_slice_bytes a ≡ tcp_slice_bytes b) }
    ensures options { (a b : List ℕ) → IsTrue (⟦<TcpOptions as PartialEq>⟧.eq a b) ↔ (a ≡ b) }
    ensures elements { (a b : TcpOptionElement) → IsTrue (⟦<TcpOptionElement as PartialEq>⟧.eq a b) ↔ (a ≡ b) }
    ensures iterators { (a b : TcpOptionsIterator) →
        IsTrue (⟦<TcpOptionsIterator<'static> as PartialEq>⟧.eq a b) ↔ (options_left a ≡ options_left b) }
    ensures read_errors { (a b : TcpOptionReadError) →
        IsTrue (⟦<TcpOptionReadError as PartialEq>⟧.eq a b) ↔ (a ≡ b) }
    ensures write_errors { (a b : TcpOptionWriteError) →
        IsTrue (⟦<TcpOptionWriteError as PartialEq>⟧.eq a b) ↔ (a ≡ b) }
    ensures transport { (a b : TransportHeader) → IsTrue (⟦<TransportHeader as PartialEq>⟧.eq a b) ↔ (a ≡ b) }
    ensures transport_slices { (a b : TransportSlice) →
        IsTrue (⟦<TransportSlice<'static> as PartialEq>⟧.eq a b)
        ↔ ((transport_slice_number a ≡ transport_slice_number b)
        × (transport_slice_bytes a ≡ transport_slice_bytes b)) }
    ensures checksum_errors { (a b : TransportChecksumError) →
        IsTrue (⟦<TransportChecksumError as PartialEq>⟧.eq a b) ↔ (a ≡ b) }
{
    icmp::comparisons();
    ep_base::laws::equalities();
}

/// States that a clone of a transport header, slice, TCP option, iterator or error of this crate equals its source.
pub fn clones()
    ensures udp { (a b : UdpHeader) → ⟦<UdpHeader as Clone>⟧.is_clone a b → b ≡ a }
    ensures udp_slices { (a b : UdpSlice) → ⟦<UdpSlice<'static> as Clone>⟧.is_clone a b → b ≡ a }
    ensures tcp { (a b : TcpHeader) → ⟦<TcpHeader as Clone>⟧.is_clone a b → b ≡ a }
    ensures tcp_slices { (a b : TcpSlice) → ⟦<TcpSlice<'static> as Clone>⟧.is_clone a b → b ≡ a }
    ensures options { (a b : List ℕ) → ⟦<TcpOptions as Clone>⟧.is_clone a b → b ≡ a }
    ensures elements { (a b : TcpOptionElement) → ⟦<TcpOptionElement as Clone>⟧.is_clone a b → b ≡ a }
    ensures iterators { (a b : TcpOptionsIterator) → ⟦<TcpOptionsIterator<'static> as Clone>⟧.is_clone a b → b ≡ a }
    ensures read_errors { (a b : TcpOptionReadError) → ⟦<TcpOptionReadError as Clone>⟧.is_clone a b → b ≡ a }
    ensures write_errors { (a b : TcpOptionWriteError) → ⟦<TcpOptionWriteError as Clone>⟧.is_clone a b → b ≡ a }
    ensures transport { (a b : TransportHeader) → ⟦<TransportHeader as Clone>⟧.is_clone a b → b ≡ a }
    ensures transport_slices { (a b : TransportSlice) → ⟦<TransportSlice<'static> as Clone>⟧.is_clone a b → b ≡ a }
    ensures checksum_errors { (a b : TransportChecksumError) →
        ⟦<TransportChecksumError as Clone>⟧.is_clone a b → b ≡ a }
{
    icmp::clones();
}

/// States that cloning a transport header, slice, TCP option, iterator or error of this crate does not allocate, and
/// never fails.
pub fn clones_succeed()
    ensures udp { (a : UdpHeader) → ⟦<UdpHeader as Clone>⟧.is_infallible a }
    ensures udp_slices { (a : UdpSlice) → ⟦<UdpSlice<'static> as Clone>⟧.is_infallible a }
    ensures tcp { (a : TcpHeader) → ⟦<TcpHeader as Clone>⟧.is_infallible a }
    ensures tcp_slices { (a : TcpSlice) → ⟦<TcpSlice<'static> as Clone>⟧.is_infallible a }
    ensures options { (a : List ℕ) → ⟦<TcpOptions as Clone>⟧.is_infallible a }
    ensures elements { (a : TcpOptionElement) → ⟦<TcpOptionElement as Clone>⟧.is_infallible a }
    ensures iterators { (a : TcpOptionsIterator) → ⟦<TcpOptionsIterator<'static> as Clone>⟧.is_infallible a }
    ensures read_errors { (a : TcpOptionReadError) → ⟦<TcpOptionReadError as Clone>⟧.is_infallible a }
    ensures write_errors { (a : TcpOptionWriteError) → ⟦<TcpOptionWriteError as Clone>⟧.is_infallible a }
    ensures transport { (a : TransportHeader) → ⟦<TransportHeader as Clone>⟧.is_infallible a }
    ensures transport_slices { (a : TransportSlice) → ⟦<TransportSlice<'static> as Clone>⟧.is_infallible a }
    ensures checksum_errors { (a : TransportChecksumError) → ⟦<TransportChecksumError as Clone>⟧.is_infallible a }
{
    icmp::clones_succeed();
}
