//! Theorems (laws) about ICMPv4 and ICMPv6 messages. Each law is the contract of a function without effect.

ghost use Rattle.std.specs.Prelude.{◌≡◌, ◌%◌, ◌++◌, ◌↔◌, ℕ, IsTrue, [], ◌∷◌, List, length};
ghost use Rattle.ep_base.specs.Bytes.{AreBytes};
ghost use Rattle.ep_base.specs.Checksum.{ones_sum, checksum_of};
ghost use Rattle.ep_base.specs.Tables.{IsDecided, parts_of};
ghost use Rattle.ep_transport.specs.declared.icmpv4.TheConstants as v4;
ghost use Rattle.ep_transport.specs.declared.icmpv4_header.Icmpv4Header.{Icmpv4Header};
ghost use Rattle.ep_transport.specs.declared.icmpv6.TheConstants as v6;
ghost use Rattle.ep_transport.specs.declared.icmpv6_header.Icmpv6Header.{Icmpv6Header};
ghost use Rattle.ep_transport.specs.Icmpv4.{EndsIcmpv4, FitsIcmpv4, IsIcmpv4, RefusesIcmpv4, icmpv4_bytes, icmpv4_message};
ghost use Rattle.ep_transport.specs.Icmpv6.{FitsIcmpv6, IsIcmpv6, RefusesIcmpv6, icmpv6_bytes, icmpv6_message};
ghost use Rattle.ep_transport.specs.Icmpv4Slices.{icmpv4_slice_bytes};
ghost use Rattle.ep_transport.specs.Icmpv6Slices.{icmpv6_slice_bytes};
ghost use Rattle.ep_transport.specs.declared.icmp_echo_header.IcmpEchoHeader.{IcmpEchoHeader};
ghost use Rattle.ep_transport.specs.declared.icmpv4.timestamp_message.TimestampMessage.{TimestampMessage};
ghost use Rattle.ep_transport.specs.declared.icmpv4.time_exceeded_code.TimeExceededCode.{TimeExceededCode as Exceeded4};
ghost use Rattle.ep_transport.specs.declared.icmpv6.time_exceeded_code.TimeExceededCode.{TimeExceededCode as Exceeded6};
ghost use Rattle.ep_transport.specs.declared.icmpv4_type.Icmpv4Type.{Icmpv4Type};
ghost use Rattle.ep_transport.specs.declared.icmpv6_type.Icmpv6Type.{Icmpv6Type};

use crate::icmpv4::TimestampMessage;
use crate::{
    IcmpEchoHeader, Icmpv4Header, Icmpv4Slice, Icmpv4Type, Icmpv6Header, Icmpv6Slice, Icmpv6Type,
    icmpv4, icmpv6,
};

/// States that any bytes either parse as exactly one ICMPv4 message (header and payload), or are rejected with exactly
/// one error.
pub fn icmpv4_messages()
    ensures { (bytes : List ℕ) → AreBytes bytes → IsDecided (IsIcmpv4 bytes) (RefusesIcmpv4 bytes) }
{}

/// States that any bytes either parse as exactly one ICMPv6 message (header and payload), or are rejected with exactly
/// one error.
pub fn icmpv6_messages()
    ensures { (bytes : List ℕ) → AreBytes bytes → IsDecided (IsIcmpv6 bytes) (RefusesIcmpv6 bytes) }
{}

/// States that a written ICMPv4 or ICMPv6 header is read back unchanged if its type and code belong to its variant of
/// `Icmpv4Type` or `Icmpv6Type` (for `Unknown`: to no other variant). In ICMPv4, `next_hop_mtu` must be 0 unless the
/// code is 4, `pointer` must be 0 unless the code is 0, and a timestamp message must have no payload. All headers that
/// parsing returns meet these conditions.
pub fn read_back()
    ensures icmpv4 { (header : Icmpv4Header) (payload : List ℕ) → FitsIcmpv4 header
        → EndsIcmpv4 header.icmp_type payload
        → IsIcmpv4 (icmpv4_bytes header ++ payload) (parts_of header payload []) }
    ensures icmpv6 { (header : Icmpv6Header) (payload : List ℕ) → FitsIcmpv6 header
        → IsIcmpv6 (icmpv6_bytes header ++ payload) (parts_of header payload []) }
{}

/// States that receivers accept computed checksums: the one's complement sum of an ICMPv4 message with its computed
/// checksum is 65535. For ICMPv6, checksum and sum include the pseudo header, or any other even number of bytes before
/// the message.
pub fn checksums()
    ensures icmpv4 { (header : Icmpv4Header) (payload : List ℕ)
        → ones_sum (icmpv4_bytes (record header { checksum = checksum_of (icmpv4_message header payload) })
        ++ payload) ≡ 65535 }
    ensures icmpv6 { (front : List ℕ) (header : Icmpv6Header) (payload : List ℕ) → length front % 2 ≡ 0
        → ones_sum (front ++ (icmpv6_bytes
        (record header { checksum = checksum_of (front ++ icmpv6_message header payload) })
        ++ payload)) ≡ 65535 }
{}

/// States the values of the constants for ICMPv4 and ICMPv6, which are the lengths of headers in bytes and the numbers
/// of the message types (RFC 792; RFC 4443, 2.1).
pub fn constants()
    ensures lengths { (Icmpv4Header.MIN_LEN ≡ 8) × (Icmpv4Header.MAX_LEN ≡ 20) × (Icmpv6Header.MIN_LEN ≡ 8)
        × (Icmpv6Header.MAX_LEN ≡ 8) × (IcmpEchoHeader.LEN ≡ 4) }
    ensures icmpv4 { (v4.TYPE_ECHO_REPLY ≡ 0) × (v4.TYPE_DEST_UNREACH ≡ 3) × (v4.TYPE_REDIRECT ≡ 5)
        × (v4.TYPE_ECHO_REQUEST ≡ 8) × (v4.TYPE_TIME_EXCEEDED ≡ 11) × (v4.TYPE_PARAMETER_PROBLEM ≡ 12)
        × (v4.TYPE_TIMESTAMP_REQUEST ≡ 13) × (v4.TYPE_TIMESTAMP_REPLY ≡ 14) }
    ensures icmpv6 { (v6.TYPE_DEST_UNREACH ≡ 1) × (v6.TYPE_PACKET_TOO_BIG ≡ 2)
        × (v6.TYPE_TIME_EXCEEDED ≡ 3) × (v6.TYPE_PARAMETER_PROBLEM ≡ 4)
        × (v6.TYPE_ECHO_REQUEST ≡ 128) × (v6.TYPE_ECHO_REPLY ≡ 129) }
{}

/// States that ICMPv4 and ICMPv6 headers, types and codes are equal (`==`) if and only if all fields are equal, and
/// slices if and only if their bytes are equal.
pub fn comparisons()
    ensures echoes { (a b : IcmpEchoHeader) → IsTrue (⟦<IcmpEchoHeader as PartialEq>⟧.eq a b) ↔ (a ≡ b) }
    ensures timestamps { (a b : TimestampMessage) → IsTrue (⟦<TimestampMessage as PartialEq>⟧.eq a b) ↔ (a ≡ b) }
    ensures icmpv4_exceeded { (a b : Exceeded4) →
        IsTrue (⟦<icmpv4::TimeExceededCode as PartialEq>⟧.eq a b) ↔ (a ≡ b) }
    ensures icmpv4_types { (a b : Icmpv4Type) → IsTrue (⟦<Icmpv4Type as PartialEq>⟧.eq a b) ↔ (a ≡ b) }
    ensures icmpv4 { (a b : Icmpv4Header) → IsTrue (⟦<Icmpv4Header as PartialEq>⟧.eq a b) ↔ (a ≡ b) }
    ensures icmpv4_slices { (a b : Icmpv4Slice) →
        IsTrue (⟦<Icmpv4Slice<'static> as PartialEq>⟧.eq a b) ↔ (icmpv4_slice_bytes a ≡ icmpv4_slice_bytes b) }
    ensures icmpv6_exceeded { (a b : Exceeded6) →
        IsTrue (⟦<icmpv6::TimeExceededCode as PartialEq>⟧.eq a b) ↔ (a ≡ b) }
    ensures icmpv6_types { (a b : Icmpv6Type) → IsTrue (⟦<Icmpv6Type as PartialEq>⟧.eq a b) ↔ (a ≡ b) }
    ensures icmpv6 { (a b : Icmpv6Header) → IsTrue (⟦<Icmpv6Header as PartialEq>⟧.eq a b) ↔ (a ≡ b) }
    ensures icmpv6_slices { (a b : Icmpv6Slice) →
        IsTrue (⟦<Icmpv6Slice<'static> as PartialEq>⟧.eq a b) ↔ (icmpv6_slice_bytes a ≡ icmpv6_slice_bytes b) }
{}

/// States that a clone of an ICMPv4 or ICMPv6 header, type, code or slice equals its source.
pub fn clones()
    ensures echoes { (a b : IcmpEchoHeader) → ⟦<IcmpEchoHeader as Clone>⟧.is_clone a b → b ≡ a }
    ensures timestamps { (a b : TimestampMessage) → ⟦<TimestampMessage as Clone>⟧.is_clone a b → b ≡ a }
    ensures icmpv4_exceeded { (a b : Exceeded4) → ⟦<icmpv4::TimeExceededCode as Clone>⟧.is_clone a b → b ≡ a }
    ensures icmpv4_types { (a b : Icmpv4Type) → ⟦<Icmpv4Type as Clone>⟧.is_clone a b → b ≡ a }
    ensures icmpv4 { (a b : Icmpv4Header) → ⟦<Icmpv4Header as Clone>⟧.is_clone a b → b ≡ a }
    ensures icmpv4_slices { (a b : Icmpv4Slice) → ⟦<Icmpv4Slice<'static> as Clone>⟧.is_clone a b → b ≡ a }
    ensures icmpv6_exceeded { (a b : Exceeded6) → ⟦<icmpv6::TimeExceededCode as Clone>⟧.is_clone a b → b ≡ a }
    ensures icmpv6_types { (a b : Icmpv6Type) → ⟦<Icmpv6Type as Clone>⟧.is_clone a b → b ≡ a }
    ensures icmpv6 { (a b : Icmpv6Header) → ⟦<Icmpv6Header as Clone>⟧.is_clone a b → b ≡ a }
    ensures icmpv6_slices { (a b : Icmpv6Slice) → ⟦<Icmpv6Slice<'static> as Clone>⟧.is_clone a b → b ≡ a }
{}

/// States that cloning an ICMPv4 or ICMPv6 header, type, code or slice does not allocate, and never fails.
pub fn clones_succeed()
    ensures echoes { (a : IcmpEchoHeader) → ⟦<IcmpEchoHeader as Clone>⟧.is_infallible a }
    ensures timestamps { (a : TimestampMessage) → ⟦<TimestampMessage as Clone>⟧.is_infallible a }
    ensures icmpv4_exceeded { (a : Exceeded4) → ⟦<icmpv4::TimeExceededCode as Clone>⟧.is_infallible a }
    ensures icmpv4_types { (a : Icmpv4Type) → ⟦<Icmpv4Type as Clone>⟧.is_infallible a }
    ensures icmpv4 { (a : Icmpv4Header) → ⟦<Icmpv4Header as Clone>⟧.is_infallible a }
    ensures icmpv4_slices { (a : Icmpv4Slice) → ⟦<Icmpv4Slice<'static> as Clone>⟧.is_infallible a }
    ensures icmpv6_exceeded { (a : Exceeded6) → ⟦<icmpv6::TimeExceededCode as Clone>⟧.is_infallible a }
    ensures icmpv6_types { (a : Icmpv6Type) → ⟦<Icmpv6Type as Clone>⟧.is_infallible a }
    ensures icmpv6 { (a : Icmpv6Header) → ⟦<Icmpv6Header as Clone>⟧.is_infallible a }
    ensures icmpv6_slices { (a : Icmpv6Slice) → ⟦<Icmpv6Slice<'static> as Clone>⟧.is_infallible a }
{}
