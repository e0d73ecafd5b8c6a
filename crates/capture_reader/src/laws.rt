//! Laws of the pcap and pcapng formats and of their types. Each law is the contract of a function with an empty body.

ghost use Rattle.std.specs.Prelude.{◌≡◌, ◌↔◌, ℕ, None, List, IsTrue};
ghost use Rattle.ep_base.specs.Bytes.{AreBytes};
ghost use Rattle.ep_base.specs.Tables.{IsDecided};
ghost use Rattle.capture_reader.specs.Blocks.{IsBlock, RefusesBlock, Section};
ghost use Rattle.capture_reader.specs.Captures.{IsCapture, RefusesCapture};
ghost use Rattle.capture_reader.specs.Classic.{IsHeading, IsRecord, RefusesHeading, RefusesRecord, packet_of};
ghost use Rattle.capture_reader.specs.Readers.{shown_of};
ghost use Rattle.capture_reader.specs.declared.byte_order.ByteOrder.{ByteOrder};
ghost use Rattle.capture_reader.specs.declared.packet.Packet.{Packet};
ghost use Rattle.capture_reader.specs.declared.packet.TheConstants as packet;
ghost use Rattle.capture_reader.specs.declared.shown.Shown.{Shown};

use crate::block::{Block, BlockKind};
use crate::byte_order::ByteOrder;
use crate::heading::{Heading, Resolution};
use crate::interface::Interface;
use crate::packet::{Packet, Record};
use crate::reader::Advance;
use crate::refusal::{CaptureError, Refusal};
use crate::shown::{Known, Shown, Time};

/// States that any bytes either begin with exactly one pcap file header, or are rejected with exactly one error.
pub fn heading()
    ensures { (bytes : List ℕ) → AreBytes bytes → IsDecided (IsHeading bytes) (RefusesHeading bytes) }
{}

/// States that any bytes, in either byte order, either begin with exactly one pcap packet record, or are rejected with
/// exactly one error.
pub fn record_of_packet()
    ensures { (order : ByteOrder) (bytes : List ℕ) → AreBytes bytes →
        IsDecided (IsRecord order bytes) (RefusesRecord order bytes) }
{}

/// States that any bytes, in any pcapng section, either begin with exactly one block, or are rejected with exactly one
/// error.
pub fn block()
    ensures { (section : Section) (bytes : List ℕ) → AreBytes bytes →
        IsDecided (IsBlock section bytes) (RefusesBlock section bytes) }
{}

/// States that any bytes either are a capture in exactly one way, or are rejected with exactly one error after the file
/// header, packet records and blocks that precede it.
pub fn capture()
    ensures { (bytes : List ℕ) → AreBytes bytes → IsDecided (IsCapture bytes) (RefusesCapture bytes) }
{}

/// States the values of the constants of captures: header lengths, the maximum number of captured bytes of a packet,
/// and the values of a reader that has read no packet.
pub fn constants()
    ensures lengths { (Heading.LEN ≡ 24) × (Record.LEN ≡ 16) × (Block.HEADER_LEN ≡ 8) }
    ensures most_kept { packet.MOST_KEPT ≡ 262144 }
    ensures no_record { Record.NONE ≡ record { seconds = 0; fraction = 0; original_len = 0; kept = 0 } }
    ensures known { Known.NONE ≡ record { link_type = 0; interface = None; time = None; original_len = 0 } }
{}

/// States that the derived equality of the public types for captures is equality of values. Of packets it compares all
/// fields, and the captured bytes themselves, not their addresses.
pub fn comparisons()
    ensures orders { (a b : ByteOrder) → IsTrue (⟦<ByteOrder as PartialEq>⟧.eq a b) ↔ (a ≡ b) }
    ensures kinds { (a b : BlockKind) → IsTrue (⟦<BlockKind as PartialEq>⟧.eq a b) ↔ (a ≡ b) }
    ensures resolutions { (a b : Resolution) → IsTrue (⟦<Resolution as PartialEq>⟧.eq a b) ↔ (a ≡ b) }
    ensures headings { (a b : Heading) → IsTrue (⟦<Heading as PartialEq>⟧.eq a b) ↔ (a ≡ b) }
    ensures interfaces { (a b : Interface) → IsTrue (⟦<Interface as PartialEq>⟧.eq a b) ↔ (a ≡ b) }
    ensures times { (a b : Time) → IsTrue (⟦<Time as PartialEq>⟧.eq a b) ↔ (a ≡ b) }
    ensures known { (a b : Known) → IsTrue (⟦<Known as PartialEq>⟧.eq a b) ↔ (a ≡ b) }
    ensures refusals { (a b : Refusal) → IsTrue (⟦<Refusal as PartialEq>⟧.eq a b) ↔ (a ≡ b) }
    ensures errors { (a b : CaptureError) → IsTrue (⟦<CaptureError as PartialEq>⟧.eq a b) ↔ (a ≡ b) }
    ensures advances { (a b : Advance) → IsTrue (⟦<Advance as PartialEq>⟧.eq a b) ↔ (a ≡ b) }
    ensures packets { (a b : Packet) → IsTrue (⟦<Packet<'static> as PartialEq>⟧.eq a b) ↔ (packet_of a ≡ packet_of b) }
    ensures shown { (a b : Shown) → IsTrue (⟦<Shown<'static> as PartialEq>⟧.eq a b) ↔ (shown_of a ≡ shown_of b) }
{}
