//! Laws of the captures that this crate writes. Each is the contract of a function without effect.

ghost use Rattle.std.specs.Prelude.{◌≡◌, ◌↔◌, ◌<◌, ◌^◌, ◌++◌, ◌∷◌, [], ℕ, List, IsTrue, map};
ghost use Rattle.capture_reader.specs.Captures.{PlainShown};
ghost use Rattle.capture_writer.specs.Written.{AreWritten, IsWritten, Shows, back_of, capture_bytes, instant_in};
ghost use Rattle.capture_writer.specs.Written.{packet_bytes};

use crate::write_error::{WriteError, WriteRefusal};

/// States that reading a capture file of written packets gives the packets that were written, and nothing else: with
/// equal bytes, original lengths and link types, and equal timestamps in whole nanoseconds. Interface numbers are not
/// kept. Writing one more packet only appends its record.
pub fn read_back()
    ensures shown { (link : ℕ) (packets : List PlainShown) → link < 2 ^ 16 → AreWritten link packets →
        Shows (capture_bytes link packets) (map back_of packets) }
    ensures times { (link : ℕ) (packet : PlainShown) → IsWritten link packet →
        instant_in (back_of packet).time ≡ instant_in packet.time }
    ensures more { (link : ℕ) (packets : List PlainShown) (packet : PlainShown) →
        capture_bytes link (packets ++ packet ∷ []) ≡ capture_bytes link packets ++ packet_bytes packet }
{
    capture_reader::laws::capture();
}

/// States that two errors of writing a packet are equal (`==`) if and only if they are identical.
pub fn comparisons()
    ensures refusals { (a b : WriteRefusal) → IsTrue (⟦<WriteRefusal as PartialEq>⟧.eq a b) ↔ (a ≡ b) }
    ensures errors { (a b : WriteError) → IsTrue (⟦<WriteError as PartialEq>⟧.eq a b) ↔ (a ≡ b) }
{}
