//! Laws of the C interface that relate several calls, or a returned description to the frame's bytes.

ghost use Rattle.std.specs.Prelude.{◌≡◌, ◌+◌, ◌<◌, ◌≤◌, ◌^◌, ℕ, nat_eq, List, length, Option, None, Some};
ghost use Rattle.etherparse.specs.Frame.{IsFrame};
ghost use Rattle.etherparse.specs.FrameBytes.{last_payload};
ghost use Rattle.etherparse.specs.Lax.{IsLax};
ghost use Rattle.etherparse.specs.LaxLayers.{LaxLayers};
ghost use Rattle.etherparse.specs.Layers.{Layers};
ghost use Rattle.etherparse.specs.Pools.{HoldsTable, limit_of};
ghost use Rattle.etherparse.specs.StrictFrames.{layers_in};
ghost use Rattle.etherparse_c.specs.Description.{description, payload_offset};
ghost use Rattle.etherparse_c.specs.FieldAnswers.{IsFieldsAnswer};
ghost use Rattle.etherparse_c.specs.Fields.{fields_in};
ghost use Rattle.etherparse_c.specs.LaxAnswers.{DescribesLax, lax_description};
ghost use Rattle.etherparse_c.specs.Places.{Describes, HeaderLens};
ghost use Rattle.etherparse_c.specs.PoolAnswers.{IsPushAnswer, Table, pool_of, waiting_in};
ghost use Rattle.etherparse.specs.BoundedPools.{HoldsRows, limits_in};
ghost use Rattle.etherparse.specs.BoundedSteps.{Row};
ghost use Rattle.etherparse_c.specs.BoundedPoolAnswers.{IsBoundedPush, bounded_pool_of, bounded_waiting};
ghost use Rattle.etherparse_c.specs.RefusalTexts.{AreTextsOfRefusals, text_of_number};
ghost use Rattle.packet_filter.specs.KindTexts.{kind_text};
ghost use Rattle.packet_filter.specs.FilterErrorKind.{FilterErrorKind};

use crate::bounded_handle::BoundedHandle;
use crate::bounded_state::BoundedState;
use crate::fields::Fields;
use crate::filter_handle::FilterHandle;
use crate::handle::Handle;
use crate::owned_bounded_pool::OwnedBoundedPool;
use crate::owned_filter::OwnedFilter;
use crate::owned_pool::OwnedPool;
use crate::packet::{Packet, Refusal};
use crate::pool_answer::PoolAnswer;
use crate::state::State;
use etherparse::Entry;

/// States that the header offsets that C gets for a valid frame are right. The bytes at the offset of each described
/// header are the bytes of that header, and the payload of the innermost layer ends within the frame.
pub fn frame_offsets()
    ensures places { (entry : Entry) (bytes : List ℕ) (layers : Layers) (packet : Packet)
        → IsFrame entry bytes layers → packet ≡ description layers → Describes entry bytes layers packet }
    ensures within { (entry : Entry) (bytes : List ℕ) (layers : Layers) → IsFrame entry bytes layers
        → payload_offset layers + length (last_payload layers) ≤ length bytes }
{
    etherparse::laws::packet::frame_bytes();
    header_lens();
}

/// States that the header offsets that C gets for a laxly sliced packet are right. The bytes at the offset of each
/// described header are the bytes of that header, and the innermost layer's payload ends within the packet's bytes.
pub fn lax_offsets()
    ensures places { (entry : Entry) (bytes : List ℕ) (read : LaxLayers) (packet : Packet)
        → IsLax entry bytes read → packet ≡ lax_description read → DescribesLax entry bytes read packet }
    ensures within { (entry : Entry) (bytes : List ℕ) (read : LaxLayers) → IsLax entry bytes read
        → payload_offset (layers_in read) + length (last_payload (layers_in read)) ≤ length bytes }
{
    etherparse::laws::lax::lax_bytes();
    header_lens();
}

/// States that C gets the right fields of a described packet. If `etherparse_2_fields` is called with the description
/// of a valid frame or of a laxly sliced packet, and with its bytes, it returns status 0 and the fields of its layers.
pub fn described_fields()
    ensures frames { (entry : Entry) (bytes : List ℕ) (layers : Layers) (packet : Packet) (status : ℕ) (fields : Fields)
        → Describes entry bytes layers packet → IsFieldsAnswer packet bytes status fields
        → (status ≡ 0) × (fields ≡ fields_in bytes layers) }
    ensures lax { (entry : Entry) (bytes : List ℕ) (read : LaxLayers) (packet : Packet) (status : ℕ) (fields : Fields)
        → DescribesLax entry bytes read packet → IsFieldsAnswer packet bytes status fields
        → (status ≡ 0) × (fields ≡ fields_in bytes (layers_in read)) }
{
    frame_offsets();
    lax_offsets();
}

/// States that each header, encoded as bytes, has the length that its description for C states.
fn header_lens()
    ensures { HeaderLens }
{
    etherparse::laws::packet::header_lens();
}

/// States that lax slicing describes a valid frame to C exactly as strict slicing does.
pub fn frames_read_laxly()
    ensures { (entry : Entry) (bytes : List ℕ) (layers : Layers) → IsFrame entry bytes layers
        → (read : LaxLayers) × IsLax entry bytes read × (lax_description read ≡ description layers) }
{
    etherparse::laws::lax::strict_frames();
}

/// States that C gets the right text for the numbers of a slicing error: the text of that error.
pub fn refusal_texts()
    ensures { AreTextsOfRefusals }
{}

/// States that the text of every error has at most 141 bytes, so that a buffer of 142 bytes is enough for the text and
/// a terminating zero byte.
pub fn text_lengths()
    ensures { (refusal : Refusal) (text : List ℕ) → refusal.number < 2 ^ 32 → refusal.required_len < 2 ^ 64
        → refusal.len < 2 ^ 64 → refusal.layer_start_offset < 2 ^ 64 → text_of_number refusal ≡ Some text
        → length text ≤ 141 }
{}

/// States that the text of each reason why a text is not a filter expression has at most 79 bytes, so that a buffer of
/// 80 bytes is enough for the text and a terminating zero byte.
pub fn reason_lengths()
    ensures { (reason : FilterErrorKind) → length (kind_text reason) ≤ 79 }
{}

/// States that a buffer of the pool's maximum payload length is large enough for every reassembled payload. After a
/// push with such a buffer, no complete payload is left in the pool if none was before.
pub fn limit_fits_payloads()
    ensures { (entry : Option Entry) (bytes : List ℕ) (timestamp channel : ℕ) (old new : State)
        (old_buffer new_buffer : List ℕ) (answer : PoolAnswer) (status : ℕ) (table : Table)
        → HoldsTable nat_eq (pool_of old) table → waiting_in old ≡ None → limit_of (pool_of old) ≤ length old_buffer
        → IsPushAnswer entry bytes timestamp channel old new old_buffer new_buffer answer status
        → waiting_in new ≡ None }
{
    etherparse::laws::defrag::data_within_limit::<u64, u64>();
}

/// States that a buffer of the payload length of the limits is large enough for every payload of a bounded pool. After
/// a push with such a buffer, no complete payload is left in the pool if none was before.
pub fn bounded_limit_fits_payloads()
    ensures { (entry : Option Entry) (bytes : List ℕ) (timestamp channel : ℕ) (old new : BoundedState)
        (old_buffer new_buffer : List ℕ) (answer : PoolAnswer) (status : ℕ) (rows : List (Row ℕ))
        → HoldsRows nat_eq (bounded_pool_of old) rows → bounded_waiting old ≡ None
        → (limits_in (bounded_pool_of old)).payload ≤ length old_buffer
        → IsBoundedPush entry bytes timestamp channel old_buffer new_buffer answer status old new
        → bounded_waiting new ≡ None }
{}

/// Proves that the pointers to a reassembly pool or a filter that C holds implement `Send`: it can go to another thread
/// between two calls.
pub fn pools_are_send() {
    moves::<Handle>();
    moves::<OwnedPool>();
    moves::<BoundedHandle>();
    moves::<OwnedBoundedPool>();
    moves::<FilterHandle>();
    moves::<OwnedFilter>();
}

/// Does nothing; a call compiles only if `T` implements `Send`.
fn moves<T: Send>() {}
