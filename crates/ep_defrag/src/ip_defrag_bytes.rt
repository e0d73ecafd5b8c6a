//! Writing of a fragment's bytes into the vector of a payload that is reassembled.

ghost use Rattle.std.specs.Prelude.{◌≡◌, ℕ, ◌+◌, ◌-◌, ◌*◌, ◌<◌, ◌≤◌, max, ◌&&◌, nat_le, nat_lt, if◌then◌else◌, length, slice_index, OnOk, OnErr, IsOk, vec_len, vec_capacity};
ghost use Rattle.std.specs.List.{All};
ghost use Rattle.ep_defrag.specs.Ranges.{AreSeparate};
ghost use Rattle.ep_defrag.specs.Buffers.{extended, overwritten};
ghost use Rattle.ep_defrag.specs.BoundedOverlaps.{data_with_missing};

use crate::ip_frag_range::IpFragRange;
use std::alloc::AllocError;

/// Bytes of a gap, which are copied faster than they are pushed one by one.
const ZEROS: [u8; 1024] = [0; 1024];

/// Reserves capacity for the payload bytes up to position `end`. A vector that has to grow at least doubles its
/// capacity, to at most twice `end`, so that fragments that arrive in order seldom cause a reallocation.
#[inline]
pub(crate) fn reserve_to(bytes: &mut Vec<u8>, end: u16) -> Result<(), AllocError>
    ensures items { bytes.new.items ≡ bytes.old.items }
    ensures reserved { OnOk result (end ≤ vec_capacity bytes.new) }
    ensures in_place { end ≤ vec_capacity bytes.old → IsOk result }
    ensures full { OnErr result (vec_capacity bytes.old < end) }
    ensures err { OnErr result (vec_capacity bytes.new ≡ vec_capacity bytes.old) }
    ensures capacity { vec_capacity bytes.old ≤ vec_capacity bytes.new }
    ensures most { vec_capacity bytes.new ≤ max (vec_capacity bytes.old) (2 * end) }
{
    let old_capacity = bytes.capacity();
    let end = usize::from(end);
    if end <= old_capacity {
        return Ok(());
    }
    bytes.reserve_exact(end.max(2 * old_capacity) - bytes.len())
}

/// Writes the bytes of a fragment to the vector `bytes` at `range`, over any bytes that are already there. If the
/// vector ends before the fragment starts, the gap is filled with zeros. Each byte is written only once.
pub(crate) fn write_fragment(bytes: &mut Vec<u8>, range: IpFragRange, payload: &[u8])
    requires len { range.end ≡ range.start + length payload.now }
    requires capacity { range.end ≤ vec_capacity bytes.old }
    ensures items { bytes.new.items ≡ overwritten (extended bytes.old.items range.end) range.start payload.now }
    ensures capacity { vec_capacity bytes.old ≤ vec_capacity bytes.new }
{
    let start = usize::from(range.start);
    fill_gap(bytes, start);
    let (within, after) = payload.split_at(payload.len().min(bytes.len() - start));
    bytes.extend_from_slice(after).unwrap();
    overwrite(bytes, start, within);
}

/// Writes the bytes of a fragment to the vector `bytes` at `range`, except at the positions of the `sections`, where
/// the bytes are kept. If the vector ends before the fragment, it is extended with zeros first.
pub(crate) fn write_missing(
    bytes: &mut Vec<u8>,
    sections: &[IpFragRange],
    range: IpFragRange,
    payload: &[u8],
)
    requires len { range.end ≡ range.start + length payload.now }
    requires capacity { range.end ≤ vec_capacity bytes.old }
    requires separate { AreSeparate sections.now }
    requires within { All (λ section. section.start ≤ range.end) sections.now }
    ensures items { bytes.new.items ≡ data_with_missing bytes.old.items sections.now range payload.now }
    ensures capacity { vec_capacity bytes.old ≤ vec_capacity bytes.new }
{
    fill_gap(bytes, usize::from(range.end));
    let mut from = range.start;
    for section in sections {
        write_part(bytes, range, payload, from, section.start);
        from = from.max(section.end);
    }
    write_part(bytes, range, payload, from, range.end);
}

/// Writes the bytes of a fragment, which fills `range`, at the positions from `from` up to, but not including, `to`. If
/// `to` is not above `from`, it writes nothing.
fn write_part(bytes: &mut Vec<u8>, range: IpFragRange, payload: &[u8], from: u16, to: u16)
    requires len { range.end ≡ range.start + length payload.now }
    requires start { range.start ≤ from }
    requires end { to ≤ range.end }
    requires within { range.end ≤ vec_len bytes.old }
    ensures len { length bytes.new.items ≡ length bytes.old.items }
    ensures items { (position : ℕ) → slice_index bytes.new.items position
        ≡ (if nat_le from position && nat_lt position to then slice_index payload.now (position - range.start)
        else slice_index bytes.old.items position) }
    ensures capacity { vec_capacity bytes.new ≡ vec_capacity bytes.old }
{
    if to <= from {
        return;
    }
    let start = usize::from(range.start);
    let part = &payload[usize::from(from) - start..usize::from(to) - start];
    overwrite(bytes, usize::from(from), part);
}

/// Extends the payload bytes with zeros up to position `start`, if they are shorter.
fn fill_gap(bytes: &mut Vec<u8>, start: usize)
    requires { start ≤ vec_capacity bytes.old }
    ensures items { bytes.new.items ≡ extended bytes.old.items start }
    ensures capacity { vec_capacity bytes.old ≤ vec_capacity bytes.new }
{
    while bytes.len() < start {
        let count = ZEROS.len().min(start - bytes.len());
        bytes.extend_from_slice(&ZEROS[..count]).unwrap();
    }
}

/// Overwrites payload bytes from position `start` on with `part`. If `part` is empty, as it is for fragments that
/// arrive in order, it returns at once and saves the copying call.
fn overwrite(bytes: &mut Vec<u8>, start: usize, part: &[u8])
    requires { start + length part.now ≤ vec_len bytes.old }
    ensures items { bytes.new.items ≡ overwritten bytes.old.items start part.now }
    ensures capacity { vec_capacity bytes.new ≡ vec_capacity bytes.old }
{
    if part.is_empty() {
        return;
    }
    bytes[start..start + part.len()].copy_from_slice(part);
}
