//! Ordered list of the byte ranges of a payload that fragments have filled, with gaps between the ranges.

ghost use Rattle.std.specs.Prelude.{◌≡◌, ◌<◌, ◌≤◌, ◌&&◌, is_some, length, IsTrue, IsFalse, vec_len, vec_capacity};
ghost use Rattle.std.specs.List.{AllWithin, HoldsAt, list_any, remove_range};
ghost use Rattle.std.specs.List.Sorted.{IsPermutation};
ghost use Rattle.ep_defrag.specs.Ranges.{merges, AreSeparate};
ghost use Rattle.ep_defrag.specs.Buffers.{AreNeighbours, is_gapless, sections_after};
ghost use Rattle.ep_defrag.specs.BoundedOverlaps.{overlap, includes};

use crate::ip_frag_range::IpFragRange;
use std::ops::Range;

/// Returns whether a payload is complete: its end is known, and exactly one range is filled, which starts at 0.
pub(crate) fn is_payload_complete(end: Option<u16>, sections: &[IpFragRange]) -> bool
    ensures { result ≡ (is_some end && is_gapless sections.now) }
{
    end.is_some() && matches!(sections, [section] if section.start == 0)
}

/// Finds the byte ranges in `sections` that overlap or touch a new range, and returns their indices as a range. If
/// there are none, both ends of the returned range are the index at which the new range is to be inserted. There is no
/// search if the new range starts in or after the last range of `sections`, as it does for fragments in order.
pub(crate) fn neighbours(sections: &[IpFragRange], range: IpFragRange) -> Range<usize>
    requires separate { AreSeparate sections.now }
    requires ordered { range.start ≤ range.end }
    ensures near { AreNeighbours range sections.now result.start result.end }
    ensures merging { IsTrue (list_any (merges range) sections.now) → result.start < result.end }
{
    let count = sections.len();
    if count == 0 {
        return 0..0;
    }
    let last = sections[count - 1];
    if last.end < range.start {
        return count..count;
    }
    if last.start <= range.start {
        return count - 1..count;
    }
    let from = sections.partition_point(|section| section.end < range.start);
    let to = find_end_of_neighbours(sections, range, from);
    from..to
}

/// Returns the index after the last range in `sections` that overlaps or touches `range`. The first such range has the
/// index `from`; if there is none, `from` is returned. Up to two such ranges, the usual case, are found without a
/// search.
fn find_end_of_neighbours(sections: &[IpFragRange], range: IpFragRange, from: usize) -> usize
    requires separate { AreSeparate sections.now }
    requires ordered { range.start ≤ range.end }
    requires within { from ≤ length sections.now }
    requires earlier { AllWithin (λ other. other.end < range.start) sections.now 0 from }
    requires rest { AllWithin (λ other. range.start ≤ other.end) sections.now from (length sections.now) }
    ensures near { AreNeighbours range sections.now from result }
{
    if starts_after(sections, range, from) {
        return from;
    }
    if starts_after(sections, range, from + 1) {
        return from + 1;
    }
    if starts_after(sections, range, from + 2) {
        return from + 2;
    }
    sections.partition_point(|section| section.start <= range.end)
}

/// Returns true if `sections` has no range at index `at`, or if the range there starts above the end of `range`.
#[inline]
fn starts_after(sections: &[IpFragRange], range: IpFragRange, at: usize) -> bool
    ensures yes { IsTrue result → at < length sections.now →
        HoldsAt (λ section. range.end < section.start) sections.now at }
    ensures no { IsFalse result → (at < length sections.now)
        × HoldsAt (λ section. section.start ≤ range.end) sections.now at }
{
    at >= sections.len() || range.end < sections[at].start
}

/// Adds a range to `sections`, the byte ranges that fragments filled. The ranges that overlap or touch the new one have
/// the indices `near`; they and the new one are replaced by their union.
pub(crate) fn join(sections: &mut Vec<IpFragRange>, range: IpFragRange, near: Range<usize>)
    requires separate { AreSeparate sections.old.items }
    requires ordered { range.start ≤ range.end }
    requires near { AreNeighbours range sections.old.items near.start near.end }
    requires capacity { near.start ≡ near.end → vec_len sections.old < vec_capacity sections.old }
    ensures items { IsPermutation sections.new.items (sections_after range sections.old.items) }
    ensures separate { AreSeparate sections.new.items }
    ensures capacity { vec_capacity sections.old ≤ vec_capacity sections.new }
{
    if near.is_empty() {
        sections.insert(near.start, range).unwrap();
        return;
    }
    let first = sections[near.start];
    let last = sections[near.end - 1];
    sections[near.start] = range.hull(first).hull(last);
    take_out(sections, near.start + 1, near.end);
}

/// Removes the ranges with the indices from `from` up to, but not including, `to`: mostly none, or one.
fn take_out(sections: &mut Vec<IpFragRange>, from: usize, to: usize)
    requires order { from ≤ to }
    requires within { to ≤ vec_len sections.old }
    ensures items { sections.new.items ≡ remove_range sections.old.items from to }
    ensures capacity { vec_capacity sections.new ≡ vec_capacity sections.old }
{
    if from == to {
        return;
    }
    // For one range `remove` is faster than `copy_within`. (`drain` is, too, but needs 4 KB of stack.)
    if to - from == 1 {
        sections.remove(from);
        return;
    }
    let count = sections.len();
    sections.copy_within(to..count, from);
    sections.truncate(from + (count - to));
}

/// Returns whether a range has a byte at a position of one of the `sections`.
pub(crate) fn overlaps(sections: &[IpFragRange], range: IpFragRange) -> bool
    ensures { result ≡ list_any (overlap range) sections.now }
{
    sections.iter().any(|section| range.overlaps(*section))
}

/// Returns whether one of the `sections` has each position of a range.
pub(crate) fn includes(sections: &[IpFragRange], range: IpFragRange) -> bool
    ensures { result ≡ list_any (λ section. includes section range) sections.now }
{
    sections.iter().any(|section| section.includes(range))
}
