//! The buffer that reassembles the payload of one fragmented IP datagram.

ghost use Rattle.std.specs.Prelude.{◌≡◌, ◌≢◌, ◌↔◌, ◌⊎◌, ℕ, ◌+◌, ◌*◌, ◌^◌, ◌<◌, ◌≤◌, Bool, List, [], ◌∷◌, ◌++◌, length, if◌then◌else◌, ◌&&◌, is_some, IsTrue, IsFalse, IfOk, IfErr, OnOk, OnErr, IsOk, MatchResult, MatchOption, None, Some, Err, vec_len, vec_capacity};
ghost use Rattle.std.specs.List.{list_any, filter, Any};
ghost use Rattle.std.specs.List.Sorted.{IsPermutation};
ghost use Rattle.ep_defrag.specs.Ranges.{merges, SharePoint, AreSeparate};
ghost use Rattle.ep_defrag.specs.IpFragments.{IpFragment, fragment_with, fragment_end, range_of, IsComplete};
ghost use Rattle.ep_defrag.specs.FragmentRefusals.{Fits, RefusesFragment, MayNeedMemory, refusal_at, is_allocation_failure};

use crate::MAX_IP_DEFRAG_LEN_U16;
use crate::ip_defrag_bytes::{reserve_to, write_fragment, write_missing};
use crate::ip_defrag_error::IpDefragError;
use crate::ip_defrag_sections::{includes, is_payload_complete, join, neighbours, overlaps};
use crate::ip_frag_range::IpFragRange;
use ep_base::{IpFragOffset, IpNumber};
use std::alloc::AllocError;
use std::ops::Range;

/// Reassembles the payload of one IP datagram from its fragments, which may come in any order.
#[derive(Debug, PartialEq, Eq, PartialOrd, Ord, Hash, Drop)]
pub struct IpDefragBuf {
    ip_number: IpNumber,
    /// Payload bytes reassembled so far, from position 0 to the greatest end of the accepted fragments. Missing bytes
    /// are 0.
    bytes: Vec<u8>,
    /// Byte ranges of the payload that accepted fragments fill, in ascending order and with gaps between them.
    sections: Vec<IpFragRange>,
    /// Length of the whole payload in bytes, or `None` until a final fragment (without the more-fragments flag) was
    /// accepted.
    end: Option<u16>,
    ghost in_order: { AreSeparate sections.items },
    ghost short: { vec_len bytes ≤ 65535 },
}

impl IpDefragBuf {
    ghost use Rattle.ep_defrag.specs.Buffers.{ip_number_of, data_of, sections_of, known_end_of, IsUnchanged, HoldsFragments, AreNeighbours, data_after, data_with, end_after, sections_after, is_gapless};
    ghost use Rattle.ep_defrag.specs.BoundedOverlaps.{contradicts, yielding, data_with_missing};
    ghost use Rattle.ep_defrag.specs.Capacities.{data_capacity_of, sections_capacity_of, room_of, KeepsCapacity, SameCapacity, LacksCapacity};

    /// Returns an empty reassembly buffer for a payload of the protocol `ip_number`. It uses the memory of the two
    /// vectors that are passed, and discards their contents.
    pub fn new(
        ip_number: IpNumber,
        mut bytes: Vec<u8>,
        mut sections: Vec<IpFragRange>,
    ) -> IpDefragBuf
        ensures holds { HoldsFragments result [] }
        ensures ip_number { ip_number_of result ≡ ip_number }
        ensures data { data_of result ≡ [] }
        ensures sections { sections_of result ≡ [] }
        ensures end { known_end_of result ≡ None }
        ensures data_capacity { data_capacity_of result ≡ vec_capacity bytes }
        ensures sections_capacity { sections_capacity_of result ≡ vec_capacity sections }
    {
        bytes.clear();
        sections.clear();
        IpDefragBuf {
            ip_number,
            bytes,
            sections,
            end: None,
        }
    }

    /// IP protocol number of the payload that is reassembled, as given when the buffer was created.
    #[inline]
    pub fn ip_number(&self) -> IpNumber
        ensures { result ≡ ip_number_of self.now }
    {
        self.ip_number
    }

    /// Payload bytes reassembled so far, from position 0 to the greatest end of the accepted fragments. Bytes that are
    /// still missing are 0.
    #[inline]
    pub fn data(&self) -> &Vec<u8>
        ensures { result.now.items ≡ data_of self.now }
    {
        &self.bytes
    }

    /// Byte ranges of the payload that accepted fragments fill, in ascending order. Ranges that overlap or touch are
    /// merged, so each range starts above the end of the range before it.
    #[inline]
    pub fn sections(&self) -> &Vec<IpFragRange>
        ensures shown { result.now.items ≡ sections_of self.now }
        ensures separate { AreSeparate result.now.items }
    {
        &self.sections
    }

    /// Length of the whole payload in bytes, or `None` until a final fragment (without the more-fragments flag) was
    /// accepted.
    #[inline]
    pub fn end(&self) -> Option<u16>
        ensures { result ≡ known_end_of self.now }
    {
        self.end
    }

    /// Returns whether the payload is complete: a final fragment was accepted, and no byte before its end is missing.
    pub fn is_complete(&self) -> bool
        ensures complete { (accepted : List IpFragment) → HoldsFragments self.now accepted →
            IsTrue result ↔ IsComplete accepted }
        ensures shown { result ≡ (is_some (known_end_of self.now) && is_gapless (sections_of self.now)) }
    {
        is_payload_complete(self.end, &self.sections)
    }

    /// Returns the reassembled bytes and the list of the byte ranges that fragments filled, and consumes the buffer.
    /// Both vectors keep their capacity.
    pub fn take_bufs(self) -> (Vec<u8>, Vec<IpFragRange>)
        ensures data { result.0.items ≡ data_of self }
        ensures sections { result.1.items ≡ sections_of self }
        ensures data_capacity { vec_capacity result.0 ≡ data_capacity_of self }
        ensures sections_capacity { vec_capacity result.1 ≡ sections_capacity_of self }
    {
        (self.bytes, self.sections)
    }

    /// Returns a copy of the reassembly buffer: its bytes, the byte ranges that fragments filled, the end of the
    /// payload and the protocol number are equal. It allocates.
    pub fn clone(&self) -> Result<IpDefragBuf, AllocError>
        ensures same { IfOk result (λ copy. IsUnchanged self.now copy) }
        ensures holds { IfOk result (λ copy. (accepted : List IpFragment) →
            HoldsFragments self.now accepted → HoldsFragments copy accepted) }
    {
        Ok(IpDefragBuf {
            ip_number: self.ip_number,
            bytes: self.bytes.clone()?,
            sections: self.sections.clone()?,
            end: self.end,
        })
    }

    /// Adds a fragment, given by its offset, its more-fragments flag and its bytes. Where fragments overlap, the bytes
    /// of the one added last are kept. A final fragment (`more_fragments` is false) sets the end of the payload. This
    /// end is never below the end of an accepted fragment, so no byte is discarded. Whatever fragments were accepted,
    /// one more can complete the payload (law `one_fragment_completes`).
    ///
    /// # Errors
    ///
    /// The conditions are checked in this order, and the first that holds is returned. An error leaves the buffer
    /// unchanged.
    ///
    /// - `SegmentTooBig`: the end of the fragment, its offset in bytes plus its length, is above 65535.
    /// - `UnalignedFragmentPayloadLen`: more fragments follow, and the length of this fragment is not a multiple of 8.
    /// - `ConflictingEnd`: the end of the payload is known, and the fragment ends after it, or is final and ends
    ///   elsewhere. Or the end is not known, and the fragment is final and ends below the greatest end of the accepted
    ///   fragments.
    /// - `AllocationFailure`: an allocation for the fragment fails.
    pub fn add(
        &mut self,
        offset: IpFragOffset,
        more_fragments: bool,
        payload: &[u8],
    ) -> Result<(), IpDefragError>
        // For every list of fragments that the buffer holds: a fragment that does not fit after them is rejected. One
        // that fits is accepted, unless an allocation fails, which is possible only if the fragment is not in place.
        ensures fits { OnOk result ((accepted : List IpFragment) → HoldsFragments self.old accepted →
            let fragment = fragment_with offset more_fragments payload.now in Fits accepted fragment) }
        ensures holds { OnOk result ((accepted : List IpFragment) → HoldsFragments self.old accepted →
            let fragment = fragment_with offset more_fragments payload.now in
            HoldsFragments self.new (accepted ++ fragment ∷ [])) }
        ensures refused { IfErr result (λ error. (accepted : List IpFragment) → HoldsFragments self.old accepted →
            let fragment = fragment_with offset more_fragments payload.now in
            RefusesFragment accepted fragment error
            ⊎ (MayNeedMemory accepted fragment × (error ≡ IpDefragError.AllocationFailure (fragment_end fragment)))) }
        ensures keeps { OnErr result ((accepted : List IpFragment) →
            HoldsFragments self.old accepted → HoldsFragments self.new accepted) }

        // An error changes nothing, and is no allocation failure if nothing has to grow.
        ensures err { OnErr result (IsUnchanged self.old self.new) }
        ensures in_place { let fragment = fragment_with offset more_fragments payload.now in
            fragment_end fragment ≤ length (data_of self.old)
            → Any (SharePoint (range_of fragment)) (sections_of self.old)
            → (len : ℕ) → result ≢ Err (IpDefragError.AllocationFailure len) }

        // The answer and the new contents, expressed by the known end, the data and the sections.
        ensures answer { let fragment = fragment_with offset more_fragments payload.now in
            MatchResult result
            (λ _. refusal_at (known_end_of self.old) (length (data_of self.old)) fragment ≡ None)
            (λ error. (refusal_at (known_end_of self.old) (length (data_of self.old)) fragment ≡ Some error)
            ⊎ ((refusal_at (known_end_of self.old) (length (data_of self.old)) fragment ≡ None)
            × (error ≡ IpDefragError.AllocationFailure (fragment_end fragment)))) }
        ensures data { let fragment = fragment_with offset more_fragments payload.now in
            OnOk result (data_of self.new ≡ data_after (data_of self.old) fragment) }
        ensures sections { let fragment = fragment_with offset more_fragments payload.now in
            OnOk result
            (IsPermutation (sections_of self.new) (sections_after (range_of fragment) (sections_of self.old))) }
        ensures end { let fragment = fragment_with offset more_fragments payload.now in
            OnOk result (known_end_of self.new ≡ end_after (known_end_of self.old) fragment) }
        ensures ip_number { ip_number_of self.new ≡ ip_number_of self.old }

        // In all cases no capacity becomes smaller. An allocation fails only if the capacity is too small.
        ensures keeps_capacity { KeepsCapacity self.old self.new }
        ensures err_capacity { OnErr result (SameCapacity self.old self.new) }
        ensures lacks_capacity { let fragment = fragment_with offset more_fragments payload.now in
            IfErr result (λ error. IsTrue (is_allocation_failure error) → LacksCapacity self.old fragment) }
    {
        let range = checked_range(self.end, self.reach(), offset, more_fragments, payload)?;
        if self.accept(range, more_fragments, payload).is_err() {
            return Err(IpDefragError::AllocationFailure {
                len: usize::from(range.end),
            });
        }
        Ok(())
    }

    /// Adds a fragment as [`add`](IpDefragBuf::add) does, but where fragments overlap, the bytes of the one added first
    /// are kept.
    ///
    /// # Errors
    ///
    /// Those of [`add`](IpDefragBuf::add).
    pub(crate) fn add_missing(
        &mut self,
        offset: IpFragOffset,
        more_fragments: bool,
        payload: &[u8],
    ) -> Result<(), IpDefragError>
        ensures fits { OnOk result ((accepted : List IpFragment) → HoldsFragments self.old accepted →
            let fragment = fragment_with offset more_fragments payload.now in Fits accepted fragment) }
        ensures holds { OnOk result ((accepted : List IpFragment) → HoldsFragments self.old accepted →
            let fragment = fragment_with offset more_fragments payload.now in
            HoldsFragments self.new (accepted ++ yielding accepted fragment ∷ [])) }
        ensures refused { IfErr result (λ error. (accepted : List IpFragment) → HoldsFragments self.old accepted →
            let fragment = fragment_with offset more_fragments payload.now in
            RefusesFragment accepted fragment error
            ⊎ (MayNeedMemory accepted fragment × (error ≡ IpDefragError.AllocationFailure (fragment_end fragment)))) }
        ensures err { OnErr result (IsUnchanged self.old self.new) }
        ensures ip_number { ip_number_of self.new ≡ ip_number_of self.old }
        ensures keeps_capacity { KeepsCapacity self.old self.new }
        ensures err_capacity { OnErr result (SameCapacity self.old self.new) }
        ensures lacks_capacity { let fragment = fragment_with offset more_fragments payload.now in
            IfErr result (λ error. IsTrue (is_allocation_failure error) → LacksCapacity self.old fragment) }
    {
        let filled = checked_range(self.end, self.reach(), offset, more_fragments, payload)?;
        if self
            .accept_missing(filled, more_fragments, payload)
            .is_err()
        {
            return Err(IpDefragError::AllocationFailure {
                len: usize::from(filled.end),
            });
        }
        Ok(())
    }

    /// Returns the error that [`add`](IpDefragBuf::add) returns for a fragment if no allocation fails, and changes
    /// nothing.
    pub(crate) fn check(
        &self,
        offset: IpFragOffset,
        more_fragments: bool,
        payload: &[u8],
    ) -> Result<(), IpDefragError>
        ensures { (accepted : List IpFragment) → HoldsFragments self.now accepted →
            let fragment = fragment_with offset more_fragments payload.now in
            MatchResult result (λ _. Fits accepted fragment) (λ error. RefusesFragment accepted fragment error) }
    {
        checked_range(self.end, self.reach(), offset, more_fragments, payload)?;
        Ok(())
    }

    /// Returns whether a fragment overlaps the accepted ones and does not only repeat their bytes. Its end is at most
    /// 65535, as [`check`](IpDefragBuf::check) checks. There is no search if the fragment starts at or after the
    /// greatest end of the accepted ones, as it does for fragments in order.
    pub(crate) fn contradicts(&self, offset: IpFragOffset, payload: &[u8]) -> bool
        requires { 8 * offset + length payload.now ≤ 65535 }
        ensures { (accepted : List IpFragment) (more : Bool) → HoldsFragments self.now accepted →
            result ≡ contradicts accepted (fragment_with offset more payload.now) }
    {
        let start = offset.byte_offset();
        if start >= self.reach() {
            return false;
        }
        let range = IpFragRange {
            start,
            end: start + payload.len() as u16,
        };
        let near = self.near(range);
        if !overlaps(near, range) {
            return false;
        }
        if !includes(near, range) {
            return true;
        }
        match self
            .bytes
            .get(usize::from(range.start)..usize::from(range.end))
        {
            Some(came) => came != payload,
            None => true,
        }
    }

    /// Byte ranges of accepted fragments that overlap or touch a range.
    fn near(&self, range: IpFragRange) -> &[IpFragRange]
        requires { range.start ≤ range.end }
        ensures { result.now ≡ filter (merges range) (sections_of self.now) }
    {
        let near = neighbours(&self.sections, range);
        &self.sections[near.start..near.end]
    }

    /// Memory of the two vectors in bytes, by their capacity: 1 for each payload byte, and 4 for each byte range.
    #[inline]
    pub fn room(&self) -> u128
        ensures shown { result ≡ room_of self.now }
        ensures fits { result < 2 ^ 67 }
    {
        self.bytes.capacity() as u128 + 4 * self.sections.capacity() as u128
    }

    /// Greatest end of the fragments accepted so far, in bytes from the start of the payload; 0 without fragments. A
    /// fragment ends at its offset in bytes plus its length.
    #[inline]
    fn reach(&self) -> u16
        ensures { result ≡ length (data_of self.now) }
    {
        self.bytes.len() as u16
    }

    /// Adds a fragment that [`checked_range`] accepted, and whose bytes fill `range`: stores the bytes, merges `range`
    /// into `sections` and, if no more fragments follow, sets the end of the payload. If an allocation fails, the
    /// content of the buffer stays unchanged.
    fn accept(
        &mut self,
        range: IpFragRange,
        more_fragments: bool,
        payload: &[u8],
    ) -> Result<(), AllocError>
        requires { range.end ≡ range.start + length payload.now }
        ensures data { OnOk result (data_of self.new ≡ data_with (data_of self.old) range payload.now) }
        ensures sections { OnOk result
            (IsPermutation (sections_of self.new) (sections_after range (sections_of self.old))) }
        ensures end { OnOk result
            (known_end_of self.new ≡ (if more_fragments then known_end_of self.old else Some range.end)) }
        ensures ip_number { ip_number_of self.new ≡ ip_number_of self.old }
        ensures err { OnErr result (IsUnchanged self.old self.new) }
        ensures keeps_capacity { KeepsCapacity self.old self.new }
        ensures err_capacity { OnErr result (SameCapacity self.old self.new) }
        ensures in_place { range.end ≤ length (data_of self.old) →
            IsTrue (list_any (merges range) (sections_of self.old)) → IsOk result }
        ensures lacks_capacity { OnErr result ((data_capacity_of self.old < range.end)
            ⊎ ((sections_capacity_of self.old ≤ length (sections_of self.old))
            × IsFalse (list_any (merges range) (sections_of self.old)))) }
    {
        let near = self.reserve(range)?;
        write_fragment(&mut self.bytes, range, payload);
        self.merge(range, more_fragments, near);
        Ok(())
    }

    /// Adds a fragment as [`accept`](IpDefragBuf::accept) does, but keeps the bytes of earlier fragments.
    fn accept_missing(
        &mut self,
        range: IpFragRange,
        more_fragments: bool,
        payload: &[u8],
    ) -> Result<(), AllocError>
        requires { range.end ≡ range.start + length payload.now }
        ensures data { OnOk result
            (data_of self.new ≡ data_with_missing (data_of self.old) (sections_of self.old) range payload.now) }
        ensures sections { OnOk result
            (IsPermutation (sections_of self.new) (sections_after range (sections_of self.old))) }
        ensures end { OnOk result
            (known_end_of self.new ≡ (if more_fragments then known_end_of self.old else Some range.end)) }
        ensures ip_number { ip_number_of self.new ≡ ip_number_of self.old }
        ensures err { OnErr result (IsUnchanged self.old self.new) }
        ensures keeps_capacity { KeepsCapacity self.old self.new }
        ensures err_capacity { OnErr result (SameCapacity self.old self.new) }
        ensures in_place { range.end ≤ length (data_of self.old) →
            IsTrue (list_any (merges range) (sections_of self.old)) → IsOk result }
        ensures lacks_capacity { OnErr result ((data_capacity_of self.old < range.end)
            ⊎ ((sections_capacity_of self.old ≤ length (sections_of self.old))
            × IsFalse (list_any (merges range) (sections_of self.old)))) }
    {
        let near = self.reserve(range)?;
        let kept = &self.sections[near.start..near.end];
        write_missing(&mut self.bytes, kept, range, payload);
        self.merge(range, more_fragments, near);
        Ok(())
    }

    /// Reserves capacity for a fragment that fills `range`: for its bytes, and for a section if it neither overlaps nor
    /// touches any. Returns the indices of the sections that it overlaps or touches. If an allocation fails, both
    /// capacities are unchanged: the list of sections is copied to a new vector, which is dropped then.
    fn reserve(&mut self, range: IpFragRange) -> Result<Range<usize>, AllocError>
        requires { range.start ≤ range.end }
        ensures near { IfOk result (λ near. AreNeighbours range (sections_of self.new) near.start near.end) }
        ensures data { OnOk result (range.end ≤ data_capacity_of self.new) }
        ensures place { IfOk result (λ near. near.start ≡ near.end →
            length (sections_of self.new) < sections_capacity_of self.new) }
        ensures same { IsUnchanged self.old self.new }
        ensures keeps_capacity { KeepsCapacity self.old self.new }
        ensures err_capacity { OnErr result (SameCapacity self.old self.new) }
        ensures in_place { range.end ≤ length (data_of self.old) →
            IsTrue (list_any (merges range) (sections_of self.old)) → IsOk result }
        ensures lacks_capacity { OnErr result ((data_capacity_of self.old < range.end)
            ⊎ ((sections_capacity_of self.old ≤ length (sections_of self.old))
            × IsFalse (list_any (merges range) (sections_of self.old)))) }
    {
        let near = neighbours(&self.sections, range);
        if !near.is_empty() || self.sections.len() < self.sections.capacity() {
            reserve_to(&mut self.bytes, range.end)?;
            return Ok(near);
        }
        let grown = grown_sections(&self.sections)?;
        reserve_to(&mut self.bytes, range.end)?;
        self.sections = grown;
        Ok(near)
    }

    /// Merges the range of a fragment into the sections, and sets the end of the payload if no more fragments follow.
    fn merge(&mut self, range: IpFragRange, more_fragments: bool, near: Range<usize>)
        requires ordered { range.start ≤ range.end }
        requires near { AreNeighbours range (sections_of self.old) near.start near.end }
        requires place { near.start ≡ near.end → length (sections_of self.old) < sections_capacity_of self.old }
        ensures sections { IsPermutation (sections_of self.new) (sections_after range (sections_of self.old)) }
        ensures end { known_end_of self.new ≡ (if more_fragments then known_end_of self.old else Some range.end) }
        ensures data { data_of self.new ≡ data_of self.old }
        ensures ip_number { ip_number_of self.new ≡ ip_number_of self.old }
        ensures keeps_capacity { KeepsCapacity self.old self.new }
    {
        join(&mut self.sections, range, near);
        if !more_fragments {
            self.end = Some(range.end);
        }
    }
}

/// Returns the byte range of a fragment in the payload. Returns an error if the fragment ends above 65535, if more
/// fragments follow and its length is not a multiple of 8, or if its end conflicts with earlier fragments.
///
/// If the end of the payload is known (`known_end`), a fragment that ends after it conflicts, and so does a final
/// fragment that ends elsewhere. If it is not known, a final fragment conflicts if it ends below `reach`, the greatest
/// end of the accepted fragments.
fn checked_range(
    known_end: Option<u16>,
    reach: u16,
    offset: IpFragOffset,
    more_fragments: bool,
    payload: &[u8],
) -> Result<IpFragRange, IpDefragError>
    ensures ok { IfOk result (λ range. range ≡ range_of (fragment_with offset more_fragments payload.now)) }
    ensures short { IfOk result (λ range. range.end ≡ range.start + length payload.now) }
    ensures answer { MatchResult result
        (λ _. refusal_at known_end reach (fragment_with offset more_fragments payload.now) ≡ None)
        (λ error. refusal_at known_end reach (fragment_with offset more_fragments payload.now) ≡ Some error) }
{
    let start = offset.byte_offset();
    let payload_len = payload.len();
    let Some(end) = end_within_limit(start, payload_len) else {
        return Err(IpDefragError::SegmentTooBig {
            offset,
            payload_len,
            max: MAX_IP_DEFRAG_LEN_U16,
        });
    };
    if more_fragments && payload_len % 8 != 0 {
        return Err(IpDefragError::UnalignedFragmentPayloadLen {
            offset,
            payload_len,
        });
    }
    let conflicts = match known_end {
        Some(known_end) => known_end < end || (!more_fragments && end != known_end),
        None => !more_fragments && end < reach,
    };
    if conflicts {
        return Err(IpDefragError::ConflictingEnd {
            previous_end: known_end.unwrap_or(reach),
            conflicting_end: end,
        });
    }
    Ok(IpFragRange { start, end })
}

/// Returns a copy of a list of sections with more capacity: twice that of the list, and at least 4.
fn grown_sections(sections: &Vec<IpFragRange>) -> Result<Vec<IpFragRange>, AllocError>
    ensures items { IfOk result (λ grown. grown.items ≡ sections.now.items) }
    ensures capacity { IfOk result (λ grown. vec_capacity sections.now < vec_capacity grown) }
{
    let capacity = sections.capacity().saturating_mul(2).max(4);
    let mut grown = Vec::with_capacity(*sections.allocator(), capacity)?;
    grown.extend_from_slice(sections)?;
    Ok(grown)
}

/// Returns the position after the last byte of a fragment, or `None` if this position is above 65535.
fn end_within_limit(start: u16, payload_len: usize) -> Option<u16>
    ensures { MatchOption result (65535 < start + payload_len) (λ end. (end ≡ start + payload_len) × (end ≤ 65535)) }
{
    start.checked_add(u16::try_from(payload_len).ok()?)
}
