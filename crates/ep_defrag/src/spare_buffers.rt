//! Memory of completed or dropped datagrams that a reassembly pool keeps for new ones.

ghost use Rattle.std.specs.Prelude.{◌≡◌, ◌⊎◌, ◌+◌, ◌<◌, ◌≤◌, [], ◌∷◌, ◌++◌, None, OnOk, OnErr, vec_len, vec_capacity};
ghost use Rattle.ep_defrag.specs.Buffers.{HoldsFragments, ip_number_of, data_of, sections_of, known_end_of};

use crate::ip_defrag_buf::IpDefragBuf;
use crate::ip_frag_range::IpFragRange;
use ep_base::IpNumber;
use std::alloc::{AllocError, Global};

/// Minimum capacity, in vectors, of a list of kept vectors when it is allocated.
const FEWEST_PLACES: usize = 4;

/// Vectors of completed or dropped datagrams, kept so that their memory is used again. Their contents have no meaning.
///
/// Only [`reserve`](SpareBuffers::reserve) allocates. A vector that is returned while its list is full is freed.
#[derive(Drop)]
pub(crate) struct SpareBuffers {
    alloc: Global,
    /// Vectors whose memory new datagrams use for the bytes of their payloads.
    bytes: Vec<Vec<u8>>,
    /// Vectors whose memory new datagrams use for the lists of filled byte ranges.
    sections: Vec<Vec<IpFragRange>>,
}

impl SpareBuffers {
    pub(crate) fn new(alloc: Global) -> SpareBuffers {
        SpareBuffers {
            alloc,
            bytes: Vec::new(alloc),
            sections: Vec::new(alloc),
        }
    }

    /// Reserves capacity so that each of the two lists can keep `count` vectors, including those that it already keeps.
    pub(crate) fn reserve(&mut self, count: usize) -> Result<(), AllocError>
        ensures bytes { self.new.bytes.items ≡ self.old.bytes.items }
        ensures sections { self.new.sections.items ≡ self.old.sections.items }
        ensures reserved { OnOk result
            ((count ≤ vec_capacity self.new.bytes) × (count ≤ vec_capacity self.new.sections)) }
        ensures full { OnErr result
            ((vec_capacity self.old.bytes < count) ⊎ (vec_capacity self.old.sections < count)) }
    {
        reserve_capacity(self.alloc, &mut self.bytes, count)?;
        reserve_capacity(self.alloc, &mut self.sections, count)
    }

    /// Returns an empty reassembly buffer for a payload of the protocol `ip_number`. The buffer uses kept vectors, if
    /// there are any.
    pub(crate) fn take(&mut self, ip_number: IpNumber) -> IpDefragBuf
        ensures holds { HoldsFragments result [] }
        ensures ip_number { ip_number_of result ≡ ip_number }
        ensures data { data_of result ≡ [] }
        ensures sections { sections_of result ≡ [] }
        ensures end { known_end_of result ≡ None }
    {
        let bytes = self.bytes.pop().unwrap_or(Vec::new(self.alloc));
        let sections = self.sections.pop().unwrap_or(Vec::new(self.alloc));
        IpDefragBuf::new(ip_number, bytes, sections)
    }

    /// Keeps both vectors of a reassembly buffer (payload bytes and filled ranges) for later use. A vector whose list
    /// is full is freed.
    pub(crate) fn keep(&mut self, buffer: IpDefragBuf)
        ensures bytes { vec_len self.old.bytes < vec_capacity self.old.bytes →
            vec_len self.new.bytes ≡ vec_len self.old.bytes + 1 }
        ensures sections { vec_len self.old.sections < vec_capacity self.old.sections →
            vec_len self.new.sections ≡ vec_len self.old.sections + 1 }
    {
        let (bytes, sections) = buffer.take_bufs();
        self.keep_bytes(bytes);
        self.keep_sections(sections);
    }

    pub(crate) fn keep_bytes(&mut self, bytes: Vec<u8>)
        ensures kept { vec_len self.old.bytes < vec_capacity self.old.bytes →
            self.new.bytes.items ≡ self.old.bytes.items ++ bytes ∷ [] }
        ensures sections { self.new.sections ≡ self.old.sections }
    {
        if self.bytes.len() < self.bytes.capacity() {
            let _ = self.bytes.push(bytes);
        }
    }

    pub(crate) fn keep_sections(&mut self, sections: Vec<IpFragRange>)
        ensures kept { vec_len self.old.sections < vec_capacity self.old.sections →
            self.new.sections.items ≡ self.old.sections.items ++ sections ∷ [] }
        ensures bytes { self.new.bytes ≡ self.old.bytes }
    {
        if self.sections.len() < self.sections.capacity() {
            let _ = self.sections.push(sections);
        }
    }
}

/// Reserves capacity for `count` vectors in a list of kept vectors. A list that is empty and too small is allocated
/// anew, since growing it would copy its unused places and so touch memory that was never used.
fn reserve_capacity<T: Drop>(
    alloc: Global,
    list: &mut Vec<Vec<T>>,
    count: usize,
) -> Result<(), AllocError>
    ensures items { list.new.items ≡ list.old.items }
    ensures reserved { OnOk result (count ≤ vec_capacity list.new) }
    ensures full { OnErr result (vec_capacity list.old < count) }
{
    let old_capacity = list.capacity();
    if old_capacity < count && list.is_empty() {
        let places = count.max(old_capacity.saturating_mul(2)).max(FEWEST_PLACES);
        *list = Vec::with_capacity(alloc, places)?;
        return Ok(());
    }
    list.reserve(count.saturating_sub(list.len()))
}
