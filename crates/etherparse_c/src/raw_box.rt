//! Raw pointer of a box, with the allocator that the box needs to free it.

ghost use Rattle.std.specs.Prelude.{◌≡◌};
ghost use Rattle.std.specs.Box.Ownership.{box_owns};

use std::alloc::Allocator;
use std::marker::Model;

/// Raw pointer of a `Box`, with its allocator, so that the box can be restored and freed.
pub(crate) struct RawBox<T, A: Allocator> {
    pub(crate) at: *mut T,
    pub(crate) alloc: A,
    pub(crate) ghost value: { T },
}

impl<T, A: Allocator> Model for RawBox<T, A> {
    ghost also_owns = { λ l. box_owns (A.dealloc_token l.alloc) T.row l.at l.value };
}

impl<T: Drop, A: Allocator> RawBox<T, A> {
    /// Converts a box to its raw pointer and allocator, without freeing the value.
    pub(crate) fn of(value: Box<T, A>) -> RawBox<T, A>
        ensures { result.value ≡ value.value }
    {
        let (at, alloc) = Box::into_raw_with_allocator(value);
        RawBox { at, alloc }
    }

    /// Converts the raw pointer back to the box that owns the value.
    pub(crate) fn into_box(self) -> Box<T, A>
        ensures { result.value ≡ self.value }
    {
        let RawBox { at, alloc } = self;
        unsafe { Box::from_raw(alloc, at) }
    }
}
