//! Variable of C that receives the address of a filter.

ghost use Rattle.std.specs.Prelude.{◌≡◌, Option, Some, is_some, true};
ghost use Rattle.etherparse_c.specs.declared.held_filter.HeldFilter.{HeldFilter};
ghost use Rattle.etherparse_c.specs.HeldFilterOwnership.{owns_held_filter};

use crate::held_filter::HeldFilter;
use crate::raw_box::RawBox;
use std::alloc::Global;
use std::marker::Model;

/// Variable of C with the address of a filter, or with none yet. Dropping it does not free the filter.
#[repr(C)]
#[derive(Drop)]
pub struct FilterHandle {
    at: *mut u8,
    alloc: Global,
    pub ghost filter: { Option HeldFilter },
}

impl Model for FilterHandle {
    ghost also_owns = { λ it. owns_held_filter it.filter it.alloc it.at };
}

/// The address of a filter may go to another thread between two calls, together with the filter's memory.
unsafe impl Send for FilterHandle {}

impl FilterHandle {
    /// Converts the raw pointer of a boxed filter to the address that C gets.
    pub(crate) fn of(filter: RawBox<HeldFilter, Global>) -> FilterHandle
        ensures { result.filter ≡ Some filter.value }
    {
        let RawBox { at, alloc } = filter;
        FilterHandle {
            at: at as *mut u8,
            alloc,
        }
    }

    /// Converts the address that C holds back to the raw pointer of the boxed filter.
    pub(crate) fn into_raw_box(self) -> RawBox<HeldFilter, Global>
        requires { is_some self.filter ≡ true }
        ensures { Some result.value ≡ self.filter }
    {
        let FilterHandle { at, alloc } = self;
        RawBox {
            at: at as *mut HeldFilter,
            alloc,
        }
    }
}
