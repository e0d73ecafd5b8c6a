//! Untyped pointer from the object that C holds to its filter.

ghost use Rattle.std.specs.Prelude.{◌≡◌, List, Option, Some, None, is_some, true};
ghost use Rattle.etherparse_c.specs.FilterOwnership.{owns_filter};
ghost use Rattle.packet_filter.specs.Step.{Step};

use crate::raw_box::RawBox;
use packet_filter::Filter;
use std::alloc::Global;
use std::marker::Model;
use std::ptr::null_mut;

/// Untyped pointer to a filter, or null. Dropping it frees nothing.
#[repr(C)]
#[derive(Drop)]
pub struct FilterPointer {
    at: *mut u8,
    alloc: Global,
    pub ghost filter: { Option (List Step) },
}

impl Model for FilterPointer {
    ghost also_owns = { λ it. owns_filter it.filter it.alloc it.at };
}

/// The pointer to a filter may go to another thread between two calls, together with the filter's memory.
unsafe impl Send for FilterPointer {}

impl FilterPointer {
    /// Converts the raw pointer of a boxed filter to an untyped pointer.
    pub(crate) fn of(filter: RawBox<Filter, Global>) -> FilterPointer
        ensures { result.filter ≡ Some filter.value }
    {
        let RawBox { at, alloc } = filter;
        FilterPointer {
            at: at as *mut u8,
            alloc,
        }
    }

    /// Returns a null pointer, for an object whose filter is taken out during a call.
    pub(crate) fn none(alloc: Global) -> FilterPointer
        ensures { result.filter ≡ None }
    {
        FilterPointer {
            at: null_mut(),
            alloc,
        }
    }

    /// Converts the untyped pointer back to the raw pointer of the boxed filter.
    pub(crate) fn into_raw_box(self) -> RawBox<Filter, Global>
        requires { is_some self.filter ≡ true }
        ensures { Some result.value ≡ self.filter }
    {
        let FilterPointer { at, alloc } = self;
        RawBox {
            at: at as *mut Filter,
            alloc,
        }
    }
}
