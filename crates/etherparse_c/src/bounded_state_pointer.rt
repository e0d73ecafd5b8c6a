//! Untyped pointer from a bounded reassembly pool to its state (streams and waiting payload).

ghost use Rattle.std.specs.Prelude.{◌≡◌, Option, Some, None, is_some, true};
ghost use Rattle.etherparse_c.specs.declared.bounded_state.BoundedState.{BoundedState};
ghost use Rattle.etherparse_c.specs.BoundedStateOwnership.{owns_bounded_state};

use crate::bounded_state::BoundedState;
use crate::raw_box::RawBox;
use std::alloc::Global;
use std::marker::Model;
use std::ptr::null_mut;

/// Untyped pointer from a bounded reassembly pool to its state, or null. Dropping it frees nothing.
#[repr(C)]
#[derive(Drop)]
pub struct BoundedStatePointer {
    at: *mut u8,
    alloc: Global,
    pub ghost state: { Option BoundedState },
}

impl Model for BoundedStatePointer {
    ghost also_owns = { λ it. owns_bounded_state it.state it.alloc it.at };
}

/// The pointer to the state of a bounded pool may go to another thread between two calls, together with the state's
/// memory.
unsafe impl Send for BoundedStatePointer {}

impl BoundedStatePointer {
    /// Converts the raw pointer of a bounded pool's boxed state to an untyped pointer.
    pub(crate) fn of(state: RawBox<BoundedState, Global>) -> BoundedStatePointer
        ensures { result.state ≡ Some state.value }
    {
        let RawBox { at, alloc } = state;
        BoundedStatePointer {
            at: at as *mut u8,
            alloc,
        }
    }

    /// Returns a null pointer, for a bounded pool whose state is taken out during a call.
    pub(crate) fn none(alloc: Global) -> BoundedStatePointer
        ensures { result.state ≡ None }
    {
        BoundedStatePointer {
            at: null_mut(),
            alloc,
        }
    }

    /// Converts the untyped pointer back to the raw pointer of the bounded pool's boxed state.
    pub(crate) fn into_raw_box(self) -> RawBox<BoundedState, Global>
        requires { is_some self.state ≡ true }
        ensures { Some result.value ≡ self.state }
    {
        let BoundedStatePointer { at, alloc } = self;
        RawBox {
            at: at as *mut BoundedState,
            alloc,
        }
    }
}
