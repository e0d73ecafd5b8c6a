//! Untyped pointer from a pool to its state (streams and waiting payload).

ghost use Rattle.std.specs.Prelude.{◌≡◌, Option, Some, None, is_some, true};
ghost use Rattle.etherparse_c.specs.declared.state.State.{State};
ghost use Rattle.etherparse_c.specs.StateOwnership.{owns_state};

use crate::raw_box::RawBox;
use crate::state::State;
use std::alloc::Global;
use std::marker::Model;
use std::ptr::null_mut;

/// Untyped pointer from a reassembly pool to its state, or null. Dropping it frees nothing.
#[repr(C)]
#[derive(Drop)]
pub struct StatePointer {
    at: *mut u8,
    alloc: Global,
    pub ghost state: { Option State },
}

impl Model for StatePointer {
    ghost also_owns = { λ it. owns_state it.state it.alloc it.at };
}

/// The pointer to a pool's state may go to another thread between two calls, together with the state's memory.
unsafe impl Send for StatePointer {}

impl StatePointer {
    /// Converts the raw pointer of a pool's boxed state to an untyped pointer.
    pub(crate) fn of(state: RawBox<State, Global>) -> StatePointer
        ensures { result.state ≡ Some state.value }
    {
        let RawBox { at, alloc } = state;
        StatePointer {
            at: at as *mut u8,
            alloc,
        }
    }

    /// Returns a null pointer, for a pool whose state is taken out during a call.
    pub(crate) fn none(alloc: Global) -> StatePointer
        ensures { result.state ≡ None }
    {
        StatePointer {
            at: null_mut(),
            alloc,
        }
    }

    /// Converts the untyped pointer back to the raw pointer of the pool's boxed state.
    pub(crate) fn into_raw_box(self) -> RawBox<State, Global>
        requires { is_some self.state ≡ true }
        ensures { Some result.value ≡ self.state }
    {
        let StatePointer { at, alloc } = self;
        RawBox {
            at: at as *mut State,
            alloc,
        }
    }
}
