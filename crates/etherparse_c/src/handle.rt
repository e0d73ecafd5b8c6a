//! Variable of C that receives the address of a reassembly pool.

ghost use Rattle.std.specs.Prelude.{◌≡◌, Option, Some, is_some, true};
ghost use Rattle.etherparse_c.specs.declared.pool.Pool.{Pool};
ghost use Rattle.etherparse_c.specs.PoolOwnership.{owns_pool};

use crate::pool::Pool;
use crate::raw_box::RawBox;
use std::alloc::Global;
use std::marker::Model;

/// Variable of C with the address of a reassembly pool, or with none yet. Dropping it does not free the pool.
#[repr(C)]
#[derive(Drop)]
pub struct Handle {
    at: *mut u8,
    alloc: Global,
    pub ghost pool: { Option Pool },
}

impl Model for Handle {
    ghost also_owns = { λ it. owns_pool it.pool it.alloc it.at };
}

/// The address of a pool may go to another thread between two calls, together with the pool's memory.
unsafe impl Send for Handle {}

impl Handle {
    /// Converts the raw pointer of a boxed pool to the address that C gets.
    pub(crate) fn of(pool: RawBox<Pool, Global>) -> Handle
        ensures { result.pool ≡ Some pool.value }
    {
        let RawBox { at, alloc } = pool;
        Handle {
            at: at as *mut u8,
            alloc,
        }
    }

    /// Converts the address that C holds back to the raw pointer of the boxed pool.
    pub(crate) fn into_raw_box(self) -> RawBox<Pool, Global>
        requires { is_some self.pool ≡ true }
        ensures { Some result.value ≡ self.pool }
    {
        let Handle { at, alloc } = self;
        RawBox {
            at: at as *mut Pool,
            alloc,
        }
    }
}
