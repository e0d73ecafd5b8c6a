//! Variable of C that receives the address of a bounded reassembly pool.

ghost use Rattle.std.specs.Prelude.{◌≡◌, Option, Some, is_some, true};
ghost use Rattle.etherparse_c.specs.declared.bounded_pool.BoundedPool.{BoundedPool};
ghost use Rattle.etherparse_c.specs.BoundedPoolOwnership.{owns_bounded_pool};

use crate::bounded_pool::BoundedPool;
use crate::raw_box::RawBox;
use std::alloc::Global;
use std::marker::Model;

/// Variable of C with the address of a bounded reassembly pool, or with none yet. Dropping it does not free the pool.
#[repr(C)]
#[derive(Drop)]
pub struct BoundedHandle {
    at: *mut u8,
    alloc: Global,
    pub ghost pool: { Option BoundedPool },
}

impl Model for BoundedHandle {
    ghost also_owns = { λ it. owns_bounded_pool it.pool it.alloc it.at };
}

/// The address of a bounded pool may go to another thread between two calls, together with the pool's memory.
unsafe impl Send for BoundedHandle {}

impl BoundedHandle {
    /// Converts the raw pointer of a boxed bounded pool to the address that C gets.
    pub(crate) fn of(pool: RawBox<BoundedPool, Global>) -> BoundedHandle
        ensures { result.pool ≡ Some pool.value }
    {
        let RawBox { at, alloc } = pool;
        BoundedHandle {
            at: at as *mut u8,
            alloc,
        }
    }

    /// Converts the address that C holds back to the raw pointer of the boxed bounded pool.
    pub(crate) fn into_raw_box(self) -> RawBox<BoundedPool, Global>
        requires { is_some self.pool ≡ true }
        ensures { Some result.value ≡ self.pool }
    {
        let BoundedHandle { at, alloc } = self;
        RawBox {
            at: at as *mut BoundedPool,
            alloc,
        }
    }
}
