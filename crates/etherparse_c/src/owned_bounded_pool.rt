//! Address of a bounded reassembly pool that C passes back so that the pool is freed.

ghost use Rattle.std.specs.Prelude.{◌≡◌, is_some, true};

use crate::bounded_handle::BoundedHandle;

/// Address of a bounded reassembly pool, as C passes it to `etherparse_2_bounded_pool_free`. That call takes ownership
/// of the pool.
#[repr(C)]
#[derive(Drop)]
pub struct OwnedBoundedPool {
    pub(crate) handle: BoundedHandle,
    ghost has_pool: { is_some handle.pool ≡ true },
}
