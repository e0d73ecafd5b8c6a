//! Address of a reassembly pool that C passes back so that the pool is freed.

ghost use Rattle.std.specs.Prelude.{◌≡◌, is_some, true};

use crate::handle::Handle;

/// Address of a reassembly pool, as C passes it to `etherparse_2_pool_free`. That call takes ownership of the pool.
#[repr(C)]
#[derive(Drop)]
pub struct OwnedPool {
    pub(crate) handle: Handle,
    ghost has_pool: { is_some handle.pool ≡ true },
}
