//! Bounded reassembly pool at the address that C holds.

ghost use Rattle.std.specs.Prelude.{◌≡◌, is_some, true};

use crate::bounded_state_pointer::BoundedStatePointer;

/// Bounded reassembly pool of IP fragments; C holds its address and never reads its fields.
#[repr(C)]
#[derive(Drop)]
pub struct BoundedPool {
    pub(crate) pointer: BoundedStatePointer,
    ghost has_state: { is_some pointer.state ≡ true },
}
