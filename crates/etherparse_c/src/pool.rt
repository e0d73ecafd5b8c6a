//! Reassembly pool at the address that C holds.

ghost use Rattle.std.specs.Prelude.{◌≡◌, is_some, true};

use crate::state_pointer::StatePointer;

/// Reassembly pool of IP fragments; C holds its address and never reads its fields.
#[repr(C)]
#[derive(Drop)]
pub struct Pool {
    pub(crate) pointer: StatePointer,
    ghost has_state: { is_some pointer.state ≡ true },
}
