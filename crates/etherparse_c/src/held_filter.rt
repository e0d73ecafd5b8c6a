//! Filter at the address that C holds.

ghost use Rattle.std.specs.Prelude.{◌≡◌, is_some, true};

use crate::filter_pointer::FilterPointer;

/// Filter of packets; C holds its address and never reads its fields.
#[repr(C)]
#[derive(Drop)]
pub struct HeldFilter {
    pub(crate) pointer: FilterPointer,
    ghost has_filter: { is_some pointer.filter ≡ true },
}
