//! Address of a filter that C passes back so that the filter is freed.

ghost use Rattle.std.specs.Prelude.{◌≡◌, is_some, true};

use crate::filter_handle::FilterHandle;

/// Address of a filter, as C passes it to `etherparse_2_filter_free`. That call takes ownership of the filter.
#[repr(C)]
#[derive(Drop)]
pub struct OwnedFilter {
    pub(crate) handle: FilterHandle,
    ghost has_filter: { is_some handle.filter ≡ true },
}
