//! Version of the C library.

ghost use Rattle.std.specs.Prelude.{◌≡◌};

/// Version of the C library: 10000 times the major number, plus 100 times the minor number, plus the patch number.
/// `etherparse.h` has an equal constant.
pub const VERSION: u32 = 200;

/// Returns the version of the linked C library (`libetherparse_c.a`), to be compared with the version constant in
/// `etherparse.h`.
#[unsafe(no_mangle)]
pub extern "C" fn etherparse_2_version() -> u32
    ensures { result ≡ 200 }
{
    VERSION
}
