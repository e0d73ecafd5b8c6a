//! Helpers of the tests whose allocations fail: comparison, report of a failed call, and a deliberate allocation.

use std::alloc::Global;
use std::fmt::Debug;
use std::process::Abort;

/// Asserts that two values are equal.
pub fn same<T: PartialEq + Debug>(rt: &impl Abort, shown: &T, expected: &T) {
    assert_eq!(rt; shown, expected);
}

/// Prints `refused: ` and the name of a call that reported an allocation failure.
pub fn refused(rt: &(impl Abort + Print), name: &str) {
    println!(rt; "refused: {name}").expect(rt, "no output");
}

/// Returns a vector of the given bytes without spare capacity. If the allocation fails, it prints so and tries a second
/// time.
pub fn full(rt: &(impl Abort + Print), alloc: Global, bytes: &[u8]) -> Vec<u8> {
    match Vec::from_slice(alloc, bytes) {
        Ok(full) => full,
        Err(_) => {
            refused(rt, "setup");
            Vec::from_slice(alloc, bytes).expect(rt, "refused twice")
        }
    }
}

/// Makes one allocation, and prints so if it fails. Tests of calls that must not allocate end with this function.
/// If such a call allocated and hid the failure, no line of the output would report the failed allocation, and the
/// script `refuse.py` would find that.
pub fn asks_once(rt: &(impl Abort + Print), alloc: Global) {
    same(rt, &full(rt, alloc, b"abc").len(), &3);
}
