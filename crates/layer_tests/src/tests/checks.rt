//! Helpers that the tests of all header crates share: comparisons and a full vector.

use std::alloc::Global;
use std::fmt::{Debug, Display};
use std::process::Abort;

/// Asserts that two values are equal.
pub fn same<T: PartialEq + Debug>(rt: &impl Abort, shown: &T, expected: &T) {
    assert_eq!(rt; shown, expected);
}

/// Asserts that `Display` prints an error as the given text.
pub fn shows<E: Display>(rt: &impl Abort, alloc: Global, error: &E, text: &str) {
    let shown = format!(in alloc; "{error}").expect(rt, "no memory");
    assert_eq!(rt; shown.as_str(), text);
}

/// Asserts that a call returned an error (`Some`), and that `Display` prints it as the given text.
pub fn refuses<E: Display + Drop>(rt: &impl Abort, alloc: Global, error: Option<E>, text: &str) {
    shows(rt, alloc, &error.expect(rt, "accepted"), text);
}

/// Returns a vector of 100,000 bytes without spare capacity, so that a header written to it has to be appended after a
/// new allocation.
pub fn full(rt: &impl Abort, alloc: Global) -> Vec<u8> {
    let buf = vec![in alloc; 0xab; 100_000].expect(rt, "no memory");
    same(rt, &buf.capacity(), &100_000);
    buf
}

/// Asserts that a header was written (`written` is true) as the given bytes, after the 100,000 bytes that the vector
/// had before.
pub fn is_written(rt: &impl Abort, written: bool, buf: &Vec<u8>, bytes: &[u8]) {
    same(rt, &(written, buf.get(100_000..)), &(true, Some(bytes)));
}
