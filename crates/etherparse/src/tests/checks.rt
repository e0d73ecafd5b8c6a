//! Assertions that many tests share. They return nothing and have no contract, so that a call is a cheap step of a
//! proof.

use std::alloc::Global;
use std::fmt::{Debug, Display};
use std::process::Abort;

/// Asserts that the value `shown`, which the library returned, is equal to `expected`.
pub fn same<T: PartialEq + Debug>(rt: &impl Abort, shown: &T, expected: &T) {
    assert_eq!(rt; shown, expected);
}

/// Asserts that `Display` prints `value` as `text`.
pub fn shows<E: Display>(rt: &impl Abort, alloc: Global, value: &E, text: &str) {
    let shown = format!(in alloc; "{value}").expect(rt, "no memory");
    assert_eq!(rt; shown.as_str(), text);
}
