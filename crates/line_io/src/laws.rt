//! Law of comparing errors: a function with an empty body, whose contract states the law.

ghost use Rattle.std.specs.Prelude.{◌≡◌, ◌↔◌, IsTrue};

use crate::run_error::RunError;

/// States that two errors of a program run (`RunError`) are equal exactly if they are the same variant.
pub fn comparisons()
    ensures { (a b : RunError) → IsTrue (⟦<RunError as PartialEq>⟧.eq a b) ↔ (a ≡ b) }
{}
