//! Byte slices whose minimum length is part of their type.

ghost use Rattle.std.specs.Prelude.{◌≤◌, length};

/// Byte slice of at least `N` bytes, stored in the slice types of headers whose minimum length is `N`.
#[derive(Clone, Copy, Debug, PartialEq, Eq)]
pub struct AtLeast<'a, const N: usize> {
    /// Wrapped byte slice, whose length is at least the const parameter `N` of the type.
    pub slice: &'a [u8],
    pub ghost long: { N ≤ length slice.now },
}
