//! Steps of a filter: what a filter does with a packet, in order.

ghost use Rattle.std.specs.Prelude.{◌≡◌, ◌++◌, OnOk, drop, take};
ghost use Rattle.filter_language.specs.Printing.{skip_text, step_text};

use filter_tokens::primitive::Primitive;
use filter_tokens::primitive_text::append_primitive;
use std::alloc::AllocError;

/// Step of a filter. A filter holds one truth value, which a step replaces, negates, or decides by it to skip steps.
#[derive(Clone, Copy, Debug, PartialEq, Eq)]
pub enum Step {
    /// Replaces the value by whether a primitive matches the packet.
    Test(Primitive),
    /// Negates the value.
    Negate,
    /// Skips this many steps if the value is false.
    SkipIfFalse(usize),
    /// Skips this many steps if the value is true.
    SkipIfTrue(usize),
}

impl Step {
    /// Appends the text of the step, such as `test tcp dst port 443` or `skip 2 if false`.
    pub fn append_text(&self, output: &mut Vec<u8>) -> Result<(), AllocError>
        ensures { OnOk result (output.new.items ≡ output.old.items ++ step_text self.now) }
    {
        match self {
            Step::Test(primitive) => {
                output.extend_from_slice(b"test ")?;
                append_primitive(output, primitive)
            }
            Step::Negate => output.extend_from_slice(b"negate"),
            Step::SkipIfFalse(skipped) => append_skip(output, *skipped, "false"),
            Step::SkipIfTrue(skipped) => append_skip(output, *skipped, "true"),
        }
    }
}

/// Appends the text of a step that skips steps if the value is this word.
fn append_skip(output: &mut Vec<u8>, skipped: usize, value: &str) -> Result<(), AllocError>
    ensures { OnOk result (output.new.items ≡ output.old.items ++ skip_text skipped value.now) }
{
    let text = format!(in *output.allocator(); "skip {skipped} if {value}")?;
    output.extend_from_slice(text.as_bytes())
}

/// Returns the first `len` steps, and the steps after them.
pub fn split_steps(steps: &[Step], len: usize) -> (&[Step], &[Step])
    ensures first { result.0.now ≡ take len steps.now }
    ensures later { result.1.now ≡ drop len steps.now }
{
    if len < steps.len() {
        (&steps[..len], &steps[len..])
    } else {
        (steps, &[])
    }
}
