//! Canonical form of filters: each primitive with its qualifiers, and each `and`, `or` and `not` in parentheses.

ghost use Rattle.std.specs.Prelude.{◌≡◌, ◌++◌, IfOk, OnOk, Option};
ghost use Rattle.filter_language.specs.Printing.{canonical, nots_in, right_text, start_text, starts_text};
ghost use Rattle.filter_language.specs.Trees.{Expr, steps_of_text};

use crate::step::{Step, split_steps};
use filter_tokens::primitive_text::append_primitive;
use std::alloc::{AllocError, Global};

/// Appends the canonical form of steps, or nothing without steps.
#[cycle(canonical)]
pub fn append_canonical(output: &mut Vec<u8>, steps: &[Step]) -> Result<(), AllocError>
    ensures { (tree : Option Expr) → steps.now ≡ steps_of_text tree
        → OnOk result (output.new.items ≡ output.old.items ++ canonical tree) }
{
    append_starts(output, steps)?;
    let mut left = steps;
    while let [step, others @ ..] = left {
        match step {
            Step::Test(primitive) => {
                append_primitive(output, primitive)?;
                left = others;
            }
            Step::Negate => {
                output.extend_from_slice(b")")?;
                left = others;
            }
            Step::SkipIfFalse(skipped) => {
                let (right, later) = split_steps(others, *skipped);
                append_right_operand(output, b" and ", right)?;
                left = later;
            }
            Step::SkipIfTrue(skipped) => {
                let (right, later) = split_steps(others, *skipped);
                append_right_operand(output, b" or ", right)?;
                left = later;
            }
        }
    }
    Ok(())
}

/// Appends an operator, its right operand and `)`.
#[cycle(canonical)]
fn append_right_operand(
    output: &mut Vec<u8>,
    operator: &[u8],
    steps: &[Step],
) -> Result<(), AllocError>
    ensures { (tree : Option Expr) → steps.now ≡ steps_of_text tree
        → OnOk result (output.new.items ≡ output.old.items ++ right_text operator.now tree) }
{
    output.extend_from_slice(operator)?;
    append_canonical(output, steps)?;
    output.extend_from_slice(b")")
}

/// Appends the parentheses before the first primitive of steps: one for each `not` and operator that is in no right
/// operand, from the last to the first.
fn append_starts(output: &mut Vec<u8>, steps: &[Step]) -> Result<(), AllocError>
    ensures { OnOk result (output.new.items ≡ output.old.items ++ starts_text (nots_in steps.now 0)) }
{
    let mut nots = nots_in(*output.allocator(), steps)?;
    while let Some(is_not) = nots.pop() {
        append_start(output, is_not)?;
    }
    Ok(())
}

/// Appends the parenthesis before an expression, and `not` if the expression ends with it.
fn append_start(output: &mut Vec<u8>, is_not: bool) -> Result<(), AllocError>
    ensures { OnOk result (output.new.items ≡ output.old.items ++ start_text is_not) }
{
    if is_not {
        output.extend_from_slice(b"(not ")
    } else {
        output.extend_from_slice(b"(")
    }
}

/// Returns for each `not` and operator of steps that is in no right operand whether it is `not`, in order.
fn nots_in(alloc: Global, steps: &[Step]) -> Result<Vec<bool>, AllocError>
    ensures { IfOk result (λ nots. nots.items ≡ nots_in steps.now 0) }
{
    let mut nots = Vec::new(alloc);
    let mut left = steps;
    while let [step, others @ ..] = left {
        match step {
            Step::Test(_) => left = others,
            Step::Negate => {
                nots.push(true)?;
                left = others;
            }
            Step::SkipIfFalse(skipped) => {
                nots.push(false)?;
                left = split_steps(others, *skipped).1;
            }
            Step::SkipIfTrue(skipped) => {
                nots.push(false)?;
                left = split_steps(others, *skipped).1;
            }
        }
    }
    Ok(nots)
}
