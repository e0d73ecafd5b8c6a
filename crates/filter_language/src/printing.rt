//! Printing of filters as expressions: each primitive with its qualifiers, and no redundant parentheses.

ghost use Rattle.std.specs.Prelude.{◌≡◌, ◌<◌, ◌++◌, IfSome, OnOk, [], length};
ghost use Rattle.filter_language.specs.Printing.{closing, ends_with_operator, expression_text, grouped, IsOpened};
ghost use Rattle.filter_language.specs.Printing.{opening, openings};
ghost use Rattle.filter_language.specs.Trees.{Expr, steps_of};

use crate::step::{Step, split_steps};
use filter_tokens::primitive_text::append_primitive;
use std::alloc::AllocError;

/// Appends the expression of steps, or nothing without steps. Each operand of an operator on the right, and of `not`, is
/// in parentheses if it ends with an operator itself.
#[cycle(expression)]
pub fn append_expression(output: &mut Vec<u8>, steps: &[Step]) -> Result<(), AllocError>
    ensures text { (e : Expr) → steps.now ≡ steps_of e
        → OnOk result (output.new.items ≡ output.old.items ++ expression_text e) }
    ensures empty { steps.now ≡ [] → OnOk result (output.new.items ≡ output.old.items) }
{
    if steps.is_empty() {
        return Ok(());
    }
    append_openings(output, steps)?;
    let mut left = steps;
    let mut ended = false;
    while let [step, others @ ..] = left {
        match step {
            Step::Test(primitive) => {
                append_primitive(output, primitive)?;
                left = others;
                ended = false;
            }
            Step::Negate => {
                append_closing(output, ended)?;
                left = others;
                ended = false;
            }
            Step::SkipIfFalse(skipped) => {
                let (right, later) = split_steps(others, *skipped);
                output.extend_from_slice(b" and ")?;
                append_right(output, right)?;
                left = later;
                ended = true;
            }
            Step::SkipIfTrue(skipped) => {
                let (right, later) = split_steps(others, *skipped);
                output.extend_from_slice(b" or ")?;
                append_right(output, right)?;
                left = later;
                ended = true;
            }
        }
    }
    Ok(())
}

/// Appends the expression of steps as the right operand of an operator.
#[cycle(expression)]
fn append_right(output: &mut Vec<u8>, steps: &[Step]) -> Result<(), AllocError>
    ensures { (e : Expr) → steps.now ≡ steps_of e
        → OnOk result (output.new.items ≡ output.old.items ++ grouped e (expression_text e)) }
{
    let ended = ends_with_operator(steps);
    append_opening(output, ended)?;
    append_expression(output, steps)?;
    append_closing(output, ended)
}

/// Appends `(` before an operand that ends with an operator.
fn append_opening(output: &mut Vec<u8>, ended: bool) -> Result<(), AllocError>
    ensures { OnOk result (output.new.items ≡ output.old.items ++ opening ended) }
{
    if ended {
        output.extend_from_slice(b"(")
    } else {
        Ok(())
    }
}

/// Appends `)` after an operand that ends with an operator.
fn append_closing(output: &mut Vec<u8>, ended: bool) -> Result<(), AllocError>
    ensures { OnOk result (output.new.items ≡ output.old.items ++ closing ended) }
{
    if ended {
        output.extend_from_slice(b")")
    } else {
        Ok(())
    }
}

/// Returns true if the expression of steps is `and` or `or` of two others.
fn ends_with_operator(steps: &[Step]) -> bool
    ensures { (e : Expr) → steps.now ≡ steps_of e → result ≡ ends_with_operator e }
{
    let mut left = steps;
    let mut ended = false;
    while let [step, others @ ..] = left {
        match step {
            Step::Test(_) | Step::Negate => {
                left = others;
                ended = false;
            }
            Step::SkipIfFalse(skipped) => {
                left = split_steps(others, *skipped).1;
                ended = true;
            }
            Step::SkipIfTrue(skipped) => {
                left = split_steps(others, *skipped).1;
                ended = true;
            }
        }
    }
    ended
}

/// Appends `not`, and `(` if its operand is in parentheses, for each `not` whose operand begins with the first step: the
/// outermost first.
fn append_openings(output: &mut Vec<u8>, steps: &[Step]) -> Result<(), AllocError>
    ensures { (e : Expr) → steps.now ≡ steps_of e
        → OnOk result (output.new.items ≡ output.old.items ++ openings e) }
{
    let mut inner = steps;
    while let Some(len) = find_last_not(inner) {
        inner = &inner[..len];
        output.extend_from_slice(b"not ")?;
        append_opening(output, ends_with_operator(inner))?;
    }
    Ok(())
}

/// Returns the number of steps before the last `not` that is not in a right operand.
fn find_last_not(steps: &[Step]) -> Option<usize>
    ensures bound { IfSome result (λ len. len < length steps.now) }
    ensures place { (e : Expr) → steps.now ≡ steps_of e → IsOpened (openings e) steps.now result }
{
    let mut left = steps;
    let mut last = None;
    while let [step, others @ ..] = left {
        match step {
            Step::Test(_) => left = others,
            Step::Negate => {
                last = Some(left.len());
                left = others;
            }
            Step::SkipIfFalse(skipped) => left = split_steps(others, *skipped).1,
            Step::SkipIfTrue(skipped) => left = split_steps(others, *skipped).1,
        }
    }
    match last {
        Some(len) => Some(steps.len() - len),
        None => None,
    }
}
