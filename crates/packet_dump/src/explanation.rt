//! Text of `--explain`: the canonical form of a filter expression, and the steps of the filter.

ghost use Rattle.std.specs.Prelude.{◌≡◌, ◌++◌, OnOk};
ghost use Rattle.packet_dump.specs.Explanations.{explanation_text, steps_text};

use line_io::decimals;
use packet_filter::Filter;
use packet_filter::step::Step;
use std::alloc::AllocError;

/// Appends a line with the canonical form of a filter, and a line for each of its steps, numbered from 0.
pub fn append_explanation(output: &mut Vec<u8>, filter: &Filter) -> Result<(), AllocError>
    ensures { OnOk result (output.new.items ≡ output.old.items ++ explanation_text filter.now) }
{
    filter.append_canonical(output)?;
    output.push(b'\n')?;
    append_steps(output, filter.steps())
}

/// Appends a line for each step of a filter, numbered from 0.
fn append_steps(output: &mut Vec<u8>, steps: &[Step]) -> Result<(), AllocError>
    ensures { OnOk result (output.new.items ≡ output.old.items ++ steps_text 0 steps.now) }
{
    let mut number = 0;
    for step in steps {
        decimals::push(output, number)?;
        output.push(b' ')?;
        step.append_text(output)?;
        output.push(b'\n')?;
        number += 1;
    }
    Ok(())
}
