// The whole demo.
ghost use Rattle.std.specs.Prelude.{◌≡◌, IfOk};
ghost use Rattle.demo_plan.specs.Tallied.{line_drawn};

use crate::plan::{demo_plan, demo_samples};
use crate::summary::tally_of;
use chain_values::values_of;
use mr_values::Memory;
use std::alloc::Global;

/// The line of a number: how many values the plan that it draws makes of the samples that it draws, their sum, and the least and the greatest of them.
/// It fails only for want of memory.
pub fn demo_line(alloc: Global, number: u64) -> Result<Vec<u8>, Memory>
    ensures { IfOk result (λ text. text.items ≡ line_drawn number) }
{
    let (plan, state) = demo_plan(alloc, number)?;
    let samples = demo_samples(alloc, state)?;
    let values = values_of(alloc, plan.elements.as_slice(), samples.as_slice())?;
    let tally = tally_of(values.as_slice());
    let text = tally.line(alloc)?;
    Ok(text)
}
