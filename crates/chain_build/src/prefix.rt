// The ranges of what the first elements of a plan make of samples.

ghost use Rattle.std.specs.Prelude.{◌≡◌, ◌≤◌, pos, ◌≤ℤ◌, take, IfOk};
ghost use Rattle.mr_values.specs.Value.{size, chain};
ghost use Rattle.impulse_phase.specs.Reading.{IsResponseOf};
ghost use Rattle.width_extreme.specs.Walk.{transform_of};
ghost use Rattle.chain_build.specs.Prefixes.{IsExactPrefix};

use mr_values::{Memory, Plan};
use std::alloc::Global;
use width_extreme::PrefixRanges;

/// The bits of a sample.
pub(crate) fn width_of(plan: &Plan) -> u8
    requires least { pos 1 ≤ℤ plan.now.width }
    requires most { plan.now.width ≤ℤ pos 64 }
    ensures { result ≡ size plan.now.width }
{
    plan.width as u8
}

/// The ranges over what so many elements of a plan make of its samples.
pub(crate) fn prefix_ranges(
    alloc: Global,
    plan: &Plan,
    taken: usize,
) -> Result<PrefixRanges, Memory>
    requires { IsExactPrefix plan.now taken }
    ensures streams { IfOk result (λ ranges. transform_of ranges.table ≡ chain (take taken plan.now.elements)) }
    ensures width { IfOk result (λ ranges. ranges.width ≡ size plan.now.width) }
    ensures table { IfOk result (λ ranges. IsResponseOf (take taken plan.now.elements) ranges.table) }
{
    PrefixRanges::new(alloc, width_of(plan), &plan.elements.as_slice()[..taken])
}
