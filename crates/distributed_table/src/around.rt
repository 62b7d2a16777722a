// The range of the single values of the streams, widened to 0.

ghost use Rattle.std.specs.Prelude.{◌≡◌, ℕ, ◌^◌, ◌≤◌, ◌⊎◌, ◌≤ℤ◌, pos, IfOk};
ghost use Rattle.stage_law.specs.Streams.{AreWithin};
ghost use Rattle.distributed_table.specs.Around.{IsAround};

use mr_values::Memory;
use stage_law::{Class, Range, Ranges, WeightedSum};
use std::alloc::Global;

// The least range that holds a range and 0.
fn widened(range: Range) -> Range
    ensures low { result.lo ≤ℤ range.lo }
    ensures high { range.hi ≤ℤ result.hi }
    ensures negative { result.lo ≤ℤ pos 0 }
    ensures positive { pos 0 ≤ℤ result.hi }
    ensures low_one { (result.lo ≡ range.lo) ⊎ (result.lo ≡ pos 0) }
    ensures high_one { (result.hi ≡ range.hi) ⊎ (result.hi ≡ pos 0) }
{
    Range {
        lo: range.lo.min(0),
        hi: range.hi.max(0),
    }
}

/// The least range that holds 0 and each value of the streams.
pub(crate) fn values_around<R: Ranges>(alloc: Global, ranges: &R) -> Result<Range, Memory>
    requires room { (most : ℕ) × AreWithin (R.streams ranges.now) most × (most ≤ 2 ^ 125) }
    ensures { IfOk result (IsAround (R.streams ranges.now)) }
{
    let every = Class {
        modulus: 1,
        residue: 0,
    };
    let value = WeightedSum::value(alloc, 0)?;
    Ok(widened(ranges.range(&value, every)))
}
