// The range of what an interpolator gives.

ghost use Rattle.std.specs.Prelude.{◌≡◌, ℕ, pos, ◌*◌, ◌<◌, ◌≤◌, ◌^◌, ◌⊎◌, ◌≤ℤ◌, IfOk};
ghost use Rattle.mr_values.specs.Sequence.{phase, samples};
ghost use Rattle.stage_law.specs.Streams.{AreWithin, magnitudes};
ghost use Rattle.cic_chain.specs.Phases.{IsPhaseRange};

use mr_values::Memory;
use stage_law::{Class, Range, Ranges, WeightedSum};
use std::alloc::Global;

// The weight at a place, 0 behind the last.
fn weight_at(weights: &[i128], place: usize) -> i128
    ensures { result ≡ samples weights.now (pos place) }
{
    if place < weights.len() {
        weights[place]
    } else {
        0
    }
}

// Every `factor`-th weight, from this place on.
fn phase_of(
    alloc: Global,
    weights: &[i128],
    factor: usize,
    first: usize,
) -> Result<Vec<i128>, Memory>
    requires some { 1 ≤ factor }
    requires most { factor ≤ 4096 }
    requires within { first < factor }
    ensures { IfOk result (λ taken. taken.items ≡ phase factor first weights.now) }
{
    let mut taken = Vec::new(alloc);
    let mut place = first;
    'take: while place < weights.len() {
        let weight = weight_at(weights, place);
        taken.push(weight)?;
        place += factor;
    }
    Ok(taken)
}

// The least range that holds two ranges.
fn joined(a: Range, b: Range) -> Range
    ensures low_first { result.lo ≤ℤ a.lo }
    ensures low_second { result.lo ≤ℤ b.lo }
    ensures high_first { a.hi ≤ℤ result.hi }
    ensures high_second { b.hi ≤ℤ result.hi }
    ensures low_one { (result.lo ≡ a.lo) ⊎ (result.lo ≡ b.lo) }
    ensures high_one { (result.hi ≡ a.hi) ⊎ (result.hi ≡ b.hi) }
{
    Range {
        lo: a.lo.min(b.lo),
        hi: a.hi.max(b.hi),
    }
}

/// The least range that holds 0 and all sums of the phases of these weights.
pub(crate) fn phase_range<R: Ranges>(
    alloc: Global,
    weights: &[i128],
    factor: u32,
    ranges: &R,
) -> Result<Range, Memory>
    requires some { 1 ≤ factor }
    requires most { factor ≤ 4096 }
    requires room { (m : ℕ) × AreWithin (R.streams ranges.now) m × (m * magnitudes weights.now ≤ 2 ^ 126) }
    ensures { IfOk result (IsPhaseRange (R.streams ranges.now) weights.now factor factor) }
{
    let every = Class {
        modulus: 1,
        residue: 0,
    };
    let mut range = Range { lo: 0, hi: 0 };
    for first in 0..factor {
        let phase = phase_of(alloc, weights, factor as usize, first as usize)?;
        let sum = WeightedSum::of(alloc, 0, phase.as_slice())?;
        let own = ranges.range(&sum, every);
        range = joined(range, own);
    }
    Ok(range)
}
