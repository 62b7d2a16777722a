// The weights of moving sums.

ghost use Rattle.std.specs.Prelude.{◌≡◌, ℕ, ◌+◌, ◌*◌, ◌<◌, ◌≤◌, ◌^◌, length, List, [], ◌∷◌, pos, ◌+ℤ◌, ◌-ℤ◌, IfOk};
ghost use Rattle.mr_values.specs.Sequence.{samples};
ghost use Rattle.running_sums.specs.Weights.{moving, moving_times, cic_weights};
ghost use Rattle.running_sums.specs.Sums.{IsWithin, AreWithin};

use mr_values::Memory;
use std::alloc::Global;

/// The weight so many places before, 0 before the first and behind the last.
pub(crate) fn weight_before(weights: &[i128], place: usize, back: usize) -> i128
    ensures { result ≡ samples weights.now (pos place -ℤ pos back) }
{
    if place < back {
        return 0;
    }
    let at = place - back;
    if at < weights.len() { weights[at] } else { 0 }
}

/// A sum with one number less and one more.
pub(crate) fn moved_on(sum: i128, less: i128, more: i128) -> i128
    requires between { IsWithin (2 ^ 126) (sum -ℤ less) }
    requires last { IsWithin (2 ^ 126) ((sum -ℤ less) +ℤ more) }
    ensures { result ≡ (sum -ℤ less) +ℤ more }
{
    let between = sum - less;
    between + more
}

// Sizes that a list cannot have count as a want of memory.
fn times(first: usize, second: usize) -> Result<usize, Memory>
    ensures { IfOk result (λ size. size ≡ first * second) }
{
    first.checked_mul(second).ok_or(Memory)
}

pub(crate) fn both(first: usize, second: usize) -> Result<usize, Memory>
    ensures { IfOk result (λ size. size ≡ first + second) }
{
    first.checked_add(second).ok_or(Memory)
}

/// The weights of a moving sum of `count` sums with these weights, `stride` places apart. Takes constant time for each
/// weight of the result. Fails only for want of memory.
pub fn moving_sum(
    alloc: Global,
    weights: &[i128],
    stride: usize,
    count: usize,
) -> Result<Vec<i128>, Memory>
    requires apart { 1 ≤ stride }
    requires some { 1 ≤ count }
    requires room { (most : ℕ) × AreWithin most weights.now × (count * most ≤ 2 ^ 126) }
    ensures { IfOk result (λ sums. sums.items ≡ moving stride count weights.now) }
{
    let mut sums = Vec::new(alloc);
    if weights.is_empty() {
        return Ok(sums);
    }
    let reach = times(count, stride)?;
    let total = both(weights.len(), reach - stride)?;
    for place in 0..total {
        let sum = weight_before(sums.as_slice(), place, stride);
        let less = weight_before(weights, place, reach);
        let more = weight_before(weights, place, 0);
        sums.push(moved_on(sum, less, more))?;
    }
    Ok(sums)
}

/// The weights of so many such moving sums one after another.
pub fn moving_sums(
    alloc: Global,
    weights: Vec<i128>,
    stages: usize,
    stride: usize,
    count: usize,
) -> Result<Vec<i128>, Memory>
    requires apart { 1 ≤ stride }
    requires some { 1 ≤ count }
    requires room { (most : ℕ) × AreWithin most weights.items × (count ^ stages * most ≤ 2 ^ 126) }
    ensures { IfOk result (λ sums. sums.items ≡ moving_times stages stride count weights.items) }
{
    let mut sums = weights;
    for stage in 0..stages {
        sums = moving_sum(alloc, sums.as_slice(), stride, count)?;
    }
    Ok(sums)
}

/// The weights of so many moving sums of single values, one after another: those of a cascade of integrators and combs.
pub fn cic_weights(alloc: Global, stages: usize, width: usize) -> Result<Vec<i128>, Memory>
    requires few { stages ≤ 8 }
    requires some { 1 ≤ width }
    requires most { width ≤ 2 ^ 13 }
    ensures { IfOk result (λ weights. weights.items ≡ cic_weights stages width) }
{
    let mut one = Vec::new(alloc);
    one.push(1i128)?;
    moving_sums(alloc, one, stages, 1, width)
}
