// The rows of moving sums.

ghost use Rattle.std.specs.Prelude.{◌≡◌, ℕ, ◌+◌, ◌<◌, ◌≤◌, ◌^◌, length, take, pos, ◌+ℤ◌, ◌-ℤ◌, IfOk};
ghost use Rattle.mr_values.specs.Sequence.{samples, ones};
ghost use Rattle.running_sums.specs.Rows.{places, between, moved, HasRoom, IsRoomy, trimmed, moved_cover};
ghost use Rattle.running_sums.specs.Sums.{IsWithin};
ghost use Rattle.running_sums.specs.Weights.{added, behind};

use crate::sums::{both, moved_on, weight_before};
use mr_values::Memory;
use std::alloc::Global;

/// How many places further on the sum before stands at the next index, and how many the row that leaves it.
#[derive(Clone, Copy, Debug, PartialEq, Eq)]
pub struct Shifts {
    pub ahead: usize,
    pub back: usize,
}

/// The next row of a moving sum: the sum before it without the row `less` and with the row `more`, the first two so many
/// places further on. Takes constant time for each of the `total` weights. Fails only for want of memory.
pub fn moved_row(
    alloc: Global,
    sums: &[i128],
    less: &[i128],
    more: &[i128],
    shifts: Shifts,
    total: usize,
) -> Result<Vec<i128>, Memory>
    requires room { HasRoom sums.now shifts.ahead less.now shifts.back more.now }
    ensures { IfOk result (λ row. row.items ≡ places total (moved sums.now shifts.ahead less.now shifts.back more.now)) }
{
    let mut row = Vec::new(alloc);
    for place in 0..total {
        let sum = weight_before(sums, place, shifts.ahead);
        let old = weight_before(less, place, shifts.back);
        let new = weight_before(more, place, 0);
        row.push(moved_on(sum, old, new))?;
    }
    Ok(row)
}

/// How many rows of a moving sum reach each place, from how many did so an index before: there a row of the length `less`
/// came last, which stands `back` places further on here, and a row of the length `more` comes first. The list is as long
/// as the sum's row. Takes constant time for each place. Fails only for want of memory.
pub fn moved_cover(
    alloc: Global,
    covers: &[i128],
    ahead: usize,
    less: usize,
    back: usize,
    more: usize,
) -> Result<Vec<i128>, Memory>
    requires { HasRoom covers.now ahead (ones less) back (ones more) }
    ensures { IfOk result (λ row. row.items ≡ moved_cover covers.now ahead less back more) }
{
    let olds = ones(alloc, less)?;
    let news = ones(alloc, more)?;
    let old_total = both(covers.len(), ahead)?;
    let total = more.max(old_total);
    let shifts = Shifts { ahead, back };
    let mut row = moved_row(
        alloc,
        covers,
        olds.as_slice(),
        news.as_slice(),
        shifts,
        total,
    )?;
    let end = end_of(row.as_slice());
    row.truncate(end);
    Ok(row)
}

/// So many ones. Fails only for want of memory.
pub fn ones(alloc: Global, count: usize) -> Result<Vec<i128>, Memory>
    ensures { IfOk result (λ list. list.items ≡ ones count) }
{
    let mut list = Vec::new(alloc);
    for index in 0..count {
        list.push(1)?;
    }
    Ok(list)
}

// Where the zeros at the end begin.
fn end_of(row: &[i128]) -> usize
    ensures { take result row.now ≡ trimmed row.now }
{
    let mut end = row.len();
    while end > 0 {
        if row[end - 1] != 0 {
            return end;
        }
        end -= 1;
    }
    end
}

/// The sum of weights that stand `delay` places further on and of others. Fails only for want of memory.
pub fn added_behind(
    alloc: Global,
    delay: usize,
    weights: &[i128],
    others: &[i128],
) -> Result<Vec<i128>, Memory>
    requires { IsRoomy (added (behind delay weights.now) others.now) }
    ensures { IfOk result (λ sums. sums.items ≡ added (behind delay weights.now) others.now) }
{
    let total = length_behind(delay, weights, others)?;
    let mut sums = Vec::new(alloc);
    for place in 0..total {
        let first = weight_before(weights, place, delay);
        let second = weight_before(others, place, 0);
        sums.push(plus(first, second))?;
    }
    Ok(sums)
}

fn length_behind(delay: usize, weights: &[i128], others: &[i128]) -> Result<usize, Memory>
    ensures { IfOk result (λ total. length (added (behind delay weights.now) others.now) ≡ total) }
{
    if weights.is_empty() {
        return Ok(others.len());
    }
    let end = both(weights.len(), delay)?;
    Ok(others.len().max(end))
}

fn plus(first: i128, second: i128) -> i128
    requires { IsWithin (2 ^ 126) (first +ℤ second) }
    ensures { result ≡ first +ℤ second }
{
    first + second
}
