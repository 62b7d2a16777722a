//! What a moving sum does to a table of responses: from one index to the next, one row less and one more.

ghost use Rattle.std.specs.Prelude.{◌≡◌, ℕ, ◌+◌, ◌*◌, ◌<◌, ◌≤◌, ◌^◌, pos, ◌-ℤ◌, length, IfOk};
ghost use Rattle.mr_values.specs.Sequence.{ones};
ghost use Rattle.running_sums.specs.Sums.{AreWithin};
ghost use Rattle.running_sums.specs.Weights.{added, behind, moving};
ghost use Rattle.running_sums.specs.Rows.{delay, summed, summed_row, with_rounds, full};
ghost use Rattle.impulse_phase.specs.Gain.{HasGain};
ghost use Rattle.impulse_phase.specs.Response.{through_filter};
ghost use Rattle.impulse_phase.specs.Reading.{rows_of, responses_of, IsTable, Passes};
ghost use Rattle.impulse_phase.specs.Summed.{IsTurn, HasRowsWithin, with_part, whole};

use crate::filtered::place_before;
use crate::table::{Response, Row};
use mr_values::Memory;
use running_sums::{Shifts, added_behind, moved_cover, moved_row, moving_sum, ones};
use std::alloc::Global;

/// The responses after a sum of `width` values.
pub(crate) fn through_sum(table: &Response, alloc: Global, width: u64) -> Result<Response, Memory>
    requires some { 0 < width }
    requires short { width ≤ 2 ^ 14 }
    requires table { IsTable table.now }
    requires room { (gain : ℕ) × HasGain (responses_of table.now) gain × (width * gain ≤ 2 ^ 126) }
    ensures { IfOk result (λ response. Passes (through_filter (ones width)) (λ cycle. cycle) table.now response) }
{
    let full = full_rows(table, alloc)?;
    let mut cover = first_row(&full, alloc, width)?;
    let mut rows = Vec::new(alloc);
    rows.push(Row {
        newest: table.rows[0].newest,
        weights: first_row(table, alloc, width)?,
    })?;
    for index in 1..table.rows.len() {
        let turn = turn_at(table, width, index);
        let less = &table.rows[turn.class].weights;
        let more = &table.rows[index].weights;
        cover = moved_cover(alloc, &cover, turn.ahead, less.len(), turn.back, more.len())?;
        let sums = &rows[index - 1].weights;
        let shifts = Shifts {
            ahead: turn.ahead,
            back: turn.back,
        };
        let weights = moved_row(alloc, sums, less, more, shifts, cover.len())?;
        rows.push(Row {
            newest: table.rows[index].newest,
            weights,
        })?;
    }
    Ok(Response {
        rows,
        step: table.step,
    })
}

// Rows of ones, as long as those of the table: sums of them tell how far sums of the rows reach.
fn full_rows(table: &Response, alloc: Global) -> Result<Response, Memory>
    requires { IsTable table.now }
    ensures { IfOk result (λ response. Passes full (λ cycle. cycle) table.now response) }
{
    let mut rows = Vec::new(alloc);
    for index in 0..table.rows.len() {
        let row = &table.rows[index];
        rows.push(Row {
            newest: row.newest,
            weights: ones(alloc, row.weights.len())?,
        })?;
    }
    Ok(Response {
        rows,
        step: table.step,
    })
}

// The row of class `class` goes, and stands `back` places further on here; the sum before stands `ahead` places further on.
#[derive(Drop)]
struct Turn {
    ahead: usize,
    class: usize,
    back: usize,
}

// What a sum loses from the index before to this one.
fn turn_at(table: &Response, width: u64, index: usize) -> Turn
    requires short { width ≤ 2 ^ 14 }
    requires later { 1 ≤ index }
    requires index { index < length (rows_of table.now) }
    ensures { IsTurn table.now width index result.ahead result.class result.back }
{
    let here = u64::from(table.rows[index].newest);
    let before = u64::from(table.rows[index - 1].newest);
    let old = place_before(table.rows.len() as u64, index as u64, width);
    let less = u64::from(table.rows[old.class as usize].newest);
    Turn {
        ahead: here.saturating_sub(before) as usize,
        class: old.class as usize,
        back: (here + old.rounds * table.step).saturating_sub(less) as usize,
    }
}

// The row of the sum at index 0: whole rounds of the classes, and before them the rest of the width.
fn first_row(table: &Response, alloc: Global, width: u64) -> Result<Vec<i128>, Memory>
    requires some { 0 < width }
    requires short { width ≤ 2 ^ 14 }
    requires table { IsTable table.now }
    requires room { (most : ℕ) × HasRowsWithin table.now most × (width * most ≤ 2 ^ 126) }
    ensures { IfOk result (λ row. row.items ≡ (summed_row width (responses_of table.now) (pos 0)).weights) }
{
    let rounds = whole_rounds(table, alloc, width)?;
    let rest = Part {
        back: 0,
        count: width % table.rows.len() as u64,
        rounds: 1,
    };
    add_part(table, alloc, &rest, rounds)
}

// What the whole rounds of the classes come to.
fn whole_rounds(table: &Response, alloc: Global, width: u64) -> Result<Vec<i128>, Memory>
    requires short { width ≤ 2 ^ 14 }
    requires table { IsTable table.now }
    requires room { (most : ℕ) × HasRowsWithin table.now most × (width * most ≤ 2 ^ 126) }
    ensures { IfOk result (λ sums. sums.items ≡ whole table.now width) }
{
    let classes = table.rows.len() as u64;
    let sums = Vec::new(alloc);
    if width < classes {
        return Ok(sums);
    }
    let part = Part {
        back: width % classes,
        count: classes,
        rounds: width / classes,
    };
    add_part(table, alloc, &part, sums)
}

// The rows of `count` indices that end `back` indices before the first, each with those of the rounds before it, `rounds` in all.
#[derive(Drop)]
struct Part {
    back: u64,
    count: u64,
    rounds: u64,
}

// Sums and such rows.
fn add_part(
    table: &Response,
    alloc: Global,
    part: &Part,
    sums: Vec<i128>,
) -> Result<Vec<i128>, Memory>
    requires some { 1 ≤ part.now.rounds }
    requires short { part.now.rounds ≤ 2 ^ 14 }
    requires near { part.now.back + part.now.count ≤ 2 ^ 14 }
    requires table { IsTable table.now }
    requires room { (most limit : ℕ) × HasRowsWithin table.now most × AreWithin limit sums.items × (part.now.count * (part.now.rounds * most) + limit ≤ 2 ^ 126) }
    ensures { IfOk result (λ all. all.items ≡ with_part table.now part.now.back part.now.rounds part.now.count sums.items) }
{
    let mut all = sums;
    let mut left = part.count;
    while left > 0 {
        left -= 1;
        all = add_row(table, alloc, part.back + left, part.rounds, &all)?;
    }
    Ok(all)
}

// Sums and the row so many indices before the first, with those of the rounds before it.
fn add_row(
    table: &Response,
    alloc: Global,
    back: u64,
    rounds: u64,
    sums: &[i128],
) -> Result<Vec<i128>, Memory>
    requires some { 1 ≤ rounds }
    requires short { rounds ≤ 2 ^ 14 }
    requires near { back ≤ 2 ^ 14 }
    requires table { IsTable table.now }
    requires room { (most limit : ℕ) × HasRowsWithin table.now most × AreWithin limit sums.now × (rounds * most + limit ≤ 2 ^ 126) }
    ensures { IfOk result (λ all. all.items ≡ added
        (behind (delay (responses_of table.now (pos 0)).newest (responses_of table.now) (pos 0 -ℤ pos back)) (moving table.now.step rounds (responses_of table.now (pos 0 -ℤ pos back)).weights)) sums.now) }
{
    let place = place_before(table.rows.len() as u64, 0, back);
    let row = &table.rows[place.class as usize];
    let weights = moving_sum(alloc, &row.weights, table.step as usize, rounds as usize)?;
    let newest = u64::from(table.rows[0].newest) + place.rounds * table.step;
    let delay = newest.saturating_sub(u64::from(row.newest));
    added_behind(alloc, delay as usize, &weights, sums)
}
