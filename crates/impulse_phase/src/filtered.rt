//! What a filter does to a row of a table of responses.

ghost use Rattle.std.specs.Prelude.{◌≡◌, ℕ, ◌+◌, ◌*◌, ◌<◌, ◌≤◌, ◌^◌, pos, ◌-ℤ◌, length, unsigned_abs, IfOk, OnOk};
ghost use Rattle.mr_values.specs.Value.{size};
ghost use Rattle.plan_check.specs.Amounts.{magnitude};
ghost use Rattle.impulse_phase.specs.Gain.{HasGain};
ghost use Rattle.impulse_phase.specs.Response.{added, scaled, behind, combined, through_filter};
ghost use Rattle.impulse_phase.specs.Reading.{as_response, rows_of, responses_of, IsPlaceBefore};

use crate::sum::add_scaled;
use crate::table::{Response, Row};
use mr_values::Memory;
use std::alloc::Global;

/// The row at an index after a filter.
pub(crate) fn filter_row(
    table: &Response,
    alloc: Global,
    taps: &[i64],
    index: u64,
) -> Result<Row, Memory>
    requires short { length taps.now ≤ 2 ^ 14 }
    requires index { index < length (rows_of table.now) }
    requires room { (gain : ℕ) × HasGain (responses_of table.now) gain × (magnitude taps.now * gain ≤ 2 ^ 126) }
    ensures { IfOk result (λ row. as_response row ≡ through_filter taps.now (responses_of table.now) (pos index)) }
{
    let mut weights = Vec::new(alloc);
    let mut left = taps.len();
    while left > 0 {
        left -= 1;
        add_tap(table, &mut weights, taps[left], index, left as u64)?;
    }
    Ok(Row {
        newest: table.rows[index as usize].newest,
        weights,
    })
}

// Adds `tap` times the response `back` before the index, whose weights are told from the newest sample of the index on.
fn add_tap(
    table: &Response,
    sum: &mut Vec<i128>,
    tap: i64,
    index: u64,
    back: u64,
) -> Result<(), Memory>
    requires near { back ≤ 2 ^ 14 }
    requires index { index < length (rows_of table.now) }
    requires room { unsigned_abs tap * magnitude (responses_of table.now (pos index -ℤ pos back)).weights + magnitude sum.old.items ≤ 2 ^ 126 }
    ensures { OnOk result (sum.new.items ≡ added (scaled tap (behind
        (size ((responses_of table.now (pos index)).newest -ℤ (responses_of table.now (pos index -ℤ pos back)).newest))
        (responses_of table.now (pos index -ℤ pos back)).weights)) sum.old.items) }
{
    let place = place_before(table.rows.len() as u64, index, back);
    let row = &table.rows[place.class as usize];
    let newest = u64::from(table.rows[index as usize].newest) + place.rounds * table.step;
    add_scaled(
        sum,
        tap,
        newest.saturating_sub(u64::from(row.newest)),
        &row.weights,
    )
}

/// An index as a class, some rounds back.
#[derive(Drop)]
pub(crate) struct Place {
    pub(crate) class: u64,
    pub(crate) rounds: u64,
}

/// The index so many before another one.
pub(crate) fn place_before(classes: u64, index: u64, back: u64) -> Place
    requires index { index < classes }
    requires few { classes ≤ 2 ^ 32 }
    requires near { back ≤ 2 ^ 14 }
    ensures { IsPlaceBefore classes index back result.class result.rounds }
{
    let rest = back % classes;
    let rounds = back / classes;
    if rest <= index {
        Place {
            class: index - rest,
            rounds,
        }
    } else {
        Place {
            class: index + classes - rest,
            rounds: rounds + 1,
        }
    }
}
