//! What an element does to the table of a chain's responses.

ghost use Rattle.std.specs.Prelude.{◌≡◌, ℕ, ◌+◌, ◌*◌, ◌<◌, ◌≤◌, ◌^◌, pos, ◌-ℤ◌, length, IfOk, OnOk};
ghost use Rattle.mr_values.specs.Sequence.{ones};
ghost use Rattle.mr_values.specs.Value.{size, IsWithinLimits};
ghost use Rattle.plan_check.specs.Amounts.{magnitude};
ghost use Rattle.impulse_phase.specs.Gain.{HasGain};
ghost use Rattle.impulse_phase.specs.Response.{through_up, through_down, through_filter, through_filters, through, IsLinear, cycle_up, cycle_down, cycle_after};
ghost use Rattle.impulse_phase.specs.Reading.{as_response, rows_of, responses_of, cycle_of, IsTable, IsAhead, Passes, HasRoomFor};

use crate::filtered::filter_row;
use crate::summed::through_sum;
use crate::table::{Response, Row};
use mr_values::{Element, Memory};
use plan_check::gcd;
use std::alloc::Global;

impl Response {
    /// The responses after one more element. Fails only for want of memory.
    pub(crate) fn through(self, alloc: Global, element: &Element) -> Result<Response, Memory>
        requires linear { IsLinear element.now }
        requires limits { IsWithinLimits element.now }
        requires table { IsTable self }
        requires ahead { IsAhead self }
        requires room { HasRoomFor element.now self }
        ensures { IfOk result (λ response. Passes (through element.now) (cycle_after element.now) self response) }
    {
        match element {
            Element::Up { factor } => self.through_up(alloc, size(*factor)),
            Element::Down { factor } => self.through_down(alloc, size(*factor)),
            Element::Filter { taps, form: _ } => self.through_filter(alloc, taps.as_slice()),
            Element::CicDown {
                factor,
                stages,
                delay,
            } => {
                let width = size(*factor) * size(*delay);
                let summed = self.through_sums(alloc, size(*stages), width)?;
                summed.through_down(alloc, size(*factor))
            }
            Element::CicUp {
                factor,
                stages,
                delay,
            } => {
                let width = size(*factor) * size(*delay);
                let spread = self.through_up(alloc, size(*factor))?;
                spread.through_sums(alloc, size(*stages), width)
            }
            Element::Round { .. } | Element::Clip { .. } => Ok(self),
        }
    }

    fn through_up(&self, alloc: Global, factor: u64) -> Result<Response, Memory>
        requires some { 0 < factor }
        requires most { factor ≤ 4096 }
        requires few { length (rows_of self.now) * factor ≤ 2 ^ 32 }
        requires table { IsTable self.now }
        ensures { IfOk result (λ response. Passes (through_up factor) (cycle_up factor) self.now response) }
    {
        let mut rows = Vec::new(alloc);
        for index in 0..self.rows.len() as u64 * factor {
            rows.push(self.up_row(alloc, factor, index)?)?;
        }
        Ok(Response {
            rows,
            step: self.step,
        })
    }

    fn up_row(&self, alloc: Global, factor: u64, index: u64) -> Result<Row, Memory>
        requires some { 0 < factor }
        requires index { index < length (rows_of self.now) * factor }
        ensures { IfOk result (λ row. as_response row ≡ through_up factor (responses_of self.now) (pos index)) }
    {
        let row = &self.rows[(index / factor) as usize];
        if index % factor != 0 {
            return Ok(Row {
                newest: row.newest,
                weights: Vec::new(alloc),
            });
        }
        Ok(Row {
            newest: row.newest,
            weights: Vec::from_slice(alloc, &row.weights)?,
        })
    }

    fn through_down(&self, alloc: Global, factor: u64) -> Result<Response, Memory>
        requires some { 0 < factor }
        requires most { factor ≤ 4096 }
        requires soon { (cycle_down factor (cycle_of self.now)).step < 2 ^ 32 }
        requires table { IsTable self.now }
        requires ahead { IsAhead self.now }
        ensures { IfOk result (λ response. Passes (through_down factor) (cycle_down factor) self.now response) }
    {
        let classes = self.rows.len() as u64;
        let common = gcd(classes, factor);
        let mut rows = Vec::new(alloc);
        for index in 0..classes / common {
            rows.push(self.down_row(alloc, factor, index)?)?;
        }
        Ok(Response {
            rows,
            step: factor / common * self.step,
        })
    }

    fn down_row(&self, alloc: Global, factor: u64, index: u64) -> Result<Row, Memory>
        requires some { 0 < factor }
        requires most { factor ≤ 4096 }
        requires index { index < (cycle_down factor (cycle_of self.now)).classes }
        requires soon { (cycle_down factor (cycle_of self.now)).step < 2 ^ 32 }
        requires ahead { IsAhead self.now }
        ensures { IfOk result (λ row. as_response row ≡ through_down factor (responses_of self.now) (pos index)) }
    {
        let classes = self.rows.len() as u64;
        let place = index * factor;
        let row = &self.rows[(place % classes) as usize];
        let newest = u64::from(row.newest) + place / classes * self.step;
        Ok(Row {
            newest: newest as u32,
            weights: Vec::from_slice(alloc, &row.weights)?,
        })
    }

    fn through_filter(&self, alloc: Global, taps: &[i64]) -> Result<Response, Memory>
        requires short { length taps.now ≤ 2 ^ 14 }
        requires table { IsTable self.now }
        requires room { (gain : ℕ) × HasGain (responses_of self.now) gain × (magnitude taps.now * gain ≤ 2 ^ 126) }
        ensures { IfOk result (λ response. Passes (through_filter taps.now) (λ cycle. cycle) self.now response) }
    {
        let mut rows = Vec::new(alloc);
        for index in 0..self.rows.len() as u64 {
            rows.push(filter_row(self, alloc, taps, index)?)?;
        }
        Ok(Response {
            rows,
            step: self.step,
        })
    }

    // Sums of `width` values each, `stages` times.
    fn through_sums(self, alloc: Global, stages: u64, width: u64) -> Result<Response, Memory>
        requires some { 0 < width }
        requires short { width ≤ 2 ^ 14 }
        requires table { IsTable self }
        requires room { (gain : ℕ) × HasGain (responses_of self) gain × (width ^ stages * gain ≤ 2 ^ 126) }
        ensures { IfOk result (λ response. Passes (through_filters stages (ones width)) (λ cycle. cycle) self response) }
    {
        let mut response = self;
        for stage in 0..stages {
            response = through_sum(&response, alloc, width)?;
        }
        Ok(response)
    }
}

// A number of a plan as a size.
fn size(number: i64) -> u64
    ensures { result ≡ size number }
{
    if number < 0 { 0 } else { number as u64 }
}
