//! The responses of a chain, element by element, and what they tell of a class.

ghost use Rattle.std.specs.Prelude.{◌≡◌, ◌<◌, pos, length, get_or, All, IfOk};
ghost use Rattle.mr_values.specs.Value.{IsWithinLimits};
ghost use Rattle.impulse_phase.specs.Response.{AreLinear};
ghost use Rattle.impulse_phase.specs.Reading.{silent, rows_of, GivesValues, IsResponseOf, IsWithinReach, AreModest, IsFirst};

use crate::table::{Response, Row};
use mr_values::{Element, Memory};
use std::alloc::Global;

impl Response {
    /// The responses of the elements. Fails only for want of memory.
    pub fn of(alloc: Global, elements: &[Element]) -> Result<Response, Memory>
        requires linear { AreLinear elements.now }
        requires limits { All IsWithinLimits elements.now }
        requires modest { AreModest elements.now }
        ensures values { IfOk result (λ response. GivesValues elements.now response) }
        ensures told { IfOk result (λ response. IsResponseOf elements.now response) }
        ensures within { IfOk result (λ response. IsWithinReach elements.now response) }
    {
        let mut response = Response::of_samples(alloc)?;
        for element in elements {
            response = response.through(alloc, element)?;
        }
        Ok(response)
    }

    /// The number of classes.
    pub fn classes(&self) -> u64
        ensures { result ≡ length (rows_of self.now) }
    {
        self.rows.len() as u64
    }

    /// How many samples one round of the classes takes.
    pub fn step(&self) -> u64
        ensures { result ≡ self.now.step }
    {
        self.step
    }

    /// The weights of the value at index `class`, from those of its newest sample on backwards.
    pub fn phase(&self, class: u64) -> &[i128]
        requires { class < length (rows_of self.now) }
        ensures { result.now ≡ (get_or (rows_of self.now) class silent).weights }
    {
        &self.rows[class as usize].weights
    }

    /// The newest sample of the value at index `class`.
    pub fn newest(&self, class: u64) -> u32
        requires { class < length (rows_of self.now) }
        ensures { pos result ≡ (get_or (rows_of self.now) class silent).newest }
    {
        self.rows[class as usize].newest
    }

    // The responses of no element.
    fn of_samples(alloc: Global) -> Result<Response, Memory>
        ensures { IfOk result IsFirst }
    {
        let mut weights = Vec::new(alloc);
        weights.push(1)?;
        let mut rows = Vec::new(alloc);
        rows.push(Row { newest: 0, weights })?;
        Ok(Response { rows, step: 1 })
    }
}
