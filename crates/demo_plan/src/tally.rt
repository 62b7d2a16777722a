// The count, the sum, the least and the greatest of values that come one by one.
ghost use Rattle.std.specs.Prelude.{◌≡◌, ◌≤◌, ◌*◌, ◌^◌, unsigned_abs};

use crate::extremes::{greatest_with, least_with};
use crate::line::{put_number, put_value};
use mr_values::Memory;
use std::alloc::Global;

/// What is told of the values so far.
#[derive(Clone, Copy, Debug)]
pub struct Tally {
    count: u64,
    sum: i128,
    least: i128,
    greatest: i128,
    ghost few: { count ≤ 2 ^ 32 },
    ghost small: { unsigned_abs sum ≤ count * 2 ^ 64 },
}

impl Tally {
    ghost use Rattle.std.specs.Prelude.{List, [], ◌∷◌, ◌++◌, ◌<◌, ℤ, IfOk};
    ghost use Rattle.demo_plan.specs.Tallied.{IsTally, line_of};

    /// The tally of no value.
    pub fn new() -> Tally
        ensures { IsTally [] result }
    {
        Tally {
            count: 0,
            sum: 0,
            least: 0,
            greatest: 0,
        }
    }

    /// Counts one more value.
    pub fn add(&mut self, value: i128)
        requires few { self.old.count < 2 ^ 32 }
        requires small { unsigned_abs value ≤ 2 ^ 64 }
        ensures { (values : List ℤ) → IsTally values self.old → IsTally (values ++ value ∷ []) self.new }
    {
        *self = Tally {
            count: self.count + 1,
            sum: self.sum + value,
            least: least_with(self.count, self.least, value),
            greatest: greatest_with(self.count, self.greatest, value),
        };
    }

    /// The line of the values so far.
    pub fn line(&self, alloc: Global) -> Result<Vec<u8>, Memory>
        ensures { IfOk result (λ text. (values : List ℤ) → IsTally values self.now → text.items ≡ line_of values) }
    {
        let mut text = Vec::new(alloc);
        put_number(&mut text, "count ", self.count)?;
        put_value(&mut text, " sum ", self.sum)?;
        put_value(&mut text, " least ", self.least)?;
        put_value(&mut text, " greatest ", self.greatest)?;
        text.extend_from_slice(b"\n")?;
        Ok(text)
    }
}
