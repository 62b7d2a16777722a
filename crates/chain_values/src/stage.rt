//! The stages of a chain.

ghost use Rattle.std.specs.Prelude.{OnOk};
ghost use Rattle.chain_values.specs.ChainStates.{Advances};

use crate::fir::Fir;
use crate::moving_sum::MovingSum;
use crate::rounding::{Clipping, Rounding};
use std::alloc::AllocError;

/// One stage of a chain, midway in a stream.
#[derive(Drop)]
pub enum Stage {
    Group(Fir),
    Sum(MovingSum),
    Rounded(Rounding),
    Clipped(Clipping),
}

impl Stage {
    /// Takes values, and gives the outputs that they make due.
    pub fn push_all(&mut self, values: &[i64], out: &mut Vec<i64>) -> Result<(), AllocError>
        ensures { OnOk result (Advances self.old values.now out.old.items out.new.items self.new) }
    {
        match self {
            Stage::Group(group) => group.push_all(values, out)?,
            Stage::Sum(sum) => sum.push_all(values, out)?,
            Stage::Rounded(rounding) => rounding.push_all(values, out)?,
            Stage::Clipped(clipping) => clipping.push_all(values, out)?,
        }
        Ok(())
    }
}
