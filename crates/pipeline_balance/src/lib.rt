//! Pieces of a pipeline: bits that tell ticks, windows, selections, delays and sums.
#![tactic(auto)]

mod adder_tree;
mod delays;
mod gates;
mod level;
mod numbering;
mod pair;
mod phase;
mod selections;
mod ticks;
mod windows;

pub use adder_tree::{Summed, tree};
pub use delays::delay;
pub use gates::{counter, gate_of};
pub use numbering::next_register;
pub use phase::phases;
pub use selections::{select, select_or_zero};
pub use ticks::ticks_after;
pub use windows::{taking_register, window};
