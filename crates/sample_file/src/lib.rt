//! Files of samples and of stimuli, line by line.
#![tactic(auto)]

mod fault;
mod fields;
mod line;
mod lines;
mod numbers;
mod print;
mod ranges;
mod row;

pub use fault::LineFault;
pub use lines::{Lines, Step};
pub use print::put_row;
pub use ranges::{Stimulus, pattern, sample_of, stimulus_of};
pub use row::Row;
