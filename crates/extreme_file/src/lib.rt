//! The file of an input that drives a register to a value.
#![tactic(auto)]

mod text;

pub use text::extreme_text;
