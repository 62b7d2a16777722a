//! The subset of Verilog as text: its tokens, its grammar, and what a text reads as.
#![tactic(auto)]

pub mod law;
pub mod token;
