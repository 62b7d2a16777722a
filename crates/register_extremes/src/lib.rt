//! The file of an input that needs all bits of a linear register of a plan.
#![tactic(auto)]

mod text;

pub use text::register_text;
