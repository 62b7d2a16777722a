//! Writes a netlist as a module.
#![tactic(auto)]

mod expression;
mod laws;
mod text;
mod write;

pub use laws::{law_of_checks, law_of_steps};
pub use write::module_of;
