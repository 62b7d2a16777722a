//! The reader of the subset of Verilog.
#![tactic(auto)]

mod draft;
mod fault;
mod places;
mod whole;

pub use fault::ReadFault;
pub use whole::read_module;
