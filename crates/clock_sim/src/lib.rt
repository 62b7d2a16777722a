//! A simulator of modules, clock by clock.
#![tactic(auto)]

mod operand;
mod registers;
mod shape_table;
mod sim;
mod step;
mod steps;

pub use sim::{PortShape, Sim};
