//! A simulator of modules that evaluates the assignments of each cycle in an order drawn from a number.
#![tactic(auto)]

mod drawing;
mod readers;
mod sim;

pub use clock_sim::PortShape;
pub use sim::{OrderSim, Seen};
