//! The commands that begin with a text: `sim` and `order`.
#![tactic(auto)]

mod order_command;
mod sim_command;

pub use order_command::order;
pub use sim_command::sim;
