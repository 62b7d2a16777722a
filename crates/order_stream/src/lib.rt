//! A simulation of a stimulus that comes in pieces, in which each cycle is evaluated in an order drawn from a number.
#![tactic(auto)]

mod cycle;
mod laws;
mod stream;

pub use laws::{law_of_every_order, law_of_one_text};
pub use stream::OrderStream;
