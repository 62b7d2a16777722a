//! The assignments of a module placed each after those that drive what it reads, and where none can be placed.
#![tactic(auto)]

mod depth;
mod order;

pub use order::{Placed, is_open, place_all, reads_open};
