//! The first loop of a module.
#![tactic(auto)]

mod dependents;
mod search;

pub use search::{first_loop, target_count};
