//! The levels of the signals of a module, and its assignments sorted by them.
#![tactic(auto)]

mod order;
mod signal_levels;

pub use order::level_order;
pub use signal_levels::levels;

#[cfg(test)]
mod tests;
