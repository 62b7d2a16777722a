//! A filter with mirrored taps before a Down as one window, a register for each pair of taps and one tree of sums.
#![tactic(auto)]

mod counts;
mod front;
mod mirror;
mod pairs;
mod stage;
mod sums;

pub use mirror::Mirror;

#[cfg(test)]
mod tests;
