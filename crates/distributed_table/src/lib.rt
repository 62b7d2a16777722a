//! Filters by distributed arithmetic: runs of taps, each with a table that is addressed by one bit of each of its values, and an accumulator
//! that takes the bits from the highest. The crate owns this form; it must know no other stage. The chain relies on it.
#![tactic(auto)]

mod accumulators;
mod around;
mod choices;
mod copies;
mod distributed;
mod runs;
mod shown;
mod stage;
mod totals;

pub use distributed::Distributed;

#[cfg(test)]
mod tests;
