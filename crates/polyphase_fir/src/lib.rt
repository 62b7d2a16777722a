//! A filter between an Up and a Down as one window and a tree of sums for each phase.
#![tactic(auto)]

mod counts;
mod numbers;
mod phases;
mod places;
mod polyphase;
mod roots;
mod stage;

pub use polyphase::Polyphase;
