//! A filter between an Up and a Down folded in time: one window, a copy of it for each output, and accumulators that take one term in each
//! slot. The crate owns this form; it must know no other stage. The chain relies on it.
#![tactic(auto)]

mod accumulators;
mod cells;
mod control;
mod copies;
mod operands;
mod sums;
