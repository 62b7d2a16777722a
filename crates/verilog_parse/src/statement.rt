//! The machine that reads a statement, one step for each token.
pub mod frame;
pub mod phase;
pub mod stack;
pub mod step;
