//! From a plan to the bytes of its module.
#![tactic(auto)]

mod chain;
mod extremes;
mod small;

pub use chain::{ChainModule, chain_module, chain_text};
