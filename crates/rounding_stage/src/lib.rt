//! Roundings and clippings as stages of a chain.
//!
//! It owns the nodes that round or clip a stream's value, and the register behind them. It knows no plan. `chain_build` relies on it.
#![tactic(auto)]

mod clipping;
mod ends;
mod half_even;
mod register;
mod rounding;

pub use clipping::Clipping;
pub use rounding::Rounding;
