//! The outputs of a net: the register that takes a stream at its ticks, and the bit that is shown where the register has a new value. This crate owns what both
//! are; it knows no stage and no plan. `chain_build` relies on it.
#![tactic(auto)]

mod register;
mod shown;

pub use register::{output_register, range_width};
pub use shown::shown_bit;
