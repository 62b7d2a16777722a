//! Cascades of integrators and combs as stages of a chain.
#![tactic(auto)]

mod cascades;
mod decimator;
mod interpolator;
mod laws;
mod phases;
mod registers;
mod stages;

pub use laws::law_of_cascades;
pub use stages::{CicDown, CicUp};
