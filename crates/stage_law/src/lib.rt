//! What a stage of a filter chain is: it adds nodes to a net that carry its elements.
#![tactic(auto)]

mod ranges;
mod stage;
mod weights;

pub use ranges::{Class, Range, Ranges};
pub use stage::{Cost, Emitted, Kind, Peak, Rates, Stage};
pub use weights::{Weight, WeightedSum};
