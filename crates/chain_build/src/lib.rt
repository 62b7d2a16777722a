//! From a plan to the net that computes it.
#![tactic(auto)]

mod cascades;
mod chain;
mod extremes;
mod forms;
mod groups;
mod mirrored;
mod output;
mod parallel;
mod prefix;
mod serial;
mod stages;

pub use chain::{Built, build, can_build};
pub use extremes::{RegisterExtreme, RegisterSamples, register_extreme};
pub use groups::GroupCost;
