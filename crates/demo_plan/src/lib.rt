//! The plan and the samples that a number draws, and a line that tells what the plan makes of them.
//!
//! It owns the order of the draws, the law that every drawn plan is accepted, and the tally of values. It knows no files and no module.
//! The command `demo` relies on it.
#![tactic(auto)]

mod demo;
mod extremes;
mod laws;
mod line;
mod plan;
mod summary;
mod tally;

pub use demo::demo_line;
pub use laws::{law_of_acceptance, law_of_values};
pub use plan::{demo_plan, demo_samples, draw_sample};
pub use summary::tally_of;
pub use tally::Tally;
