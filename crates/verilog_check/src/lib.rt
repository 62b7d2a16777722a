//! The checks of a module, in their order.
#![tactic(auto)]

mod declared;
mod drives;
mod early;
mod face;
mod laws;
mod repeats;
mod signal_checks;
mod text_order;
mod use_checks;
mod uses;
mod whole;
mod widths;

pub use laws::{law_of_exclusion, law_of_one_fault, law_of_totality};
pub use whole::{check, check_stream};
