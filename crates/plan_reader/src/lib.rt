//! Plan files and tap files.
#![tactic(auto)]

mod document;
mod fault;
mod fields;
mod keys;
mod plan_texts;
mod printing;
mod reading;
mod shape;
mod tap_fields;
mod tap_rows;
mod tapped;

pub use fault::{FieldWhy, PlanReadFault, TapFault, TapWhy};
pub use plan_texts::{PlanText, TapFile, TapFiles};
pub use printing::plan_text;
pub use reading::read_plan;
pub use tap_rows::read_taps;
