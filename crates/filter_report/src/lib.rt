//! The report of a plan and its module.
#![tactic(auto)]

mod extremes;
mod groups;
mod registers;
mod report;

pub use report::report_text;
