//! Texts as modules that pass the checks, with the ports of a filter or those of ready and valid.
#![tactic(auto)]

mod reader;

pub use reader::{read_stream, read_text};
