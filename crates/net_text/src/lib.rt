//! The module that is written for a net has a text.
#![tactic(auto)]

mod laws;

pub use laws::law_of_text;
