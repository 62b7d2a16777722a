//! The writer: the text of a module.
#![tactic(auto)]

mod bytes;
mod declaration;
mod expression;
mod item;
mod statement;
mod text;

pub use text::text_of;
