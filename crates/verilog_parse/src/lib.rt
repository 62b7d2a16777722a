//! The reader's machines: from the tokens of a text to the parts of its module.
#![tactic(auto)]

pub mod expression;
pub mod fault;
pub mod statement;
pub mod text;
