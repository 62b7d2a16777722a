//! The lexer of the subset of Verilog: from bytes to tokens.
#![tactic(auto)]

mod bytes;
mod comment;
mod found;
mod lexeme;
mod mark;
mod names;
mod number;
mod piece;
mod whole;
mod word;

pub use lexeme::{Lexeme, PlacedLexeme};
pub use whole::{Lexed, lex};
