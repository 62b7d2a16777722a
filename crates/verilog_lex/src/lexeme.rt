// What stands at the places of a text.
use verilog_text::token::Token;

/// A token, an outside word or mark, or what is none of these.
#[derive(Clone, Copy, Debug, PartialEq, Eq)]
pub enum Lexeme {
    Inside(Token),
    Outside,
    Unreadable,
}

/// What stands at a place of a text, the byte at which it begins.
#[derive(Clone, Copy, Debug, PartialEq, Eq)]
pub struct PlacedLexeme {
    pub place: u64,
    pub lexeme: Lexeme,
}
