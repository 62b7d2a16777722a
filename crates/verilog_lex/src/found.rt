// What is found at the front of a text.
use verilog_text::token::Token;

/// What a number, a mark or a word of the tables is: a token, an outside one, or what is none of these.
#[derive(Clone, Copy, Debug, PartialEq, Eq)]
pub enum Symbol {
    Read(Token),
    Outside,
    Unreadable,
}

/// What the longest piece at a place is, where no word begins: a separator, or another one.
#[derive(Clone, Copy, Debug, PartialEq, Eq)]
pub enum Found {
    Gap,
    Piece(Symbol),
}
