// Marks.
ghost use Rattle.std.specs.Prelude.{◌≡◌, ◌∷◌, List, ℕ, MatchOption};
ghost use Rattle.std.specs.Option.{option_map};
ghost use Rattle.verilog_text.specs.Lexer.{looked_up, marks};
ghost use Rattle.verilog_lex.specs.Best.{IsBest, IsNever, IsNoLonger};
ghost use Rattle.verilog_lex.specs.Found.{symbol_view};
ghost use Rattle.verilog_lex.specs.Marks.{single, double, triple};

use crate::found::Symbol;
use verilog_text::token::{Mark, Token};
use verilog_tree::{Op, ShiftOp};

fn single(a: u8) -> Option<Symbol>
    ensures { single a ≡ option_map symbol_view result }
{
    match a {
        b'(' => Some(Symbol::Read(Token::Punctuation(Mark::Open))),
        b')' => Some(Symbol::Read(Token::Punctuation(Mark::Close))),
        b'[' => Some(Symbol::Read(Token::Punctuation(Mark::OpenBracket))),
        b']' => Some(Symbol::Read(Token::Punctuation(Mark::CloseBracket))),
        b'{' => Some(Symbol::Read(Token::Punctuation(Mark::OpenBrace))),
        b'}' => Some(Symbol::Read(Token::Punctuation(Mark::CloseBrace))),
        b',' => Some(Symbol::Read(Token::Punctuation(Mark::Comma))),
        b';' => Some(Symbol::Read(Token::Punctuation(Mark::Semicolon))),
        b':' => Some(Symbol::Read(Token::Punctuation(Mark::Colon))),
        b'?' => Some(Symbol::Read(Token::Punctuation(Mark::Question))),
        b'@' => Some(Symbol::Read(Token::Punctuation(Mark::At))),
        b'=' => Some(Symbol::Read(Token::Punctuation(Mark::Assigned))),
        b'~' => Some(Symbol::Read(Token::Punctuation(Mark::Inverse))),
        b'+' => Some(Symbol::Read(Token::Operator(Op::Add))),
        b'-' => Some(Symbol::Read(Token::Operator(Op::Sub))),
        b'<' => Some(Symbol::Read(Token::Operator(Op::Less))),
        b'>' => Some(Symbol::Read(Token::Operator(Op::Greater))),
        b'&' => Some(Symbol::Read(Token::Operator(Op::And))),
        b'^' => Some(Symbol::Read(Token::Operator(Op::Xor))),
        b'|' => Some(Symbol::Read(Token::Operator(Op::Or))),
        b'*' | b'%' | b'!' | b'#' | b'.' | b'$' | b'`' | b'"' => Some(Symbol::Outside),
        _ => None,
    }
}

fn double(a: u8, b: u8) -> Option<Symbol>
    ensures { double a b ≡ option_map symbol_view result }
{
    match (a, b) {
        (b'<', b'=') => Some(Symbol::Read(Token::Operator(Op::LessEqual))),
        (b'>', b'=') => Some(Symbol::Read(Token::Operator(Op::GreaterEqual))),
        (b'=', b'=') => Some(Symbol::Read(Token::Operator(Op::Equal))),
        (b'!', b'=') => Some(Symbol::Read(Token::Operator(Op::NotEqual))),
        (b'<', b'<') => Some(Symbol::Read(Token::Shift(ShiftOp::Left))),
        (b'>', b'>') => Some(Symbol::Read(Token::Shift(ShiftOp::Right))),
        (b'*', b'*') => Some(Symbol::Outside),
        (b'&', b'&') => Some(Symbol::Outside),
        (b'|', b'|') => Some(Symbol::Outside),
        (b'~', b'&') => Some(Symbol::Outside),
        (b'~', b'|') => Some(Symbol::Outside),
        (b'~', b'^') => Some(Symbol::Outside),
        (b'^', b'~') => Some(Symbol::Outside),
        (b'+', b':') => Some(Symbol::Outside),
        (b'-', b':') => Some(Symbol::Outside),
        _ => None,
    }
}

fn triple(a: u8, b: u8, c: u8) -> Option<Symbol>
    ensures { triple a b c ≡ option_map symbol_view result }
{
    match (a, b, c) {
        (b'<', b'<', b'<') => Some(Symbol::Read(Token::Shift(ShiftOp::ArithLeft))),
        (b'>', b'>', b'>') => Some(Symbol::Read(Token::Shift(ShiftOp::ArithRight))),
        (b'=', b'=', b'=') => Some(Symbol::Outside),
        (b'!', b'=', b'=') => Some(Symbol::Outside),
        _ => None,
    }
}

// The mark of one byte, where no longer one stands there.
fn of_one(a: u8) -> Option<(usize, Symbol)>
    ensures { (rest : List ℕ) → IsNoLonger (looked_up marks) (a ∷ rest) 1 → MatchOption result (IsNever (looked_up marks) (a ∷ rest)) (λ r. IsBest (looked_up marks) (a ∷ rest) r.0 (symbol_view r.1)) }
{
    match single(a) {
        Some(symbol) => Some((1, symbol)),
        None => None,
    }
}

// The longest mark of two bytes or one, where no longer one stands there.
fn of_two(a: u8, b: u8) -> Option<(usize, Symbol)>
    ensures { (rest : List ℕ) → IsNoLonger (looked_up marks) (a ∷ b ∷ rest) 2 → MatchOption result (IsNever (looked_up marks) (a ∷ b ∷ rest)) (λ r. IsBest (looked_up marks) (a ∷ b ∷ rest) r.0 (symbol_view r.1)) }
{
    match double(a, b) {
        Some(symbol) => Some((2, symbol)),
        None => of_one(a),
    }
}

// The longest mark of three bytes or fewer.
fn of_three(a: u8, b: u8, c: u8) -> Option<(usize, Symbol)>
    ensures { (rest : List ℕ) → MatchOption result (IsNever (looked_up marks) (a ∷ b ∷ c ∷ rest)) (λ r. IsBest (looked_up marks) (a ∷ b ∷ c ∷ rest) r.0 (symbol_view r.1)) }
{
    match triple(a, b, c) {
        Some(symbol) => Some((3, symbol)),
        None => of_two(a, b),
    }
}

/// The longest mark at the front, if there is one.
pub fn mark_at(bytes: &[u8]) -> Option<(usize, Symbol)>
    ensures { MatchOption result (IsNever (looked_up marks) bytes.now) (λ r. IsBest (looked_up marks) bytes.now r.0 (symbol_view r.1)) }
{
    match bytes {
        [] => None,
        [a] => of_one(*a),
        [a, b] => of_two(*a, *b),
        [a, b, c, ..] => of_three(*a, *b, *c),
    }
}
