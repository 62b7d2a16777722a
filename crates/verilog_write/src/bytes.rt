// The bytes of tokens.
ghost use Rattle.std.specs.Prelude.{◌≡◌, false, ◌+◌, ◌<◌, ◌^◌, [], ◌∷◌, ◌++◌, length, decimal, OnOk, IfOk};
ghost use Rattle.std.specs.Fmt.{digits, digit_glyph};
ghost use Rattle.verilog_tree.specs.Renaming.{name_in};
ghost use Rattle.verilog_text.specs.declared.token.Token.TheVariants as token;
ghost use Rattle.verilog_text.specs.Spelling.{word_text, mark_text, op_text, shift_text};
ghost use Rattle.verilog_text.specs.Layout.{token_text, IsSpelled, AreSpelled, is_opening, is_closing, is_ending, is_comma, is_keyword, is_else, is_item, is_last, ends_line, between, behind, laid_out, heading};

use mr_values::{Memory, Text};
use std::alloc::Global;
use verilog_text::token::{Literal, Mark, Token, Word};
use verilog_tree::{Op, ShiftOp};

fn word_text(word: Word) -> &'static [u8]
    ensures { result.now ≡ word_text word }
{
    match word {
        Word::Module => b"module",
        Word::EndModule => b"endmodule",
        Word::Input => b"input",
        Word::Output => b"output",
        Word::Wire => b"wire",
        Word::Reg => b"reg",
        Word::Signed => b"signed",
        Word::Assign => b"assign",
        Word::Always => b"always",
        Word::Posedge => b"posedge",
        Word::Begin => b"begin",
        Word::End => b"end",
        Word::If => b"if",
        Word::Else => b"else",
    }
}

fn mark_text(mark: Mark) -> &'static [u8]
    ensures { result.now ≡ mark_text mark }
{
    match mark {
        Mark::Open => b"(",
        Mark::Close => b")",
        Mark::OpenBracket => b"[",
        Mark::CloseBracket => b"]",
        Mark::OpenBrace => b"{",
        Mark::CloseBrace => b"}",
        Mark::Comma => b",",
        Mark::Semicolon => b";",
        Mark::Colon => b":",
        Mark::Question => b"?",
        Mark::At => b"@",
        Mark::Assigned => b"=",
        Mark::Inverse => b"~",
    }
}

fn op_text(op: Op) -> &'static [u8]
    ensures { result.now ≡ op_text op }
{
    match op {
        Op::Add => b"+",
        Op::Sub => b"-",
        Op::Less => b"<",
        Op::LessEqual => b"<=",
        Op::Greater => b">",
        Op::GreaterEqual => b">=",
        Op::Equal => b"==",
        Op::NotEqual => b"!=",
        Op::And => b"&",
        Op::Xor => b"^",
        Op::Or => b"|",
    }
}

fn shift_text(op: ShiftOp) -> &'static [u8]
    ensures { result.now ≡ shift_text op }
{
    match op {
        ShiftOp::Left => b"<<",
        ShiftOp::Right => b">>",
        ShiftOp::ArithLeft => b"<<<",
        ShiftOp::ArithRight => b">>>",
    }
}

fn put_byte(out: &mut Vec<u8>, byte: u8) -> Result<(), Memory>
    ensures { OnOk result (out.new.items ≡ out.old.items ++ byte ∷ []) }
{
    out.push(byte)?;
    Ok(())
}

/// Appends bytes.
pub fn put_bytes(out: &mut Vec<u8>, bytes: &[u8]) -> Result<(), Memory>
    ensures { OnOk result (out.new.items ≡ out.old.items ++ bytes.now) }
{
    out.extend_from_slice(bytes)?;
    Ok(())
}

// Appends a number with decimal digits.
#[tactic(auto, using(crate::proofs::Digits::decimal_digits))]
fn put_decimal(value: u32, out: &mut Vec<u8>) -> Result<(), Memory>
    ensures { OnOk result (out.new.items ≡ out.old.items ++ decimal value) }
{
    if value < 10 {
        return put_byte(out, b'0' + value as u8);
    }
    put_decimal(value / 10, out)?;
    put_byte(out, b'0' + (value % 10) as u8)
}

fn hex_digit(value: u8) -> u8
    requires { value < 16 }
    ensures { result ≡ digit_glyph false value }
{
    if value < 10 {
        b'0' + value
    } else {
        b'a' + (value - 10)
    }
}

// Appends a number with hexadecimal digits.
#[tactic(auto, using(crate::proofs::Digits::hex_digits))]
fn put_hex(value: u128, out: &mut Vec<u8>) -> Result<(), Memory>
    ensures { OnOk result (out.new.items ≡ out.old.items ++ digits 16 false value) }
{
    if value < 16 {
        return put_byte(out, hex_digit(value as u8));
    }
    put_hex(value / 16, out)?;
    put_byte(out, hex_digit((value % 16) as u8))
}

// Appends a number with its size.
#[tactic(auto, using(crate::proofs::Writings::bytes))]
fn put_literal(literal: Literal, out: &mut Vec<u8>) -> Result<(), Memory>
    ensures { OnOk result (out.new.items ≡ out.old.items ++ token_text [] (token.Based literal)) }
{
    put_decimal(u32::from(literal.width), out)?;
    put_byte(out, b'\'')?;
    if literal.signed {
        put_byte(out, b's')?;
    }
    put_byte(out, b'h')?;
    put_hex(literal.bits, out)
}

/// Appends the bytes of a token.
pub fn put_token(names: &[Text], token: Token, out: &mut Vec<u8>) -> Result<(), Memory>
    requires { IsSpelled names.now token }
    ensures { OnOk result (out.new.items ≡ out.old.items ++ token_text names.now token) }
{
    match token {
        Token::Name(name) => put_bytes(out, names[name].as_str().as_bytes()),
        Token::Number(number) => put_decimal(number.value, out),
        Token::Based(literal) => put_literal(literal, out),
        Token::Keyword(word) => put_bytes(out, word_text(word)),
        Token::Operator(op) => put_bytes(out, op_text(op)),
        Token::Shift(op) => put_bytes(out, shift_text(op)),
        Token::Punctuation(mark) => put_bytes(out, mark_text(mark)),
    }
}

fn is_opening(token: Token) -> bool
    ensures { result ≡ is_opening token }
{
    matches!(
        token,
        Token::Punctuation(Mark::Open) | Token::Punctuation(Mark::OpenBracket)
    )
}

fn is_closing(token: Token) -> bool
    ensures { result ≡ is_closing token }
{
    match token {
        Token::Punctuation(mark) => match mark {
            Mark::Close | Mark::CloseBracket | Mark::Comma | Mark::Semicolon => true,
            _ => false,
        },
        _ => false,
    }
}

fn is_item(token: Token) -> bool
    ensures { result ≡ is_item token }
{
    match token {
        Token::Keyword(word) => match word {
            Word::Wire | Word::Reg | Word::Assign | Word::Always => true,
            _ => false,
        },
        _ => false,
    }
}

// Whether a line ends between these tokens.
fn ends_line(before: Token, after: Token) -> bool
    ensures { result ≡ ends_line before after }
{
    match before {
        Token::Punctuation(Mark::Comma) => match after {
            Token::Keyword(_) => true,
            _ => false,
        },
        Token::Punctuation(Mark::Semicolon) => match after {
            Token::Keyword(Word::Else) => false,
            _ => true,
        },
        _ => is_item(after),
    }
}

// What stands between two tokens.
fn between(before: Token, after: Token) -> &'static [u8]
    ensures { result.now ≡ between before after }
{
    if after == Token::Keyword(Word::EndModule) {
        return b"\n";
    }
    if ends_line(before, after) {
        return b"\n  ";
    }
    if is_opening(before) || is_closing(after) {
        return b"";
    }
    b" "
}

/// What stands behind a token that these follow.
pub fn behind(token: Token, rest: &[Token]) -> &'static [u8]
    ensures { result.now ≡ behind token rest.now }
{
    match rest {
        [] => b"\n",
        [next, ..] => between(token, *next),
    }
}
