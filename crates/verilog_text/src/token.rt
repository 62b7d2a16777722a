//! The tokens of the subset (after IEEE 1364-2001, clause 2).

use verilog_tree::{Op, ShiftOp};

/// A word of the subset.
#[derive(Clone, Copy, Debug, PartialEq, Eq)]
pub enum Word {
    Module,
    EndModule,
    Input,
    Output,
    Wire,
    Reg,
    Signed,
    Assign,
    Always,
    Posedge,
    Begin,
    End,
    If,
    Else,
}

/// A mark of the subset that is no binary operator and no shift.
#[derive(Clone, Copy, Debug, PartialEq, Eq)]
pub enum Mark {
    Open,
    Close,
    OpenBracket,
    CloseBracket,
    OpenBrace,
    CloseBrace,
    Comma,
    Semicolon,
    Colon,
    Question,
    At,
    Assigned,
    Inverse,
}

/// A decimal number without a size, and whether it is written with one digit.
#[derive(Clone, Copy, Debug, PartialEq, Eq)]
pub struct Decimal {
    pub value: u32,
    pub is_single: bool,
}

/// A number with a size, as `4'sh8`: its size in bits, whether it is signed, and its bits.
#[derive(Clone, Copy, Debug, PartialEq, Eq)]
pub struct Literal {
    pub width: u8,
    pub signed: bool,
    pub bits: u128,
}

/// A token. A name is a number into a list of different names. The mark `<=` is the operator `LessEqual`.
#[derive(Clone, Copy, Debug, PartialEq, Eq)]
pub enum Token {
    Name(usize),
    Number(Decimal),
    Based(Literal),
    Keyword(Word),
    Operator(Op),
    Shift(ShiftOp),
    Punctuation(Mark),
}

/// Why a text is refused at a place.
#[derive(Clone, Copy, Debug, PartialEq, Eq)]
pub enum Why {
    Lexical,
    Syntax,
    OutsideSubset,
    TooDeep,
}
