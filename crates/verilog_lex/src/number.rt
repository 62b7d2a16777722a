// Numbers.
ghost use Rattle.std.specs.Prelude.{◌≡◌, ◌≤◌, ◌^◌, min, length, slice_index, nat_lt, true, false, if◌then◌else◌, ◌==◌, ◌||◌, MatchOption, IfSome};
ghost use Rattle.std.specs.List.{list_any};
ghost use Rattle.verilog_text.specs.declared.token.Token.TheVariants as token;
ghost use Rattle.verilog_text.specs.Lexer as lexer;
ghost use Rattle.verilog_text.specs.Lexer.{Fixed, UnreadablePiece};
ghost use Rattle.verilog_lex.specs.Found.{symbol_view, value_with};
ghost use Rattle.verilog_lex.specs.Best.{IsBest, IsNever};

use crate::bytes::{digit_value, digits_len, is_digit_in, is_unknown, more_len};
use crate::found::Symbol;
use verilog_text::token::{Decimal, Literal, Token};

/// Numbers without a size are below this.
const DECIMALS: u32 = 0x8000_0000;

// The value with a digit more, or the bound where it is greater.
fn decimal_with(value: u32, digit: u8) -> u32
    requires { value ≤ 2 ^ 31 }
    ensures { result ≡ min (value_with 10 value digit) (2 ^ 31) }
{
    if digit == b'_' {
        return value;
    }
    let next = u64::from(value) * 10 + u64::from(digit_value(digit));
    if next < u64::from(DECIMALS) {
        next as u32
    } else {
        DECIMALS
    }
}

// The value of decimal digits, or the bound where it is greater.
fn decimal_value(digits: &[u8]) -> u32
    ensures { result ≡ min (lexer.value_behind 10 0 digits.now) (2 ^ 31) }
{
    let mut value = 0u32;
    for b in digits {
        value = decimal_with(value, *b);
    }
    value
}

// The value with a digit more, if it is below 2^128.
fn literal_with(value: u128, base: u8, digit: u8) -> Option<u128>
    ensures { MatchOption result (2 ^ 128 ≤ value_with base value digit) (λ next. next ≡ value_with base value digit) }
{
    if digit == b'_' {
        return Some(value);
    }
    let times = value.checked_mul(u128::from(base))?;
    times.checked_add(u128::from(digit_value(digit)))
}

// The value of the digits of a literal, if it is below 2^128.
fn literal_value(base: u8, digits: &[u8]) -> Option<u128>
    requires { 1 ≤ base }
    ensures { MatchOption result (2 ^ 128 ≤ lexer.value_behind base 0 digits.now) (λ value. value ≡ lexer.value_behind base 0 digits.now) }
{
    let mut value = 0u128;
    for b in digits {
        match literal_with(value, base, *b) {
            Some(next) => value = next,
            None => return None,
        }
    }
    Some(value)
}

// Whether a value has no more bits than this.
fn has_room(value: u128, size: u32) -> bool
    requires { size ≤ 128 }
    ensures { result ≡ nat_lt value (2 ^ size) }
{
    size == 128 || value >> size == 0
}

// What a literal of this size and these bits is.
fn pattern_read(size: u32, signed: bool, bits: u128) -> Symbol
    requires { size ≤ 128 }
    ensures { symbol_view result ≡ lexer.pattern_piece size signed bits }
{
    if has_room(bits, size) {
        Symbol::Read(Token::Based(Literal {
            width: size as u8,
            signed,
            bits,
        }))
    } else {
        Symbol::Unreadable
    }
}

// Whether there is a digit of no known value.
fn has_unknown(digits: &[u8]) -> bool
    ensures { result ≡ list_any lexer.is_unknown digits.now }
{
    digits.iter().any(|b| is_unknown(*b))
}

// What the digits of a literal of this size are.
#[tactic(auto, using(crate::proofs::Literals::literals))]
fn literal_read(size: u32, signed: bool, base: u8, digits: &[u8]) -> Symbol
    requires { 1 ≤ base }
    ensures { symbol_view result ≡ lexer.literal_piece size signed base digits.now }
{
    if size < 1 || size > 128 {
        return Symbol::Unreadable;
    }
    if has_unknown(digits) {
        return Symbol::Outside;
    }
    match literal_value(base, digits) {
        Some(bits) => pattern_read(size, signed, bits),
        None => Symbol::Unreadable,
    }
}

// The base that a letter names.
fn base_of(letter: u8) -> Option<u8>
    ensures value { result ≡ lexer.base_of letter }
    ensures some { IfSome result (λ base. 1 ≤ base) }
{
    match letter {
        b'h' | b'H' => Some(16),
        b'd' | b'D' => Some(10),
        b'b' | b'B' => Some(2),
        _ => None,
    }
}

// The digits of a literal, if there is one.
#[tactic(auto, using(crate::proofs::Literals::digits))]
fn digits_at(size: u32, signed: bool, base: u8, bytes: &[u8]) -> Option<(usize, Symbol)>
    requires { 1 ≤ base }
    ensures { MatchOption result (IsNever (lexer.digits_piece size signed (Some base)) bytes.now) (λ r. IsBest (lexer.digits_piece size signed (Some base)) bytes.now r.0 (symbol_view r.1)) }
{
    let [first, rest @ ..] = bytes else {
        return None;
    };
    if !is_digit_in(base, *first) {
        return None;
    }
    let len = 1 + more_len(base, rest);
    Some((len, literal_read(size, signed, base, &bytes[..len])))
}

// The letter of a base and the digits behind it, if they are there.
fn based_at(size: u32, signed: bool, bytes: &[u8]) -> Option<(usize, Symbol)>
    ensures { MatchOption result (IsNever (lexer.based_piece size signed) bytes.now) (λ r. IsBest (lexer.based_piece size signed) bytes.now r.0 (symbol_view r.1)) }
{
    let [letter, rest @ ..] = bytes else {
        return None;
    };
    match base_of(*letter) {
        Some(base) => match digits_at(size, signed, base, rest) {
            Some((len, found)) => Some((1 + len, found)),
            None => None,
        },
        None => None,
    }
}

// Whether a letter says that a literal is signed.
fn is_sign(letter: u8) -> bool
    ensures { result ≡ ((letter == 115) || (letter == 83)) }
{
    letter == b's' || letter == b'S'
}

// What stands behind the `'` of a literal, if it is there.
fn sized_at(size: u32, bytes: &[u8]) -> Option<(usize, Symbol)>
    ensures { MatchOption result (IsNever (lexer.sized_piece size) bytes.now) (λ r. IsBest (lexer.sized_piece size) bytes.now r.0 (symbol_view r.1)) }
{
    let [first, rest @ ..] = bytes else {
        return None;
    };
    if is_sign(*first) {
        match based_at(size, true, rest) {
            Some((len, found)) => Some((1 + len, found)),
            None => None,
        }
    } else {
        based_at(size, false, bytes)
    }
}

// What decimal digits are, by their value and whether there is one digit.
fn decimal_read(value: u32, is_single: bool) -> Symbol
    ensures { symbol_view result ≡ (if nat_lt value (2 ^ 31) then Fixed (token.Number (record { value = value; is_single = is_single })) else UnreadablePiece) }
{
    if value < DECIMALS {
        Symbol::Read(Token::Number(Decimal { value, is_single }))
    } else {
        Symbol::Unreadable
    }
}

/// The number at the front, and its length.
pub fn numeral_at(bytes: &[u8]) -> (usize, Symbol)
    requires some { 1 ≤ length bytes.now }
    requires no_letter { lexer.is_letter (slice_index bytes.now 0) ≡ false }
    requires a_digit { lexer.is_digit (slice_index bytes.now 0) ≡ true }
    ensures { lexer.IsLongest bytes.now result.0 (symbol_view result.1) }
{
    let len = digits_len(bytes);
    let value = decimal_value(&bytes[..len]);
    let decimal = decimal_read(value, len == 1);
    let [quote, rest @ ..] = &bytes[len..] else {
        return (len, decimal);
    };
    if *quote != b'\'' {
        return (len, decimal);
    }
    match sized_at(value, rest) {
        Some((more, literal)) => (len + 1 + more, literal),
        None => (len, decimal),
    }
}
