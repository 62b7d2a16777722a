// The whole text.
ghost use Rattle.std.specs.Prelude.{◌≡◌, ◌∷◌, [], ◌++◌, ◌<◌, ◌≤◌, ◌+◌, ℕ, List, map, length, drop, IfOk, OnOk};
ghost use Rattle.std.specs.Str.{IsAscii};
ghost use Rattle.verilog_text.specs.Lexer.{Placed, word_piece};
ghost use Rattle.verilog_text.specs.Names.{lexeme_in};
ghost use Rattle.verilog_lex.specs.Found.{symbol_view};
ghost use Rattle.verilog_lex.specs.Known.{Knows, lexeme_view};
ghost use Rattle.verilog_lex.specs.Lexed.{standing_view, HasRead, IsReadTo, IsLexed};

use crate::bytes::is_letter;
use crate::found::{Found, Symbol};
use crate::lexeme::{Lexeme, PlacedLexeme};
use crate::names::Names;
use crate::piece::{piece_at, word_len};
use mr_values::{Memory, Text};
use std::alloc::Global;

/// A text as tokens: its different names in the order of their first appearance, and what stands at each place. A
/// name's token has its number in that list.
#[derive(Drop)]
pub struct Lexed {
    pub names: Vec<Text>,
    pub items: Vec<PlacedLexeme>,
}

// Adds what stands at a place.
fn add(items: &mut Vec<PlacedLexeme>, at: usize, lexeme: Lexeme) -> Result<(), Memory>
    ensures { OnOk result (map standing_view items.new.items ≡ map standing_view items.old.items ++ record { place = at; lexeme = lexeme_view lexeme } ∷ []) }
{
    items.push(PlacedLexeme {
        place: at as u64,
        lexeme,
    })?;
    Ok(())
}

// Adds a word.
fn add_word<'a>(
    alloc: Global,
    names: &mut Names<'a>,
    items: &mut Vec<PlacedLexeme>,
    at: usize,
    word: &'a [u8],
) -> Result<(), Memory>
    requires knows { Knows names.old }
    requires ascii { IsAscii word.now }
    ensures knows { OnOk result (Knows names.new) }
    ensures more { OnOk result ((pieces : List Placed) → HasRead names.old.names.items items.old.items pieces → HasRead names.new.names.items items.new.items (pieces ++ record { place = at; piece = word_piece word.now } ∷ [])) }
{
    let lexeme = names.lexeme_of(alloc, word)?;
    add(items, at, lexeme)?;
    Ok(())
}

fn lexeme_of(symbol: Symbol) -> Lexeme
    ensures { (names : List (List ℕ)) → lexeme_view result ≡ lexeme_in names (symbol_view symbol) }
{
    match symbol {
        Symbol::Read(token) => Lexeme::Inside(token),
        Symbol::Outside => Lexeme::Outside,
        Symbol::Unreadable => Lexeme::Unreadable,
    }
}

// Adds what is no word.
fn add_symbol(items: &mut Vec<PlacedLexeme>, at: usize, symbol: Symbol) -> Result<(), Memory>
    ensures { OnOk result ((names : List (List ℕ)) (pieces : List Placed) → HasRead names items.old.items pieces → HasRead names items.new.items (pieces ++ record { place = at; piece = symbol_view symbol } ∷ [])) }
{
    add(items, at, lexeme_of(symbol))?;
    Ok(())
}

// Reads the piece at a place, and gives the place behind it: the end, where no piece begins.
fn scan<'a>(
    alloc: Global,
    names: &mut Names<'a>,
    items: &mut Vec<PlacedLexeme>,
    bytes: &'a [u8],
    at: usize,
) -> Result<usize, Memory>
    requires within { at < length bytes.now }
    requires knows { Knows names.old }
    requires read { IsReadTo bytes.now at names.old.names.items items.old.items }
    ensures later { IfOk result (λ next. at < next) }
    ensures bound { IfOk result (λ next. next ≤ length bytes.now) }
    ensures knows { OnOk result (Knows names.new) }
    ensures read { IfOk result (λ next. IsReadTo bytes.now next names.new.names.items items.new.items) }
{
    let rest = &bytes[at..];
    if is_letter(rest[0]) {
        let len = word_len(rest);
        add_word(alloc, names, items, at, &rest[..len])?;
        return Ok(at + len);
    }
    match piece_at(rest) {
        Some((len, Found::Gap)) => Ok(at + len),
        Some((len, Found::Piece(symbol))) => {
            add_symbol(items, at, symbol)?;
            Ok(at + len)
        }
        None => {
            add_symbol(items, at, Symbol::Unreadable)?;
            Ok(bytes.len())
        }
    }
}

/// The tokens of a text, by the longest match, with what stands at the other places: outside words and marks, and
/// what is neither. Where no piece begins, the rest of the text is not read. Fails only for want of memory.
pub fn lex(alloc: Global, bytes: &[u8]) -> Result<Lexed, Memory>
    ensures { IfOk result (λ l. IsLexed bytes.now l.names.items l.items.items) }
{
    let mut names = Names::new(alloc);
    let mut items = Vec::new(alloc);
    let mut at = 0usize;
    'scanning: while at < bytes.len() {
        at = scan(alloc, &mut names, &mut items, bytes, at)?;
    }
    let Names {
        known: _,
        names: texts,
    } = names;
    Ok(Lexed {
        names: texts,
        items,
    })
}
