// The places of declared names.
ghost use Rattle.std.specs.Prelude.{◌≡◌, ◌++◌, false, map, IfOk, OnOk};
ghost use Rattle.verilog_text.specs.Reading.{declares_behind, with_places};
ghost use Rattle.verilog_lex.specs.Known.{lexeme_view};
ghost use Rattle.verilog_lex.specs.Lexed.{standing_view};
ghost use Rattle.verilog_read.specs.Places.{is_name, place_in, declares_past, declared_in, signal_at};

use mr_values::Memory;
use std::alloc::Global;
use verilog_lex::{Lexeme, PlacedLexeme};
use verilog_text::token::{Mark, Token, Word};
use verilog_tree::Signal;

fn declares_behind(token: Token, declares: bool) -> bool
    ensures { result ≡ declares_behind token declares }
{
    match token {
        Token::Keyword(word) => match word {
            Word::Input | Word::Output | Word::Wire | Word::Reg => true,
            _ => declares,
        },
        Token::Punctuation(mark) => match mark {
            Mark::Semicolon => false,
            _ => declares,
        },
        _ => declares,
    }
}

// Whether names are declared behind what stands at a place.
fn declares_past(lexeme: Lexeme, declares: bool) -> bool
    ensures { result ≡ declares_past (lexeme_view lexeme) declares }
{
    match lexeme {
        Lexeme::Inside(token) => declares_behind(token, declares),
        Lexeme::Outside => declares,
        Lexeme::Unreadable => declares,
    }
}

fn is_name(lexeme: Lexeme) -> bool
    ensures { result ≡ is_name (lexeme_view lexeme) }
{
    match lexeme {
        Lexeme::Inside(token) => match token {
            Token::Name(_) => true,
            _ => false,
        },
        Lexeme::Outside => false,
        Lexeme::Unreadable => false,
    }
}

// Adds the place of a name, where names are declared.
fn add_place(places: &mut Vec<u64>, declares: bool, item: PlacedLexeme) -> Result<(), Memory>
    ensures { OnOk result (places.new.items ≡ places.old.items ++ place_in (is_name (lexeme_view item.lexeme)) declares item.place) }
{
    if is_name(item.lexeme) {
        if declares {
            places.push(item.place)?;
            return Ok(());
        }
        return Ok(());
    }
    Ok(())
}

/// The places of the names that are declared. Fails only for want of memory.
pub fn declared_places(alloc: Global, items: &[PlacedLexeme]) -> Result<Vec<u64>, Memory>
    ensures { IfOk result (λ places. places.items ≡ declared_in false (map standing_view items.now)) }
{
    let mut places = Vec::new(alloc);
    let mut declares = false;
    for item in items {
        add_place(&mut places, declares, *item)?;
        declares = declares_past(item.lexeme, declares);
    }
    Ok(places)
}

// The declaration of this number at its place, if there is one.
fn placed(signal: Signal, places: &[u64], k: usize) -> Signal
    ensures { result ≡ signal_at places.now k signal }
{
    match places.get(k) {
        Some(place) => Signal {
            place: *place,
            ..signal
        },
        None => signal,
    }
}

/// The declarations at these places. Fails only for want of memory.
pub fn placed_signals(
    alloc: Global,
    signals: &[Signal],
    places: &[u64],
) -> Result<Vec<Signal>, Memory>
    ensures { IfOk result (λ all. all.items ≡ with_places places.now signals.now) }
{
    let mut all = Vec::new(alloc);
    for (k, signal) in signals.iter().enumerate() {
        all.push(placed(*signal, places, k))?;
    }
    Ok(all)
}
