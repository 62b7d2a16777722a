// The different names of a text, in the order of their first appearance.
ghost use Rattle.std.specs.Prelude.{◌≡◌};
ghost use Rattle.std.specs.Str.{IsAscii};

use crate::found::Symbol;
use crate::lexeme::Lexeme;
use crate::word::reserved;
use mr_values::{Memory, Text};
use std::alloc::Global;
use std::collections::HashMap;
use std::str::from_utf8;
use verilog_text::token::Token;

/// What a word is known as: what the tables have for it, or a name by its number.
#[derive(Clone, Copy)]
pub enum Known {
    Reserved(Symbol),
    Name(usize),
}

/// The names so far, and what each word so far is.
#[derive(Drop)]
pub struct Names<'a> {
    pub known: HashMap<&'a str, Known>,
    pub names: Vec<Text>,
}

impl Known {
    ghost use Rattle.verilog_lex.specs.Known.{known_lexeme, lexeme_view};

    /// The word as what stands at its place.
    pub fn lexeme(self) -> Lexeme
        ensures { lexeme_view result ≡ known_lexeme self }
    {
        match self {
            Known::Reserved(symbol) => match symbol {
                Symbol::Read(token) => Lexeme::Inside(token),
                Symbol::Outside => Lexeme::Outside,
                Symbol::Unreadable => Lexeme::Unreadable,
            },
            Known::Name(number) => Lexeme::Inside(Token::Name(number)),
        }
    }
}

// The word as a text.
fn text_of(word: &[u8]) -> &str
    requires { IsAscii word.now }
    ensures { result.now ≡ word.now }
{
    match from_utf8(word) {
        Ok(text) => text,
        Err(_) => unreachable!(),
    }
}

impl<'a> Names<'a> {
    ghost use Rattle.std.specs.Prelude.{◌∷◌, ◌++◌, [], length, IfOk, OnOk};
    ghost use Rattle.verilog_tree.specs.Renaming.{number_in};
    ghost use Rattle.verilog_text.specs.Lexer.{NameText, word_piece};
    ghost use Rattle.verilog_text.specs.Names.{with_piece, lexeme_in};
    ghost use Rattle.verilog_lex.specs.Known.{Knows, lexeme_view};
    ghost use Rattle.verilog_lex.specs.Found.{symbol_view};

    /// No names.
    pub fn new(alloc: Global) -> Self
        ensures names { result.names.items ≡ [] }
        ensures knows { Knows result }
    {
        Names {
            known: HashMap::new(alloc),
            names: Vec::new(alloc),
        }
    }

    // A word that the tables have.
    fn add_reserved(&mut self, text: &'a str, symbol: Symbol) -> Result<(), Memory>
        requires knows { Knows self.old }
        requires is { word_piece text.now ≡ symbol_view symbol }
        ensures knows { OnOk result (Knows self.new) }
        ensures names { OnOk result (self.new.names.items ≡ self.old.names.items) }
    {
        self.known.insert(text, Known::Reserved(symbol))?;
        Ok(())
    }

    // A name that was not there.
    fn add_name(&mut self, alloc: Global, text: &'a str) -> Result<usize, Memory>
        requires knows { Knows self.old }
        requires new { number_in self.old.names.items text.now ≡ length self.old.names.items }
        requires is { word_piece text.now ≡ NameText text.now }
        ensures knows { OnOk result (Knows self.new) }
        ensures names { OnOk result (self.new.names.items ≡ self.old.names.items ++ text.now ∷ []) }
        ensures number { IfOk result (λ n. n ≡ length self.old.names.items) }
    {
        let number = self.names.len();
        let name = Text::from_str(alloc, text)?;
        self.names.push(name)?;
        self.known.insert(text, Known::Name(number))?;
        Ok(number)
    }

    // A word that was not there.
    fn add(&mut self, alloc: Global, text: &'a str) -> Result<Lexeme, Memory>
        requires knows { Knows self.old }
        requires new { number_in self.old.names.items text.now ≡ length self.old.names.items }
        ensures knows { OnOk result (Knows self.new) }
        ensures names { OnOk result (self.new.names.items ≡ with_piece self.old.names.items (word_piece text.now)) }
        ensures lexeme { IfOk result (λ x. lexeme_view x ≡ lexeme_in self.new.names.items (word_piece text.now)) }
    {
        match reserved(text.as_bytes()) {
            Some(symbol) => {
                self.add_reserved(text, symbol)?;
                Ok(Known::Reserved(symbol).lexeme())
            }
            None => {
                let number = self.add_name(alloc, text)?;
                Ok(Lexeme::Inside(Token::Name(number)))
            }
        }
    }

    /// What stands at the place of a word, which is among the names from now on if it is a name. Fails only for want
    /// of memory.
    pub fn lexeme_of(&mut self, alloc: Global, word: &'a [u8]) -> Result<Lexeme, Memory>
        requires knows { Knows self.old }
        requires ascii { IsAscii word.now }
        ensures knows { OnOk result (Knows self.new) }
        ensures names { OnOk result (self.new.names.items ≡ with_piece self.old.names.items (word_piece word.now)) }
        ensures lexeme { IfOk result (λ x. lexeme_view x ≡ lexeme_in self.new.names.items (word_piece word.now)) }
    {
        let text = text_of(word);
        match self.known.get(text) {
            Some(known) => Ok(known.lexeme()),
            None => self.add(alloc, text),
        }
    }
}
