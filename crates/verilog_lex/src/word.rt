// The words of the tables.
ghost use Rattle.std.specs.Prelude.{◌≡◌, bytes_eq, find};
ghost use Rattle.std.specs.List.{list_any};
ghost use Rattle.std.specs.Option.{option_map};
ghost use Rattle.verilog_text.specs.Spelling.{word_text, all_words};
ghost use Rattle.verilog_text.specs.Lexer.{outside_words, looked_up, words};
ghost use Rattle.verilog_lex.specs.Found.{symbol_view};

use crate::found::Symbol;
use verilog_text::token::{Token, Word};

/// The words of the subset.
const WORDS: [Word; 14] = [
    Word::Module,
    Word::EndModule,
    Word::Input,
    Word::Output,
    Word::Wire,
    Word::Reg,
    Word::Signed,
    Word::Assign,
    Word::Always,
    Word::Posedge,
    Word::Begin,
    Word::End,
    Word::If,
    Word::Else,
];

fn text_of(word: Word) -> &'static [u8]
    ensures { result.now ≡ word_text word }
{
    match word {
        Word::Module => b"module",
        Word::EndModule => b"endmodule",
        Word::Input => b"input",
        Word::Output => b"output",
        Word::Wire => b"wire",
        Word::Reg => b"reg",
        Word::Signed => b"signed",
        Word::Assign => b"assign",
        Word::Always => b"always",
        Word::Posedge => b"posedge",
        Word::Begin => b"begin",
        Word::End => b"end",
        Word::If => b"if",
        Word::Else => b"else",
    }
}

// The word of the subset that is written so.
fn keyword(text: &[u8]) -> Option<Word>
    ensures { result ≡ find (λ w. bytes_eq (word_text w) text.now) all_words }
{
    WORDS.iter().copied().find(|word| text_of(*word) == text)
}

/// The words of Verilog that the subset leaves out.
const OUTSIDE_WORDS: [&str; 109] = [
    "parameter",
    "localparam",
    "defparam",
    "generate",
    "endgenerate",
    "genvar",
    "function",
    "endfunction",
    "task",
    "endtask",
    "case",
    "casex",
    "casez",
    "endcase",
    "default",
    "for",
    "while",
    "repeat",
    "forever",
    "initial",
    "integer",
    "real",
    "realtime",
    "time",
    "inout",
    "negedge",
    "or",
    "and",
    "nand",
    "nor",
    "xor",
    "xnor",
    "not",
    "buf",
    "tri",
    "wand",
    "wor",
    "supply0",
    "supply1",
    "specify",
    "endspecify",
    "primitive",
    "endprimitive",
    "fork",
    "join",
    "wait",
    "disable",
    "event",
    "deassign",
    "force",
    "release",
    "automatic",
    "bufif0",
    "bufif1",
    "cell",
    "cmos",
    "config",
    "design",
    "edge",
    "endconfig",
    "endtable",
    "highz0",
    "highz1",
    "ifnone",
    "incdir",
    "include",
    "instance",
    "large",
    "liblist",
    "library",
    "macromodule",
    "medium",
    "nmos",
    "noshowcancelled",
    "notif0",
    "notif1",
    "pmos",
    "pull0",
    "pull1",
    "pulldown",
    "pullup",
    "pulsestyle_ondetect",
    "pulsestyle_onevent",
    "rcmos",
    "rnmos",
    "rpmos",
    "rtran",
    "rtranif0",
    "rtranif1",
    "scalared",
    "showcancelled",
    "small",
    "specparam",
    "strong0",
    "strong1",
    "table",
    "tran",
    "tranif0",
    "tranif1",
    "tri0",
    "tri1",
    "triand",
    "trior",
    "trireg",
    "unsigned",
    "use",
    "vectored",
    "weak0",
    "weak1",
];

// Whether a text is one of these words.
fn is_among(words: &[&str], text: &[u8]) -> bool
    ensures { result ≡ list_any (λ w. bytes_eq w.now text.now) words.now }
{
    words.iter().any(|word| word.as_bytes() == text)
}

// Whether a word of Verilog outside of the subset is written so.
fn is_outside(text: &[u8]) -> bool
    ensures { result ≡ list_any (λ w. bytes_eq w text.now) outside_words }
{
    is_among(&OUTSIDE_WORDS, text)
}

/// What the tables have for a word.
pub fn reserved(text: &[u8]) -> Option<Symbol>
    ensures { option_map symbol_view result ≡ looked_up words text.now }
{
    match keyword(text) {
        Some(word) => Some(Symbol::Read(Token::Keyword(word))),
        None => {
            if is_outside(text) {
                Some(Symbol::Outside)
            } else {
                None
            }
        }
    }
}
