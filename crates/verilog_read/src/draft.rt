// The reading of what stands in a text, one place after the other.
ghost use Rattle.std.specs.Prelude.{◌≡◌, Err, map};
ghost use Rattle.verilog_text.specs.TextMachine as machine;
ghost use Rattle.verilog_lex.specs.Known.{lexeme_view};
ghost use Rattle.verilog_lex.specs.Lexed.{standing_view};
ghost use Rattle.verilog_parse.specs.View.{Gives};
ghost use Rattle.verilog_parse.specs.TextView.{text_state_view};
ghost use Rattle.verilog_read.specs.Reader.{lexeme_step, ended, read_from, IsSmallLexeme, AreSmall};
ghost use Rattle.verilog_read.specs.Answer.{FailsAt, GivesDraft};

use crate::fault::ReadFault;
use std::alloc::Global;
use verilog_lex::{Lexeme, PlacedLexeme};
use verilog_parse::fault::Fault;
use verilog_parse::text::draft::{Draft, TextReader};
use verilog_parse::text::phase::TextPhase;
use verilog_parse::text::step as text;
use verilog_text::token::Why;

// Reads what stands at one place.
fn step(
    alloc: Global,
    clock: usize,
    reader: TextReader,
    lexeme: Lexeme,
) -> Result<TextReader, Fault>
    requires { IsSmallLexeme (lexeme_view lexeme) }
    ensures { Gives text_state_view result (lexeme_step clock (text_state_view reader) (lexeme_view lexeme)) }
{
    match lexeme {
        Lexeme::Inside(token) => text::step(alloc, clock, reader, token),
        Lexeme::Outside => Err(Fault::Refused(Why::OutsideSubset)),
        Lexeme::Unreadable => Err(Fault::Refused(Why::Lexical)),
    }
}

fn fault_at(place: u64, why: Why) -> ReadFault
    ensures { FailsAt result (Err (record { place = place; reason = why })) }
{
    match why {
        Why::Lexical => ReadFault::Lexical { place },
        Why::Syntax => ReadFault::Syntax { place },
        Why::OutsideSubset => ReadFault::OutsideSubset { place },
        Why::TooDeep => ReadFault::TooDeep { place },
    }
}

// What has been read, if the text may end here.
fn finish(reader: TextReader, end: u64) -> Result<Draft, ReadFault>
    ensures { GivesDraft result (ended (text_state_view reader) end) }
{
    let TextReader { draft, phase } = reader;
    match phase {
        TextPhase::Finished => Ok(draft),
        _ => Err(ReadFault::Syntax { place: end }),
    }
}

/// Reads what stands in a text of so many bytes; the first number is that of the name `clk`.
pub fn read_draft(
    alloc: Global,
    clock: usize,
    end: u64,
    items: &[PlacedLexeme],
) -> Result<Draft, ReadFault>
    requires { AreSmall (map standing_view items.now) }
    ensures { GivesDraft result (read_from clock end machine.start (map standing_view items.now)) }
{
    let mut reader = text::start(alloc);
    for item in items {
        match step(alloc, clock, reader, item.lexeme) {
            Ok(next) => reader = next,
            Err(Fault::Refused(why)) => return Err(fault_at(item.place, why)),
            Err(Fault::Memory) => return Err(ReadFault::Memory),
        }
    }
    finish(reader, end)
}
