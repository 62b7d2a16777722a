// The module of a text.
ghost use Rattle.std.specs.Prelude.{◌≡◌, false, IfOk, IfErr, map};
ghost use Rattle.verilog_tree.specs.Tree.{Design};
ghost use Rattle.verilog_tree.specs.View.{design_view};
ghost use Rattle.verilog_tree.specs.Renaming.{number_in};
ghost use Rattle.verilog_text.specs.Text.{clock_text};
ghost use Rattle.verilog_text.specs.Reading.{Reads};
ghost use Rattle.verilog_lex.specs.Lexed.{standing_view};
ghost use Rattle.verilog_parse.specs.TextView.{draft_view};
ghost use Rattle.verilog_read.specs.Places.{design_from, declared_in};
ghost use Rattle.verilog_read.specs.Answer.{IsStop};

use crate::draft::read_draft;
use crate::fault::ReadFault;
use crate::places::{declared_places, placed_signals};
use mr_values::{Memory, Text};
use std::alloc::Global;
use verilog_lex::{Lexed, lex};
use verilog_parse::text::draft::Draft;
use verilog_tree::Module;

// The number of the name `clk`, the count of names where it is none of them.
fn clock_number(names: &[Text]) -> usize
    ensures { result ≡ number_in names.now clock_text }
{
    for (k, name) in names.iter().enumerate() {
        if name.as_str() == "clk" {
            return k;
        }
    }
    names.len()
}

// The module of what has been read.
fn module_of(alloc: Global, lexed: Lexed, draft: Draft) -> Result<Module, Memory>
    ensures { IfOk result (λ m. design_view m ≡ design_from lexed.names.items (declared_in false (map standing_view lexed.items.items)) (draft_view draft)) }
{
    let Lexed { names, items } = lexed;
    let Draft {
        name,
        signals,
        assigns,
        blocks,
    } = draft;
    let places = declared_places(alloc, items.as_slice())?;
    let signals = placed_signals(alloc, signals.as_slice(), places.as_slice())?;
    Ok(Module {
        name,
        names,
        signals,
        assigns,
        blocks,
    })
}

/// Reads the module of a text of the grammar. Its checks are not made here.
pub fn read_module(alloc: Global, bytes: &[u8]) -> Result<Module, ReadFault>
    // What is read is the module that the text reads as.
    ensures found { IfOk result (λ m. Reads bytes.now (design_view m)) }

    // A text that reads as a module is refused only for want of memory.
    ensures only { (d : Design) → Reads bytes.now d → IfErr result (λ e. e ≡ ReadFault.Memory) }

    // A refusal is at a place where no text of the grammar goes on so.
    ensures refused { IfErr result (IsStop bytes.now) }
{
    let lexed = lex(alloc, bytes)?;
    let clock = clock_number(lexed.names.as_slice());
    let end = bytes.len() as u64;
    let draft = match read_draft(alloc, clock, end, lexed.items.as_slice()) {
        Ok(draft) => draft,
        Err(refusal) => return Err(refusal),
    };
    let whole = module_of(alloc, lexed, draft)?;
    Ok(whole)
}
