// The tokens of assignments and blocks.
ghost use Rattle.std.specs.Prelude.{◌≡◌, [], ◌∷◌, ◌++◌, map, OnOk};
ghost use Rattle.verilog_tree.specs.View.{action_view, assignment_view};
ghost use Rattle.verilog_text.specs.Text.{item_text, items_text};
ghost use Rattle.verilog_text.specs.Shortest.{assigned_of, clocked_of};
ghost use Rattle.verilog_write.specs.Parts.{event_text};

use crate::expression::{put, put_mark, write_expression};
use crate::statement::{put_word, write_statement};
use mr_values::Memory;
use verilog_text::token::{Mark, Token, Word};
use verilog_tree::{Assign, Stmt};

// Appends an assignment.
#[tactic(auto, using(crate::proofs::Writings::writings))]
fn write_assign(assign: &Assign, out: &mut Vec<Token>) -> Result<(), Memory>
    ensures { OnOk result (out.new.items ≡ out.old.items ++ item_text 0 (assigned_of (assignment_view assign.now)) []) }
{
    put_word(out, Word::Assign)?;
    put(out, Token::Name(assign.target))?;
    put_mark(out, Mark::Assigned)?;
    write_expression(&assign.value, out)?;
    put_mark(out, Mark::Semicolon)
}

/// Appends assignments.
#[tactic(auto, using(crate::proofs::Writings::writings))]
pub fn write_assigns(assigns: &[Assign], out: &mut Vec<Token>) -> Result<(), Memory>
    ensures { OnOk result (out.new.items ≡ out.old.items ++ items_text 0 (map assigned_of (map assignment_view assigns.now)) []) }
{
    for assign in assigns {
        write_assign(assign, out)?;
    }
    Ok(())
}

// Appends what stands before the statement of an always block.
#[tactic(auto, using(crate::proofs::Writings::writings))]
fn write_event(clock: usize, out: &mut Vec<Token>) -> Result<(), Memory>
    ensures { OnOk result (out.new.items ≡ out.old.items ++ event_text clock) }
{
    put_word(out, Word::Always)?;
    put_mark(out, Mark::At)?;
    put_mark(out, Mark::Open)?;
    put_word(out, Word::Posedge)?;
    put(out, Token::Name(clock))?;
    put_mark(out, Mark::Close)
}

// Appends an always block.
#[tactic(auto, using(crate::proofs::Writings::writings))]
fn write_block(block: &Stmt, clock: usize, out: &mut Vec<Token>) -> Result<(), Memory>
    ensures { OnOk result (out.new.items ≡ out.old.items ++ item_text clock (clocked_of (action_view block.now)) []) }
{
    write_event(clock, out)?;
    write_statement(block, out)
}

/// Appends always blocks.
#[tactic(auto, using(crate::proofs::Writings::writings))]
pub fn write_blocks(blocks: &[Stmt], clock: usize, out: &mut Vec<Token>) -> Result<(), Memory>
    ensures { OnOk result (out.new.items ≡ out.old.items ++ items_text clock (map clocked_of (map action_view blocks.now)) []) }
{
    for block in blocks {
        write_block(block, clock, out)?;
    }
    Ok(())
}
