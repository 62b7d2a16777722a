// The steps of an item.
ghost use Rattle.std.specs.Prelude.{◌≡◌};
ghost use Rattle.verilog_text.specs.Grammar.{limits};
ghost use Rattle.verilog_text.specs.Machine as inner;
ghost use Rattle.verilog_text.specs.StatementMachine as statement;
ghost use Rattle.verilog_text.specs.TextMachine as machine;
ghost use Rattle.verilog_parse.specs.View.{Gives};
ghost use Rattle.verilog_parse.specs.Begun.{state_view};
ghost use Rattle.verilog_parse.specs.StatementBegun.{statement_state_view};
ghost use Rattle.verilog_parse.specs.TextView.{draft_view, text_state_view};

use crate::expression::step as expression;
use crate::expression::step::ExpressionReader;
use crate::fault::Fault;
use crate::statement::step as statement;
use crate::statement::step::StatementReader;
use crate::text::draft::{Draft, TextReader};
use crate::text::phase::{Spot, TextPhase};
use std::alloc::Global;
use verilog_text::token::{Mark, Token, Why, Word};
use verilog_tree::Kind;

/// The most levels that are open at once.
const LEVELS: usize = 200;

// A word that begins an item or ends the module.
fn item_word(draft: Draft, word: Word) -> Result<TextReader, Fault>
    ensures { Gives text_state_view result (machine.item_word (draft_view draft) word) }
{
    let phase = match word {
        Word::Wire => TextPhase::Heading(Kind::Wire, Spot::Signable),
        Word::Reg => TextPhase::Heading(Kind::Reg, Spot::Signable),
        Word::Assign => TextPhase::Targeting,
        Word::Always => TextPhase::AtEvent,
        Word::EndModule => TextPhase::Finished,
        _ => return Err(Fault::Refused(Why::Syntax)),
    };
    Ok(TextReader { draft, phase })
}

/// What begins an item or ends the module.
pub fn item_step(draft: Draft, token: Token) -> Result<TextReader, Fault>
    ensures { Gives text_state_view result (machine.item_step (draft_view draft) token) }
{
    match token {
        Token::Keyword(word) => item_word(draft, word),
        _ => Err(Fault::Refused(Why::Syntax)),
    }
}

fn value_end(
    alloc: Global,
    mut draft: Draft,
    target: usize,
    reader: ExpressionReader,
) -> Result<TextReader, Fault>
    ensures { Gives text_state_view result (machine.or_assigned (draft_view draft) target (inner.finish (state_view reader))) }
{
    match expression::finish(alloc, reader)? {
        Some(value) => {
            draft.assign(target, value)?;
            Ok(TextReader {
                draft,
                phase: TextPhase::AtItem,
            })
        }
        None => Err(Fault::Refused(Why::Syntax)),
    }
}

/// The right side of an assignment.
pub fn valued_step(
    alloc: Global,
    draft: Draft,
    target: usize,
    reader: ExpressionReader,
    token: Token,
) -> Result<TextReader, Fault>
    ensures { Gives text_state_view result (machine.valued_step limits (draft_view draft) target (state_view reader) token) }
{
    match token {
        Token::Punctuation(Mark::Semicolon) => value_end(alloc, draft, target, reader),
        _ => {
            let next = expression::step(alloc, LEVELS, reader, token)?;
            Ok(TextReader {
                draft,
                phase: TextPhase::Valued(target, next),
            })
        }
    }
}

// The statement of an always block is over.
fn block_end(
    alloc: Global,
    mut draft: Draft,
    reader: StatementReader,
    word: Word,
) -> Result<TextReader, Fault>
    ensures { Gives text_state_view result (machine.or_over (draft_view draft) (statement.finish (statement_state_view reader)) word) }
{
    match statement::finish(alloc, reader)? {
        Some(block) => {
            draft.run(block)?;
            item_word(draft, word)
        }
        None => Err(Fault::Refused(Why::Syntax)),
    }
}

fn statement_step(
    alloc: Global,
    draft: Draft,
    reader: StatementReader,
    token: Token,
) -> Result<TextReader, Fault>
    ensures { Gives text_state_view result (machine.statement_lifted (draft_view draft) (statement.step limits (statement_state_view reader) token)) }
{
    let next = statement::step(alloc, reader, token)?;
    Ok(TextReader {
        draft,
        phase: TextPhase::Running(next),
    })
}

fn running_word(
    alloc: Global,
    draft: Draft,
    reader: StatementReader,
    word: Word,
) -> Result<TextReader, Fault>
    ensures { Gives text_state_view result (machine.running_word limits (draft_view draft) (statement_state_view reader) word) }
{
    match word {
        Word::Wire | Word::Reg | Word::Assign | Word::Always | Word::EndModule => block_end(
            alloc, draft, reader, word,
        ),
        _ => statement_step(alloc, draft, reader, Token::Keyword(word)),
    }
}

/// The statement of an always block, which ends where an item begins.
pub fn running_step(
    alloc: Global,
    draft: Draft,
    reader: StatementReader,
    token: Token,
) -> Result<TextReader, Fault>
    ensures { Gives text_state_view result (machine.running_step limits (draft_view draft) (statement_state_view reader) token) }
{
    match token {
        Token::Keyword(word) => running_word(alloc, draft, reader, word),
        _ => statement_step(alloc, draft, reader, token),
    }
}
