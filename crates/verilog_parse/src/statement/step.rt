// The steps of the machine for statements.
ghost use Rattle.std.specs.Prelude.{◌≡◌, ◌+◌, ◌-◌, ◌≤◌, IfOk};
ghost use Rattle.std.specs.Option.{option_map};
ghost use Rattle.verilog_tree.specs.Tree as tree;
ghost use Rattle.verilog_tree.specs.View.{tree_view, action_view, actions_view};
ghost use Rattle.verilog_text.specs.declared.token.Mark.TheVariants as mark;
ghost use Rattle.verilog_text.specs.declared.token.Token.TheVariants as token;
ghost use Rattle.verilog_text.specs.Grammar.{limits};
ghost use Rattle.verilog_text.specs.Machine as inner;
ghost use Rattle.verilog_text.specs.StatementMachine as machine;
ghost use Rattle.verilog_parse.specs.View.{limits_of, Gives};
ghost use Rattle.verilog_parse.specs.Begun.{state_view};
ghost use Rattle.verilog_parse.specs.StatementBegun.{statement_begun, statement_state_view};

use crate::expression::step as expression;
use crate::expression::step::ExpressionReader;
use crate::fault::Fault;
use crate::statement::frame::StatementFrame;
use crate::statement::phase::StatementPhase;
use crate::statement::stack::StatementStack;
use std::alloc::{AllocError, Global};
use verilog_text::token::{Mark, Token, Why, Word};
use verilog_tree::{Expr, Op, Stmt};

/// The most levels that are open at once.
const LEVELS: usize = 200;

/// What has been read of a statement.
#[derive(Drop)]
pub struct StatementReader {
    pub stack: StatementStack,
    pub phase: StatementPhase,
}

// `if` without an `else`.
fn guarded(alloc: Global, condition: Expr, on_true: Stmt) -> Result<Stmt, AllocError>
    ensures { IfOk result (λ whole. action_view whole ≡ tree.When (tree_view condition) (action_view on_true)) }
{
    let on_true = Box::new(alloc, on_true)?;
    Ok(Stmt::If(condition, on_true, None))
}

// `if` with an `else`.
fn forked(alloc: Global, condition: Expr, on_true: Stmt, on_false: Stmt) -> Result<Stmt, AllocError>
    ensures { IfOk result (λ whole. action_view whole ≡ tree.Either (tree_view condition) (action_view on_true) (action_view on_false)) }
{
    let on_true = Box::new(alloc, on_true)?;
    let on_false = Box::new(alloc, on_false)?;
    Ok(Stmt::If(condition, on_true, Some(on_false)))
}

// A block.
fn blocked(members: Vec<Stmt>) -> Stmt
    ensures { action_view result ≡ tree.Block (actions_view members.items) }
{
    Stmt::Block(members)
}

// The statements of a block and one more.
fn with_last(mut members: Vec<Stmt>, member: Stmt) -> Result<Vec<Stmt>, AllocError>
    ensures { IfOk result (λ all. actions_view all.items ≡ machine.with_last (actions_view members.items) (action_view member)) }
{
    members.push(member)?;
    Ok(members)
}

// Ends each `if` whose `else` came, and, but for an `else`, each other one.
fn fold_to(
    alloc: Global,
    loose: u32,
    stack: &mut StatementStack,
    latest: Stmt,
) -> Result<Stmt, AllocError>
    ensures { IfOk result (λ folded. machine.fold_to loose (statement_begun stack.old) (action_view latest) ≡ record { stack = statement_begun stack.new; latest = action_view folded }) }
{
    let mut whole = latest;
    'folding: loop {
        match stack.pop() {
            None => return Ok(whole),
            Some(StatementFrame::Then(condition)) => {
                if loose < 1 {
                    stack.push(StatementFrame::Then(condition))?;
                    return Ok(whole);
                }
                whole = guarded(alloc, condition, whole)?;
            }
            Some(StatementFrame::Else(condition, on_true)) => {
                whole = forked(alloc, condition, on_true, whole)?;
            }
            Some(StatementFrame::Block(before)) => {
                stack.push(StatementFrame::Block(before))?;
                return Ok(whole);
            }
        }
    }
}

// How many levels are left for the condition of an `if`.
fn condition_levels(stack: &StatementStack) -> usize
    ensures value { result ≡ 200 - (1 + machine.levels (statement_begun stack.now)) }
    ensures within { result ≤ 200 }
{
    LEVELS.saturating_sub(stack.level_count()).saturating_sub(1)
}

// A `)` in the condition of an `if`, perhaps its end.
fn condition_close(
    alloc: Global,
    mut stack: StatementStack,
    reader: ExpressionReader,
    levels: usize,
) -> Result<StatementReader, Fault>
    requires { levels ≤ 200 }
    ensures { Gives statement_state_view result (machine.or_closed (statement_begun stack) (inner.finish (state_view reader)) (machine.lifted (statement_begun stack) machine.Condition (inner.step (limits_of levels) (state_view reader) (token.Punctuation mark.Close)))) }
{
    if expression::can_end(&reader) {
        match expression::finish(alloc, reader)? {
            Some(condition) => {
                stack.push(StatementFrame::Then(condition))?;
                Ok(StatementReader {
                    stack,
                    phase: StatementPhase::Waiting,
                })
            }
            None => Err(Fault::Refused(Why::Syntax)),
        }
    } else {
        let close = Token::Punctuation(Mark::Close);
        let next = expression::step(alloc, levels, reader, close)?;
        Ok(StatementReader {
            stack,
            phase: StatementPhase::Condition(next),
        })
    }
}

fn condition_step(
    alloc: Global,
    stack: StatementStack,
    reader: ExpressionReader,
    token: Token,
) -> Result<StatementReader, Fault>
    ensures { Gives statement_state_view result (machine.condition_step limits (statement_begun stack) (state_view reader) token) }
{
    let levels = condition_levels(&stack);
    match token {
        Token::Punctuation(Mark::Close) => condition_close(alloc, stack, reader, levels),
        _ => {
            let next = expression::step(alloc, levels, reader, token)?;
            Ok(StatementReader {
                stack,
                phase: StatementPhase::Condition(next),
            })
        }
    }
}

fn value_end(
    alloc: Global,
    stack: StatementStack,
    name: usize,
    reader: ExpressionReader,
) -> Result<StatementReader, Fault>
    ensures { Gives statement_state_view result (machine.or_given (statement_begun stack) name (inner.finish (state_view reader))) }
{
    match expression::finish(alloc, reader)? {
        Some(value) => Ok(StatementReader {
            stack,
            phase: StatementPhase::After(Stmt::Set(name, value)),
        }),
        None => Err(Fault::Refused(Why::Syntax)),
    }
}

fn value_step(
    alloc: Global,
    stack: StatementStack,
    name: usize,
    reader: ExpressionReader,
    token: Token,
) -> Result<StatementReader, Fault>
    ensures { Gives statement_state_view result (machine.value_step limits (statement_begun stack) name (state_view reader) token) }
{
    match token {
        Token::Punctuation(Mark::Semicolon) => value_end(alloc, stack, name, reader),
        _ => {
            let levels = LEVELS.saturating_sub(stack.level_count());
            let next = expression::step(alloc, levels, reader, token)?;
            Ok(StatementReader {
                stack,
                phase: StatementPhase::Value(name, next),
            })
        }
    }
}

fn end_block(mut stack: StatementStack) -> Result<StatementReader, Fault>
    ensures { Gives statement_state_view result (machine.block_ended (statement_begun stack)) }
{
    match stack.pop() {
        Some(StatementFrame::Block(before)) => Ok(StatementReader {
            stack,
            phase: StatementPhase::After(blocked(before)),
        }),
        Some(_) => Err(Fault::Refused(Why::Syntax)),
        None => Err(Fault::Refused(Why::Syntax)),
    }
}

fn waiting_word(
    alloc: Global,
    mut stack: StatementStack,
    word: Word,
) -> Result<StatementReader, Fault>
    ensures { Gives statement_state_view result (machine.waiting_word limits (statement_begun stack) word) }
{
    match word {
        Word::Begin => {
            if stack.level_count() >= LEVELS {
                return Err(Fault::Refused(Why::TooDeep));
            }
            stack.push(StatementFrame::Block(Vec::new(alloc)))?;
            Ok(StatementReader {
                stack,
                phase: StatementPhase::Waiting,
            })
        }
        Word::If => {
            if stack.level_count() >= LEVELS {
                return Err(Fault::Refused(Why::TooDeep));
            }
            Ok(StatementReader {
                stack,
                phase: StatementPhase::Asking,
            })
        }
        Word::End => end_block(stack),
        _ => Err(Fault::Refused(Why::Syntax)),
    }
}

fn waiting_step(
    alloc: Global,
    stack: StatementStack,
    token: Token,
) -> Result<StatementReader, Fault>
    ensures { Gives statement_state_view result (machine.waiting_step limits (statement_begun stack) token) }
{
    match token {
        Token::Name(name) => Ok(StatementReader {
            stack,
            phase: StatementPhase::Named(name),
        }),
        Token::Keyword(word) => waiting_word(alloc, stack, word),
        _ => Err(Fault::Refused(Why::Syntax)),
    }
}

// An `else`.
fn fork(mut stack: StatementStack, latest: Stmt) -> Result<StatementReader, Fault>
    ensures { Gives statement_state_view result (machine.forked (statement_begun stack) (action_view latest)) }
{
    match stack.pop() {
        Some(StatementFrame::Then(condition)) => {
            stack.push(StatementFrame::Else(condition, latest))?;
            Ok(StatementReader {
                stack,
                phase: StatementPhase::Waiting,
            })
        }
        Some(_) => Err(Fault::Refused(Why::Syntax)),
        None => Err(Fault::Refused(Why::Syntax)),
    }
}

// A further statement of a block.
fn go_on(
    alloc: Global,
    mut stack: StatementStack,
    latest: Stmt,
    token: Token,
) -> Result<StatementReader, Fault>
    ensures { Gives statement_state_view result (machine.going_on limits (statement_begun stack) (action_view latest) token) }
{
    match stack.pop() {
        Some(StatementFrame::Block(before)) => {
            let members = with_last(before, latest)?;
            stack.push(StatementFrame::Block(members))?;
            waiting_step(alloc, stack, token)
        }
        Some(_) => Err(Fault::Refused(Why::Syntax)),
        None => Err(Fault::Refused(Why::Syntax)),
    }
}

fn after_step(
    alloc: Global,
    mut stack: StatementStack,
    latest: Stmt,
    token: Token,
) -> Result<StatementReader, Fault>
    ensures { Gives statement_state_view result (machine.after_step limits (statement_begun stack) (action_view latest) token) }
{
    match token {
        Token::Keyword(Word::Else) => {
            let whole = fold_to(alloc, 0, &mut stack, latest)?;
            fork(stack, whole)
        }
        _ => {
            let whole = fold_to(alloc, 1, &mut stack, latest)?;
            go_on(alloc, stack, whole, token)
        }
    }
}

fn asking_step(alloc: Global, stack: StatementStack, token: Token) -> Result<StatementReader, Fault>
    ensures { Gives statement_state_view result (machine.asking_step (statement_begun stack) token) }
{
    match token {
        Token::Punctuation(Mark::Open) => Ok(StatementReader {
            stack,
            phase: StatementPhase::Condition(expression::start(alloc)),
        }),
        _ => Err(Fault::Refused(Why::Syntax)),
    }
}

fn named_step(
    alloc: Global,
    stack: StatementStack,
    name: usize,
    token: Token,
) -> Result<StatementReader, Fault>
    ensures { Gives statement_state_view result (machine.named_step (statement_begun stack) name token) }
{
    match token {
        Token::Operator(Op::LessEqual) => Ok(StatementReader {
            stack,
            phase: StatementPhase::Value(name, expression::start(alloc)),
        }),
        _ => Err(Fault::Refused(Why::Syntax)),
    }
}

/// Reads one token of a statement.
pub fn step(alloc: Global, reader: StatementReader, token: Token) -> Result<StatementReader, Fault>
    ensures { Gives statement_state_view result (machine.step limits (statement_state_view reader) token) }
{
    let StatementReader { stack, phase } = reader;
    match phase {
        StatementPhase::Waiting => waiting_step(alloc, stack, token),
        StatementPhase::After(latest) => after_step(alloc, stack, latest, token),
        StatementPhase::Asking => asking_step(alloc, stack, token),
        StatementPhase::Condition(condition) => condition_step(alloc, stack, condition, token),
        StatementPhase::Named(name) => named_step(alloc, stack, name, token),
        StatementPhase::Value(name, value) => value_step(alloc, stack, name, value, token),
    }
}

/// A statement of which nothing has been read.
pub fn start(alloc: Global) -> StatementReader
    ensures { statement_state_view result ≡ machine.start }
{
    StatementReader {
        stack: StatementStack::new(alloc),
        phase: StatementPhase::Waiting,
    }
}

/// The whole statement, if it could end here. Fails only for want of memory.
pub fn finish(alloc: Global, reader: StatementReader) -> Result<Option<Stmt>, AllocError>
    ensures { IfOk result (λ whole. machine.finish (statement_state_view reader) ≡ option_map action_view whole) }
{
    let StatementReader { mut stack, phase } = reader;
    match phase {
        StatementPhase::After(latest) => {
            let whole = fold_to(alloc, 1, &mut stack, latest)?;
            match stack.pop() {
                None => Ok(Some(whole)),
                Some(_) => Ok(None),
            }
        }
        _ => Ok(None),
    }
}
