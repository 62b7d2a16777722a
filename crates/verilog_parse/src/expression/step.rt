// The steps of the machine for expressions.
ghost use Rattle.std.specs.Prelude.{◌≡◌, ◌≤◌, ◌∷◌, ◌+◌, IfOk, is_some};
ghost use Rattle.std.specs.Option.{option_map};
ghost use Rattle.verilog_text.specs.Machine as machine;
ghost use Rattle.verilog_text.specs.Grammar as grammar;
ghost use Rattle.verilog_tree.specs.Tree as tree;
ghost use Rattle.verilog_tree.specs.View.{tree_view, trees_view};
ghost use Rattle.verilog_parse.specs.View.{frame_view, limits_of, Gives};
ghost use Rattle.verilog_parse.specs.Begun.{begun, state_view};

use crate::expression::frame::Frame;
use crate::expression::phase::Phase;
use crate::expression::stack::Stack;
use crate::fault::Fault;
use std::alloc::{AllocError, Global};
use verilog_text::token::{Decimal, Mark, Token, Why};
use verilog_tree::{Expr, Op, ShiftOp};

/// The most binary operators of one right side or condition.
const OPERATORS: usize = 1000;

/// What has been read of an expression.
#[derive(Drop)]
pub struct ExpressionReader {
    pub stack: Stack,
    pub phase: Phase,
    pub used: usize,
}

// What follows an operand.
#[derive(Drop)]
struct After {
    stack: Stack,
    used: usize,
    bare: Option<usize>,
    loose: u32,
    operand: Expr,
}

// How loosely an operator binds.
fn rank(op: Op) -> u32
    ensures { result ≡ grammar.rank op }
{
    match op {
        Op::Add | Op::Sub => 1,
        Op::Less | Op::LessEqual | Op::Greater | Op::GreaterEqual => 3,
        Op::Equal | Op::NotEqual => 4,
        Op::And => 5,
        Op::Xor => 6,
        Op::Or => 7,
    }
}

// Ends all that binds at least as tight as this.
fn fold_to(alloc: Global, loose: u32, stack: &mut Stack, operand: Expr) -> Result<Expr, AllocError>
    ensures { IfOk result (λ folded. machine.fold_to loose (begun stack.old) (tree_view operand) ≡ record { stack = begun stack.new; operand = tree_view folded }) }
{
    let mut whole = operand;
    'folding: loop {
        match stack.pop() {
            None => return Ok(whole),
            Some(Frame::Not) => whole = Expr::Not(Box::new(alloc, whole)?),
            Some(Frame::Right(left, op)) => {
                if rank(op) > loose {
                    stack.push(Frame::Right(left, op))?;
                    return Ok(whole);
                }
                whole = Expr::Binary(op, Box::new(alloc, left)?, Box::new(alloc, whole)?);
            }
            Some(Frame::No(condition, on_true)) => {
                if loose < 8 {
                    stack.push(Frame::No(condition, on_true))?;
                    return Ok(whole);
                }
                whole = Expr::Cond(
                    Box::new(alloc, condition)?,
                    Box::new(alloc, on_true)?,
                    Box::new(alloc, whole)?,
                );
            }
            Some(frame) => {
                stack.push(frame)?;
                return Ok(whole);
            }
        }
    }
}

// One more level.
fn begin(
    levels: usize,
    mut stack: Stack,
    used: usize,
    frame: Frame,
) -> Result<ExpressionReader, Fault>
    requires room { levels ≤ 200 }
    requires one { machine.levels (frame_view frame ∷ begun stack) ≡ 1 + machine.levels (begun stack) }
    ensures { Gives state_view result (machine.opened (limits_of levels) (begun stack) used (frame_view frame)) }
{
    if stack.level_count() >= levels {
        return Err(Fault::Refused(Why::TooDeep));
    }
    stack.push(frame)?;
    Ok(ExpressionReader {
        stack,
        phase: Phase::Operand,
        used,
    })
}

fn operand_mark(
    alloc: Global,
    levels: usize,
    stack: Stack,
    used: usize,
    mark: Mark,
) -> Result<ExpressionReader, Fault>
    requires { levels ≤ 200 }
    ensures { Gives state_view result (machine.operand_mark (limits_of levels) (begun stack) used mark) }
{
    match mark {
        Mark::Open => begin(levels, stack, used, Frame::Bracket),
        Mark::OpenBrace => begin(levels, stack, used, Frame::Members(Vec::new(alloc))),
        Mark::Inverse => begin(levels, stack, used, Frame::Not),
        _ => Err(Fault::Refused(Why::Syntax)),
    }
}

fn operand_step(
    alloc: Global,
    levels: usize,
    stack: Stack,
    used: usize,
    token: Token,
) -> Result<ExpressionReader, Fault>
    requires { levels ≤ 200 }
    ensures { Gives state_view result (machine.operand_step (limits_of levels) (begun stack) used token) }
{
    match token {
        Token::Name(name) => Ok(ExpressionReader {
            stack,
            phase: Phase::After(Some(name), 0, Expr::Name(name)),
            used,
        }),
        Token::Number(number) => {
            if stack.is_at_member() && levels <= stack.level_count() && OPERATORS <= used {
                return Err(Fault::Refused(Why::Syntax));
            }
            Ok(ExpressionReader {
                stack,
                phase: Phase::After(None, 0, Expr::Plain(number.value)),
                used,
            })
        }
        Token::Based(literal) => Ok(ExpressionReader {
            stack,
            phase: Phase::After(
                None,
                0,
                Expr::Based {
                    width: literal.width,
                    signed: literal.signed,
                    bits: literal.bits,
                },
            ),
            used,
        }),
        Token::Punctuation(mark) => operand_mark(alloc, levels, stack, used, mark),
        _ => Err(Fault::Refused(Why::Syntax)),
    }
}

// One more binary operator.
fn operate(
    alloc: Global,
    mut stack: Stack,
    used: usize,
    operand: Expr,
    op: Op,
    levels: usize,
) -> Result<ExpressionReader, Fault>
    ensures { Gives state_view result (machine.operated (limits_of levels) (machine.fold_to (grammar.rank op) (begun stack) (tree_view operand)) used op) }
{
    let left = fold_to(alloc, rank(op), &mut stack, operand)?;
    if used >= OPERATORS {
        return Err(Fault::Refused(Why::TooDeep));
    }
    stack.push(Frame::Right(left, op))?;
    Ok(ExpressionReader {
        stack,
        phase: Phase::Operand,
        used: used + 1,
    })
}

// One more shift.
fn shift(
    alloc: Global,
    mut stack: Stack,
    used: usize,
    operand: Expr,
    op: ShiftOp,
    levels: usize,
) -> Result<ExpressionReader, Fault>
    ensures { Gives state_view result (machine.shifted (limits_of levels) (machine.fold_to 2 (begun stack) (tree_view operand)) used op) }
{
    let left = fold_to(alloc, 2, &mut stack, operand)?;
    if used >= OPERATORS {
        return Err(Fault::Refused(Why::TooDeep));
    }
    Ok(ExpressionReader {
        stack,
        phase: Phase::Amount(op, left),
        used: used + 1,
    })
}

fn close(mut stack: Stack, used: usize, operand: Expr) -> Result<ExpressionReader, Fault>
    ensures { Gives state_view result (machine.closed (begun stack) (tree_view operand) used) }
{
    match stack.pop() {
        Some(Frame::Bracket) => Ok(ExpressionReader {
            stack,
            phase: Phase::After(None, 0, operand),
            used,
        }),
        Some(_) => Err(Fault::Refused(Why::Syntax)),
        None => Err(Fault::Refused(Why::Syntax)),
    }
}

// Whether an expression is a number without a size.
fn is_plain(operand: &Expr) -> bool
    ensures { result ≡ grammar.is_plain (tree_view operand.now) }
{
    matches!(operand, Expr::Plain(_))
}

// The members of a concatenation and one more.
fn with_last(mut members: Vec<Expr>, member: Expr) -> Result<Vec<Expr>, AllocError>
    ensures { IfOk result (λ all. trees_view all.items ≡ machine.with_last (trees_view members.items) (tree_view member)) }
{
    members.push(member)?;
    Ok(members)
}

// A concatenation.
fn joining(members: Vec<Expr>) -> Expr
    ensures { tree_view result ≡ tree.Cat (trees_view members.items) }
{
    Expr::Cat(members)
}

fn part(mut stack: Stack, used: usize, operand: Expr) -> Result<ExpressionReader, Fault>
    ensures { Gives state_view result (machine.parted (begun stack) (tree_view operand) used) }
{
    match stack.pop() {
        Some(Frame::Members(before)) => {
            if is_plain(&operand) {
                return Err(Fault::Refused(Why::Syntax));
            }
            let members = with_last(before, operand)?;
            stack.push(Frame::Members(members))?;
            Ok(ExpressionReader {
                stack,
                phase: Phase::Operand,
                used,
            })
        }
        Some(_) => Err(Fault::Refused(Why::Syntax)),
        None => Err(Fault::Refused(Why::Syntax)),
    }
}

fn join(mut stack: Stack, used: usize, operand: Expr) -> Result<ExpressionReader, Fault>
    ensures { Gives state_view result (machine.joined (begun stack) (tree_view operand) used) }
{
    match stack.pop() {
        Some(Frame::Members(before)) => {
            if is_plain(&operand) {
                return Err(Fault::Refused(Why::Syntax));
            }
            let members = with_last(before, operand)?;
            Ok(ExpressionReader {
                stack,
                phase: Phase::After(None, 0, joining(members)),
                used,
            })
        }
        Some(_) => Err(Fault::Refused(Why::Syntax)),
        None => Err(Fault::Refused(Why::Syntax)),
    }
}

fn turn(mut stack: Stack, used: usize, operand: Expr) -> Result<ExpressionReader, Fault>
    ensures { Gives state_view result (machine.turned (begun stack) (tree_view operand) used) }
{
    match stack.pop() {
        Some(Frame::Yes(condition)) => {
            stack.push(Frame::No(condition, operand))?;
            Ok(ExpressionReader {
                stack,
                phase: Phase::Operand,
                used,
            })
        }
        Some(_) => Err(Fault::Refused(Why::Syntax)),
        None => Err(Fault::Refused(Why::Syntax)),
    }
}

fn select(stack: Stack, used: usize, bare: Option<usize>) -> Result<ExpressionReader, Fault>
    ensures { Gives state_view result (machine.selecting (begun stack) used bare) }
{
    match bare {
        Some(name) => Ok(ExpressionReader {
            stack,
            phase: Phase::Selecting(name),
            used,
        }),
        None => Err(Fault::Refused(Why::Syntax)),
    }
}

fn after_mark(
    alloc: Global,
    levels: usize,
    mut stack: Stack,
    used: usize,
    bare: Option<usize>,
    operand: Expr,
    mark: Mark,
) -> Result<ExpressionReader, Fault>
    requires { levels ≤ 200 }
    ensures { Gives state_view result (machine.after_mark (limits_of levels) (begun stack) used bare (tree_view operand) mark) }
{
    match mark {
        Mark::Question => {
            let condition = fold_to(alloc, 7, &mut stack, operand)?;
            begin(levels, stack, used, Frame::Yes(condition))
        }
        Mark::Close => {
            let whole = fold_to(alloc, 8, &mut stack, operand)?;
            close(stack, used, whole)
        }
        Mark::Comma => {
            let whole = fold_to(alloc, 8, &mut stack, operand)?;
            part(stack, used, whole)
        }
        Mark::CloseBrace => {
            let whole = fold_to(alloc, 8, &mut stack, operand)?;
            join(stack, used, whole)
        }
        Mark::Colon => {
            let whole = fold_to(alloc, 8, &mut stack, operand)?;
            turn(stack, used, whole)
        }
        Mark::OpenBracket => select(stack, used, bare),
        _ => Err(Fault::Refused(Why::Syntax)),
    }
}

fn after_step(
    alloc: Global,
    levels: usize,
    reader: After,
    token: Token,
) -> Result<ExpressionReader, Fault>
    requires { levels ≤ 200 }
    ensures { Gives state_view result (machine.after_step (limits_of levels) (begun reader.stack) reader.used reader.bare reader.loose (tree_view reader.operand) token) }
{
    let After {
        stack,
        used,
        bare,
        loose,
        operand,
    } = reader;
    match token {
        Token::Operator(op) => {
            if loose > rank(op) {
                return Err(Fault::Refused(Why::Syntax));
            }
            operate(alloc, stack, used, operand, op, levels)
        }
        Token::Shift(op) => {
            if loose > 2 {
                return Err(Fault::Refused(Why::Syntax));
            }
            shift(alloc, stack, used, operand, op, levels)
        }
        Token::Punctuation(mark) => after_mark(alloc, levels, stack, used, bare, operand, mark),
        _ => Err(Fault::Refused(Why::Syntax)),
    }
}

fn amount_step(
    alloc: Global,
    stack: Stack,
    used: usize,
    op: ShiftOp,
    operand: Expr,
    token: Token,
) -> Result<ExpressionReader, Fault>
    ensures { Gives state_view result (machine.amount_step (begun stack) used op (tree_view operand) token) }
{
    match token {
        Token::Number(number) => {
            if number.value >= 128 {
                return Err(Fault::Refused(Why::OutsideSubset));
            }
            let whole = Expr::Shift(op, Box::new(alloc, operand)?, number.value as u8);
            Ok(ExpressionReader {
                stack,
                phase: Phase::After(None, 2, whole),
                used,
            })
        }
        _ => Err(Fault::Refused(Why::Syntax)),
    }
}

fn selecting_step(
    stack: Stack,
    used: usize,
    name: usize,
    token: Token,
) -> Result<ExpressionReader, Fault>
    ensures { Gives state_view result (machine.phase_step (limits_of 0) (begun stack) used (machine.Selecting name) token) }
{
    match token {
        Token::Number(number) => Ok(ExpressionReader {
            stack,
            phase: Phase::Selected(name, number.value),
            used,
        }),
        _ => Err(Fault::Refused(Why::Syntax)),
    }
}

fn selected_step(
    stack: Stack,
    used: usize,
    name: usize,
    high: u32,
    token: Token,
) -> Result<ExpressionReader, Fault>
    ensures { Gives state_view result (machine.selected_step (begun stack) used name high token) }
{
    match token {
        Token::Punctuation(Mark::CloseBracket) => Ok(ExpressionReader {
            stack,
            phase: Phase::After(None, 0, Expr::Bit(name, high)),
            used,
        }),
        Token::Punctuation(Mark::Colon) => Ok(ExpressionReader {
            stack,
            phase: Phase::Lowing(name, high),
            used,
        }),
        _ => Err(Fault::Refused(Why::Syntax)),
    }
}

fn lowing_step(
    stack: Stack,
    used: usize,
    name: usize,
    high: u32,
    token: Token,
) -> Result<ExpressionReader, Fault>
    ensures { Gives state_view result (machine.phase_step (limits_of 0) (begun stack) used (machine.Lowing name high) token) }
{
    match token {
        Token::Number(number) => Ok(ExpressionReader {
            stack,
            phase: Phase::Closing(name, high, number.value),
            used,
        }),
        _ => Err(Fault::Refused(Why::Syntax)),
    }
}

fn closing_step(
    stack: Stack,
    used: usize,
    name: usize,
    high: u32,
    low: u32,
    token: Token,
) -> Result<ExpressionReader, Fault>
    ensures { Gives state_view result (machine.closing_step (begun stack) used name high low token) }
{
    match token {
        Token::Punctuation(Mark::CloseBracket) => Ok(ExpressionReader {
            stack,
            phase: Phase::After(None, 0, Expr::Part(name, high, low)),
            used,
        }),
        _ => Err(Fault::Refused(Why::Syntax)),
    }
}

/// Reads one token of an expression, with room for this many levels.
pub fn step(
    alloc: Global,
    levels: usize,
    reader: ExpressionReader,
    token: Token,
) -> Result<ExpressionReader, Fault>
    requires { levels ≤ 200 }
    ensures { Gives state_view result (machine.step (limits_of levels) (state_view reader) token) }
{
    let ExpressionReader { stack, phase, used } = reader;
    match phase {
        Phase::Operand => operand_step(alloc, levels, stack, used, token),
        Phase::After(bare, loose, operand) => {
            let after = After {
                stack,
                used,
                bare,
                loose,
                operand,
            };
            after_step(alloc, levels, after, token)
        }
        Phase::Amount(op, operand) => amount_step(alloc, stack, used, op, operand, token),
        Phase::Selecting(name) => selecting_step(stack, used, name, token),
        Phase::Selected(name, high) => selected_step(stack, used, name, high, token),
        Phase::Lowing(name, high) => lowing_step(stack, used, name, high, token),
        Phase::Closing(name, high, low) => closing_step(stack, used, name, high, low, token),
    }
}

/// An expression of which nothing has been read.
pub fn start(alloc: Global) -> ExpressionReader
    ensures { state_view result ≡ machine.start }
{
    ExpressionReader {
        stack: Stack::new(alloc),
        phase: Phase::Operand,
        used: 0,
    }
}

/// Whether the whole expression could end here.
#[tactic(auto, using(crate::proofs::Ends::ends_where_closed))]
pub fn can_end(reader: &ExpressionReader) -> bool
    ensures { result ≡ is_some (machine.finish (state_view reader.now)) }
{
    match &reader.phase {
        Phase::After(_, _, _) => reader.stack.is_closed(),
        _ => false,
    }
}

/// The whole expression, if it could end here. Fails only for want of memory.
pub fn finish(alloc: Global, reader: ExpressionReader) -> Result<Option<Expr>, AllocError>
    ensures { IfOk result (λ whole. machine.finish (state_view reader) ≡ option_map tree_view whole) }
{
    let ExpressionReader {
        mut stack,
        phase,
        used: _,
    } = reader;
    match phase {
        Phase::After(_, _, operand) => {
            let whole = fold_to(alloc, 8, &mut stack, operand)?;
            if stack.is_empty() {
                Ok(Some(whole))
            } else {
                Ok(None)
            }
        }
        _ => Ok(None),
    }
}
