// The tokens of expressions, with the fewest brackets.
ghost use Rattle.std.specs.Prelude.{◌≡◌, [], ◌∷◌, ◌++◌, OnOk};
ghost use Rattle.verilog_tree.specs.Tree as tree;
ghost use Rattle.verilog_text.specs.declared.token.Mark.TheVariants as mark;
ghost use Rattle.verilog_tree.specs.View.{tree_view, trees_view};
ghost use Rattle.verilog_text.specs.declared.token.Token.TheVariants as token;
ghost use Rattle.verilog_text.specs.Grammar.{rank, looseness, written, written_members};
ghost use Rattle.verilog_text.specs.Layout.{plain};
ghost use Rattle.verilog_text.specs.Shortest.{within, spelling, spellings};

use mr_values::Memory;
use verilog_text::token::{Decimal, Literal, Mark, Token};
use verilog_tree::{Expr, Op};

/// Appends a token.
pub fn put(out: &mut Vec<Token>, token: Token) -> Result<(), Memory>
    ensures { OnOk result (out.new.items ≡ out.old.items ++ token ∷ []) }
{
    out.push(token)?;
    Ok(())
}

/// Appends a mark.
pub fn put_mark(out: &mut Vec<Token>, mark: Mark) -> Result<(), Memory>
    ensures { OnOk result (out.new.items ≡ out.old.items ++ token.Punctuation mark ∷ []) }
{
    put(out, Token::Punctuation(mark))
}

/// Appends a number without a size.
pub fn put_number(out: &mut Vec<Token>, value: u32) -> Result<(), Memory>
    ensures { OnOk result (out.new.items ≡ out.old.items ++ token.Number (plain value) ∷ []) }
{
    put(
        out,
        Token::Number(Decimal {
            value,
            is_single: value < 10,
        }),
    )
}

// How loosely an operator binds.
fn rank(op: Op) -> u32
    ensures { result ≡ rank op }
{
    match op {
        Op::Add | Op::Sub => 1,
        Op::Less | Op::LessEqual | Op::Greater | Op::GreaterEqual => 3,
        Op::Equal | Op::NotEqual => 4,
        Op::And => 5,
        Op::Xor => 6,
        Op::Or => 7,
    }
}

// The rank of the operator outside all brackets, 0 where there is none.
fn looseness(expr: &Expr) -> u32
    ensures { result ≡ looseness (spelling (tree_view expr.now)) }
{
    match expr {
        Expr::Name(_) | Expr::Bit(..) | Expr::Part(..) | Expr::Plain(_) => 0,
        Expr::Based { .. } | Expr::Cat(_) | Expr::Not(_) => 0,
        Expr::Binary(op, _, _) => rank(*op),
        Expr::Shift(..) => 2,
        Expr::Cond(..) => 8,
    }
}

// Appends a name and one bit of it.
fn write_bit(name: usize, place: u32, out: &mut Vec<Token>) -> Result<(), Memory>
    ensures { OnOk result (out.new.items ≡ out.old.items ++ written (spelling (tree.Bit name place)) []) }
{
    put(out, Token::Name(name))?;
    put_mark(out, Mark::OpenBracket)?;
    put_number(out, place)?;
    put_mark(out, Mark::CloseBracket)
}

// Appends a name and some bits of it.
fn write_part(name: usize, high: u32, low: u32, out: &mut Vec<Token>) -> Result<(), Memory>
    ensures { OnOk result (out.new.items ≡ out.old.items ++ written (spelling (tree.Part name high low)) []) }
{
    put(out, Token::Name(name))?;
    put_mark(out, Mark::OpenBracket)?;
    put_number(out, high)?;
    put_mark(out, Mark::Colon)?;
    put_number(out, low)?;
    put_mark(out, Mark::CloseBracket)
}

// Appends an expression in brackets, unless it binds tighter than this.
#[cycle(expression)]
#[tactic(auto, using(crate::proofs::Writings::writings))]
fn write_within(expr: &Expr, bound: u32, out: &mut Vec<Token>) -> Result<(), Memory>
    ensures { OnOk result (out.new.items ≡ out.old.items ++ written (within bound (spelling (tree_view expr.now))) []) }
{
    if looseness(expr) < bound {
        write_expression(expr, out)
    } else {
        put_mark(out, Mark::Open)?;
        write_expression(expr, out)?;
        put_mark(out, Mark::Close)
    }
}

// Appends members, the first behind a `{` and each other one behind a comma, and a `}`.
#[cycle(expression)]
#[tactic(auto, using(crate::proofs::Writings::writings))]
fn write_members(members: &[Expr], out: &mut Vec<Token>) -> Result<(), Memory>
    ensures { OnOk result (out.new.items ≡ out.old.items ++ written_members mark.OpenBrace (spellings (trees_view members.now)) []) }
{
    let mut separator = Mark::OpenBrace;
    for member in members {
        put_mark(out, separator)?;
        write_expression(member, out)?;
        separator = Mark::Comma;
    }
    put_mark(out, Mark::CloseBrace)
}

/// Appends the tokens of an expression.
#[cycle(expression)]
#[tactic(auto, using(crate::proofs::Writings::writings))]
pub fn write_expression(expr: &Expr, out: &mut Vec<Token>) -> Result<(), Memory>
    ensures { OnOk result (out.new.items ≡ out.old.items ++ written (spelling (tree_view expr.now)) []) }
{
    match expr {
        Expr::Name(name) => put(out, Token::Name(*name)),
        Expr::Bit(name, place) => write_bit(*name, *place, out),
        Expr::Part(name, high, low) => write_part(*name, *high, *low, out),
        Expr::Plain(value) => put_number(out, *value),
        Expr::Based {
            width,
            signed,
            bits,
        } => put(
            out,
            Token::Based(Literal {
                width: *width,
                signed: *signed,
                bits: *bits,
            }),
        ),
        Expr::Cat(members) => write_members(members, out),
        Expr::Not(operand) => {
            put_mark(out, Mark::Inverse)?;
            write_within(operand, 1, out)
        }
        Expr::Binary(op, left, right) => {
            let rank = rank(*op);
            write_within(left, rank + 1, out)?;
            put(out, Token::Operator(*op))?;
            write_within(right, rank, out)
        }
        Expr::Shift(op, operand, amount) => {
            write_within(operand, 3, out)?;
            put(out, Token::Shift(*op))?;
            put_number(out, u32::from(*amount))
        }
        Expr::Cond(condition, on_true, on_false) => {
            write_within(condition, 8, out)?;
            put_mark(out, Mark::Question)?;
            write_expression(on_true, out)?;
            put_mark(out, Mark::Colon)?;
            write_expression(on_false, out)
        }
    }
}
