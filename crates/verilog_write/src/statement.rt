// The tokens of statements.
ghost use Rattle.std.specs.Prelude.{◌≡◌, [], ◌∷◌, ◌++◌, OnOk, nat_lt};
ghost use Rattle.verilog_tree.specs.View.{tree_view, action_view, actions_view};
ghost use Rattle.verilog_text.specs.declared.token.Token.TheVariants as token;
ghost use Rattle.verilog_text.specs.Statements.{openness, if_text, statement_text, statements_text};
ghost use Rattle.verilog_text.specs.Shortest.{spelling, closed, statement_of, statements_of};

use crate::expression::{put, put_mark, write_expression};
use mr_values::Memory;
use verilog_text::token::{Mark, Token, Word};
use verilog_tree::{Expr, Op, Stmt};

/// Appends a word.
pub fn put_word(out: &mut Vec<Token>, word: Word) -> Result<(), Memory>
    ensures { OnOk result (out.new.items ≡ out.old.items ++ token.Keyword word ∷ []) }
{
    put(out, Token::Keyword(word))
}

// Whether no `else` behind the statement would belong to an `if` in it.
fn is_closed(statement: &Stmt) -> bool
    ensures { result ≡ nat_lt (openness (statement_of (action_view statement.now))) 1 }
{
    match statement {
        Stmt::If(_, _, otherwise) => match otherwise {
            Some(on_false) => is_closed(on_false),
            None => false,
        },
        Stmt::Block(_) | Stmt::Set(..) => true,
    }
}

// Appends an `if` and its condition.
#[tactic(auto, using(crate::proofs::Writings::writings))]
fn write_if(condition: &Expr, out: &mut Vec<Token>) -> Result<(), Memory>
    ensures { OnOk result (out.new.items ≡ out.old.items ++ if_text (spelling (tree_view condition.now)) []) }
{
    put_word(out, Word::If)?;
    put_mark(out, Mark::Open)?;
    write_expression(condition, out)?;
    put_mark(out, Mark::Close)
}

// Appends the tokens of a statement, inside a block where it would take a later `else`.
#[cycle(statement)]
#[tactic(auto, using(crate::proofs::Writings::writings))]
fn write_closed(statement: &Stmt, out: &mut Vec<Token>) -> Result<(), Memory>
    ensures { OnOk result (out.new.items ≡ out.old.items ++ statement_text (closed (statement_of (action_view statement.now))) []) }
{
    if is_closed(statement) {
        write_statement(statement, out)
    } else {
        put_word(out, Word::Begin)?;
        write_statement(statement, out)?;
        put_word(out, Word::End)
    }
}

// Appends the tokens of statements one after the other.
#[cycle(statement)]
#[tactic(auto, using(crate::proofs::Writings::writings))]
fn write_statements(statements: &[Stmt], out: &mut Vec<Token>) -> Result<(), Memory>
    ensures { OnOk result (out.new.items ≡ out.old.items ++ statements_text (statements_of (actions_view statements.now)) []) }
{
    for statement in statements {
        write_statement(statement, out)?;
    }
    Ok(())
}

/// Appends the tokens of a statement.
#[cycle(statement)]
#[tactic(auto, using(crate::proofs::Writings::writings))]
pub fn write_statement(statement: &Stmt, out: &mut Vec<Token>) -> Result<(), Memory>
    ensures { OnOk result (out.new.items ≡ out.old.items ++ statement_text (statement_of (action_view statement.now)) []) }
{
    match statement {
        Stmt::Block(members) => {
            put_word(out, Word::Begin)?;
            write_statements(members, out)?;
            put_word(out, Word::End)
        }
        Stmt::If(condition, on_true, otherwise) => {
            write_if(condition, out)?;
            match otherwise {
                None => write_statement(on_true, out),
                Some(on_false) => {
                    write_closed(on_true, out)?;
                    put_word(out, Word::Else)?;
                    write_statement(on_false, out)
                }
            }
        }
        Stmt::Set(register, value) => {
            put(out, Token::Name(*register))?;
            put(out, Token::Operator(Op::LessEqual))?;
            write_expression(value, out)?;
            put_mark(out, Mark::Semicolon)
        }
    }
}
