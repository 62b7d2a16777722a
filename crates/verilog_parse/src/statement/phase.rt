// What comes next in a statement.
use crate::expression::step::ExpressionReader;
use verilog_tree::Stmt;

/// What comes next: a statement, what may follow one, the `(` of an `if`, its condition, the `<=` behind a name, or
/// its value.
#[derive(Drop)]
pub enum StatementPhase {
    Waiting,
    After(Stmt),
    Asking,
    Condition(ExpressionReader),
    Named(usize),
    Value(usize, ExpressionReader),
}
