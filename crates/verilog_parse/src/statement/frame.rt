// What has been begun of a statement and has not ended.
use verilog_tree::{Expr, Stmt};

/// What has been begun, with what it holds so far: a block, an `if`, an `if` behind its `else`.
#[derive(Drop)]
pub enum StatementFrame {
    Block(Vec<Stmt>),
    Then(Expr),
    Else(Expr, Stmt),
}
