// What comes next in an expression.
use verilog_tree::{Expr, ShiftOp};

/// What comes next: an operand, what may follow an operand of this looseness (a `[` too, behind this name alone),
/// a shift amount, or in a select its high place, what follows it, its low place, its end.
#[derive(Drop)]
pub enum Phase {
    Operand,
    After(Option<usize>, u32, Expr),
    Amount(ShiftOp, Expr),
    Selecting(usize),
    Selected(usize, u32),
    Lowing(usize, u32),
    Closing(usize, u32, u32),
}
