//! Modules of the subset of Verilog, as trees, and what they mean.
#![tactic(auto)]

mod bits;
mod evaluation;
mod fault;
mod laws;
mod shape;
mod tree;

pub use evaluation::{Context, alone, assigned, evaluate};
pub use fault::ModuleFault;
pub use laws::law_of_one_settling;
pub use shape::{Declarations, is_signed, length};
pub use tree::{Assign, Expr, Kind, Module, Op, ShiftOp, Signal, Stmt};
