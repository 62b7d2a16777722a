// The right sides and the always blocks of nodes.
ghost use Rattle.std.specs.Prelude.{◌≡◌, ℕ, ◌+◌, ◌<◌, ◌≤◌, ◌^◌, ◌%◌, Some, IfOk, true, length, slice_index};
ghost use Rattle.mr_values.specs.Width.{pattern};
ghost use Rattle.net_graph.specs.WellFormed.{IsWidth, OperandsBelow};
ghost use Rattle.verilog_tree.specs.Tree.{Binary, Name, Based};
ghost use Rattle.verilog_tree.specs.View.{tree_view, action_view};
ghost use Rattle.net_module.specs.Written.{block_for, tree_for, zero_literal};

use mr_values::Memory;
use net_graph::{Item, Node};
use std::alloc::Global;
use verilog_tree::{Expr, Op, ShiftOp, Stmt};

/// The numbers of the names that stand before those of the nodes.
pub const RST: usize = 2;

pub const CE: usize = 3;

pub const IN_DATA: usize = 4;

pub const OUT_VALID: usize = 5;

pub const OUT_DATA: usize = 6;

// The lowest bits of a pattern.
fn low_bits(bits: u128, width: u8) -> u128
    requires { IsWidth width }
    ensures { result ≡ bits % 2 ^ width }
{
    if width == 128 {
        bits
    } else {
        bits % (1u128 << width)
    }
}

fn literal(value: i128, width: u8) -> Expr
    requires { IsWidth width }
    ensures { tree_view result ≡ Based width true (pattern width value) }
{
    let bits = low_bits(value.cast_unsigned(), width);
    Expr::Based {
        width,
        signed: true,
        bits,
    }
}

fn zero(width: u8) -> Expr
    ensures { tree_view result ≡ zero_literal width }
{
    Expr::Based {
        width,
        signed: true,
        bits: 0,
    }
}

fn name(numbers: &[usize], node: Node) -> Expr
    requires { node.place < length numbers.now }
    ensures { tree_view result ≡ Name (slice_index numbers.now node.place) }
{
    Expr::Name(numbers[node.place])
}

fn boxed_name(alloc: Global, numbers: &[usize], node: Node) -> Result<Box<Expr>, Memory>
    requires { node.place < length numbers.now }
    ensures { IfOk result (λ b. tree_view b.value ≡ Name (slice_index numbers.now node.place)) }
{
    Ok(Box::new(alloc, name(numbers, node))?)
}

fn binary(alloc: Global, op: Op, numbers: &[usize], a: Node, b: Node) -> Result<Expr, Memory>
    requires first { a.place < length numbers.now }
    requires second { b.place < length numbers.now }
    ensures { IfOk result (λ e. tree_view e ≡ Binary op (Name (slice_index numbers.now a.place)) (Name (slice_index numbers.now b.place))) }
{
    let a = boxed_name(alloc, numbers, a)?;
    let b = boxed_name(alloc, numbers, b)?;
    Ok(Expr::Binary(op, a, b))
}

/// The right side of a node's assignment, or what its register takes: `numbers` has the numbers of the names of all nodes.
pub fn expression_of(
    alloc: Global,
    numbers: &[usize],
    item: Item,
    width: u8,
) -> Result<Expr, Memory>
    requires wide { IsWidth width }
    requires in_range { OperandsBelow (length numbers.now) (length numbers.now) width (Some item) }
    ensures { IfOk result (λ e. tree_view e ≡ tree_for (λ k. slice_index numbers.now k) width (Some item)) }
{
    match item {
        Item::Input => Ok(Expr::Name(IN_DATA)),
        Item::Constant(value) => Ok(literal(value, width)),
        Item::Add(a, b) => binary(alloc, Op::Add, numbers, a, b),
        Item::Sub(a, b) => binary(alloc, Op::Sub, numbers, a, b),
        Item::Shl(a, by) => {
            let a = boxed_name(alloc, numbers, a)?;
            Ok(Expr::Shift(ShiftOp::ArithLeft, a, by))
        }
        Item::Shr(a, by) => {
            let a = boxed_name(alloc, numbers, a)?;
            Ok(Expr::Shift(ShiftOp::ArithRight, a, by))
        }
        Item::Mux(on, a, b) => {
            let on = boxed_name(alloc, numbers, on)?;
            let a = boxed_name(alloc, numbers, a)?;
            let b = boxed_name(alloc, numbers, b)?;
            Ok(Expr::Cond(on, a, b))
        }
        Item::Equal(a, b) => binary(alloc, Op::Equal, numbers, a, b),
        Item::Bits(a, high, low) => Ok(Expr::Part(
            numbers[a.place],
            u32::from(high),
            u32::from(low),
        )),
        Item::Register(next) => Ok(name(numbers, next)),
    }
}

/// A register's block: `if (rst) NAME <= 0; else if (ce) NAME <= NEXT;`.
pub fn block_of(alloc: Global, register: usize, width: u8, next: Expr) -> Result<Stmt, Memory>
    ensures { IfOk result (λ s. action_view s ≡ block_for register width (tree_view next)) }
{
    let reset = Box::new(alloc, Stmt::Set(register, zero(width)))?;
    let take = Box::new(alloc, Stmt::Set(register, next))?;
    let enabled = Box::new(alloc, Stmt::If(Expr::Name(CE), take, None))?;
    Ok(Stmt::If(Expr::Name(RST), reset, Some(enabled)))
}
