// Right sides as flat steps. A tree with one operator on names, and a literal, have one; all others are evaluated as trees.

ghost use Rattle.std.specs.Prelude.{◌≡◌, ℕ, ◌^◌, ◌<◌, ◌≤◌, IsTrue, IfOk, Some, length};
ghost use Rattle.verilog_tree.specs.Tree as tree;
ghost use Rattle.verilog_tree.specs.Meaning.{FitNames, IsFitting, fits, assigned};
ghost use Rattle.verilog_tree.specs.Names.{shapes_of};
ghost use Rattle.verilog_tree.specs.View.{tree_view, design_view};
ghost use Rattle.clock_sim.specs.Simulated.{table_shapes, values_of, AssignsFit};
ghost use Rattle.clock_sim.specs.Tables.{TellsShapes};
ghost use Rattle.clock_sim.specs.Steps.{AllFitting, Compiles, IsHanded, IsNear, IsStepOf, step_value};

use crate::operand::{
    Handed, Operand, fill_of, half_of, mask_of, operand_of, raise, read, sign_in, value_at,
    width_in,
};
use crate::shape_table::ShapeTable;
use crate::steps::value_for;
use mr_values::Memory;
use std::alloc::Global;
use verilog_tree::{Expr, Module, Op, ShiftOp};

/// A right side: its operands in its context, and the mask that cuts it to its target's length. `Right` fills from above as
/// an operand does, by the bits before the shift.
#[derive(Clone, Copy)]
pub enum Step {
    Constant(u128),
    Copy(Operand, u128),
    Sum(Operand, Operand, u128),
    Difference(Operand, Operand, u128),
    Left(Operand, u8, u128),
    Right {
        from: Operand,
        amount: u8,
        half: u128,
        fill: u128,
        mask: u128,
    },
    Same(Operand, Operand),
    Choice(usize, Operand, Operand, u128),
    General,
}

/// An assignment as a step.
#[derive(Clone, Copy)]
pub struct Compiled {
    pub target: usize,
    pub step: Step,
}

/// The value of a step, and of a tree where it is none.
pub(crate) fn value_by(
    table: &ShapeTable,
    design: &Module,
    compiled: &Compiled,
    expr: &Expr,
    values: &[u128],
) -> u128
    requires table { TellsShapes (table_shapes table.now.widths.items table.now.signs.items) (shapes_of (design_view design.now)) }
    requires names { FitNames (shapes_of (design_view design.now)) (values_of values.now) }
    requires width { IsFitting ((shapes_of (design_view design.now)).width compiled.now.target) }
    requires fits { IsTrue (fits (shapes_of (design_view design.now)) (tree_view expr.now)) }
    requires near { IsNear compiled.now.step }
    ensures { result ≡ step_value compiled.now.step (values_of values.now) (assigned (shapes_of (design_view design.now)) (values_of values.now) compiled.now.target (tree_view expr.now)) }
{
    let _known = design.name;
    match &compiled.step {
        Step::Constant(bits) => *bits,
        Step::Copy(from, mask) => read(from, values) & *mask,
        Step::Sum(first, second, mask) => {
            read(first, values).wrapping_add(read(second, values)) & *mask
        }
        Step::Difference(first, second, mask) => {
            read(first, values).wrapping_sub(read(second, values)) & *mask
        }
        Step::Left(from, amount, mask) => (read(from, values) << *amount) & *mask,
        Step::Right {
            from,
            amount,
            half,
            fill,
            mask,
        } => {
            let bits = read(from, values);
            raise(*half, *fill, bits, bits >> *amount) & *mask
        }
        Step::Same(first, second) => u128::from(read(first, values) == read(second, values)),
        Step::Choice(condition, first, second, mask) => {
            if value_at(values, *condition) == 0 {
                read(second, values) & *mask
            } else {
                read(first, values) & *mask
            }
        }
        Step::General => value_for(table, design, compiled.target, expr, values),
    }
}

/// The name that an expression is.
pub(crate) fn name_in(expr: &Expr) -> Option<usize>
    ensures { (n : ℕ) → result ≡ Some n → tree_view expr.now ≡ tree.Name n }
{
    if let Expr::Name(name) = expr {
        Some(*name)
    } else {
        None
    }
}

/// What is handed down to two names, where the length is not less than one that is given.
pub(crate) fn handed(
    table: &ShapeTable,
    design: &Module,
    first: usize,
    second: usize,
    least: u32,
) -> Handed
    requires table { TellsShapes (table_shapes table.now.widths.items table.now.signs.items) (shapes_of (design_view design.now)) }
    requires fitting { AllFitting (shapes_of (design_view design.now)) }
    requires limit { least ≤ 128 }
    ensures { IsHanded (shapes_of (design_view design.now)) first second least result }
{
    let own = width_in(table, design, first).max(width_in(table, design, second));
    let one = sign_in(table, design, first);
    let other = sign_in(table, design, second);
    Handed {
        length: own.max(least),
        signed: one && other,
    }
}

// An operator on two names.
fn binary_step(
    table: &ShapeTable,
    design: &Module,
    target: usize,
    op: Op,
    first: usize,
    second: usize,
) -> Step
    requires table { TellsShapes (table_shapes table.now.widths.items table.now.signs.items) (shapes_of (design_view design.now)) }
    requires fitting { AllFitting (shapes_of (design_view design.now)) }
    ensures { IsStepOf (shapes_of (design_view design.now)) target (tree.Binary op (tree.Name first) (tree.Name second)) result }
{
    let width = width_in(table, design, target);
    let own = handed(table, design, first, second, 0);
    let whole = handed(table, design, first, second, width);
    let a = operand_of(table, design, first, whole);
    let b = operand_of(table, design, second, whole);
    match op {
        Op::Add => Step::Sum(a, b, mask_of(width)),
        Op::Sub => Step::Difference(a, b, mask_of(width)),
        Op::Equal => Step::Same(
            operand_of(table, design, first, own),
            operand_of(table, design, second, own),
        ),
        Op::Less
        | Op::LessEqual
        | Op::Greater
        | Op::GreaterEqual
        | Op::NotEqual
        | Op::And
        | Op::Xor
        | Op::Or => Step::General,
    }
}

// A shift of a name.
fn shift_step(
    table: &ShapeTable,
    design: &Module,
    target: usize,
    op: ShiftOp,
    name: usize,
    amount: u8,
) -> Step
    requires table { TellsShapes (table_shapes table.now.widths.items table.now.signs.items) (shapes_of (design_view design.now)) }
    requires fitting { AllFitting (shapes_of (design_view design.now)) }
    ensures { IsStepOf (shapes_of (design_view design.now)) target (tree.Shift op (tree.Name name) amount) result }
{
    if amount > 127 {
        return Step::General;
    }
    let width = width_in(table, design, target);
    let whole = handed(table, design, name, name, width);
    let from = operand_of(table, design, name, whole);
    let mask = mask_of(width);
    let half = half_of(whole.length);
    let kept = whole.length.saturating_sub(u32::from(amount));
    match op {
        ShiftOp::Left | ShiftOp::ArithLeft => Step::Left(from, amount, mask),
        ShiftOp::Right => Step::Right {
            from,
            amount,
            half,
            fill: 0,
            mask,
        },
        ShiftOp::ArithRight => Step::Right {
            from,
            amount,
            half,
            fill: fill_of(whole.signed, kept, whole.length),
            mask,
        },
    }
}

// Selected bits of a name.
fn part_step(
    table: &ShapeTable,
    design: &Module,
    target: usize,
    name: usize,
    high: u32,
    low: u32,
) -> Step
    requires table { TellsShapes (table_shapes table.now.widths.items table.now.signs.items) (shapes_of (design_view design.now)) }
    requires fitting { AllFitting (shapes_of (design_view design.now)) }
    ensures { IsStepOf (shapes_of (design_view design.now)) target (tree.Part name high low) result }
{
    if low > 127 {
        return Step::General;
    }
    let width = width_in(table, design, target);
    let taken = high.saturating_sub(low).saturating_add(1).min(width);
    let own = Handed {
        length: width_in(table, design, name),
        signed: false,
    };
    Step::Right {
        from: operand_of(table, design, name, own),
        amount: low as u8,
        half: 0,
        fill: 0,
        mask: mask_of(taken),
    }
}

// One of two names.
fn choice_step(
    table: &ShapeTable,
    design: &Module,
    target: usize,
    condition: usize,
    first: usize,
    second: usize,
) -> Step
    requires table { TellsShapes (table_shapes table.now.widths.items table.now.signs.items) (shapes_of (design_view design.now)) }
    requires fitting { AllFitting (shapes_of (design_view design.now)) }
    ensures { IsStepOf (shapes_of (design_view design.now)) target (tree.Choice (tree.Name condition) (tree.Name first) (tree.Name second)) result }
{
    let width = width_in(table, design, target);
    let whole = handed(table, design, first, second, width);
    Step::Choice(
        condition,
        operand_of(table, design, first, whole),
        operand_of(table, design, second, whole),
        mask_of(width),
    )
}

// A name alone.
fn copy_step(table: &ShapeTable, design: &Module, target: usize, name: usize) -> Step
    requires table { TellsShapes (table_shapes table.now.widths.items table.now.signs.items) (shapes_of (design_view design.now)) }
    requires fitting { AllFitting (shapes_of (design_view design.now)) }
    ensures { IsStepOf (shapes_of (design_view design.now)) target (tree.Name name) result }
{
    let width = width_in(table, design, target);
    let whole = handed(table, design, name, name, width);
    Step::Copy(operand_of(table, design, name, whole), mask_of(width))
}

// The step of an operator, where its operands are names.
fn binary_of(
    table: &ShapeTable,
    design: &Module,
    target: usize,
    op: Op,
    first: &Expr,
    second: &Expr,
) -> Step
    requires table { TellsShapes (table_shapes table.now.widths.items table.now.signs.items) (shapes_of (design_view design.now)) }
    requires fitting { AllFitting (shapes_of (design_view design.now)) }
    ensures { IsStepOf (shapes_of (design_view design.now)) target (tree.Binary op (tree_view first.now) (tree_view second.now)) result }
{
    match (name_in(first), name_in(second)) {
        (Some(a), Some(b)) => binary_step(table, design, target, op, a, b),
        _ => Step::General,
    }
}

// The step of a shift, where its operand is a name.
fn shift_of(
    table: &ShapeTable,
    design: &Module,
    target: usize,
    op: ShiftOp,
    from: &Expr,
    amount: u8,
) -> Step
    requires table { TellsShapes (table_shapes table.now.widths.items table.now.signs.items) (shapes_of (design_view design.now)) }
    requires fitting { AllFitting (shapes_of (design_view design.now)) }
    ensures { IsStepOf (shapes_of (design_view design.now)) target (tree.Shift op (tree_view from.now) amount) result }
{
    match name_in(from) {
        Some(name) => shift_step(table, design, target, op, name, amount),
        None => Step::General,
    }
}

// The step of a choice, where its parts are names.
fn choice_of(
    table: &ShapeTable,
    design: &Module,
    target: usize,
    condition: &Expr,
    first: &Expr,
    second: &Expr,
) -> Step
    requires table { TellsShapes (table_shapes table.now.widths.items table.now.signs.items) (shapes_of (design_view design.now)) }
    requires fitting { AllFitting (shapes_of (design_view design.now)) }
    ensures { IsStepOf (shapes_of (design_view design.now)) target (tree.Choice (tree_view condition.now) (tree_view first.now) (tree_view second.now)) result }
{
    match (name_in(condition), name_in(first), name_in(second)) {
        (Some(on), Some(a), Some(b)) => choice_step(table, design, target, on, a, b),
        _ => Step::General,
    }
}

/// The step of a right side.
pub(crate) fn step_of(
    table: &ShapeTable,
    design: &Module,
    target: usize,
    expr: &Expr,
    values: &[u128],
) -> Step
    requires table { TellsShapes (table_shapes table.now.widths.items table.now.signs.items) (shapes_of (design_view design.now)) }
    requires fitting { AllFitting (shapes_of (design_view design.now)) }
    requires names { FitNames (shapes_of (design_view design.now)) (values_of values.now) }
    requires fits { IsTrue (fits (shapes_of (design_view design.now)) (tree_view expr.now)) }
    ensures { IsStepOf (shapes_of (design_view design.now)) target (tree_view expr.now) result }
{
    match expr {
        Expr::Name(name) => copy_step(table, design, target, *name),
        Expr::Part(name, high, low) => part_step(table, design, target, *name, *high, *low),
        Expr::Based { .. } => Step::Constant(value_for(table, design, target, expr, values)),
        Expr::Binary(op, a, b) => binary_of(table, design, target, *op, a, b),
        Expr::Shift(op, a, amount) => shift_of(table, design, target, *op, a, *amount),
        Expr::Cond(condition, a, b) => choice_of(table, design, target, condition, a, b),
        Expr::Bit(..) | Expr::Plain(_) | Expr::Cat(_) | Expr::Not(_) => Step::General,
    }
}

/// The assignments of a module as steps. Fails only for want of memory.
pub(crate) fn steps_of(
    alloc: Global,
    table: &ShapeTable,
    design: &Module,
    values: &[u128],
) -> Result<Vec<Compiled>, Memory>
    requires table { TellsShapes (table_shapes table.now.widths.items table.now.signs.items) (shapes_of (design_view design.now)) }
    requires fitting { AllFitting (shapes_of (design_view design.now)) }
    requires names { FitNames (shapes_of (design_view design.now)) (values_of values.now) }
    requires fits { AssignsFit (design_view design.now) (length values.now) }
    ensures { IfOk result (λ steps. Compiles (shapes_of (design_view design.now)) design.now.assigns.items steps.items) }
{
    let mut steps = Vec::new(alloc);
    for assign in design.assigns.as_slice() {
        let target = assign.target;
        let step = step_of(table, design, target, &assign.value, values);
        steps.push(Compiled { target, step })?;
    }
    Ok(steps)
}
