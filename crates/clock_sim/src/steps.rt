// The plain steps of a simulator: the wires are settled in an order, and the registers change together.

ghost use Rattle.std.specs.Prelude.{◌≡◌, ℕ, ◌^◌, ◌<◌, ◌≤◌, IsTrue, Some, length, set, slice_get};
ghost use Rattle.verilog_tree.specs.Meaning.{FitNames, IsFitting, fits, assigned};
ghost use Rattle.verilog_tree.specs.Names.{shapes_of};
ghost use Rattle.verilog_tree.specs.Circuit.{Driver, IsSettling, given_by, next, put};
ghost use Rattle.verilog_tree.specs.Cycle.{circuit_of, IsDrivenOnce, given, condition_holds};
ghost use Rattle.verilog_tree.specs.View.{tree_view, action_view, actions_view, design_view};
ghost use Rattle.settle_order.specs.Placing.{opened_of};
ghost use Rattle.wire_levels.specs.Levels.{AreByLevel};
ghost use Rattle.clock_sim.specs.Simulated.{table_shapes, values_of, AssignsFit, action_fits, actions_fit, all_given, blocks_fit, Given, Marked};
ghost use Rattle.clock_sim.specs.Blocks.{AreBlocks};
ghost use Rattle.clock_sim.specs.Steps.{Compiles};
ghost use Rattle.clock_sim.specs.Tables.{TellsShapes};

use crate::registers::{Blocks, advance};
use crate::shape_table::ShapeTable;
use crate::step::{Compiled, value_by};
use verilog_tree::{Expr, Module, Stmt, alone, assigned};

/// Gives a name a value.
pub(crate) fn write(values: &mut [u128], name: usize, bits: u128)
    requires { name < length values.old }
    ensures { values.new ≡ set values.old name bits }
{
    values[name] = bits;
}

/// A right side, cut to its target's length.
pub(crate) fn value_for(
    table: &ShapeTable,
    design: &Module,
    target: usize,
    expr: &Expr,
    values: &[u128],
) -> u128
    requires table { TellsShapes (table_shapes table.now.widths.items table.now.signs.items) (shapes_of (design_view design.now)) }
    requires names { FitNames (shapes_of (design_view design.now)) (values_of values.now) }
    requires width { IsFitting ((shapes_of (design_view design.now)).width target) }
    requires fits { IsTrue (fits (shapes_of (design_view design.now)) (tree_view expr.now)) }
    ensures value { result ≡ assigned (shapes_of (design_view design.now)) (values_of values.now) target (tree_view expr.now) }
    ensures small { result < 2 ^ (shapes_of (design_view design.now)).width target }
{
    let _known = design.name;
    assigned(table, target, expr, values)
}

// Whether a condition's value isn't 0.
fn holds(table: &ShapeTable, design: &Module, condition: &Expr, values: &[u128]) -> bool
    requires table { TellsShapes (table_shapes table.now.widths.items table.now.signs.items) (shapes_of (design_view design.now)) }
    requires names { FitNames (shapes_of (design_view design.now)) (values_of values.now) }
    requires fits { IsTrue (fits (shapes_of (design_view design.now)) (tree_view condition.now)) }
    ensures { result ≡ condition_holds (shapes_of (design_view design.now)) (values_of values.now) (tree_view condition.now) }
{
    let _known = design.name;
    alone(table, condition, values) != 0
}

/// Gives the wire of the assignment at a place the value of its expression.
pub(crate) fn evaluate(
    table: &ShapeTable,
    design: &Module,
    steps: &[Compiled],
    place: usize,
    values: &mut [u128],
)
    requires table { TellsShapes (table_shapes table.now.widths.items table.now.signs.items) (shapes_of (design_view design.now)) }
    requires compiled { Compiles (shapes_of (design_view design.now)) design.now.assigns.items steps.now }
    requires fits { AssignsFit (design_view design.now) (length values.old) }
    requires names { FitNames (shapes_of (design_view design.now)) (values_of values.old) }
    requires place { place < length design.now.assigns.items }
    ensures value { (d : Driver) → slice_get (circuit_of (design_view design.now)).drivers place ≡ Some d → values_of values.new ≡ put (values_of values.old) d.target (d.value (values_of values.old)) }
    ensures names { FitNames (shapes_of (design_view design.now)) (values_of values.new) }
{
    let assign = &design.assigns.as_slice()[place];
    let compiled = &steps[place];
    let bits = value_by(table, design, compiled, &assign.value, values);
    write(values, compiled.target, bits);
}

/// Evaluates each assignment once, in the order of their levels.
pub(crate) fn settle(
    table: &ShapeTable,
    design: &Module,
    steps: &[Compiled],
    order: &[usize],
    values: &mut [u128],
)
    requires driven { IsDrivenOnce (design_view design.now) }
    requires table { TellsShapes (table_shapes table.now.widths.items table.now.signs.items) (shapes_of (design_view design.now)) }
    requires compiled { Compiles (shapes_of (design_view design.now)) design.now.assigns.items steps.now }
    requires fits { AssignsFit (design_view design.now) (length values.old) }
    requires order { AreByLevel (design_view design.now) order.now }
    requires names { FitNames (shapes_of (design_view design.now)) (values_of values.old) }
    ensures settled { IsSettling (circuit_of (design_view design.now)) (values_of values.old) (values_of values.new) }
    ensures names { FitNames (shapes_of (design_view design.now)) (values_of values.new) }
{
    for place in order {
        evaluate(table, design, steps, *place, values);
    }
}

// Sets the flags of the registers to which a statement gives a value.
#[cycle(mark)]
fn mark(table: &ShapeTable, design: &Module, statement: &Stmt, values: &[u128], marks: &mut [bool])
    requires table { TellsShapes (table_shapes table.now.widths.items table.now.signs.items) (shapes_of (design_view design.now)) }
    requires names { FitNames (shapes_of (design_view design.now)) (values_of values.now) }
    requires fits { IsTrue (action_fits (shapes_of (design_view design.now)) (length marks.old) (action_view statement.now)) }
    ensures { Marked (given (shapes_of (design_view design.now)) (values_of values.now) (action_view statement.now)) (opened_of marks.old) (opened_of marks.new) }
{
    match statement {
        Stmt::Block(parts) => mark_all(table, design, parts, values, marks),
        Stmt::If(condition, first, second) => {
            if holds(table, design, condition, values) {
                mark(table, design, first, values, marks);
            } else if let Some(other) = second {
                mark(table, design, other, values, marks);
            }
        }
        Stmt::Set(target, _) => marks[*target] = true,
    }
}

// Sets the flags of the registers to which one of these statements gives a value.
#[cycle(mark)]
fn mark_all(
    table: &ShapeTable,
    design: &Module,
    statements: &[Stmt],
    values: &[u128],
    marks: &mut [bool],
)
    requires table { TellsShapes (table_shapes table.now.widths.items table.now.signs.items) (shapes_of (design_view design.now)) }
    requires names { FitNames (shapes_of (design_view design.now)) (values_of values.now) }
    requires fits { IsTrue (actions_fit (shapes_of (design_view design.now)) (length marks.old) (actions_view statements.now)) }
    ensures { Marked (all_given (shapes_of (design_view design.now)) (values_of values.now) (actions_view statements.now)) (opened_of marks.old) (opened_of marks.new) }
{
    for statement in statements {
        mark(table, design, statement, values, marks);
    }
}

/// Sets the flags of the registers to which the blocks give a value, by these values.
pub(crate) fn mark_blocks(table: &ShapeTable, design: &Module, values: &[u128], marks: &mut [bool])
    requires table { TellsShapes (table_shapes table.now.widths.items table.now.signs.items) (shapes_of (design_view design.now)) }
    requires names { FitNames (shapes_of (design_view design.now)) (values_of values.now) }
    requires fits { IsTrue (blocks_fit (shapes_of (design_view design.now)) (length marks.old) (design_view design.now).blocks) }
    ensures { Marked (given_by (circuit_of (design_view design.now)).processes (values_of values.now)) (opened_of marks.old) (opened_of marks.new) }
{
    mark_all(table, design, &design.blocks, values, marks);
}

// Gives the registers what a statement gives them, by the values of before the edge.
#[cycle(run)]
fn run(table: &ShapeTable, design: &Module, statement: &Stmt, values: &[u128], staged: &mut [u128])
    requires table { TellsShapes (table_shapes table.now.widths.items table.now.signs.items) (shapes_of (design_view design.now)) }
    requires names { FitNames (shapes_of (design_view design.now)) (values_of values.now) }
    requires fits { IsTrue (action_fits (shapes_of (design_view design.now)) (length staged.old) (action_view statement.now)) }
    requires staged { FitNames (shapes_of (design_view design.now)) (values_of staged.old) }
    ensures given { Given (given (shapes_of (design_view design.now)) (values_of values.now) (action_view statement.now)) (values_of staged.old) (values_of staged.new) }
    ensures names { FitNames (shapes_of (design_view design.now)) (values_of staged.new) }
{
    match statement {
        Stmt::Block(parts) => run_all(table, design, parts, values, staged),
        Stmt::If(condition, first, second) => {
            if holds(table, design, condition, values) {
                run(table, design, first, values, staged);
            } else if let Some(other) = second {
                run(table, design, other, values, staged);
            }
        }
        Stmt::Set(target, value) => {
            let bits = value_for(table, design, *target, value, values);
            write(staged, *target, bits);
        }
    }
}

// Gives the registers what these statements give them, one after the other.
#[cycle(run)]
fn run_all(
    table: &ShapeTable,
    design: &Module,
    statements: &[Stmt],
    values: &[u128],
    staged: &mut [u128],
)
    requires table { TellsShapes (table_shapes table.now.widths.items table.now.signs.items) (shapes_of (design_view design.now)) }
    requires names { FitNames (shapes_of (design_view design.now)) (values_of values.now) }
    requires fits { IsTrue (actions_fit (shapes_of (design_view design.now)) (length staged.old) (actions_view statements.now)) }
    requires staged { FitNames (shapes_of (design_view design.now)) (values_of staged.old) }
    ensures given { Given (all_given (shapes_of (design_view design.now)) (values_of values.now) (actions_view statements.now)) (values_of staged.old) (values_of staged.new) }
    ensures names { FitNames (shapes_of (design_view design.now)) (values_of staged.new) }
{
    for statement in statements {
        run(table, design, statement, values, staged);
    }
}

// All registers change together, to what the trees of the blocks give them.
fn edge_by_trees(table: &ShapeTable, design: &Module, values: &mut [u128], staged: &mut [u128])
    requires table { TellsShapes (table_shapes table.now.widths.items table.now.signs.items) (shapes_of (design_view design.now)) }
    requires sizes { length staged.old ≡ length values.old }
    requires fits { IsTrue (blocks_fit (shapes_of (design_view design.now)) (length values.old) (design_view design.now).blocks) }
    requires names { FitNames (shapes_of (design_view design.now)) (values_of values.old) }
    ensures next { (register : ℕ) → values_of values.new register ≡ next (circuit_of (design_view design.now)) (values_of values.old) register }
    ensures names { FitNames (shapes_of (design_view design.now)) (values_of values.new) }
{
    staged.copy_from_slice(values);
    run_all(table, design, &design.blocks, values, staged);
    values.copy_from_slice(staged);
}

/// All registers change together, to what the blocks give them.
pub(crate) fn edge(
    table: &ShapeTable,
    design: &Module,
    blocks: &Blocks,
    values: &mut [u128],
    staged: &mut [u128],
)
    requires table { TellsShapes (table_shapes table.now.widths.items table.now.signs.items) (shapes_of (design_view design.now)) }
    requires blocks { AreBlocks (shapes_of (design_view design.now)) (length values.old) design.now.blocks.items blocks.now }
    requires sizes { length staged.old ≡ length values.old }
    requires fits { IsTrue (blocks_fit (shapes_of (design_view design.now)) (length values.old) (design_view design.now).blocks) }
    requires names { FitNames (shapes_of (design_view design.now)) (values_of values.old) }
    ensures next { (register : ℕ) → values_of values.new register ≡ next (circuit_of (design_view design.now)) (values_of values.old) register }
    ensures names { FitNames (shapes_of (design_view design.now)) (values_of values.new) }
{
    match blocks {
        Blocks::Flat(registers) => advance(registers, values, staged),
        Blocks::Trees => edge_by_trees(table, design, values, staged),
    }
}
