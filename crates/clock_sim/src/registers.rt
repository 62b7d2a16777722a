// Blocks of one shape, `if (reset) register <= literal; else if (enable) register <= name;`, with one reset and one enable for all,
// as a flat list of registers. They all change together.

ghost use Rattle.std.specs.Prelude.{◌≡◌, ℕ, ◌^◌, ◌<◌, ◌≤◌, IsTrue, IfOk, Some, length, bit_and};
ghost use Rattle.verilog_tree.specs.Meaning.{FitNames};
ghost use Rattle.verilog_tree.specs.Names.{shapes_of};
ghost use Rattle.verilog_tree.specs.Tree as tree;
ghost use Rattle.verilog_tree.specs.View.{tree_view, action_view, design_view};
ghost use Rattle.clock_sim.specs.Simulated.{table_shapes, values_of, action_fits, blocks_fit, Given};
ghost use Rattle.clock_sim.specs.Tables.{TellsShapes};
ghost use Rattle.clock_sim.specs.Steps.{AllFitting, operand_value};
ghost use Rattle.clock_sim.specs.Blocks.{AreBlocks, AreInside, AreTaken, IsConstantSet, IsCopySet, IsEnabled, IsRegisterOf, given_each, registers_given, taken};

use crate::operand::{Operand, mask_of, operand_of, read, value_at, width_in};
use crate::shape_table::ShapeTable;
use crate::sim::PortNames;
use crate::step::{handed, name_in};
use crate::steps::{value_for, write};
use mr_values::Memory;
use std::alloc::Global;
use verilog_tree::{Expr, Module, Stmt};

/// A register: the bits that a reset gives it, and the name that it takes where it is enabled, cut by a mask.
#[derive(Clone, Copy)]
pub struct Register {
    pub target: usize,
    pub initial: u128,
    pub source: Operand,
    pub mask: u128,
}

/// The registers of a module, and the names of their reset and their enable.
#[derive(Drop)]
pub struct Registers {
    pub reset: usize,
    pub enable: usize,
    pub each: Vec<Register>,
}

/// The blocks of a module: registers, where all have that shape, and else its trees.
#[derive(Drop)]
pub enum Blocks {
    Flat(Registers),
    Trees,
}

// A register that is given a literal, with the bits.
#[derive(Clone, Copy)]
pub struct ConstantSet {
    pub target: usize,
    pub bits: u128,
}

// A register that is given a name.
#[derive(Clone, Copy)]
pub struct CopySet {
    pub target: usize,
    pub source: Operand,
    pub mask: u128,
}

// `register <= literal;`
fn constant_set(
    table: &ShapeTable,
    design: &Module,
    statement: &Stmt,
    values: &[u128],
) -> Option<ConstantSet>
    requires table { TellsShapes (table_shapes table.now.widths.items table.now.signs.items) (shapes_of (design_view design.now)) }
    requires names { FitNames (shapes_of (design_view design.now)) (values_of values.now) }
    requires fits { IsTrue (action_fits (shapes_of (design_view design.now)) (length values.now) (action_view statement.now)) }
    ensures { (s : ConstantSet) → result ≡ Some s → IsConstantSet (shapes_of (design_view design.now)) (length values.now) (action_view statement.now) s }
{
    if let Stmt::Set(target, value) = statement {
        if let Expr::Based { .. } = value {
            let bits = value_for(table, design, *target, value, values);
            return Some(ConstantSet {
                target: *target,
                bits,
            });
        }
    }
    None
}

// `register <= name;`
fn copy_set(table: &ShapeTable, design: &Module, statement: &Stmt) -> Option<CopySet>
    requires table { TellsShapes (table_shapes table.now.widths.items table.now.signs.items) (shapes_of (design_view design.now)) }
    requires fitting { AllFitting (shapes_of (design_view design.now)) }
    ensures { (s : CopySet) → result ≡ Some s → IsCopySet (shapes_of (design_view design.now)) (action_view statement.now) s }
{
    if let Stmt::Set(target, value) = statement {
        let name = name_in(value)?;
        let width = width_in(table, design, *target);
        let whole = handed(table, design, name, name, width);
        return Some(CopySet {
            target: *target,
            source: operand_of(table, design, name, whole),
            mask: mask_of(width),
        });
    }
    None
}

// What is given where a condition is the name of the enable.
fn enabled(
    table: &ShapeTable,
    design: &Module,
    enable: usize,
    condition: &Expr,
    first: &Stmt,
) -> Option<CopySet>
    requires table { TellsShapes (table_shapes table.now.widths.items table.now.signs.items) (shapes_of (design_view design.now)) }
    requires fitting { AllFitting (shapes_of (design_view design.now)) }
    ensures { (s : CopySet) → result ≡ Some s → IsEnabled (shapes_of (design_view design.now)) enable (tree.When (tree_view condition.now) (action_view first.now)) s }
{
    let on = name_in(condition)?;
    if on == enable {
        copy_set(table, design, first)
    } else {
        None
    }
}

// `if (enable) register <= name;`
fn enabled_set(
    table: &ShapeTable,
    design: &Module,
    enable: usize,
    statement: &Stmt,
) -> Option<CopySet>
    requires table { TellsShapes (table_shapes table.now.widths.items table.now.signs.items) (shapes_of (design_view design.now)) }
    requires fitting { AllFitting (shapes_of (design_view design.now)) }
    ensures { (s : CopySet) → result ≡ Some s → IsEnabled (shapes_of (design_view design.now)) enable (action_view statement.now) s }
{
    match statement {
        Stmt::If(condition, first, second) => match second {
            None => enabled(table, design, enable, condition, first),
            Some(_) => None,
        },
        Stmt::Block(_) | Stmt::Set(..) => None,
    }
}

// A register, where a condition is the name of the reset.
fn guarded(
    table: &ShapeTable,
    design: &Module,
    ports: PortNames,
    condition: &Expr,
    first: &Stmt,
    second: &Stmt,
    values: &[u128],
) -> Option<Register>
    requires table { TellsShapes (table_shapes table.now.widths.items table.now.signs.items) (shapes_of (design_view design.now)) }
    requires fitting { AllFitting (shapes_of (design_view design.now)) }
    requires names { FitNames (shapes_of (design_view design.now)) (values_of values.now) }
    requires fits { IsTrue (action_fits (shapes_of (design_view design.now)) (length values.now) (action_view first.now)) }
    ensures block { (r : Register) → result ≡ Some r → IsRegisterOf (shapes_of (design_view design.now)) ports.rst ports.ce (tree.Either (tree_view condition.now) (action_view first.now) (action_view second.now)) r }
    ensures inside { (r : Register) → result ≡ Some r → r.target < length values.now }
{
    let on = name_in(condition)?;
    let start = constant_set(table, design, first, values)?;
    let then = enabled_set(table, design, ports.ce, second)?;
    if on == ports.rst && start.target == then.target {
        Some(Register {
            target: start.target,
            initial: start.bits,
            source: then.source,
            mask: then.mask,
        })
    } else {
        None
    }
}

// A block as a register.
fn register_of(
    table: &ShapeTable,
    design: &Module,
    ports: PortNames,
    statement: &Stmt,
    values: &[u128],
) -> Option<Register>
    requires table { TellsShapes (table_shapes table.now.widths.items table.now.signs.items) (shapes_of (design_view design.now)) }
    requires fitting { AllFitting (shapes_of (design_view design.now)) }
    requires names { FitNames (shapes_of (design_view design.now)) (values_of values.now) }
    requires fits { IsTrue (action_fits (shapes_of (design_view design.now)) (length values.now) (action_view statement.now)) }
    ensures block { (r : Register) → result ≡ Some r → IsRegisterOf (shapes_of (design_view design.now)) ports.rst ports.ce (action_view statement.now) r }
    ensures inside { (r : Register) → result ≡ Some r → r.target < length values.now }
{
    match statement {
        Stmt::If(condition, first, second) => match second {
            Some(other) => guarded(table, design, ports, condition, first, other, values),
            None => None,
        },
        Stmt::Block(_) | Stmt::Set(..) => None,
    }
}

/// The blocks of a module as registers, if all have that shape with these names. Fails only for want of memory.
pub(crate) fn blocks_of(
    alloc: Global,
    table: &ShapeTable,
    design: &Module,
    ports: PortNames,
    values: &[u128],
) -> Result<Blocks, Memory>
    requires table { TellsShapes (table_shapes table.now.widths.items table.now.signs.items) (shapes_of (design_view design.now)) }
    requires fitting { AllFitting (shapes_of (design_view design.now)) }
    requires names { FitNames (shapes_of (design_view design.now)) (values_of values.now) }
    requires fits { IsTrue (blocks_fit (shapes_of (design_view design.now)) (length values.now) (design_view design.now).blocks) }
    ensures { IfOk result (λ blocks. AreBlocks (shapes_of (design_view design.now)) (length values.now) design.now.blocks.items blocks) }
{
    if design.blocks.len() > values.len() {
        return Ok(Blocks::Trees);
    }
    let mut each = Vec::new(alloc);
    for statement in design.blocks.as_slice() {
        match register_of(table, design, ports, statement, values) {
            Some(register) => each.push(register)?,
            None => return Ok(Blocks::Trees),
        }
    }
    Ok(Blocks::Flat(Registers {
        reset: ports.rst,
        enable: ports.ce,
        each,
    }))
}

// Gives each register its bits of a reset.
fn reset_all(each: &[Register], values: &mut [u128])
    requires { AreInside (length values.old) each.now }
    ensures { Given (given_each (λ r. r.initial) each.now) (values_of values.old) (values_of values.new) }
{
    for register in each {
        write(values, register.target, register.initial);
    }
}

// The bits that each register takes.
fn take_all(each: &[Register], values: &[u128], pending: &mut [u128])
    requires { length each.now ≤ length pending.old }
    ensures { AreTaken (values_of values.now) each.now pending.new }
{
    for place in 0..each.len() {
        let register = &each[place];
        pending[place] = read(&register.source, values) & register.mask;
    }
}

// Gives each register the bits that it takes.
fn give_all(each: &[Register], pending: &[u128], values: &mut [u128])
    requires inside { AreInside (length values.old) each.now }
    requires room { length each.now ≤ length pending.now }
    requires pending { AreTaken (values_of values.old) each.now pending.now }
    ensures { Given (given_each (taken (values_of values.old)) each.now) (values_of values.old) (values_of values.new) }
{
    for place in 0..each.len() {
        write(values, each[place].target, pending[place]);
    }
}

/// All registers change together, by way of a list of as many bits.
pub(crate) fn advance(registers: &Registers, values: &mut [u128], pending: &mut [u128])
    requires inside { AreInside (length values.old) registers.now.each.items }
    requires room { length registers.now.each.items ≤ length pending.old }
    ensures { Given (registers_given registers.now (values_of values.old)) (values_of values.old) (values_of values.new) }
{
    let each = registers.each.as_slice();
    if value_at(values, registers.reset) != 0 {
        reset_all(each, values);
    } else if value_at(values, registers.enable) != 0 {
        take_all(each, values, pending);
        give_all(each, pending, values);
    }
}
