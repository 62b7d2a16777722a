// Names as operands of flat steps: what their lengths and signs make of their bits is found once.

ghost use Rattle.std.specs.Prelude.{◌≡◌, ℕ, ◌+◌, ◌-◌, ◌^◌, ◌<◌, ◌≤◌, if◌then◌else◌};
ghost use Rattle.verilog_tree.specs.Names.{shapes_of};
ghost use Rattle.verilog_tree.specs.View.{design_view};
ghost use Rattle.clock_sim.specs.Simulated.{table_shapes, values_of};
ghost use Rattle.clock_sim.specs.Tables.{TellsShapes};
ghost use Rattle.clock_sim.specs.Steps.{AllFitting, IsMask, IsOperandOf, operand_value, raised};

use crate::shape_table::ShapeTable;
use verilog_tree::{Declarations, Module};

/// A name in a context: where its bits are `half` or more, which is where its top bit is 1, `fill` is added to them.
#[derive(Clone, Copy)]
pub struct Operand {
    pub name: usize,
    pub half: u128,
    pub fill: u128,
}

/// What is handed down to operands: a length in bits, and whether the context is signed.
#[derive(Clone, Copy)]
pub struct Handed {
    pub length: u32,
    pub signed: bool,
}

/// The value of a name, and 0 past the last.
pub(crate) fn value_at(values: &[u128], name: usize) -> u128
    ensures { result ≡ values_of values.now name }
{
    if name < values.len() { values[name] } else { 0 }
}

/// The bits, and where `top` is `half` or more, `fill` besides, modulo `2^128`.
pub(crate) fn raise(half: u128, fill: u128, top: u128, bits: u128) -> u128
    ensures { result ≡ raised half fill top bits }
{
    if half <= top {
        bits.wrapping_add(fill)
    } else {
        bits
    }
}

/// The bits of an operand.
pub(crate) fn read(operand: &Operand, values: &[u128]) -> u128
    ensures { result ≡ operand_value operand.now (values_of values.now) }
{
    let bits = value_at(values, operand.name);
    raise(operand.half, operand.fill, bits, bits)
}

/// All of so many bits.
pub(crate) fn mask_of(length: u32) -> u128
    requires { length ≤ 128 }
    ensures { IsMask length result }
{
    if length == 128 {
        u128::MAX
    } else {
        (1 << length) - 1
    }
}

/// The top one of so many bits.
pub(crate) fn half_of(length: u32) -> u128
    requires least { 1 ≤ length }
    requires most { length ≤ 128 }
    ensures { result ≡ 2 ^ (length - 1) }
{
    1 << (length - 1)
}

/// What fills a signed value from a length up to one that is not less, and nothing for one that is not signed.
pub(crate) fn fill_of(signed: bool, from: u32, length: u32) -> u128
    requires order { from ≤ length }
    requires limit { length ≤ 128 }
    ensures { result ≡ (if signed then 2 ^ length - 2 ^ from else 0) }
{
    if signed {
        mask_of(length) - mask_of(from)
    } else {
        0
    }
}

/// The length of a name.
pub(crate) fn width_in(table: &ShapeTable, design: &Module, name: usize) -> u32
    requires table { TellsShapes (table_shapes table.now.widths.items table.now.signs.items) (shapes_of (design_view design.now)) }
    requires fitting { AllFitting (shapes_of (design_view design.now)) }
    ensures value { result ≡ (shapes_of (design_view design.now)).width name }
    ensures least { 1 ≤ result }
    ensures most { result ≤ 128 }
{
    let _known = design.name;
    table.width_of(name)
}

/// Whether a name is signed.
pub(crate) fn sign_in(table: &ShapeTable, design: &Module, name: usize) -> bool
    requires { TellsShapes (table_shapes table.now.widths.items table.now.signs.items) (shapes_of (design_view design.now)) }
    ensures { result ≡ (shapes_of (design_view design.now)).signed name }
{
    let _known = design.name;
    table.sign_of(name)
}

/// A name as an operand in a context.
pub(crate) fn operand_of(
    table: &ShapeTable,
    design: &Module,
    name: usize,
    context: Handed,
) -> Operand
    requires table { TellsShapes (table_shapes table.now.widths.items table.now.signs.items) (shapes_of (design_view design.now)) }
    requires fitting { AllFitting (shapes_of (design_view design.now)) }
    requires wide { (shapes_of (design_view design.now)).width name ≤ context.length }
    requires limit { context.length ≤ 128 }
    ensures { IsOperandOf (shapes_of (design_view design.now)) name context.length context.signed result }
{
    let width = width_in(table, design, name);
    Operand {
        name,
        half: half_of(width),
        fill: fill_of(context.signed, width, context.length),
    }
}
