// A simulator of a module.

ghost use Rattle.std.specs.Prelude.{◌≡◌, ℕ, ◌^◌, ◌<◌, ◌≤◌, IfOk, length, Some, slice_get, not, ◌==◌};
ghost use Rattle.verilog_tree.specs.Meaning.{FitNames, bit_of};
ghost use Rattle.verilog_tree.specs.Checks.{Passes};
ghost use Rattle.verilog_tree.specs.Names.{shapes_of, number_of};
ghost use Rattle.verilog_tree.specs.Circuit.{Driver, IsSettling, given_by, next, put, with_inputs};
ghost use Rattle.verilog_tree.specs.Cycle.{circuit_of};
ghost use Rattle.verilog_tree.specs.Shown.{inputs_of, ports_of};
ghost use Rattle.verilog_tree.specs.View.{design_view};
ghost use Rattle.verilog_tree.specs.declared.tree.Signal.{Signal};
ghost use Rattle.settle_order.specs.Placing.{opened_of};
ghost use Rattle.clock_sim.specs.Simulated.{table_shapes, values_of, Marked};
ghost use Rattle.clock_sim.specs.Tables.{TellsShapes};
ghost use Rattle.clock_sim.specs.Sim.{Simulation, IsSound, ArePorts, is_register, AreInitial, HoldInitial, IsDataWidth, cycle_of};

use crate::operand::value_at;
use crate::registers::{Blocks, blocks_of};
use crate::shape_table::{ShapeTable, table_of};
use crate::step::{Compiled, steps_of};
use crate::steps::{edge, evaluate, mark_blocks, settle, write};
use formed_module::FormedModule;
use mr_values::Memory;
use std::alloc::Global;
use std::marker::Model;
use verilog_tree::{Declarations, Kind, Module};
use wire_levels::level_order;

/// The numbers of the names of the ports that are set and read.
#[derive(Clone, Copy, PartialEq, Eq, Debug)]
pub struct PortNames {
    pub rst: usize,
    pub ce: usize,
    pub in_data: usize,
    pub out_valid: usize,
    pub out_data: usize,
}

/// How a port is declared: its bits, and whether it is signed.
#[derive(Clone, Copy, PartialEq, Eq, Debug)]
pub struct PortShape {
    pub width: u8,
    pub signed: bool,
}

// The number of the first name with this text, and past the last where there is none.
fn name_number(design: &Module, text: &str) -> usize
    ensures { result ≡ number_of (design_view design.now) text.now }
{
    let names = design.names.as_slice();
    for place in 0..names.len() {
        if text == names[place].as_str() {
            return place;
        }
    }
    names.len()
}

// The names of the ports.
fn port_names(design: &Module) -> PortNames
    requires { IsSound (design_view design.now) }
    ensures { ArePorts (design_view design.now) (length (design_view design.now).names) result }
{
    PortNames {
        rst: name_number(design, "rst"),
        ce: name_number(design, "ce"),
        in_data: name_number(design, "in_data"),
        out_valid: name_number(design, "out_valid"),
        out_data: name_number(design, "out_data"),
    }
}

// How the name of a port is declared.
fn shape_of(table: &ShapeTable, design: &Module, name: usize) -> PortShape
    requires table { TellsShapes (table_shapes table.now.widths.items table.now.signs.items) (shapes_of (design_view design.now)) }
    requires bits { IsDataWidth ((shapes_of (design_view design.now)).width name) }
    ensures width { result.width ≡ (shapes_of (design_view design.now)).width name }
    ensures signed { result.signed ≡ (shapes_of (design_view design.now)).signed name }
{
    let _known = design.name;
    PortShape {
        width: table.width_of(name) as u8,
        signed: table.sign_of(name),
    }
}

// 1 where it is so.
fn flag(is_so: bool) -> u128
    ensures { result ≡ bit_of is_so }
{
    if is_so { 1 } else { 0 }
}

// Writes the inputs to the values of their names.
fn set_inputs(
    design: &Module,
    ports: PortNames,
    rst: bool,
    ce: bool,
    in_data: u128,
    values: &mut [u128],
)
    requires ports { ArePorts (design_view design.now) (length values.old) ports }
    requires fits { in_data < 2 ^ (shapes_of (design_view design.now)).width (ports_of (design_view design.now)).in_data }
    requires names { FitNames (shapes_of (design_view design.now)) (values_of values.old) }
    ensures set { values_of values.new ≡ with_inputs (inputs_of (ports_of (design_view design.now)) (cycle_of rst ce in_data)) (values_of values.old) }
    ensures names { FitNames (shapes_of (design_view design.now)) (values_of values.new) }
{
    let _known = design.name;
    write(values, ports.rst, flag(rst));
    write(values, ports.ce, flag(ce));
    write(values, ports.in_data, in_data);
}

/// A simulator: the values of all names, and the assignments sorted by their levels, in which order they are evaluated.
#[derive(Drop)]
pub struct Sim<'a> {
    design: &'a Module,
    ports: PortNames,
    table: ShapeTable,
    order: Vec<usize>,
    steps: Vec<Compiled>,
    blocks: Blocks,
    values: Vec<u128>,
    staged: Vec<u128>,
}

impl<'a> Model for Sim<'a> {
    ghost use Rattle.clock_sim.specs.Sim.{Simulation, IsSimulation};
    ghost use Rattle.verilog_tree.specs.contracts.tree.Module as module_type;
    ghost use Rattle.std.specs.Coded.{codes};

    ghost Value = { Simulation };

    ghost coded = { Prim.hlevel (codes, module_type.the_row.coded) };

    ghost view = { λ s. record { design = s.design.now; values = s.values.items } };

    ghost invariant = { λ s. IsSimulation s.design.now s.ports s.table s.order.items s.steps.items s.blocks s.values.items s.staged.items };
}

fn is_register(kind: Kind) -> bool
    ensures { result ≡ is_register kind }
{
    match kind {
        Kind::Reg => true,
        Kind::Input | Kind::Output | Kind::Wire => false,
    }
}

// The values of all names at the start: the registers have their initial patterns, and all others are 0.
fn initial_values(alloc: Global, design: &Module, initial: &[u128]) -> Result<Vec<u128>, Memory>
    requires sound { IsSound (design_view design.now) }
    requires fits { AreInitial (shapes_of (design_view design.now)) design.now.signals.items initial.now }
    ensures values { IfOk result (λ values. HoldInitial design.now.signals.items initial.now values.items) }
    ensures many { IfOk result (λ values. length values.items ≡ length (design_view design.now).names) }
    ensures names { IfOk result (λ values. FitNames (shapes_of (design_view design.now)) (values_of values.items)) }
{
    let mut values = Vec::from_elem(alloc, 0, design.names.len())?;
    let mut next = 0usize;
    for signal in design.signals.as_slice() {
        if is_register(signal.kind) && next < initial.len() {
            write(&mut values, signal.name, initial[next]);
            next += 1;
        }
    }
    Ok(values)
}

impl<'a> Sim<'a> {
    // A simulator of a tree whose registers have these patterns.
    fn of_tree(alloc: Global, design: &'a Module, initial: &[u128]) -> Result<Sim<'a>, Memory>
        requires sound { IsSound (design_view design.now) }
        requires fits { AreInitial (shapes_of (design_view design.now)) design.now.signals.items initial.now }
        ensures design { IfOk result (λ sim. sim.design ≡ design.now) }
        ensures values { IfOk result (λ sim. HoldInitial design.now.signals.items initial.now sim.values) }
        ensures count { IfOk result (λ sim. length sim.values ≡ length design.now.names.items) }
    {
        let count = design.names.len();
        let ports = port_names(design);
        let table = table_of(alloc, design, count)?;
        let order = level_order(alloc, design, count)?;
        let values = initial_values(alloc, design, initial)?;
        let steps = steps_of(alloc, &table, design, values.as_slice())?;
        let blocks = blocks_of(alloc, &table, design, ports, values.as_slice())?;
        let staged = Vec::from_elem(alloc, 0, count)?;
        Ok(Sim {
            design,
            ports,
            table,
            order,
            steps,
            blocks,
            values,
            staged,
        })
    }

    /// A simulator of a module that passes the checks, whose registers have these patterns, one for each in the order of their
    /// declarations. Fails only for want of memory.
    pub fn start(
        alloc: Global,
        design: &'a FormedModule,
        initial: &[u128],
    ) -> Result<Sim<'a>, Memory>
        requires passes { Passes (design_view design.now) }
        requires fits { AreInitial (shapes_of (design_view design.now)) design.now.signals.items initial.now }
        ensures design { IfOk result (λ sim. sim.design ≡ design.now) }
        ensures values { IfOk result (λ sim. HoldInitial design.now.signals.items initial.now sim.values) }
        ensures count { IfOk result (λ sim. length sim.values ≡ length design.now.names.items) }
    {
        Sim::of_tree(alloc, design.tree(), initial)
    }

    /// Sets the inputs, of which `in_data` fits its port, and gives each wire and output the value of its expression. It takes no
    /// memory.
    pub fn settle(&mut self, rst: bool, ce: bool, in_data: u128)
        requires { in_data < 2 ^ (shapes_of (design_view self.old.design)).width (ports_of (design_view self.old.design)).in_data }
        ensures design { self.new.design ≡ self.old.design }
        ensures settled { IsSettling (circuit_of (design_view self.old.design)) (with_inputs (inputs_of (ports_of (design_view self.old.design)) (cycle_of rst ce in_data)) (values_of self.old.values)) (values_of self.new.values) }
    {
        let values = self.values.as_mut_slice();
        set_inputs(self.design, self.ports, rst, ce, in_data, values);
        settle(
            &self.table,
            self.design,
            self.steps.as_slice(),
            self.order.as_slice(),
            values,
        );
    }

    /// Sets the inputs, of which `in_data` fits its port. It takes no memory.
    pub fn set_inputs(&mut self, rst: bool, ce: bool, in_data: u128)
        requires { in_data < 2 ^ (shapes_of (design_view self.old.design)).width (ports_of (design_view self.old.design)).in_data }
        ensures design { self.new.design ≡ self.old.design }
        ensures count { length self.new.values ≡ length self.old.values }
        ensures set { values_of self.new.values ≡ with_inputs (inputs_of (ports_of (design_view self.old.design)) (cycle_of rst ce in_data)) (values_of self.old.values) }
    {
        let values = self.values.as_mut_slice();
        set_inputs(self.design, self.ports, rst, ce, in_data, values);
    }

    /// Gives the wire of the assignment at this place the value of its expression. It takes no memory.
    pub fn evaluate(&mut self, place: usize)
        requires { place < length self.old.design.assigns.items }
        ensures design { self.new.design ≡ self.old.design }
        ensures count { length self.new.values ≡ length self.old.values }
        ensures value { (d : Driver) → slice_get (circuit_of (design_view self.old.design)).drivers place ≡ Some d → values_of self.new.values ≡ put (values_of self.old.values) d.target (d.value (values_of self.old.values)) }
    {
        let values = self.values.as_mut_slice();
        evaluate(
            &self.table,
            self.design,
            self.steps.as_slice(),
            place,
            values,
        );
    }

    /// Sets the flags of the registers to which the blocks give a value, of as many flags as there are names. It takes no memory.
    pub fn mark_given(&self, marks: &mut [bool])
        requires { length marks.old ≡ length self.now.values }
        ensures { Marked (given_by (circuit_of (design_view self.now.design)).processes (values_of self.now.values)) (opened_of marks.old) (opened_of marks.new) }
    {
        mark_blocks(&self.table, self.design, self.values.as_slice(), marks);
    }

    /// All registers change together, to what the blocks give them. It takes no memory.
    pub fn edge(&mut self)
        ensures design { self.new.design ≡ self.old.design }
        ensures count { length self.new.values ≡ length self.old.values }
        ensures next { (name : ℕ) → values_of self.new.values name ≡ next (circuit_of (design_view self.old.design)) (values_of self.old.values) name }
    {
        edge(
            &self.table,
            self.design,
            &self.blocks,
            self.values.as_mut_slice(),
            self.staged.as_mut_slice(),
        );
    }

    /// The pattern of the signal at this place of the module's signals: of a register as it is, and of a wire or an output as it was
    /// last settled.
    pub fn value(&self, signal: usize) -> u128
        requires inside { signal < length self.now.design.signals.items }
        ensures { (s : Signal) → slice_get self.now.design.signals.items signal ≡ Some s → result ≡ values_of self.now.values s.name }
    {
        value_at(self.values.as_slice(), self.design.signals[signal].name)
    }

    /// How `in_data` is declared.
    pub fn input_shape(&self) -> PortShape
        ensures width { result.width ≡ (shapes_of (design_view self.now.design)).width (ports_of (design_view self.now.design)).in_data }
        ensures signed { result.signed ≡ (shapes_of (design_view self.now.design)).signed (ports_of (design_view self.now.design)).in_data }
        ensures bits { IsDataWidth result.width }
    {
        shape_of(&self.table, self.design, self.ports.in_data)
    }

    /// How `out_data` is declared.
    pub fn output_shape(&self) -> PortShape
        ensures width { result.width ≡ (shapes_of (design_view self.now.design)).width (ports_of (design_view self.now.design)).out_data }
        ensures signed { result.signed ≡ (shapes_of (design_view self.now.design)).signed (ports_of (design_view self.now.design)).out_data }
        ensures bits { IsDataWidth result.width }
    {
        shape_of(&self.table, self.design, self.ports.out_data)
    }

    /// Whether `out_valid` isn't 0, as it was last settled.
    pub fn is_valid(&self) -> bool
        ensures { result ≡ not (values_of self.now.values (ports_of (design_view self.now.design)).out_valid == 0) }
    {
        value_at(self.values.as_slice(), self.ports.out_valid) != 0
    }

    /// The pattern of `out_data`, as it was last settled.
    pub fn out_data(&self) -> u128
        ensures value { result ≡ values_of self.now.values (ports_of (design_view self.now.design)).out_data }
        ensures small { result < 2 ^ (shapes_of (design_view self.now.design)).width (ports_of (design_view self.now.design)).out_data }
    {
        value_at(self.values.as_slice(), self.ports.out_data)
    }
}
