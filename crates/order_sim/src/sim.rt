// A simulator that draws.

ghost use Rattle.std.specs.Prelude.{◌≡◌, ℕ, ◌^◌, ◌<◌, IfOk, Some, length, slice_get};
ghost use Rattle.verilog_tree.specs.Checks.{Passes};
ghost use Rattle.verilog_tree.specs.Meaning.{Values};
ghost use Rattle.verilog_tree.specs.Names.{shapes_of};
ghost use Rattle.verilog_tree.specs.Shown.{ports_of};
ghost use Rattle.verilog_tree.specs.View.{design_view};
ghost use Rattle.verilog_tree.specs.declared.tree.Signal.{Signal};
ghost use Rattle.clock_sim.specs.Sim.{IsSound, AreInitial, HoldInitial, IsDataWidth, cycle_of};
ghost use Rattle.clock_sim.specs.Simulated.{values_of};
ghost use Rattle.order_sim.specs.Cycle.{RunsDrawn};
ghost use Rattle.order_sim.specs.Laws.{EveryOrderTells};

use crate::drawing::{count_given, draw_on, settle_drawn};
use crate::readers::{Readers, all_readers, read_counts};
use clock_sim::{PortShape, Sim};
use formed_module::FormedModule;
use mr_values::Memory;
use std::alloc::Global;
use std::marker::Model;
use verilog_tree::Module;

/// What is seen in a cycle: the outputs before the edge, and the place of the assignment that was evaluated last before they were read.
#[derive(Clone, Copy, PartialEq, Eq, Debug)]
pub struct Seen {
    pub valid: bool,
    pub out_data: u128,
    pub last: usize,
}

/// A simulator that evaluates each cycle in an order drawn from a number.
#[derive(Drop)]
pub struct OrderSim<'a> {
    design: &'a Module,
    sim: Sim<'a>,
    readers: Vec<Readers>,
    reads: Vec<usize>,
    waiting: Vec<usize>,
    ready: Vec<bool>,
    marks: Vec<bool>,
    number: u64,
}

impl<'a> Model for OrderSim<'a> {
    ghost use Rattle.std.specs.Prelude.{◌≡◌};
    ghost use Rattle.std.specs.Coded.{codes};
    ghost use Rattle.verilog_tree.specs.contracts.tree.Module as module_type;
    ghost use Rattle.order_sim.specs.Cycle.{Drawing, IsDrawer};

    ghost Value = { Drawing };

    ghost coded = { Prim.hlevel (codes, module_type.the_row.coded) };

    ghost view = { λ s. record { design = s.sim.design; values = s.sim.values; number = s.number } };

    ghost invariant = { λ s. IsDrawer s.design.now s.sim s.readers.items s.reads.items s.waiting.items s.ready.items s.marks.items };
}

impl<'a> OrderSim<'a> {
    /// A simulator of a module that passes the checks, whose registers have these patterns, one for each in the order of their declarations,
    /// and which draws from this number. Fails only for want of memory.
    pub fn start(
        alloc: Global,
        design: &'a FormedModule,
        initial: &[u128],
        number: u64,
    ) -> Result<OrderSim<'a>, Memory>
        requires passes { Passes (design_view design.now) }
        requires fits { AreInitial (shapes_of (design_view design.now)) design.now.signals.items initial.now }
        ensures design { IfOk result (λ sim. sim.design ≡ design.now) }
        ensures values { IfOk result (λ sim. HoldInitial design.now.signals.items initial.now sim.values) }
        ensures number { IfOk result (λ sim. sim.number ≡ number) }
    {
        let sim = Sim::start(alloc, design, initial)?;
        OrderSim::of_sim(alloc, design.tree(), sim, number)
    }

    // The simulator that draws for the tree of a simulator.
    fn of_sim(
        alloc: Global,
        design: &'a Module,
        sim: Sim<'a>,
        number: u64,
    ) -> Result<OrderSim<'a>, Memory>
        requires same { sim.design ≡ design.now }
        requires sound { IsSound (design_view design.now) }
        requires count { length sim.values ≡ length design.now.names.items }
        ensures design { IfOk result (λ drawer. drawer.design ≡ sim.entry.design) }
        ensures values { IfOk result (λ drawer. drawer.values ≡ sim.entry.values) }
        ensures number { IfOk result (λ drawer. drawer.number ≡ number) }
    {
        let readers = all_readers(alloc, design)?;
        let reads = read_counts(alloc, design)?;
        let waiting = Vec::from_elem(alloc, 0, design.assigns.len())?;
        let ready = Vec::from_elem(alloc, false, design.assigns.len())?;
        let marks = Vec::from_elem(alloc, false, design.names.len())?;
        Ok(OrderSim {
            design,
            sim,
            readers,
            reads,
            waiting,
            ready,
            marks,
            number,
        })
    }

    /// Runs a cycle in the order that is drawn, and tells what is seen in it; `in_data` fits its port. It takes no memory.
    ///
    /// What is seen, and the values afterwards, are what every order of the steps of the cycle tells, from these registers, any wires and any
    /// earlier inputs. The assignments are evaluated as they are drawn. Blocks and updates have the same outcome in every order, so that of
    /// theirs only the draws are made.
    pub fn cycle(&mut self, rst: bool, ce: bool, in_data: u128) -> Seen
        requires { in_data < 2 ^ (shapes_of (design_view self.old.design)).width (ports_of (design_view self.old.design)).in_data }
        ensures design { self.new.design ≡ self.old.design }
        ensures runs { (wires : Values) × RunsDrawn (design_view self.old.design) (values_of self.old.values) self.old.number (cycle_of rst ce in_data) result wires (values_of self.new.values) self.new.number × EveryOrderTells (design_view self.old.design) (values_of self.old.values) self.old.number (cycle_of rst ce in_data) result wires (values_of self.new.values) }
        ensures small { result.out_data < 2 ^ (shapes_of (design_view self.old.design)).width (ports_of (design_view self.old.design)).out_data }
    {
        self.sim.set_inputs(rst, ce, in_data);
        let drawn = settle_drawn(
            &mut self.sim,
            self.readers.as_slice(),
            self.reads.as_slice(),
            self.waiting.as_mut_slice(),
            self.ready.as_mut_slice(),
            self.number,
        );
        let seen = Seen {
            valid: self.sim.is_valid(),
            out_data: self.sim.out_data(),
            last: drawn.last,
        };
        let given = count_given(&self.sim, self.design, self.marks.as_mut_slice());
        self.sim.edge();
        let state = draw_on(drawn.number, self.design.blocks.len());
        self.number = draw_on(state, given);
        seen
    }

    /// The pattern of the signal at this place of the module's signals: of a register as it is, and of a wire or an output as it was
    /// when the outputs were last read.
    pub fn value(&self, signal: usize) -> u128
        requires inside { signal < length self.now.design.signals.items }
        ensures { (s : Signal) → slice_get self.now.design.signals.items signal ≡ Some s → result ≡ values_of self.now.values s.name }
    {
        self.sim.value(signal)
    }

    /// How `in_data` is declared.
    pub fn input_shape(&self) -> PortShape
        ensures width { result.width ≡ (shapes_of (design_view self.now.design)).width (ports_of (design_view self.now.design)).in_data }
        ensures signed { result.signed ≡ (shapes_of (design_view self.now.design)).signed (ports_of (design_view self.now.design)).in_data }
        ensures bits { IsDataWidth result.width }
    {
        self.sim.input_shape()
    }

    /// How `out_data` is declared.
    pub fn output_shape(&self) -> PortShape
        ensures width { result.width ≡ (shapes_of (design_view self.now.design)).width (ports_of (design_view self.now.design)).out_data }
        ensures signed { result.signed ≡ (shapes_of (design_view self.now.design)).signed (ports_of (design_view self.now.design)).out_data }
        ensures bits { IsDataWidth result.width }
    {
        self.sim.output_shape()
    }
}
