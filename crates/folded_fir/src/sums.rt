// The accumulators of a folded filter.

ghost use Rattle.std.specs.Prelude.{◌≡◌, ℕ, ◌<◌, ◌≤◌, length, slice_get, get_or, Some, IfOk};
ghost use Rattle.net_graph.specs.declared.cell.Node.{Node};
ghost use Rattle.net_graph.specs.WellFormed.{IsWidth};
ghost use Rattle.net_graph.specs.Grow.{Extends};
ghost use Rattle.fold_schedule.specs.Fold.{adders};
ghost use Rattle.folded_fir.specs.declared.cells.Slot.{Slot};
ghost use Rattle.folded_fir.specs.Operands.{AreCopies};
ghost use Rattle.folded_fir.specs.Sums.{HasWidths, AddsSums};

use crate::accumulators::add_accumulator;
use crate::cells::{Slot, adder_cells};
use crate::control::Control;
use crate::operands::add_operand;
use fold_schedule::Schedule;
use mr_values::Memory;
use net_graph::{Net, Node};
use stage_law::Rates;
use std::alloc::Global;

/// The terms of a filter, the factors around it, and the slots in which its terms are taken.
#[derive(Drop)]
pub(crate) struct Plan {
    pub(crate) schedule: Schedule,
    pub(crate) rates: Rates,
    pub(crate) slots: Vec<Slot>,
}

/// The accumulators, each of a width of its own and numbered on from the first free number. After want of memory there may be more nodes.
pub(crate) fn add_sums(
    alloc: Global,
    net: &mut Net,
    plan: &Plan,
    control: &Control,
    copies: &[Node],
    widths: &[u8],
) -> Result<Vec<Node>, Memory>
    requires data_group { 1 ≤ net.old.group }
    requires some { 1 ≤ plan.now.schedule.slots }
    requires up { 1 ≤ plan.now.rates.up }
    requires down_high { plan.now.rates.down ≤ 4096 }
    requires few { (k : ℕ) (x : Slot) → slice_get plan.now.slots.items k ≡ Some x → x.output < 4096 }
    requires as_many { length control.now.bits.items ≡ length plan.now.slots.items }
    requires has_clear { control.now.clear.place < length net.old.cells }
    requires has_bits { (k : ℕ) (bit : Node) → slice_get control.now.bits.items k ≡ Some bit → bit.place < length net.old.cells }
    requires copies { AreCopies net.old.cells copies.now }
    requires room { HasWidths net.old.cells copies.now (record { fold = plan.now.schedule; up = plan.now.rates.up; down = plan.now.rates.down; slots = plan.now.slots.items }) }
    requires all { length widths.now ≡ adders plan.now.schedule }
    requires wide { (adder : ℕ) → adder < length widths.now → IsWidth (get_or widths.now adder 0) }
    ensures many { IfOk result (λ sums. length sums.items ≡ adders plan.now.schedule) }
    ensures ok { IfOk result (λ sums. AddsSums net.old net.new (record { fold = plan.now.schedule; up = plan.now.rates.up; down = plan.now.rates.down; slots = plan.now.slots.items })
        (record { clear = control.now.clear; bits = control.now.bits.items; copies = copies.now }) widths.now sums.items) }
    ensures extends { Extends net.old.cells net.new.cells }
    ensures group { net.new.group ≡ net.old.group }
{
    let mut sums = Vec::new(alloc);
    for adder in 0..plan.schedule.adders() {
        let cells = adder_cells(
            alloc,
            &plan.schedule,
            plan.rates,
            plan.slots.as_slice(),
            adder,
        )?;
        let operand = add_operand(
            net,
            control.bits.as_slice(),
            copies,
            plan.rates.up,
            cells.as_slice(),
        )?;
        let sum = add_accumulator(net, control.clear, operand, widths[adder as usize])?;
        sums.push(sum)?;
    }
    Ok(sums)
}
