// Adder trees.

ghost use Rattle.std.specs.Prelude.{◌≡◌, ℕ, ◌+◌, ◌-◌, ◌^◌, ◌<◌, ◌≤◌, length, get_or, Some, slice_get, IfOk, true};
ghost use Rattle.net_graph.specs.declared.cell.Leaf.{Leaf};
ghost use Rattle.net_graph.specs.WellFormed.{IsWidth};
ghost use Rattle.net_graph.specs.Grow.{Extends};
ghost use Rattle.net_graph.specs.Count.{one_if};
ghost use Rattle.pipeline_balance.specs.Leaves.{IsLeaf, IsNegatable, leaf_value, all_negative};
ghost use Rattle.pipeline_balance.specs.Shallow.{KeepsShallow};
ghost use Rattle.pipeline_balance.specs.Shapes.{KeepsShapes};
ghost use Rattle.pipeline_balance.specs.Tree.{AddsNode, IsTree, count_to};

use crate::level::{add_level, push_nodes};
use crate::pair::shifted;
use mr_values::Memory;
use net_graph::{Leaf, Net, Node};
use std::alloc::Global;

/// The root and the registers of a tree, level by level from the leaves, each level from the left.
#[derive(Drop)]
pub struct Summed {
    pub root: Node,
    pub registers: Vec<Node>,
}

// A term's value by itself: a negative term is taken from 0.
fn root_of(net: &mut Net, term: Leaf) -> Result<Node, Memory>
    requires data_group { 1 ≤ net.old.group }
    requires is_leaf { IsLeaf net.old.cells term }
    requires room { term.negative ≡ true → IsNegatable net.old.cells term }
    ensures ok { IfOk result (λ root. AddsNode net.old net.new (one_if term.negative) root (λ cut values t. leaf_value values t term)) }
    ensures shallow { IfOk result (λ _. KeepsShallow net.old net.new term.node) }
    ensures linear { IfOk result (λ _. KeepsShapes net.old.cells net.new.cells) }
    ensures extends { Extends net.old.cells net.new.cells }
    ensures group { net.new.group ≡ net.old.group }
{
    let held = shifted(net, term)?;
    if term.negative {
        let width = net.width(term.node);
        let zero = net.constant(0, 1)?;
        let root = net.sub(zero, held, width + term.place + 1)?;
        Ok(root)
    } else {
        Ok(held)
    }
}

/// The sum of the leaves, by neighbours in pairs, in a register after each level; an odd last one passes through a register, and
/// levels are added up to `levels`. The registers are numbered on from the first free number and have these widths, level by level.
/// A register whose leaves are all negative holds the sum of their negations, and such a root is taken from 0. No leaves give the
/// constant 0. After want of memory there may be more nodes.
pub fn tree(
    alloc: Global,
    net: &mut Net,
    leaves: &[Leaf],
    levels: u32,
    widths: &[u8],
) -> Result<Summed, Memory>
    requires data_group { 1 ≤ net.old.group }
    requires leaves { (k : ℕ) (leaf : Leaf) → slice_get leaves.now k ≡ Some leaf → IsLeaf net.old.cells leaf }
    requires deep { length leaves.now ≤ 2 ^ levels }
    requires each { length widths.now ≡ count_to (length leaves.now) levels }
    requires wide { (k : ℕ) → k < length widths.now → IsWidth (get_or widths.now k 0) }
    requires leaf_room { all_negative leaves.now ≡ true → levels ≡ 0 → (k : ℕ) (leaf : Leaf) → slice_get leaves.now k ≡ Some leaf → IsNegatable net.old.cells leaf }
    requires root_room { all_negative leaves.now ≡ true → 1 ≤ levels → get_or widths.now (length widths.now - 1) 0 ≤ 127 }
    ensures ok { IfOk result (λ s. IsTree net.old net.new leaves.now widths.now levels s.registers.items s.root) }
    ensures extends { Extends net.old.cells net.new.cells }
    ensures group { net.new.group ≡ net.old.group }
{
    let mut registers = Vec::new(alloc);
    if leaves.is_empty() {
        let root = net.constant(0, 1)?;
        return Ok(Summed { root, registers });
    }
    let mut terms = Vec::from_slice(alloc, leaves)?;
    for _level in 0..levels {
        let sums = add_level(alloc, net, &terms, widths, registers.len())?;
        push_nodes(&mut registers, &sums)?;
        terms = sums;
    }
    let root = root_of(net, terms[0])?;
    Ok(Summed { root, registers })
}
