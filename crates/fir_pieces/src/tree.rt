// A tree of sums over nodes that show sums of a stream's values.

ghost use Rattle.std.specs.Prelude.{◌≡◌, ℕ, ◌-◌, ◌^◌, ◌<◌, ◌≤◌, length, map, get_or, true, All, IfOk};
ghost use Rattle.net_graph.specs.Grow.{Extends};
ghost use Rattle.net_graph.specs.WellFormed.{IsWidth};
ghost use Rattle.pipeline_balance.specs.Leaves.{IsLeaf, IsNegatable};
ghost use Rattle.pipeline_balance.specs.Tree.{IsTree, count_to};
ghost use Rattle.fir_pieces.specs.Placed.{leaf_of, all_minus};
ghost use Rattle.fir_pieces.specs.Sums.{AddsTree, IsReady};

use crate::held::Held;
use crate::leaves::leaves_of;
use crate::reading::Reading;
use crate::widths::{every_beat, tree_held, widths_of};
use mr_values::Memory;
use net_graph::{Net, Node};
use pipeline_balance::{Summed, tree};
use signed_digit::Term;
use stage_law::Ranges;
use std::alloc::Global;

/// A tree of sums: its root, and its registers, level by level, with what these hold.
#[derive(Drop)]
pub struct Tree {
    pub root: Node,
    pub registers: Vec<Node>,
    pub held: Vec<Held>,
}

/// Nodes that show these readings of a stream's values, so many ticks after a window.
#[derive(Drop)]
pub struct Shown {
    pub nodes: Vec<Node>,
    pub readings: Vec<Reading>,
    pub ticks: u8,
}

/// The tree of these terms over the nodes, in registers of these widths, numbered on from the first free number. After want of memory
/// there may be more nodes.
pub fn tree_over(
    alloc: Global,
    net: &mut Net,
    nodes: &[Node],
    terms: &[Term],
    levels: u32,
    widths: &[u8],
) -> Result<Summed, Memory>
    requires data_group { 1 ≤ net.old.group }
    requires places { All (λ t. t.index < length nodes.now) terms.now }
    requires leaves { All (λ t. IsLeaf net.old.cells (leaf_of nodes.now t)) terms.now }
    requires negatable { all_minus terms.now ≡ true → levels ≡ 0 → All (λ t. IsNegatable net.old.cells (leaf_of nodes.now t)) terms.now }
    requires deep { length terms.now ≤ 2 ^ levels }
    requires each { length widths.now ≡ count_to (length terms.now) levels }
    requires wide { (k : ℕ) → k < length widths.now → IsWidth (get_or widths.now k 0) }
    requires root_room { all_minus terms.now ≡ true → 1 ≤ levels → get_or widths.now (length widths.now - 1) 0 ≤ 127 }
    ensures ok { IfOk result (λ s. IsTree net.old net.new (map (leaf_of nodes.now) terms.now) widths.now levels s.registers.items s.root) }
    ensures extends { Extends net.old.cells net.new.cells }
    ensures group { net.new.group ≡ net.old.group }
{
    let leaves = leaves_of(alloc, nodes, terms)?;
    tree(alloc, net, leaves.as_slice(), levels, widths)
}

/// The sum of these terms of what nodes show, in registers of the least widths, numbered on from the first free number. After want of
/// memory there may be more nodes.
pub fn sum_tree<R: Ranges>(
    alloc: Global,
    net: &mut Net,
    shown: &Shown,
    terms: &[Term],
    levels: u32,
    ranges: &R,
) -> Result<Tree, Memory>
    requires data_group { 1 ≤ net.old.group }
    requires ready { IsReady (R.streams ranges.now) net.old.cells shown.now.nodes.items shown.now.readings.items terms.now levels }
    ensures ok { IfOk result (λ s. AddsTree (R.streams ranges.now) net.old net.new shown.now.nodes.items shown.now.readings.items shown.now.ticks terms.now levels s.held.items s.registers.items s.root) }
    ensures extends { Extends net.old.cells net.new.cells }
    ensures group { net.new.group ≡ net.old.group }
{
    let readings = shown.readings.as_slice();
    let beat = every_beat(u64::from(shown.ticks) + 1);
    let held = tree_held(alloc, readings, beat, terms, levels, ranges)?;
    let widths = widths_of(alloc, held.as_slice())?;
    let nodes = shown.nodes.as_slice();
    let sum = tree_over(alloc, net, nodes, terms, levels, widths.as_slice())?;
    Ok(Tree {
        root: sum.root,
        registers: sum.registers,
        held,
    })
}
