// One level of an adder tree.

ghost use Rattle.std.specs.Prelude.{◌≡◌, ℕ, ◌+◌, ◌*◌, ◌/◌, ◌<◌, ◌≤◌, ◌++◌, length, map, get_or, Some, slice_get, IfOk};
ghost use Rattle.net_graph.specs.declared.cell.Leaf.{Leaf};
ghost use Rattle.net_graph.specs.WellFormed.{IsWidth};
ghost use Rattle.net_graph.specs.Grow.{Extends};
ghost use Rattle.pipeline_balance.specs.Leaves.{IsLeaf, segment};
ghost use Rattle.pipeline_balance.specs.Tree.{AddsSum, IsLevel, pair_adders};

use crate::pair::{sum_of_one, sum_of_two};
use mr_values::Memory;
use net_graph::{Leaf, Net, Node};
use std::alloc::Global;

// The sum of the pair number j, or of the last leaf by itself.
fn sum_at(net: &mut Net, leaves: &[Leaf], j: usize, width: u8) -> Result<Leaf, Memory>
    requires data_group { 1 ≤ net.old.group }
    requires leaves { (k : ℕ) (leaf : Leaf) → slice_get leaves.now k ≡ Some leaf → IsLeaf net.old.cells leaf }
    requires within { j * 2 < length leaves.now }
    requires wide { IsWidth width }
    ensures ok { IfOk result (AddsSum net.old net.new (segment 1 j leaves.now) width (pair_adders (length leaves.now) j)) }
    ensures extends { Extends net.old.cells net.new.cells }
    ensures group { net.new.group ≡ net.old.group }
{
    let left = leaves[j * 2];
    if j * 2 + 1 < leaves.len() {
        let right = leaves[j * 2 + 1];
        sum_of_two(net, left, right, width)
    } else {
        sum_of_one(net, left, width)
    }
}

/// The registers of one level, with their widths from the place `first` on.
pub(crate) fn add_level(
    alloc: Global,
    net: &mut Net,
    leaves: &[Leaf],
    widths: &[u8],
    first: usize,
) -> Result<Vec<Leaf>, Memory>
    requires data_group { 1 ≤ net.old.group }
    requires leaves { (k : ℕ) (leaf : Leaf) → slice_get leaves.now k ≡ Some leaf → IsLeaf net.old.cells leaf }
    requires wide { (k : ℕ) → k < length widths.now → IsWidth (get_or widths.now k 0) }
    requires enough { first + (length leaves.now + 1) / 2 ≤ length widths.now }
    ensures ok { IfOk result (λ terms. IsLevel net.old net.new leaves.now widths.now first terms.items) }
    ensures extends { Extends net.old.cells net.new.cells }
    ensures group { net.new.group ≡ net.old.group }
{
    let mut terms = Vec::new(alloc);
    let count = (leaves.len() + 1) / 2;
    for j in 0..count {
        let width = widths[first + j];
        let term = sum_at(net, leaves, j, width)?;
        terms.push(term)?;
    }
    Ok(terms)
}

/// The nodes of some terms, after those before.
pub(crate) fn push_nodes(nodes: &mut Vec<Node>, terms: &[Leaf]) -> Result<(), Memory>
    ensures ok { IfOk result (λ _. nodes.new.items ≡ nodes.old.items ++ map (λ (term : Leaf). term.node) terms.now) }
{
    for term in terms {
        nodes.push(term.node)?;
    }
    Ok(())
}
