// The sum of the registers of all runs.

ghost use Rattle.std.specs.Prelude.{◌≡◌, ℕ, ◌^◌, ◌<◌, ◌≤◌, length, get_or, vec_len, slice_get, Some, false, IfOk};
ghost use Rattle.net_graph.specs.declared.cell.Leaf.{Leaf};
ghost use Rattle.net_graph.specs.Grow.{Extends};
ghost use Rattle.pipeline_balance.specs.Leaves.{IsLeaf};
ghost use Rattle.pipeline_balance.specs.Tree.{count_to};
ghost use Rattle.distributed_table.specs.Totals.{AddsTotal};

use mr_values::Memory;
use net_graph::{Leaf, Net, Node};
use pipeline_balance::tree;
use std::alloc::Global;

// How many registers a tree of these levels has over so many leaves.
fn register_count(leaves: usize, levels: u32) -> usize
    requires few { leaves ≤ 1024 }
    requires low { levels ≤ 10 }
    ensures { result ≡ count_to leaves levels }
{
    let mut total = 0usize;
    let mut left = leaves;
    for _level in 0..levels {
        left = (left + 1) / 2;
        total += left;
    }
    total
}

// So many widths alike.
fn alike(alloc: Global, width: u8, count: usize) -> Result<Vec<u8>, Memory>
    ensures many { IfOk result (λ widths. length widths.items ≡ count) }
    ensures each { IfOk result (λ widths. (k : ℕ) → k < length widths.items → get_or widths.items k 0 ≡ width) }
{
    let mut widths = Vec::new(alloc);
    for _place in 0..count {
        widths.push(width)?;
    }
    Ok(widths)
}

/// The sum of the leaves, so many levels later, by registers of this width. After want of memory there may be more nodes.
pub(crate) fn add_total(
    alloc: Global,
    net: &mut Net,
    leaves: &[Leaf],
    levels: u32,
    width: u8,
) -> Result<Node, Memory>
    requires data_group { 1 ≤ net.old.group }
    requires some { 1 ≤ length leaves.now }
    requires few { length leaves.now ≤ 1024 }
    requires low { levels ≤ 10 }
    requires deep { length leaves.now ≤ 2 ^ levels }
    requires wide { 1 ≤ width }
    requires most { width ≤ 127 }
    requires leaves { (k : ℕ) (leaf : Leaf) → slice_get leaves.now k ≡ Some leaf → IsLeaf net.old.cells leaf }
    requires added { (k : ℕ) (leaf : Leaf) → slice_get leaves.now k ≡ Some leaf → leaf.negative ≡ false }
    ensures ok { IfOk result (AddsTotal net.old net.new leaves.now levels width) }
    ensures extends { Extends net.old.cells net.new.cells }
    ensures group { net.new.group ≡ net.old.group }
{
    let count = register_count(leaves.len(), levels);
    let widths = alike(alloc, width, count)?;
    let sum = tree(alloc, net, leaves, levels, widths.as_slice())?;
    Ok(sum.root)
}
