// Copies of a window's values that are shifted up, a bit at each tick.

ghost use Rattle.std.specs.Prelude.{◌≡◌, ℕ, ◌<◌, ◌≤◌, length, vec_len, slice_get, Some, IfOk};
ghost use Rattle.net_graph.specs.declared.cell.Node.{Node};
ghost use Rattle.net_graph.specs.WellFormed.{IsWidth};
ghost use Rattle.net_graph.specs.Grow.{Extends};
ghost use Rattle.pipeline_balance.specs.Gate.{IsTickOf, IsBitOf};
ghost use Rattle.pipeline_balance.specs.Phase.{IsNarrow};
ghost use Rattle.distributed_table.specs.Copies.{AddsCopy, AddsCopies};

use mr_values::Memory;
use net_graph::{NameKind, Net, Node};
use pipeline_balance::next_register;
use std::alloc::Global;

// The highest bit of a register that takes a node's value where the bit `load` is set, and else is shifted up by one place.
fn add_copy(net: &mut Net, load: Node, from: Node, width: u8) -> Result<Node, Memory>
    requires data_group { 1 ≤ net.old.group }
    requires wide { IsWidth width }
    requires has_load { load.place < length net.old.cells }
    requires narrow { IsNarrow net.old.cells width from }
    ensures ok { IfOk result (λ high. (period first : ℕ) → IsBitOf net.old.cells (IsTickOf period first) load → AddsCopy net.old net.new period first width from high) }
    ensures extends { Extends net.old.cells net.new.cells }
    ensures group { net.new.group ≡ net.old.group }
{
    let group = net.group();
    let copy = next_register(net, group, NameKind::Copy, width)?;
    let shifted = net.shl(copy, 1, width)?;
    let next = net.mux(load, from, shifted, width)?;
    net.bind(copy, next);
    let high = net.bits(copy, width - 1, width - 1)?;
    Ok(high)
}

/// The highest bits of the copies of these nodes, each as wide as `width` says. A copy takes its node's value where the bit `load` is set,
/// and is shifted up by one place at each other tick. After want of memory there may be more nodes.
pub(crate) fn add_copies(
    alloc: Global,
    net: &mut Net,
    load: Node,
    window: &[Node],
    width: u8,
) -> Result<Vec<Node>, Memory>
    requires data_group { 1 ≤ net.old.group }
    requires wide { IsWidth width }
    requires has_load { load.place < length net.old.cells }
    requires narrow { (age : ℕ) (node : Node) → slice_get window.now age ≡ Some node → IsNarrow net.old.cells width node }
    ensures count { IfOk result (λ highs. vec_len highs ≡ length window.now) }
    ensures many { IfOk result (λ highs. length highs.items ≡ length window.now) }
    ensures ok { IfOk result (λ highs. (period first : ℕ) → IsBitOf net.old.cells (IsTickOf period first) load → AddsCopies net.old net.new period first width window.now highs.items) }
    ensures extends { Extends net.old.cells net.new.cells }
    ensures group { net.new.group ≡ net.old.group }
{
    let mut highs = Vec::new(alloc);
    for age in 0..window.len() {
        let high = add_copy(net, load, window[age], width)?;
        highs.push(high)?;
    }
    Ok(highs)
}
