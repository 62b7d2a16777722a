// One of several nodes, chosen by a phase.

ghost use Rattle.std.specs.Prelude.{◌≡◌, ℕ, ◌<◌, ◌≤◌, length, slice_get, Some, IfOk};
ghost use Rattle.net_graph.specs.declared.cell.Node.{Node};
ghost use Rattle.net_graph.specs.WellFormed.{IsWidth};
ghost use Rattle.net_graph.specs.Grow.{Extends};
ghost use Rattle.pipeline_balance.specs.Phase.{IsNarrow, IsSelection, IsSelectionOrZero};

use mr_values::Memory;
use net_graph::{Net, Node};

/// The node whose bit alone is set, by a chain of selections of this width. After want of memory there may be more nodes.
pub fn select(net: &mut Net, bits: &[Node], nodes: &[Node], width: u8) -> Result<Node, Memory>
    requires data_group { 1 ≤ net.old.group }
    requires wide { IsWidth width }
    requires some { 1 ≤ length nodes.now }
    requires as_many { length bits.now ≡ length nodes.now }
    requires has_bits { (phase : ℕ) (bit : Node) → slice_get bits.now phase ≡ Some bit → bit.place < length net.old.cells }
    requires narrow { (phase : ℕ) (node : Node) → slice_get nodes.now phase ≡ Some node → IsNarrow net.old.cells width node }
    ensures ok { IfOk result (IsSelection net.old net.new bits.now nodes.now (length nodes.now) width) }
    ensures extends { Extends net.old.cells net.new.cells }
    ensures group { net.new.group ≡ net.old.group }
{
    let mut selected = nodes[0];
    for phase in 1..nodes.len() {
        selected = net.mux(bits[phase], nodes[phase], selected, width)?;
    }
    Ok(selected)
}

/// The node whose bit alone is set, and 0 where no bit is, by a chain of selections of this width. After want of memory there may be
/// more nodes.
pub fn select_or_zero(
    net: &mut Net,
    bits: &[Node],
    nodes: &[Node],
    width: u8,
) -> Result<Node, Memory>
    requires data_group { 1 ≤ net.old.group }
    requires wide { IsWidth width }
    requires as_many { length bits.now ≡ length nodes.now }
    requires has_bits { (phase : ℕ) (bit : Node) → slice_get bits.now phase ≡ Some bit → bit.place < length net.old.cells }
    requires narrow { (phase : ℕ) (node : Node) → slice_get nodes.now phase ≡ Some node → IsNarrow net.old.cells width node }
    ensures ok { IfOk result (IsSelectionOrZero net.old net.new bits.now nodes.now (length nodes.now) width) }
    ensures extends { Extends net.old.cells net.new.cells }
    ensures group { net.new.group ≡ net.old.group }
{
    let mut selected = net.constant(0, width)?;
    for phase in 0..nodes.len() {
        selected = net.mux(bits[phase], nodes[phase], selected, width)?;
    }
    Ok(selected)
}
