// The trees of the phases, and the selection of the one that is shown.

ghost use Rattle.std.specs.Prelude.{◌≡◌, ℕ, ◌+◌, ◌*◌, ◌%◌, ◌^◌, ◌<◌, ◌≤◌, length, slice_get, Some, IfOk};
ghost use Rattle.net_graph.specs.declared.cell.Node.{Node};
ghost use Rattle.net_graph.specs.Grow.{Extends};
ghost use Rattle.net_graph.specs.WellFormed.{IsWidth};
ghost use Rattle.pipeline_balance.specs.Phase.{IsNarrow};
ghost use Rattle.polyphase_fir.specs.Roots.{IsRound, AddsShown};
ghost use Rattle.polyphase_fir.specs.Order.{IsOrder};

use mr_values::Memory;
use net_graph::{Net, Node};
use pipeline_balance::{phases, select};
use stage_law::Rates;
use std::alloc::Global;

// After how many outputs the phases come again.
fn round_of(rates: Rates) -> u32
    requires up { 1 ≤ rates.up }
    requires up_high { rates.up ≤ 4096 }
    requires down_high { rates.down ≤ 4096 }
    ensures { IsRound rates.up rates.down result }
{
    for count in 1..rates.up {
        if count * rates.down % rates.up == 0 {
            return count;
        }
    }
    rates.up
}

// The greatest width of these nodes.
fn widest(net: &Net, nodes: &[Node]) -> u8
    requires { (phase : ℕ) (node : Node) → slice_get nodes.now phase ≡ Some node → node.place < length net.now.cells }
    ensures wide { IsWidth result }
    ensures narrow { (phase : ℕ) (node : Node) → slice_get nodes.now phase ≡ Some node → IsNarrow net.now.cells result node }
{
    let mut width = 1;
    for node in nodes {
        width = net.width(*node).max(width);
    }
    width
}

// The roots in the order in which their phases are shown.
fn in_order(alloc: Global, roots: &[Node], rates: Rates, count: u32) -> Result<Vec<Node>, Memory>
    requires up { 1 ≤ rates.up }
    requires up_high { rates.up ≤ 4096 }
    requires down_high { rates.down ≤ 4096 }
    requires few { count ≤ 4096 }
    requires all { length roots.now ≡ rates.up }
    ensures { IfOk result (λ shown. IsOrder roots.now rates.up rates.down count shown.items) }
{
    let mut shown = Vec::new(alloc);
    for j in 0..count {
        let phase = j * rates.down % rates.up;
        shown.push(roots[phase as usize])?;
    }
    Ok(shown)
}

/// The root of the phase that is shown at each of the ticks `first + n * period`.
pub(crate) fn shown_root(
    alloc: Global,
    net: &mut Net,
    roots: &[Node],
    rates: Rates,
    period: u64,
    first: u64,
) -> Result<Node, Memory>
    requires data_group { 1 ≤ net.old.group }
    requires within { (phase : ℕ) (node : Node) → slice_get roots.now phase ≡ Some node → node.place < length net.old.cells }
    requires up { 1 ≤ rates.up }
    requires up_high { rates.up ≤ 4096 }
    requires down_high { rates.down ≤ 4096 }
    requires all { length roots.now ≡ rates.up }
    requires positive { 1 ≤ period }
    ensures ok { IfOk result (AddsShown net.old net.new roots.now rates.up rates.down period first) }
    ensures extends { Extends net.old.cells net.new.cells }
    ensures group { net.new.group ≡ net.old.group }
{
    let count = round_of(rates);
    if count == 1 {
        return Ok(roots[0]);
    }
    let shown = in_order(alloc, roots, rates, count)?;
    let bits = phases(alloc, net, period, first, count)?;
    let width = widest(net, shown.as_slice());
    let to = select(net, bits.as_slice(), shown.as_slice(), width)?;
    Ok(to)
}
