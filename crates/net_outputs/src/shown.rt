// The bit that is shown.

ghost use Rattle.std.specs.Prelude.{◌≤◌, IfOk};
ghost use Rattle.net_graph.specs.WellFormed.{IsFree};
ghost use Rattle.net_graph.specs.declared.name.NameKind.TheVariants.{Valid};
ghost use Rattle.pipeline_balance.specs.Gate.{IsTickOf};
ghost use Rattle.pipeline_balance.specs.Numbered.{name_of};
ghost use Rattle.net_outputs.specs.Shown.{AddsShownBit};

use mr_values::Memory;
use net_graph::{Name, NameKind, Net, Node};
use pipeline_balance::counter;
use std::alloc::Global;

/// Adds the bit that is shown as `out_valid`: it is set exactly at the ticks `first + k * period`. Fails only for want of memory; then
/// there may be more nodes.
pub fn shown_bit(alloc: Global, net: &mut Net, period: u64, first: u64) -> Result<Node, Memory>
    requires positive { 1 ≤ period }
    requires free { IsFree net.old.cells (name_of 0 Valid 0) }
    ensures ok { IfOk result (AddsShownBit (IsTickOf period first) net.old net.new) }
{
    let bit = counter(alloc, net, period, first)?;
    let name = Name {
        group: 0,
        kind: NameKind::Valid,
        number: 0,
    };
    net.name_node(bit, name);
    Ok(bit)
}
