// Accumulators, which are cleared where an output begins.

ghost use Rattle.std.specs.Prelude.{◌≡◌, ◌<◌, ◌≤◌, length, IfOk};
ghost use Rattle.net_graph.specs.WellFormed.{IsWidth};
ghost use Rattle.net_graph.specs.Grow.{Extends};
ghost use Rattle.folded_fir.specs.Accumulators.{AddsAccumulator};

use mr_values::Memory;
use net_graph::{NameKind, Net, Node};
use pipeline_balance::next_register;

/// A register of this width, with the next free number, that takes at each tick the operand's value, and its own besides where the bit `clear`
/// is not set. After want of memory there may be more nodes.
pub(crate) fn add_accumulator(
    net: &mut Net,
    clear: Node,
    operand: Node,
    width: u8,
) -> Result<Node, Memory>
    requires data_group { 1 ≤ net.old.group }
    requires wide { IsWidth width }
    requires has_clear { clear.place < length net.old.cells }
    requires has_operand { operand.place < length net.old.cells }
    ensures ok { IfOk result (AddsAccumulator net.old net.new clear operand width) }
    ensures extends { Extends net.old.cells net.new.cells }
    ensures group { net.new.group ≡ net.old.group }
{
    let zero = net.constant(0, 1)?;
    let group = net.group();
    let sum = next_register(net, group, NameKind::Register, width)?;
    let kept = net.mux(clear, zero, sum, width)?;
    let next = net.add(kept, operand, width)?;
    net.bind(sum, next);
    Ok(sum)
}
