// The register of a stream.

ghost use Rattle.std.specs.Prelude.{◌≡◌, ◌<◌, ◌≤◌, length, IfOk};
ghost use Rattle.net_graph.specs.Grow.{Extends};
ghost use Rattle.rounding_stage.specs.Held.{IsHeld};

use mr_values::Memory;
use net_graph::{Name, NameKind, Net, Node, Stream};
use pipeline_balance::{gate_of, taking_register};
use std::alloc::Global;

/// A register with the next free number that takes the stream at its ticks.
pub(crate) fn held(alloc: Global, net: &mut Net, from: Stream) -> Result<Node, Memory>
    requires within { from.node.place < length net.old.cells }
    requires data_group { 1 ≤ net.old.group }
    requires positive { 1 ≤ from.period }
    ensures ok { IfOk result (IsHeld net.old net.new from) }
    ensures extends { Extends net.old.cells net.new.cells }
    ensures group { net.new.group ≡ net.old.group }
{
    let gate = gate_of(alloc, net, from)?;
    let group = net.group();
    let name = Name {
        group,
        kind: NameKind::Register,
        number: net.free_number(group, NameKind::Register),
    };
    let register = taking_register(net, name, from, gate)?;
    Ok(register)
}
