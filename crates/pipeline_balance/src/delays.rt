// Earlier values of a node.

ghost use Rattle.std.specs.Prelude.{◌≡◌, ◌<◌, ◌≤◌, length, IfOk};
ghost use Rattle.net_graph.specs.Grow.{Extends};
ghost use Rattle.pipeline_balance.specs.Phase.{IsDelay};

use crate::windows::taking_register;
use mr_values::Memory;
use net_graph::{Name, NameKind, Net, Node, Stream};
use std::alloc::Global;

/// The node's value `ticks` ticks before, and 0 before there was one, by registers each as wide as the node and numbered on from the
/// first free number. After want of memory there may be more nodes.
pub fn delay(_alloc: Global, net: &mut Net, node: Node, ticks: u32) -> Result<Node, Memory>
    requires within { node.place < length net.old.cells }
    requires data_group { 1 ≤ net.old.group }
    ensures ok { IfOk result (IsDelay net.old net.new node ticks) }
    ensures extends { Extends net.old.cells net.new.cells }
    ensures group { net.new.group ≡ net.old.group }
{
    let group = net.group();
    let mut last = node;
    for _i in 0..ticks {
        let name = Name {
            group,
            kind: NameKind::Register,
            number: net.free_number(group, NameKind::Register),
        };
        let every = Stream {
            node: last,
            period: 1,
            offset: 0,
        };
        last = taking_register(net, name, every, None)?;
    }
    Ok(last)
}
