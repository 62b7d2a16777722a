// Registers that take a stream's values at its ticks.

ghost use Rattle.std.specs.Prelude.{◌≡◌, ◌<◌, ◌≤◌, length, vec_len, IfOk, false};
ghost use Rattle.net_graph.specs.Name.{IsRegisterName, is_control_kind};
ghost use Rattle.net_graph.specs.WellFormed.{IsFree};
ghost use Rattle.net_graph.specs.Grow.{Extends};
ghost use Rattle.pipeline_balance.specs.Gate.{IsTickOf, IsBitOf, IsGate, IsTaken, IsWindow};

use crate::gates::gate_of;
use mr_values::Memory;
use net_graph::{Name, NameKind, Net, Node, Stream};
use std::alloc::Global;

// One register of this name, as wide as a node, that takes the node's value at every tick.
fn plain_register(net: &mut Net, name: Name, from: Node) -> Result<Node, Memory>
    requires within { from.place < length net.old.cells }
    requires data_group { 1 ≤ net.old.group }
    requires named { IsRegisterName name }
    requires data_name { is_control_kind name.kind net.old.group ≡ false }
    requires free { IsFree net.old.cells name }
    ensures ok { IfOk result (IsTaken net.old net.new (record { node = from; period = 1; offset = 0 }) name) }
    ensures extends { Extends net.old.cells net.new.cells }
    ensures group { net.new.group ≡ net.old.group }
{
    let width = net.width(from);
    let register = net.register(name, width)?;
    net.bind(register, from);
    Ok(register)
}

// One register of this name, as wide as the stream's node, that takes the node's value where the bit is set.
fn gated_register(net: &mut Net, name: Name, from: Stream, on: Node) -> Result<Node, Memory>
    requires within { from.node.place < length net.old.cells }
    requires data_group { 1 ≤ net.old.group }
    requires named { IsRegisterName name }
    requires data_name { is_control_kind name.kind net.old.group ≡ false }
    requires free { IsFree net.old.cells name }
    requires gate { IsBitOf net.old.cells (IsTickOf from.period from.offset) on }
    ensures ok { IfOk result (IsTaken net.old net.new from name) }
    ensures extends { Extends net.old.cells net.new.cells }
    ensures group { net.new.group ≡ net.old.group }
{
    let width = net.width(from.node);
    let register = net.register(name, width)?;
    let next = net.mux(on, from.node, register, width)?;
    net.bind(register, next);
    Ok(register)
}

/// One register of this name, as wide as the stream's node, that takes the node's value at the stream's ticks, which the gate
/// tells. After want of memory there may be more nodes.
pub fn taking_register(
    net: &mut Net,
    name: Name,
    from: Stream,
    gate: Option<Node>,
) -> Result<Node, Memory>
    requires within { from.node.place < length net.old.cells }
    requires data_group { 1 ≤ net.old.group }
    requires named { IsRegisterName name }
    requires data_name { is_control_kind name.kind net.old.group ≡ false }
    requires free { IsFree net.old.cells name }
    requires is_gate { IsGate net.old.cells from.period from.offset gate }
    ensures ok { IfOk result (IsTaken net.old net.new from name) }
    ensures extends { Extends net.old.cells net.new.cells }
    ensures group { net.new.group ≡ net.old.group }
{
    match gate {
        None => plain_register(net, name, from.node),
        Some(on) => gated_register(net, name, from, on),
    }
}

/// Registers with the last `depth` values of a stream, newest first, as wide as the stream's node and numbered on from the first
/// free number. After want of memory there may be more nodes.
pub fn window(alloc: Global, net: &mut Net, from: Stream, depth: u32) -> Result<Vec<Node>, Memory>
    requires within { from.node.place < length net.old.cells }
    requires data_group { 1 ≤ net.old.group }
    requires positive { 1 ≤ from.period }
    ensures count { IfOk result (λ nodes. vec_len nodes ≡ depth) }
    ensures many { IfOk result (λ nodes. length nodes.items ≡ depth) }
    ensures window { IfOk result (λ nodes. IsWindow net.old net.new from nodes.items) }
    ensures extends { Extends net.old.cells net.new.cells }
    ensures group { net.new.group ≡ net.old.group }
{
    let gate = gate_of(alloc, net, from)?;
    let group = net.group();
    let mut nodes = Vec::new(alloc);
    let mut last = from.node;
    for _i in 0..depth {
        let number = net.free_number(group, NameKind::Window);
        let name = Name {
            group,
            kind: NameKind::Window,
            number,
        };
        last = taking_register(
            net,
            name,
            Stream {
                node: last,
                period: from.period,
                offset: from.offset,
            },
            gate,
        )?;
        nodes.push(last)?;
    }
    Ok(nodes)
}
