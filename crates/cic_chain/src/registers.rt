// Registers of one width that take a value at the ticks of a gate.

ghost use Rattle.std.specs.Prelude.{◌≡◌, ◌<◌, ◌≤◌, length, IfOk, IfSome, OnErr};
ghost use Rattle.net_graph.specs.declared.name.NameKind.TheVariants.{Register};
ghost use Rattle.net_graph.specs.Grow.{Extends};
ghost use Rattle.net_graph.specs.WellFormed.{IsWidth};
ghost use Rattle.pipeline_balance.specs.Gate.{IsGate};
ghost use Rattle.pipeline_balance.specs.Numbered.{AddsNext};
ghost use Rattle.cic_chain.specs.Pieces.{IsNext, AddsHeld, AddsIntegrator};

use mr_values::Memory;
use net_graph::{Name, NameKind, Net, Node, Stream};

// A register of the net's group with the next free number.
fn next_register(net: &mut Net, width: u8) -> Result<Node, Memory>
    requires data_group { 1 ≤ net.old.group }
    requires wide { IsWidth width }
    ensures ok { IfOk result (AddsNext net.old net.new net.old.group Register width) }
    ensures err { OnErr result (net.new ≡ net.old) }
{
    let group = net.group();
    let kind = NameKind::Register;
    let number = net.free_number(group, kind);
    let register = net.register(
        Name {
            group,
            kind,
            number,
        },
        width,
    )?;
    Ok(register)
}

// What a register's next is that takes the node where the gate is set, and else its own value.
fn next_of(
    net: &mut Net,
    gate: Option<Node>,
    node: Node,
    register: Node,
    width: u8,
) -> Result<Node, Memory>
    requires has_gate { IfSome gate (λ on. on.place < length net.old.cells) }
    requires has_node { node.place < length net.old.cells }
    requires has_register { register.place < length net.old.cells }
    requires wide { IsWidth width }
    ensures ok { IfOk result (IsNext net.old net.new gate node register width) }
    ensures err { OnErr result (net.new ≡ net.old) }
{
    match gate {
        None => Ok(node),
        Some(on) => net.mux(on, node, register, width),
    }
}

/// A register that takes the stream's value at its ticks, which the gate tells. After want of memory there may be more nodes.
pub(crate) fn held(
    net: &mut Net,
    from: Stream,
    gate: Option<Node>,
    width: u8,
) -> Result<Node, Memory>
    requires within { from.node.place < length net.old.cells }
    requires data_group { 1 ≤ net.old.group }
    requires wide { IsWidth width }
    requires is_gate { IsGate net.old.cells from.period from.offset gate }
    ensures ok { IfOk result (AddsHeld net.old net.new from width) }
    ensures extends { Extends net.old.cells net.new.cells }
    ensures group { net.new.group ≡ net.old.group }
{
    let register = next_register(net, width)?;
    let next = next_of(net, gate, from.node, register, width)?;
    net.bind(register, next);
    Ok(register)
}

/// A register to which the stream's value is added at its ticks, which the gate tells. After want of memory there may be more nodes.
pub(crate) fn integrator(
    net: &mut Net,
    from: Stream,
    gate: Option<Node>,
    width: u8,
) -> Result<Node, Memory>
    requires within { from.node.place < length net.old.cells }
    requires data_group { 1 ≤ net.old.group }
    requires wide { IsWidth width }
    requires is_gate { IsGate net.old.cells from.period from.offset gate }
    ensures ok { IfOk result (AddsIntegrator net.old net.new from width) }
    ensures extends { Extends net.old.cells net.new.cells }
    ensures group { net.new.group ≡ net.old.group }
{
    let register = next_register(net, width)?;
    let sum = net.add(register, from.node, width)?;
    let next = next_of(net, gate, sum, register, width)?;
    net.bind(register, next);
    Ok(register)
}
