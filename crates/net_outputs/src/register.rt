// The output register.

ghost use Rattle.std.specs.Prelude.{◌≡◌, ◌≤◌, ◌<◌, length, IfOk};
ghost use Rattle.mr_values.specs.Width.{IsLeastWidth};
ghost use Rattle.net_graph.specs.WellFormed.{IsWidth, IsFree};
ghost use Rattle.net_graph.specs.declared.name.NameKind.TheVariants.{Output};
ghost use Rattle.net_graph.specs.Grow.{Extends};
ghost use Rattle.pipeline_balance.specs.Numbered.{name_of};
ghost use Rattle.net_outputs.specs.Register.{IsCutTo, AddsOutputRegister};

use mr_values::{Memory, least_width};
use net_graph::{Name, NameKind, Net, Node, Stream};
use pipeline_balance::{gate_of, taking_register};
use stage_law::Range;
use std::alloc::Global;

// The node cut to a width.
fn cut_to(net: &mut Net, node: Node, width: u8) -> Result<Node, Memory>
    requires within { node.place < length net.old.cells }
    requires data_group { 1 ≤ net.old.group }
    requires wide { IsWidth width }
    ensures ok { IfOk result (IsCutTo net.old net.new node width) }
    ensures extends { Extends net.old.cells net.new.cells }
    ensures group { net.new.group ≡ net.old.group }
{
    if net.width(node) == width {
        return Ok(node);
    }
    let to = net.shl(node, 0, width)?;
    Ok(to)
}

/// The least number of bits that holds the range.
pub fn range_width(range: Range) -> u8
    ensures { IsLeastWidth range.lo range.hi result }
{
    least_width(range.lo, range.hi)
}

/// Adds the output register, which takes the stream at its ticks and is as wide as the range needs. Fails only for want of memory;
/// then there may be more nodes.
pub fn output_register(
    alloc: Global,
    net: &mut Net,
    from: Stream,
    range: Range,
) -> Result<Node, Memory>
    requires within { from.node.place < length net.old.cells }
    requires data_group { 1 ≤ net.old.group }
    requires positive { 1 ≤ from.period }
    requires free { IsFree net.old.cells (name_of 0 Output 0) }
    ensures ok { IfOk result (AddsOutputRegister range.lo range.hi net.old net.new from) }
{
    let width = range_width(range);
    let node = cut_to(net, from.node, width)?;
    let end = Stream {
        node,
        period: from.period,
        offset: from.offset,
    };
    let gate = gate_of(alloc, net, end)?;
    let name = Name {
        group: 0,
        kind: NameKind::Output,
        number: 0,
    };
    let register = taking_register(net, name, end, gate)?;
    Ok(register)
}
