// A window over a stream that is cut to the width of its values.

ghost use Rattle.std.specs.Prelude.{◌≡◌, ℕ, ◌*◌, ◌^◌, ◌<◌, ◌≤◌, length, vec_len, IfOk, OnErr};
ghost use Rattle.net_graph.specs.Grow.{Extends};
ghost use Rattle.net_graph.specs.WellFormed.{IsWidth};
ghost use Rattle.stage_law.specs.Streams.{AreWithin};
ghost use Rattle.stage_law.specs.Realises.{IsUnused};
ghost use Rattle.fir_pieces.specs.Cutting.{IsNarrowed, AddsClassWindow, AddsWindow};

use crate::widths::width_of;
use mr_values::Memory;
use net_graph::{Net, Node, Stream};
use pipeline_balance::window;
use stage_law::{Class, Ranges, WeightedSum};
use std::alloc::Global;

/// The node, cut or extended to this width.
pub(crate) fn narrowed(net: &mut Net, from: Node, width: u8) -> Result<Node, Memory>
    requires within { from.place < length net.old.cells }
    requires data_group { 1 ≤ net.old.group }
    requires wide { IsWidth width }
    ensures ok { IfOk result (IsNarrowed net.old net.new from width) }
    ensures extends { Extends net.old.cells net.new.cells }
    ensures group { net.new.group ≡ net.old.group }
    ensures err { OnErr result (net.new ≡ net.old) }
{
    if net.width(from) == width {
        return Ok(from);
    }
    let to = net.shl(from, 0, width)?;
    Ok(to)
}

/// A window of so many values of a stream, as wide as the values of a class of the filter's stream need, which this one carries.
pub fn class_window<R: Ranges>(
    alloc: Global,
    net: &mut Net,
    taken: Stream,
    class: Class,
    depth: u32,
    ranges: &R,
) -> Result<Vec<Node>, Memory>
    requires within { taken.node.place < length net.old.cells }
    requires data_group { 1 ≤ net.old.group }
    requires positive { 1 ≤ taken.period }
    requires proper { class.residue < class.modulus }
    requires room { (most : ℕ) × AreWithin (R.streams ranges.now) most × (most ≤ 2 ^ 125) }
    ensures many { IfOk result (λ nodes. length nodes.items ≡ depth) }
    ensures ok { IfOk result (λ nodes. AddsClassWindow (R.streams ranges.now) net.old net.new taken class nodes.items) }
    ensures extends { Extends net.old.cells net.new.cells }
    ensures group { net.new.group ≡ net.old.group }
{
    let value = WeightedSum::value(alloc, 0)?;
    let range = ranges.range(&value, class);
    let width = width_of(range);
    let node = narrowed(net, taken.node, width)?;
    let narrow = Stream {
        node,
        period: taken.period,
        offset: taken.offset,
    };
    let nodes = window(alloc, net, narrow, depth)?;
    Ok(nodes)
}

/// A window of so many values of the stream, as wide as its values need.
pub fn cut_window<R: Ranges>(
    alloc: Global,
    net: &mut Net,
    from: Stream,
    depth: u32,
    ranges: &R,
) -> Result<Vec<Node>, Memory>
    requires within { from.node.place < length net.old.cells }
    requires data_group { 1 ≤ net.old.group }
    requires unused { IsUnused net.old.cells net.old.group }
    requires positive { 1 ≤ from.period }
    requires room { (most : ℕ) × AreWithin (R.streams ranges.now) most × (most ≤ 2 ^ 125) }
    ensures many { IfOk result (λ nodes. length nodes.items ≡ depth) }
    ensures ok { IfOk result (λ nodes. AddsWindow (R.streams ranges.now) net.old net.new from nodes.items) }
    ensures extends { Extends net.old.cells net.new.cells }
    ensures group { net.new.group ≡ net.old.group }
{
    let every = Class {
        modulus: 1,
        residue: 0,
    };
    class_window(alloc, net, from, every, depth, ranges)
}
