// Copies of a window, taken once for each output.

ghost use Rattle.std.specs.Prelude.{◌≡◌, ℕ, ◌<◌, ◌≤◌, length, vec_len, get_or, slice_get, Some, IfOk, OnErr};
ghost use Rattle.net_graph.specs.declared.cell.Node.{Node};
ghost use Rattle.net_graph.specs.WellFormed.{IsWidth};
ghost use Rattle.net_graph.specs.Grow.{Extends};
ghost use Rattle.pipeline_balance.specs.Gate.{IsTickOf, IsBitOf};
ghost use Rattle.fir_pieces.specs.Cutting.{IsNarrowed};
ghost use Rattle.folded_fir.specs.Copies.{AddsCopy, AddsCopies};

use mr_values::Memory;
use net_graph::{Name, NameKind, Net, Node, Stream};
use pipeline_balance::taking_register;
use std::alloc::Global;

// The node, cut or extended to this width.
fn narrowed(net: &mut Net, from: Node, width: u8) -> Result<Node, Memory>
    requires within { from.place < length net.old.cells }
    requires data_group { 1 ≤ net.old.group }
    requires wide { IsWidth width }
    ensures ok { IfOk result (IsNarrowed net.old net.new from width) }
    ensures extends { Extends net.old.cells net.new.cells }
    ensures group { net.new.group ≡ net.old.group }
    ensures err { OnErr result (net.new ≡ net.old) }
{
    if net.width(from) == width {
        return Ok(from);
    }
    let to = net.shl(from, 0, width)?;
    Ok(to)
}

// A register of this width, with the next free number, that takes the stream's values, cut to it, where the bit `load` is set.
fn add_copy(net: &mut Net, load: Node, from: Stream, width: u8) -> Result<Node, Memory>
    requires within { from.node.place < length net.old.cells }
    requires data_group { 1 ≤ net.old.group }
    requires wide { IsWidth width }
    requires loads { IsBitOf net.old.cells (IsTickOf from.period from.offset) load }
    ensures ok { IfOk result (AddsCopy net.old net.new from width) }
    ensures extends { Extends net.old.cells net.new.cells }
    ensures group { net.new.group ≡ net.old.group }
{
    let node = narrowed(net, from.node, width)?;
    let group = net.group();
    let name = Name {
        group,
        kind: NameKind::Copy,
        number: net.free_number(group, NameKind::Copy),
    };
    let taken = Stream {
        node,
        period: from.period,
        offset: from.offset,
    };
    taking_register(net, name, taken, Some(load))
}

/// A copy of each of these nodes, as wide as `widths` says and numbered on from the first free number. Each takes its node's value, cut to
/// its width, at the ticks `first + n * period`, which the bit `load` tells. After want of memory there may be more nodes.
pub(crate) fn add_copies(
    alloc: Global,
    net: &mut Net,
    load: Node,
    window: &[Node],
    widths: &[u8],
    ticks: Ticks,
) -> Result<Vec<Node>, Memory>
    requires data_group { 1 ≤ net.old.group }
    requires within { (age : ℕ) (node : Node) → slice_get window.now age ≡ Some node → node.place < length net.old.cells }
    requires as_many { length widths.now ≡ length window.now }
    requires wide { (age : ℕ) → age < length widths.now → IsWidth (get_or widths.now age 0) }
    requires loads { IsBitOf net.old.cells (IsTickOf ticks.period ticks.first) load }
    ensures many { IfOk result (λ copies. length copies.items ≡ length window.now) }
    ensures ok { IfOk result (λ copies. AddsCopies net.old net.new ticks.period ticks.first window.now widths.now copies.items) }
    ensures extends { Extends net.old.cells net.new.cells }
    ensures group { net.new.group ≡ net.old.group }
{
    let mut copies = Vec::new(alloc);
    for age in 0..window.len() {
        let from = Stream {
            node: window[age],
            period: ticks.period,
            offset: ticks.first,
        };
        let copy = add_copy(net, load, from, widths[age])?;
        copies.push(copy)?;
    }
    Ok(copies)
}

/// The ticks `first + n * period`.
#[derive(Clone, Copy, Debug, PartialEq, Eq)]
pub(crate) struct Ticks {
    pub(crate) period: u64,
    pub(crate) first: u64,
}
