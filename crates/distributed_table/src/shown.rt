// The bits of a window, shown from the highest.

ghost use Rattle.std.specs.Prelude.{◌≡◌, ℕ, ◌*◌, ◌^◌, ◌<◌, ◌≤◌, length, IfOk};
ghost use Rattle.net_graph.specs.declared.name.NameKind.TheVariants.{Window};
ghost use Rattle.net_graph.specs.WellFormed.{IsFree, IsWidth};
ghost use Rattle.net_graph.specs.Grow.{Extends};
ghost use Rattle.pipeline_balance.specs.Numbered.{name_of};
ghost use Rattle.distributed_table.specs.Shown.{AddsShown};

use crate::copies::add_copies;
use mr_values::Memory;
use net_graph::{Net, Node, Stream};
use pipeline_balance::{counter, window};
use std::alloc::Global;

/// The highest bits of the copies of a window, and the bit that is set where they are those of the values themselves.
#[derive(Drop)]
pub(crate) struct Shown {
    pub(crate) highs: Vec<Node>,
    pub(crate) begin: Node,
}

/// The bits of the last `depth` values of the stream, every `down` values, from the highest of so many. After want of memory there may be
/// more nodes.
pub(crate) fn add_shown(
    alloc: Global,
    net: &mut Net,
    from: Stream,
    depth: u32,
    down: u32,
    bits: u8,
) -> Result<Shown, Memory>
    requires within { from.node.place < length net.old.cells }
    requires data_group { 1 ≤ net.old.group }
    requires unused { (number : ℕ) → IsFree net.old.cells (name_of net.old.group Window number) }
    requires wide { IsWidth bits }
    requires positive { 1 ≤ from.period }
    requires short { from.period < 2 ^ 31 }
    requires early { from.offset < 2 ^ 31 }
    requires down_low { 1 ≤ down }
    requires down_high { down ≤ 4096 }
    ensures ok { IfOk result (λ s. AddsShown net.old net.new from depth down bits s.highs.items s.begin) }
    ensures extends { Extends net.old.cells net.new.cells }
    ensures group { net.new.group ≡ net.old.group }
{
    let cut = Stream {
        node: net.shl(from.node, 0, bits)?,
        period: from.period,
        offset: from.offset,
    };
    let window = window(alloc, net, cut, depth)?;
    let period = from.period * u64::from(down);
    let load = counter(alloc, net, period, from.offset + 1)?;
    let begin = counter(alloc, net, period, from.offset + 2)?;
    let highs = add_copies(alloc, net, load, window.as_slice(), bits)?;
    Ok(Shown { highs, begin })
}
