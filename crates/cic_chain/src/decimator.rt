// Integrators, every so many values, and combs.

ghost use Rattle.std.specs.Prelude.{◌≡◌, ◌<◌, ◌≤◌, ◌^◌, length, IfOk};
ghost use Rattle.net_graph.specs.Grow.{Extends};
ghost use Rattle.net_graph.specs.WellFormed.{IsWidth};
ghost use Rattle.cic_chain.specs.Pieces.{AddsDecimator};

use crate::cascades::{CombRow, combs, integrators};
use mr_values::Memory;
use net_graph::{Net, Stream};
use std::alloc::Global;

/// N integrators at the stream's ticks, every `factor`-th of the last one's values, and N combs of these over D values each, all registers
/// of one width. After want of memory there may be more nodes.
pub(crate) fn decimate<const N: usize, const D: usize>(
    alloc: Global,
    net: &mut Net,
    from: Stream,
    factor: u32,
    width: u8,
) -> Result<Stream, Memory>
    requires within { from.node.place < length net.old.cells }
    requires data_group { 1 ≤ net.old.group }
    requires positive { 1 ≤ from.period }
    requires short { from.period < 2 ^ 31 }
    requires early { from.offset < 2 ^ 31 }
    requires factor_low { 1 ≤ factor }
    requires factor_high { factor ≤ 4096 }
    requires some { 1 ≤ N }
    requires few { N ≤ 8 }
    requires close { D ≤ 2 }
    requires wide { IsWidth width }
    ensures ok { IfOk result (AddsDecimator net.old net.new from width factor N D) }
    ensures extends { Extends net.old.cells net.new.cells }
    ensures group { net.new.group ≡ net.old.group }
{
    let sums = integrators::<N>(alloc, net, from, width)?;
    let kept = Stream {
        node: sums[N - 1],
        period: from.period * u64::from(factor),
        offset: from.offset + (N as u64 - 1) * from.period + 1,
    };
    let CombRow { each: _, to } = combs::<N, D>(alloc, net, kept, width)?;
    Ok(to)
}
