// Combs, zeros between their values, and integrators.

ghost use Rattle.std.specs.Prelude.{◌≡◌, ◌%◌, ◌<◌, ◌≤◌, ◌^◌, length, IfOk};
ghost use Rattle.net_graph.specs.Grow.{Extends};
ghost use Rattle.net_graph.specs.WellFormed.{IsWidth};
ghost use Rattle.cic_chain.specs.Pieces.{AddsStuffed, AddsInterpolator};

use crate::cascades::{CombRow, combs, integrators};
use mr_values::Memory;
use net_graph::{Net, Stream};
use pipeline_balance::counter;
use std::alloc::Global;

// The stream's values, cut to the width, with zeros between them.
fn zero_stuffed(
    alloc: Global,
    net: &mut Net,
    from: Stream,
    factor: u32,
    width: u8,
) -> Result<Stream, Memory>
    requires within { from.node.place < length net.old.cells }
    requires data_group { 1 ≤ net.old.group }
    requires positive { 1 ≤ from.period }
    requires some { 1 ≤ factor }
    requires whole { from.period % factor ≡ 0 }
    requires wide { IsWidth width }
    ensures ok { IfOk result (AddsStuffed net.old net.new from width factor) }
    ensures extends { Extends net.old.cells net.new.cells }
    ensures group { net.new.group ≡ net.old.group }
{
    let bit = counter(alloc, net, from.period, from.offset)?;
    let zero = net.constant(0, width)?;
    let node = net.mux(bit, from.node, zero, width)?;
    Ok(Stream {
        node,
        period: from.period / u64::from(factor),
        offset: from.offset,
    })
}

/// N combs over D values each at the stream's ticks, `factor` - 1 zeros after each value of the last one, and N integrators over these, all
/// registers of one width. After want of memory there may be more nodes.
pub(crate) fn interpolate<const N: usize, const D: usize>(
    alloc: Global,
    net: &mut Net,
    from: Stream,
    factor: u32,
    width: u8,
) -> Result<Stream, Memory>
    requires within { from.node.place < length net.old.cells }
    requires data_group { 1 ≤ net.old.group }
    requires positive { 1 ≤ from.period }
    requires short { from.period < 2 ^ 31 }
    requires early { from.offset < 2 ^ 31 }
    requires factor_low { 1 ≤ factor }
    requires whole { from.period % factor ≡ 0 }
    requires some { 1 ≤ N }
    requires few { N ≤ 8 }
    requires close { D ≤ 2 }
    requires wide { IsWidth width }
    ensures ok { IfOk result (AddsInterpolator net.old net.new from width factor N D) }
    ensures extends { Extends net.old.cells net.new.cells }
    ensures group { net.new.group ≡ net.old.group }
{
    let CombRow { each: _, to: slow } = combs::<N, D>(alloc, net, from, width)?;
    let fast = zero_stuffed(alloc, net, slow, factor, width)?;
    let sums = integrators::<N>(alloc, net, fast, width)?;
    Ok(Stream {
        node: sums[N - 1],
        period: fast.period,
        offset: fast.offset + (N as u64 - 1) * fast.period + 1,
    })
}
