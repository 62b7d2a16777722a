// Integrators in a row, and combs in a row.

ghost use Rattle.std.specs.Prelude.{◌≡◌, ◌<◌, ◌≤◌, ◌^◌, length, IfOk};
ghost use Rattle.net_graph.specs.Grow.{Extends};
ghost use Rattle.net_graph.specs.WellFormed.{IsWidth};
ghost use Rattle.cic_chain.specs.Pieces.{AddsRow, AddsComb, AddsCombRow};

use crate::registers::{held, integrator};
use mr_values::Memory;
use net_graph::{Net, Node, Stream};
use pipeline_balance::gate_of;
use std::alloc::Global;

/// The registers of N integrators in a row, which add at the stream's ticks. After want of memory there may be more nodes.
pub(crate) fn integrators<const N: usize>(
    alloc: Global,
    net: &mut Net,
    from: Stream,
    width: u8,
) -> Result<[Node; N], Memory>
    requires within { from.node.place < length net.old.cells }
    requires data_group { 1 ≤ net.old.group }
    requires positive { 1 ≤ from.period }
    requires some { 1 ≤ N }
    requires wide { IsWidth width }
    ensures ok { IfOk result (AddsRow net.old net.new from width N) }
    ensures extends { Extends net.old.cells net.new.cells }
    ensures group { net.new.group ≡ net.old.group }
{
    let gate = gate_of(alloc, net, from)?;
    let mut registers = [from.node; N];
    let mut last = from.node;
    for stage in 0..N {
        let before = Stream {
            node: last,
            period: from.period,
            offset: from.offset,
        };
        last = integrator(net, before, gate, width)?;
        registers[stage] = last;
    }
    Ok(registers)
}

/// The registers of a comb: those of its delay, the one with the newest value first, and that of the difference.
#[derive(Clone, Copy)]
pub(crate) struct Comb<const D: usize> {
    pub(crate) delays: [Node; D],
    pub(crate) difference: Node,
}

// The comb of a stream and of its value D values before, whose difference stands in its register a tick later.
fn add_comb<const D: usize>(
    alloc: Global,
    net: &mut Net,
    from: Stream,
    width: u8,
) -> Result<Comb<D>, Memory>
    requires within { from.node.place < length net.old.cells }
    requires data_group { 1 ≤ net.old.group }
    requires positive { 1 ≤ from.period }
    requires wide { IsWidth width }
    ensures ok { IfOk result (AddsComb net.old net.new from width D) }
    ensures extends { Extends net.old.cells net.new.cells }
    ensures group { net.new.group ≡ net.old.group }
{
    let gate = gate_of(alloc, net, from)?;
    let mut delays = [from.node; D];
    let mut last = from.node;
    for value in 0..D {
        let before = Stream {
            node: last,
            period: from.period,
            offset: from.offset,
        };
        last = held(net, before, gate, width)?;
        delays[value] = last;
    }
    let change = Stream {
        node: net.sub(from.node, last, width)?,
        period: from.period,
        offset: from.offset,
    };
    let difference = held(net, change, gate, width)?;
    Ok(Comb { delays, difference })
}

/// Combs in a row: the registers of each, and the stream of the last one's differences.
#[derive(Clone, Copy)]
pub(crate) struct CombRow<const N: usize, const D: usize> {
    pub(crate) each: [Comb<D>; N],
    pub(crate) to: Stream,
}

/// N combs over D values each in a row, each a tick later than what it reads. After want of memory there may be more nodes.
pub(crate) fn combs<const N: usize, const D: usize>(
    alloc: Global,
    net: &mut Net,
    from: Stream,
    width: u8,
) -> Result<CombRow<N, D>, Memory>
    requires within { from.node.place < length net.old.cells }
    requires data_group { 1 ≤ net.old.group }
    requires positive { 1 ≤ from.period }
    requires few { N ≤ 8 }
    requires close { D ≤ 2 }
    requires early { from.offset < 2 ^ 62 }
    requires wide { IsWidth width }
    ensures ok { IfOk result (λ row. AddsCombRow net.old net.new from width N D row.each row.to) }
    ensures extends { Extends net.old.cells net.new.cells }
    ensures group { net.new.group ≡ net.old.group }
{
    let unset = Comb {
        delays: [from.node; D],
        difference: from.node,
    };
    let mut each = [unset; N];
    let mut to = from;
    for stage in 0..N {
        let Comb { delays, difference } = add_comb::<D>(alloc, net, to, width)?;
        each[stage] = Comb { delays, difference };
        to = Stream {
            node: difference,
            period: to.period,
            offset: to.offset + 1,
        };
    }
    Ok(CombRow { each, to })
}
