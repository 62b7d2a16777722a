// A filter by distributed arithmetic before a Down.

ghost use Rattle.std.specs.Prelude.{◌≡◌, ℕ, ◌≤◌, ◌<◌, ◌^◌, length, IfOk};
ghost use Rattle.mr_values.specs.Timing.{ceil_div, ceil_log};
ghost use Rattle.mr_values.specs.Value.{AreTaps};
ghost use Rattle.net_graph.specs.Grow.{Extends};
ghost use Rattle.stage_law.specs.Realises.{IsUnused};
ghost use Rattle.stage_law.specs.Streams.{HasRoom, magnitudes};
ghost use Rattle.distributed_table.specs.Facts.{HaveBits, TakesBits, levels_of};
ghost use Rattle.distributed_table.specs.Stage.{AddsRoot};

use crate::around::values_around;
use crate::runs::{add_runs, width_of};
use crate::shown::add_shown;
use crate::totals::add_total;
use fir_pieces::ceil_log;
use mr_values::Memory;
use net_graph::{Net, Node, Stream};
use stage_law::Ranges;
use std::alloc::Global;

/// A filter before a Down in distributed arithmetic. Its taps are cut into runs of G, from 1 to 6; the last run may be shorter. Each run has a
/// table of the sums of its subsets of taps, addressed by one bit of each of the run's values, and an accumulator that adds up the table's
/// answers from the highest bit, which it subtracts, to the lowest. A tree of registers adds the accumulators. A result is given for every
/// `down` values of the stream. Each bit takes one tick, so it takes streams whose results stand at least `bits` ticks apart, and whose values
/// have at most `bits` bits in two's complement.
#[derive(Drop)]
pub struct Distributed<const G: usize> {
    pub(crate) taps: Vec<i128>,
    pub(crate) down: u32,
    pub(crate) bits: u8,
    pub(crate) levels: u32,
    ghost limits: { AreTaps taps.items },
    ghost some: { 1 ≤ G },
    ghost few: { G ≤ 6 },
    ghost down_low: { 1 ≤ down },
    ghost down_high: { down ≤ 4096 },
    ghost bits_low: { 1 ≤ bits },
    ghost bits_high: { bits ≤ 128 },
    ghost is_levels: { levels ≡ levels_of G taps.items },
}

// These taps as wider numbers.
fn widened_taps(alloc: Global, taps: &[i64]) -> Result<Vec<i128>, Memory>
    ensures { IfOk result (λ wide. wide.items ≡ taps.now) }
{
    let mut wide = Vec::new(alloc);
    for place in 0..taps.len() {
        wide.push(i128::from(taps[place]))?;
    }
    Ok(wide)
}

// The levels of a tree over the runs of so many taps.
fn levels_over(taps: usize, size: usize) -> u32
    requires few { taps ≤ 1024 }
    requires some { 1 ≤ size }
    ensures { result ≡ ceil_log (ceil_div taps size) }
{
    let count = taps.div_ceil(size);
    ceil_log(count as u64)
}

impl<const G: usize> Distributed<G> {
    ghost use Rattle.std.specs.Prelude.{IfOk};
    ghost use Rattle.distributed_table.specs.Facts.{distributed_facts};

    /// The filter with these taps, 1 to 1,024 of them and of magnitude at most 2^62, before a Down of this factor, from 1 to 4,096, over a stream
    /// whose values have so many bits, from 1 to 128. Fails only for want of memory.
    pub fn new(alloc: Global, taps: &[i64], down: u32, bits: u8) -> Result<Distributed<G>, Memory>
        requires taps { AreTaps taps.now }
        requires some { 1 ≤ G }
        requires few { G ≤ 6 }
        requires down_low { 1 ≤ down }
        requires down_high { down ≤ 4096 }
        requires bits_low { 1 ≤ bits }
        requires bits_high { bits ≤ 128 }
        ensures facts { IfOk result (λ d. distributed_facts G d.taps.items d.down d.bits ≡ distributed_facts G taps.now down bits) }
        ensures down { IfOk result (λ d. d.down ≡ down) }
        ensures bits { IfOk result (λ d. d.bits ≡ bits) }
    {
        let levels = levels_over(taps.len(), G);
        let taps = widened_taps(alloc, taps)?;
        Ok(Distributed {
            taps,
            down,
            bits,
            levels,
        })
    }

    // The sum of all runs over the stream.
    pub(crate) fn root<R: Ranges>(
        &self,
        alloc: Global,
        net: &mut Net,
        from: Stream,
        ranges: &R,
    ) -> Result<Node, Memory>
        requires within { from.node.place < length net.old.cells }
        requires group { 1 ≤ net.old.group }
        requires unused { IsUnused net.old.cells net.old.group }
        requires early { from.offset < 2 ^ 31 }
        requires takes { TakesBits self.now.down self.now.bits from.period }
        requires admits { HaveBits (R.streams ranges.now) self.now.bits }
        requires room { HasRoom (R.streams ranges.now) (magnitudes self.now.taps.items) }
        ensures ok { IfOk result (AddsRoot (R.streams ranges.now) net.old net.new from G self.now.taps.items self.now.down self.now.bits self.now.levels) }
        ensures extends { Extends net.old.cells net.new.cells }
        ensures group { net.new.group ≡ net.old.group }
    {
        let taps = self.taps.as_slice();
        let depth = taps.len() as u32;
        let shown = add_shown(alloc, net, from, depth, self.down, self.bits)?;
        let values = values_around(alloc, ranges)?;
        let highs = shown.highs.as_slice();
        let leaves = add_runs::<G>(alloc, net, shown.begin, highs, taps, values)?;
        let width = width_of(taps, values);
        let root = add_total(alloc, net, leaves.as_slice(), self.levels, width)?;
        Ok(root)
    }
}
